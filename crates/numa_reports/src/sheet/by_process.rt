//! Answers about several processes as one text.

use crate::account::Account;
use crate::moves::{ENTRIES, empty_table};
use crate::sheet::changes::put_moves;
use crate::sheet::fields::{PlacedPages, placed_of};
use crate::sheet::node_moves::NodeMoves;
use crate::sheet::nodes::{NodePages, list_nodes};
use crate::sheet::parts::left_on;
use crate::sheet::sections::{Section, put_alone, put_moved, put_placed, put_section};
use crate::sheet::{lines, moved_objects, objects, records};
use itoa::Buffer;
use numa_mask::Parts;
use numa_sheets::{Format, FreePages, Touch, Written};
use std::alloc::{AllocError, Global};

/// The pages of several processes that go from each node to each.
#[derive(Drop)]
pub struct MoveSum {
    // Without entries nothing is summed.
    table: Vec<u64>,
}

impl MoveSum {
    /// Sums nothing. It doesn't allocate.
    pub fn none(alloc: Global) -> MoveSum {
        MoveSum {
            table: Vec::new(alloc),
        }
    }

    /// No pages.
    ///
    /// # Errors
    /// `AllocError`: out of memory.
    pub fn new(alloc: Global) -> Result<MoveSum, AllocError> {
        let table = empty_table(alloc, ENTRIES)?;
        Ok(MoveSum { table })
    }

    /// Adds the pages of a process.
    pub(crate) fn add(&mut self, table: &[u64]) {
        for place in 0..self.table.len().min(table.len()) {
            self.table[place] = self.table[place].saturating_add(table[place]);
        }
    }
}

/// The answers about several processes, one after the other.
#[derive(Drop)]
pub struct ByProcess {
    format: Format,
    // Whether the answers as JSON are members of one object, and not objects of a line each.
    is_whole: bool,
    text: Written,
    processes: u64,
    // The rows of pixels of the pictures so far.
    rows: u64,
}

/// Writes a line.
fn put_line(text: &mut Written, line: &[u8]) {
    text.put(line);
    text.put(b"\n");
}

/// The text without its last line feed, if it ends with one.
fn unended(part: &[u8]) -> &[u8] {
    part.strip_suffix(b"\n").unwrap_or(part)
}

impl ByProcess {
    /// Before the first process, with this text before its answer.
    fn behind(format: Format, is_whole: bool, text: Written) -> ByProcess {
        ByProcess {
            format,
            is_whole,
            text,
            processes: 0,
            rows: 0,
        }
    }

    /// Before the first process. Objects are written one a line, and pictures one below the other;
    /// other answers are text.
    pub fn new(alloc: Global, format: Format) -> ByProcess {
        let format = match format {
            Format::Json => Format::Json,
            Format::Svg(number) => Format::Svg(number),
            _ => Format::Text,
        };
        ByProcess::behind(format, false, Written::new(alloc))
    }

    /// Before the first process, if a task touches pages. Objects are members of a whole one.
    pub fn of_touch(alloc: Global, format: Format, touch: Touch) -> ByProcess {
        let mut text = Written::new(alloc);
        if let Format::Json | Format::Html(_) = format {
            let asked = [u64::from(touch.task), u64::from(touch.cpu)];
            text.put_form(
                b"{\"task\":$,\"cpu\":$,\"kernelpagesize_kB\":4,\"processes\":[",
                &asked,
            );
        }
        ByProcess::behind(format, true, text)
    }

    /// Before the first process, if a trace is replayed. Objects are members of a whole one; what
    /// is neither an object, a page nor a record is text.
    pub fn of_trace(alloc: Global, format: Format) -> ByProcess {
        let mut text = Written::new(alloc);
        if let Format::Json | Format::Html(_) = format {
            text.put(b"{\"processes\":[");
            return ByProcess::behind(format, true, text);
        }
        if let Format::Csv = format {
            return ByProcess::behind(format, true, text);
        }
        ByProcess::behind(Format::Text, true, text)
    }

    /// Writes an object with the process and its group as its first members.
    fn put_object(&mut self, process: u32, group: u32, part: &[u8]) {
        if self.is_whole {
            let before = if self.processes == 0 { "\n" } else { ",\n" };
            self.text.put(before.as_bytes());
        }
        let numbers = [u64::from(process), u64::from(group)];
        self.text.put_form(b"{\"process\":$,\"group\":$,", &numbers);
        let part = if self.is_whole { unended(part) } else { part };
        self.text.put(part.strip_prefix(b"{").unwrap_or(part));
    }

    /// Draws the picture of a process under its heading.
    fn put_picture(&mut self, process: u32, group: u32, picture: &[u8]) {
        let section = Section {
            top: self.rows,
            process,
            group,
        };
        self.rows = put_section(&mut self.text, section, picture);
    }

    /// Writes the header of records, unless it stands already, and each record of a text that has
    /// its own header behind a first field.
    fn put_records(&mut self, first: &[u8], part: &[u8]) {
        let mut is_head = true;
        for line in Parts::new(part, b'\n') {
            if !is_head && !line.is_empty() {
                self.text.put(first);
                self.text.put(b",");
                put_line(&mut self.text, line);
            } else if is_head && self.text.len() == 0 {
                self.text.put(b"process,");
                put_line(&mut self.text, line);
            }
            is_head = false;
        }
    }

    /// The records of all processes together, behind a header.
    fn put_total_records(&mut self, placed: PlacedPages<'_>, left: &[NodePages]) {
        let mut part = Written::new(self.text.alloc());
        records::put_head(&mut part);
        records::put_total(&mut part, placed, left);
        match part.take() {
            Ok(part) => self.put_records(b"", part.as_slice()),
            Err(_) => self.text.lack(),
        }
    }

    /// Adds the answer about a process in a group. An answer for a page is the object of its data.
    pub fn add(&mut self, process: u32, group: u32, part: &[u8]) {
        match self.format {
            Format::Json | Format::Html(_) => self.put_object(process, group, part),
            Format::Svg(_) => self.put_picture(process, group, part),
            Format::Csv => {
                let mut first = Buffer::new();
                self.put_records(first.format(process).as_bytes(), part);
            }
            _ => {
                self.text.put_form(b"process $\n", &[u64::from(process)]);
                self.text.put(part);
            }
        }
        self.processes = self.processes.saturating_add(1);
    }

    /// Begins what all processes have together.
    fn begin_all(&mut self) {
        match self.format {
            Format::Json | Format::Html(_) => self.text.put(b"\n]"),
            Format::Csv | Format::Svg(_) => (),
            _ => self.text.put(b"all processes\n"),
        }
    }

    /// Ends with what a trace met in all processes: lines, or further members of the object.
    pub fn end_trace(&mut self, total: &[u8]) {
        self.begin_all();
        if let Format::Json | Format::Html(_) = self.format {
            self.text.put(b",");
            self.text.put(total);
            self.text.put(b"}\n");
            return;
        }
        self.text.put(total);
    }

    /// Ends with the pages of all processes by node and, if nodes are named, the free pages left on
    /// them.
    ///
    /// # Errors
    /// `AllocError`: out of memory.
    pub fn end_placed(
        &mut self,
        account: &Account,
        free: &[FreePages],
        nodes: u32,
    ) -> Result<(), AllocError> {
        self.begin_all();
        let alloc = self.text.alloc();
        let counts = &account.taken[..(nodes as usize).min(256)];
        let mut listed = Vec::new(alloc);
        list_nodes(&mut listed, counts)?;
        let left = left_on(alloc, free, &account.free)?;
        let placed = placed_of(&listed, account.pages, !free.is_empty());
        match self.format {
            Format::Json | Format::Html(_) => objects::put_total(&mut self.text, placed, &left),
            Format::Csv => self.put_total_records(placed, &left),
            Format::Svg(_) => {
                let sections = self.text.take()?;
                put_placed(&mut self.text, &sections, self.rows, placed, counts, &left);
            }
            _ => lines::put_total(&mut self.text, placed, &left),
        }
        Ok(())
    }

    /// Ends a picture with how many pages of all processes go to another node.
    fn end_moved_picture(&mut self, pages: u64) {
        match self.text.take() {
            Ok(sections) => put_moved(&mut self.text, &sections, self.rows, pages),
            Err(_) => self.text.lack(),
        }
    }

    /// Ends with the pages of all processes that go from each node to each other.
    pub fn end_moves(&mut self, sum: &MoveSum, nodes: u32) {
        self.begin_all();
        let counts = NodeMoves::all(sum.table.as_slice(), nodes);
        match self.format {
            Format::Json | Format::Html(_) => {
                moved_objects::put_total(&mut self.text, counts);
            }
            Format::Svg(_) => self.end_moved_picture(counts.moved()),
            _ => {
                self.text.put(b"total");
                put_moves(&mut self.text, counts);
            }
        }
    }

    /// Ends pictures of which there is no total; other answers stay as they are.
    pub fn end_pictures(&mut self) {
        let Format::Svg(_) = self.format else {
            return;
        };
        match self.text.take() {
            Ok(sections) => put_alone(&mut self.text, &sections, self.rows),
            Err(_) => self.text.lack(),
        }
    }

    /// How many processes have an answer.
    pub fn processes(&self) -> u64 {
        self.processes
    }

    /// Takes the whole text out.
    ///
    /// # Errors
    /// `AllocError`: out of memory, now or when the text was written.
    pub fn take(&mut self) -> Result<Vec<u8>, AllocError> {
        self.text.take()
    }
}
