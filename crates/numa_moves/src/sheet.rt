//! What becomes of pages, as text, JSON and SVG.
ghost use Rattle.std.specs.Prelude.{◌≡◌, flat_map};
ghost use Rattle.numa_moves.specs.Sums.{AddsEach, AddsMove, IsSumOf, IsWhole, moves_at};

mod bars;
mod drawing;
mod ends;
mod flow;
mod lines;
mod objects;
mod table;

use crate::holding::{HoldingMoves, Step};
use crate::moving::ShareMove;
use crate::sums::{AllMoves, MoveSum};
use drawing::Drawing;
use numa_reports::PageSpan;
use numa_sheets::{Format, FreePages, Written};
use std::alloc::{AllocError, Global};

/// How an answer is written.
#[derive(Clone, Copy)]
pub struct Asked<'a> {
    /// The lines, one for each step.
    pub lines: &'a [String],
    /// What is wrong with each: nothing where it was accepted.
    pub faults: &'a [Vec<u8>],
    /// Whether it is about all processes of a host.
    pub is_each: bool,
    /// The process of a host that it is about alone, if it is about one.
    pub process: Option<u32>,
    /// The number of nodes of the machine.
    pub nodes: u32,
    /// The nodes with so much room, which is told of again at the end of each step.
    pub free: &'a [FreePages],
    /// Text, JSON or SVG.
    pub format: Format,
}

impl<'a> Asked<'a> {
    /// What is wrong with the line at a place; nothing where it was accepted.
    fn fault(&self, place: usize) -> &'a [u8] {
        match self.faults.get(place) {
            Some(fault) => fault.as_slice(),
            None => &[],
        }
    }
}

/// What was told of a process, or of the one space.
fn one_of(told: &[HoldingMoves], process: Option<u32>) -> Option<&HoldingMoves> {
    match process {
        Some(process) => told.iter().find(|one| one.process == process),
        None => told.first(),
    }
}

/// The places of what was told of processes, in the order in which these were made.
fn as_made(alloc: Global, told: &[HoldingMoves]) -> Result<Vec<usize>, AllocError> {
    let mut places = Vec::new(alloc);
    places.resize(told.len(), 0)?;
    for place in 0..told.len() {
        if let Some(entry) = places.get_mut(told[place].made) {
            *entry = place;
        }
    }
    Ok(places)
}

/// An answer that is written span by span.
#[derive(Drop)]
struct Sheet {
    format: Format,
    nodes: u32,
    text: Written,
    // The spans of a picture.
    drawing: Drawing,
    // The span that is open, and what becomes of its pages so far.
    span: Option<PageSpan>,
    sum: MoveSum,
    // The number of spans of the process that were written, and all its pages.
    spans: u64,
    total: MoveSum,
}

impl Sheet {
    /// Before the first step.
    fn new(alloc: Global, format: Format, nodes: u32) -> Sheet {
        Sheet {
            format,
            nodes,
            text: Written::new(alloc),
            drawing: Drawing::new(alloc),
            span: None,
            sum: MoveSum::new(),
            spans: 0,
            total: MoveSum::new(),
        }
    }

    /// Writes the open span.
    fn close(&mut self)
        ensures { self.new.total ≡ self.old.total }
    {
        let Some(span) = self.span.take() else {
            return;
        };
        let text = &mut self.text;
        match self.format {
            Format::Json => objects::put_span(text, self.spans == 0, span, &self.sum, self.nodes),
            Format::Svg(_) => self.drawing.put_span(text, span, &self.sum, self.nodes),
            _ => lines::put_span(text, span, &self.sum, self.nodes),
        }
        self.spans = self.spans.saturating_add(1);
        self.sum.clear(self.nodes);
    }

    /// Opens a span, unless it is open; another that is open is written.
    fn enter(&mut self, span: PageSpan)
        ensures { self.new.total ≡ self.old.total }
    {
        match self.span {
            Some(open) if open.first == span.first => {}
            _ => self.close(),
        }
        self.span = Some(span);
    }

    /// Adds a share; the one before it is of the same span, or that is closed.
    fn take(&mut self, moved: &ShareMove)
        ensures { AddsMove self.old.total moved.now self.new.total }
    {
        self.enter(moved.share.span);
        self.sum.add(moved);
        self.total.add(moved);
    }

    /// Takes the shares of a process, whose sum is of them alone.
    fn take_all(&mut self, moves: &[ShareMove])
        ensures { IsSumOf moves.now self.new.total }
    {
        self.total = MoveSum::new();
        for moved in moves {
            self.take(moved);
        }
        self.close();
    }

    /// Writes what became of the pages of a process.
    fn put_moves(&mut self, moves: &[ShareMove], is_last: bool)
        ensures { IsSumOf moves.now self.new.total }
    {
        self.spans = 0;
        if let Format::Svg(number) = self.format {
            self.drawing
                .begin(&mut self.text, moves, number, self.nodes);
        }
        self.take_all(moves);
        let text = &mut self.text;
        match self.format {
            Format::Json => objects::put_sum(text, &self.total, self.nodes, is_last),
            Format::Svg(_) => self.drawing.put_sum(text, self.nodes),
            _ => lines::put_sum(text, &self.total, self.nodes),
        }
    }

    /// Writes what became of the pages of a process of a host.
    fn put_process(&mut self, told: &HoldingMoves, is_first: bool)
        ensures { IsSumOf told.now.moves.items self.new.total }
    {
        let text = &mut self.text;
        match self.format {
            Format::Json => objects::begin_process(text, told.process, is_first),
            _ => text.put_form(b"process $\n", &[u64::from(told.process)]),
        }
        self.put_moves(told.moves.as_slice(), true);
    }

    /// Writes what became of the pages of the process at a place, if there is one, and adds them to
    /// all; says whether the next one is the first that is written.
    fn put_at(
        &mut self,
        told: &[HoldingMoves],
        place: usize,
        is_first: bool,
        all: &mut AllMoves,
    ) -> bool
        requires whole { IsWhole all.old }
        ensures { AddsEach all.old (moves_at told.now place) all.new }
    {
        let Some(one) = told.get(place) else {
            return is_first;
        };
        self.put_process(one, is_first);
        all.add(&self.total);
        false
    }

    /// Writes what became of the pages of all processes, those at these places one after the other,
    /// and adds them.
    fn put_each(&mut self, told: &[HoldingMoves], order: &[usize], all: &mut AllMoves)
        requires whole { IsWhole all.old }
        ensures { AddsEach all.old (flat_map (moves_at told.now) order.now) all.new }
    {
        let mut is_first = true;
        for place in order {
            is_first = self.put_at(told, *place, is_first, all);
        }
    }

    /// Writes what became of the pages of all processes, in the order in which they were made, and
    /// the sums.
    fn put_all(&mut self, alloc: Global, told: &[HoldingMoves]) -> Result<(), AllocError> {
        let mut all = AllMoves::new(alloc)?;
        let order = as_made(alloc, told)?;
        self.put_each(told, order.as_slice(), &mut all);
        drop(order);
        match self.format {
            Format::Json => objects::put_all(&mut self.text, &all, self.nodes),
            _ => lines::put_all(&mut self.text, &all, self.nodes),
        }
        drop(all);
        Ok(())
    }

    /// Writes a step.
    fn put_step(
        &mut self,
        alloc: Global,
        step: &Step,
        asked: Asked<'_>,
        place: usize,
    ) -> Result<(), AllocError> {
        let line = match asked.lines.get(place) {
            Some(line) => line.as_str(),
            None => "",
        };
        match self.format {
            Format::Json => objects::begin_step(&mut self.text, line, asked.is_each, place == 0),
            Format::Svg(_) => {
                let text = &mut self.text;
                self.drawing.begin_line(text, line, asked.fault(place));
                self.drawing.put_left(text, asked.free, &step.rooms);
            }
            _ if asked.lines.len() > 1 => lines::begin_step(&mut self.text, line),
            _ => (),
        }
        if asked.is_each {
            self.put_all(alloc, step.told.as_slice())?;
        } else if let Some(one) = one_of(step.told.as_slice(), asked.process) {
            self.put_moves(one.moves.as_slice(), false);
        }
        match self.format {
            Format::Json => objects::end_step(&mut self.text, asked.free, &step.rooms),
            Format::Svg(_) => (),
            _ => lines::put_left(&mut self.text, asked.free, &step.rooms),
        }
        Ok(())
    }
}

/// Writes all steps.
fn put_steps(
    sheet: &mut Sheet,
    alloc: Global,
    steps: &[Step],
    asked: Asked<'_>,
) -> Result<Vec<u8>, AllocError> {
    if let Format::Json = asked.format {
        sheet.text.put(b"{\"kernelpagesize_kB\":4,\"steps\":[");
    }
    for place in 0..steps.len() {
        sheet.put_step(alloc, &steps[place], asked, place)?;
    }
    match asked.format {
        Format::Json => sheet.text.put(b"\n]}\n"),
        Format::Svg(_) => return sheet.drawing.end(&mut sheet.text),
        _ => (),
    }
    sheet.text.take()
}

/// What became of the pages of spans, step by step, as text, JSON or a picture: of each span, by
/// node, how many go where, how many need not go, and how many find no room; and the same in all.
///
/// # Errors
/// `AllocError`: out of memory.
pub fn moves_text(alloc: Global, steps: &[Step], asked: Asked<'_>) -> Result<Vec<u8>, AllocError> {
    let mut sheet = Sheet::new(alloc, asked.format, asked.nodes);
    let text = put_steps(&mut sheet, alloc, steps, asked);
    drop(sheet);
    text
}
