//! Writing a prediction part by part, in any format.
ghost use Rattle.numa_reports.specs.Failing.{FailsForNode};

use crate::absent::add_counts;
use crate::fault::ReportError;
use crate::prediction::{RangePrediction, TakeRange};
use crate::request::PredictionRequest;
use crate::sheet::cells::{CELLS, first_cells};
use crate::sheet::drawing::Drawing;
use crate::sheet::fields::{RangeRow, are_whole, bytes, count_whole, placed_of};
use crate::sheet::largest::sizes_of;
use crate::sheet::nodes::{NodePages, list_nodes};
use crate::sheet::policies::PolicyTexts;
use crate::sheet::{lines, objects, pictures, records};
use numa_machine::is_part;
use numa_ranges::Run;
use numa_sheets::{Format, FreePages, Watch, Written};
use numa_space::{RangeRecord, Space};
use std::alloc::{AllocError, Global};

/// A prediction that is written range by range.
#[derive(Drop)]
pub(crate) struct PredictionWriter {
    format: Format,
    // The number of nodes of the machine.
    nodes: usize,
    policies: PolicyTexts,
    // Whether pages that find no free page are counted.
    fills: bool,
    // The number of ranges written and of their pages, in all and, where free pages are counted, by
    // node, and for each range as many bytes as a picture has cells.
    ranges: usize,
    pages: u64,
    sum: Option<Box<[u64; 256]>>,
    cells: Vec<u8>,
    // The ranges of a picture or a page, if it is one.
    drawing: Option<Box<Drawing>>,
    // The nodes that get pages of the range being written.
    listed: Vec<NodePages>,
    text: Written,
}

/// The counts of a machine's nodes.
fn shown(counts: &[u64; 256], nodes: usize) -> &[u64] {
    &counts[..nodes.min(256)]
}

/// The cells of range number `ranges`, which has `pages` pages.
fn cells_of(cells: &[u8], ranges: usize, pages: u64) -> &[u8] {
    let first = ranges.saturating_mul(CELLS);
    let end = first.saturating_add(pages.min(CELLS as u64) as usize);
    cells.get(first..end).unwrap_or(&[])
}

/// Writes a range of a page as an object.
fn put_object(drawing: &mut Option<Box<Drawing>>, text: &mut Written, row: RangeRow<'_>) {
    if let Some(drawing) = drawing {
        drawing.put_object(text, row);
    }
}

/// Draws a range of a picture.
fn put_drawn(
    drawing: &mut Option<Box<Drawing>>,
    text: &mut Written,
    row: RangeRow<'_>,
    cells: &[u8],
) {
    if let Some(drawing) = drawing {
        drawing.put_range(text, row, cells);
    }
}

impl PredictionWriter {
    /// Draws the ranges of a picture that aren't drawn by themselves, and returns how many rows it
    /// has.
    fn end_picture(&mut self) -> u64 {
        let fills = self.fills;
        let Some(drawing) = &mut self.drawing else {
            return 0;
        };
        match drawing.end(&mut self.text, &mut self.listed, fills) {
            Ok(rows) => rows,
            Err(_) => {
                self.text.lack();
                0
            }
        }
    }

    /// Ends the ranges of a page, with the sum of those that aren't written by themselves.
    fn end_page(&mut self) {
        objects::end_ranges(&mut self.text);
        let fills = self.fills;
        let Some(drawing) = &mut self.drawing else {
            return;
        };
        if let Err(_) = drawing.end_objects(&mut self.text, &mut self.listed, fills) {
            self.text.lack();
        }
    }

    /// Ends the ranges, and returns how many rows a picture has.
    fn end_ranges(&mut self) -> u64 {
        match self.format {
            Format::Svg(_) => self.end_picture(),
            Format::Html(_) => {
                self.end_page();
                0
            }
            Format::Json => {
                objects::end_ranges(&mut self.text);
                0
            }
            _ => 0,
        }
    }

    /// The number of pages of the ranges that were written.
    pub(crate) fn pages(&self) -> u64 {
        self.pages
    }

    /// The number of these pages on each node, if free pages are counted.
    pub(crate) fn sum(&self) -> [u64; 256] {
        match &self.sum {
            Some(sum) => **sum,
            None => [0; 256],
        }
    }

    /// Whether the listed pages of a range are counted as such of 2 MiB, as they are from now on,
    /// and how many it has. Records, a picture and a page for a browser have one size for all.
    fn counted(&mut self, range: &Run<RangeRecord>) -> (bool, u64) {
        let by_size = matches!(self.format, Format::Text | Format::Tap | Format::Json);
        if by_size && is_part(range.index) && are_whole(&self.listed) {
            return (true, count_whole(&mut self.listed, range.pages));
        }
        (false, range.pages)
    }

    /// Where memory for what is written comes from.
    pub(crate) fn alloc(&self) -> Global {
        self.text.alloc()
    }

    /// Takes the whole text out.
    pub(crate) fn take_text(&mut self) -> Result<Vec<u8>, AllocError> {
        self.text.take()
    }

    /// Writes the part after the last range: the total pages of each node, and the free pages left
    /// on named nodes.
    pub(crate) fn put_total(&mut self, counts: &[u64; 256], left: &[NodePages]) {
        let rows = self.end_ranges();
        let counts = shown(counts, self.nodes);
        if let Err(_) = list_nodes(&mut self.listed, counts) {
            self.text.lack();
            return;
        }
        let placed = placed_of(&self.listed, self.pages, self.fills);
        let text = &mut self.text;
        match self.format {
            Format::Json | Format::Html(_) => objects::put_total(text, placed, left),
            Format::Csv => records::put_total(text, placed, left),
            Format::Svg(_) => pictures::put_total(text, placed, counts, left, rows),
            Format::Text | Format::Tap => lines::put_total(text, placed, left),
        }
    }
}

impl TakeRange for PredictionWriter {
    fn take(&mut self, range: &Run<RangeRecord>, said: &RangePrediction) -> Result<(), AllocError> {
        list_nodes(&mut self.listed, shown(&said.counts, self.nodes))?;
        let (is_huge, pages) = self.counted(range);
        let row = RangeRow {
            start: bytes(range.first),
            end: bytes(range.first.saturating_add(range.pages)),
            policy: self.policies.text(said.policy)?,
            is_huge,
            placed: placed_of(&self.listed, pages, self.fills),
        };
        let text = &mut self.text;
        match self.format {
            Format::Text | Format::Tap => lines::put_range(text, row),
            Format::Json => objects::put_range(text, row, self.ranges == 0),
            Format::Html(_) => put_object(&mut self.drawing, text, row),
            Format::Csv => records::put_range(text, row),
            Format::Svg(_) => {
                let cells = cells_of(&self.cells, self.ranges, row.placed.pages);
                put_drawn(&mut self.drawing, text, row, cells);
            }
        }
        self.ranges = self.ranges.saturating_add(1);
        self.pages = self.pages.saturating_add(range.pages);
        if let Some(sum) = &mut self.sum {
            add_counts(sum, &said.counts);
        }
        self.text.checked()
    }
}

/// The part before the first range.
fn head(
    alloc: Global,
    asked: PredictionRequest<'_>,
    format: Format,
    drawing: &Option<Box<Drawing>>,
) -> Written {
    let mut text = Written::new(alloc);
    let (space, touch) = (asked.space, asked.touch);
    let version = asked.plan.version();
    match format {
        Format::Text | Format::Tap => (),
        Format::Json | Format::Html(_) => objects::put_head(&mut text, version, touch),
        Format::Csv => records::put_head(&mut text),
        Format::Svg(_) => {
            if let Some(drawing) = drawing {
                drawing.put_head(&mut text, version, touch, space);
            }
        }
    }
    text
}

/// The ranges of a picture or a page, if it is one, and which of them are shown by themselves.
fn drawing_of(
    alloc: Global,
    space: &Space,
    format: Format,
) -> Result<Option<Box<Drawing>>, AllocError> {
    match format {
        Format::Svg(number) | Format::Html(number) => {
            let sizes = sizes_of(alloc, space)?;
            let drawing = Box::new(alloc, Drawing::of(sizes.as_slice(), number))?;
            Ok(Some(drawing))
        }
        _ => Ok(None),
    }
}

/// No page on any node, if pages are counted so.
fn sum_if(alloc: Global, fills: bool) -> Result<Option<Box<[u64; 256]>>, AllocError> {
    if !fills {
        return Ok(None);
    }
    let sum = Box::new(alloc, [0; 256])?;
    Ok(Some(sum))
}

/// Before the first range, with these free pages, if they are counted.
pub(crate) fn begin(
    alloc: Global,
    asked: PredictionRequest<'_>,
    format: Format,
    free: Option<[u64; 256]>,
) -> Result<PredictionWriter, ReportError>
    ensures err { FailsForNode asked.entry.space.now asked.entry.plan.now
        asked.entry.touch.cpu result }
{
    let cells = match format {
        Format::Svg(_) => first_cells(alloc, asked, free)?,
        _ => Vec::new(alloc),
    };
    let drawing = drawing_of(alloc, asked.space, format)?;
    let fills = !asked.free.is_empty();
    let sum = sum_if(alloc, fills)?;
    Ok(PredictionWriter {
        format,
        nodes: asked.space.machine().nodes() as usize,
        policies: PolicyTexts::new(alloc),
        fills,
        ranges: 0,
        pages: 0,
        sum,
        cells,
        listed: Vec::new(alloc),
        text: head(alloc, asked, format, &drawing),
        drawing,
    })
}

/// The free pages left on named nodes.
pub(crate) fn left_on(
    alloc: Global,
    named: &[FreePages],
    free: &[u64; 256],
) -> Result<Vec<NodePages>, AllocError> {
    let mut left = Vec::with_capacity(alloc, named.len())?;
    for one in named {
        left.push(NodePages {
            node: one.node as u64,
            pages: free[one.node as usize],
        })?;
    }
    Ok(left)
}

/// A writer whose ranges are watched.
#[derive(Drop)]
pub(crate) struct WatchedWriter<'a, W> {
    pub(crate) parts: &'a mut PredictionWriter,
    pub(crate) watch: &'a mut W,
}

impl<W: Watch> TakeRange for WatchedWriter<'_, W> {
    fn take(&mut self, range: &Run<RangeRecord>, said: &RangePrediction) -> Result<(), AllocError> {
        self.watch.pass(range.pages);
        self.parts.take(range, said)
    }
}

/// The pages of all ranges.
pub(crate) fn sum_of(space: &Space) -> u64 {
    let mut sum = 0u64;
    for range in space.range_iter() {
        sum = sum.saturating_add(range.pages);
    }
    sum
}
