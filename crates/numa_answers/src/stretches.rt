//! By which rules the pages of a span go, stretch by stretch.
use crate::reasons::put_fields;
use numa_machine::{PageSize, PlaceRefusal, is_part, turn_at};
use numa_reports::Largest;
use numa_requests::PAGE_BYTES;
use numa_rules::{Explanation, ReasonError, explain, say_stretch, say_unmapped};
use numa_sheets::{Format, Items, Object, Touch};
use numa_space::Space;
use std::alloc::{AllocError, Global};

/// Pages: the first, and the one after the last.
#[derive(Clone, Copy)]
pub struct PageInterval {
    pub first: u64,
    pub end: u64,
}

/// The stretches so far, as text or as objects; those of a page are short.
#[derive(Drop)]
struct Stretches {
    alloc: Global,
    format: Format,
    text: Vec<u8>,
    items: Items,
}

/// An object with the pages of a stretch.
fn object_of(alloc: Global, first: u64, pages: u64) -> Object {
    let mut object = Object::new(alloc);
    let end = first.saturating_add(pages);
    object.put_number("start", first.saturating_mul(PAGE_BYTES));
    object.put_number("end", end.saturating_mul(PAGE_BYTES));
    object.put_number("pages", pages);
    object
}

/// The object of pages that go by one rule, the explanation of the first, and the text of them all.
fn mapped_object(alloc: Global, said: &Explanation, pages: u64, text: &[u8]) -> Object {
    let mut object = object_of(alloc, said.page, pages);
    object.put_flag("mapped", true);
    put_fields(alloc, &mut object, said, text);
    object
}

/// The same with the first page's index, the bytes of its pages where these aren't 4 KiB, and the
/// lines of the text alone.
fn short_object(alloc: Global, said: &Explanation, text: &[u8]) -> Object {
    let mut lines = Items::new(alloc);
    lines.push_lines(text);
    let mut object = Object::new(alloc);
    object.put_number("start", said.page.saturating_mul(PAGE_BYTES));
    object.put_number("index", turn_at(said.index));
    if is_part(said.index) {
        object.put_number("bytes", PageSize::Huge.bytes());
    }
    object.put_items("words", lines);
    object
}

impl Stretches {
    /// Before the first stretch.
    fn new(alloc: Global, format: Format) -> Stretches {
        Stretches {
            alloc,
            format,
            text: Vec::new(alloc),
            items: Items::new(alloc),
        }
    }

    /// Adds pages that aren't mapped.
    fn add_unmapped(&mut self, first: u64, pages: u64) -> Result<(), AllocError> {
        if let Format::Json = self.format {
            let mut object = object_of(self.alloc, first, pages);
            object.put_flag("mapped", false);
            self.items.push_object(object);
            return Ok(());
        }
        say_unmapped(&mut self.text, first, pages)
    }

    /// Adds pages that go by one rule; the explanation is that of the first.
    fn add_mapped(
        &mut self,
        space: &Space,
        said: &Explanation,
        pages: u64,
    ) -> Result<(), AllocError> {
        say_stretch(&mut self.text, space.machine(), said, pages)?;
        let object = match self.format {
            Format::Json => mapped_object(self.alloc, said, pages, self.text.as_slice()),
            Format::Html(_) => short_object(self.alloc, said, self.text.as_slice()),
            _ => return Ok(()),
        };
        self.items.push_object(object);
        self.text.clear();
        Ok(())
    }

    /// Returns the text.
    fn end(self, asked: Touch) -> Result<Vec<u8>, AllocError> {
        let mut text = self.text;
        if let Format::Json = self.format {
            let mut object = Object::new(self.alloc);
            object.put_text("kind", "stretches");
            object.put_number("task", asked.task as u64);
            object.put_number("cpu", asked.cpu as u64);
            object.put_items("stretches", self.items);
            object.say_line(&mut text)?;
        }
        Ok(text)
    }

    /// Returns the list of the objects.
    fn listed(self) -> Result<Vec<u8>, AllocError> {
        let alloc = self.alloc;
        let list = self.items.made()?;
        list.to_vec(alloc)
    }
}

/// Adds pages that go by the rule of the first.
fn explain_pages(
    space: &Space,
    asked: Touch,
    first: u64,
    pages: u64,
    stretches: &mut Stretches,
) -> Result<(), ReasonError> {
    let said = explain(stretches.alloc, space, asked.task, first, asked.cpu)?;
    let added = stretches.add_mapped(space, &said, pages);
    drop(said);
    match added {
        Ok(()) => Ok(()),
        Err(_) => Err(ReasonError::NoMemory),
    }
}

/// Adds the pages of the interval `asked_for` that lie in a range, and before it those since the
/// page `from` that aren't mapped. Returns the page behind what was added.
fn add_range(
    space: &Space,
    asked: Touch,
    asked_for: PageInterval,
    range: PageInterval,
    stretches: &mut Stretches,
) -> Result<u64, ReasonError> {
    let PageInterval { first: from, end } = asked_for;
    let first = range.first.max(from);
    let behind = range.end.min(end);
    if first >= behind {
        return Ok(from);
    }
    if first > from {
        stretches.add_unmapped(from, first - from)?;
    }
    explain_pages(space, asked, first, behind - first, stretches)?;
    Ok(behind)
}

/// Adds all pages of an interval.
fn add_all(
    space: &Space,
    asked: Touch,
    asked_for: PageInterval,
    stretches: &mut Stretches,
) -> Result<(), ReasonError> {
    let end = asked_for.end;
    let mut page = asked_for.first;
    for range in space.range_iter() {
        let behind = range.first.saturating_add(range.pages);
        let own = PageInterval {
            first: range.first,
            end: behind,
        };
        let left = PageInterval { first: page, end };
        page = add_range(space, asked, left, own, stretches)?;
    }
    if page < end {
        stretches.add_unmapped(page, end - page)?;
    }
    Ok(())
}

/// Adds all pages of these ranges.
fn add_ranges(
    space: &Space,
    asked: Touch,
    shown: Largest,
    stretches: &mut Stretches,
) -> Result<(), ReasonError> {
    let mut shown = shown;
    for range in space.range_iter() {
        if shown.takes(range.pages) {
            explain_pages(space, asked, range.first, range.pages, stretches)?;
        }
    }
    Ok(())
}

/// By which rules the pages of an interval go, stretch by stretch, if they were touched now: as
/// text, four lines for each stretch of mapped pages and one for each of others, or as an object.
///
/// # Errors
/// `Refused(BadCpu)`: the machine lacks the faulting node. `NoMemory`: out of memory.
pub fn stretches_of(
    alloc: Global,
    space: &Space,
    asked: Touch,
    asked_for: PageInterval,
    format: Format,
) -> Result<Vec<u8>, ReasonError> {
    if asked.cpu >= space.machine().nodes() {
        return Err(ReasonError::Refused(PlaceRefusal::BadCpu));
    }
    let mut stretches = Stretches::new(alloc, format);
    add_all(space, asked, asked_for, &mut stretches)?;
    Ok(stretches.end(asked)?)
}

/// By which rules the pages of these ranges go, as a list of short objects.
///
/// # Errors
/// As [`stretches_of`].
pub(crate) fn stretches_text(
    alloc: Global,
    space: &Space,
    asked: Touch,
    shown: Largest,
) -> Result<Vec<u8>, ReasonError> {
    let mut stretches = Stretches::new(alloc, Format::Html(0));
    add_ranges(space, asked, shown, &mut stretches)?;
    Ok(stretches.listed()?)
}
