//! Answers as a page to explore in a browser.
ghost use Rattle.std.specs.Prelude.{◌≢◌, []};
ghost use Rattle.numa_reports.specs.Lying.{LeavesFree};

use crate::page_head::put_head;
use crate::page_script::put_script;
use crate::stretches::stretches_text;
use numa_reports::{
    Account, Largest, PredictionRequest, ReportError, cycles_text, lying_text, shared_text,
};
use numa_rules::ReasonError;
use numa_sheets::{Format, FreePages, Touch, Watch, Written};
use numa_space::Space;
use std::alloc::{AllocError, Global};

/// The cycles of the nodes of the ranges' pages; none if free pages are counted, since a page then
/// depends on those before it.
fn cycles_of(
    alloc: Global,
    asked: PredictionRequest<'_>,
    shown: Largest,
) -> Result<Vec<u8>, ReportError> {
    if !asked.free.is_empty() {
        let mut none = Written::new(alloc);
        none.put(b"[]");
        return Ok(none.take()?);
    }
    cycles_text(alloc, asked.space, asked.plan, asked.touch, shown)
}

/// By which rules the ranges' pages go.
fn rules_of(
    alloc: Global,
    space: &Space,
    asked: Touch,
    shown: Largest,
) -> Result<Vec<u8>, ReportError> {
    match stretches_text(alloc, space, asked, shown) {
        Ok(text) => Ok(text),
        Err(ReasonError::NoMemory) => Err(ReportError::Memory),
        Err(ReasonError::Refused(refusal)) => Err(ReportError::Refused(refusal)),
    }
}

/// The object of a state, with where its pages would go, in the largest `number` ranges.
fn view_with(
    alloc: Global,
    asked: PredictionRequest<'_>,
    number: u32,
    prediction: &[u8],
) -> Result<Vec<u8>, ReportError> {
    let shown = Largest::of_ranges(alloc, asked.space, number)?;
    let stretches = rules_of(alloc, asked.space, asked.touch, shown)?;
    let cycles = cycles_of(alloc, asked, shown)?;
    let mut text = Written::new(alloc);
    text.put(b"{\"prediction\":");
    text.put(prediction);
    text.put(b",\"stretches\":");
    text.put(stretches.as_slice());
    text.put(b",\"cycles\":");
    text.put(cycles.as_slice());
    text.put(b"}");
    Ok(text.take()?)
}

/// The object of a state: where its pages would go, none of which is there, by which rules, and
/// each page's node, of the largest `number` ranges, and the sum of the others. The plan is that of
/// the space. Counting free pages is watched.
///
/// # Errors
/// As [`lying_text`].
pub fn view_text<W: Watch>(
    alloc: Global,
    asked: PredictionRequest<'_>,
    number: u32,
    watch: &mut W,
) -> Result<Vec<u8>, ReportError> {
    let prediction = lying_text(alloc, asked, Format::Html(number), watch)?;
    view_with(alloc, asked, number, &prediction)
}

/// One of several predictions, as [`shared_text`], but in place of a page its data: the object of
/// the state as its member `before`. With `tells_left` the text has what named nodes have left
/// then.
///
/// # Errors
/// As [`shared_text`].
pub fn shared_answer<W: Watch>(
    alloc: Global,
    asked: PredictionRequest<'_>,
    format: Format,
    tells_left: bool,
    account: &mut Account,
    watch: &mut W,
) -> Result<Vec<u8>, ReportError>
    ensures free { asked.entry.free.now ≢ []
        → LeavesFree asked.entry account.old.free account.new.free result }
{
    let told: &[FreePages] = if tells_left { asked.free } else { &[] };
    let text = shared_text(alloc, asked, format, told, account, watch)?;
    let Format::Html(number) = format else {
        return Ok(text);
    };
    let view = view_with(alloc, asked, number, &text)?;
    let mut data = PageData::new(alloc);
    data.put("before", view.as_slice());
    Ok(data.end()?)
}

/// The data of a page, or of one process in it: an object, member by member.
#[derive(Drop)]
pub struct PageData {
    text: Written,
    is_empty: bool,
}

impl PageData {
    /// No member.
    pub fn new(alloc: Global) -> PageData {
        PageData {
            text: Written::new(alloc),
            is_empty: true,
        }
    }

    /// Writes a member: an object, behind its name.
    pub fn put(&mut self, name: &str, object: &[u8]) {
        self.text.put(if self.is_empty {
            b"{\"".as_slice()
        } else {
            b",\""
        });
        self.is_empty = false;
        self.text.put(name.as_bytes());
        self.text.put(b"\":");
        self.text.put(object);
    }

    /// Ends the object, and returns it.
    ///
    /// # Errors
    /// `AllocError`: out of memory.
    pub fn end(&mut self) -> Result<Vec<u8>, AllocError> {
        self.text.put(b"}");
        self.text.take()
    }
}

/// A page of a kind with its data, an object with a member or more.
///
/// # Errors
/// `AllocError`: out of memory.
pub fn page_of(alloc: Global, kind: &str, data: &[u8]) -> Result<Vec<u8>, AllocError> {
    let mut text = Written::new(alloc);
    put_head(&mut text);
    text.put(b"{\"kind\":\"");
    text.put(kind.as_bytes());
    text.put(b"\",");
    text.put(data.strip_prefix(b"{").unwrap_or(data));
    put_script(&mut text);
    text.take()
}
