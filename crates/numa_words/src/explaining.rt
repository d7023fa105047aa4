//! Why pages go where they go, after scripts.
use crate::pooling::known_pages;
use numa_host_script::HostScript;
use numa_lines::RunFault;
use numa_play::{Findings, other_subject, page_places, subject_of};
use numa_questions::{AskedPages, ReasonsAsked, reasons_beside, reasons_of};
use numa_sheets::{Format, Touch};
use numa_subjects::{Halt, PagePlace};
use std::alloc::Global;
use std::io::Write;

/// What is to be explained.
#[derive(Clone, Copy)]
pub struct ExplainAsked {
    /// How pages are touched.
    pub touch: Touch,
    /// The pages.
    pub pages: AskedPages,
    /// Text or JSON.
    pub format: Format,
}

/// Why pages go where they go after a script, in any format, and by which rules, if `other`, the
/// same by the other rules, has them go elsewhere: of a process, or of each of a host's that has
/// mapped the page, if none is named. Of a page that is there it is said too where it lies, and how
/// it comes there: `there` is where it lies in the one space, or in each process in the order in
/// which they were made; where that isn't said, nothing is said of pages that are there. One of
/// 2 MiB lies where the script has it; of one that lies nowhere it is said what the pools have.
///
/// # Errors
/// `NoMachine`, `NoNode`, `NoHost`, `NoProcess`, `Unmapped`, or `Stopped`: out of memory.
pub fn explanation(
    alloc: Global,
    script: &HostScript,
    other: Option<&HostScript>,
    process: Option<u32>,
    asked: ExplainAsked,
    there: &[Option<PagePlace>],
) -> Result<Vec<u8>, Halt> {
    let reasons = ReasonsAsked {
        touch: asked.touch,
        pages: asked.pages,
        format: asked.format,
        there,
    };
    let subject = subject_of(script, process)?;
    let other = other_subject(other, process);
    if there.is_empty() {
        return reasons_of(alloc, subject, other, reasons);
    }
    let (touch, page) = (asked.touch, asked.pages.page);
    let known = known_pages(alloc, script, process, touch, page, there)?;
    let reasons = ReasonsAsked {
        there: known.there.as_slice(),
        ..reasons
    };
    let text = reasons_beside(alloc, subject, other, reasons, known.pooled.as_slice());
    drop(known);
    text
}

/// The explanation after scripts.
pub(crate) fn explanation_in<T: Write>(
    alloc: Global,
    findings: &Findings<T>,
    process: Option<u32>,
    asked: ExplainAsked,
) -> Result<Vec<u8>, Halt> {
    let (script, other) = (findings.script(), findings.other());
    let Ok(there) = page_places(alloc, script, process, asked.pages.page) else {
        return Err(Halt::Stopped(RunFault::Memory));
    };
    let text = explanation(alloc, script, other, process, asked, there.as_slice());
    drop(there);
    text
}

/// Finishes the messages, and returns the explanation.
pub(crate) fn explanation_after<T: Write>(
    alloc: Global,
    findings: &mut Findings<T>,
    process: Option<u32>,
    asked: ExplainAsked,
) -> Result<Vec<u8>, Halt> {
    match findings.end() {
        Ok(()) => explanation_in(alloc, findings, process, asked),
        Err(why) => Err(Halt::Stopped(why)),
    }
}
