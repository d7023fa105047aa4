//! Differences of two spaces, without scripts.
use crate::differing::{DiffAsked, difference_to, outlook_in, told_of_difference, view_in};
use numa_reports::Outlook;
use numa_sheets::{Format, Touch};
use numa_space::Space;
use numa_subjects::{Added, Halt, Subject, nodes_with};
use std::alloc::Global;

/// The difference from a state to a space, on machines with up to so many nodes.
fn difference_from(
    alloc: Global,
    before: &Outlook,
    view: &[u8],
    after: &Space,
    nodes: u32,
    asked: DiffAsked<'_>,
) -> Result<Vec<u8>, Halt> {
    let outlook = outlook_in(alloc, after)?;
    let text = difference_to(alloc, before, view, after, &outlook, nodes, asked, &mut ());
    drop(outlook);
    text
}

/// The same from a space whose state is known.
fn difference_between(
    alloc: Global,
    before: &Space,
    outlook: &Outlook,
    after: &Space,
    nodes: u32,
    asked: DiffAsked<'_>,
) -> Result<Vec<u8>, Halt> {
    let view = view_in(alloc, before, outlook, asked)?;
    let text = difference_from(alloc, outlook, view.as_slice(), after, nodes, asked);
    drop(view);
    text
}

/// Which pages would go to another node in the second space than in the first, if they were
/// touched, as a text. Pages that one of the two lacks aren't compared.
///
/// # Errors
/// `NoNode`: a machine lacks the faulting node; or `Stopped`: out of memory.
pub fn diff_spaces(
    alloc: Global,
    before: &Space,
    after: &Space,
    touch: Touch,
    format: Format,
) -> Result<Vec<u8>, Halt> {
    let (nodes, others) = (before.machine().nodes(), after.machine().nodes());
    nodes_with(nodes.min(others), touch.cpu)?;
    let asked = DiffAsked {
        touch,
        format,
        added: Added::fine(&[]),
    };
    let outlook = outlook_in(alloc, before)?;
    let text = difference_between(alloc, before, &outlook, after, nodes.max(others), asked);
    drop(outlook);
    told_of_difference(alloc, Subject::One(after, None), asked, text)
}
