//! Predictions of a space, or of each process of a host.
use crate::each::{EachAsked, predict_each, predict_from};
use numa_answers::{About, FromPools, shown_as, told_of, with_pools};
use numa_reports::Account;
use numa_sheets::{Format, FreePages, Touch, Watch};
use numa_space::Space;
use numa_subjects::{Added, Halt, Subject};
use std::alloc::Global;

/// Where all mapped pages of a space would go, if they were touched now, as a text, or as a page.
/// Pages that are there stay where they lie, of which there is no page.
fn prediction_in<P: Watch>(
    alloc: Global,
    space: &Space,
    asked: EachAsked<'_>,
    watch: &mut P,
) -> Result<Vec<u8>, Halt> {
    let placed = asked.lying(0);
    let mut account = Account::new(asked.free);
    let text = predict_from(alloc, space, placed, asked, true, &mut account, watch)?;
    match asked.there.first() {
        Some(_) => Ok(text),
        None => shown_as(alloc, asked.format, "prediction", text),
    }
}

/// The first node of `free` that a machine with `nodes` nodes lacks.
fn lacking_node(free: &[FreePages], nodes: u32) -> Option<u8> {
    match free.iter().find(|one| one.node as u32 >= nodes) {
        Some(lacking) => Some(lacking.node),
        None => None,
    }
}

/// The nodes of the machine of one space or of all processes.
fn nodes_of(subject: Subject<'_>) -> u32 {
    match subject {
        Subject::One(space, _) => space.machine().nodes(),
        Subject::Each(host) => host.machine().nodes(),
    }
}

/// Where all mapped pages of the one space, or of each process, would go, if they were touched now,
/// but that those that are there stay where they lie, as a text.
///
/// # Errors
/// `NoFreeNode`, `NoNode`, or `Stopped`: out of memory.
pub fn prediction_of<P: Watch>(
    alloc: Global,
    subject: Subject<'_>,
    asked: EachAsked<'_>,
    watch: &mut P,
) -> Result<Vec<u8>, Halt> {
    let nodes = nodes_of(subject);
    if let Some(node) = lacking_node(asked.free, nodes) {
        return Err(Halt::NoFreeNode(node, nodes));
    }
    let text = match subject {
        Subject::One(space, _) => prediction_in(alloc, space, asked, watch),
        Subject::Each(host) => predict_each(alloc, host, asked, watch),
    };
    match text {
        Ok(text) => {
            let stay = !asked.there.is_empty();
            let about = About::of(subject, Some(asked.touch), Added::fine(&[]));
            let about = about.staying(stay).counting(subject);
            let about = about.pooling(!asked.beside.is_empty());
            told_of(alloc, asked.format, &about, text)
        }
        Err(halt) => Err(halt),
    }
}

/// The same, behind which is said where those of 2 MiB come from, if that is known.
///
/// # Errors
/// As [`prediction_of`].
pub fn prediction_beside<P: Watch>(
    alloc: Global,
    subject: Subject<'_>,
    asked: EachAsked<'_>,
    pools: Option<&FromPools>,
    watch: &mut P,
) -> Result<Vec<u8>, Halt> {
    let text = prediction_of(alloc, subject, asked, watch)?;
    match pools {
        Some(pools) => Ok(with_pools(alloc, asked.format, text, pools)?),
        None => Ok(text),
    }
}

/// Where all mapped pages of a space would go, if they were touched now, as a text. Nodes in `free`
/// have that many free pages, and the text says how many are left.
///
/// # Errors
/// `NoFreeNode`, `NoNode`, or `Stopped`: out of memory.
pub fn predict_space(
    alloc: Global,
    space: &Space,
    asked: Touch,
    format: Format,
    free: &[FreePages],
) -> Result<Vec<u8>, Halt> {
    let asked = EachAsked {
        touch: asked,
        format,
        free,
        there: &[],
        beside: &[],
    };
    prediction_of(alloc, Subject::One(space, None), asked, &mut ())
}
