//! Comparing answers with the slow resolution.
use crate::setting::{FIRST_COMMANDS, POLICIES, command, limits, machine};
use numa_fault::{Answer, FaultRefusal};
use numa_requests::{Placement, Request};
use numa_space::Space;
use std::alloc::Global;

/// A new space after the first `version` commands. `None` if one is refused.
fn space_after(alloc: Global, version: u32) -> Option<Space> {
    let mut space = Space::new(alloc, machine(alloc)?, limits()?);
    for place in 0..version {
        space.apply(&command(place)?).ok()?;
    }
    Some(space)
}

/// The space of each version, from 0 on.
pub fn spaces(alloc: Global) -> Option<Vec<Space>> {
    let mut spaces = Vec::new(alloc);
    for version in 0..FIRST_COMMANDS + POLICIES + 1 {
        spaces.push(space_after(alloc, version)?).ok()?;
    }
    Some(spaces)
}

/// Whether the node of a placement is at its rank in the list that the space of its version has for
/// the request.
fn is_listed(spaces: &[Space], request: &Request, placement: &Placement) -> bool {
    let Some(space) = spaces.get(placement.version as usize) else {
        return false;
    };
    match space.list_at(request.task, request.page, request.cpu) {
        Ok(list) => list.get(placement.rank as usize) == Some(&placement.node),
        Err(_) => false,
    }
}

/// Whether each placement among the answers is right.
pub fn all_listed(spaces: &[Space], requests: &[Request], answers: &[Answer]) -> bool {
    for (request, answer) in requests.iter().zip(answers) {
        if let Answer::Placed(placement) = answer {
            if !is_listed(spaces, request, placement) {
                return false;
            }
        }
    }
    true
}

/// The number of answers that are placements.
pub fn placed(answers: &[Answer]) -> usize {
    answers
        .iter()
        .filter(|answer| matches!(answer, Answer::Placed(_)))
        .count()
}

/// The number of answers that say that no frame was found.
pub fn exhausted(answers: &[Answer]) -> usize {
    answers
        .iter()
        .filter(|answer| matches!(answer, Answer::Refused(FaultRefusal::Exhausted(_))))
        .count()
}
