//! What was counted at the marks of a trace, and at its end.
ghost use Rattle.std.specs.Prelude.{◌≡◌};
ghost use Rattle.std.specs.Option.{option_map};
ghost use Rattle.numa_traces.specs.Phases.{has_counts, part_since};

use crate::host_reading::HostTrace;
use crate::mark::{Mark, since};
use crate::replay::Replay;
use crate::tallies::{AccessCounts, Route, Tallies};
use std::alloc::{AllocError, Global};

/// What was counted up to a mark or the end of a trace: of one process, or of each of a host's, the
/// lowest number first.
#[derive(Drop)]
pub struct Moment<'a> {
    // The text of the mark; none at the end.
    pub(crate) text: Option<&'a [u8]>,
    pub(crate) tallies: Vec<&'a Tallies>,
}

/// What was counted of one process.
fn moment_of<'a>(
    alloc: Global,
    text: Option<&'a [u8]>,
    tallies: &'a Tallies,
) -> Result<Moment<'a>, AllocError> {
    let tallies = Vec::from_slice(alloc, &[tallies])?;
    Ok(Moment { text, tallies })
}

/// What was counted of one process at each mark, and at the end.
///
/// # Errors
/// `AllocError`: out of memory.
pub fn moments_of<'a>(
    alloc: Global,
    replay: &'a Replay,
    marks: &'a [Mark],
) -> Result<Vec<Moment<'a>>, AllocError> {
    let mut moments = Vec::new(alloc);
    for mark in marks {
        moments.push(moment_of(alloc, Some(mark.text()), mark.tallies())?)?;
    }
    moments.push(moment_of(alloc, None, replay.tallies())?)?;
    Ok(moments)
}

/// The same of a process of a host; nothing where the host lacks it.
///
/// # Errors
/// `AllocError`: out of memory.
pub fn moments_in<'a>(
    alloc: Global,
    trace: &'a HostTrace,
    process: u32,
) -> Result<Vec<Moment<'a>>, AllocError> {
    let mut moments = Vec::new(alloc);
    let Some(one) = trace.replay.process(process) else {
        return Ok(moments);
    };
    for mark in &trace.marks {
        if let Some(tallies) = mark.tallies(process) {
            moments.push(moment_of(alloc, Some(mark.text()), tallies)?)?;
        }
    }
    moments.push(moment_of(alloc, None, one.replay.tallies())?)?;
    Ok(moments)
}

/// What was counted of each process at the end.
fn last_moment<'a>(alloc: Global, trace: &'a HostTrace) -> Result<Moment<'a>, AllocError> {
    let mut tallies = Vec::new(alloc);
    for (_, one) in trace.replay.iter() {
        tallies.push(one.replay.tallies())?;
    }
    Ok(Moment {
        text: None,
        tallies,
    })
}

/// What was counted of all processes of a host at each mark, and at the end.
///
/// # Errors
/// `AllocError`: out of memory.
pub fn moments_of_all<'a>(
    alloc: Global,
    trace: &'a HostTrace,
) -> Result<Vec<Moment<'a>>, AllocError> {
    let mut moments = Vec::new(alloc);
    for mark in &trace.marks {
        moments.push(Moment {
            text: Some(mark.text()),
            tallies: mark.all(alloc)?,
        })?;
    }
    moments.push(last_moment(alloc, trace)?)?;
    Ok(moments)
}

/// The moment before that of a number, if there is one.
pub(crate) fn moment_before<'a, 'b>(
    moments: &'b [Moment<'a>],
    number: usize,
) -> Option<&'b Moment<'a>> {
    moments.get(number.checked_sub(1)?)
}

/// What came to a route since a moment.
fn part_since(before: Option<&Tallies>, route: &Route, after: &AccessCounts) -> AccessCounts
    ensures { result
        ≡ part_since (option_map (λ tallies. tallies.now) before.entry) route.now after.now }
{
    match before {
        Some(before) => since(before.get(*route), *after),
        None => *after,
    }
}

/// Whether there are accesses or faults.
fn has_counts(counts: AccessCounts) -> bool
    ensures { result ≡ has_counts counts }
{
    counts.accesses > 0 || counts.faults > 0
}

/// Something that takes what came to routes.
pub(crate) trait TakeRoute {
    /// Takes the accesses of a route.
    fn take_route(&mut self, route: &Route, counts: &AccessCounts);
}

/// Hands on the routes of a process to which something came since a moment, and what came.
fn take_part<T: TakeRoute>(taker: &mut T, before: Option<&Tallies>, after: &Tallies) {
    for (route, counts) in after.iter() {
        let part = part_since(before, route, counts);
        if before.is_none() || has_counts(part) {
            taker.take_route(route, &part);
        }
    }
}

/// What was counted of the process at a place.
fn tallies_at<'a>(moment: Option<&Moment<'a>>, place: usize) -> Option<&'a Tallies> {
    moment?.tallies.get(place).copied()
}

/// Hands on the routes of all processes to which something came between two moments, and what
/// came: those of a process together.
pub(crate) fn take_between<T: TakeRoute>(
    taker: &mut T,
    before: Option<&Moment<'_>>,
    after: &Moment<'_>,
) {
    for place in 0..after.tallies.len() {
        take_part(taker, tallies_at(before, place), after.tallies[place]);
    }
}

/// Whether something was counted.
#[derive(Clone, Copy)]
struct Counted {
    something: bool,
}

impl TakeRoute for Counted {
    fn take_route(&mut self, _route: &Route, _counts: &AccessCounts) {
        self.something = true;
    }
}

/// Whether something was counted between two moments.
pub(crate) fn has_between(before: Option<&Moment<'_>>, after: &Moment<'_>) -> bool {
    let mut counted = Counted { something: false };
    take_between(&mut counted, before, after);
    counted.something
}
