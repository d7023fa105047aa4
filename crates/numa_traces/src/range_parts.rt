//! What a trace met by range, the busiest first.
use crate::ranges::RangeTallies;
use crate::tallies::{AccessCounts, Route};
use std::alloc::{AllocError, Global};

/// Pages in a row.
#[derive(Clone, Copy)]
pub struct PageSpan {
    pub first: u64,
    pub pages: u64,
}

impl PageSpan {
    /// The address of its first byte, and that behind its last.
    pub(crate) fn addresses(&self) -> (u64, u64) {
        let behind = self.first.saturating_add(self.pages);
        (self.first.saturating_mul(4096), behind.saturating_mul(4096))
    }
}

/// What a trace met by range, and the ranges, the lowest first.
#[derive(Clone, Copy)]
pub struct RangesMet<'a> {
    pub tallies: &'a RangeTallies,
    pub spans: &'a [PageSpan],
}

/// The accesses to a range, and where its routes begin and end among those of all.
#[derive(Clone, Copy)]
pub(crate) struct RangePart {
    accesses: u64,
    // The number of the range, from 1 on.
    number: u32,
    pub(crate) begin: usize,
    pub(crate) behind: usize,
}

impl RangePart {
    /// The pages of its range, if it is one of these.
    pub(crate) fn span(&self, spans: &[PageSpan]) -> Option<PageSpan> {
        let place = self.number.checked_sub(1)?;
        spans.get(place as usize).copied()
    }
}

/// The routes of all ranges, those of a range in a row.
pub(crate) fn routes_in(
    alloc: Global,
    tallies: &RangeTallies,
) -> Result<Vec<(Route, AccessCounts)>, AllocError> {
    let mut routes = Vec::new(alloc);
    for (route, counts) in tallies.tallies().iter() {
        routes.push((*route, *counts))?;
    }
    Ok(routes)
}

/// Adds a route, which stands at a place, to the parts so far.
fn add_route(
    parts: &mut Vec<RangePart>,
    place: usize,
    number: u32,
    accesses: u64,
) -> Result<(), AllocError> {
    if let Some(part) = parts.last_mut() {
        if part.number == number {
            part.accesses = part.accesses.saturating_add(accesses);
            part.behind = place.saturating_add(1);
            return Ok(());
        }
    }
    parts.push(RangePart {
        accesses,
        number,
        begin: place,
        behind: place.saturating_add(1),
    })?;
    Ok(())
}

/// The part of each range that has routes, the busiest first; of equal ones the lowest first.
pub(crate) fn busiest(
    alloc: Global,
    routes: &[(Route, AccessCounts)],
) -> Result<Vec<RangePart>, AllocError> {
    let mut parts = Vec::new(alloc);
    for place in 0..routes.len() {
        let (route, counts) = routes[place];
        add_route(&mut parts, place, route.0, counts.accesses)?;
    }
    parts.sort_unstable_by_key(|part: &RangePart| (!part.accesses, part.number));
    Ok(parts)
}
