//! The accesses of a trace by the ranges of their pages.
ghost use Rattle.std.specs.Prelude.{◌≡◌, [], IfErr, OnOk, min, nat_le};
ghost use Rattle.std.specs.List.{prefix_len};
ghost use Rattle.std.specs.List.Sorted.{IsNonDecreasingBy, IsPermutation};
ghost use Rattle.numa_plan.specs.Meaning.{place_refusal};
ghost use Rattle.numa_traces.specs.Ranging.{CountsRange, EndsCounted, by_range, range_of};
ghost use Rattle.numa_traces.specs.Replaying.{IsNext, is_first, route_from};
ghost use Rattle.numa_traces.specs.Tallies.{Counts, IsFull, IsRoomFault};
ghost use Rattle.numa_traces.specs.declared.fault.ReplayError.TheVariants as fault;

use crate::access::Access;
use crate::fault::ReplayError;
use crate::replay::Replay;
use crate::tallies::Tallies;
use numa_plan::Plan;
use std::alloc::Global;
use std::marker::Model;

/// The numbers of accesses by the ranges of their pages, and by their routes.
#[derive(Drop)]
pub struct RangeTallies {
    // By routes that have the number of the range, from 1 on, in place of the task's.
    tallies: Tallies,
    // The first page of each range, rising.
    firsts: Vec<u64>,
}

impl Model for RangeTallies {
    ghost use Rattle.std.specs.List.Sorted.{IsNonDecreasingBy};
    ghost use Rattle.numa_traces.specs.Ranging.{Ranged};

    ghost Value = { Ranged };

    ghost view = { λ a. record { firsts = a.firsts.items; tallies = a.tallies } };

    ghost invariant = { λ a. IsNonDecreasingBy (λ first. first) a.firsts.items };
}

/// How many of these pages are at most this one, if they rise.
fn count_to(firsts: &[u64], page: u64) -> usize
    ensures { IsNonDecreasingBy (λ first. first) firsts.now
        → result ≡ prefix_len (λ first. nat_le first page) firsts.now }
{
    firsts.partition_point(
        |first: &u64| -> bool
            ensures { result ≡ nat_le first.now page }
        { *first <= page },
    )
}

/// A number, or the highest of 32 bits if it is above that.
fn number_of(count: usize) -> u32
    ensures { result ≡ min count 4294967295 }
{
    count.min(4_294_967_295) as u32
}

/// These pages, rising.
fn risen(mut firsts: Vec<u64>) -> Vec<u64>
    ensures same { IsPermutation firsts.items result.items }
    ensures rises { IsNonDecreasingBy (λ first. first) result.items }
{
    firsts.sort_unstable();
    firsts
}

impl RangeTallies {
    /// No accesses, by ranges that begin at these pages. It doesn't allocate.
    pub fn new(alloc: Global, firsts: Vec<u64>) -> RangeTallies
        ensures firsts { IsPermutation firsts.items result.firsts }
        ensures tallies { result.tallies ≡ [] }
    {
        RangeTallies {
            firsts: risen(firsts),
            tallies: Tallies::new(alloc),
        }
    }

    /// The numbers of accesses by routes, which have the number of a range in place of the task's:
    /// it is 1 for the lowest range, and 0 for pages below all ranges.
    pub fn tallies(&self) -> &Tallies
        ensures { result.now ≡ self.now.tallies }
    {
        &self.tallies
    }

    /// The number of the range of a page.
    fn range_of(&self, page: u64) -> u32
        ensures { result ≡ range_of self.now.firsts page }
    {
        number_of(count_to(self.firsts.as_slice(), page))
    }

    /// Counts accesses to a page that lies on a node, or found none. The first is a fault or not.
    ///
    /// # Errors
    /// As [`Tallies::add`]. Then nothing has changed.
    fn count(&mut self, access: Access, node: Option<u8>, is_fault: bool) -> Result<(), ReplayError>
        ensures firsts { self.new.firsts ≡ self.old.firsts }
        ensures counts { OnOk result (Counts self.old.tallies
            (by_range self.old.firsts access.page (access.task, access.cpu, node)) access.count
            is_fault self.new.tallies) }
        ensures err { IfErr result IsRoomFault }
        ensures full { IfErr result (λ why. why ≡ fault.TooMany → IsFull self.old.tallies
            (by_range self.old.firsts access.page (access.task, access.cpu, node)) access.count
            is_fault) }
    {
        let route = (self.range_of(access.page), access.cpu, node);
        self.tallies.add(route, access.count, is_fault)
    }
}

/// Replays an access, and counts it for the range of its page too, if ranges are counted.
///
/// # Errors
/// As [`Replay::take`]; or `TooMany` or `NoMemory`, for the range. Then the replay has ended.
pub(crate) fn take_counted(
    replay: &mut Replay,
    plan: &Plan,
    ranges: &mut Option<RangeTallies>,
    access: Access,
) -> Result<(), ReplayError>
    ensures accepted { OnOk result (place_refusal plan.now access.page access.cpu ≡ None) }
    ensures next { OnOk result (IsNext plan.now access replay.old replay.new) }
    ensures ranges { OnOk result (CountsRange ranges.old access
        (route_from plan.now replay.old.frames access) (is_first replay.old.frames access)
        ranges.new) }
    ensures err { IfErr result (EndsCounted plan.now replay.old ranges.old access) }
{
    let Some(counted) = ranges else {
        return replay.take(plan, access);
    };
    let was = replay.memory().node_of(access.page);
    if let Err(why) = replay.take(plan, access) {
        return Err(why);
    }
    let node = replay.memory().node_of(access.page);
    counted.count(access, node, was.is_none())
}
