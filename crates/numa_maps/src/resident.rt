//! The placed pages.
ghost use Rattle.std.specs.Prelude.{◌≡◌, ◌≢◌, ◌<◌, ◌≤◌, ◌^◌, ℕ, [], length, None, Some, IfSome};
ghost use Rattle.std.specs.Prelude.{IfErr, OnOk, OnErr, MatchOption, slice_get, slice_index};
ghost use Rattle.std.specs.Prelude.{◌+◌, ◌/◌, if◌then◌else◌, max, nat_le};
ghost use Rattle.std.specs.Option.{option_map};
ghost use Rattle.numa_maps.specs.Listing.{lowest_from, pages_on, placed_in};
ghost use Rattle.numa_ranges.specs.Runs.{end_of};
ghost use Rattle.numa_maps.specs.Residents.{placed_at, with_placement, without_page, IsRefusal};
ghost use Rattle.numa_maps.specs.Residents.{IsRising};

use numa_ranges::Run;
use numa_requests::Placement;
use numa_space::RangeRecord;
use std::alloc::Global;
use std::collections::BTreeMap;
use std::collections::btree_map::{Entry, Iter, Range};
use std::marker::Model;

/// The number of parts of a page of 2 MiB.
const PARTS: u64 = 512;

/// 1 for a part of a page of 2 MiB, of those from this one on that were not met yet, else 0.
fn lowest_part(part: u64, next: u64) -> u64
    ensures lowest { result ≡ (if nat_le next (part / 512) then 1 else 0) }
    ensures one { result ≤ 1 }
{
    u64::from(part / PARTS >= next)
}

/// From which page of 2 MiB on none was met, once this part was.
fn page_behind(part: u64, next: u64) -> u64
    ensures { result ≡ max next (part / 512 + 1) }
{
    next.max(part / PARTS + 1)
}

/// The placements of pages that have memory, at most one for each page. They are kept by page
/// alone: a page is placed for all tasks, whichever touched it first.
#[derive(Drop)]
pub struct Resident {
    placements: BTreeMap<u64, Placement>,
}

impl Model for Resident {
    ghost use Rattle.numa_maps.specs.Residents.{AreKept, Kept};

    ghost Value = { Kept };

    ghost view = { λ a. a.placements.entries };

    ghost invariant = { λ a. AreKept a.placements.entries };
}

/// Why a placement wasn't recorded. Both cases give it back.
#[derive(PartialEq, Eq, Debug, Drop)]
pub enum RecordRefusal {
    /// The page is already placed.
    Taken(Placement),
    /// Out of memory for another placement.
    NoMemory(Placement),
}

/// Puts a placement at its page, by one walk through the map.
///
/// # Errors
/// As [`Resident::record`].
fn put(placements: &mut BTreeMap<u64, Placement>, placement: Placement) -> Result<(), RecordRefusal>
    ensures ok { OnOk result
        (placements.new.entries ≡ with_placement placements.old.entries placement) }
    ensures free { OnOk result (placed_at placements.old.entries placement.page ≡ None) }
    ensures others { OnOk result ((page : ℕ) → page ≢ placement.page
        → placed_at placements.new.entries page ≡ placed_at placements.old.entries page) }
    ensures kept { OnOk result
        (placed_at placements.new.entries placement.page ≡ Some placement) }
    ensures err { IfErr result (λ refusal. IsRefusal placements.old.entries placement refusal) }
    ensures unchanged { OnErr result (placements.new.entries ≡ placements.old.entries) }
    ensures rising { IsRising placements.new.entries }
{
    let Ok(entry) = placements.entry(placement.page) else {
        return Err(RecordRefusal::NoMemory(placement));
    };
    match entry {
        Entry::Vacant(spot) => {
            spot.insert(placement);
            Ok(())
        }
        Entry::Occupied(_) => Err(RecordRefusal::Taken(placement)),
    }
}

impl Resident {
    /// No placements. It doesn't allocate; the allocator is kept for those that are recorded.
    pub fn new(alloc: Global) -> Resident
        ensures { result ≡ [] }
    {
        Resident {
            placements: BTreeMap::new(alloc),
        }
    }

    /// Records a placement as that of its page.
    ///
    /// # Errors
    /// `Taken`: the page already has a placement; else `NoMemory`: there is no memory for another.
    /// Then nothing has changed.
    pub fn record(&mut self, placement: Placement) -> Result<(), RecordRefusal>
        ensures ok { OnOk result (self.new ≡ with_placement self.old placement) }
        ensures free { OnOk result (placed_at self.old placement.page ≡ None) }
        ensures kept { OnOk result (placed_at self.new placement.page ≡ Some placement) }
        ensures others { OnOk result ((page : ℕ) → page ≢ placement.page
            → placed_at self.new page ≡ placed_at self.old page) }
        ensures err { IfErr result (λ refusal. IsRefusal self.old placement refusal) }
        ensures unchanged { OnErr result (self.new ≡ self.old) }
        ensures rising { IsRising self.new }
    {
        put(&mut self.placements, placement)
    }

    /// The placement of a page, if it is placed.
    pub fn at(&self, page: u64) -> Option<&Placement>
        ensures kept { MatchOption result (placed_at self.now page ≡ None)
            (λ placement. placed_at self.now page ≡ Some placement.now) }
        ensures page { IfSome result (λ placement. placement.now.page ≡ page) }
    {
        self.placements.get(&page)
    }

    /// Removes the placement of a page, if it is placed.
    pub fn remove(&mut self, page: u64) -> Option<Placement>
        ensures kept { result ≡ placed_at self.old page }
        ensures rest { self.new ≡ without_page self.old page }
        ensures page { IfSome result (λ placement. placement.page ≡ page) }
        ensures gone { placed_at self.new page ≡ None }
        ensures others { (other : ℕ) → other ≢ page
            → placed_at self.new other ≡ placed_at self.old other }
        ensures rising { IsRising self.new }
    {
        self.placements.remove(&page)
    }

    /// The pages that are placed, in ascending order, each with its placement.
    pub fn iter(&self) -> Iter<'_, u64, Placement>
        ensures placed { result ≡ self.now }
        ensures few { length result < 2 ^ 63 }
    {
        self.placements.iter()
    }

    /// The placements on the pages of a range, in ascending order.
    fn placed_in(&self, range: &Run<RangeRecord>) -> Range<'_, u64, Placement>
        requires { end_of range.now ≤ 2 ^ 35 }
        ensures placed { result ≡ placed_in self.now range.now }
        ensures few { length result < 2 ^ 63 }
    {
        self.placements
            .range(range.first..range.first + range.pages)
    }

    /// The number of placed pages of a range.
    pub fn count_in(&self, range: &Run<RangeRecord>) -> usize
        requires { end_of range.now ≤ 2 ^ 35 }
        ensures count { result ≡ length (placed_in self.now range.now) }
        ensures few { result < 2 ^ 63 }
    {
        self.placed_in(range).count()
    }

    /// The lowest placed page of a range, if one is placed.
    pub fn first_in(&self, range: &Run<RangeRecord>) -> Option<u64>
        requires { end_of range.now ≤ 2 ^ 35 }
        ensures { result ≡ option_map (λ at. at.0) (slice_get (placed_in self.now range.now) 0) }
    {
        let mut placed = self.placed_in(range);
        match placed.next() {
            Some((page, _)) => Some(*page),
            None => None,
        }
    }

    /// The number of placed pages of a range on each node.
    pub fn pages_by_node(&self, range: &Run<RangeRecord>) -> [u64; 256]
        requires { end_of range.now ≤ 2 ^ 35 }
        ensures { (node : ℕ) → node < 256 → slice_index result node
            ≡ pages_on (placed_in self.now range.now) node }
    {
        let mut pages = [0u64; 256];
        for (_, placement) in self.placed_in(range) {
            pages[usize::from(placement.node)] += 1;
        }
        pages
    }

    /// The number of pages of 2 MiB of a range that have placed parts.
    pub fn huge_in(&self, range: &Run<RangeRecord>) -> usize
        requires { end_of range.now ≤ 2 ^ 35 }
        ensures count { result ≡ length (lowest_from 0 (placed_in self.now range.now)) }
        ensures few { result < 2 ^ 63 }
    {
        let mut count = 0;
        let mut next = 0;
        for (page, _) in self.placed_in(range) {
            let lowest = lowest_part(*page, next);
            count += lowest as usize;
            let met = page_behind(*page, next);
            next = met;
        }
        count
    }

    /// The number of pages of 2 MiB of a range on each node: each that has placed parts lies where
    /// the lowest of these does.
    pub fn huge_by_node(&self, range: &Run<RangeRecord>) -> [u64; 256]
        requires { end_of range.now ≤ 2 ^ 35 }
        ensures { (node : ℕ) → node < 256 → slice_index result node
            ≡ pages_on (lowest_from 0 (placed_in self.now range.now)) node }
    {
        let mut pages = [0u64; 256];
        let mut next = 0;
        for (page, placement) in self.placed_in(range) {
            let lowest = lowest_part(*page, next);
            pages[placement.node as usize] += lowest;
            let met = page_behind(*page, next);
            next = met;
        }
        pages
    }
}
