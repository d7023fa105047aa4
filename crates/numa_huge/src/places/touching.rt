//! First touches of pages of 2 MiB.
ghost use Rattle.std.specs.Prelude.{◌≡◌, ◌+◌, ◌*◌, ◌<◌, ◌≤◌, ℕ, IfErr, IfOk, None, OnErr, OnOk};
ghost use Rattle.std.specs.Prelude.{Some, is_some, true};
ghost use Rattle.numa_huge.specs.Huge.{giver_for, has_reserved, huge_at, node_of, places_of};
ghost use Rattle.numa_huge.specs.Huge.{faulting, with_span, most_pages};
ghost use Rattle.numa_huge.specs.Moves.{HugeArrival, is_untouched, touch_from, touched_page};
ghost use Rattle.numa_huge.specs.Moves.{touched_pages};
ghost use Rattle.numa_huge.specs.Tallies.{AreFew, HasArrived, IsFaultLack, IsLackFor, IsTouch};
ghost use Rattle.numa_placed.specs.Binds.{nodes_in};
ghost use Rattle.numa_placed.specs.Spots.{most_runs};
ghost use Rattle.numa_huge.specs.Kept.{AreOwn, Keeps};
ghost use Rattle.numa_huge.specs.declared.spot.HugeSpot.TheVariants.{On};

use crate::arrived::HugeArrived;
use crate::places::HugePlaces;
use crate::places::mapping::lack_of;
use crate::spot::HugeSpot;
use arrayvec::ArrayVec;
use numa_machine::NoMemory;
use numa_ranges::RangeMap;
use numa_requests::PlacedRefusal;
use numa_space::Space;

/// The parts of 4 KiB of a page.
pub(crate) const PARTS: u64 = 512;

/// Puts a page on a node.
///
/// # Errors
/// `TooManyRuns`, `NoMemory`, as [`PlacedRefusal`] says.
pub(crate) fn put(map: &mut RangeMap<HugeSpot>, page: u64, node: u8) -> Result<(), PlacedRefusal>
    requires page { page < most_pages }
    requires some { is_some (huge_at map.old.runs page) ≡ true }
    requires own { AreOwn map.old.runs }
    requires most { map.old.max_ranges ≡ most_runs }
    ensures own { OnOk result (AreOwn map.new.runs) }
    ensures ok { OnOk result ((other : ℕ) → huge_at map.new.runs other
        ≡ with_span page 1 (Some (On node)) (huge_at map.old.runs) other) }
    ensures err { IfErr result
        (IsLackFor (with_span page 1 (Some (On node)) (huge_at map.old.runs))) }
    ensures unchanged { OnErr result (map.new ≡ map.old) }
    ensures max_ranges { map.new.max_ranges ≡ map.old.max_ranges }
{
    if let Err(refusal) = map.set_span(page, 1, HugeSpot::On(node)) {
        return Err(lack_of(refusal));
    }
    Ok(())
}

/// The nodes that are asked for a page, for a fault of a task on a CPU of node `cpu`.
pub(crate) fn nodes_of(space: &Space, page: u64, task: u32, cpu: u32) -> ArrayVec<u8, 256>
    requires { page ≤ most_pages }
    ensures { result.items ≡ nodes_in space.now task cpu (page * 512) }
{
    match space.list_at(task, page * PARTS, cpu) {
        Ok(list) => list,
        Err(_) => ArrayVec::new(),
    }
}

impl HugePlaces {
    /// Whether a page is reserved for one.
    fn is_reserved(&self, page: u64) -> bool
        ensures { result ≡ has_reserved (huge_at self.now.runs page) }
    {
        match self.at(page) {
            Some(spot) => spot.is_reserved(),
            None => false,
        }
    }

    /// Touches a page for the first time, which is mapped as one of 2 MiB: the first of these nodes
    /// that has a free page gives it; by its reservation, if the page has one. Returns the node;
    /// `None` if none has any, or all free pages are reserved for others: then nothing has changed.
    ///
    /// # Errors
    /// Nothing has changed: `TooManyRuns`, `NoMemory`, as [`PlacedRefusal`] says.
    pub fn fault(&mut self, page: u64, nodes: &[u8]) -> Result<Option<u8>, PlacedRefusal>
        requires mapped { is_some (huge_at self.old.runs page) ≡ true }
        requires untouched { node_of (huge_at self.old.runs page) ≡ None }
        ensures node { IfOk result (λ given. given
            ≡ giver_for (places_of self.old) page nodes.now) }
        ensures pages { IfOk result (λ given. places_of self.new
            ≡ faulting given page (places_of self.old)) }
        ensures err { IfErr result (IsFaultLack (places_of self.old) page nodes.now) }
        ensures unchanged { OnErr result (self.new ≡ self.old) }
        ensures keeps { Keeps (places_of self.old) (places_of self.new) }
    {
        self.pools.keep();
        let by_reservation = self.is_reserved(page);
        let Some(node) = self.pools.giver(nodes, by_reservation) else {
            return Ok(None);
        };
        if let Err(why) = put(&mut self.map, page, node) {
            return Err(why);
        }
        let _ = self.pools.take(nodes, by_reservation);
        Ok(Some(node))
    }

    /// Whether a page is mapped as one of 2 MiB, and lies nowhere.
    fn is_untouched(&self, page: u64) -> bool
        ensures { result ≡ is_untouched (huge_at self.now.runs page) }
    {
        match self.at(page) {
            Some(spot) => spot.node().is_none(),
            None => false,
        }
    }

    /// Touches a page, if it is mapped as one of 2 MiB and lies nowhere.
    fn touch_page(
        &mut self,
        arrived: &mut HugeArrived,
        space: &Space,
        page: u64,
        task: u32,
        cpu: u32,
    ) -> Result<(), NoMemory>
        requires page { page < most_pages }
        requires few { AreFew arrived.old page }
        ensures touched { (told : HugeArrival) → HasArrived arrived.old told → OnOk result
            (IsTouch (touched_page (λ page. nodes_in space.now task cpu (page * 512)) page
            (record { huge = places_of self.old; arrived = told })) self.new arrived.new) }
        ensures few { AreFew arrived.new (page + 1) }
        ensures keeps { Keeps (places_of self.old) (places_of self.new) }
    {
        if !self.is_untouched(page) {
            return Ok(());
        }
        let list = nodes_of(space, page, task, cpu);
        let Ok(given) = self.fault(page, &list) else {
            return Err(NoMemory);
        };
        arrived.count(given);
        Ok(())
    }

    /// The pages, of which those among the `pages` pages from `first` on that lie nowhere were
    /// touched, the lowest first, by a task on a CPU of node `cpu` (madvise(2),
    /// MADV_POPULATE_WRITE); and what that did.
    ///
    /// # Errors
    /// `NoMemory`: there is no memory for the copy or its runs, or these are too many.
    pub fn populated(
        &self,
        space: &Space,
        first: u64,
        pages: u64,
        task: u32,
        cpu: u32,
    ) -> Result<(HugePlaces, HugeArrived), NoMemory>
        requires { first + pages ≤ most_pages }
        ensures touched { IfOk result (λ done. IsTouch (touched_pages
            (λ page. nodes_in space.now task cpu (page * 512)) first pages
            (touch_from (places_of self.now))) done.0 done.1) }
        ensures keeps { IfOk result (λ done. Keeps (places_of self.now) (places_of done.0)) }
    {
        let Ok(mut touched) = self.copy() else {
            return Err(NoMemory);
        };
        let mut arrived = HugeArrived::new();
        let end = first + pages;
        let mut page = touched.next_mapped(first, end);
        while page < end {
            let Ok(()) = touched.touch_page(&mut arrived, space, page, task, cpu) else {
                return Err(NoMemory);
            };
            page = touched.next_mapped(page + 1, end);
        }
        Ok((touched, arrived))
    }
}
