//! A process of a host that has pages of 2 MiB.
ghost use Rattle.std.specs.Prelude.{◌≡◌, ◌==◌, ◌++◌, ◌∷◌, [], ◌<◌, ◌≤◌, ◌+◌, ℕ, IfOk, List, OnOk};
ghost use Rattle.std.specs.Prelude.{None, length, slice_index_or, vec_capacity};
ghost use Rattle.std.specs.List.{position};
ghost use Rattle.numa_huge.specs.Huge.{all_gone, huge_at, most_pages, places_of, with_span};
ghost use Rattle.numa_huge.specs.Kept.{HavePages, Keeps};
ghost use Rattle.numa_host_huge.specs.Kept.{AreUntouched, IsChanged, all_on, all_reserved};
ghost use Rattle.numa_host_huge.specs.Kept.{has_place, spots_of, with_lent};
ghost use Rattle.numa_host_huge.specs.Sharing.{HugeHome, child_of};
ghost use Rattle.numa_host_huge.specs.Standing.{AreHomes, IsHome, LiesApart};
ghost use Rattle.numa_host_huge.specs.declared.sharer.Sharer.{Sharer};

use crate::shared::MAX_PROCESSES;
use numa_huge::{HugePages, HugePlaces};
use numa_machine::{Machine, NoMemory};
use numa_pools::Pools;
use std::alloc::Global;

/// A process that has mapped pages of 2 MiB: its number, and the pages with the pools that they
/// were lent last.
#[derive(Drop)]
pub(crate) struct Sharer {
    pub(crate) id: u32,
    pub(crate) pages: Box<HugePages>,
}

/// Where in a list a process is.
pub(crate) fn place_of(sharers: &[Sharer], process: u32) -> Option<usize>
    ensures { result ≡ position (λ (s : Sharer). s.id == process) sharers.now }
{
    sharers.iter().position(|sharer| sharer.id == process)
}

/// Whether there is a place for the pages of a process.
pub(crate) fn has_place(sharers: &[Sharer], process: u32) -> bool
    ensures { result ≡ has_place process sharers.now }
{
    match place_of(sharers, process) {
        Some(_place) => true,
        None => sharers.len() < MAX_PROCESSES,
    }
}

/// The pages of the process at a place.
pub(crate) fn at_place(sharers: &[Sharer], place: usize) -> &HugePages
    requires { place < length sharers.now }
    ensures { (d : Sharer) → result.now ≡ (slice_index_or sharers.now place d).pages.value }
{
    let sharer = &sharers[place];
    &sharer.pages
}

/// The pools are lent to the pages of the process at a place.
pub(crate) fn lend_at(pools: &Pools, sharers: &mut Vec<Sharer>, place: usize)
    requires place { place < length sharers.old.items }
    requires pools { (d : Sharer) → HavePages pools.now
        (spots_of (slice_index_or sharers.old.items place d)) }
    ensures lent { IsChanged place sharers.old.items sharers.new.items (with_lent pools.now) }
    ensures room { vec_capacity sharers.new ≡ vec_capacity sharers.old }
{
    let sharer = &mut sharers[place];
    sharer.pages.places.lend(pools);
}

/// The pools once the process at a place has no pages any more.
pub(crate) fn pools_without(sharers: &[Sharer], place: usize) -> Pools
    requires { place < length sharers.now }
    ensures pools { (d : Sharer) → result
        ≡ all_gone (places_of (slice_index_or sharers.now place d).pages.value.places) }
    ensures keeps { (d : Sharer) → Keeps
        (places_of (slice_index_or sharers.now place d).pages.value.places) (record {
          pools = result;
          spots = with_span 0 most_pages None (spots_of (slice_index_or sharers.now place d));
        }) }
{
    let sharer = &sharers[place];
    sharer.pages.places.pools_without()
}

/// The pools that were lent to the pages of the process at a place.
pub(crate) fn pools_at(sharers: &[Sharer], place: usize) -> Pools
    requires { place < length sharers.now }
    ensures { (d : Sharer) → result
        ≡ (slice_index_or sharers.now place d).pages.value.places.pools }
{
    let sharer = &sharers[place];
    *sharer.pages.places.pools()
}

/// Pages on the heap.
///
/// # Errors
/// `NoMemory`: there is no memory for them.
pub(crate) fn boxed(alloc: Global, pages: HugePages) -> Result<Box<HugePages>, NoMemory>
    ensures { IfOk result (λ kept. kept.value ≡ pages) }
{
    match Box::new(alloc, pages) {
        Ok(kept) => Ok(kept),
        Err(_) => Err(NoMemory),
    }
}

/// The pages of a child of a process with these.
///
/// # Errors
/// `NoMemory`: there is no memory for them.
pub(crate) fn child_pages(
    alloc: Global,
    machine: &Machine,
    parent: &HugePages,
) -> Result<Box<HugePages>, NoMemory>
    ensures child { (child : ℕ) (home : HugeHome) → LiesApart parent.now home
        → IfOk result (λ made. LiesApart made.value (child_of child home)) }
    ensures untouched { IfOk result (λ made.
        AreUntouched (huge_at made.value.places.runs)) }
{
    let Ok(places) = parent.places.inherited(machine) else {
        return Err(NoMemory);
    };
    boxed(alloc, HugePages::of(places))
}

/// A copy of a process with its pages.
///
/// # Errors
/// `NoMemory`: there is no memory for it.
fn again(alloc: Global, sharer: &Sharer) -> Result<Sharer, NoMemory>
    ensures spots { IfOk result (λ copy. spots_of copy ≡ spots_of sharer.now) }
    ensures home { (home : HugeHome) → IsHome sharer.now home
        → IfOk result (λ copy. IsHome copy home) }
{
    let Ok(pages) = sharer.pages.copy(alloc) else {
        return Err(NoMemory);
    };
    match boxed(alloc, pages) {
        Ok(pages) => Ok(Sharer {
            id: sharer.id,
            pages,
        }),
        Err(lack) => Err(lack),
    }
}

/// Puts copies of processes with their pages behind those that are there already.
///
/// # Errors
/// `NoMemory`: there is no memory for one of them.
pub(crate) fn add_again(
    alloc: Global,
    sharers: &[Sharer],
    copies: &mut Vec<Sharer>,
) -> Result<(), NoMemory>
    ensures added { (before homes : List HugeHome) → AreHomes copies.old.items before
        → AreHomes sharers.now homes
        → OnOk result (AreHomes copies.new.items (before ++ homes)) }
    ensures on { (node : ℕ) → OnOk result (all_on copies.new.items node
        ≡ all_on copies.old.items node + all_on sharers.now node) }
    ensures reserved { OnOk result (all_reserved copies.new.items
        ≡ all_reserved copies.old.items + all_reserved sharers.now) }
    ensures length { OnOk result (length copies.new.items
        ≡ length copies.old.items + length sharers.now) }
    ensures room { vec_capacity copies.old ≤ vec_capacity copies.new }
{
    let Some((first, rest)) = sharers.split_first() else {
        return Ok(());
    };
    let Ok(copy) = again(alloc, first) else {
        return Err(NoMemory);
    };
    let Ok(()) = copies.push(copy) else {
        return Err(NoMemory);
    };
    add_again(alloc, rest, copies)
}

/// The pages of a process, taken off the heap.
pub(crate) fn places_out(pages: Box<HugePages>) -> HugePlaces
    ensures { result ≡ pages.value.places }
{
    let HugePages {
        places,
        last,
        arrived: _,
    } = Box::into_inner(pages);
    drop(last);
    places
}

/// The pages of the process at a place lie so from now on.
pub(crate) fn settle_at(sharers: &mut Vec<Sharer>, place: usize, after: HugePlaces)
    requires { place < length sharers.old.items }
    ensures settled { IsChanged place sharers.old.items sharers.new.items
        (λ old. record old { places = after }) }
    ensures room { vec_capacity sharers.new ≡ vec_capacity sharers.old }
{
    let sharer = &mut sharers[place];
    drop(std::mem::replace(&mut sharer.pages.places, after));
}

/// A process comes behind all others, where there is room for it.
pub(crate) fn add(sharers: &mut Vec<Sharer>, process: u32, pages: Box<HugePages>)
    requires few { length sharers.old.items < 4096 }
    requires room { 4096 ≤ vec_capacity sharers.old }
    ensures items { sharers.new.items ≡ sharers.old.items
        ++ record { id = process; pages = pages } ∷ [] }
    ensures room { vec_capacity sharers.old ≤ vec_capacity sharers.new }
{
    let _ = sharers.push(Sharer { id: process, pages });
}
