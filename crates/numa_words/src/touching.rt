//! Pages of 2 MiB once each was touched: where they lie, by what their pools have.
ghost use Rattle.std.specs.Prelude.{◌≡◌, ◌≤◌, ◌+◌, ◌*◌, ◌<◌, ◌^◌, [], ℕ, IfOk, OnOk, Some};
ghost use Rattle.std.specs.Prelude.{if◌then◌else◌, length, slice_get, slice_index};
ghost use Rattle.std.specs.Option.{option_copied};
ghost use Rattle.numa_host_huge.specs.Sharing.{Sharing, memory_in};
ghost use Rattle.numa_host_huge.specs.Standing.{HugeLies};
ghost use Rattle.numa_huge.specs.Huge.{huge_at, places_of};
ghost use Rattle.numa_placed.specs.Laid.{spot_at};
ghost use Rattle.numa_ranges.specs.Runs.{in_pages};
ghost use Rattle.numa_words.specs.Touching.{AreGiven, IsAdded, IsTold, LieSo, Told};
ghost use Rattle.numa_words.specs.Touching.{all_touched, counted, is_asked, nobody, part_spot};
ghost use Rattle.numa_words.specs.Touching.{parts_node, spots_if, spots_lent, spots_there};
ghost use Rattle.numa_words.specs.Touching.{told_by, told_each, told_from, told_if, touched_in};
ghost use Rattle.numa_words.specs.Touching.{with_lying, with_parts, with_parts_if};

use numa_answers::FromPools;
use numa_host::{Host, Process};
use numa_host_huge::HostHuge;
use numa_host_pages::HostPages;
use numa_huge::{HugePages, HugePlaces};
use numa_machine::NoMemory;
use numa_page_state::binding::page_count;
use numa_placed::Placed;
use numa_requests::PAGE_BYTES;
use numa_sheets::Touch;
use numa_space::Space;
use std::alloc::Global;

/// The pages of 4 KiB of one of 2 MiB.
const PARTS: u64 = 512;

/// The pages of 2 MiB below address 2^47, and their bytes.
const MOST_PAGES: u64 = 1 << 26;

const MOST_BYTES: u64 = 1 << 47;

/// Where pages lie once each of 2 MiB was touched.
#[derive(Drop)]
pub(crate) struct Touched {
    /// Those of 2 MiB in all.
    pub(crate) said: FromPools,
    /// By process those that are there, and the parts of those of 2 MiB.
    pub(crate) lying: Vec<Placed>,
}

/// No page.
fn no_pages() -> FromPools
    ensures on { (node : ℕ) → node < 256 → slice_index result.on node ≡ 0 }
    ensures exhausted { result.exhausted ≡ 0 }
{
    FromPools {
        on: [0; 256],
        exhausted: 0,
    }
}

/// Adds the pages that lie on each node.
fn add_counts(said: &mut FromPools, places: &HugePlaces)
    ensures on { (node : ℕ) → node < 256 → slice_index said.new.on node
        ≡ counted (Some (huge_at places.now.runs)) node (slice_index said.old.on node) }
    ensures exhausted { said.new.exhausted ≡ said.old.exhausted }
{
    let counts = places.counts_in(0, MOST_PAGES);
    for node in 0..256usize {
        said.on[node] = said.on[node].saturating_add(counts.on[node]);
    }
}

/// The first number that is no node's, on which parts lie of pages that no node gave. A machine of
/// 256 nodes has none.
fn nobody(space: &Space) -> Option<u8>
    ensures { result ≡ nobody space.now.machine.nodes }
{
    let nodes = space.machine().nodes();
    if nodes < 256 { Some(nodes as u8) } else { None }
}

/// The node on which the parts of a page lie: its own, or of one that lies nowhere that of nobody;
/// `None` if there is none.
fn parts_node(places: &HugePlaces, page: u64, spare: Option<u8>) -> Option<u8>
    ensures { result ≡ parts_node spare (huge_at places.now.runs page) }
{
    match places.at(page) {
        Some(spot) => spot.node().or(spare),
        None => None,
    }
}

/// States that the parts of pages lie where these lie, of which the same is known.
fn state_run(
    lying: &mut Placed,
    places: &HugePlaces,
    space: &Space,
    first: u64,
    pages: u64,
) -> Result<(), NoMemory>
    requires some { 0 < pages }
    requires within { first + pages ≤ 2 ^ 26 }
    ensures { OnOk result ((page : ℕ) → spot_at lying.new page
        ≡ (if in_pages (first * 512) (pages * 512) page
        then part_spot (nobody space.now.machine.nodes) (huge_at places.now.runs first)
        (spot_at lying.old page) else spot_at lying.old page)) }
{
    let Some(node) = parts_node(places, first, nobody(space)) else {
        return Ok(());
    };
    match lying.set(first * PARTS, pages * PARTS, node) {
        Ok(()) => Ok(()),
        Err(_) => Err(NoMemory),
    }
}

/// The same of all pages.
fn state_all(lying: &mut Placed, places: &HugePlaces, space: &Space) -> Result<(), NoMemory>
    ensures { OnOk result (LieSo lying.new (with_parts (nobody space.now.machine.nodes)
        (huge_at places.now.runs) (spot_at lying.old))) }
{
    let mut page = 0;
    while page < MOST_PAGES {
        let next = places.alike_end(page, MOST_PAGES);
        let Ok(()) = state_run(lying, places, space, page, next - page) else {
            return Err(NoMemory);
        };
        page = next;
    }
    Ok(())
}

/// Where pages lie that are there.
fn copy_of(alloc: Global, there: Option<&Placed>) -> Result<Placed, NoMemory>
    ensures { IfOk result (λ copy. (page : ℕ) → spot_at copy page
        ≡ spots_there (option_copied there.entry) page) }
{
    match there {
        Some(placed) => placed.copy(),
        None => Placed::new(alloc),
    }
}

/// States where the parts of all pages of a process lie, if it has some.
fn state_if(lying: &mut Placed, places: Option<&HugePlaces>, space: &Space) -> Result<(), NoMemory>
    ensures { OnOk result (LieSo lying.new (with_parts_if (nobody space.now.machine.nodes)
        (spots_lent places.entry) (spot_at lying.old))) }
{
    match places {
        Some(places) => state_all(lying, places, space),
        None => Ok(()),
    }
}

/// Where the pages of a process lie that are there, with the parts of those of 2 MiB, if it has
/// some.
fn lying_of(
    alloc: Global,
    places: Option<&HugePlaces>,
    space: &Space,
    there: Option<&Placed>,
) -> Result<Placed, NoMemory>
    ensures { IfOk result (λ placed. LieSo placed (with_parts_if (nobody space.now.machine.nodes)
        (spots_lent places.entry) (spots_there (option_copied there.entry)))) }
{
    let Ok(mut placed) = copy_of(alloc, there) else {
        return Err(NoMemory);
    };
    if let Err(why) = state_if(&mut placed, places, space) {
        drop(placed);
        return Err(why);
    }
    Ok(placed)
}

/// Adds where the pages of a process lie, with the parts of those of 2 MiB, if it has some.
fn add_lying(
    alloc: Global,
    lying: &mut Vec<Placed>,
    places: Option<&HugePlaces>,
    space: &Space,
    there: &[Placed],
) -> Result<(), NoMemory>
    ensures { OnOk result (IsAdded lying.old.items lying.new.items
        (with_parts_if (nobody space.now.machine.nodes) (spots_lent places.entry)
        (spots_there (slice_get there.now (length lying.old.items))))) }
{
    let Ok(placed) = lying_of(alloc, places, space, there.get(lying.len())) else {
        return Err(NoMemory);
    };
    let Ok(()) = lying.push(placed) else {
        return Err(NoMemory);
    };
    Ok(())
}

/// Touches all pages of one process, and says where they lie then.
fn touched_own(
    kept: &HugePages,
    space: &Space,
    touch: Touch,
) -> Result<(HugePlaces, FromPools), NoMemory>
    ensures places { IfOk result (λ done. places_of done.0
        ≡ (all_touched space.now touch (places_of kept.now.places)).huge) }
    ensures said { IfOk result (λ done. AreGiven done.1
        (all_touched space.now touch (places_of kept.now.places))) }
{
    let Touch { task, cpu } = touch;
    let touched = match kept.places.populated(space, 0, MOST_PAGES, task, cpu) {
        Ok(touched) => touched,
        Err(why) => return Err(why),
    };
    let (places, arrived) = touched;
    let counts = places.counts_in(0, MOST_PAGES);
    let on = counts.on;
    let exhausted = arrived.exhausted;
    Ok((places, FromPools { on, exhausted }))
}

/// Where all pages of one process lie, once each was touched.
pub(crate) fn from_own(
    alloc: Global,
    kept: &HugePages,
    space: &Space,
    touch: Touch,
    there: &[Placed],
) -> Result<Touched, NoMemory>
    ensures said { IfOk result (λ touched. AreGiven touched.said
        (all_touched space.now touch (places_of kept.now.places))) }
    ensures lying { IfOk result (λ touched. IsAdded [] touched.lying.items (with_parts
        (nobody space.now.machine.nodes)
        (all_touched space.now touch (places_of kept.now.places)).huge.spots
        (spots_there (slice_get there.now 0)))) }
{
    let Ok(done) = touched_own(kept, space, touch) else {
        return Err(NoMemory);
    };
    let (places, said) = done;
    let mut lying = Vec::new(alloc);
    let Ok(()) = add_lying(alloc, &mut lying, Some(&places), space, there) else {
        drop(places);
        drop(lying);
        return Err(NoMemory);
    };
    drop(places);
    Ok(Touched { said, lying })
}

/// Touches all pages of a process of a host, from an address on so many bytes, and returns how many
/// no node gave.
fn touched_of(
    huge: &mut HostHuge,
    process: u32,
    space: &Space,
    touch: Touch,
    start: u64,
    length: u64,
) -> Result<u64, NoMemory>
    ensures { (at : Sharing) → HugeLies huge.old at → IfOk result (λ exhausted.
        (exhausted ≡ (touched_in process space.now touch start length at).1)
        × HugeLies huge.new (touched_in process space.now touch start length at).0) }
{
    let pages = page_count(length);
    if !huge.has_huge_in(process, start / PAGE_BYTES, pages) {
        return Ok(0);
    }
    let Touch { task, cpu } = touch;
    let touched = match huge.populated(process, space, start, length, task, cpu) {
        Ok(touched) => touched,
        Err(why) => return Err(why),
    };
    let (places, arrived) = touched;
    let exhausted = arrived.exhausted;
    huge.settle_touched(process, places, arrived);
    Ok(exhausted)
}

/// The pages of a process, if it has some.
fn places_in(huge: &HostHuge, process: u32) -> Option<&HugePlaces>
    ensures { (at : Sharing) → HugeLies huge.now at
        → spots_lent result ≡ spots_if (memory_in process at) }
{
    match huge.pages_of(process) {
        Some(kept) => Some(&kept.places),
        None => None,
    }
}

/// Adds the pages of a process that lie on each node, if it has some.
fn add_counts_if(said: &mut FromPools, places: Option<&HugePlaces>)
    ensures on { (node : ℕ) → node < 256 → slice_index said.new.on node
        ≡ counted (spots_lent places.entry) node (slice_index said.old.on node) }
    ensures exhausted { said.new.exhausted ≡ said.old.exhausted }
{
    match places {
        Some(places) => add_counts(said, places),
        None => {}
    }
}

/// Adds where the pages of a process lie, of which so many no node gave.
fn add_told(
    alloc: Global,
    places: Option<&HugePlaces>,
    space: &Space,
    there: &[Placed],
    touched: &mut Touched,
) -> Result<(), NoMemory>
    ensures { (told : Told) → IsTold touched.old told → OnOk result (IsTold touched.new
        (with_lying (nobody space.now.machine.nodes) there.now (spots_lent places.entry) told)) }
{
    add_counts_if(&mut touched.said, places);
    let Ok(()) = add_lying(alloc, &mut touched.lying, places, space, there) else {
        return Err(NoMemory);
    };
    Ok(())
}

/// Adds where the pages of a process lie once each was touched.
fn add_touched(
    alloc: Global,
    huge: &mut HostHuge,
    one: &Process,
    touch: Touch,
    there: &[Placed],
    touched: &mut Touched,
) -> Result<(), NoMemory>
    ensures { (told : Told) → HugeLies huge.old told.at → IsTold touched.old told → OnOk result
        (HugeLies huge.new (told_by touch there.now one.now told).at
        × IsTold touched.new (told_by touch there.now one.now told)) }
{
    let Ok(exhausted) = touched_of(huge, one.id, &one.space, touch, 0, MOST_BYTES) else {
        return Err(NoMemory);
    };
    touched.said.exhausted = touched.said.exhausted.saturating_add(exhausted);
    let Ok(()) = add_told(alloc, places_in(huge, one.id), &one.space, there, touched) else {
        return Err(NoMemory);
    };
    Ok(())
}

/// Whether a process is asked of: each is, if none is named.
fn is_asked(process: Option<u32>, id: u32) -> bool
    ensures { result ≡ is_asked process id }
{
    match process {
        None => true,
        Some(process) => process == id,
    }
}

/// The same, if a process is asked of.
fn add_asked(
    alloc: Global,
    huge: &mut HostHuge,
    one: &Process,
    process: Option<u32>,
    touch: Touch,
    there: &[Placed],
    touched: &mut Touched,
) -> Result<(), NoMemory>
    ensures { (told : Told) → HugeLies huge.old told.at → IsTold touched.old told → OnOk result
        (HugeLies huge.new (told_if process touch there.now one.now told).at
        × IsTold touched.new (told_if process touch there.now one.now told)) }
{
    if !is_asked(process, one.id) {
        return Ok(());
    }
    add_touched(alloc, huge, one, touch, there, touched)
}

/// The same of processes, one after the other.
fn add_each(
    alloc: Global,
    huge: &mut HostHuge,
    processes: &[Process],
    process: Option<u32>,
    touch: Touch,
    there: &[Placed],
    touched: &mut Touched,
) -> Result<(), NoMemory>
    ensures { (told : Told) → HugeLies huge.old told.at → IsTold touched.old told → OnOk result
        (HugeLies huge.new (told_each process touch there.now processes.now told).at
        × IsTold touched.new (told_each process touch there.now processes.now told)) }
{
    let Some((one, rest)) = processes.split_first() else {
        return Ok(());
    };
    let Ok(()) = add_asked(alloc, huge, one, process, touch, there, touched) else {
        return Err(NoMemory);
    };
    add_each(alloc, huge, rest, process, touch, there, touched)
}

/// Where all pages of the processes of a host lie, or of one, once each was touched, those of one
/// process after the other.
pub(crate) fn from_shared(
    alloc: Global,
    host: &Host,
    pages: &HostPages,
    process: Option<u32>,
    touch: Touch,
    there: &[Placed],
) -> Result<Touched, NoMemory>
    ensures { (at : Sharing) → HugeLies pages.now.huge at → IfOk result (λ touched. IsTold touched
        (told_each process touch there.now host.now.processes (told_from at))) }
{
    let Ok(mut huge) = pages.huge.copy() else {
        return Err(NoMemory);
    };
    let said = no_pages();
    let lying = Vec::new(alloc);
    let mut touched = Touched { said, lying };
    let all = host.processes();
    let Ok(()) = add_each(alloc, &mut huge, all, process, touch, there, &mut touched) else {
        drop(huge);
        drop(touched);
        return Err(NoMemory);
    };
    drop(huge);
    Ok(touched)
}
