//! Pages of 2 MiB beside the other pages of a process, and first touches of pages of either size.
ghost use Rattle.std.specs.Prelude.{◌≡◌, ◌+◌, ◌<◌, ◌≤◌, ◌^◌, ℕ, Err, IfErr, IfOk, IfSome};
ghost use Rattle.std.specs.Prelude.{IsSomeAnd, List};
ghost use Rattle.std.specs.Prelude.{[], MatchResult, None, OnErr, OnOk, Option, Some, true};
ghost use Rattle.std.specs.Prelude.{is_some};
ghost use Rattle.numa_maps.specs.Residents.{Kept};
ghost use Rattle.numa_placed.specs.Refusals.{move_cause};
ghost use Rattle.numa_space.specs.History.{page_count, page_of};
ghost use Rattle.numa_space.specs.Refusals.{refusal_of};
ghost use Rattle.numa_space.specs.Standing.{StandsFor};
ghost use Rattle.numa_requests.specs.declared.command.Command.{Command};
ghost use Rattle.numa_huge.specs.Huge.{has_huge, huge_at, most_pages, node_of, places_of};
ghost use Rattle.numa_huge.specs.Huge.{unmapping, with_span};
ghost use Rattle.numa_huge.specs.Kept.{Keeps};
ghost use Rattle.numa_huge.specs.Moves.{HugeMemory};
ghost use Rattle.numa_huge.specs.Tallies.{IsLackFor, IsMemory, IsTouch, IsWalk, StandsForHuge};
ghost use Rattle.numa_page_state.specs.Huge.{HugeFaults, HugeGoes, HugeMoves, fault_outcome};
ghost use Rattle.numa_page_state.specs.Huge.{has_huge_in};
ghost use Rattle.numa_page_state.specs.Huge.{huge_at_address, huge_astray, huge_count, huge_first};
ghost use Rattle.numa_page_state.specs.Huge.{huge_followed, huge_page, huge_walk, huge_walk_in};
ghost use Rattle.numa_page_state.specs.Huge.{move_lack_by, small_fault, spot_of, touch_walk};
ghost use Rattle.numa_page_state.specs.Lying.{Lying, OfNodes, ground_in, process_in, still};
ghost use Rattle.numa_page_state.specs.Sending.{command_of};
ghost use Rattle.numa_page_state.specs.Standing.{DoesAs, Lies, LiesAs};

use crate::binding::{Binding, page_count};
use crate::last::{Last, keep};
use crate::sending::{Rebinding, Toucher, let_go, with_policy};
use crate::state::{PageState, still};
use numa_huge::{Flows, HugeArrived, HugeLast, HugePages, HugePlaces};
use numa_machine::NoMemory;
use numa_maps::Resident;
use numa_mask::NodeMask;
use numa_placed::{Moved, Spot, judged_pages, lacks_node};
use numa_requests::{MoveRefusal, PAGE_BYTES, PlacedRefusal};
use numa_space::Space;
use std::alloc::Global;

/// The bytes of a page of 2 MiB.
pub(crate) const HUGE_BYTES: u64 = 1 << 21;

/// The parts of 4 KiB of such a page.
pub(crate) const PARTS: u64 = 512;

/// The number of such pages below address 2^47.
const MOST_PAGES: u64 = 1 << 26;

/// Pages of 2 MiB in a row.
#[derive(Clone, Copy)]
pub struct HugeSpan {
    pub first: u64,
    pub pages: u64,
}

/// The pages of 2 MiB that have a part among the `pages` pages of 4 KiB from `first` on.
pub fn huge_span(first: u64, pages: u64) -> HugeSpan
    requires first { first ≤ 2 ^ 52 }
    requires pages { pages ≤ 2 ^ 52 }
    ensures first { result.first ≡ huge_first first }
    ensures pages { result.pages ≡ huge_count first pages }
    ensures within { result.first + result.pages ≤ most_pages }
{
    let from = (first / PARTS).min(MOST_PAGES);
    let to = ((first + pages + (PARTS - 1)) / PARTS).min(MOST_PAGES);
    if pages == 0 {
        return HugeSpan {
            first: from,
            pages: 0,
        };
    }
    HugeSpan {
        first: from,
        pages: to - from,
    }
}

/// Whether one of the pages of 4 KiB is a part of a page of 2 MiB.
pub fn has_huge_in(huge: &Option<HugePages>, first: u64, pages: u64) -> bool
    requires first { first ≤ 2 ^ 52 }
    requires pages { pages ≤ 2 ^ 52 }
    ensures { (memory : Option HugeMemory) → StandsForHuge huge.now memory
        → result ≡ has_huge_in memory first pages }
{
    let Some(kept) = huge else {
        return false;
    };
    let span = huge_span(first, pages);
    kept.places.has_huge(span.first, span.pages)
}

/// Whether the page of an address, in bytes, is mapped as one of 2 MiB.
pub fn is_huge_in(huge: &HugePlaces, address: u64) -> bool
    ensures { result ≡ is_some (huge_at huge.now.runs (huge_page address)) }
{
    huge.at(address / HUGE_BYTES).is_some()
}

/// The same, where any are kept.
pub fn is_huge_at(huge: &Option<HugePages>, address: u64) -> bool
    ensures { (memory : Option HugeMemory) → StandsForHuge huge.now memory
        → result ≡ is_some (huge_at_address memory address) }
{
    let Some(kept) = huge else {
        return false;
    };
    is_huge_in(&kept.places, address)
}

// ---- first touches

impl PageState {
    /// Touches a page of 4 KiB, as a task on a CPU of node `cpu` does that writes to it, and
    /// returns the node where it lies then: as it lay, or where it came to; `None` if no node has
    /// room.
    ///
    /// # Errors
    /// As [`PageState::populate`].
    pub fn fault(
        &mut self,
        space: &Space,
        resident: &Resident,
        task: u32,
        address: u64,
        cpu: u32,
    ) -> Result<Option<u8>, PlacedRefusal>
        ensures { DoesAs self.old result self.new (Err PlacedRefusal.NoMemory) (λ lack at.
            fault_outcome lack (ground_in space.now resident.now) task address cpu at) }
    {
        let page = address / PAGE_BYTES;
        match resident.at(page) {
            Some(placement) => Ok(Some(placement.node)),
            None => self.fault_small(space, resident, task, page, cpu),
        }
    }

    /// The same, of a page that keeps no frame.
    fn fault_small(
        &mut self,
        space: &Space,
        resident: &Resident,
        task: u32,
        page: u64,
        cpu: u32,
    ) -> Result<Option<u8>, PlacedRefusal>
        requires { page < 2 ^ 52 }
        ensures { DoesAs self.old result self.new (Err PlacedRefusal.NoMemory) (λ lack at.
            small_fault None lack (ground_in space.now resident.now) task page cpu at) }
    {
        let start = page * PAGE_BYTES;
        match self.populate(space, resident, start, PAGE_BYTES, task, cpu) {
            Ok(()) => Ok(self.placed.at(page).node()),
            Err(why) => Err(why),
        }
    }
}

/// Touches the page of an address, which has 2 MiB, for which these nodes are asked, and returns
/// the node where it lies then; `None` if none gives it.
///
/// # Errors
/// As [`HugePlaces::fault`].
pub fn huge_fault(
    huge: &mut HugePlaces,
    address: u64,
    nodes: &[u8],
) -> Result<Option<u8>, PlacedRefusal>
    requires { is_some (huge_at huge.old.runs (huge_page address)) ≡ true }
    ensures faults { HugeFaults huge.old result huge.new (huge_page address) nodes.now }
    ensures keeps { Keeps (places_of huge.old) (places_of huge.new) }
    ensures unchanged { OnErr result (huge.new ≡ huge.old) }
{
    let page = address / HUGE_BYTES;
    let Some(spot) = huge.at(page) else {
        unreachable!()
    };
    if let Some(node) = spot.node() {
        return Ok(Some(node));
    }
    let given = huge.fault(page, nodes);
    // Tells the proof that the runs are few.
    let _ = huge.runs();
    given
}

// ---- unmapped pages

/// The pages of 2 MiB once a span was unmapped.
///
/// # Errors
/// As [`HugePages::unmapped`].
pub fn huge_without(huge: &HugePlaces, start: u64, length: u64) -> Result<HugePlaces, PlacedRefusal>
    requires { has_huge (huge_at huge.now.runs) (huge_first (page_of start))
        (huge_count (page_of start) (page_count length)) ≡ true }
    ensures ok { IfOk result (λ after. places_of after ≡ unmapping (huge_first (page_of start))
        (huge_count (page_of start) (page_count length)) (places_of huge.now)) }
    ensures keeps { IfOk result (λ after. Keeps (places_of huge.now) (places_of after)) }
    ensures err { IfErr result (IsLackFor (with_span (huge_first (page_of start))
        (huge_count (page_of start) (page_count length)) None (huge_at huge.now.runs))) }
{
    let span = huge_span(start / PAGE_BYTES, page_count(length));
    huge.unmapped(span.first, span.pages)
}

// ---- moves

/// Whether pages follow the allowed nodes.
pub fn follows_in(state: &Option<PageState>) -> bool
    ensures { (lying : Lying) → Lies state.now lying → result ≡ lying.follows }
{
    match state {
        Some(kept) => kept.follows,
        None => false,
    }
}

/// Pages of 2 MiB leave one set of nodes for another, if they are to.
pub fn follow_huge(huge: &mut HugePages, follows: bool, old: &NodeMask, new: &NodeMask)
    ensures follows { (memory : HugeMemory) → IsMemory huge.old memory
        → IsMemory huge.new (huge_followed follows old.now new.now memory) }
    ensures keeps { Keeps (places_of huge.old.places) (places_of huge.new.places) }
{
    if !follows {
        huge.rest();
        return;
    }
    let told = huge.places.follow(old, new);
    huge.last = HugeLast::Nodes(told);
}

/// Where a page of 2 MiB lies, as one of 4 KiB.
fn spot_of(huge: &HugePlaces, page: u64) -> Spot
    ensures { result ≡ spot_of (node_of (huge_at huge.now.runs page)) }
{
    let Some(spot) = huge.at(page) else {
        return Spot::Nowhere;
    };
    match spot.node() {
        Some(node) => Spot::Stated(node),
        None => Spot::Nowhere,
    }
}

/// Why a page doesn't move, for its runs or for memory.
fn move_lack(why: PlacedRefusal) -> MoveRefusal
    ensures { move_lack_by (Some why) ≡ Some result }
{
    match why {
        PlacedRefusal::TooManyRuns => MoveRefusal::TooManyRuns,
        _ => MoveRefusal::NoMemory,
    }
}

/// Refuses to move a page of 2 MiB that lies here to a node. Such a page is mapped.
fn judge_huge(space: &Space, node: u32, spot: Spot) -> Result<(), MoveRefusal>
    ensures cause { MatchResult result
        (λ done. move_cause space.now.machine space.now.allowed node true spot ≡ None)
        (λ refusal. move_cause space.now.machine space.now.allowed node true spot ≡ Some refusal) }
    ensures byte { OnOk result (node < 256) }
{
    if lacks_node(space.machine(), node) {
        return Err(MoveRefusal::NoSuchNode);
    }
    if !space.allowed().has(node as u8) {
        return Err(MoveRefusal::NodesNotAllowed);
    }
    match spot {
        Spot::Nowhere => Err(MoveRefusal::NotPlaced),
        Spot::Stated(_) => Ok(()),
    }
}

/// Moves the page of an address, in bytes, which has 2 MiB, to a node, as move_pages(2) does, and
/// tells what moved.
///
/// # Errors
/// The first of these that applies; nothing has changed: `NoSuchNode`, `NodesNotAllowed`,
/// `NotPlaced`, `TooManyRuns`, `NoMemory`, as [`MoveRefusal`] says.
pub fn huge_goes(
    huge: &mut HugePlaces,
    space: &Space,
    address: u64,
    node: u32,
) -> Result<Moved, MoveRefusal>
    ensures goes { HugeGoes huge.old result huge.new (ground_in space.now []) (huge_page address)
        node }
    ensures keeps { Keeps (places_of huge.old) (places_of huge.new) }
    ensures unchanged { OnErr result (huge.new ≡ huge.old) }
{
    let page = address / HUGE_BYTES;
    let spot = spot_of(huge, page);
    if let Err(why) = judge_huge(space, node, spot) {
        return Err(why);
    }
    match huge.move_page(page, node as u8) {
        Ok(told) => {
            // Tells the proof that the runs are few.
            let _ = huge.runs();
            Ok(told)
        }
        Err(why) => Err(move_lack(why)),
    }
}

/// The same, of pages that tell what the last move did.
///
/// # Errors
/// As [`huge_goes`].
pub fn huge_move(
    huge: &mut HugePages,
    space: &Space,
    address: u64,
    node: u32,
) -> Result<(), MoveRefusal>
    ensures moves { (memory : HugeMemory) → IsMemory huge.old memory → HugeMoves memory result
        huge.new (ground_in space.now []) (huge_page address) node }
    ensures keeps { Keeps (places_of huge.old.places) (places_of huge.new.places) }
{
    match huge_goes(&mut huge.places, space, address, node) {
        Ok(told) => {
            huge.last = HugeLast::Nodes(told);
            Ok(())
        }
        Err(why) => Err(why),
    }
}

impl PageState {
    /// The last move moved no page of 4 KiB.
    pub fn rest(&mut self)
        ensures { (lying : Lying) → LiesAs self.old lying
            → LiesAs self.new (record lying { last = OfNodes still }) }
    {
        keep(&mut self.last, Last::Nodes(still()));
    }
}

/// The last move moved no page of 4 KiB, where some are kept.
pub fn rest_small(state: &mut Option<PageState>)
    ensures { (lying : Lying) → Lies state.old lying → is_some state.old ≡ true
        → Lies state.new (record lying { last = OfNodes still }) }
{
    if let Some(kept) = state {
        keep(&mut kept.last, Last::Nodes(still()));
    }
}

// ---- mbind

/// Whether a page of 2 MiB of a span that is judged lies on another node than those of a list.
pub fn huge_astray(space: &Space, huge: &HugePlaces, said: &Binding) -> bool
    ensures { (memory : HugeMemory) (history : List Command) (kept : Kept)
        → places_of huge.now ≡ memory.pages → StandsFor space.now history
        → result ≡ huge_astray (process_in space.now history kept) memory said.now }
{
    let first = said.start / PAGE_BYTES;
    let judged = judged_pages(space, first, page_count(said.length));
    let span = huge_span(first, judged);
    huge.has_astray(span.first, span.pages, &said.list)
}

/// The pages of 2 MiB, of which those of a span that lie astray went where the policy has them go,
/// in a space that has it; and what that did.
///
/// # Errors
/// `NoMemory`: out of memory, or there would be too many runs.
pub fn huge_sent(
    alloc: Global,
    space: &Space,
    huge: &HugePlaces,
    said: &Rebinding,
    toucher: Toucher,
) -> Result<(HugePlaces, Flows), NoMemory>
    ensures sent { (memory : HugeMemory) → places_of huge.now ≡ memory.pages → IfOk result
        (λ done. IsWalk (huge_walk_in space.now said.now toucher memory) done.0 done.1) }
    ensures keeps { IfOk result (λ done. Keeps (places_of huge.now) (places_of done.0)) }
{
    let span = huge_span(said.start / PAGE_BYTES, page_count(said.length));
    let list = said.spec.mask();
    huge.sent(
        alloc,
        space,
        span.first,
        span.pages,
        &list,
        toucher.task,
        toucher.cpu,
    )
}

/// The same, before the space has the policy; none if something refuses that.
///
/// # Errors
/// `NoMemory`: out of memory, or there would be too many runs.
pub fn huge_sent_from(
    alloc: Global,
    space: &Space,
    huge: &HugePlaces,
    said: &Rebinding,
    toucher: Toucher,
) -> Result<Option<(HugePlaces, Flows)>, NoMemory>
    ensures sent { (memory : HugeMemory) (history : List Command) (kept : Kept)
        → places_of huge.now ≡ memory.pages → StandsFor space.now history
        → refusal_of space.now.machine space.now.bounds history (command_of said.now) ≡ None
        → IfOk result (λ done. IsSomeAnd done (λ done. IsWalk
        (huge_walk (process_in space.now history kept) said.now toucher memory) done.0 done.1)) }
    ensures keeps { IfOk result (λ done. IfSome done
        (λ done. Keeps (places_of huge.now) (places_of done.0))) }
{
    let Ok(found) = with_policy(alloc, space, said) else {
        return Err(NoMemory);
    };
    let Some(after) = found else {
        return Ok(None);
    };
    let sent = huge_sent(alloc, &after, huge, said, toucher);
    let_go(after);
    match sent {
        Ok(sent) => Ok(Some(sent)),
        Err(_) => Err(NoMemory),
    }
}

// ---- populate

/// The pages of 2 MiB, of which those of a span that lie nowhere were touched; and what that did.
///
/// # Errors
/// `NoMemory`: out of memory, or there would be too many runs.
pub fn huge_populated(
    space: &Space,
    huge: &HugePlaces,
    start: u64,
    length: u64,
    task: u32,
    cpu: u32,
) -> Result<(HugePlaces, HugeArrived), NoMemory>
    ensures touched { (memory : HugeMemory) → places_of huge.now ≡ memory.pages → IfOk result
        (λ done. IsTouch (touch_walk (ground_in space.now []) start length task cpu memory) done.0
        done.1) }
    ensures keeps { IfOk result (λ done. Keeps (places_of huge.now) (places_of done.0)) }
{
    let span = huge_span(start / PAGE_BYTES, page_count(length));
    huge.populated(space, span.first, span.pages, task, cpu)
}
