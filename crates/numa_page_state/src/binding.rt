//! Policies that are refused where pages lie on other nodes than those of their list: mbind(2) with
//! MPOL_MF_STRICT.
ghost use Rattle.std.specs.Prelude.{◌≡◌, ◌≤◌, ◌^◌, ℕ, IfOk, List, Some};
ghost use Rattle.numa_ranges.specs.Runs.{in_pages, page_at};
ghost use Rattle.numa_space.specs.History.{page_count};
ghost use Rattle.numa_space.specs.Refusals.{refusal_of};
ghost use Rattle.numa_space.specs.Standing.{StandsFor};
ghost use Rattle.numa_requests.specs.declared.command.Command.{Command};
ghost use Rattle.numa_placed.specs.Astray.{strict_cause, strict_cause_by};
ghost use Rattle.numa_placed.specs.Spots.{spot_at};
ghost use Rattle.numa_placed.specs.declared.spot.Spot.{Spot};
ghost use Rattle.numa_page_state.specs.Lying.{Lying, process_in};
ghost use Rattle.numa_page_state.specs.Outcomes.{is_astray_cause};
ghost use Rattle.numa_page_state.specs.Standing.{Lies, LiesAs};
ghost use Rattle.numa_page_state.specs.Strict.{has_astray, held_astray, is_late};
ghost use Rattle.numa_page_state.specs.Strict.{strict_binding, strict_binding_in};

use crate::sending::rebinding_in;
use crate::state::PageState;
use numa_machine::{NoMemory, Rules};
use numa_maps::Resident;
use numa_mask::NodeMask;
use numa_mode::PolicySpec;
use numa_placed::{Placed, judged_pages};
use numa_requests::{Command, PAGE_BYTES, PlacedRefusal, Refusal};
use numa_space::Space;
use std::alloc::Global;

/// A command that may be refused for the pages of its span: those on other nodes than its list has.
/// Start and length are in bytes.
#[derive(Clone, Copy, Drop)]
pub struct Binding {
    pub start: u64,
    pub length: u64,
    pub list: NodeMask,
}

/// The command of a policy; `default` is never refused for pages.
fn strict_binding(start: u64, length: u64, spec: &PolicySpec) -> Option<Binding>
    ensures { result ≡ strict_binding start length spec.now }
{
    if spec.is_default() {
        return None;
    }
    let list = spec.mask();
    Some(Binding {
        start,
        length,
        list,
    })
}

/// What a command sets that pages may refuse; none if they can't.
pub fn strict_binding_in(command: &Command) -> Option<Binding>
    ensures { result ≡ strict_binding_in command.now }
{
    match rebinding_in(command) {
        Some(said) => strict_binding(said.start, said.length, &said.spec),
        None => None,
    }
}

/// Whether a page is one of a span.
pub(crate) fn is_in(first: u64, pages: u64, page: u64) -> bool
    ensures { result ≡ in_pages first pages page }
{
    page >= first && page - first < pages
}

/// Whether a page of a span keeps a frame of another node than those of a list.
fn held_astray(resident: &Resident, first: u64, pages: u64, list: &NodeMask) -> bool
    ensures { result ≡ held_astray resident.now first pages list.now }
{
    for (page, placement) in resident.iter() {
        if is_in(first, pages, *page) && !list.has(placement.node) {
            return true;
        }
    }
    false
}

/// Whether a refusal is that pages lie astray.
pub(crate) fn is_astray(refusal: PlacedRefusal) -> bool
    ensures { result ≡ is_astray_cause (Some refusal) }
{
    matches!(refusal, PlacedRefusal::Astray)
}

/// Whether a stated page of a span lies on another node than those of a list.
pub(crate) fn stated_astray(placed: &Placed, start: u64, length: u64, list: &NodeMask) -> bool
    ensures { result ≡ is_astray_cause (strict_cause (spot_at placed.now) start length list.now) }
{
    match placed.judge_strict(start, length, list) {
        Ok(()) => false,
        Err(refusal) => is_astray(refusal),
    }
}

/// Whether a stated page that is judged lies on another node than those of a list.
fn judged_astray(placed: &Placed, space: &Space, said: &Binding) -> bool
    ensures { result ≡ is_astray_cause (strict_cause_by space.now.machine.rules
        (page_at space.now.ranges) (spot_at placed.now) said.now.start said.now.length
        said.now.list) }
{
    match placed.judge_strict_by(space, said.start, said.length, &said.list) {
        Ok(()) => false,
        Err(refusal) => is_astray(refusal),
    }
}

/// Whether a stated page that is judged lies on another node than those of a list, if any is kept.
fn lies_astray(space: &Space, state: &Option<PageState>, said: &Binding) -> bool
    ensures { (lying : Lying) → Lies state.now lying → result ≡ is_astray_cause (strict_cause_by
        space.now.machine.rules (page_at space.now.ranges) lying.spots said.now.start
        said.now.length said.now.list) }
{
    match state {
        None => false,
        Some(kept) => judged_astray(&kept.placed, space, said),
    }
}

/// The number of pages that so many bytes reach into.
pub fn page_count(length: u64) -> u64
    ensures pages { result ≡ page_count length }
    ensures at_most { result ≤ 2 ^ 52 }
{
    length / PAGE_BYTES + u64::from(length % PAGE_BYTES != 0)
}

/// Whether a page of a span that is judged lies on another node than those of a list: a stated one
/// does, or one that keeps a frame.
fn strays(space: &Space, resident: &Resident, said: &Binding, stated: bool) -> bool
    ensures { (spots : ℕ → Spot) (history : List Command) → stated ≡ is_astray_cause
        (strict_cause_by space.now.machine.rules (page_at space.now.ranges) spots said.now.start
        said.now.length said.now.list) → StandsFor space.now history
        → result ≡ has_astray (process_in space.now history resident.now) spots said.now }
{
    let first = said.start / PAGE_BYTES;
    let pages = judged_pages(space, first, page_count(said.length));
    let held = held_astray(resident, first, pages, &said.list);
    stated || held
}

impl PageState {
    /// Whether a page of a span that is judged lies on another node than those of a list.
    pub fn has_astray(&self, space: &Space, resident: &Resident, said: &Binding) -> bool
        ensures { (lying : Lying) (history : List Command) → LiesAs self.now lying
            → StandsFor space.now history → result ≡ has_astray
            (process_in space.now history resident.now) lying.spots said.now }
    {
        let stated = judged_astray(&self.placed, space, said);
        strays(space, resident, said, stated)
    }
}

/// Whether a page of a span that is judged lies on another node than those of a list, where any
/// are kept.
pub fn has_astray(
    space: &Space,
    resident: &Resident,
    state: &Option<PageState>,
    said: &Binding,
) -> bool
    ensures { (lying : Lying) (history : List Command) → Lies state.now lying
        → StandsFor space.now history → result ≡ has_astray
        (process_in space.now history resident.now) lying.spots said.now }
{
    let stated = lies_astray(space, state, said);
    strays(space, resident, said, stated)
}

/// Whether pages are judged before this cause.
fn is_late_cause(rules: Rules, refusal: Refusal) -> bool
    ensures { result ≡ is_late rules (Some refusal) }
{
    match refusal {
        Refusal::TooManyRanges => true,
        Refusal::NoMemory => true,
        Refusal::Hole => rules.is_linux(),
        _ => false,
    }
}

/// Whether pages are judged before what stands against a command, or nothing does; it is tried on a
/// copy of the space.
///
/// # Errors
/// `NoMemory`: there is no memory for the copy.
pub fn is_late_in(alloc: Global, space: &Space, command: &Command) -> Result<bool, NoMemory>
    ensures { IfOk result (λ late. (history : List Command) → StandsFor space.now history
        → late ≡ is_late space.now.machine.rules (refusal_of space.now.machine space.now.bounds
        history command.now)) }
{
    let mut trial = space.copy(alloc)?;
    let tried = trial.apply(command);
    drop(trial);
    match tried {
        Ok(_) => Ok(true),
        Err(refusal) => Ok(is_late_cause(space.machine().rules(), refusal)),
    }
}
