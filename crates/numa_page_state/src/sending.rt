//! `mbind .. move`: a policy is set, and the pages go that lie on other nodes than it says.
ghost use Rattle.std.specs.Prelude.{◌≡◌, None, Some, true, false, IfOk, IfErr, List, MatchOption};
ghost use Rattle.std.specs.Prelude.{if◌then◌else◌, is_some, IsSome, OnOk};
ghost use Rattle.numa_maps.specs.Residents.{Kept};
ghost use Rattle.numa_placed.specs.Binds.{Asked};
ghost use Rattle.numa_placed.specs.Refusals.{span_cause};
ghost use Rattle.numa_page_state.specs.Lying.{Lying, process_in};
ghost use Rattle.numa_page_state.specs.Outcomes.{cause_by, is_starved, lack_told};
ghost use Rattle.numa_page_state.specs.Sending.{below_end, command_of, lacks_room, rebinding_in};
ghost use Rattle.numa_page_state.specs.Sending.{sent_spots, tells_left, with_sent};
ghost use Rattle.numa_page_state.specs.Standing.{HasPolicy, HasSent, Lies, LiesAs, Sends};
ghost use Rattle.numa_page_state.specs.Standing.{asked_for};
ghost use Rattle.numa_space.specs.Refusals.{refusal_of};
ghost use Rattle.numa_space.specs.Standing.{StandsFor};
ghost use Rattle.numa_requests.specs.declared.command.Command.{Command};

use crate::last::{Departures, Last, keep};
use crate::state::{PageState, begins_starved, rooms_of};
use crate::staying::held_kept;
use numa_machine::NoMemory;
use numa_maps::Resident;
use numa_mode::PolicySpec;
use numa_placed::{Placed, Rooms, span_below};
use numa_requests::{Command, PlacedRefusal, Refusal};
use numa_space::Space;
use std::alloc::Global;
use std::mem;

/// A policy for a span; start and length are in bytes.
#[derive(Clone, Copy, Drop)]
pub struct Rebinding {
    pub start: u64,
    pub length: u64,
    pub spec: PolicySpec,
}

/// By whose faults pages find the nodes that they go to: those of a task, on a CPU of a node.
#[derive(Clone, Copy, Drop)]
pub struct Toucher {
    pub task: u32,
    pub cpu: u32,
}

/// The policy that a command sets for a span.
pub fn rebinding_in(command: &Command) -> Option<Rebinding>
    ensures { result ≡ rebinding_in command.now }
{
    match command {
        Command::Mbind {
            start,
            length,
            spec,
        } => Some(Rebinding {
            start: *start,
            length: *length,
            spec: *spec,
        }),
        _ => None,
    }
}

/// Whether mbind(2) tells by an error number, though the policy is set, that so many pages stayed
/// that had to go: `DEFAULT` drops MPOL_MF_STRICT.
pub fn tells_left(strict: bool, spec: &PolicySpec, left: u64) -> bool
    ensures { result ≡ tells_left strict spec.now left }
{
    strict && !spec.is_default() && left != 0
}

/// Whether a refusal tells that memory ran out.
fn lacks_room(refusal: Refusal) -> bool
    ensures { result ≡ lacks_room refusal }
{
    matches!(refusal, Refusal::NoMemory)
}

/// Drops a space, which takes many steps.
pub(crate) fn let_go(space: Space) {
    drop(space);
}

/// The space once a policy is set; none if something refuses that.
///
/// # Errors
/// `NoMemory`: there is no memory for it.
pub(crate) fn with_policy(
    alloc: Global,
    space: &Space,
    said: &Rebinding,
) -> Result<Option<Space>, NoMemory>
    ensures { IfOk result (λ found. (history : List Command) → StandsFor space.now history
        → MatchOption found
        (is_some (refusal_of space.now.machine space.now.bounds history (command_of said.now))
        ≡ true)
        (λ after. HasPolicy space.now history said.now after)) }
{
    let Ok(mut after) = space.copy(alloc) else {
        return Err(NoMemory);
    };
    let command = Command::Mbind {
        start: said.start,
        length: said.length,
        spec: said.spec,
    };
    match after.apply(&command) {
        Ok(_) => Ok(Some(after)),
        Err(refusal) => {
            let_go(after);
            if lacks_room(refusal) {
                return Err(NoMemory);
            }
            Ok(None)
        }
    }
}

/// Where pages lie once they went, twice; how many more each node takes then; and how many moved,
/// and stayed though they had to go.
#[derive(Drop)]
pub struct Sending {
    pub(crate) placed: Placed,
    pub(crate) copy: Placed,
    pub(crate) rooms: Option<Rooms>,
    pub moved: u64,
    pub left: u64,
}

/// The rooms, where a line said one.
pub(crate) fn rooms_if(rooms: &Option<Rooms>, after: Rooms) -> Option<Rooms>
    ensures { result ≡ (if is_some rooms.now then Some after else None) }
{
    match rooms {
        Some(_) => Some(after),
        None => None,
    }
}

/// The pages go, in a space that has the policy.
///
/// # Errors
/// `TooManyRuns`, `NoMemory`: as [`Placed::bind_astray`] says.
fn sent_in(
    space: &Space,
    resident: &Resident,
    state: &PageState,
    said: &Rebinding,
    toucher: Toucher,
) -> Result<Sending, PlacedRefusal>
    ensures ok { (lying : Lying) → LiesAs state.now lying → IfOk result
        (λ sent. HasSent sent resident.now (asked_for space.now said.now toucher) lying) }
    ensures err { (lying : Lying) → LiesAs state.now lying → IfErr result (λ why.
        is_starved (lack_told why) ≡ false → cause_by (lack_told why)
        (span_cause said.now.start said.now.length)
        (sent_spots (asked_for space.now said.now toucher) lying) ≡ Some why) }
{
    let Ok(mut placed) = state.placed.copy() else {
        return Err(PlacedRefusal::NoMemory);
    };
    let given = rooms_of(&state.rooms);
    let mut rooms = given;
    let list = said.spec.mask();
    let bound = match placed.bind_astray(
        space,
        said.start,
        said.length,
        &list,
        toucher.task,
        toucher.cpu,
        &mut rooms,
    ) {
        Ok(bound) => bound,
        Err(cause) => {
            drop(placed);
            return Err(cause);
        }
    };
    let Ok(held) = held_kept(resident, &given, &state.placed, space, said, toucher) else {
        drop(placed);
        return Err(PlacedRefusal::NoMemory);
    };
    let Ok(copy) = placed.copy() else {
        drop(placed);
        return Err(PlacedRefusal::NoMemory);
    };
    Ok(Sending {
        placed,
        copy,
        rooms: rooms_if(&state.rooms, rooms),
        moved: bound.moved,
        left: bound.left + held,
    })
}

/// The policy for the part of its span that can be mapped.
fn below_end(said: &Rebinding) -> Rebinding
    ensures { result ≡ below_end said.now }
{
    let (start, length) = span_below(said.start, said.length);
    let spec = said.spec;
    Rebinding {
        start,
        length,
        spec,
    }
}

/// Where the pages of a span go once a policy is set for it that they don't lie by, as
/// [`sent_from`] says; none if something refuses the policy. Nothing moves yet.
///
/// # Errors
/// `TooManyRuns`: there would be too many runs of pages; `NoMemory`: out of memory.
pub fn sent(
    alloc: Global,
    space: &Space,
    resident: &Resident,
    state: &PageState,
    said: &Rebinding,
    toucher: Toucher,
) -> Result<Option<Sending>, PlacedRefusal>
    ensures { (history : List Command) (lying : Lying) → StandsFor space.now history
        → LiesAs state.now lying → Sends (process_in space.now history resident.now) said.now
        toucher lying result }
{
    let Ok(found) = with_policy(alloc, space, said) else {
        return Err(PlacedRefusal::NoMemory);
    };
    let Some(after) = found else {
        return Ok(None);
    };
    let part = below_end(said);
    let outcome = sent_in(&after, resident, state, &part, toucher);
    let_go(after);
    match outcome {
        Ok(sent) => Ok(Some(sent)),
        Err(refusal) => Err(refusal),
    }
}

/// The pages lie so from now on.
pub fn settle(state: &mut PageState, sent: Sending)
    ensures { state.new ≡ (record {
      placed = sent.placed;
      rooms = sent.rooms;
      follows = state.old.follows;
      last = Last.Pages (record {
        moved = sent.moved;
        left = sent.left;
        before = state.old.placed;
        after = sent.copy;
      });
      arrived = state.old.arrived;
    }) }
{
    let Sending {
        placed,
        copy,
        rooms,
        moved,
        left,
    } = sent;
    let before = mem::replace(&mut state.placed, placed);
    state.rooms = rooms;
    keep(
        &mut state.last,
        Last::Pages(Departures {
            moved,
            left,
            before,
            after: copy,
        }),
    );
}

/// Where the pages of a span go once a policy is set for it that they don't lie by (mbind(2),
/// MPOL_MF_MOVE): the lowest first, each to the first node with room of its own list, as a fault of
/// the toucher would put it; of these, one that finds no room stays. None if something refuses the
/// policy. Nothing moves yet: [`settled`] keeps what this has found. Begins to keep where pages
/// lie, if nothing is kept yet.
///
/// # Errors
/// `TooManyRuns`: there would be too many runs of pages. `NoMemory`: out of memory.
pub fn sent_from(
    alloc: Global,
    space: &Space,
    resident: &Resident,
    state: &mut Option<PageState>,
    said: &Rebinding,
    toucher: Toucher,
) -> Result<Option<Sending>, PlacedRefusal>
    ensures lies { (lying : Lying) → Lies state.old lying → Lies state.new lying }
    ensures sends { (history : List Command) (lying : Lying) → StandsFor space.now history
        → Lies state.old lying → Sends (process_in space.now history resident.now) said.now
        toucher lying result }
    ensures some { OnOk result (IsSome state.new) }
{
    if begins_starved(alloc, state) {
        return Err(PlacedRefusal::NoMemory);
    }
    let Some(kept) = state else { unreachable!() };
    sent(alloc, space, resident, kept, said, toucher)
}

/// The pages lie so from now on.
pub fn settled(state: &mut Option<PageState>, sent: Sending)
    ensures { (lying : Lying) (kept : Kept) (asked : Asked) → Lies state.old lying
        → IsSome state.old → HasSent sent kept asked lying
        → Lies state.new (with_sent kept asked lying) }
{
    if let Some(kept) = state {
        settle(kept, sent);
    }
}
