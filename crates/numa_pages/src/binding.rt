//! What comes of binding pages to a policy that they move to.
ghost use Rattle.std.specs.Prelude.{◌≡◌, ◌+◌, ◌-◌, ◌^◌, length, min};
ghost use Rattle.numa_page_state.specs.Sending.{command_of};
ghost use Rattle.numa_pages.specs.Changes.{late_errno};

use numa_huge::Flows;
use numa_mode::PolicySpec;
use numa_page_state::{Rebinding, Sending, tells_left};
use numa_placed::Bound;
use numa_requests::Command;

/// What setting a policy did, and moving the pages to where it puts them.
#[derive(Clone, Copy, Drop)]
pub struct Rebound {
    /// How many pages went, and how many stayed; each counts once, whatever its size.
    pub bound: Bound,
    /// The error number that mbind(2) answers although the policy is set: 5 (EIO), where it was
    /// asked to be strict and a page stayed that had to go; else 0.
    pub errno: u32,
}

/// How many pages went, and how many stayed, of both sizes together.
pub(crate) fn bound_of(sent: &Sending, flows: &Flows) -> Bound
    ensures moved { result.moved
        ≡ min (sent.now.moved + length flows.now.moves.items) (2 ^ 64 - 1) }
    ensures left { result.left ≡ min (sent.now.left + flows.now.left) (2 ^ 64 - 1) }
{
    Bound {
        moved: sent.moved.saturating_add(flows.moved()),
        left: sent.left.saturating_add(flows.left),
    }
}

/// The command of a policy for a span.
pub(crate) fn command_of(said: &Rebinding) -> Command
    ensures { result ≡ command_of said.now }
{
    let Rebinding {
        start,
        length,
        spec,
    } = *said;
    Command::Mbind {
        start,
        length,
        spec,
    }
}

/// The error number that is told though the policy is set, where so many pages stayed.
pub(crate) fn late_errno(strict: bool, spec: &PolicySpec, left: u64) -> u32
    ensures { result ≡ late_errno strict spec.now left }
{
    if tells_left(strict, spec, left) {
        return 5;
    }
    0
}
