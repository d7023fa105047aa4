//! Pages of 2 MiB after scripts, once each was touched: where they lie, by what their pools have.
ghost use Rattle.std.specs.Prelude.{◌≡◌, ◌⊎◌, ◌==◌, ◌<◌, ℕ, IfOk, MatchOption, Option, false};
ghost use Rattle.std.specs.Prelude.{nat_lt, slice_index, true};
ghost use Rattle.numa_host_script.specs.Sessions.{Session};
ghost use Rattle.numa_host_script.specs.Standing.{IsAlone, IsHost};
ghost use Rattle.numa_host_script.specs.Taking.{SessionStandsFor};
ghost use Rattle.numa_huge.specs.Huge.{huge_at, kept_page, same_huge};
ghost use Rattle.numa_ranges.specs.Counts.{range_count};
ghost use Rattle.numa_words.specs.Touching.{AreNone, HasNone, IsFrom, IsTouched};

use crate::touching::{Touched, from_own, from_shared};
use numa_answers::FromPools;
use numa_host_script::HostScript;
use numa_huge::HugePages;
use numa_lines::RunFault;
use numa_machine::NoMemory;
use numa_placed::Placed;
use numa_sheets::Touch;
use numa_subjects::Halt;
use std::alloc::Global;

/// Where all pages of the processes of a script's host lie, or of one, once each was touched, if
/// one has some.
fn from_host(
    alloc: Global,
    script: &HostScript,
    process: Option<u32>,
    touch: Touch,
    there: &[Placed],
) -> Option<Result<Touched, NoMemory>>
    ensures { (session : Session) → SessionStandsFor script.now session → MatchOption result
        (IsAlone session ⊎ HasNone session)
        (λ done. IfOk done (IsFrom session process touch there.now)) }
{
    let Some(pages) = script.host_pages() else {
        return None;
    };
    let Some(host) = script.host() else {
        return None;
    };
    if pages.huge.is_empty() {
        return None;
    }
    Some(from_shared(alloc, host, pages, process, touch, there))
}

/// Whether no run of them is kept.
fn has_no_runs(kept: &HugePages) -> bool
    ensures { result ≡ (range_count same_huge (kept_page (huge_at kept.now.places.runs)) == 0) }
{
    kept.places.runs() == 0
}

/// The same of the one process of a script without a host.
fn from_alone(
    alloc: Global,
    script: &HostScript,
    touch: Touch,
    there: &[Placed],
) -> Option<Result<Touched, NoMemory>>
    ensures { (session : Session) (process : Option ℕ) → SessionStandsFor script.now session
        → MatchOption result (IsHost session ⊎ HasNone session)
        (λ done. IfOk done (IsFrom session process touch there.now)) }
{
    let Some(own) = script.script() else {
        return None;
    };
    let Some(kept) = own.huge() else {
        return None;
    };
    let Some(core) = own.core() else {
        return None;
    };
    if has_no_runs(kept) {
        return None;
    }
    Some(from_own(alloc, kept, core.space(), touch, there))
}

/// Where all pages lie after a script, once each was touched, if it has some.
fn from_script(
    alloc: Global,
    script: &HostScript,
    process: Option<u32>,
    touch: Touch,
    there: &[Placed],
) -> Option<Result<Touched, NoMemory>>
    ensures { (session : Session) → SessionStandsFor script.now session → MatchOption result
        (HasNone session) (λ done. IfOk done (IsFrom session process touch there.now)) }
{
    let Some(done) = from_host(alloc, script, process, touch, there) else {
        return from_alone(alloc, script, touch, there);
    };
    Some(done)
}

/// Whether pages lie on a node.
fn has_on(said: &FromPools, node: usize) -> bool
    requires { node < 256 }
    ensures { result ≡ nat_lt 0 (slice_index said.now.on node) }
{
    said.on[node] > 0
}

/// Whether there are none.
fn are_none(said: &FromPools) -> bool
    ensures none { result ≡ true → AreNone said.now }
    ensures some { result ≡ false → AreNone said.now → ⊥ }
{
    for node in 0..256usize {
        if has_on(said, node) {
            return false;
        }
    }
    said.exhausted == 0
}

/// Where all pages would lie after a script, if each of 2 MiB were touched from the pools as they
/// are, as `populate` does, beside those that are there; `None` if the script has no such pages.
///
/// # Errors
/// `Stopped`: out of memory.
pub(crate) fn from_pools(
    alloc: Global,
    script: &HostScript,
    process: Option<u32>,
    touch: Touch,
    there: &[Placed],
) -> Result<Option<Touched>, Halt>
    ensures { (session : Session) → SessionStandsFor script.now session
        → IfOk result (IsTouched session process touch there.now) }
{
    let Some(done) = from_script(alloc, script, process, touch, there) else {
        return Ok(None);
    };
    let Ok(touched) = done else {
        return Err(Halt::Stopped(RunFault::Memory));
    };
    if are_none(&touched.said) {
        drop(touched);
        return Ok(None);
    }
    Ok(Some(touched))
}
