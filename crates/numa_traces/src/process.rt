//! The replay of a process whose frames are those of its host.
ghost use Rattle.std.specs.Prelude.{◌≡◌, IfErr, None, OnOk};
ghost use Rattle.numa_plan.specs.Meaning.{place_refusal};
ghost use Rattle.numa_traces.specs.Hosting.{with_free};
ghost use Rattle.numa_traces.specs.Replaying.{EndsReplay, IsNext};

use crate::access::Access;
use crate::fault::ReplayError;
use crate::replay::Replay;
use numa_plan::Plan;

/// The plan of a process, and what its accesses met: the frames left are its host's.
#[derive(Drop)]
pub struct ProcessReplay {
    pub plan: Plan,
    pub replay: Replay,
}

/// Replays an access of a process on frames that all processes share.
///
/// # Errors
/// As [`Replay::take`]. Then the replay has ended.
pub(crate) fn take_shared(
    one: &mut ProcessReplay,
    free: &mut Vec<u64>,
    access: Access,
) -> Result<(), ReplayError>
    ensures plan { one.new.plan ≡ one.old.plan }
    ensures accepted { OnOk result
        (place_refusal one.old.plan access.page access.cpu ≡ None) }
    ensures next { OnOk result (IsNext one.old.plan access (with_free one.old.replay free.old.items)
        (with_free one.new.replay free.new.items)) }
    ensures err { IfErr result
        (EndsReplay one.old.plan (with_free one.old.replay free.old.items) access) }
{
    one.replay.exchange(free);
    let taken = one.replay.take(&one.plan, access);
    one.replay.exchange(free);
    taken
}
