//! The result codes of hosts.
ghost use Rattle.std.specs.Prelude.{◌≡◌, ◌≢◌};
ghost use Rattle.numaplan_c.specs.Hosts.{host_cause_code, reply_code, told_code};
ghost use Rattle.numaplan_c.specs.Placed.{done_code};

use crate::codes::{code_by_name, refusal_code};
use crate::placed_codes::{huge_code, move_code, placed_code};
use numa_requests::{HostRefusal, Refusal};
use numa_script::Reply;

/// The code of a refusal of a host's command.
fn host_cause_code(cause: HostRefusal) -> u32
    ensures { result ≡ host_cause_code cause }
{
    code_by_name!(cause,
        HostRefusal { GroupExists, NoSuchGroup, TooManyGroups, RootGroup, Populated, ProcessExists,
            NoSuchProcess, TooManyProcesses, GroupMems, NoMemory },
        HostRefusal::CommandsSpent => refusal_code(Refusal::CommandsSpent),
        HostRefusal::NoSuchNode => refusal_code(Refusal::NoSuchNode),
        HostRefusal::OfSpace(refusal) => refusal_code(refusal))
}

/// The code of a reply of a host: 0 unless it refuses.
pub(crate) fn reply_code(reply: &Reply) -> u32
    ensures { result ≡ reply_code reply.now }
{
    match reply {
        Reply::HostRefused(cause) => host_cause_code(*cause),
        Reply::PlacedRefused(cause) => placed_code(*cause),
        Reply::MoveRefused(cause) => move_code(*cause),
        Reply::HugeRefused(cause) => huge_code(*cause),
        _ => 0,
    }
}

/// The same where there may be no reply, and then nothing is refused.
pub(crate) fn told_code(told: &Option<Reply>) -> u32
    ensures { result ≡ told_code told.now }
{
    match told {
        None => 0,
        Some(reply) => reply_code(reply),
    }
}

/// The code of what was done, or of the reply that refuses it.
pub(crate) fn done_code<A>(answer: &Result<A, Reply>) -> u32
    ensures { result ≡ done_code reply_code answer.now }
{
    match answer {
        Ok(_) => 0,
        Err(refusal) => reply_code(refusal),
    }
}
