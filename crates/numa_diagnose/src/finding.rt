//! Findings: what is wrong with a line.
ghost use Rattle.std.specs.Prelude.{◌≡◌};

use crate::details::detail_of;
use crate::host_details::host_detail;
use numa_host::Host;
use numa_script::{Malformed, Reply, ScriptLine};
use numa_space::Space;

/// A detail of an error or a refusal, beyond its name.
#[derive(Clone, Copy)]
pub enum Detail {
    /// Nothing.
    None,
    /// Why the line is malformed, and where.
    Malformed(Malformed),
    /// The same of an `mbind` with words after its policy, or of a `map` with some after its
    /// offset.
    MalformedMore(Malformed),
    /// Only a host's script has the line, and this isn't one.
    NoHost,
    /// No machine is ready yet, so the line wasn't judged.
    NoMachine,
    /// A machine is already ready.
    MachineReady,
    /// The line ends with a carriage return, which is in its list or policy.
    CarriageReturn,
    /// There is a tab in a list or a policy.
    Tab,
    /// There is `all` where nodes belong; with the highest node of the machine.
    AllNodes(u32),
    /// START begins with 0 without `0x`, so it is decimal.
    DecimalStart,
    /// A mapping of pages of 2 MiB begins at no multiple of that.
    HugeStart,
    /// Its OFFSET is no multiple of the pages of 4 KiB that one of 2 MiB has.
    HugeOffset,
    /// A border of the span is inside a page of 2 MiB.
    HugeBorder,
    /// The number of a page: the first that is in the way, or that is missing.
    Page(u64),
    /// The number of a page that is mapped but not published yet.
    Unpublished(u64),
    /// The highest node of the machine.
    LastNode(u32),
    /// The present number of what is limited.
    Count(u64),
    /// The nodes to be allowed have no memory.
    Mems,
    /// A line `host` comes after the first command, or the first `pool COUNT`.
    LateHost,
    /// The script is a host's already.
    HostReady,
    /// A line of one process, which has no place in a host without `in`.
    NeedsProcess,
    /// A worker's line, which has no place in a host.
    NoWorkers,
    /// The number of the group or of the process in question.
    Number(u32),
    /// A host's process was told or asked: its group says which nodes are allowed, and no worker
    /// has frames.
    OfHost,
}

/// What is wrong with a line: its error or refusal, and a detail.
#[derive(Clone, Copy)]
pub struct Finding {
    pub fault: Reply,
    pub detail: Detail,
    /// The process of a host that was told or asked the line, if one was.
    pub process: Option<u32>,
}

impl Detail {
    /// The column at which a malformed line is wrong, in bytes from 1.
    pub fn column(self) -> Option<usize> {
        match self {
            Detail::Malformed(malformed) => Some(malformed.column),
            Detail::MalformedMore(malformed) => Some(malformed.column),
            Detail::NoHost => Some(1),
            _ => None,
        }
    }
}

/// What is wrong with a line that this fault or refusal answers, by the space of one process after
/// it, if a machine is ready.
pub fn finding_in(
    space: Option<&Space>,
    line: &[u8],
    said: &ScriptLine<'_>,
    fault: Reply,
) -> Finding
    ensures { result.fault ≡ fault }
{
    Finding {
        fault,
        detail: detail_of(space, line, said, fault),
        process: None,
    }
}

/// What is wrong with a line of a host that this fault or refusal answers, by the host after it.
pub fn finding_in_host(host: &Host, line: &[u8], said: &ScriptLine<'_>, fault: Reply) -> Finding
    ensures { result.fault ≡ fault }
{
    Finding {
        fault,
        detail: host_detail(host, line, said, fault),
        process: said.process,
    }
}
