//! Why a question about played scripts has no answer.
ghost use Rattle.std.specs.Prelude.{◌≡◌};
ghost use Rattle.numa_lines.specs.declared.fault.RunFault.TheVariants as run_fault;
ghost use Rattle.numa_subjects.specs.declared.halt.Halt.TheVariants as halt;

use numa_lines::RunFault;
use numa_traces::ReplayError;
use std::alloc::AllocError;

/// What is told of a trace that finds nothing ([`Halt::NothingServed`]).
pub const NOTHING_SERVED: &str = "no page of the trace finds a place: no node on which one may lie \
has room (lines room of the scripts, --free)";

/// Why a question about played scripts has no answer. Nothing of an answer was written, except for
/// `Stopped(Write)`.
#[derive(Clone, Copy, Debug)]
pub enum Halt {
    /// A read or a write failed, or out of memory.
    Stopped(RunFault),
    /// No line of the scripts made a machine.
    NoMachine,
    /// The machine has this many nodes, and lacks the one in question.
    NoNode(u32),
    /// Free pages are given for this node, which the machine, with this many nodes, lacks.
    NoFreeNode(u8, u32),
    /// The page in question isn't mapped.
    Unmapped,
    /// The digits of the address in question may be decimal or hexadecimal, and the pages of both
    /// are mapped.
    TwoPages,
    /// No task is asked for, and lines name several: these two first.
    ManyTasks(u32, u32),
    /// A line of the trace, from 1, can't be replayed.
    BadAccess(u64, ReplayError),
    /// Pages take room, and no access of the trace found a page that lies somewhere, or room for
    /// one.
    NothingServed,
    /// A process is asked for, and the scripts are of one process.
    NoHost,
    /// The host has no process of this number.
    NoProcess(u32),
    /// The answer is about one process, and none of the host's is named.
    ManyProcesses,
}

impl From<RunFault> for Halt {
    fn from(why: RunFault) -> Halt
        ensures { result ≡ halt.Stopped why }
    {
        Halt::Stopped(why)
    }
}

impl From<AllocError> for Halt {
    fn from(_error: AllocError) -> Halt
        ensures { result ≡ halt.Stopped run_fault.Memory }
    {
        Halt::Stopped(RunFault::Memory)
    }
}
