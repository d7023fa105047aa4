//! The names of errors and refusals in answers.
ghost use Rattle.std.specs.Prelude.{◌≡◌, ◌≤◌, length};
ghost use Rattle.numa_script.specs.HostTexts.{host_errno_name, host_refusal_name};
ghost use Rattle.numa_script.specs.Names.{name_of};
ghost use Rattle.numa_script.specs.PageTexts.{move_cause, placed_cause};

use numa_machine::{MachineFault, PlaceRefusal};
use numa_mask::ListFault;
use numa_mode::SpecError;
use numa_requests::{Errno, HostErrno, HostRefusal, MoveRefusal, PlacedRefusal, Refusal};

/// What answers name.
#[derive(Clone, Copy, PartialEq, Eq)]
pub enum Named {
    /// An error in a list of nodes.
    List(ListFault),
    /// An error in a policy.
    Policy(SpecError),
    /// An error in a machine.
    Machine(MachineFault),
    /// A command's refusal.
    Refusal(Refusal),
    /// An error number (errno(3)).
    Errno(Errno),
    /// A question's refusal.
    Place(PlaceRefusal),
}

/// The names of the errors in a list of nodes, in their order; so are those below.
static LIST_NAMES: [&[u8]; 4] = [b"Empty", b"BadDigit", b"BackRange", b"NodeTooHigh"];

/// The names of the errors in a policy.
static POLICY_NAMES: [&[u8]; 5] = [
    b"UnknownMode",
    b"BothFlags",
    b"NodesForbidden",
    b"FlagsForbidden",
    b"NodesMissing",
];

/// The names of the errors in a machine.
static MACHINE_NAMES: [&[u8]; 5] = [
    b"NodeCount",
    b"NoMemoryNode",
    b"BadDistance",
    b"TooManyFrames",
    b"NoMemory",
];

/// The names of the refusals of commands.
static REFUSAL_NAMES: [&[u8]; 17] = [
    b"CommandsSpent",
    b"Unaligned",
    b"OutOfSpace",
    b"BadSpan",
    b"EmptyLength",
    b"BadOffset",
    b"Overlap",
    b"Hole",
    b"NoSuchNode",
    b"BadWeight",
    b"NodesNotAllowed",
    b"NoNodes",
    b"NotSupported",
    b"NoPolicy",
    b"TooManyTasks",
    b"TooManyRanges",
    b"NoMemory",
];

/// The names of the error numbers.
static ERRNO_NAMES: [&[u8]; 7] = [
    b"EINVAL",
    b"ENOMEM",
    b"EEXIST",
    b"EFAULT",
    b"ENOSPC",
    b"EOPNOTSUPP",
    b"ENOENT",
];

/// The names of the refusals of questions.
static PLACE_NAMES: [&[u8]; 2] = [b"BadCpu", b"Unmapped"];

/// The names of the refusals of lines about pages, with their error numbers.
static PLACED_CAUSES: [&[u8]; 11] = [
    b"Unaligned EINVAL",
    b"OutOfSpace ENOMEM",
    b"NoSuchNode EINVAL",
    b"Occupied EEXIST",
    b"NodesNotAllowed EINVAL",
    b"Astray EIO",
    b"BadCpu EINVAL",
    b"Unmapped ENOMEM",
    b"NoRoom ENOMEM",
    b"TooManyRuns ENOMEM",
    b"NoMemory ENOMEM",
];

/// The names of why pages aren't moved, with their error numbers.
static MOVE_CAUSES: [&[u8]; 7] = [
    b"NoSuchNode ENODEV",
    b"NodesNotAllowed EACCES",
    b"Unmapped EFAULT",
    b"NotPlaced ENOENT",
    b"NoRoom ENOMEM",
    b"TooManyRuns ENOMEM",
    b"NoMemory ENOMEM",
];

impl Named {
    /// Its name.
    pub fn name(self) -> &'static [u8]
        ensures text { result.now ≡ name_of self }
        ensures short { length result.now ≤ 32 }
    {
        match self {
            Named::List(fault) => LIST_NAMES[fault as usize],
            Named::Policy(fault) => POLICY_NAMES[fault as usize],
            Named::Machine(fault) => MACHINE_NAMES[fault as usize],
            Named::Refusal(refusal) => REFUSAL_NAMES[refusal as usize],
            Named::Errno(errno) => ERRNO_NAMES[errno as usize],
            Named::Place(refusal) => PLACE_NAMES[refusal as usize],
        }
    }
}

/// The name of a host's refusal.
pub fn host_refusal_name(refusal: HostRefusal) -> &'static [u8]
    ensures { result.now ≡ host_refusal_name refusal }
{
    match refusal {
        HostRefusal::CommandsSpent => b"CommandsSpent",
        HostRefusal::GroupExists => b"GroupExists",
        HostRefusal::NoSuchGroup => b"NoSuchGroup",
        HostRefusal::TooManyGroups => b"TooManyGroups",
        HostRefusal::RootGroup => b"RootGroup",
        HostRefusal::NoSuchNode => b"NoSuchNode",
        HostRefusal::Populated => b"Populated",
        HostRefusal::ProcessExists => b"ProcessExists",
        HostRefusal::NoSuchProcess => b"NoSuchProcess",
        HostRefusal::TooManyProcesses => b"TooManyProcesses",
        HostRefusal::GroupMems => b"GroupMems",
        HostRefusal::OfSpace(refusal) => Named::Refusal(refusal).name(),
        HostRefusal::NoMemory => b"NoMemory",
    }
}

/// The name of an error number of a host (errno(3)).
pub fn host_errno_name(errno: HostErrno) -> &'static [u8]
    ensures { result.now ≡ host_errno_name errno }
{
    match errno {
        HostErrno::OfSpace(errno) => Named::Errno(errno).name(),
        HostErrno::ESrch => b"ESRCH",
        HostErrno::EAcces => b"EACCES",
        HostErrno::EPerm => b"EPERM",
        HostErrno::EAgain => b"EAGAIN",
    }
}

/// The name of a refusal of a line about pages, with its error number (errno(3)).
pub fn placed_cause(refusal: PlacedRefusal) -> &'static [u8]
    ensures { result.now ≡ placed_cause refusal }
{
    PLACED_CAUSES[refusal as usize]
}

/// The name of why a page isn't moved, with its error number.
pub fn move_cause(refusal: MoveRefusal) -> &'static [u8]
    ensures { result.now ≡ move_cause refusal }
{
    MOVE_CAUSES[refusal as usize]
}
