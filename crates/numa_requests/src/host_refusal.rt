//! Why a host refuses a command.
ghost use Rattle.std.specs.Prelude.{◌≡◌};
ghost use Rattle.numa_requests.specs.HostErrors.{host_errno_of};

use crate::refusal::{Errno, Refusal};

/// Why a command of a host was refused: the first cause that applies, in the order of the command.
#[derive(Clone, Copy, Debug, PartialEq, Eq)]
pub enum HostRefusal {
    /// As many commands as the limits allow were accepted.
    CommandsSpent,
    /// There is a group of this name.
    GroupExists,
    /// There is no group of this name.
    NoSuchGroup,
    /// There are 1,024 groups below the root.
    TooManyGroups,
    /// The root has no list of its own.
    RootGroup,
    /// The list names a node that the machine lacks.
    NoSuchNode,
    /// A list can't be unset while a process is in the group or below it.
    Populated,
    /// There is a process of this number.
    ProcessExists,
    /// There is no process of this number.
    NoSuchProcess,
    /// There are 4,096 processes.
    TooManyProcesses,
    /// The allowed nodes of a process are its group's, and the weights the host's.
    GroupMems,
    /// What the process's space refuses.
    OfSpace(Refusal),
    /// Out of memory for the change.
    NoMemory,
}

/// The name of the error number that Linux returns for a cause (errno(3)): one of those of a
/// space, or one that only a host has.
#[derive(Clone, Copy, Debug, PartialEq, Eq)]
pub enum HostErrno {
    OfSpace(Errno),
    ESrch,
    EAcces,
    EPerm,
    EAgain,
}

impl HostRefusal {
    /// The error number of a refusal.
    pub fn errno(self) -> HostErrno
        ensures { result ≡ host_errno_of self }
    {
        match self {
            HostRefusal::CommandsSpent | HostRefusal::TooManyGroups | HostRefusal::Populated => {
                HostErrno::OfSpace(Errno::ENoSpc)
            }
            HostRefusal::GroupExists | HostRefusal::ProcessExists => {
                HostErrno::OfSpace(Errno::EExist)
            }
            HostRefusal::NoSuchGroup => HostErrno::OfSpace(Errno::ENoEnt),
            HostRefusal::RootGroup => HostErrno::EAcces,
            HostRefusal::NoSuchNode => HostErrno::OfSpace(Errno::EInval),
            HostRefusal::NoSuchProcess => HostErrno::ESrch,
            HostRefusal::TooManyProcesses => HostErrno::EAgain,
            HostRefusal::GroupMems => HostErrno::EPerm,
            HostRefusal::OfSpace(refusal) => HostErrno::OfSpace(refusal.errno()),
            HostRefusal::NoMemory => HostErrno::OfSpace(Errno::ENoMem),
        }
    }
}
