//! Why a trace can't be replayed.

use numa_machine::PlaceRefusal;

/// Why a line isn't an access.
#[derive(Clone, Copy, Debug)]
pub enum AccessError {
    /// There are fewer than three words of an access, or more than four.
    WordCount,
    /// The process isn't a number below 2^32.
    BadProcess,
    /// The task isn't a number below 2^32.
    BadTask,
    /// The address isn't a number below 2^64.
    BadAddress,
    /// The CPU's node isn't a number below 2^32.
    BadCpu,
    /// The count isn't a number below 2^32.
    BadCount,
    /// The line is one `do`, where no script takes it.
    Does,
}

/// Why a trace can't be replayed.
#[derive(Clone, Copy, Debug)]
pub enum ReplayError {
    /// The line isn't an access.
    Malformed(AccessError),
    /// The line names no process, and the accesses are those of a host's processes.
    Unnamed,
    /// The line names a process, and there is only one space.
    Named,
    /// The line names a process that the host lacks.
    NoProcess,
    /// The machine lacks the node, or the page isn't mapped.
    Refused(PlaceRefusal),
    /// There are 2^64 or more accesses of one kind.
    TooMany,
    /// A line `do`, where pages take frames.
    WantsRoom,
    /// A line `do`, where accesses are counted by range.
    ByRange,
    /// A line `do`, where a page shows where pages lie.
    Drawn,
    /// A line `do` that is about pages of 2 MiB, or comes after some are mapped.
    Huge,
    /// Pages lie in more than 1,048,576 runs, since a line `do`.
    TooManyRuns,
    /// Out of memory.
    NoMemory,
}

impl AccessError {
    /// What is wrong with the line, in a few words.
    pub fn text(self) -> &'static str {
        match self {
            AccessError::WordCount => {
                "bad words: a line of a trace is [in P] TASK ADDRESS CPU [COUNT], or mark TEXT"
            }
            AccessError::BadProcess => "bad words: P is no number below 2^32",
            AccessError::BadTask => "bad words: TASK is no number below 2^32",
            AccessError::BadAddress => "bad words: ADDRESS is no number below 2^64",
            AccessError::BadCpu => "bad words: CPU is no number below 2^32",
            AccessError::BadCount => "bad words: COUNT is no number below 2^32",
            AccessError::Does => "bad state: no line do is carried out here",
        }
    }
}

impl ReplayError {
    /// Why the line can't be replayed, in a few words.
    pub fn text(self) -> &'static str {
        match self {
            ReplayError::Malformed(fault) => fault.text(),
            ReplayError::Unnamed => {
                "bad state: the line names no process of the host; begin it with in P, or give \
                --process P"
            }
            ReplayError::Named => {
                "bad state: the line names a process, and no line of the scripts is host"
            }
            ReplayError::NoProcess => {
                "refused NoSuchProcess: the host has no such process after the scripts"
            }
            ReplayError::Refused(PlaceRefusal::BadCpu) => {
                "refused BadCpu: the machine lacks the node of CPU"
            }
            ReplayError::Refused(PlaceRefusal::Unmapped) => {
                "refused Unmapped: the page isn't mapped after the scripts"
            }
            ReplayError::TooMany => "too many accesses: 2^64 or more of one kind",
            ReplayError::WantsRoom => {
                "bad state: do wants pages that take room; give --free, or FRAMES 0 in machine"
            }
            ReplayError::ByRange => {
                "bad state: do changes ranges, by which accesses are told; leave --ranges out"
            }
            ReplayError::Drawn => {
                "bad state: do changes where pages lie, which a page doesn't show; leave --format html \
                out"
            }
            ReplayError::Huge => "bad state: do wants pages of 4 KiB alone, not of 2 MiB",
            ReplayError::TooManyRuns => {
                "refused TooManyRuns: pages lie in more than 1048576 runs, which do can't take"
            }
            ReplayError::NoMemory => "out of memory",
        }
    }
}
