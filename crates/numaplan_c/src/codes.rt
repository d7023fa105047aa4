//! The result codes of the library.
ghost use Rattle.std.specs.Prelude.{◌≡◌, ◌≢◌};
ghost use Rattle.numaplan_c.specs.Codes.{refusal_code, cause_code, answer_code, machine_code};
ghost use Rattle.numaplan_c.specs.Codes.{list_code, spec_code, word_code, place_code};

use numa_machine::{MachineFault, PlaceRefusal};
use numa_mask::ListFault;
use numa_mode::SpecError;
use numa_requests::{CoreRefusal, CoreReply, Refusal};
use numa_script::WordError;

/// The result codes that need a name here, as in the header. Those of refusals of questions, and of
/// errors in machines, lists and policies, are counted from the first of their kind.
#[derive(Clone, Copy)]
pub(crate) enum Code {
    /// The handle is closed: it keeps nothing.
    Closed = 1,
    /// The handle is open: it keeps something.
    Open = 2,
    /// Out of memory.
    NoMemory = 3,
    /// The answer is longer than the buffer.
    NoRoom = 4,
    /// No result has this code.
    Unknown = 5,
    /// The line was served, but there was no memory for its whole answer.
    AnswerLost = 6,
    /// There is no worker with this number.
    NoSuchWorker = 30,
    /// The worker is still searching for a frame.
    Busy = 31,
    /// The worker isn't searching for a frame.
    Idle = 32,
    /// A frame, or a word of frames, that the worker can't try now.
    BadTry = 33,
    /// The frame isn't the worker's, or the seat doesn't hold it.
    NotOwned = 34,
    /// The machine lacks the faulting node.
    BadCpu = 35,
    /// The page isn't mapped.
    Unmapped = 36,
    /// There is no range at this place.
    NoRange = 37,
    /// Two placements are of the same page.
    PlacedTwice = 38,
    /// The worker goes on.
    Still = 40,
    /// Each frame of each listed node was met, and the worker is idle.
    Exhausted = 41,
    /// Each frame of each listed node was found taken.
    AllTaken = 42,
    /// The number of nodes is 0 or too high, or doesn't fit the description.
    BadNodeCount = 50,
    /// The limits are above those of any core.
    BadLimits = 54,
    /// No worker, or more than 16.
    BadWorkers = 55,
    /// No rules have this number.
    BadRules = 56,
    /// No orders have this number.
    BadOrders = 57,
    /// No format has this number, or the answer isn't in it.
    BadFormat = 58,
    /// The policy word is that of no policy.
    NoPolicy = 75,
    /// No node is allowed.
    NoNodeAllowed = 76,
    /// No line of the script makes a machine.
    NoMachine = 80,
    /// A line of the trace can't be replayed.
    BadAccess = 81,
    /// The script is a host's, and the answer is about one process.
    ManyProcesses = 82,
    /// There is a group of this name.
    GroupExists = 90,
    /// There is no group of this name, or not so many groups.
    NoSuchGroup = 91,
    /// There are as many groups as there can be.
    TooManyGroups = 92,
    /// The root has no list of its own.
    RootGroup = 93,
    /// A list can't be unset while a process is in the group or below it.
    Populated = 94,
    /// There is a process of this number.
    ProcessExists = 95,
    /// There is no process of this number, or not so many processes.
    NoSuchProcess = 96,
    /// There are as many processes as there can be.
    TooManyProcesses = 97,
    /// The allowed nodes of a process are its group's, and the weights the host's.
    GroupMems = 98,
    /// There would be too many runs of pages.
    TooManyRuns = 100,
    /// A page lies on a node for which the policy doesn't ask.
    Astray = 101,
    /// A page is to move to a node that isn't there, or has no memory.
    NoSuchTarget = 102,
    /// A page is to move to a node that isn't allowed.
    TargetNotAllowed = 103,
    /// A page that is to move isn't mapped.
    PageUnmapped = 104,
    /// A page lies nowhere.
    NotPlaced = 105,
    /// A node has no room for a page that is to move to it, or for as many as are stated there.
    NodeFull = 106,
    /// A page lies somewhere already.
    Occupied = 107,
    /// The machine has no node by this number, on a CPU of which a task should touch pages.
    NoSuchCpu = 108,
    /// A page of a span that a task should touch isn't mapped.
    SpanUnmapped = 109,
    /// The machine lacks the node whose pool is meant.
    NoSuchPool = 110,
    /// Linux takes all the node's memory where its pool is resized so.
    Unsure = 111,
    /// Too few pages of 2 MiB are free for a mapping, or too few on its nodes.
    NoHugePages = 112,
    /// No node has room for a page that is touched.
    NodesFull = 113,
    /// No node gives a page of 2 MiB that is touched.
    NoPageFree = 114,
    /// Each place for a reader of the desk is in use.
    NoPlace = 115,
    /// The reader's desk was closed.
    Ended = 116,
    /// The newest version that the reader could take is older than the one that was asked for.
    NotYet = 117,
    /// No reader, or more than 64.
    BadReaders = 118,
}

/// The code of a cause: of some kinds the one with the cause's own name, of the others what an arm
/// says.
macro_rules! code_by_name {
    ($cause:expr, $causes:ident { $($own:ident),* }, $($other:pat => $code:expr),*) => {
        match $cause {
            $($causes::$own => $crate::codes::Code::$own as u32,)*
            $($other => $code,)*
        }
    };
}

pub(crate) use code_by_name;

/// The code of a command's refusal: most are in order from 10; a later one has a later number.
pub(crate) fn refusal_code(refusal: Refusal) -> u32
    ensures { result ≡ refusal_code refusal }
{
    match refusal {
        Refusal::NoMemory => Code::NoMemory as u32,
        Refusal::CommandsSpent => 10,
        Refusal::Unaligned => 11,
        Refusal::OutOfSpace => 12,
        Refusal::EmptyLength => 13,
        Refusal::BadOffset => 14,
        Refusal::Overlap => 15,
        Refusal::Hole => 16,
        Refusal::NoSuchNode => 17,
        Refusal::BadWeight => 18,
        Refusal::NodesNotAllowed => 19,
        Refusal::NotSupported => 20,
        Refusal::TooManyTasks => 21,
        Refusal::TooManyRanges => 22,
        Refusal::NoPolicy => 23,
        Refusal::BadSpan => 24,
        Refusal::NoNodes => 25,
    }
}

/// The code of an event's refusal.
fn cause_code(cause: CoreRefusal) -> u32
    ensures { result ≡ cause_code cause }
{
    code_by_name!(cause,
        CoreRefusal { NoSuchWorker, Busy, Idle, BadTry, NotOwned, BadCpu, NoMemory },
        CoreRefusal::Command(refusal) => refusal_code(refusal),
        CoreRefusal::NoSuchNode => refusal_code(Refusal::NoSuchNode),
        CoreRefusal::Unmapped(_) => Code::Unmapped as u32)
}

/// The code of an event's reply.
pub(crate) fn answer_code(answer: &Result<CoreReply, CoreRefusal>) -> u32
    ensures { result ≡ answer_code answer.now }
{
    match answer {
        Ok(CoreReply::Still) => Code::Still as u32,
        Ok(CoreReply::Exhausted(_)) => Code::Exhausted as u32,
        Ok(CoreReply::Full) => Code::AllTaken as u32,
        Ok(_) => 0,
        Err(cause) => cause_code(*cause),
    }
}

/// The code of an error in a machine: in order from 50, apart from out of memory.
pub(crate) fn machine_code(fault: MachineFault) -> u32
    ensures code { result ≡ machine_code fault }
    ensures refused { result ≢ 0 }
{
    match fault {
        MachineFault::NoMemory => Code::NoMemory as u32,
        fault => 50 + fault as u32,
    }
}

/// The code of an error in a policy word.
pub(crate) fn word_code(fault: WordError) -> u32
    ensures code { result ≡ word_code fault }
    ensures refused { result ≢ 0 }
{
    match fault {
        WordError::List(fault) => list_code(fault),
        WordError::Policy(fault) => spec_code(fault),
    }
}

/// The code of a question's refusal: in order from 35.
pub(crate) fn place_code(refusal: PlaceRefusal) -> u32
    ensures code { result ≡ place_code refusal }
    ensures refused { result ≢ 0 }
{
    35 + refusal as u32
}

/// The code of an error in a list: in order from 60.
pub(crate) fn list_code(fault: ListFault) -> u32
    ensures code { result ≡ list_code fault }
    ensures refused { result ≢ 0 }
{
    60 + fault as u32
}

/// The code of an error in a policy: in order from 70.
pub(crate) fn spec_code(fault: SpecError) -> u32
    ensures code { result ≡ spec_code fault }
    ensures refused { result ≢ 0 }
{
    70 + fault as u32
}
