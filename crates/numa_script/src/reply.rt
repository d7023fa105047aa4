//! Replies to lines.
ghost use Rattle.std.specs.Prelude.{◌≡◌, ◌↔◌, IsTrue};
ghost use Rattle.numa_script.specs.Replies.{LacksMemory, done_reply, fault_in, reply_to, win_of};

use crate::policy::WordError;
use numa_machine::{Frame, MachineFault};
use numa_requests::{
    CoreRefusal, CoreReply, HostRefusal, HugeRefusal, MoveRefusal, PlacedRefusal, Placement,
    Refusal,
};

/// A frame that was won: the version of the fallback list that led to it, its node, its number on
/// that node, and the node's place in the list, from 0.
#[derive(Clone, Copy, Debug, PartialEq, Eq)]
pub struct Win {
    pub version: u64,
    pub node: u8,
    pub frame: u16,
    pub rank: u32,
}

impl Win {
    /// The parts of a placement that a reply shows.
    pub fn of(placement: &Placement) -> Win
        ensures { result ≡ win_of placement.now }
    {
        Win {
            version: placement.version,
            node: placement.node,
            frame: placement.frame.number,
            rank: placement.rank,
        }
    }
}

/// The reply to a line that is neither a question nor `maps`.
#[derive(Clone, Copy, PartialEq, Eq)]
pub enum Reply {
    /// Nothing: the line is empty or a comment.
    Silent,
    /// The line is malformed.
    BadWords,
    /// The line may come only before the machine is ready, or only after.
    BadState,
    /// The limits are accepted.
    LimitsOk,
    /// The limits are too high.
    BadLimits,
    /// The rules are accepted.
    RulesOk,
    /// The nodes with CPUs are accepted.
    CpusOk,
    /// The machine is ready.
    Ready,
    /// The machine is refused.
    BadMachine(MachineFault),
    /// A list of nodes or a policy is invalid.
    BadWord(WordError),
    /// The command is accepted: the number of accepted commands.
    Accepted(u64),
    /// The commands are published: their number.
    Published(u64),
    /// The worker has a current node, and goes on.
    Still,
    /// The worker has met every frame of every listed node, and is idle. The version is that of its
    /// Begin.
    Exhausted(u64),
    /// The frame was free and is the worker's now.
    Won(Win),
    /// The same for a worker that looked for a frame of one node.
    Found(Frame),
    /// The worker has met every frame of the node in which it looked, and is idle.
    Full,
    /// The frame is free.
    Given,
    /// The page already has a placement, and the frame that was won is free again.
    Back(Frame),
    /// The command or the worker's step is refused.
    Refused(CoreRefusal),
    /// The page lies somewhere, and isn't touched for the first time.
    Placed,
    /// The script is a host's.
    HostReady,
    /// The host refuses its command, or lacks the process.
    HostRefused(HostRefusal),
    /// The pages lie on the node.
    AtOk,
    /// The node takes as many more pages.
    RoomOk,
    /// Pages follow the allowed nodes, or don't.
    MemoryMigrateOk,
    /// How many pages moved, and how many had a node to go to and stayed.
    Moved {
        moved: u64,
        left: u64,
    },
    /// The page is on this node now.
    MovedTo(u32),
    /// The policy is set: the number of accepted commands; how many pages moved, and how many had
    /// to and stayed; and whether that is an error (EIO).
    Sent {
        version: u64,
        moved: u64,
        left: u64,
        late: bool,
    },
    /// A line about pages is refused.
    PlacedRefused(PlacedRefusal),
    /// The page isn't moved.
    MoveRefused(MoveRefusal),
    /// A line about pages of 2 MiB, or about a first touch, is refused.
    HugeRefused(HugeRefusal),
}

/// The reply to an event that isn't refused.
fn done_reply(done: &CoreReply) -> Reply
    ensures { result ≡ done_reply done.now }
{
    match done {
        CoreReply::Accepted(version) => Reply::Accepted(*version),
        CoreReply::Published(version) => Reply::Published(*version),
        CoreReply::Still => Reply::Still,
        CoreReply::Exhausted(version) => Reply::Exhausted(*version),
        CoreReply::Won(placement) => Reply::Won(Win::of(placement)),
        CoreReply::Found(frame) => Reply::Found(*frame),
        CoreReply::Full => Reply::Full,
        CoreReply::Given => Reply::Given,
    }
}

impl Reply {
    /// The reply to an event, from the core's.
    pub fn to_event(answer: &Result<CoreReply, CoreRefusal>) -> Reply
        ensures { result ≡ reply_to answer.now }
    {
        match answer {
            Ok(done) => done_reply(done),
            Err(cause) => Reply::Refused(*cause),
        }
    }

    /// The reply, if it is an error or a refusal.
    pub fn fault(self) -> Option<Reply>
        ensures { result ≡ fault_in self }
    {
        match self {
            Reply::BadWords
            | Reply::BadState
            | Reply::BadLimits
            | Reply::BadMachine(_)
            | Reply::BadWord(_)
            | Reply::Refused(_)
            | Reply::Placed
            | Reply::HostRefused(_)
            | Reply::PlacedRefused(_)
            | Reply::MoveRefused(_)
            | Reply::HugeRefused(_) => Some(self),
            _ => None,
        }
    }

    /// Whether it says that there was no memory for the line.
    pub fn lacks_memory(self) -> bool
        ensures { IsTrue result ↔ (LacksMemory self) }
    {
        match self {
            Reply::BadMachine(fault) => fault == MachineFault::NoMemory,
            Reply::Refused(CoreRefusal::Command(refusal)) => refusal == Refusal::NoMemory,
            Reply::Refused(CoreRefusal::NoMemory) => true,
            Reply::HostRefused(refusal) => refusal == HostRefusal::NoMemory,
            Reply::PlacedRefused(refusal) => refusal == PlacedRefusal::NoMemory,
            Reply::MoveRefused(refusal) => refusal == MoveRefusal::NoMemory,
            Reply::HugeRefused(refusal) => refusal == HugeRefusal::NoMemory,
            _ => false,
        }
    }
}
