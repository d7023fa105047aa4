//! Events, replies and refusals of the core.
use crate::command::Command;
use crate::placement::Placement;
use crate::refusal::Refusal;
use crate::request::Request;
use numa_machine::Frame;

/// One atomic step of the core. Workers are numbered from 0. A word is 64 frames of a node: word 0
/// is the frames 0 to 63, word 1 the frames 64 to 127, and so on.
#[derive(Clone, Copy, Debug, PartialEq, Eq)]
pub enum Event {
    /// Accept a command.
    Accept(Command),
    /// Publish all accepted commands.
    Publish,
    /// A worker takes a published version, and that version's fallback list for the request.
    Begin(u32, Request),
    /// A worker takes a published version, and looks for a frame of this node alone, whatever the
    /// policies say.
    Seek(u32, u8),
    /// A worker looks at a word of its current node: the first listed one with a frame that it
    /// hasn't met. Each owned frame there counts as met.
    Look(u32, u32),
    /// A worker tries to take a frame of its current node that it hasn't met. A free frame becomes
    /// the worker's; an owned one counts as met.
    Try(u32, Frame),
    /// A worker gives a frame back.
    Give(u32, Frame),
}

/// The reply to an event that isn't refused.
#[derive(Debug, PartialEq, Eq, Drop)]
pub enum CoreReply {
    /// The command was accepted: the number of accepted commands.
    Accepted(u64),
    /// The commands were published: their number, which is the version.
    Published(u64),
    /// The worker has a current node, and goes on.
    Still,
    /// The worker has met every frame of every listed node, and is idle. The version is that of its
    /// Begin.
    Exhausted(u64),
    /// The frame was free and is the worker's now, and the worker is idle.
    Won(Placement),
    /// The same for a worker that looked for a frame of one node.
    Found(Frame),
    /// The worker that looked for a frame of one node has met every frame of it, and is idle.
    Full,
    /// The frame is free.
    Given,
}

/// Why an event was refused: the first of these that applies.
#[derive(Clone, Copy, Debug, PartialEq, Eq)]
pub enum CoreRefusal {
    /// The command was refused, for this cause. Out of memory for an Accept is one too.
    Command(Refusal),
    /// There is no worker with this number.
    NoSuchWorker,
    /// A Begin, a Seek or a Give of a worker that is still searching for a frame.
    Busy,
    /// A Look or a Try of a worker that isn't searching for a frame.
    Idle,
    /// A word that the current node lacks, or a frame that isn't one of its unmet frames.
    BadTry,
    /// A Give of a frame that the worker doesn't own.
    NotOwned,
    /// The machine lacks the faulting node.
    BadCpu,
    /// The machine lacks the node of a Seek, or the node has no frames.
    NoSuchNode,
    /// The page isn't mapped in the version that the worker took.
    Unmapped(u64),
    /// Out of memory for a Publish.
    NoMemory,
}
