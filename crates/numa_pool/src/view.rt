//! What contracts see of a seat: the frames that it holds, and its own steps.
use numa_machine::Frame;
use std::collections::LinkedList;

/// One step of a seat on a frame word.
pub enum Entry {
    /// A load: the node, the number of the word in the node, and the value found.
    Load(u64, u64, u64),
    /// The bit of the frame was clear, and the seat set it.
    Won(Frame),
    /// The bit of the frame was already set.
    Lost(Frame),
    /// The seat cleared the bit of the frame.
    Gave(Frame),
}

/// What a seat has done that was joined into another: its name, how many seats were split off it,
/// and its log.
pub struct Past {
    pub name: LinkedList<u64>,
    pub splits: u64,
    pub log: LinkedList<Entry>,
}

/// What a seat's log leaves out: its name, how many seats were split off it, how many other steps
/// it made (splits, joins and checks), and what the seats have done that were joined into it. The
/// first seat's name is empty. A seat's name is its number among those that were split off the same
/// seat, from 0, in front of that seat's name.
pub struct Unlogged {
    pub name: LinkedList<u64>,
    pub splits: u64,
    pub steps: u64,
    pub past: LinkedList<Past>,
}

/// The frames that a seat holds, its steps, the newest first, what its log leaves out, and whether
/// it was joined into another and is gone. It exists only in contracts: no value of it is made.
pub struct View {
    pub held: LinkedList<Frame>,
    pub log: LinkedList<Entry>,
    pub unlogged: Unlogged,
    pub gone: bool,
}
