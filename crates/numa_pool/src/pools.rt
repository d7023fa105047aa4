//! The pools of a machine's frames.
ghost use Rattle.std.specs.Prelude.{◌≡◌, ℕ, ◌+◌, ◌*◌, ◌<◌, ◌≤◌, ◌∷◌, ◌++◌, []};
ghost use Rattle.std.specs.Prelude.{List, length, slice_index, IfOk, MatchResult};
ghost use Rattle.std.specs.Prelude.{IfSome, IsTrue, MatchOption, ◌↔◌};
ghost use Rattle.numa_pool.specs.Frames.{times, without, with_found, Holds, IsOnce};
ghost use Rattle.numa_pool.specs.Order.{HaveOrder};
ghost use Rattle.numa_pool.specs.Seats.{Closes};
ghost use Rattle.numa_pool.specs.Steps.{joined, no_other, one_other, one_split, past_of, split_off};
ghost use Rattle.numa_pool.specs.Walk.{IsWalk, LoadsOnce, TriesOnce};
ghost use Rattle.numa_pool.specs.declared.view.Entry.{Entry};
ghost use Rattle.numa_pool.specs.declared.view.Entry.TheVariants.{Gave};

use crate::close::counted;
use crate::closed::Closed;
use crate::marks::{add_marks, blank, mark, unmark};
use crate::search::take_frame;
use crate::seat::PoolSeat;
use crate::steps::{FrameWords, another, check, clear, opening, pour};
use numa_machine::{Frame, Machine, NoMemory};
use std::alloc::{AllocError, Global};
use std::marker::Model;

/// The frames of a machine's nodes. Any number of threads take them and give them up, each through
/// a seat of its own, by single atomic steps. No call blocks. The pools are 64 words of 64 bits for
/// each node of the machine; frame f of a node is bit f mod 64 of the node's word f / 64, which is
/// set while the frame is taken.
#[derive(Drop)]
pub struct Pools {
    words: FrameWords,
    frames: Vec<u32>,
}

impl Model for Pools {
    ghost use Rattle.std.specs.Prelude.{◌≡◌};
    ghost use Rattle.numa_pool.specs.Seats.{PoolsView, IsShaped};

    ghost Value = { PoolsView };

    ghost view = { λ p. p.words };

    ghost invariant = { λ p. IsShaped p.words.table p.words.frames
        × (p.words.frames ≡ p.frames.items) };
}

/// The number of frames of each node.
fn frame_counts(alloc: Global, machine: &Machine) -> Result<Vec<u32>, AllocError>
    ensures { IfOk result (λ counts. (counts.items ≡ machine.now.frames) × (0 < length counts.items)
        × (length counts.items ≤ 256)
        × ((n : ℕ) → slice_index counts.items n ≤ 4096)) }
{
    let nodes = machine.nodes();
    let mut counts = Vec::new(alloc);
    for node in 0..nodes {
        counts.push(machine.frames(node))?;
    }
    Ok(counts)
}

impl Pools {
    /// The pools of the machine, with all frames free, and a first seat, which holds nothing.
    ///
    /// # Errors
    /// `NoMemory`: out of memory for the words or for the seat.
    ///
    /// # Examples
    /// Pools with two seats:
    ///
    /// ```
    /// let (pools, mut seat) = Pools::open(alloc, &machine).ok()?;
    /// let other = pools.split(alloc, &mut seat).ok()?;
    /// ```
    pub fn open(alloc: Global, machine: &Machine) -> Result<(Pools, PoolSeat), NoMemory>
        ensures frames { IfOk result (λ opened. opened.0.frames ≡ machine.now.frames) }
        ensures seat { IfOk result (λ opened. (opened.1.table ≡ opened.0.table)
            × (opened.1.held ≡ []) × (opened.1.log ≡ []) × (opened.1.unlogged ≡ no_other)) }
    {
        let frames = frame_counts(alloc, machine)?;
        let bits = blank(alloc, 64 * frames.len())?;
        let (words, token) = opening(alloc, bits.as_slice(), &frames)?;
        let pools = Pools { words, frames };
        Ok((pools, PoolSeat { token, bits }))
    }

    /// The number of frames of a node: 0 for a node that the machine lacks.
    pub fn frames(&self, node: u8) -> u32
        ensures { result ≡ slice_index self.now.frames node }
    {
        match self.frames.get(usize::from(node)) {
            Some(frames) => *frames,
            None => 0,
        }
    }

    /// A new seat at these pools that holds nothing, for another thread.
    ///
    /// # Errors
    /// `NoMemory`: out of memory for the seat.
    pub fn split(&self, alloc: Global, seat: &mut PoolSeat) -> Result<PoolSeat, NoMemory>
        requires { seat.old.table ≡ self.now.table }
        ensures same { (seat.new.table ≡ seat.old.table) × (seat.new.held ≡ seat.old.held)
            × (seat.new.log ≡ seat.old.log) }
        ensures step { MatchResult result (λ _. seat.new.unlogged ≡ one_split seat.old.unlogged)
            (λ _. seat.new.unlogged ≡ seat.old.unlogged) }
        ensures fresh { IfOk result (λ other. (other.table ≡ self.now.table) × (other.held ≡ [])
            × (other.log ≡ []) × (other.unlogged ≡ split_off seat.old.unlogged)) }
    {
        let bits = blank(alloc, 64 * self.frames.len())?;
        let token = another(&self.words, &mut seat.token);
        Ok(PoolSeat { token, bits })
    }

    /// The first seat takes over the frames of the second, which is consumed. No frame belonged to
    /// both. The first seat keeps the second one's log beside its own. It doesn't allocate.
    pub fn join(&self, seat: &mut PoolSeat, other: PoolSeat)
        requires { (seat.old.table ≡ self.now.table) × (other.table ≡ self.now.table) }
        ensures frames { (seat.new.table ≡ seat.old.table)
            × (seat.new.held ≡ seat.old.held ++ other.held) × (seat.new.log ≡ seat.old.log) }
        ensures step { seat.new.unlogged
            ≡ one_other (joined seat.old.unlogged other.log other.unlogged) }
        ensures apart { IsOnce seat.new.held }
    {
        let PoolSeat { token, bits } = other;
        pour(&self.words, &mut seat.token, token);
        check(&self.words, &mut seat.token);
        add_marks(&mut seat.bits, bits.as_slice());
    }

    /// Takes the first free frame of the node that it finds. `None` only if each frame of the node
    /// was found taken at a step of this call; so also for a node without frames, or one that the
    /// machine lacks. Each word of the node is loaded at most once, and each frame tried at most
    /// once; there is no other step. It doesn't allocate.
    ///
    /// # Examples
    /// ```
    /// let Some(frame) = pools.take(seat, node) else {
    ///     return 0;
    /// };
    /// pools.give(seat, frame);
    /// ```
    pub fn take(&self, seat: &mut PoolSeat, node: u8) -> Option<Frame>
        requires { seat.old.table ≡ self.now.table }
        ensures same { seat.new.table ≡ seat.old.table }
        ensures walk { (es : List Entry) × (seat.new.log ≡ es ++ seat.old.log)
            × IsWalk self.now.frames (node ∷ []) result es × LoadsOnce es × TriesOnce es }
        ensures no_other { seat.new.unlogged ≡ seat.old.unlogged }
        ensures held { seat.new.held ≡ with_found result seat.old.held }
        ensures found { IfSome result (λ f. (f.node ≡ node)
            × (f.number < slice_index self.now.frames node)
            × (times f.node f.number seat.old.held ≡ 0)) }
    {
        let frames = self.frames(node) as usize;
        if frames == 0 {
            return None;
        }
        let Some(frame) = take_frame(&self.words, &mut seat.token, node, frames) else {
            return None;
        };
        mark(&mut seat.bits, frame);
        Some(frame)
    }

    /// Gives up a frame that the seat holds, and no other. It doesn't allocate.
    pub fn give(&self, seat: &mut PoolSeat, frame: Frame)
        requires { (seat.old.table ≡ self.now.table) × Holds seat.old.held frame }
        ensures frame { (seat.new.table ≡ seat.old.table)
            × (seat.new.held ≡ without frame.node frame.number seat.old.held)
            × (seat.new.log ≡ Gave frame ∷ seat.old.log) }
        ensures no_other { seat.new.unlogged ≡ seat.old.unlogged }
    {
        let number = frame.number as usize;
        clear(
            &self.words,
            &mut seat.token,
            frame.node as usize,
            number / 64,
            number % 64,
        );
        unmark(&mut seat.bits, frame);
    }

    /// Ends the pools, and returns the number of taken frames of each node and whether the seat
    /// holds them all. It consumes the pools, so no other thread can use them any more. All steps
    /// of all seats have one order: the log of this seat, and that of each seat that was joined
    /// into it, are parts of it. It doesn't allocate.
    pub fn close(self, seat: PoolSeat) -> Closed
        requires { seat.table ≡ self.table }
        ensures end { Closes self.frames seat.held result.taken result.alone }
        ensures order { HaveOrder self.frames (past_of seat.log seat.unlogged ∷ seat.unlogged.past)
            result.taken }
    {
        let Pools { words, frames } = self;
        let PoolSeat { token, bits } = seat;
        counted(words, token, bits.as_slice(), frames.as_slice())
    }
}
