//! The log of accepted commands, in batches. It has no bytes but the number of its commands.
ghost use Rattle.std.specs.Prelude.{◌≡◌, ◌+◌, ◌<◌, ◌∷◌, ◌++◌, [], length};
ghost use Rattle.std.specs.Bool.{OnTrue, OnFalse};
ghost use Rattle.numa_publish.specs.Batches.{batch_of, history_of};
ghost use Rattle.numa_publish.specs.LogRule.{count_word};

use crate::batch::Batch;
use logbook::{Gain, Offer, Plain, Play, Seen, Start, Word};
use numa_ghost::{BareRule, Holding};
use numa_requests::Command;

/// The log's word is the number of its commands.
pub struct CommandCount;

impl Holding<Batch> for CommandCount {
    ghost use Rattle.numa_publish.specs.LogRule.{CountsCommands};

    ghost holds = { CountsCommands };
}

/// The rule of the log.
type LogRule = BareRule<CommandCount>;

/// A prefix of the log. It has no bytes.
pub type Front = Seen<Batch, u64, LogRule>;

/// Steps of the log hand nothing over.
struct Nothing;

impl Gain<Batch, u64> for Nothing {
    ghost use base.Fml.{ftrue};

    ghost after = { λ names about answer. ftrue };
}

/// The step that adds a batch.
struct Add;

impl Play<Batch, u64> for Add {
    ghost use Rattle.numa_publish.specs.LogRule.{AddsBatch};

    ghost then = { AddsBatch };
}

impl Plain<Vec<Command>, Batch, u64> for Add {
    ghost use Rattle.std.specs.Prelude.{None};
    ghost use Rattle.numa_publish.specs.Batches.{batch_of};

    ghost ask = { λ pending. batch_of pending.items };

    ghost state = { λ pending. None };
}

/// The log's word, its empty prefix, and everything that was logged.
#[derive(Drop)]
pub struct Log {
    word: Word<Batch, u64, LogRule>,
    pub seen: Front,
    pub start: Front,
    count: u64,
    pub ghost word_is: { word ≡ count_word seen.book },
    pub ghost count_is: { count ≡ length (history_of seen.log) },
    pub ghost start_book: { start.book ≡ seen.book },
    pub ghost start_empty: { start.log ≡ [] },
}

impl Log {
    /// A new, empty log.
    pub fn new() -> Log
        ensures { result.seen.log ≡ [] }
    {
        let (seen, mut first, _second) = Seen::open(Start::alone(), 0, 0);
        let word = Word::tracked(0, &mut first);
        let start = seen.again();
        Log {
            word,
            seen,
            start,
            count: 0,
        }
    }

    /// Adds these commands, the oldest first; `count` is the number of the log's commands
    /// afterwards. Nobody else adds, so it always returns `true`, which no proof can see.
    pub fn add(&mut self, pending: &Vec<Command>, count: u64) -> bool
        requires some { 0 < length pending.now.items }
        requires count { count ≡ length pending.now.items + length (history_of self.old.seen.log) }
        ensures added { OnTrue result
            (self.new.seen.log ≡ self.old.seen.log ++ batch_of pending.now.items ∷ []) }
        ensures book { self.new.seen.book ≡ self.old.seen.book }
        ensures unchanged { OnFalse result (self.new.seen ≡ self.old.seen) }
    {
        let mut seen = self.seen.again();
        let mut offer: Offer<Batch, u64, LogRule, Nothing> = seen.plain::<
            Nothing,
            Vec<Command>,
            Add,
        >(pending);
        let mut pen = seen.no_pen();
        let found = self
            .word
            .compare_exchange::<Add, Nothing>(self.count, count, &mut seen, &mut offer, &mut pen);
        if found != self.count {
            return false;
        }
        self.seen = seen;
        self.count = count;
        true
    }
}
