//! A reader's past.
ghost use Rattle.std.specs.Prelude.{◌≡◌, ◌≤◌, length};
ghost use Rattle.std.specs.Arc.{arc_value};
ghost use Rattle.numa_publish.specs.Batches.{Extends, history_of, versions_of};

use crate::issue::{Issue, Shown};
use crate::log::Front;
use numa_ghost::Count;

/// What a reader keeps, whether it looks or not: the prefix of the log that it has seen or learnt,
/// its version, and the number of the reader's enters and of refused ones.
#[derive(Drop)]
pub struct Past {
    pub front: Front,
    pub version: u64,
    pub enters: Count,
    pub refused: Count,
}

impl Past {
    /// The past of a reader that has seen only version 0.
    pub fn none(front: Front) -> Past
        ensures { result ≡ record {
          front = front;
          version = 0;
          enters = 0;
          refused = 0;
        } }
    {
        Past {
            front,
            version: 0,
            enters: Count::zero(),
            refused: Count::zero(),
        }
    }

    /// The reader has now seen this version, which isn't older than its own.
    pub fn see(&mut self, shown: &Shown)
        requires book { shown.now.front.book ≡ self.old.front.book }
        requires version { self.old.version ≡ length (history_of self.old.front.log) }
        requires later { self.old.version ≤ length (arc_value shown.now.issue).history }
        ensures book { self.new.front.book ≡ self.old.front.book }
        ensures version { self.new.version ≡ length (history_of self.new.front.log) }
        ensures history { history_of self.new.front.log ≡ (arc_value shown.now.issue).history }
        ensures seen { Extends (history_of self.old.front.log) (history_of self.new.front.log) }
        ensures versions { Extends (versions_of self.old.front.log)
            (versions_of self.new.front.log) }
        ensures counts { (self.new.enters ≡ self.old.enters)
            × (self.new.refused ≡ self.old.refused) }
    {
        let issue: &Issue = &shown.issue;
        let mut both = self.front.again();
        both.learn(&shown.front);
        self.front = shown.front.again();
        self.version = issue.plan.version();
    }
}
