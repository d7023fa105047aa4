//! Counting ranges as runs come.
ghost use Rattle.std.specs.Option.{ForSome};
ghost use Rattle.numa_ranges.specs.Edits.{IsInRange};

use crate::counting::{Cut, joins, part_in};
use crate::place_policy::PlacePolicy;
use numa_ranges::Run;

/// How many ranges some runs have, which come one by one, the lowest first: those before the last,
/// and the last, joined to all that it continues.
#[derive(Drop)]
pub(crate) struct Tally {
    pub(crate) count: u64,
    pub(crate) last: Option<Run<PlacePolicy>>,
    ghost in_range: { ForSome last IsInRange },
}

impl Tally {
    ghost use Rattle.std.specs.Prelude.{◌≡◌, ◌+◌, ◌<◌, ◌≤◌, ◌^◌, List, [], ◌∷◌, ◌++◌, length};
    ghost use Rattle.numa_mode.specs.Policy.{PolicyRecord};
    ghost use Rattle.numa_ranges.specs.Edits.{IsInRange, maximal_runs};
    ghost use Rattle.numa_ranges.specs.declared.run.Run.{Run};
    ghost use Rattle.numa_objects.specs.Counting.{part_by, ranges_with};
    ghost use Rattle.numa_objects.specs.Same.{same_policy};

    /// No runs so far.
    pub(crate) fn new() -> Tally
        ensures ranges { (rest : List (Run PolicyRecord)) → ranges_with result rest
            ≡ length (maximal_runs same_policy rest) }
        ensures count { result.count ≡ 0 }
    {
        Tally {
            count: 0,
            last: None,
        }
    }

    /// One run more.
    pub(crate) fn add(&mut self, run: Run<PlacePolicy>)
        requires in_range { IsInRange run }
        requires room { self.old.count < 2 ^ 63 }
        ensures ranges { (rest : List (Run PolicyRecord)) → ranges_with self.new rest
            ≡ ranges_with self.old (run ∷ rest) }
        ensures count { self.new.count ≤ self.old.count + 1 }
    {
        let Some(last) = self.last else {
            self.last = Some(run);
            return;
        };
        if joins(&last, &run) {
            self.last = Some(Run {
                first: last.first,
                pages: last.pages + run.pages,
                index: last.index,
                value: last.value,
            });
            return;
        }
        self.count += 1;
        self.last = Some(run);
    }

    /// What a run has before a place, or from it on.
    pub(crate) fn add_part(&mut self, run: &Run<PlacePolicy>, cut: Cut)
        requires in_range { IsInRange run.now }
        requires room { self.old.count < 2 ^ 63 }
        ensures ranges { (rest : List (Run PolicyRecord)) → ranges_with self.new rest
            ≡ ranges_with self.old (part_by cut run.now ++ rest) }
        ensures count { self.new.count ≤ self.old.count + 1 }
    {
        let Some(part) = part_in(run, cut) else {
            return;
        };
        self.add(part);
    }

    /// How many ranges there are.
    pub(crate) fn total(&self) -> u64
        requires { self.now.count < 2 ^ 63 }
        ensures { result ≡ ranges_with self.now [] }
    {
        match self.last {
            Some(_) => self.count + 1,
            None => self.count,
        }
    }
}
