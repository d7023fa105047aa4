//! Gathering runs and joining them on the way.
ghost use Rattle.std.specs.Prelude.{◌≡◌, []};
ghost use Rattle.std.specs.Option.{ForSome};
ghost use Rattle.numa_ranges.specs.Edits.{IsInRange};

use crate::exact::Exact;
use crate::fault::RangeError;
use crate::run::{Run, continues};
use crate::runs::Runs;
use std::alloc::Global;

/// Runs that are added one by one, each joined to the one before if it continues that.
///
/// Without memory for them the runs are only counted.
#[derive(Drop)]
pub(crate) struct Pieces<T> {
    pub(crate) closed: Vec<Run<T>>,
    pub(crate) open_run: Option<Run<T>>,
    pub(crate) count: u64,
    pub(crate) is_refused: bool,
    ghost in_range: { ForSome open_run IsInRange },
}

impl<T: Exact> Pieces<T> {
    ghost use Rattle.std.specs.Prelude.{◌≡◌, ◌+◌, ◌<◌, ◌≤◌, ◌^◌, List, [], ◌∷◌, ◌++◌, length, OnOk};
    ghost use Rattle.std.specs.Prelude.{OnErr, IfErr, false, if◌then◌else◌, nat_lt};
    ghost use Rattle.numa_ranges.specs.Edits.{IsInRange, maximal_runs};
    ghost use Rattle.numa_ranges.specs.Gathered.{Gathered};
    ghost use Rattle.std.specs.List.{splice};
    ghost use Rattle.numa_ranges.specs.declared.fault.RangeError.TheVariants.{TooManyRanges};
    ghost use Rattle.numa_ranges.specs.declared.fault.RangeError.TheVariants.{NoMemory};

    /// No runs, with room for `room`, if there is memory for it.
    pub(crate) fn new(alloc: Global, room: usize) -> Pieces<T>
        ensures gathered { Gathered T.eq result [] }
        ensures count { result.count ≡ 0 }
    {
        let closed = with_room(alloc, room);
        Pieces {
            closed,
            open_run: None,
            count: 0,
            is_refused: false,
        }
    }

    /// Adds a run.
    pub(crate) fn add(&mut self, run: Run<T>)
        requires in_range { IsInRange run }
        requires room { self.old.count < 2 ^ 63 }
        ensures gathered { (added : List (Run T)) → Gathered T.eq self.old added
            → Gathered T.eq self.new (added ++ run ∷ []) }
        ensures count { self.new.count ≤ self.old.count + 1 }
    {
        let Some(last) = self.open_run else {
            self.open_run = Some(run);
            return;
        };
        if continues(&last, &run) {
            self.open_run = Some(Run {
                first: last.first,
                pages: last.pages + run.pages,
                index: last.index,
                value: last.value,
            });
        } else {
            self.close(last);
            self.open_run = Some(run);
        }
    }

    /// Closes the open run, so that everything that was added is among the closed ones.
    fn seal(&mut self)
        requires room { self.old.count < 2 ^ 63 }
        ensures count { (added : List (Run T)) → Gathered T.eq self.old added
            → self.new.count ≡ length (maximal_runs T.eq added) }
        ensures closed { (added : List (Run T)) → Gathered T.eq self.old added
            → self.new.is_refused ≡ false → self.new.closed.items ≡ maximal_runs T.eq added }
        ensures bound { self.new.count ≤ self.old.count + 1 }
    {
        if let Some(last) = self.open_run {
            self.close(last);
            self.open_run = None;
        }
    }

    /// Replaces a window of runs by the gathered ones, unless that makes too many. `near` is a
    /// guess at the chunk of the window.
    pub(crate) fn put(
        mut self,
        runs: &mut Runs<T>,
        from: usize,
        to: usize,
        limit: u32,
        near: usize,
    ) -> Result<(), RangeError>
        requires window { (from ≤ to) × (to ≤ length runs.old) }
        requires room { self.count < 2 ^ 62 }
        ensures ok { (added : List (Run T)) → Gathered T.eq self added
            → OnOk result ((runs.new ≡ splice runs.old from to (maximal_runs T.eq added))
            × (length (splice runs.old from to (maximal_runs T.eq added)) ≤ limit)) }
        ensures err { (added : List (Run T)) → Gathered T.eq self added
            → IfErr result (λ refusal. refusal
            ≡ (if nat_lt limit (length (splice runs.old from to (maximal_runs T.eq added)))
            then TooManyRanges else NoMemory)) }
        ensures unchanged { OnErr result (runs.new ≡ runs.old) }
    {
        self.seal();
        let Pieces {
            closed,
            open_run: _,
            count,
            is_refused,
        } = self;
        let others = runs.len() - (to - from);
        if others as u64 + count > u64::from(limit) {
            return Err(RangeError::TooManyRanges);
        }
        if is_refused {
            return Err(RangeError::NoMemory);
        }
        runs.tidy();
        let Ok(()) = runs.splice_near(from, to, near, &closed) else {
            return Err(RangeError::NoMemory);
        };
        Ok(())
    }

    /// Adds a run to the closed ones, or only counts it.
    fn close(&mut self, run: Run<T>)
        requires room { self.old.count < 2 ^ 63 }
        ensures open_run { self.new.open_run ≡ self.old.open_run }
        ensures count { self.new.count ≡ self.old.count + 1 }
        ensures closed { self.new.is_refused ≡ false → (self.old.is_refused ≡ false)
            × (self.new.closed.items ≡ self.old.closed.items ++ run ∷ []) }
    {
        self.count += 1;
        if !self.is_refused && self.closed.push(run).is_err() {
            self.is_refused = true;
        }
    }
}

/// An empty vector, with room for `room` items if there is memory for it.
pub(crate) fn with_room<T: Copy + Drop>(alloc: Global, room: usize) -> Vec<T>
    ensures { result.items ≡ [] }
{
    let Ok(items) = Vec::with_capacity(alloc, room) else {
        return Vec::new(alloc);
    };
    items
}
