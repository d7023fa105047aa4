//! Reading traces, line by line.
ghost use Rattle.std.specs.Prelude.{◌≡◌, None, IfErr, IsSome, OnOk};
ghost use Rattle.numa_lines.specs.declared.fault.RunFault.TheVariants as run_fault;
ghost use Rattle.numa_traces.specs.Reading.{TakesLine};
ghost use Rattle.numa_traces.specs.declared.fault.ReplayError.TheVariants as fault;

use crate::fault::ReplayError;
use numa_lines::{Lines, RunFault, TakeLine, read_all};
use std::alloc::Global;
use std::io::Read;

/// A replay that takes the lines of a trace.
pub trait ReplayLine {
    ghost use Rattle.std.specs.Prelude.{ℕ, List};
    ghost use Rattle.numa_traces.specs.declared.fault.ReplayError.{ReplayError};

    /// That a line was replayed in one state, which left another.
    ghost replays: { List ℕ → Self → Self → Type 0 };

    /// Why a line can't be replayed in a state.
    ghost ends: { List ℕ → Self → ReplayError → Type 0 };

    /// Replays the access of a line, if it has one.
    ///
    /// # Errors
    /// Why it can't be replayed. Then the replay has ended.
    fn replay_line(&mut self, line: &[u8]) -> Result<(), ReplayError>
        ensures ok { OnOk result (replays line.now self.old self.new) }
        ensures err { IfErr result (ends line.now self.old) };
}

/// The replay of a trace, up to the first line that can't be replayed.
#[derive(Drop)]
pub struct Replaying<R> {
    replay: R,
    // The first line that can't be replayed, and why.
    fault: Option<(u64, ReplayError)>,
}

impl<R> Replaying<R> {
    /// Goes on from this replay, before the first line.
    pub fn new(replay: R) -> Replaying<R>
        ensures replay { result.replay ≡ replay }
        ensures fault { result.fault ≡ None }
    {
        Replaying {
            replay,
            fault: None,
        }
    }

    /// The replay of the lines so far, or of those before the first that can't be replayed.
    pub fn replay(&self) -> &R
        ensures { result.now ≡ self.now.replay }
    {
        &self.replay
    }

    /// The number of the first line that can't be replayed, from 1, and why.
    pub fn fault(&self) -> Option<(u64, ReplayError)>
        ensures { result ≡ self.now.fault }
    {
        self.fault
    }
}

impl<R: ReplayLine> TakeLine<()> for Replaying<R> {
    fn take(
        &mut self,
        _name: &str,
        place: u64,
        line: &[u8],
        _output: &mut (),
    ) -> Result<(), RunFault>
        ensures over { IsSome self.old.fault → OnOk result (self.new ≡ self.old) }
        ensures next { self.old.fault ≡ None → OnOk result
            (TakesLine R.replays R.ends place line.now self.old self.new) }
        ensures stop { IfErr result (λ why. (why ≡ run_fault.Memory)
            × R.ends line.now self.old.replay fault.NoMemory) }
    {
        if let Some(_) = self.fault {
            return Ok(());
        }
        match self.replay.replay_line(line) {
            Ok(()) => Ok(()),
            Err(ReplayError::NoMemory) => Err(RunFault::Memory),
            Err(fault) => {
                self.fault = Some((place, fault));
                Ok(())
            }
        }
    }

    fn hand_over(&mut self, _output: &mut ()) -> Result<(), RunFault> {
        Ok(())
    }
}

/// Reads texts in order, as a trace or as scripts, and hands their lines to a taker, which it gives
/// back.
///
/// # Errors
/// `Read`: a read failed. `Memory`: out of memory. Or what the taker answers.
pub fn read_by<R: Read + Drop, T: TakeLine<()> + Drop>(
    alloc: Global,
    texts: Vec<(String, R)>,
    taker: T,
) -> Result<T, RunFault> {
    let Ok(mut lines) = Lines::new(alloc, taker) else {
        drop(texts);
        return Err(RunFault::Memory);
    };
    if let Err(why) = read_all(texts, &mut lines, &mut ()) {
        drop(lines);
        return Err(why);
    }
    Ok(lines.taker)
}
