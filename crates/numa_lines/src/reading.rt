//! Reading texts in pieces of at most 4,096 bytes, each of which is answered before the next read.
ghost use Rattle.std.specs.Prelude.{◌≤◌, ◌+◌, [], IfOk, IfErr, OnOk};
ghost use Rattle.numa_lines.specs.Reading.{ReadsToEnd, StopsReading, Takes};
ghost use Rattle.numa_lines.specs.Watching.{read_count};

use crate::fault::RunFault;
use crate::watched::Watched;
use std::io::Read;

/// The most reads of a run, for all its texts together.
pub(crate) const READS: u64 = 4_294_967_295;

/// A consumer of texts, piece by piece. Answers go to the output, which is `()` if the consumer
/// owns its output.
pub trait TakeText<O> {
    ghost use Rattle.std.specs.Prelude.{ℕ, List, Result, ⊤};
    ghost use Rattle.numa_lines.specs.declared.fault.RunFault.{RunFault};

    /// That consumer and output, from this first state, have come to this one by these bytes. By
    /// default nothing is promised.
    ghost has_taken: { Self → O → Self → O → List ℕ → Type 0 } = { λ _ _ _ _ _. ⊤ };

    /// The faults with which a piece may be refused; by default any.
    ghost fails: { RunFault → Type 0 } = { λ _. ⊤ };

    /// What is known of the output after `hand_over` returned this result; by default nothing.
    ghost handed: { Result (Unit {0}) RunFault → O → Type 0 } = { λ _ _. ⊤ };

    /// Begins the text of this name.
    ///
    /// # Errors
    /// `Memory`: out of memory.
    fn begin(&mut self, name: &str) -> Result<(), RunFault>;

    /// Takes a piece of the text, of any length.
    ///
    /// # Errors
    /// A fault of the consumer's own, one of `fails`.
    fn take(&mut self, piece: &[u8], output: &mut O) -> Result<(), RunFault>
        ensures ok { OnOk result
            (Takes has_taken self.old output.old self.new output.new piece.now) }
        ensures err { IfErr result fails };

    /// Ends the text, with or without a line feed.
    ///
    /// # Errors
    /// As `take`.
    fn end(&mut self, output: &mut O) -> Result<(), RunFault>;

    /// Hands the answers so far to their writer.
    ///
    /// # Errors
    /// `Write`: this or an earlier write failed.
    fn hand_over(&mut self, output: &mut O) -> Result<(), RunFault>
        ensures takes { Takes has_taken self.old output.old self.new output.new [] }
        ensures handed { handed result output.new };
}

/// Reads a text to its end with at most this many reads, hands on each piece and then its answers
/// before the next read, and returns how many reads are left.
///
/// # Errors
/// `Read`: a read failed, or more reads were needed; those of the consumer.
pub(crate) fn read_text<R: Read, O, T: TakeText<O>>(
    input: &mut Watched<R>,
    reads: u64,
    taker: &mut T,
    output: &mut O,
) -> Result<u64, RunFault>
    ensures ok { IfOk result (ReadsToEnd R.remaining T.has_taken input.old input.new
        taker.old taker.new output.old output.new T.handed reads) }
    ensures err { IfErr result (StopsReading R.remaining T.has_taken input.old input.new
        taker.old taker.new output.old output.new T.handed reads T.fails) }
    ensures reads { read_count input.new ≤ read_count input.old + reads }
{
    let mut buffer = [0u8; 4096];
    for made in 0..reads {
        let Ok(count) = input.read(&mut buffer) else {
            return Err(RunFault::Read);
        };
        if count == 0 {
            return Ok(reads - made - 1);
        }
        let taken = taker.take(&buffer[..count], output);
        let handed = taker.hand_over(output);
        match taken {
            Ok(()) => {}
            Err(why) => return Err(why),
        }
        match handed {
            Ok(()) => {}
            Err(why) => return Err(why),
        }
    }
    Err(RunFault::Read)
}

/// Reads the text of this name to its end, ends it, and returns how many reads are left.
pub(crate) fn read_named<R: Read + Drop, O, T: TakeText<O>>(
    name: &str,
    reader: R,
    reads: u64,
    taker: &mut T,
    output: &mut O,
) -> Result<u64, RunFault> {
    if let Err(why) = taker.begin(name) {
        drop(reader);
        return Err(why);
    }
    let mut input = Watched::new(reader);
    let read = read_text(&mut input, reads, taker, output);
    drop(input);
    let left = match read {
        Ok(left) => left,
        Err(why) => return Err(why),
    };
    let ended = taker.end(output);
    let handed = taker.hand_over(output);
    match ended {
        Ok(()) => match handed {
            Ok(()) => Ok(left),
            Err(why) => Err(why),
        },
        Err(why) => Err(why),
    }
}

/// Reads the texts in turn, each with its name, and hands on each piece and then its answers before
/// the next read.
///
/// # Errors
/// `Read`: a read failed, or more than 4,294,967,295 were needed; those of the consumer.
pub fn read_all<R: Read + Drop, O, T: TakeText<O>>(
    texts: Vec<(String, R)>,
    taker: &mut T,
    output: &mut O,
) -> Result<(), RunFault> {
    let mut reads = READS;
    let mut ended = Ok(());
    for (name, reader) in texts {
        match read_named(name.as_str(), reader, reads, taker, output) {
            Ok(left) => reads = left,
            Err(why) => {
                ended = Err(why);
                break;
            }
        }
    }
    ended
}
