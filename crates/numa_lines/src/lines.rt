//! Cutting texts into lines as their bytes come.
ghost use Rattle.std.specs.Prelude.{◌≡◌, [], ◌∷◌, ◌++◌, ◌⊎◌};
ghost use Rattle.std.specs.Prelude.{IfOk, IfErr, OnOk, IsErrAnd};
ghost use Rattle.numa_lines.specs.Lines.{IsPiece};
ghost use Rattle.numa_lines.specs.Cuts.{HasCut};
ghost use Rattle.numa_lines.specs.Reading.{Takes};

use crate::buffer::{LIMIT, LineBuffer};
use crate::fault::RunFault;
use crate::reading::TakeText;
use memchr::memchr;
use std::alloc::{AllocError, Global};

/// A consumer of lines. Answers go to the output, which is `()` if the consumer owns its output.
pub trait TakeLine<O> {
    ghost use Rattle.std.specs.Prelude.{ℕ, List, Result, ⊤};
    ghost use Rattle.numa_lines.specs.declared.fault.RunFault.{RunFault};

    /// That consumer and output, from this first state, have come to this one by these lines. By
    /// default nothing is promised.
    ghost has_taken: { Self → O → Self → O → List (List ℕ) → Type 0 } = { λ _ _ _ _ _. ⊤ };

    /// The faults with which a line may be refused; by default any.
    ghost fails: { RunFault → Type 0 } = { λ _. ⊤ };

    /// What is known of the output after `hand_over` returned this result; by default nothing.
    ghost handed: { Result (Unit {0}) RunFault → O → Type 0 } = { λ _ _. ⊤ };

    /// Takes a line without its line feed: the name of its text, its number there from 1, and its
    /// first 4,097 bytes, which show whether a script line is too long.
    ///
    /// # Errors
    /// A fault of the consumer's own, one of `fails`.
    fn take(&mut self, name: &str, place: u64, line: &[u8], output: &mut O) -> Result<(), RunFault>
        ensures ok { OnOk result
            (Takes has_taken self.old output.old self.new output.new (line.now ∷ [])) }
        ensures err { IfErr result fails };

    /// Hands the answers so far to their writer.
    ///
    /// # Errors
    /// `Write`: this or an earlier write failed.
    fn hand_over(&mut self, output: &mut O) -> Result<(), RunFault>
        ensures takes { Takes has_taken self.old output.old self.new output.new [] }
        ensures handed { handed result output.new };
}

/// Cuts texts into lines. The last one of a text may lack its line feed.
#[derive(Drop)]
pub struct Lines<T> {
    /// The consumer of the lines.
    pub taker: T,
    name: String,
    place: u64,
    pub(crate) line: LineBuffer,
}

impl<T: Drop> Lines<T> {
    /// The state before the first text.
    ///
    /// # Errors
    /// `AllocError`: out of memory.
    pub fn new(alloc: Global, taker: T) -> Result<Lines<T>, AllocError>
        ensures taker { IfOk result (λ lines. lines.taker ≡ taker) }
        ensures line { IfOk result (λ lines. lines.line ≡ []) }
    {
        let line = LineBuffer::new(alloc)?;
        Ok(Lines {
            taker,
            name: String::new(alloc),
            place: 1,
            line,
        })
    }
}

impl<T> Lines<T> {
    /// Ends the open line with these bytes, hands it on, and opens the next. A line that is whole
    /// is handed on where it stands.
    #[inline(always)]
    fn end_line<O>(&mut self, bytes: &[u8], output: &mut O) -> Result<(), RunFault>
    where
        T: TakeLine<O>,
        requires piece { IsPiece bytes.now }
        ensures ok { OnOk result (Takes (HasCut T.has_taken)
            self.old output.old self.new output.new (bytes.now ++ 10 ∷ [])) }
        ensures err { IfErr result T.fails }
    {
        if bytes.len() > LIMIT || !self.line.bytes().is_empty() {
            self.line.hold(bytes);
            return self.end_held(output);
        }
        let taken = self
            .taker
            .take(self.name.as_str(), self.place, bytes, output);
        self.place = self.place.saturating_add(1);
        taken
    }

    /// Hands on the open line as far as it is held, and opens the next.
    #[cold]
    #[inline(never)]
    fn end_held<O>(&mut self, output: &mut O) -> Result<(), RunFault>
    where
        T: TakeLine<O>,
        ensures line { self.new.line ≡ [] }
        ensures ok { OnOk result (Takes T.has_taken
            self.old.taker output.old self.new.taker output.new (self.old.line ∷ [])) }
        ensures err { IfErr result T.fails }
    {
        let taken = self
            .taker
            .take(self.name.as_str(), self.place, self.line.bytes(), output);
        self.line.clear();
        self.place = self.place.saturating_add(1);
        taken
    }

    /// Hands on the open line, which may be empty, and then the answers.
    ///
    /// # Errors
    /// Those of the consumer.
    pub(crate) fn finish<O>(&mut self, output: &mut O) -> Result<(), RunFault>
    where
        T: TakeLine<O>,
        ensures { IsErrAnd result T.fails ⊎ (T.handed result output.new
            × Takes (HasCut T.has_taken) self.old output.old self.new output.new (10 ∷ [])) }
    {
        let ended = self.end_line(&[], output);
        let handed = self.taker.hand_over(output);
        match ended {
            Ok(()) => handed,
            Err(why) => Err(why),
        }
    }
}

impl<O, T: TakeLine<O>> TakeText<O> for Lines<T> {
    ghost use Rattle.numa_lines.specs.Cuts.{HasCut};

    ghost has_taken = { HasCut T.has_taken };

    ghost fails = { T.fails };

    ghost handed = { T.handed };

    fn begin(&mut self, name: &str) -> Result<(), RunFault> {
        self.place = 1;
        self.name.clear();
        match self.name.push_str(name) {
            Ok(()) => Ok(()),
            Err(_) => Err(RunFault::Memory),
        }
    }

    fn take(&mut self, piece: &[u8], output: &mut O) -> Result<(), RunFault> {
        let mut rest = piece;
        while let Some(end) = memchr(b'\n', rest) {
            if let Err(why) = self.end_line(&rest[..end], output) {
                return Err(why);
            }
            rest = &rest[end + 1..];
        }
        self.line.hold(rest);
        Ok(())
    }

    fn end(&mut self, output: &mut O) -> Result<(), RunFault> {
        if self.line.bytes().is_empty() {
            return Ok(());
        }
        self.end_line(&[], output)
    }

    fn hand_over(&mut self, output: &mut O) -> Result<(), RunFault> {
        self.taker.hand_over(output)
    }
}
