//! Readers and writers that remember whether a call on them has failed; writers also gather texts.
ghost use Rattle.std.specs.Prelude.{◌≡◌, ℕ, ◌+◌, ◌++◌, [], IfErr, OnOk, OnErr, true, false};
ghost use Rattle.std.specs.Prelude.{decimal, if◌then◌else◌};
ghost use Rattle.std.specs.Io.{ReadsAtMost};
ghost use Rattle.std.specs.Io.KnownBytes.{Appends, ReadConsumes};
ghost use Rattle.numa_lines.specs.Watching.{has_failed, held_in, read_count, unsent};
ghost use Rattle.numa_lines.specs.Written.{AppendsFront, IsSent, Said, SaidNothing};

use crate::buffer::LineBuffer;
use crate::fault::RunFault;
use itoa::Buffer;
use numa_ghost::Count;
use std::alloc::{AllocError, Global};
use std::io::{Read, Write};

/// A reader or a writer, and whether a call on it has failed. Contracts see how often it was read.
/// After `gather` a writer holds back up to 4,096 bytes of text.
#[derive(Drop)]
pub struct Watched<S> {
    /// The reader or the writer.
    pub inner: S,
    pub(crate) failed: bool,
    pub(crate) held: Option<LineBuffer>,
    pub(crate) reads: Count,
}

impl<S> Watched<S> {
    /// Wraps a reader or a writer; no call has failed, and nothing is held back.
    pub fn new(inner: S) -> Watched<S>
        ensures inner { result.inner ≡ inner }
        ensures well { has_failed result ≡ false }
        ensures empty { unsent result ≡ [] }
    {
        Watched {
            inner,
            failed: false,
            held: None,
            reads: Count::zero(),
        }
    }

    /// Whether a call on it has failed.
    pub fn failed(&self) -> bool
        ensures { result ≡ has_failed self.now }
    {
        let Watched { failed, .. } = self;
        *failed
    }

    /// Clears any earlier error, and the text that it lost.
    pub(crate) fn begin(&mut self)
        ensures inner { self.new.inner ≡ self.old.inner }
        ensures well { has_failed self.new ≡ false }
        ensures held { held_in self.new ≡ unsent self.old }
        ensures reads { read_count self.new ≡ read_count self.old }
    {
        if !self.failed {
            return;
        }
        self.failed = false;
        if let Some(held) = &mut self.held {
            held.clear();
        }
    }
}

impl<R: Read> Watched<R> {
    /// Reads bytes into the buffer, and returns how many: 0 at the end of the input, or if the
    /// buffer is empty, and only then.
    ///
    /// # Errors
    /// `Read`: the reader's call failed.
    pub fn read(&mut self, buffer: &mut [u8]) -> Result<usize, RunFault>
        ensures bound { ReadsAtMost result buffer.new }
        ensures bytes { ReadConsumes (R.remaining self.old.inner) (R.remaining self.new.inner)
            result buffer.new }
        ensures ok { OnOk result (has_failed self.new ≡ has_failed self.old) }
        ensures err { OnErr result (has_failed self.new ≡ true) }
        ensures fault { IfErr result (λ why. why ≡ RunFault.Read) }
        ensures counted { read_count self.new ≡ read_count self.old + 1 }
    {
        self.reads = self.reads.next();
        match self.inner.read(buffer) {
            Ok(count) => Ok(count),
            Err(_) => {
                self.failed = true;
                Err(RunFault::Read)
            }
        }
    }
}

/// Writes all the bytes. A call that takes no byte counts as failed; after an error the first part
/// of the bytes was written.
fn write_all<W: Write>(writer: &mut W, bytes: &[u8]) -> Result<(), RunFault>
    ensures ok { OnOk result (Appends (W.contents writer.old) (W.contents writer.new) bytes.now) }
    ensures front { OnErr result
        (AppendsFront (W.contents writer.old) (W.contents writer.new) bytes.now) }
{
    let mut rest = bytes;
    while !rest.is_empty() {
        match writer.write(rest) {
            Ok(count) if count > 0 => rest = &rest[count..],
            _ => return Err(RunFault::Write),
        }
    }
    Ok(())
}

impl<W: Write> Watched<W> {
    /// Makes room for 4,096 bytes of text, which then go to the writer together. Without it each
    /// text is written at once.
    ///
    /// # Errors
    /// `AllocError`: out of memory; each text is written at once, as before.
    pub fn gather(&mut self, alloc: Global) -> Result<(), AllocError>
        ensures inner { self.new.inner ≡ self.old.inner }
        ensures failed { has_failed self.new ≡ has_failed self.old }
        ensures held { held_in self.new ≡ held_in self.old }
    {
        if self.held.is_some() {
            return Ok(());
        }
        self.held = Some(LineBuffer::new(alloc)?);
        Ok(())
    }

    /// Wraps a writer whose texts are gathered; each is written at once where there is no memory to
    /// gather them.
    pub(crate) fn gathering(alloc: Global, inner: W) -> Watched<W>
        ensures inner { result.inner ≡ inner }
        ensures well { has_failed result ≡ false }
        ensures empty { unsent result ≡ [] }
    {
        let mut writer = Watched::new(inner);
        let _ = writer.gather(alloc);
        writer
    }

    /// Holds a text back if there is room for it, and returns whether there is.
    #[inline(always)]
    fn keep(&mut self, text: &[u8]) -> bool
        ensures inner { self.new.inner ≡ self.old.inner }
        ensures failed { has_failed self.new ≡ has_failed self.old }
        ensures held { held_in self.new
            ≡ (if result then held_in self.old ++ text.now else held_in self.old) }
    {
        match &mut self.held {
            Some(held) => held.keep(text),
            None => false,
        }
    }

    /// Writes bytes past the text that is held back, unless a write has failed.
    fn send(&mut self, bytes: &[u8])
        ensures sent { IsSent W.contents self.old self.new bytes.now }
        ensures held { held_in self.new ≡ held_in self.old }
    {
        if self.failed {
            return;
        }
        if write_all(&mut self.inner, bytes).is_err() {
            self.failed = true;
        }
    }

    /// Writes the text that is held back, unless a write has failed.
    fn flush(&mut self)
        ensures says { SaidNothing W.contents self.old self.new }
        ensures empty { held_in self.new ≡ [] }
    {
        let Some(mut held) = self.held.take() else {
            return;
        };
        self.send(held.bytes());
        held.clear();
        self.held = Some(held);
    }

    /// Writes the text that is held back.
    ///
    /// # Errors
    /// `Write`: this or an earlier write failed; then nothing more is written.
    pub fn hand_over(&mut self) -> Result<(), RunFault>
        ensures says { SaidNothing W.contents self.old self.new }
        ensures empty { held_in self.new ≡ [] }
        ensures ok { OnOk result (has_failed self.new ≡ false) }
        ensures err { OnErr result (has_failed self.new ≡ true) }
        ensures fault { IfErr result (λ why. why ≡ RunFault.Write) }
    {
        self.flush();
        if self.failed {
            return Err(RunFault::Write);
        }
        Ok(())
    }

    /// Writes the text that is held back, and then this one, at once.
    ///
    /// # Errors
    /// `Write`: this write failed, and the first part of the text was written; or an earlier one
    /// failed, and nothing was.
    pub fn put(&mut self, text: &[u8]) -> Result<(), RunFault>
        ensures says { Said W.contents self.old self.new text.now }
        ensures empty { held_in self.new ≡ [] }
        ensures ok { OnOk result (has_failed self.new ≡ false) }
        ensures err { OnErr result (has_failed self.new ≡ true) }
        ensures fault { IfErr result (λ why. why ≡ RunFault.Write) }
    {
        self.flush();
        self.send(text);
        if self.failed {
            return Err(RunFault::Write);
        }
        Ok(())
    }

    /// Writes a text, or holds it back if there is room. If not, the text held back is written
    /// first, and then this one too if it has more than 4,096 bytes.
    pub fn say(&mut self, text: &[u8])
        ensures { Said W.contents self.old self.new text.now }
    {
        if self.keep(text) {
            return;
        }
        self.say_past(text);
    }

    /// Does so for a text that doesn't fit after the text that is held back.
    #[cold]
    #[inline(never)]
    fn say_past(&mut self, text: &[u8])
        ensures { Said W.contents self.old self.new text.now }
    {
        self.flush();
        if self.keep(text) {
            return;
        }
        self.send(text);
    }

    /// Writes a number in decimal, as `say` does.
    pub fn say_number(&mut self, number: u64)
        ensures { Said W.contents self.old self.new (decimal number) }
    {
        let mut buffer = Buffer::new();
        self.say(buffer.format(number).as_bytes());
    }
}
