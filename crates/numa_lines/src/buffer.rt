//! Bytes kept from call to call: text on its way to a writer, or a line that hasn't ended.
ghost use Rattle.std.specs.Prelude.{◌≡◌, ℕ, ◌++◌, [], List, IfOk, if◌then◌else◌};
ghost use Rattle.numa_lines.specs.Lines.{given_part};

use std::alloc::{AllocError, Global};
use std::marker::Model;

/// The most bytes of text that are held back.
const ROOM: usize = 4096;

/// The most bytes of a line that are kept.
pub(crate) const LIMIT: usize = 4097;

/// Text not yet handed to the writer (up to 4,096 bytes), or the first 4,097 bytes of the line that
/// no line feed has ended yet.
#[derive(Drop)]
pub(crate) struct LineBuffer {
    bytes: Vec<u8>,
}

impl Model for LineBuffer {
    ghost use Rattle.std.specs.Prelude.{ℕ, List, ◌≤◌, vec_capacity};

    ghost Value = { List ℕ };

    ghost view = { λ h. h.bytes.items };

    ghost invariant = { λ h. 4097 ≤ vec_capacity h.bytes };
}

impl LineBuffer {
    /// An empty buffer of 4,097 bytes.
    ///
    /// # Errors
    /// `AllocError`: out of memory.
    pub fn new(alloc: Global) -> Result<LineBuffer, AllocError>
        ensures { IfOk result (λ h. h ≡ []) }
    {
        let bytes = Vec::with_capacity(alloc, LIMIT)?;
        Ok(LineBuffer { bytes })
    }

    /// Appends a text if there is room for it, and returns whether there is.
    #[inline(always)]
    pub fn keep(&mut self, text: &[u8]) -> bool
        ensures { self.new ≡ (if result then self.old ++ text.now else self.old) }
    {
        if text.len() > ROOM || self.bytes.len() > ROOM - text.len() {
            return false;
        }
        self.bytes.extend_from_slice(text).unwrap();
        true
    }

    /// Appends bytes of the line, as far as they are kept.
    #[tactic(auto, using(crate::proofs::Seeing::seen_more, crate::proofs::Seeing::seen_full))]
    pub fn hold(&mut self, bytes: &[u8])
        ensures { (line : List ℕ) → self.old ≡ given_part line
            → self.new ≡ given_part (line ++ bytes.now) }
    {
        if self.bytes.len() >= LIMIT {
            return;
        }
        let room = LIMIT - self.bytes.len();
        let kept = bytes.len().min(room);
        self.bytes.extend_from_slice(&bytes[..kept]).unwrap();
    }

    /// The bytes.
    pub fn bytes(&self) -> &[u8]
        ensures { result.now ≡ self.now }
    {
        self.bytes.as_slice()
    }

    /// Empties it.
    pub fn clear(&mut self)
        ensures { self.new ≡ [] }
    {
        self.bytes.clear();
    }
}
