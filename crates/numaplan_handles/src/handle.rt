//! Handles of any kind.
ghost use Rattle.std.specs.Prelude.{◌≡◌, Some, None, MatchOption, is_some, true};
ghost use Rattle.std.specs.Prelude.{Ok, Err, MatchResult, OnOk, OnErr};
ghost use Rattle.numaplan_handles.specs.Kinds.{SharesKept, core_of, is_core};
ghost use Rattle.numaplan_handles.specs.Kinds.{is_pages, pages_of};

use crate::held::HeapSlot;
use crate::kept::Kept;
use crate::place::RawBox;
use std::alloc::{AllocError, Global};
use std::mem::replace;

/// What is answered of the value that a handle keeps, which the handle gets back. The method that
/// asks returns `None` if the handle is closed. Where the answer changes the value, a pattern says
/// of which kind it is.
#[macro_export]
macro_rules! of_kept {
    ($handle:expr, $alloc:expr, $kept:ident => $answer:expr) => {{
        let $kept = $handle.take($alloc)?;
        let answer = $answer;
        $handle.put($kept);
        Some(answer)
    }};
    ($handle:expr, $alloc:expr, mut $kept:ident => $answer:expr) => {{
        let mut $kept = $handle.take($alloc)?;
        let answer = $answer;
        $handle.put($kept);
        Some(answer)
    }};
    ($handle:expr, $alloc:expr, $kind:pat => $answer:expr) => {
        $crate::of_kept!($handle, $alloc, mut kept => match &mut *kept {
            $kind => $answer,
            _ => unreachable!(),
        })
    };
}

pub(crate) use of_kept;

/// A value on the heap that belongs to a C caller, or nothing: a handle whose bytes are all 0 is
/// closed.
#[repr(C)]
pub struct Handle {
    is_open: bool,
    held: HeapSlot,
    ghost told: { is_some held.kept ≡ is_open },
}

impl Handle {
    /// A closed handle.
    fn closed() -> Handle
        ensures { result.held.kept ≡ None }
    {
        Handle {
            is_open: false,
            held: HeapSlot::none(),
        }
    }

    /// An open handle with this value.
    fn open(kept: Box<Kept>) -> Handle
        ensures { result.held.kept ≡ Some kept.value }
    {
        Handle {
            is_open: true,
            held: HeapSlot::of(RawBox::of(kept)),
        }
    }

    /// Whether it is open: it keeps something.
    pub fn is_open(&self) -> bool
        ensures { result ≡ is_some self.now.held.kept }
    {
        self.is_open
    }

    /// The value, if it is open.
    fn into_kept(self, alloc: Global) -> Option<Box<Kept>>
        ensures { MatchOption result (self.held.kept ≡ None)
            (λ kept. self.held.kept ≡ Some kept.value) }
    {
        let Handle { is_open, held } = self;
        if is_open {
            return Some(held.into_place().into_box(alloc));
        }
        held.spent();
        None
    }

    /// Takes the value out, which closes it.
    pub fn take(&mut self, alloc: Global) -> Option<Box<Kept>>
        ensures taken { MatchOption result (self.old.held.kept ≡ None)
            (λ kept. self.old.held.kept ≡ Some kept.value) }
        ensures closed { self.new.held.kept ≡ None }
    {
        replace(self, Handle::closed()).into_kept(alloc)
    }

    /// Frees the value, if it is open.
    pub fn close(&mut self, alloc: Global)
        ensures { self.new.held.kept ≡ None }
    {
        drop(self.take(alloc));
    }

    /// Puts a value into a closed handle.
    pub fn put(&mut self, kept: Box<Kept>)
        requires closed { self.old.held.kept ≡ None }
        ensures kept { self.new.held.kept ≡ Some kept.value }
    {
        let Handle { is_open: _, held } = replace(self, Handle::open(kept));
        held.spent();
    }

    /// Puts a value that was made into a closed handle; on an error it stays closed.
    pub(crate) fn put_made<E: Drop>(&mut self, made: Result<Box<Kept>, E>) -> Result<(), E>
        requires closed { self.old.held.kept ≡ None }
        ensures made { MatchResult made (λ kept. (result ≡ Ok tt) × (self.new.held.kept
            ≡ Some kept.value)) (λ fault. (result ≡ Err fault) × (self.new ≡ self.old)) }
    {
        match made {
            Ok(kept) => {
                self.put(kept);
                Ok(())
            }
            Err(fault) => Err(fault),
        }
    }

    /// Puts a value into a closed handle, if there is memory for it; else the value is dropped.
    ///
    /// # Errors
    /// `AllocError`: out of memory.
    pub fn keep(&mut self, alloc: Global, kept: Kept) -> Result<(), AllocError>
        requires closed { self.old.held.kept ≡ None }
        ensures ok { OnOk result (self.new.held.kept ≡ Some kept) }
        ensures err { OnErr result (self.new ≡ self.old) }
    {
        self.put_made(kept.on_heap(alloc).ok_or(AllocError))
    }

    /// Puts a copy of the core or the pages into another, closed handle. `None` if this
    /// one is closed.
    ///
    /// # Errors
    /// `AllocError`: out of memory.
    pub fn share(&mut self, alloc: Global, other: &mut Handle) -> Option<Result<(), AllocError>>
        requires closed { other.old.held.kept ≡ None }
        ensures same { self.new.held.kept ≡ self.old.held.kept }
        ensures core { SharesKept is_core core_of self.old.held.kept result other.new.held.kept }
        ensures pages { SharesKept is_pages pages_of self.old.held.kept result
            other.new.held.kept }
    {
        let kept = self.take(alloc)?;
        let again = kept.again(alloc);
        self.put(kept);
        Some(other.put_made(again.ok_or(AllocError)))
    }
}

const _: () = prove!(size_of::<Handle>() == 16);
