//! A handle of a reader of a desk.
ghost use Rattle.std.specs.Prelude.{◌≡◌, Some, None, Ok, true, is_some, is_ok, IfSome};
ghost use Rattle.numaplan_handles.specs.Calls.{Calls, Keeps};
ghost use Rattle.numaplan_handles.specs.Kinds.{CallsKept, is_reader, reader_of};
ghost use Rattle.numaplan_handles.specs.Readers.{IsRenewed, Renews};

use crate::handle::{Handle, of_kept};
use crate::kept::Kept;
use numa_publish::{LookRefusal, NoReader, PlanView};
use std::alloc::{AllocError, Global};

/// A reader that a C caller keeps, with the version at which it looks, or none. It is asked by a
/// [`ReaderView`](crate::ReaderView).
#[repr(C)]
pub struct ReaderHandle {
    pub handle: Handle,
    ghost kind: { is_reader handle.held.kept ≡ true },
}

/// Why no reader was made.
#[derive(Clone, Copy, Debug, PartialEq, Eq, Drop)]
pub enum ReaderLack {
    /// Each reader's place is in use.
    NoPlace,
    /// Out of memory for a handle.
    NoMemory,
}

/// Looks again: the version.
fn renewed(view: &mut PlanView, least: u64) -> Result<u64, LookRefusal>
    ensures { IsRenewed least view.old result view.new }
{
    match view.renew(least) {
        Ok(()) => Ok(view.version()),
        Err(refusal) => Err(refusal),
    }
}

/// The same of a reader that is kept.
fn renew_kept(kept: &mut Kept, least: u64) -> Result<u64, LookRefusal>
    requires reader { is_reader (Some kept.old) ≡ true }
    ensures { CallsKept is_reader reader_of (Renews least) kept.old result kept.new }
{
    match kept {
        Kept::Reader(view) => renewed(view, least),
        _ => unreachable!(),
    }
}

impl ReaderHandle {
    ghost use Rattle.numaplan_handles.specs.Handles.{reader_in};

    /// Puts a reader into a closed handle.
    ///
    /// # Errors
    /// `AllocError`: out of memory; the reader is dropped.
    pub fn open(&mut self, alloc: Global, view: PlanView) -> Result<(), AllocError>
        requires closed { reader_in self.old ≡ None }
        ensures { Keeps view result (reader_in self.new) }
    {
        self.handle.keep(alloc, Kept::Reader(view))
    }

    /// Puts a reader that was made into a closed handle.
    ///
    /// # Errors
    /// `NoPlace`: none was made; `NoMemory`: out of memory, and the reader is dropped.
    pub fn keep(
        &mut self,
        alloc: Global,
        made: Result<PlanView, NoReader>,
    ) -> Result<(), ReaderLack>
        requires closed { reader_in self.old ≡ None }
        ensures kept { IfSome (reader_in self.new) (λ view. made ≡ Ok view) }
        ensures done { is_some (reader_in self.new) ≡ is_ok result }
    {
        let Ok(view) = made else {
            return Err(ReaderLack::NoPlace);
        };
        match self.open(alloc, view) {
            Ok(()) => Ok(()),
            Err(_) => Err(ReaderLack::NoMemory),
        }
    }

    /// Looks at the newest version; its number. It waits for nobody, and takes no memory. `None` if
    /// the handle is closed.
    ///
    /// # Errors
    /// In the `Some`, as [`PlanView::renew`]: the reader looks at what it looked at.
    pub fn renew(&mut self, alloc: Global, least: u64) -> Option<Result<u64, LookRefusal>>
        ensures { Calls (Renews least) (reader_in self.old) result (reader_in self.new) }
    {
        of_kept!(self.handle, alloc, mut kept => renew_kept(&mut kept, least))
    }
}
