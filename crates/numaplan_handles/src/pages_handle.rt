//! A handle of a core with its pages.
ghost use Rattle.std.specs.Prelude.{◌≡◌, Some, None, true, OnOk, OnErr, IfOk};
ghost use Rattle.numa_pages.specs.Changes.{Accepts};
ghost use Rattle.numaplan_handles.specs.Calls.{IsShared};
ghost use Rattle.numaplan_handles.specs.Kinds.{core_of, is_core, is_pages, pages_of};
ghost use Rattle.numaplan_handles.specs.Pages.{IsCoreOf, IsMade, IsOpenedFrom};

use crate::core_handle::CoreHandle;
use crate::core_questions::core_kept;
use crate::handle::{Handle, of_kept};
use crate::kept::{Kept, kept_as};
use numa_core::Core;
use numa_machine::NoMemory;
use numa_pages::{ChangeRefusal, Pages};
use numa_requests::Command;
use std::alloc::{AllocError, Global};

/// A core with its pages that a C caller keeps, or none.
#[repr(C)]
pub struct PagesHandle {
    pub handle: Handle,
    ghost kind: { is_pages handle.held.kept ≡ true },
}

/// The core with its pages that is kept.
pub(crate) fn pages_kept(kept: &Kept) -> &Pages
    requires pages { is_pages (Some kept.now) ≡ true }
    ensures pages { pages_of (Some kept.now) ≡ Some result.now }
{
    kept_as!(kept, Pages)
}

/// A copy of a core, of whose pages nothing is stated.
fn pages_of_core(kept: &Kept, alloc: Global) -> Result<Pages, NoMemory>
    requires core { is_core (Some kept.now) ≡ true }
    ensures { IfOk result (IsOpenedFrom (core_of (Some kept.now))) }
{
    let core = core_kept(kept).copy()?;
    Pages::new(alloc, core)
}

impl PagesHandle {
    ghost use Rattle.numaplan_handles.specs.Handles.{core_in, pages_in};
    ghost use Rattle.numaplan_handles.specs.PageCalls.{CallsPages};

    /// Puts a copy of a core into a closed handle: nothing is stated of its pages, and no node
    /// ever fills. Later events of the core don't affect the copy. `None` if the core's handle is
    /// closed.
    ///
    /// # Errors
    /// `NoMemory`: out of memory.
    pub fn open(&mut self, alloc: Global, core: &mut CoreHandle) -> Option<Result<(), NoMemory>>
        requires closed { pages_in self.old ≡ None }
        ensures same { core_in core.new ≡ core_in core.old }
        ensures opened { IsMade IsOpenedFrom (core_in core.old) result (pages_in self.new) }
    {
        let kept = core.handle.take(alloc)?;
        let made = pages_of_core(&kept, alloc);
        core.handle.put(kept);
        match made {
            Ok(pages) => Some(self.keep(alloc, pages)),
            Err(lack) => Some(Err(lack)),
        }
    }

    /// Puts a core with its pages into a closed handle.
    fn keep(&mut self, alloc: Global, pages: Pages) -> Result<(), NoMemory>
        requires closed { pages_in self.old ≡ None }
        ensures ok { OnOk result (pages_in self.new ≡ Some pages) }
        ensures err { OnErr result (pages_in self.new ≡ None) }
    {
        match self.handle.keep(alloc, Kept::Pages(pages)) {
            Ok(()) => Ok(()),
            Err(_) => Err(NoMemory),
        }
    }

    /// Puts a copy into another, closed handle. Later changes of one of the two don't affect the
    /// other. `None` if this handle is closed.
    ///
    /// # Errors
    /// `AllocError`: out of memory.
    pub fn copy(&mut self, alloc: Global, other: &mut PagesHandle) -> Option<Result<(), AllocError>>
        requires closed { pages_in other.old ≡ None }
        ensures same { pages_in self.new ≡ pages_in self.old }
        ensures copied { IsShared (pages_in self.old) result (pages_in other.new) }
    {
        self.handle.share(alloc, &mut other.handle)
    }

    /// Puts a copy of the core into another, closed handle, for plans and all else that a core is
    /// asked. Later events of one of the two don't affect the other. `None` if this handle is
    /// closed.
    ///
    /// # Errors
    /// `NoMemory`: out of memory.
    pub fn copy_core(
        &mut self,
        alloc: Global,
        other: &mut CoreHandle,
    ) -> Option<Result<(), NoMemory>>
        requires closed { core_in other.old ≡ None }
        ensures same { pages_in self.new ≡ pages_in self.old }
        ensures copied { IsMade IsCoreOf (pages_in self.old) result (core_in other.new) }
    {
        let kept = self.handle.take(alloc)?;
        let made = pages_kept(&kept).core().copy();
        self.handle.put(kept);
        match made {
            Ok(core) => Some(PagesHandle::open_core(other, alloc, core)),
            Err(lack) => Some(Err(lack)),
        }
    }

    /// Carries out a command of the core, and takes away what was stated of pages that it unmaps.
    /// `None` if the handle is closed.
    ///
    /// # Errors
    /// In the `Some`, as [`Pages::accept`].
    pub fn accept(&mut self, alloc: Global, command: &Command) -> Option<Result<u64, ChangeRefusal>>
        ensures { CallsPages (Accepts command.now) self.old result self.new }
    {
        of_kept!(self.handle, alloc, Kept::Pages(pages) => pages.accept(command))
    }

    /// Puts a core into a closed handle of cores.
    fn open_core(other: &mut CoreHandle, alloc: Global, core: Core) -> Result<(), NoMemory>
        requires closed { core_in other.old ≡ None }
        ensures ok { OnOk result (core_in other.new ≡ Some core) }
        ensures err { OnErr result (core_in other.new ≡ None) }
    {
        match other.open(alloc, core) {
            Ok(()) => Ok(()),
            Err(_) => Err(NoMemory),
        }
    }
}
