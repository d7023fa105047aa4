//! A handle of a core.
ghost use Rattle.std.specs.Prelude.{◌≡◌, Some, None, true, IfOk};
ghost use Rattle.numaplan_handles.specs.Calls.{Asks, Calls, Keeps};
ghost use Rattle.numaplan_handles.specs.Kinds.{core_of, is_core};
ghost use Rattle.numaplan_handles.specs.Steps.{Steps, Touches, Compiles, HasVersions};

use crate::core_questions::core_kept;
use crate::handle::{Handle, of_kept};
use crate::kept::Kept;
use numa_core::Core;
use numa_machine::NoMemory;
use numa_plan::Plan;
use numa_requests::{CoreRefusal, CoreReply, Event, Request};
use std::alloc::{AllocError, Global};

/// A core that a C caller keeps, or none.
#[repr(C)]
pub struct CoreHandle {
    pub handle: Handle,
    ghost kind: { is_core handle.held.kept ≡ true },
}

/// Makes the plan of a core's accepted commands, if it has none.
fn prepare_kept(kept: &mut Kept) -> Result<(), NoMemory>
    requires core { is_core (Some kept.old) ≡ true }
    ensures { kept.new ≡ kept.old }
{
    match kept {
        Kept::Core(core) => core.prepare(),
        _ => unreachable!(),
    }
}

/// A copy of the plan of a core.
fn copy_kept(kept: &Kept, alloc: Global) -> Result<Plan, NoMemory>
    requires core { is_core (Some kept.now) ≡ true }
    ensures plan { IfOk result (Compiles (core_of (Some kept.now))) }
{
    match core_kept(kept).accepted_plan() {
        Some(plan) => plan.copy(alloc),
        None => Err(NoMemory),
    }
}

/// The plan of a core's accepted commands: a copy of the one that it keeps.
///
/// # Errors
/// `NoMemory`: there is no memory for the plan.
pub fn compile_kept(kept: &mut Kept, alloc: Global) -> Result<Plan, NoMemory>
    requires core { is_core (Some kept.old) ≡ true }
    ensures same { kept.new ≡ kept.old }
    ensures plan { IfOk result (Compiles (core_of (Some kept.old))) }
{
    prepare_kept(kept)?;
    copy_kept(kept, alloc)
}

/// The number of accepted commands, and of those that are published.
fn versions_of(core: &Core) -> (u64, u64)
    ensures { HasVersions (Some core.now) result.0 result.1 }
{
    (core.space().version(), core.published())
}

impl CoreHandle {
    ghost use Rattle.numaplan_handles.specs.Handles.{core_in};

    /// Puts a core into a closed handle.
    ///
    /// # Errors
    /// `AllocError`: out of memory; the core is dropped.
    pub fn open(&mut self, alloc: Global, core: Core) -> Result<(), AllocError>
        requires closed { core_in self.old ≡ None }
        ensures { Keeps core result (core_in self.new) }
    {
        self.handle.keep(alloc, Kept::Core(core))
    }

    /// Carries out an event and returns its reply. `None` if the handle is closed.
    ///
    /// # Errors
    /// In the `Some`, as [`Core::step`].
    pub fn step(&mut self, alloc: Global, event: Event) -> Option<Result<CoreReply, CoreRefusal>>
        ensures { Calls (Steps event) (core_in self.old) result (core_in self.new) }
    {
        of_kept!(self.handle, alloc, Kept::Core(core) => core.step(event))
    }

    /// Carries out a touch of a page by a worker and returns its reply. `None` if the handle is
    /// closed.
    ///
    /// # Errors
    /// In the `Some`, as [`Core::touch`].
    pub fn touch(
        &mut self,
        alloc: Global,
        worker: u32,
        request: Request,
    ) -> Option<Result<CoreReply, CoreRefusal>>
        ensures { Calls (Touches worker request) (core_in self.old) result (core_in self.new) }
    {
        of_kept!(self.handle, alloc, Kept::Core(core) => core.touch(worker, request))
    }

    /// The plan of all accepted commands: a copy of the one that the core keeps after the first.
    /// `None` if the handle is closed.
    ///
    /// # Errors
    /// `NoMemory`: there is no memory for the plan.
    pub fn compile(&mut self, alloc: Global) -> Option<Result<Plan, NoMemory>>
        ensures { Asks (λ answer. IfOk answer (Compiles (core_in self.old))) (core_in self.old)
            result (core_in self.new) }
    {
        of_kept!(self.handle, alloc, mut kept => compile_kept(&mut kept, alloc))
    }

    /// The number of accepted commands, and of those that are published. `None` if the handle is
    /// closed.
    pub fn versions(&mut self, alloc: Global) -> Option<(u64, u64)>
        ensures { Asks (λ both. HasVersions (core_in self.old) both.0 both.1) (core_in self.old)
            result (core_in self.new) }
    {
        of_kept!(self.handle, alloc, kept => versions_of(core_kept(&kept)))
    }
}
