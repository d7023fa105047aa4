//! A handle of a desk.
ghost use Rattle.std.specs.Prelude.{◌≡◌, Some, None, true, IfOk};
ghost use Rattle.numaplan_handles.specs.Calls.{Asks, Calls, Keeps};
ghost use Rattle.numaplan_handles.specs.Desks.{HasDeskRules, HasDeskVersions, IsOrdered};
ghost use Rattle.numaplan_handles.specs.Desks.{IsPublished, IsReaderOf, Orders, Shows};
ghost use Rattle.numaplan_handles.specs.Kinds.{CallsKept, desk_of, is_desk};

use crate::handle::{Handle, of_kept};
use crate::kept::{Kept, kept_as};
use numa_machine::{NoMemory, Rules};
use numa_publish::{Desk, NoReader, PlanView};
use numa_requests::{Command, Refusal};
use std::alloc::{AllocError, Global};

/// A desk that a C caller keeps, or none.
#[repr(C)]
pub struct DeskHandle {
    pub handle: Handle,
    ghost kind: { is_desk handle.held.kept ≡ true },
}

/// The desk that is kept.
fn desk_kept(kept: &Kept) -> &Desk
    requires desk { is_desk (Some kept.now) ≡ true }
    ensures desk { desk_of (Some kept.now) ≡ Some result.now }
{
    kept_as!(kept, Desk)
}

/// Gives a desk a command.
fn ordered(desk: &mut Desk, command: &Command) -> Result<u64, Refusal>
    ensures { IsOrdered command.now desk.old result desk.new }
{
    desk.accept(command)
}

/// The same of a desk that is kept.
fn accept_kept(kept: &mut Kept, command: &Command) -> Result<u64, Refusal>
    requires desk { is_desk (Some kept.old) ≡ true }
    ensures { CallsKept is_desk desk_of (Orders command.now) kept.old result kept.new }
{
    match kept {
        Kept::Desk(desk) => ordered(desk, command),
        _ => unreachable!(),
    }
}

/// Publishes all that a desk has accepted: the version.
#[tactic(auto, using(crate::proofs::Desking::published_all))]
fn published(desk: &mut Desk) -> Result<u64, NoMemory>
    ensures { IsPublished desk.old result desk.new }
{
    match desk.publish() {
        Ok(receipt) => Ok(receipt.version()),
        Err(lack) => Err(lack),
    }
}

/// The same of a desk that is kept.
fn publish_kept(kept: &mut Kept) -> Result<u64, NoMemory>
    requires desk { is_desk (Some kept.old) ≡ true }
    ensures { CallsKept is_desk desk_of Shows kept.old result kept.new }
{
    match kept {
        Kept::Desk(desk) => published(desk),
        _ => unreachable!(),
    }
}

/// The number of accepted commands, and of those that are published.
fn versions_of(desk: &Desk) -> (u64, u64)
    ensures { HasDeskVersions (Some desk.now) result.0 result.1 }
{
    (desk.space().version(), desk.published())
}

/// The rules of its machine.
fn rules_of(desk: &Desk) -> Rules
    ensures { HasDeskRules (Some desk.now) result }
{
    desk.space().machine().rules()
}

/// A reader that looks at what is published.
fn view_kept(kept: &Kept) -> Result<PlanView, NoReader>
    requires desk { is_desk (Some kept.now) ≡ true }
    ensures { IfOk result (IsReaderOf (desk_of (Some kept.now))) }
{
    desk_kept(kept).view()
}

impl DeskHandle {
    ghost use Rattle.numaplan_handles.specs.Handles.{desk_in};

    /// Puts a desk into a closed handle.
    ///
    /// # Errors
    /// `AllocError`: out of memory; the desk is dropped.
    pub fn open(&mut self, alloc: Global, desk: Desk) -> Result<(), AllocError>
        requires closed { desk_in self.old ≡ None }
        ensures { Keeps desk result (desk_in self.new) }
    {
        self.handle.keep(alloc, Kept::Desk(desk))
    }

    /// Accepts a command, or refuses it; the number of accepted commands. `None` if the handle is
    /// closed.
    ///
    /// # Errors
    /// In the `Some`, as [`Desk::accept`].
    pub fn accept(&mut self, alloc: Global, command: &Command) -> Option<Result<u64, Refusal>>
        ensures { Calls (Orders command.now) (desk_in self.old) result (desk_in self.new) }
    {
        of_kept!(self.handle, alloc, mut kept => accept_kept(&mut kept, command))
    }

    /// Publishes all accepted commands; the published version. `None` if the handle is closed.
    ///
    /// # Errors
    /// In the `Some`, as [`Desk::publish`].
    pub fn publish(&mut self, alloc: Global) -> Option<Result<u64, NoMemory>>
        ensures { Calls Shows (desk_in self.old) result (desk_in self.new) }
    {
        of_kept!(self.handle, alloc, mut kept => publish_kept(&mut kept))
    }

    /// The number of accepted commands, and of those that are published. `None` if the handle is
    /// closed.
    pub fn versions(&mut self, alloc: Global) -> Option<(u64, u64)>
        ensures { Asks (λ both. HasDeskVersions (desk_in self.old) both.0 both.1) (desk_in self.old)
            result (desk_in self.new) }
    {
        of_kept!(self.handle, alloc, kept => versions_of(desk_kept(&kept)))
    }

    /// The rules by which the desk goes. `None` if the handle is closed.
    pub fn rules(&mut self, alloc: Global) -> Option<Rules>
        ensures { Asks (HasDeskRules (desk_in self.old)) (desk_in self.old) result
            (desk_in self.new) }
    {
        of_kept!(self.handle, alloc, kept => rules_of(desk_kept(&kept)))
    }

    /// A new reader, which looks at what is published. `None` if the handle is closed.
    ///
    /// # Errors
    /// In the `Some`, as [`Desk::view`].
    pub fn view(&mut self, alloc: Global) -> Option<Result<PlanView, NoReader>>
        ensures { Asks (λ made. IfOk made (IsReaderOf (desk_in self.old))) (desk_in self.old) result
            (desk_in self.new) }
    {
        of_kept!(self.handle, alloc, kept => view_kept(&kept))
    }
}
