//! Desks that threads share.
ghost use Rattle.std.specs.Prelude.{◌≡◌, ◌∷◌, List, IfErr, IfOk};
ghost use Rattle.numa_requests.specs.declared.command.Command.{Command};
ghost use Rattle.numa_publish.specs.Shown.{new_reader};
ghost use Rattle.numa_publish.specs.Submits.{IsRefusedBy};

use crate::desk::{Desk, NoReader};
use crate::reader::PlanReader;
use crate::receipt::Receipt;
use core::mem::ManuallyDrop;
use numa_requests::{Command, Refusal};
use std::marker::{Brand, Model, PhantomData};
use std::sync::{Mutex, Wait};

/// A type-level name of a desk and its limits, by which its receipts and readers are known to
/// belong together. It has no methods. A function that is generic in it is called with `Brand`, for
/// its caller's desk.
pub trait DeskName {
    ghost use Rattle.numa_publish.specs.Shown.{DeskIdentity};
    ghost use Rattle.numa_space.specs.Limited.{Bounds};

    ghost desk: { DeskIdentity };

    ghost bounds: { Bounds };
}

impl DeskName for Brand {
    ghost use Rattle.numa_publish.specs.Boards.{no_book};
    ghost use Rattle.numa_publish.specs.Ghosts.{no_bounds, no_machine};

    ghost desk = { record { book = no_book; machine = no_machine } };

    ghost bounds = { no_bounds };
}

/// Why a submit returned no receipt.
#[derive(Clone, Copy, Debug, PartialEq, Eq, Drop)]
pub enum SubmitRefusal {
    /// The command was refused, and nothing has changed.
    Refused(Refusal),
    /// The command was accepted, as this version, but there was no memory to publish it. The next
    /// successful submit publishes it too.
    Held(u64),
}

/// The desk that K names, inside the lock.
struct NamedDesk<K: DeskName> {
    desk: Desk,
    of: PhantomData<K>,
}

impl<K: DeskName> Model for NamedDesk<K> {
    ghost use Rattle.numa_publish.specs.Shown.{DeskState};
    ghost use Rattle.numa_publish.specs.Submits.{IsNamed};

    ghost Value = { DeskState };

    ghost view = { λ n. n.desk };

    ghost invariant = { λ n. IsNamed K.desk K.bounds n.desk };
}

impl<K: DeskName> NamedDesk<K> {
    /// `Desk::submit`.
    fn submit(&mut self, command: &Command) -> Result<Receipt, SubmitRefusal>
        ensures desk { IfOk result (λ r. r.desk ≡ K.desk) }
        ensures newest { IfOk result (λ r.
            (before : List Command) × (r.history ≡ command.now ∷ before)) }
        ensures err { IfErr result (IsRefusedBy K.desk.machine K.bounds command.now) }
    {
        self.desk.submit(command)
    }

    /// `Desk::reader`.
    fn reader(&mut self) -> Result<PlanReader, NoReader>
        ensures { IfOk result (λ r. r ≡ new_reader K.desk) }
    {
        self.desk.reader()
    }
}

/// A desk in a lock, through which threads submit commands and take readers. Readers look at plans
/// without the lock.
pub struct SharedDesk<K: DeskName> {
    lock: Mutex<ManuallyDrop<NamedDesk<K>>>,
}

impl<K: DeskName> SharedDesk<K> {
    /// Wraps a desk for sharing.
    pub fn new(desk: Desk) -> SharedDesk<K>
        requires desk { desk.desk ≡ K.desk }
        requires bounds { desk.bounds ≡ K.bounds }
    {
        SharedDesk {
            lock: Mutex::new(unsafe {
                ManuallyDrop::new_unchecked(NamedDesk {
                    desk,
                    of: PhantomData,
                })
            }),
        }
    }

    /// Accepts a command and publishes all accepted commands. The receipt's history has the command
    /// in front. It blocks for the lock.
    ///
    /// # Errors
    /// `Refused`: as `Desk::accept`, behind the commands that came before; else `Held`: it is
    /// accepted behind them, and there is no memory to publish.
    pub fn submit<R: Wait>(&self, rt: &R, command: &Command) -> Result<Receipt, SubmitRefusal>
        ensures desk { IfOk result (λ r. r.desk ≡ K.desk) }
        ensures newest { IfOk result (λ r.
            (before : List Command) × (r.history ≡ command.now ∷ before)) }
        ensures err { IfErr result (IsRefusedBy K.desk.machine K.bounds command.now) }
    {
        self.lock.lock(rt).submit(command)
    }

    /// A new reader, which has seen only version 0. It blocks for the lock.
    ///
    /// # Errors
    /// `NoReader`: as `Desk::reader`.
    pub fn reader<R: Wait>(&self, rt: &R) -> Result<PlanReader, NoReader>
        ensures { IfOk result (λ r. r ≡ new_reader K.desk) }
    {
        self.lock.lock(rt).reader()
    }

    /// Unwraps the desk, once no thread shares it.
    pub fn into_desk(self) -> Desk
        ensures desk { result.desk ≡ K.desk }
        ensures bounds { result.bounds ≡ K.bounds }
    {
        let SharedDesk { lock } = self;
        let NamedDesk { desk, of: _ } = ManuallyDrop::into_inner(lock.into_inner());
        desk
    }
}
