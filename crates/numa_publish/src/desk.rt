//! Desks, which accept commands and publish plans.
ghost use Rattle.std.specs.Prelude.{◌≡◌, ◌+◌, ◌≤◌, ◌∷◌, ◌++◌, [], length, reverse, slice_index};
ghost use Rattle.std.specs.Prelude.{None, IfOk, IfErr, OnOk, OnErr};
ghost use Rattle.numa_space.specs.Refusals.{refusal_of};
ghost use Rattle.numa_space.specs.Standing.{StandsFor};
ghost use Rattle.numa_publish.specs.Shown.{Refuses, accepted_commands, new_reader, versions_after};
ghost use Rattle.numa_publish.specs.Submits.{LeavesAfter};

use crate::board::Showing;
use crate::ghosts::About;
use crate::issue::{Issue, Shown};
use crate::laws::equal_versions_agree;
use crate::log::Log;
use crate::publishing::{let_go, opened, show_next};
use crate::reader::PlanReader;
use crate::receipt::Receipt;
use crate::shared::SubmitRefusal;
use crate::taker::Taker;
use crate::view::PlanView;
use numa_compile::PlannedSpace;
use numa_machine::{Machine, NoMemory};
use numa_requests::{Command, Limits, Refusal};
use numa_space::Space;
use std::alloc::Global;
use std::marker::Model;
use std::mem::replace;

/// Accepts commands and publishes plans of all accepted commands, for 1 to 64 readers at once. A
/// version is a number of accepted commands; version 0 is published from the start. No call waits
/// for a reader. Once the desk is dropped, each `enter` fails.
///
/// Contracts see the identity of the desk and its machine, its limits, the published history, the
/// versions published so far and the pending commands, which are accepted and not yet published;
/// each list has its newest entry in front. The accepted history is the pending commands in front
/// of the published history.
///
/// It keeps a plan of all accepted commands, which each command edits in place, and publishes
/// copies of it; so the cost of a version depends on what its commands affect.
#[derive(Drop)]
pub struct Desk {
    alloc: Global,
    showing: Showing,
    // The published version.
    shown: Shown,
    log: Log,
    // Accepted and not published, the oldest first.
    pending: Vec<Command>,
    space: PlannedSpace,
    // Older versions, of which readers still have shares: the last share is freed here.
    spent: Vec<Shown>,
}

impl Model for Desk {
    ghost use Rattle.std.specs.Prelude.{◌≡◌, reverse};
    ghost use Rattle.std.specs.Arc.{arc_value};
    ghost use Rattle.numa_publish.specs.Batches.{history_of, versions_of};
    ghost use Rattle.numa_publish.specs.Boards.{desk_told, notice_of};
    ghost use Rattle.numa_publish.specs.Kept.{IsDeskKept};
    ghost use Rattle.numa_publish.specs.Shown.{DeskState};

    ghost Value = { DeskState };

    ghost view = { λ d. record {
      desk = record { book = d.log.seen.book; machine = d.space.machine };
      bounds = d.space.bounds;
      published = history_of d.log.seen.log;
      versions = versions_of d.log.seen.log;
      pending = reverse d.pending.items;
    } };

    ghost invariant = { λ d.
        IsDeskKept d.space (notice_of d.shown) d.log.seen.log d.log.seen.book d.pending.items
        × ((arc_value d.showing.board).mark ≡ desk_told d.shown)
        × (d.showing.turn.front ≡ d.shown.front) };
}

/// All readers' places are in use.
#[derive(Clone, Copy, Debug, PartialEq, Eq, Drop)]
pub struct NoReader;

impl Desk {
    /// A desk of this machine, with these limits, for at most `readers` readers at once. Nothing is
    /// accepted, and version 0 is published.
    ///
    /// # Errors
    /// `NoMemory`: there is no memory for the plan of version 0 or for the readers' places.
    pub fn new(
        alloc: Global,
        machine: Machine,
        limits: Limits,
        readers: u32,
    ) -> Result<Desk, NoMemory>
        requires some { 1 ≤ readers }
        requires few { readers ≤ 64 }
        ensures machine { IfOk result (λ d. (d.desk.machine ≡ machine) × (d.bounds ≡ limits)) }
        ensures empty { IfOk result (λ d. (d.published ≡ []) × (d.pending ≡ [])) }
        ensures versions { IfOk result (λ d. d.versions ≡ 0 ∷ []) }
    {
        let mut space = PlannedSpace::new(alloc, machine, limits);
        let log = Log::new();
        let Ok((showing, shown)) = opened(alloc, &mut space, &log.start, readers as usize) else {
            return Err(NoMemory);
        };
        Ok(Desk {
            alloc,
            showing,
            shown,
            log,
            pending: Vec::new(alloc),
            space,
            spent: Vec::new(alloc),
        })
    }

    /// The number of commands that are accepted and not published.
    pub fn pending(&self) -> usize
        ensures { result ≡ length self.now.pending }
    {
        self.pending.len()
    }

    /// The published version.
    pub fn published(&self) -> u64
        ensures length { result ≡ length self.now.published }
        ensures newest { result ≡ slice_index self.now.versions 0 }
    {
        let issue: &Issue = &self.shown.issue;
        issue.plan.version()
    }

    /// The space of all accepted commands.
    pub fn space(&self) -> &Space
        ensures stands { StandsFor result.now (accepted_commands self.now) }
        ensures machine { result.now.machine ≡ self.now.desk.machine }
        ensures bounds { result.now.bounds ≡ self.now.bounds }
    {
        self.space.space()
    }

    /// Accepts a command, or refuses it as the space does, and returns the number of accepted
    /// commands. The command is pending until the next successful publish. A refusal changes
    /// nothing.
    ///
    /// # Errors
    /// The refusal of the command after all accepted ones; or `NoMemory`, also instead of another
    /// refusal, since memory for one more pending command is reserved before the command is looked
    /// at.
    pub fn accept(&mut self, command: &Command) -> Result<u64, Refusal>
        ensures allowed { OnOk result (refusal_of self.old.desk.machine self.old.bounds
            (accepted_commands self.old) command.now ≡ None) }
        ensures version { IfOk result (λ version. version ≡
            length (accepted_commands self.old) + 1) }
        ensures added { OnOk result
            (self.new ≡ record self.old { pending = command.now ∷ self.old.pending }) }
        ensures err { IfErr result (λ refusal. Refuses self.old command.now refusal) }
        ensures unchanged { OnErr result (self.new ≡ self.old) }
        ensures desk { (self.new.desk ≡ self.old.desk) × (self.new.bounds ≡ self.old.bounds) }
        ensures published { (self.new.published ≡ self.old.published)
            × (self.new.versions ≡ self.old.versions) }
    {
        let Ok(()) = self.pending.reserve(1) else {
            return Err(Refusal::NoMemory);
        };
        if let Err(refusal) = self.space.apply(self.alloc, command) {
            return Err(refusal);
        }
        self.pending.push_reserved(*command);
        Ok(self.space.space().version())
    }

    /// A receipt of the published version. It waits for nobody.
    pub fn receipt(&self) -> Receipt
        ensures { (result.desk ≡ self.now.desk) × (result.history ≡ self.now.published)
            × (result.versions ≡ self.now.versions) }
    {
        let issue: &Issue = &self.shown.issue;
        Receipt::new(
            &self.log.seen,
            About::of(self.space.space().machine()),
            issue.plan.version(),
        )
    }

    /// Publishes all accepted commands, and returns a receipt. With nothing pending it only returns
    /// a receipt of the published version. Looks that begin later see the new version. It waits for
    /// nobody, and lets go of those older versions that no reader has.
    ///
    /// # Errors
    /// `NoMemory`: out of memory. Then nothing has changed, and the next publish will publish the
    /// same.
    pub fn publish(&mut self) -> Result<Receipt, NoMemory>
        ensures ok { OnOk result
            ((self.new.published ≡ accepted_commands self.old) × (self.new.pending ≡ [])) }
        ensures receipt { IfOk result (λ r.
            (r.desk ≡ self.new.desk) × (r.history ≡ self.new.published)
            × (r.versions ≡ self.new.versions)) }
        ensures versions { OnOk result (self.new.versions ≡ versions_after self.old) }
        ensures desk { (self.new.desk ≡ self.old.desk) × (self.new.bounds ≡ self.old.bounds) }
        ensures unchanged { OnErr result (self.new ≡ self.old) }
    {
        if self.pending.is_empty() {
            return Ok(self.receipt());
        }
        let Ok(()) = self.spent.reserve(1) else {
            return Err(NoMemory);
        };
        let Ok((turn, shown)) = show_next(
            self.alloc,
            &self.showing,
            &mut self.space,
            &mut self.log,
            &self.pending,
        ) else {
            return Err(NoMemory);
        };
        self.showing.turn = turn;
        self.pending.clear();
        self.spent.push_reserved(replace(&mut self.shown, shown));
        let_go(&mut self.spent);
        Ok(self.receipt())
    }

    /// Accepts a command and publishes.
    ///
    /// # Errors
    /// `Refused`: as `accept`, and nothing has changed; else `Held`: `publish` ran out of memory,
    /// and the command is pending.
    pub(crate) fn submit(&mut self, command: &Command) -> Result<Receipt, SubmitRefusal>
        ensures receipt { IfOk result (λ r. (r.desk ≡ self.new.desk)
            × (r.history ≡ command.now ∷ accepted_commands self.old)) }
        ensures published { OnOk result ((self.new.published ≡
            command.now ∷ accepted_commands self.old) × (self.new.pending ≡ [])) }
        ensures err { IfErr result (λ refusal. LeavesAfter self.old self.new command.now refusal) }
        ensures desk { (self.new.desk ≡ self.old.desk) × (self.new.bounds ≡ self.old.bounds) }
    {
        let version = match self.accept(command) {
            Ok(version) => version,
            Err(refusal) => return Err(SubmitRefusal::Refused(refusal)),
        };
        match self.publish() {
            Ok(receipt) => Ok(receipt),
            Err(_) => Err(SubmitRefusal::Held(version)),
        }
    }

    /// A new reader, which has seen only version 0.
    ///
    /// # Errors
    /// `NoReader`: each place is in use.
    pub fn reader(&self) -> Result<PlanReader, NoReader>
        ensures new { IfOk result (λ r. r ≡ new_reader self.now.desk) }
    {
        if self.showing.is_full() {
            return Err(NoReader);
        }
        let Ok(taker) = Taker::new(&self.showing, &self.shown) else {
            return Err(NoReader);
        };
        Ok(PlanReader::new(taker, self.log.start.again()))
    }

    /// A new reader that looks at what is published.
    ///
    /// # Errors
    /// `NoReader`: as `reader`.
    pub fn view(&self) -> Result<PlanView, NoReader>
        ensures desk { IfOk result (λ v. v.desk ≡ self.now.desk) }
        ensures shown { IfOk result (λ v. (v.history ≡ self.now.published)
            × (v.versions ≡ self.now.versions)) }
    {
        let published = self.receipt();
        let Ok(view) = self.reader()?.enter() else {
            return Err(NoReader);
        };
        let shown = view.receipt();
        // Nobody else publishes, so they are of one version, which no proof can see.
        if shown.version() != published.version() {
            return Err(NoReader);
        }
        equal_versions_agree(&shown, &published);
        Ok(view)
    }

    /// Ends the desk: from now on each `enter` fails. Views that are held stay as they are.
    pub fn end(self) {
        drop(self);
    }
}
