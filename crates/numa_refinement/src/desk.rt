//! The calls of a desk as steps of the core's world. Each function makes the call; its clauses say
//! which step of the world it is.
ghost use Rattle.std.specs.Prelude.{◌≡◌, ◌≢◌, ◌≤◌, [], length, slice_get};
ghost use Rattle.std.specs.Prelude.{Some, Ok, Err, IfOk, IfErr, OnOk, OnErr};
ghost use Rattle.numa_publish.specs.Batches.{Extends};
ghost use Rattle.numa_publish.specs.Shown.{ViewState, accepted_commands};
ghost use Rattle.numa_core.specs.World.{Setup, World, opening};
ghost use Rattle.numa_requests.specs.declared.event.CoreRefusal.{CoreRefusal};
ghost use Rattle.numa_requests.specs.declared.event.Event.{Event};
ghost use Rattle.numa_requests.specs.declared.event.CoreReply.{CoreReply};
ghost use Rattle.numa_refinement.specs.Desks.{HasPublishedBy, IsDeskOf, LeadsTo};
ghost use Rattle.numa_refinement.specs.LegalSteps.{HasPublished, IsPublishedIn, core_step_of};

use numa_fault::FaultWorker;
use numa_machine::{Machine, NoMemory};
use numa_publish::laws::equal_versions_agree;
use numa_publish::{Desk, PlanReader, Receipt};
use numa_requests::{Command, Limits, Refusal};
use std::alloc::Global;

/// `Desk::new`: the desk of the opening world of any setup with this machine and these limits.
///
/// # Errors
/// As `Desk::new`.
pub fn open(alloc: Global, machine: Machine, limits: Limits, readers: u32) -> Result<Desk, NoMemory>
    requires { (1 ≤ readers) × (readers ≤ 64) }
    ensures opens { IfOk result (λ d. (s : Setup) → s.machine ≡ machine → s.bounds ≡ limits
        → IsDeskOf s opening d) }
{
    Desk::new(alloc, machine, limits, readers)
}

/// `Desk::accept`: an Accept with the same answer, except on out-of-memory.
///
/// # Errors
/// As `Desk::accept`.
pub fn accept(desk: &mut Desk, command: &Command) -> Result<u64, Refusal>
    ensures ok { IfOk result (λ version. (s : Setup) (world : World) → IsDeskOf s world desk.old
        → LeadsTo s world
        (core_step_of (Event.Accept command.now) (Ok (CoreReply.Accepted version)))
        desk.new) }
    ensures err { IfErr result (λ refusal. (s : Setup) (world : World) → IsDeskOf s world desk.old
        → refusal ≢ Refusal.NoMemory
        → LeadsTo s world
        (core_step_of (Event.Accept command.now) (Err (CoreRefusal.Command refusal))) desk.new) }
{
    desk.accept(command)
}

/// `Desk::publish`: a Publish if something is pending, else no step.
///
/// # Errors
/// As `Desk::publish`.
pub fn publish(desk: &mut Desk) -> Result<Receipt, NoMemory>
    ensures ok { OnOk result ((s : Setup) (world : World) → IsDeskOf s world desk.old
        → desk.old.pending ≢ []
        → LeadsTo s world
        (core_step_of Event.Publish
        (Ok (CoreReply.Published (length (accepted_commands desk.old)))))
        desk.new) }
    ensures idle { OnOk result (desk.old.pending ≡ [] → desk.new ≡ desk.old) }
    ensures err { OnErr result ((s : Setup) (world : World) → IsDeskOf s world desk.old
        → LeadsTo s world (core_step_of Event.Publish (Err CoreRefusal.NoMemory)) desk.new) }
    ensures receipt { IfOk result (λ r. (s : Setup) (world : World) → IsDeskOf s world desk.new
        → IsPublishedIn world r.history) }
    ensures versions { IfOk result (λ r. (s : Setup) (world : World) → IsDeskOf s world desk.new
        → HasPublished world r.history r.versions) }
{
    desk.publish()
}

/// Compares a receipt, of a publish or a view, with its desk: if its version isn't above the one
/// that the desk has published, the desk's world has published it, and all that it shows. So it is
/// with any view: take its receipt.
pub fn compare(desk: &Desk, receipt: &Receipt)
    requires { receipt.now.desk ≡ desk.now.desk }
    ensures all { HasPublishedBy desk.now receipt.now.history receipt.now.versions }
    ensures own { (s : Setup) (world : World) → IsDeskOf s world desk.now
        → length receipt.now.history ≤ length desk.now.published
        → IsPublishedIn world receipt.now.history }
{
    let published = desk.receipt();
    equal_versions_agree(&published, receipt);
    // Tells the proof that the receipt's version is the newest of its versions.
    let _ = receipt.version();
}

/// Compares a reader with its desk: if it has seen and learnt no version above the one that the
/// desk has published, the desk's world has published all that it has seen or learnt, and so what
/// each of its earlier views showed.
pub fn compare_reader(desk: &Desk, reader: &PlanReader)
    requires { desk.now.desk ≡ reader.now.desk }
    ensures all { HasPublishedBy desk.now reader.now.history reader.now.versions }
    ensures views { (s : Setup) (world : World) → IsDeskOf s world desk.now
        → length reader.now.history ≤ length desk.now.published
        → (view : ViewState) → Extends view.history reader.now.history
        → Extends view.versions reader.now.versions
        → slice_get view.versions 0 ≡ Some (length view.history)
        → IsPublishedIn world view.history }
{
    let published = desk.receipt();
    reader.compare(&published);
}

/// Compares a fault worker with its desk: if it has seen no version above the one that the desk has
/// published, the desk's world has published each version that any of its answers told.
/// `laws::answers_are_of_published_versions` says so of a list of answers.
pub fn compare_worker(desk: &Desk, worker: &FaultWorker)
    requires { desk.now.desk ≡ worker.now.reader.desk }
    ensures { HasPublishedBy desk.now worker.now.reader.history worker.now.reader.versions }
{
    let published = desk.receipt();
    worker.compare(&published);
}

/// `PlanReader::learn`: if the receipt is of no earlier version than the one that the reader has
/// seen, all that it has seen is published in each world in which all that the receipt shows is.
pub fn learn(reader: PlanReader, receipt: &Receipt) -> PlanReader
    requires { receipt.now.desk ≡ reader.desk }
    ensures { (world : World) → length reader.history ≤ length receipt.now.history
        → HasPublished world receipt.now.history receipt.now.versions
        → HasPublished world reader.history reader.versions }
{
    reader.compare(receipt);
    reader.learn(receipt)
}
