//! Predictions as texts: of one space, or of several processes, which share the free pages.
ghost use Rattle.std.specs.Prelude.{◌≡◌, ◌≢◌, ◌≤◌, ◌<◌, [], Err};
ghost use Rattle.numa_machine.specs.declared.refusal.PlaceRefusal.TheVariants.{BadCpu};
ghost use Rattle.numa_reports.specs.declared.fault.ReportError.TheVariants.{Refused};
ghost use Rattle.numa_reports.specs.Failing.{FailsForNode};
ghost use Rattle.numa_reports.specs.Lying.{LeavesFree};

use crate::account::Account;
use crate::fault::ReportError;
use crate::filling::fill_ranges;
use crate::prediction::predict_ranges;
use crate::request::PredictionRequest;
use crate::sheet::parts::{PredictionWriter, WatchedWriter, begin, left_on, sum_of};
use crate::touch::has_node;
use numa_machine::PlaceRefusal;
use numa_plan::Plan;
use numa_sheets::{Format, FreePages, Touch, Watch};
use numa_space::Space;
use std::alloc::Global;

/// Writes each range, whose pages take free ones.
fn write_filled<W: Watch>(
    parts: &mut PredictionWriter,
    asked: PredictionRequest<'_>,
    free: &mut [u64; 256],
    watch: &mut W,
) -> Result<(), ReportError>
    requires known { asked.touch.cpu < asked.space.now.machine.nodes }
    ensures err { FailsForNode asked.entry.space.now asked.entry.plan.now
        asked.entry.touch.cpu result }
    ensures free { LeavesFree asked.entry free.old free.new result }
{
    watch.begin(sum_of(asked.space));
    let mut watched = WatchedWriter { parts, watch };
    fill_ranges(asked, free, &mut watched)?;
    watch.end();
    Ok(())
}

/// Writes each range and the total, where nodes never run out.
fn write_first(
    parts: &mut PredictionWriter,
    asked: PredictionRequest<'_>,
    account: &mut Account,
) -> Result<(), ReportError>
    requires known { asked.touch.cpu < asked.space.now.machine.nodes }
    ensures err { FailsForNode asked.entry.space.now asked.entry.plan.now
        asked.entry.touch.cpu result }
{
    let counts = predict_ranges(asked, parts)?;
    parts.put_total(&counts, &[]);
    account.count(&counts, parts.pages());
    Ok(())
}

/// Writes each range and the total; if nodes are named, the pages take free ones of the account,
/// and what nodes of `told` have left is told.
fn write_by<W: Watch>(
    parts: &mut PredictionWriter,
    asked: PredictionRequest<'_>,
    told: &[FreePages],
    account: &mut Account,
    watch: &mut W,
) -> Result<(), ReportError>
    requires known { asked.touch.cpu < asked.space.now.machine.nodes }
    ensures free { asked.entry.free.now ≢ []
        → LeavesFree asked.entry account.old.free account.new.free result }
    ensures err { FailsForNode asked.entry.space.now asked.entry.plan.now
        asked.entry.touch.cpu result }
{
    if asked.free.is_empty() {
        return write_first(parts, asked, account);
    }
    write_filled(parts, asked, &mut account.free, watch)?;
    let left = left_on(parts.alloc(), told, &account.free)?;
    let counts = parts.sum();
    parts.put_total(&counts, &left);
    account.count(&counts, parts.pages());
    Ok(())
}

/// The free pages of an account, if nodes are named in it, so that they are counted.
fn free_in(account: &Account, named: &[FreePages]) -> Option<[u64; 256]> {
    if named.is_empty() {
        return None;
    }
    Some(account.free)
}

/// The text of one of several predictions. If nodes are named, its pages take those that the ones
/// before have left in the account. The text has what nodes of `told` have left then.
///
/// # Errors
/// As [`lying_text`].
pub fn shared_text<W: Watch>(
    alloc: Global,
    asked: PredictionRequest<'_>,
    format: Format,
    told: &[FreePages],
    account: &mut Account,
    watch: &mut W,
) -> Result<Vec<u8>, ReportError>
    ensures free { asked.entry.free.now ≢ []
        → LeavesFree asked.entry account.old.free account.new.free result }
    ensures err { FailsForNode asked.entry.space.now asked.entry.plan.now
        asked.entry.touch.cpu result }
    ensures bad_cpu { asked.entry.space.now.machine.nodes ≤ asked.entry.touch.cpu
        → result ≡ Err (Refused BadCpu) }
{
    if !has_node(asked.space, asked.touch.cpu) {
        return Err(ReportError::Refused(PlaceRefusal::BadCpu));
    }
    let mut parts = begin(alloc, asked, format, free_in(account, asked.free))?;
    let written = write_by(&mut parts, asked, told, account, watch);
    if let Err(fault) = written {
        drop(parts);
        return Err(fault);
    }
    let text = parts.take_text();
    drop(parts);
    Ok(text?)
}

/// Where all mapped pages would lie, if the task touched each of them now on a CPU of node `cpu`,
/// in ascending order, and named nodes had these free pages; others never run out. Pages that are
/// there stay where they lie, and take none. The text has the number of pages that find no free
/// page (`exhausted`), and the free pages left on named nodes. The time depends on the number of
/// ranges and of runs of pages that are there and, if nodes are named, on the cycles of their
/// policies, and is then watched.
///
/// # Errors
/// `Refused(BadCpu)`: the machine has no node `cpu`. `Refused(Unmapped)`: the plan isn't one of the
/// space. `Memory`: there is no memory for the text.
pub fn lying_text<W: Watch>(
    alloc: Global,
    asked: PredictionRequest<'_>,
    format: Format,
    watch: &mut W,
) -> Result<Vec<u8>, ReportError>
    ensures err { FailsForNode asked.entry.space.now asked.entry.plan.now
        asked.entry.touch.cpu result }
    ensures bad_cpu { asked.entry.space.now.machine.nodes ≤ asked.entry.touch.cpu
        → result ≡ Err (Refused BadCpu) }
{
    let mut account = Account::new(asked.free);
    shared_text(alloc, asked, format, asked.free, &mut account, watch)
}

/// Where all mapped pages would go, if the task touched each of them now on a CPU of node `cpu`, as
/// [`lying_text`] where no page is there and no node is named. The time depends on the number of
/// ranges, not of pages.
///
/// # Errors
/// As [`lying_text`].
pub fn prediction_text(
    alloc: Global,
    space: &Space,
    plan: &Plan,
    task: u32,
    cpu: u32,
    format: Format,
) -> Result<Vec<u8>, ReportError>
    ensures err { FailsForNode space.now plan.now cpu result }
    ensures bad_cpu { space.now.machine.nodes ≤ cpu → result ≡ Err (Refused BadCpu) }
{
    let asked = PredictionRequest::of(space, plan, Touch { task, cpu });
    lying_text(alloc, asked, format, &mut ())
}
