//! Predictions of all processes of a host, by process and in all.
ghost use Rattle.std.specs.Prelude.{◌≡◌, ◌≢◌, ◌^◌, [], List, OnOk};
ghost use Rattle.numa_space.specs.Standing.{StandsFor};
ghost use Rattle.numa_requests.specs.declared.command.Command.{Command};
ghost use Rattle.numa_reports.specs.Filled.{free_behind, nodes_of};
ghost use Rattle.numa_reports.specs.Lying.{absent_nodes, spots_in};

use numa_answers::{add_answer, reported, shared_answer, shown_as};
use numa_compile::compile;
use numa_host::{Host, Process};
use numa_lines::RunFault;
use numa_placed::Placed;
use numa_reports::{Account, ByProcess, PredictionRequest};
use numa_sheets::{Format, FreePages, Touch, Watch};
use numa_space::Space;
use numa_subjects::{Halt, nodes_with};
use std::alloc::Global;

/// A prediction that is asked for, of a space or of each process.
#[derive(Clone, Copy)]
pub struct EachAsked<'a> {
    /// How pages are touched.
    pub touch: Touch,
    pub format: Format,
    /// How many free pages nodes have.
    pub free: &'a [FreePages],
    /// Where pages lie that are there, by process; nothing if none is there.
    pub there: &'a [Placed],
    /// The same, and where the parts of pages of 2 MiB lie once pools gave them, which take no free
    /// page; nothing if there are none.
    pub beside: &'a [Placed],
}

impl EachAsked<'_> {
    /// Where pages lie that take no free page, in this space or process.
    pub(crate) fn lying(&self, place: usize) -> Option<&Placed> {
        match self.beside.get(place) {
            Some(placed) => Some(placed),
            None => self.there.get(place),
        }
    }
}

/// Where the pages of a space would go, by what the ones before it have left in the account. With
/// `tells_left` the text has what named nodes have left then.
pub(crate) fn predict_from<'a, P: Watch>(
    alloc: Global,
    space: &'a Space,
    placed: Option<&'a Placed>,
    asked: EachAsked<'a>,
    tells_left: bool,
    account: &mut Account,
    watch: &mut P,
) -> Result<Vec<u8>, Halt>
    ensures { (history : List Command) → StandsFor space.now history → asked.entry.free.now ≢ []
        → OnOk result (account.new.free ≡ free_behind (absent_nodes (spots_in placed.entry)
        (nodes_of space.now.machine history asked.entry.touch.task asked.entry.touch.cpu))
        account.old.free 0 (2 ^ 35)) }
{
    let Ok(plan) = compile(alloc, space) else {
        return Err(Halt::Stopped(RunFault::Memory));
    };
    let request = PredictionRequest {
        space,
        plan: &plan,
        placed,
        touch: asked.touch,
        free: asked.free,
    };
    let text = shared_answer(alloc, request, asked.format, tells_left, account, watch);
    drop(plan);
    reported(text, space.machine().nodes())
}

/// Adds where the pages of a process would go.
fn predict_one<P: Watch>(
    alloc: Global,
    process: &Process,
    placed: Option<&Placed>,
    asked: EachAsked<'_>,
    account: &mut Account,
    answers: &mut ByProcess,
    watch: &mut P,
) -> Result<(), Halt>
    ensures { (history : List Command) → StandsFor process.now.space history
        → asked.entry.free.now ≢ [] → OnOk result (account.new.free
        ≡ free_behind (absent_nodes (spots_in placed.entry) (nodes_of
        process.now.space.machine history asked.entry.touch.task asked.entry.touch.cpu))
        account.old.free 0 (2 ^ 35)) }
{
    let text = predict_from(alloc, &process.space, placed, asked, false, account, watch);
    add_answer(answers, process, text)
}

/// Adds where the pages of processes would go, one process after the other: the pages of each take
/// what those before it have left.
fn predict_all<P: Watch>(
    alloc: Global,
    processes: &[Process],
    asked: EachAsked<'_>,
    account: &mut Account,
    answers: &mut ByProcess,
    watch: &mut P,
) -> Result<(), Halt> {
    let mut place = 0usize;
    for process in processes {
        let placed = asked.lying(place);
        predict_one(alloc, process, placed, asked, account, answers, watch)?;
        place = place.saturating_add(1);
    }
    Ok(())
}

/// Ends predictions with what all processes have together.
fn ended(
    alloc: Global,
    answers: &mut ByProcess,
    account: &Account,
    asked: EachAsked<'_>,
    nodes: u32,
) -> Result<Vec<u8>, Halt> {
    answers.end_placed(account, asked.free, nodes)?;
    let text = answers.take()?;
    shown_as(alloc, asked.format, "prediction", text)
}

/// Where the pages of all processes would go, if each were touched now: of one process after the
/// other, in the order in which they were made, and of all. There is one account of the free pages:
/// the pages of a process take what those before it have left.
///
/// # Errors
/// `NoNode`, or `Stopped`: out of memory.
pub(crate) fn predict_each<P: Watch>(
    alloc: Global,
    host: &Host,
    asked: EachAsked<'_>,
    watch: &mut P,
) -> Result<Vec<u8>, Halt> {
    let nodes = nodes_with(host.machine().nodes(), asked.touch.cpu)?;
    let mut account = Account::new(asked.free);
    let mut answers = ByProcess::of_touch(alloc, asked.format, asked.touch);
    let processes = host.processes();
    let done = predict_all(alloc, processes, asked, &mut account, &mut answers, watch);
    let text = match done {
        Ok(()) => ended(alloc, &mut answers, &account, asked, nodes),
        Err(halt) => Err(halt),
    };
    drop(answers);
    text
}
