//! Judging questions without answering them.
ghost use Rattle.std.specs.Prelude.{◌≡◌, List};
ghost use Rattle.numa_compile.specs.Standing.{PlanStandsFor};
ghost use Rattle.numa_machine.specs.Machine.{Hardware};
ghost use Rattle.numa_requests.specs.declared.command.Command.{Command};
ghost use Rattle.numa_run.specs.Judged.{cause_at, question_refusal};
ghost use Rattle.numa_run.specs.Questions.{span_refusal_of};

use numa_machine::PlaceRefusal;
use numa_plan::Plan;
use numa_requests::{CoreRefusal, PAGE_BYTES};
use numa_script::Question;

/// The first cause that refuses a question about a span of pages.
fn span_refusal(plan: &Plan, task: u32, first: u64, pages: u64, cpu: u32) -> Option<PlaceRefusal>
    ensures { (machine : Hardware) (history : List Command) → PlanStandsFor machine plan.now history
        → result ≡ span_refusal_of machine history first pages cpu }
{
    match plan.counts(task, first, pages, cpu) {
        Ok(_) => None,
        Err(refusal) => Some(refusal),
    }
}

/// The first cause that refuses a question about pages.
pub fn refusal_by_plan(plan: &Plan, question: Question) -> Option<PlaceRefusal>
    ensures { (machine : Hardware) (history : List Command) → PlanStandsFor machine plan.now history
        → result ≡ question_refusal machine history question }
{
    match question {
        Question::Place { task, address, cpu } => {
            match plan.fallback_list(task, address / PAGE_BYTES, cpu) {
                Ok(_) => None,
                Err(refusal) => Some(refusal),
            }
        }
        Question::Span {
            task,
            address,
            pages,
            cpu,
        } => span_refusal(plan, task, address / PAGE_BYTES, u64::from(pages), cpu),
        Question::Counts {
            task,
            address,
            pages,
            cpu,
        } => span_refusal(plan, task, address / PAGE_BYTES, pages, cpu),
        Question::Ranges => None,
    }
}

/// A refusal by a plan of this version, as a cause of a script.
pub fn cause_at(version: u64, refusal: PlaceRefusal) -> CoreRefusal
    ensures { result ≡ cause_at version refusal }
{
    match refusal {
        PlaceRefusal::BadCpu => CoreRefusal::BadCpu,
        PlaceRefusal::Unmapped => CoreRefusal::Unmapped(version),
    }
}
