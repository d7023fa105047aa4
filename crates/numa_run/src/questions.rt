//! Answering questions about pages by a plan, or by the space.
ghost use Rattle.std.specs.Prelude.{◌≡◌, ℕ, List, length};
ghost use Rattle.numa_compile.specs.Standing.{PlanStandsFor};
ghost use Rattle.numa_machine.specs.Machine.{Hardware};
ghost use Rattle.numa_space.specs.History.{page_of};
ghost use Rattle.numa_space.specs.Standing.{StandsFor};
ghost use Rattle.numa_requests.specs.declared.command.Command.{Command};
ghost use Rattle.numa_lines.specs.Written.{Said};
ghost use Rattle.numa_run.specs.Questions.{count_text, place_text, question_text, span_text};
ghost use Rattle.numa_run.specs.Questions.{unless_starved};

use numa_lines::Watched;
use numa_plan::Plan;
use numa_requests::{PAGE_BYTES, Request};
use numa_script::Question;
use numa_script::tell::{say_counts, say_nodes, say_place_refusal, say_starved};
use numa_space::Space;
use std::alloc::Global;
use std::io::Write;

/// The fault of a task on the page of an address.
pub fn fault_at(task: u32, address: u64, cpu: u32) -> Request
    ensures { result ≡ record { task = task; page = page_of address; cpu = cpu } }
{
    let page = address / PAGE_BYTES;
    Request { task, page, cpu }
}

/// `place TASK ADDR CPU`: writes the fallback list for a fault.
pub fn say_place<W: Write>(plan: &Plan, fault: Request, output: &mut Watched<W>)
    ensures { (machine : Hardware) (history : List Command) → PlanStandsFor machine plan.now history
        → Said W.contents output.old output.new
        (place_text machine history fault.task fault.page fault.cpu) }
{
    match plan.fallback_list(fault.task, fault.page, fault.cpu) {
        Ok(nodes) => say_nodes(output, plan.version(), nodes),
        Err(refusal) => say_place_refusal(output, refusal),
    }
}

/// The same, by the space in place of its plan.
pub fn say_place_in<W: Write>(space: &Space, fault: Request, output: &mut Watched<W>)
    ensures { (history : List Command) → StandsFor space.now history
        → Said W.contents output.old output.new
        (place_text space.now.machine history fault.task fault.page fault.cpu) }
{
    match space.list_at(fault.task, fault.page, fault.cpu) {
        Ok(nodes) => say_nodes(output, space.version(), &nodes),
        Err(refusal) => say_place_refusal(output, refusal),
    }
}

/// Writes the first node of each page's list, for the pages from that of the first fault on, as
/// many as `nodes` has places.
fn say_firsts<W: Write>(plan: &Plan, first: Request, nodes: &mut [u8], output: &mut Watched<W>)
    ensures { (machine : Hardware) (history : List Command) → PlanStandsFor machine plan.now history
        → Said W.contents output.old output.new
        (span_text machine history first.task first.page (length nodes.old) first.cpu) }
{
    match plan.fill(first.task, first.page, first.cpu, nodes) {
        Ok(()) => say_nodes(output, plan.version(), nodes),
        Err(refusal) => say_place_refusal(output, refusal),
    }
}

/// `span TASK ADDR PAGES CPU`: writes the first node of each page's list, for PAGES pages from that
/// of the first fault on. Returns whether memory ran out; then the answer says so.
pub fn say_span<W: Write>(
    alloc: Global,
    plan: &Plan,
    first: Request,
    pages: u32,
    output: &mut Watched<W>,
) -> bool
    ensures { (machine : Hardware) (history : List Command) → PlanStandsFor machine plan.now history
        → Said W.contents output.old output.new
        (unless_starved result (span_text machine history first.task first.page pages first.cpu)) }
{
    let Ok(mut nodes) = vec![in alloc; 0u8; pages as usize] else {
        say_starved(output);
        return true;
    };
    say_firsts(plan, first, nodes.as_mut_slice(), output);
    false
}

/// `counts TASK ADDR PAGES CPU`: writes the number of pages that each node would get, of PAGES
/// pages from that of the first fault on.
pub fn say_pages<W: Write>(plan: &Plan, first: Request, pages: u64, output: &mut Watched<W>)
    ensures { (machine : Hardware) (history : List Command) → PlanStandsFor machine plan.now history
        → Said W.contents output.old output.new
        (count_text machine history first.task first.page pages first.cpu) }
{
    match plan.counts(first.task, first.page, pages, first.cpu) {
        Ok(counts) => say_counts(output, plan.version(), &counts),
        Err(refusal) => say_place_refusal(output, refusal),
    }
}

/// Answers a question about pages by a plan. Returns whether memory ran out; then the answer says
/// so.
#[inline(always)]
pub fn say_by_plan<W: Write>(
    alloc: Global,
    plan: &Plan,
    question: Question,
    output: &mut Watched<W>,
) -> bool
    requires { question ≡ Question.Ranges → ⊥ }
    ensures { (machine : Hardware) (history : List Command) → PlanStandsFor machine plan.now history
        → Said W.contents output.old output.new (question_text result machine history question) }
{
    match question {
        Question::Place { task, address, cpu } => {
            say_place(plan, fault_at(task, address, cpu), output);
            false
        }
        Question::Span {
            task,
            address,
            pages,
            cpu,
        } => say_span(alloc, plan, fault_at(task, address, cpu), pages, output),
        Question::Counts {
            task,
            address,
            pages,
            cpu,
        } => {
            say_pages(plan, fault_at(task, address, cpu), pages, output);
            false
        }
        Question::Ranges => unreachable!(),
    }
}
