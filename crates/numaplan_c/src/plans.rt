//! Plans.
ghost use Rattle.std.specs.Prelude.{◌≡◌, ◌≢◌, Some, None, IfSome, is_some, true, Result, Ok, Err};
ghost use Rattle.std.specs.Prelude.{ℕ, IfOk, MatchOption};
ghost use Rattle.numa_plan.specs.Meaning.{PlanData};
ghost use Rattle.numaplan_c.specs.Border.{AnswersKeeping, Gives, IsPlanBy, Makes, Opens};
ghost use Rattle.numaplan_c.specs.Border.{Read, ReadInto, is_done};
ghost use Rattle.numaplan_handles.specs.Handles.{core_in, plan_in, plan_seen};
ghost use Rattle.numaplan_handles.specs.Steps.{Compiles, Publishes};
ghost use Rattle.numaplan_handles.specs.Plans.{Chooses, Counts, Fills, FillsMarked};
ghost use Rattle.numaplan_handles.specs.Plans.{ListsTurns, Marks};
ghost use Rattle.numaplan_handles.specs.declared.plan_view.ChoiceRefusal.{ChoiceRefusal};
ghost use Rattle.numa_machine.specs.declared.refusal.PlaceRefusal.{PlaceRefusal};
ghost use Rattle.numaplan_c.specs.Codes.{place_code};
ghost use Rattle.numaplan_c.specs.Texts.{copy_code, length_copied};
ghost use Rattle.numaplan_c.specs.Questions.{choice_code, fill_code, AreTold};

use crate::codes::{Code, place_code};
use crate::keeping::{ensure_closed, if_open, memory_code, open_from, tell_if_open};
use crate::texts::{copy_code, length_copied};
use numa_machine::{NoMemory, PlaceRefusal};
use numa_page_state::Toucher;
use numa_plan::{PageTurns, Plan};
use numa_requests::Request;
use numaplan_handles::{ChoiceRefusal, CoreHandle, PageSpan, PlanHandle, PlanView};
use std::alloc::Global;

/// The commands of a core for which a plan is made.
#[derive(Clone, Copy)]
pub enum Commands {
    /// All accepted commands.
    Accepted,
    /// The published commands.
    Published,
}

/// The plan of these commands of a core.
fn plan_by(
    alloc: Global,
    core: &mut CoreHandle,
    commands: Commands,
) -> Option<Result<Plan, NoMemory>>
    ensures same { core_in core.new ≡ core_in core.old }
    ensures closed { core_in core.old ≡ None → result ≡ None }
    ensures made { MatchOption result (core_in core.old ≡ None)
        (λ answer. IfOk answer (IsPlanBy commands (core_in core.old))) }
{
    match commands {
        Commands::Accepted => core.compile(alloc),
        Commands::Published => core.published_plan(alloc),
    }
}

/// Opens a handle with a plan that was made, if there is one.
fn keep(alloc: Global, made: Option<Result<Plan, NoMemory>>, plan: &mut PlanHandle) -> u32
    requires closed { plan_in plan.old ≡ None }
    ensures opens { Opens (plan_in plan.old) result (plan_in plan.new) }
    ensures kept { IfSome (plan_in plan.new) (λ kept. made ≡ Some (Ok kept)) }
    ensures closed { made ≡ None → result ≡ 1 }
    ensures done { is_some made ≡ true → is_done result ≡ true }
{
    match made {
        None => Code::Closed as u32,
        Some(Err(_)) => Code::NoMemory as u32,
        Some(Ok(made)) => memory_code(plan.open(alloc, made)),
    }
}

/// Opens a handle, if it is closed, with the plan of these commands of a core.
fn keep_plan(alloc: Global, core: &mut CoreHandle, commands: Commands, plan: &mut PlanHandle) -> u32
    ensures same { core_in core.new ≡ core_in core.old }
    ensures opens { Opens (plan_in plan.old) result (plan_in plan.new) }
    ensures code { AnswersKeeping (core_in core.old) (plan_in plan.old) result }
    ensures made { plan_in plan.old ≡ None →
        IfSome (plan_in plan.new) (IsPlanBy commands (core_in core.old)) }
{
    ensure_closed!(plan);
    let made = plan_by(alloc, core, commands);
    keep(alloc, made, plan)
}

/// Opens a handle with the plan of the published commands of a core.
#[unsafe(no_mangle)]
pub extern "C" fn np_core_plan(alloc: Global, core: &mut CoreHandle, plan: &mut PlanHandle) -> u32
    ensures published { Makes Publishes (core_in core.old) (plan_in plan.old) result
        (plan_in plan.new) }
    ensures same { core_in core.new ≡ core_in core.old }
{
    keep_plan(alloc, core, Commands::Published, plan)
}

/// Opens a handle with the plan of all accepted commands of a core.
#[unsafe(no_mangle)]
pub extern "C" fn np_core_compile(
    alloc: Global,
    core: &mut CoreHandle,
    plan: &mut PlanHandle,
) -> u32
    ensures compiled { Makes Compiles (core_in core.old) (plan_in plan.old) result
        (plan_in plan.new) }
    ensures same { core_in core.new ≡ core_in core.old }
{
    keep_plan(alloc, core, Commands::Accepted, plan)
}

/// Opens another handle of the same plan.
#[unsafe(no_mangle)]
pub extern "C" fn np_plan_share(alloc: Global, plan: &PlanView, other: &mut PlanHandle) -> u32
    ensures { Gives (plan_seen plan.now) (plan_in other.old) result (plan_in other.new) }
{
    open_from!(other, plan.share(alloc, other))
}

/// Returns the version of a plan.
#[unsafe(no_mangle)]
pub extern "C" fn np_plan_version(plan: &PlanView, version: &mut u64) -> u32
    ensures { Read (plan_seen plan.now) result (version.new ≡ version.old)
        (λ kept. (result ≡ 0) × (version.new ≡ kept.version)) }
{
    tell_if_open!(version, plan.version())
}

/// The code of the result of a question for a list.
fn choice_code(answer: Result<usize, ChoiceRefusal>) -> u32
    ensures { result ≡ choice_code answer }
{
    match answer {
        Ok(_) => 0,
        Err(ChoiceRefusal::TooShort(_)) => Code::NoRoom as u32,
        Err(ChoiceRefusal::Place(refusal)) => place_code(refusal),
    }
}

/// The number of nodes of a list, if there is one.
fn told(answer: Result<usize, ChoiceRefusal>, count: usize) -> usize
    ensures { AreTold answer count result }
{
    match answer {
        Ok(found) => found,
        Err(ChoiceRefusal::TooShort(found)) => found,
        Err(ChoiceRefusal::Place(_)) => count,
    }
}

/// Writes the number of nodes of a list, if there is one, and returns the code of the result.
pub(crate) fn tell_choice(answer: Result<usize, ChoiceRefusal>, count: &mut usize) -> u32
    ensures { (result ≡ choice_code answer) × AreTold answer count.old count.new }
{
    *count = told(answer, *count);
    choice_code(answer)
}

/// Copies the fallback list of a page.
#[unsafe(no_mangle)]
pub extern "C" fn np_plan_choice(
    plan: &PlanView,
    task: u32,
    page: u64,
    cpu: u32,
    nodes: &mut [u8],
    count: &mut usize,
) -> u32
    ensures { ReadInto (plan_seen plan.now) result nodes.old nodes.new count.old count.new (λ kept.
        (answer : Result ℕ ChoiceRefusal) × (result ≡ choice_code answer)
        × Chooses (plan_seen plan.now) task page cpu answer nodes.old nodes.new
        × AreTold answer count.old count.new) }
{
    let asked = Request { task, page, cpu };
    if_open!(plan.choose(asked, nodes), answer => tell_choice(answer, count))
}

/// The code of the result of a question about a span.
pub(crate) fn fill_code(answer: Result<(), PlaceRefusal>) -> u32
    ensures { result ≡ fill_code answer }
{
    match answer {
        Ok(()) => 0,
        Err(refusal) => place_code(refusal),
    }
}

/// Writes the first node of each page's list.
#[unsafe(no_mangle)]
pub extern "C" fn np_plan_fill(
    plan: &PlanView,
    task: u32,
    cpu: u32,
    first: u64,
    nodes: &mut [u8],
) -> u32
    ensures { Read (plan_seen plan.now) result (nodes.new ≡ nodes.old)
        (λ kept. (answer : Result (Unit {0}) PlaceRefusal) × (result ≡ fill_code answer)
        × Fills (plan_seen plan.now) task first cpu answer nodes.old nodes.new) }
{
    if_open!(plan.fill(Toucher { task, cpu }, first, nodes), answer => fill_code(answer))
}

/// Writes the first node of each page's list for a span, or a mark.
#[unsafe(no_mangle)]
pub extern "C" fn np_plan_fill_marked(
    plan: &PlanView,
    task: u32,
    cpu: u32,
    first: u64,
    nodes: &mut [u8],
    unmapped: u8,
) -> u32
    ensures { Read (plan_seen plan.now) result (nodes.new ≡ nodes.old)
        (λ kept. (answer : Result (Unit {0}) PlaceRefusal) × (result ≡ fill_code answer)
        × FillsMarked (plan_seen plan.now) task first cpu unmapped answer nodes.old nodes.new) }
{
    if_open!(plan.fill_marked(Toucher { task, cpu }, first, unmapped, nodes), answer => {
        fill_code(answer)
    })
}

/// Writes the first node of the list of each of some pages, or a mark.
#[unsafe(no_mangle)]
pub extern "C" fn np_plan_nodes(
    plan: &PlanView,
    task: u32,
    cpu: u32,
    pages: &[u64],
    nodes: &mut [u8],
    unmapped: u8,
) -> u32
    ensures { Read (plan_seen plan.now) result (nodes.new ≡ nodes.old)
        (λ kept. (answer : Result ℕ ChoiceRefusal) × (result ≡ choice_code answer)
        × Marks (plan_seen plan.now) task pages.now cpu unmapped answer nodes.old nodes.new) }
{
    if_open!(plan.nodes_of(Toucher { task, cpu }, pages, unmapped, nodes), answer => {
        choice_code(answer)
    })
}

/// Lists the runs of a plan, and after how many of its pages the lists of each come again.
#[unsafe(no_mangle)]
pub extern "C" fn np_plan_runs(
    plan: &PlanView,
    task: u32,
    room: &mut [PageTurns],
    count: &mut usize,
) -> u32
    ensures { ReadInto (plan_seen plan.now) result room.old room.new count.old count.new (λ kept.
        (told : Result ℕ ℕ) × (result ≡ copy_code told) × (count.new ≡ length_copied told)
        × ListsTurns (plan_seen plan.now) task told room.old room.new) }
{
    if_open!(plan.runs(task, room), told => {
        *count = length_copied(told);
        copy_code(told)
    })
}

/// Counts, for each node, the pages of a span whose list begins with it.
#[unsafe(no_mangle)]
pub extern "C" fn np_plan_counts(
    plan: &PlanView,
    task: u32,
    cpu: u32,
    first: u64,
    pages: u64,
    counts: &mut NpCounts,
) -> u32
    ensures closed { plan_seen plan.now ≡ None → (result ≡ 1) × (counts.new ≡ counts.old) }
    ensures ok { result ≡ 0 → (kept : PlanData) → plan_seen plan.now ≡ Some kept →
        Counts (plan_seen plan.now) task first pages cpu (Ok counts.new.pages) }
    ensures err { result ≢ 0 → counts.new ≡ counts.old }
    ensures refused { result ≢ 0 → (kept : PlanData) → plan_seen plan.now ≡ Some kept →
        (cause : PlaceRefusal) × (result ≡ place_code cause)
        × Counts (plan_seen plan.now) task first pages cpu (Err cause) }
{
    match plan.counts(Toucher { task, cpu }, PageSpan { first, pages }) {
        None => Code::Closed as u32,
        Some(Ok(found)) => {
            counts.pages = found;
            0
        }
        Some(Err(refusal)) => place_code(refusal),
    }
}

/// Closes a handle of a plan; the plan is freed with its last handle.
#[unsafe(no_mangle)]
pub extern "C" fn np_plan_close(alloc: Global, plan: &mut PlanHandle)
    ensures { plan_in plan.new ≡ None }
{
    plan.handle.close(alloc)
}

/// For each node that there can be, the number of pages whose list begins with it.
#[repr(C)]
#[derive(Clone, Copy)]
pub struct NpCounts {
    pub pages: [u64; 256],
}

const _: () = prove!(size_of::<NpCounts>() == 2048);
