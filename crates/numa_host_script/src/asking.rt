//! What a process answers: questions by a plan that is made of its space, and `maps` by the space.
ghost use Rattle.std.specs.Prelude.{◌≡◌, ℕ, [], Bool, IsSomeAnd, List, MatchOption, None, Option};
ghost use Rattle.std.specs.Prelude.{false};
ghost use Rattle.numa_lines.specs.Written.{Said};
ghost use Rattle.numa_run.specs.Judged.{question_cause};
ghost use Rattle.numa_run.specs.Questions.{question_text};
ghost use Rattle.numa_run.specs.Listings.{both_listing};
ghost use Rattle.numa_huge.specs.Huge.{huge_at};
ghost use Rattle.numa_huge.specs.Moves.{HugeMemory};
ghost use Rattle.numa_page_state.specs.Lying.{Process};
ghost use Rattle.numa_page_state.specs.Outcomes.{Lack, is_starved};
ghost use Rattle.numa_page_state.specs.Standing.{LieThere};
ghost use Rattle.numa_placed.specs.declared.spot.Spot.{Spot};
ghost use Rattle.numa_placed.specs.declared.spot.Spot.TheVariants.{Nowhere};
ghost use Rattle.numa_space.specs.Standing.{StandsFor};
ghost use Rattle.numa_requests.specs.declared.command.Command.{Command};

use numa_compile::compile;
use numa_huge::HugePages;
use numa_lines::Watched;
use numa_maps::Resident;
use numa_page_state::PageState;
use numa_requests::CoreRefusal;
use numa_run::judging::{cause_at, refusal_by_plan};
use numa_run::listing::{say_each, say_there};
use numa_run::questions::say_by_plan;
use numa_script::Question;
use numa_script::tell::{say_ranges, say_starved};
use numa_space::Space;
use std::alloc::Global;
use std::io::Write;

/// Answers a question about a space. Returns whether memory ran out; then the answer says so.
pub fn ask<W: Write>(
    alloc: Global,
    space: &Space,
    question: Question,
    output: &mut Watched<W>,
) -> bool
    ensures answer { (history : List Command) → StandsFor space.now history
        → Said W.contents output.old output.new
        (question_text result space.now.machine history question) }
    ensures ranges { question ≡ Question.Ranges → result ≡ false }
{
    if let Question::Ranges = question {
        say_ranges(output, space.ranges() as u64);
        return false;
    }
    let Ok(plan) = compile(alloc, space) else {
        say_starved(output);
        return true;
    };
    let starved = say_by_plan(alloc, &plan, question, output);
    drop(plan);
    starved
}

/// Lists the ranges of a space, with their policies for a task and the pages that lie there.
pub fn list<W: Write>(
    alloc: Global,
    space: &Space,
    task: u32,
    pages: Option<&PageState>,
    huge: Option<&HugePages>,
    output: &mut Watched<W>,
)
    ensures { (spots : ℕ → Spot) (memory : Option HugeMemory) (history : List Command)
        (process : Process)
        → StandsFor space.now history → process.machine ≡ space.now.machine
        → process.history ≡ history → process.kept ≡ []
        → MatchOption pages.entry ((page : ℕ) → spots page ≡ Nowhere)
        (λ kept. LieThere kept.now spots) → MatchOption huge.entry (memory ≡ None)
        (λ kept. IsSomeAnd memory (λ memory. huge_at kept.now.places.runs ≡ memory.pages.spots))
        → Said W.contents output.old output.new (both_listing process spots memory task) }
{
    // Tells the proof that the ranges are in ascending order and maximal.
    let _ = space.range_iter();
    let resident = Resident::new(alloc);
    match huge {
        Some(kept) => say_each(space, task, &resident, pages, &kept.places, output),
        None => say_there(space, task, &resident, pages, output),
    }
}

/// The first cause that refuses a question about a space.
pub fn question_cause(alloc: Global, space: &Space, question: Question) -> Option<CoreRefusal>
    ensures { (history : List Command) → StandsFor space.now history → (lacked : Lack)
        × (result ≡ question_cause (is_starved lacked) space.now.machine history question) }
{
    if let Question::Ranges = question {
        return None;
    }
    let Ok(plan) = compile(alloc, space) else {
        return Some(CoreRefusal::NoMemory);
    };
    let refusal = refusal_by_plan(&plan, question);
    drop(plan);
    match refusal {
        None => None,
        Some(why) => Some(cause_at(space.version(), why)),
    }
}
