//! Plans that are edited after each command that a space accepts, and copies of them that are
//! edited alike, beside plans that are compiled anew. With memory at hand no edit is refused.
ghost use Rattle.std.specs.Prelude.{◌≡◌};
ghost use Rattle.std.specs.Bool.{OnFalse, OnTrue};
ghost use Rattle.numa_compile.specs.Follows.{Follows, LacksChange};

use crate::tests::alike::expect_alike;
use crate::tests::dice::{ACCEPTED, COMMANDS, Dice, SEEDS, rough_space};
use numa_compile::{compile, recompile};
use numa_examples::mark;
use numa_plan::{Plan, Steps};
use numa_requests::Command;
use numa_space::{Change, Space};
use std::alloc::Global;
use std::process::Abort;

/// The plan answers as one that is compiled again.
fn expect_compiled(rt: &impl Abort, alloc: Global, plan: &Plan, space: &Space) {
    let fresh = compile(alloc, space).expect(rt, "a plan");
    expect_alike(rt, plan, &fresh);
    drop(fresh);
}

/// Edits a plan between two marks; whether there was memory.
fn is_edited(
    rt: &impl Abort,
    alloc: Global,
    plan: &mut Plan,
    space: &Space,
    change: &Change,
) -> bool
    requires { LacksChange space.now change.now plan.old }
    ensures refused { OnFalse result (plan.new ≡ plan.old) }
    ensures edited { OnTrue result (Follows space.now plan.new) }
{
    assert!(rt; mark(alloc));
    let answer = recompile(alloc, plan, space, change, &mut Steps::new());
    assert!(rt; mark(alloc));
    answer.is_ok()
}

/// Edits a plan by the last change of its space, beside a copy. Where there was no memory, the
/// plan is as its copy, and is edited once more.
fn edit(
    rt: &impl Abort,
    alloc: Global,
    plan: &mut Plan,
    copy: &Plan,
    space: &Space,
    change: &Change,
)
    requires { LacksChange space.now change.now plan.old }
    ensures { Follows space.now plan.new }
{
    if is_edited(rt, alloc, plan, space, change) {
        return;
    }
    expect_alike(rt, plan, copy);
    recompile(alloc, plan, space, change, &mut Steps::new()).expect(rt, "memory");
}

/// Edits a copy of a plan by the last change of its space, as the plan was: then it answers as one
/// that is compiled anew.
fn edit_copy(rt: &impl Abort, alloc: Global, copy: &mut Plan, space: &Space, change: &Change)
    requires { LacksChange space.now change.now copy.old }
{
    recompile(alloc, copy, space, change, &mut Steps::new()).expect(rt, "memory");
    expect_compiled(rt, alloc, copy, space);
}

/// Carries out a command, or refuses it, and has the plan follow, which is as its copy, and then
/// the copy. Whether it was accepted.
fn follow_beside(
    rt: &impl Abort,
    alloc: Global,
    space: &mut Space,
    plan: &mut Plan,
    copy: &mut Plan,
    command: &Command,
) -> bool
    requires follows { Follows space.old plan.old }
    requires same { copy.old ≡ plan.old }
    ensures { Follows space.new plan.new }
{
    let Ok(change) = space.apply(command) else {
        return false;
    };
    edit(rt, alloc, plan, copy, space, &change);
    expect_compiled(rt, alloc, plan, space);
    edit_copy(rt, alloc, copy, space, &change);
    true
}

/// Carries out a command, or refuses it, and has the plan follow. Whether it was accepted.
pub fn follow(
    rt: &impl Abort,
    alloc: Global,
    space: &mut Space,
    plan: &mut Plan,
    command: &Command,
) -> bool
    requires { Follows space.old plan.old }
    ensures { Follows space.new plan.new }
{
    let mut copy = plan.copy(alloc).expect(rt, "a copy");
    let accepted = follow_beside(rt, alloc, space, plan, &mut copy, command);
    drop(copy);
    accepted
}

/// Has the plan follow random commands; how many of them were accepted.
fn follow_dice(
    rt: &impl Abort,
    alloc: Global,
    space: &mut Space,
    plan: &mut Plan,
    dice: &mut Dice,
) -> u32
    requires { Follows space.old plan.old }
{
    let mut accepted = 0u32;
    for _ in 0..COMMANDS {
        if let Some(command) = dice.command() {
            let more = follow(rt, alloc, space, plan, &command);
            accepted = accepted.wrapping_add(u32::from(more));
        }
    }
    accepted
}

/// Follows a random history; how many commands were accepted.
fn follow_seed(rt: &impl Abort, alloc: Global, seed: u64) -> u32 {
    let mut space = rough_space(alloc).expect(rt, "a space");
    let mut plan = compile(alloc, &space).expect(rt, "a plan");
    let accepted = follow_dice(rt, alloc, &mut space, &mut plan, &mut Dice::new(seed));
    drop(plan);
    drop(space);
    accepted
}

#[test]
fn random_histories_are_followed(rt: HostRuntime) {
    for seed in SEEDS {
        let accepted = follow_seed(&rt, rt.alloc(), seed);
        assert!(rt; accepted >= ACCEPTED, "{accepted} accepted");
    }
}
