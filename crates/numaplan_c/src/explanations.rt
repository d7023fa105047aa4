//! Why a page of a core goes where it goes.
ghost use Rattle.std.specs.Prelude.{◌≡◌, Result};
ghost use Rattle.numa_rules.specs.declared.explanation.Explanation.{Explanation};
ghost use Rattle.numa_rules.specs.declared.fault.ReasonError.{ReasonError};
ghost use Rattle.numaplan_c.specs.Border.{Asked};
ghost use Rattle.numaplan_c.specs.Explanations.{TellsExplanation, TellsReasons, reason_code};
ghost use Rattle.numaplan_c.specs.Explanations.{rule_node, rule_number, scope_number, turn_in};
ghost use Rattle.numaplan_handles.specs.Handles.{core_in};
ghost use Rattle.numaplan_reports.specs.Asked.{Explains};

use crate::codes::{Code, place_code};
use crate::keeping::if_open;
use crate::standing::{NpPolicy, told};
use numa_machine::turn_at;
use numa_rules::{Explanation, OrderRule, ReasonError, Scope};
use numa_sheets::Touch;
use numaplan_handles::CoreHandle;
use numaplan_reports::explain_core;
use std::alloc::Global;

/// Why a page would go where it goes: the policy that applies, the page's index, the turn of that
/// index, and the numbers of the scope, of the rule, and of the node that the rule names.
#[repr(C)]
#[derive(Clone, Copy)]
pub struct NpExplanation {
    pub policy: NpPolicy,
    pub index: u64,
    pub place: u64,
    pub places: u64,
    pub scope: u32,
    pub rule: u32,
    pub node: u32,
}

const _: () = prove!(size_of::<NpExplanation>() == 112);

/// The number of a scope.
fn scope_number(scope: Scope) -> u32
    ensures { result ≡ scope_number scope }
{
    match scope {
        Scope::Range => 0,
        Scope::Task => 1,
        Scope::System => 2,
    }
}

/// The number of a rule.
fn rule_number(rule: OrderRule) -> u32
    ensures { result ≡ rule_number rule }
{
    match rule {
        OrderRule::Local(_) => 0,
        OrderRule::Preferred(_) => 1,
        OrderRule::Bind(_) => 2,
        OrderRule::PreferredMany(_) => 3,
        OrderRule::Interleave(_) => 4,
        OrderRule::WeightedInterleave(_) => 5,
    }
}

/// The node in whose order a rule puts the nodes.
fn rule_node(rule: OrderRule) -> u32
    ensures { result ≡ rule_node rule }
{
    match rule {
        OrderRule::Local(node) => node,
        OrderRule::Preferred(node) => u32::from(node),
        OrderRule::Bind(node) => node,
        OrderRule::PreferredMany(node) => node,
        OrderRule::Interleave(turn) => u32::from(turn.node),
        OrderRule::WeightedInterleave(turn) => u32::from(turn.node),
    }
}

/// The place of a page's turn, and the number of places; 0 if nodes don't take turns.
fn turn_in(rule: OrderRule) -> (u64, u64)
    ensures { result ≡ turn_in rule }
{
    match rule {
        OrderRule::Interleave(turn) => (turn.place, turn.members),
        OrderRule::WeightedInterleave(turn) => (turn.place, turn.total),
        _ => (0, 0),
    }
}

/// The C struct of an explanation.
fn explanation_told(said: &Explanation) -> NpExplanation
    ensures { TellsExplanation said.now result }
{
    let (place, places) = turn_in(said.rule);
    NpExplanation {
        policy: told(said.policy),
        index: turn_at(said.index),
        place,
        places,
        scope: scope_number(said.scope),
        rule: rule_number(said.rule),
        node: rule_node(said.rule),
    }
}

/// The code of an explanation that was refused.
fn reason_code(why: ReasonError) -> u32
    ensures { result ≡ reason_code why }
{
    match why {
        ReasonError::Refused(refusal) => place_code(refusal),
        ReasonError::NoMemory => Code::NoMemory as u32,
    }
}

/// Writes an explanation, if there is one.
fn tell_reasons(answer: Result<Explanation, ReasonError>, explanation: &mut NpExplanation) -> u32
    ensures { TellsReasons answer result explanation.old explanation.new }
{
    match answer {
        Ok(said) => {
            *explanation = explanation_told(&said);
            drop(said);
            0
        }
        Err(why) => reason_code(why),
    }
}

/// Returns why a page would go where it goes.
#[unsafe(no_mangle)]
pub extern "C" fn np_core_explain(
    alloc: Global,
    core: &mut CoreHandle,
    task: u32,
    page: u64,
    cpu: u32,
    explanation: &mut NpExplanation,
) -> u32
    ensures { Asked (core_in core.old) (core_in core.new) result
        (explanation.new ≡ explanation.old) (λ kept. (answer : Result Explanation ReasonError)
        × Explains (core_in core.old) task page cpu answer
        × TellsReasons answer result explanation.old explanation.new) }
{
    let answer = explain_core(alloc, core, Touch { task, cpu }, page);
    if_open!(answer, answer => tell_reasons(answer, explanation))
}
