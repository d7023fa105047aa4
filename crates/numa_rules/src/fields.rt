//! The fields of an explanation, for a form with names.
use crate::explanation::Explanation;
use crate::reason_text::asked_of;
use crate::rule::OrderRule;
use crate::scope::Scope;
use numa_machine::turn_at;
use numa_mask::list_text;
use numa_mode::Record;
use numa_requests::PAGE_BYTES;

/// Receives the fields of an explanation.
pub trait TakeField {
    /// Takes a number.
    fn take_number(&mut self, name: &str, number: u64);

    /// Takes a text; `None` if there is none.
    fn take_text(&mut self, name: &str, text: Option<&str>);

    /// Takes nodes in order.
    fn take_nodes(&mut self, name: &str, nodes: &[u8]);
}

/// Gives a policy, if there is one.
fn give_policy<T: TakeField>(taker: &mut T, name: &str, policy: &Option<Record>) {
    match policy {
        Some(policy) => taker.take_text(name, Some(policy.policy_text().as_str())),
        None => taker.take_text(name, None),
    }
}

/// Gives the policies: that which applies, with its scope and its nodes, and the others.
fn give_policies<T: TakeField>(taker: &mut T, said: &Explanation) {
    let scope = match said.scope {
        Scope::Range => "range",
        Scope::Task => "task",
        Scope::System => "system",
    };
    taker.take_text("scope", Some(scope));
    give_policy(taker, "policy", &said.policy);
    give_policy(taker, "range_policy", &said.range.value.policy());
    give_policy(taker, "task_policy", &said.task_policy);
    if let Some(policy) = &said.policy {
        taker.take_text("effective", Some(list_text(&policy.effective()).as_str()));
    }
    if let Some(asked) = asked_of(said) {
        taker.take_text("asked", Some(list_text(&asked).as_str()));
    }
    taker.take_text("allowed", Some(list_text(&said.allowed).as_str()));
}

/// Gives the rule and its numbers.
fn give_rule<T: TakeField>(taker: &mut T, rule: OrderRule) {
    let (name, from) = match rule {
        OrderRule::Local(from) => ("local", from as u64),
        OrderRule::Preferred(node) => ("prefer", node as u64),
        OrderRule::Bind(from) => ("bind", from as u64),
        OrderRule::PreferredMany(from) => ("many", from as u64),
        OrderRule::Interleave(turn) => {
            taker.take_number("turn", turn.place);
            taker.take_number("turns", turn.members);
            ("interleave", turn.node as u64)
        }
        OrderRule::WeightedInterleave(block) => {
            taker.take_number("turn", block.place);
            taker.take_number("turns", block.total);
            ("weighted", block.node as u64)
        }
    };
    taker.take_text("rule", Some(name));
    taker.take_number("around", from);
}

/// Gives the fields of an explanation, each with its name: the question, the nodes, the range with
/// its indexes, the policies, and the rule. Addresses are in bytes; `around` is the node by whose
/// order all are sorted.
pub fn give_fields<T: TakeField>(taker: &mut T, said: &Explanation) {
    let range = &said.range;
    let end = range.first.saturating_add(range.pages);
    taker.take_number("task", said.task as u64);
    taker.take_number("address", said.page.saturating_mul(PAGE_BYTES));
    taker.take_number("cpu", said.cpu as u64);
    taker.take_number("index", turn_at(said.index));
    taker.take_nodes("nodes", said.nodes.as_slice());
    taker.take_number("range_start", range.first.saturating_mul(PAGE_BYTES));
    taker.take_number("range_end", end.saturating_mul(PAGE_BYTES));
    taker.take_number("range_index", turn_at(range.index));
    give_policies(taker, said);
    give_rule(taker, said.rule);
}
