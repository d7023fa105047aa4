//! An explanation as text.
use crate::explanation::Explanation;
use crate::rule::{OrderRule, WeightedTurn};
use crate::scope::Scope;
use crate::text::Text;
use numa_machine::{Fallback, Machine, is_part, turn_at};
use numa_mask::{NodeMask, list_text};
use numa_mode::Record;
use numa_requests::PAGE_BYTES;
use std::alloc::AllocError;

/// Writes the first line: the question, and the nodes in order.
fn put_question(text: &mut Text, said: &Explanation) {
    let address = said.page.saturating_mul(PAGE_BYTES);
    let asked = [said.task as u64, said.cpu as u64];
    text.put_hex("page ", address);
    text.put_form(" of task $, touched on node $: nodes", &asked);
    for node in said.nodes.as_slice() {
        text.put_number(" ", *node as u64);
    }
}

/// The line of the range. The indexes of pages of 2 MiB are counted in such pages.
fn put_range(text: &mut Text, said: &Explanation) {
    let range = &said.range;
    let start = range.first.saturating_mul(PAGE_BYTES);
    let end = range
        .first
        .saturating_add(range.pages)
        .saturating_mul(PAGE_BYTES);
    let last = range.index.saturating_add(range.pages.saturating_sub(1));
    let form = if is_part(said.index) {
        ": its pages of 2 MiB have the indexes $ to $, this one $"
    } else {
        ": its pages have the indexes $ to $, this one $"
    };
    text.put_hex("\nrange ", start);
    text.put_hex("-", end);
    let turns = [turn_at(range.index), turn_at(last), turn_at(said.index)];
    text.put_form(form, &turns);
}

/// Writes the owner of a policy, the policy, and a remark.
fn put_owned(text: &mut Text, owner: &str, policy: &Record, why: &str) {
    text.put(owner);
    text.put("'s, ");
    text.put(policy.policy_text().as_str());
    text.put(why);
}

/// Writes why the policy of a scope doesn't apply.
fn put_passed(text: &mut Text, owner: &str, policy: &Option<Record>) {
    let Some(policy) = policy else {
        text.put(owner);
        return text.put(" has none");
    };
    let why = if policy.is_live() {
        ", counts where the range has none"
    } else {
        ", has no allowed node"
    };
    put_owned(text, owner, policy, why);
}

/// Writes why the other policies don't apply.
fn put_others_passed(text: &mut Text, said: &Explanation) {
    if let Scope::Range = said.scope {
        return put_passed(text, "the task", &said.task_policy);
    }
    put_passed(text, "the range", &said.range.value.policy());
    if let Scope::System = said.scope {
        put_passed(text, ", and the task", &said.task_policy);
    }
}

/// Writes the line of the policy: which one applies, and why the others don't.
pub(crate) fn put_policy(text: &mut Text, said: &Explanation) {
    let owner = match said.scope {
        Scope::Range => "\npolicy: the range",
        Scope::Task => "\npolicy: the task",
        Scope::System => "\npolicy: the system",
    };
    match &said.policy {
        Some(policy) => put_owned(text, owner, policy, "; "),
        None => text.put("\npolicy: none, so memory is local; "),
    }
    put_others_passed(text, said);
}

/// The nodes that were asked for by the policy that applies, if it hasn't just these.
pub(crate) fn asked_of(said: &Explanation) -> Option<NodeMask> {
    let policy = said.policy.as_ref()?;
    let asked = policy.spec().mask();
    if asked == policy.effective() {
        return None;
    }
    Some(asked)
}

/// Writes words and a set of nodes, `none` if it is empty.
fn put_set(text: &mut Text, words: &str, set: &NodeMask) {
    text.put(words);
    if set.is_empty() {
        return text.put("none");
    }
    text.put(list_text(set).as_str());
}

/// The line of the sets; the nodes that were asked for stand there if the policy hasn't just these.
pub(crate) fn put_sets(text: &mut Text, said: &Explanation) {
    text.put("\n");
    let effective = match &said.policy {
        Some(policy) => policy.effective(),
        None => NodeMask::empty(),
    };
    if let Some(asked) = asked_of(said) {
        put_set(text, "asked for: ", &asked);
        text.put("; ");
    }
    put_set(text, "effective nodes: ", &effective);
    put_set(text, "; allowed nodes: ", &said.allowed);
}

/// Writes words, a node, and its distance from another.
fn put_node(text: &mut Text, machine: &Machine, words: &str, node: u8, from: u32) {
    text.put_number(words, node as u64);
    let node = node as u32;
    let nodes = machine.nodes();
    if from < nodes && node < nodes {
        text.put_number(" at distance ", machine.distance(from, node) as u64);
    }
}

/// Whether nodes are in a kernel's order, not the nearest first.
pub(crate) fn is_kernel_order(machine: &Machine) -> bool {
    match machine.fallback() {
        Fallback::Nearest => false,
        Fallback::Kernel(_) => true,
    }
}

/// Writes the first node, which is the first, in the order of another, of the nodes that the words
/// name.
fn put_nearest(text: &mut Text, machine: &Machine, said: &Explanation, words: &str, from: u32) {
    text.put(words);
    text.put(if is_kernel_order(machine) {
        "first in the kernel's order of node "
    } else {
        "nearest to node "
    });
    text.put_number("", from as u64);
    let home = match &said.policy {
        Some(policy) => policy.home(),
        None => None,
    };
    text.put(match home {
        Some(_) => ", the home: ",
        None => ", the CPU's: ",
    });
    match said.nodes.first() {
        Some(first) => put_node(text, machine, "node ", *first, from),
        None => text.put("none"),
    }
}

/// The turn of weighted interleave.
fn put_block(text: &mut Text, index: u64, block: WeightedTurn) {
    let last = block.before.saturating_add(block.weight.saturating_sub(1));
    let node = block.node as u64;
    let first = [index, block.total, block.place, node];
    text.put_form("\nfirst: index $ mod $ = $, and node $", &first);
    let turns = [block.before, last, block.weight, node];
    text.put_form(" has turns $ to $ (weight $), so node $", &turns);
}

/// Writes the line of the first node: why it is the first. Returns the node by whose order all are
/// sorted.
fn put_first(text: &mut Text, machine: &Machine, said: &Explanation) -> u32 {
    match said.rule {
        OrderRule::Local(from) => {
            let words = "\nfirst: of the allowed nodes the ";
            put_nearest(text, machine, said, words, from);
            from
        }
        OrderRule::Bind(from) | OrderRule::PreferredMany(from) => {
            let words = "\nfirst: of the effective nodes the ";
            put_nearest(text, machine, said, words, from);
            from
        }
        OrderRule::Preferred(node) => {
            text.put_number("\nfirst: the policy prefers node ", node as u64);
            node as u32
        }
        OrderRule::Interleave(turn) => {
            let index = turn_at(said.index);
            let numbers = [index, turn.members, turn.place, turn.node as u64];
            text.put_form("\nfirst: index $ mod $ = $, so node $", &numbers);
            turn.node as u32
        }
        OrderRule::WeightedInterleave(block) => {
            put_block(text, turn_at(said.index), block);
            block.node as u32
        }
    }
}

/// The nodes that follow the first, and their order, in words.
fn order_words(rule: OrderRule) -> &'static str {
    match rule {
        OrderRule::Bind(_) => "\nthen: the other effective nodes",
        OrderRule::PreferredMany(_) =>
            "\nthen: the other effective nodes, and behind them the other allowed ones",
        _ => "\nthen: the other allowed nodes",
    }
}

/// Writes by which node's order the others are sorted, and returns the text after it.
fn put_around(text: &mut Text, machine: &Machine, from: u32) -> &'static str {
    if is_kernel_order(machine) {
        text.put_number(", in the kernel's order of node ", from as u64);
        return ": ";
    }
    text.put_number(", the nearest to node ", from as u64);
    " first: "
}

/// Writes the line of the other nodes, which are sorted by a node's order.
fn put_others(text: &mut Text, machine: &Machine, said: &Explanation, from: u32) {
    let others = said.nodes.as_slice().get(1..).unwrap_or(&[]);
    if others.is_empty() {
        return text.put("\nthen: no other node\n");
    }
    text.put(order_words(said.rule));
    let mut words = put_around(text, machine, from);
    for node in others {
        put_node(text, machine, words, *node, from);
        words = ", ";
    }
    text.put("\n");
}

/// Appends why memory for a page is looked for on its nodes, in six lines: the question with the
/// nodes in order, the range, the policy that applies, the sets of nodes, the first node and the
/// others. The machine is that of the space.
///
/// # Errors
/// `AllocError`: out of memory. A part may have been appended.
pub fn say_explanation(
    text: &mut Vec<u8>,
    machine: &Machine,
    said: &Explanation,
) -> Result<(), AllocError> {
    let mut written = Text::of(text);
    put_question(&mut written, said);
    put_range(&mut written, said);
    put_policy(&mut written, said);
    put_sets(&mut written, said);
    let from = put_first(&mut written, machine, said);
    put_others(&mut written, machine, said, from);
    written.end(text)
}
