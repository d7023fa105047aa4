//! The text of a set of nodes.
ghost use Rattle.std.specs.Prelude.{◌≡◌, ◌≢◌, ℕ, ◌+◌, ◌≤◌, ◌++◌, length, decimal, Ok};
ghost use Rattle.arrayvec.specs.ArrayString.{array_string_len};
ghost use Rattle.numa_mask.specs.Lists.{list_of, starts_run, run_end, run_text, with_part, text_of};

use crate::mask::NodeMask;
use crate::node::NodeId;
use arrayvec::ArrayString;
use itoa::Buffer;

/// Whether a run starts at this member: the node before it is no member.
fn starts_run(set: &NodeMask, node: NodeId) -> bool
    ensures { result ≡ starts_run set.now node }
{
    match node.number().checked_sub(1) {
        Some(before) => !set.has(before),
        None => true,
    }
}

/// The last node of the run that starts at this one.
fn run_end(set: &NodeMask, first: NodeId) -> NodeId
    ensures { result ≡ run_end set.now first }
{
    let mut last = first.number();
    while last < 255 && set.has(last + 1) {
        last += 1;
    }
    NodeId::of(last)
}

/// Appends a number.
fn push_number(text: &mut ArrayString<1024>, node: NodeId)
    requires { array_string_len text.old + length (decimal node) ≤ 1024 }
    ensures { text.new.bytes ≡ text.old.bytes ++ decimal node }
{
    text.push_str(Buffer::new().format(node.number()));
}

/// Appends a run: `a`, or `a-b`.
fn push_run(text: &mut ArrayString<1024>, first: NodeId, last: NodeId)
    requires { array_string_len text.old + length (run_text first last) ≤ 1024 }
    ensures { text.new.bytes ≡ text.old.bytes ++ run_text first last }
{
    push_number(text, first);
    if first != last {
        text.push('-');
        push_number(text, last);
    }
}

/// Appends a run, after a comma unless it is the first.
fn push_next(text: &mut ArrayString<1024>, first: NodeId, last: NodeId)
    requires { array_string_len text.old + 1 + length (run_text first last) ≤ 1024 }
    ensures { text.new.bytes ≡ with_part text.old.bytes (run_text first last) }
{
    if !text.is_empty() {
        text.push(',');
    }
    push_run(text, first, last);
}

/// Writes a set as a list: its maximal runs of nodes in ascending order, separated by commas. A run
/// of one node is written as `a`, a longer one as `a-b`. The text of the empty set is empty; that
/// of any other set is read back by `read_list`.
pub fn list_text(set: &NodeMask) -> ArrayString<1024>
    ensures text { result.bytes ≡ text_of set.now }
    ensures reads_back { set.now ≢ 0 → list_of result.bytes ≡ Ok set.now }
{
    let mut text = ArrayString::new();
    for node in set.iter() {
        if starts_run(set, node) {
            push_next(&mut text, node, run_end(set, node));
        }
    }
    text
}
