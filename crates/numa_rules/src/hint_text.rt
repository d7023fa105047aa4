//! Hints at a running kernel, as texts.
use crate::otherwise::Otherwise;
use crate::page::ByOther;
use crate::parted::{Owner, Parted};
use crate::text::Text;
use numa_machine::Rules;
use numa_mask::{NodeMask, list_text};
use numa_mode::{Mode, Record};
use numa_requests::{Errno, PAGE_BYTES};
use std::alloc::AllocError;

/// The end of every hint.
const SEE: &str = "; see rules linux";

/// Appends nodes, in words.
fn put_nodes(text: &mut Text, nodes: &NodeMask) {
    match nodes.weight() {
        0 => return text.put("no node"),
        1 => text.put("node "),
        _ => text.put("nodes "),
    }
    text.put(list_text(nodes).as_str());
}

/// Appends the owner of a policy.
fn put_owner(text: &mut Text, owner: Owner) {
    match owner {
        Owner::Range(first) => text.put_hex(" of the range at ", first.saturating_mul(PAGE_BYTES)),
        Owner::Task(task) => text.put_number(" of task ", task as u64),
    }
}

/// Whether a kernel keeps the nodes of such a policy; else it has replaced an empty set.
fn keeps_nodes(policy: &Record) -> bool {
    matches!(policy.spec().mode(), Mode::Preferred | Mode::PreferredMany)
}

/// Appends the nodes of a policy in a kernel, and by the documents.
fn put_parted(text: &mut Text, parted: &Parted) {
    text.put(if keeps_nodes(&parted.linux) {
        "keeps "
    } else {
        "puts "
    });
    let spec = parted.linux.spec();
    text.put(spec.mode().text());
    text.put(spec.flag().text());
    put_owner(text, parted.owner);
    text.put(" on ");
    put_nodes(text, &parted.linux.effective());
    text.put(" here, where the documents give it ");
    put_nodes(text, &parted.document.effective());
}

/// What a kernel does differently, without naming a policy.
fn otherwise_words(otherwise: &Otherwise) -> &'static str {
    match otherwise {
        Otherwise::KeepsLastPage => "keeps the last page below 2^47 free: ENOMEM",
        Otherwise::JudgesLengthFirst => "judges length 0 before the span: EINVAL",
        Otherwise::JudgesEndFirst => "judges the end before the start: ENOMEM",
        Otherwise::LeavesLastPage => "unmaps nothing above 2^47 - 4096: EINVAL",
        Otherwise::LooksPastEnd(_) => "looks for pages above 2^47 too, and finds none",
        Otherwise::WantsLength => "refuses to unmap 0 bytes: EINVAL",
        Otherwise::JudgesNodesFirst => "judges the nodes before the hole: EINVAL",
        Otherwise::PassesHoles => "passes over the hole here",
        Otherwise::WantsPolicy => { "refuses a home where no page has a policy of its own: ENOENT" }
        Otherwise::PutsBackWeight => "takes weight 0, and puts back 1",
        Otherwise::AllowsAllMemory => {
            "takes nodes without memory, and allows all that have some"
        }
        Otherwise::WantsNodes => "refuses an empty set of nodes: ENOSPC",
        Otherwise::OverlooksPolicy => "takes an mbind of 0 bytes before it judges the policy",
        Otherwise::LeavesNodes(_) => "",
    }
}

/// An error number, after what it is told of.
fn errno_words(errno: Errno) -> &'static str {
    match errno {
        Errno::EInval => ": EINVAL",
        Errno::ENoMem => ": ENOMEM",
        Errno::EExist => ": EEXIST",
        Errno::EFault => ": EFAULT",
        Errno::ENoSpc => ": ENOSPC",
        Errno::EOpNotSupp => ": EOPNOTSUPP",
        Errno::ENoEnt => ": ENOENT",
    }
}

/// Appends what a running kernel would do differently with a line.
fn put_otherwise(text: &mut Text, otherwise: &Otherwise) {
    text.put("a kernel ");
    match otherwise {
        Otherwise::LeavesNodes(parted) => put_parted(text, parted),
        Otherwise::LooksPastEnd(Some(cause)) => {
            text.put(otherwise_words(otherwise));
            text.put(errno_words(cause.errno()));
        }
        _ => text.put(otherwise_words(otherwise)),
    }
    text.put(SEE);
}

/// Appends what a running kernel would do differently with a line, without a position.
///
/// # Errors
/// `AllocError`: out of memory. A part may have been appended.
pub fn say_otherwise(text: &mut Vec<u8>, otherwise: &Otherwise) -> Result<(), AllocError> {
    let mut written = Text::of(text);
    put_otherwise(&mut written, otherwise);
    written.end(text)
}

/// Appends a message about a line: its position, by the name of its text and its number there from
/// 1, and what a running kernel would do differently with it.
///
/// # Errors
/// `AllocError`: out of memory. A part may have been appended.
pub fn say_hint(
    text: &mut Vec<u8>,
    name: &str,
    place: u64,
    otherwise: &Otherwise,
) -> Result<(), AllocError> {
    put_position(text, name, place)?;
    say_otherwise(text, otherwise)?;
    text.push(b'\n')?;
    Ok(())
}

/// Appends the position of a line.
fn put_position(text: &mut Vec<u8>, name: &str, place: u64) -> Result<(), AllocError> {
    let mut written = Text::of(text);
    written.put(name);
    written.put_number(":", place);
    written.put(": ");
    written.end(text)
}

/// The names of the rules that apply and of the others.
fn rules_words(rules: Rules) -> &'static str {
    match rules {
        Rules::Document => "rules: those of the documents; by rules linux ",
        Rules::Linux => "rules: those of a kernel; by rules document ",
    }
}

/// Appends a line to an explanation by these rules: that they apply, and where the page goes by the
/// others.
///
/// # Errors
/// `AllocError`: out of memory. A part may have been appended.
pub fn say_by_other(text: &mut Vec<u8>, rules: Rules, other: &ByOther) -> Result<(), AllocError> {
    let mut written = Text::of(text);
    written.put(rules_words(rules));
    if other.nodes.is_empty() {
        written.put("the page isn't mapped\n");
        return written.end(text);
    }
    match &other.policy {
        Some(policy) => {
            written.put("its policy is ");
            written.put(policy.policy_text().as_str());
        }
        None => written.put("no policy counts"),
    }
    written.put(", and its nodes");
    for node in other.nodes.as_slice() {
        written.put_number(" ", *node as u64);
    }
    written.put("\n");
    written.end(text)
}
