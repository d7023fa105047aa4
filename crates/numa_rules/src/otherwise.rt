//! What a running kernel does differently from the documents.
ghost use Rattle.std.specs.Prelude.{◌≡◌, ◌≢◌, true, false, Option, None};
ghost use Rattle.std.specs.List.{list_any};
ghost use Rattle.std.specs.Prelude.{nat_le};
ghost use Rattle.numa_machine.specs.Sizes.{whole};
ghost use Rattle.numa_mask.specs.NodeSet.{members};
ghost use Rattle.numa_mode.specs.Policy.{is_default};
ghost use Rattle.numa_space.specs.Refusals.{has_no_node};
ghost use Rattle.numa_rules.specs.Otherwise.{with_bind, with_home, with_map, with_mems, with_unmap};
ghost use Rattle.numa_rules.specs.Otherwise.{otherwise_of, otherwise_of_empty_bind, with_weight};
ghost use Rattle.numa_rules.specs.Otherwise.{bind_past_end, home_past_end, with_command};

use crate::parted::{Parted, parted_in};
use crate::span::{SPACE_END, SpanTest, ends_above, has_page, pages_of, span_of};
use numa_machine::PageSize;
use numa_mask::NodeMask;
use numa_mode::{Mode, PolicySpec, Record};
use numa_requests::{Command, PAGE_BYTES, Refusal};
use numa_space::Space;

/// What a running kernel does with a command, where that differs from the documents
/// (docs/KERNEL.md).
#[derive(Clone, Copy, Debug)]
pub enum Otherwise {
    /// It refuses a map that reaches address 2^47, since it keeps the last page free: ENOMEM.
    KeepsLastPage,
    /// It refuses a map of length 0 before it judges its span: EINVAL.
    JudgesLengthFirst,
    /// It refuses a map that ends above 2^47 - 4096 before it judges its start: ENOMEM.
    JudgesEndFirst,
    /// It refuses an unmap that ends above 2^47 - 4096: EINVAL.
    LeavesLastPage,
    /// It looks for the pages of an mbind or a home also above 2^47, and finds none there: it
    /// refuses it for this cause, or accepts it.
    LooksPastEnd(Option<Refusal>),
    /// It refuses an unmap of length 0: EINVAL.
    WantsLength,
    /// It checks the nodes of an mbind before the holes in its span: EINVAL instead of EFAULT.
    JudgesNodesFirst,
    /// It skips the holes in the span of an mbind of DEFAULT.
    PassesHoles,
    /// It refuses a home if no page of the span has an own policy: ENOENT.
    WantsPolicy,
    /// It accepts weight 0, which resets the weight to 1.
    PutsBackWeight,
    /// It accepts allowed nodes of which none has memory, and allows all nodes with memory.
    AllowsAllMemory,
    /// It refuses an empty set of allowed nodes by another error number: ENOSPC.
    WantsNodes,
    /// It accepts an mbind of length 0 before it checks whether mode, flag and nodes go together.
    /// By the documents that is no command, so [`otherwise_of`] doesn't answer this.
    OverlooksPolicy,
    /// A change of the allowed nodes leaves a policy with other nodes: this one, and perhaps more.
    LeavesNodes(Parted),
}

/// What a kernel does differently with a map.
fn with_map(size: PageSize, start: u64, length: u64) -> Option<Otherwise>
    ensures { result ≡ with_map size start (whole size length) }
{
    if size.takes_no_page(length) {
        return match span_of(size, start, length) {
            Some(_) => None,
            None => Some(Otherwise::JudgesLengthFirst),
        };
    }
    if !ends_above(SPACE_END - PAGE_BYTES, size, start, length) {
        return None;
    }
    if !size.begins_at(start) {
        return Some(Otherwise::JudgesEndFirst);
    }
    if ends_above(SPACE_END, size, start, length) {
        return None;
    }
    Some(Otherwise::KeepsLastPage)
}

/// What a kernel does differently with an unmap.
fn with_unmap(start: u64, length: u64) -> Option<Otherwise>
    ensures { result ≡ with_unmap start length }
{
    if start % PAGE_BYTES != 0 {
        return None;
    }
    if ends_above(SPACE_END - PAGE_BYTES, PageSize::Small, start, length) {
        return Some(Otherwise::LeavesLastPage);
    }
    if length == 0 {
        return Some(Otherwise::WantsLength);
    }
    None
}

/// Whether a policy other than DEFAULT has no node while these are allowed.
fn has_no_node(spec: PolicySpec, allowed: &NodeMask) -> bool
    requires policy { is_default spec ≡ false }
    requires some { allowed.now ≢ 0 }
    ensures { result ≡ has_no_node allowed.now spec }
{
    match Record::set(spec, allowed) {
        Ok(_) => false,
        Err(_) => true,
    }
}

/// What a kernel does differently with an mbind.
fn with_bind(space: &Space, start: u64, length: u64, spec: PolicySpec) -> Option<Otherwise>
    ensures { result ≡ with_bind space.now start length spec }
{
    if start % PAGE_BYTES != 0 {
        return None;
    }
    let Some((first, pages)) = span_of(PageSize::Small, start, length) else {
        let cause = bind_past_end(space, start, length, spec);
        return Some(Otherwise::LooksPastEnd(cause));
    };
    if length == 0 {
        return None;
    }
    if spec.mode() == Mode::Default {
        if has_page(space, SpanTest::IsMapped, first, pages) && space.has_hole(first, pages) {
            return Some(Otherwise::PassesHoles);
        }
        return None;
    }
    if has_no_node(spec, &space.allowed()) && space.has_hole(first, pages) {
        return Some(Otherwise::JudgesNodesFirst);
    }
    None
}

/// Why a kernel refuses an mbind that ends above 2^47.
fn bind_past_end(space: &Space, start: u64, length: u64, spec: PolicySpec) -> Option<Refusal>
    ensures { result ≡ bind_past_end space.now start length spec }
{
    if ends_above(u64::MAX, PageSize::Small, start, length) {
        return Some(Refusal::BadSpan);
    }
    if length == 0 {
        return None;
    }
    let (first, pages) = pages_of(PageSize::Small, start, length);
    if spec.mode() == Mode::Default {
        if has_page(space, SpanTest::IsMapped, first, pages) {
            return None;
        }
        return Some(Refusal::Hole);
    }
    if has_no_node(spec, &space.allowed()) {
        return Some(Refusal::NodesNotAllowed);
    }
    Some(Refusal::Hole)
}

/// What a kernel does differently with a home.
fn with_home(space: &Space, start: u64, length: u64, node: u32) -> Option<Otherwise>
    ensures { result ≡ with_home space.now start length node }
{
    if start % PAGE_BYTES != 0 {
        return None;
    }
    let Some((first, pages)) = span_of(PageSize::Small, start, length) else {
        return Some(Otherwise::LooksPastEnd(home_past_end(space, start, length, node)));
    };
    if node >= space.machine().nodes() || length == 0 {
        return None;
    }
    if has_page(space, SpanTest::HasPolicy, first, pages) {
        return None;
    }
    Some(Otherwise::WantsPolicy)
}

/// Why a kernel refuses a home that ends above 2^47.
fn home_past_end(space: &Space, start: u64, length: u64, node: u32) -> Option<Refusal>
    ensures { result ≡ home_past_end space.now start length node }
{
    if ends_above(u64::MAX, PageSize::Small, start, length) {
        return Some(Refusal::BadSpan);
    }
    if node >= space.machine().nodes() {
        return Some(Refusal::NoSuchNode);
    }
    if length == 0 {
        return None;
    }
    let (first, pages) = pages_of(PageSize::Small, start, length);
    if has_page(space, SpanTest::TakesNoHome, first, pages) {
        return Some(Refusal::NotSupported);
    }
    if has_page(space, SpanTest::HasPolicy, first, pages) {
        return None;
    }
    Some(Refusal::NoPolicy)
}

/// What a kernel does differently with a weight.
fn with_weight(space: &Space, node: u32, weight: u32) -> Option<Otherwise>
    ensures { result ≡ with_weight space.now node weight }
{
    if node >= space.machine().nodes() || weight != 0 {
        return None;
    }
    Some(Otherwise::PutsBackWeight)
}

/// Whether a set has node `first` or a higher one.
fn has_node_from(mask: &NodeMask, first: u32) -> bool
    ensures { result ≡ list_any (λ node. nat_le first node) (members mask.now) }
{
    mask.iter().any(|node| first <= u32::from(node.number()))
}

/// What a kernel does differently with a change of the allowed nodes.
fn with_mems(space: &Space, mask: &NodeMask) -> Option<Otherwise>
    ensures { result ≡ with_mems space.now mask.now }
{
    if has_node_from(mask, space.machine().nodes()) {
        return None;
    }
    if mask.is_empty() {
        return Some(Otherwise::WantsNodes);
    }
    let allowed = mask.and(&space.machine().memory());
    if allowed.is_empty() {
        return Some(Otherwise::AllowsAllMemory);
    }
    match parted_in(space, &allowed) {
        Some(parted) => Some(Otherwise::LeavesNodes(parted)),
        None => None,
    }
}

/// What a kernel does differently with a command.
fn with_command(space: &Space, command: &Command) -> Option<Otherwise>
    ensures { result ≡ with_command space.now command.now }
{
    match *command {
        Command::Map {
            start,
            length,
            size,
            ..
        } => with_map(size, start, length),
        Command::Unmap { start, length } => with_unmap(start, length),
        Command::Mbind {
            start,
            length,
            spec,
        } => with_bind(space, start, length, spec),
        Command::SetTask { .. } => None,
        Command::Inherit { .. } => None,
        Command::SetHome {
            start,
            length,
            node,
        } => with_home(space, start, length, node),
        Command::SetWeight { node, weight } => with_weight(space, node, weight),
        Command::SetMems { mask } => with_mems(space, &mask),
    }
}

/// What a running kernel would do differently with a command to a space that follows the documents'
/// rules: another result, or other nodes of a policy. `None` for a space that follows the kernel's.
/// The limit of accepted commands is ignored here: once it is reached, both refuse every command.
pub fn otherwise_of(space: &Space, command: &Command) -> Option<Otherwise>
    ensures { result ≡ otherwise_of space.now command.now }
{
    if space.machine().rules().is_linux() {
        return None;
    }
    with_command(space, command)
}

/// What a running kernel would do otherwise with an mbind of length 0, from an address on, whose
/// mode, flag and nodes don't go together; None by the kernel's rules.
pub fn otherwise_of_empty_bind(space: &Space, start: u64) -> Option<Otherwise>
    ensures { result ≡ otherwise_of_empty_bind space.now start }
{
    if space.machine().rules().is_linux() {
        return None;
    }
    if start % PAGE_BYTES != 0 {
        return None;
    }
    Some(Otherwise::OverlooksPolicy)
}
