//! Pools that are resized, and mappings of pages of 2 MiB that find too few, whoever asks; and the
//! words in which calls about such pages are refused.
ghost use Rattle.std.specs.Prelude.{◌≡◌, ◌≤◌, ◌<◌, ◌^◌, ◌&&◌, OnErr, OnOk, false, true};
ghost use Rattle.std.specs.Result.{result_err};
ghost use Rattle.numa_mask.specs.NodeSet.{with_node};
ghost use Rattle.numa_mode.specs.Policy.{is_local_mode};
ghost use Rattle.numa_pools.specs.Pools.{lacks_pages, unreserved};
ghost use Rattle.numa_pools.specs.Resize.{node_refusal, resized_node};
ghost use Rattle.numa_page_state.specs.Huge.{is_bind, mapping_nodes, resizing_nodes};
ghost use Rattle.numa_page_state.specs.Pooling.{fault_cause, mapped_pages, place_cause};
ghost use Rattle.numa_page_state.specs.Pooling.{pool_refusal};

use numa_huge::HugePlaces;
use numa_machine::{PageSize, PlaceRefusal};
use numa_mask::{NodeId, NodeMask};
use numa_mode::{Mode, Record};
use numa_pools::{PoolRefusal, Pools};
use numa_requests::{HugeRefusal, PlacedRefusal};

/// Why a pool isn't resized.
pub fn pool_refusal(refusal: PoolRefusal) -> HugeRefusal
    ensures { result ≡ pool_refusal refusal }
{
    match refusal {
        PoolRefusal::NoSuchNode => HugeRefusal::NoSuchNode,
        PoolRefusal::Unsure => HugeRefusal::Unsure,
    }
}

/// Why a page isn't touched that has no list of nodes.
pub fn place_cause(refusal: PlaceRefusal) -> HugeRefusal
    ensures { result ≡ place_cause refusal }
{
    match refusal {
        PlaceRefusal::BadCpu => HugeRefusal::BadCpu,
        PlaceRefusal::Unmapped => HugeRefusal::Unmapped,
    }
}

/// Why a page isn't touched though it has one.
pub fn fault_cause(refusal: PlacedRefusal) -> HugeRefusal
    ensures { result ≡ fault_cause refusal }
{
    match refusal {
        PlacedRefusal::TooManyRuns => HugeRefusal::TooManyRuns,
        _ => HugeRefusal::NoMemory,
    }
}

/// How many pages of 2 MiB so many bytes take.
pub fn mapped_pages(length: u64) -> u64
    ensures { result ≡ mapped_pages length }
{
    PageSize::Huge.parts_in(length) / 512
}

/// Whether a mapping of so many pages finds too few, if it reserves them.
pub fn lacks_if(pools: &Pools, reserves: bool, pages: u64, nodes: &NodeMask) -> bool
    ensures lacks { result ≡ reserves && lacks_pages pools.now pages nodes.now }
    ensures enough { result ≡ false → reserves ≡ true → pages ≤ unreserved pools.now }
{
    if !reserves {
        return false;
    }
    pools.lacks(pages, nodes)
}

/// Whether a policy of this mode binds pages to its nodes.
fn is_bind(mode: Mode) -> bool
    ensures { result ≡ is_bind mode }
{
    matches!(mode, Mode::Bind)
}

/// The nodes that may give the pages of a mapping of a task with this policy.
pub fn mapping_nodes(policy: Option<Record>, allowed: &NodeMask) -> NodeMask
    ensures { result ≡ mapping_nodes policy allowed.now }
{
    let Some(policy) = policy else {
        return *allowed;
    };
    if !is_bind(policy.spec().mode()) {
        return *allowed;
    }
    let bound = policy.effective().and(allowed);
    if bound.is_empty() {
        return *allowed;
    }
    bound
}

/// A set of one node.
fn alone(node: u8) -> NodeMask
    ensures { result ≡ with_node 0 node }
{
    let mut set = NodeMask::empty();
    let Some(node) = NodeId::new(node) else {
        unreachable!()
    };
    set.insert(node);
    set
}

/// Whether a policy of this mode goes by the CPU.
fn is_local(mode: Mode) -> bool
    ensures { result ≡ is_local_mode mode }
{
    matches!(mode, Mode::Local)
}

/// The nodes whose pools are resized by a task with this policy, on a CPU of node `cpu`.
pub fn resizing_nodes(policy: Option<Record>, memory: &NodeMask, cpu: u32) -> NodeMask
    requires { cpu ≤ 255 }
    ensures { result ≡ resizing_nodes policy memory.now cpu }
{
    let Some(policy) = policy else {
        return *memory;
    };
    if is_local(policy.spec().mode()) {
        return alone(cpu as u8);
    }
    let nodes = policy.effective();
    if nodes.is_empty() {
        return *memory;
    }
    nodes
}

/// Makes the pool of a node have so many pages, whatever number says the node, on a machine of
/// `nodes` nodes.
///
/// # Errors
/// As [`Pools::resize_node`](numa_pools::Pools::resize_node). Then nothing has changed.
pub fn resize_node(
    places: &mut HugePlaces,
    nodes: u32,
    node: u32,
    allowed: &NodeMask,
    pages: u64,
) -> Result<(), PoolRefusal>
    requires nodes { nodes ≤ 256 }
    requires pages { pages < 2 ^ 63 }
    ensures refusal { result_err result ≡ node_refusal nodes places.old.pools node pages }
    ensures resized { OnOk result
        (places.new.pools ≡ resized_node node allowed.now pages places.old.pools) }
    ensures unchanged { OnErr result (places.new ≡ places.old) }
    ensures runs { places.new.runs ≡ places.old.runs }
{
    if node >= nodes {
        return Err(PoolRefusal::NoSuchNode);
    }
    let Some(node) = NodeId::new(node as u8) else {
        unreachable!()
    };
    places.resize_node(nodes, node, allowed, pages)
}
