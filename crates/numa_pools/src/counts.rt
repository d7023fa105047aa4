//! A number for each node.
ghost use Rattle.std.specs.Prelude.{◌≡◌, ◌+◌, ◌-◌, ◌<◌, ◌≤◌, ◌^◌, ℕ, map, slice_index, sum};
ghost use Rattle.std.specs.Prelude.{if◌then◌else◌, nat_lt};
ghost use Rattle.numa_mask.specs.NodeSet.{has};
ghost use Rattle.numa_pools.specs.Turns.{least, less, on, plus};
ghost use Rattle.numa_pools.specs.Rounds.{turns_within};
ghost use Rattle.numa_pools.specs.Resize.{left_of};

use numa_mask::NodeMask;

/// How many nodes there can be.
pub(crate) const NODES: usize = 256;

/// The most pages of a node.
pub(crate) const MOST: u64 = 1 << 40;

/// The sum of the numbers of all nodes.
pub(crate) fn sum_of(xs: &[u64; NODES]) -> u64
    requires { sum xs.now < 2 ^ 64 }
    ensures { result ≡ sum xs.now }
{
    let mut total = 0;
    for node in 0..NODES {
        total += xs[node];
    }
    total
}

/// How many turns nodes with so much room take, if each takes at most `level`.
pub(crate) fn turns_within(room: &[u64; NODES], level: u64) -> u64
    requires { sum room.now < 2 ^ 64 }
    ensures turns { result ≡ turns_within level room.now }
    ensures within { result ≤ sum room.now }
{
    let mut turns = 0;
    for node in 0..NODES {
        turns += room[node].min(level);
    }
    turns
}

/// Takes `level` from the number of each node, as far as it goes.
pub(crate) fn lower(xs: &mut [u64; NODES], level: u64)
    ensures { xs.new ≡ map (λ x. x - level) xs.old }
{
    for node in 0..NODES {
        xs[node] = xs[node].saturating_sub(level);
    }
}

/// The number of a node of a set, and 0 for another node.
fn number_on(nodes: &NodeMask, xs: &[u64; NODES], node: usize) -> u64
    requires { node < 256 }
    ensures { result ≡ (if has nodes.now node then slice_index xs.now node else 0) }
{
    if nodes.has(node as u8) { xs[node] } else { 0 }
}

/// The numbers of the nodes of a set, and 0 for the others.
pub(crate) fn on(nodes: &NodeMask, xs: &[u64; NODES]) -> [u64; NODES]
    ensures { result ≡ on nodes.now xs.now }
{
    let mut those = [0; NODES];
    for node in 0..NODES {
        those[node] = number_on(nodes, xs, node);
    }
    those
}

/// Whether one number is less than another.
fn is_less(one: u64, other: u64) -> bool
    ensures { result ≡ nat_lt one other }
{
    one < other
}

/// Whether the sum of the numbers of all nodes is less than this: no more nodes are looked at than
/// tell that it isn't.
pub(crate) fn are_fewer(xs: &[u64; NODES], pages: u64) -> bool
    requires { sum xs.now < 2 ^ 64 }
    ensures { result ≡ nat_lt (sum xs.now) pages }
{
    let mut total = 0;
    for node in 0..NODES {
        if !is_less(total, pages) {
            return false;
        }
        total += xs[node];
    }
    total < pages
}

/// Whether the sum of the numbers of a set's nodes is less than this.
pub(crate) fn are_fewer_on(nodes: &NodeMask, xs: &[u64; NODES], pages: u64) -> bool
    requires { sum xs.now < 2 ^ 64 }
    ensures { result ≡ nat_lt (sum (on nodes.now xs.now)) pages }
{
    let mut total = 0;
    for node in 0..NODES {
        if !is_less(total, pages) {
            return false;
        }
        total += number_on(nodes, xs, node);
    }
    total < pages
}

/// Adds to the number of each node.
pub(crate) fn add_each(xs: &mut [u64; NODES], ys: &[u64; NODES])
    requires { (node : ℕ) → slice_index xs.old node + slice_index ys.now node < 2 ^ 64 }
    ensures { xs.new ≡ plus xs.old ys.now }
{
    for node in 0..NODES {
        xs[node] += ys[node];
    }
}

/// Takes from the number of each node, as far as it goes.
pub(crate) fn take_each(xs: &mut [u64; NODES], ys: &[u64; NODES])
    ensures { xs.new ≡ less xs.old ys.now }
{
    for node in 0..NODES {
        xs[node] = xs[node].saturating_sub(ys[node]);
    }
}

/// The lesser of two numbers of each node.
pub(crate) fn least_of(xs: &[u64; NODES], ys: &[u64; NODES]) -> [u64; NODES]
    ensures { result ≡ least xs.now ys.now }
{
    let mut lesser = *xs;
    for node in 0..NODES {
        lesser[node] = lesser[node].min(ys[node]);
    }
    lesser
}

/// How many pages fit on each node beside those that are there.
pub(crate) fn left_of(total: &[u64; NODES]) -> [u64; NODES]
    ensures { result ≡ left_of total.now }
{
    let mut left = *total;
    for node in 0..NODES {
        left[node] = MOST.saturating_sub(left[node]);
    }
    left
}
