//! How many pages went from each node to each, by where they lay and lie.
ghost use Rattle.std.specs.Prelude.{◌≡◌, ◌==◌, ◌+◌, ◌-◌, ◌<◌, ◌≤◌, ◌^◌, ℕ, if◌then◌else◌};
ghost use Rattle.std.specs.Prelude.{false, slice_index, true};
ghost use Rattle.numa_ranges.specs.Counts.{count_pages};
ghost use Rattle.numa_placed.specs.Spots.{is_on, pages_if, pages_where, pages_within, spot_at};
ghost use Rattle.numa_page_state.specs.Sending.{flow_between, has_gone};

use crate::counts::add;
use numa_placed::{Placed, Spot, Stay};

/// Whether pages that lie here lie on a node.
fn is_on(spot: Spot, node: u8) -> bool
    ensures { result ≡ is_on node spot }
{
    match spot.node() {
        Some(other) => other == node,
        None => false,
    }
}

/// Adds the pages from one on that lie on each node, of those that lay alike, if they lay on one.
fn add_stay(flow: &mut [u64; 256], first: u64, stay: Stay, after: &Placed, from: u8)
    requires rises { first ≤ stay.end }
    requires within { stay.end ≤ 2 ^ 35 }
    requires room { (to : ℕ) → to < 256 → slice_index flow.old to < 2 ^ 63 }
    ensures { (to : ℕ) → to < 256 → slice_index flow.new to ≡ slice_index flow.old to
        + pages_if (is_on from stay.spot)
        (pages_within (is_on to) (spot_at after.now) first (stay.end - first)) }
{
    if !is_on(stay.spot, from) {
        return;
    }
    let counts = after.counts_in(first, stay.end - first);
    let sum = add(*flow, &counts);
    *flow = sum;
}

/// No pages on a node, and as many on the others.
fn without(flow: [u64; 256], node: u8) -> [u64; 256]
    ensures { (to : ℕ) → to < 256
        → slice_index result to ≡ (if node == to then 0 else slice_index flow to) }
{
    let mut others = flow;
    others[node as usize] = 0;
    others
}

/// Adds some pages from one on that lie on each node, if they lay on one: those that lie as they
/// lay went nowhere, and are passed over. Returns the page after them.
fn add_some(flow: &mut [u64; 256], before: &Placed, after: &Placed, page: u64, from: u8) -> u64
    requires near { page < 2 ^ 35 }
    requires few { (to : ℕ) → to < 256 → slice_index flow.old to ≤ page }
    ensures rises { page < result }
    ensures within { result ≤ 2 ^ 35 }
    ensures few { (to : ℕ) → to < 256 → slice_index flow.new to ≤ result }
    ensures flow { (to : ℕ) → to < 256 → (from == to) ≡ false
        → slice_index flow.new to ≡ slice_index flow.old to
        + count_pages (has_gone (spot_at before.now) (spot_at after.now) from to) page
        (result - page) }
{
    let alike = before.alike_with(after, page);
    if alike > page {
        return alike;
    }
    let stay = before.stay_at(page);
    add_stay(flow, page, stay, after, from);
    stay.end
}

/// How many pages went from a node to each other.
fn flow_to_others(before: &Placed, after: &Placed, from: u8) -> [u64; 256]
    ensures { (to : ℕ) → to < 256 → (from == to) ≡ false → slice_index result to
        ≡ count_pages (has_gone (spot_at before.now) (spot_at after.now) from to) 0 (2 ^ 35) }
{
    let mut flow = [0; 256];
    let mut page = 0;
    while page < 1 << 35 {
        let next = add_some(&mut flow, before, after, page, from);
        page = next;
    }
    flow
}

/// Whether no page lies on a node.
fn has_none(placed: &Placed, node: u8) -> bool
    ensures { result ≡ true → pages_where (is_on node) (spot_at placed.now) ≡ 0 }
{
    let counts = placed.counts();
    let here = counts[node as usize];
    if here > 0 {
        return false;
    }
    true
}

/// How many pages went from a node to each.
pub fn flow_from(before: &Placed, after: &Placed, from: u8) -> [u64; 256]
    ensures { (to : ℕ) → to < 256 → slice_index result to
        ≡ flow_between (spot_at before.now) (spot_at after.now) from to }
{
    if has_none(before, from) {
        return [0; 256];
    }
    let flow = flow_to_others(before, after, from);
    without(flow, from)
}
