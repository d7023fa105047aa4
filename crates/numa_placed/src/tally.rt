//! What a move does, told by how many pages lie on each node.
ghost use Rattle.std.specs.Prelude.{◌≡◌, ◌<◌, ◌≤◌, ◌^◌, ℕ, false, slice_index};
ghost use Rattle.numa_mask.specs.NodeSet.{has};
ghost use Rattle.numa_placed.specs.Moves.{AreTargets, IsTally, moved_node};
ghost use Rattle.numa_placed.specs.Shifts.{ArePages, stated_on};
ghost use Rattle.numa_placed.specs.Standing.{AreOnNodes};
ghost use Rattle.numa_placed.specs.Tallies.{leave_on};
ghost use Rattle.numa_placed.specs.declared.spot.Spot.{Spot};

use crate::filling::sum;
use crate::moved::Moved;
use numa_mask::NodeMask;

/// How many pages of a node have another to go to.
fn leave_on(targets: &[u8; 256], counts: &[u64; 256], node: u8) -> u64
    ensures { result ≡ leave_on (slice_index targets.now) (slice_index counts.now) node }
{
    if targets[node as usize] == node {
        return 0;
    }
    counts[node as usize]
}

/// How many pages of each node have another to go to.
pub(crate) fn leaving(targets: &[u8; 256], counts: &[u64; 256]) -> [u64; 256]
    ensures { ArePages result (leave_on (slice_index targets.now) (slice_index counts.now)) }
{
    let mut sent = [0; 256];
    for node in 0..256usize {
        sent[node] = leave_on(targets, counts, node as u8);
    }
    sent
}

/// The same, where only nodes of a set have another.
fn leaving_of(targets: &[u8; 256], counts: &[u64; 256], set: &NodeMask) -> [u64; 256]
    requires { (node : ℕ) → node < 256 → has set.now node ≡ false
        → slice_index targets.now node ≡ node }
    ensures { ArePages result (leave_on (slice_index targets.now) (slice_index counts.now)) }
{
    let mut sent = [0; 256];
    for node in set.iter() {
        let number = node.number();
        sent[number as usize] = leave_on(targets, counts, number);
    }
    sent
}

/// What a move of all pages to these targets does, where so many lie on each node.
pub(crate) fn tally_counts(
    counts: &[u64; 256],
    targets: [u8; 256],
    old: &NodeMask,
    _new: &NodeMask,
) -> Moved
    requires targets { AreTargets targets (moved_node old.now _new.now) }
    requires few { (node : ℕ) → node < 256 → slice_index counts.now node ≤ 2 ^ 35 }
    ensures { (spots : ℕ → Spot) → ArePages counts.now (stated_on spots) → AreOnNodes spots
        → IsTally spots (moved_node old.now _new.now) result }
{
    let from = leaving_of(&targets, counts, old);
    let moved = sum(&from);
    Moved {
        moved,
        left: 0,
        from,
        to: targets,
    }
}
