//! The number of pages after which the fallback lists of a policy repeat.
ghost use Rattle.std.specs.Prelude.{◌≡◌, List, Some};
ghost use Rattle.numa_machine.specs.Weights.{total_weight, weight_at};
ghost use Rattle.numa_space.specs.Lists.{setting_of};
ghost use Rattle.numa_space.specs.Standing.{StandsFor, setting_in};
ghost use Rattle.numa_requests.specs.declared.command.Command.{Command};
ghost use Rattle.numa_placed.specs.Periods.{IsPeriod, period_for};

use numa_machine::{Weights, round_of};
use numa_mask::NodeMask;
use numa_mode::{Mode, Record};
use numa_space::Space;

/// The total weight of the nodes of a set.
fn total_weight(weights: &Weights, set: &NodeMask) -> u64
    ensures { result ≡ total_weight (weight_at weights.now) set.now }
{
    let mut total = 0u64;
    for node in set.iter() {
        total += u64::from(weights.get(u32::from(node.number())));
    }
    total
}

/// The number of pages after which a policy's lists repeat with these weights, for `pages` pages
/// with the indexes from `index` on: the number of nodes for INTERLEAVE, their total weight for
/// WEIGHTED_INTERLEAVE, 512 times as many for pages of 2 MiB, and 1 for other modes; 0 for a set
/// without nodes.
fn period_of(weights: &Weights, policy: &Record, index: u64, pages: u64) -> u64
    ensures { result ≡ period_for (weight_at weights.now) (Some policy.now) index pages }
{
    let set = policy.effective();
    match policy.spec().mode() {
        Mode::Interleave => round_of(u64::from(set.weight()), index, pages),
        Mode::WeightedInterleave => round_of(total_weight(weights, &set), index, pages),
        Mode::Default => 1,
        Mode::Preferred => 1,
        Mode::Bind => 1,
        Mode::Local => 1,
        Mode::PreferredMany => 1,
    }
}

/// The number of pages after which the lists of a policy of the space repeat, for `pages` pages
/// with the indexes from `index` on; `None` is local allocation.
pub fn period_in(space: &Space, policy: &Option<Record>, index: u64, pages: u64) -> u64
    ensures count { result ≡ period_for (weight_at space.now.weights) policy.now index pages }
    ensures now { IsPeriod (setting_in space.now) policy.now index pages result }
    ensures meaning { (history : List Command) → StandsFor space.now history
        → IsPeriod (setting_of space.now.machine history) policy.now index pages result }
{
    match policy {
        Some(policy) => period_of(space.weights(), policy, index, pages),
        None => 1,
    }
}
