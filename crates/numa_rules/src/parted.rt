//! Policies that a change of the allowed nodes leaves with other nodes by the kernel's rules.
ghost use Rattle.std.specs.Prelude.{◌≡◌, ◌≢◌};
ghost use Rattle.numa_rules.specs.Otherwise.{parted_in, parted_policy, parted_range, parted_ranges};
ghost use Rattle.numa_rules.specs.Otherwise.{parted_tasks};

use numa_machine::Rules;
use numa_mask::NodeMask;
use numa_mode::Record;
use numa_ranges::Run;
use numa_space::{RangeRecord, Space};

/// The owner of a policy.
#[derive(Clone, Copy, Debug)]
pub enum Owner {
    /// The range that begins at this page.
    Range(u64),
    /// The task with this number.
    Task(u32),
}

/// A policy that a change of the allowed nodes leaves with other nodes by the kernel's rules than
/// by those of the documents.
#[derive(Clone, Copy, Debug)]
pub struct Parted {
    /// Its owner.
    pub owner: Owner,
    /// The policy after the change by the documents.
    pub document: Record,
    /// The policy after the change by the kernel.
    pub linux: Record,
}

/// A policy after a change of the allowed nodes from `before` to `after` by both rules, if they
/// differ.
fn parted_policy(
    owner: Owner,
    policy: &Record,
    before: &NodeMask,
    after: &NodeMask,
) -> Option<Parted>
    requires { after.now ≢ 0 }
    ensures { result ≡ parted_policy before.now after.now owner policy.now }
{
    let document = policy.rebind(Rules::Document, before, after);
    let linux = policy.rebind(Rules::Linux, before, after);
    if document.effective() == linux.effective() {
        return None;
    }
    Some(Parted {
        owner,
        document,
        linux,
    })
}

/// The same for a range's policy, if it has one.
fn parted_range(range: &Run<RangeRecord>, before: &NodeMask, after: &NodeMask) -> Option<Parted>
    requires { after.now ≢ 0 }
    ensures { result ≡ parted_range before.now after.now range.now }
{
    match range.value.policy() {
        Some(policy) => parted_policy(Owner::Range(range.first), &policy, before, after),
        None => None,
    }
}

/// The first range's policy that differs.
fn parted_ranges(space: &Space, before: &NodeMask, after: &NodeMask) -> Option<Parted>
    requires { after.now ≢ 0 }
    ensures { result ≡ parted_ranges before.now after.now space.now.ranges }
{
    for range in space.range_iter() {
        let found = parted_range(&range, before, after);
        if found.is_some() {
            return found;
        }
    }
    None
}

/// The first task's policy that differs, in the order in which tasks got one.
fn parted_tasks(space: &Space, before: &NodeMask, after: &NodeMask) -> Option<Parted>
    requires { after.now ≢ 0 }
    ensures { result ≡ parted_tasks before.now after.now space.now.tasks }
{
    for place in 0..space.task_count() {
        let Some(held) = space.task_at(place) else {
            return None;
        };
        let found = parted_policy(Owner::Task(held.0), &held.1, before, after);
        if found.is_some() {
            return found;
        }
    }
    None
}

/// The first policy of a space to which a change of the allowed nodes gives other nodes by the
/// kernel's rules: ranges in ascending order, then tasks.
pub(crate) fn parted_in(space: &Space, after: &NodeMask) -> Option<Parted>
    requires { after.now ≢ 0 }
    ensures { result ≡ parted_in space.now after.now }
{
    let before = space.allowed();
    match parted_ranges(space, &before, after) {
        Some(parted) => Some(parted),
        None => parted_tasks(space, &before, after),
    }
}
