//! The scope whose policy applies.
ghost use Rattle.std.specs.Prelude.{◌≡◌};
ghost use Rattle.numa_mode.specs.Policy.{is_live};
ghost use Rattle.numa_rules.specs.Reasons.{has_live, scope_of};

use numa_mode::Record;

/// The scope whose policy applies ("NUMA Memory Policy", scope of memory policies).
#[derive(Clone, Copy)]
pub enum Scope {
    /// The page's range has a live own policy (mbind(2)).
    Range,
    /// The range has none, and the task has one (set_mempolicy(2)).
    Task,
    /// Neither has: the system's default is local allocation.
    System,
}

/// Whether there is a policy, and it is live.
pub(crate) fn has_live(policy: &Option<Record>) -> bool
    ensures { result ≡ has_live policy.now }
{
    match policy {
        Some(policy) => policy.is_live(),
        None => false,
    }
}

/// The scope whose policy applies, of a range and a task with these policies.
pub(crate) fn scope_of(range: &Option<Record>, task: &Option<Record>) -> Scope
    ensures { result ≡ scope_of range.now task.now }
{
    if has_live(range) {
        return Scope::Range;
    }
    if has_live(task) {
        return Scope::Task;
    }
    Scope::System
}
