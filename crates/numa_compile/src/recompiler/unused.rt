//! Dropping rules.
ghost use Rattle.std.specs.Prelude.{◌≡◌};
ghost use Rattle.numa_space.specs.Standing.{SpaceState};
ghost use Rattle.numa_plan.specs.Meaning.{PlanData};
ghost use Rattle.numa_compile.specs.Recompiling.{KeepsNamed, WasAdded};

use numa_plan::Plan;

/// Removes the rule that was added last, if one was, which restores the plan.
pub(crate) fn take_back(plan: &mut Plan, added: Option<u32>)
    requires { (space : SpaceState) × ((before : PlanData)
        × WasAdded space before added plan.old) }
    ensures { (space : SpaceState) (before : PlanData) → WasAdded space before added plan.old
        → plan.new ≡ before }
{
    if let Some(number) = added {
        plan.drop_rule(number);
    }
}

/// Drops the rule with this number, if there is one and no run and no task uses it any more.
pub(crate) fn drop_unused(plan: &mut Plan, number: Option<u32>)
    ensures rest { plan.new ≡ record plan.old { slots = plan.new.slots } }
    ensures slots { KeepsNamed plan.old plan.new }
{
    let Some(number) = number else {
        return;
    };
    let Some(_) = plan.policy_of(number) else {
        return;
    };
    if plan.uses(number) == 0 {
        plan.drop_rule(number);
    }
}
