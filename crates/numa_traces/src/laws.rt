//! Laws about the definitions that the contracts of this crate cite. The functions do nothing: what
//! they ensure are the laws.
ghost use Rattle.std.specs.Prelude.{◌≡◌, ◌++◌, ℕ, List, None, Option, map};
ghost use Rattle.numa_plan.specs.Meaning.{PlanData};
ghost use Rattle.numa_traces.specs.Hosting.{HostFrames, frames_before, host_tally_of, seen_by};
ghost use Rattle.numa_traces.specs.Placing.{Frames};
ghost use Rattle.numa_traces.specs.Replaying.{frames_after, tally_of};
ghost use Rattle.numa_traces.specs.Phases.{AddsUp};
ghost use Rattle.numa_traces.specs.Resting.{LieNowhere, frames_over, lies_where, tally_over};
ghost use Rattle.numa_traces.specs.Tallies.{Route};
ghost use Rattle.numa_traces.specs.declared.access.Access.{Access};

/// Where one process makes all accesses, it meets on a host what a replay of its own meets: the
/// same frames, and the same counts of each route.
pub fn alone()
    ensures frames { (plans : ℕ → PlanData) (start : HostFrames) (process : ℕ)
        (trace : List Access)
        → frames_before plans start (map (λ access. (process, access)) trace) process
        ≡ frames_after (plans process) (seen_by start process) trace }
    ensures tallies { (plans : ℕ → PlanData) (start : HostFrames) (process : ℕ)
        (trace : List Access) (route : Route)
        → host_tally_of plans start (map (λ access. (process, access)) trace) process route
        ≡ tally_of (plans process) (seen_by start process) trace route }
{}

/// Where no page lies anywhere before a trace, its accesses meet what those of a fresh machine
/// meet: the same frames, and the same counts of each route. So it is without `Before`, too.
pub fn nothing_before()
    ensures frames { (plan : PlanData) (there : ℕ → Option ℕ) (start : Frames)
        (trace : List Access) → LieNowhere there
        → frames_over plan there start trace ≡ frames_after plan start trace }
    ensures tallies { (plan : PlanData) (there : ℕ → Option ℕ) (start : Frames)
        (trace : List Access) (route : Route) → LieNowhere there
        → tally_over plan there start trace route ≡ tally_of plan start trace route }
    ensures none { LieNowhere (lies_where None) }
{}

/// What came to a route in a later part of a trace, and what it had before, is what it has after:
/// phases add up to the whole, of one process and of each of a host's.
pub fn phases_add_up()
    ensures one { (plan : PlanData) (there : ℕ → Option ℕ) (start : Frames)
        (trace later : List Access) (route : Route)
        → AddsUp (tally_over plan there start trace route)
        (tally_over plan there start (later ++ trace) route) }
    ensures host { (plans : ℕ → PlanData) (start : HostFrames) (trace later : List (ℕ × Access))
        (process : ℕ) (route : Route)
        → AddsUp (host_tally_of plans start trace process route)
        (host_tally_of plans start (later ++ trace) process route) }
{}
