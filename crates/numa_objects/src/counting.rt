//! Counting the ranges of an object's places.
ghost use Rattle.std.specs.Prelude.{◌≡◌, ◌+◌, ◌<◌, ◌≤◌, ◌^◌, IfSome, List, MatchOption, [], ◌∷◌};
ghost use Rattle.std.specs.Prelude.{◌++◌, length};
ghost use Rattle.numa_mode.specs.Policy.{PolicyRecord};
ghost use Rattle.numa_ranges.specs.Edits.{IsInRange, joins};
ghost use Rattle.numa_ranges.specs.Maps.{IsSpan};
ghost use Rattle.numa_ranges.specs.declared.run.Run.{Run};
ghost use Rattle.numa_objects.specs.Counting.{bound_run, part_by, parts_by, ranges_with};
ghost use Rattle.numa_objects.specs.Same.{same_policy};

use crate::place_policy::PlacePolicy;
use crate::tally::Tally;
use numa_mode::Record;
use numa_ranges::{RangeMap, Run};

/// What of each run is meant: what it has before a place, or from it on.
#[derive(Clone, Copy)]
pub(crate) enum Cut {
    Before(u64),
    From(u64),
}

/// Whether the second run continues the first.
pub(crate) fn joins(run: &Run<PlacePolicy>, next: &Run<PlacePolicy>) -> bool
    requires { IsInRange run.now }
    ensures { result ≡ joins same_policy run.now next.now }
{
    if next.first != run.first + run.pages {
        return false;
    }
    if next.index != run.index + run.pages {
        return false;
    }
    run.value == next.value
}

/// What a run has before a place, or from it on.
pub(crate) fn part_in(run: &Run<PlacePolicy>, cut: Cut) -> Option<Run<PlacePolicy>>
    requires { IsInRange run.now }
    ensures in_range { IfSome result IsInRange }
    ensures part { MatchOption result (part_by cut run.now ≡ [])
        (λ part. part_by cut run.now ≡ part ∷ []) }
{
    match cut {
        Cut::Before(place) => {
            if run.first >= place {
                return None;
            }
            Some(Run {
                first: run.first,
                pages: run.pages.min(place - run.first),
                index: run.index,
                value: run.value,
            })
        }
        Cut::From(place) => {
            let end = run.first + run.pages;
            if end <= place {
                return None;
            }
            let first = place.max(run.first);
            Some(Run {
                first,
                pages: end - first,
                index: run.index + (first - run.first),
                value: run.value,
            })
        }
    }
}

/// Counts what runs have before a place, or from it on.
pub(crate) fn add_parts(tally: &mut Tally, policies: &RangeMap<PlacePolicy>, cut: Cut)
    requires room { tally.old.count + length policies.now.runs < 2 ^ 62 }
    ensures ranges { (rest : List (Run PolicyRecord)) → ranges_with tally.new rest
        ≡ ranges_with tally.old (parts_by cut policies.now.runs ++ rest) }
    ensures count { tally.new.count ≤ tally.old.count + length policies.now.runs }
{
    for run in policies.iter() {
        tally.add_part(&run, cut);
    }
}

/// Counts a span with a policy, if it has one.
pub(crate) fn add_span(tally: &mut Tally, first: u64, pages: u64, policy: &Option<Record>)
    requires span { IsSpan first pages }
    requires room { tally.old.count < 2 ^ 62 }
    ensures ranges { (rest : List (Run PolicyRecord)) → ranges_with tally.new rest
        ≡ ranges_with tally.old (bound_run first pages policy.now ++ rest) }
    ensures count { tally.new.count ≤ tally.old.count + 1 }
{
    let Some(policy) = policy else {
        return;
    };
    tally.add(Run {
        first,
        pages,
        index: first,
        value: PlacePolicy::of(*policy),
    });
}
