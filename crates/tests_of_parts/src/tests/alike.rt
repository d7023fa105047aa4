//! Whether two plans answer alike: each task's lists on every page of each run and beside it, the
//! counts of each run, and how many runs and rules there are.
use crate::tests::same::same;
use numa_machine::PlaceRefusal;
use numa_plan::Plan;
use std::process::Abort;

/// The tasks of the examples, and one that none of them names.
const TASKS: [u32; 5] = [1, 2, 3, 4, 77];

/// The list of a page.
fn list_of(plan: &Plan, task: u32, page: u64, cpu: u32) -> Result<&[u8], PlaceRefusal> {
    plan.fallback_list(task, page, cpu)
}

/// The lists of a page are alike, for a fault on each node and on one that is none.
fn expect_lists(rt: &impl Abort, found: &Plan, wanted: &Plan, task: u32, page: u64) {
    for cpu in 0..257u32 {
        let list = list_of(wanted, task, page, cpu);
        let place = (task, page, cpu);
        same(
            rt,
            &(place, list_of(found, task, page, cpu)),
            &(place, list),
        );
        if list == Err(PlaceRefusal::BadCpu) {
            return;
        }
    }
}

/// What the tasks have on a page is alike.
fn expect_page(rt: &impl Abort, found: &Plan, wanted: &Plan, page: u64) {
    for task in TASKS {
        expect_lists(rt, found, wanted, task, page);
    }
}

/// How many pages of a span have each node.
fn counts_of(plan: &Plan, task: u32, first: u64, pages: u64) -> Result<[u64; 256], PlaceRefusal> {
    plan.counts(task, first, pages, 0)
}

/// The counts of a span are alike.
fn expect_counts(rt: &impl Abort, found: &Plan, wanted: &Plan, first: u64, pages: u64) {
    for task in TASKS {
        let counts = counts_of(found, task, first, pages);
        let place = (task, first, pages);
        same(
            rt,
            &(place, counts),
            &(place, counts_of(wanted, task, first, pages)),
        );
    }
}

/// What a run has is alike: each of its pages and the pages beside it, and how many pages each node
/// has.
fn expect_run(rt: &impl Abort, found: &Plan, wanted: &Plan, first: u64, pages: u64) {
    let before = first.saturating_sub(1);
    for far in 0..pages.saturating_add(2) {
        expect_page(rt, found, wanted, before.saturating_add(far));
    }
    expect_counts(rt, found, wanted, first, pages);
}

/// The version, and how many runs and rules there are.
fn sizes_of(plan: &Plan) -> (u64, usize, usize) {
    (plan.version(), plan.run_count(), plan.rule_count())
}

/// The plans answer alike, with as many runs and rules.
pub fn expect_alike(rt: &impl Abort, found: &Plan, wanted: &Plan) {
    same(rt, &sizes_of(found), &sizes_of(wanted));
    for place in 0..wanted.run_count() {
        let Some(run) = wanted.run_at(place) else {
            return;
        };
        expect_run(rt, found, wanted, run.first, run.pages);
    }
}
