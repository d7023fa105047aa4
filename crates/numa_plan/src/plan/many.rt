//! The first nodes of many pages, those without a run marked.
ghost use Rattle.std.specs.Prelude.{◌≡◌, ℕ, ◌+◌, ◌<◌, ◌≤◌, ◌^◌, length, true, EachIndex};
ghost use Rattle.std.specs.Prelude.{slice_index, None, IfOk, IfErr, IfSome, OnOk, OnErr};
ghost use Rattle.numa_machine.specs.declared.refusal.PlaceRefusal.TheVariants.{BadCpu};
ghost use Rattle.numa_ranges.specs.Runs.{page_at};
ghost use Rattle.numa_rows.specs.Searches.{IsChunkOf};
ghost use Rattle.numa_plan.specs.Meaning.{IsNear, first_or};
ghost use Rattle.numa_plan.specs.Rows.{HasRow, first_of, row_number};

use crate::plan::Plan;
use crate::plan::uncounted::{spread_of, told, walk_on};
use crate::rule::Rule;
use crate::runs::{Found, PlanRuns};
use crate::search::Walk;
use crate::spread::Spread;
use numa_lanes::fill_one;
use numa_machine::PlaceRefusal;

/// The number of pages that can be mapped: none has a higher number.
const PAGES: u64 = 1 << 35;

/// Whether a page is so many pages behind another.
#[inline(always)]
fn is_behind(page: u64, first: u64, count: u64) -> bool
    ensures { result ≡ true → page ≡ first + count }
{
    page >= first && page - first == count
}

/// How many of these pages go on by one from the first on, at most so many.
#[inline(always)]
fn in_row(pages: &[u64], most: u64) -> usize
    requires any { 0 < length pages.now }
    requires some { 0 < most }
    ensures some { 0 < result }
    ensures few { result ≤ most }
    ensures within { result ≤ length pages.now }
    ensures each { (k : ℕ) → k < result → slice_index pages.now k
        ≡ slice_index pages.now 0 + k }
{
    let first = pages[0];
    let end = most.min(pages.len() as u64) as usize;
    let mut count = 1usize;
    while count < end {
        if !is_behind(pages[count], first, count as u64) {
            return count;
        }
        count += 1;
    }
    count
}

/// Writes the mark for the first of these pages and for those that go on from it by one, at most so
/// many; returns how many they are.
#[inline(always)]
fn put_mark(mark: u8, most: u64, pages: &[u64], out: &mut [u8]) -> usize
    requires any { 0 < length pages.now }
    requires long { length out.old ≡ length pages.now }
    requires some { 0 < most }
    ensures some { 0 < result }
    ensures few { result ≤ most }
    ensures within { result ≤ length pages.now }
    ensures long { length out.new ≡ length out.old }
    ensures row { (k : ℕ) → k < result → slice_index pages.now k
        ≡ slice_index pages.now 0 + k }
    ensures put { (k : ℕ) → k < result → slice_index out.new k ≡ mark }
{
    let count = in_row(pages, most);
    fill_one(mark, &mut out[..count]);
    count
}

/// What was found last: some pages of a run, from `page` on, and the rule that applies to them.
#[derive(Drop)]
struct Near<'a> {
    page: u64,
    found: Found,
    rule: &'a Rule,
}

impl<'a> Near<'a> {
    /// The distance of a page from the first of them, if it is one of them.
    #[inline(always)]
    fn far(&self, page: u64) -> Option<u64>
        ensures { IfSome result (λ far. (self.now.page + far ≡ page)
            × (far < self.now.found.left)) }
    {
        if page < self.page {
            return None;
        }
        let far = page - self.page;
        if far < self.found.left {
            Some(far)
        } else {
            None
        }
    }

    /// Writes the first nodes of the lists of the first of these pages, which lies at this
    /// distance, and of those that go on from it by one; returns how many they are.
    #[inline(always)]
    fn put(&self, cpu: u32, far: u64, pages: &[u64], out: &mut [u8]) -> usize
        requires any { 0 < length pages.now }
        requires long { length out.old ≡ length pages.now }
        requires place { self.now.page + far ≡ slice_index pages.now 0 }
        requires far { far < self.now.found.left }
        requires low { self.now.page + self.now.found.left ≤ 2 ^ 35 }
        requires few { self.now.found.index + self.now.found.left ≤ 2 ^ 48 }
        requires rows { (k : ℕ) → HasRow self.now.rule.now (row_number self.now.rule.now cpu k) }
        ensures some { 0 < result }
        ensures within { result ≤ length pages.now }
        ensures long { length out.new ≡ length out.old }
        ensures left { far + result ≤ self.now.found.left }
        ensures row { (k : ℕ) → k < result → slice_index pages.now k ≡ self.now.page + far + k }
        ensures put { (k : ℕ) → k < result → slice_index out.new k
            ≡ first_of self.now.rule.now cpu (self.now.found.index + far + k) }
    {
        let rule: &Rule = self.rule;
        let count = in_row(pages, self.found.left - far);
        if count == 1 {
            out[0] = rule.first(cpu, self.found.index + far);
            return 1;
        }
        rule.fill(cpu, self.found.index + far, &mut out[..count]);
        count
    }
}

impl Plan {
    /// The distance of a page from the first of the pages that were found last; where it isn't one
    /// of them, the runs are asked for it. `Err` has how many pages from it on no run has.
    #[inline(always)]
    fn come_to<'a>(
        &'a self,
        task: u32,
        page: u64,
        spread: Spread,
        near: &mut Near<'a>,
        walk: &mut Walk<'a>,
    ) -> Result<u64, u64>
        requires near { IsNear self.now task near.old.page near.old.found near.old.rule.now }
        requires part { IsChunkOf self.now.runs walk.old.part }
        ensures near { IsNear self.now task near.new.page near.new.found near.new.rule.now }
        ensures part { IsChunkOf self.now.runs walk.new.part }
        ensures far { IfOk result (λ far. (near.new.page + far ≡ page)
            × (far < near.new.found.left)) }
        ensures some { IfErr result (λ count. 0 < count) }
        ensures hole { IfErr result (λ count. (q : ℕ) → q < count
            → page_at self.now.runs (page + q) ≡ None) }
    {
        if let Some(far) = near.far(page) {
            return Ok(far);
        }
        match told(&self.runs, page, spread, walk) {
            Ok(found) => {
                let rule = self.rule_for(task, found.rule);
                *near = Near { page, found, rule };
                Ok(0)
            }
            Err(count) => Err(count),
        }
    }

    /// Writes the first node of the list of the first of these pages, or the mark, and of those
    /// that go on from it by one as far as its run or hole reaches; returns how many they are.
    #[inline(always)]
    fn put_next<'a>(
        &'a self,
        task: u32,
        pages: &[u64],
        cpu: u32,
        unmapped: u8,
        spread: Spread,
        near: &mut Near<'a>,
        walk: &mut Walk<'a>,
        out: &mut [u8],
    ) -> usize
        requires any { 0 < length pages.now }
        requires long { length out.old ≡ length pages.now }
        requires cpu { cpu < self.now.nodes }
        requires near { IsNear self.now task near.old.page near.old.found near.old.rule.now }
        requires part { IsChunkOf self.now.runs walk.old.part }
        ensures near { IsNear self.now task near.new.page near.new.found near.new.rule.now }
        ensures part { IsChunkOf self.now.runs walk.new.part }
        ensures some { 0 < result }
        ensures within { result ≤ length pages.now }
        ensures long { length out.new ≡ length out.old }
        ensures put { (k : ℕ) → k < result → slice_index out.new k
            ≡ first_or unmapped self.now task (slice_index pages.now k) cpu }
    {
        match self.come_to(task, pages[0], spread, near, walk) {
            Ok(far) => near.put(cpu, far, pages, out),
            Err(count) => put_mark(unmapped, count, pages, out),
        }
    }

    /// Writes the first node of the list of each of these pages, in whatever order they are, and
    /// the mark `unmapped` for those that no run has. A page of the run that was found last, or of
    /// the next, costs no search, and pages that go on by one are told at once.
    ///
    /// # Errors
    /// `BadCpu`: the plan has no node `cpu`, even if there are no pages. Then nothing has been
    /// written.
    pub fn nodes_of(
        &self,
        task: u32,
        pages: &[u64],
        cpu: u32,
        unmapped: u8,
        out: &mut [u8],
    ) -> Result<(), PlaceRefusal>
        requires { length pages.now ≡ length out.old }
        ensures ok { OnOk result ((cpu < self.now.nodes) × EachIndex out.new (λ k.
            slice_index out.new k
            ≡ first_or unmapped self.now task (slice_index pages.now k) cpu)) }
        ensures err { IfErr result (λ refusal. (refusal ≡ BadCpu) × (self.now.nodes ≤ cpu)) }
        ensures unchanged { OnErr result (out.new ≡ out.old) }
    {
        if cpu >= self.nodes {
            return Err(PlaceRefusal::BadCpu);
        }
        let spread = spread_of(&self.runs);
        let mut walk = walk_on(&self.runs, PlanRuns::seen());
        let mut near = self.nowhere();
        let mut done = 0usize;
        while done < pages.len() {
            done += self.put_next(
                task,
                &pages[done..],
                cpu,
                unmapped,
                spread,
                &mut near,
                &mut walk,
                &mut out[done..],
            );
        }
        Ok(())
    }

    /// Writes the first node of the list of each page from `first` on, and the mark `unmapped` for
    /// those that no run has. Pages of one run are told at once, and those of a hole.
    ///
    /// # Errors
    /// `BadCpu`: the plan has no node `cpu`, even if there are no pages. Then nothing has been
    /// written.
    pub fn fill_marked(
        &self,
        task: u32,
        first: u64,
        cpu: u32,
        unmapped: u8,
        out: &mut [u8],
    ) -> Result<(), PlaceRefusal>
        ensures ok { OnOk result ((cpu < self.now.nodes) × EachIndex out.new (λ k.
            slice_index out.new k ≡ first_or unmapped self.now task (first + k) cpu)) }
        ensures err { IfErr result (λ refusal. (refusal ≡ BadCpu) × (self.now.nodes ≤ cpu)) }
        ensures unchanged { OnErr result (out.new ≡ out.old) }
    {
        if cpu >= self.nodes {
            return Err(PlaceRefusal::BadCpu);
        }
        // Tells the proof that no page of a run has a higher number.
        let _ = self.runs.len();
        let low = PAGES.saturating_sub(first).min(out.len() as u64) as usize;
        let spread = spread_of(&self.runs);
        let mut walk = walk_on(&self.runs, PlanRuns::seen());
        let mut done = 0usize;
        while done < low {
            let page = first + done as u64;
            done += self.put_part(
                task,
                page,
                cpu,
                unmapped,
                spread,
                &mut walk,
                &mut out[done..low],
            );
        }
        fill_one(unmapped, &mut out[done..]);
        Ok(())
    }

    /// Writes the same for the pages from this one on that are of the same run as it, or of the
    /// same hole; returns how many they are.
    #[inline(always)]
    fn put_part<'a>(
        &'a self,
        task: u32,
        page: u64,
        cpu: u32,
        unmapped: u8,
        spread: Spread,
        walk: &mut Walk<'a>,
        out: &mut [u8],
    ) -> usize
        requires any { 0 < length out.old }
        requires cpu { cpu < self.now.nodes }
        requires part { IsChunkOf self.now.runs walk.old.part }
        ensures part { IsChunkOf self.now.runs walk.new.part }
        ensures some { 0 < result }
        ensures within { result ≤ length out.new }
        ensures long { length out.new ≡ length out.old }
        ensures put { (k : ℕ) → k < result → slice_index out.new k
            ≡ first_or unmapped self.now task (page + k) cpu }
    {
        let most = out.len() as u64;
        match told(&self.runs, page, spread, walk) {
            Ok(found) => {
                let count = found.left.min(most) as usize;
                let rule = self.rule_for(task, found.rule);
                rule.fill(cpu, found.index, &mut out[..count]);
                count
            }
            Err(hole) => {
                let count = hole.min(most) as usize;
                fill_one(unmapped, &mut out[..count]);
                count
            }
        }
    }

    /// Nothing was found yet.
    fn nowhere(&self) -> Near<'_>
        ensures { (task : ℕ) → IsNear self.now task result.page result.found result.rule.now }
    {
        let found = Found {
            index: 0,
            left: 0,
            rule: None,
        };
        Near {
            page: 0,
            found,
            rule: self.rule_for(0, None),
        }
    }
}
