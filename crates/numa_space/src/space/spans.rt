//! The pages of the spans that commands name.
ghost use Rattle.std.specs.Prelude.{◌≡◌, ◌+◌, ◌≤◌, ◌^◌, false, MatchResult, IfOk};
ghost use Rattle.numa_machine.specs.Rules.{is_linux};
ghost use Rattle.numa_machine.specs.Sizes.{whole};
ghost use Rattle.numa_ranges.specs.Maps.{IsSpan};
ghost use Rattle.numa_space.specs.Edits.{IsSpanOf};
ghost use Rattle.numa_space.specs.History.{page_of, page_count};
ghost use Rattle.numa_space.specs.Refusals.{bad_map_span, bad_policy_span, bad_span};
ghost use Rattle.numa_space.specs.Refusals.{bad_unmap_span, ends_above};

use crate::space::Space;
use numa_machine::{PageSize, Rules};
use numa_requests::{PAGE_BYTES, Refusal};

/// The end of the addresses of a space.
const SPACE_END: u64 = 1 << 47;

/// The start of its last page, which the kernel keeps free.
const KERNEL_END: u64 = SPACE_END - PAGE_BYTES;

/// The first page of a span and the number of its pages; its length is rounded up to whole pages of
/// this size.
fn pages_of(size: PageSize, start: u64, length: u64) -> (u64, u64)
    ensures first { result.0 ≡ page_of start }
    ensures count { result.1 ≡ page_count (whole size length) }
{
    (start / PAGE_BYTES, size.parts_in(length))
}

/// Whether a span ends above an address.
fn ends_above(address: u64, size: PageSize, start: u64, length: u64) -> bool
    ensures { result ≡ ends_above address start (whole size length) }
{
    let (_, pages) = pages_of(size, start, length);
    start > address || pages > (address - start) / PAGE_BYTES
}

/// The pages of a span, by the documents' rules.
fn span_of(size: PageSize, start: u64, length: u64) -> Result<(u64, u64), Refusal>
    ensures span { IsSpanOf (bad_span size start (whole size length)) start (whole size length)
        result }
    ensures within { IfOk result (λ span. span.0 + span.1 ≤ 2 ^ 35) }
{
    if !size.begins_at(start) {
        return Err(Refusal::Unaligned);
    }
    if ends_above(SPACE_END, size, start, length) {
        return Err(Refusal::OutOfSpace);
    }
    Ok(pages_of(size, start, length))
}

/// The pages of a span that is to be mapped, by the documents' rules.
#[tactic(auto, unfolding(crate::specs::Refusals::bad_map_span))]
fn documented_map_span(size: PageSize, start: u64, length: u64) -> Result<(u64, u64), Refusal>
    ensures span { IsSpanOf (bad_map_span Rules.Document size start (whole size length)) start
        (whole size length) result }
    ensures within { IfOk result (λ span. IsSpan span.0 span.1) }
{
    match span_of(size, start, length) {
        Err(refusal) => Err(refusal),
        Ok(_) if size.takes_no_page(length) => Err(Refusal::EmptyLength),
        Ok(span) => Ok(span),
    }
}

/// The pages of a span that is to be mapped, by the kernel's rules.
#[tactic(auto, unfolding(crate::specs::Refusals::bad_map_span))]
fn kernel_map_span(size: PageSize, start: u64, length: u64) -> Result<(u64, u64), Refusal>
    ensures span { IsSpanOf (bad_map_span Rules.Linux size start (whole size length)) start
        (whole size length) result }
    ensures within { IfOk result (λ span. IsSpan span.0 span.1) }
{
    if size.takes_no_page(length) {
        return Err(Refusal::EmptyLength);
    }
    if ends_above(KERNEL_END, size, start, length) {
        return Err(Refusal::OutOfSpace);
    }
    if !size.begins_at(start) {
        return Err(Refusal::Unaligned);
    }
    Ok(pages_of(size, start, length))
}

/// The pages of a span that is to be unmapped, by the kernel's rules.
#[tactic(auto, unfolding(crate::specs::Refusals::bad_unmap_span))]
fn kernel_unmap_span(start: u64, length: u64) -> Result<(u64, u64), Refusal>
    ensures span { IsSpanOf (bad_unmap_span Rules.Linux start length) start length result }
    ensures within { IfOk result (λ span. span.0 + span.1 ≤ 2 ^ 35) }
{
    if !PageSize::Small.begins_at(start) {
        return Err(Refusal::Unaligned);
    }
    if ends_above(KERNEL_END, PageSize::Small, start, length) {
        return Err(Refusal::BadSpan);
    }
    if length == 0 {
        return Err(Refusal::EmptyLength);
    }
    Ok(pages_of(PageSize::Small, start, length))
}

/// The pages of a span whose policies are to change, by the kernel's rules.
#[tactic(auto, unfolding(crate::specs::Refusals::bad_policy_span))]
fn kernel_policy_span(start: u64, length: u64) -> Result<(u64, u64), Refusal>
    ensures span { IsSpanOf (bad_policy_span Rules.Linux start length) start length result }
{
    if !PageSize::Small.begins_at(start) {
        return Err(Refusal::Unaligned);
    }
    if ends_above(u64::MAX, PageSize::Small, start, length) {
        return Err(Refusal::BadSpan);
    }
    Ok(pages_of(PageSize::Small, start, length))
}

impl Space {
    /// The pages of a span that is to be unmapped.
    #[tactic(auto, unfolding(crate::specs::Refusals::bad_unmap_span))]
    pub(super) fn unmap_span_of(&self, start: u64, length: u64) -> Result<(u64, u64), Refusal>
        ensures span { IsSpanOf (bad_unmap_span self.now.machine.rules start length) start length
            result }
        ensures within { IfOk result (λ span. span.0 + span.1 ≤ 2 ^ 35) }
    {
        match self.machine.rules() {
            Rules::Document => span_of(PageSize::Small, start, length),
            Rules::Linux => kernel_unmap_span(start, length),
        }
    }

    /// The pages of a span that is to be mapped as pages of this size.
    pub(super) fn map_span_of(
        &self,
        size: PageSize,
        start: u64,
        length: u64,
    ) -> Result<(u64, u64), Refusal>
        ensures span { IsSpanOf
            (bad_map_span self.now.machine.rules size start (whole size length)) start
            (whole size length) result }
        ensures within { IfOk result (λ span. IsSpan span.0 span.1) }
    {
        match self.machine.rules() {
            Rules::Document => documented_map_span(size, start, length),
            Rules::Linux => kernel_map_span(size, start, length),
        }
    }

    /// The pages of a span whose policies are to change.
    #[tactic(auto, unfolding(crate::specs::Refusals::bad_policy_span))]
    pub(super) fn policy_span_of(&self, start: u64, length: u64) -> Result<(u64, u64), Refusal>
        ensures span { IsSpanOf (bad_policy_span self.now.machine.rules start length) start length
            result }
        ensures within { is_linux self.now.machine.rules ≡ false
            → IfOk result (λ span. span.0 + span.1 ≤ 2 ^ 35) }
    {
        match self.machine.rules() {
            Rules::Document => span_of(PageSize::Small, start, length),
            Rules::Linux => kernel_policy_span(start, length),
        }
    }
}
