//! Ranges of pages.
ghost use Rattle.std.specs.Prelude.{◌≡◌, ◌≢◌, ◌≤◌, ◌^◌, Some, None, is_some, true, List, ℕ, length};
ghost use Rattle.std.specs.Prelude.{slice_get};
ghost use Rattle.numa_core.specs.Standing.{CoreState};
ghost use Rattle.numaplan_handles.specs.Handles.{core_in};
ghost use Rattle.numaplan_handles.specs.Asked.{HasRanges};
ghost use Rattle.numa_maps.specs.Listing.{AreRangesOf};
ghost use Rattle.numa_ranges.specs.Runs.{end_of};
ghost use Rattle.numa_space.specs.Standing.{StandsFor};
ghost use Rattle.numa_requests.specs.declared.command.Command.{Command};
ghost use Rattle.numaplan_c.specs.Border.{Asked};
ghost use Rattle.numaplan_c.specs.Ranges.{TellsRange, own_word, range_span};
ghost use Rattle.numaplan_c.specs.Texts.{IsWritten};

use crate::codes::Code;
use crate::keeping::{if_open, tell_if_open};
use crate::texts::write;
use numa_mode::Record;
use numa_ranges::Run;
use numa_requests::PAGE_BYTES;
use numa_space::RangeRecord;
use numaplan_handles::CoreHandle;
use std::alloc::Global;

/// Returns the number of ranges.
#[unsafe(no_mangle)]
pub extern "C" fn np_core_ranges(alloc: Global, core: &mut CoreHandle, count: &mut usize) -> u32
    ensures { Asked (core_in core.old) (core_in core.new) result (count.new ≡ count.old)
        (λ kept. (result ≡ 0) × HasRanges (core_in core.old) count.new) }
{
    tell_if_open!(count, core.ranges(alloc))
}

/// A range of pages: its address and length in bytes, and the index of its first page, in pages.
#[repr(C)]
#[derive(Clone, Copy)]
pub struct NpRange {
    pub start: u64,
    pub length: u64,
    pub offset: u64,
}

const _: () = prove!(size_of::<NpRange>() == 24);

/// Writes the own policy of a range as a word.
fn tell_word(policy: Option<Record>, room: &mut [u8], length: &mut usize) -> u32
    ensures { IsWritten (own_word policy) result room.old room.new length.new }
{
    match policy {
        Some(policy) => write(policy.policy_text().as_str().as_bytes(), room, length),
        None => write(b"", room, length),
    }
}

/// Writes a range, and its own policy as a word.
pub(crate) fn tell_range(
    found: &Run<RangeRecord>,
    range: &mut NpRange,
    policy: &mut [u8],
    length: &mut usize,
) -> u32
    requires end { end_of found.now ≤ 2 ^ 35 }
    ensures word { IsWritten (own_word found.now.value) result policy.old policy.new length.new }
    ensures told { result ≡ 0 → range.new ≡ range_span found.now }
    ensures untold { result ≢ 0 → range.new ≡ range.old }
{
    let code = tell_word(found.value.policy(), policy, length);
    if code != 0 {
        return code;
    }
    *range = NpRange {
        start: found.first * PAGE_BYTES,
        length: found.pages * PAGE_BYTES,
        offset: found.index,
    };
    0
}

/// Returns the range at a place, and its own policy as a word.
#[unsafe(no_mangle)]
pub extern "C" fn np_core_range(
    alloc: Global,
    core: &mut CoreHandle,
    index: usize,
    range: &mut NpRange,
    policy: &mut [u8],
    length: &mut usize,
) -> u32
    ensures told { Asked (core_in core.old) (core_in core.new) result
        ((range.new ≡ range.old) × (policy.new ≡ policy.old) × (length.new ≡ length.old))
        (λ kept. TellsRange (slice_get kept.space.ranges index) result range.old range.new
        policy.old policy.new length.old length.new) }
    ensures meaning { (kept : CoreState) → core_in core.old ≡ Some kept →
        (history : List Command) → StandsFor kept.space history
        → AreRangesOf kept.space.machine history kept.space.ranges }
{
    if_open!(core.range(alloc, index), Code::NoRange, found => {
        tell_range(&found, range, policy, length)
    })
}
