//! Readers of what a desk publishes.
ghost use Rattle.std.specs.Prelude.{◌≡◌, ◌≢◌, ℕ, None, Some, Result, Ok, Err, length};
ghost use Rattle.numa_machine.specs.declared.refusal.PlaceRefusal.{PlaceRefusal};
ghost use Rattle.numa_publish.specs.Shown.{ViewState};
ghost use Rattle.numaplan_handles.specs.Handles.{reader_in, reader_seen};
ghost use Rattle.numaplan_handles.specs.Readers.{ChoosesSeen, CountsSeen, FillsSeen};
ghost use Rattle.numaplan_handles.specs.declared.plan_view.ChoiceRefusal.{ChoiceRefusal};
ghost use Rattle.numaplan_c.specs.Border.{Read};
ghost use Rattle.numaplan_c.specs.Codes.{place_code};
ghost use Rattle.numaplan_c.specs.Desks.{Renewed};
ghost use Rattle.numaplan_c.specs.Questions.{AreTold, choice_code, fill_code};

use crate::codes::{Code, place_code};
use crate::keeping::{if_open, tell_if_open};
use crate::plans::{NpCounts, fill_code, tell_choice};
use numa_page_state::Toucher;
use numa_publish::LookRefusal;
use numa_requests::Request;
use numaplan_handles::{PageSpan, ReaderHandle, ReaderView};
use std::alloc::Global;

/// Looks at the newest version.
#[unsafe(no_mangle)]
pub extern "C" fn np_reader_enter(
    alloc: Global,
    reader: &mut ReaderHandle,
    least: u64,
    version: &mut u64,
) -> u32
    ensures { Renewed least (reader_in reader.old) result (reader_in reader.new) version.old
        version.new }
{
    match reader.renew(alloc, least) {
        None => Code::Closed as u32,
        Some(Err(LookRefusal::Ended)) => Code::Ended as u32,
        Some(Err(LookRefusal::NotYet)) => Code::NotYet as u32,
        Some(Ok(seen)) => {
            *version = seen;
            0
        }
    }
}

/// Returns the version at which a reader looks.
#[unsafe(no_mangle)]
pub extern "C" fn np_reader_version(reader: &ReaderView, version: &mut u64) -> u32
    ensures { Read (reader_seen reader.now) result (version.new ≡ version.old)
        (λ kept. (result ≡ 0) × (version.new ≡ length kept.history)) }
{
    tell_if_open!(version, reader.version())
}

/// Copies the fallback list of a page.
#[unsafe(no_mangle)]
pub extern "C" fn np_reader_choice(
    reader: &ReaderView,
    task: u32,
    page: u64,
    cpu: u32,
    nodes: &mut [u8],
    count: &mut usize,
) -> u32
    ensures { Read (reader_seen reader.now) result
        ((nodes.new ≡ nodes.old) × (count.new ≡ count.old))
        (λ kept. (answer : Result ℕ ChoiceRefusal) × (result ≡ choice_code answer)
        × ChoosesSeen (reader_seen reader.now) task page cpu nodes.old nodes.new answer
        × AreTold answer count.old count.new) }
{
    let asked = Request { task, page, cpu };
    if_open!(reader.choose(asked, nodes), answer => tell_choice(answer, count))
}

/// Writes the first node of each page's list.
#[unsafe(no_mangle)]
pub extern "C" fn np_reader_fill(
    reader: &ReaderView,
    task: u32,
    cpu: u32,
    first: u64,
    nodes: &mut [u8],
) -> u32
    ensures { Read (reader_seen reader.now) result (nodes.new ≡ nodes.old)
        (λ kept. (answer : Result (Unit {0}) PlaceRefusal) × (result ≡ fill_code answer)
        × FillsSeen (reader_seen reader.now) task first cpu answer nodes.old nodes.new) }
{
    if_open!(reader.fill(Toucher { task, cpu }, first, nodes), answer => fill_code(answer))
}

/// Counts, for each node, the pages of a span whose list begins with it.
#[unsafe(no_mangle)]
pub extern "C" fn np_reader_counts(
    reader: &ReaderView,
    task: u32,
    cpu: u32,
    first: u64,
    pages: u64,
    counts: &mut NpCounts,
) -> u32
    ensures closed { reader_seen reader.now ≡ None → (result ≡ 1) × (counts.new ≡ counts.old) }
    ensures ok { result ≡ 0 → (kept : ViewState) → reader_seen reader.now ≡ Some kept →
        CountsSeen (reader_seen reader.now) task first pages cpu (Ok counts.new.pages) }
    ensures err { result ≢ 0 → counts.new ≡ counts.old }
    ensures refused { result ≢ 0 → (kept : ViewState) → reader_seen reader.now ≡ Some kept →
        (cause : PlaceRefusal) × (result ≡ place_code cause)
        × CountsSeen (reader_seen reader.now) task first pages cpu (Err cause) }
{
    match reader.counts(Toucher { task, cpu }, PageSpan { first, pages }) {
        None => Code::Closed as u32,
        Some(Ok(found)) => {
            counts.pages = found;
            0
        }
        Some(Err(refusal)) => place_code(refusal),
    }
}

/// Frees a reader: its place at the desk is free again.
#[unsafe(no_mangle)]
pub extern "C" fn np_reader_close(alloc: Global, reader: &mut ReaderHandle)
    ensures { reader_in reader.new ≡ None }
{
    reader.handle.close(alloc)
}
