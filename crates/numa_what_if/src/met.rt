//! The report of what a trace met, as a text or as a page.
use crate::stage::{Planned, spans_of};
use numa_answers::{About, PageData, reported, shown_as, told_of, view_text};
use numa_plan::Plan;
use numa_reports::{PredictionRequest, ReportError};
use numa_sheets::{Format, Touch};
use numa_space::Space;
use numa_subjects::{Added, Halt, Subject};
use numa_traces::{
    Moment, RangeTallies, RangesMet, Replay, ReplayError, ReplayForm, Tallies, TraceState,
    moments_of, placed_text, report_text,
};
use std::alloc::{AllocError, Global};

/// The most runs of pages on one node that a page shows.
const RUNS: u64 = 20_000;

/// The task and the CPU's node of the way with the most accesses; 0 and 0 without accesses.
fn busiest(replay: &Replay) -> Touch {
    let mut touch = Touch { task: 0, cpu: 0 };
    let mut most = 0u64;
    for (way, tally) in replay.tallies().iter() {
        if tally.accesses > most {
            most = tally.accesses;
            touch = Touch {
                task: way.0,
                cpu: way.1,
            };
        }
    }
    touch
}

/// The data of a page with a report, with where pages lie now and, before the trace, would go for
/// the task and the CPU with the most accesses, in the largest `number` ranges.
fn data_of(
    alloc: Global,
    space: &Space,
    plan: &Plan,
    replay: &Replay,
    report: &[u8],
    number: u32,
) -> Result<Vec<u8>, ReportError> {
    let request = PredictionRequest::of(space, plan, busiest(replay));
    let view = view_text(alloc, request, number, &mut ())?;
    let placed = placed_text(alloc, replay, RUNS)?;
    let mut data = PageData::new(alloc);
    data.put("replay", report);
    data.put("before", view.as_slice());
    data.put("placed", placed.as_slice());
    Ok(data.end()?)
}

/// The report of a replay in a space, which tells by range what is counted so.
fn text_of(
    alloc: Global,
    space: &Space,
    moments: &[Moment<'_>],
    ranges: &Option<RangeTallies>,
    form: ReplayForm,
) -> Result<Vec<u8>, AllocError> {
    let machine = space.machine();
    let Some(tallies) = ranges else {
        return report_text(alloc, machine, moments, None, form);
    };
    let spans = spans_of(alloc, space)?;
    let met = RangesMet {
        tallies,
        spans: spans.as_slice(),
    };
    let text = report_text(alloc, machine, moments, Some(met), form);
    drop(spans);
    text
}

/// The report of a replay on the machine of a space, with what was counted at the marks and the end
/// of its trace, and by range if it was, as a text, or as the data of a page.
pub(crate) fn report_in(
    alloc: Global,
    planned: Planned<'_>,
    replay: &Replay,
    moments: &[Moment<'_>],
    ranges: &Option<RangeTallies>,
    form: ReplayForm,
) -> Result<Vec<u8>, Halt> {
    let (space, plan) = (planned.space, planned.plan);
    let text = text_of(alloc, space, moments, ranges, form)?;
    let Format::Html(number) = form.format else {
        return Ok(text);
    };
    let data = data_of(alloc, space, plan, replay, text.as_slice(), number);
    reported(data, space.machine().nodes())
}

/// Whether no access found a place, and there were some.
pub(crate) fn serves_nothing(tallies: &Tallies) -> bool {
    !tallies.is_empty() && tallies.are_unserved()
}

/// What a trace of one space has met.
#[derive(Clone, Copy)]
pub struct TraceMet<'a> {
    pub state: &'a TraceState,
    /// The first line that can't be replayed, and why, if there is one.
    pub fault: Option<(u64, ReplayError)>,
    /// Whether pages take room, and not frames.
    pub takes_room: bool,
}

/// The report of a whole trace, as a text, or as a page, in a space as it is after it, by the plan
/// of its accepted commands.
///
/// # Errors
/// `BadAccess`: the first line of the trace that can't be replayed; `NothingServed`: pages take
/// room, and none found any; or `Stopped`: out of memory.
pub fn report_of(
    alloc: Global,
    planned: Planned<'_>,
    met: TraceMet<'_>,
    form: ReplayForm,
) -> Result<Vec<u8>, Halt> {
    if let Some((place, fault)) = met.fault {
        return Err(Halt::BadAccess(place, fault));
    }
    let state = met.state;
    if met.takes_room && serves_nothing(state.replay.tallies()) {
        return Err(Halt::NothingServed);
    }
    let moments = moments_of(alloc, &state.replay, state.marks.as_slice())?;
    let text = report_in(
        alloc,
        planned,
        &state.replay,
        moments.as_slice(),
        &state.ranges,
        form,
    );
    drop(moments);
    let format = form.format;
    let text = shown_as(alloc, format, "replay", text?)?;
    let subject = Subject::One(planned.space, planned.member);
    let about = About::of(subject, None, Added::fine(&[]));
    told_of(alloc, format, &about, text)
}
