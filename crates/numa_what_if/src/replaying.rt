//! Replaying traces in a space, or in each process of a host.
use crate::met::{TraceMet, report_in, report_of};
use crate::stage::{Planned, plan_of, room_of};
use numa_answers::{About, add_answer, shown_as, told_of};
use numa_host::{Host, Process};
use numa_lines::{RunFault, TakeLine};
use numa_plan::Plan;
use numa_reports::ByProcess;
use numa_sheets::Format;
use numa_space::Space;
use numa_subjects::{Added, Halt, Subject, differ};
use numa_traces::{
    HostReplay, HostTrace, PlanReplay, ReplayForm, Replaying, moments_in, moments_of_all, read_by,
    total_text,
};
use std::alloc::{AllocError, Global};
use std::io::Read;

/// A replay, and the same by the other rules, if that is wanted.
#[derive(Drop)]
struct ByBoth<T> {
    first: T,
    other: Option<T>,
}

impl<T: TakeLine<()>> TakeLine<()> for ByBoth<T> {
    fn take(&mut self, name: &str, place: u64, line: &[u8], _: &mut ()) -> Result<(), RunFault> {
        if let Err(why) = self.first.take(name, place, line, &mut ()) {
            return Err(why);
        }
        match &mut self.other {
            Some(other) => other.take(name, place, line, &mut ()),
            None => Ok(()),
        }
    }

    fn hand_over(&mut self, _output: &mut ()) -> Result<(), RunFault> {
        Ok(())
    }
}

/// Two of one kind, or the first alone.
fn both_of<T: Drop>(first: T, other: Option<Result<T, Halt>>) -> Result<ByBoth<T>, Halt> {
    match other {
        Some(Ok(other)) => Ok(ByBoth {
            first,
            other: Some(other),
        }),
        Some(Err(halt)) => {
            drop(first);
            Err(halt)
        }
        None => Ok(ByBoth { first, other: None }),
    }
}

/// Reads a trace to its end, if there is a replay before its first line.
fn read_whole<S: Read + Drop, T: TakeLine<()> + Drop>(
    alloc: Global,
    begun: Result<T, Halt>,
    trace: Vec<(String, S)>,
) -> Result<T, Halt> {
    let replay = match begun {
        Ok(replay) => replay,
        Err(halt) => {
            drop(trace);
            return Err(halt);
        }
    };
    match read_by(alloc, trace, replay) {
        Ok(replay) => Ok(replay),
        Err(why) => Err(Halt::Stopped(why)),
    }
}

/// A report, and whether it is another by the other rules.
#[derive(Drop)]
pub struct Replayed {
    pub text: Vec<u8>,
    pub is_other: bool,
}

/// A report, if there is one, that is another by the other rules or isn't.
fn replayed_as(text: Result<Vec<u8>, Halt>, is_other: bool) -> Result<Replayed, Halt> {
    match text {
        Ok(text) => Ok(Replayed { text, is_other }),
        Err(halt) => Err(halt),
    }
}

/// Adds a process, which goes by the plan of all its accepted commands.
fn add_process(alloc: Global, process: &Process, replay: &mut HostReplay) -> Result<(), Halt> {
    let plan = plan_of(alloc, &process.space)?;
    Ok(replay.add(alloc, process.id, plan)?)
}

/// Adds processes.
fn add_processes(
    alloc: Global,
    processes: &[Process],
    replay: &mut HostReplay,
) -> Result<(), Halt> {
    for process in processes {
        add_process(alloc, process, replay)?;
    }
    Ok(())
}

/// All processes of a host before the first access.
fn begun(alloc: Global, host: &Host, room: Option<&[u64]>) -> Result<Replaying<HostTrace>, Halt> {
    let room = room_of(alloc, host.machine(), room)?;
    let mut replay = HostReplay::new(alloc, room);
    match add_processes(alloc, host.processes(), &mut replay) {
        Ok(()) => Ok(Replaying::new(HostTrace::new(alloc, replay))),
        Err(halt) => {
            drop(replay);
            Err(halt)
        }
    }
}

/// Adds what the accesses of a process met.
fn add_report<'a>(
    alloc: Global,
    process: &'a Process,
    trace: &'a HostTrace,
    form: ReplayForm,
    answers: &mut ByProcess,
) -> Result<(), Halt> {
    let Some(one) = trace.replay.process(process.id) else {
        return Ok(());
    };
    let moments = moments_in(alloc, trace, process.id)?;
    let planned = Planned {
        space: &process.space,
        member: None,
        plan: &one.plan,
    };
    let text = report_in(alloc, planned, &one.replay, moments.as_slice(), &None, form);
    drop(moments);
    add_answer(answers, process, text)
}

/// Adds what the accesses of processes met.
fn add_reports(
    alloc: Global,
    processes: &[Process],
    trace: &HostTrace,
    form: ReplayForm,
    answers: &mut ByProcess,
) -> Result<(), Halt> {
    for process in processes {
        add_report(alloc, process, trace, form, answers)?;
    }
    Ok(())
}

/// What all processes met.
fn total_of(
    alloc: Global,
    host: &Host,
    trace: &HostTrace,
    form: ReplayForm,
) -> Result<Vec<u8>, AllocError> {
    let moments = moments_of_all(alloc, trace)?;
    let total = total_text(alloc, host.machine(), moments.as_slice(), form);
    drop(moments);
    total
}

/// What a trace met, by process and in all.
fn reports(
    alloc: Global,
    host: &Host,
    trace: &HostTrace,
    form: ReplayForm,
    answers: &mut ByProcess,
) -> Result<Vec<u8>, Halt> {
    add_reports(alloc, host.processes(), trace, form, answers)?;
    let total = total_of(alloc, host, trace, form)?;
    answers.end_trace(total.as_slice());
    drop(total);
    let text = answers.take()?;
    let format = form.format;
    let text = shown_as(alloc, format, "replay", text)?;
    let about = About::of(Subject::Each(host), None, Added::fine(&[]));
    told_of(alloc, format, &about, text)
}

/// Whether no access of any process found a place, and there were some.
fn serve_nothing(trace: &HostTrace) -> bool {
    let mut has_accesses = false;
    for (_, one) in trace.replay.iter() {
        let tallies = one.replay.tallies();
        if !tallies.are_unserved() {
            return false;
        }
        has_accesses = has_accesses || !tallies.is_empty();
    }
    has_accesses
}

/// The reports of a whole trace.
fn met_in_each(
    alloc: Global,
    host: &Host,
    room: Option<&[u64]>,
    replaying: &Replaying<HostTrace>,
    form: ReplayForm,
) -> Result<Vec<u8>, Halt> {
    if let Some((place, fault)) = replaying.fault() {
        return Err(Halt::BadAccess(place, fault));
    }
    if room.is_some() && serve_nothing(replaying.replay()) {
        return Err(Halt::NothingServed);
    }
    let mut answers = ByProcess::of_trace(alloc, form.format);
    let text = reports(alloc, host, replaying.replay(), form, &mut answers);
    drop(answers);
    text
}

/// All processes of a host before the first access, and of another host, if there is one.
fn both_hosts_begun(
    alloc: Global,
    host: &Host,
    other: Option<&Host>,
    room: Option<&[u64]>,
) -> Result<ByBoth<Replaying<HostTrace>>, Halt> {
    let first = begun(alloc, host, room)?;
    let other = match other {
        Some(other) => Some(begun(alloc, other, room)),
        None => None,
    };
    both_of(first, other)
}

/// Replays a trace whose lines name processes of a host, each by the plan of its accepted commands,
/// on the same frames, or in the same room where there is some, and in another host, if there is
/// one.
///
/// # Errors
/// `ManyProcesses`: it is asked for by range; `BadAccess`: the first line of the trace that can't
/// be replayed; `NothingServed`: pages take room, and none found any; or `Stopped`: a read failed,
/// or out of memory.
pub fn replay_hosts<S: Read + Drop>(
    alloc: Global,
    host: &Host,
    other: Option<&Host>,
    room: Option<&[u64]>,
    trace: Vec<(String, S)>,
    form: ReplayForm,
) -> Result<Replayed, Halt> {
    if form.by_range {
        drop(trace);
        return Err(Halt::ManyProcesses);
    }
    let begun = both_hosts_begun(alloc, host, other, room);
    let both = read_whole(alloc, begun, trace)?;
    let text = met_in_each(alloc, host, room, &both.first, form);
    let is_other = match (other, &both.other) {
        (Some(other), Some(replaying)) => {
            let own = met_in_each(alloc, host, room, &both.first, form.with(Format::Text));
            differ(
                own,
                met_in_each(alloc, other, room, replaying, form.with(Format::Text)),
            )
        }
        _ => false,
    };
    drop(both);
    replayed_as(text, is_other)
}

/// A trace before its first line in a space by its plan, on frames.
fn begun_on_frames<'a>(
    alloc: Global,
    space: &Space,
    plan: &'a Plan,
) -> Result<Replaying<PlanReplay<'a>>, Halt> {
    let room = room_of(alloc, space.machine(), None)?;
    let replay = PlanReplay::new(alloc, plan, None, None, room, None);
    Ok(Replaying::new(replay))
}

/// Replays a trace in a space by its plan, on frames.
fn replayed_on_frames<S: Read + Drop>(
    alloc: Global,
    space: &Space,
    plan: &Plan,
    trace: Vec<(String, S)>,
    format: Format,
) -> Result<Vec<u8>, Halt> {
    let begun = begun_on_frames(alloc, space, plan);
    let replaying = read_whole(alloc, begun, trace)?;
    let met = TraceMet {
        state: &replaying.replay().state,
        fault: replaying.fault(),
        takes_room: false,
    };
    let planned = Planned {
        space,
        member: None,
        plan,
    };
    let text = report_of(alloc, planned, met, ReplayForm::plain(format));
    drop(replaying);
    text
}

/// What a trace meets on the machine of a space, where no page is placed and each takes a frame, as
/// a text.
///
/// # Errors
/// `BadAccess`: the first line of the trace that can't be replayed; or `Stopped`: a read failed, or
/// out of memory.
pub fn replay_space<S: Read + Drop>(
    alloc: Global,
    space: &Space,
    trace: Vec<(String, S)>,
    format: Format,
) -> Result<Vec<u8>, Halt> {
    let plan = match plan_of(alloc, space) {
        Ok(plan) => plan,
        Err(halt) => {
            drop(trace);
            return Err(halt);
        }
    };
    let text = replayed_on_frames(alloc, space, &plan, trace, format);
    drop(plan);
    text
}
