//! Replaying traces after scripts.
use crate::asking::remarked;
use crate::deeds::{Deeds, Tracing};
use crate::moving::judge_free;
use numa_host::Host;
use numa_host_script::HostScript;
use numa_lines::RunFault;
use numa_machine::Machine;
use numa_placed::Rooms;
use numa_play::{Findings, HugeCount, Scripts, answer, other_subject, plain_by, play, subject_of};
use numa_sheets::{Format, FreePages};
use numa_space::Space;
use numa_subjects::{Ended, Halt, Subject, Twin, differ, host_in};
use numa_traces::{ReplayForm, all_frames, has_frames, read_by, room_before};
use numa_what_if::{Planned, Replayed, TraceMet, plan_of, replay_hosts, report_of, state_of};
use std::alloc::{AllocError, Global};
use std::io::{Read, Write};

/// A trace that is replayed.
#[derive(Drop)]
pub struct Traced<'a, S> {
    /// Its texts.
    pub texts: Vec<(String, S)>,
    /// For how many more pages nodes have room, in place of frames; the others never fill. Where
    /// none are named pages take frames, or as much room as lines say if no node has a frame.
    pub free: &'a [FreePages],
    pub format: Format,
    /// Whether the mean distance is told too, but in CSV.
    pub has_mean: bool,
    /// Whether it is told by range too, the busiest first.
    pub by_range: bool,
}

/// How much room nodes have after the script of one process, if lines say it of one.
fn rooms_of(script: &HostScript) -> Option<&Rooms> {
    script.script()?.pages()?.rooms()
}

/// The machine of what an answer is about.
fn machine_of<'a>(subject: &Subject<'a>) -> &'a Machine {
    match subject {
        Subject::One(space, _) => space.machine(),
        Subject::Each(host) => host.machine(),
    }
}

/// The room of the nodes of a script's machine.
fn room_of(
    alloc: Global,
    machine: &Machine,
    script: Option<&HostScript>,
    free: &[FreePages],
) -> Result<Vec<u64>, AllocError> {
    let rooms = match script {
        Some(script) => rooms_of(script),
        None => None,
    };
    room_before(alloc, machine, rooms, free)
}

/// How a trace is replayed.
#[derive(Clone, Copy)]
struct Way<'a> {
    process: Option<u32>,
    free: &'a [FreePages],
    form: ReplayForm,
}

/// The room that is said before lines `do`, where it isn't that of lines: of nodes with so much.
fn room_said(alloc: Global, room: &[u64], way: Way<'_>) -> Result<Vec<u64>, AllocError> {
    if way.free.is_empty() {
        return Ok(Vec::new(alloc));
    }
    Vec::from_slice(alloc, room)
}

/// A trace before its first line, in a space where nodes have so much room, or their frames.
fn tracing_in(alloc: Global, space: &Space, room: Vec<u64>, way: Way<'_>) -> Result<Tracing, Halt> {
    let said = room_said(alloc, room.as_slice(), way)?;
    let plan = plan_of(alloc, space)?;
    let state = state_of(alloc, space, way.process, room, way.form.by_range)?;
    Ok(Tracing {
        plan,
        room: said,
        state,
        fault: None,
    })
}

/// The same after a script, of its one space, or of its process of a host; nothing where it has
/// none.
fn tracing_of(
    alloc: Global,
    script: &HostScript,
    takes_frames: bool,
    way: Way<'_>,
) -> Result<Option<Tracing>, Halt> {
    let Ok(Subject::One(space, _)) = subject_of(script, way.process) else {
        return Ok(None);
    };
    let room = match takes_frames {
        true => all_frames(alloc, space.machine())?,
        false => room_of(alloc, space.machine(), Some(script), way.free)?,
    };
    match tracing_in(alloc, space, room, way) {
        Ok(tracing) => Ok(Some(tracing)),
        Err(halt) => Err(halt),
    }
}

/// The same after the other script, if there is one.
fn tracing_of_other(
    alloc: Global,
    script: Option<&HostScript>,
    takes_frames: bool,
    way: Way<'_>,
) -> Result<Option<Tracing>, Halt> {
    match script {
        Some(script) => tracing_of(alloc, script, takes_frames, way),
        None => Ok(None),
    }
}

/// A trace before its first line, by the one and by the other rules; nothing where the scripts are
/// those of a host of which all processes are asked for.
fn deeds_of<'a, T: Write>(
    alloc: Global,
    findings: &'a mut Findings<T>,
    takes_frames: bool,
    way: Way<'_>,
) -> Result<Option<Deeds<'a, T>>, Halt> {
    let Some(own) = tracing_of(alloc, findings.script(), takes_frames, way)? else {
        return Ok(None);
    };
    let other = match tracing_of_other(alloc, findings.other(), takes_frames, way) {
        Ok(other) => other,
        Err(halt) => {
            drop(own);
            return Err(halt);
        }
    };
    Ok(Some(Deeds {
        findings,
        process: way.process,
        own,
        other,
        takes_frames,
        is_drawn: matches!(way.form.format, Format::Html(_)),
        has_done: false,
    }))
}

/// The report of a trace over a script as it is after it; by the plan of all that it accepted.
fn told_over(
    alloc: Global,
    script: &HostScript,
    tracing: &Tracing,
    takes_frames: bool,
    way: Way<'_>,
) -> Result<Vec<u8>, Halt> {
    let Subject::One(space, member) = subject_of(script, way.process)? else {
        return Err(Halt::ManyProcesses);
    };
    let plan = plan_of(alloc, space)?;
    let met = TraceMet {
        state: &tracing.state,
        fault: tracing.fault,
        takes_room: !takes_frames,
    };
    let planned = Planned {
        space,
        member,
        plan: &plan,
    };
    let text = report_of(alloc, planned, met, way.form);
    drop(plan);
    text
}

/// Whether by the other rules the report is another, as text.
fn is_other<T: Write>(alloc: Global, deeds: &Deeds<'_, T>, way: Way<'_>) -> bool {
    let form = way.form.with(Format::Text);
    let way = Way {
        process: way.process,
        free: way.free,
        form,
    };
    let (Some(other), Some(script)) = (&deeds.other, deeds.findings.other()) else {
        return false;
    };
    let takes_frames = deeds.takes_frames;
    let own = told_over(
        alloc,
        deeds.findings.script(),
        &deeds.own,
        takes_frames,
        way,
    );
    differ(own, told_over(alloc, script, other, takes_frames, way))
}

/// The report of a trace that was read to its end.
fn met_over<T: Write>(alloc: Global, deeds: &Deeds<'_, T>, way: Way<'_>) -> Result<Replayed, Halt> {
    let script = deeds.findings.script();
    let text = told_over(alloc, script, &deeds.own, deeds.takes_frames, way)?;
    let is_other = is_other(alloc, deeds, way);
    Ok(Replayed { text, is_other })
}

/// Finishes the messages, and judges the nodes that are named.
fn end_judged<T: Write>(
    findings: &mut Findings<T>,
    process: Option<u32>,
    free: &[FreePages],
) -> Result<(), Halt> {
    findings.end()?;
    let subject = subject_of(findings.script(), process)?;
    judge_free(free, machine_of(&subject).nodes())
}

/// Replays a trace of the one space, or of the process that is asked for.
fn replayed_over<S: Read + Drop, T: Write + Drop>(
    alloc: Global,
    findings: &mut Findings<T>,
    takes_frames: bool,
    way: Way<'_>,
    texts: Vec<(String, S)>,
) -> Result<Replayed, Halt> {
    let deeds = match deeds_of(alloc, findings, takes_frames, way) {
        Ok(Some(deeds)) => deeds,
        Ok(None) => {
            drop(texts);
            return Err(Halt::NoMachine);
        }
        Err(halt) => {
            drop(texts);
            return Err(halt);
        }
    };
    let deeds = match read_by(alloc, texts, deeds) {
        Ok(deeds) => deeds,
        Err(why) => return Err(Halt::Stopped(why)),
    };
    let replayed = met_over(alloc, &deeds, way);
    drop(deeds);
    replayed
}

/// Replays a trace of all processes of a host.
fn replayed_in_host<S: Read + Drop, T: Write>(
    alloc: Global,
    findings: &Findings<T>,
    host: &Host,
    takes_frames: bool,
    way: Way<'_>,
    texts: Vec<(String, S)>,
) -> Result<Replayed, Halt> {
    let other = host_in(other_subject(findings.other(), None));
    if takes_frames {
        return replay_hosts(alloc, host, other, None, texts, way.form);
    }
    let room = match room_before(alloc, host.machine(), None, way.free) {
        Ok(room) => room,
        Err(lack) => {
            drop(texts);
            return Err(Halt::from(lack));
        }
    };
    let replayed = replay_hosts(alloc, host, other, Some(room.as_slice()), texts, way.form);
    drop(room);
    replayed
}

/// Replays a trace where pages take frames or room.
fn replayed_by<S: Read + Drop, T: Write + Drop>(
    alloc: Global,
    findings: &mut Findings<T>,
    way: Way<'_>,
    texts: Vec<(String, S)>,
) -> Result<Replayed, Halt> {
    let subject = match subject_of(findings.script(), way.process) {
        Ok(subject) => subject,
        Err(halt) => {
            drop(texts);
            return Err(halt);
        }
    };
    let takes_frames = way.free.is_empty() && has_frames(machine_of(&subject));
    match subject {
        Subject::Each(host) => { replayed_in_host(alloc, findings, host, takes_frames, way, texts) }
        Subject::One(_, _) => replayed_over(alloc, findings, takes_frames, way, texts),
    }
}

/// Finishes the messages, and replays a trace, if it can be replayed on what the scripts led to.
fn replayed_whole<S: Read + Drop, T: Write + Drop>(
    alloc: Global,
    findings: &mut Findings<T>,
    process: Option<u32>,
    traced: Traced<'_, S>,
) -> Result<Replayed, Halt> {
    let Traced {
        texts,
        free,
        format,
        has_mean,
        by_range,
    } = traced;
    if let Err(halt) = end_judged(findings, process, free) {
        drop(texts);
        return Err(halt);
    }
    let form = ReplayForm {
        format,
        has_mean,
        by_range,
    };
    let way = Way {
        process,
        free,
        form,
    };
    replayed_by(alloc, findings, way, texts)
}

/// The report of a replay, after the messages about its lines and remarks: on pages of 2 MiB, if
/// there are some, and that it is another by the other rules, if it is.
fn told_of<T: Write>(
    findings: &mut Findings<T>,
    replayed: Result<Replayed, Halt>,
) -> Result<Vec<u8>, Halt> {
    let Replayed { text, is_other } = match replayed {
        Ok(replayed) => replayed,
        Err(halt) => {
            // What stands in the way of these messages matters less than this.
            let _ = findings.end_remarks();
            return Err(halt);
        }
    };
    findings.tell_huge(HugeCount::Parts);
    if is_other {
        findings.tell_other();
    }
    remarked(findings, text)
}

/// Plays the scripts, replays a trace by the plan of all accepted commands, and writes the report.
/// Pages take frames of the machine, where none is placed yet; or room, where it is named or no
/// node has a frame: then pages that lie somewhere after the scripts stay there. Of a host without
/// a process the lines of the trace name theirs, the report is by process and of all, and all
/// processes take the same frames or the same room; with one the lines that name others are left
/// out. What is wrong with a line of the scripts is written to `told`, and the line is skipped; so
/// is, with this twin, that by the other rules the report is another. The answer is complete before
/// its first byte is written.
///
/// # Errors
/// Why there is no answer; `BadAccess` is the first line of the trace that can't be replayed. Text
/// already written to `told` stays.
pub fn replay<R: Read + Drop, S: Read + Drop, W: Write, T: Write + Drop>(
    alloc: Global,
    scripts: Scripts<R>,
    traced: Traced<'_, S>,
    twin: Twin,
    output: &mut W,
    told: T,
) -> Result<Ended, Halt> {
    let process = scripts.process;
    let mut findings = match play(alloc, scripts, plain_by(twin), told) {
        Ok(findings) => findings,
        Err(halt) => {
            drop(traced);
            return Err(halt);
        }
    };
    let replayed = replayed_whole(alloc, &mut findings, process, traced);
    let text = told_of(&mut findings, replayed);
    answer(findings, text, output)
}
