//! Why pages of a space, or of each process of a host, go where they go.
use numa_answers::{
    About, PageInterval, Pooled, Residence, Whereabouts, add_answer, shown, stretches_of, text_of,
    told_of,
};
use numa_host::{Host, Process};
use numa_lines::RunFault;
use numa_machine::PlaceRefusal;
use numa_reports::{ByProcess, Coming, comings};
use numa_rules::{Explanation, ReasonError, by_other_rules, say_by_other};
use numa_sheets::{Format, Touch};
use numa_space::Space;
use numa_subjects::{Added, Halt, PagePlace, Subject, host_in, nodes_with, space_in};
use std::alloc::Global;

/// The pages to be explained: one, or from it on as many as `pages`.
#[derive(Clone, Copy)]
pub struct AskedPages {
    pub page: u64,
    pub pages: Option<u32>,
}

/// An explanation that is asked for.
#[derive(Clone, Copy)]
pub struct ReasonsAsked<'a> {
    /// How pages are touched.
    pub touch: Touch,
    pub pages: AskedPages,
    pub format: Format,
    /// Where the first page lies in the one space, or in each process in the order in which they
    /// were made; nothing where it isn't known to be there.
    pub there: &'a [Option<PagePlace>],
}

/// Why there is no explanation on a machine with `nodes` nodes.
fn halt_by(fault: ReasonError, nodes: u32) -> Halt {
    match fault {
        ReasonError::Refused(PlaceRefusal::BadCpu) => Halt::NoNode(nodes),
        ReasonError::Refused(PlaceRefusal::Unmapped) => Halt::Unmapped,
        ReasonError::NoMemory => Halt::Stopped(RunFault::Memory),
    }
}

/// Appends a line to an explanation if the page goes elsewhere by the other rules.
fn with_other(
    text: Vec<u8>,
    space: &Space,
    other: &Space,
    asked: Touch,
    page: u64,
) -> Result<Vec<u8>, Halt> {
    let mut whole = text;
    let Some(said) = by_other_rules(space, other, asked.task, page, asked.cpu) else {
        return Ok(whole);
    };
    let put = say_by_other(&mut whole, space.machine().rules(), &said);
    drop(said);
    match put {
        Ok(()) => Ok(whole),
        Err(_) => {
            drop(whole);
            Err(Halt::Stopped(RunFault::Memory))
        }
    }
}

/// A space, and the same by the other rules, if lines are played by them too.
#[derive(Clone, Copy)]
struct ByRules<'a> {
    space: &'a Space,
    other: Option<&'a Space>,
}

/// Why a page would go where it goes, and by which rules, if that matters; and what else is known
/// of it.
fn reasons_by(
    alloc: Global,
    spaces: ByRules<'_>,
    asked: Touch,
    said: &Explanation,
    known: &Whereabouts<'_>,
    format: Format,
) -> Result<Vec<u8>, Halt> {
    let text = text_of(alloc, spaces.space, said, known)?;
    let whole = match spaces.other {
        Some(other) => with_other(text, spaces.space, other, asked, said.page)?,
        None => text,
    };
    Ok(shown(alloc, spaces.space, said, known, whole, format)?)
}

/// How a page comes where it lies; nothing if it isn't there.
fn comings_to(
    alloc: Global,
    space: &Space,
    task: u32,
    page: u64,
    place: Option<PagePlace>,
) -> Result<Vec<Coming>, Halt> {
    match place {
        Some(place) => Ok(comings(alloc, space, task, page, place.node)?),
        None => Ok(Vec::new(alloc)),
    }
}

/// What is known of a page of a process: where it lies, if it is there, and what the pools have for
/// it, if it isn't, and has 2 MiB.
#[derive(Clone, Copy)]
struct Known<'a> {
    place: Option<PagePlace>,
    pooled: Option<Pooled<'a>>,
}

/// What is known of a page that comes so where it lies, if it is there.
fn whereabouts<'a>(known: Known<'a>, comings: &'a [Coming]) -> Whereabouts<'a> {
    match (known.place, known.pooled) {
        (Some(place), _) => Whereabouts::Resident(Residence { place, comings }),
        (None, Some(pooled)) => Whereabouts::Waiting(pooled),
        (None, None) => Whereabouts::Unknown,
    }
}

/// Why a page would go where it goes, of which this is known.
fn reasons_in(
    alloc: Global,
    spaces: ByRules<'_>,
    asked: Touch,
    said: &Explanation,
    known: Known<'_>,
    format: Format,
) -> Result<Vec<u8>, Halt> {
    let comings = comings_to(alloc, spaces.space, asked.task, said.page, known.place)?;
    let known = whereabouts(known, comings.as_slice());
    let text = reasons_by(alloc, spaces, asked, said, &known, format);
    drop(comings);
    text
}

/// Why a page of a space would go where it goes.
///
/// # Errors
/// `NoNode`: the machine lacks the faulting node. `Unmapped`: the page isn't mapped. `Stopped`: out
/// of memory.
fn explanation_of(
    alloc: Global,
    space: &Space,
    asked: Touch,
    page: u64,
) -> Result<Explanation, Halt> {
    match numa_rules::explain(alloc, space, asked.task, page, asked.cpu) {
        Ok(said) => Ok(said),
        Err(fault) => Err(halt_by(fault, space.machine().nodes())),
    }
}

/// Why a page of a space goes where it goes, or by which rules a span's pages go.
fn reasons(
    alloc: Global,
    spaces: ByRules<'_>,
    asked: ReasonsAsked<'_>,
    known: Known<'_>,
) -> Result<Vec<u8>, Halt> {
    let space = spaces.space;
    let ReasonsAsked {
        touch,
        pages: AskedPages { page: first, pages },
        format,
        ..
    } = asked;
    if let Some(pages) = pages {
        let end = first.saturating_add(u64::from(pages));
        let interval = PageInterval { first, end };
        return match stretches_of(alloc, space, touch, interval, format) {
            Ok(text) => Ok(text),
            Err(fault) => Err(halt_by(fault, space.machine().nodes())),
        };
    }
    let said = explanation_of(alloc, space, touch, first)?;
    let text = reasons_in(alloc, spaces, touch, &said, known, format);
    drop(said);
    text
}

/// The space of a process of the other host, if there is one.
fn other_process(other: Option<&Host>, process: u32) -> Option<&Space> {
    other?.process(process)
}

/// Adds why a page of a process goes where it goes; nothing if the process hasn't mapped it.
fn add_reasons<'a>(
    alloc: Global,
    process: &'a Process,
    other: Option<&'a Host>,
    asked: ReasonsAsked<'_>,
    known: Known<'_>,
    answers: &mut ByProcess,
) -> Result<(), Halt> {
    let spaces = ByRules {
        space: &process.space,
        other: other_process(other, process.id),
    };
    match reasons(alloc, spaces, asked, known) {
        Err(Halt::Unmapped) => Ok(()),
        text => add_answer(answers, process, text),
    }
}

/// Where the page lies in the process of a number, if it is known to be there.
pub fn place_of(there: &[Option<PagePlace>], number: usize) -> Option<PagePlace> {
    match there.get(number) {
        Some(place) => *place,
        None => None,
    }
}

/// What is known of the page in the process of a number.
fn known_of<'a>(
    asked: ReasonsAsked<'_>,
    pooled: &[Option<Pooled<'a>>],
    number: usize,
) -> Known<'a> {
    let pooled = match pooled.get(number) {
        Some(pooled) => *pooled,
        None => None,
    };
    Known {
        place: place_of(asked.there, number),
        pooled,
    }
}

/// Adds why the pages of processes go where they go.
fn add_each(
    alloc: Global,
    processes: &[Process],
    other: Option<&Host>,
    asked: ReasonsAsked<'_>,
    pooled: &[Option<Pooled<'_>>],
    answers: &mut ByProcess,
) -> Result<Vec<u8>, Halt> {
    let mut number = 0usize;
    for process in processes {
        let known = known_of(asked, pooled, number);
        add_reasons(alloc, process, other, asked, known, answers)?;
        number = number.saturating_add(1);
    }
    if answers.processes() == 0 {
        return Err(Halt::Unmapped);
    }
    answers.end_pictures();
    Ok(answers.take()?)
}

/// Why a page goes where it goes, in each process of a host that has mapped it.
fn reasons_of_each(
    alloc: Global,
    host: &Host,
    other: Option<&Host>,
    asked: ReasonsAsked<'_>,
    pooled: &[Option<Pooled<'_>>],
) -> Result<Vec<u8>, Halt> {
    nodes_with(host.machine().nodes(), asked.touch.cpu)?;
    let mut answers = ByProcess::new(alloc, asked.format);
    let text = add_each(alloc, host.processes(), other, asked, pooled, &mut answers);
    drop(answers);
    text
}

/// An explanation, which says what it is of if it is a picture.
fn told_reasons(
    alloc: Global,
    subject: Subject<'_>,
    touch: Touch,
    format: Format,
    text: Result<Vec<u8>, Halt>,
) -> Result<Vec<u8>, Halt> {
    match text {
        Ok(text) => {
            let about = About::of(subject, Some(touch), Added::fine(&[]));
            told_of(alloc, format, &about, text)
        }
        Err(halt) => Err(halt),
    }
}

/// Why pages go where they go, and by which rules, if `other`, the same by the other rules, has
/// them go elsewhere: of the one space, or of each process that has mapped the page. Of a page that
/// is there it is said too where it lies, and how it comes there.
///
/// # Errors
/// `NoNode`, `Unmapped`, or `Stopped`: out of memory.
pub fn reasons_of<'a>(
    alloc: Global,
    subject: Subject<'a>,
    other: Option<Subject<'a>>,
    asked: ReasonsAsked<'_>,
) -> Result<Vec<u8>, Halt> {
    reasons_beside(alloc, subject, other, asked, &[])
}

/// The same; of a page of 2 MiB that lies nowhere yet it is said too what the pools have for it, by
/// `pooled`, in the one space, or in each process in the order in which they were made.
///
/// # Errors
/// As [`reasons_of`].
pub fn reasons_beside<'a>(
    alloc: Global,
    subject: Subject<'a>,
    other: Option<Subject<'a>>,
    asked: ReasonsAsked<'_>,
    pooled: &[Option<Pooled<'_>>],
) -> Result<Vec<u8>, Halt> {
    let text = match subject {
        Subject::One(space, _) => {
            let other = space_in(other);
            let known = known_of(asked, pooled, 0);
            reasons(alloc, ByRules { space, other }, asked, known)
        }
        Subject::Each(host) => reasons_of_each(alloc, host, host_in(other), asked, pooled),
    };
    told_reasons(alloc, subject, asked.touch, asked.format, text)
}

/// Why a page of a space would go where it goes, if it were touched now, in a format.
///
/// # Errors
/// `NoNode`, `Unmapped`, or `Stopped`: out of memory.
pub fn explain_space(
    alloc: Global,
    space: &Space,
    asked: Touch,
    page: u64,
    format: Format,
) -> Result<Vec<u8>, Halt> {
    let said = explanation_of(alloc, space, asked, page)?;
    let spaces = ByRules { space, other: None };
    let unknown = Known {
        place: None,
        pooled: None,
    };
    let text = reasons_in(alloc, spaces, asked, &said, unknown, format);
    drop(said);
    told_reasons(alloc, Subject::One(space, None), asked, format, text)
}
