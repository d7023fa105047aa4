//! Reading scripts and lines that state where pages lie, and writing an answer after them.
use numa_beside::Areas;
use numa_host::Host;
use numa_host_pages::HostPages;
use numa_host_script::HostScript;
use numa_lines::{RunFault, TakeLine};
use numa_machine::Rules;
use numa_moves::{AtLine, Scene, add_placed, read_at};
use numa_placed::Placed;
use numa_play::{Findings, Look, PLAIN, Scripts, answer};
use numa_sheets::{Format, Written};
use numa_subjects::{Ended, Halt, Twin};
use numa_traces::read_by;
use std::alloc::{AllocError, Global};
use std::io::{Read, Write};

/// What is told of in a host: all processes, since what becomes of one hangs on the others.
fn scene_of_host<'a>(
    host: &'a Host,
    pages: &'a HostPages,
    process: Option<u32>,
    format: Format,
) -> Result<Scene<'a>, Halt> {
    match (process, format) {
        (Some(process), _) if host.process(process).is_none() => Err(Halt::NoProcess(process)),
        (None, Format::Svg(_)) => Err(Halt::ManyProcesses),
        _ => Ok(Scene::Each(host, pages)),
    }
}

/// What is told of after a script, all of it or of one process; in a picture of one.
///
/// # Errors
/// `NoMachine`, `NoHost`, `NoProcess` or `ManyProcesses`.
pub(crate) fn scene_of(
    script: &HostScript,
    process: Option<u32>,
    format: Format,
) -> Result<Scene<'_>, Halt> {
    if let (Some(host), Some(pages)) = (script.host(), script.host_pages()) {
        return scene_of_host(host, pages, process, format);
    }
    let Some(script) = script.script() else {
        return Err(Halt::NoMachine);
    };
    let Some(core) = script.core() else {
        return Err(Halt::NoMachine);
    };
    if process.is_some() {
        return Err(Halt::NoHost);
    }
    Ok(Scene::Own(core.space(), script.pages()))
}

/// What is wrong with added lines: a message on each that scripts don't judge, and how many.
#[derive(Drop)]
pub struct LineFaults {
    messages: Written,
    count: u64,
    // What is wrong with each line that was played; nothing where it was accepted.
    of_lines: Vec<Vec<u8>>,
}

impl LineFaults {
    /// Nothing yet.
    pub fn new(alloc: Global) -> LineFaults {
        LineFaults {
            messages: Written::new(alloc),
            count: 0,
            of_lines: Vec::new(alloc),
        }
    }

    /// What is wrong with each line that was played: nothing where it was accepted.
    pub fn of_lines(&self) -> &[Vec<u8>] {
        self.of_lines.as_slice()
    }

    /// Notes what is wrong with the next line, or that nothing is.
    pub(crate) fn note(&mut self, why: &[u8]) -> Result<(), RunFault> {
        let Ok(why) = Vec::from_slice(self.messages.alloc(), why) else {
            return Err(RunFault::Memory);
        };
        match self.of_lines.push(why) {
            Ok(()) => Ok(()),
            Err(_) => Err(RunFault::Memory),
        }
    }

    /// Adds what is wrong with the next line.
    pub(crate) fn tell(&mut self, name: &str, place: u64, why: &str) -> Result<(), RunFault> {
        self.count = self.count.saturating_add(1);
        let messages = &mut self.messages;
        messages.put(name.as_bytes());
        messages.put_form(b":$: ", &[place]);
        messages.put(why.as_bytes());
        messages.put(b"\n");
        self.note(why.as_bytes())
    }
}

/// Appends where pages lie after a script: of the one space, or of each process in the order in
/// which they were made, or of one alone. Pages that keep frames aren't among them.
///
/// # Errors
/// `NoMachine`, `NoHost`, `NoProcess`, or `Stopped`: out of memory.
pub fn stated_in(
    alloc: Global,
    script: &HostScript,
    process: Option<u32>,
    there: &mut Vec<Placed>,
) -> Result<(), Halt> {
    let scene = scene_of(script, process, Format::Text)?;
    match add_placed(alloc, scene, process, there) {
        Ok(()) => Ok(()),
        Err(_) => Err(Halt::Stopped(RunFault::Memory)),
    }
}

/// How scripts are played.
#[derive(Clone, Copy)]
pub struct Reading {
    /// The task that is asked for, if one is given.
    pub task: Option<u32>,
    /// The rules by which they are played too.
    pub other: Twin,
    /// Whether that waits until these rules do something else with a line.
    pub waits: bool,
    /// Whether it matters where pages lie, so that it is told why a line `at` is refused.
    pub heeds_at: bool,
}

/// Scripts that are played, and the areas that they name; or, behind them, further texts, of which
/// only the lines count that state where pages lie: these are played too.
#[derive(Drop)]
struct Reader<T> {
    alloc: Global,
    findings: Findings<T>,
    areas: Areas,
    // The process of a host that lines of further texts mean which name none.
    process: Option<u32>,
    is_behind: bool,
}

/// A line as a process is told it.
fn told_line(alloc: Global, process: u32, line: &[u8]) -> Result<Vec<u8>, AllocError> {
    let mut told = Written::new(alloc);
    told.put_form(b"in $ ", &[u64::from(process)]);
    told.put(line);
    let text = told.take();
    drop(told);
    text
}

impl<T: Write> Reader<T> {
    /// Plays a line that a process is told.
    fn take_told(
        &mut self,
        name: &str,
        place: u64,
        process: u32,
        line: &[u8],
    ) -> Result<(), RunFault> {
        let Ok(told) = told_line(self.alloc, process, line) else {
            return Err(RunFault::Memory);
        };
        let taken = self.findings.take(name, place, told.as_slice(), &mut ());
        drop(told);
        taken
    }

    /// The process that a line means which names none.
    fn meant(&self) -> Option<u32> {
        match self.findings.script().host() {
            Some(_) => self.process,
            None => None,
        }
    }

    /// Plays a line of a further text.
    fn take_behind(&mut self, name: &str, place: u64, line: &[u8]) -> Result<(), RunFault> {
        // (In the place of other lines stand empty ones, so that each text has a first line.)
        match (read_at(line), self.meant()) {
            (AtLine::Other, _) => self.findings.take(name, place, b"", &mut ()),
            (AtLine::Unnamed, Some(process)) => self.take_told(name, place, process, line),
            _ => self.findings.take(name, place, line, &mut ()),
        }
    }
}

impl<T: Write> TakeLine<()> for Reader<T> {
    fn take(
        &mut self,
        name: &str,
        place: u64,
        line: &[u8],
        output: &mut (),
    ) -> Result<(), RunFault> {
        if self.is_behind {
            return self.take_behind(name, place, line);
        }
        if self.areas.read(line).is_err() {
            return Err(RunFault::Memory);
        }
        self.findings.take(name, place, line, output)
    }

    fn hand_over(&mut self, output: &mut ()) -> Result<(), RunFault> {
        self.findings.hand_over(output)
    }
}

/// Scripts that were played, and what is wrong with added lines.
#[derive(Drop)]
pub struct Played<T> {
    /// The scripts, and what is wrong with their lines.
    pub findings: Findings<T>,
    /// What else is wrong with added lines.
    pub faults: LineFaults,
    /// The areas that the scripts name, in order.
    pub areas: Areas,
    /// The process of a host that is asked about, if not all are.
    pub process: Option<u32>,
}

/// The state before the first line.
fn begin<T: Write + Drop>(
    alloc: Global,
    rules: Rules,
    process: Option<u32>,
    how: Reading,
    told: T,
) -> Result<Reader<T>, Halt> {
    let look = Look {
        other: how.other,
        waits: how.waits,
        tells_at: how.heeds_at,
        ..PLAIN
    };
    let mut findings = Findings::new(alloc, rules, look, told).asking(process, how.task);
    if findings.gather().is_err() {
        drop(findings);
        return Err(Halt::Stopped(RunFault::Memory));
    }
    Ok(Reader {
        alloc,
        findings,
        areas: Areas::new(alloc),
        process,
        is_behind: false,
    })
}

/// Scripts that were played, and areas with names.
fn played_of<T: Write>(read: Reader<T>) -> Played<T> {
    let Reader {
        alloc,
        findings,
        mut areas,
        process,
        ..
    } = read;
    areas.sort();
    Played {
        findings,
        faults: LineFaults::new(alloc),
        areas,
        process,
    }
}

/// Plays texts behind those that were read.
fn read_texts<S: Read + Drop, T: Write + Drop>(
    alloc: Global,
    texts: Vec<(String, S)>,
    before: Reader<T>,
) -> Result<Reader<T>, Halt> {
    match read_by(alloc, texts, before) {
        Ok(read) => Ok(read),
        Err(why) => Err(Halt::Stopped(why)),
    }
}

/// Plays scripts, and behind them the lines of further texts that state where pages lie; of a host
/// those that name no process are of the one that is asked for. What is wrong with lines is written
/// to `told`.
///
/// # Errors
/// `Stopped`: a read or a write failed, or out of memory.
pub fn play_there<S: Read + Drop, A: Read + Drop, T: Write + Drop>(
    alloc: Global,
    scripts: Scripts<S>,
    texts_at: Vec<(String, A)>,
    how: Reading,
    told: T,
) -> Result<Played<T>, Halt> {
    let Scripts {
        texts,
        rules,
        process,
    } = scripts;
    let read = match begin(alloc, rules, process, how, told) {
        Ok(before) => read_texts(alloc, texts, before),
        Err(halt) => {
            drop(texts);
            Err(halt)
        }
    };
    let mut read = match read {
        Ok(read) => read,
        Err(halt) => {
            drop(texts_at);
            return Err(halt);
        }
    };
    read.is_behind = true;
    match read_texts(alloc, texts_at, read) {
        Ok(read) => Ok(played_of(read)),
        Err(halt) => Err(halt),
    }
}

/// Writes what is wrong with lines: first with added ones.
fn tell_all<T: Write>(findings: &mut Findings<T>, faults: LineFaults) -> Result<(), RunFault> {
    let LineFaults {
        messages,
        of_lines,
        ..
    } = faults;
    drop(of_lines);
    let mut messages = messages;
    let text = messages.take();
    drop(messages);
    let Ok(text) = text else {
        return Err(RunFault::Memory);
    };
    let told = findings.tell_first(text.as_slice());
    drop(text);
    match told {
        Ok(()) => findings.end(),
        Err(why) => Err(why),
    }
}

impl<T: Write> Played<T> {
    /// Where pages lie that are there: in the one space, or in each process of a host if none is
    /// asked about.
    pub(crate) fn there(&self, alloc: Global) -> Result<Vec<Placed>, Halt> {
        let mut there = Vec::new(alloc);
        match stated_in(alloc, self.findings.script(), self.process, &mut there) {
            Ok(()) => Ok(there),
            Err(halt) => {
                drop(there);
                Err(halt)
            }
        }
    }
}

impl<T: Write + Drop> Played<T> {
    /// Writes an answer, if there is one, once all that is wrong with lines is told.
    ///
    /// # Errors
    /// Why there is no answer.
    pub fn write<W: Write>(
        self,
        text: Result<Vec<u8>, Halt>,
        output: &mut W,
    ) -> Result<Ended, Halt> {
        let Played {
            findings,
            faults,
            areas,
            process: _,
        } = self;
        drop(areas);
        let mut findings = findings;
        let has_faults = faults.count > 0;
        if let Err(why) = tell_all(&mut findings, faults) {
            drop(text);
            drop(findings);
            return Err(Halt::Stopped(why));
        }
        match answer(findings, text, output) {
            Ok(_) if has_faults => Ok(Ended::Faulty),
            ended => ended,
        }
    }
}
