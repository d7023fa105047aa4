//! Playing lines that move pages that are there, and telling what becomes of these.
use crate::differing::play_one;
use crate::there::{LineFaults, Played, scene_of};
use numa_answers::{About, told_of};
use numa_host_script::HostScript;
use numa_lines::RunFault;
use numa_mask::NodeMask;
use numa_moves::{Asked, Holdings, MoveLine, Origin, Step, moves_text, read_move};
use numa_placed::Rooms;
use numa_play::{Findings, subject_of};
use numa_reports::ReportError;
use numa_sheets::{Format, FreePages, Touch};
use numa_subjects::{Added, Halt};
use std::alloc::{AllocError, Global};
use std::io::Write;

/// The name of the added lines in messages.
const ADDED: &str = "--then";

/// The messages of lines that move nothing.
const MALFORMED: &str = "bad words; write migrate FROM TO, each a list of nodes as 0-1,3";

const OTHER: &str = "moves takes lines mems, migrate, cgroup-mems and attach";

const AWAY: &str = "diff --at takes no line that takes pages away";

const NOT_ALLOWED: &str = "refused NodesNotAllowed EINVAL: no node of TO is allowed";

const WHICH: &str = "refused NoSuchProcess ESRCH: there is no such process; write in P migrate ..";

/// Lines that are played.
#[derive(Clone, Copy)]
pub struct Playing<'a> {
    /// The lines.
    pub lines: &'a [String],
    /// Whether those that move no pages are played too.
    pub plays_all: bool,
    /// The process of a host, if not all are asked for.
    pub process: Option<u32>,
    /// How many more pages nodes take.
    pub free: &'a [FreePages],
    /// Text, JSON or SVG.
    pub format: Format,
}

/// What becomes of pages by lines, if it is asked for.
#[derive(Clone, Copy)]
pub struct MovesAsked<'a> {
    /// The lines.
    pub lines: &'a [String],
    /// The touch by which pages came to lie where they do, while every node had room; else scripts
    /// left them there.
    pub touch: Option<Touch>,
    /// Text, JSON or SVG.
    pub format: Format,
    /// How many more pages nodes take.
    pub free: &'a [FreePages],
}

/// An answer, and whether it is another by the other rules, if the lines were played by those too.
#[derive(Drop)]
pub struct Answer {
    pub text: Vec<u8>,
    pub is_other: bool,
}

/// Where pages lie by one set of rules, and what the lines so far did to them.
#[derive(Drop)]
struct Course {
    holdings: Holdings,
    steps: Vec<Step>,
}

/// Where pages lie by the rules of a script, and by the other rules, as long as there is a course
/// by these.
#[derive(Drop)]
struct Courses {
    own: Course,
    other: Option<Course>,
}

/// Lines that are played, what plays them, and what is wrong with them.
#[derive(Drop)]
struct Play<'a, T> {
    findings: &'a mut Findings<T>,
    playing: Playing<'a>,
    faults: &'a mut LineFaults,
}

/// Refuses free pages of nodes that a machine with so many lacks.
pub(crate) fn judge_free(free: &[FreePages], nodes: u32) -> Result<(), Halt> {
    match free.iter().find(|one| u32::from(one.node) >= nodes) {
        Some(lacking) => Err(Halt::NoFreeNode(lacking.node, nodes)),
        None => Ok(()),
    }
}

/// The process of a name, where one is asked for, or else of the scripts.
fn process_of(named: Option<u32>, asked: Option<u32>) -> u32 {
    named.or(asked).unwrap_or(0)
}

/// Where pages lie before the first line.
fn begin(
    alloc: Global,
    script: &HostScript,
    origin: Origin,
    playing: Playing<'_>,
) -> Result<Course, Halt> {
    let scene = scene_of(script, playing.process, playing.format)?;
    let nodes = scene.nodes();
    judge_free(playing.free, nodes)?;
    match Holdings::new(alloc, scene, origin, playing.free) {
        Ok(holdings) => Ok(Course {
            holdings,
            steps: Vec::new(alloc),
        }),
        Err(ReportError::Refused(_)) => Err(Halt::NoNode(nodes)),
        Err(ReportError::Memory) => Err(Halt::Stopped(RunFault::Memory)),
    }
}

/// The same by the other rules, if scripts were played by those.
fn begin_beside(
    alloc: Global,
    script: Option<&HostScript>,
    origin: Origin,
    playing: Playing<'_>,
) -> Option<Course> {
    let script = script?;
    begin(alloc, script, origin, playing).ok()
}

/// Why the pages of a process may not migrate to a set, if they may not.
fn why_not(holdings: &Holdings, process: u32, to: &NodeMask) -> Option<&'static str> {
    let Some(allowed) = holdings.allowed(process) else {
        return Some(WHICH);
    };
    if to.and(&allowed).is_empty() {
        return Some(NOT_ALLOWED);
    }
    None
}

/// Why a line is passed over, if it is.
fn why_passed(line: &MoveLine, plays_all: bool) -> Option<&'static str> {
    match line {
        MoveLine::Bad => Some(MALFORMED),
        MoveLine::Away if plays_all => Some(AWAY),
        MoveLine::Away => Some(OTHER),
        MoveLine::Other if !plays_all => Some(OTHER),
        _ => None,
    }
}

/// What a line does to the pages of a script that has played it.
fn step_of(
    alloc: Global,
    script: &HostScript,
    holdings: &mut Holdings,
    playing: Playing<'_>,
    line: &str,
) -> Result<Step, Halt> {
    let moving = read_move(line.as_bytes());
    if why_passed(&moving, playing.plays_all).is_some() {
        return Ok(holdings.stay(alloc)?);
    }
    match moving {
        MoveLine::Migrate { process, from, to } => {
            let process = process_of(process, playing.process);
            Ok(holdings.migrate(alloc, process, &from, &to)?)
        }
        _ => match scene_of(script, playing.process, playing.format) {
            Ok(scene) => Ok(holdings.follow(alloc, scene)?),
            Err(halt) => Err(halt),
        },
    }
}

impl Course {
    /// Goes on by a line that a script has played.
    fn go_on(
        &mut self,
        alloc: Global,
        script: &HostScript,
        playing: Playing<'_>,
        line: &str,
    ) -> Result<(), Halt> {
        let step = step_of(alloc, script, &mut self.holdings, playing, line)?;
        match self.steps.push(step) {
            Ok(()) => Ok(()),
            Err(_) => Err(Halt::Stopped(RunFault::Memory)),
        }
    }
}

/// Goes on by a line by the other rules, as long as there is a course by them.
fn go_on_beside(
    alloc: Global,
    other: &mut Option<Course>,
    script: Option<&HostScript>,
    playing: Playing<'_>,
    line: &str,
) {
    let (Some(course), Some(script)) = (&mut *other, script) else {
        return;
    };
    if course.go_on(alloc, script, playing, line).is_err() {
        *other = None;
    }
}

/// Whether what became of the pages by the other rules is another text.
fn is_other(alloc: Global, text: &[u8], other: &Option<Course>, told: Asked<'_>) -> bool {
    let Some(other) = other else {
        return false;
    };
    match moves_text(alloc, other.steps.as_slice(), told) {
        Ok(other) => {
            let is_other = other.as_slice() != text;
            drop(other);
            is_other
        }
        Err(_) => false,
    }
}

/// What became of the pages, as a text.
fn answer_of(alloc: Global, courses: &Courses, told: Asked<'_>) -> Result<Answer, Halt> {
    let text = moves_text(alloc, courses.own.steps.as_slice(), told)?;
    let is_other = is_other(alloc, text.as_slice(), &courses.other, told);
    Ok(Answer { text, is_other })
}

/// What became of pages, which says what it is of if it is a picture.
fn told_of_moves(
    alloc: Global,
    script: &HostScript,
    origin: Origin,
    playing: Playing<'_>,
    faults: &LineFaults,
    answer: Answer,
) -> Result<Answer, Halt> {
    let Answer { text, is_other } = answer;
    let Ok(subject) = subject_of(script, playing.process) else {
        return Ok(Answer { text, is_other });
    };
    let touch = match origin {
        Origin::Touched(touch) => Some(touch),
        Origin::Left => None,
    };
    let added = Added {
        lines: playing.lines,
        faults: faults.of_lines(),
    };
    let about = About::of(subject, touch, added).counting(subject);
    let text = told_of(alloc, playing.format, &about, text)?;
    Ok(Answer { text, is_other })
}

/// The nodes that fill, with how many more pages each takes.
fn limits_of(alloc: Global, rooms: &Rooms) -> Result<Vec<FreePages>, AllocError> {
    let mut limits = Vec::new(alloc);
    for node in 0..256u32 {
        let node = node as u8;
        if let Some(pages) = rooms.at(node) {
            limits.push(FreePages { node, pages })?;
        }
    }
    Ok(limits)
}

impl<T: Write> Play<'_, T> {
    /// Plays a line in the scripts, if it is one of theirs, and tells what is wrong with it.
    fn play_line(&mut self, holdings: &Holdings, place: u64, line: &str) -> Result<(), RunFault> {
        let moving = read_move(line.as_bytes());
        if let Some(why) = why_passed(&moving, self.playing.plays_all) {
            return self.faults.tell(ADDED, place, why);
        }
        let MoveLine::Migrate { process, to, .. } = moving else {
            return play_one(
                &mut *self.findings,
                place,
                line.as_bytes(),
                &mut *self.faults,
            );
        };
        match why_not(holdings, process_of(process, self.playing.process), &to) {
            Some(why) => self.faults.tell(ADDED, place, why),
            None => self.faults.note(b""),
        }
    }

    /// Plays these lines, and notes what each did to the pages that are there.
    fn play_lines(
        &mut self,
        alloc: Global,
        courses: &mut Courses,
        lines: &[String],
    ) -> Result<(), Halt> {
        let playing = self.playing;
        let mut place = 1u64;
        for line in lines {
            let line = line.as_str();
            if let Err(why) = self.play_line(&courses.own.holdings, place, line) {
                return Err(Halt::Stopped(why));
            }
            let findings = &*self.findings;
            courses.own.go_on(alloc, findings.script(), playing, line)?;
            go_on_beside(alloc, &mut courses.other, findings.other(), playing, line);
            place = place.saturating_add(1);
        }
        Ok(())
    }

    /// Plays the lines, and returns what becomes of the pages, as a text, which tells at the end
    /// what is left on these nodes.
    fn moves_by(
        &mut self,
        alloc: Global,
        courses: &mut Courses,
        limits: &[FreePages],
    ) -> Result<Answer, Halt> {
        let playing = self.playing;
        let scene = scene_of(self.findings.script(), playing.process, playing.format)?;
        let is_each = scene.is_each() && playing.process.is_none();
        let nodes = scene.nodes();
        if let Err(halt) = self.play_lines(alloc, courses, playing.lines) {
            return Err(halt);
        }
        let told = Asked {
            lines: playing.lines,
            faults: self.faults.of_lines(),
            is_each,
            process: playing.process,
            nodes,
            free: limits,
            format: playing.format,
        };
        answer_of(alloc, courses, told)
    }

    /// The same, where it is told what is left of the nodes whose free pages are asked for, or else
    /// of those that fill.
    fn moves_left(&mut self, alloc: Global, courses: &mut Courses) -> Result<Answer, Halt> {
        if !self.playing.free.is_empty() {
            let free = self.playing.free;
            return self.moves_by(alloc, courses, free);
        }
        let limits = limits_of(alloc, courses.own.holdings.rooms())?;
        let answer = self.moves_by(alloc, courses, limits.as_slice());
        drop(limits);
        answer
    }
}

/// Plays lines, and returns what becomes of the pages that are there, as a text. Nodes take as many
/// more pages as is asked for, else as many as scripts leave them.
///
/// # Errors
/// Why there is no answer.
pub fn moves_of<T: Write>(
    alloc: Global,
    findings: &mut Findings<T>,
    origin: Origin,
    playing: Playing<'_>,
    faults: &mut LineFaults,
) -> Result<Answer, Halt> {
    let own = begin(alloc, findings.script(), origin, playing)?;
    let other = begin_beside(alloc, findings.other(), origin, playing);
    let mut courses = Courses { own, other };
    let mut play = Play {
        findings: &mut *findings,
        playing,
        faults: &mut *faults,
    };
    let answer = play.moves_left(alloc, &mut courses);
    drop(play);
    drop(courses);
    told_of_moves(alloc, findings.script(), origin, playing, &*faults, answer?)
}

/// What becomes of pages by lines, as a text.
pub(crate) fn moves_told<T: Write>(
    alloc: Global,
    played: &mut Played<T>,
    asked: MovesAsked<'_>,
) -> Result<Vec<u8>, Halt> {
    let playing = Playing {
        lines: asked.lines,
        plays_all: false,
        process: played.process,
        free: asked.free,
        format: asked.format,
    };
    let origin = match asked.touch {
        Some(touch) => Origin::Touched(touch),
        None => Origin::Left,
    };
    let findings = &mut played.findings;
    match moves_of(alloc, findings, origin, playing, &mut played.faults) {
        Ok(answer) => Ok(answer.text),
        Err(halt) => Err(halt),
    }
}
