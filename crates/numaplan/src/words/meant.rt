//! What is asked after scripts, and the answers that several words have: where pages would go, and
//! which go elsewhere.
use crate::words::by_node::of_nodes;
use numa_console::{Asking, Question};
use numa_host_script::HostScript;
use numa_lines::RunFault;
use numa_moves::Origin;
use numa_placed::Placed;
use numa_play::{Findings, subject_of};
use numa_sheets::{Format, FreePages, Touch, Watch};
use numa_subjects::{Added, Halt, differ};
use numa_what_if::{DiffAsked, StatesBefore, difference_since, states_of};
use numa_words::{Answer, LineFaults, Playing, moves_of, play_added, prediction_there, stated_in};
use std::alloc::Global;
use std::io::Write;

/// What is asked, the touches that are meant, and the process of a host, if not all are asked for.
#[derive(Clone, Copy)]
pub struct Meant<'a> {
    pub asking: Asking<'a>,
    pub touches: &'a [Touch],
    pub process: Option<u32>,
}

impl<'a> Meant<'a> {
    /// The same, as text.
    pub fn as_text(&self) -> Meant<'a> {
        Meant {
            asking: Asking {
                format: Format::Text,
                ..self.asking
            },
            ..*self
        }
    }

    /// The answers on the nodes that are asked for, as one.
    pub fn whole(&self, alloc: Global, texts: Vec<Vec<u8>>) -> Result<Vec<u8>, Halt> {
        let Asking {
            question,
            format,
            ..
        } = self.asking;
        let is_lines = matches!(question, Question::Explain(..));
        let is_each = self.asking.is_each();
        of_nodes(alloc, is_each, self.touches, texts, format, is_lines)
    }
}

/// Adds the answer on one more node.
pub fn add(texts: &mut Vec<Vec<u8>>, text: Vec<u8>) -> Result<(), Halt> {
    match texts.push(text) {
        Ok(()) => Ok(()),
        Err(_) => Err(Halt::Stopped(RunFault::Memory)),
    }
}

/// Plays added lines; if it is asked, returns what becomes of pages that are there, which came to
/// lie there so, in this format.
pub fn play<T: Write>(
    alloc: Global,
    findings: &mut Findings<T>,
    process: Option<u32>,
    lines: &[String],
    asked: Option<(Origin, Format)>,
    faults: &mut LineFaults,
) -> Result<Option<Answer>, Halt> {
    let Some((origin, format)) = asked else {
        return match play_added(findings, lines, faults) {
            Ok(()) => Ok(None),
            Err(why) => Err(Halt::Stopped(why)),
        };
    };
    let playing = Playing {
        lines,
        plays_all: true,
        process,
        free: &[],
        format,
    };
    match moves_of(alloc, findings, origin, playing, faults) {
        Ok(moves) => Ok(Some(moves)),
        Err(halt) => Err(halt),
    }
}

/// Where pages would go after a script, where these are there.
fn prediction_beside<P: Watch>(
    alloc: Global,
    script: &HostScript,
    there: &[Placed],
    meant: Meant<'_>,
    free: &[FreePages],
    watch: &mut P,
) -> Result<Vec<u8>, Halt> {
    let (process, format) = (meant.process, meant.asking.format);
    let mut texts = Vec::new(alloc);
    for touch in meant.touches {
        let text = prediction_there(alloc, script, process, *touch, format, free, there, watch)?;
        add(&mut texts, text)?;
    }
    meant.whole(alloc, texts)
}

/// Where pages would go after a script; with a file that states where pages lie, those that are
/// there stay.
pub fn prediction_in<P: Watch>(
    alloc: Global,
    script: &HostScript,
    meant: Meant<'_>,
    free: &[FreePages],
    watch: &mut P,
) -> Result<Vec<u8>, Halt> {
    let mut there = Vec::new(alloc);
    if !meant.asking.at.is_empty() {
        if let Err(halt) = stated_in(alloc, script, meant.process, &mut there) {
            drop(there);
            return Err(halt);
        }
    }
    let text = prediction_beside(alloc, script, there.as_slice(), meant, free, watch);
    drop(there);
    text
}

/// Whether by the other rules pages would go elsewhere. (As JSON an answer would have the number of
/// accepted commands too.)
pub fn goes_elsewhere(
    alloc: Global,
    script: &HostScript,
    other: &HostScript,
    meant: Meant<'_>,
    free: &[FreePages],
) -> bool {
    let meant = meant.as_text();
    let own = prediction_in(alloc, script, meant, free, &mut ());
    let by_other = prediction_in(alloc, other, meant, free, &mut ());
    differ(own, by_other)
}

/// A difference that is asked for.
fn diff_asked<'a>(meant: Meant<'_>, touch: Touch, added: Added<'a>) -> DiffAsked<'a> {
    DiffAsked {
        touch,
        format: meant.asking.format,
        added,
    }
}

/// The states to which a script led, before the added lines.
pub fn states_in(
    alloc: Global,
    script: &HostScript,
    meant: Meant<'_>,
) -> Result<StatesBefore, Halt> {
    let Some(touch) = meant.touches.first() else {
        return Err(Halt::NoMachine);
    };
    match subject_of(script, meant.process) {
        Ok(subject) => {
            let asked = diff_asked(meant, *touch, Added::fine(&[]));
            states_of(alloc, subject, asked)
        }
        Err(halt) => Err(halt),
    }
}

/// Which pages go elsewhere by the lines that a script was played since these states.
pub fn difference_in<P: Watch>(
    alloc: Global,
    before: &StatesBefore,
    script: &HostScript,
    meant: Meant<'_>,
    added: Added<'_>,
    watch: &mut P,
) -> Result<Vec<u8>, Halt> {
    let subject = subject_of(script, meant.process)?;
    let mut texts = Vec::new(alloc);
    for touch in meant.touches {
        let asked = diff_asked(meant, *touch, added);
        let text = difference_since(alloc, before, subject, asked, watch)?;
        add(&mut texts, text)?;
    }
    meant.whole(alloc, texts)
}

/// Whether by the other rules other pages would go elsewhere since the states before.
pub fn differs_elsewhere(
    alloc: Global,
    own: (&StatesBefore, &HostScript),
    other: (&StatesBefore, &HostScript),
    meant: Meant<'_>,
) -> bool {
    let meant = meant.as_text();
    let none = Added::fine(&[]);
    let text = difference_in(alloc, own.0, own.1, meant, none, &mut ());
    let by_other = difference_in(alloc, other.0, other.1, meant, none, &mut ());
    differ(text, by_other)
}
