//! Worked scripts, compared with the answers to their lines as they are read.
ghost use Rattle.std.specs.Prelude.{◌≡◌, ℕ, ◌≤◌, Bool, List, length, if◌then◌else◌};
ghost use Rattle.numa_lines.specs.Counts.{with_different, with_end, with_idle, with_rest};

use crate::answer::LatestAnswer;
use crate::counts::{Counts, add_one};
use crate::fault::RunFault;
use crate::reading::TakeText;
use crate::watched::Watched;
use crate::worked::{HEAD, LineForm, read_form};
use memchr::memchr;
use std::alloc::{AllocError, Global};
use std::io::Write;

/// What is reported of a text that expects no answer.
const NOTHING: &[u8] = b": nothing is compared: no answer stands behind ' => '\n";

/// What answers script lines.
pub trait Respond {
    /// Whether an answer is an error or a refusal.
    ghost is_fault: { List ℕ → Bool };

    /// Begins a script.
    fn begin(&mut self);

    /// Writes the answer to a line into an empty text: whole lines with their line feeds.
    ///
    /// # Errors
    /// `AllocError`: out of memory.
    fn respond(&mut self, line: &[u8], answer: &mut Vec<u8>) -> Result<(), AllocError>;

    /// Whether such an answer is an error or a refusal.
    fn tells_fault(&self, answer: &[u8]) -> bool
        ensures { result ≡ is_fault answer.now };
}

/// What is known of the current line.
#[derive(Clone, Copy)]
enum Reading {
    /// Its form isn't known yet.
    Head,
    /// A script line without an answer.
    Passed,
    /// An expected answer, the same as the given one so far.
    Same,
    /// An expected answer that differs from the given one.
    Different,
}

/// A line of a worked script, and the answer with which it is compared.
#[derive(Drop)]
struct LineComparison<W> {
    told: Watched<W>,
    // Whether memory ran out for an answer, or for a line.
    lacks_memory: bool,
    counts: Counts,
    // The current line: the name of its text, its number there from 1, and what is known of it.
    name: String,
    place: u64,
    reading: Reading,
    // The answer to the latest script line, whether it is expected, and whether one in this text
    // is.
    answer: LatestAnswer,
    is_wanted: bool,
    is_worked: bool,
}

/// Compares worked scripts, each text a separate script, with the answers to their lines.
#[derive(Drop)]
pub struct Expect<A, W> {
    answerer: A,
    comparison: LineComparison<W>,
    // The first bytes of the current line.
    head: Vec<u8>,
}

/// Begins to report a difference: where it is, and what was expected.
fn tell_wanted<W: Write>(told: &mut Watched<W>, name: &str, place: u64, wanted: &[u8]) {
    told.say(name.as_bytes());
    told.say(b":");
    told.say_number(place);
    told.say(b": wanted ");
    told.say(wanted);
}

/// Ends the report with the line that was given, if one was.
fn tell_given<W: Write>(told: &mut Watched<W>, is_none: bool, line: &[u8]) {
    if is_none {
        return told.say(b", got nothing\n");
    }
    told.say(b", got ");
    told.say(line);
    told.say(b"\n");
}

impl<W: Write> LineComparison<W> {
    /// Begins to report a difference in the current line: where it is, and what was expected as far
    /// as it is the same.
    fn tell_wanted(&mut self) {
        let taken = self.answer.taken();
        tell_wanted(&mut self.told, self.name.as_str(), self.place, taken);
    }

    /// Ends the report with what was given, and counts the difference.
    fn tell_given(&mut self)
        ensures { self.new.counts ≡ with_different self.old.counts }
    {
        add_one(&mut self.counts.different);
        tell_given(&mut self.told, self.answer.is_over(), self.answer.line());
    }

    /// Compares bytes of an expected line.
    fn want(&mut self, bytes: &[u8]) {
        let Reading::Same = self.reading else {
            return self.told.say(bytes);
        };
        if self.answer.take(bytes) {
            return;
        }
        let count = self.answer.take_some(bytes);
        self.tell_wanted();
        self.reading = Reading::Different;
        self.told.say(&bytes[count..]);
    }

    /// Compares the end of an expected line.
    fn end_wanted(&mut self) {
        if let Reading::Same = self.reading {
            if self.answer.end_line() {
                add_one(&mut self.counts.same);
                return;
            }
            self.tell_wanted();
        }
        self.tell_given();
        self.answer.go_on();
    }

    /// Reports for the line before the current one that this was expected, not what was given.
    fn tell_rest(&mut self, wanted: &[u8])
        ensures { self.new.counts ≡ with_different self.old.counts }
    {
        let last = self.place.saturating_sub(1);
        tell_wanted(&mut self.told, self.name.as_str(), last, wanted);
        self.tell_given();
    }

    /// Counts what was given beyond what was expected, and reports it if something was expected, or
    /// if it is an error.
    #[cold]
    #[inline(never)]
    fn count_rest<A: Respond>(&mut self, answerer: &A)
        ensures { self.new.counts ≡ with_rest self.old.is_wanted
            (A.is_fault self.old.answer.text.items) self.old.counts }
    {
        if self.is_wanted {
            return self.tell_rest(b"no more");
        }
        if answerer.tells_fault(self.answer.text.as_slice()) {
            return self.tell_rest(b"no fault");
        }
        add_one(&mut self.counts.uncompared);
    }

    /// Ends the answer to the latest script line.
    fn end_answer<A: Respond>(&mut self, answerer: &A)
        ensures { self.new.counts ≡ with_end self.old.answer self.old.is_wanted
            (A.is_fault self.old.answer.text.items) self.old.counts }
    {
        if !self.answer.is_over() {
            self.count_rest(answerer);
        }
        self.answer.clear();
        self.is_wanted = false;
    }

    /// Compares a whole expected line with the whole answer, and returns whether they are the same:
    /// most answers are one line, and as expected.
    fn take_whole(&mut self, wanted: &[u8]) -> bool {
        let is_same = match self.answer.text.split_last() {
            Some((end, line)) => *end == b'\n' && line == wanted,
            None => false,
        };
        if is_same {
            add_one(&mut self.counts.same);
            self.answer.clear();
            self.reading = Reading::Passed;
        }
        is_same
    }

    /// Ends the text, and reports if it expects no answer.
    fn end_text(&mut self)
        ensures { self.new.counts
            ≡ (if self.old.is_worked then self.old.counts else with_idle self.old.counts) }
    {
        if self.is_worked {
            return;
        }
        add_one(&mut self.counts.idle);
        self.told.say(self.name.as_str().as_bytes());
        self.told.say(NOTHING);
    }

    /// Ends the answer to the line before, and has a script line answered.
    fn ask<A: Respond>(&mut self, answerer: &mut A, line: &[u8]) {
        self.end_answer(answerer);
        if let Err(_) = answerer.respond(line, &mut self.answer.text) {
            self.lacks_memory = true;
        }
    }

    /// Why nothing more can be answered or reported, if so.
    fn outcome(&self) -> Result<(), RunFault> {
        if self.lacks_memory {
            return Err(RunFault::Memory);
        }
        if self.told.failed() {
            return Err(RunFault::Write);
        }
        Ok(())
    }

    /// Takes the whole line, or as many of its first bytes as show its form.
    fn take_head<A: Respond>(&mut self, answerer: &mut A, head: &[u8], is_whole: bool) {
        match read_form(head) {
            LineForm::Script => {
                self.reading = Reading::Passed;
                self.ask(answerer, head);
            }
            LineForm::Answered(end) => {
                self.ask(answerer, &head[..end]);
                self.is_worked = true;
                let wanted = &head[end + 4..];
                if is_whole && self.take_whole(wanted) {
                    return;
                }
                self.reading = Reading::Same;
                self.is_wanted = true;
                self.want(wanted);
            }
            LineForm::Answer => {
                self.reading = Reading::Same;
                self.is_wanted = true;
                self.is_worked = true;
                self.want(&head[3..]);
            }
        }
    }
}

impl<A: Respond, W: Write> Expect<A, W> {
    /// The state before the first text; differences go to the writer.
    pub fn new(alloc: Global, answerer: A, output: W) -> Expect<A, W> {
        let comparison = LineComparison {
            told: Watched::gathering(alloc, output),
            lacks_memory: false,
            counts: Counts::new(),
            name: String::new(alloc),
            place: 1,
            reading: Reading::Head,
            answer: LatestAnswer::new(alloc),
            is_wanted: false,
            is_worked: false,
        };
        Expect {
            answerer,
            comparison,
            head: Vec::new(alloc),
        }
    }

    /// The counts so far.
    pub fn counts(&self) -> Counts
        ensures { result ≡ self.now.comparison.counts }
    {
        self.comparison.counts
    }

    /// Finds the form of the current line.
    fn see(&mut self) {
        self.comparison
            .take_head(&mut self.answerer, self.head.as_slice(), false);
        self.head.clear();
    }

    /// Ends the current line, and moves to the next.
    fn end_line(&mut self) {
        if let Reading::Head = self.comparison.reading {
            self.see();
        }
        let comparison = &mut self.comparison;
        match comparison.reading {
            Reading::Head | Reading::Passed => (),
            Reading::Same | Reading::Different => comparison.end_wanted(),
        }
        comparison.reading = Reading::Head;
        comparison.place = comparison.place.saturating_add(1);
    }

    /// Whether nothing of the current line was taken.
    fn is_new(&self) -> bool {
        match self.comparison.reading {
            Reading::Head => self.head.is_empty(),
            Reading::Passed | Reading::Same | Reading::Different => false,
        }
    }

    /// Takes the rest of the current line. A short line that lies whole in its piece isn't copied.
    fn take_rest(&mut self, rest: &[u8]) {
        if rest.len() <= HEAD && self.is_new() {
            self.comparison.take_head(&mut self.answerer, rest, true);
        } else {
            self.feed(rest);
        }
        self.end_line();
    }

    /// Takes the first bytes of the current line, up to those that show its form, and returns how
    /// many.
    fn take_first(&mut self, bytes: &[u8]) -> usize
        ensures { result ≤ length bytes.now }
    {
        let count = HEAD.saturating_sub(self.head.len()).min(bytes.len());
        if let Err(_) = self.head.extend_from_slice(&bytes[..count]) {
            self.comparison.lacks_memory = true;
        }
        if self.head.len() >= HEAD {
            self.see();
        }
        count
    }

    /// Takes the next bytes of the current line.
    fn feed(&mut self, bytes: &[u8]) {
        let mut rest = bytes;
        if let Reading::Head = self.comparison.reading {
            let count = self.take_first(bytes);
            rest = &bytes[count..];
        }
        match self.comparison.reading {
            Reading::Head | Reading::Passed => (),
            Reading::Same | Reading::Different => self.comparison.want(rest),
        }
    }

    /// Writes the counts, in a last line.
    ///
    /// # Errors
    /// `Write` where this or an earlier write failed.
    pub fn tell_counts(&mut self) -> Result<(), RunFault> {
        let Counts {
            same,
            different,
            uncompared,
            ..
        } = self.comparison.counts;
        let told = &mut self.comparison.told;
        told.say_number(same);
        told.say(b" as wanted, ");
        told.say_number(different);
        told.say(b" not, ");
        told.say_number(uncompared);
        told.say(b" not compared\n");
        self.comparison.told.hand_over()
    }
}

impl<A: Respond, W: Write> TakeText<()> for Expect<A, W> {
    fn begin(&mut self, name: &str) -> Result<(), RunFault> {
        self.answerer.begin();
        let comparison = &mut self.comparison;
        comparison.name.clear();
        if let Err(_) = comparison.name.push_str(name) {
            return Err(RunFault::Memory);
        }
        comparison.place = 1;
        comparison.is_worked = false;
        Ok(())
    }

    fn take(&mut self, piece: &[u8], _output: &mut ()) -> Result<(), RunFault> {
        let mut rest = piece;
        while let Some(end) = memchr(b'\n', rest) {
            self.take_rest(&rest[..end]);
            if let Err(why) = self.comparison.outcome() {
                return Err(why);
            }
            rest = &rest[end + 1..];
        }
        self.feed(rest);
        self.comparison.outcome()
    }

    fn end(&mut self, _output: &mut ()) -> Result<(), RunFault> {
        if !self.is_new() {
            self.end_line();
        }
        let comparison = &mut self.comparison;
        comparison.end_answer(&self.answerer);
        comparison.end_text();
        comparison.outcome()
    }

    // Whole lines only: a difference waits until its line has ended.
    fn hand_over(&mut self, _output: &mut ()) -> Result<(), RunFault> {
        if let Reading::Different = self.comparison.reading {
            return Ok(());
        }
        self.comparison.told.hand_over()
    }
}
