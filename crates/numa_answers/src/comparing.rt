//! Worked scripts, compared with the answers to their lines, as text, as tests or as JSON, and
//! written anew.
use crate::compared::{Worked, behind_line, compare_lines, line_count, line_end, tell_line};
use crate::told_tests::{
    say_change, say_changed, say_compared, say_counts, say_idle, say_idle_object, say_idle_test,
    say_test,
};
use numa_lines::{
    Counts, HEAD, LineForm, Respond, RunFault, TakeText, Watched, read_form, say_echo,
};
use numa_sheets::Format;
use std::alloc::{AllocError, Global};
use std::io::Write;
use std::mem::replace;

/// A worked script that holds other answers than it gets: its name, and its text with these.
pub type Updated = (String, Vec<u8>);

/// How worked scripts are compared: in which format that is told, whether answers that differ in
/// the numbers of versions alone count as the same, and whether the scripts are written anew.
#[derive(Clone, Copy)]
pub struct Comparison {
    pub format: Format,
    pub any_version: bool,
    pub update: bool,
}

/// Compares worked scripts, each text a separate script, with the answers to their lines.
#[derive(Drop)]
pub struct Comparing<A, W> {
    alloc: Global,
    how: Comparison,
    answerer: A,
    told: Watched<W>,
    // The lines of answers, and those that are written anew.
    counts: Counts,
    written: u64,
    // The number of answers that were compared as a whole.
    tests: u64,
    // The current text: its name, the number of the current line, its bytes so far, the latest
    // script line, and whether an answer is expected.
    name: String,
    place: u64,
    line: Vec<u8>,
    worked: Worked,
    is_worked: bool,
    // The text with the answers that it gets, whether it differs, and all texts that do.
    anew: Vec<u8>,
    is_changed: bool,
    changed: Vec<Updated>,
}

/// The first bytes of a line, which show whether a script line is too long.
fn head_of(line: &[u8]) -> &[u8] {
    line.get(..HEAD).unwrap_or(line)
}

impl<A: Respond, W: Write> Comparing<A, W> {
    /// The state before the first text; what is found goes to the writer.
    pub fn new(alloc: Global, how: Comparison, answerer: A, output: W) -> Comparing<A, W> {
        let mut told = Watched::new(output);
        // If that fails, each text is written at once.
        let _ = told.gather(alloc);
        if let Format::Tap = how.format {
            told.say(b"TAP version 13\n");
        }
        Comparing {
            alloc,
            how,
            answerer,
            told,
            counts: Counts::new(),
            written: 0,
            tests: 0,
            name: String::new(alloc),
            place: 1,
            line: Vec::new(alloc),
            worked: Worked::new(alloc),
            is_worked: false,
            anew: Vec::new(alloc),
            is_changed: false,
            changed: Vec::new(alloc),
        }
    }

    /// Whether each text expects an answer, and all that were compared are as expected.
    pub fn is_as_wanted(&self) -> bool {
        self.counts.are_as_wanted()
    }

    /// Takes out the texts that hold other answers than they get; none remain.
    pub fn take_changed(&mut self) -> Vec<Updated> {
        replace(&mut self.changed, Vec::new(self.alloc))
    }

    /// Whether differences are told as text.
    fn is_text(&self) -> bool {
        match self.how.format {
            Format::Json | Format::Tap => false,
            _ => true,
        }
    }

    /// Counts an answer, and writes whether it is as wanted, as a test or as JSON.
    fn tell(&mut self, is_same: bool) -> Result<(), AllocError> {
        self.tests = self.tests.saturating_add(1);
        let name = self.name.as_str();
        let told = &mut self.told;
        match self.how.format {
            Format::Tap => {
                say_test(told, self.tests, is_same, name, &self.worked);
                Ok(())
            }
            Format::Json => say_compared(self.alloc, told, is_same, name, &self.worked),
            _ => Ok(()),
        }
    }

    /// Appends the lines of the script line and its answer to the new text, as they were.
    fn keep_lines(&mut self) -> Result<(), AllocError> {
        if !self.how.update {
            return Ok(());
        }
        self.anew.extend_from_slice(self.worked.whole.as_slice())
    }

    /// Appends the script line and the answer that it gets to the new text, and writes that as a
    /// change.
    fn write_anew(&mut self) -> Result<(), AllocError> {
        let tells = self.is_text();
        let mut lines = Vec::new(self.alloc);
        let Worked {
            script,
            answer,
            whole,
            place,
            ..
        } = &self.worked;
        say_echo(&mut lines, script.as_slice(), answer.as_slice())?;
        if tells {
            if !self.is_changed {
                say_changed(&mut self.told, self.name.as_str());
            }
            let begin = line_count(self.anew.as_slice()).saturating_add(1);
            say_change(&mut self.told, *place, whole, begin, lines.as_slice());
        }
        self.is_changed = true;
        self.anew.extend_from_slice(lines.as_slice())
    }

    /// Ends an answer that is wanted.
    fn end_wanted(&mut self) -> Result<(), AllocError> {
        let update = self.how.update;
        let tells = self.is_text() && !update;
        let lines = compare_lines(&mut self.told, self.name.as_str(), &self.worked, tells);
        let is_same = lines.different == 0;
        self.counts.same = self.counts.same.saturating_add(lines.same);
        self.tell(is_same)?;
        if update && !is_same {
            self.written = self.written.saturating_add(lines.different);
            return self.write_anew();
        }
        self.counts.different = self.counts.different.saturating_add(lines.different);
        self.keep_lines()
    }

    /// Ends an answer that isn't wanted: it may be anything but a fault.
    fn end_unwanted(&mut self) -> Result<(), AllocError> {
        let tells = self.is_text();
        let given = self.worked.given.as_slice();
        if self.answerer.tells_fault(given) {
            self.counts.different = self.counts.different.saturating_add(1);
            if tells {
                let (name, place) = (self.name.as_str(), self.worked.place);
                tell_line(&mut self.told, name, place, b"no fault", given);
            }
            self.tell(false)?;
        } else if !given.is_empty() {
            self.counts.uncompared = self.counts.uncompared.saturating_add(1);
        }
        self.keep_lines()
    }

    /// Ends the answer to the latest script line, if there was one.
    fn end_answer(&mut self) -> Result<(), AllocError> {
        if self.worked.whole.is_empty() {
            return Ok(());
        }
        self.worked.settle(self.alloc, self.how.any_version)?;
        if self.worked.wanted.is_empty() {
            return self.end_unwanted();
        }
        self.end_wanted()
    }

    /// Has a script line answered; with the answer that is wanted it is this whole line.
    fn ask(&mut self, script: &[u8], whole: &[u8]) -> Result<(), AllocError> {
        self.end_answer()?;
        self.worked.begin(self.place);
        self.worked.script.extend_from_slice(script)?;
        self.worked.add_line(whole)?;
        let head = head_of(script);
        self.answerer.respond(head, &mut self.worked.answer)
    }

    /// Takes a line.
    fn take_line(&mut self, line: &[u8]) -> Result<(), AllocError> {
        match read_form(line) {
            LineForm::Script => self.ask(line, line),
            LineForm::Answered(end) => {
                self.is_worked = true;
                self.ask(&line[..end], line)?;
                self.worked.want(self.place, &line[end + 4..])
            }
            LineForm::Answer => {
                self.is_worked = true;
                self.worked.add_line(line)?;
                self.worked.want(self.place, &line[3..])
            }
        }
    }

    /// Ends the current line, and moves to the next.
    fn end_line(&mut self) -> Result<(), RunFault> {
        let mut line = replace(&mut self.line, Vec::new(self.alloc));
        let taken = self.take_line(line.as_slice());
        line.clear();
        self.line = line;
        self.place = self.place.saturating_add(1);
        done(taken)
    }

    /// Takes bytes of the current line.
    fn hold(&mut self, bytes: &[u8]) -> Result<(), RunFault> {
        done(self.line.extend_from_slice(bytes))
    }

    /// Notes the new text, if the answers that it holds are others.
    fn note_changed(&mut self) -> Result<(), AllocError> {
        if !self.is_changed {
            return Ok(());
        }
        let name = String::from_str(self.alloc, self.name.as_str())?;
        let anew = replace(&mut self.anew, Vec::new(self.alloc));
        self.changed.push((name, anew))?;
        Ok(())
    }

    /// Reports a text that expects no answer.
    fn tell_idle(&mut self) -> Result<(), AllocError> {
        self.counts.idle = self.counts.idle.saturating_add(1);
        self.tests = self.tests.saturating_add(1);
        let name = self.name.as_str();
        match self.how.format {
            Format::Tap => say_idle_test(&mut self.told, self.tests, name),
            Format::Json => return say_idle_object(self.alloc, &mut self.told, name),
            _ => say_idle(&mut self.told, name),
        }
        Ok(())
    }

    /// Ends the text.
    fn end_text(&mut self) -> Result<(), AllocError> {
        self.end_answer()?;
        if self.is_worked {
            return self.note_changed();
        }
        self.tell_idle()
    }

    /// Why nothing more can be reported, if so.
    fn outcome(&self) -> Result<(), RunFault> {
        if self.told.failed() {
            return Err(RunFault::Write);
        }
        Ok(())
    }

    /// Writes the counts.
    ///
    /// # Errors
    /// `Write` where this or an earlier write failed, `Memory` where there was no memory for it.
    pub fn tell_counts(&mut self) -> Result<(), RunFault> {
        let written = if self.how.update {
            Some(self.written)
        } else {
            None
        };
        let said = say_counts(
            self.alloc,
            &mut self.told,
            self.how.format,
            self.counts,
            self.tests,
            written,
        );
        done(said)?;
        self.told.hand_over()
    }
}

/// The fault of a call without memory.
fn done(made: Result<(), AllocError>) -> Result<(), RunFault> {
    match made {
        Ok(()) => Ok(()),
        Err(_) => Err(RunFault::Memory),
    }
}

impl<A: Respond, W: Write> TakeText<()> for Comparing<A, W> {
    fn begin(&mut self, name: &str) -> Result<(), RunFault> {
        self.answerer.begin();
        self.name.clear();
        self.line.clear();
        self.anew.clear();
        self.place = 1;
        self.worked.begin(1);
        self.is_worked = false;
        self.is_changed = false;
        done(self.name.push_str(name))
    }

    fn take(&mut self, piece: &[u8], _output: &mut ()) -> Result<(), RunFault> {
        let mut rest = piece;
        for _ in 0..piece.len() {
            let end = line_end(rest);
            if end >= rest.len() {
                break;
            }
            self.hold(&rest[..end])?;
            self.end_line()?;
            rest = behind_line(rest);
        }
        self.hold(rest)?;
        self.outcome()
    }

    fn end(&mut self, _output: &mut ()) -> Result<(), RunFault> {
        if !self.line.is_empty() {
            self.end_line()?;
        }
        done(self.end_text())?;
        self.outcome()
    }

    fn hand_over(&mut self, _output: &mut ()) -> Result<(), RunFault> {
        self.told.hand_over()
    }
}
