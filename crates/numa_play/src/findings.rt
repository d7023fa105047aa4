//! Reporting what is wrong with the lines of scripts as they are played.
ghost use Rattle.std.specs.Prelude.{◌≡◌, OnOk};
ghost use Rattle.numa_host_script.specs.Sessions.{Session};
ghost use Rattle.numa_host_script.specs.Taking.{SessionStandsFor};
ghost use Rattle.numa_play.specs.Deeds.{CarriesLine};
ghost use Rattle.numa_script.specs.Lines.{line_of};
ghost use Rattle.numa_subjects.specs.Faults.{ended_by, has_faults};

use crate::found_objects::{
    Message, Said, put_message, put_unjudged, say_message, say_unnamed, words_of,
};
use crate::huge::{HugeCount, remark_on};
use crate::judging::{is_at, is_spent, judge_behind};
use crate::named::{Named, TasksNamed};
use crate::twin::TwinScript;
use numa_diagnose::{Detail, Finding, HostHint, LineAt, hint_in, hint_of, say_unjudged};
use numa_host_script::HostScript;
use numa_lines::{RunFault, TakeLine, Watched};
use numa_machine::Rules;
use numa_mask::parts::first_place;
use numa_run::Script;
use numa_script::ScriptLine;
use numa_script::line::parse;
use numa_sheets::Format;
use numa_subjects::{Ended, Twin};
use std::alloc::{AllocError, Global};
use std::io::Write;

/// The remark that by the other rules an answer would be another.
const BY_OTHER: &str = "rules: those of the documents; by rules linux the answer is another\n";

/// What is looked for in lines, beside errors and refusals, and how messages are written.
#[derive(Clone, Copy)]
pub struct Look {
    /// Whether hints are written: what a running kernel would do differently.
    pub hints: bool,
    /// Whether the lines are also played by the rules other than those that apply.
    pub other: Twin,
    /// Whether that waits until these rules do something else with a line: up to then no page goes
    /// elsewhere by them.
    pub waits: bool,
    /// The process of a host, if messages are wanted of its lines alone.
    pub process: Option<u32>,
    /// Whether it is told why a line `at` is refused; else it doesn't matter.
    pub tells_at: bool,
    /// Text or JSON.
    pub format: Format,
}

/// Errors and refusals alone, as text.
pub const PLAIN: Look = Look {
    hints: false,
    other: Twin::None,
    waits: false,
    process: None,
    tells_at: true,
    format: Format::Text,
};

/// A script that is played, and the messages about its lines: one for each line with an error or a
/// refusal and, with hints, one for each line that a running kernel would treat differently.
pub struct Findings<W> {
    pub(crate) alloc: Global,
    pub(crate) script: HostScript,
    // The same script by the other rules, if requested.
    pub(crate) other: TwinScript,
    look: Look,
    // What lines name.
    named: Named,
    // Whether the text whose lines are taken is binary, and whether one of its lines was fine.
    is_binary: bool,
    has_fine: bool,
    pub(crate) output: Watched<W>,
    // What is told of a line.
    text: Vec<u8>,
    // The number of lines with a message, and of lines that weren't judged, since no machine was
    // ready.
    told: u64,
    unjudged: u64,
}

// (By hand, so that it is proved here alone: a derived one is proved in each crate that drops.)
impl<W: Drop> Drop for Findings<W> {
    fn drop(self) {
        let Findings {
            alloc: _,
            script,
            other,
            look: _,
            named: _,
            is_binary: _,
            has_fine: _,
            output,
            text,
            told: _,
            unjudged: _,
        } = self;
        drop(script);
        drop(other);
        drop(output);
        drop(text);
    }
}

impl<W: Write> Findings<W> {
    /// The state before the first line. Messages go to the writer. These rules apply unless a line
    /// says otherwise.
    pub fn new(alloc: Global, rules: Rules, look: Look, output: W) -> Findings<W> {
        let mut output = Watched::new(output);
        // Without that memory each text is written alone.
        let _ = output.gather(alloc);
        Findings {
            alloc,
            script: HostScript::by(rules),
            other: TwinScript::new(alloc, rules, look.other, look.waits),
            look,
            named: Named::new(None, None),
            is_binary: false,
            has_fine: false,
            output,
            text: Vec::new(alloc),
            told: 0,
            unjudged: 0,
        }
    }

    /// The script that the lines led to by the other rules, if they are played by those; none while
    /// that waits, since by these rules no page would go elsewhere.
    pub fn other(&self) -> Option<&HostScript> {
        self.other.script()
    }

    /// The same, where this process of a host and this task are asked for, if they are given.
    pub fn asking(self, process: Option<u32>, task: Option<u32>) -> Findings<W> {
        let mut findings = self;
        findings.named = Named::new(process, task);
        findings
    }

    /// What lines name so far.
    pub(crate) fn named(&self) -> &Named {
        &self.named
    }

    /// Notes what lines name that will be played.
    pub fn note_all(&mut self, lines: &[String]) {
        for line in lines {
            self.note(&parse(line.as_str().as_bytes()));
        }
    }

    /// Notes what a line names.
    fn note(&mut self, said: &ScriptLine<'_>)
        ensures { self.new.script ≡ self.old.script }
    {
        let is_ready = is_ready(self.script());
        self.named.note(said, is_ready);
    }

    /// The script after the lines so far.
    pub fn script(&self) -> &HostScript {
        &self.script
    }

    /// Whether something was wrong with a line so far.
    pub fn has_faults(&self) -> bool
        ensures { result ≡ has_faults self.now.told self.now.unjudged }
    {
        self.told > 0 || self.unjudged > 0
    }

    /// The lines on which an answer is based now.
    pub fn ended(&self) -> Ended
        ensures { result ≡ ended_by (has_faults self.now.told self.now.unjudged) }
    {
        if self.has_faults() {
            Ended::Faulty
        } else {
            Ended::Clean
        }
    }

    /// How many lines have a message so far.
    pub fn told(&self) -> u64
        ensures { result ≡ self.now.told }
    {
        self.told
    }

    /// What the message about the last line says of it, if that isn't one of the first `before`
    /// lines with a message.
    pub fn fault_behind(&self, before: u64) -> &[u8] {
        if self.told == before {
            return &[];
        }
        words_of(self.text.as_slice())
    }

    /// Writes a message about a line.
    fn say(&mut self, message: Message<'_>) -> Result<(), RunFault>
        ensures { self.new.script ≡ self.old.script }
    {
        self.text.clear();
        let text = &mut self.text;
        let said = match self.look.format {
            Format::Json => put_message(self.alloc, text, message),
            _ => say_message(text, message),
        };
        if said.is_err() {
            return Err(RunFault::Memory);
        }
        self.output.say(self.text.as_slice());
        Ok(())
    }

    /// Writes what was found in a line, or that a text is binary.
    fn tell<'a>(&mut self, name: &'a str, place: u64, said: Said<'a>) -> Result<(), RunFault>
        ensures { self.new.script ≡ self.old.script }
    {
        let at = LineAt { name, place };
        if let Err(why) = self.say(Message { at, said }) {
            return Err(why);
        }
        self.told = self.told.saturating_add(1);
        Ok(())
    }

    /// What a kernel would do differently with the next line, if hints are written.
    fn hint(&self, said: &ScriptLine<'_>) -> Result<Option<HostHint>, RunFault> {
        if !self.look.hints {
            return Ok(None);
        }
        hint_of_next(self.script(), said)
    }

    /// Whether messages are wanted of lines of this process, or of none.
    fn is_wanted(&self, process: Option<u32>) -> bool {
        self.look.process.is_none() || self.look.process == process
    }

    /// Writes what a kernel would do differently with a line, if anything.
    fn tell_hint(&mut self, name: &str, place: u64, hint: Option<HostHint>) -> Result<(), RunFault>
        ensures { self.new.script ≡ self.old.script }
    {
        let Some(hint) = hint else {
            return Ok(());
        };
        if !self.is_wanted(hint.process) {
            return Ok(());
        }
        let at = LineAt { name, place };
        let said = Said::Hint(&hint);
        self.say(Message { at, said })
    }

    /// Drops the script by the other rules if a line chooses rules, where it is played only unless
    /// one does.
    fn heed_rules(&mut self)
        ensures { self.new.script ≡ self.old.script }
    {
        if self.look.other == Twin::UnlessChosen && self.named.has_rules() {
            self.other.leave();
        }
    }

    /// Writes that a text is binary, at its first line with a byte 0 if none before was fine, and
    /// returns whether it is: then its further lines are passed over.
    fn is_binary(&mut self, name: &str, place: u64, line: &[u8]) -> Result<bool, RunFault> {
        if place == 1 {
            self.is_binary = false;
            self.has_fine = false;
        }
        let zero = first_place(line, 0);
        let (false, false, Some(zero)) = (self.is_binary, self.has_fine, zero) else {
            return Ok(self.is_binary);
        };
        let column = (zero as u64).saturating_add(1);
        self.is_binary = true;
        match self.tell(name, place, Said::Binary(column)) {
            Ok(()) => Ok(true),
            Err(why) => Err(why),
        }
    }

    /// Writes a remark of one line on an answer.
    fn remark(&mut self, words: &str) {
        self.output.say(words.as_bytes());
    }

    /// Writes the gathered remarks.
    ///
    /// # Errors
    /// `Write`: writing failed.
    pub fn end_remarks(&mut self) -> Result<(), RunFault> {
        self.output.hand_over()
    }

    /// Writes that by the other rules an answer would be another.
    pub fn tell_other(&mut self) {
        self.remark(BY_OTHER);
    }

    /// Writes what an answer doesn't say of pages of 2 MiB, if there are some, which it counts so.
    pub fn tell_huge(&mut self, counted: HugeCount) {
        if let Some(words) = remark_on(&self.script, counted) {
            self.remark(words);
        }
    }

    /// Writes that no line names the task that is asked for, if lines name others alone.
    ///
    /// # Errors
    /// `AllocError`: out of memory.
    pub fn tell_unnamed(&mut self) -> Result<(), AllocError> {
        let Some((task, tasks)) = self.named.unnamed() else {
            return Ok(());
        };
        self.text.clear();
        say_unnamed(&mut self.text, task, tasks)?;
        self.output.say(self.text.as_slice());
        Ok(())
    }

    /// Writes the number of lines that weren't judged, if any, and the gathered text.
    ///
    /// # Errors
    /// `Write` where writing failed, `Memory` where there was no memory for the text.
    pub fn end(&mut self) -> Result<(), RunFault> {
        if self.unjudged > 0 {
            self.text.clear();
            let text = &mut self.text;
            let said = match self.look.format {
                Format::Json => put_unjudged(self.alloc, text, self.unjudged),
                _ => say_unjudged(text, self.unjudged),
            };
            if said.is_err() {
                return Err(RunFault::Memory);
            }
            self.output.say(self.text.as_slice());
        }
        self.output.hand_over()
    }
}

/// Whether a machine is ready.
fn is_ready(script: &HostScript) -> bool {
    match script.script() {
        Some(script) => script.core().is_some(),
        None => true,
    }
}

/// The hint of a script of one process.
fn plain_hint(script: &Script, said: &ScriptLine<'_>) -> Option<HostHint> {
    let core = script.core()?;
    if said.process.is_some() {
        return None;
    }
    match hint_of(core.space(), &said.line) {
        Some(otherwise) => Some(HostHint {
            process: None,
            otherwise,
        }),
        None => None,
    }
}

/// What a kernel would do differently with the next line of a script.
fn hint_of_next(script: &HostScript, said: &ScriptLine<'_>) -> Result<Option<HostHint>, RunFault> {
    if let Some(host) = script.host() {
        return match hint_in(host, said) {
            Ok(hint) => Ok(hint),
            Err(_) => Err(RunFault::Memory),
        };
    }
    match script.script() {
        Some(script) => Ok(plain_hint(script, said)),
        None => Ok(None),
    }
}

impl<W: Write> Findings<W> {
    /// Whether what was found in a line doesn't matter: not that it comes too early.
    fn is_passed(&self, said: &ScriptLine<'_>, finding: &Finding) -> bool {
        !self.look.tells_at && is_at(said) && !matches!(finding.detail, Detail::NoMachine)
    }

    /// Writes what was found in a line that doesn't lack memory, and what a kernel would do
    /// differently with it, or counts it as not judged.
    fn tell_found(
        &mut self,
        name: &str,
        place: u64,
        finding: &Finding,
        hint: Option<HostHint>,
    ) -> Result<(), RunFault>
        ensures { self.new.script ≡ self.old.script }
    {
        if let Detail::NoMachine = finding.detail {
            self.unjudged = self.unjudged.saturating_add(1);
            return Ok(());
        }
        if !self.is_wanted(finding.process) {
            return Ok(());
        }
        match self.tell(name, place, Said::Fault(finding)) {
            Ok(()) if !is_spent(finding) => self.tell_hint(name, place, hint),
            told => told,
        }
    }

    /// Plays a line that stands behind so many bytes, and writes what is wrong with it, and what a
    /// kernel would do differently.
    fn judge_line(
        &mut self,
        name: &str,
        place: u64,
        line: &[u8],
        said: &ScriptLine<'_>,
        before: usize,
    ) -> Result<(), RunFault>
        ensures { (session : Session) → SessionStandsFor self.old.script session → OnOk result
            (CarriesLine said.now session self.new.script) }
    {
        let hint = match self.hint(said) {
            Ok(hint) => hint,
            Err(why) => return Err(why),
        };
        let Some(finding) = judge_behind(self.alloc, &mut self.script, line, said, before) else {
            self.has_fine = self.has_fine || !line.is_empty();
            return self.tell_hint(name, place, hint);
        };
        if finding.fault.lacks_memory() {
            return Err(RunFault::Memory);
        }
        if self.is_passed(said, &finding) {
            return Ok(());
        }
        self.tell_found(name, place, &finding, hint)
    }

    /// Plays a line by these rules and the others, and writes what is wrong with it.
    pub(crate) fn play_line(
        &mut self,
        name: &str,
        place: u64,
        line: &[u8],
        before: usize,
    ) -> Result<(), RunFault>
        ensures { (session : Session) → SessionStandsFor self.old.script session → OnOk result
            (CarriesLine (line_of line.now) session self.new.script) }
    {
        let said = parse(line);
        self.note(&said);
        self.heed_rules();
        match self.other.follow(&self.script, line, &said) {
            Ok(()) => self.judge_line(name, place, line, &said, before),
            Err(why) => Err(why),
        }
    }
}

impl<W: Write> TakeLine<()> for Findings<W> {
    fn take(&mut self, name: &str, place: u64, line: &[u8], _: &mut ()) -> Result<(), RunFault> {
        if self.is_binary(name, place, line)? {
            return Ok(());
        }
        self.play_line(name, place, line, 0)
    }

    fn hand_over(&mut self, _output: &mut ()) -> Result<(), RunFault> {
        self.output.hand_over()
    }
}
