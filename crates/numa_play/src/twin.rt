//! A script and its twin, which goes by the other rules: while both do the same with each line, the
//! twin needn't be played, and no page goes elsewhere by it.
ghost use Rattle.std.specs.Prelude.{◌≡◌, ℕ, true, false, IfSome, List, None};
ghost use Rattle.numa_machine.specs.Machine.{Hardware};
ghost use Rattle.numa_machine.specs.Rules.{is_linux};
ghost use Rattle.numa_requests.specs.declared.command.Command.{Command};
ghost use Rattle.numa_host_script.specs.Sessions.{HostLack, Single};
ghost use Rattle.numa_host_script.specs.Taking.{SessionStandsFor};
ghost use Rattle.numa_rules.specs.Others.{IsSameThere};
ghost use Rattle.numa_rules.specs.Otherwise.{otherwise_of};
ghost use Rattle.numa_run.specs.Answers.{State};
ghost use Rattle.numa_run.specs.Scripts.{ScriptStandsFor};
ghost use Rattle.numa_play.specs.Twins.{IsRefusedAlike, IsServedAlike, KeepNodes, StayTwins};
ghost use Rattle.numa_play.specs.Twins.{keeps_nodes, turned_machine};

use crate::judging::judge_by_other;
use numa_host_script::HostScript;
use numa_lines::RunFault;
use numa_machine::Rules;
use numa_mask::parts::first_place;
use numa_requests::{Command, Event};
use numa_rules::{other_rules, otherwise_of};
use numa_run::Script;
use numa_script::line::parse;
use numa_script::{Line, ScriptLine, Work};
use numa_space::Space;
use numa_subjects::Twin;
use std::alloc::{AllocError, Global};

/// Whether a command doesn't change the allowed nodes.
fn keeps_nodes(command: &Command) -> bool
    ensures { result ≡ keeps_nodes command.now }
{
    match command {
        Command::SetMems { .. } => false,
        _ => true,
    }
}

/// Whether a space goes by the documents, and a kernel does nothing otherwise with a command.
fn is_obeyed_alike(space: &Space, command: &Command) -> bool
    ensures documents { result ≡ true → is_linux space.now.machine.rules ≡ false }
    ensures none { result ≡ true → otherwise_of space.now command.now ≡ None }
{
    if space.machine().rules().is_linux() {
        return false;
    }
    match otherwise_of(space, command) {
        Some(_) => false,
        None => true,
    }
}

/// Whether a command does the same by both rules, and doesn't change the allowed nodes.
fn obeys_alike(script: &Script, command: &Command) -> bool
    ensures { result ≡ true → (state : State) → ScriptStandsFor script.now state
        → KeepNodes state.world.history
        → (keeps_nodes command.now ≡ true) × IsRefusedAlike state.machine state command.now }
{
    if !keeps_nodes(command) {
        return false;
    }
    match script.core() {
        None => true,
        Some(core) => is_obeyed_alike(core.space(), command),
    }
}

/// Whether a line does the same by both rules.
fn serves_alike(script: &Script, said: &Line<'_>) -> bool
    ensures { result ≡ true → (state : State) → ScriptStandsFor script.now state
        → KeepNodes state.world.history → IsServedAlike state said.now }
{
    match said {
        Line::Silent => true,
        Line::Malformed => true,
        Line::Limits { .. } => true,
        Line::Rules(_) => true,
        Line::Cpus(_) => true,
        Line::Machine(_) => true,
        Line::Command(Ok(command)) => obeys_alike(script, command),
        Line::Command(Err(_)) => true,
        Line::Question(_) => true,
        Line::Maps(_) => true,
        Line::Work(Work::Event(Event::Publish)) => true,
        _ => false,
    }
}

/// Whether a line leaves a script and its twin, which differ in the rules alone before it, so that
/// they do afterwards too. The line is one of a script of one process.
pub(crate) fn stay_twins(script: &HostScript, said: &ScriptLine<'_>) -> bool
    ensures { result ≡ true → (state : State) → SessionStandsFor script.now (Single state)
        → KeepNodes state.world.history → (lack : HostLack) → StayTwins state said.now lack }
{
    let None = said.process else {
        return false;
    };
    match script.script() {
        Some(own) => serves_alike(own, &said.line),
        None => false,
    }
}

/// A script and its twin, whose allowed nodes no command changed, have one list for each page, and
/// its policy has the same nodes. (The function does nothing: what it ensures is a law.)
pub(crate) fn twins_go_alike()
    ensures { (machine : Hardware) (history : List Command) → KeepNodes history
        → (task page cpu : ℕ)
        → IsSameThere machine history (turned_machine machine) history task page cpu }
{}

/// The twin of a script, by the other rules, if it is requested. It may wait: it is played from the
/// first line on once one isn't known to leave both so that they differ in the rules alone.
pub(crate) struct TwinScript {
    alloc: Global,
    rules: Rules,
    // None where it isn't requested, and while it waits.
    pub(crate) script: Option<HostScript>,
    // The lines so far, each with a line feed, while it waits.
    behind: Option<Vec<u8>>,
}

// (By hand, so that it is proved here alone: a derived one is proved in each crate that drops.)
impl Drop for TwinScript {
    fn drop(self) {
        let TwinScript {
            alloc: _,
            rules: _,
            script,
            behind,
        } = self;
        drop(script);
        drop(behind);
    }
}

/// Whether a script that goes by these rules until a line chooses others has such a twin.
fn has_twin(rules: Rules, twin: Twin) -> bool {
    match twin {
        Twin::None => false,
        Twin::Always => true,
        Twin::UnlessChosen => !rules.is_linux(),
    }
}

/// Appends a line and a line feed.
fn put_line(lines: &mut Vec<u8>, line: &[u8]) -> Result<(), AllocError> {
    lines.extend_from_slice(line)?;
    lines.push(b'\n')?;
    Ok(())
}

/// Plays a line by the other rules.
fn play_line(
    alloc: Global,
    script: &mut HostScript,
    said: &ScriptLine<'_>,
) -> Result<(), RunFault> {
    match judge_by_other(alloc, script, said) {
        Some(fault) if fault.lacks_memory() => Err(RunFault::Memory),
        _ => Ok(()),
    }
}

/// Plays lines by the other rules, each of which ends with a line feed.
fn play_all(alloc: Global, script: &mut HostScript, lines: &[u8]) -> Result<(), RunFault> {
    let mut rest = lines;
    for _ in 0..lines.len() {
        let Some(end) = first_place(rest, b'\n') else {
            return Ok(());
        };
        match play_line(alloc, script, &parse(&rest[..end])) {
            Ok(()) => rest = &rest[end..],
            Err(why) => return Err(why),
        }
        rest = rest.get(1..).unwrap_or(&[]);
    }
    Ok(())
}

impl TwinScript {
    /// Before the first line of a script that goes by these rules until a line chooses others.
    pub fn new(alloc: Global, rules: Rules, twin: Twin, waits: bool) -> TwinScript {
        let rules = other_rules(rules);
        let is_there = has_twin(other_rules(rules), twin);
        let script = if is_there && !waits {
            Some(HostScript::by(rules))
        } else {
            None
        };
        let behind = if is_there && waits {
            Some(Vec::new(alloc))
        } else {
            None
        };
        TwinScript {
            alloc,
            rules,
            script,
            behind,
        }
    }

    /// The twin, if it is requested and doesn't wait.
    pub fn script(&self) -> Option<&HostScript> {
        self.script.as_ref()
    }

    /// There is no twin from here on.
    pub fn leave(&mut self)
        ensures { self.new.behind ≡ None }
    {
        drop(self.script.take());
        drop(self.behind.take());
    }

    /// Plays a line, which comes to `own`, or puts it off: only one that leaves both so that they
    /// differ in the rules alone.
    ///
    /// # Errors
    /// `Memory`: out of memory.
    pub fn follow(
        &mut self,
        own: &HostScript,
        line: &[u8],
        said: &ScriptLine<'_>,
    ) -> Result<(), RunFault>
        ensures { IfSome self.new.behind (λ _. (state : State)
            → SessionStandsFor own.now (Single state) → KeepNodes state.world.history
            → (lack : HostLack) → StayTwins state said.now lack) }
    {
        if self.behind.is_none() {
            return self.play(said);
        }
        if stay_twins(own, said) {
            return self.put_off(line);
        }
        match self.catch_up() {
            Ok(()) => self.play(said),
            Err(why) => Err(why),
        }
    }

    /// Puts off a line, while the twin waits.
    fn put_off(&mut self, line: &[u8]) -> Result<(), RunFault> {
        let Some(behind) = &mut self.behind else {
            return Ok(());
        };
        match put_line(behind, line) {
            Ok(()) => Ok(()),
            Err(_) => Err(RunFault::Memory),
        }
    }

    /// Plays a line, if there is a twin that doesn't wait.
    fn play(&mut self, said: &ScriptLine<'_>) -> Result<(), RunFault>
        ensures { self.new.behind ≡ self.old.behind }
    {
        let Some(script) = &mut self.script else {
            return Ok(());
        };
        play_line(self.alloc, script, said)
    }

    /// Plays the lines that were put off.
    fn catch_up(&mut self) -> Result<(), RunFault>
        ensures { self.new.behind ≡ None }
    {
        let Some(behind) = self.behind.take() else {
            return Ok(());
        };
        let mut script = HostScript::by(self.rules);
        let played = play_all(self.alloc, &mut script, behind.as_slice());
        drop(behind);
        drop(self.script.replace(script));
        played
    }
}
