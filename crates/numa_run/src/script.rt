//! Running scripts.
ghost use Rattle.std.specs.Prelude.{◌≡◌, ◌⊎◌, ℕ, Option, None, Some, Ok, MatchOption, false};
ghost use Rattle.std.specs.Prelude.{is_some};
ghost use Rattle.numa_huge.specs.Tallies.{StandsForHuge};
ghost use Rattle.numa_machine.specs.Machine.{Hardware};
ghost use Rattle.numa_page_state.specs.Lying.{nothing};
ghost use Rattle.numa_page_state.specs.Standing.{LiesAs};
ghost use Rattle.numa_run.specs.Answers.{State, own_line, start, start_by};
ghost use Rattle.numa_run.specs.Scripts.{IsCoreIn, IsResidentIn, ScriptJudges, ScriptReplies};
ghost use Rattle.numa_run.specs.Scripts.{ScriptStandsFor, ScriptTakes, ScriptTells, ScriptWrites};
ghost use Rattle.numa_run.specs.Standing.{Replies};

use crate::build::build;
use crate::running::{Running, Taken};
use crate::settings::Settings;
use numa_core::Core;
use numa_huge::HugePages;
use numa_lines::{Serve, Watched};
use numa_machine::{MachineFault, Rules};
use numa_maps::Resident;
use numa_mask::{ListFault, NodeMask};
use numa_page_state::PageState;
use numa_requests::Limits;
use numa_script::line::parse;
use numa_script::tell::say_reply;
use numa_script::{Line, MachineLine, Question, Reply, ScriptLine, WordError};
use std::alloc::Global;
use std::io::Write;

/// The number of workers of a machine.
const WORKERS: u32 = 4;

/// A running script: the limits, the rules and the nodes with CPUs of the machine to come, and the
/// machine once it is ready, which lies on the heap, since a script is handed on by value.
pub struct Script {
    pub(crate) settings: Settings,
    pub(crate) running: Option<Box<Running>>,
}

// (By hand, so that it is proved here alone: a derived one is proved in each crate that drops.)
impl Drop for Script {
    fn drop(self) {
        let Script {
            settings: _,
            running,
        } = self;
        drop(running);
    }
}

impl Script {
    /// The state before the first line: no machine, the default limits, and the documents' rules.
    /// It doesn't allocate.
    pub fn new() -> Script
        ensures { ScriptStandsFor result start }
    {
        Script::by(Rules::Document)
    }

    /// The same, with these rules unless a line says otherwise. It doesn't allocate.
    pub fn by(rules: Rules) -> Script
        ensures { ScriptStandsFor result (start_by rules) }
    {
        Script {
            settings: Settings {
                limits: Limits::new(65_536, 1_024, u32::MAX).unwrap(),
                rules,
                cpus: None,
            },
            running: None,
        }
    }

    /// The core of the machine, if one is ready.
    pub fn core(&self) -> Option<&Core>
        ensures { (state : State) → ScriptStandsFor self.now state
            → MatchOption result (state.machine ≡ None) (λ core. IsCoreIn core.now state) }
    {
        let running = self.running.as_deref()?;
        Some(&running.core)
    }

    /// The placed pages of the machine, if one is ready.
    pub fn resident(&self) -> Option<&Resident>
        ensures { (state : State) → ScriptStandsFor self.now state
            → MatchOption result (state.machine ≡ None) (λ kept. IsResidentIn kept.now state) }
    {
        let running = self.running.as_deref()?;
        Some(&running.resident)
    }

    /// Where pages without a frame lie, once a line says so of one; before, all lie nowhere, and no
    /// node fills.
    pub fn pages(&self) -> Option<&PageState>
        ensures { (state : State) → ScriptStandsFor self.now state
            → MatchOption result ((state.machine ≡ None) ⊎ (state.lying ≡ nothing))
            (λ pages. LiesAs pages.now state.lying) }
    {
        let running = self.running.as_deref()?;
        running.pages.as_ref()
    }

    /// The pages of 2 MiB with the pools that they come from, once a line is about them.
    pub fn huge(&self) -> Option<&HugePages>
        ensures { (state : State) → ScriptStandsFor self.now state
            → MatchOption result ((state.machine ≡ None) ⊎ StandsForHuge None state.huge)
            (λ kept. StandsForHuge (Some kept.now) state.huge) }
    {
        let running = self.running.as_deref()?;
        running.huge.as_ref()
    }

    /// Whether pages of 2 MiB are kept, as a line said that is about them.
    pub fn keeps_huge(&self) -> bool
        ensures { (state : State) (machine : Hardware) → ScriptStandsFor self.now state
            → state.machine ≡ Some machine → result ≡ is_some state.huge }
    {
        match &self.running {
            Some(running) => running.huge.is_some(),
            None => false,
        }
    }

    /// Carries out a line. Its answer is still to be written ([`Script::write`]) or judged
    /// ([`Script::fault`]).
    #[inline(always)]
    pub fn take(&mut self, alloc: Global, line: &Line<'_>) -> Taken
        ensures { ScriptTakes self.old line.now result self.new }
    {
        if let Some(running) = &mut self.running {
            return running.take(alloc, line);
        }
        Taken::Reply(self.reply_first(alloc, line))
    }

    /// The same for a line that may be told to a process of a host, which this script hasn't.
    #[inline(always)]
    pub fn take_said(&mut self, alloc: Global, said: &ScriptLine<'_>) -> Taken
        ensures { ScriptTakes self.old (own_line said.now) result self.new }
    {
        if let Some(_) = said.process {
            return Taken::Reply(Reply::BadWords);
        }
        self.take(alloc, &said.line)
    }

    /// Writes the answer of a line that was taken. Returns whether memory ran out; then the answer
    /// says so.
    #[inline(always)]
    pub fn write<W: Write>(&mut self, alloc: Global, taken: Taken, output: &mut Watched<W>) -> bool
        ensures { ScriptWrites W.contents self.old output.old taken result self.new output.new }
    {
        match taken {
            Taken::Reply(reply) => {
                say_reply(output, &reply);
                reply.lacks_memory()
            }
            Taken::Question(question) => self.answer(alloc, question, output),
            Taken::Maps(task) => {
                self.list(task, output);
                false
            }
            Taken::Moved => {
                self.tell_last(output);
                false
            }
            Taken::Rooms => {
                self.tell_rooms(output);
                false
            }
            Taken::Arrived => {
                self.tell_arrived(output);
                false
            }
            Taken::Pools => {
                self.tell_pools(output);
                false
            }
        }
    }

    /// Answers a question.
    #[inline(always)]
    fn answer<W: Write>(
        &mut self,
        alloc: Global,
        question: Question,
        output: &mut Watched<W>,
    ) -> bool
        ensures { ScriptWrites W.contents self.old output.old (Taken.Question question) result
            self.new output.new }
    {
        if let Some(running) = &mut self.running {
            return running.answer(alloc, question, output);
        }
        say_reply(output, &Reply::BadState);
        false
    }

    /// Lists the ranges.
    fn list<W: Write>(&self, task: u32, output: &mut Watched<W>)
        ensures { ScriptWrites W.contents self.now output.old (Taken.Maps task) false
            self.now output.new }
    {
        let Some(running) = &self.running else {
            say_reply(output, &Reply::BadState);
            return;
        };
        running.list(task, output);
    }

    /// Writes what the last move did.
    fn tell_last<W: Write>(&self, output: &mut Watched<W>)
        ensures { ScriptWrites W.contents self.now output.old Taken.Moved false
            self.now output.new }
    {
        let Some(running) = &self.running else {
            say_reply(output, &Reply::BadState);
            return;
        };
        running.tell_last(output);
    }

    /// Writes how many more pages nodes take.
    fn tell_rooms<W: Write>(&self, output: &mut Watched<W>)
        ensures { ScriptWrites W.contents self.now output.old Taken.Rooms false
            self.now output.new }
    {
        let Some(running) = &self.running else {
            say_reply(output, &Reply::BadState);
            return;
        };
        running.tell_rooms(output);
    }

    /// Writes what the last first touches did.
    fn tell_arrived<W: Write>(&self, output: &mut Watched<W>)
        ensures { ScriptWrites W.contents self.now output.old Taken.Arrived false
            self.now output.new }
    {
        let Some(running) = &self.running else {
            say_reply(output, &Reply::BadState);
            return;
        };
        running.tell_arrived(output);
    }

    /// Writes what the pools of pages of 2 MiB have.
    fn tell_pools<W: Write>(&self, output: &mut Watched<W>)
        ensures { ScriptWrites W.contents self.now output.old Taken.Pools false
            self.now output.new }
    {
        let Some(running) = &self.running else {
            say_reply(output, &Reply::BadState);
            return;
        };
        running.tell_pools(output);
    }

    /// The error or the refusal of a line that was taken; `None` if its answer is neither. A
    /// question is judged and not answered.
    pub fn fault(&mut self, taken: Taken) -> Option<Reply>
        ensures { ScriptTells self.old taken result self.new }
    {
        match taken {
            Taken::Reply(reply) => reply.fault(),
            Taken::Question(question) => self.question_fault(question),
            Taken::Maps(_) => self.text_fault(),
            Taken::Moved => self.text_fault(),
            Taken::Rooms => self.text_fault(),
            Taken::Arrived => self.text_fault(),
            Taken::Pools => self.text_fault(),
        }
    }

    /// The error or the refusal of a question.
    fn question_fault(&mut self, question: Question) -> Option<Reply>
        ensures { ScriptTells self.old (Taken.Question question) result self.new }
    {
        if let Some(running) = &mut self.running {
            return match running.question_cause(question) {
                Some(cause) => Some(Reply::Refused(cause)),
                None => None,
            };
        }
        Some(Reply::BadState)
    }

    /// The error of a line that is answered by a text that no cause refuses.
    fn text_fault(&self) -> Option<Reply>
        ensures maps { (task : ℕ) → ScriptTells self.now (Taken.Maps task) result self.now }
        ensures moved { ScriptTells self.now Taken.Moved result self.now }
        ensures rooms { ScriptTells self.now Taken.Rooms result self.now }
        ensures arrived { ScriptTells self.now Taken.Arrived result self.now }
        ensures pools { ScriptTells self.now Taken.Pools result self.now }
    {
        match &self.running {
            Some(_) => None,
            None => Some(Reply::BadState),
        }
    }

    /// Carries out a line and returns its reply. A question to a ready machine and lines `maps`,
    /// `moved` and `room` alone have none, and change nothing; nor have a `populate` and a `pool`
    /// that aren't refused. Their answers are texts, which `serve` writes.
    pub fn reply(&mut self, alloc: Global, line: &Line<'_>) -> Option<Reply>
        ensures { ScriptReplies self.old line.now result self.new }
    {
        match self.take(alloc, line) {
            Taken::Reply(reply) => Some(reply),
            Taken::Question(_) => None,
            Taken::Maps(_) => None,
            Taken::Moved => None,
            Taken::Rooms => None,
            Taken::Arrived => None,
            Taken::Pools => None,
        }
    }

    /// Sets the limits, if no machine is ready.
    fn limit(&mut self, ranges: u32, tasks: u32, commands: u32) -> Reply
        requires { self.old.running ≡ None }
        ensures { Replies self.old.settings None (Line.Limits ranges tasks commands)
            (Some result) self.new.settings self.new.running }
    {
        match Limits::new(ranges, tasks, commands) {
            Some(limits) => {
                self.settings.limits = limits;
                Reply::LimitsOk
            }
            None => Reply::BadLimits,
        }
    }

    /// Sets the rules, if no machine is ready.
    fn choose(&mut self, rules: Rules) -> Reply
        requires { self.old.running ≡ None }
        ensures { Replies self.old.settings None (Line.Rules rules)
            (Some result) self.new.settings self.new.running }
    {
        self.settings.rules = rules;
        Reply::RulesOk
    }

    /// Sets the nodes with CPUs, if no machine is ready.
    fn equip(&mut self, said: &Result<NodeMask, ListFault>) -> Reply
        requires { self.old.running ≡ None }
        ensures { Replies self.old.settings None (Line.Cpus said.now)
            (Some result) self.new.settings self.new.running }
    {
        match said {
            Ok(cpus) => {
                self.settings.cpus = Some(*cpus);
                Reply::CpusOk
            }
            Err(fault) => Reply::BadWord(WordError::List(*fault)),
        }
    }

    /// Makes the machine that a line describes, if none is ready.
    fn describe(&mut self, alloc: Global, said: &MachineLine<'_>) -> Reply
        requires { self.old.running ≡ None }
        ensures { Replies self.old.settings None (Line.Machine said.now)
            (Some result) self.new.settings self.new.running }
    {
        let MachineLine { memory, .. } = said;
        let memory = match memory {
            Ok(memory) => *memory,
            Err(fault) => return Reply::BadWord(WordError::List(*fault)),
        };
        let Settings { rules, cpus, .. } = self.settings;
        let machine = match build(alloc, said, memory, rules, cpus) {
            Ok(machine) => machine,
            Err(fault) => return Reply::BadMachine(fault),
        };
        let core = match Core::new(alloc, machine, self.settings.limits, WORKERS) {
            Ok(core) => core,
            Err(_) => return Reply::BadMachine(MachineFault::NoMemory),
        };
        match Running::ready(alloc, core) {
            Ok(running) => {
                drop(self.running.replace(running));
                Reply::Ready
            }
            Err(_) => Reply::BadMachine(MachineFault::NoMemory),
        }
    }

    /// Carries out a line while no machine is ready. It is a separate function, so that later lines
    /// use no stack for it.
    #[cold]
    #[inline(never)]
    pub(crate) fn reply_first(&mut self, alloc: Global, line: &Line<'_>) -> Reply
        requires { self.old.running ≡ None }
        ensures { Replies self.old.settings None line.now
            (Some result) self.new.settings self.new.running }
    {
        match line {
            Line::Silent => Reply::Silent,
            Line::Malformed => Reply::BadWords,
            Line::Limits {
                ranges,
                tasks,
                commands,
            } => self.limit(*ranges, *tasks, *commands),
            Line::Rules(rules) => self.choose(*rules),
            Line::Cpus(said) => self.equip(said),
            Line::Machine(said) => self.describe(alloc, said),
            Line::Command(_) => Reply::BadState,
            Line::EmptyBind { .. } => Reply::BadState,
            Line::Question(_) => Reply::BadState,
            Line::Maps(_) => Reply::BadState,
            Line::Work(_) => Reply::BadState,
            Line::Pages(_) => Reply::BadState,
            Line::Bind { .. } => Reply::BadState,
            Line::Huge(_) => Reply::BadState,
            Line::Host => Reply::BadWords,
            Line::HostCommand(_) => Reply::BadWords,
        }
    }

    /// Carries out a line, as `reply`, and returns its error or refusal; `None` if its answer is
    /// neither. A question is judged and not answered.
    pub fn judge(&mut self, alloc: Global, line: &Line<'_>) -> Option<Reply>
        ensures { ScriptJudges self.old line.now result self.new }
    {
        let taken = self.take(alloc, line);
        self.fault(taken)
    }
}

impl Serve for Script {
    ghost use Rattle.numa_page_state.specs.Outcomes.{Enough, Lack};
    ghost use Rattle.numa_run.specs.Answers.{State, answer_to, after_bytes};
    ghost use Rattle.numa_run.specs.Scripts.{ScriptStandsFor};

    ghost State = { State };

    ghost stands_for = { ScriptStandsFor };

    ghost Lack = { Lack };

    ghost plenty = { Enough };

    ghost answer_of = { answer_to };

    ghost after = { after_bytes };

    fn serve<W: Write>(&mut self, alloc: Global, line: &[u8], output: &mut Watched<W>) {
        let said = parse(line);
        let taken = self.take_said(alloc, &said);
        let _ = self.write(alloc, taken, output);
    }
}
