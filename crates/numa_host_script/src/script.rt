//! Running scripts that may become a host's.
ghost use Rattle.std.specs.Prelude.{◌≡◌, ◌↔◌, ℕ, IsTrue, MatchOption, None, Ok, Some, false};
ghost use Rattle.numa_lines.specs.Written.{Said};
ghost use Rattle.numa_page_state.specs.Outcomes.{Lack};
ghost use Rattle.numa_host_script.specs.Hosts.{HostLack, plenty};
ghost use Rattle.numa_host_script.specs.Judged.{Starves, session_fault};
ghost use Rattle.numa_host_script.specs.Sessions.{Session, begun, is_begin, session_answer};
ghost use Rattle.numa_host_script.specs.Sessions.{session_by};
ghost use Rattle.numa_host_script.specs.Standing.{AreHostPages, ArePagesOf, IsAlone, IsBare};
ghost use Rattle.numa_host_script.specs.Standing.{IsHost, IsHostIn};
ghost use Rattle.numa_host_script.specs.Standing.{IsScriptIn, told};
ghost use Rattle.numa_host_script.specs.Taking.{SessionJudges, SessionServes, SessionStandsFor};
ghost use Rattle.numa_host_script.specs.Taking.{SessionTakes, SessionTells, SessionWrites};
ghost use Rattle.numa_run.specs.Replies.{reply_in};
ghost use Rattle.numa_script.specs.declared.line.Line.{Line};
ghost use Rattle.numa_script.specs.declared.page_line.PageLine.{PageLine};

use crate::asking::{ask, list, question_cause};
use crate::lines::{fresh_machine, is_begin, limits_after, misplaced, plain_question, shown_by};
use crate::running::{RunningHost, on_heap};
use crate::taking::{HostTaken, take};
use crate::telling::{say_arrived_in, say_last_in, say_shown_in};
use numa_host::Host;
use numa_host_pages::HostPages;
use numa_lines::{Serve, Watched};
use numa_machine::Rules;
use numa_page_state::PageState;
use numa_requests::{HostRefusal, Limits};
use numa_run::{Script, Taken};
use numa_script::line::{malformed, parse_over};
use numa_script::tell::say_reply;
use numa_script::{Question, Reply, ScriptLine};
use std::alloc::Global;
use std::io::Write;

/// A running script: of one process, or of a host once a line `host` is accepted.
pub struct HostScript {
    script: Script,
    // The limits of the script's machine, or of the one to come.
    limits: Limits,
    // On the heap, since a script is handed on by value.
    host: Option<Box<RunningHost>>,
}

// (By hand, so that it is proved here alone: what is derived is proved in each crate that drops.)
impl Drop for HostScript {
    fn drop(self) {
        let HostScript {
            script,
            limits: _,
            host,
        } = self;
        drop(script);
        drop(host);
    }
}

impl HostScript {
    /// The state before the first line; these rules apply unless a line says otherwise. It doesn't
    /// allocate.
    pub fn by(rules: Rules) -> HostScript
        ensures { SessionStandsFor result (session_by rules) }
    {
        HostScript {
            script: Script::by(rules),
            limits: Limits::new(65_536, 1_024, u32::MAX).unwrap(),
            host: None,
        }
    }

    /// Carries out a line `host`.
    #[cold]
    #[inline(never)]
    fn begin(&mut self, alloc: Global) -> Reply
        ensures { (session : Session) → SessionStandsFor self.old session → (lack : HostLack)
            × SessionStandsFor self.new (begun lack.lacked session).session
            × (Some result ≡ reply_in (begun lack.lacked session).answer) }
    {
        if let Some(_) = &self.host {
            return Reply::BadState;
        }
        let Some(machine) = fresh_machine(&self.script) else {
            return Reply::BadState;
        };
        let Ok(copy) = machine.copy(alloc) else {
            return Reply::HostRefused(HostRefusal::NoMemory);
        };
        let Ok(pages) = HostPages::new(alloc, machine) else {
            drop(copy);
            return Reply::HostRefused(HostRefusal::NoMemory);
        };
        let host = Host::new(alloc, copy, self.limits);
        let Ok(running) = on_heap(alloc, host, pages) else {
            return Reply::HostRefused(HostRefusal::NoMemory);
        };
        drop(self.host.replace(running));
        Reply::HostReady
    }

    /// Carries out a line. Its answer is still to be written ([`HostScript::write`]) or judged
    /// ([`HostScript::fault`]).
    #[inline(always)]
    pub fn take(&mut self, alloc: Global, said: &ScriptLine<'_>) -> HostTaken
        ensures { SessionTakes self.old said.now result self.new }
    {
        if is_begin(said) {
            return HostTaken::Reply(self.begin(alloc));
        }
        if let Some(running) = &mut self.host {
            return take(running, alloc, said);
        }
        if let Some(_) = said.process {
            return HostTaken::Reply(Reply::BadWords);
        }
        self.limits = limits_after(&self.script, self.limits, &said.line);
        HostTaken::Own(self.script.take(alloc, &said.line))
    }

    /// Whether a line may be another than one of one process: it is `host` or names a process, or
    /// there is a host.
    #[inline(always)]
    fn is_wider(&self, said: &ScriptLine<'_>) -> bool
        ensures { result ≡ false → (is_begin said.now ≡ false) × (said.now.process ≡ None)
            × (self.now.host ≡ None) }
    {
        if is_begin(said) {
            return true;
        }
        if let Some(_) = said.process {
            return true;
        }
        if let Some(_) = &self.host {
            return true;
        }
        false
    }

    /// Writes the answer of a line that was taken. Returns whether memory ran out; then the answer
    /// says so.
    #[inline(always)]
    pub fn write<W: Write>(
        &mut self,
        alloc: Global,
        taken: HostTaken,
        output: &mut Watched<W>,
    ) -> bool
        ensures { SessionWrites W.contents self.old output.old taken result self.new output.new }
    {
        match taken {
            HostTaken::Own(taken) => self.write_own(alloc, taken, output),
            HostTaken::Reply(reply) => {
                say_reply(output, &reply);
                reply.lacks_memory()
            }
            HostTaken::Asked { process, question } => {
                self.answer(alloc, process, question, output)
            }
            HostTaken::Listed { process, task } => {
                self.list(alloc, process, task, output);
                false
            }
            HostTaken::Moved(process) => {
                self.tell_last(process, output);
                false
            }
            HostTaken::MovedAll => self.write_own(alloc, Taken::Moved, output),
            HostTaken::Rooms => self.write_own(alloc, Taken::Rooms, output),
            HostTaken::Pools => self.write_own(alloc, Taken::Pools, output),
            HostTaken::Arrived(process) => self.tell_arrived(alloc, process, output),
        }
    }

    /// Writes the answer of a line of one process.
    #[inline(always)]
    fn write_own<W: Write>(&mut self, alloc: Global, taken: Taken, output: &mut Watched<W>) -> bool
        ensures { SessionWrites W.contents self.old output.old (HostTaken.Own taken) result
            self.new output.new }
    {
        if let Some(running) = &self.host {
            let shows = shown_by(&taken);
            let Some(reply) = misplaced(taken) else {
                say_shown_in(running, shows, output);
                return false;
            };
            say_reply(output, &reply);
            return reply.lacks_memory();
        }
        self.script.write(alloc, taken, output)
    }

    /// Answers a question of a process.
    #[inline(never)]
    fn answer<W: Write>(
        &self,
        alloc: Global,
        process: u32,
        question: Question,
        output: &mut Watched<W>,
    ) -> bool
        ensures { (session : Session) → SessionStandsFor self.now session → (lack : HostLack)
            × Said W.contents output.old output.new
            (session_answer lack session (told process (Line.Question question)))
            × (IsTrue result ↔ (Starves lack session (told process (Line.Question question)))) }
    {
        let Some(running) = &self.host else {
            say_reply(output, &Reply::BadWords);
            return false;
        };
        let Some(space) = running.host.process(process) else {
            say_reply(output, &Reply::HostRefused(HostRefusal::NoSuchProcess));
            return false;
        };
        ask(alloc, space, question, output)
    }

    /// Lists the ranges of a process.
    #[inline(never)]
    fn list<W: Write>(&self, alloc: Global, process: u32, task: u32, output: &mut Watched<W>)
        ensures { (session : Session) → SessionStandsFor self.now session
            → Said W.contents output.old output.new
            (session_answer plenty session (told process (Line.Maps task))) }
    {
        let Some(running) = &self.host else {
            say_reply(output, &Reply::BadWords);
            return;
        };
        let Some(space) = running.host.process(process) else {
            say_reply(output, &Reply::HostRefused(HostRefusal::NoSuchProcess));
            return;
        };
        let pages = running.pages.pages_of(process);
        list(
            alloc,
            space,
            task,
            pages,
            running.pages.huge.pages_of(process),
            output,
        );
    }

    /// Writes what the last move of a process did.
    #[inline(never)]
    fn tell_last<W: Write>(&self, process: u32, output: &mut Watched<W>)
        ensures { (session : Session) → SessionStandsFor self.now session
            → Said W.contents output.old output.new
            (session_answer plenty session (told process (Line.Pages (Ok PageLine.Moved)))) }
    {
        let Some(running) = &self.host else {
            say_reply(output, &Reply::BadWords);
            return;
        };
        let Some(_) = running.host.process(process) else {
            say_reply(output, &Reply::HostRefused(HostRefusal::NoSuchProcess));
            return;
        };
        say_last_in(running, process, output);
    }

    /// Writes what the last first touches of a process did.
    #[inline(never)]
    fn tell_arrived<W: Write>(
        &mut self,
        alloc: Global,
        process: u32,
        output: &mut Watched<W>,
    ) -> bool
        ensures { SessionWrites W.contents self.old output.old (HostTaken.Arrived process) result
            self.new output.new }
    {
        if let Some(running) = &self.host {
            say_arrived_in(running, process, output);
            return false;
        }
        self.script.write(alloc, Taken::Arrived, output)
    }

    /// The error or the refusal of a line that was taken; `None` if its answer is neither. A
    /// question is judged and not answered.
    pub fn fault(&mut self, alloc: Global, taken: HostTaken) -> Option<Reply>
        ensures { SessionTells self.old taken result self.new }
    {
        match taken {
            HostTaken::Own(taken) => self.own_fault(taken),
            HostTaken::Reply(reply) => reply.fault(),
            HostTaken::Asked { process, question } => self.asked_fault(alloc, process, question),
            HostTaken::Listed { process, task: _ } => self.listed_fault(process),
            HostTaken::Moved(process) => self.listed_fault(process),
            HostTaken::MovedAll => self.own_fault(Taken::Moved),
            HostTaken::Rooms => self.own_fault(Taken::Rooms),
            HostTaken::Pools => self.own_fault(Taken::Pools),
            HostTaken::Arrived(_) => self.arrived_fault(),
        }
    }

    /// The error or the refusal of a line of one process.
    fn own_fault(&mut self, taken: Taken) -> Option<Reply>
        ensures { SessionTells self.old (HostTaken.Own taken) result self.new }
    {
        if let Some(_) = &self.host {
            let Some(reply) = misplaced(taken) else {
                return None;
            };
            return reply.fault();
        }
        self.script.fault(taken)
    }

    /// The error or the refusal of a line that touched pages of a process: none in a host.
    fn arrived_fault(&mut self) -> Option<Reply>
        ensures { (process : ℕ) → SessionTells self.old (HostTaken.Arrived process) result
            self.new }
    {
        if let Some(_) = &self.host {
            return None;
        }
        self.script.fault(Taken::Arrived)
    }

    /// The error or the refusal of a question of a process.
    fn asked_fault(&self, alloc: Global, process: u32, question: Question) -> Option<Reply>
        ensures { (session : Session) → SessionStandsFor self.now session → (lack : HostLack)
            × (result ≡ session_fault lack session (told process (Line.Question question))) }
    {
        let Some(running) = &self.host else {
            return Some(Reply::BadWords);
        };
        let Some(space) = running.host.process(process) else {
            return Some(Reply::HostRefused(HostRefusal::NoSuchProcess));
        };
        match question_cause(alloc, space, question) {
            None => None,
            Some(cause) => Some(Reply::Refused(cause)),
        }
    }

    /// The error or the refusal of a listing of a process, or of what its last move did.
    fn listed_fault(&self, process: u32) -> Option<Reply>
        ensures listed { (session : Session) (task : ℕ) → SessionStandsFor self.now session
            → result ≡ session_fault plenty session (told process (Line.Maps task)) }
        ensures moved { (session : Session) → SessionStandsFor self.now session → result
            ≡ session_fault plenty session (told process (Line.Pages (Ok PageLine.Moved))) }
    {
        let Some(running) = &self.host else {
            return Some(Reply::BadWords);
        };
        match running.host.process(process) {
            None => Some(Reply::HostRefused(HostRefusal::NoSuchProcess)),
            Some(_) => None,
        }
    }

    /// Carries out a line, and writes its answer. Returns whether memory ran out; then the answer
    /// says so. A question changes nothing, and is answered at once.
    #[inline(always)]
    pub fn serve_line<W: Write>(
        &mut self,
        alloc: Global,
        said: &ScriptLine<'_>,
        output: &mut Watched<W>,
    ) -> bool
        ensures { SessionServes W.contents self.old output.old said.now result self.new
            output.new }
    {
        if let Some(question) = plain_question(said) {
            return self.write_own(alloc, Taken::Question(question), output);
        }
        if self.is_wider(said) {
            return self.serve_wider(alloc, said, output);
        }
        self.limits = limits_after(&self.script, self.limits, &said.line);
        let taken = self.script.take(alloc, &said.line);
        self.write_own(alloc, taken, output)
    }

    /// Carries out a line that may be a host's, and writes its answer, as `serve_line` does.
    #[inline(never)]
    fn serve_wider<W: Write>(
        &mut self,
        alloc: Global,
        said: &ScriptLine<'_>,
        output: &mut Watched<W>,
    ) -> bool
        ensures { SessionServes W.contents self.old output.old said.now result self.new
            output.new }
    {
        let taken = self.take(alloc, said);
        self.write(alloc, taken, output)
    }

    /// The script, while it is one process's.
    pub fn script(&self) -> Option<&Script>
        ensures { (session : Session) → SessionStandsFor self.now session
            → MatchOption result (IsHost session) (λ script. IsScriptIn script.now session) }
    {
        if let Some(_) = &self.host {
            return None;
        }
        Some(&self.script)
    }

    /// The host, once the script is a host's.
    pub fn host(&self) -> Option<&Host>
        ensures { (session : Session) → SessionStandsFor self.now session
            → MatchOption result (IsAlone session) (λ host. IsHostIn host.now session) }
    {
        let running = self.host.as_deref()?;
        Some(&running.host)
    }

    /// Where the pages of a host's processes lie, once the script is a host's.
    pub fn host_pages(&self) -> Option<&HostPages>
        ensures { (session : Session) → SessionStandsFor self.now session
            → MatchOption result (IsAlone session) (λ pages. AreHostPages pages.now session) }
    {
        let running = self.host.as_deref()?;
        Some(&running.pages)
    }

    /// Where the pages of a process of a host lie, if something is kept of them.
    pub fn pages_of(&self, process: u32) -> Option<&PageState>
        ensures { (session : Session) → SessionStandsFor self.now session → MatchOption result
            (IsBare process session) (λ kept. ArePagesOf kept.now process session) }
    {
        let Some(running) = &self.host else {
            return None;
        };
        running.pages.pages_of(process)
    }

    /// Carries out a line, as `serve_line`, and returns what is wrong with it: `Some` exactly if
    /// its answer is an error or a refusal, and then that one. A question is judged and not
    /// answered.
    pub fn judge(&mut self, alloc: Global, said: &ScriptLine<'_>) -> Option<Reply>
        ensures { SessionJudges self.old said.now result self.new }
    {
        let taken = self.take(alloc, said);
        self.fault(alloc, taken)
    }
}

impl Serve for HostScript {
    ghost use Rattle.numa_host_script.specs.Hosts.{HostLack, plenty};
    ghost use Rattle.numa_host_script.specs.Sessions.{Session, session_after_bytes};
    ghost use Rattle.numa_host_script.specs.Sessions.{session_answer_to};
    ghost use Rattle.numa_host_script.specs.Taking.{SessionStandsFor};

    ghost State = { Session };

    ghost Lack = { HostLack };

    ghost plenty = { plenty };

    ghost stands_for = { SessionStandsFor };

    ghost answer_of = { session_answer_to };

    ghost after = { session_after_bytes };

    fn serve<W: Write>(&mut self, alloc: Global, line: &[u8], output: &mut Watched<W>) {
        let mut said = malformed();
        parse_over(line, &mut said);
        let _ = self.serve_line(alloc, &said, output);
    }
}
