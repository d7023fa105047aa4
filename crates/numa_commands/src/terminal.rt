//! Scripts that are typed at a terminal.
use crate::shell::{AskedProcess, SHELL_LINES, ShellQuestion, answer_to, asked_of};
use numa_console::{Answering, StandardError, fail};
use numa_diagnose::{LineAt, say_line};
use numa_host_script::HostScript;
use numa_lines::{Lines, Respond, RunFault, TakeLine, read_all};
use numa_play::{HugeCount, Scripts, judge, remark_on};
use numa_script::line::parse;
use std::alloc::Global;
use std::io;
use std::io::{Read, Write};
use std::process::ExitCode;

/// The prompt before each line.
const PROMPT: &str = "numaplan> ";

/// The help on lines.
const LINES: &str = "\
limits R T C                   at most R ranges, T tasks, C commands; before machine
rules RULES                    document or linux: whose rules count; before machine
cpus LIST                      the nodes with CPUs, as in cpus 0-1; before machine
machine NODES MEM FRAMES DIST  the machine, once, as in machine 2 0-1 8 flat
map START LENGTH OFFSET        maps pages, as in map 0x10000 0x4000 0x10
unmap START LENGTH             unmaps pages
mbind START LENGTH POLICY      gives pages a policy, as in mbind 0x10000 0x1000 bind:1
home START LENGTH NODE         gives the policies of pages a home node
task TASK POLICY               gives a task a policy, as in task 1 interleave:0-1
inherit TASK FROM              gives a task the policy that another has
weight NODE WEIGHT             a node's turns in weighted interleaving, 1 to 255
mems LIST                      the nodes that are allowed, as in mems 0-1
place TASK ADDR CPU            asks on which nodes memory for a page is looked for
span TASK ADDR PAGES CPU       asks to which node each page would go first
counts TASK ADDR PAGES CPU     asks how many pages would go to which node
ranges                         asks how many ranges there are
maps TASK                      lists the ranges, with their policies and placed pages
publish                        shows the workers all commands so far
touch W TASK ADDR CPU          worker W, 0 to 3, finds a frame for a page
release W ADDR                 gives that frame back
begin W TASK ADDR CPU          a worker begins to look for a frame; its single steps are
look W WORD                      a look at 64 frames of its current node,
try W NODE FRAME                 one try at a frame, and
give W NODE FRAME                to give a frame back
at START LENGTH NODE           says that mapped pages lie on a node
populate START LENGTH TASK CPU  a task writes to mapped pages that lie nowhere yet
room NODE PAGES                so many more pages without a frame find room on a node
room                           asks how many do, on each node with a limit
memory-migrate on or off       whether such pages follow the allowed nodes
migrate FROM TO                such pages leave the nodes of a list for those of another
move ADDR NODE                 one of them goes to a node
moved                          asks what the last move did
mbind .. strict                refused where a page of the span lies on another node
mbind .. move TASK CPU         moves such pages to where TASK would have them
map .. huge TASK               maps pages of 2 MiB, and reserves them; noreserve behind: not
pool                           asks how many pages of 2 MiB the pools of nodes have
pool COUNT                     so many in all, or
pool NODE COUNT                  on a node, or
pool COUNT TASK CPU              on the nodes of the policy of TASK
fault TASK ADDR CPU            a task writes to a page of either size
host                           from here on a host's lines: see man numaplan-script
";

/// The help on the words of lines.
const WORDS: &str = "\
A POLICY is default, local, or a mode and nodes: bind:0-1 prefer:1 many:0,2 interleave:0-3
weighted:0-1; =static or =relative may follow the mode, as in bind=static:0-1. Numbers are decimal,
or 0x and hexadecimal; START, LENGTH and ADDR count bytes, OFFSET and PAGES pages of 4096 bytes. CPU
is the node of a CPU. One space separates words. A line that begins with # is a comment.
";

/// A typed script.
#[derive(Drop)]
struct Typed<W, T> {
    alloc: Global,
    // Whether questions of a shell are answered, and whether the shell was ended.
    is_shell: bool,
    has_quit: bool,
    // The process of a host that questions of a shell ask, if they name none.
    process: Option<u32>,
    answering: Answering,
    // The same script, for finding what is wrong with a line.
    judged: HostScript,
    // The texts for standard output and standard error.
    text: Vec<u8>,
    output: W,
    told: T,
}

/// Writes some bytes.
fn put<W: Write>(output: &mut W, bytes: &[u8]) -> Result<(), RunFault> {
    match output.write_all(bytes) {
        Ok(()) => Ok(()),
        Err(_) => Err(RunFault::Write),
    }
}

/// Appends what is wrong with a line, if anything.
fn find(
    alloc: Global,
    script: &mut HostScript,
    name: &str,
    place: u64,
    line: &[u8],
    text: &mut Vec<u8>,
) -> Result<(), RunFault> {
    let Some(finding) = judge(alloc, script, line, &parse(line)) else {
        return Ok(());
    };
    match say_line(text, LineAt { name, place }, &finding) {
        Ok(()) => Ok(()),
        Err(_) => Err(RunFault::Memory),
    }
}

impl<W: Write, T: Write> Typed<W, T> {
    /// Writes what is wrong with a line.
    fn tell(&mut self, name: &str, place: u64, line: &[u8]) -> Result<(), RunFault> {
        self.text.clear();
        let script = &mut self.judged;
        find(self.alloc, script, name, place, line, &mut self.text)?;
        put(&mut self.told, self.text.as_slice())
    }

    /// Writes the answer to a line, and what is wrong with it.
    fn answer(&mut self, name: &str, place: u64, line: &[u8]) -> Result<(), RunFault> {
        self.text.clear();
        if let Err(_) = self.answering.respond(line, &mut self.text) {
            return Err(RunFault::Memory);
        }
        put(&mut self.output, self.text.as_slice())?;
        self.tell(name, place, line)
    }

    /// Plays a line of a file, and writes what is wrong with it.
    fn play(&mut self, name: &str, place: u64, line: &[u8]) -> Result<(), RunFault> {
        self.text.clear();
        if let Err(_) = self.answering.respond(line, &mut self.text) {
            return Err(RunFault::Memory);
        }
        self.tell(name, place, line)
    }

    /// What a prediction doesn't say of pages of 2 MiB, which an explanation tells.
    fn remark(&self, asked: AskedProcess) -> &'static str {
        match asked.question {
            ShellQuestion::Predict(_) => remark_on(&self.judged, HugeCount::Rows).unwrap_or(""),
            _ => "",
        }
    }

    /// Answers a question of a shell, and returns whether the line is one. What the answer doesn't
    /// say of pages of 2 MiB is remarked.
    fn ask(&mut self, line: &[u8]) -> Result<bool, RunFault> {
        let Ok(asked) = asked_of(self.alloc, line, self.process) else {
            return Err(RunFault::Memory);
        };
        let Some(asked) = asked else {
            return Ok(false);
        };
        match answer_to(self.alloc, &self.judged, asked) {
            Ok(text) => {
                put(&mut self.output, text.as_slice())?;
                let remark = self.remark(asked);
                put(&mut self.told, remark.as_bytes())?;
            }
            Err(Some(message)) => {
                put(&mut self.told, message.as_bytes())?;
                put(&mut self.told, b"\n")?;
            }
            Err(None) => return Err(RunFault::Memory),
        }
        Ok(true)
    }

    /// Writes the help.
    fn help(&mut self) -> Result<(), RunFault> {
        put(&mut self.output, LINES.as_bytes())?;
        if self.is_shell {
            put(&mut self.output, SHELL_LINES.as_bytes())?;
        }
        put(&mut self.output, WORDS.as_bytes())
    }

    /// Answers a line that was typed.
    fn take_typed(&mut self, name: &str, place: u64, line: &[u8]) -> Result<(), RunFault> {
        if line == b"help".as_slice() {
            return self.help();
        }
        if self.is_shell && self.ask(line)? {
            return Ok(());
        }
        self.answer(name, place, line)
    }
}

impl<W: Write, T: Write> TakeLine<()> for Typed<W, T> {
    fn take(&mut self, name: &str, place: u64, line: &[u8], _: &mut ()) -> Result<(), RunFault> {
        if self.is_shell && name != "-" {
            return self.play(name, place, line);
        }
        if self.is_shell && line == b"quit".as_slice() {
            self.has_quit = true;
            return Err(RunFault::Read);
        }
        self.take_typed(name, place, line)?;
        put(&mut self.output, PROMPT.as_bytes())
    }

    fn hand_over(&mut self, _output: &mut ()) -> Result<(), RunFault> {
        Ok(())
    }
}

/// Answers a typed script, with a prompt before each line.
fn answer_all<R, S>(rt: &R, scripts: Scripts<S>, is_shell: bool) -> Result<(), RunFault>
where
    R: Print + Eprint + AllocGlobal,
    S: Read + Drop,
{
    let mut output = io::writer(rt);
    put(&mut output, PROMPT.as_bytes())?;
    let Scripts {
        texts,
        rules,
        process,
    } = scripts;
    let alloc = rt.alloc();
    let typed = Typed {
        alloc,
        is_shell,
        has_quit: false,
        process,
        answering: Answering::new(alloc, rules),
        judged: HostScript::by(rules),
        text: Vec::new(alloc),
        output,
        told: StandardError { rt },
    };
    let Ok(mut lines) = Lines::new(alloc, typed) else {
        drop(texts);
        return Err(RunFault::Memory);
    };
    let read = read_all(texts, &mut lines, &mut ());
    let has_quit = lines.taker.has_quit;
    drop(lines);
    if has_quit { Ok(()) } else { read }
}

/// Answers a script that is typed at a terminal, with a prompt before each line, and reports what
/// is wrong with a line on standard error, as `check` does. A line `help` shows help. In a shell
/// questions about pages are answered too, lines of files aren't, and a line `quit` ends it.
pub fn answer<R, S>(rt: &R, scripts: Scripts<S>, is_shell: bool) -> ExitCode
where
    R: Print + Eprint + AllocGlobal,
    S: Read + Drop,
{
    match answer_all(rt, scripts, is_shell) {
        Ok(()) => {
            let _ = println!(rt; "");
            ExitCode::SUCCESS
        }
        Err(why) => fail(rt, why),
    }
}
