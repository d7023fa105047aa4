//! The program. `numaplan run` answers scripts, `numaplan expect` compares the answers in scripts
//! with the actual ones, `numaplan check` reports what is wrong with scripts. `numaplan predict`
//! and `numaplan diff` report where pages would go after scripts, `numaplan explain` why, and
//! `numaplan moves` what becomes of pages that are there. `numaplan replay` replays a trace of
//! accesses. `numaplan shell` answers lines as they are typed. `numaplan storm` lets workers place
//! pages while policies change.
#![tactic(auto)]

ghost use Rattle.std.specs.Prelude.{IfOk};
ghost use Rattle.numa_command_line.specs.Jobs.{CanBeDone};

mod words;

use numa_answers::Comparison;
use numa_beside::Paint;
use numa_command_line::{Job, JobFault, ScriptJob, job, open_all, open_with_typed, open_worked};
use numa_commands::{check, expect, run, terminal};
use numa_console::{Asking, Question, tell_fault};
use numa_play::Scripts;
use numa_sheets::Format;
use std::env::Env;
use std::io::{IsTerminal, Read};
use std::process::ExitCode;
use std::rt::{Clock, Files};
use std::sync::Wait;
use std::thread::Threads;
use std::{env, io};
use words::replay::TraceAsked;
use words::{asked, replay, storm};

/// The message for an argument that isn't UTF-8.
const NOT_UTF_8: &str = "error: an argument isn't UTF-8\n\nFor more information, try '--help'.\n";

/// The message for standard input, which can't be written anew.
const NO_FILE: &str = "error: '--update' writes files, and '-' is none\n";

/// The words of the command line, the program's name first. `Usage` if one of them isn't UTF-8.
fn command_words<R: Env + AllocGlobal>(rt: &R) -> Result<Vec<String>, JobFault> {
    match env::args(rt) {
        Ok(words) => match words.collect(rt.alloc()) {
            Ok(words) => Ok(words),
            Err(_) => Err(JobFault::NoMemory),
        },
        Err(error) if error.kind() == io::ErrorKind::OutOfMemory => Err(JobFault::NoMemory),
        Err(_) => Err(JobFault::usage(rt.alloc(), NOT_UTF_8)),
    }
}

/// The job of the command line.
fn asked_job<R: Env + AllocGlobal>(rt: &R) -> Result<Job, JobFault>
    ensures { IfOk result CanBeDone }
{
    let words = command_words(rt)?;
    job(rt.alloc(), words.as_slice())
}

/// Which of the standard streams are terminals, and how that of the output shows bars.
#[derive(Clone, Copy)]
struct Terminals {
    output: bool,
    error: bool,
    paint: Option<Paint>,
}

/// The value of a variable of the environment; empty if there is none.
fn variable<R: Env + AllocGlobal>(rt: &R, name: &str) -> String {
    env::var(rt, name).unwrap_or(String::new(rt.alloc()))
}

/// Whether a variable of the environment is set, and not empty.
fn has_variable<R: Env + AllocGlobal>(rt: &R, name: &str) -> bool {
    !variable(rt, name).is_empty()
}

/// Whether a variable of the environment has this value.
fn is_variable<R: Env + AllocGlobal>(rt: &R, name: &str, value: &str) -> bool {
    variable(rt, name).as_str() == value
}

/// How a terminal shows bars: in no colours if it has none, or `NO_COLOR` is set.
fn paint_of<R: Env + AllocGlobal>(rt: &R) -> Paint {
    if has_variable(rt, "NO_COLOR")
        || !has_variable(rt, "TERM")
        || is_variable(rt, "TERM", "dumb")
    {
        return Paint::Plain;
    }
    if is_variable(rt, "COLORTERM", "truecolor") || is_variable(rt, "COLORTERM", "24bit") {
        return Paint::True;
    }
    Paint::Near
}

/// Works with scripts, or answers a typed one with a prompt. If standard error is a terminal, it
/// shows how far reading is.
fn work_done<R, S>(
    rt: &R,
    scripts: Scripts<S>,
    work: &ScriptJob,
    has_prompt: bool,
    terminals: Terminals,
) -> Result<ExitCode, JobFault>
where
    R: Clock + Files + Input + Print + Eprint + AllocGlobal,
    R::Reader: IsTerminal,
    S: Read + Drop,
{
    if has_prompt {
        return Ok(terminal::answer(rt, scripts, false));
    }
    let (tells, paint) = (terminals.error, terminals.paint);
    match work {
        ScriptJob::Run { echo, format } => Ok(run::answer(rt, scripts, *echo, *format)),
        ScriptJob::Check { format } => Ok(check::check(rt, scripts, *format)),
        ScriptJob::Expect {
            format,
            any_version,
            update,
        } => {
            let how = Comparison {
                format: *format,
                any_version: *any_version,
                update: *update,
            };
            Ok(expect::check(rt, scripts, how))
        }
        ScriptJob::Ask {
            asked,
            question,
            lenient,
            names,
        } => {
            let asking = Asking::of_pages(*asked, question, *lenient, *names, paint, tells);
            asked::answer(rt, scripts, asking)
        }
        ScriptJob::Moves {
            at,
            lines,
            asked,
            free,
            format,
            lenient,
            names,
        } => {
            let asking = Asking {
                at: at.as_slice(),
                touch: *asked,
                question: Question::Moves(lines.as_slice(), free.as_slice()),
                format: *format,
                lenient: *lenient,
                names: *names,
                paint,
                tells,
            };
            asked::answer(rt, scripts, asking)
        }
        ScriptJob::Replay {
            trace,
            free,
            format,
            mean,
            ranges,
            lenient,
        } => {
            let asked = TraceAsked {
                files: trace.as_slice(),
                free: free.as_slice(),
                format: *format,
                has_mean: *mean,
                by_range: *ranges,
                lenient: *lenient,
                tells,
            };
            replay::answer(rt, scripts, asked)
        }
        ScriptJob::Shell => Ok(terminal::answer(rt, scripts, true)),
    }
}

/// Whether the job is to answer a script that is typed.
fn is_typed<R: Input>(rt: &R, names: &[String], work: &ScriptJob) -> bool
where
    R::Reader: IsTerminal,
{
    match (work, names) {
        (
            ScriptJob::Run {
                echo: false,
                format: Format::Text,
            },
            [],
        ) => rt.reader().is_terminal(),
        _ => false,
    }
}

/// Whether standard input is named.
fn has_standard_input(names: &[String]) -> bool {
    names.iter().any(|name| name.as_str() == "-")
}

/// Does a job. If standard output is a terminal, a typed script gets a prompt.
fn done<R>(rt: &R, job: &Job, terminals: Terminals) -> Result<ExitCode, JobFault>
where
    R: Threads + Wait + Sync + Clock + Files + Input + Print + Eprint + AllocGlobal,
    R::Reader: IsTerminal,
    requires { CanBeDone job.now }
{
    let (files, rules, process, work) = match job {
        Job::Scripts {
            files,
            rules,
            process,
            work,
        } => (files, *rules, *process, work),
        Job::Storm(workers) => return Ok(storm::show(rt, *workers)),
    };
    let has_prompt = terminals.output && is_typed(rt, files, work);
    let texts = match work {
        ScriptJob::Expect { update: true, .. } if has_standard_input(files) => {
            return Err(JobFault::usage(rt.alloc(), NO_FILE));
        }
        ScriptJob::Expect { .. } => open_worked(rt, files),
        ScriptJob::Shell => open_with_typed(rt, files),
        _ => open_all(rt, files),
    };
    match texts {
        Ok(texts) => {
            let scripts = Scripts {
                texts,
                rules,
                process,
            };
            work_done(rt, scripts, work, has_prompt, terminals)
        }
        Err(fault) => Err(fault),
    }
}

fn main(rt: HostRuntime) -> ExitCode {
    let job = match asked_job(&rt) {
        Ok(job) => job,
        Err(fault) => return tell_fault(&rt, fault),
    };
    let output = rt.stdout().is_terminal();
    let terminals = Terminals {
        output,
        error: rt.stderr().is_terminal(),
        paint: if output { Some(paint_of(&rt)) } else { None },
    };
    let ended = done(&rt, &job, terminals);
    drop(job);
    match ended {
        Ok(code) => code,
        Err(fault) => tell_fault(&rt, fault),
    }
}
