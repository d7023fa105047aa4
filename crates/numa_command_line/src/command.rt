//! The job that a command line asks for.
ghost use Rattle.std.specs.Prelude.{◌≡◌, IfOk, Some, map, slice_get, true};
ghost use Rattle.std.specs.String.{string_bytes};
ghost use Rattle.clap.specs.Words.{app_of, found_of, is_simple_and_free, rows_of};
ghost use Rattle.clap.specs.Words.{subcommand_rows_of};
ghost use Rattle.numa_command_line.specs.Asked.{Answers, IsJobOf, IsTold, doings_found, job_named};
ghost use Rattle.numa_command_line.specs.Asked.{name_of, scripts_asked, word_named, work_asked};
ghost use Rattle.numa_command_line.specs.Grammar.{StandsIn};
ghost use Rattle.numa_command_line.specs.Jobs.{CanBeDone, IsMade, doings_of, work_of};

use crate::found::{is_on, texts_at};
use crate::jobs::{Job, JobFault, ScriptJob};
use crate::program::{program, program_for};
use crate::words::format::format_in;
use crate::words::{diff, explain, moves, predict, process, replay, report, rules, storm};
use clap::error::ErrorKind;
use clap::{ArgMatches, Command, Error};
use std::alloc::{AllocError, Global};

/// The message without a command.
const NO_COMMAND: &str = "error: a command is missing\n\nFor more information, try '--help'.\n";

/// A subcommand that works with scripts.
#[derive(Clone, Copy)]
pub(crate) enum Subcommand {
    Run,
    Check,
    Expect,
    Predict,
    Diff,
    Moves,
    Explain,
    Report,
    Replay,
    Shell,
}

/// The subcommand with this name.
fn word_of(name: &str) -> Option<Subcommand>
    ensures { result ≡ word_named name.now }
{
    match name {
        "run" => Some(Subcommand::Run),
        "check" => Some(Subcommand::Check),
        "expect" => Some(Subcommand::Expect),
        "predict" => Some(Subcommand::Predict),
        "diff" => Some(Subcommand::Diff),
        "moves" => Some(Subcommand::Moves),
        "explain" => Some(Subcommand::Explain),
        "report" => Some(Subcommand::Report),
        "replay" => Some(Subcommand::Replay),
        "shell" => Some(Subcommand::Shell),
        _ => None,
    }
}

/// The result of an error of the parse.
fn fault(alloc: Global, error: &Error) -> JobFault
    ensures { IsTold error.now result }
{
    if error.kind() == ErrorKind::OutOfMemory {
        return JobFault::NoMemory;
    }
    let is_usage = error.use_stderr();
    match error.to_string(alloc) {
        Err(_) => JobFault::NoMemory,
        Ok(text) if is_usage => JobFault::Usage(text),
        Ok(text) => JobFault::Help(text),
    }
}

/// What a subcommand does with scripts.
fn work_of(alloc: Global, word: Subcommand, matches: &ArgMatches<'_>) -> Result<ScriptJob, JobFault>
    ensures { IsMade work_of (work_asked word (rows_of (found_of matches.now))) result }
{
    match word {
        Subcommand::Run => Ok(ScriptJob::Run {
            echo: is_on(matches, "echo"),
            format: format_in(matches),
        }),
        Subcommand::Check => Ok(ScriptJob::Check {
            format: format_in(matches),
        }),
        Subcommand::Expect => Ok(ScriptJob::Expect {
            format: format_in(matches),
            any_version: is_on(matches, "ignore-versions"),
            update: is_on(matches, "update"),
        }),
        Subcommand::Predict => predict::work(alloc, matches),
        Subcommand::Diff => diff::work(alloc, matches),
        Subcommand::Moves => moves::work(alloc, matches),
        Subcommand::Explain => explain::work(alloc, matches),
        Subcommand::Report => report::work(alloc, matches),
        Subcommand::Replay => replay::work(alloc, matches),
        Subcommand::Shell => Ok(ScriptJob::Shell),
    }
}

/// The job of a subcommand that works with scripts.
fn scripts_job(alloc: Global, word: Subcommand, matches: &ArgMatches<'_>) -> Result<Job, JobFault>
    ensures can { IfOk result CanBeDone }
    ensures asked { IsMade doings_of
        (scripts_asked (rows_of (found_of matches.now)) word) result }
{
    let process = match process::process_in(alloc, matches) {
        Ok(process) => process,
        Err(fault) => return Err(fault),
    };
    let work = match work_of(alloc, word, matches) {
        Ok(work) => work,
        Err(fault) => return Err(fault),
    };
    match texts_at(alloc, matches, "FILE") {
        Ok(files) => Ok(Job::Scripts {
            files,
            rules: rules::rules_in(matches),
            process,
            work,
        }),
        Err(_) => {
            drop(work);
            Err(JobFault::NoMemory)
        }
    }
}

/// The job of the subcommand with a name.
fn named_job(alloc: Global, name: &str, matches: &ArgMatches<'_>) -> Result<Job, JobFault>
    ensures can { IfOk result CanBeDone }
    ensures asked { IsMade doings_of
        (job_named name.now (rows_of (found_of matches.now))) result }
{
    if name == "storm" {
        return storm::job(alloc, matches);
    }
    match word_of(name) {
        Some(word) => scripts_job(alloc, word, matches),
        None => Err(JobFault::usage(alloc, NO_COMMAND)),
    }
}

/// The job of a command line that the parse accepts.
fn known_job(alloc: Global, words: &[String], matches: &ArgMatches<'_>) -> Result<Job, JobFault>
    ensures can { IfOk result CanBeDone }
    ensures asked { IsMade doings_of (doings_found (map string_bytes words.now)
        (subcommand_rows_of matches.now)) result }
{
    let Some(name) = words.get(1) else {
        return Err(JobFault::usage(alloc, NO_COMMAND));
    };
    let name = name.as_str();
    match matches.subcommand_matches(name) {
        Some(matches) => named_job(alloc, name, matches),
        None => Err(JobFault::usage(alloc, NO_COMMAND)),
    }
}

/// The job of a command line, by this command.
fn job_by<'a>(alloc: Global, command: Command<'a>, words: &'a [String]) -> Result<Job, JobFault>
    requires { is_simple_and_free (app_of command) ≡ true }
    ensures can { IfOk result CanBeDone }
    ensures asked { IsJobOf (app_of command.entry) (map string_bytes words.now) result }
{
    match command.try_get_matches_from(words) {
        Ok(matches) => {
            let job = known_job(alloc, words, &matches);
            drop(matches);
            job
        }
        Err(error) => Err(fault(alloc, &error)),
    }
}

/// A program that parses this command line as the whole program does.
fn program_of<'a>(alloc: Global, words: &[String]) -> Result<Command<'a>, AllocError>
    ensures simple { IfOk result (λ command. is_simple_and_free (app_of command) ≡ true) }
    ensures same { IfOk result (λ command.
        StandsIn (map string_bytes words.now) (app_of command)) }
{
    match words.get(1) {
        Some(name) => program_for(alloc, name.as_str()),
        None => program(alloc),
    }
}

/// The job of a command line. Its first word is the program's name, and the second the subcommand.
///
/// # Errors
/// `Help`: help or the version is asked for. `Usage`: the command line is invalid, as without a
/// subcommand. `NoMemory`: out of memory.
pub fn job(alloc: Global, words: &[String]) -> Result<Job, JobFault>
    ensures can { IfOk result CanBeDone }
    ensures asked { Answers (map string_bytes words.now) result }
    ensures word { IfOk result (λ job.
        slice_get (map string_bytes words.now) 1 ≡ Some (name_of (doings_of job))) }
{
    let Ok(command) = program_of(alloc, words) else {
        return Err(JobFault::NoMemory);
    };
    job_by(alloc, command, words)
}
