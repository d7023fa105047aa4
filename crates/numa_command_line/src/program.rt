//! The program as a clap command: its subcommands in the order of the help.
ghost use Rattle.std.specs.Prelude.{◌≡◌, ◌∷◌, IfOk, IfSome, List, true};
ghost use Rattle.clap.specs.Words.{Text, app_of, is_simple_and_free};
ghost use Rattle.numa_command_line.specs.Grammar.{IsCalled, IsProgram, StandsIn};
ghost use Rattle.numa_command_line.specs.Grammar.{bare_program};
ghost use Rattle.numa_command_line.specs.Usage.{IsLocal};

use crate::usage::{SubcommandHelp, with_word};
use crate::words::{
    check, diff, expect, explain, moves, predict, replay, report, rules, run, shell, storm,
};
use clap::Command;
use numa_sheets::VERSION;
use std::alloc::{AllocError, Global};

/// The help of the program.
const PROGRAM: &str =
    "Says where Linux would place memory under NUMA memory policies: which nodes a page may come \
from, in which order, and which frame each fault gets. It reads scripts and writes the answer to \
each line to standard output; or it shows that this holds while threads place pages and change \
policies.";

/// The end of the help of the program.
const MORE: &str = "Example, from the top of the repository:\n  ./numaplan run \
examples/first-run.numaplan\n\ndocs/SCRIPT.md of the repository describes the language of \
scripts, docs/COMMANDS.md the commands.";

/// The program without subcommands.
fn bare<'a>(alloc: Global) -> Command<'a>
    ensures app { app_of result ≡ bare_program }
    ensures local { IsLocal result }
{
    Command::new(alloc, "numaplan")
        .about(PROGRAM)
        .after_help(MORE)
        .version(VERSION)
        .subcommand_required(true)
        .arg_required_else_help(true)
}

/// The program with its subcommands.
///
/// # Errors
/// `AllocError`: out of memory.
pub fn program<'a>(alloc: Global) -> Result<Command<'a>, AllocError>
    ensures { IfOk result (λ command. IsProgram (app_of command)) }
{
    let rules = rules::argument();
    let program = with_word(alloc, Ok(bare(alloc)), run::word(), rules);
    let program = with_word(alloc, program, check::word(), rules);
    let program = with_word(alloc, program, expect::word(), rules);
    let program = with_word(alloc, program, predict::word(), rules);
    let program = with_word(alloc, program, diff::word(), rules);
    let program = with_word(alloc, program, moves::word(), rules);
    let program = with_word(alloc, program, explain::word(), rules);
    let program = with_word(alloc, program, report::word(), rules);
    let program = with_word(alloc, program, replay::word(), rules);
    let program = with_word(alloc, program, shell::word(), rules);
    with_word(alloc, program, storm::word(), rules)
}

/// The help of the subcommand of this name, if there is one.
fn word_called(name: &str) -> Option<&'static SubcommandHelp>
    ensures { IfSome result (λ word. IsCalled name.now word.now) }
{
    match name {
        "run" => Some(run::word()),
        "check" => Some(check::word()),
        "expect" => Some(expect::word()),
        "predict" => Some(predict::word()),
        "diff" => Some(diff::word()),
        "moves" => Some(moves::word()),
        "explain" => Some(explain::word()),
        "report" => Some(report::word()),
        "replay" => Some(replay::word()),
        "shell" => Some(shell::word()),
        "storm" => Some(storm::word()),
        _ => None,
    }
}

/// A program for command lines with this word behind the program's name, which it parses as the
/// whole program does: it has the subcommand of that name alone, so that the others aren't built.
/// Without such a subcommand it is the whole program.
///
/// # Errors
/// `AllocError`: out of memory.
pub fn program_for<'a>(alloc: Global, name: &str) -> Result<Command<'a>, AllocError>
    ensures simple { IfOk result (λ command. is_simple_and_free (app_of command) ≡ true) }
    ensures same { IfOk result (λ command. (first : Text) (rest : List Text)
        → StandsIn (first ∷ name.now ∷ rest) (app_of command)) }
{
    let rules = rules::argument();
    let Some(word) = word_called(name) else {
        return program(alloc);
    };
    with_word(alloc, Ok(bare(alloc)), word, rules)
}
