//! The subcommands: their names, arguments, and help.
ghost use Rattle.std.specs.Prelude.{◌≡◌, [], IfOk, false, map, take};
ghost use Rattle.clap.specs.Words.{App, app_of, new_app, new_rule, rule_of, with_rule};
ghost use Rattle.clap.specs.Words.{with_subcommand};
ghost use Rattle.numa_command_line.specs.Usage.{IsLocal, app_said, choice, needed, number, option};
ghost use Rattle.numa_command_line.specs.Usage.{own_app, rule_said, shape_said};

use clap::{Arg, ArgAction, Command, value_parser};
use std::alloc::{AllocError, Global};

/// The values that an argument takes.
pub enum Takes {
    /// `--NAME` alone.
    Nothing,
    /// A text after `--NAME`.
    Text,
    /// A text after each `--NAME`.
    Texts,
    /// A number after `--NAME`.
    Number,
    /// A number after `--NAME`, or after this other name.
    NumberOr(&'static str),
    /// A text after `--NAME`, or after this other name.
    TextOr(&'static str),
    /// One of these names after `--NAME`, and by default this one.
    OneOf(&'static str, &'static [&'static str]),
    /// One word.
    Bare,
    /// Any number of words.
    Files,
}

/// An argument of a subcommand.
pub struct Argument {
    pub name: &'static str,
    /// The name of its value in the help, if it has a `--NAME`.
    pub value: &'static str,
    pub help: &'static str,
    pub is_required: bool,
    pub takes: Takes,
}

/// A subcommand.
pub struct SubcommandHelp {
    pub name: &'static str,
    /// Its help: in a line, in full, and at the end.
    pub line: &'static str,
    pub about: &'static str,
    pub more: &'static str,
    /// Whether it reads lines of scripts, so that it takes `--rules` too.
    pub reads_lines: bool,
    pub arguments: &'static [Argument],
}

/// The argument `[FILE]..`.
pub const FILES: Argument = Argument {
    name: "FILE",
    value: "",
    help: "Scripts, read in turn; - is standard input, which is also read if none is named",
    is_required: false,
    takes: Takes::Files,
};

/// An argument, before it is said what it takes.
fn begun<'a>(alloc: Global, said: &'a Argument) -> Arg<'a>
    ensures rule { rule_of result
        ≡ needed said.entry.now.is_required (new_rule said.entry.now.name.now) }
    ensures local { result.global ≡ false }
{
    Arg::new(alloc, said.name)
        .help(said.help)
        .required(said.is_required)
}

/// An option with a value.
fn option<'a>(alloc: Global, said: &'a Argument) -> Arg<'a>
    ensures rule { rule_of result
        ≡ needed said.entry.now.is_required (option said.entry.now.name.now) }
    ensures local { result.global ≡ false }
{
    begun(alloc, said)
        .long(said.name)
        .value_name(said.value)
        .action(ArgAction::Set)
}

/// An option with a number.
fn number<'a>(alloc: Global, said: &'a Argument) -> Arg<'a>
    ensures rule { rule_of result
        ≡ needed said.entry.now.is_required (number said.entry.now.name.now) }
    ensures local { result.global ≡ false }
{
    option(alloc, said).value_parser(value_parser!(u32))
}

/// An option with one of these names, by default this one.
fn choice<'a>(alloc: Global, said: &'a Argument, default: &'a str, names: &'a [&'a str]) -> Arg<'a>
    ensures rule { rule_of result ≡ needed said.entry.now.is_required
        (choice said.entry.now.name.now default.entry.now names.entry) }
    ensures local { result.global ≡ false }
{
    option(alloc, said)
        .value_parser(names)
        .default_value(default)
}

/// The clap argument of an argument.
fn arg_of<'a>(alloc: Global, said: &'a Argument) -> Result<Arg<'a>, AllocError>
    ensures rule { IfOk result (λ arg. rule_of arg ≡ rule_said said.entry.now) }
    ensures local { IfOk result (λ arg. arg.global ≡ false) }
{
    match said.takes {
        Takes::Nothing => Ok(
            begun(alloc, said)
                .long(said.name)
                .action(ArgAction::SetTrue),
        ),
        Takes::Text => Ok(option(alloc, said)),
        Takes::Texts => Ok(option(alloc, said).action(ArgAction::Append)),
        Takes::Number => Ok(number(alloc, said)),
        Takes::NumberOr(other) => number(alloc, said).visible_alias(other),
        Takes::TextOr(other) => option(alloc, said).visible_alias(other),
        Takes::OneOf(default, names) => Ok(choice(alloc, said, default, names)),
        Takes::Bare => Ok(begun(alloc, said).action(ArgAction::Set)),
        Takes::Files => Ok(begun(alloc, said).num_args(0..).action(ArgAction::Append)),
    }
}

/// A subcommand with one more argument.
fn with_argument<'a>(
    alloc: Global,
    command: Command<'a>,
    said: &'a Argument,
) -> Result<Command<'a>, AllocError>
    requires { IsLocal command }
    ensures app { IfOk result (λ more.
        app_of more ≡ with_rule (app_of command.entry) (rule_said said.entry.now)) }
    ensures local { IfOk result IsLocal }
{
    match arg_of(alloc, said) {
        Ok(arg) => command.arg(arg),
        Err(error) => {
            drop(command);
            Err(error)
        }
    }
}

/// The clap command of a subcommand, without arguments.
fn bare_command<'a>(alloc: Global, word: &'a SubcommandHelp) -> Command<'a>
    ensures app { app_of result ≡ new_app word.entry.now.name.now }
    ensures local { IsLocal result }
{
    Command::new(alloc, word.name)
        .about(word.line)
        .long_about(word.about)
        .after_help(word.more)
}

/// The clap command of a subcommand, with its own arguments.
fn own_command<'a>(alloc: Global, word: &'a SubcommandHelp) -> Result<Command<'a>, AllocError>
    ensures app { IfOk result (λ command. app_of command ≡ own_app word.entry.now) }
    ensures local { IfOk result IsLocal }
{
    let mut command = bare_command(alloc, word);
    for said in word.arguments {
        command = with_argument(alloc, command, said)?;
    }
    Ok(command)
}

/// The clap command of a subcommand; `rules` is the argument `--rules`.
fn command_of<'a>(
    alloc: Global,
    word: &'a SubcommandHelp,
    rules: &'a Argument,
) -> Result<Command<'a>, AllocError>
    ensures app { IfOk result (λ command.
        app_of command ≡ app_said word.entry.now rules.entry.now) }
    ensures local { IfOk result IsLocal }
{
    let command = own_command(alloc, word)?;
    if word.reads_lines {
        return with_argument(alloc, command, rules);
    }
    Ok(command)
}

/// A program with one more subcommand.
fn add_word<'a>(
    alloc: Global,
    program: Command<'a>,
    word: &'a SubcommandHelp,
    rules: &'a Argument,
) -> Result<Command<'a>, AllocError>
    requires { IsLocal program }
    ensures app { IfOk result (λ more. app_of more
        ≡ with_subcommand (app_of program.entry) (shape_said word.entry.now rules.entry.now)) }
    ensures local { IfOk result IsLocal }
{
    match command_of(alloc, word, rules) {
        Ok(command) => program.subcommand(command),
        Err(error) => {
            drop(program);
            Err(error)
        }
    }
}

/// A program with one more subcommand; `rules` is the argument `--rules`. A program that memory
/// lacked for is lacking still.
///
/// # Errors
/// `AllocError`: out of memory.
pub fn with_word<'a>(
    alloc: Global,
    program: Result<Command<'a>, AllocError>,
    word: &'a SubcommandHelp,
    rules: &'a Argument,
) -> Result<Command<'a>, AllocError>
    requires { IfOk program IsLocal }
    ensures app { (app : App) → IfOk program.entry (λ had. app_of had ≡ app)
        → IfOk result (λ more. app_of more
        ≡ with_subcommand app (shape_said word.entry.now rules.entry.now)) }
    ensures local { IfOk result IsLocal }
{
    match program {
        Ok(program) => add_word(alloc, program, word, rules),
        Err(error) => Err(error),
    }
}
