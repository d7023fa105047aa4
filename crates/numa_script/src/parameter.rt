//! The words of a line after its keyword.
ghost use Rattle.std.specs.Prelude.{◌≡◌, ◌∷◌, ℕ, List, Option};
ghost use Rattle.numa_script.specs.Causes.{behind_huge, behind_map, behind_policy, behind_pool};
ghost use Rattle.numa_script.specs.Causes.{behind_room, behind_strict, form_of};
ghost use Rattle.numa_script.specs.Causes.{misfit_of, parameters_of, wanted_of};

use crate::keyword::Keyword;
use crate::machine;
use crate::number::number;
use crate::page_line::read_switch;
use crate::rules::read_rules;
use Parameter::*;
use numa_mask::Parts;

/// A word after the keyword of a line.
#[derive(Clone, Copy, Debug, PartialEq, Eq)]
pub enum Parameter {
    /// R, the most ranges.
    Ranges,
    /// T, the most tasks with a policy.
    Tasks,
    /// C, the most accepted commands.
    Commands,
    /// RULES, whose rules apply.
    Rules,
    /// NODES, the number of nodes of the machine.
    Nodes,
    /// MEM, the nodes with memory.
    Memory,
    /// FRAMES, the frames of the nodes.
    Frames,
    /// DIST, the distances between the nodes, and whose fallback orders are made of them.
    Distances,
    /// START, the address at which a span begins, in bytes.
    Start,
    /// LENGTH, the length of a span, in bytes.
    Length,
    /// OFFSET, the index of a mapping's first page, in pages.
    Offset,
    /// POLICY.
    Policy,
    /// NODE of `home` and `weight`.
    Node,
    /// WEIGHT, the weight of a node.
    Weight,
    /// LIST, the allowed nodes, or those with CPUs.
    List,
    /// TASK, the number of a task.
    Task,
    /// FROM, the number of the task whose policy another takes.
    From,
    /// ADDR, any address in a page, in bytes.
    Address,
    /// CPU, the node of a CPU.
    Cpu,
    /// PAGES of `counts`.
    Pages,
    /// PAGES of `span`.
    SpanPages,
    /// W, the number of a worker.
    Worker,
    /// WORD, the number of a word of 64 frames.
    Word,
    /// NODE of `try` and `give`.
    FrameNode,
    /// FRAME, the number of a frame of a node.
    Frame,
    /// COUNT, the pages that a pool is to have.
    Count,
    /// `huge`, behind the offset of `map`.
    Huge,
    /// `noreserve`, behind the task of such a mapping.
    NoReserve,
    /// `strict`, behind the policy of `mbind`.
    Strict,
    /// `move`, behind the policy of `mbind`.
    Move,
    /// `on` or `off`, whether pages follow the allowed nodes.
    Switch,
    /// PAGES of `room`.
    RoomPages,
    /// FROM, the nodes that pages leave.
    FromList,
    /// TO, the nodes to which pages go.
    ToList,
    /// P, the number of a process.
    Process,
    /// Q, the number of a process that another becomes.
    Child,
    /// CHILD, the number of a task of the child.
    ChildTask,
    /// G, the number of a group.
    Group,
    /// PARENT, the number of the group above.
    Parent,
    /// LINE, a line of a process.
    Line,
}

/// The form that a word must have for its line not to be malformed.
#[derive(Clone, Copy, Debug, PartialEq, Eq)]
pub enum Form {
    /// A number up to this one.
    Number(u64),
    /// `document` or `linux`.
    Rules,
    /// Decimal numbers below 2^32, separated by commas.
    Frames,
    /// `flat`, or decimal numbers up to 255, separated by commas and semicolons; either may follow
    /// `kernel:`.
    Distances,
    /// `on` or `off`.
    Switch,
    /// Anything but nothing: the line would be another without it.
    Word,
    /// Anything: a node list or a policy, whose errors have names of their own.
    Any,
}

/// How a word deviates from its form.
#[derive(Clone, Copy, Debug, PartialEq, Eq)]
pub enum Misfit {
    /// It isn't written in that form.
    Unreadable,
    /// It is a number above the greatest one.
    TooGreat,
}

impl Parameter {
    /// The form that the word must have.
    pub fn form(self) -> Form
        ensures { result ≡ form_of self }
    {
        match self {
            Parameter::Start
            | Parameter::Length
            | Parameter::Offset
            | Parameter::Address
            | Parameter::Pages
            | Parameter::RoomPages => Form::Number(u64::MAX),
            Parameter::Ranges
            | Parameter::Tasks
            | Parameter::Commands
            | Parameter::Nodes
            | Parameter::Node
            | Parameter::Weight
            | Parameter::Task
            | Parameter::From
            | Parameter::Cpu
            | Parameter::Worker
            | Parameter::Word
            | Parameter::Process
            | Parameter::Child
            | Parameter::ChildTask
            | Parameter::Group
            | Parameter::Parent => Form::Number(u32::MAX as u64),
            Parameter::Count => Form::Number(i64::MAX as u64),
            Parameter::SpanPages => Form::Number(65_536),
            Parameter::FrameNode => Form::Number(255),
            Parameter::Frame => Form::Number(65_535),
            Parameter::Rules => Form::Rules,
            Parameter::Frames => Form::Frames,
            Parameter::Distances => Form::Distances,
            Parameter::Switch => Form::Switch,
            Parameter::Huge | Parameter::NoReserve => Form::Word,
            Parameter::Memory | Parameter::List | Parameter::Policy => Form::Any,
            Parameter::FromList | Parameter::ToList => Form::Any,
            Parameter::Strict | Parameter::Move | Parameter::Line => Form::Any,
        }
    }

    /// The name of the word in the table of lines: docs/SCRIPT.md.
    pub fn name(self) -> &'static str {
        match self {
            Parameter::Ranges => "R",
            Parameter::Tasks => "T",
            Parameter::Commands => "C",
            Parameter::Rules => "RULES",
            Parameter::Nodes => "NODES",
            Parameter::Memory => "MEM",
            Parameter::Frames => "FRAMES",
            Parameter::Distances => "DIST",
            Parameter::Start => "START",
            Parameter::Length => "LENGTH",
            Parameter::Offset => "OFFSET",
            Parameter::Policy => "POLICY",
            Parameter::Node | Parameter::FrameNode => "NODE",
            Parameter::Weight => "WEIGHT",
            Parameter::List => "LIST",
            Parameter::Task => "TASK",
            Parameter::From | Parameter::FromList => "FROM",
            Parameter::Address => "ADDR",
            Parameter::Cpu => "CPU",
            Parameter::Pages | Parameter::SpanPages | Parameter::RoomPages => "PAGES",
            Parameter::Worker => "W",
            Parameter::Word => "WORD",
            Parameter::Frame => "FRAME",
            Parameter::Count => "COUNT",
            Parameter::Huge => "huge",
            Parameter::NoReserve => "noreserve",
            Parameter::Strict => "strict",
            Parameter::Move => "move",
            Parameter::Switch => "on|off",
            Parameter::ToList => "TO",
            Parameter::Process => "P",
            Parameter::Child => "Q",
            Parameter::ChildTask => "CHILD",
            Parameter::Group => "G",
            Parameter::Parent => "PARENT",
            Parameter::Line => "LINE",
        }
    }
}

/// How a word deviates from a number up to `greatest`; `None` if it is one.
fn number_misfit(greatest: u64, word: &[u8]) -> Option<Misfit>
    ensures { result ≡ misfit_of (Form.Number greatest) word.now }
{
    match number(word) {
        None => Some(Misfit::Unreadable),
        Some(value) if value > greatest => Some(Misfit::TooGreat),
        Some(_) => None,
    }
}

/// How a word deviates from a form; `None` if it has it.
pub fn read_misfit(form: Form, word: &[u8]) -> Option<Misfit>
    ensures { result ≡ misfit_of form word.now }
{
    match form {
        Form::Number(greatest) => number_misfit(greatest, word),
        Form::Rules if read_rules(word).is_none() => Some(Misfit::Unreadable),
        Form::Frames if machine::Frames::read(word).is_none() => Some(Misfit::Unreadable),
        Form::Distances if machine::Distances::read(word).is_none() => Some(Misfit::Unreadable),
        Form::Switch if read_switch(word).is_none() => Some(Misfit::Unreadable),
        Form::Word if word.is_empty() => Some(Misfit::Unreadable),
        _ => None,
    }
}

/// The words of a line after this keyword, in order.
pub fn parameters(keyword: Keyword) -> &'static [Parameter]
    ensures { result.now ≡ parameters_of keyword }
{
    match keyword {
        Keyword::Limits => &[Ranges, Tasks, Commands],
        Keyword::Rules => &[Parameter::Rules],
        Keyword::Cpus => &[List],
        Keyword::Machine => &[Nodes, Memory, Frames, Distances],
        Keyword::Map => &[Start, Length, Offset],
        Keyword::Unmap => &[Start, Length],
        Keyword::Mbind => &[Start, Length, Policy],
        Keyword::Home => &[Start, Length, Node],
        Keyword::Task => &[Task, Policy],
        Keyword::Inherit => &[Task, From],
        Keyword::Weight => &[Node, Weight],
        Keyword::Mems => &[List],
        Keyword::Place => &[Task, Address, Cpu],
        Keyword::Span => &[Task, Address, SpanPages, Cpu],
        Keyword::Counts => &[Task, Address, Pages, Cpu],
        Keyword::Ranges | Keyword::Publish => &[],
        Keyword::Maps => &[Task],
        Keyword::Begin | Keyword::Touch => &[Worker, Task, Address, Cpu],
        Keyword::Look => &[Worker, Word],
        Keyword::Try | Keyword::Give => &[Worker, FrameNode, Frame],
        Keyword::Release => &[Worker, Address],
        Keyword::At => &[Start, Length, Node],
        Keyword::Room => &[Node, RoomPages],
        Keyword::MemoryMigrate => &[Switch],
        Keyword::Migrate => &[FromList, ToList],
        Keyword::Move => &[Address, Node],
        Keyword::Moved | Keyword::Host => &[],
        Keyword::Populate => &[Start, Length, Task, Cpu],
        Keyword::Pool => &[Count, Task, Cpu],
        Keyword::Fault => &[Task, Address, Cpu],
        Keyword::Group => &[Group, Parent],
        Keyword::GroupMems => &[Group, List],
        Keyword::Process | Keyword::Attach => &[Process, Group],
        Keyword::Exit => &[Process],
        Keyword::Fork => &[Process, Child, Task, ChildTask],
        Keyword::In => &[Process, Line],
    }
}

/// What follows `strict` behind the policy of an `mbind`.
fn parameters_behind_strict(mut words: Parts) -> &'static [Parameter]
    ensures { result.now ≡ Parameter.Start ∷ Parameter.Length ∷ Parameter.Policy
        ∷ Parameter.Strict ∷ behind_strict words.entry }
{
    match words.next() {
        Some(word) if word == b"move".as_slice() => {
            &[Start, Length, Policy, Strict, Move, Task, Cpu]
        }
        _ => &[Start, Length, Policy, Strict],
    }
}

/// The words of an `mbind`, of which these follow the policy.
fn bind_parameters(mut words: Parts) -> &'static [Parameter]
    ensures { result.now ≡ Parameter.Start ∷ Parameter.Length ∷ Parameter.Policy
        ∷ behind_policy words.entry }
{
    match words.next() {
        Some(word) if word == b"strict".as_slice() => parameters_behind_strict(words),
        Some(word) if word == b"move".as_slice() => &[Start, Length, Policy, Move, Task, Cpu],
        _ => &[Start, Length, Policy],
    }
}

/// The words behind `room`, which are these: a node and its pages, or none.
fn room_parameters(mut words: Parts) -> &'static [Parameter]
    ensures { result.now ≡ behind_room words.entry }
{
    match words.next() {
        Some(_) => &[Node, RoomPages],
        None => &[],
    }
}

/// The words behind `pool`, of which these are.
fn pool_parameters(mut words: Parts) -> &'static [Parameter]
    ensures { result.now ≡ behind_pool words.entry }
{
    let Some(_) = words.next() else {
        return &[];
    };
    let Some(_) = words.next() else {
        return &[Count];
    };
    match words.next() {
        Some(_) => &[Count, Task, Cpu],
        None => &[Node, Count],
    }
}

/// The words of a mapping of pages of 2 MiB, of which these follow `huge`.
fn huge_parameters(mut words: Parts) -> &'static [Parameter]
    ensures { result.now ≡ Parameter.Start ∷ Parameter.Length ∷ Parameter.Offset ∷ Parameter.Huge
        ∷ behind_huge words.entry }
{
    let _ = words.next();
    match words.next() {
        Some(word) if word == b"noreserve".as_slice() => {
            &[Start, Length, Offset, Huge, Task, NoReserve]
        }
        _ => &[Start, Length, Offset, Huge, Task],
    }
}

/// The words of a mapping, of which these follow the offset.
fn map_parameters(mut words: Parts) -> &'static [Parameter]
    ensures { result.now ≡ Parameter.Start ∷ Parameter.Length ∷ Parameter.Offset
        ∷ behind_map words.entry }
{
    match words.next() {
        Some(word) if word == b"huge".as_slice() => huge_parameters(words),
        _ => &[Start, Length, Offset],
    }
}

/// The words that a line of this keyword should have: those behind the policy of an `mbind` go by
/// the first of them, those of a `map` by the fourth, and `room` and `pool` have some or none.
pub(crate) fn wanted(keyword: Keyword, mut words: Parts) -> &'static [Parameter]
    ensures { result.now ≡ wanted_of keyword words.entry }
{
    match keyword {
        Keyword::Mbind => {
            let _ = words.next();
            let _ = words.next();
            let _ = words.next();
            bind_parameters(words)
        }
        Keyword::Map => {
            let _ = words.next();
            let _ = words.next();
            let _ = words.next();
            map_parameters(words)
        }
        Keyword::Room => room_parameters(words),
        Keyword::Pool => pool_parameters(words),
        other => parameters(other),
    }
}
