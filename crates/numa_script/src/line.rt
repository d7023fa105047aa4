//! Parsing a line of a script.
ghost use Rattle.std.specs.Prelude.{◌≡◌, ◌==◌, ◌+◌, ◌≤◌, ◌<◌, ℕ, List, length, Option, Ok, Err};
ghost use Rattle.std.specs.Prelude.{◌&&◌, if◌then◌else◌, false, is_some, unwrap_or};
ghost use Rattle.std.specs.Option.{option_map};
ghost use Rattle.numa_script.specs.Lines.{limits_line, machine_line, place_line, span_line};
ghost use Rattle.numa_script.specs.Lines.{counts_line, ranges_line, maps_line, line_after};
ghost use Rattle.numa_script.specs.Lines.{words_line, rules_line, cpus_line, alone, in_line};
ghost use Rattle.numa_script.specs.Lines.{is_common, is_told, keyword_of, script_after, told_line};
ghost use Rattle.numa_script.specs.Lines.{is_silent, has_empty_word, line_of, takes_texts, begun};
ghost use Rattle.numa_script.specs.Parts.{words_of};
ghost use Rattle.numa_script.specs.Words.{any_empty};

use crate::commands::{mbind, mems, task};
use crate::host_line::{attach, exit, fork, group, group_mems, host, process};
use crate::huge_line::{HugeLine, fault, map, pool};
use crate::keyword::{Keyword, read_keyword, takes_texts};
use crate::machine::{Distances, Frames, has_kernel_orders};
use crate::number::{few_pages, small};
use crate::page_line::{
    BoundPages, PageLine, at, memory_migrate, migrate, move_page, moved, populate, room,
};
use crate::policy::WordError;
use crate::reading::{four, four_words, three, two};
use crate::rules::read_rules;
use crate::words::Words;
use crate::work::{Work, begin, give, look, publish, release, touch, try_frame};
use numa_machine::Rules;
use numa_mask::{ListFault, NodeMask, read_list};
use numa_mode::PolicySpec;
use numa_requests::Command::{Inherit, SetHome, SetWeight, Unmap};
use numa_requests::{Command, HostCommand};

/// The most bytes of a line, without its line feed.
pub const LIMIT: usize = 4096;

/// A line that describes a machine.
#[derive(Drop)]
pub struct MachineLine<'a> {
    /// The number of nodes.
    pub nodes: u32,
    /// Whether fallback orders are those that a kernel builds; else they are by distance alone.
    pub kernel_orders: bool,
    /// The nodes with memory, or what is wrong with their list.
    pub memory: Result<NodeMask, ListFault>,
    /// The frames of the nodes.
    pub frames: Frames<'a>,
    /// The distances between them.
    pub distances: Distances<'a>,
}

/// A question about a machine.
#[derive(Clone, Copy, Debug, PartialEq, Eq)]
pub enum Question {
    /// The fallback list for the page of an address, in bytes, that the task first touches on a CPU
    /// of node `cpu`.
    Place {
        task: u32,
        address: u64,
        cpu: u32,
    },
    /// The first node for each page of a span, when the task first touches it on a CPU of node
    /// `cpu`. The span begins at the page of an address, in bytes, and has `pages` pages, at most
    /// 65,536.
    Span {
        task: u32,
        address: u64,
        pages: u32,
        cpu: u32,
    },
    /// The number of pages of a span that each node would get. The span is as for `Span`, but of
    /// any length.
    Counts {
        task: u32,
        address: u64,
        pages: u64,
        cpu: u32,
    },
    /// The number of ranges.
    Ranges,
}

/// A parsed line.
#[derive(Drop)]
pub enum Line<'a> {
    /// Nothing, or a comment.
    Silent,
    /// Not a line of a script: it is too long, its first word is unknown, it has the wrong number
    /// of words, or one of its numbers is malformed or out of bounds.
    Malformed,
    /// The limits of the machine to come: the most ranges, tasks with a policy and accepted
    /// commands.
    Limits {
        ranges: u32,
        tasks: u32,
        commands: u32,
    },
    /// Whose rules the machine to come follows.
    Rules(Rules),
    /// The nodes with CPUs of the machine to come, or what is wrong with their list.
    Cpus(Result<NodeMask, ListFault>),
    /// A machine.
    Machine(MachineLine<'a>),
    /// A command, or what is wrong with its list or policy, which matters once a machine is ready.
    Command(Result<Command, WordError>),
    /// An `mbind` of length 0, from `start` on, whose mode, flag and nodes don't go together. A
    /// kernel returns before it judges them: by its rules the line says [`empty_bind`], and by the
    /// documents the fault. Either counts once a machine is ready.
    EmptyBind {
        start: u64,
        fault: WordError,
    },
    /// A question.
    Question(Question),
    /// A listing of the ranges, with the policies that serve the task and the placed pages.
    Maps(u32),
    /// An action of workers.
    Work(Work),
    /// A line about pages that are there, or what is wrong with a list of nodes.
    Pages(Result<PageLine, ListFault>),
    /// An `mbind` that judges or moves pages; or what is wrong with its policy.
    Bind {
        start: u64,
        length: u64,
        policy: Result<PolicySpec, WordError>,
        pages: BoundPages,
    },
    /// A line about pages of 2 MiB, or about a first touch.
    Huge(HugeLine),
    /// The script is a host's from here on.
    Host,
    /// A command of a host that names no command of a process, or what is wrong with its list.
    HostCommand(Result<HostCommand, WordError>),
}

/// What a line of a script says, and to whom.
#[derive(Drop)]
pub struct ScriptLine<'a> {
    /// The process of a host that is told it (`in P`), if one is.
    pub process: Option<u32>,
    /// What is said.
    pub line: Line<'a>,
}

/// Whether the line is empty or a comment.
pub(crate) fn is_silent_line(line: &[u8]) -> bool
    ensures { result ≡ is_silent line.now }
{
    match line {
        [] => true,
        [first, ..] => *first == b'#',
    }
}

/// `limits R T C`
fn limits(words: Words) -> Option<Line>
    ensures { result ≡ limits_line words.entry }
{
    let (ranges, tasks, commands) = three(words)?;
    Some(Line::Limits {
        ranges,
        tasks,
        commands,
    })
}

/// `rules RULES`
fn rules(words: Words) -> Option<Line>
    ensures { result ≡ rules_line words.entry }
{
    Some(Line::Rules(read_rules(words.only()?)?))
}

/// `cpus LIST`
fn cpus(words: Words) -> Option<Line>
    ensures { result ≡ cpus_line words.entry }
{
    Some(Line::Cpus(read_list(words.only()?)))
}

/// `machine NODES MEM FRAMES DIST`
fn machine<'a>(words: Words<'a>) -> Option<Line<'a>>
    ensures { result ≡ machine_line words.entry }
{
    let (nodes, memory, frames, distances) = four_words(words)?;
    Some(Line::Machine(MachineLine {
        nodes: small(nodes)?,
        kernel_orders: has_kernel_orders(distances),
        memory: read_list(memory),
        frames: Frames::read(frames)?,
        distances: Distances::read(distances)?,
    }))
}

/// `place TASK ADDR CPU`
#[inline(always)]
fn place(words: Words, said: &mut Line) -> Option<()>
    ensures said { said.new ≡ unwrap_or (place_line words.entry) said.old }
    ensures is { is_some result ≡ is_some (place_line words.entry) }
{
    let (task, address, cpu) = three(words)?;
    *said = Line::Question(Question::Place { task, address, cpu });
    Some(())
}

/// `span TASK ADDR PAGES CPU`
#[inline(always)]
fn span(words: Words, said: &mut Line) -> Option<()>
    ensures said { said.new ≡ unwrap_or (span_line words.entry) said.old }
    ensures is { is_some result ≡ is_some (span_line words.entry) }
{
    let (task, address, pages, cpu) = four(words)?;
    let pages = few_pages(pages)?;
    *said = Line::Question(Question::Span {
        task,
        address,
        pages,
        cpu,
    });
    Some(())
}

/// `counts TASK ADDR PAGES CPU`
#[inline(always)]
fn counts(words: Words, said: &mut Line) -> Option<()>
    ensures said { said.new ≡ unwrap_or (counts_line words.entry) said.old }
    ensures is { is_some result ≡ is_some (counts_line words.entry) }
{
    let (task, address, pages, cpu) = four(words)?;
    *said = Line::Question(Question::Counts {
        task,
        address,
        pages,
        cpu,
    });
    Some(())
}

/// `ranges`
fn ranges(mut words: Words) -> Option<Line>
    ensures { result ≡ ranges_line words.entry }
{
    match words.next() {
        None => Some(Line::Question(Question::Ranges)),
        Some(_) => None,
    }
}

/// `maps TASK`
fn maps(words: Words) -> Option<Line>
    ensures { result ≡ maps_line words.entry }
{
    Some(Line::Maps(small(words.only()?)?))
}

/// The line of a command whose words are numbers.
fn command_line<'a>(command: Option<Command>) -> Option<Line<'a>>
    ensures { result ≡ option_map (λ it. Line.Command (Ok it)) command }
{
    Some(Line::Command(Ok(command?)))
}

/// The line of an action of workers.
fn work_line<'a>(work: Option<Work>) -> Option<Line<'a>>
    ensures { result ≡ option_map Line.Work work }
{
    Some(Line::Work(work?))
}

/// The line of an action of workers, written where it goes.
#[inline(always)]
fn tell_work(work: Option<Work>, said: &mut Line) -> Option<()>
    ensures said { said.new ≡ unwrap_or (option_map Line.Work work) said.old }
    ensures is { is_some result ≡ is_some (option_map Line.Work work) }
{
    *said = Line::Work(work?);
    Some(())
}

/// The line of a keyword that comes less often, and of the words after it.
#[inline(never)]
fn rare_line(keyword: Keyword, words: Words) -> Option<Line>
    requires { is_common keyword ≡ false }
    ensures { result ≡ line_after keyword words.entry }
{
    match keyword {
        Keyword::Limits => limits(words),
        Keyword::Rules => rules(words),
        Keyword::Cpus => cpus(words),
        Keyword::Machine => machine(words),
        Keyword::Map => map(words),
        Keyword::Unmap => command_line(two(words).map(|(start, length)| Unmap { start, length })),
        Keyword::Home => command_line(three(words).map(|(start, length, node)| SetHome {
            start,
            length,
            node,
        })),
        Keyword::Inherit => command_line(two(words).map(|(task, from)| Inherit { task, from })),
        Keyword::Weight => command_line(two(words).map(|(node, weight)| SetWeight {
            node,
            weight,
        })),
        Keyword::Mems => mems(words),
        Keyword::Ranges => ranges(words),
        Keyword::Maps => maps(words),
        Keyword::Publish => work_line(publish(words)),
        Keyword::Begin => work_line(begin(words)),
        Keyword::Look => work_line(look(words)),
        Keyword::Try => work_line(try_frame(words)),
        Keyword::Give => work_line(give(words)),
        Keyword::At => at(words),
        Keyword::Room => room(words),
        Keyword::MemoryMigrate => memory_migrate(words),
        Keyword::Migrate => migrate(words),
        Keyword::Move => move_page(words),
        Keyword::Moved => moved(words),
        Keyword::Populate => populate(words),
        Keyword::Pool => pool(words),
        Keyword::Fault => fault(words),
        Keyword::Host => host(words),
        Keyword::Group => group(words),
        Keyword::GroupMems => group_mems(words),
        Keyword::Process => process(words),
        Keyword::Exit => exit(words),
        Keyword::Attach => attach(words),
        Keyword::Fork => fork(words),
        Keyword::In => None,
        _ => unreachable!(),
    }
}

/// Writes such a line where it goes.
#[inline(never)]
fn tell_rare<'a>(keyword: Keyword, words: Words<'a>, said: &mut Line<'a>) -> Option<()>
    requires { is_common keyword ≡ false }
    ensures said { said.new ≡ unwrap_or (line_after keyword words.entry) said.old }
    ensures is { is_some result ≡ is_some (line_after keyword words.entry) }
{
    *said = rare_line(keyword, words)?;
    Some(())
}

/// Writes the line of a keyword and the words after it where it goes: a line is long, and each hop
/// would copy it. `None` if they write none; then nothing is written.
#[inline(always)]
fn tell_line<'a>(keyword: Keyword, words: Words<'a>, said: &mut Line<'a>) -> Option<()>
    ensures said { said.new ≡ unwrap_or (line_after keyword words.entry) said.old }
    ensures is { is_some result ≡ is_some (line_after keyword words.entry) }
{
    match keyword {
        Keyword::Place => place(words, said),
        Keyword::Span => span(words, said),
        Keyword::Counts => counts(words, said),
        Keyword::Mbind => mbind(words, said),
        Keyword::Task => task(words, said),
        Keyword::Touch => tell_work(touch(words), said),
        Keyword::Release => tell_work(release(words), said),
        _ => tell_rare(keyword, words, said),
    }
}

/// What a process is told.
fn told_line<'a>(first: &[u8], words: Words<'a>, said: &mut Line<'a>) -> Option<()>
    ensures said { said.new ≡ unwrap_or (told_line (keyword_of first.now) words.entry) said.old }
    ensures is { is_some result ≡ is_some (told_line (keyword_of first.now) words.entry) }
{
    let keyword = read_keyword(first)?;
    if !is_told(keyword) {
        return None;
    }
    tell_line(keyword, words, said)
}

/// `in P LINE`
fn in_line<'a>(mut words: Words<'a>, said: &mut ScriptLine<'a>) -> Option<()>
    requires { said.old ≡ alone Line.Malformed }
    ensures { said.new ≡ unwrap_or (in_line words.entry) (alone Line.Malformed) }
{
    let process = words.next()?;
    let first = words.next()?;
    let process = small(process)?;
    told_line(first, words, &mut said.line)?;
    said.process = Some(process);
    Some(())
}

/// A malformed line, over which another can be written.
#[inline(always)]
pub fn malformed<'a>() -> ScriptLine<'a>
    ensures { result ≡ alone Line.Malformed }
{
    ScriptLine {
        process: None,
        line: Line::Malformed,
    }
}

/// The line of a keyword and the words after it, which stays malformed where they write none.
#[inline(always)]
fn script_after<'a>(keyword: Keyword, words: Words<'a>, said: &mut ScriptLine<'a>)
    requires { said.old ≡ alone Line.Malformed }
    ensures { said.new ≡ unwrap_or (script_after keyword words.entry) (alone Line.Malformed) }
{
    if keyword.is_in() {
        let _ = in_line(words, said);
        return;
    }
    let _ = tell_line(keyword, words, &mut said.line);
}

/// What a line begins with, and the words behind it.
fn begun(line: &[u8]) -> Option<(Keyword, Words<'_>)>
    ensures { result ≡ begun (words_of line.now) }
{
    let mut words = Words::new(line);
    let first = words.next()?;
    let keyword = read_keyword(first)?;
    Some((keyword, words))
}

/// Whether a process of a host may be told a line of the keyword; the others are the host's, or
/// come before a machine.
pub(crate) fn is_told(keyword: Keyword) -> bool
    ensures { result ≡ is_told keyword }
{
    match keyword {
        Keyword::Limits | Keyword::Rules | Keyword::Cpus | Keyword::Machine => false,
        Keyword::Weight | Keyword::Room | Keyword::MemoryMigrate | Keyword::Host => false,
        Keyword::Group | Keyword::GroupMems | Keyword::Process | Keyword::Exit => false,
        Keyword::Attach | Keyword::Fork | Keyword::In => false,
        _ => true,
    }
}

/// Whether a word behind the keyword is empty that could pass for something else than a number.
fn has_empty_text(keyword: Keyword, words: &Words) -> bool
    ensures { result ≡ (takes_texts keyword && any_empty words.now) }
{
    takes_texts(keyword) && words.has_empty()
}

/// The line that the words of a line write, of which none may be empty.
#[inline(always)]
fn of_words<'a>(line: &'a [u8], said: &mut ScriptLine<'a>)
    requires { said.old ≡ alone Line.Malformed }
    ensures { said.new ≡ (if has_empty_word line.now then alone Line.Malformed
        else unwrap_or (words_line (words_of line.now)) (alone Line.Malformed)) }
{
    let Some(begun) = begun(line) else {
        return;
    };
    if has_empty_text(begun.0, &begun.1) {
        return;
    }
    script_after(begun.0, begun.1, said);
}

/// Parses a line, which comes without its line feed, and writes what it says over a malformed line:
/// so that it isn't copied.
#[inline(never)]
#[tactic(auto, unfolding(crate::specs::Lines::line_of))]
pub fn parse_over<'a>(line: &'a [u8], said: &mut ScriptLine<'a>)
    requires { said.old ≡ alone Line.Malformed }
    ensures { said.new ≡ line_of line.now }
{
    if is_silent_line(line) {
        said.line = Line::Silent;
        return;
    }
    if line.len() > LIMIT {
        return;
    }
    of_words(line, said);
}

/// Parses a line, which comes without its line feed.
pub fn parse(line: &[u8]) -> ScriptLine<'_>
    ensures { result ≡ line_of line.now }
{
    let mut said = malformed();
    parse_over(line, &mut said);
    said
}
