//! Lines of commands that have a policy or a list of nodes.
ghost use Rattle.std.specs.Prelude.{◌≡◌, Err, is_some, unwrap_or};
ghost use Rattle.numa_requests.specs.declared.command.Command.TheVariants.{SetTask};
ghost use Rattle.numa_script.specs.Lines.{bind_line, bound_line, empty_bind, mbind_line};
ghost use Rattle.numa_script.specs.Lines.{mems_line, task_line, with_policy};

use crate::line::Line;
use crate::number::{number, small};
use crate::page_line::{BoundPages, pages_said};
use crate::policy::{WordError, read_nodes, read_policy, waits_for_pages};
use crate::reading::two_words;
use crate::words::Words;
use bitflags::Flags;
use numa_mask::NodeMask;
use numa_mode::{Mode, PolicyFlags, PolicySpec};
use numa_requests::Command;

/// The command that a kernel takes an `mbind` of length 0 for, whatever its policy.
pub fn empty_bind(start: u64) -> Command
    ensures { result ≡ empty_bind start }
{
    let Ok(spec) = PolicySpec::new(Mode::Default, PolicyFlags::empty(), NodeMask::empty()) else {
        unreachable!()
    };
    Command::Mbind {
        start,
        length: 0,
        spec,
    }
}

/// What an `mbind` says whose policy is faulty.
fn faulty_bind<'a>(start: u64, length: u64, fault: WordError) -> Line<'a>
    ensures { result ≡ bind_line start length (Err fault) }
{
    if length == 0 && waits_for_pages(fault) {
        return Line::EmptyBind { start, fault };
    }
    Line::Command(Err(fault))
}

/// Writes an `mbind` of these words, with nothing behind its policy, where it goes.
#[inline(always)]
fn tell_plain(start: u64, length: u64, policy: &Result<PolicySpec, WordError>, said: &mut Line)
    ensures { said.new ≡ bind_line start length policy.now }
{
    match policy {
        Ok(spec) => {
            *said = Line::Command(Ok(Command::Mbind {
                start,
                length,
                spec: *spec,
            }));
        }
        Err(fault) => *said = faulty_bind(start, length, *fault),
    }
}

/// Writes an `mbind` of these words where it goes.
#[inline(always)]
fn tell_bound(
    pages: Option<BoundPages>,
    start: u64,
    length: u64,
    policy: &Result<PolicySpec, WordError>,
    said: &mut Line,
)
    ensures { said.new ≡ bound_line pages start length policy.now }
{
    match pages {
        None => tell_plain(start, length, policy, said),
        Some(pages) => {
            *said = Line::Bind {
                start,
                length,
                policy: *policy,
                pages,
            };
        }
    }
}

/// `mbind START LENGTH POLICY`, and what follows the policy: `strict`, `move TASK CPU`, or both.
#[inline(always)]
pub(crate) fn mbind(mut words: Words, said: &mut Line) -> Option<()>
    ensures said { said.new ≡ unwrap_or (mbind_line words.entry) said.old }
    ensures is { is_some result ≡ is_some (mbind_line words.entry) }
{
    let start = words.next()?;
    let length = words.next()?;
    let policy = words.next()?;
    let start = number(start)?;
    let length = number(length)?;
    let pages = pages_said(words)?;
    tell_bound(pages, start, length, &read_policy(policy), said);
    Some(())
}

/// Writes a command for a task's policy where it goes.
#[inline(always)]
fn tell_task(task: u32, policy: &Result<PolicySpec, WordError>, said: &mut Line)
    ensures { said.new ≡ with_policy (SetTask task) policy.now }
{
    match policy {
        Ok(spec) => *said = Line::Command(Ok(Command::SetTask { task, spec: *spec })),
        Err(fault) => *said = Line::Command(Err(*fault)),
    }
}

/// `task TASK POLICY`
#[inline(never)]
pub(crate) fn task(words: Words, said: &mut Line) -> Option<()>
    ensures said { said.new ≡ unwrap_or (task_line words.entry) said.old }
    ensures is { is_some result ≡ is_some (task_line words.entry) }
{
    let (task, policy) = two_words(words)?;
    let task = small(task)?;
    tell_task(task, &read_policy(policy), said);
    Some(())
}

/// `mems LIST`
pub(crate) fn mems(words: Words) -> Option<Line>
    ensures { result ≡ mems_line words.entry }
{
    match read_nodes(words.only()?) {
        Ok(mask) => Some(Line::Command(Ok(Command::SetMems { mask }))),
        Err(fault) => Some(Line::Command(Err(WordError::List(fault)))),
    }
}
