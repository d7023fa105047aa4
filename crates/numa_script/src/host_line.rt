//! Lines of a host.
ghost use Rattle.std.specs.Prelude.{◌≡◌, Ok};
ghost use Rattle.numa_script.specs.HostLines.{attach_line, exit_line, fork_line, group_line};
ghost use Rattle.numa_script.specs.HostLines.{group_mems_line, group_nodes, host_line};
ghost use Rattle.numa_script.specs.HostLines.{process_line};

use crate::line::Line;
use crate::number::small;
use crate::policy::WordError;
use crate::reading::{four, two, two_words};
use crate::words::Words;
use numa_mask::read_list;
use numa_requests::HostCommand;

/// `host`
pub(crate) fn host<'a>(mut words: Words<'a>) -> Option<Line<'a>>
    ensures { result ≡ host_line words.entry }
{
    match words.next() {
        None => Some(Line::Host),
        Some(_) => None,
    }
}

/// The line of a command that is well formed.
fn of_host<'a>(command: HostCommand) -> Line<'a>
    ensures { result ≡ Line.HostCommand (Ok command) }
{
    Line::HostCommand(Ok(command))
}

/// `cgroup G PARENT`
pub(crate) fn group<'a>(words: Words<'a>) -> Option<Line<'a>>
    ensures { result ≡ group_line words.entry }
{
    two(words).map(|(group, parent)| of_host(HostCommand::NewGroup { group, parent }))
}

/// The line that gives a group a list of nodes, or none.
fn group_nodes<'a>(group: u32, word: &[u8]) -> Line<'a>
    ensures { result ≡ group_nodes group word.now }
{
    if word == b"-".as_slice() {
        return Line::HostCommand(Ok(HostCommand::SetGroupMems { group, mems: None }));
    }
    match read_list(word) {
        Ok(mask) => {
            let mems = Some(mask);
            Line::HostCommand(Ok(HostCommand::SetGroupMems { group, mems }))
        }
        Err(fault) => Line::HostCommand(Err(WordError::List(fault))),
    }
}

/// `cgroup-mems G LIST`, or `-` for no list
pub(crate) fn group_mems<'a>(words: Words<'a>) -> Option<Line<'a>>
    ensures { result ≡ group_mems_line words.entry }
{
    let (group, nodes) = two_words(words)?;
    Some(group_nodes(small(group)?, nodes))
}

/// `process P G`
pub(crate) fn process<'a>(words: Words<'a>) -> Option<Line<'a>>
    ensures { result ≡ process_line words.entry }
{
    two(words).map(|(process, group)| of_host(HostCommand::NewProcess { process, group }))
}

/// `exit P`
pub(crate) fn exit<'a>(words: Words<'a>) -> Option<Line<'a>>
    ensures { result ≡ exit_line words.entry }
{
    let process = small(words.only()?)?;
    Some(Line::HostCommand(Ok(HostCommand::Exit { process })))
}

/// `attach P G`
pub(crate) fn attach<'a>(words: Words<'a>) -> Option<Line<'a>>
    ensures { result ≡ attach_line words.entry }
{
    two(words).map(|(process, group)| of_host(HostCommand::Attach { process, group }))
}

/// `fork P Q TASK CHILD`: in Q the task CHILD has the policy that TASK has in P
pub(crate) fn fork<'a>(words: Words<'a>) -> Option<Line<'a>>
    ensures { result ≡ fork_line words.entry }
{
    let (parent, child, from, task) = four(words)?;
    Some(Line::HostCommand(Ok(HostCommand::Fork {
        parent,
        child,
        from,
        task,
    })))
}
