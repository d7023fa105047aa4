//! Lines that move pages, and lines that state where they lie.

use numa_mask::NodeMask;
use numa_script::keyword::{Keyword, read_keyword};
use numa_script::line::parse;
use numa_script::number::small;
use numa_script::parts::words;
use numa_script::{Line, PageLine};

/// The keyword with which a line begins, or, behind `in P`, what the process is told.
fn keyword_of(line: &[u8]) -> Option<Keyword> {
    let mut rest = words(line);
    let keyword = read_keyword(rest.next()?)?;
    if !keyword.is_in() {
        return Some(keyword);
    }
    let _ = small(rest.next()?)?;
    read_keyword(rest.next()?)
}

/// Whose pages a line states to lie somewhere.
#[derive(Clone, Copy)]
pub enum AtLine {
    /// `in P at START LENGTH NODE`: those of a process that it names; or it begins as such a line
    /// does, and is malformed.
    Named,
    /// `at START LENGTH NODE`: it names none.
    Unnamed,
    /// It says something else.
    Other,
}

/// Whose pages a line states to lie somewhere.
pub fn read_at(line: &[u8]) -> AtLine {
    if keyword_of(line) != Some(Keyword::At) {
        return AtLine::Other;
    }
    let said = parse(line);
    match &said.line {
        Line::Pages(Ok(_)) if said.process.is_none() => AtLine::Unnamed,
        _ => AtLine::Named,
    }
}

/// What a line moves.
#[derive(Clone, Copy)]
pub enum MoveLine {
    /// `migrate FROM TO`, in a host `in P migrate FROM TO`: the pages of a process on the nodes of
    /// the first list go to those of the second, as by migrate_pages(2).
    Migrate {
        process: Option<u32>,
        from: NodeMask,
        to: NodeMask,
    },
    /// It begins as that does, and is malformed.
    Bad,
    /// A line of a script that changes which nodes are allowed: `mems`, `cgroup-mems`, `attach`.
    Nodes,
    /// A line of a script that takes pages away: `unmap`, `exit`.
    Away,
    /// Something else.
    Other,
}

/// What a line about pages moves.
fn page_move(process: Option<u32>, said: &PageLine) -> MoveLine {
    match said {
        PageLine::Migrate { from, to } => MoveLine::Migrate {
            process,
            from: *from,
            to: *to,
        },
        _ => MoveLine::Bad,
    }
}

/// What a line `migrate` moves.
fn read_migrate(line: &[u8]) -> MoveLine {
    let said = parse(line);
    match &said.line {
        Line::Pages(Ok(page)) => page_move(said.process, page),
        _ => MoveLine::Bad,
    }
}

/// What a line moves.
pub fn read_move(line: &[u8]) -> MoveLine {
    match keyword_of(line) {
        Some(Keyword::Mems | Keyword::GroupMems | Keyword::Attach) => MoveLine::Nodes,
        Some(Keyword::Unmap | Keyword::Exit) => MoveLine::Away,
        Some(Keyword::Migrate) => read_migrate(line),
        _ => MoveLine::Other,
    }
}
