//! Details of an error or a refusal.
use crate::bad_words::plain_words;
use crate::finding::Detail;
use crate::pages::{first_mapped, first_unmapped, first_without_home, is_mapped};
use numa_machine::{Machine, PageSize};
use numa_mask::ListFault;
use numa_mask::parts::first_place;
use numa_requests::{
    Command, CoreRefusal, Event, HugeRefusal, MoveRefusal, PlacedRefusal, Refusal,
};
use numa_script::parts::{items, words};
use numa_script::{HugeLine, Line, PageLine, Question, Reply, ScriptLine, WordError, Work};
use numa_space::Space;

/// The size of a page in bytes.
const PAGE: u64 = 4096;

/// That of a page of 2 MiB, and how many pages of 4 KiB it is.
const HUGE: u64 = 2_097_152;

const PARTS: u64 = 512;

/// A span of pages: the first, and the one after the last.
#[derive(Clone, Copy)]
struct LinePages {
    first: u64,
    end: u64,
}

/// `count` pages from that of an address on.
fn pages_from(address: u64, count: u64) -> LinePages {
    let first = address / PAGE;
    LinePages {
        first,
        end: first.saturating_add(count),
    }
}

/// The number of pages that `length` bytes need.
fn page_count(length: u64) -> u64 {
    if length.is_multiple_of(PAGE) {
        return length / PAGE;
    }
    length / PAGE + 1
}

/// The number of pages, of 4 KiB, that `length` bytes of pages of this size need.
fn sized_count(size: PageSize, length: u64) -> u64 {
    match size {
        PageSize::Small => page_count(length),
        PageSize::Huge => length / HUGE * PARTS + if length % HUGE == 0 { 0 } else { PARTS },
    }
}

/// The span of a command that has one.
fn span_of(command: &Command) -> Option<LinePages> {
    match *command {
        Command::Map {
            start,
            length,
            size,
            ..
        } => Some(pages_from(start, sized_count(size, length))),
        Command::Unmap { start, length }
        | Command::Mbind { start, length, .. }
        | Command::SetHome { start, length, .. } => Some(pages_from(start, page_count(length))),
        _ => None,
    }
}

/// A page, if there is one.
fn page_detail(page: Option<u64>) -> Detail {
    match page {
        Some(page) => Detail::Page(page),
        None => Detail::None,
    }
}

/// The page of a span that causes a command's refusal, if the span is aligned.
fn span_detail(space: &Space, pages: LinePages, refusal: Refusal) -> Detail {
    match refusal {
        Refusal::Overlap => page_detail(first_mapped(space, pages.first, pages.end)),
        Refusal::Hole => page_detail(first_unmapped(space, pages.first, pages.end)),
        Refusal::NotSupported => page_detail(first_without_home(space, pages.first, pages.end)),
        _ => Detail::None,
    }
}

/// What isn't aligned of a span that begins at an address: that, or a border, which is inside a
/// page of 2 MiB.
fn unaligned_detail(start: u64) -> Detail {
    if start.is_multiple_of(PAGE) {
        return Detail::HugeBorder;
    }
    Detail::Page(start / PAGE)
}

/// The details of the refusal of a mapping of pages of 2 MiB.
fn huge_map_detail(space: &Space, start: u64, length: u64, refusal: Refusal) -> Detail {
    let pages = pages_from(start, sized_count(PageSize::Huge, length));
    match refusal {
        Refusal::Unaligned if start.is_multiple_of(HUGE) => Detail::HugeOffset,
        Refusal::Unaligned => Detail::HugeStart,
        Refusal::CommandsSpent => Detail::Count(space.version()),
        Refusal::TooManyRanges => Detail::Count(space.ranges() as u64),
        refusal => span_detail(space, pages, refusal),
    }
}

/// Where the span of a command begins that has one.
fn start_of(command: &Command) -> Option<u64> {
    match *command {
        Command::Map { start, .. } | Command::Unmap { start, .. } => Some(start),
        Command::Mbind { start, .. } | Command::SetHome { start, .. } => Some(start),
        _ => None,
    }
}

/// What isn't aligned of the span of a command.
fn unaligned_span(command: &Command) -> Detail {
    match start_of(command) {
        Some(start) => unaligned_detail(start),
        None => Detail::None,
    }
}

/// The details of a command's refusal.
fn command_detail(space: &Space, command: &Command, refusal: Refusal) -> Detail {
    match refusal {
        Refusal::NoSuchNode => return last_node(space),
        Refusal::CommandsSpent => return Detail::Count(space.version()),
        Refusal::TooManyTasks => return Detail::Count(space.task_count() as u64),
        Refusal::TooManyRanges => return Detail::Count(space.ranges() as u64),
        _ => {}
    }
    if let Command::SetMems { .. } = command {
        return Detail::Mems;
    }
    if let Refusal::Unaligned = refusal {
        return unaligned_span(command);
    }
    match span_of(command) {
        Some(pages) => span_detail(space, pages, refusal),
        None => Detail::None,
    }
}

/// The details of the refusal of an `mbind` that judges or moves pages.
fn bind_detail(space: &Space, start: u64, length: u64, refusal: Refusal) -> Detail {
    match refusal {
        Refusal::CommandsSpent => Detail::Count(space.version()),
        Refusal::TooManyRanges => Detail::Count(space.ranges() as u64),
        Refusal::Unaligned => unaligned_detail(start),
        _ => span_detail(space, pages_from(start, page_count(length)), refusal),
    }
}

/// The highest node of the machine.
fn last_node(space: &Space) -> Detail {
    last_of(space.machine())
}

/// The highest node of a machine.
pub(crate) fn last_of(machine: &Machine) -> Detail {
    Detail::LastNode(machine.nodes().saturating_sub(1))
}

/// The pages of a question.
fn asked_pages(question: &Question) -> Option<LinePages> {
    match *question {
        Question::Place { address, .. } => Some(pages_from(address, 1)),
        Question::Span { address, pages, .. } => Some(pages_from(address, pages as u64)),
        Question::Counts { address, pages, .. } => Some(pages_from(address, pages)),
        Question::Ranges => None,
    }
}

/// The page for which a worker is to find a frame.
fn touched_page(work: &Work) -> Option<u64> {
    match work {
        Work::Event(Event::Begin(_, request)) => Some(request.page),
        Work::Touch(_, request) => Some(request.page),
        _ => None,
    }
}

/// The page that isn't mapped, or whose mapping isn't published yet.
fn unmapped_detail(space: &Space, said: &Line<'_>) -> Detail {
    match said {
        Line::Question(question) => match asked_pages(question) {
            Some(pages) => page_detail(first_unmapped(space, pages.first, pages.end)),
            None => Detail::None,
        },
        Line::Work(work) => match touched_page(work) {
            Some(page) if is_mapped(space, page) => Detail::Unpublished(page),
            page => page_detail(page),
        },
        _ => Detail::None,
    }
}

/// The details of a refusal.
pub(crate) fn refusal_detail(space: &Space, said: &Line<'_>, cause: CoreRefusal) -> Detail {
    match cause {
        CoreRefusal::Command(refusal) => match said {
            Line::Command(Ok(command)) => command_detail(space, command, refusal),
            Line::Bind { start, length, .. } => bind_detail(space, *start, *length, refusal),
            Line::Huge(HugeLine::Map { start, length, .. }) => {
                huge_map_detail(space, *start, *length, refusal)
            }
            _ => Detail::None,
        },
        CoreRefusal::BadCpu => last_node(space),
        CoreRefusal::Unmapped(_) => unmapped_detail(space, said),
        _ => Detail::None,
    }
}

/// Whether the line ends with a carriage return.
fn ends_with_return(line: &[u8]) -> bool {
    line.last() == Some(&b'\r')
}

/// Whether `all` is an item of a list, after a mode or alone.
fn has_all(word: &[u8]) -> bool {
    let list = match first_place(word, b':') {
        Some(place) => &word[place + 1..],
        None => word,
    };
    for item in items(list) {
        if item == b"all".as_slice() {
            return true;
        }
    }
    false
}

/// Whether a line has `all` where nodes belong.
fn names_all(line: &[u8]) -> bool {
    for word in words(line) {
        if has_all(word) {
            return true;
        }
    }
    false
}

/// Whether the second word of a line begins with 0, and has more digits, but no `0x`.
pub(crate) fn is_decimal_start(line: &[u8]) -> bool {
    let mut words = words(line);
    let Some(_) = words.next() else {
        return false;
    };
    match words.next() {
        Some(word) => word.len() > 1 && word.starts_with(b"0") && !word.starts_with(b"0x"),
        None => false,
    }
}

/// The way to write all nodes of a machine with `nodes` nodes.
pub(crate) fn all_nodes(nodes: u32) -> Detail {
    Detail::AllNodes(nodes.saturating_sub(1))
}

/// All nodes of the machine that is ready, or that the line describes.
fn all_detail(space: Option<&Space>, said: &Line<'_>) -> Detail {
    if let Some(space) = space {
        return all_nodes(space.machine().nodes());
    }
    match said {
        Line::Machine(machine) => all_nodes(machine.nodes),
        _ => Detail::None,
    }
}

/// The details of an error in a list or a policy, where `all` would be these nodes.
pub(crate) fn list_detail(line: &[u8], all: Detail, fault: WordError) -> Detail {
    if ends_with_return(line) {
        return Detail::CarriageReturn;
    }
    if line.contains(&b'\t') {
        return Detail::Tab;
    }
    match fault {
        WordError::List(ListFault::BadDigit) if names_all(line) => all,
        _ => Detail::None,
    }
}

/// The page at which the span of a line begins, or which it moves.
fn first_page(said: &Line<'_>) -> Detail {
    match said {
        Line::Pages(Ok(PageLine::At { start, .. })) => Detail::Page(*start / PAGE),
        Line::Pages(Ok(PageLine::Move { address, .. })) => Detail::Page(*address / PAGE),
        Line::Pages(Ok(PageLine::Populate { start, .. })) => Detail::Page(*start / PAGE),
        _ => Detail::None,
    }
}

/// The first page of a line's span that isn't mapped.
fn hole_detail(space: &Space, said: &Line<'_>) -> Detail {
    let Line::Pages(Ok(PageLine::Populate { start, length, .. })) = said else {
        return Detail::None;
    };
    let pages = pages_from(*start, page_count(*length));
    page_detail(first_unmapped(space, pages.first, pages.end))
}

/// The details of the refusal of a line about pages that are there.
pub(crate) fn placed_detail(
    space: &Space,
    line: &[u8],
    said: &Line<'_>,
    refusal: PlacedRefusal,
) -> Detail {
    match refusal {
        PlacedRefusal::Unaligned if is_decimal_start(line) => Detail::DecimalStart,
        PlacedRefusal::Unaligned => first_page(said),
        PlacedRefusal::NoSuchNode | PlacedRefusal::BadCpu => last_node(space),
        PlacedRefusal::Unmapped => hole_detail(space, said),
        _ => Detail::None,
    }
}

/// The details of why a page isn't moved.
pub(crate) fn move_detail(space: &Space, said: &Line<'_>, refusal: MoveRefusal) -> Detail {
    match refusal {
        MoveRefusal::NoSuchNode => last_node(space),
        MoveRefusal::Unmapped => first_page(said),
        _ => Detail::None,
    }
}

/// The details of the refusal of a line about pages of 2 MiB, or about a first touch.
pub(crate) fn huge_detail(space: &Space, said: &Line<'_>, refusal: HugeRefusal) -> Detail {
    match (refusal, said) {
        (HugeRefusal::NoSuchNode | HugeRefusal::BadCpu, _) => last_node(space),
        (HugeRefusal::Unmapped, Line::Huge(HugeLine::Fault { address, .. })) => {
            Detail::Page(*address / PAGE)
        }
        _ => Detail::None,
    }
}

/// Whether START of a line isn't aligned because it is decimal, which may be a slip.
fn is_decimal_slip(line: &[u8], said: &Line<'_>) -> bool {
    let start = match said {
        Line::Command(Ok(command)) => start_of(command),
        Line::Bind { start, .. } => Some(*start),
        Line::Huge(HugeLine::Map { start, .. }) => Some(*start),
        _ => None,
    };
    match start {
        Some(start) => is_decimal_start(line) && !start.is_multiple_of(PAGE),
        None => false,
    }
}

/// The details of a refusal once a machine is ready.
fn refused_detail(space: &Space, line: &[u8], said: &Line<'_>, fault: Reply) -> Detail {
    match fault {
        Reply::Refused(CoreRefusal::Command(Refusal::Unaligned)) if is_decimal_slip(line, said) =>
            Detail::DecimalStart,
        Reply::Refused(cause) => refusal_detail(space, said, cause),
        Reply::PlacedRefused(refusal) => placed_detail(space, line, said, refusal),
        Reply::MoveRefused(refusal) => move_detail(space, said, refusal),
        Reply::HugeRefused(refusal) => huge_detail(space, said, refusal),
        _ => Detail::None,
    }
}

/// The details of a line that has no place where it stands.
fn state_detail(is_ready: bool, said: &Line<'_>) -> Detail {
    match said {
        Line::Host if is_ready => Detail::LateHost,
        _ if is_ready => Detail::MachineReady,
        _ => Detail::NoMachine,
    }
}

/// The details of a line's error or refusal, by the space of one process after it, if a machine is
/// ready.
pub(crate) fn detail_of(
    space: Option<&Space>,
    line: &[u8],
    said: &ScriptLine<'_>,
    fault: Reply,
) -> Detail {
    let said = &said.line;
    match fault {
        Reply::BadWords => plain_words(line),
        Reply::BadState => state_detail(space.is_some(), said),
        Reply::BadWord(fault) => list_detail(line, all_detail(space, said), fault),
        fault => match space {
            Some(space) => refused_detail(space, line, said, fault),
            None => Detail::None,
        },
    }
}
