//! Why lines about pages that are there are refused, as text.
use crate::finding::Detail;
use crate::finding_text::put_refusal;
use numa_requests::{CoreRefusal, HugeRefusal, MoveRefusal, PlacedRefusal, Refusal};
use numa_rules::Text;
use numa_script::huge_line::huge_cause;
use numa_script::names::{move_cause, placed_cause};

/// The text for a page that is touched and lies somewhere.
pub(crate) const PLACED: &str = "refused Placed: lines say where the page lies, so that no worker \
touches it first; touch another";

/// Why a line about pages is refused.
fn placed_words(refusal: PlacedRefusal) -> &'static str {
    match refusal {
        PlacedRefusal::Unaligned => "START is no multiple of 4096; round it down, and LENGTH up",
        PlacedRefusal::OutOfSpace => "the span ends above address 2^47; use lower addresses",
        PlacedRefusal::NoSuchNode => "the machine lacks the node, or the node has no memory",
        PlacedRefusal::Occupied => "the page lies somewhere already; name another",
        PlacedRefusal::NodesNotAllowed => {
            "no node of TO is allowed; name an allowed one, or allow it first by mems"
        }
        PlacedRefusal::Astray => {
            "a page of the span lies on a node that POLICY doesn't name; name it, or write \
move TASK CPU after POLICY"
        }
        PlacedRefusal::BadCpu => "the machine lacks the node of CPU",
        PlacedRefusal::Unmapped => "a page of the span isn't mapped; map it, or shorten the span",
        PlacedRefusal::NoRoom => {
            "more pages come to the node than find room; raise room, or state fewer pages"
        }
        PlacedRefusal::TooManyRuns => {
            "there would be more than 1048576 runs of pages that lie alike; state longer spans"
        }
        PlacedRefusal::NoMemory => "the program found no memory for it",
    }
}

/// Why a line about pages is refused that a host's process is told.
fn told_placed_words(refusal: PlacedRefusal) -> &'static str {
    match refusal {
        PlacedRefusal::NodesNotAllowed => {
            "no node of TO is allowed; name an allowed one, or allow it first by cgroup-mems"
        }
        refusal => placed_words(refusal),
    }
}

/// Why a page isn't moved.
fn move_words(refusal: MoveRefusal) -> &'static str {
    match refusal {
        MoveRefusal::NoSuchNode => "the machine lacks the node, or the node has no memory",
        MoveRefusal::NodesNotAllowed => {
            "the node isn't allowed; name an allowed one, or allow it first by mems"
        }
        MoveRefusal::Unmapped => "the page isn't mapped; map it, or look at the address",
        MoveRefusal::NotPlaced => {
            "the page lies nowhere yet; touch it by populate, or say where it lies by at, of 4 KiB"
        }
        MoveRefusal::NoRoom => {
            "the node takes no more pages, or the page is in a worker's frame; raise room, or \
release the page"
        }
        MoveRefusal::TooManyRuns => "there would be more than 1048576 runs of pages that lie alike",
        MoveRefusal::NoMemory => "the program found no memory for it",
    }
}

/// Why a page of a host's process isn't moved.
fn told_move_words(refusal: MoveRefusal) -> &'static str {
    match refusal {
        MoveRefusal::NodesNotAllowed => {
            "the node isn't allowed; name an allowed one, or allow it first by cgroup-mems"
        }
        MoveRefusal::NoRoom => "the node takes no more pages; raise room",
        refusal => move_words(refusal),
    }
}

/// Appends a refusal: its name, and its cause; the highest node of the machine follows, if that is
/// the detail.
fn put_named(text: &mut Text, name: &[u8], words: &str, detail: Detail) {
    text.put("refused ");
    text.put_bytes(name);
    text.put(": ");
    text.put(words);
    if let Detail::LastNode(node) = detail {
        text.put_number("; its nodes are 0 to ", node as u64);
    }
}

/// Appends a refusal whose cause a page, or the way in which START is written, tells.
fn put_of_page(text: &mut Text, name: &[u8], cause: CoreRefusal, detail: Detail) {
    text.put("refused ");
    text.put_bytes(name);
    text.put(": ");
    put_refusal(text, cause, detail);
}

/// Appends the refusal of a line about pages: its name and its cause.
pub(crate) fn put_placed_refused(text: &mut Text, refusal: PlacedRefusal, detail: Detail) {
    let name = placed_cause(refusal);
    match (refusal, detail) {
        (PlacedRefusal::Unaligned, detail) => {
            put_of_page(text, name, CoreRefusal::Command(Refusal::Unaligned), detail);
        }
        (PlacedRefusal::Unmapped, Detail::Page(page)) => {
            put_of_page(text, name, CoreRefusal::Unmapped(page), detail);
        }
        (refusal, Detail::OfHost) => {
            put_named(text, name, told_placed_words(refusal), Detail::None);
        }
        (refusal, detail) => put_named(text, name, placed_words(refusal), detail),
    }
}

/// Appends why a page isn't moved: the name and the cause.
pub(crate) fn put_move_refused(text: &mut Text, refusal: MoveRefusal, detail: Detail) {
    let name = move_cause(refusal);
    match (refusal, detail) {
        (MoveRefusal::Unmapped, Detail::Page(page)) => {
            put_of_page(text, name, CoreRefusal::Unmapped(page), detail);
        }
        (refusal, Detail::OfHost) => {
            put_named(text, name, told_move_words(refusal), Detail::None);
        }
        (refusal, detail) => put_named(text, name, move_words(refusal), detail),
    }
}

/// Why a line about pages of 2 MiB, or about a first touch, is refused.
fn huge_words(refusal: HugeRefusal) -> &'static str {
    match refusal {
        HugeRefusal::NoSuchNode => "the machine lacks the node",
        HugeRefusal::BadCpu => "the machine lacks the node of CPU",
        HugeRefusal::Unsure => {
            "the node, or the others together, have more surplus pages than pages, and a kernel \
then takes all memory; unmap pages first"
        }
        HugeRefusal::NoHugePages => {
            "too few pages of 2 MiB are free and not reserved, or on the nodes of TASK; raise a \
pool, or write noreserve"
        }
        HugeRefusal::Unmapped => "the page isn't mapped; map it, or look at the address",
        HugeRefusal::Exhausted => "no node of the page's list has room; raise room",
        HugeRefusal::Killed => {
            "no node of the page's list has a free page of 2 MiB, or all are reserved; raise a pool"
        }
        HugeRefusal::NotSupported => "a page has 2 MiB; it lies where fault or populate brings it",
        HugeRefusal::TooManyRuns => "there would be more than 1048576 runs of pages that lie alike",
        HugeRefusal::NoMemory => "the program found no memory for it",
    }
}

/// Appends the refusal of such a line: its name and its cause.
pub(crate) fn put_huge_refused(text: &mut Text, refusal: HugeRefusal, detail: Detail) {
    let name = huge_cause(refusal);
    match (refusal, detail) {
        (HugeRefusal::Unmapped, Detail::Page(page)) => {
            put_of_page(text, name, CoreRefusal::Unmapped(page), detail);
        }
        (refusal, detail) => put_named(text, name, huge_words(refusal), detail),
    }
}
