//! Counts of the pages that take the nodes of a cycle in turn.
ghost use Rattle.std.specs.Prelude.{◌≡◌, ◌*◌, ◌/◌, ◌%◌, ◌<◌, length};
ghost use Rattle.numa_lanes.specs.Spans.{node_count};
ghost use Rattle.numa_plan.specs.Rules.{turns_on};
ghost use Rattle.numa_plan.specs.Tally.{Adds, HasRoom};

use numa_lanes::{Cycle, tally};

/// The number of pages on each node: the count of node k at place k.
pub type Tally = [u64; 256];

/// The most turns that a cycle lends at once.
const LENT: u64 = 64;

/// Adds to each node's count the pages that are on it, if `pages` pages from `index` on take the
/// nodes of a cycle in turn.
#[inline]
pub(crate) fn add_turns(cycle: &Cycle, index: u64, pages: u64, counts: &mut Tally)
    requires { HasRoom counts.old (λ _. pages) }
    ensures { Adds counts.old counts.new (turns_on cycle.now index pages) }
{
    if pages > LENT {
        add_rounds(cycle.nodes(), index, pages, counts);
        return;
    }
    tally(cycle.turns(index, pages as usize), counts);
}

/// Adds to each node's count the pages that are on it, if `pages` pages from `index` on take the
/// nodes of a cycle in turn: whole rounds by multiplication, and the rest page by page.
#[inline(never)]
fn add_rounds(nodes: &[u8], index: u64, pages: u64, counts: &mut Tally)
    requires some { 0 < length nodes.now }
    requires room { HasRoom counts.old (λ _. pages) }
    ensures { Adds counts.old counts.new (turns_on nodes.now index pages) }
{
    let length = nodes.len() as u64;
    add_places(nodes, pages / length, counts);
    let start = (index % length) as usize;
    let rest = (pages % length) as usize;
    add_rest(nodes, start, rest, counts);
}

/// Adds to each node's count the pages that are on it, if fewer pages than a round take the nodes
/// of a cycle in turn, from place `start` of the cycle on.
fn add_rest(nodes: &[u8], start: usize, pages: usize, counts: &mut Tally)
    requires start { start < length nodes.now }
    requires pages { pages < length nodes.now }
    requires room { HasRoom counts.old (λ _. pages) }
    ensures { Adds counts.old counts.new (turns_on nodes.now start pages) }
{
    let length = nodes.len();
    if pages <= length - start {
        tally(&nodes[start..start + pages], counts);
    } else {
        let begun = pages - (length - start);
        tally(&nodes[start..], counts);
        tally(&nodes[..begun], counts);
    }
}

/// Adds `pages` pages to the count of each of these nodes.
pub(crate) fn add_places(nodes: &[u8], pages: u64, counts: &mut Tally)
    requires { HasRoom counts.old (λ node. pages * node_count node nodes.now) }
    ensures { Adds counts.old counts.new (λ node. pages * node_count node nodes.now) }
{
    if pages == 0 {
        return;
    }
    for node in nodes {
        counts[usize::from(*node)] += pages;
    }
}
