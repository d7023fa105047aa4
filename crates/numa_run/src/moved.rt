//! Writing the answer to `moved`: what the last move did.
ghost use Rattle.std.specs.Prelude.{◌≡◌, ◌++◌, ◌+◌, ◌<◌, ℕ, codes, decimal, slice_index};
ghost use Rattle.numa_lines.specs.Written.{Said};
ghost use Rattle.numa_placed.specs.Spots.{spot_at};
ghost use Rattle.numa_huge.specs.Moves.{HugeTold};
ghost use Rattle.numa_huge.specs.Tallies.{HasTold, flow_of, left_of, moved_of};
ghost use Rattle.numa_page_state.specs.Lying.{LastMove, Lying, OfNodes, OfPages};
ghost use Rattle.numa_page_state.specs.Sending.{flow_between};
ghost use Rattle.numa_page_state.specs.Standing.{LastAs, Lies, sent_by, told_in};
ghost use Rattle.numa_run.specs.MovedTexts.{added_line, all_flows_text, arrow_text, flow_of_last};
ghost use Rattle.numa_run.specs.MovedTexts.{flow_text, flows_from_text, flows_text, last_line};
ghost use Rattle.numa_run.specs.MovedTexts.{last_of, left_last, moved_last, told_line};
ghost use Rattle.numa_script.specs.PageTexts.{moved_words};

use numa_huge::HugeLast;
use numa_lines::Watched;
use numa_page_state::between::flow_from;
use numa_page_state::state::still;
use numa_page_state::{Departures, Last, PageState};
use numa_placed::{Moved, Placed};
use numa_script::tell::say_moved_words;
use std::io::Write;

/// Writes a text and a number.
pub(crate) fn say_number<W: Write>(output: &mut Watched<W>, text: &[u8], number: u64)
    ensures { Said W.contents output.old output.new (text.now ++ decimal number) }
{
    output.say(text);
    output.say_number(number);
}

/// Writes a node and where its pages went.
fn say_arrow<W: Write>(output: &mut Watched<W>, node: usize, to: u8)
    ensures { Said W.contents output.old output.new (arrow_text node to) }
{
    say_number(output, b" N", node as u64);
    say_number(output, b"->N", u64::from(to));
}

/// Writes where the pages of a node went, if some did.
fn say_flow<W: Write>(output: &mut Watched<W>, node: usize, pages: u64, to: u8)
    ensures { Said W.contents output.old output.new (flow_text node pages to) }
{
    if pages > 0 {
        say_arrow(output, node, to);
        say_number(output, b"=", pages);
    }
}

/// Writes where the pages of each node went.
fn say_flows<W: Write>(output: &mut Watched<W>, from: &[u64; 256], to: &[u8; 256])
    ensures { Said W.contents output.old output.new
        (flows_text (slice_index from.now) (slice_index to.now)) }
{
    for node in 0..256usize {
        say_flow(output, node, from[node], to[node]);
    }
}

/// Writes how many pages went to each node.
pub fn say_flows_from<W: Write>(output: &mut Watched<W>, from: usize, flow: &[u64; 256])
    ensures { Said W.contents output.old output.new (flows_from_text from (slice_index flow.now)) }
{
    for to in 0..256usize {
        say_flow(output, from, flow[to], to as u8);
    }
}

/// Writes how many pages went from each node to each.
fn say_all_flows<W: Write>(output: &mut Watched<W>, before: &Placed, after: &Placed)
    ensures { Said W.contents output.old output.new (all_flows_text
        (flow_between (spot_at before.now) (spot_at after.now))) }
{
    for from in 0..256usize {
        say_flows_from(output, from, &flow_from(before, after, from as u8));
    }
}

/// Writes how many pages moved, and how many stayed, at a version: `v4: moved 5 left 0`.
pub fn say_counted_at<W: Write>(output: &mut Watched<W>, version: u64, moved: u64, left: u64)
    ensures { Said W.contents output.old output.new
        (codes "v" ++ decimal version ++ codes ": " ++ moved_words moved left) }
{
    say_number(output, b"v", version);
    output.say(b": ");
    say_moved_words(output, moved, left);
}

/// Writes what a move of pages by their nodes did, at a version.
pub fn say_told<W: Write>(output: &mut Watched<W>, version: u64, last: &Moved)
    ensures { Said W.contents output.old output.new
        (last_line version (OfNodes (told_in last.now))) }
{
    say_counted_at(output, version, last.moved, last.left);
    say_flows(output, &last.from, &last.to);
    output.say(b"\n");
}

/// Writes what a policy did that pages went to, at a version.
fn say_departed<W: Write>(output: &mut Watched<W>, version: u64, last: &Departures)
    ensures { Said W.contents output.old output.new
        (last_line version (OfPages (sent_by last.now))) }
{
    say_counted_at(output, version, last.moved, last.left);
    say_all_flows(output, &last.before, &last.after);
    output.say(b"\n");
}

/// Writes what the last move did, at a version: `v4: moved 5 left 0 N2->N3=5`.
pub fn say_last<W: Write>(output: &mut Watched<W>, version: u64, last: &Last)
    ensures { (done : LastMove) → LastAs last.now done
        → Said W.contents output.old output.new (last_line version done) }
{
    match last {
        Last::Nodes(moved) => say_told(output, version, moved),
        Last::Pages(done) => say_departed(output, version, done),
    }
}

/// Writes what the last move of pages of 4 KiB did, where these perhaps aren't kept yet.
pub fn say_small<W: Write>(output: &mut Watched<W>, version: u64, pages: &Option<PageState>)
    ensures { (lying : Lying) → Lies pages.now lying
        → Said W.contents output.old output.new (last_line version lying.last) }
{
    match pages {
        Some(kept) => say_last(output, version, kept.last()),
        None => say_told(output, version, &still()),
    }
}

// ---- of pages of both sizes

/// How many pages of 4 KiB went from a node to each, by where those of each node went.
fn flow_by_nodes(told: &Moved, from: u8) -> [u64; 256]
    ensures { (to : ℕ) → to < 256 → slice_index result to
        ≡ flow_of_last (OfNodes (told_in told.now)) from to }
{
    let mut flow = [0; 256];
    let target = told.to[from as usize];
    flow[target as usize] = told.from[from as usize];
    flow
}

/// How many pages of 4 KiB went from a node to each.
fn small_flow(last: &Last, from: u8) -> [u64; 256]
    ensures { (to : ℕ) → to < 256 → slice_index result to
        ≡ flow_of_last (last_of last.now) from to }
{
    match last {
        Last::Nodes(told) => flow_by_nodes(told, from),
        Last::Pages(done) => flow_from(&done.before, &done.after, from),
    }
}

/// How many pages of 4 KiB moved.
fn small_moved(last: &Last) -> u64
    ensures { result ≡ moved_last (last_of last.now) }
{
    match last {
        Last::Nodes(told) => told.moved,
        Last::Pages(done) => done.moved,
    }
}

/// How many pages of 4 KiB stayed.
fn small_left(last: &Last) -> u64
    ensures { result ≡ left_last (last_of last.now) }
{
    match last {
        Last::Nodes(told) => told.left,
        Last::Pages(done) => done.left,
    }
}

/// Writes a text and the sum of two numbers.
fn say_sum<W: Write>(output: &mut Watched<W>, text: &[u8], one: u64, other: u64)
    ensures { Said W.contents output.old output.new (text.now ++ decimal (one + other)) }
{
    if other <= u64::MAX - one {
        say_number(output, text, one + other);
        return;
    }
    let last = one % 10 + other % 10;
    say_number(output, text, one / 10 + other / 10 + last / 10);
    output.say_number(last % 10);
}

/// Writes where pages of both sizes went, if some did.
fn say_both_flow<W: Write>(output: &mut Watched<W>, from: usize, small: u64, huge: u64, to: u8)
    ensures { Said W.contents output.old output.new (flow_text from (small + huge) to) }
{
    if small == 0 && huge == 0 {
        return;
    }
    say_arrow(output, from, to);
    say_sum(output, b"=", small, huge);
}

/// Writes how many pages of both sizes went to each node.
fn say_both_flows_from<W: Write>(
    output: &mut Watched<W>,
    from: usize,
    small: &[u64; 256],
    huge: &[u64; 256],
)
    ensures { Said W.contents output.old output.new (flows_from_text from
        (λ to. slice_index small.now to + slice_index huge.now to)) }
{
    for to in 0..256usize {
        say_both_flow(output, from, small[to], huge[to], to as u8);
    }
}

/// Writes how many pages of both sizes went from each node to each.
fn say_added_flows<W: Write>(output: &mut Watched<W>, last: &Last, huge: &HugeLast)
    ensures { Said W.contents output.old output.new (all_flows_text
        (λ from to. flow_of_last (last_of last.now) from to + flow_of huge.now from to)) }
{
    for from in 0..256usize {
        let small = small_flow(last, from as u8);
        let more = huge.flow_from(from as u8);
        say_both_flows_from(output, from, &small, &more);
    }
}

/// Writes how many pages of both sizes moved, and how many stayed, at a version.
fn say_both_counts<W: Write>(output: &mut Watched<W>, version: u64, last: &Last, huge: &HugeLast)
    ensures { Said W.contents output.old output.new (codes "v" ++ decimal version ++ codes ": "
        ++ moved_words (moved_last (last_of last.now) + moved_of huge.now)
        (left_last (last_of last.now) + left_of huge.now)) }
{
    say_number(output, b"v", version);
    output.say(b": ");
    say_sum(output, b"moved ", small_moved(last), huge.moved());
    say_sum(output, b" left ", small_left(last), huge.left());
}

/// Writes what the last move of pages of both sizes did, at a version.
pub fn say_added<W: Write>(output: &mut Watched<W>, version: u64, last: &Last, huge: &HugeLast)
    ensures { Said W.contents output.old output.new (told_line version
        (moved_last (last_of last.now) + moved_of huge.now)
        (left_last (last_of last.now) + left_of huge.now) (all_flows_text
        (λ from to. flow_of_last (last_of last.now) from to + flow_of huge.now from to))) }
{
    say_both_counts(output, version, last, huge);
    say_added_flows(output, last, huge);
    output.say(b"\n");
}

/// Writes it, where pages of 4 KiB perhaps aren't kept yet.
pub fn say_both<W: Write>(
    output: &mut Watched<W>,
    version: u64,
    pages: &Option<PageState>,
    huge: &HugeLast,
)
    ensures { (lying : Lying) (told : HugeTold) → Lies pages.now lying → HasTold huge.now told
        → Said W.contents output.old output.new (added_line version lying.last told) }
{
    match pages {
        Some(kept) => say_added(output, version, kept.last(), huge),
        None => say_added(output, version, &Last::Nodes(still()), huge),
    }
}
