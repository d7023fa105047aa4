//! Writing what first touches did, and how many more pages nodes take.
ghost use Rattle.std.specs.Prelude.{◌++◌, codes, decimal, slice_index};
ghost use Rattle.numa_lines.specs.Written.{Said};
ghost use Rattle.numa_requests.specs.NodeCounts.{nodes_text as counts_text};
ghost use Rattle.numa_script.specs.PageTexts.{placed_words};
ghost use Rattle.numa_placed.specs.Shifts.{room_of};
ghost use Rattle.numa_run.specs.ArrivedTexts.{arrival_in, arrival_line, both_arrival_line};
ghost use Rattle.numa_run.specs.ArrivedTexts.{huge_arrival_in, room_text, rooms_line, rooms_text};

use crate::moved::say_number;
use numa_huge::HugeArrived;
use numa_lines::Watched;
use numa_page_state::Arrived;
use numa_placed::Rooms;
use numa_script::tell::{say_each_count, say_placed_words};
use std::io::Write;

/// Writes what first touches did, at a version: `v4: placed 3 exhausted 0 N0=2 N1=1`.
pub fn say_arrived<W: Write>(output: &mut Watched<W>, version: u64, done: &Arrived)
    ensures { Said W.contents output.old output.new
        (arrival_line version (arrival_in done.now)) }
{
    say_number(output, b"v", version);
    output.say(b": ");
    say_placed_words(output, done.placed, done.exhausted);
    say_each_count(output, &done.on);
    output.say(b"\n");
}

/// Writes it without the end of the line.
fn say_arrival<W: Write>(output: &mut Watched<W>, version: u64, done: &Arrived)
    ensures { Said W.contents output.old output.new (codes "v" ++ decimal version ++ codes ": "
        ++ placed_words done.now.placed done.now.exhausted
        ++ counts_text (slice_index done.now.on)) }
{
    say_number(output, b"v", version);
    output.say(b": ");
    say_placed_words(output, done.placed, done.exhausted);
    say_each_count(output, &done.on);
}

/// Writes what first touches of pages of 2 MiB did: ` huge placed 2 exhausted 0 N1=2`.
fn say_huge_arrival<W: Write>(output: &mut Watched<W>, huge: &HugeArrived)
    ensures { Said W.contents output.old output.new (codes " huge "
        ++ placed_words huge.now.placed huge.now.exhausted
        ++ counts_text (slice_index huge.now.on)) }
{
    output.say(b" huge ");
    say_placed_words(output, huge.placed, huge.exhausted);
    say_each_count(output, &huge.on);
}

/// Writes it with what first touches of pages of 2 MiB did.
pub fn say_both_arrived<W: Write>(
    output: &mut Watched<W>,
    version: u64,
    done: &Arrived,
    huge: &HugeArrived,
)
    ensures { Said W.contents output.old output.new
        (both_arrival_line version (arrival_in done.now) (huge_arrival_in huge.now)) }
{
    say_arrival(output, version, done);
    say_huge_arrival(output, huge);
    output.say(b"\n");
}

/// Writes how many more pages a node takes, if it fills.
fn say_room<W: Write>(output: &mut Watched<W>, node: usize, room: Option<u64>)
    ensures { Said W.contents output.old output.new (room_text node room) }
{
    if let Some(pages) = room {
        say_number(output, b" N", node as u64);
        say_number(output, b"=", pages);
    }
}

/// Writes how many more pages each node takes that fills.
fn say_each_room<W: Write>(output: &mut Watched<W>, rooms: &Rooms)
    ensures { Said W.contents output.old output.new (rooms_text (room_of rooms.now)) }
{
    for node in 0..256usize {
        say_room(output, node, rooms.at(node as u8));
    }
}

/// Writes how many more pages nodes take, as a line: `room N0=2 N1=0`.
pub fn say_rooms<W: Write>(output: &mut Watched<W>, rooms: &Rooms)
    ensures { Said W.contents output.old output.new (rooms_line (room_of rooms.now)) }
{
    output.say(b"room");
    say_each_room(output, rooms);
    output.say(b"\n");
}
