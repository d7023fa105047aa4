//! The listing of a space's ranges.
ghost use Rattle.std.specs.Prelude.{◌≡◌, [], OnOk, OnErr, List, true, false};
ghost use Rattle.numa_lines.specs.Watching.{has_failed, held_in};
ghost use Rattle.numa_lines.specs.Written.{Said};
ghost use Rattle.numa_maps.specs.Listing.{IsListing, listing_in};
ghost use Rattle.numa_space.specs.Standing.{StandsFor};
ghost use Rattle.numa_requests.specs.declared.command.Command.{Command};

use crate::line::{LineText, write_line};
use crate::resident::Resident;
use numa_lines::Watched;
use numa_space::Space;
use std::io::Write;

/// A write failed: the text was written in part, or not at all.
#[derive(Clone, Copy, Debug, PartialEq, Eq)]
pub struct WriteFault;

/// Writes the listing as [`write_maps`] does, but may leave the last part of it held back.
pub fn say_maps<W: Write>(space: &Space, task: u32, resident: &Resident, output: &mut Watched<W>)
    ensures { Said W.contents output.old output.new (listing_in space.now task resident.now) }
{
    let ranges = space.range_iter();
    let mut line = LineText::new();
    for range in ranges {
        write_line(
            &mut line,
            space.policy_at(task, range.first),
            resident,
            &range,
        );
        output.say(line.as_str().as_bytes());
    }
}

/// Writes one line for each range of the space, in ascending order, in the form of numa_maps
/// (numa(7), /proc/PID/numa_maps):
///
/// - the address of the range's first page in lower-case hexadecimal, with leading zeros to at
///   least eight digits;
/// - a space, and the policy that serves a fault of the task there, with its effective set: the
///   range's if it is live, else the task's if it is live, else `default`;
/// - if the range has placed pages, ` anon=` and their number; for each node that has some of them,
///   in ascending order, ` N<node>=` and their number; and ` kernelpagesize_kB=4`. Of pages of
///   2 MiB these are counted, each on the node of the lowest of its parts that are placed, and the
///   size is ` kernelpagesize_kB=2048`. Placed pages of all tasks are shown, but no placement on an
///   unmapped page;
/// - a line feed.
///
/// Other fields of numa_maps are left out. It doesn't allocate. Lines are handed to the writer
/// whole, after what was written before. The time depends on the number of ranges and placements,
/// not of pages.
///
/// # Errors
/// `WriteFault`: this or an earlier write failed. The first part of the listing was written, or
/// nothing after an earlier failure.
pub fn write_maps<W: Write>(
    space: &Space,
    task: u32,
    resident: &Resident,
    output: &mut Watched<W>,
) -> Result<(), WriteFault>
    ensures says { Said W.contents output.old output.new
        (listing_in space.now task resident.now) }
    ensures empty { held_in output.new ≡ [] }
    ensures ok { OnOk result (has_failed output.new ≡ false) }
    ensures err { OnErr result (has_failed output.new ≡ true) }
    ensures meaning { (history : List Command) → StandsFor space.now history
        → IsListing space.now.machine history task resident.now
        (listing_in space.now task resident.now) }
{
    // Tells the proof that the ranges are in ascending order and maximal.
    let _ = space.range_iter();
    say_maps(space, task, resident, output);
    let Ok(()) = output.hand_over() else {
        return Err(WriteFault);
    };
    Ok(())
}
