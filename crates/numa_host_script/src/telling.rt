//! Writing what pages of a host's processes did, and how many more each node takes.
ghost use Rattle.std.specs.Prelude.{◌≡◌, IsSomeAnd, MatchOption, None, Option, length};
ghost use Rattle.numa_lines.specs.Written.{Said};
ghost use Rattle.numa_page_state.specs.Outcomes.{rooms_of};
ghost use Rattle.numa_host_script.specs.Hosts.{Hosting};
ghost use Rattle.numa_host_pages.specs.Homes.{HostLying};
ghost use Rattle.numa_host_pages.specs.Standing.{HostLies};
ghost use Rattle.numa_host_pages.specs.Summed.{sum_in};
ghost use Rattle.numa_host_script.specs.Paging.{arrived_text, memory_at, moved_text, pages_at};
ghost use Rattle.numa_host_script.specs.Paging.{shown_text};
ghost use Rattle.numa_host_script.specs.Standing.{RunsAs};
ghost use Rattle.numa_huge.specs.Moves.{HugeMemory};
ghost use Rattle.numa_huge.specs.Tallies.{HasTold, HaveArrived};
ghost use Rattle.numa_page_state.specs.Lying.{Arrival, LastMove};
ghost use Rattle.numa_page_state.specs.Standing.{ArrivedAs, LastAs};
ghost use Rattle.numa_run.specs.ArrivedTexts.{arrival_with, rooms_line};
ghost use Rattle.numa_run.specs.MovedTexts.{all_flows_text, both_line};

use crate::lines::Shows;
use crate::running::RunningHost;
use numa_host_pages::HostPages;
use numa_huge::HugePages;
use numa_lines::Watched;
use numa_page_state::arrived::untouched;
use numa_page_state::state::still;
use numa_page_state::{Arrived, Last};
use numa_placed::Rooms;
use numa_run::arrived::{say_arrived, say_both_arrived, say_rooms};
use numa_run::moved::{say_added, say_counted_at, say_flows_from, say_last};
use numa_run::pools::say_pools;
use std::io::Write;

/// Writes what the last move of a process did, at the version of the host.
pub(crate) fn say_last_in<W: Write>(running: &RunningHost, process: u32, output: &mut Watched<W>)
    ensures { (at : Hosting) → RunsAs running.now at → Said W.contents output.old output.new
        (both_line (length at.history) (pages_at at process).last (memory_at at process)) }
{
    let version = running.host.version();
    let huge = running.pages.huge.pages_of(process);
    match running.pages.pages_of(process) {
        Some(kept) => say_both_in(output, version, kept.last(), huge),
        None => say_both_in(output, version, &Last::Nodes(still()), huge),
    }
}

/// Writes what the last move of pages of both sizes did, if some have 2 MiB.
fn say_both_in<W: Write>(
    output: &mut Watched<W>,
    version: u64,
    last: &Last,
    huge: Option<&HugePages>,
)
    ensures { (done : LastMove) (memory : Option HugeMemory) → LastAs last.now done
        → MatchOption huge.entry (memory ≡ None) (λ kept. IsSomeAnd memory
        (λ memory. HasTold kept.now.last memory.told))
        → Said W.contents output.old output.new (both_line version done memory) }
{
    match huge {
        Some(kept) => say_added(output, version, last, &kept.last),
        None => say_last(output, version, last),
    }
}

/// Writes how many more pages nodes take, whichever process they are of.
fn say_rooms_in<W: Write>(running: &RunningHost, output: &mut Watched<W>)
    ensures { (at : Hosting) → RunsAs running.now at → Said W.contents output.old output.new
        (rooms_line (rooms_of at.lying.room)) }
{
    match running.pages.rooms() {
        Some(rooms) => say_rooms(output, rooms),
        None => say_rooms(output, &Rooms::endless()),
    }
}

/// Writes how many pages the last move of the host took from each node to each, all its processes
/// together.
fn say_sums<W: Write>(pages: &HostPages, output: &mut Watched<W>)
    ensures { (at : HostLying) → HostLies pages.now at → Said W.contents output.old output.new
        (all_flows_text (sum_in at).flow) }
{
    for from in 0..256usize {
        say_flows_from(output, from, &pages.flow_from(from as u8));
    }
}

/// Writes what the last move of the host did, all its processes together, at the version of the
/// host: `v4: moved 5 left 0 N2->N3=5`.
fn say_moved_in<W: Write>(running: &RunningHost, output: &mut Watched<W>)
    ensures { (at : Hosting) → RunsAs running.now at → Said W.contents output.old output.new
        (moved_text at) }
{
    let all = running.pages.last();
    say_counted_at(output, running.host.version(), all.moved, all.left);
    say_sums(&running.pages, output);
    output.say(b"\n");
}

/// Writes what is shown of the pages of a host.
pub(crate) fn say_shown_in<W: Write>(running: &RunningHost, shows: Shows, output: &mut Watched<W>)
    ensures { (at : Hosting) → RunsAs running.now at → Said W.contents output.old output.new
        (shown_text shows at) }
{
    match shows {
        Shows::Move => say_moved_in(running, output),
        Shows::Pools => say_pools(output, running.pages.huge.pools()),
        Shows::Rooms => say_rooms_in(running, output),
    }
}

/// Writes what the last first touches of a process did, at the version of the host.
pub(crate) fn say_arrived_in<W: Write>(running: &RunningHost, process: u32, output: &mut Watched<W>)
    ensures { (at : Hosting) → RunsAs running.now at → Said W.contents output.old output.new
        (arrived_text at process) }
{
    let version = running.host.version();
    let huge = running.pages.huge.pages_of(process);
    match running.pages.pages_of(process) {
        Some(kept) => say_arrived_with(output, version, kept.arrived(), huge),
        None => say_arrived_with(output, version, &untouched(), huge),
    }
}

/// Writes what first touches of pages of both sizes did, if a span had some of 2 MiB.
fn say_arrived_with<W: Write>(
    output: &mut Watched<W>,
    version: u64,
    done: &Arrived,
    huge: Option<&HugePages>,
)
    ensures { (arrival : Arrival) (memory : Option HugeMemory) → ArrivedAs done.now arrival
        → MatchOption huge.entry (memory ≡ None) (λ kept. IsSomeAnd memory
        (λ memory. HaveArrived kept.now.arrived memory.arrived))
        → Said W.contents output.old output.new (arrival_with memory version arrival) }
{
    let Some(kept) = huge else {
        say_arrived(output, version, done);
        return;
    };
    match &kept.arrived {
        Some(arrived) => say_both_arrived(output, version, done, arrived),
        None => say_arrived(output, version, done),
    }
}
