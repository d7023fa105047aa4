//! The storm itself: a desk, a crew, a policy thread, and the report.
ghost use Rattle.std.specs.Prelude.{◌≡◌, false, true, IfOk, IfSome, IsErrOf};
ghost use Rattle.std.specs.Io.KnownBytes.{Keeps};
ghost use Rattle.std.specs.List.{All};
ghost use Rattle.numa_fault.specs.Crew.{IsCrew};
ghost use Rattle.numa_fault.specs.declared.worker.FaultWorker.{FaultWorker};
ghost use Rattle.numa_lines.specs.Watching.{has_failed};
ghost use Rattle.numa_lines.specs.Written.{Wrote, WroteFront};
ghost use Rattle.numa_stress.specs.Storm.{status_of, text_of};
ghost use Rattle.numa_stress.specs.declared.report.StormReport.{StormReport};

use crate::compare::{all_listed, exhausted, placed, spaces};
use crate::crew::{joined, serve, workers};
use crate::gate::Together;
use crate::report::{StormReport, say_report};
use crate::setting::{FIRST_COMMANDS, POLICIES, command, limits, machine, requests};
use numa_fault::{Answer, FaultWorker};
use numa_lines::{RunFault, Watched};
use numa_pool::{Closed, PoolSeat, Pools};
use numa_publish::{Desk, DeskName, Receipt, SharedDesk};
use numa_requests::Request;
use std::alloc::Global;
use std::io::Write;
use std::marker::Brand;
use std::sync::Wait;
use std::thread::{Threads, join};

/// Submits command number `place`. `None` if it isn't published.
fn submit<K: DeskName, R: Wait>(rt: &R, desk: &SharedDesk<K>, place: u32) -> Option<Receipt>
    ensures { IfSome result (λ receipt. receipt.desk ≡ K.desk) }
{
    desk.submit(rt, &command(place)?).ok()
}

/// Submits the policies that change while the workers run, and returns whether each was published.
fn change_policies<K: DeskName, R: Wait>(rt: &R, desk: &SharedDesk<K>, gate: &Together) -> bool {
    let mut all = true;
    for place in 0..POLICIES {
        gate.begin_policy(place);
        all = all && submit(rt, desk, FIRST_COMMANDS + place).is_some();
    }
    all
}

/// The number of taken frames.
fn taken(closed: &Closed) -> u64 {
    closed
        .taken
        .iter()
        .fold(0u64, |sum, frames| sum.wrapping_add(u64::from(*frames)))
}

/// Pools of the machine's frames, and the first seat at them. `None` if a call is refused.
fn opened(alloc: Global) -> Option<(Pools, PoolSeat)>
    ensures { IfSome result (λ opened. opened.1.table ≡ opened.0.table) }
{
    let machine = machine(alloc)?;
    let opened = Pools::open(alloc, &machine).ok();
    drop(machine);
    opened
}

/// Publishes eight policies in a separate thread while the crew serves the requests. Returns the
/// answers, and the seats of the crew, joined.
fn served<K: DeskName + Send + Sync, R: Threads + Wait + Sync>(
    rt: &R,
    alloc: Global,
    desk: &SharedDesk<K>,
    pools: &Pools,
    crew: Vec<FaultWorker>,
    requests: &[Request],
    gate: &Together,
) -> Option<(Vec<Answer>, PoolSeat)>
    requires { All (λ (w : FaultWorker). w.seat.table ≡ pools.now.table) crew.items }
    ensures { IfSome result (λ served. served.1.table ≡ pools.now.table) }
{
    let (all_published, (crew, answers)) = join(
        rt,
        move || change_policies(rt, desk, gate),
        move || -> (Vec<FaultWorker>, Option<Vec<Answer>>)
            requires { All (λ (w : FaultWorker). w.seat.table ≡ pools.now.table) crew.items }
            ensures { All (λ (w : FaultWorker). w.seat.table ≡ pools.entry.now.table)
                result.0.items }
        { serve(rt, alloc, crew, pools, requests, gate) },
    );
    let seat = joined(pools, crew);
    if !all_published {
        return None;
    }
    Some((answers?, seat?))
}

/// Publishes the map and the first policy, and then eight policies in a separate thread while the
/// crew serves the requests. Returns the answers, and how the pools were closed.
fn play<K: DeskName + Send + Sync, R: Threads + Wait + Sync>(
    rt: &R,
    alloc: Global,
    desk: &SharedDesk<K>,
    count: u32,
    requests: &[Request],
    gate: &Together,
) -> Option<(Vec<Answer>, Closed)> {
    submit(rt, desk, 0)?;
    let receipt = submit(rt, desk, 1)?;
    let (pools, seat) = opened(alloc)?;
    let Some(crew) = workers(rt, alloc, desk, &receipt, &pools, seat, count) else {
        drop(pools);
        return None;
    };
    let Some((answers, seat)) = served(rt, alloc, desk, &pools, crew, requests, gate) else {
        drop(pools);
        return None;
    };
    Some((answers, pools.close(seat)))
}

/// A storm on this desk. `None` if a call is refused.
fn play_on<K: DeskName + Send + Sync, R: Threads + Wait + Sync>(
    rt: &R,
    alloc: Global,
    desk: &SharedDesk<K>,
    count: u32,
) -> Option<StormReport>
    ensures { IfSome result (λ report. report.workers ≡ count) }
{
    let requests = requests(alloc)?;
    let spaces = spaces(alloc)?;
    let gate = Together::new(count);
    let (answers, closed) = play(rt, alloc, desk, count, &requests, &gate)?;
    Some(StormReport {
        workers: count,
        placed: placed(&answers),
        exhausted: exhausted(&answers),
        plans_match: all_listed(&spaces, &requests, &answers),
        held: taken(&closed),
        is_sound: closed.alone && gate.is_sound(),
    })
}

/// A storm on this desk, which is ended in any case.
fn play_to_the_end<K: DeskName + Send + Sync, R: Threads + Wait + Sync>(
    rt: &R,
    alloc: Global,
    desk: Desk,
    count: u32,
) -> Option<StormReport>
    requires desk { desk.desk ≡ K.desk }
    requires bounds { desk.bounds ≡ K.bounds }
    ensures { IfSome result (λ report. report.workers ≡ count) }
{
    let shared = SharedDesk::<K>::new(desk);
    let report = play_on(rt, alloc, &shared, count);
    shared.into_desk().end();
    report
}

/// A storm on a new desk. `None` if a call is refused.
fn storm_once<R: Threads + Wait + Sync>(rt: &R, alloc: Global, count: u32) -> Option<StormReport>
    requires { IsCrew count }
    ensures { IfSome result (λ report. report.workers ≡ count) }
{
    let machine = machine(alloc)?;
    let desk = Desk::new(alloc, machine, limits()?, count).ok()?;
    play_to_the_end::<Brand, R>(rt, alloc, desk, count)
}

/// Lets `count` workers place 320 pages while eight policies are published, and compares each
/// placement with the slow resolution of its version. Writes the five lines of the report; no write
/// may have failed before. Returns the exit status: 0 if all went as it must on any schedule, else
/// 1.
///
/// # Errors
/// `Write`: a write failed or took no byte, after which nothing more is written. `Memory`: out of
/// memory, or another call was refused, before anything is written.
pub fn storm<R: Threads + Wait + Sync, W: Write>(
    rt: &R,
    alloc: Global,
    count: u32,
    output: &mut Watched<W>,
) -> Result<u8, RunFault>
    requires crew { IsCrew count }
    requires writer { has_failed output.old ≡ false }

    // The five lines were written.
    ensures ok { IfOk result (λ status. (report : StormReport) × (report.workers ≡ count)
        × (status ≡ status_of report) × (has_failed output.new ≡ false)
        × Wrote W.contents output.old output.new (text_of report)) }

    // The first part of them was written, and nothing more.
    ensures write { IsErrOf result RunFault.Write → (report : StormReport)
        × (report.workers ≡ count) × (has_failed output.new ≡ true)
        × WroteFront W.contents output.old output.new (text_of report) }

    // Nothing was written.
    ensures memory { IsErrOf result RunFault.Memory → (has_failed output.new ≡ false)
        × Keeps (W.contents output.old.inner) (W.contents output.new.inner) }
    ensures read { IsErrOf result RunFault.Read → ⊥ }
{
    let Ok(()) = output.gather(alloc) else {
        return Err(RunFault::Memory);
    };
    let Some(report) = storm_once(rt, alloc, count) else {
        return Err(RunFault::Memory);
    };
    say_report(output, &report);
    let Ok(()) = output.hand_over() else {
        return Err(RunFault::Write);
    };
    Ok(report.status())
}
