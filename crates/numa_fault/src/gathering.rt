//! Room for a crew's answers, and gathering them.
ghost use Rattle.std.specs.Prelude.{◌≡◌, ℕ, ◌<◌, ◌≤◌, [], length, reverse, slice_index_or, OnOk};
ghost use Rattle.std.specs.Prelude.{vec_capacity};
ghost use Rattle.std.specs.List.{All};
ghost use Rattle.numa_fault.specs.Crew.{column, SameParts};
ghost use Rattle.numa_fault.specs.Turns.{share};
ghost use Rattle.numa_fault.specs.Worker.{KeepsNothing};
ghost use Rattle.numa_fault.specs.declared.worker.FaultWorker.{FaultWorker};

use crate::answer::Answer;
use crate::worker::FaultWorker;
use std::alloc::{AllocError, Global};

/// Lends each worker room for `count` answers.
pub(crate) fn make_room(
    alloc: Global,
    workers: &mut [FaultWorker],
    answers: usize,
) -> Result<(), AllocError>
    ensures same { SameParts workers.old workers.new }
    ensures room { OnOk result
        (All (λ (w : FaultWorker). (w.kept ≡ []) × (w.room ≡ answers)) workers.new) }
{
    for w in 0..workers.len() {
        let room = Vec::with_capacity(alloc, answers)?;
        workers[w].keep(room);
    }
    Ok(())
}

/// Gathers the workers' answers in the order of the requests. Those of a single worker already are
/// in that order and aren't copied.
pub(crate) fn gather(workers: &mut [FaultWorker], count: usize, answers: &mut Vec<Answer>)
    requires workers { 0 < length workers.old }
    requires room { (answers.old.items ≡ []) × (count ≤ vec_capacity answers.old) }
    requires kept { (w : ℕ) (d : FaultWorker) → w < length workers.old
        → length (slice_index_or workers.old w d).kept ≡ share (length workers.old) w count }
    ensures same { SameParts workers.old workers.new }
    ensures all { length answers.new.items ≡ count }
    ensures each { (w : ℕ) (d : FaultWorker) → w < length workers.old
        → column (length workers.old) w answers.new.items
        ≡ reverse (slice_index_or workers.old w d).kept }
{
    if workers.len() == 1 {
        workers[0].hand_over(answers);
        return;
    }
    let mut turn = 0;
    for _ in 0..count {
        let Some(answer) = workers[turn].hand_out() else {
            unreachable!()
        };
        let Ok(()) = answers.push(answer) else {
            unreachable!()
        };
        turn += 1;
        if turn == workers.len() {
            turn = 0;
        }
    }
}

/// Gives the room of each worker back.
pub(crate) fn give_back(workers: &mut [FaultWorker])
    ensures same { SameParts workers.old workers.new }
    ensures nothing { All KeepsNothing workers.new }
{
    for w in 0..workers.len() {
        workers[w].keep_nothing();
    }
}
