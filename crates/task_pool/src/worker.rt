//! The workers: each makes turns until every task is done.
ghost use Rattle.std.specs.Prelude.{◌≡◌, ◌≤◌, ◌<◌, [], length, vec_len, vec_capacity, IfOk, All};
ghost use Rattle.crossbeam_queue.specs.Passes.{view, IsPassOf, ruled_capacity};
ghost use Rattle.task_pool.specs.Results.{Keeps};

use crate::progress::Progress;
use crate::queue::{TaskPass, TaskQueue};
use crate::quiet::QuietTurns;
use crate::task::PoolTask;
use crate::turn::try_turn;
use crate::waiting::{Finished, Tried};
use service_gate::Gate;
use std::sync::Wait;

/// What a worker holds: its pass, and the results of the tasks that it brought to their end.
#[derive(Drop)]
pub(crate) struct Worker<T: PoolTask> {
    /// Its pass of the queue.
    pub pass: TaskPass<T>,
    /// The results, with room for one of each task.
    pub finished: Vec<Finished<T::Done>>,
}

/// Makes turns until every task is done.
///
/// A worker waits for the next move, without a task, if it found none, or if it has made as many
/// turns in a row as tasks are left, while no turn of any worker moved anything. If no move comes
/// in time, it makes one more turn, and waits again. After any turn that moved nothing it gives room
/// if more workers are awake than there are processors.
pub(crate) fn work<T: PoolTask, G: Gate, R: Wait>(
    rt: &R,
    queue: &TaskQueue<T>,
    gate: &G,
    progress: &Progress,
    worker: Worker<T>,
) -> Worker<T>
    requires pass { IsPassOf queue.now worker.pass }
    requires keeps { Keeps T.owes (view worker.pass).enqueued worker.finished.items (view worker.pass) }
    requires room { length (view worker.pass).enqueued ≤ vec_capacity worker.finished }
    requires queue { length (view worker.pass).enqueued < ruled_capacity queue.now }
    ensures pass { IsPassOf queue.now result.pass }
    ensures keeps { Keeps T.owes (view worker.pass).enqueued result.finished.items (view result.pass) }
{
    let Worker {
        mut pass,
        mut finished,
    } = worker;
    progress.begin();
    let mut quiet = QuietTurns::since(progress.moves());
    for _ in rt.forever() {
        let left = progress.left();
        if left == 0 {
            break;
        }
        quiet.look(progress.moves());
        match try_turn(rt, queue, gate, &mut pass) {
            Tried::Idle => quiet.wait(rt, progress),
            Tried::Again { moved: true } => progress.note_move(),
            Tried::Again { moved: false } => quiet.one_more(rt, progress, left),
            Tried::Over(result) => {
                finished.push_reserved(result);
                progress.note_done();
            }
        }
    }
    Worker { pass, finished }
}
