//! One turn: a task leaves the queue, makes its turn and comes back, or is done.
ghost use Rattle.std.specs.Prelude.{◌<◌, length};
ghost use Rattle.crossbeam_queue.specs.Passes.{view, IsPassOf, ruled_capacity};
ghost use Rattle.task_pool.specs.Results.{Tries};

use crate::queue::{Giving, Taking, TaskPass, TaskQueue};
use crate::task::{PoolTask, Turn};
use crate::waiting::{Finished, Tried, Waiting};
use service_gate::Gate;
use std::sync::Wait;

/// Takes the task that has waited longest, makes one turn of it after the gate, and gives it back, unless it is
/// done.
pub(crate) fn try_turn<T: PoolTask, G: Gate, R: Wait>(
    rt: &R,
    queue: &TaskQueue<T>,
    gate: &G,
    pass: &mut TaskPass<T>,
) -> Tried<T::Done>
    requires pass { IsPassOf queue.now pass.old }
    requires part { 0 < (view pass.old).parts }
    requires room { length (view pass.old).enqueued < ruled_capacity queue.now }
    ensures pass { IsPassOf queue.now pass.new }
    ensures tried { Tries T.owes T.turns (view pass.old) result (view pass.new) }
{
    let Some(taken) = queue.pop_as::<Taking<T>, R>(rt, pass) else {
        return Tried::Idle;
    };
    let Waiting { place, task } = taken;
    gate.enter(place);
    match task.turn() {
        Turn::Done(done) => Tried::Over(Finished { place, done }),
        Turn::Again(task) => {
            let moved = task.moved();
            match queue.push_as::<Giving<T>, R>(rt, pass, Waiting { place, task }) {
                Ok(()) => Tried::Again { moved },
                Err(_) => unreachable!(),
            }
        }
    }
}
