//! Putting the tasks into the queue.
ghost use Rattle.std.specs.Prelude.{◌≡◌, ◌<◌, ◌^◌, ◌++◌, [], length, vec_len, IfOk};
ghost use Rattle.crossbeam_queue.specs.Passes.{view, IsPassOf, ruled_capacity};
ghost use Rattle.task_pool.specs.Holding.{unused, all_parts};

use crate::pool::MOST_WORKERS;
use crate::queue::{Enqueuing, TaskPass, TaskQueue};
use crate::task::PoolTask;
use crate::waiting::Waiting;
use std::alloc::{AllocError, Global};
use std::sync::Wait;

/// Returns a queue with the tasks at their places, and the pass with all parts.
pub(crate) fn enqueue_all<T: PoolTask, R: Wait>(
    rt: &R,
    alloc: Global,
    tasks: Vec<T>,
) -> Result<(TaskQueue<T>, TaskPass<T>), AllocError>
    requires some { 0 < vec_len tasks }
    requires few { vec_len tasks < 2 ^ 32 }
    ensures pass { IfOk result (λ q. IsPassOf q.0 q.1 × (view q.1 ≡ unused all_parts tasks.items)) }
    ensures room { IfOk result (λ q. length (view q.1).enqueued < ruled_capacity q.0) }
{
    // A worker that was stopped while it took a task holds its slot. In a queue of just this size the others would
    // need that slot at their next push, and wait for it.
    let (queue, mut pass) = TaskQueue::ruled(alloc, tasks.len() * 2 + MOST_WORKERS as usize)?;
    let mut place = 0u32;
    for task in tasks {
        match queue.push_as::<Enqueuing<T>, R>(rt, &mut pass, Waiting { place, task }) {
            Ok(()) => place += 1,
            Err(_) => unreachable!(),
        }
    }
    Ok((queue, pass))
}
