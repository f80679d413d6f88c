//! The run of a pool.
ghost use Rattle.std.specs.Prelude.{◌≡◌, ◌≤◌, ◌<◌, ◌^◌, vec_len, IfOk};
ghost use Rattle.std.specs.List.{AllZip};

use crate::account::{Account, blank_answers};
use crate::enqueue::enqueue_all;
use crate::task::PoolTask;
use service_gate::Gate;
use std::alloc::Global;
use std::sync::Wait;
use std::thread::Threads;
use vchan_io::Memory;

/// The greatest number of workers of a pool.
pub const MOST_WORKERS: u32 = 16;

/// Runs each task to its end by this many workers, and returns one `Done` for each task, in the
/// order of the tasks, each as its task owed.
///
/// A worker takes one task at a time from a queue, calls `gate.enter` with the task's place, makes
/// one turn and gives the task back. After the workers have ended, the calling thread turns the tasks
/// that are left in rounds, one turn each.
///
/// All memory for answers is taken before the workers start. Nothing is promised of time, of
/// fairness, or that two workers ever run at once.
///
/// # Errors
///
/// `Memory` if memory runs out; the tasks are dropped then. No other.
pub fn run_pool<T: PoolTask, G: Gate, R: Threads + Wait + Sync>(
    rt: &R,
    alloc: Global,
    tasks: Vec<T>,
    workers: u32,
    gate: &G,
) -> Result<Vec<T::Done>, Memory>
    requires some_worker { 1 ≤ workers }
    requires few_workers { workers ≤ MOST_WORKERS }
    requires few_tasks { vec_len tasks < 2 ^ 32 }
    ensures { IfOk result (λ dones. AllZip T.owes tasks.items dones.items) }
{
    let count = tasks.len();
    let dones = Vec::with_capacity(alloc, count)?;
    if count == 0 {
        return Ok(dones);
    }
    let answers = blank_answers(alloc, count)?;
    let (queue, pass) = enqueue_all(rt, alloc, tasks)?;
    let mut account = Account { pass, answers };
    let hired = account.hire(alloc, &queue, workers, count)?;
    let back = account.employ(rt, &queue, gate, count as u64, hired)?;
    account.take_all_back(&queue, back);
    account.finish(rt, &queue, gate);
    Ok(account.into_dones(dones))
}
