//! A gate that lets the tasks of a run in one at a time, in a stated order.
use service_gate::Gate;
use std::sync::atomic::{AtomicU64, Ordering};
use std::thread;

/// How often a waiting task looks at an unchanged gate before the task that has the next turn counts as done.
const PATIENCE: u32 = 20_000;

/// The most looks at the gate for one turn.
const MOST_LOOKS: u32 = 100_000_000;

/// Lets tasks in by the order of their places, over and over, each only when the turn before is over. A turn
/// is over when its task comes again, so each task needs a worker of its own, and there are at most 64. After
/// the first round, the turn of a task that doesn't come for long is left out, and so are its later turns
/// until it comes.
#[derive(Drop)]
pub struct InOrder {
    order: &'static [u32],
    // Twice the number of the turns that are over, and one more while the next one goes on.
    turns: AtomicU64,
    // A bit for each task that is no longer waited for and hasn't come since.
    away: AtomicU64,
}

/// Returns the bit of a task.
fn bit(task: u32) -> u64 {
    1u64.rotate_left(task)
}

impl InOrder {
    /// Makes the gate of an order of places.
    pub fn of(order: &'static [u32]) -> InOrder {
        InOrder {
            order,
            turns: AtomicU64::new(0),
            away: AtomicU64::new(0),
        }
    }

    /// Returns the task that is let in next, or is in.
    fn task_at(&self, turns: u64) -> Option<u32> {
        let length = self.order.len().max(1) as u64;
        self.order.get((turns / 2 % length) as usize).copied()
    }

    /// Returns whether the task that has this turn is no longer waited for.
    fn is_away(&self, turns: u64) -> bool {
        let away = self.away.load(Ordering::SeqCst);
        self.task_at(turns)
            .is_some_and(|task| away & bit(task) != 0)
    }

    /// Returns whether a turn may be left out. No turn of the first round may: no task is done then, and a
    /// worker may start late.
    fn may_leave_out(&self, turns: u64) -> bool {
        turns / 2 >= self.order.len() as u64
    }

    /// Goes on to the next turn, if nothing has changed since.
    fn pass(&self, turns: u64) {
        let next = (turns | 1).wrapping_add(1);
        let _ = self
            .turns
            .compare_exchange(turns, next, Ordering::SeqCst, Ordering::SeqCst);
    }

    /// Leaves a turn out.
    fn leave_out(&self, turns: u64) {
        if let Some(task) = self.task_at(turns) {
            self.away.fetch_or(bit(task), Ordering::SeqCst);
        }
        self.pass(turns);
    }

    /// Lets the task in if it is its turn. Returns whether it is in.
    fn lets_in(&self, task: u32, turns: u64) -> bool {
        turns % 2 == 0
            && self.task_at(turns) == Some(task)
            && self
                .turns
                .compare_exchange(turns, turns | 1, Ordering::SeqCst, Ordering::SeqCst)
                .is_ok()
    }
}

impl Gate for InOrder {
    fn enter(&self, task: u32) {
        self.away.fetch_and(!bit(task), Ordering::SeqCst);
        let mut seen = self.turns.load(Ordering::SeqCst);
        if seen % 2 == 1 && self.task_at(seen) == Some(task) {
            self.pass(seen);
        }
        let mut looks = 0u32;
        for _ in 0..MOST_LOOKS {
            let turns = self.turns.load(Ordering::SeqCst);
            if self.lets_in(task, turns) {
                return;
            }
            looks = if turns == seen {
                looks.saturating_add(1)
            } else {
                0
            };
            if self.may_leave_out(turns) && (looks > PATIENCE || self.is_away(turns)) {
                self.leave_out(turns);
            }
            seen = turns;
            thread::yield_now();
        }
    }
}
