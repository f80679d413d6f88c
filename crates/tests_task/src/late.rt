//! A gate that lets a task in only once the others have made many turns.
use service_gate::Gate;
use std::sync::atomic::{AtomicU64, Ordering};
use std::thread;

/// The most looks at the gate by the task that comes late.
const MOST_LOOKS: u32 = 100_000_000;

/// Lets each turn of a task in only after the others have made `wanted` turns. The task needs a worker of its
/// own.
#[derive(Drop)]
pub struct Late {
    task: u32,
    wanted: u64,
    turns: AtomicU64,
}

impl Late {
    /// Makes the gate of a task, by its place, that waits for `wanted` turns of the others.
    pub fn of(task: u32, wanted: u64) -> Late {
        Late {
            task,
            wanted,
            turns: AtomicU64::new(0),
        }
    }
}

impl Gate for Late {
    fn enter(&self, task: u32) {
        if task != self.task {
            self.turns.fetch_add(1, Ordering::SeqCst);
            return;
        }
        for _ in 0..MOST_LOOKS {
            if self.turns.load(Ordering::SeqCst) >= self.wanted {
                return;
            }
            thread::yield_now();
        }
    }
}
