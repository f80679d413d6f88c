//! How far the tasks have come, and how a worker waits until one moves something.
use crossbeam_utils::CachePadded;
use std::sync::Wait;
use std::sync::atomic::{AtomicU64, Ordering};
use std::time::Duration;
use std::{hint, thread};

/// The longest sleep, in milliseconds. A wake that is missed costs this much time, but never a run.
const LONGEST: u64 = 1;

/// How often a worker looks for a move before it sleeps: some ten microseconds long, as a turn takes that moves a
/// small ring. To sleep and to be woken takes at least as long.
const LOOKS: u32 = 16_384;

/// What the workers share beside the queue. Nothing is claimed of its counts.
#[derive(Drop)]
pub(crate) struct Progress {
    // How many tasks there are.
    tasks: u64,
    // How many workers may be awake and find nothing to do: one for each processor.
    processors: u64,
    counts: CachePadded<Counts>,
}

#[derive(Drop)]
struct Counts {
    // How many tasks are done.
    done: AtomicU64,
    // How often a turn has moved something; workers sleep on it.
    moves: AtomicU64,
    // How many workers have begun.
    begun: AtomicU64,
    // How many workers sleep, or are about to.
    asleep: AtomicU64,
    // How many of them sleep until a turn moves something.
    parked: AtomicU64,
    // Workers that are one too many sleep on it. It stays 0.
    spare: AtomicU64,
}

impl Progress {
    /// Returns the progress of this many tasks, none of which is done, on this many processors.
    pub(crate) fn new(tasks: u64, processors: u64) -> Progress {
        Progress {
            tasks,
            processors,
            counts: CachePadded::new(Counts {
                done: AtomicU64::new(0),
                moves: AtomicU64::new(0),
                begun: AtomicU64::new(0),
                asleep: AtomicU64::new(0),
                parked: AtomicU64::new(0),
                spare: AtomicU64::new(0),
            }),
        }
    }

    /// Returns how many tasks aren't done.
    pub(crate) fn left(&self) -> u64 {
        let done = self.counts.done.load(Ordering::SeqCst);
        self.tasks.saturating_sub(done)
    }

    /// Returns how often a turn has moved something.
    pub(crate) fn moves(&self) -> u64 {
        self.counts.moves.load(Ordering::SeqCst)
    }

    /// Notes that a worker begins.
    pub(crate) fn begin(&self) {
        self.counts.begun.fetch_add(1, Ordering::SeqCst);
    }

    /// Notes that a turn has moved something, and that its task can be taken again.
    pub(crate) fn note_move(&self) {
        self.counts.moves.fetch_add(1, Ordering::SeqCst);
        if self.counts.parked.load(Ordering::SeqCst) > 0 {
            self.counts.moves.wake_all();
        }
    }

    /// Notes that a task is done.
    pub(crate) fn note_done(&self) {
        self.counts.done.fetch_add(1, Ordering::SeqCst);
        self.note_move();
        if self.left() == 0 {
            self.counts.spare.wake_all();
        }
    }

    /// Sleeps for 1 ms, or until all tasks are done, if more workers are awake than there are processors. For a
    /// worker whose turn moved nothing: a turn more would keep a processor from one that moves something.
    pub(crate) fn give_room<R: Wait>(&self, rt: &R) {
        let others = self.counts.asleep.fetch_add(1, Ordering::SeqCst);
        let begun = self.counts.begun.load(Ordering::SeqCst);
        if begun.saturating_sub(others) > self.processors && self.left() > 0 {
            self.counts
                .spare
                .park_timeout(rt, 0, Duration::from_millis(LONGEST));
        }
        self.counts.asleep.fetch_sub(1, Ordering::SeqCst);
    }

    /// Yields once, if `yields` is set, looks for a while whether something moves, and then sleeps while
    /// the count of moves is `seen`, for at most 1 ms. The last worker awake does none of this: only its
    /// turns can bring what the others wait for.
    pub(crate) fn wait<R: Wait>(&self, rt: &R, seen: u64, yields: bool) {
        let others = self.counts.asleep.fetch_add(1, Ordering::SeqCst);
        if others.saturating_add(1) < self.counts.begun.load(Ordering::SeqCst) {
            if yields {
                thread::yield_now();
            }
            if !self.moves_soon(seen) {
                self.park(rt, seen);
            }
        }
        self.counts.asleep.fetch_sub(1, Ordering::SeqCst);
    }

    // Looks for a while whether the count of moves is `seen` no more.
    fn moves_soon(&self, seen: u64) -> bool {
        for _look in 0..LOOKS {
            if self.moves() != seen {
                return true;
            }
            hint::spin_loop();
        }
        false
    }

    // Sleeps while the count of moves is `seen`, for at most 1 ms.
    fn park<R: Wait>(&self, rt: &R, seen: u64) {
        self.counts.parked.fetch_add(1, Ordering::SeqCst);
        let word = (seen & 0xffff_ffff) as u32;
        self.counts
            .moves
            .park_timeout(rt, word, Duration::from_millis(LONGEST));
        self.counts.parked.fetch_sub(1, Ordering::SeqCst);
    }
}
