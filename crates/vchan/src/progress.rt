//! The line that shows on a terminal how far a run is.
//!
//! No promise of `top` speaks of it: for `top` it is a gate like any other, and one that holds nobody.
use service_gate::Gate;
use std::sync::atomic::{AtomicU64, Ordering};
use std::time::{Clock, Instant};

/// The number of turns after which the clock is read again.
const TURNS_BETWEEN_LOOKS: u64 = 256;

/// A gate that holds nobody. If it is turned on, it writes to standard error, once a second, how many turns
/// were entered so far, and the seconds. Each such line replaces the one before.
// A line ends with a carriage return and is shorter than any line of a report, so a report's line covers it.
#[derive(Drop)]
pub(crate) struct Progress<'r, R> {
    rt: &'r R,
    /// When the run began, or `None` if the gate writes nothing.
    begun: Option<Instant>,
    turns: AtomicU64,
    /// The second of the last line that was written, or 0.
    told: AtomicU64,
}

impl<'r, R: Clock + Eprint> Progress<'r, R> {
    /// Makes the gate of a run that begins now.
    pub(crate) fn new(rt: &'r R, tells: bool) -> Progress<'r, R> {
        let begun = if tells { Instant::now(rt).ok() } else { None };
        Progress {
            rt,
            begun,
            turns: AtomicU64::new(0),
            told: AtomicU64::new(0),
        }
    }

    /// Counts a turn, and writes a line if the clock is read and a second has passed since the last line.
    fn count(&self, begun: Instant) {
        let turns = self.turns.fetch_add(1, Ordering::SeqCst).wrapping_add(1);
        if turns % TURNS_BETWEEN_LOOKS != 0 {
            return;
        }
        let Ok(since) = begun.elapsed(self.rt) else {
            return;
        };
        let seconds = since.as_secs();
        if self.told.swap(seconds, Ordering::SeqCst) < seconds {
            let _ = eprint!(self.rt; "{turns} turns, {seconds} s\x1b[K\r");
        }
    }

    /// Removes the last line, if one was written.
    pub(crate) fn end(&self) {
        if self.told.load(Ordering::SeqCst) > 0 {
            let _ = eprint!(self.rt; "\x1b[K");
        }
    }
}

impl<'r, R: Clock + Eprint + Sync> Gate for Progress<'r, R> {
    fn enter(&self, _task: u32) {
        if let Some(begun) = self.begun {
            self.count(begun);
        }
    }
}
