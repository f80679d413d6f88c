//! What a thread does between two tries.
use crate::waking::Waking;
use std::sync::Wait;
use std::time::{Clock, Duration};
use std::{hint, thread};

/// How many tries are made without giving up the processor: as long as a running peer takes for a round. With
/// half as many, a pipe with small rings sleeps on an idle machine; with twice as many, it is slower on a busy
/// one.
const SPINS: u32 = 512;

/// The shortest and the longest sleep of a thread that nobody wakes, in microseconds. A sleep takes ten to
/// twenty of them on a processor, so a second of waiting takes two to three milliseconds.
const SHORTEST: u64 = 16;

const LONGEST: u64 = 8_000;

/// The longest sleep of a thread that its peer wakes, in microseconds. A missed wake costs at most this.
const LONGEST_PARK: u64 = 1_000;

/// The pauses of one wait. At first there are none, then the thread sleeps: until its peer wakes it, or, if
/// nobody does, each time twice as long. It never yields, which costs a whole slice of time if others want the
/// processor.
#[derive(Clone, Copy)]
pub(crate) struct Pauses {
    tries: u32,
    sleep: u64,
}

impl Pauses {
    /// Makes the pauses of a wait that begins.
    pub(crate) fn new() -> Pauses {
        Pauses {
            tries: 0,
            sleep: SHORTEST,
        }
    }

    /// Pauses once.
    pub(crate) fn pause<R: Wait + Clock>(&mut self, rt: &R, waking: Waking<'_>) {
        if self.tries < SPINS {
            hint::spin_loop();
            self.tries = self.tries.saturating_add(1);
            return;
        }
        match waking {
            Waking::Nobody => {
                thread::sleep(rt, Duration::from_micros(self.sleep));
                self.sleep = self.sleep.saturating_mul(2).min(LONGEST);
            }
            Waking::Peer { own, peer: _ } => {
                own.park_timeout(rt, Duration::from_micros(LONGEST_PARK));
            }
        }
    }
}
