//! The turns of a worker that moved nothing.
use crate::progress::Progress;
use std::sync::Wait;

/// How many turns in a row moved nothing, while no other worker's turn did.
#[derive(Clone, Copy)]
pub(crate) struct QuietTurns {
    // The count of moves since which no turn has moved anything.
    seen: u64,
    turns: u64,
    // Whether the worker has yielded since then.
    yielded: bool,
}

impl QuietTurns {
    /// Returns that there was no such turn yet since this count of moves.
    pub(crate) fn since(seen: u64) -> QuietTurns {
        QuietTurns {
            seen,
            turns: 0,
            yielded: false,
        }
    }

    /// Begins anew if the count of moves has changed.
    pub(crate) fn look(&mut self, moves: u64) {
        if moves != self.seen {
            *self = QuietTurns::since(moves);
        }
    }

    /// Counts one more turn that moved nothing. After as many as tasks are left, it waits; before, it only
    /// gives room.
    pub(crate) fn one_more<R: Wait>(&mut self, rt: &R, progress: &Progress, left: u64) {
        self.turns = self.turns.saturating_add(1);
        if self.turns >= left {
            self.wait(rt, progress);
        } else {
            progress.give_room(rt);
        }
    }

    /// Waits until something moves, but not for long.
    pub(crate) fn wait<R: Wait>(&mut self, rt: &R, progress: &Progress) {
        progress.wait(rt, self.seen, !self.yielded);
        self.yielded = true;
    }
}
