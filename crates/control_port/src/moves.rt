//! How often a port has moved something.

/// Counts how often a port has moved something that its other side may wait for: a connect, bytes in or out,
/// the end. No contract speaks of it.
#[derive(Drop)]
pub(crate) struct Moves {
    count: u64,
}

impl Moves {
    /// Returns a count of nothing.
    pub(crate) fn none() -> Moves {
        Moves { count: 0 }
    }

    /// Counts one move more if there was one.
    pub(crate) fn note(&mut self, moved: bool) {
        if moved {
            self.count = self.count.wrapping_add(1);
        }
    }

    pub(crate) fn count(&self) -> u64 {
        self.count
    }
}
