//! Who wakes a thread that waits. No promise speaks of it: a wake may be missed, or come for nothing.
use std::thread::Parker;

/// Who wakes a thread that waits at one end of a channel.
#[derive(Clone, Copy)]
pub(crate) enum Waking<'p> {
    /// Nobody, so it looks again from time to time.
    Nobody,
    /// The thread at the other end, which sleeps at `peer` as this one does at `own`.
    Peer { own: &'p Parker, peer: &'p Parker },
}

impl Waking<'_> {
    /// Wakes the thread at the other end, or keeps it from its next sleep.
    pub(crate) fn wake_peer(&self) {
        match self {
            Waking::Nobody => {}
            Waking::Peer { own: _, peer } => peer.unpark(),
        }
    }
}

/// Where the two threads of a pipe sleep.
#[derive(Drop)]
pub(crate) struct Sleepers {
    writer: Parker,
    reader: Parker,
}

impl Sleepers {
    /// Makes the places of two threads that are awake.
    pub(crate) fn new() -> Sleepers {
        Sleepers {
            writer: Parker::new(),
            reader: Parker::new(),
        }
    }

    /// Tells the writing thread where it sleeps, and whom it wakes.
    pub(crate) fn for_writer(&self) -> Waking<'_> {
        Waking::Peer {
            own: &self.writer,
            peer: &self.reader,
        }
    }

    /// Tells the reading thread where it sleeps, and whom it wakes.
    pub(crate) fn for_reader(&self) -> Waking<'_> {
        Waking::Peer {
            own: &self.reader,
            peer: &self.writer,
        }
    }
}
