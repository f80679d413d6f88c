//! What a turn of a session did, and which turns are passed over.
ghost use Rattle.std.specs.Prelude.{◌≡◌, ◌↔◌, ◌+◌, ◌<◌, ◌||◌, not, IsTrue, true, false};
ghost use Rattle.channel_session.specs.Turning.{turned_by};

/// The greatest number of turns that are passed over between two. Source: this project's own.
const MOST: u8 = 7;

/// What a turn of a session did.
#[derive(Clone, Copy, Debug, PartialEq, Eq)]
pub enum Turned {
    /// Bytes came or went, or the call is over.
    Moved,
    /// The turn was made, and found nothing to move.
    Quiet,
    /// The turn was passed over: the one before moved nothing, and the peer hasn't signalled since.
    Passed,
}

/// Which turns a session passes over: none while turns move bytes, and then those in which its peer
/// hasn't signalled, up to seven between two. A peer that signals when it must has nothing to tell
/// without a signal; one that doesn't is heard in every eighth turn.
#[derive(Drop)]
pub(crate) struct Pause {
    // Whether the last turn that was made moved nothing.
    quiet: bool,
    // How many turns were passed over since then.
    passed: u8,
}

impl Pause {
    /// Returns a pause that passes over no turn.
    pub(crate) fn none() -> Pause
        ensures { (result.quiet ≡ false) × (result.passed ≡ 0) }
    {
        Pause {
            quiet: false,
            passed: 0,
        }
    }

    /// Returns whether the next turn is made even if the peer hasn't signalled.
    pub(crate) fn is_over(&self) -> bool
        ensures { result ≡ false → (self.now.quiet ≡ true) × (self.now.passed < 7) }
    {
        !self.quiet || self.passed >= MOST
    }

    /// Notes a turn that was passed over, of at most seven.
    pub(crate) fn pass(&mut self)
        requires { self.old.passed < 7 }
        ensures { self.new ≡ record self.old { passed = self.old.passed + 1 } }
    {
        self.passed += 1;
    }

    /// Returns whether the last turn that was made moved something, or there was none yet.
    pub(crate) fn moved(&self) -> bool
        ensures { result ≡ not self.now.quiet }
    {
        !self.quiet
    }

    /// Notes a turn that was made, and whether bytes came or the stream ended, and whether bytes
    /// went.
    pub(crate) fn note(&mut self, came: bool, went: bool) -> Turned
        ensures made { (self.new.quiet ≡ not (came || went)) × (self.new.passed ≡ 0) }
        ensures turned { result ≡ turned_by (came || went) }
    {
        self.passed = 0;
        self.quiet = !(came || went);
        if self.quiet {
            return Turned::Quiet;
        }
        Turned::Moved
    }
}
