ghost use Rattle.std.specs.Prelude.{◌≡◌, ℕ, ◌<◌, ◌≤◌, List, length, take, IfOk, OnOk, OnErr, Option};
ghost use Rattle.vchan_io.specs.Counts.{Rose};
ghost use Rattle.vchan_io.specs.Streams.{Appends};

use crate::faults::Failed;

/// A place that bytes are written to, with a count of the faults that it met.
///
/// As with `std::io::Write`, a write may take fewer bytes than it is given.
pub trait Sink {
    // The bytes that the sink holds, if contracts see them.
    ghost held: { Self → Option (List ℕ) };

    // How many faults the sink met, as a `u64` that stays at its greatest number.
    ghost faults: { Self → ℕ };

    /// Appends the front of `piece` and returns how many bytes were taken: at least one if `piece` has any.
    ///
    /// With `Ok` the count of faults stays as it was. Returns `Failed` only if the count rose (or stands at its
    /// greatest number); nothing was appended then.
    fn write(&mut self, piece: &[u8]) -> Result<usize, Failed>
        ensures within { IfOk result (λ count. count ≤ length piece.now) }
        ensures some { IfOk result (λ count. 0 < length piece.now → 0 < count) }
        ensures appended { IfOk result (λ count. Appends (held self.old) (held self.new) (take count piece.now)) }

        ensures unfaulted { OnOk result (faults self.new ≡ faults self.old) }
        ensures failed { OnErr result (Rose (faults self.old) (faults self.new)) }
        ensures none_appended { OnErr result (held self.new ≡ held self.old) }

        ensures counted { faults self.old ≤ faults self.new };
}
