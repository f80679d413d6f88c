ghost use Rattle.std.specs.Prelude.{◌≡◌, ℕ, ◌<◌, ◌≤◌, List, length, take, drop, IfOk, OnOk, OnErr, IsSome, Option};
ghost use Rattle.std.specs.Io.KnownBytes.{IsAtEnd};
ghost use Rattle.vchan_io.specs.Counts.{Rose};
ghost use Rattle.vchan_io.specs.Streams.{Takes};

use crate::faults::Failed;

/// A place that bytes are read from, with a count of the faults that it met.
///
/// As with `std::io::Read`, a read may give fewer bytes than there is room for.
pub trait Source {
    // The bytes that are left, if contracts see them.
    ghost left: { Self → Option (List ℕ) };

    // How many faults the source met, as a `u64` that stays at its greatest number.
    ghost faults: { Self → ℕ };

    /// Reads into the front of `buf` and returns how many bytes were read.
    ///
    /// `Ok(0)` with room in `buf` is the end of input. With `Ok` the count of faults stays as it was. Returns
    /// `Failed` only if the count rose (or stands at its greatest number); nothing was taken then. A source
    /// whose bytes contracts don't see may change the rest of `buf`.
    fn read(&mut self, buf: &mut [u8]) -> Result<usize, Failed>
        ensures within { IfOk result (λ count. count ≤ length buf.old) }
        ensures taken { IfOk result (λ count. Takes (left self.old) (left self.new) (take count buf.new)) }
        ensures rest { IfOk result (λ count. IsSome (left self.old) → drop count buf.new ≡ drop count buf.old) }
        ensures end { IfOk result (λ count. count ≡ 0 → 0 < length buf.old → IsAtEnd (left self.new)) }

        ensures unfaulted { OnOk result (faults self.new ≡ faults self.old) }
        ensures failed { OnErr result (Rose (faults self.old) (faults self.new)) }
        ensures none_taken { OnErr result (left self.new ≡ left self.old) }
        ensures untouched { OnErr result (IsSome (left self.old) → buf.new ≡ buf.old) }

        ensures counted { faults self.old ≤ faults self.new };
}
