//! What the two sides of a call have alike.
ghost use Rattle.std.specs.Prelude.{◌≡◌, ◌≤◌, ◌++◌, ◌↔◌, List, ℕ, [], None, IsSome, length, take, IsOk, IfOk, OnOk, OnErr};
ghost use types.Logic.{sem};
ghost use Rattle.std.specs.Io.BufRead.{Rests};
ghost use Rattle.qrexec_data.specs.Reading.{IsByBytes};
ghost use Rattle.qrexec_data.specs.Half.{HalfOf, IsSameHalf, Keeps, Lends, Ends};

use crate::outcome::Outcome;
use vchan_io::Memory;

/// A side of a call, as its owner moves its bytes.
///
/// It only reads and writes bytes. Its owner gives it what came on a channel, and tells it how many
/// of the bytes borrowed by `front` have gone. After memory ran out in `take` or `front`, the side
/// is spent: what it got can still be asked for, and nothing else is claimed of it.
pub trait Half: Drop {
    ghost half: { HalfOf Self };

    /// Reads the next bytes that came. If there is an outcome, it changes nothing.
    ///
    /// # Errors
    ///
    /// `Memory` if memory runs out; the bytes got are what they were.
    fn take(&mut self, piece: &[u8]) -> Result<(), Memory>
        ensures over { IsSome (half.outcome self.old) → IsOk result × (self.new ≡ self.old) }
        ensures got { half.outcome self.old ≡ None → OnOk result (half.got self.new ≡ half.got self.old ++ piece.now) }
        ensures no_memory { OnErr result (half.got self.new ≡ half.got self.old) }
        ensures same { IsSameHalf half self.old self.new }
        ensures stands { (owed : half.Owed) (sent : List ℕ) → half.StandsFor owed self.old sent → OnOk result (half.StandsFor owed self.new sent) }
        ensures bytes { IsByBytes (half.outcome self.old) → IsByBytes (half.outcome self.new) };

    /// Borrows the bytes that go out next. There are none if and only if the side is still.
    ///
    /// # Errors
    ///
    /// `Memory` if memory runs out; no other.
    fn front(&mut self) -> Result<&[u8], Memory>
        ensures* after { sem 𝓛 (Rests Self.row self.entry (λ new. IfOk result (λ piece. Lends half self.old new piece.now))) }
        ensures nothing { (owed : half.Owed) (sent : List ℕ) → half.StandsFor owed self.old sent → IfOk result (λ piece. (piece.now ≡ []) ↔ half.IsStill self.old) };

    /// Drops the first `count` of the bytes borrowed last, which have gone.
    fn advance(&mut self, count: usize)
        requires { count ≤ length (half.waiting self.old) }
        ensures gone { self.new ≡ half.after_gone count self.old }
        ensures keeps { Keeps half self.old self.new }
        ensures bytes { IsByBytes (half.outcome self.old) → IsByBytes (half.outcome self.new) }
        ensures stands { (owed : half.Owed) (sent : List ℕ) → half.StandsFor owed self.old sent → half.StandsFor owed self.new (sent ++ take count (half.waiting self.old)) };

    /// Tells that the other side has closed the channel: the outcome is `Closed` if there was none.
    fn closed(&mut self)
        ensures outcome { self.new ≡ half.ended Outcome.Closed self.old }
        ensures ends { Ends half Outcome.Closed self.old self.new };

    /// Tells that the other side has gone: the outcome is `Gone` if there was none.
    fn gone(&mut self)
        ensures outcome { self.new ≡ half.ended Outcome.Gone self.old }
        ensures ends { Ends half Outcome.Gone self.old self.new };

    /// Returns how the call came out, or `None` if nothing has decided that yet. A side that has come
    /// out is still.
    fn outcome(&self) -> Option<Outcome>
        ensures is { result ≡ half.outcome self.now }
        ensures still { IsSome (half.outcome self.now) → half.IsStill self.now };

    /// Returns the bytes of all pieces that were taken while there was no outcome.
    fn got(&self) -> &[u8]
        ensures { result.now ≡ half.got self.now };
}
