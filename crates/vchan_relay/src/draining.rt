//! Getting bytes piece by piece into one buffer.
ghost use Rattle.std.specs.Prelude.{◌≡◌, ◌≤◌, ◌<◌, ◌+◌, ◌-◌, ℕ, List, length, take};
ghost use Rattle.ring_words.specs.declared.page.Role.TheVariants.{Server};
ghost use Rattle.vchan_rule.specs.Seated.{view, IsOpen};
ghost use Rattle.vchan_rule.specs.Ends.{IsSameEnd};
ghost use Rattle.vchan_lifecycle.specs.Ended.{HasEnded, MayHaveEnded, drained_count};
ghost use Rattle.vchan_relay.specs.Owes.{ReaderHands};
ghost use Rattle.vchan_relay.specs.Tasks.{Gives};
ghost use Rattle.vchan_relay.specs.Turns.{HasDrained};

use crate::task::HopDone;
use qrexec_frame::Bytes;
use vchan_lifecycle::{DrainAnswer, drain, retire};
use vchan_rule::End;

/// Drains into a buffer, after the bytes that it has already.
pub(crate) fn drain_behind(end: &mut End<'_>, room: &mut [u8], count: usize) -> DrainAnswer
    requires open { IsOpen end.old }
    requires some { count < length room.old }
    requires got { (view end.old).got ≡ take count room.old }
    ensures same { IsSameEnd end.old end.new }
    ensures open { IsOpen end.new }
    ensures long { length room.new ≡ length room.old }
    ensures few { (more : ℕ) → result ≡ DrainAnswer.More more → count + more ≤ length room.old }
    ensures got { (view end.new).got ≡ take (count + drained_count result) room.new }
    ensures ended { MayHaveEnded result (view end.new) }
    ensures drained { (bytes : List ℕ) × (length bytes ≡ length room.old - count) × HasDrained end.old result bytes end.new }
{
    drain(end, &mut room[count..])
}

/// Retires the reader's end, and returns the bytes that it got.
pub(crate) fn hand_back(end: End<'_>, mut room: Vec<u8>, count: usize) -> HopDone
    requires open { IsOpen end }
    requires server { end.side.role ≡ Server }
    requires few { count ≤ length room.items }
    requires got { (view end).got ≡ take count room.items }
    requires ended { count < length room.items → HasEnded (view end) }
    ensures hands { ReaderHands end.entry.page (length room.items) result }
    ensures gives { Gives end.entry result }
{
    room.truncate(count);
    HopDone::Read {
        end: retire(end),
        bytes: Bytes::of(room),
    }
}
