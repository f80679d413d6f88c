//! A write that waits.
ghost use Rattle.std.specs.Prelude.{◌≡◌, ◌+◌, ℕ, length};
ghost use Rattle.vchan_rule.specs.Seated.{view, IsOpen};
ghost use Rattle.vchan_rule.specs.Ends.{IsSameEnd};

use crate::wait::wait_waking;
use crate::waking::Waking;
use std::sync::Wait;
use std::time::Clock;
use vchan_rule::End;
use vchan_stream::{self as stream, WriteAnswer};

/// The answer of a write that waits.
#[derive(Clone, Copy, Debug, PartialEq, Eq)]
pub enum BlockWrite {
    /// All bytes were sent: `before` bytes before the last round, and `last` bytes by it.
    Wrote { before: usize, last: u32 },
    /// The last round found the peer shut, and `before` bytes were sent before it.
    PeerClosed { before: usize },
}

ghost use Rattle.vchan_block.specs.Rounds.{EndsInWrite, Writes, wrote_to};

/// Sends all bytes, and waits for room if there is none. It may wait for ever, if the peer never reads.
///
/// Returns `PeerClosed` only if a round found the peer shut.
pub fn write<R: Wait + Clock>(rt: &R, end: &mut End<'_>, bytes: &[u8]) -> BlockWrite
    requires { IsOpen end.old }
    ensures same { IsSameEnd end.old end.new }
    ensures open { IsOpen end.new }
    ensures view { view end.new ≡ wrote_to (view end.old) result bytes.now }
    ensures whole { (before last : ℕ) → result ≡ BlockWrite.Wrote before last → before + last ≡ length bytes.now }
    ensures rounds { Writes bytes.now 0 end.old end.new result }
    ensures trail { EndsInWrite end.new result bytes.now }
{
    write_waking(rt, end, bytes, Waking::Nobody)
}

/// Does the same as [`write`], and wakes the thread at the other end after each round that moved bytes.
pub(crate) fn write_waking<R: Wait + Clock>(
    rt: &R,
    end: &mut End<'_>,
    bytes: &[u8],
    waking: Waking<'_>,
) -> BlockWrite
    requires { IsOpen end.old }
    ensures same { IsSameEnd end.old end.new }
    ensures open { IsOpen end.new }
    ensures view { view end.new ≡ wrote_to (view end.old) result bytes.now }
    ensures whole { (before last : ℕ) → result ≡ BlockWrite.Wrote before last → before + last ≡ length bytes.now }
    ensures rounds { Writes bytes.now 0 end.old end.new result }
    ensures trail { EndsInWrite end.new result bytes.now }
{
    let mut moved = 0;
    'rounds: for _ in rt.forever() {
        match stream::write(end, &bytes[moved..]) {
            WriteAnswer::Wrote { count } => {
                let before = moved;
                moved += count as usize;
                waking.wake_peer();
                if moved == bytes.len() {
                    return BlockWrite::Wrote {
                        before,
                        last: count,
                    };
                }
            }
            WriteAnswer::Full { prod: _, cons: _ } => {}
            WriteAnswer::PeerClosed => return BlockWrite::PeerClosed { before: moved },
        }
        wait_waking(rt, end, waking);
    }
    unreachable!()
}
