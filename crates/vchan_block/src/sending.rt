//! A send that waits.
ghost use Rattle.std.specs.Prelude.{◌≡◌, ◌↔◌, ℕ};
ghost use Rattle.vchan_rule.specs.Seated.{view, IsOpen};
ghost use Rattle.vchan_rule.specs.Ends.{IsSameEnd};

use crate::ring::written_size;
use crate::wait::wait;
use std::sync::Wait;
use std::time::Clock;
use vchan_packet::{self as packet, SendAnswer};
use vchan_rule::End;

/// The answer of a send that waits.
#[derive(Clone, Copy, Debug, PartialEq, Eq)]
pub enum BlockSend {
    /// All bytes were sent, by the last round.
    Sent,
    /// The packet has `len` bytes, and the ring that the end writes holds at most `size`.
    TooLarge { len: usize, size: u32 },
    /// The last round found the peer shut. No byte was sent.
    PeerClosed,
}

ghost use Rattle.vchan_block.specs.Rounds.{HasSent, EndsInSend, IsTooLargeToSend, sent_to};

/// Sends all bytes as one packet, and waits if there is too little room for them. It may wait for ever, if
/// the peer never reads.
///
/// Returns `TooLarge` if and only if the packet has more bytes than the ring holds; no event is made then.
/// Returns `PeerClosed` only if a round found the peer shut.
pub fn send<R: Wait + Clock>(rt: &R, end: &mut End<'_>, bytes: &[u8]) -> BlockSend
    requires { IsOpen end.old }
    ensures same { IsSameEnd end.old end.new }
    ensures open { IsOpen end.new }
    ensures view { view end.new ≡ sent_to (view end.old) result bytes.now }
    ensures large { (len size : ℕ) → (result ≡ BlockSend.TooLarge len size) ↔ IsTooLargeToSend end.old bytes.now len size }
    ensures rounds { HasSent bytes.now end.old end.new result }
    ensures trail { EndsInSend end.new result bytes.now }
{
    let size = written_size(end);
    if bytes.len() > size as usize {
        return BlockSend::TooLarge {
            len: bytes.len(),
            size,
        };
    }
    'rounds: for _ in rt.forever() {
        match packet::send(end, bytes) {
            SendAnswer::Sent => return BlockSend::Sent,
            SendAnswer::NoRoom { prod: _, cons: _ } => {}
            SendAnswer::PeerClosed => return BlockSend::PeerClosed,
        }
        wait(rt, end);
    }
    unreachable!()
}
