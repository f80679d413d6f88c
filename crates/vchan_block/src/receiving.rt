//! A recv that waits.
ghost use Rattle.std.specs.Prelude.{◌≡◌, ◌≢◌, ◌↔◌, ℕ, length};
ghost use Rattle.vchan_rule.specs.Seated.{view, IsOpen};
ghost use Rattle.vchan_rule.specs.Ends.{IsSameEnd};

use crate::ring::read_size;
use crate::wait::wait;
use std::sync::Wait;
use std::time::Clock;
use vchan_packet::{self as packet, RecvAnswer};
use vchan_rule::End;

/// The answer of a recv that waits.
#[derive(Clone, Copy, Debug, PartialEq, Eq)]
pub enum BlockRecv {
    /// The whole buffer was filled, by the last round.
    Got,
    /// The buffer has room for `len` bytes, and the ring that the end reads holds at most `size`.
    TooLarge { len: usize, size: u32 },
    /// The last round found too few bytes, and then the peer shut. No byte was got.
    PeerClosed,
}

ghost use Rattle.vchan_block.specs.Rounds.{HasReceived, EndsInRecv, IsTooLargeToReceive, received_from};

/// Fills the whole buffer with one packet, and waits for its bytes if there are too few. It may wait for
/// ever, if the peer never writes.
///
/// Returns `TooLarge` if and only if the buffer has room for more than the ring holds; no event is made
/// then. Returns `PeerClosed` only if a round found the peer shut.
pub fn recv<R: Wait + Clock>(rt: &R, end: &mut End<'_>, buf: &mut [u8]) -> BlockRecv
    requires { IsOpen end.old }
    ensures same { IsSameEnd end.old end.new }
    ensures open { IsOpen end.new }
    ensures view { view end.new ≡ received_from (view end.old) result buf.new }
    ensures long { length buf.new ≡ length buf.old }
    ensures kept { result ≢ BlockRecv.Got → buf.new ≡ buf.old }
    ensures large { (len size : ℕ) → (result ≡ BlockRecv.TooLarge len size) ↔ IsTooLargeToReceive end.old buf.old len size }
    ensures rounds { HasReceived buf.old buf.new end.old end.new result }
    ensures trail { EndsInRecv end.new result buf.new }
{
    let size = read_size(end);
    if buf.len() > size as usize {
        return BlockRecv::TooLarge {
            len: buf.len(),
            size,
        };
    }
    'rounds: for _ in rt.forever() {
        match packet::recv(end, buf) {
            RecvAnswer::Got => return BlockRecv::Got,
            RecvAnswer::Short { prod: _, cons: _ } => {}
            RecvAnswer::PeerClosed => return BlockRecv::PeerClosed,
        }
        wait(rt, end);
    }
    unreachable!()
}
