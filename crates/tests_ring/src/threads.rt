//! Two threads that move bytes through one ring.
ghost use Rattle.std.specs.Prelude.{◌≡◌, ◌≤◌, length};
ghost use Rattle.vchan_rule.specs.Seated.{IsOpen};
ghost use Rattle.vchan_rule.specs.Ends.{IsSameEnd};

use std::alloc::{AllocError, Global};
use std::thread;
use vchan_lifecycle::{DrainAnswer, drain};
use vchan_rule::End;
use vchan_stream::{ReadAnswer, WriteAnswer, read, write};

/// How often a thread looks for its peer's bytes before it gives up.
const MOST_TRIES: u32 = 1_000_000;

/// Writes one byte, and reads until it has the peer's. Returns `None` if it tried too often.
pub fn exchange(end: &mut End<'_>, byte: u8) -> Option<u8>
    requires { IsOpen end.old }
    ensures { IsOpen end.new × IsSameEnd end.old end.new }
{
    let mut sent = false;
    let mut got = [0; 1];
    'tries: for _ in 0..MOST_TRIES {
        if !sent {
            sent = write(end, &[byte]) == WriteAnswer::Wrote { count: 1 };
        } else if let ReadAnswer::Got { count: _ } = read(end, &mut got) {
            return Some(got[0]);
        }
        thread::yield_now();
    }
    None
}

/// Sends all bytes in pieces of odd lengths, from 1 to 1,999. Returns false if the peer shut before, or the
/// ring stayed full too long.
pub fn send_all(end: &mut End<'_>, data: &[u8]) -> bool
    requires { IsOpen end.old }
    ensures { IsOpen end.new × IsSameEnd end.old end.new }
{
    let mut sent = 0;
    let mut half = 0;
    'pieces: for _ in 0..u64::MAX {
        if sent == data.len() {
            return true;
        }
        let most = (data.len() - sent).min(2 * half + 1);
        match write(end, &data[sent..sent + most]) {
            WriteAnswer::Wrote { count } => {
                sent += count as usize;
                half = (half + 151) % 1000;
            }
            WriteAnswer::Full { prod: _, cons: _ } => thread::yield_now(),
            WriteAnswer::PeerClosed => return false,
        }
    }
    false
}

/// Drains all bytes, until the stream ends, in pieces of at most 777 bytes.
pub fn receive_all(end: &mut End<'_>, alloc: Global) -> Result<Vec<u8>, AllocError>
    requires { IsOpen end.old }
    ensures { IsOpen end.new × IsSameEnd end.old end.new }
{
    let mut all = Vec::new(alloc);
    let mut buf = [0; 777];
    'drains: for _ in 0..u64::MAX {
        match drain(end, &mut buf) {
            DrainAnswer::More { count } => all.extend_from_slice(&buf[..count as usize])?,
            DrainAnswer::NotYet { prod: _, cons: _ } => thread::yield_now(),
            DrainAnswer::AllRead | DrainAnswer::PeerGone { prod: _, cons: _ } => return Ok(all),
        }
    }
    Ok(all)
}
