//! The two sides of the page, each on a thread of its own.
ghost use Rattle.std.specs.Prelude.{◌≡◌, ◌<◌, [], length, take, vec_len};
ghost use Rattle.ring_words.specs.declared.page.Role.TheVariants.{Server, Client};
ghost use Rattle.vchan_rule.specs.Seated.{view, last_view, IsOpen};
ghost use Rattle.vchan_rule.specs.Ends.{IsSameEnd};
ghost use Rattle.vchan_lifecycle.specs.Ended.{IsEndOf};
ghost use Rattle.ring_example.specs.Sides.{IsNewEnd};

use std::sync::Wait;
use std::time::Clock;
use vchan_block::{BlockRead, read, write};
use vchan_lifecycle::{DrainAnswer, connect, drain, retire};
use vchan_rule::{End, Retired};

/// Connects as the client, writes the bytes and retires.
pub fn write_and_retire<R: Wait + Clock>(rt: &R, mut end: End<'_>, bytes: &[u8]) -> Retired
    requires { IsNewEnd Client end }
    ensures { IsEndOf end.entry.page Client result }
{
    match connect(&mut end) {
        Ok(()) => {
            let _ = write(rt, &mut end, bytes);
            retire(end)
        }
        Err(_) => retire(end),
    }
}

/// What the server read, and its end.
#[derive(Drop)]
pub struct Received {
    /// The end, which is done with its page.
    pub end: Retired,
    /// The bytes.
    pub bytes: Vec<u8>,
}

/// Reads as the server what comes first and has room in the buffer, and retires.
pub fn read_and_retire<R: Wait + Clock>(rt: &R, mut end: End<'_>, mut buf: Vec<u8>) -> Received
    requires end { IsNewEnd Server end }
    requires some { 0 < vec_len buf }
    ensures end { IsEndOf end.entry.page Server result.end }
    ensures got { (last_view result.end).got ≡ result.bytes.items }
{
    let count = first_bytes(rt, &mut end, buf.as_mut_slice());
    buf.truncate(count);
    Received {
        end: retire(end),
        bytes: buf,
    }
}

/// Waits until bytes come, and answers how many came. A peer that closes may leave some, which a drain
/// finds.
fn first_bytes<R: Wait + Clock>(rt: &R, end: &mut End<'_>, buf: &mut [u8]) -> usize
    requires open { IsOpen end.old }
    requires some { 0 < length buf.old }
    requires none { (view end.old).got ≡ [] }
    ensures same { IsSameEnd end.old end.new }
    ensures open { IsOpen end.new }
    ensures long { length buf.new ≡ length buf.old }
    ensures got { (view end.new).got ≡ take result buf.new }
{
    match read(rt, end, buf) {
        BlockRead::Got { count } => count as usize,
        BlockRead::PeerClosed => match drain(end, buf) {
            DrainAnswer::More { count } => count as usize,
            _ => 0,
        },
    }
}
