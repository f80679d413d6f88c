//! Calls of an end that move all of their bytes, or else return `None`.
ghost use Rattle.std.specs.Prelude.{◌≡◌, ◌++◌, ◌+◌, ◌<◌, ◌≤◌, true, IfSome, length, take};
ghost use Rattle.vchan_rule.specs.Seated.{view, IsOpen};
ghost use Rattle.vchan_rule.specs.Ends.{IsSameEnd};

use vchan_lifecycle::{DrainAnswer, drain};
use vchan_packet::{RecvAnswer, SendAnswer, recv, send};
use vchan_rule::End;
use vchan_stream::{ReadAnswer, WriteAnswer, read, write};

/// The letters of the rows that fill a ring.
static LETTERS: [u8; 1025] = [b'a'; 1025];

/// Returns this many letters.
pub(crate) fn letters(count: usize) -> &'static [u8]
    requires { count ≤ 1025 }
    ensures { length result.now ≡ count }
{
    first(&LETTERS, count)
}

/// Returns the first bytes of an array of which the proof sees no more than its length.
fn first(bytes: &[u8; 1025], count: usize) -> &[u8]
    requires { count ≤ 1025 }
    ensures { length result.now ≡ count }
{
    &bytes[..count]
}

/// Writes `most` of the first bytes.
pub(crate) fn write_some(end: &mut End<'_>, bytes: &[u8], most: u32) -> Option<()>
    requires open { IsOpen end.old }
    ensures same { IsSameEnd end.old end.new }
    ensures open { IsOpen end.new }
    ensures sent { IfSome result (λ _. (view end.new).sent ≡ (view end.old).sent ++ take most bytes.now) }
    ensures got { IfSome result (λ _. (view end.new).got ≡ (view end.old).got) }
    ensures counted { IfSome result (λ _. length (view end.new).sent ≡ length (view end.old).sent + most) }
{
    match write(end, bytes) {
        WriteAnswer::Wrote { count } if count == most => Some(()),
        _ => None,
    }
}

/// Writes all bytes.
pub(crate) fn write_all(end: &mut End<'_>, bytes: &[u8]) -> Option<()>
    requires open { IsOpen end.old }
    ensures same { IsSameEnd end.old end.new }
    ensures open { IsOpen end.new }
    ensures sent { IfSome result (λ _. (view end.new).sent ≡ (view end.old).sent ++ bytes.now) }
    ensures got { IfSome result (λ _. (view end.new).got ≡ (view end.old).got) }
{
    match write(end, bytes) {
        WriteAnswer::Wrote { count } if count as usize == bytes.len() => Some(()),
        _ => None,
    }
}

/// Reads until the buffer is full, in one read.
pub(crate) fn read_all(end: &mut End<'_>, buf: &mut [u8]) -> Option<()>
    requires open { IsOpen end.old }
    ensures same { IsSameEnd end.old end.new }
    ensures open { IsOpen end.new }
    ensures sent { IfSome result (λ _. (view end.new).sent ≡ (view end.old).sent) }
    ensures got { IfSome result (λ _. (view end.new).got ≡ (view end.old).got ++ buf.new) }
    ensures long { length buf.new ≡ length buf.old }
{
    match read(end, buf) {
        ReadAnswer::Got { count } if count as usize == buf.len() => Some(()),
        _ => None,
    }
}

/// Drains until the buffer is full, in one drain.
pub(crate) fn drain_all(end: &mut End<'_>, buf: &mut [u8]) -> Option<()>
    requires open { IsOpen end.old }
    requires some { 0 < length buf.old }
    ensures same { IsSameEnd end.old end.new }
    ensures open { IsOpen end.new }
    ensures sent { IfSome result (λ _. (view end.new).sent ≡ (view end.old).sent) }
    ensures got { IfSome result (λ _. (view end.new).got ≡ (view end.old).got ++ buf.new) }
    ensures long { length buf.new ≡ length buf.old }
{
    match drain(end, buf) {
        DrainAnswer::More { count } if count as usize == buf.len() => Some(()),
        _ => None,
    }
}

/// Sends a packet.
pub(crate) fn send_whole(end: &mut End<'_>, bytes: &[u8]) -> Option<()>
    requires open { IsOpen end.old }
    ensures same { IsSameEnd end.old end.new }
    ensures open { IsOpen end.new }
    ensures sent { IfSome result (λ _. (view end.new).sent ≡ (view end.old).sent ++ bytes.now) }
    ensures got { IfSome result (λ _. (view end.new).got ≡ (view end.old).got) }
    ensures counted { IfSome result (λ _. length (view end.new).sent ≡ length (view end.old).sent + length bytes.now) }
{
    match send(end, bytes) {
        SendAnswer::Sent => Some(()),
        _ => None,
    }
}

/// Receives a packet that fills the buffer.
pub(crate) fn receive_whole(end: &mut End<'_>, buf: &mut [u8]) -> Option<()>
    requires open { IsOpen end.old }
    ensures same { IsSameEnd end.old end.new }
    ensures open { IsOpen end.new }
    ensures sent { IfSome result (λ _. (view end.new).sent ≡ (view end.old).sent) }
    ensures got { IfSome result (λ _. (view end.new).got ≡ (view end.old).got ++ buf.new) }
    ensures long { length buf.new ≡ length buf.old }
    ensures counted { IfSome result (λ _. length (view end.new).got ≡ length (view end.old).got + length buf.new) }
{
    match recv(end, buf) {
        RecvAnswer::Got => Some(()),
        _ => None,
    }
}

/// Makes a write that finds no room, at these indices.
pub(crate) fn write_none(end: &mut End<'_>, bytes: &[u8], prod: u32, cons: u32) -> Option<()>
    requires open { IsOpen end.old }
    ensures same { IsSameEnd end.old end.new }
    ensures open { IsOpen end.new }
    ensures sent { IfSome result (λ _. (view end.new).sent ≡ (view end.old).sent) }
    ensures got { IfSome result (λ _. (view end.new).got ≡ (view end.old).got) }
{
    match write(end, bytes) {
        WriteAnswer::Full { prod: p, cons: c } if p == prod && c == cons => Some(()),
        _ => None,
    }
}

/// Makes a read that finds no byte, at these indices.
pub(crate) fn read_none(end: &mut End<'_>, buf: &mut [u8], prod: u32, cons: u32) -> Option<()>
    requires open { IsOpen end.old }
    ensures same { IsSameEnd end.old end.new }
    ensures open { IsOpen end.new }
    ensures sent { IfSome result (λ _. (view end.new).sent ≡ (view end.old).sent) }
    ensures got { IfSome result (λ _. (view end.new).got ≡ (view end.old).got) }
{
    match read(end, buf) {
        ReadAnswer::Empty { prod: p, cons: c } if p == prod && c == cons => Some(()),
        _ => None,
    }
}

/// Makes a drain that finds no byte, at these indices.
pub(crate) fn drain_none(end: &mut End<'_>, buf: &mut [u8], prod: u32, cons: u32) -> Option<()>
    requires open { IsOpen end.old }
    requires some { 0 < length buf.old }
    ensures same { IsSameEnd end.old end.new }
    ensures open { IsOpen end.new }
    ensures sent { IfSome result (λ _. (view end.new).sent ≡ (view end.old).sent) }
    ensures got { IfSome result (λ _. (view end.new).got ≡ (view end.old).got) }
{
    match drain(end, buf) {
        DrainAnswer::NotYet { prod: p, cons: c } if p == prod && c == cons => Some(()),
        _ => None,
    }
}

/// Makes a send that finds too little room, at these indices.
pub(crate) fn send_none(end: &mut End<'_>, bytes: &[u8], prod: u32, cons: u32) -> Option<()>
    requires open { IsOpen end.old }
    ensures same { IsSameEnd end.old end.new }
    ensures open { IsOpen end.new }
    ensures sent { IfSome result (λ _. (view end.new).sent ≡ (view end.old).sent) }
    ensures got { IfSome result (λ _. (view end.new).got ≡ (view end.old).got) }
{
    match send(end, bytes) {
        SendAnswer::NoRoom { prod: p, cons: c } if p == prod && c == cons => Some(()),
        _ => None,
    }
}

/// Makes a recv that finds too few bytes, at these indices.
pub(crate) fn receive_none(end: &mut End<'_>, buf: &mut [u8], prod: u32, cons: u32) -> Option<()>
    requires open { IsOpen end.old }
    ensures same { IsSameEnd end.old end.new }
    ensures open { IsOpen end.new }
    ensures sent { IfSome result (λ _. (view end.new).sent ≡ (view end.old).sent) }
    ensures got { IfSome result (λ _. (view end.new).got ≡ (view end.old).got) }
{
    match recv(end, buf) {
        RecvAnswer::Short { prod: p, cons: c } if p == prod && c == cons => Some(()),
        _ => None,
    }
}

/// Makes a drain that finds the end of the stream.
pub(crate) fn end_stream(end: &mut End<'_>) -> Option<()>
    requires open { IsOpen end.old }
    ensures same { IsSameEnd end.old end.new }
    ensures open { IsOpen end.new }
    ensures sent { (view end.new).sent ≡ (view end.old).sent }
    ensures drained { IfSome result (λ _. (view end.new).drained ≡ true) }
{
    match drain(end, &mut [0; 8]) {
        DrainAnswer::AllRead => Some(()),
        _ => None,
    }
}

/// Checks that some bytes are the wanted ones.
pub(crate) fn check_bytes(bytes: &[u8], wanted: &[u8]) -> Option<()>
    ensures { IfSome result (λ _. bytes.now ≡ wanted.now) }
{
    if bytes == wanted { Some(()) } else { None }
}
