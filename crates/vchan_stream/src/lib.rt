//! The bytes of a channel as a stream: a write and a read that never wait, on one end of a shared
//! page.
//!
//! Everything that sends a stream over a channel rests on it. The calls are `libxenvchan_write` and
//! `libxenvchan_read` of libxenvchan's io.c in non-blocking mode.
#![tactic(auto)]

ghost use Rattle.std.specs.Prelude.{◌≡◌, ◌↔◌, ◌≤◌, ℕ, min, length};
ghost use Rattle.vchan_protocol.specs.declared.call.Call.TheVariants.{Write, Read};
ghost use Rattle.vchan_protocol.specs.Table.Apply.{filled};
ghost use Rattle.vchan_protocol.specs.Table.Calls.{Trace};
ghost use Rattle.vchan_protocol.specs.Answering.Causes.{WriteCause, ReadCause};
ghost use Rattle.vchan_protocol.specs.History.Core.{standing_of, bytes_loaded};
ghost use Rattle.vchan_protocol.specs.Answering.Loads.{loads_of};
ghost use Rattle.vchan_protocol.specs.OneEnd.OneCall.{MadeOneCall, bytes_in};
ghost use Rattle.vchan_rule.specs.Seated.{view, IsOpen};
ghost use Rattle.vchan_rule.specs.Ends.{IsSameEnd};
ghost use Rattle.vchan_rule.specs.Called.{most_asked};
ghost use Rattle.vchan_stream.specs.Stream.{AnswersWrite, AnswersRead, write_told, read_told, wrote_to, read_from};

use vchan_core::{Answer, Call};
use vchan_rule::End;

/// The answer of a write.
#[derive(Clone, Copy, Debug, PartialEq, Eq)]
pub enum WriteAnswer {
    /// This many of the first bytes were sent: the smaller of their number and the room found.
    Wrote { count: u32 },
    /// No byte was sent: at these two indices the ring has no room.
    Full { prod: u32, cons: u32 },
    /// No byte was sent: the peer is shut.
    PeerClosed,
}

/// The answer of a read.
#[derive(Clone, Copy, Debug, PartialEq, Eq)]
pub enum ReadAnswer {
    /// This many bytes were got, into the front of the buffer.
    Got { count: u32 },
    /// No byte was got: at these two indices the ring is empty, and the peer isn't shut.
    Empty { prod: u32, cons: u32 },
    /// No byte was got: the ring was found empty, and then the peer shut. More bytes may still come, which a
    /// drain finds.
    PeerClosed,
}

/// Returns what one call asks for at most.
fn asked(len: usize) -> u32
    ensures { result ≡ min len 4294967295 }
{
    u32::try_from(len).unwrap_or(u32::MAX)
}

/// Returns the answer of a write, by that of its events.
fn write_answer(answer: Answer) -> WriteAnswer
    requires { AnswersWrite answer }
    ensures { write_told result ≡ answer }
{
    match answer {
        Answer::Wrote { count } => WriteAnswer::Wrote { count },
        Answer::Full { prod, cons } => WriteAnswer::Full { prod, cons },
        Answer::PeerClosed => WriteAnswer::PeerClosed,
        _ => unreachable!(),
    }
}

/// Returns the answer of a read, by that of its events.
fn read_answer(answer: Answer) -> ReadAnswer
    requires { AnswersRead answer }
    ensures { read_told result ≡ answer }
{
    match answer {
        Answer::Got { count } => ReadAnswer::Got { count },
        Answer::Empty { prod, cons } => ReadAnswer::Empty { prod, cons },
        Answer::PeerClosed => ReadAnswer::PeerClosed,
        _ => unreachable!(),
    }
}

/// Sends as many of the first bytes as there is room for, and never waits. Each answer comes if and only if
/// its cause is in what the call's events loaded.
pub fn write(end: &mut End<'_>, payload: &[u8]) -> WriteAnswer
    requires open { IsOpen end.old }
    ensures same { IsSameEnd end.old end.new }
    ensures open { IsOpen end.new }
    ensures view { view end.new ≡ wrote_to (view end.old) result payload.now }
    ensures few { (count : ℕ) → result ≡ WriteAnswer.Wrote count → count ≤ length payload.now }
    ensures once { MadeOneCall end.old.side (Write (most_asked payload.now)) end.new.side (write_told result) }
    ensures trail { Trace (standing_of end.old.side) (Write (most_asked payload.now)) end.new.side.trail (write_told result) }
    ensures cause { (other : WriteAnswer) → (result ≡ other) ↔ WriteCause (standing_of end.old.side) (most_asked payload.now) (loads_of (standing_of end.old.side) end.new.side.trail) (write_told other) }
{
    let call = Call::Write {
        len: asked(payload.len()),
    };
    write_answer(end.do_call(call, payload, &mut []))
}

/// Gets as many bytes as wait in the ring, up to the length of the buffer, and never waits itself. Each
/// answer comes if and only if its cause is in what the call's events loaded.
pub fn read(end: &mut End<'_>, buf: &mut [u8]) -> ReadAnswer
    requires open { IsOpen end.old }
    ensures same { IsSameEnd end.old end.new }
    ensures open { IsOpen end.new }
    ensures view { view end.new ≡ read_from (view end.old) result buf.new }
    ensures long { length buf.new ≡ length buf.old }
    ensures few { (count : ℕ) → result ≡ ReadAnswer.Got count → count ≤ length buf.old }
    ensures once { MadeOneCall end.old.side (Read (most_asked buf.old)) end.new.side (read_told result) }
    ensures trail { Trace (standing_of end.old.side) (Read (most_asked buf.old)) end.new.side.trail (read_told result) }
    ensures fills { buf.new ≡ filled buf.old (bytes_loaded end.new.side.trail) }
    ensures kept { bytes_in (read_told result) ≡ 0 → buf.new ≡ buf.old }
    ensures cause { (other : ReadAnswer) → (result ≡ other) ↔ ReadCause (standing_of end.old.side) (most_asked buf.old) (loads_of (standing_of end.old.side) end.new.side.trail) (read_told other) }
{
    let call = Call::Read {
        most: asked(buf.len()),
    };
    read_answer(end.do_call(call, &[], buf))
}
