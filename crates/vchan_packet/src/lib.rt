//! The bytes of a channel as packets: a send and a recv that never wait and move all or nothing,
//! on one end of a shared page.
//!
//! Everything that sends messages of a known length over a channel rests on it. The calls are
//! `libxenvchan_send` and `libxenvchan_recv` of libxenvchan's io.c in non-blocking mode.
#![tactic(auto)]

ghost use Rattle.std.specs.Prelude.{◌≡◌, ◌↔◌, min, length};
ghost use Rattle.vchan_protocol.specs.declared.call.Call.TheVariants.{Send, Recv};
ghost use Rattle.vchan_protocol.specs.Table.Apply.{filled};
ghost use Rattle.vchan_protocol.specs.Table.Calls.{Trace};
ghost use Rattle.vchan_protocol.specs.Answering.Causes.{SendCause, RecvCause};
ghost use Rattle.vchan_protocol.specs.History.Core.{standing_of, bytes_loaded};
ghost use Rattle.vchan_protocol.specs.Answering.Loads.{loads_of};
ghost use Rattle.vchan_protocol.specs.OneEnd.OneCall.{MadeOneCall, bytes_in};
ghost use Rattle.vchan_rule.specs.Seated.{view, IsOpen};
ghost use Rattle.vchan_rule.specs.Ends.{IsSameEnd};
ghost use Rattle.vchan_rule.specs.Called.{most_asked};
ghost use Rattle.vchan_packet.specs.Packet.{AnswersSend, AnswersRecv, send_told, recv_told, told_send, told_recv, sent_to, received_from};

use vchan_core::{Answer, Call};
use vchan_rule::End;

/// The answer of a send.
#[derive(Clone, Copy, Debug, PartialEq, Eq)]
pub enum SendAnswer {
    /// All bytes were sent.
    Sent,
    /// No byte was sent: at these two indices the ring has no room for all of them.
    NoRoom { prod: u32, cons: u32 },
    /// No byte was sent: the peer is shut.
    PeerClosed,
}

/// The answer of a recv.
#[derive(Clone, Copy, Debug, PartialEq, Eq)]
pub enum RecvAnswer {
    /// The whole buffer was filled.
    Got,
    /// No byte was got: at these two indices fewer bytes wait than were asked for, and the peer
    /// isn't shut.
    Short { prod: u32, cons: u32 },
    /// No byte was got: fewer bytes were found than were asked for, and then the peer shut.
    PeerClosed,
}

/// Returns what one call asks for.
fn asked(len: usize) -> u32
    ensures { result ≡ min len 4294967295 }
{
    u32::try_from(len).unwrap_or(u32::MAX)
}

/// Returns the answer of a send, by that of its events.
fn send_answer(answer: Answer) -> SendAnswer
    requires { AnswersSend answer }
    ensures { result ≡ told_send answer }
{
    match answer {
        Answer::Sent { count: _ } => SendAnswer::Sent,
        Answer::NoRoom { prod, cons } => SendAnswer::NoRoom { prod, cons },
        Answer::PeerClosed => SendAnswer::PeerClosed,
        _ => unreachable!(),
    }
}

/// Returns the answer of a recv, by that of its events.
fn recv_answer(answer: Answer) -> RecvAnswer
    requires { AnswersRecv answer }
    ensures { result ≡ told_recv answer }
{
    match answer {
        Answer::Got { count: _ } => RecvAnswer::Got,
        Answer::Short { prod, cons } => RecvAnswer::Short { prod, cons },
        Answer::PeerClosed => RecvAnswer::PeerClosed,
        _ => unreachable!(),
    }
}

/// Sends all bytes if there is room for them, else none, and never waits. Each answer comes if and only if
/// its cause is in what the call's events loaded.
pub fn send(end: &mut End<'_>, payload: &[u8]) -> SendAnswer
    requires open { IsOpen end.old }
    ensures same { IsSameEnd end.old end.new }
    ensures open { IsOpen end.new }
    ensures view { view end.new ≡ sent_to (view end.old) result payload.now }
    ensures once { MadeOneCall end.old.side (Send (most_asked payload.now)) end.new.side (send_told (most_asked payload.now) result) }
    ensures trail { Trace (standing_of end.old.side) (Send (most_asked payload.now)) end.new.side.trail (send_told (most_asked payload.now) result) }
    ensures cause { (other : SendAnswer) → (result ≡ other) ↔ SendCause (standing_of end.old.side) (most_asked payload.now) (loads_of (standing_of end.old.side) end.new.side.trail) (send_told (most_asked payload.now) other) }
{
    let call = Call::Send {
        len: asked(payload.len()),
    };
    send_answer(end.do_call(call, payload, &mut []))
}

/// Fills the whole buffer if enough bytes wait in the ring, else gets none, and never waits itself. Each
/// answer comes if and only if its cause is in what the call's events loaded.
pub fn recv(end: &mut End<'_>, buf: &mut [u8]) -> RecvAnswer
    requires open { IsOpen end.old }
    ensures same { IsSameEnd end.old end.new }
    ensures open { IsOpen end.new }
    ensures view { view end.new ≡ received_from (view end.old) result buf.new }
    ensures long { length buf.new ≡ length buf.old }
    ensures fills { buf.new ≡ filled buf.old (bytes_loaded end.new.side.trail) }
    ensures kept { bytes_in (recv_told (most_asked buf.old) result) ≡ 0 → buf.new ≡ buf.old }
    ensures once { MadeOneCall end.old.side (Recv (most_asked buf.old)) end.new.side (recv_told (most_asked buf.old) result) }
    ensures trail { Trace (standing_of end.old.side) (Recv (most_asked buf.old)) end.new.side.trail (recv_told (most_asked buf.old) result) }
    ensures cause { (other : RecvAnswer) → (result ≡ other) ↔ RecvCause (standing_of end.old.side) (most_asked buf.old) (loads_of (standing_of end.old.side) end.new.side.trail) (recv_told (most_asked buf.old) other) }
{
    let call = Call::Recv {
        len: asked(buf.len()),
    };
    recv_answer(end.do_call(call, &[], buf))
}
