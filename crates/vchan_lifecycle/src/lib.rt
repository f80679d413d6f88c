//! The life of a channel's end on a shared page: connect, drain, close and retire.
//!
//! Everything that opens and ends a channel rests on it. A connect is what a client does in libxenvchan's
//! init.c, and a close is `libxenvchan_close` of io.c. The drain, which tells the end of a stream for sure,
//! and the retire, after which the end is done with the page, are this project's own.
#![tactic(auto)]

ghost use Rattle.std.specs.Prelude.{◌≡◌, ◌≢◌, ◌↔◌, ◌||◌, ◌<◌, ◌≤◌, min, true, false, length, ℕ, Result, is_ok};
ghost use Rattle.ring_words.specs.declared.page.Role.TheVariants.{Client};
ghost use Rattle.vchan_protocol.specs.declared.call.Answer.TheVariants.{Done};
ghost use Rattle.vchan_lifecycle.specs.declared.BadOrders.{BadOrders as Refused};
ghost use Rattle.vchan_protocol.specs.declared.call.Call.TheVariants.{Connect, Close, Retire, Drain};
ghost use Rattle.vchan_protocol.specs.declared.call.EndState.TheVariants.{Fresh, Shut};
ghost use Rattle.vchan_protocol.specs.Table.Apply.{filled};
ghost use Rattle.vchan_protocol.specs.Table.Calls.{Trace};
ghost use Rattle.vchan_protocol.specs.Answering.Causes.{DrainCause, ConnectCause};
ghost use Rattle.vchan_protocol.specs.History.Core.{standing_of, bytes_loaded};
ghost use Rattle.vchan_protocol.specs.Answering.Loads.{loads_of};
ghost use Rattle.vchan_protocol.specs.OneEnd.OneCall.{MadeOneCall, bytes_in};
ghost use Rattle.vchan_protocol.specs.OneEnd.EndingLaw.{has_noticed};
ghost use Rattle.end_view.specs.AfterCall.{DrainSees};
ghost use Rattle.vchan_rule.specs.Seated.{view, last_view, IsOpen};
ghost use Rattle.vchan_rule.specs.Ends.{IsSameEnd};
ghost use Rattle.vchan_rule.specs.Called.{most_asked};
ghost use Rattle.vchan_lifecycle.specs.Lifecycle.{AnswersDrain, AnswersConnect, drain_told, connect_told, drained_to, connected_to, shut, retired_view, ops, close_ops, retire_ops, has_asked, found_none_first};

use vchan_core::{Answer, Call};
use vchan_rule::{End, Retired};

/// A connect was refused: the page's order words hold these numbers, which aren't the page's orders.
#[derive(Clone, Copy, Debug, PartialEq, Eq)]
pub struct BadOrders {
    /// The number in the order word of the left ring.
    pub left: u16,
    /// The number in the order word of the right ring.
    pub right: u16,
}

/// The answer of a drain.
#[derive(Clone, Copy, Debug, PartialEq, Eq)]
pub enum DrainAnswer {
    /// This many bytes were got, at least one, into the front of the buffer.
    More { count: u32 },
    /// No byte was got: at these two indices the ring is empty, and more may come.
    NotYet { prod: u32, cons: u32 },
    /// No byte was got: the peer is shut, and all that it sent was read.
    AllRead,
    /// No byte was got, and the peer is gone. If the two indices are equal, all was read; if not, the peer left
    /// indices that no honest end leaves.
    PeerGone { prod: u32, cons: u32 },
}

/// Returns what one call asks for at most.
fn asked(len: usize) -> u32
    ensures { result ≡ min len 4294967295 }
{
    u32::try_from(len).unwrap_or(u32::MAX)
}

/// Returns the answer of a drain, by that of its events.
fn drain_answer(answer: Answer) -> DrainAnswer
    requires { AnswersDrain answer }
    ensures { drain_told result ≡ answer }
{
    match answer {
        Answer::Got { count } => DrainAnswer::More { count },
        Answer::NotYet { prod, cons } => DrainAnswer::NotYet { prod, cons },
        Answer::AllRead => DrainAnswer::AllRead,
        Answer::PeerGone { prod, cons } => DrainAnswer::PeerGone { prod, cons },
        _ => unreachable!(),
    }
}

/// Returns the answer of a connect, by that of its events.
fn connect_answer(answer: Answer) -> Result<(), BadOrders>
    requires { AnswersConnect answer }
    ensures { connect_told result ≡ answer }
{
    match answer {
        Answer::Connected => Ok(()),
        Answer::BadOrders { left, right } => Err(BadOrders { left, right }),
        _ => unreachable!(),
    }
}

/// Connects a fresh client, which is open then. Returns `BadOrders` if and only if the two order words that
/// it loaded don't hold the page's orders; the client stays fresh then, and may try again.
pub fn connect(end: &mut End<'_>) -> Result<(), BadOrders>
    requires idle { (view end.old).idle ≡ true }
    requires fresh { (view end.old).state ≡ Fresh }
    requires client { (view end.old).role ≡ Client }
    ensures same { IsSameEnd end.old end.new }
    ensures view { view end.new ≡ connected_to (view end.old) (is_ok result) }
    ensures once { MadeOneCall end.old.side Connect end.new.side (connect_told result) }
    ensures trail { Trace (standing_of end.old.side) Connect end.new.side.trail (connect_told result) }
    ensures cause { (other : Result (Unit {0}) Refused) → (result ≡ other) ↔ ConnectCause (standing_of end.old.side) (loads_of (standing_of end.old.side) end.new.side.trail) (connect_told other) }
{
    connect_answer(end.do_call(Call::Connect, &[], &mut []))
}

/// Shuts an end: its live byte is cleared, and its peer is signalled.
pub fn close(end: &mut End<'_>)
    requires idle { (view end.old).idle ≡ true }
    requires going { (view end.old).state ≢ Shut }
    ensures same { IsSameEnd end.old end.new }
    ensures view { view end.new ≡ shut (view end.old) }
    ensures once { MadeOneCall end.old.side Close end.new.side Done }
    ensures trail { Trace (standing_of end.old.side) Close end.new.side.trail Done }
    ensures events { ops end.new.side.trail ≡ close_ops end.old.side.role }
{
    let _ = end.do_call(Call::Close, &[], &mut []);
}

/// Ends the end's work on the page. An end that isn't shut is closed first; then its gone word is set, and
/// its peer is signalled.
pub fn retire(mut end: End<'_>) -> Retired
    requires idle { (view end).idle ≡ true }
    ensures view { last_view result ≡ retired_view (view end.entry) }
    ensures honest { (last_view result).turned ≡ false }
    ensures once { MadeOneCall end.entry.side Retire result.side Done }
    ensures trail { Trace (standing_of end.entry.side) Retire result.side.trail Done }
    ensures events { ops result.side.trail ≡ retire_ops end.entry.side.role end.entry.side.state }
{
    let _ = end.do_call(Call::Retire, &[], &mut []);
    end.rest()
}

/// Gets as many bytes as wait, up to the length of the buffer, or tells for sure that no more come.
///
/// If it finds none it looks at the peer's live byte and at its gone word, and then looks at the index
/// again. Each answer comes if and only if its cause is in what the call's events loaded. The call asks the
/// peer for a signal if and only if its first look found no byte.
pub fn drain(end: &mut End<'_>, buf: &mut [u8]) -> DrainAnswer
    requires open { IsOpen end.old }
    requires some { 0 < length buf.old }
    ensures same { IsSameEnd end.old end.new }
    ensures open { IsOpen end.new }
    ensures view { view end.new ≡ drained_to (view end.old) result buf.new end.new.side.saw }
    ensures saw { DrainSees (drain_told result) end.old.side.saw end.new.side.saw }
    ensures noticed { end.new.side.saw ≡ (end.old.side.saw || has_noticed (standing_of end.old.side) end.new.side.trail) }
    ensures long { length buf.new ≡ length buf.old }
    ensures fills { buf.new ≡ filled buf.old (bytes_loaded end.new.side.trail) }
    ensures kept { bytes_in (drain_told result) ≡ 0 → buf.new ≡ buf.old }
    ensures more { (count : ℕ) → result ≡ DrainAnswer.More count → 1 ≤ count }
    ensures few { (count : ℕ) → result ≡ DrainAnswer.More count → count ≤ length buf.old }
    ensures once { MadeOneCall end.old.side (Drain (most_asked buf.old)) end.new.side (drain_told result) }
    ensures trail { Trace (standing_of end.old.side) (Drain (most_asked buf.old)) end.new.side.trail (drain_told result) }
    ensures asks { has_asked (ops end.new.side.trail) ≡ found_none_first (standing_of end.old.side) end.new.side.trail }
    ensures cause { (other : DrainAnswer) → (result ≡ other) ↔ DrainCause (standing_of end.old.side) (most_asked buf.old) (loads_of (standing_of end.old.side) end.new.side.trail) (drain_told other) }
{
    let call = Call::Drain {
        most: asked(buf.len()),
    };
    drain_answer(end.do_call(call, &[], buf))
}
