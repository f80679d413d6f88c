//! The calls of a channel that ask for a signal, take a signal, and check whether the peer is gone, on
//! one end of a shared page.
//!
//! Everything that waits for a channel rests on it. `data_ready` and `buffer_space` are
//! `libxenvchan_data_ready` and `libxenvchan_buffer_space` of libxenvchan's io.c, which ask for a
//! signal before they look; the pending and gone words are this project's own.
#![tactic(auto)]

ghost use Rattle.std.specs.Prelude.{◌≡◌, ◌↔◌, IsTrue, true};
ghost use Rattle.vchan_protocol.specs.declared.call.Answer.TheVariants.{Ready, Space, Event, Gone};
ghost use Rattle.vchan_protocol.specs.declared.call.Call.TheVariants.{DataReady, BufferSpace, TakeEvent, PeerGone};
ghost use Rattle.vchan_protocol.specs.Table.Calls.{Trace};
ghost use Rattle.vchan_protocol.specs.Answering.Causes.{Cause};
ghost use Rattle.vchan_protocol.specs.History.Core.{standing_of};
ghost use Rattle.vchan_protocol.specs.Answering.Loads.{loads_of};
ghost use Rattle.vchan_protocol.specs.OneEnd.OneCall.{MadeOneCall};
ghost use Rattle.vchan_rule.specs.Seated.{view, IsOpen};
ghost use Rattle.vchan_rule.specs.Ends.{IsSameEnd};
ghost use Rattle.vchan_notify.specs.Notify.{AnswersReady, AnswersSpace, AnswersEvent, AnswersGone, asked_gone, HasFoundGone};

use vchan_core::{Answer, Call};
use vchan_rule::End;

fn ready_count(answer: Answer) -> u32
    requires { AnswersReady answer }
    ensures { Ready result ≡ answer }
{
    match answer {
        Answer::Ready { count } => count,
        _ => unreachable!(),
    }
}

fn space_count(answer: Answer) -> u32
    requires { AnswersSpace answer }
    ensures { Space result ≡ answer }
{
    match answer {
        Answer::Space { count } => count,
        _ => unreachable!(),
    }
}

fn was_signalled(answer: Answer) -> bool
    requires { AnswersEvent answer }
    ensures { Event result ≡ answer }
{
    match answer {
        Answer::Event { was } => was,
        _ => unreachable!(),
    }
}

fn is_gone(answer: Answer) -> bool
    requires { AnswersGone answer }
    ensures { Gone result ≡ answer }
{
    match answer {
        Answer::Gone { is } => is,
        _ => unreachable!(),
    }
}

/// Asks for a signal at the next bytes, and returns how many bytes wait now.
pub fn data_ready(end: &mut End<'_>) -> u32
    requires open { IsOpen end.old }
    ensures same { IsSameEnd end.old end.new }
    ensures open { IsOpen end.new }
    ensures view { view end.new ≡ view end.old }
    ensures once { MadeOneCall end.old.side DataReady end.new.side (Ready result) }
    ensures trail { Trace (standing_of end.old.side) DataReady end.new.side.trail (Ready result) }
    ensures cause { Cause (standing_of end.old.side) DataReady (loads_of (standing_of end.old.side) end.new.side.trail) (Ready result) }
{
    ready_count(end.do_call(Call::DataReady, &[], &mut []))
}

/// Asks for a signal at the next room, and returns for how many bytes there is room.
pub fn buffer_space(end: &mut End<'_>) -> u32
    requires open { IsOpen end.old }
    ensures same { IsSameEnd end.old end.new }
    ensures open { IsOpen end.new }
    ensures view { view end.new ≡ view end.old }
    ensures once { MadeOneCall end.old.side BufferSpace end.new.side (Space result) }
    ensures trail { Trace (standing_of end.old.side) BufferSpace end.new.side.trail (Space result) }
    ensures cause { Cause (standing_of end.old.side) BufferSpace (loads_of (standing_of end.old.side) end.new.side.trail) (Space result) }
{
    space_count(end.do_call(Call::BufferSpace, &[], &mut []))
}

/// Takes a signal, and returns whether one was pending; none is pending afterwards.
pub fn take_event(end: &mut End<'_>) -> bool
    requires open { IsOpen end.old }
    ensures same { IsSameEnd end.old end.new }
    ensures open { IsOpen end.new }
    ensures view { view end.new ≡ view end.old }
    ensures once { MadeOneCall end.old.side TakeEvent end.new.side (Event result) }
    ensures trail { Trace (standing_of end.old.side) TakeEvent end.new.side.trail (Event result) }
    ensures cause { Cause (standing_of end.old.side) TakeEvent (loads_of (standing_of end.old.side) end.new.side.trail) (Event result) }
{
    was_signalled(end.do_call(Call::TakeEvent, &[], &mut []))
}

/// Loads the peer's gone word, and returns whether it isn't 0.
pub fn peer_gone(end: &mut End<'_>) -> bool
    requires open { IsOpen end.old }
    ensures same { IsSameEnd end.old end.new }
    ensures open { IsOpen end.new }
    ensures view { view end.new ≡ asked_gone (view end.old) result }
    ensures once { MadeOneCall end.old.side PeerGone end.new.side (Gone result) }
    ensures trail { Trace (standing_of end.old.side) PeerGone end.new.side.trail (Gone result) }
    ensures cause { Cause (standing_of end.old.side) PeerGone (loads_of (standing_of end.old.side) end.new.side.trail) (Gone result) }
    ensures noted { IsTrue result ↔ HasFoundGone end.new.side }
{
    is_gone(end.do_call(Call::PeerGone, &[], &mut []))
}
