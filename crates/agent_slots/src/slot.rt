//! One data end of an agent, and the turns of its session.
ghost use Rattle.std.specs.Prelude.{◌≡◌, ◌<◌, ℕ, List, true, is_none, Some, length, OnOk, IfOk, IfSome, IfNone};
ghost use Rattle.qrexec_data.specs.Half.{IsSameHalf};
ghost use Rattle.vchan_rule.specs.Seated.{view, IsOpen};
ghost use Rattle.vchan_rule.specs.Ends.{IsSameEnd};
ghost use Rattle.channel_session.specs.declared.pause.Turned.{Turned as Answer};
ghost use Rattle.channel_session.specs.Session.{IsAtWork, StandsOn, Turns};
ghost use Rattle.channel_session.specs.Turning.{KeepsBytes};
ghost use Rattle.agent_slots.specs.Sessions.{TakesTurn, LosesNothing, session_of};
ghost use Rattle.agent_slots.specs.Stages.{IsStage, CanRetire, CanTurn, HasComeOut, is_nothing, is_session, is_late, use_of, told_of, place_of, frame_of};

use crate::stage::Stage;
use channel_session::Session;
use qrexec_data::{Half, Outcome};
use task_duties::{DoneEnd, SessionEnd};
use vchan_io::Memory;

/// A data end, with its place.
#[derive(Drop)]
pub(crate) struct Slot<'p> {
    pub(crate) from: u32,
    pub(crate) to: u32,
    pub(crate) port: u32,
    pub(crate) stage: Stage<'p>,
}

impl<'p> Slot<'p> {
    /// Returns whether the end is unused.
    pub(crate) fn is_unused(&self) -> bool
        requires retire { CanRetire self.now.stage }
        ensures { result ≡ is_nothing (use_of self.now.stage) }
    {
        matches!(self.stage, Stage::Unused { .. })
    }

    /// Makes one turn of an open session. Returns what the broker must be told if the session is over now.
    /// Returns `Memory` if memory runs out; the end can still be retired then. It also fails if the task at
    /// the other end ran out of memory before it opened that end.
    pub(crate) fn turn(&mut self, scratch: &mut [u8]) -> Result<Option<SessionEnd>, Memory>
        requires open { CanTurn self.old.stage }
        requires retire { CanRetire self.old.stage }
        requires some { 0 < length scratch.old }
        ensures frame { frame_of self.new ≡ frame_of self.old }
        ensures stage { (version : ℕ) → IsStage version self.old.stage → OnOk result (IsStage version self.new.stage) }
        ensures session { IfOk result (λ over. is_session self.new.stage ≡ is_none over) }
        ensures told { IfOk result (λ over. IfSome over (λ told. told_of (place_of self.old) (use_of self.old.stage) ≡ Some told)) }
        ensures turns { OnOk result (TakesTurn (session_of self.old.stage) (session_of self.new.stage)) }
        ensures long { length scratch.new ≡ length scratch.old }
        ensures retire { CanRetire self.new.stage }
    {
        match self.turn_session(scratch)? {
            None => {
                if self.is_abandoned() {
                    return Err(Memory);
                }
                Ok(None)
            }
            Some(outcome) => Ok(Some(self.end(outcome))),
        }
    }

    // Makes one turn of an open session, which begins now if its page was awaited and came. Returns how it
    // ended, if it is over.
    fn turn_session(&mut self, scratch: &mut [u8]) -> Result<Option<Outcome>, Memory>
        requires open { CanTurn self.old.stage }
        requires retire { CanRetire self.old.stage }
        requires some { 0 < length scratch.old }
        ensures frame { frame_of self.new ≡ frame_of self.old }
        ensures stage { (version : ℕ) → IsStage version self.old.stage → OnOk result (IsStage version self.new.stage) }
        ensures session { is_session self.new.stage ≡ true }
        ensures over { IfOk result (λ outcome. IfSome outcome (λ o. HasComeOut o self.new.stage)) }
        ensures turns { IfOk result (λ outcome. IfNone outcome (TakesTurn (session_of self.old.stage) (session_of self.new.stage))) }
        ensures kept { OnOk result (LosesNothing (session_of self.old.stage) (session_of self.new.stage)) }
        ensures long { length scratch.new ≡ length scratch.old }
        ensures retire { CanRetire self.new.stage }
    {
        self.open_offered();
        match &mut self.stage {
            Stage::Calls { session, .. } => turn_half(session, scratch),
            Stage::Serves { session, .. } => turn_half(session, scratch),
            Stage::Awaits { .. } => Ok(None),
            _ => unreachable!(),
        }
    }

    // Whether the task at the other end was dropped before it opened its end of the page.
    fn is_abandoned(&mut self) -> bool
        ensures { self.new ≡ self.old }
    {
        match &mut self.stage {
            Stage::Calls { side, .. } => side.is_abandoned(),
            Stage::Awaits { side, .. } => side.is_abandoned(),
            _ => false,
        }
    }

    /// Returns whether the last turn of an open session moved bytes.
    pub(crate) fn moved(&self) -> bool {
        match &self.stage {
            Stage::Calls { session, .. } => session.moved(),
            Stage::Serves { session, .. } => session.moved(),
            _ => false,
        }
    }

    /// Whether the session that is open is on a page that is laid when it is first used.
    pub(crate) fn is_late(&self) -> bool
        ensures { is_session self.now.stage ≡ true → result ≡ is_late self.now.stage }
    {
        match &self.stage {
            Stage::Calls { side, .. } => side.is_late(),
            Stage::Serves { side, .. } => side.is_late(),
            Stage::Awaits { .. } => true,
            _ => false,
        }
    }

    /// Takes the other end back, if the page was laid for a call of the agent's own that is over, so that its
    /// memory is freed. Returns whether that end is still awaited.
    pub(crate) fn take_back(&mut self) -> bool
        ensures { self.new ≡ self.old }
    {
        match &mut self.stage {
            Stage::CallIsOver { end, .. } => take_back(end),
            _ => false,
        }
    }
}

// Makes one turn of a side that has no outcome yet. Returns how it ended, if it is over.
fn turn_half<S: Half>(
    session: &mut Session<'_, S>,
    scratch: &mut [u8],
) -> Result<Option<Outcome>, Memory>
    requires work { IsAtWork S.half session.old.half session.old.end }
    requires some { 0 < length scratch.old }
    ensures end { IsSameEnd session.old.end session.new.end }
    ensures idle { (view session.new.end).idle ≡ true }
    ensures open { IsOpen session.old.end → IsOpen session.new.end }
    ensures same { OnOk result (IsSameHalf S.half session.old.half session.new.half) }
    ensures work { OnOk result (IsAtWork S.half session.new.half session.new.end) }
    ensures stands { (owed : S.half.Owed) → StandsOn S.half owed session.old.half session.old.end → OnOk result (StandsOn S.half owed session.new.half session.new.end) }
    ensures outcome { IfOk result (λ outcome. outcome ≡ S.half.outcome session.new.half) }
    ensures turns { IfOk result (λ outcome. IfNone outcome ((turned : Answer) × Turns S.half turned session.old session.new)) }
    ensures kept { OnOk result (KeepsBytes (view session.old.end) (view session.new.end)) }
    ensures long { length scratch.new ≡ length scratch.old }
{
    if let Some(outcome) = session.outcome() {
        return Ok(Some(outcome));
    }
    session.turn(scratch)?;
    Ok(session.outcome())
}

// Takes the other end of a page back, if this end is the server's. Returns whether the other end is still
// awaited.
fn take_back(end: &mut DoneEnd) -> bool
    ensures { end.new ≡ end.old }
{
    match end {
        DoneEnd::Server(side) => side.take_back(),
        _ => false,
    }
}
