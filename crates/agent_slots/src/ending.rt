//! How the session of a data end comes to its end, and how the end is retired.
ghost use Rattle.std.specs.Prelude.{◌≡◌, ℕ, true, false, Some};
ghost use Rattle.task_duties.specs.declared.place.PagePlace.{PagePlace};
ghost use Rattle.task_duties.specs.GivenEnds.{done_view, retired_at};
ghost use Rattle.agent_slots.specs.Slots.{held_at, held_of};
ghost use Rattle.agent_slots.specs.Sessions.{ComesToItsEnd, session_of};
ghost use Rattle.agent_slots.specs.Stages.{IsStage, CanRetire, HasComeOut, IsReportOf, is_session, use_of, told_of, place_of, framed, frame_of};

use crate::done::{CallOver, SessionDone};
use crate::side::retire_unused;
use crate::slot::Slot;
use crate::stage::Stage;
use channel_session::{CallerEnd, ServingEnd};
use qrexec_data::Outcome;
use std::mem;
use task_duties::{DoneEnd, PagePlace, RetiredEnd, ServedDone, SessionEnd};

impl<'p> Slot<'p> {
    /// Finishes a session that ended like this, and returns what the broker must be told. A function apart, so
    /// that other turns don't pay for the room of a whole stage.
    #[inline(never)]
    pub(crate) fn end(&mut self, outcome: Outcome) -> SessionEnd
        requires over { HasComeOut outcome self.old.stage }
        requires session { is_session self.old.stage ≡ true }
        requires retire { CanRetire self.old.stage }
        ensures frame { frame_of self.new ≡ frame_of self.old }
        ensures stage { (version : ℕ) → IsStage version self.old.stage → IsStage version self.new.stage }
        ensures session { is_session self.new.stage ≡ false }
        ensures told { told_of (place_of self.old) (use_of self.old.stage) ≡ Some result }
        ensures ends { ComesToItsEnd (session_of self.old.stage) (session_of self.new.stage) }
        ensures retire { CanRetire self.new.stage }
    {
        let told = self.told();
        let stage = mem::replace(&mut self.stage, Stage::Taken);
        // What stands there now owns nothing.
        mem::forget(mem::replace(&mut self.stage, ended(stage, outcome)));
        told
    }

    // What the broker is told of a session.
    fn told(&self) -> SessionEnd
        requires session { is_session self.now.stage ≡ true }
        ensures { told_of (place_of self.now) (use_of self.now.stage) ≡ Some result }
    {
        match &self.stage {
            Stage::Calls { number, .. } => SessionEnd {
                domain: self.to,
                port: self.port,
                call: Some(*number),
            },
            Stage::Awaits { .. } | Stage::Serves { .. } => SessionEnd {
                domain: self.from,
                port: self.port,
                call: None,
            },
            _ => unreachable!(),
        }
    }

    /// Retires the end, used or not.
    pub(crate) fn give_up(self) -> RetiredEnd
        requires retire { CanRetire self.stage }
        ensures held { held_at (retired_at result) ≡ (frame_of self.entry).held }
        ensures honest { (retired_at result).view.turned ≡ false }
    {
        let Slot {
            from,
            to,
            port,
            stage,
        } = self;
        RetiredEnd {
            place: PagePlace::Payload { from, to, port },
            retired: retired(stage),
        }
    }

    /// Retires the end, which has no open session, and returns what came of its session.
    pub(crate) fn finish(self) -> (RetiredEnd, SessionDone)
        requires retire { CanRetire self.stage }
        requires closed { is_session self.stage ≡ false }
        ensures held { held_at (retired_at result.0) ≡ (frame_of self.entry).held }
        ensures honest { (retired_at result.0).view.turned ≡ false }
        ensures report { (version : ℕ) → IsStage version self.entry.stage → IsReportOf version (place_of self.entry) (use_of self.entry.stage) (retired_at result.0).view result.1 }
    {
        let Slot {
            from,
            to,
            port,
            stage,
        } = self;
        let place = PagePlace::Payload { from, to, port };
        match stage {
            Stage::Unused { end } => {
                let retired = retire_unused(end);
                (RetiredEnd { place, retired }, SessionDone::Nothing)
            }
            Stage::CallIsOver {
                number,
                done,
                end,
                ..
            } => {
                let over = CallOver { to, port, done };
                let retired = end;
                (
                    RetiredEnd { place, retired },
                    SessionDone::Call { number, over },
                )
            }
            Stage::ServingIsOver {
                number,
                outcome,
                got,
                end,
                ..
            } => {
                let done = ServedDone {
                    from,
                    port,
                    outcome,
                    got,
                };
                let retired = end;
                (
                    RetiredEnd { place, retired },
                    SessionDone::Serving { number, done },
                )
            }
            _ => unreachable!(),
        }
    }
}

// The stage of a session that ended like this.
fn ended<'p>(stage: Stage<'p>, outcome: Outcome) -> Stage<'p>
    requires over { HasComeOut outcome stage }
    requires retire { CanRetire stage }
    ensures frame { (place : PagePlace) → framed place result ≡ framed place stage.entry }
    ensures stage { (version : ℕ) → IsStage version stage.entry → IsStage version result }
    ensures session { is_session result ≡ false }
    ensures ends { ComesToItsEnd (session_of stage.entry) (session_of result) }
    ensures retire { CanRetire result }
{
    match stage {
        Stage::Calls {
            number,
            input,
            side,
            session,
        } => {
            let CallerEnd { done, retired } = session.finish(outcome);
            let end = side.finish(retired);
            Stage::CallIsOver {
                number,
                input,
                done,
                end,
            }
        }
        Stage::Serves {
            number,
            service,
            side,
            session,
        } => {
            let ServingEnd { got, retired, .. } = session.finish(outcome);
            let end = side.finish(retired);
            Stage::ServingIsOver {
                number,
                service,
                outcome,
                got,
                end,
            }
        }
        _ => unreachable!(),
    }
}

// Retires the end of a stage.
fn retired(stage: Stage) -> DoneEnd
    requires retire { CanRetire stage }
    ensures held { (place : PagePlace) → held_of place (done_view result) ≡ (framed place stage.entry).held }
    ensures honest { (done_view result).turned ≡ false }
{
    match stage {
        Stage::Unused { end } => retire_unused(end),
        Stage::Calls { side, session, .. } => side.finish(session.give_up()),
        Stage::Awaits { side, .. } => DoneEnd::Client(side.finish()),
        Stage::Serves { side, session, .. } => side.finish(session.give_up()),
        Stage::CallIsOver { end, .. } => end,
        Stage::ServingIsOver { end, .. } => end,
        Stage::Taken => unreachable!(),
    }
}
