//! How a data end is put to use: its page is laid or awaited, and its session begins.
ghost use Rattle.std.specs.Prelude.{◌≡◌, ℕ, [], true, IfOk};
ghost use Rattle.ring_words.specs.declared.page.Role.TheVariants.{Server, Client};
ghost use Rattle.service_gate.specs.Owing.{builtin_owes};
ghost use Rattle.qrexec_data.specs.ServingSide.{ServingStandsFor};
ghost use Rattle.end_view.specs.EndView.{IsUnused};
ghost use Rattle.vchan_rule.specs.Seated.{view};
ghost use Rattle.page_offer.specs.Views.{unused_view};
ghost use Rattle.task_duties.specs.declared.place.PagePlace.{PagePlace};
ghost use Rattle.task_duties.specs.GivenEnds.{fresh_view};
ghost use Rattle.channel_session.specs.Session.{ServingAt};
ghost use Rattle.channel_session.specs.Turning.{first_pace};
ghost use Rattle.agent_slots.specs.Slots.{held_of};
ghost use Rattle.agent_slots.specs.Sessions.{AwaitsPage, ServesWith, Begins, session_of};
ghost use Rattle.agent_slots.specs.Sides.{HasLaid, IsSideOf, seen_under, is_late_unused, is_late_side};
ghost use Rattle.agent_slots.specs.Stages.{ForCall, ForServing, IsStage, CanRetire, CanTurn, IsUnusedBy, IsNewCaller, IsNewServing, HasPage, is_session, framed, frame_of};

use crate::side::{PageSide, open_server};
use crate::slot::Slot;
use crate::stage::Stage;
use channel_session::{CallerSession, ServingSession};
use page_offer::{LaidPage, UnlaidClient};
use qrexec_data::{Caller, Serving};
use service_gate::Builtin;
use std::alloc::Global;
use std::mem;
use std::snapshot::Snapshot;
use task_duties::UnusedEnd;
use vchan_io::Memory;
use vchan_rule::End;

// `Taken` owns nothing, so where another stage is put in its place it is forgotten: its drop would be proved for
// every stage.
impl<'p> Slot<'p> {
    /// Lays the page of an unused end, if that is the end's part. Returns `Memory` if memory runs out.
    pub(crate) fn lay(&self, alloc: Global) -> Result<Option<LaidPage>, Memory>
        ensures { IfOk result (λ laid. HasPage self.now.stage laid) }
    {
        match &self.stage {
            Stage::Unused { end } => laid_by(end, alloc),
            _ => Ok(None),
        }
    }

    /// Puts the end to the agent's own call with this number and this input. Its page is laid.
    pub(crate) fn call(
        &mut self,
        number: usize,
        input: Snapshot<Vec<u8>>,
        caller: Caller,
        laid: Option<LaidPage>,
    )
        requires unused { IsUnusedBy Server self.old.stage }
        requires laid { HasPage self.old.stage laid }
        requires caller { IsNewCaller caller }
        requires input { caller.requests.input ≡ input.value.items }
        ensures frame { frame_of self.new ≡ record (frame_of self.old) { used = ForCall number input.value.items } }
        ensures stage { IsStage caller.replies.own self.new.stage }
        ensures session { is_session self.new.stage ≡ true }
        ensures retire { CanRetire self.new.stage }
    {
        let end = match mem::replace(&mut self.stage, Stage::Taken) {
            Stage::Unused { end } => end,
            _ => unreachable!(),
        };
        let (end, side) = open_server(end, laid);
        let stage = Stage::Calls {
            number,
            input,
            side,
            session: CallerSession::new(caller, end),
        };
        mem::forget(mem::replace(&mut self.stage, stage));
    }

    /// Puts the end to a call that is served under this number, by a side that has this service.
    pub(crate) fn serve(
        &mut self,
        number: usize,
        service: Snapshot<Builtin>,
        serving: Serving<Builtin>,
    )
        requires unused { IsUnusedBy Client self.old.stage }
        requires serving { IsNewServing serving }
        requires service { ServingStandsFor builtin_owes (builtin_owes service.value) serving [] }
        ensures frame { frame_of self.new ≡ record (frame_of self.old) { used = ForServing number service.value } }
        ensures stage { IsStage serving.answering.own self.new.stage }
        ensures session { is_session self.new.stage ≡ true }
        ensures retire { CanRetire self.new.stage }
    {
        let stage = match mem::replace(&mut self.stage, Stage::Taken) {
            Stage::Unused { end } => serve_unused(end, number, service, serving),
            _ => unreachable!(),
        };
        mem::forget(mem::replace(&mut self.stage, stage));
    }

    /// Begins the session of an awaited page, if the page is offered.
    pub(crate) fn open_offered(&mut self)
        requires open { CanTurn self.old.stage }
        requires retire { CanRetire self.old.stage }
        ensures open { CanTurn self.new.stage }
        ensures retire { CanRetire self.new.stage }
        ensures frame { frame_of self.new ≡ frame_of self.old }
        ensures begins { Begins (session_of self.old.stage) (session_of self.new.stage) }
        ensures stage { (version : ℕ) → IsStage version self.old.stage → IsStage version self.new.stage }
    {
        let Stage::Awaits { .. } = &self.stage else {
            return;
        };
        self.open_now();
    }

    // Begins the session of an awaited page, if the page is offered. A function apart, so that the turns of
    // other sessions don't pay for the room of a whole stage.
    #[inline(never)]
    fn open_now(&mut self)
        requires awaits { session_of self.old.stage ≡ AwaitsPage }
        requires open { CanTurn self.old.stage }
        ensures open { CanTurn self.new.stage }
        ensures retire { CanRetire self.new.stage }
        ensures frame { frame_of self.new ≡ frame_of self.old }
        ensures begins { Begins AwaitsPage (session_of self.new.stage) }
        ensures stage { (version : ℕ) → IsStage version self.old.stage → IsStage version self.new.stage }
    {
        let stage = match mem::replace(&mut self.stage, Stage::Taken) {
            Stage::Awaits {
                number,
                service,
                serving,
                side,
            } => open_awaited(number, service, serving, side),
            _ => unreachable!(),
        };
        mem::forget(mem::replace(&mut self.stage, stage));
    }
}

// Lays the page of an unused end, if that is the end's part.
fn laid_by(end: &UnusedEnd, alloc: Global) -> Result<Option<LaidPage>, Memory>
    ensures { IfOk result (λ laid. HasLaid end.now laid) }
{
    match end {
        UnusedEnd::Server(side) => Ok(Some(side.lay(alloc)?)),
        _ => Ok(None),
    }
}

// Puts an unused end of a client to a call that is served under this number.
fn serve_unused<'p>(
    end: UnusedEnd<'p>,
    number: usize,
    service: Snapshot<Builtin>,
    serving: Serving<Builtin>,
) -> Stage<'p>
    requires unused { IsUnused (fresh_view end) × ((fresh_view end).role ≡ Client) }
    requires serving { IsNewServing serving }
    requires service { ServingStandsFor builtin_owes (builtin_owes service.value) serving [] }
    ensures frame { (place : PagePlace) → framed place result ≡ record { held = held_of place (fresh_view end.entry); used = ForServing number service.value; late = is_late_unused end.entry } }
    ensures stage { IsStage serving.answering.own result }
    ensures session { is_session result ≡ true }
    ensures retire { CanRetire result }
{
    match end {
        UnusedEnd::Laid(end) => serve_at(number, service, serving, PageSide::Laid, end),
        UnusedEnd::Client(side) => Stage::Awaits {
            number,
            service,
            serving,
            side,
        },
        UnusedEnd::Server(_) => unreachable!(),
    }
}

// The serving under this number, once its page is offered.
fn open_awaited<'p>(
    number: usize,
    service: Snapshot<Builtin>,
    serving: Serving<Builtin>,
    side: UnlaidClient,
) -> Stage<'p>
    requires { IsNewServing serving }
    ensures open { CanTurn result }
    ensures begins { Begins AwaitsPage (session_of result) }
    ensures retire { CanRetire result }
    ensures frame { (place : PagePlace) → framed place result ≡ record { held = held_of place (unused_view side Client); used = ForServing number service.value; late = true } }
    ensures stage { ServingStandsFor builtin_owes (builtin_owes service.value) serving [] → IsStage serving.answering.own result }
{
    match side.open() {
        Ok((end, side)) => serve_at(number, service, serving, PageSide::Client(side), end),
        Err(side) => Stage::Awaits {
            number,
            service,
            serving,
            side,
        },
    }
}

// The serving under this number at this end, which has done nothing yet.
fn serve_at<'p>(
    number: usize,
    service: Snapshot<Builtin>,
    serving: Serving<Builtin>,
    side: PageSide,
    end: End<'p>,
) -> Stage<'p>
    requires serving { IsNewServing serving }
    requires unused { IsUnused (view end) × ((view end).role ≡ Client) }
    requires side { IsSideOf side (view end) }
    ensures open { CanTurn result }
    ensures begins { (at : ServingAt) × (session_of result ≡ ServesWith at) × (at.pace ≡ first_pace) }
    ensures session { is_session result ≡ true }
    ensures retire { CanRetire result }
    ensures frame { (place : PagePlace) → framed place result ≡ record { held = held_of place (seen_under side (view end.entry)); used = ForServing number service.value; late = is_late_side side } }
    ensures stage { ServingStandsFor builtin_owes (builtin_owes service.value) serving [] → IsStage serving.answering.own result }
{
    Stage::Serves {
        number,
        service,
        side,
        session: ServingSession::start(serving, end),
    }
}
