//! One end as a script plays it: its calls, whole or event by event.
ghost use Rattle.std.specs.Prelude.{◌≡◌, ◌<◌, ◌≤◌, ◌-◌, ◌↔◌, ℕ, [], length, IfSome, IsSome, OnOk, None, false, take};
ghost use Rattle.vchan_protocol.specs.History.WholeCall.{alone, call_answer, called};
ghost use Rattle.vchan_protocol.specs.Table.Apply.{filled};
ghost use Rattle.vchan_protocol.specs.Table.Calls.{loaded_most, payload_of};
ghost use Rattle.vchan_protocol.specs.History.Core.{Core, bytes_loaded, plan_left, side_of};
ghost use Rattle.vchan_core.specs.Page.StandsFor.{StandsFor, machine_of, other_of, turned_of};
ghost use Rattle.vchan_core.specs.OneMachine.Phases.{Allows, IsIdle, standing};
ghost use Rattle.step_script.specs.Meaning.Played.{begins_call, call_refusal as call_refusal_of, finished, has_retired as has_retired_of, line_done, makes_call, step_refusal as step_refusal_of, unless_refused};
ghost use Rattle.vchan_core.specs.WholeCall.Stepped.{stepped};
ghost use Rattle.step_script.specs.Language.Script.{CallFits, CanSay, begins, calls, finishes, steps};
ghost use Rattle.step_script.specs.Parts.ScriptLines.{call_with};
ghost use Rattle.step_script.specs.Parts.Refusals.{is_second_retire};

use crate::player::printer::{push_answer, push_refusal};
use crate::player::refusal::{LineRefusal, refusal_of_call};
use ring_words::Role;
use std::alloc::{AllocError, Global};
use std::marker::Brand;
use std::sync::ledger::{Blank, Ledger};
use vchan_core::{Answer, Call, EndState, Plain, Steps};

/// More events than any call makes.
const ALL_EVENTS: u32 = u32::MAX;

/// What is kept for one end: the call that it is inside, the bytes that this call writes or sends,
/// and the buffer for the bytes that it takes. The buffer serves all calls of the end, and grows if
/// it is too short for one. A call that is begun outlives its line, so its bytes are kept in this
/// type; a whole call needs them only in its line.
#[derive(Drop)]
pub(crate) struct EndPlayer {
    call: Call,
    payload: Vec<u8>,
    buffer: Vec<u8>,
}

impl EndPlayer {
    ghost use Rattle.step_script.specs.Parts.Players.{Does, IsAt, IsKnown, IsTaken};

    /// Returns what is kept for an end that has made no call yet.
    pub(crate) fn new(alloc: Global) -> EndPlayer
        ensures { result.buffer.items ≡ [] }
    {
        EndPlayer {
            call: Call::Retire,
            payload: Vec::new(alloc),
            buffer: Vec::new(alloc),
        }
    }

    /// Makes a whole call. The call that the end is inside is finished first.
    pub(crate) fn call(
        &mut self,
        page: &mut Plain,
        who: Role,
        call: Call,
        payload: &[u8],
        text: &mut Vec<u8>,
    ) -> Result<(), AllocError>
        requires known { IsKnown who page.old self.old }
        requires fits { CallFits who (call_with call payload.now) }
        ensures { OnOk result (Does who (line_done (calls who (call_with call payload.now))) page.old page.new self.old self.new text.old.items text.new.items) }
    {
        self.finish_call(page, who, text)?;
        self.make::<Brand>(page, who, call, payload, text, Blank::new(1))
    }

    /// Begins a call, which makes no event. The call that the end is inside is finished first.
    pub(crate) fn begin(
        &mut self,
        page: &mut Plain,
        who: Role,
        call: Call,
        payload: &[u8],
        text: &mut Vec<u8>,
    ) -> Result<(), AllocError>
        requires known { IsKnown who page.old self.old }
        requires fits { CallFits who (call_with call payload.now) }
        ensures { OnOk result (Does who (line_done (begins who (call_with call payload.now))) page.old page.new self.old self.new text.old.items text.new.items) }
    {
        self.finish_call(page, who, text)?;
        self.enter(page, who, call, payload, text)
    }

    /// Makes at most this many events of the call that the end is inside, up to its answer.
    pub(crate) fn step(
        &mut self,
        page: &mut Plain,
        who: Role,
        most: u32,
        text: &mut Vec<u8>,
    ) -> Result<(), AllocError>
        requires known { IsKnown who page.old self.old }
        ensures { OnOk result (Does who (line_done (steps who most)) page.old page.new self.old self.new text.old.items text.new.items) }
    {
        if let Some(why) = step_refusal(page, who) {
            return push_refusal(text, who, why);
        }
        let Some(answer) = self.advance(page, who, most) else {
            return Ok(());
        };
        push_answer(text, who, self.call, answer, self.buffer.as_slice())
    }

    /// Makes the events of the call that the end is inside, up to its answer.
    pub(crate) fn finish(
        &mut self,
        page: &mut Plain,
        who: Role,
        text: &mut Vec<u8>,
    ) -> Result<(), AllocError>
        requires known { IsKnown who page.old self.old }
        ensures { OnOk result (Does who (line_done (finishes who)) page.old page.new self.old self.new text.old.items text.new.items) }
    {
        if let Some(why) = step_refusal(page, who) {
            return push_refusal(text, who, why);
        }
        self.finish_call(page, who, text)
    }

    /// Finishes the call that the end is inside, if it is inside one.
    fn finish_call(
        &mut self,
        page: &mut Plain,
        who: Role,
        text: &mut Vec<u8>,
    ) -> Result<(), AllocError>
        requires known { IsKnown who page.old self.old }
        ensures does { OnOk result (Does who (finished who) page.old page.new self.old self.new text.old.items text.new.items) }
        ensures idle { OnOk result (IsIdle (machine_of page.new who)) }
    {
        if page.machine(who).idle() {
            return Ok(());
        }
        let answer = self.advance_to_answer(page, who);
        push_answer(text, who, self.call, answer, self.buffer.as_slice())
    }

    /// Makes a whole call of an end between two calls, or prints why it can't make it. Its events are counted in
    /// the ledger that `blank` opens, which nothing reads.
    fn make<L: Ledger>(
        &mut self,
        page: &mut Plain,
        who: Role,
        call: Call,
        payload: &[u8],
        text: &mut Vec<u8>,
        blank: Blank,
    ) -> Result<(), AllocError>
        requires name { blank.name ≡ L.name }
        requires parts { blank.parts ≡ L.parts }
        requires some { 0 < blank.parts }
        requires known { IsKnown who page.old self.old }
        requires idle { IsIdle (machine_of page.old who) }
        requires fits { CallFits who (call_with call payload.now) }
        ensures { let c = call_with call payload.now in
            OnOk result (Does who (λ core. unless_refused (call_refusal_of core who c.call) who core (makes_call who c))
            page.old page.new self.old self.new text.old.items text.new.items) }
    {
        if let Some(why) = call_refusal(page, who, call) {
            return push_refusal(text, who, why);
        }
        self.make_room(page, who, call)?;
        let mut events = Steps::<L>::new(blank);
        let answer = page.run_call(who, call, payload, self.buffer.as_mut_slice(), &mut events);
        push_answer(text, who, call, answer, self.buffer.as_slice())
    }

    /// Begins a call of an end between two calls, or prints why it can't make it.
    fn enter(
        &mut self,
        page: &mut Plain,
        who: Role,
        call: Call,
        payload: &[u8],
        text: &mut Vec<u8>,
    ) -> Result<(), AllocError>
        requires known { IsKnown who page.old self.old }
        requires idle { IsIdle (machine_of page.old who) }
        requires fits { CallFits who (call_with call payload.now) }
        ensures { let c = call_with call payload.now in
            OnOk result (Does who (λ core. unless_refused (call_refusal_of core who c.call) who core (begins_call who c))
            page.old page.new self.old self.new text.old.items text.new.items) }
    {
        if let Some(why) = call_refusal(page, who, call) {
            return push_refusal(text, who, why);
        }
        self.make_room(page, who, call)?;
        self.call = call;
        self.keep(payload)?;
        page.begin(who, call);
        Ok(())
    }

    /// Keeps the bytes that a call writes or sends. Other calls have none, so nothing is copied for
    /// them.
    #[inline(always)]
    fn keep(&mut self, payload: &[u8]) -> Result<(), AllocError>
        ensures payload { OnOk result (self.new.payload.items ≡ payload.now) }
        ensures buffer { self.new.buffer ≡ self.old.buffer }
        ensures call { self.new.call ≡ self.old.call }
    {
        self.payload.clear();
        if payload.is_empty() {
            return Ok(());
        }
        self.payload.extend_from_slice(payload)
    }

    /// Makes the buffer long enough for the bytes that a call may take.
    fn make_room(&mut self, page: &Plain, who: Role, call: Call) -> Result<(), AllocError>
        ensures room { OnOk result (loaded_most (standing (machine_of page.now who)) call ≤ length self.new.buffer.items) }
        ensures payload { self.new.payload ≡ self.old.payload }
        ensures call { self.new.call ≡ self.old.call }
    {
        let most = page.machine(who).most_taken(call) as usize;
        if self.buffer.len() < most {
            self.buffer.resize(most, 0)?;
        }
        Ok(())
    }

    /// Makes the events of the call that the end is inside, up to its answer.
    fn advance_to_answer(&mut self, page: &mut Plain, who: Role) -> Answer
        requires known { IsKnown who page.old self.old }
        requires busy { ¬ IsIdle (machine_of page.old who) }
        ensures at { (core : Core) → IsAt core who page.old self.old
            → IsAt (alone core who (plan_left (side_of core who))).0 who page.new self.new }
        ensures answer { (core : Core) → IsAt core who page.old self.old
            → result ≡ (alone core who (plan_left (side_of core who))).1 }
        ensures taken { (core : Core) → IsAt core who page.old self.old
            → IsTaken result (side_of (alone core who (plan_left (side_of core who))).0 who).trail self.new.buffer.items }
        ensures idle { IsIdle (machine_of page.new who) }
        ensures call { self.new.call ≡ self.old.call }
        ensures other { other_of page.new who ≡ other_of page.old who }
    {
        if let Some(answer) = self.advance(page, who, ALL_EVENTS) {
            return answer;
        }
        unreachable!()
    }

    /// Makes at most this many events of the call that the end is inside, up to its answer.
    fn advance(&mut self, page: &mut Plain, who: Role, most: u32) -> Option<Answer>
        requires known { IsKnown who page.old self.old }
        requires busy { ¬ IsIdle (machine_of page.old who) }
        ensures at { (core : Core) → IsAt core who page.old self.old → IsAt (stepped most core who).0 who page.new self.new }
        ensures answer { (core : Core) → IsAt core who page.old self.old → result ≡ (stepped most core who).1 }
        ensures taken { IfSome result (λ answer. (core : Core) → IsAt core who page.old self.old
            → IsTaken answer (side_of (stepped most core who).0 who).trail self.new.buffer.items) }
        ensures idle { IfSome result (λ _. IsIdle (machine_of page.new who)) }
        ensures call { self.new.call ≡ self.old.call }
        ensures other { other_of page.new who ≡ other_of page.old who }
    {
        page.advance(
            who,
            most,
            self.payload.as_slice(),
            self.buffer.as_mut_slice(),
        )
    }
}

/// Returns why an end between two calls can't make a call now: the first reason that applies. An
/// end retires only once.
fn call_refusal(page: &Plain, who: Role, call: Call) -> Option<LineRefusal>
    requires idle { IsIdle (machine_of page.now who) }
    requires said { CanSay who call }
    ensures refusal { (core : Core) → StandsFor core page.now → result ≡ call_refusal_of core who call }
    ensures honest { result ≡ None → turned_of page.now who ≡ false }
    ensures allowed { result ≡ None → Allows (machine_of page.now who) call }
{
    if page.turned(who) {
        return Some(LineRefusal::Turned);
    }
    let machine = page.machine(who);
    if let Some(why) = machine.refusal(call) {
        return Some(refusal_of_call(why));
    }
    if retires_again(page, who, call) {
        return Some(LineRefusal::Shut);
    }
    None
}

/// Returns whether an end that has retired would retire again.
fn retires_again(page: &Plain, who: Role, call: Call) -> bool
    ensures { (core : Core) → StandsFor core page.now → result ≡ is_second_retire (side_of core who).state (has_retired_of core who) call }
{
    match (page.machine(who).state(), call) {
        (EndState::Shut, Call::Retire) => page.has_retired(who),
        _ => false,
    }
}

/// Returns why an end can't go on with a call now: the first reason that applies.
fn step_refusal(page: &Plain, who: Role) -> Option<LineRefusal>
    ensures refusal { (core : Core) → StandsFor core page.now → result ≡ step_refusal_of (side_of core who) }
    ensures busy { result ≡ None → ¬ IsIdle (machine_of page.now who) }
{
    if page.turned(who) {
        return Some(LineRefusal::Turned);
    }
    if page.machine(who).idle() {
        return Some(LineRefusal::Idle);
    }
    None
}
