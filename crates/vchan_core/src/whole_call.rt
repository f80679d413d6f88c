//! A whole call of an end of a plain page, made as quickly as its events allow.
//!
//! A page in memory, which no other thread sees, can't tell whether events are made one by one. So a
//! whole call keeps its phase in a local variable, makes at once the looks with which a write or a read
//! begins and the bytes of one piece of a ring, and has code of its own for the frequent events. Meanwhile
//! the machine of the end is as if between two calls: it holds only the end's own counts and its state.
ghost use Rattle.std.specs.Prelude.{◌≡◌, ◌≢◌, ℕ, ◌<◌, ◌≤◌, ◌+◌, ◌^◌, ◌∷◌, ◌++◌, [], List, length, take, ◌↔◌, IsSome, IfOk, IsTrue, true, false, slice_set};

use crate::phase::{Next, Phase};
use crate::plain::Plain;
use crate::steps::Steps;
use ring_words::Role;
use std::sync::ledger::Ledger;
use vchan_protocol::{Answer, Call};

mod events;
mod looks;
mod pieces;

/// The most looks that are made at once.
const MOST_LOOKS: u32 = 2;

impl Plain {
    ghost use Rattle.vchan_protocol.specs.Table.Apply.{Fits, words_after, value_taken, buffer_after, filled};
    ghost use Rattle.vchan_protocol.specs.Table.Plan.{after, next_op, past};
    ghost use Rattle.vchan_protocol.specs.Table.Ends.{Standing, read_size, peer_pending as peer_pending_of};
    ghost use Rattle.vchan_protocol.specs.Table.Calls.{plan_of, payload_of, loaded_most, most_events, Trace};
    ghost use Rattle.vchan_core.specs.OneMachine.Phases.{standing, at_phase, rest, rest_at, plan_at, rest_or_answer, IsIdle, Allows, payload_needed, buffer_needed, payload_at, buffer_at, payload_next, buffer_next, Stands, StandsOrAnswered};
    ghost use Rattle.vchan_protocol.specs.History.Core.{Core, opened, begun, event, side_of, writer_of, reader_of, plan_next, answer_in, bytes_loaded};
    ghost use Rattle.vchan_core.specs.Page.Counts.{capped};
    ghost use Rattle.ring_words.specs.Page.{index_of};
    ghost use Rattle.vchan_protocol.specs.Hostile.Turned.{MayPoke, poked, signalled};
    ghost use Rattle.vchan_protocol.specs.History.WholeCall.{called, call_answer};
    ghost use Rattle.vchan_protocol.specs.Honest.RingLaw.{AreBytes};
    ghost use Rattle.vchan_protocol.specs.Always.Invariant.{Invariant};
    ghost use Rattle.vchan_protocol.specs.Honest.Lawful.{Lawful};
    ghost use Rattle.vchan_protocol.specs.Lists.ListLaw.{FollowsLists};
    ghost use Rattle.vchan_core.specs.WholeCall.EventsMade.{MakesEvents};
    ghost use Rattle.vchan_core.specs.WholeCall.Beside.{IsBeside};
    ghost use Rattle.vchan_core.specs.WholeCall.AtPhase.{page_at, page_to};
    ghost use Rattle.vchan_core.specs.WholeCall.Stepped.{Advances};
    ghost use Rattle.vchan_core.specs.Page.StandsFor.{machine_of, other_of, words_of, orders_of, turned_of, op_of, StandsFor, HasPayload};
    ghost use Rattle.vchan_protocol.specs.declared.call.Call.{Call};
    ghost use Rattle.vchan_protocol.specs.declared.op.PastEvent.{PastEvent};

    /// Returns the phase with which a call of an end begins.
    #[inline(always)]
    fn first(&self, who: Role, call: Call) -> Phase
        requires { IsIdle (machine_of self.now who) }
        ensures stands { (core : Core) (payload : List ℕ) → StandsFor core self.now → length payload ≡ payload_of call → StandsFor (begun core who call payload) (page_at self.now who result) }
        ensures plan { rest_at (standing (machine_of self.now who)) result ≡ plan_of (standing (machine_of self.now who)) call }
        ensures payload_left { payload_at result ≤ payload_of call }
        ensures buffer_left { buffer_at (read_size (standing (machine_of self.now who))) result ≤ loaded_most (standing (machine_of self.now who)) call }
    {
        self.ends.of(who).machine.first(call)
    }

    /// Makes the looks of an end that come next in a write or a read, and that give no answer. Returns how many
    /// they were, and the phase after them.
    #[inline(always)]
    fn look_ahead(&self, who: Role, phase: Phase) -> (u32, Phase)
        ensures most { result.0 ≤ MOST_LOOKS }
        ensures low { ((standing (machine_of self.now who)).prod < 2 ^ 32) × ((standing (machine_of self.now who)).cons < 2 ^ 32) }
        ensures events { (payload : List ℕ) → (buffer : List ℕ)
            → MakesEvents result.0 (orders_of self.now) payload (at_phase (machine_of self.now who) phase) (words_of self.now) buffer (at_phase (machine_of self.now who) result.1) (words_of self.now) buffer }
    {
        self.ends
            .of(who)
            .machine
            .look_ahead(who, phase, &self.words)
    }

    /// Makes the events of an end that come next as long as they are all on bytes of one piece of a ring.
    /// Returns how many they were, and the phase after them; none gives an answer.
    #[inline(always)]
    fn move_piece(
        &mut self,
        who: Role,
        phase: Phase,
        payload: &[u8],
        buf: &mut [u8],
    ) -> (u32, Phase)
        requires payload { payload_at phase ≤ length payload.now }
        requires buf { buffer_at (read_size (standing (machine_of self.old who))) phase ≤ length buf.old }
        ensures page { IsBeside who self.old self.new }
        ensures machine { machine_of self.new who ≡ machine_of self.old who }
        ensures low { ((standing (machine_of self.old who)).prod < 2 ^ 32) × ((standing (machine_of self.old who)).cons < 2 ^ 32) }
        ensures events { MakesEvents result.0 (orders_of self.old) payload.now (at_phase (machine_of self.old who) phase) (words_of self.old) buf.old (at_phase (machine_of self.old who) result.1) (words_of self.new) buf.new }
    {
        self.ends
            .of(who)
            .machine
            .move_piece(who, phase, &mut self.words, payload, buf)
    }

    /// Makes [`Plain::look_ahead`] if that makes at most `most` events, and else no look.
    #[inline(always)]
    fn look_few(&self, who: Role, phase: Phase, most: u32) -> (u32, Phase)
        ensures within { result.0 ≤ most }
        ensures low { ((standing (machine_of self.now who)).prod < 2 ^ 32) × ((standing (machine_of self.now who)).cons < 2 ^ 32) }
        ensures events { (payload : List ℕ) → (buffer : List ℕ)
            → MakesEvents result.0 (orders_of self.now) payload (at_phase (machine_of self.now who) phase) (words_of self.now) buffer (at_phase (machine_of self.now who) result.1) (words_of self.now) buffer }
    {
        let _counts = self.machine(who).counts();
        if most < MOST_LOOKS {
            return (0, phase);
        }
        self.look_ahead(who, phase)
    }

    /// Makes [`Plain::move_piece`] with at most `most` events.
    #[inline(always)]
    fn move_few(
        &mut self,
        who: Role,
        phase: Phase,
        most: u32,
        payload: &[u8],
        buf: &mut [u8],
    ) -> (u32, Phase)
        requires payload { payload_at phase ≤ length payload.now }
        requires buf { buffer_at (read_size (standing (machine_of self.old who))) phase ≤ length buf.old }
        ensures within { result.0 ≤ most }
        ensures page { IsBeside who self.old self.new }
        ensures machine { machine_of self.new who ≡ machine_of self.old who }
        ensures low { ((standing (machine_of self.old who)).prod < 2 ^ 32) × ((standing (machine_of self.old who)).cons < 2 ^ 32) }
        ensures events { MakesEvents result.0 (orders_of self.old) payload.now (at_phase (machine_of self.old who) phase) (words_of self.old) buf.old (at_phase (machine_of self.old who) result.1) (words_of self.new) buf.new }
    {
        self.ends
            .of(who)
            .machine
            .move_few(who, phase, most, &mut self.words, payload, buf)
    }

    /// Makes the next events of an end as long as they are looks that give no answer, and then on bytes of one
    /// piece of a ring, but at most `most` events. Returns how many they were, and the phase after them.
    #[inline(always)]
    fn go_ahead(
        &mut self,
        who: Role,
        phase: Phase,
        most: u32,
        payload: &[u8],
        buf: &mut [u8],
    ) -> (u32, Phase)
        requires payload { payload_at phase ≤ length payload.now }
        requires buf { buffer_at (read_size (standing (machine_of self.old who))) phase ≤ length buf.old }
        ensures within { result.0 ≤ most }
        ensures page { IsBeside who self.old self.new }
        ensures machine { machine_of self.new who ≡ machine_of self.old who }
        ensures payload_left { payload_at result.1 ≤ payload_at phase }
        ensures buffer_left { buffer_at (read_size (standing (machine_of self.old who))) result.1 ≤ buffer_at (read_size (standing (machine_of self.old who))) phase }
        ensures low { ((standing (machine_of self.old who)).prod < 2 ^ 32) × ((standing (machine_of self.old who)).cons < 2 ^ 32) }
        ensures events { MakesEvents result.0 (orders_of self.old) payload.now (at_phase (machine_of self.old who) phase) (words_of self.old) buf.old (at_phase (machine_of self.old who) result.1) (words_of self.new) buf.new }
    {
        let _counts = self.machine(who).counts();
        if !phase.may_go_ahead() {
            return (0, phase);
        }
        let (looks, looked) = self.look_few(who, phase, most);
        let (moved, at) = self.move_few(who, looked, most - looks, payload, buf);
        (looks + moved, at)
    }

    /// Takes the phase of an end that is inside a call out of its machine.
    #[inline(always)]
    fn take_phase(&mut self, who: Role) -> Phase
        requires { ¬ IsIdle (machine_of self.old who) }
        ensures idle { IsIdle (machine_of self.new who) }
        ensures page { IsBeside who self.old self.new }
        ensures words { words_of self.new ≡ words_of self.old }
        ensures phase { machine_of self.old who ≡ at_phase (machine_of self.new who) result }
    {
        self.ends.of_mut(who).machine.take_phase()
    }

    /// Puts the phase of an end back into its machine.
    #[inline(always)]
    fn set_phase(&mut self, who: Role, phase: Phase)
        ensures page { IsBeside who self.old self.new }
        ensures words { words_of self.new ≡ words_of self.old }
        ensures phase { machine_of self.new who ≡ at_phase (machine_of self.old who) phase }
    {
        self.ends.of_mut(who).machine.set_phase(phase);
    }

    /// Makes one event of an end at a phase of its call. Its machine doesn't know of the call; only its own
    /// counts and its state change with the event.
    #[inline(always)]
    fn event(&mut self, who: Role, phase: Phase, payload: &[u8], buf: &mut [u8]) -> Next
        requires idle { IsIdle (machine_of self.old who) }
        requires payload { payload_at phase ≤ length payload.now }
        requires buf { buffer_at (read_size (standing (machine_of self.old who))) phase ≤ length buf.old }
        ensures stands { (core : Core) → StandsFor core (page_at self.old who phase) → HasPayload (side_of core who) payload.now → StandsFor (event core who) (page_to self.new who result) }
        ensures footprint { Fits (orders_of self.old) (length payload.now) (length buf.old) (next_op (rest_at (standing (machine_of self.old who)) phase)) }
        ensures buffer { buf.new ≡ buffer_after (orders_of self.old) (words_of self.old) buf.old (next_op (rest_at (standing (machine_of self.old who)) phase)) }
        ensures rest { plan_at (standing (machine_of self.new who)) result ≡ after (rest_at (standing (machine_of self.old who)) phase) (value_taken (orders_of self.old) (words_of self.old) (next_op (rest_at (standing (machine_of self.old who)) phase))) }
        ensures idle { IsIdle (machine_of self.new who) }
        ensures payload_left { payload_next result ≤ payload_at phase }
        ensures buffer_left { buffer_next (read_size (standing (machine_of self.new who))) result ≤ buffer_at (read_size (standing (machine_of self.old who))) phase }
        ensures other { other_of self.new who ≡ other_of self.old who }
    {
        self.ends
            .of_mut(who)
            .event(who, phase, &mut self.words, payload, buf)
    }

    /// Makes a whole call of an end; `steps` counts its events. The conditions are those of `begin` and `step`.
    /// Between two honest ends it is a call on the lists of what was sent and got.
    ///
    /// It makes at most `7 + min(n, size)` events for a request of n bytes, and a drain at most
    /// `10 + min(n, size)`, whatever the page holds; `size` is that of the ring through which bytes move.
    pub fn run_call<L: Ledger>(
        &mut self,
        who: Role,
        call: Call,
        payload: &[u8],
        buf: &mut [u8],
        steps: &mut Steps<L>,
    ) -> Answer
        requires honest { turned_of self.old who ≡ false }
        requires allowed { Allows (machine_of self.old who) call }
        requires payload { payload_of call ≤ length payload.now }
        requires buf { loaded_most (standing (machine_of self.old who)) call ≤ length buf.old }
        ensures stands { (core : Core) → StandsFor core self.old → StandsFor (called core who call (take (payload_of call) payload.now)) self.new }
        ensures invariant { (core : Core) → StandsFor core self.old → Invariant core → Invariant (called core who call (take (payload_of call) payload.now)) }
        ensures answer { (core : Core) → StandsFor core self.old → result ≡ call_answer core who call (take (payload_of call) payload.now) }
        ensures buffer { (core : Core) → StandsFor core self.old
            → buf.new ≡ filled buf.old (bytes_loaded (side_of (called core who call (take (payload_of call) payload.now)) who).trail) }
        ensures lists { (core : Core) → StandsFor core self.old → Lawful core → FollowsLists core who call (take (payload_of call) payload.now) }
        ensures trace { (events : List PastEvent) × Trace (standing (machine_of self.old who)) call events result × (steps.new ≡ steps.old + length events)
            × ((core : Core) → StandsFor core self.old → events ≡ (side_of (called core who call (take (payload_of call) payload.now)) who).trail) }
        ensures bound { steps.new ≤ steps.old + most_events (standing (machine_of self.old who)) call }
        ensures idle { IsIdle (machine_of self.new who) }
        ensures other { other_of self.new who ≡ other_of self.old who }
    {
        let mut phase = self.first(who, call);
        'events: loop {
            let (looks, looked) = self.look_ahead(who, phase);
            steps.add(looks);
            let (moved, at) = self.move_piece(who, looked, payload, buf);
            steps.add(moved);
            steps.tick();
            match self.event(who, at, payload, buf) {
                // An index is stored: the test of the peer's bit follows at once.
                Next::To(Phase::Notify { bit, answer }) => {
                    steps.tick();
                    match self.event(who, Phase::Notify { bit, answer }, payload, buf) {
                        Next::To(next) => phase = next,
                        Next::Done(answer) => return answer,
                    }
                }
                Next::To(next) => phase = next,
                Next::Done(answer) => return answer,
            }
        }
    }

    /// Makes at most `most` events of an end that is inside a call, up to its answer: fewer only if the answer
    /// came. The conditions are those of `step`.
    pub fn advance(
        &mut self,
        who: Role,
        most: u32,
        payload: &[u8],
        buf: &mut [u8],
    ) -> Option<Answer>
        requires busy { ¬ IsIdle (machine_of self.old who) }
        requires payload { payload_needed (machine_of self.old who) ≤ length payload.now }
        requires buf { buffer_needed (machine_of self.old who) ≤ length buf.old }
        ensures advances { (core : Core) → StandsFor core self.old → HasPayload (side_of core who) payload.now → Advances core who most self.new buf.old buf.new result }
        ensures idle { IsSome result ↔ IsIdle (machine_of self.new who) }
        ensures payload_left { payload_needed (machine_of self.new who) ≤ payload_needed (machine_of self.old who) }
        ensures buffer_left { buffer_needed (machine_of self.new who) ≤ buffer_needed (machine_of self.old who) }
        ensures other { other_of self.new who ≡ other_of self.old who }
    {
        let mut phase = self.take_phase(who);
        let mut left = most;
        'events: while left > 0 {
            let (made, at) = self.go_ahead(who, phase, left, payload, buf);
            phase = at;
            left -= made;
            if left == 0 {
                break;
            }
            match self.event(who, at, payload, buf) {
                Next::To(next) => phase = next,
                Next::Done(answer) => return Some(answer),
            }
            left -= 1;
        }
        self.set_phase(who, phase);
        None
    }
}
