//! An honest end of a page, which makes one event at a time.
ghost use Rattle.std.specs.Prelude.{◌≡◌, ◌≢◌, ◌≤◌, ◌+◌, ◌||◌, ◌<◌, ◌^◌, ℕ, false, true, take, [], ◌∷◌, length, IsTrue, IsSome, None, Some, ◌↔◌};
ghost use Rattle.ring_words.specs.Page.{word_count};
ghost use Rattle.vchan_protocol.specs.Table.Ends.{own_gone};
ghost use Rattle.vchan_protocol.specs.Table.Plan.{after, GoesOn};
ghost use Rattle.vchan_protocol.specs.Table.Apply.{Fits};
ghost use Rattle.vchan_protocol.specs.Table.Calls.{payload_of, loaded_most, most_events};
ghost use Rattle.vchan_protocol.specs.History.Core.{op_next, plan_left, answer_in, side_after, standing_of, new_side, sets_gone};
ghost use Rattle.vchan_protocol.specs.OneEnd.OneCall.{landed, bytes_out, bytes_in, IsOver, OverTells};
ghost use Rattle.vchan_protocol.specs.OneEnd.OneEndLaw.{OwnLawful};
ghost use Rattle.vchan_protocol.specs.Hostile.Turned.{turns};
ghost use Rattle.vchan_protocol.specs.Hostile.TurnedLaw.{LiesAtCount};
ghost use Rattle.vchan_core.specs.OneMachine.Phases.{IsIdle, payload_needed, buffer_needed};
ghost use Rattle.vchan_core.specs.Page.StandsFor.{HasPayload};
ghost use Rattle.end_view.specs.AfterCall.{MayCall, answered_view, SeesAsTold};
ghost use Rattle.vchan_rule.specs.declared.rule.View.TheVariants.{One};
ghost use Rattle.vchan_rule.specs.Seated.{view};
ghost use Rattle.vchan_rule.specs.Along.{GoesAlong};
ghost use Rattle.vchan_rule.specs.Going.{Starts};
ghost use Rattle.vchan_rule.specs.Called.{MayMake, HasCalled};
ghost use Rattle.vchan_rule.specs.Ends.{Pays, IsSameEnd, seen};

use crate::end_seat::{
    CONNECTS, DRAINS, EndSeat, OTHERWISE, READS, RETIRES, SENDS, SIGNALS, WRITES,
};
use crate::rule::TableSeat;
use crate::turned::{Retired, TurnedEnd};
use crate::words::EndWords;
use ring_words::{Orders, Role};
use std::marker::Model;
use std::sync::ledger::Ledger;
use vchan_core::{Answer, Call, EndState, Machine, Steps};

/// An honest end of a page. Between two calls it is idle. A call is begun, and then made event by event;
/// each event is one atomic step on one word of the page.
#[derive(Drop)]
pub struct End<'p> {
    words: EndWords<'p>,
    seat: EndSeat,
    machine: Machine,
}

impl<'p> Model for End<'p> {
    ghost use Rattle.vchan_rule.specs.Seated.{SeatedEnd, driven, AreWordsOf};
    ghost use Rattle.vchan_rule.specs.Ends.{Agrees};

    ghost Value = { SeatedEnd };

    ghost view = { λ e. driven e.words.key.start e.seat e.machine };

    ghost invariant = { λ e. Agrees e.words.key.start e.seat.begun e.machine e.seat.side × AreWordsOf e.words.table e.words.key e.seat };
}

impl<'p> End<'p> {
    /// Makes the end of a seat that has done nothing.
    pub(crate) fn new(
        words: EndWords<'p>,
        seat: TableSeat,
        role: Role,
        orders: Orders,
        state: EndState,
        start: u32,
    ) -> End<'p>
        requires page { (seat.table_id ≡ words.table) × (words.table.words ≡ word_count orders) × (words.key.orders ≡ orders) × (words.key.start ≡ start) }
        requires state { role ≡ Role.Server → state ≢ EndState.Fresh }
        requires fresh { seat.me ≡ (One (new_side role orders start state), []) }
        ensures { (result.page ≡ seat.table_id) × (result.side ≡ new_side role orders start state) × (result.start ≡ start) × (result.begun ≡ None) × IsIdle result.machine }
    {
        let machine = Machine::new(role, orders, state, start);
        let seat = EndSeat::new(seat, role, orders);
        End {
            words,
            seat,
            machine,
        }
    }

    /// Returns which end it is.
    pub fn role(&self) -> Role
        ensures { result ≡ self.now.side.role }
    {
        self.seat.role()
    }

    /// Returns the orders of the page.
    pub fn orders(&self) -> Orders
        ensures { result ≡ self.now.side.orders }
    {
        self.seat.orders()
    }

    /// Returns where the end stands in its life.
    pub fn state(&self) -> EndState
        ensures { result ≡ self.now.side.state }
    {
        self.machine.state()
    }

    /// Returns whether the end is between two calls.
    pub fn idle(&self) -> bool
        ensures { result ≡ (view self.now).idle }
    {
        self.machine.idle()
    }

    /// Returns whether it has set its gone word, which tells its peer that it is done.
    pub fn retired(&self) -> bool
        ensures { result ≡ self.now.side.retired }
    {
        self.seat.retired()
    }

    /// Returns whether this call may begin now: between two calls, a connect on a fresh client, a close on an
    /// end that isn't shut, a retire in any state, and every other call on an open end. A drain must ask for at
    /// least one byte.
    pub fn allows(&self, call: Call) -> bool
        ensures { IsTrue result ↔ MayCall (view self.now) call }
    {
        self.machine.allows(call)
    }

    /// Gives the facts that hold of an honest end, whatever its peer stores: its own counts are the lengths of
    /// its lists, within a call its trail begins that call, and between two calls its trail is the whole last
    /// one.
    pub fn vouch(&self)
        ensures { OwnLawful self.now.start self.now.side }
    {
        let _ = &self.seat;
    }

    /// Begins a call, and makes no event.
    pub fn begin(&mut self, call: Call)
        requires { MayCall (view self.old) call }
        ensures same { IsSameEnd self.old self.new × (self.new.side ≡ self.old.side) }
        ensures begun { self.new.begun ≡ Some call }
        ensures own { OwnLawful self.new.start self.new.side }
        ensures busy { ¬ IsIdle self.new.machine }
        ensures out { payload_needed self.new.machine ≤ payload_of call }
        ensures into { buffer_needed self.new.machine ≤ loaded_most (standing_of self.old.side) call }
    {
        self.machine.begin(call);
        self.seat.begin(call);
    }

    /// Makes the next event of the call under way, as one step of the table. Returns the answer after the last
    /// event of the call.
    ///
    /// A byte that was loaded lands in `buf`, and nothing else of `buf` changes. `payload` holds the bytes of a
    /// write or a send, the same at each step of a call.
    #[inline(always)]
    pub fn step(&mut self, payload: &[u8], buf: &mut [u8]) -> Option<Answer>
        requires busy { ¬ IsIdle self.old.machine }
        requires out { payload_needed self.old.machine ≤ length payload.now }
        requires into { buffer_needed self.old.machine ≤ length buf.old }
        requires payload { Pays self.old.begun self.old.side payload.now }
        ensures same { IsSameEnd self.old self.new }
        ensures event { (taken : ℕ) × (self.new.side ≡ side_after (seen self.old payload.now) taken) × (result ≡ answer_in (after (plan_left (seen self.old payload.now)) taken)) × (buf.new ≡ landed (op_next (seen self.old payload.now)) taken buf.old) }
        ensures goes_on { GoesOn (plan_left (seen self.old payload.now)) }
        ensures own { OwnLawful self.new.start self.new.side }
        ensures places { LiesAtCount (seen self.old payload.now) (op_next (seen self.old payload.now)) }
        ensures begun { self.new.begun ≡ None }
        ensures payload { HasPayload self.new.side payload.now }
        ensures idle { IsSome result ↔ IsIdle self.new.machine }
        ensures out { payload_needed self.new.machine ≤ payload_needed self.old.machine }
        ensures into { buffer_needed self.new.machine ≤ buffer_needed self.old.machine }
    {
        let words = self.words.get();
        self.seat.event(words, &mut self.machine, payload, buf)
    }

    /// Makes the events that come next as long as they are on bytes of a ring.
    #[inline(always)]
    fn move_bytes(&mut self, payload: &[u8], buf: &mut [u8])
        requires busy { ¬ IsIdle self.old.machine }
        requires begun { self.old.begun ≡ None }
        requires out { payload_needed self.old.machine ≤ length payload.now }
        requires into { buffer_needed self.old.machine ≤ length buf.old }
        requires payload { HasPayload self.old.side payload.now }
        ensures same { IsSameEnd self.old self.new }
        ensures along { GoesAlong self.old.side buf.old self.new.side buf.new }
        ensures busy { ¬ IsIdle self.new.machine }
        ensures begun { self.new.begun ≡ None }
        ensures payload { HasPayload self.new.side payload.now }
        ensures out { payload_needed self.new.machine ≤ payload_needed self.old.machine }
        ensures into { buffer_needed self.new.machine ≤ buffer_needed self.old.machine }
    {
        let words = self.words.get();
        self.seat.move_bytes(words, &mut self.machine, payload, buf);
    }

    /// Begins a call, and makes its first events on a machine of its own, as long as the compiler can see their
    /// order.
    #[inline(always)]
    fn start<const WAY: u8>(&mut self, call: Call, payload: &[u8], buf: &mut [u8]) -> Option<Answer>
        requires { MayMake self.old call payload.now buf.old }
        ensures starts { Starts self.old call payload.now buf.old result self.new buf.new }
        ensures honest { self.old.side.turned ≡ false }
    {
        let words = self.words.get();
        let mut machine = self.machine.inside(call);
        self.seat.begin(call);
        let first = self.seat.quickly::<WAY>(words, &mut machine, payload, buf);
        if let Some(answer) = first {
            self.machine.take_over(&machine);
            return Some(answer);
        }
        self.machine = machine;
        None
    }

    /// Makes a whole call of this way.
    fn whole_call<const WAY: u8>(&mut self, call: Call, payload: &[u8], buf: &mut [u8]) -> Answer
        requires { MayMake self.old call payload.now buf.old }
        ensures { HasCalled self.old call payload.now buf.old self.new buf.new result }
    {
        if let Some(answer) = self.start::<WAY>(call, payload, buf) {
            return answer;
        }
        'events: loop {
            if let Some(answer) = self.step(payload, buf) {
                return answer;
            }
            self.move_bytes(payload, buf);
        }
    }

    /// Makes a whole call. Its events become the end's trail, and the lists grow as its answer tells.
    #[inline(always)]
    pub fn do_call(&mut self, call: Call, payload: &[u8], buf: &mut [u8]) -> Answer
        requires { MayMake self.old call payload.now buf.old }
        ensures { HasCalled self.old call payload.now buf.old self.new buf.new result }
    {
        match call {
            Call::Write { len } => self.whole_call::<WRITES>(Call::Write { len }, payload, buf),
            Call::Send { len } => self.whole_call::<SENDS>(Call::Send { len }, payload, buf),
            Call::Read { most } => self.whole_call::<READS>(Call::Read { most }, payload, buf),
            Call::Drain { most } => self.whole_call::<DRAINS>(Call::Drain { most }, payload, buf),
            Call::Connect => self.whole_call::<CONNECTS>(Call::Connect, payload, buf),
            Call::Retire => self.whole_call::<RETIRES>(Call::Retire, payload, buf),
            Call::TakeEvent => self.whole_call::<SIGNALS>(Call::TakeEvent, payload, buf),
            _ => self.whole_call::<OTHERWISE>(call, payload, buf),
        }
    }

    /// Makes a whole call event by event; `steps` counts them. `do_call` is quicker.
    pub fn counted_call<L: Ledger>(
        &mut self,
        call: Call,
        payload: &[u8],
        buf: &mut [u8],
        steps: &mut Steps<L>,
    ) -> Answer
        requires { MayMake self.old call payload.now buf.old }
        ensures called { HasCalled self.old call payload.now buf.old self.new buf.new result }
        ensures steps { steps.new ≡ steps.old + length self.new.side.trail }
    {
        self.begin(call);
        'events: loop {
            steps.tick();
            if let Some(answer) = self.step(payload, buf) {
                return answer;
            }
        }
    }

    /// Turns the end over to a hostile user, with one event: a load of the consumer index of the ring that it
    /// writes. A call under way is dropped.
    pub fn turn(self) -> TurnedEnd<'p>
        ensures page { result.page ≡ self.entry.page }
        ensures side { (consumed : ℕ) × (result.side ≡ turns self.entry.side consumed) }
    {
        let Self {
            words,
            seat,
            machine: _,
        } = self;
        seat.turn(words)
    }

    /// Ends the end's work on the page: it makes no event any more. It must have retired, and so it is shut.
    pub fn rest(self) -> Retired
        requires idle { (view self).idle ≡ true }
        requires retired { self.side.retired ≡ true }
        ensures same { (result.page ≡ self.entry.page) × (result.side ≡ self.entry.side) }
        ensures honest { result.side.turned ≡ false }
    {
        let Self {
            words: _,
            seat,
            machine: _,
        } = self;
        seat.rest()
    }
}
