//! The seat of an honest end, and the events that it makes on the words of its page.
//!
//! The machine, which tells which event comes next, is kept apart, and so are the words. So a whole call
//! can keep both in local variables: after an atomic step everything that lies in memory is loaded again.
ghost use Rattle.std.specs.Prelude.{◌≡◌, ◌≤◌, ◌+◌, ◌||◌, ℕ, [], ◌∷◌, length, IsSome, None, Some, ◌↔◌, false, true};
ghost use Rattle.vchan_protocol.specs.declared.call.EndState.TheVariants.{Shut};
ghost use Rattle.vchan_protocol.specs.Table.Plan.{after, GoesOn};
ghost use Rattle.vchan_protocol.specs.Table.Apply.{Fits};
ghost use Rattle.vchan_protocol.specs.History.Core.{op_next, plan_left, answer_in, side_after, sets_gone};
ghost use Rattle.vchan_protocol.specs.OneEnd.OneCall.{landed};
ghost use Rattle.vchan_protocol.specs.OneEnd.OneEndLaw.{OwnLawful};
ghost use Rattle.vchan_protocol.specs.Hostile.Turned.{turns};
ghost use Rattle.vchan_protocol.specs.Hostile.TurnedLaw.{LiesAtCount};
ghost use Rattle.vchan_core.specs.OneMachine.Phases.{IsIdle, payload_needed, buffer_needed};
ghost use Rattle.vchan_core.specs.Page.StandsFor.{HasPayload};
ghost use Rattle.vchan_rule.specs.declared.rule.View.TheVariants.{One};
ghost use Rattle.vchan_rule.specs.Seated.{driven, AreWordsOf};
ghost use Rattle.vchan_rule.specs.Along.{GoesAlong};
ghost use Rattle.vchan_rule.specs.Ends.{Agrees, Pays, IsSameEnd, end_in, seen};
ghost use Rattle.vchan_rule.specs.Going.{IsReady, Goes};

use crate::rule::{PageWords, TableSeat};
use crate::steps::{give_up, perform, put_bytes, take_bytes};
use crate::turned::{Retired, TurnedEnd};
use crate::words::EndWords;
use ring_words::{Layout, Orders, Role, WordName};
use std::marker::{Brand, Model};
use std::snapshot::Snapshot;
use vchan_core::words::{cons_word, written_ring};
use vchan_core::{Ahead, Answer, Call, Machine, Op};

/// The ways of a whole call: most calls make most of their events in an order that the compiler can see.
pub(crate) const WRITES: u8 = 0;

pub(crate) const SENDS: u8 = 1;

pub(crate) const READS: u8 = 2;

pub(crate) const DRAINS: u8 = 3;

pub(crate) const CONNECTS: u8 = 4;

pub(crate) const RETIRES: u8 = 5;

pub(crate) const SIGNALS: u8 = 6;

pub(crate) const OTHERWISE: u8 = 7;

/// The part of a drain whose first look found nothing: it asks for a signal, and looks at the index again.
const ASKS: u8 = 8;

/// The part of a drain after that: it looks whether its peer is shut or gone.
const LOOKS: u8 = 9;

/// The last part of a retire: it sets the own gone word and signals.
const GOES: u8 = 10;

/// An end's seat at the table of its page: all of the end except the words and its machine.
#[derive(Drop)]
pub(crate) struct EndSeat {
    seat: TableSeat,
    layout: Layout,
    role: Role,
    retired: bool,
    begun: Snapshot<Option<Call>>,
}

impl Model for EndSeat {
    ghost use Rattle.std.specs.Prelude.{◌≡◌, [], ◌∷◌};
    ghost use Rattle.vchan_rule.specs.Seated.{SeatedCall};
    ghost use Rattle.vchan_rule.specs.Ends.{end_in};
    ghost use Rattle.vchan_rule.specs.declared.rule.View.TheVariants.{One};

    ghost Value = { SeatedCall };

    ghost view = { λ e. record { page = e.seat.table_id; side = end_in e.seat.me.0; begun = e.begun.value } };

    ghost invariant = { λ e. (e.seat.me ≡ (One (end_in e.seat.me.0), [])) × ((end_in e.seat.me.0).orders ≡ e.layout.orders) × ((end_in e.seat.me.0).role ≡ e.role) × ((end_in e.seat.me.0).retired ≡ e.retired) };
}

/// Puts a ring byte that was loaded at its place in the buffer.
#[inline(always)]
fn land(op: Op, value: u64, buf: &mut [u8])
    requires { (orders : _) × (out : ℕ) × Fits orders out (length buf.old) op }
    ensures { buf.new ≡ landed op value buf.old }
{
    if let Op::LoadByte { word: _, at } = op {
        buf[at as usize] = (value % 256) as u8;
    }
}

/// Returns whether an end is retired after an event: it is from its store to its own gone word on.
#[inline(always)]
fn retired_after(op: Op, role: Role, retired: bool) -> bool
    ensures { result ≡ (sets_gone op role || retired) }
{
    match op {
        Op::Store { word, value: _ } => match (word, role) {
            (WordName::SrvGone, Role::Server) => true,
            (WordName::CliGone, Role::Client) => true,
            _ => retired,
        },
        _ => retired,
    }
}

impl EndSeat {
    /// Makes the seat of an end that has not retired and is in no call.
    pub(crate) fn new(seat: TableSeat, role: Role, orders: Orders) -> EndSeat
        requires one { seat.me ≡ (One (end_in seat.me.0), []) }
        requires side { ((end_in seat.me.0).orders ≡ orders) × ((end_in seat.me.0).role ≡ role) × ((end_in seat.me.0).retired ≡ false) }
        ensures { (result.page ≡ seat.table_id) × (result.side ≡ end_in seat.me.0) × (result.begun ≡ None) }
    {
        let begun = Snapshot::of(&None);
        EndSeat {
            seat,
            layout: Layout::new(orders),
            role,
            retired: false,
            begun,
        }
    }

    pub(crate) fn role(&self) -> Role
        ensures { result ≡ self.now.side.role }
    {
        self.role
    }

    pub(crate) fn orders(&self) -> Orders
        ensures { result ≡ self.now.side.orders }
    {
        self.layout.orders
    }

    pub(crate) fn retired(&self) -> bool
        ensures { result ≡ self.now.side.retired }
    {
        self.retired
    }

    /// Notes the call that begins, and makes no event.
    #[inline(always)]
    pub(crate) fn begin(&mut self, call: Call)
        ensures same { (self.new.page ≡ self.old.page) × (self.new.side ≡ self.old.side) }
        ensures begun { self.new.begun ≡ Some call }
    {
        self.begun = Snapshot::of(&Some(call));
    }

    /// Makes the next event of the call under way, as one step of the table.
    #[inline(always)]
    pub(crate) fn event(
        &mut self,
        words: &PageWords,
        machine: &mut Machine,
        payload: &[u8],
        buf: &mut [u8],
    ) -> Option<Answer>
        requires words { AreWordsOf words.now.table_id words.now.key self.old }
        requires ready { IsReady (driven words.now.key.start self.old machine.old) payload.now buf.old }
        ensures words { AreWordsOf words.now.table_id words.now.key self.new }
        ensures same { IsSameEnd (driven words.now.key.start self.old machine.old) (driven words.now.key.start self.new machine.new) }
        ensures event { (taken : ℕ) × (self.new.side ≡ side_after (seen (driven words.now.key.start self.old machine.old) payload.now) taken) × (result ≡ answer_in (after (plan_left (seen (driven words.now.key.start self.old machine.old) payload.now)) taken)) × (buf.new ≡ landed (op_next (seen (driven words.now.key.start self.old machine.old) payload.now)) taken buf.old) }
        ensures goes_on { GoesOn (plan_left (seen (driven words.now.key.start self.old machine.old) payload.now)) }
        ensures agrees { Agrees words.now.key.start None machine.new self.new.side }
        ensures places { LiesAtCount (seen (driven words.now.key.start self.old machine.old) payload.now) (op_next (seen (driven words.now.key.start self.old machine.old) payload.now)) }
        ensures begun { self.new.begun ≡ None }
        ensures payload { HasPayload self.new.side payload.now }
        ensures idle { IsSome result ↔ IsIdle machine.new }
        ensures out { payload_needed machine.new ≤ payload_needed machine.old }
        ensures into { buffer_needed machine.new ≤ buffer_needed machine.old }
    {
        let op = machine.next();
        let value = perform::<Brand>(
            words,
            &mut self.seat,
            &self.begun,
            &self.layout,
            payload,
            op,
        );
        self.begun = Snapshot::of(&None);
        self.retired = retired_after(op, self.role, self.retired);
        land(op, value, buf);
        machine.took(value)
    }

    /// Makes the events that come next as long as they are on bytes of a ring.
    #[inline(always)]
    pub(crate) fn move_bytes(
        &mut self,
        words: &PageWords,
        machine: &mut Machine,
        payload: &[u8],
        buf: &mut [u8],
    )
        requires words { AreWordsOf words.now.table_id words.now.key self.old }
        requires ready { IsReady (driven words.now.key.start self.old machine.old) payload.now buf.old }
        requires begun { self.old.begun ≡ None }
        ensures words { AreWordsOf words.now.table_id words.now.key self.new }
        ensures same { IsSameEnd (driven words.now.key.start self.old machine.old) (driven words.now.key.start self.new machine.new) }
        ensures along { GoesAlong self.old.side buf.old self.new.side buf.new }
        ensures agrees { Agrees words.now.key.start None machine.new self.new.side }
        ensures busy { ¬ IsIdle machine.new }
        ensures begun { self.new.begun ≡ None }
        ensures payload { HasPayload self.new.side payload.now }
        ensures out { payload_needed machine.new ≤ payload_needed machine.old }
        ensures into { buffer_needed machine.new ≤ buffer_needed machine.old }
    {
        match machine.ahead() {
            Ahead::Puts(span) => {
                put_bytes(words, &mut self.seat, &self.layout, machine, span, payload);
                machine.put_all(span);
            }
            Ahead::Takes(span) => {
                take_bytes(
                    words,
                    &mut self.seat,
                    &self.layout,
                    machine,
                    span,
                    payload,
                    buf,
                );
                machine.take_all(span);
            }
            Ahead::Elsewhere => {}
        }
    }

    /// Makes the next event of a call, whichever call that is.
    #[inline(always)]
    fn next_event(
        &mut self,
        words: &PageWords,
        machine: &mut Machine,
        payload: &[u8],
        buf: &mut [u8],
    ) -> Option<Answer>
        requires words { AreWordsOf words.now.table_id words.now.key self.old }
        requires ready { IsReady (driven words.now.key.start self.old machine.old) payload.now buf.old }
        ensures words { AreWordsOf words.now.table_id words.now.key self.new }
        ensures begun { self.new.begun ≡ None }
        ensures goes { Goes (driven words.now.key.start self.old machine.old) payload.now buf.old result (driven words.now.key.start self.new machine.new) buf.new }
    {
        self.event(words, machine, payload, buf)
    }

    /// Makes a look at the peer's index, then moves the bytes, stores the index that shows or releases them,
    /// tests whether the peer asked for a signal, and signals it: the events of most calls that move bytes.
    #[inline(always)]
    fn look_and_move<const WAY: u8>(
        &mut self,
        words: &PageWords,
        machine: &mut Machine,
        payload: &[u8],
        buf: &mut [u8],
    ) -> Option<Answer>
        requires words { AreWordsOf words.now.table_id words.now.key self.old }
        requires ready { IsReady (driven words.now.key.start self.old machine.old) payload.now buf.old }
        ensures words { AreWordsOf words.now.table_id words.now.key self.new }
        ensures goes { Goes (driven words.now.key.start self.old machine.old) payload.now buf.old result (driven words.now.key.start self.new machine.new) buf.new }
    {
        if let Some(answer) = self.next_event(words, machine, payload, buf) {
            return Some(answer);
        }
        self.move_bytes(words, machine, payload, buf);
        self.three_events::<WAY>(words, machine, payload, buf)
    }

    #[inline(always)]
    fn two_events<const WAY: u8>(
        &mut self,
        words: &PageWords,
        machine: &mut Machine,
        payload: &[u8],
        buf: &mut [u8],
    ) -> Option<Answer>
        requires words { AreWordsOf words.now.table_id words.now.key self.old }
        requires ready { IsReady (driven words.now.key.start self.old machine.old) payload.now buf.old }
        ensures words { AreWordsOf words.now.table_id words.now.key self.new }
        ensures goes { Goes (driven words.now.key.start self.old machine.old) payload.now buf.old result (driven words.now.key.start self.new machine.new) buf.new }
    {
        if let Some(answer) = self.next_event(words, machine, payload, buf) {
            return Some(answer);
        }
        self.next_event(words, machine, payload, buf)
    }

    #[inline(always)]
    fn three_events<const WAY: u8>(
        &mut self,
        words: &PageWords,
        machine: &mut Machine,
        payload: &[u8],
        buf: &mut [u8],
    ) -> Option<Answer>
        requires words { AreWordsOf words.now.table_id words.now.key self.old }
        requires ready { IsReady (driven words.now.key.start self.old machine.old) payload.now buf.old }
        ensures words { AreWordsOf words.now.table_id words.now.key self.new }
        ensures goes { Goes (driven words.now.key.start self.old machine.old) payload.now buf.old result (driven words.now.key.start self.new machine.new) buf.new }
    {
        if let Some(answer) = self.two_events::<WAY>(words, machine, payload, buf) {
            return Some(answer);
        }
        self.next_event(words, machine, payload, buf)
    }

    /// Makes two events, and two more if the call isn't over then.
    #[inline(always)]
    fn four_events<const FIRST: u8, const THEN: u8>(
        &mut self,
        words: &PageWords,
        machine: &mut Machine,
        payload: &[u8],
        buf: &mut [u8],
    ) -> Option<Answer>
        requires words { AreWordsOf words.now.table_id words.now.key self.old }
        requires ready { IsReady (driven words.now.key.start self.old machine.old) payload.now buf.old }
        ensures words { AreWordsOf words.now.table_id words.now.key self.new }
        ensures goes { Goes (driven words.now.key.start self.old machine.old) payload.now buf.old result (driven words.now.key.start self.new machine.new) buf.new }
    {
        if let Some(answer) = self.two_events::<FIRST>(words, machine, payload, buf) {
            return Some(answer);
        }
        self.two_events::<THEN>(words, machine, payload, buf)
    }

    /// Goes on with a drain that has begun: a look, then the events of `look_and_move` if it found bytes. Else
    /// it asks for a signal and looks again, and if nothing came it checks whether the peer is live, and whether
    /// it is gone.
    #[inline(always)]
    fn look_and_drain(
        &mut self,
        words: &PageWords,
        machine: &mut Machine,
        payload: &[u8],
        buf: &mut [u8],
    ) -> Option<Answer>
        requires words { AreWordsOf words.now.table_id words.now.key self.old }
        requires ready { IsReady (driven words.now.key.start self.old machine.old) payload.now buf.old }
        ensures words { AreWordsOf words.now.table_id words.now.key self.new }
        ensures goes { Goes (driven words.now.key.start self.old machine.old) payload.now buf.old result (driven words.now.key.start self.new machine.new) buf.new }
    {
        if let Some(answer) = self.next_event(words, machine, payload, buf) {
            return Some(answer);
        }
        if let Ahead::Elsewhere = machine.ahead() {
            return self.four_events::<ASKS, LOOKS>(words, machine, payload, buf);
        }
        self.move_bytes(words, machine, payload, buf);
        self.three_events::<DRAINS>(words, machine, payload, buf)
    }

    /// Makes the first events of a call of this way that was just begun; most calls are over then. It makes no
    /// event of a call of no such way.
    #[inline(always)]
    pub(crate) fn quickly<const WAY: u8>(
        &mut self,
        words: &PageWords,
        machine: &mut Machine,
        payload: &[u8],
        buf: &mut [u8],
    ) -> Option<Answer>
        requires words { AreWordsOf words.now.table_id words.now.key self.old }
        requires ready { IsReady (driven words.now.key.start self.old machine.old) payload.now buf.old }
        ensures goes { Goes (driven words.now.key.start self.old machine.old) payload.now buf.old result (driven words.now.key.start self.new machine.new) buf.new }
        ensures words { AreWordsOf words.now.table_id words.now.key self.new }
    {
        match WAY {
            WRITES | SENDS => {
                // The first event is the check whether the peer is live.
                if let Some(answer) = self.next_event(words, machine, payload, buf) {
                    return Some(answer);
                }
                self.look_and_move::<WAY>(words, machine, payload, buf)
            }
            READS => self.look_and_move::<READS>(words, machine, payload, buf),
            DRAINS => self.look_and_drain(words, machine, payload, buf),
            CONNECTS => self.three_events::<CONNECTS>(words, machine, payload, buf),
            RETIRES => self.four_events::<RETIRES, GOES>(words, machine, payload, buf),
            SIGNALS => self.next_event(words, machine, payload, buf),
            _ => None,
        }
    }

    /// Turns the end over to a hostile user, with one event: a load of the consumer index of its own ring.
    pub(crate) fn turn<'p>(self, words: EndWords<'p>) -> TurnedEnd<'p>
        requires words { AreWordsOf words.table words.key self }
        requires honest { self.side.turned ≡ false }
        ensures page { result.page ≡ self.page }
        ensures side { (consumed : ℕ) × (result.side ≡ turns self.side consumed) }
    {
        let Self {
            mut seat,
            layout,
            role,
            retired: _,
            begun: _,
        } = self;
        let word = cons_word(written_ring(role));
        give_up::<Brand>(words.get(), &mut seat, &layout, word);
        TurnedEnd {
            words,
            seat,
            layout,
            role,
        }
    }

    /// Ends the end's work on the page: it makes no event any more.
    pub(crate) fn rest(self) -> Retired
        requires honest { self.side.turned ≡ false }
        requires retired { self.side.retired ≡ true }
        requires shut { self.side.state ≡ Shut }
        ensures { (result.page ≡ self.page) × (result.side ≡ self.side) }
    {
        let Self {
            seat,
            layout: _,
            role,
            retired: _,
            begun: _,
        } = self;
        Retired {
            seat,
            role,
            turned: false,
        }
    }
}
