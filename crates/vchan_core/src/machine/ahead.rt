//! The bytes that come next in a put or a take, and the notify with which a call ends, for a caller
//! that makes these events by itself.
ghost use Rattle.std.specs.Prelude.{◌≡◌, ◌≤◌, ◌↔◌, IsSome, IfSome};
ghost use Rattle.vchan_protocol.specs.Table.Calls.{plan_of, payload_of, loaded_most};
ghost use Rattle.vchan_protocol.specs.Table.Plan.{next_op};
ghost use Rattle.vchan_core.specs.OneMachine.Phases.{standing, rest, rest_at, at_phase, IsIdle, Allows, payload_needed, buffer_needed};
ghost use Rattle.vchan_core.specs.OneMachine.Ahead.{IsAhead, IsAnd, IsLastNotify, IsLookBehind, look_at as look_at_of, look_behind as look_behind_of, put_at, take_at};

use super::Machine;
use crate::phase::Phase;
use crate::words::{cons_word, notify_word};
use ring_words::{Order, Ring, WordName};
use vchan_protocol::{Answer, Bit, Call};

/// The bytes of a put or a take that are still to be moved: those from `at` on, up to `count`. Byte
/// number `k` lies where the ring holds the byte of the index `index + k`.
#[derive(Clone, Copy)]
pub struct Span {
    /// The ring that they lie in.
    pub ring: Ring,
    /// Its order.
    pub order: Order,
    /// The index of byte number 0.
    pub index: u32,
    /// The number of the next byte.
    pub at: u32,
    /// How many bytes the call moves.
    pub count: u32,
    /// What the call answers after they are moved.
    pub answer: Answer,
}

/// The bytes that come next.
#[derive(Clone, Copy)]
pub enum Ahead {
    /// The next events store these bytes.
    Puts(Span),
    /// The next events load these bytes.
    Takes(Span),
    /// The next event is on no byte of a ring.
    Elsewhere,
}

/// The notify with which a call ends: the peer's bit in a notify byte is cleared, the peer is signalled if
/// that bit was set, and the call answers.
#[derive(Clone, Copy)]
pub struct LastNotify {
    /// The notify byte.
    pub word: WordName,
    /// The bit.
    pub bit: Bit,
    /// What the call answers.
    pub answer: Answer,
}

impl Machine {
    /// Returns the bytes that come next.
    #[inline(always)]
    pub fn ahead(&self) -> Ahead
        ensures { IsAhead self.now result }
    {
        match self.phase {
            None => Ahead::Elsewhere,
            Some(phase) => self.ahead_at(phase),
        }
    }

    /// Marks all bytes of a put as stored.
    #[inline(always)]
    pub fn put_all(&mut self, span: Span)
        ensures { self.new ≡ put_at self.old span span.count }
    {
        self.phase = Some(Phase::Put {
            at: span.count,
            count: span.count,
            answer: span.answer,
        });
    }

    /// Marks all bytes of a take as loaded.
    #[inline(always)]
    pub fn take_all(&mut self, span: Span)
        ensures { self.new ≡ take_at self.old span span.count }
    {
        self.phase = Some(Phase::Take {
            at: span.count,
            count: span.count,
            answer: span.answer,
        });
    }

    /// Marks the bytes of a put before number `at` as stored.
    #[inline(always)]
    pub fn put_to(&mut self, span: Span, at: u32)
        ensures { self.new ≡ put_at self.old span at }
    {
        self.phase = Some(Phase::Put {
            at,
            count: span.count,
            answer: span.answer,
        });
    }

    /// Marks the bytes of a take before number `at` as loaded.
    #[inline(always)]
    pub fn take_to(&mut self, span: Span, at: u32)
        ensures { self.new ≡ take_at self.old span at }
    {
        self.phase = Some(Phase::Take {
            at,
            count: span.count,
            answer: span.answer,
        });
    }

    /// Returns the notify with which the call under way ends, if nothing else is left of it: if and only if
    /// the next event is an and.
    #[inline(always)]
    pub fn last_notify(&self) -> Option<LastNotify>
        ensures plan { IfSome result (IsLastNotify self.now) }
        ensures some { IsSome result ↔ IsAnd (next_op (rest self.now)) }
    {
        match self.phase {
            None => None,
            Some(phase) => self.last_notify_at(phase),
        }
    }

    /// Returns the word that a write or a send loads after its peer's live byte, if that byte comes next. It
    /// is loaded whenever the byte isn't 0.
    #[inline(always)]
    pub fn look_behind(&self) -> Option<WordName>
        ensures word { result ≡ look_behind_of self.now }
        ensures look { IfSome result (IsLookBehind self.now) }
    {
        match self.phase {
            None => None,
            Some(phase) => self.look_at(phase),
        }
    }

    /// Returns a copy that is inside this call, which begins now.
    #[inline(always)]
    pub fn inside(&self, call: Call) -> Machine
        requires { Allows self.now call }
        ensures standing { standing result ≡ standing self.now }
        ensures rest { rest result ≡ plan_of (standing self.now) call }
        ensures busy { ¬ IsIdle result }
        ensures payload_left { payload_needed result ≤ payload_of call }
        ensures buffer_left { buffer_needed result ≤ loaded_most (standing self.now) call }
    {
        Machine {
            role: self.role,
            orders: self.orders,
            state: self.state,
            prod: self.prod,
            cons: self.cons,
            phase: Some(self.first(call)),
        }
    }

    /// Takes over what a call made of such a copy: its own counts and its state.
    #[inline(always)]
    pub fn take_over(&mut self, after: &Machine)
        requires role { after.now.role ≡ self.old.role }
        requires orders { after.now.orders ≡ self.old.orders }
        requires idle { IsIdle after.now }
        ensures { self.new ≡ after.now }
    {
        self.state = after.state;
        self.prod = after.prod;
        self.cons = after.cons;
        self.phase = None;
    }
}

#[tactic(auto, using(vchan_protocol::proofs::Table::PlanLaws::bytes_laws), unfolding(crate::specs::OneMachine::Phases::rest_at, vchan_protocol::specs::Table::Calls::write, vchan_protocol::specs::Table::Calls::write_open, vchan_protocol::specs::Table::Calls::read, vchan_protocol::specs::Table::Calls::read_live, vchan_protocol::specs::Table::Calls::send, vchan_protocol::specs::Table::Calls::send_open, vchan_protocol::specs::Table::Calls::recv, vchan_protocol::specs::Table::Calls::recv_live, vchan_protocol::specs::Table::Calls::drain, vchan_protocol::specs::Table::Calls::drain_live, vchan_protocol::specs::Table::Calls::drain_gone, vchan_protocol::specs::Table::Calls::connect, vchan_protocol::specs::Table::Calls::connect_right))]
impl Machine {
    #[inline(always)]
    fn ahead_at(&self, phase: Phase) -> Ahead
        ensures { IsAhead (at_phase self.now phase) result }
    {
        match phase {
            Phase::Put { at, count, answer } if at < count => {
                let ring = self.written();
                Ahead::Puts(Span {
                    ring,
                    order: self.orders.order_of(ring),
                    index: self.prod,
                    at,
                    count,
                    answer,
                })
            }
            Phase::Take { at, count, answer } if at < count => {
                let ring = self.read();
                Ahead::Takes(Span {
                    ring,
                    order: self.orders.order_of(ring),
                    index: self.cons,
                    at,
                    count,
                    answer,
                })
            }
            _ => Ahead::Elsewhere,
        }
    }

    #[inline(always)]
    fn last_notify_at(&self, phase: Phase) -> Option<LastNotify>
        ensures plan { IfSome result (IsLastNotify (at_phase self.now phase)) }
        ensures some { IsSome result ↔ IsAnd (next_op (rest_at (standing self.now) phase)) }
    {
        match phase {
            Phase::Notify { bit, answer } => Some(LastNotify {
                word: notify_word(self.role),
                bit,
                answer,
            }),
            _ => None,
        }
    }

    #[inline(always)]
    fn look_at(&self, phase: Phase) -> Option<WordName>
        ensures word { result ≡ look_at_of self.now.role phase }
        ensures look { IfSome result (IsLookBehind (at_phase self.now phase)) }
    {
        match phase {
            Phase::WriteLive { .. } => Some(cons_word(self.written())),
            Phase::SendLive { .. } => Some(cons_word(self.written())),
            _ => None,
        }
    }
}
