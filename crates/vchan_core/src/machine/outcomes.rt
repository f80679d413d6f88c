//! The events of a call, phase by phase: which event it is, what comes of the value that it took, and
//! what it does to the own counts and the state.
ghost use Rattle.std.specs.Prelude.{◌≡◌, ◌≢◌, ◌<◌, ◌≤◌, ◌+◌, ◌==◌, min, nat_lt, bit_and, if◌then◌else◌};
ghost use Rattle.vchan_protocol.specs.Table.Apply.{Fits};
ghost use Rattle.vchan_protocol.specs.Table.Plan.{answers, next_op, after};
ghost use Rattle.vchan_protocol.specs.Table.Ends.{read_size, standing_after, free_at, ready_at};
ghost use Rattle.vchan_protocol.specs.Table.Calls.{ask, look_write, drain_second as drain_second_plan, drain_last as drain_last_plan, write_looked as write_looked_plan, read_looked as read_looked_plan, send_looked as send_looked_plan, recv_looked as recv_looked_plan, drain_found as drain_found_plan, connect_looked as connect_looked_plan};
ghost use Rattle.vchan_core.specs.OneMachine.Phases.{standing, rest_at, plan_at, payload_at, buffer_at, payload_next, buffer_next};
ghost use Rattle.std.specs.Prelude.{ℕ};
ghost use Rattle.vchan_protocol.specs.Table.Ends.{Standing, low8 as low8_of, mask as mask_of};
ghost use Rattle.vchan_protocol.specs.Table.Calls.{look_read, drain_further as drain_further_plan, drain_gone as drain_gone_plan, signal};

use super::Machine;
use crate::phase::{Next, Phase};
use crate::words::{low8, low16, low32, mask};
use ring_words::{Role, WordName};
use vchan_protocol::{Answer, Bit, EndState, Op};

#[tactic(auto, using(vchan_protocol::proofs::Table::PlanLaws::bytes_laws), unfolding(vchan_protocol::specs::Table::Ends::standing_after, crate::specs::OneMachine::Phases::rest_at, vchan_protocol::specs::Table::Calls::write, vchan_protocol::specs::Table::Calls::write_open, vchan_protocol::specs::Table::Calls::read, vchan_protocol::specs::Table::Calls::read_live, vchan_protocol::specs::Table::Calls::send, vchan_protocol::specs::Table::Calls::send_open, vchan_protocol::specs::Table::Calls::recv, vchan_protocol::specs::Table::Calls::recv_live, vchan_protocol::specs::Table::Calls::drain, vchan_protocol::specs::Table::Calls::drain_second, vchan_protocol::specs::Table::Calls::drain_live, vchan_protocol::specs::Table::Calls::drain_further, vchan_protocol::specs::Table::Calls::drain_gone, vchan_protocol::specs::Table::Calls::drain_last, vchan_protocol::specs::Table::Calls::connect, vchan_protocol::specs::Table::Calls::connect_right))]
impl Machine {
    /// Returns what comes of the next event if it takes this value.
    #[inline(always)]
    pub(crate) fn next_of(&self, phase: Phase, value: u64) -> Next
        ensures plan { let e = standing self.now in plan_at (standing_after e (next_op (rest_at e phase))) result ≡ after (rest_at e phase) value }
        ensures payload_left { payload_next result ≤ payload_at phase }
        ensures buffer_left { buffer_next (read_size (standing self.now)) result ≤ buffer_at (read_size (standing self.now)) phase }
    {
        let cons = self.cons;
        match phase {
            Phase::WriteLive { len } => if_alive(value, Next::To(Phase::WriteLook { len })),
            Phase::WriteLook { len } => self.write_found(len, low32(value)),
            Phase::WriteAsk { len } => Next::To(Phase::WriteLookAgain { len }),
            Phase::WriteLookAgain { len } => self.write_looked(len, low32(value)),
            Phase::SendLive { len } => if_alive(value, Next::To(Phase::SendLook { len })),
            Phase::SendLook { len } => self.send_found(len, low32(value)),
            Phase::SendAsk { len } => Next::To(Phase::SendLookAgain { len }),
            Phase::SendLookAgain { len } => self.send_looked(len, low32(value)),
            Phase::ReadLook { most } => self.read_found(most, low32(value)),
            Phase::ReadAsk { most } => Next::To(Phase::ReadLookAgain { most }),
            Phase::ReadLookAgain { most } => self.read_looked(most, low32(value)),
            Phase::ReadLive { prod } => if_alive(value, Next::Done(Answer::Empty { prod, cons })),
            Phase::RecvLook { len } => self.recv_found(len, low32(value)),
            Phase::RecvAsk { len } => Next::To(Phase::RecvLookAgain { len }),
            Phase::RecvLookAgain { len } => self.recv_looked(len, low32(value)),
            Phase::RecvLive { prod } => if_alive(value, Next::Done(Answer::Short { prod, cons })),
            Phase::DrainLook { most } => self.drain_found(
                most,
                low32(value),
                Next::To(Phase::DrainAsk { most }),
            ),
            Phase::DrainAsk { most } => Next::To(Phase::DrainSecond { most }),
            Phase::DrainSecond { most } => self.drain_second(most, low32(value)),
            Phase::DrainLive { most, prod } => drain_live(most, prod, value),
            Phase::DrainFurther { most } => self.drain_further(most, low32(value)),
            Phase::DrainGone { most, prod } => self.drain_gone(most, prod, value),
            Phase::DrainLast { most } => self.drain_last(most, low32(value)),
            Phase::Put { at, count, answer } => put_on(at, count, answer),
            Phase::Take { at, count, answer } => take_on(at, count, answer),
            Phase::Notify { bit, answer } => notified(bit, answer, value),
            Phase::Signal { answer } => Next::Done(answer),
            Phase::ReadyAsk => Next::To(Phase::ReadyLook),
            Phase::ReadyLook => Next::Done(Answer::Ready {
                count: self.ready(low32(value)),
            }),
            Phase::SpaceAsk => Next::To(Phase::SpaceLook),
            Phase::SpaceLook => Next::Done(Answer::Space {
                count: self.free(low32(value)),
            }),
            Phase::ConnectLeft => Next::To(Phase::ConnectRight { left: low16(value) }),
            Phase::ConnectRight { left } => self.connect_looked(left, low16(value)),
            Phase::ConnectStore => Next::Done(Answer::Connected),
            Phase::CloseStore => Next::To(Phase::Signal {
                answer: Answer::Done,
            }),
            Phase::TakePending => Next::Done(Answer::Event { was: value != 0 }),
            Phase::LoadGone => Next::Done(Answer::Gone { is: value != 0 }),
            Phase::RetireStore => Next::To(Phase::RetireSignal),
            Phase::RetireSignal => Next::To(Phase::GoneStore),
            Phase::GoneStore => Next::To(Phase::Signal {
                answer: Answer::Done,
            }),
        }
    }

    /// Returns the event of a phase.
    #[inline(always)]
    pub(crate) fn op_at(&self, phase: Phase) -> Op
        ensures op { result ≡ next_op (rest_at (standing self.now) phase) }
        ensures some { result ≢ Op.Nothing }
        ensures fits { Fits self.now.orders (payload_at phase) (buffer_at (read_size (standing self.now)) phase) result }
    {
        match phase {
            Phase::WriteLive { .. }
            | Phase::SendLive { .. }
            | Phase::ReadLive { .. }
            | Phase::RecvLive { .. }
            | Phase::DrainLive { .. } => self.load_live(),
            Phase::WriteLook { .. }
            | Phase::WriteLookAgain { .. }
            | Phase::SendLook { .. }
            | Phase::SendLookAgain { .. }
            | Phase::SpaceLook => self.look_write(),
            Phase::ReadLook { .. }
            | Phase::ReadLookAgain { .. }
            | Phase::RecvLook { .. }
            | Phase::RecvLookAgain { .. }
            | Phase::ReadyLook
            | Phase::DrainLook { .. }
            | Phase::DrainSecond { .. }
            | Phase::DrainFurther { .. }
            | Phase::DrainLast { .. } => self.look_read(),
            Phase::WriteAsk { .. } | Phase::SendAsk { .. } | Phase::SpaceAsk => self.ask(
                Bit::Consumed,
            ),
            Phase::ReadAsk { .. }
            | Phase::RecvAsk { .. }
            | Phase::DrainAsk { .. }
            | Phase::ReadyAsk => self.ask(Bit::Written),
            Phase::DrainGone { .. } | Phase::LoadGone => self.load_gone(),
            Phase::ConnectLeft => Op::Load {
                word: WordName::LeftOrder,
            },
            Phase::ConnectRight { .. } => Op::Load {
                word: WordName::RightOrder,
            },
            Phase::ConnectStore => Op::Store {
                word: WordName::CliLive,
                value: 1,
            },
            Phase::CloseStore | Phase::RetireStore => self.store_live(),
            Phase::RetireSignal => self.signal(),
            Phase::GoneStore => self.store_gone(),
            Phase::TakePending => self.take_pending(),
            Phase::Put { at, count, .. } => self.put_event(at, count),
            Phase::Take { at, count, .. } => self.take_event(at, count),
            Phase::Notify { bit, .. } => self.notify(bit),
            Phase::Signal { .. } => self.signal(),
        }
    }

    /// Counts the event of a phase in the own counts and the state: an own index that it stores becomes the
    /// own count, and a store to its own live byte makes its state.
    #[inline(always)]
    pub(crate) fn count(&mut self, phase: Phase)
        ensures standing { standing self.new ≡ standing_after (standing self.old) (next_op (rest_at (standing self.old) phase)) }
        ensures role { self.new.role ≡ self.old.role }
        ensures orders { self.new.orders ≡ self.old.orders }
        ensures phase { self.new.phase ≡ self.old.phase }
    {
        match phase {
            Phase::Put { at, count, .. } if at >= count => {
                self.prod = self.prod.wrapping_add(count);
            }
            Phase::Take { at, count, .. } if at >= count => {
                self.cons = self.cons.wrapping_add(count);
            }
            Phase::ConnectStore => {
                if matches!(self.role, Role::Client) {
                    self.state = EndState::Open;
                }
            }
            Phase::CloseStore | Phase::RetireStore => self.state = EndState::Shut,
            _ => {}
        }
    }
}

impl Machine {
    /// A write that has looked once: if there is too little room it asks, and looks again.
    #[tactic(auto, unfolding(crate::specs::OneMachine::Phases::rest_at))]
    #[inline(always)]
    pub(crate) fn write_found(&self, len: u32, cons: u32) -> Next
        ensures plan { let e = standing self.now in plan_at e result ≡ (if nat_lt (free_at e cons) len then ask e Bit.Consumed (look_write e (write_looked_plan e len)) else write_looked_plan e len cons) }
        ensures payload_left { payload_next result ≤ len }
        ensures buffer_left { buffer_next (read_size (standing self.now)) result ≡ 0 }
    {
        if self.free(cons) < len {
            return Next::To(Phase::WriteAsk { len });
        }
        self.write_looked(len, cons)
    }

    /// A send that has looked once.
    #[tactic(auto, unfolding(crate::specs::OneMachine::Phases::rest_at))]
    fn send_found(&self, len: u32, cons: u32) -> Next
        ensures plan { let e = standing self.now in plan_at e result ≡ (if nat_lt (free_at e cons) len then ask e Bit.Consumed (look_write e (send_looked_plan e len)) else send_looked_plan e len cons) }
        ensures payload_left { payload_next result ≤ len }
        ensures buffer_left { buffer_next (read_size (standing self.now)) result ≡ 0 }
    {
        if self.free(cons) < len {
            return Next::To(Phase::SendAsk { len });
        }
        self.send_looked(len, cons)
    }

    /// A read that has looked once: if too few bytes wait it asks, and looks again.
    #[tactic(auto, unfolding(crate::specs::OneMachine::Phases::rest_at))]
    #[inline(always)]
    pub(crate) fn read_found(&self, most: u32, prod: u32) -> Next
        ensures plan { let e = standing self.now in plan_at e result ≡ (if nat_lt (ready_at e prod) most then ask e Bit.Written (look_read e (read_looked_plan e most)) else read_looked_plan e most prod) }
        ensures payload_left { payload_next result ≡ 0 }
        ensures buffer_left { buffer_next (read_size (standing self.now)) result ≤ min most (read_size (standing self.now)) }
    {
        if self.ready(prod) < most {
            return Next::To(Phase::ReadAsk { most });
        }
        self.read_looked(most, prod)
    }

    /// A recv that has looked once.
    #[tactic(auto, unfolding(crate::specs::OneMachine::Phases::rest_at))]
    fn recv_found(&self, len: u32, prod: u32) -> Next
        ensures plan { let e = standing self.now in plan_at e result ≡ (if nat_lt (ready_at e prod) len then ask e Bit.Written (look_read e (recv_looked_plan e len)) else recv_looked_plan e len prod) }
        ensures payload_left { payload_next result ≡ 0 }
        ensures buffer_left { buffer_next (read_size (standing self.now)) result ≤ min len (read_size (standing self.now)) }
    {
        if self.ready(prod) < len {
            return Next::To(Phase::RecvAsk { len });
        }
        self.recv_looked(len, prod)
    }

    /// A write after its last look.
    #[tactic(auto, unfolding(crate::specs::OneMachine::Phases::rest_at, vchan_protocol::specs::Table::Calls::write_looked))]
    #[inline(always)]
    fn write_looked(&self, len: u32, cons: u32) -> Next
        ensures plan { plan_at (standing self.now) result ≡ write_looked_plan (standing self.now) len cons }
        ensures payload_left { payload_next result ≤ len }
        ensures buffer_left { buffer_next (read_size (standing self.now)) result ≡ 0 }
    {
        let free = self.free(cons);
        if len == 0 {
            return Next::Done(Answer::Wrote { count: 0 });
        }
        if free == 0 {
            return Next::Done(Answer::Full {
                prod: self.prod,
                cons,
            });
        }
        let count = len.min(free);
        Next::To(Phase::Put {
            at: 0,
            count,
            answer: Answer::Wrote { count },
        })
    }

    #[tactic(auto, unfolding(crate::specs::OneMachine::Phases::rest_at, vchan_protocol::specs::Table::Calls::read_looked))]
    pub(crate) fn read_looked(&self, most: u32, prod: u32) -> Next
        ensures plan { plan_at (standing self.now) result ≡ read_looked_plan (standing self.now) most prod }
        ensures payload_left { payload_next result ≡ 0 }
        ensures buffer_left { buffer_next (read_size (standing self.now)) result ≤ min most (read_size (standing self.now)) }
    {
        let ready = self.ready(prod);
        if ready == 0 {
            return Next::To(Phase::ReadLive { prod });
        }
        let count = most.min(ready);
        Next::To(Phase::Take {
            at: 0,
            count,
            answer: Answer::Got { count },
        })
    }

    #[tactic(auto, unfolding(crate::specs::OneMachine::Phases::rest_at, vchan_protocol::specs::Table::Calls::send_looked))]
    fn send_looked(&self, len: u32, cons: u32) -> Next
        ensures plan { plan_at (standing self.now) result ≡ send_looked_plan (standing self.now) len cons }
        ensures payload_left { payload_next result ≤ len }
        ensures buffer_left { buffer_next (read_size (standing self.now)) result ≡ 0 }
    {
        if self.free(cons) < len {
            return Next::Done(Answer::NoRoom {
                prod: self.prod,
                cons,
            });
        }
        Next::To(Phase::Put {
            at: 0,
            count: len,
            answer: Answer::Sent { count: len },
        })
    }

    #[tactic(auto, unfolding(crate::specs::OneMachine::Phases::rest_at, vchan_protocol::specs::Table::Calls::recv_looked))]
    fn recv_looked(&self, len: u32, prod: u32) -> Next
        ensures plan { plan_at (standing self.now) result ≡ recv_looked_plan (standing self.now) len prod }
        ensures payload_left { payload_next result ≡ 0 }
        ensures buffer_left { buffer_next (read_size (standing self.now)) result ≤ min len (read_size (standing self.now)) }
    {
        if self.ready(prod) < len {
            return Next::To(Phase::RecvLive { prod });
        }
        Next::To(Phase::Take {
            at: 0,
            count: len,
            answer: Answer::Got { count: len },
        })
    }

    #[tactic(auto, unfolding(crate::specs::OneMachine::Phases::rest_at))]
    fn drain_found(&self, most: u32, prod: u32, none: Next) -> Next
        ensures plan { plan_at (standing self.now) result ≡ drain_found_plan (standing self.now) most prod (plan_at (standing self.now) none) }
        ensures payload_left { payload_next result ≤ payload_next none }
        ensures buffer_left { buffer_next (read_size (standing self.now)) none ≤ min most (read_size (standing self.now)) → buffer_next (read_size (standing self.now)) result ≤ min most (read_size (standing self.now)) }
    {
        let ready = self.ready(prod);
        if ready == 0 {
            return none;
        }
        let count = most.min(ready);
        Next::To(Phase::Take {
            at: 0,
            count,
            answer: Answer::Got { count },
        })
    }

    #[tactic(auto, unfolding(crate::specs::OneMachine::Phases::rest_at))]
    fn connect_looked(&self, left: u16, right: u16) -> Next
        ensures plan { plan_at (standing self.now) result ≡ connect_looked_plan (standing self.now) left right }
        ensures payload_left { payload_next result ≡ 0 }
        ensures buffer_left { buffer_next (read_size (standing self.now)) result ≡ 0 }
    {
        if left == self.orders.left.number() && right == self.orders.right.number() {
            return Next::To(Phase::ConnectStore);
        }
        Next::Done(Answer::BadOrders { left, right })
    }

    /// A drain's second look: if still nothing waits, the live byte is next.
    #[tactic(auto, unfolding(crate::specs::OneMachine::Phases::rest_at, vchan_protocol::specs::Table::Calls::drain_second))]
    fn drain_second(&self, most: u32, prod: u32) -> Next
        ensures plan { plan_at (standing self.now) result ≡ drain_second_plan (standing self.now) most prod }
        ensures payload_left { payload_next result ≡ 0 }
        ensures buffer_left { buffer_next (read_size (standing self.now)) result ≤ min most (read_size (standing self.now)) }
    {
        self.drain_found(most, prod, Next::To(Phase::DrainLive { most, prod }))
    }

    /// A drain's look after it saw its peer closed: only now do equal indices mean that all was read.
    #[tactic(auto, unfolding(crate::specs::OneMachine::Phases::rest_at, vchan_protocol::specs::Table::Calls::drain_further))]
    #[inline(always)]
    fn drain_further(&self, most: u32, prod: u32) -> Next
        ensures plan { plan_at (standing self.now) result ≡ drain_further_plan (standing self.now) most prod }
        ensures payload_left { payload_next result ≡ 0 }
        ensures buffer_left { buffer_next (read_size (standing self.now)) result ≤ min most (read_size (standing self.now)) }
    {
        if prod == self.cons {
            return Next::Done(Answer::AllRead);
        }
        self.drain_found(most, prod, Next::To(Phase::DrainGone { most, prod }))
    }

    /// A drain that found nothing and loaded its peer's gone word.
    #[tactic(auto, unfolding(crate::specs::OneMachine::Phases::rest_at))]
    fn drain_gone(&self, most: u32, prod: u32, value: u64) -> Next
        ensures plan { let e = standing self.now in plan_at e result ≡ (if value == 0 then answers (Answer.NotYet prod e.cons) else look_read e (drain_last_plan e most)) }
        ensures payload_left { payload_next result ≡ 0 }
        ensures buffer_left { buffer_next (read_size (standing self.now)) result ≤ min most (read_size (standing self.now)) }
    {
        if value == 0 {
            return Next::Done(Answer::NotYet {
                prod,
                cons: self.cons,
            });
        }
        Next::To(Phase::DrainLast { most })
    }

    /// A drain's last look, after it saw its peer gone.
    #[tactic(auto, unfolding(crate::specs::OneMachine::Phases::rest_at, vchan_protocol::specs::Table::Calls::drain_last))]
    fn drain_last(&self, most: u32, prod: u32) -> Next
        ensures plan { plan_at (standing self.now) result ≡ drain_last_plan (standing self.now) most prod }
        ensures payload_left { payload_next result ≡ 0 }
        ensures buffer_left { buffer_next (read_size (standing self.now)) result ≤ min most (read_size (standing self.now)) }
    {
        let none = Next::Done(Answer::PeerGone {
            prod,
            cons: self.cons,
        });
        self.drain_found(most, prod, none)
    }
}

/// A load of the peer's live byte: the peer has closed, or the call goes on as `alive`.
pub(crate) fn if_alive(value: u64, alive: Next) -> Next
    ensures plan { (e : Standing) → plan_at e result ≡ (if low8_of value == 0 then answers Answer.PeerClosed else plan_at e alive) }
    ensures payload_left { payload_next result ≤ payload_next alive }
    ensures buffer_left { (size : ℕ) → buffer_next size result ≤ buffer_next size alive }
{
    if low8(value) == 0 {
        return Next::Done(Answer::PeerClosed);
    }
    alive
}

/// A drain that found nothing twice and loaded its peer's live byte.
#[tactic(auto, unfolding(crate::specs::OneMachine::Phases::rest_at))]
fn drain_live(most: u32, prod: u32, value: u64) -> Next
    ensures plan { (e : Standing) → plan_at e result ≡ (if low8_of value == 0 then look_read e (drain_further_plan e most) else drain_gone_plan e most prod) }
    ensures payload_left { payload_next result ≡ 0 }
    ensures buffer_left { (size : ℕ) → buffer_next size result ≤ min most size }
{
    if low8(value) == 0 {
        return Next::To(Phase::DrainFurther { most });
    }
    Next::To(Phase::DrainGone { most, prod })
}

/// A put after another byte, or the index, is stored.
#[inline(always)]
pub(crate) fn put_on(at: u32, count: u32, answer: Answer) -> Next
    ensures byte { at < count → result ≡ Next.To (Phase.Put (at + 1) count answer) }
    ensures index { count ≤ at → result ≡ Next.To (Phase.Notify Bit.Written answer) }
{
    if at < count {
        return Next::To(Phase::Put {
            at: at + 1,
            count,
            answer,
        });
    }
    Next::To(Phase::Notify {
        bit: Bit::Written,
        answer,
    })
}

/// A take after another byte is loaded, or the index is stored.
#[inline(always)]
pub(crate) fn take_on(at: u32, count: u32, answer: Answer) -> Next
    ensures byte { at < count → result ≡ Next.To (Phase.Take (at + 1) count answer) }
    ensures index { count ≤ at → result ≡ Next.To (Phase.Notify Bit.Consumed answer) }
{
    if at < count {
        return Next::To(Phase::Take {
            at: at + 1,
            count,
            answer,
        });
    }
    Next::To(Phase::Notify {
        bit: Bit::Consumed,
        answer,
    })
}

/// The test of the peer's bit: a peer that had asked is signalled.
#[tactic(auto, unfolding(crate::specs::OneMachine::Phases::rest_at))]
#[inline(always)]
pub(crate) fn notified(bit: Bit, answer: Answer, value: u64) -> Next
    ensures plan { (e : Standing) → plan_at e result ≡ (if bit_and value (mask_of bit) == 0 then answers answer else signal e (answers answer)) }
    ensures payload_left { payload_next result ≡ 0 }
    ensures buffer_left { (size : ℕ) → buffer_next size result ≡ 0 }
{
    if value & mask(bit) == 0 {
        return Next::Done(answer);
    }
    Next::To(Phase::Signal { answer })
}
