use crate::phase::{Next, Phase, Refusal};
use crate::words::{
    ask_word, cons_word, mask, notify_word, own_gone, own_live, own_pending, peer_gone, peer_live,
    peer_pending, prod_word, read_ring, written_ring,
};
use ring_words::{Orders, Ring, Role, WordName, place, ready, room};
use vchan_protocol::{Answer, Bit, Call, EndState, Op};

mod ahead;
pub(crate) mod outcomes;

pub use ahead::{Ahead, LastNotify, Span};

/// One end of a channel, as a pure machine: it tells which event comes next, and takes the value that the
/// event took. It holds no page, so the same machine drives a plain page and a shared one.
///
/// The end knows its own indices only by its own counts: it never loads them, so a peer that overwrites
/// them changes nothing.
#[derive(Clone, Copy, Debug)]
pub struct Machine {
    pub(crate) role: Role,
    pub(crate) orders: Orders,
    pub(crate) state: EndState,
    pub(crate) prod: u32,
    pub(crate) cons: u32,
    pub(crate) phase: Option<Phase>,
}

impl Machine {
    ghost use Rattle.std.specs.Prelude.{◌≡◌, ◌↔◌, ◌+◌, ◌-◌, ◌++◌, ◌∷◌, [], List, IsTrue, IsSome, IsNone, ◌≢◌, ◌≤◌, ℕ};
    ghost use Rattle.ring_words.specs.Page.{order_of, Has};
    ghost use Rattle.ring_words.specs.Rings.{place as place_of};
    ghost use Rattle.vchan_protocol.specs.Table.Apply.{Fits};
    ghost use Rattle.vchan_protocol.specs.Table.Plan.{next_op, after, rest_after, past};
    ghost use Rattle.vchan_protocol.specs.Table.Ends.{Standing, written_ring as written_ring_of, read_ring as read_ring_of, ask_word as ask_word_of, notify_word as notify_word_of, peer_live as peer_live_of, peer_pending as peer_pending_of, prod_word as prod_word_of, cons_word as cons_word_of, mask as mask_of, own_live as own_live_of, own_gone as own_gone_of, own_pending as own_pending_of, peer_gone as peer_gone_of, free_at, ready_at, read_size, standing_after};
    ghost use Rattle.vchan_protocol.specs.Table.Calls.{plan_of, payload_of, loaded_most};
    ghost use Rattle.vchan_core.specs.OneMachine.Refusals.{refusal_of};
    ghost use Rattle.vchan_core.specs.OneMachine.Phases.{standing, at_phase, rest, rest_at, plan_at, rest_or_answer, IsIdle, Allows, payload_at, buffer_at, payload_needed, buffer_needed, payload_next, buffer_next, Stands, StandsOrAnswered};
    ghost use Rattle.vchan_protocol.specs.declared.call.Call.{Call};
    ghost use Rattle.vchan_protocol.specs.declared.call.Answer.{Answer};
    ghost use Rattle.vchan_protocol.specs.declared.op.PastEvent.{PastEvent};

    /// Makes an end between two calls, in this state, both of whose counts are `start`. A server is never
    /// fresh.
    pub fn new(role: Role, orders: Orders, state: EndState, start: u32) -> Machine
        requires { role ≡ Role.Server → state ≢ EndState.Fresh }
        ensures idle { IsIdle result }
        ensures standing { standing result ≡ record { role = role; orders = orders; state = state; prod = start; cons = start } }
    {
        Machine {
            role,
            orders,
            state,
            prod: start,
            cons: start,
            phase: None,
        }
    }

    /// Makes an end between two calls, in this state, with these two counts, to join a page that was used
    /// before. A server is never fresh.
    pub fn resumed(role: Role, orders: Orders, state: EndState, prod: u32, cons: u32) -> Machine
        requires { role ≡ Role.Server → state ≢ EndState.Fresh }
        ensures idle { IsIdle result }
        ensures standing { standing result ≡ record { role = role; orders = orders; state = state; prod = prod; cons = cons } }
    {
        Machine {
            role,
            orders,
            state,
            prod,
            cons,
            phase: None,
        }
    }

    /// Returns which end it is.
    pub fn role(&self) -> Role
        ensures { result ≡ (standing self.now).role }
    {
        self.role
    }

    /// Returns the orders of the page's rings.
    pub fn orders(&self) -> Orders
        ensures { result ≡ (standing self.now).orders }
    {
        self.orders
    }

    /// Returns whether the end is between two calls.
    pub fn idle(&self) -> bool
        ensures { IsTrue result ↔ IsIdle self.now }
    {
        self.phase.is_none()
    }

    /// Returns where the end stands in its life.
    pub fn state(&self) -> EndState
        ensures { result ≡ (standing self.now).state }
    {
        self.state
    }

    /// Returns its own counts: of the ring that it writes, and of the ring that it reads.
    pub(crate) fn counts(&self) -> (u32, u32)
        ensures prod { result.0 ≡ (standing self.now).prod }
        ensures cons { result.1 ≡ (standing self.now).cons }
    {
        (self.prod, self.cons)
    }

    /// Returns whether this call may begin now: [`Machine::refusal`] gives no reason against it.
    pub fn allows(&self, call: Call) -> bool
        ensures { IsTrue result ↔ Allows self.now call }
    {
        self.refusal(call).is_none()
    }

    /// Returns the first reason why this call can't begin now, or `None` if and only if it may. Between
    /// two calls a fresh client may connect, an end that isn't shut may close, an end in any state may retire,
    /// and an open end may begin every other call; a drain must ask for at least one byte.
    #[inline(always)]
    pub fn refusal(&self, call: Call) -> Option<Refusal>
        ensures refusal { result ≡ refusal_of self.now call }
        ensures none { IsNone result ↔ Allows self.now call }
    {
        if self.phase.is_some() {
            return Some(Refusal::Busy);
        }
        match (self.state, call) {
            (EndState::Open, Call::Connect) => Some(Refusal::Connected),
            (EndState::Open, Call::Drain { most: 0 }) => Some(Refusal::NoBytes),
            (EndState::Open, _) | (_, Call::Retire) => None,
            (EndState::Shut, _) => Some(Refusal::Shut),
            (EndState::Fresh, Call::Close) => None,
            (EndState::Fresh, Call::Connect) if matches!(self.role, Role::Client) => None,
            (EndState::Fresh, _) => Some(Refusal::Unconnected),
        }
    }

    /// Returns the most bytes that a call takes from the ring that the end reads.
    pub fn most_taken(&self, call: Call) -> u32
        ensures { result ≡ loaded_most (standing self.now) call }
    {
        let most = match call {
            Call::Read { most } | Call::Drain { most } => most,
            Call::Recv { len } => len,
            _ => return 0,
        };
        most.min(self.orders.order_of(self.read()).size())
    }

    /// Begins a call, and makes no event.
    pub fn begin(&mut self, call: Call)
        requires { Allows self.old call }
        ensures standing { standing self.new ≡ standing self.old }
        ensures rest { rest self.new ≡ plan_of (standing self.old) call }
        ensures busy { ¬ IsIdle self.new }
        ensures payload_left { payload_needed self.new ≤ payload_of call }
        ensures buffer_left { buffer_needed self.new ≤ loaded_most (standing self.old) call }
    {
        self.phase = Some(self.first(call));
    }

    /// Returns the phase with which a call begins.
    #[tactic(auto, unfolding(crate::specs::OneMachine::Phases::rest_at))]
    #[inline(always)]
    pub(crate) fn first(&self, call: Call) -> Phase
        ensures plan { rest_at (standing self.now) result ≡ plan_of (standing self.now) call }
        ensures payload_left { payload_at result ≤ payload_of call }
        ensures buffer_left { buffer_at (read_size (standing self.now)) result ≤ loaded_most (standing self.now) call }
    {
        match call {
            Call::Write { len } => Phase::WriteLive { len },
            Call::Send { len } => Phase::SendLive { len },
            Call::Read { most } => Phase::ReadLook { most },
            Call::Recv { len } => Phase::RecvLook { len },
            Call::Drain { most } => Phase::DrainLook { most },
            Call::DataReady => Phase::ReadyAsk,
            Call::BufferSpace => Phase::SpaceAsk,
            Call::Connect => Phase::ConnectLeft,
            Call::Close => Phase::CloseStore,
            Call::TakeEvent => Phase::TakePending,
            Call::PeerGone => Phase::LoadGone,
            Call::Retire => match self.state {
                EndState::Shut => Phase::GoneStore,
                _ => Phase::RetireStore,
            },
        }
    }

    /// Returns the event that comes next. It is `Nothing` if and only if the end is between two calls.
    #[inline(always)]
    pub fn next(&self) -> Op
        ensures op { result ≡ next_op (rest self.now) }
        ensures trail { (begun : Standing) → (call : Call) → (events : List PastEvent) → Stands begun call events self.now
            → result ≡ next_op (rest_after (plan_of begun call) events) }
        ensures idle { (result ≡ Op.Nothing) ↔ IsIdle self.now }
        ensures fits { Fits self.now.orders (payload_needed self.now) (buffer_needed self.now) result }
    {
        self.next_event()
    }

    #[inline(always)]
    fn next_event(&self) -> Op
        ensures op { result ≡ next_op (rest self.now) }
        ensures idle { (result ≡ Op.Nothing) ↔ IsIdle self.now }
        ensures fits { Fits self.now.orders (payload_needed self.now) (buffer_needed self.now) result }
    {
        match self.phase {
            None => Op::Nothing,
            Some(phase) => self.op_at(phase),
        }
    }

    /// Takes the value that the event took: the word as it was, or 0 for a plain store. Returns the call's
    /// answer after its last event, and then the end is between two calls.
    #[inline(always)]
    pub fn took(&mut self, value: u64) -> Option<Answer>
        requires { ¬ IsIdle self.old }
        ensures rest { rest_or_answer result self.new ≡ after (rest self.old) value }
        ensures idle { IsSome result ↔ IsIdle self.new }
        ensures standing { standing self.new ≡ standing_after (standing self.old) (next_op (rest self.old)) }
        ensures payload_left { payload_needed self.new ≤ payload_needed self.old }
        ensures buffer_left { buffer_needed self.new ≤ buffer_needed self.old }
        ensures past { (begun : Standing) → (call : Call) → (events : List PastEvent) → Stands begun call events self.old
            → StandsOrAnswered begun call (events ++ past (next_op (rest self.old)) value ∷ []) result self.new }
    {
        self.advance(value)
    }

    #[inline(always)]
    fn advance(&mut self, value: u64) -> Option<Answer>
        requires { ¬ IsIdle self.old }
        ensures rest { rest_or_answer result self.new ≡ after (rest self.old) value }
        ensures idle { IsSome result ↔ IsIdle self.new }
        ensures standing { standing self.new ≡ standing_after (standing self.old) (next_op (rest self.old)) }
        ensures payload_left { payload_needed self.new ≤ payload_needed self.old }
        ensures buffer_left { buffer_needed self.new ≤ buffer_needed self.old }
    {
        let Some(phase) = self.phase else {
            unreachable!()
        };
        self.advance_at(phase, value)
    }

    #[inline(always)]
    fn advance_at(&mut self, phase: Phase, value: u64) -> Option<Answer>
        ensures rest { rest_or_answer result self.new ≡ after (rest_at (standing self.old) phase) value }
        ensures idle { IsSome result ↔ IsIdle self.new }
        ensures standing { standing self.new ≡ standing_after (standing self.old) (next_op (rest_at (standing self.old) phase)) }
        ensures payload_left { payload_needed self.new ≤ payload_at phase }
        ensures buffer_left { buffer_needed self.new ≤ buffer_at (read_size (standing self.old)) phase }
    {
        match self.advanced(phase, value) {
            Next::To(phase) => {
                self.phase = Some(phase);
                None
            }
            Next::Done(answer) => {
                self.phase = None;
                Some(answer)
            }
        }
    }

    /// Returns what comes of the event of a phase, and counts that event in the own counts and the state.
    #[inline(always)]
    pub(crate) fn advanced(&mut self, phase: Phase, value: u64) -> Next
        ensures rest { plan_at (standing self.new) result ≡ after (rest_at (standing self.old) phase) value }
        ensures phase { self.new.phase ≡ self.old.phase }
        ensures standing { standing self.new ≡ standing_after (standing self.old) (next_op (rest_at (standing self.old) phase)) }
        ensures payload_left { payload_next result ≤ payload_at phase }
        ensures buffer_left { buffer_next (read_size (standing self.new)) result ≤ buffer_at (read_size (standing self.old)) phase }
    {
        let next = self.next_of(phase, value);
        self.count(phase);
        next
    }

    /// Takes the phase out of a machine that is inside a call. The machine is then as if between two calls, and
    /// its caller holds the phase.
    #[inline(always)]
    pub(crate) fn take_phase(&mut self) -> Phase
        requires { ¬ IsIdle self.old }
        ensures idle { IsIdle self.new }
        ensures standing { standing self.new ≡ standing self.old }
        ensures phase { self.old ≡ at_phase self.new result }
    {
        let Some(phase) = self.phase else {
            unreachable!()
        };
        self.phase = None;
        phase
    }

    /// Puts a phase back that was taken out.
    #[inline(always)]
    pub(crate) fn set_phase(&mut self, phase: Phase)
        ensures { self.new ≡ at_phase self.old phase }
    {
        self.phase = Some(phase);
    }

    /// Drops what is left of the call under way, as when the caller makes that by itself, or when the end is
    /// turned over to a hostile user.
    #[inline(always)]
    pub fn drop_call(&mut self)
        ensures idle { IsIdle self.new }
        ensures standing { standing self.new ≡ standing self.old }
    {
        self.phase = None;
    }

    // ---- the events

    fn look_read(&self) -> Op
        ensures { result ≡ Op.Load (prod_word_of (read_ring_of self.now.role)) }
    {
        Op::Load {
            word: prod_word(self.read()),
        }
    }

    fn look_write(&self) -> Op
        ensures { result ≡ Op.Load (cons_word_of (written_ring_of self.now.role)) }
    {
        Op::Load {
            word: cons_word(self.written()),
        }
    }

    /// Returns the event of a put of `count` bytes, of which `stored` are stored: the bytes come first, and
    /// then the index shows them all at once.
    #[tactic(auto, using(vchan_protocol::proofs::Table::PlanLaws::bytes_laws), unfolding(crate::specs::OneMachine::Phases::rest_at))]
    #[inline(always)]
    fn put_event(&self, stored: u32, count: u32) -> Op
        ensures op { (answer : Answer) → result ≡ next_op (rest_at (standing self.now) (Phase.Put stored count answer)) }
        ensures some { result ≢ Op.Nothing }
        ensures fits { (into : ℕ) → Fits self.now.orders count into result }
    {
        if stored < count {
            return Op::StoreByte {
                word: self.put_word(stored),
                at: stored,
            };
        }
        let shown = self.prod.wrapping_add(count);
        Op::Store {
            word: prod_word(self.written()),
            value: u64::from(shown),
        }
    }

    /// Returns the event of a take of `count` bytes, of which `loaded` are loaded: the index releases their
    /// places only after all bytes were loaded.
    #[tactic(auto, using(vchan_protocol::proofs::Table::PlanLaws::bytes_laws), unfolding(crate::specs::OneMachine::Phases::rest_at))]
    #[inline(always)]
    fn take_event(&self, loaded: u32, count: u32) -> Op
        ensures op { (answer : Answer) → result ≡ next_op (rest_at (standing self.now) (Phase.Take loaded count answer)) }
        ensures some { result ≢ Op.Nothing }
        ensures fits { (out : ℕ) → Fits self.now.orders out count result }
    {
        if loaded < count {
            return Op::LoadByte {
                word: self.take_word(loaded),
                at: loaded,
            };
        }
        let released = self.cons.wrapping_add(count);
        Op::Store {
            word: cons_word(self.read()),
            value: u64::from(released),
        }
    }

    /// Returns where byte number `at` of a put lies.
    #[tactic(auto, using(ring_words::proofs::RingLaws::place_wraps))]
    fn put_word(&self, at: u32) -> WordName
        ensures has { Has self.now.orders result }
        ensures word { let ring = written_ring_of self.now.role in result ≡ WordName.RingByte ring (place_of (self.now.prod + at) (order_of self.now.orders ring)) }
    {
        let ring = self.written();
        WordName::RingByte {
            ring,
            at: place(self.prod.wrapping_add(at), self.orders.order_of(ring)),
        }
    }

    /// Returns where byte number `at` of a take lies.
    #[tactic(auto, using(ring_words::proofs::RingLaws::place_wraps))]
    fn take_word(&self, at: u32) -> WordName
        ensures has { Has self.now.orders result }
        ensures word { let ring = read_ring_of self.now.role in result ≡ WordName.RingByte ring (place_of (self.now.cons + at) (order_of self.now.orders ring)) }
    {
        let ring = self.read();
        WordName::RingByte {
            ring,
            at: place(self.cons.wrapping_add(at), self.orders.order_of(ring)),
        }
    }

    fn ask(&self, bit: Bit) -> Op
        ensures { result ≡ Op.Or (ask_word_of self.now.role) (mask_of bit) }
    {
        Op::Or {
            word: ask_word(self.role),
            bits: mask(bit),
        }
    }

    fn notify(&self, bit: Bit) -> Op
        ensures { result ≡ Op.And (notify_word_of self.now.role) (18446744073709551615 - mask_of bit) }
    {
        Op::And {
            word: notify_word(self.role),
            bits: u64::MAX - mask(bit),
        }
    }

    fn load_live(&self) -> Op
        ensures { result ≡ Op.Load (peer_live_of self.now.role) }
    {
        Op::Load {
            word: peer_live(self.role),
        }
    }

    fn load_gone(&self) -> Op
        ensures { result ≡ Op.Load (peer_gone_of self.now.role) }
    {
        Op::Load {
            word: peer_gone(self.role),
        }
    }

    fn store_live(&self) -> Op
        ensures { result ≡ Op.Store (own_live_of self.now.role) 0 }
    {
        Op::Store {
            word: own_live(self.role),
            value: 0,
        }
    }

    fn store_gone(&self) -> Op
        ensures { result ≡ Op.Store (own_gone_of self.now.role) 1 }
    {
        Op::Store {
            word: own_gone(self.role),
            value: 1,
        }
    }

    fn take_pending(&self) -> Op
        ensures { result ≡ Op.Swap (own_pending_of self.now.role) 0 }
    {
        Op::Swap {
            word: own_pending(self.role),
            value: 0,
        }
    }

    fn signal(&self) -> Op
        ensures { result ≡ Op.Store (peer_pending_of self.now.role) 1 }
    {
        Op::Store {
            word: peer_pending(self.role),
            value: 1,
        }
    }

    // ---- its rings

    fn written(&self) -> Ring
        ensures { result ≡ written_ring_of self.now.role }
    {
        written_ring(self.role)
    }

    fn read(&self) -> Ring
        ensures { result ≡ read_ring_of self.now.role }
    {
        read_ring(self.role)
    }

    // ---- the same, for a caller that knows its role

    #[inline(always)]
    pub(crate) fn written_as(&self, role: Role) -> Ring
        requires { self.now.role ≡ role }
        ensures { result ≡ written_ring_of self.now.role }
    {
        written_ring(role)
    }

    #[inline(always)]
    pub(crate) fn read_as(&self, role: Role) -> Ring
        requires { self.now.role ≡ role }
        ensures { result ≡ read_ring_of self.now.role }
    {
        read_ring(role)
    }

    #[inline(always)]
    pub(crate) fn live_as(&self, role: Role) -> WordName
        requires { self.now.role ≡ role }
        ensures { result ≡ peer_live_of self.now.role }
    {
        peer_live(role)
    }

    #[inline(always)]
    pub(crate) fn notify_as(&self, role: Role) -> WordName
        requires { self.now.role ≡ role }
        ensures { result ≡ notify_word_of self.now.role }
    {
        notify_word(role)
    }

    #[inline(always)]
    pub(crate) fn ask_as(&self, role: Role) -> WordName
        requires { self.now.role ≡ role }
        ensures { result ≡ ask_word_of self.now.role }
    {
        ask_word(role)
    }

    #[inline(always)]
    pub(crate) fn pending_as(&self, role: Role) -> WordName
        requires { self.now.role ≡ role }
        ensures { result ≡ peer_pending_of self.now.role }
    {
        peer_pending(role)
    }

    // ---- what an index that it loads tells

    fn free(&self, cons: u32) -> u32
        ensures { result ≡ free_at (standing self.now) cons }
    {
        room(self.prod, cons, self.orders.order_of(self.written()))
    }

    fn ready(&self, prod: u32) -> u32
        ensures ready { result ≡ ready_at (standing self.now) prod }
        ensures within { result ≤ read_size (standing self.now) }
    {
        ready(prod, self.cons, self.orders.order_of(self.read()))
    }
}
