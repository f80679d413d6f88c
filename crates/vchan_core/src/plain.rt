ghost use Rattle.std.specs.Prelude.{◌≡◌, ◌≢◌, ℕ, ◌<◌, ◌≤◌, ◌+◌, ◌∷◌, ◌++◌, [], List, length, take, ◌↔◌, IsSome, IfOk, IsTrue, true, false, not, ◌==◌, slice_index, slice_set};
ghost use Rattle.ring_words.specs.declared.page.Role.TheVariants.{Server, Client};

use crate::carry::carry_out;
use crate::ends::{End, Ends};
use crate::machine::Machine;
use crate::start::start_words;
use crate::words::{own_gone, peer_pending};
use ring_words::{Layout, Orders, Ring, Role, WordName, Words};
use std::alloc::Global;
use std::sync::ledger::Ledger;
use vchan_io::Memory;
use vchan_protocol::{Answer, Call, EndState};

/// One page in memory, with its two ends, for a single thread that steps them as it likes.
///
/// It keeps no lists of what was sent and got. Its contracts state for which core states it stands: a core
/// state has the page's words and all that each end has done.
#[derive(Drop)]
pub struct Plain {
    pub(crate) words: Words,
    pub(crate) ends: Ends,
    ghost server_orders: { ends.server.machine.orders ≡ words.orders },
    ghost client_orders: { ends.client.machine.orders ≡ words.orders },
    ghost server_role: { ends.server.machine.role ≡ Server },
    ghost client_role: { ends.client.machine.role ≡ Client },
}

impl Plain {
    ghost use Rattle.vchan_protocol.specs.Table.Apply.{Fits, words_after, value_taken, buffer_after, filled};
    ghost use Rattle.vchan_protocol.specs.Table.Plan.{after, past};
    ghost use Rattle.vchan_protocol.specs.Table.Ends.{Standing, own_gone as own_gone_of, peer_pending as peer_pending_of};
    ghost use Rattle.vchan_protocol.specs.Table.Calls.{plan_of, payload_of, loaded_most, most_events, Trace};
    ghost use Rattle.vchan_core.specs.OneMachine.Phases.{standing, at_phase, rest, rest_at, plan_at, rest_or_answer, IsIdle, Allows, payload_needed, buffer_needed, payload_at, buffer_at, payload_next, buffer_next, Stands, StandsOrAnswered};
    ghost use Rattle.vchan_protocol.specs.History.Core.{Core, opened, begun, event, side_of, writer_of, reader_of, plan_next, answer_in, bytes_loaded};
    ghost use Rattle.vchan_core.specs.Page.Counts.{capped};
    ghost use Rattle.ring_words.specs.Page.{index_of};
    ghost use Rattle.vchan_protocol.specs.Hostile.Turned.{MayPoke, poked, signalled};
    ghost use Rattle.vchan_protocol.specs.History.WholeCall.{called, call_answer};
    ghost use Rattle.vchan_protocol.specs.Honest.RingLaw.{AreBytes};
    ghost use Rattle.vchan_protocol.specs.Always.Invariant.{Invariant};
    ghost use Rattle.vchan_protocol.specs.Honest.Lawful.{Lawful};
    ghost use Rattle.vchan_protocol.specs.Lists.ListLaw.{FollowsLists};
    ghost use Rattle.vchan_core.specs.WholeCall.EventsMade.{MakesEvents};
    ghost use Rattle.vchan_core.specs.WholeCall.Beside.{IsBeside};
    ghost use Rattle.vchan_core.specs.WholeCall.AtPhase.{page_at, page_to};
    ghost use Rattle.vchan_core.specs.Page.Ends.{other_end};
    ghost use Rattle.vchan_core.specs.Page.StandsFor.{machine_of, other_of, words_of, orders_of, moved_of, turned_of, op_of, StandsFor, HasPayload};
    ghost use Rattle.vchan_protocol.specs.declared.call.Call.{Call};
    ghost use Rattle.vchan_protocol.specs.declared.op.PastEvent.{PastEvent};

    /// Makes a page on which nothing has happened yet: all indices are `start`, the order words hold `said`
    /// (the left ring's first), and the client is in this state, fresh or open. Returns `Memory` if memory
    /// runs out.
    pub fn open(
        alloc: Global,
        orders: Orders,
        start: u32,
        said: (u16, u16),
        state: EndState,
    ) -> Result<Plain, Memory>
        requires { state ≢ EndState.Shut }
        ensures stands { IfOk result (λ page. StandsFor (opened orders start said state) page) }
        ensures invariant { IfOk result (λ page. Invariant (opened orders start said state)) }
    {
        Ok(Plain {
            words: start_words(alloc, orders, start, said, state)?,
            ends: Ends {
                server: End::new(Machine::new(Role::Server, orders, EndState::Open, start)),
                client: End::new(Machine::new(Role::Client, orders, state, start)),
            },
        })
    }

    /// Returns the words of the page.
    pub fn words(&self) -> &Words
        ensures orders { result.now.orders ≡ orders_of self.now }
        ensures list { result.now.list ≡ words_of self.now }
    {
        &self.words
    }

    /// Returns the machine of an end, which tells whether it is idle and what it allows.
    pub fn machine(&self, who: Role) -> &Machine
        ensures { result.now ≡ machine_of self.now who }
    {
        &self.ends.of(who).machine
    }

    /// Returns whether an end was turned over to a hostile user.
    pub fn turned(&self, who: Role) -> bool
        ensures { result ≡ turned_of self.now who }
    {
        self.ends.of(who).turned
    }

    /// Returns whether an end's own gone word is set, as it is after an honest end has retired.
    pub fn has_retired(&self, who: Role) -> bool
        ensures { result ≡ not (slice_index (words_of self.now) (index_of (orders_of self.now) (own_gone_of who)) == 0) }
    {
        self.words.load(own_gone(who)) != 0
    }

    /// Returns how many bytes the writer of a ring has sent. The count stays at 18446744073709551615 once it
    /// gets there.
    pub fn sent_len(&self, ring: Ring) -> u64
        ensures { (core : Core) → StandsFor core self.now → result ≡ capped (length (writer_of core ring).sent) }
    {
        match ring {
            Ring::Left => self.ends.client.moved.sent(),
            Ring::Right => self.ends.server.moved.sent(),
        }
    }

    /// Returns how many bytes the reader of a ring has got. The count stays at 18446744073709551615 once it
    /// gets there.
    pub fn got_len(&self, ring: Ring) -> u64
        ensures { (core : Core) → StandsFor core self.now → result ≡ capped (length (reader_of core ring).got) }
    {
        match ring {
            Ring::Left => self.ends.server.moved.got(),
            Ring::Right => self.ends.client.moved.got(),
        }
    }

    /// Makes a hostile store of an end. The end is turned over to a hostile user if it wasn't yet, and a call
    /// under way is dropped. The word must be a header field or a ring byte that the page has, which
    /// `may_poke` tests.
    pub fn poke(&mut self, who: Role, word: WordName, value: u64)
        requires { MayPoke (orders_of self.old) word }
        ensures stands { (core : Core) → StandsFor core self.old → StandsFor (poked core who word value) self.new }
        ensures invariant { (core : Core) → StandsFor core self.old → Invariant core → Invariant (poked core who word value) }
        ensures words { words_of self.new ≡ slice_set (words_of self.old) (index_of (orders_of self.old) word) value }
        ensures orders { orders_of self.new ≡ orders_of self.old }
        ensures turned { turned_of self.new who ≡ true }
        ensures other { other_of self.new who ≡ other_of self.old who }
    {
        self.turn(who);
        self.words.store(word, value);
    }

    /// Returns whether a hostile user may store to a word: it is a header field or a ring byte of the page.
    pub fn may_poke(&self, word: WordName) -> bool
        ensures { IsTrue result ↔ MayPoke (orders_of self.now) word }
    {
        match word {
            WordName::SrvPending | WordName::CliPending | WordName::SrvGone | WordName::CliGone =>
                false,
            _ => Layout::new(self.words.orders()).has(word),
        }
    }

    /// Makes a hostile signal of an end. The end is turned if it wasn't yet, and its peer's pending word is
    /// set.
    pub fn signal(&mut self, who: Role)
        ensures stands { (core : Core) → StandsFor core self.old → StandsFor (signalled core who) self.new }
        ensures invariant { (core : Core) → StandsFor core self.old → Invariant core → Invariant (signalled core who) }
        ensures words { words_of self.new ≡ slice_set (words_of self.old) (index_of (orders_of self.old) (peer_pending_of who)) 1 }
        ensures orders { orders_of self.new ≡ orders_of self.old }
        ensures turned { turned_of self.new who ≡ true }
        ensures other { other_of self.new who ≡ other_of self.old who }
    {
        self.turn(who);
        self.words.store(peer_pending(who), 1);
    }

    /// Turns an end over to a hostile user: its call is dropped.
    fn turn(&mut self, who: Role)
        ensures idle { IsIdle (machine_of self.new who) }
        ensures standing { standing (machine_of self.new who) ≡ standing (machine_of self.old who) }
        ensures turned { turned_of self.new who ≡ true }
        ensures moved { moved_of self.new who ≡ moved_of self.old who }
        ensures other { other_end self.new.ends who ≡ other_end self.old.ends who }
        ensures words { words_of self.new ≡ words_of self.old }
        ensures orders { orders_of self.new ≡ orders_of self.old }
    {
        self.ends.of_mut(who).turn();
    }

    /// Begins a call of an end, and makes no event. The end must not be turned, and must allow the call.
    pub fn begin(&mut self, who: Role, call: Call)
        requires honest { turned_of self.old who ≡ false }
        requires allowed { Allows (machine_of self.old who) call }
        ensures stands { (core : Core) (payload : List ℕ) → StandsFor core self.old → length payload ≡ payload_of call → StandsFor (begun core who call payload) self.new }
        ensures invariant { (core : Core) (payload : List ℕ) → StandsFor core self.old → length payload ≡ payload_of call → AreBytes payload → Invariant core → Invariant (begun core who call payload) }
        ensures busy { ¬ IsIdle (machine_of self.new who) }
        ensures rest { rest (machine_of self.new who) ≡ plan_of (standing (machine_of self.old who)) call }
        ensures payload_left { payload_needed (machine_of self.new who) ≤ payload_of call }
        ensures buffer_left { buffer_needed (machine_of self.new who) ≤ loaded_most (standing (machine_of self.old who)) call }
        ensures other { other_of self.new who ≡ other_of self.old who }
        ensures orders { orders_of self.new ≡ orders_of self.old }
        ensures words { words_of self.new ≡ words_of self.old }
    {
        self.ends.of_mut(who).machine.begin(call);
    }

    /// Makes one event of an end that is inside a call. Returns the call's answer after its last event.
    ///
    /// For a write or a send `payload` has the call's bytes, the same at each step of the call. For a read,
    /// recv or drain `buf` has at least as many bytes as the smaller of the call's request and the ring's size.
    /// A ring byte that is loaded goes to its place in `buf`, and nothing else of `buf` changes.
    // This and the parts of an event are always inlined, so that each phase is followed straight
    // through, with no `Op` or `Next` in memory.
    #[inline(always)]
    pub fn step(&mut self, who: Role, payload: &[u8], buf: &mut [u8]) -> Option<Answer>
        requires busy { ¬ IsIdle (machine_of self.old who) }
        requires payload { payload_needed (machine_of self.old who) ≤ length payload.now }
        requires buf { buffer_needed (machine_of self.old who) ≤ length buf.old }
        ensures stands { (core : Core) → StandsFor core self.old → HasPayload (side_of core who) payload.now → StandsFor (event core who) self.new }
        ensures invariant { (core : Core) → StandsFor core self.old → turned_of self.old who ≡ false → Invariant core → Invariant (event core who) }
        ensures answer { (core : Core) → StandsFor core self.old → result ≡ answer_in (plan_next core who) }
        ensures footprint { Fits (orders_of self.old) (length payload.now) (length buf.old) (op_of self.old who) }
        ensures buffer { buf.new ≡ buffer_after (orders_of self.old) (words_of self.old) buf.old (op_of self.old who) }
        ensures orders { orders_of self.new ≡ orders_of self.old }
        ensures words { words_of self.new ≡ words_after (orders_of self.old) (words_of self.old) payload.now (op_of self.old who) }
        ensures rest { rest_or_answer result (machine_of self.new who) ≡ after (rest (machine_of self.old who)) (value_taken (orders_of self.old) (words_of self.old) (op_of self.old who)) }
        ensures idle { IsSome result ↔ IsIdle (machine_of self.new who) }
        ensures payload_left { payload_needed (machine_of self.new who) ≤ payload_needed (machine_of self.old who) }
        ensures buffer_left { buffer_needed (machine_of self.new who) ≤ buffer_needed (machine_of self.old who) }
        ensures other { other_of self.new who ≡ other_of self.old who }
        ensures past { (begun : Standing) → (call : Call) → (events : List PastEvent) → Stands begun call events (machine_of self.old who)
            → StandsOrAnswered begun call (events ++ past (op_of self.old who) (value_taken (orders_of self.old) (words_of self.old) (op_of self.old who)) ∷ []) result (machine_of self.new who) }
    {
        let op = self.machine(who).next();
        let value = carry_out(&mut self.words, op, payload, buf);
        self.ends.of_mut(who).took(value)
    }
}
