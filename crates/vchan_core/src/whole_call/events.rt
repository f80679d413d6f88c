//! An event of a machine on words in memory, from its choice to what comes of it.
//!
//! A whole call makes its events here. The frequent phases have functions of their own, so that their code
//! is small enough to be inlined. The caller holds the phase: the machine holds only its own counts and its
//! state, and its own phase stays as it is.
ghost use Rattle.std.specs.Prelude.{◌≡◌, ◌≤◌, ℕ, List, length};
ghost use Rattle.vchan_protocol.specs.Table.Ends.{read_size};
ghost use Rattle.vchan_core.specs.OneMachine.Phases.{standing, payload_at, buffer_at};
ghost use Rattle.vchan_core.specs.WholeCall.EventAt.{MakesEventAt, sent_on, got_on};

use crate::carry::carry_out;
use crate::machine::Machine;
use crate::machine::outcomes::{notified, put_on, take_on};
use crate::phase::{Next, Phase};
use crate::totals::Totals;
use crate::words::{cons_word, low32, mask, prod_word};
use ring_words::{Role, Words};
use vchan_protocol::{Answer, Bit};

impl Machine {
    /// Makes the event of a phase on these words, and counts what it shows or releases.
    #[inline(always)]
    pub(crate) fn event(
        &mut self,
        role: Role,
        phase: Phase,
        words: &mut Words,
        payload: &[u8],
        buf: &mut [u8],
        moved: &mut Totals,
    ) -> Next
        requires role { self.old.role ≡ role }
        requires orders { words.old.orders ≡ self.old.orders }
        requires payload { payload_at phase ≤ length payload.now }
        requires buf { buffer_at (read_size (standing self.old)) phase ≤ length buf.old }
        ensures orders { words.new.orders ≡ words.old.orders }
        ensures event { MakesEventAt words.old.orders self.old phase words.old.list payload.now buf.old self.new result words.new.list buf.new }
        ensures sent { moved.new.sent ≡ sent_on moved.old self.old self.new }
        ensures got { moved.new.got ≡ got_on moved.old self.old self.new }
    {
        match phase {
            Phase::Put { at, count, answer } if at >= count => {
                moved.stays();
                self.show_bytes(role, at, count, answer, words, moved)
            }
            Phase::Take { at, count, answer } if at >= count => {
                moved.stays();
                self.release_places(role, at, count, answer, words, moved)
            }
            Phase::Notify { bit, answer } => {
                moved.stays();
                self.notify_peer(role, bit, answer, words)
            }
            Phase::Signal { answer } => {
                moved.stays();
                self.signal_peer(role, answer, words)
            }
            Phase::ReadLook { most } => {
                moved.stays();
                self.look_for_bytes(role, most, words)
            }
            Phase::ReadAsk { most } => {
                moved.stays();
                self.ask_for_bytes(role, most, words)
            }
            Phase::ReadLookAgain { most } => {
                moved.stays();
                self.look_again_for_bytes(role, most, words)
            }
            // Copies, so that the phase and what comes of it lie in memory only in this arm.
            _ => {
                let rare = phase;
                let next = self.seldom(rare, words, payload, buf, moved);
                next
            }
        }
    }

    /// Makes the event of a put after all its bytes are stored: the index shows them all.
    #[tactic(auto, using(vchan_protocol::proofs::Table::PlanLaws::bytes_laws), unfolding(vchan_protocol::specs::Table::Ends::standing_after, crate::specs::OneMachine::Phases::rest_at))]
    #[inline(always)]
    fn show_bytes(
        &mut self,
        role: Role,
        at: u32,
        count: u32,
        answer: Answer,
        words: &mut Words,
        moved: &mut Totals,
    ) -> Next
        requires role { self.old.role ≡ role }
        requires orders { words.old.orders ≡ self.old.orders }
        requires all { count ≤ at }
        ensures orders { words.new.orders ≡ words.old.orders }
        ensures event { (payload : List ℕ) → (buffer : List ℕ) → MakesEventAt words.old.orders self.old (Phase.Put at count answer) words.old.list payload buffer self.new result words.new.list buffer }
        ensures cons { (standing self.new).cons ≡ (standing self.old).cons }
        ensures sent { moved.new.sent ≡ sent_on moved.old self.old self.new }
        ensures got { moved.new.got ≡ moved.old.got }
    {
        let (prod, _) = self.counts();
        let shown = prod.wrapping_add(count);
        self.prod = shown;
        words.store(prod_word(self.written_as(role)), u64::from(shown));
        moved.count_sent(prod, shown);
        put_on(at, count, answer)
    }

    /// Makes the event of a take after all its bytes are loaded: the index releases their places.
    #[tactic(auto, using(vchan_protocol::proofs::Table::PlanLaws::bytes_laws), unfolding(vchan_protocol::specs::Table::Ends::standing_after, crate::specs::OneMachine::Phases::rest_at))]
    #[inline(always)]
    fn release_places(
        &mut self,
        role: Role,
        at: u32,
        count: u32,
        answer: Answer,
        words: &mut Words,
        moved: &mut Totals,
    ) -> Next
        requires role { self.old.role ≡ role }
        requires orders { words.old.orders ≡ self.old.orders }
        requires all { count ≤ at }
        ensures orders { words.new.orders ≡ words.old.orders }
        ensures event { (payload : List ℕ) → (buffer : List ℕ) → MakesEventAt words.old.orders self.old (Phase.Take at count answer) words.old.list payload buffer self.new result words.new.list buffer }
        ensures prod { (standing self.new).prod ≡ (standing self.old).prod }
        ensures sent { moved.new.sent ≡ moved.old.sent }
        ensures got { moved.new.got ≡ got_on moved.old self.old self.new }
    {
        let (_, cons) = self.counts();
        let released = cons.wrapping_add(count);
        self.cons = released;
        words.store(cons_word(self.read_as(role)), u64::from(released));
        moved.count_got(cons, released);
        take_on(at, count, answer)
    }

    /// Makes the event after an index: it clears the peer's bit, and if that was set the signal is next.
    #[tactic(auto, using(vchan_protocol::proofs::Table::PlanLaws::bytes_laws), unfolding(vchan_protocol::specs::Table::Ends::standing_after, crate::specs::OneMachine::Phases::rest_at))]
    #[inline(always)]
    fn notify_peer(&self, role: Role, bit: Bit, answer: Answer, words: &mut Words) -> Next
        requires role { self.now.role ≡ role }
        requires orders { words.old.orders ≡ self.now.orders }
        ensures orders { words.new.orders ≡ words.old.orders }
        ensures event { (payload : List ℕ) → (buffer : List ℕ) → MakesEventAt words.old.orders self.now (Phase.Notify bit answer) words.old.list payload buffer self.now result words.new.list buffer }
    {
        let _counts = self.counts();
        let word = self.notify_as(role);
        let asked = words.load(word);
        words.store(word, asked & (u64::MAX - mask(bit)));
        notified(bit, answer, asked)
    }

    /// Makes the signal for a peer that had asked for it, with which a call ends.
    #[tactic(auto, unfolding(vchan_protocol::specs::Table::Ends::standing_after, crate::specs::OneMachine::Phases::rest_at))]
    #[inline(always)]
    fn signal_peer(&self, role: Role, answer: Answer, words: &mut Words) -> Next
        requires role { self.now.role ≡ role }
        requires orders { words.old.orders ≡ self.now.orders }
        ensures orders { words.new.orders ≡ words.old.orders }
        ensures event { (payload : List ℕ) → (buffer : List ℕ) → MakesEventAt words.old.orders self.now (Phase.Signal answer) words.old.list payload buffer self.now result words.new.list buffer }
    {
        let _counts = self.counts();
        words.store(self.pending_as(role), 1);
        Next::Done(answer)
    }

    /// Makes the first look of a read at how many bytes wait, when it is made alone.
    #[tactic(auto, unfolding(vchan_protocol::specs::Table::Ends::standing_after, crate::specs::OneMachine::Phases::rest_at, vchan_protocol::specs::Table::Calls::read))]
    #[inline(always)]
    fn look_for_bytes(&self, role: Role, most: u32, words: &Words) -> Next
        requires role { self.now.role ≡ role }
        requires orders { words.now.orders ≡ self.now.orders }
        ensures event { (payload : List ℕ) → (buffer : List ℕ) → MakesEventAt words.now.orders self.now (Phase.ReadLook most) words.now.list payload buffer self.now result words.now.list buffer }
    {
        let _counts = self.counts();
        let prod = words.load(prod_word(self.read_as(role)));
        self.read_found(most, low32(prod))
    }

    /// Makes the request for a signal of a read that found too few bytes.
    #[tactic(auto, unfolding(vchan_protocol::specs::Table::Ends::standing_after, crate::specs::OneMachine::Phases::rest_at))]
    #[inline(always)]
    fn ask_for_bytes(&self, role: Role, most: u32, words: &mut Words) -> Next
        requires role { self.now.role ≡ role }
        requires orders { words.old.orders ≡ self.now.orders }
        ensures orders { words.new.orders ≡ words.old.orders }
        ensures event { (payload : List ℕ) → (buffer : List ℕ) → MakesEventAt words.old.orders self.now (Phase.ReadAsk most) words.old.list payload buffer self.now result words.new.list buffer }
    {
        let _counts = self.counts();
        let word = self.ask_as(role);
        let asked = words.load(word);
        words.store(word, asked | mask(Bit::Written));
        Next::To(Phase::ReadLookAgain { most })
    }

    /// Makes the last look of a read, after its request for a signal.
    #[tactic(auto, unfolding(vchan_protocol::specs::Table::Ends::standing_after, crate::specs::OneMachine::Phases::rest_at))]
    #[inline(always)]
    fn look_again_for_bytes(&self, role: Role, most: u32, words: &Words) -> Next
        requires role { self.now.role ≡ role }
        requires orders { words.now.orders ≡ self.now.orders }
        ensures event { (payload : List ℕ) → (buffer : List ℕ) → MakesEventAt words.now.orders self.now (Phase.ReadLookAgain most) words.now.list payload buffer self.now result words.now.list buffer }
    {
        let _counts = self.counts();
        let prod = words.load(prod_word(self.read_as(role)));
        self.read_looked(most, low32(prod))
    }

    /// Makes [`Machine::event`] for the rare phases, as one function that isn't inlined.
    #[inline(never)]
    fn seldom(
        &mut self,
        phase: Phase,
        words: &mut Words,
        payload: &[u8],
        buf: &mut [u8],
        moved: &mut Totals,
    ) -> Next
        requires orders { words.old.orders ≡ self.old.orders }
        requires payload { payload_at phase ≤ length payload.now }
        requires buf { buffer_at (read_size (standing self.old)) phase ≤ length buf.old }
        ensures orders { words.new.orders ≡ words.old.orders }
        ensures event { MakesEventAt words.old.orders self.old phase words.old.list payload.now buf.old self.new result words.new.list buf.new }
        ensures sent { moved.new.sent ≡ sent_on moved.old self.old self.new }
        ensures got { moved.new.got ≡ got_on moved.old self.old self.new }
    {
        let op = self.op_at(phase);
        let value = carry_out(words, op, payload, buf);
        let before = self.counts();
        let next = self.advanced(phase, value);
        moved.count(before, self.counts());
        next
    }
}
