//! The bytes of a put or a take that lie in one piece of a ring, moved all at once.
//!
//! They are the events that the machine would make one by one; a page in memory, which no other
//! thread sees, can't tell the difference.
ghost use Rattle.std.specs.Prelude.{◌≡◌, ◌<◌, ◌≤◌, ◌+◌, ◌^◌, ℕ, List, length};
ghost use Rattle.vchan_protocol.specs.Table.Ends.{read_size};
ghost use Rattle.vchan_core.specs.OneMachine.Phases.{standing, at_phase, payload_at, buffer_at};
ghost use Rattle.vchan_protocol.specs.declared.call.Answer.{Answer};
ghost use Rattle.vchan_core.specs.declared.phase.Phase.{Phase};
ghost use Rattle.vchan_core.specs.WholeCall.EventsMade.{MakesEvents};

use crate::machine::Machine;
use crate::phase::Phase;
use ring_words::{Role, Words, place};

impl Machine {
    /// Moves the bytes that come next in a put or a take, up to the last one or to the ring's end. Returns how
    /// many they were, and the phase after them. At any other place of a call it moves none.
    #[inline(always)]
    pub(crate) fn move_piece(
        &self,
        role: Role,
        phase: Phase,
        words: &mut Words,
        payload: &[u8],
        buf: &mut [u8],
    ) -> (u32, Phase)
        requires role { self.now.role ≡ role }
        requires orders { words.old.orders ≡ self.now.orders }
        requires payload { payload_at phase ≤ length payload.now }
        requires buf { buffer_at (read_size (standing self.now)) phase ≤ length buf.old }
        ensures orders { words.new.orders ≡ words.old.orders }
        ensures events { MakesEvents result.0 self.now.orders payload.now (at_phase self.now phase) words.old.list buf.old (at_phase self.now result.1) words.new.list buf.new }
        ensures low { ((standing self.now).prod < 2 ^ 32) × ((standing self.now).cons < 2 ^ 32) }
    {
        let _counts = self.counts();
        match phase {
            Phase::Put { at, count, answer } if at < count => {
                let len = self.put_piece(role, at, count, words, payload);
                let at = at + len;
                (len, Phase::Put { at, count, answer })
            }
            Phase::Take { at, count, answer } if at < count => {
                let len = self.take_piece(role, at, count, words, buf);
                let at = at + len;
                (len, Phase::Take { at, count, answer })
            }
            _ => (0, phase),
        }
    }

    /// Stores the bytes of a put from number `at` on, up to number `end` or to the ring's end. Returns how many
    /// they were.
    #[inline(always)]
    fn put_piece(&self, role: Role, at: u32, end: u32, words: &mut Words, payload: &[u8]) -> u32
        requires more { at < end }
        requires role { self.now.role ≡ role }
        requires orders { words.old.orders ≡ self.now.orders }
        requires payload { end ≤ length payload.now }
        ensures orders { words.new.orders ≡ words.old.orders }
        ensures some { 0 < result }
        ensures within { at + result ≤ end }
        ensures events { (count : ℕ) → end ≤ count → count ≤ length payload.now → (answer : Answer) → (buffer : List ℕ)
            → MakesEvents result self.now.orders payload.now (at_phase self.now (Phase.Put at count answer)) words.old.list buffer (at_phase self.now (Phase.Put (at + result) count answer)) words.new.list buffer }
    {
        let ring = self.written_as(role);
        let order = self.orders.order_of(ring);
        let first = place(self.prod.wrapping_add(at), order);
        let len = (end - at).min(order.size() - first);
        let bytes = &payload[at as usize..(at + len) as usize];
        words.store_bytes(ring, first, bytes);
        len
    }

    /// Loads the bytes of a take from number `at` on, up to number `end` or to the ring's end. Returns how many
    /// they were.
    #[inline(always)]
    fn take_piece(&self, role: Role, at: u32, end: u32, words: &Words, buf: &mut [u8]) -> u32
        requires more { at < end }
        requires role { self.now.role ≡ role }
        requires orders { words.now.orders ≡ self.now.orders }
        requires buf { end ≤ length buf.old }
        ensures some { 0 < result }
        ensures within { at + result ≤ end }
        ensures events { (count : ℕ) → end ≤ count → count ≤ length buf.old → (answer : Answer) → (payload : List ℕ)
            → MakesEvents result self.now.orders payload (at_phase self.now (Phase.Take at count answer)) words.now.list buf.old (at_phase self.now (Phase.Take (at + result) count answer)) words.now.list buf.new }
    {
        let ring = self.read_as(role);
        let order = self.orders.order_of(ring);
        let first = place(self.cons.wrapping_add(at), order);
        let len = (end - at).min(order.size() - first);
        let bytes = &mut buf[at as usize..(at + len) as usize];
        words.load_bytes(ring, first, bytes);
        len
    }

    /// Makes [`Machine::move_piece`] with at most `most` bytes.
    #[inline(always)]
    pub(crate) fn move_few(
        &self,
        role: Role,
        phase: Phase,
        most: u32,
        words: &mut Words,
        payload: &[u8],
        buf: &mut [u8],
    ) -> (u32, Phase)
        requires role { self.now.role ≡ role }
        requires orders { words.old.orders ≡ self.now.orders }
        requires payload { payload_at phase ≤ length payload.now }
        requires buf { buffer_at (read_size (standing self.now)) phase ≤ length buf.old }
        ensures within { result.0 ≤ most }
        ensures orders { words.new.orders ≡ words.old.orders }
        ensures events { MakesEvents result.0 self.now.orders payload.now (at_phase self.now phase) words.old.list buf.old (at_phase self.now result.1) words.new.list buf.new }
        ensures low { ((standing self.now).prod < 2 ^ 32) × ((standing self.now).cons < 2 ^ 32) }
    {
        let _counts = self.counts();
        if most == 0 {
            return (0, phase);
        }
        match phase {
            Phase::Put { at, count, answer } if at < count => {
                let end = at + (count - at).min(most);
                let len = self.put_piece(role, at, end, words, payload);
                let at = at + len;
                (len, Phase::Put { at, count, answer })
            }
            Phase::Take { at, count, answer } if at < count => {
                let end = at + (count - at).min(most);
                let len = self.take_piece(role, at, end, words, buf);
                let at = at + len;
                (len, Phase::Take { at, count, answer })
            }
            _ => (0, phase),
        }
    }
}
