//! The looks with which a write and a read begin, made one after another at once.
//!
//! They are the events that the machine would make one by one, up to the first that gives an
//! answer: a page in memory, which no other thread sees, can't tell the difference.
ghost use Rattle.std.specs.Prelude.{◌≡◌, ◌<◌, ◌≤◌, ◌^◌, ℕ, List, slice_index};
ghost use Rattle.ring_words.specs.Page.{Has, index_of};
ghost use Rattle.ring_words.specs.declared.page.WordName.{WordName};
ghost use Rattle.vchan_protocol.specs.declared.op.Op.TheVariants.{Load};
ghost use Rattle.vchan_core.specs.declared.phase.Phase.{Phase};
ghost use Rattle.vchan_protocol.specs.Table.Plan.{Plan, does};
ghost use Rattle.vchan_protocol.specs.Table.Ends.{read_size};
ghost use Rattle.vchan_core.specs.OneMachine.Phases.{standing, at_phase, rest_at, plan_at, payload_at, buffer_at, payload_next, buffer_next};
ghost use Rattle.vchan_core.specs.WholeCall.EventsMade.{MakesEvents};

use crate::machine::Machine;
use crate::machine::outcomes::if_alive;
use crate::phase::{Next, Phase};
use crate::words::{cons_word, low32, prod_word};
use ring_words::{Role, Words};

impl Machine {
    /// Makes the looks that come next in a write or a read, up to the one that gives an answer. Returns how
    /// many they were, and the phase after them. At any other place of a call it makes none.
    #[inline(always)]
    pub(crate) fn look_ahead(&self, role: Role, phase: Phase, words: &Words) -> (u32, Phase)
        requires role { self.now.role ≡ role }
        requires orders { words.now.orders ≡ self.now.orders }
        ensures most { result.0 ≤ 2 }
        ensures low { ((standing self.now).prod < 2 ^ 32) × ((standing self.now).cons < 2 ^ 32) }
        ensures events { (payload : List ℕ) → (buffer : List ℕ) → MakesEvents result.0 self.now.orders payload (at_phase self.now phase) words.now.list buffer (at_phase self.now result.1) words.now.list buffer }
    {
        let _counts = self.counts();
        let (live, lively) = self.look_live(role, phase, words);
        let (index, looked) = self.look_index(role, lively, words);
        (live + index, looked)
    }

    /// Makes the look at the peer's live byte with which a write begins.
    #[inline(always)]
    fn look_live(&self, role: Role, phase: Phase, words: &Words) -> (u32, Phase)
        requires role { self.now.role ≡ role }
        requires orders { words.now.orders ≡ self.now.orders }
        ensures most { result.0 ≤ 1 }
        ensures events { (payload : List ℕ) → (buffer : List ℕ) → MakesEvents result.0 self.now.orders payload (at_phase self.now phase) words.now.list buffer (at_phase self.now result.1) words.now.list buffer }
    {
        match phase {
            Phase::WriteLive { len } => self.write_live(role, len, words),
            _ => (0, phase),
        }
    }

    /// Makes the first look at the peer's index in a write or a read.
    #[inline(always)]
    fn look_index(&self, role: Role, phase: Phase, words: &Words) -> (u32, Phase)
        requires role { self.now.role ≡ role }
        requires orders { words.now.orders ≡ self.now.orders }
        ensures most { result.0 ≤ 1 }
        ensures events { (payload : List ℕ) → (buffer : List ℕ) → MakesEvents result.0 self.now.orders payload (at_phase self.now phase) words.now.list buffer (at_phase self.now result.1) words.now.list buffer }
    {
        match phase {
            Phase::WriteLook { len } => self.write_look(role, len, words),
            Phase::ReadLook { most } => self.read_look(role, most, words),
            _ => (0, phase),
        }
    }

    /// Makes a write's look at its peer's live byte.
    #[inline(always)]
    fn write_live(&self, role: Role, len: u32, words: &Words) -> (u32, Phase)
        requires role { self.now.role ≡ role }
        requires orders { words.now.orders ≡ self.now.orders }
        ensures most { result.0 ≤ 1 }
        ensures events { (payload : List ℕ) → (buffer : List ℕ) → MakesEvents result.0 self.now.orders payload (at_phase self.now (Phase.WriteLive len)) words.now.list buffer (at_phase self.now result.1) words.now.list buffer }
    {
        let live = words.load(self.live_as(role));
        let next = if_alive(live, Next::To(Phase::WriteLook { len }));
        self.seen(Phase::WriteLive { len }, next)
    }

    /// Makes a write's first look at how much room there is.
    #[inline(always)]
    fn write_look(&self, role: Role, len: u32, words: &Words) -> (u32, Phase)
        requires role { self.now.role ≡ role }
        requires orders { words.now.orders ≡ self.now.orders }
        ensures most { result.0 ≤ 1 }
        ensures events { (payload : List ℕ) → (buffer : List ℕ) → MakesEvents result.0 self.now.orders payload (at_phase self.now (Phase.WriteLook len)) words.now.list buffer (at_phase self.now result.1) words.now.list buffer }
    {
        let cons = words.load(cons_word(self.written_as(role)));
        let next = self.write_found(len, low32(cons));
        self.seen(Phase::WriteLook { len }, next)
    }

    /// Makes a read's first look at how many bytes wait.
    #[inline(always)]
    fn read_look(&self, role: Role, most: u32, words: &Words) -> (u32, Phase)
        requires role { self.now.role ≡ role }
        requires orders { words.now.orders ≡ self.now.orders }
        ensures most { result.0 ≤ 1 }
        ensures events { (payload : List ℕ) → (buffer : List ℕ) → MakesEvents result.0 self.now.orders payload (at_phase self.now (Phase.ReadLook most)) words.now.list buffer (at_phase self.now result.1) words.now.list buffer }
    {
        let prod = words.load(prod_word(self.read_as(role)));
        let next = self.read_found(most, low32(prod));
        self.seen(Phase::ReadLook { most }, next)
    }

    /// Moves on after a load, unless it gives the call's answer: then the phase stays, and the event is still
    /// to come. Returns how many events were made, 1 or 0, and the phase after them.
    #[inline(always)]
    fn seen(&self, at: Phase, next: Next) -> (u32, Phase)
        ensures most { result.0 ≤ 1 }
        ensures events { (word : WordName) → (then : ℕ → Plan) → (list payload buffer : List ℕ)
            → rest_at (standing self.now) at ≡ does (Load word) then → Has self.now.orders word
            → plan_at (standing self.now) next ≡ then (slice_index list (index_of self.now.orders word))
            → payload_next next ≤ payload_at at → buffer_next (read_size (standing self.now)) next ≤ buffer_at (read_size (standing self.now)) at
            → MakesEvents result.0 self.now.orders payload (at_phase self.now at) list buffer (at_phase self.now result.1) list buffer }
    {
        match next {
            Next::To(phase) => (1, phase),
            Next::Done(_) => (0, at),
        }
    }
}
