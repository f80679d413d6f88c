//! An end of a shared page in the hands of a hostile user, which may store any number, at any time,
//! anywhere on the page that a guest reaches.
//!
//! Everything that plays a hostile guest against an honest end rests on it. Which words such a guest
//! reaches follows from the layout of Xen's public/io/libxenvchan.h; the pending and gone words lie
//! elsewhere.
#![tactic(auto)]

ghost use Rattle.std.specs.Prelude.{◌≡◌, ◌++◌, ◌∷◌, [], ◌+◌, ◌%◌, ◌^◌, ◌≤◌, ◌↔◌, IsTrue, ℕ, min, length, take};
ghost use Rattle.ring_words.specs.Rings.{room as room_of};
ghost use Rattle.ring_words.specs.Page.{order_of};
ghost use Rattle.vchan_protocol.specs.Table.Ends.{written_ring as written_ring_of, prod_word as prod_word_of, peer_pending, own_gone, low32};
ghost use Rattle.vchan_protocol.specs.Hostile.Turned.{turns, strays, MayPoke};
ghost use Rattle.vchan_protocol.specs.Table.Plan.{past};
ghost use Rattle.hostile_seat.specs.Hostile.{strays_along, byte_stores, say_events};

use ring_words::{Layout, Order, Ring, WordName, place, room};
use std::marker::Model;
use vchan_core::Op;
use vchan_core::words::{cons_word, prod_word, written_ring};
use vchan_rule::{End, Retired, TurnedEnd};

/// An end that a hostile user has.
#[derive(Drop)]
pub struct Hostile<'p> {
    end: TurnedEnd<'p>,
}

impl<'p> Model for Hostile<'p> {
    ghost use Rattle.vchan_rule.specs.Seated.{SeatedSide};

    ghost Value = { SeatedSide };

    ghost view = { λ h. h.end };
}

/// Turns an end over to a hostile user, with one event: a load of the consumer index of the ring that it
/// writes. A call under way is dropped.
pub fn turn<'p>(end: End<'p>) -> Hostile<'p>
    ensures page { result.page ≡ end.entry.page }
    ensures side { (consumed : ℕ) × (result.side ≡ turns end.entry.side consumed) }
{
    Hostile { end: end.turn() }
}

impl<'p> Hostile<'p> {
    /// Returns whether a hostile user reaches this word: a field of the header, or a ring byte in range.
    pub fn may(&self, word: WordName) -> bool
        ensures { IsTrue result ↔ MayPoke self.now.side.orders word }
    {
        match word {
            WordName::SrvPending | WordName::CliPending | WordName::SrvGone | WordName::CliGone =>
                false,
            _ => Layout::new(self.end.orders()).has(word),
        }
    }

    /// Loads such a word.
    pub fn load(&mut self, word: WordName) -> u64
        requires { MayPoke self.old.side.orders word }
        ensures page { self.new.page ≡ self.old.page }
        ensures side { self.new.side ≡ strays self.old.side (Op.Load word) result }
    {
        self.end.load(word)
    }

    /// Stores any number in such a word.
    pub fn store(&mut self, word: WordName, value: u64)
        requires { MayPoke self.old.side.orders word }
        ensures page { self.new.page ≡ self.old.page }
        ensures side { self.new.side ≡ strays self.old.side (Op.Store word value) 0 }
    {
        self.end.store(word, value);
    }

    /// Sets the peer's pending word.
    pub fn signal(&mut self)
        ensures page { self.new.page ≡ self.old.page }
        ensures side { self.new.side ≡ strays self.old.side (Op.Store (peer_pending self.old.side.role) 1) 0 }
    {
        self.end.signal();
    }

    /// Puts bytes into the ring that the end writes: as many of the first ones as have room by the consumer
    /// index that it loads, from the place of `own` on. `own` is the user's own producer index; it is moved on
    /// and stored. Returns how many bytes were put.
    pub fn say(&mut self, own: &mut u32, payload: &[u8]) -> u32
        ensures page { self.new.page ≡ self.old.page }
        ensures moved { own.new ≡ (own.old + result) % 2 ^ 32 }
        ensures events { (taken : ℕ) × (result ≡ min (length payload.now) (room_of own.old (low32 taken) (order_of self.old.side.orders (written_ring_of self.old.side.role)))) × (self.new.side ≡ strays_along self.old.side (say_events self.old.side.role self.old.side.orders own.old taken (take result payload.now) own.new)) }
    {
        let ring = written_ring(self.end.role());
        let order = self.end.orders().order_of(ring);
        let taken = self.end.load(cons_word(ring));
        let free = room(*own, (taken % 4294967296) as u32, order);
        let count = said(payload.len(), free);
        let bytes = &payload[..count as usize];
        *own = put(&mut self.end, ring, order, *own, bytes);
        count
    }

    /// Sets the end's gone word, and signals its peer. No event follows.
    pub fn retire(self) -> Retired
        ensures page { result.page ≡ self.entry.page }
        ensures side { result.side ≡ strays (strays self.entry.side (Op.Store (own_gone self.entry.side.role) 1) 0) (Op.Store (peer_pending self.entry.side.role) 1) 0 }
    {
        let Self { end } = self;
        end.retire()
    }
}

/// Returns the smaller of a length and a room.
fn said(len: usize, room: u32) -> u32
    ensures { result ≡ min len room }
{
    match u32::try_from(len) {
        Ok(len) => len.min(room),
        Err(_) => room,
    }
}

/// Stores bytes into a ring, from the place of an index on.
fn store_bytes(end: &mut TurnedEnd<'_>, ring: Ring, order: Order, index: u32, bytes: &[u8])
    requires ring { ring ≡ written_ring_of end.old.side.role }
    requires order { order ≡ order_of end.old.side.orders ring }
    requires few { length bytes.now ≤ 1048576 }
    ensures page { end.new.page ≡ end.old.page }
    ensures side { end.new.side ≡ strays_along end.old.side (byte_stores end.old.side.role end.old.side.orders index bytes.now) }
{
    let mut at = 0;
    'bytes: while at < bytes.len() {
        let word = WordName::RingByte {
            ring,
            at: place(index.wrapping_add(at as u32), order),
        };
        end.store(word, u64::from(bytes[at]));
        at += 1;
    }
}

/// Stores bytes into a ring from the place of an index on, and then that index, moved on by their number,
/// as the producer index. Returns that index.
#[tactic(auto, using(crate::proofs::ByteLaws::along_push, crate::proofs::ByteLaws::along_orders, crate::proofs::ByteLaws::along_role))]
fn put(end: &mut TurnedEnd<'_>, ring: Ring, order: Order, index: u32, bytes: &[u8]) -> u32
    requires ring { ring ≡ written_ring_of end.old.side.role }
    requires order { order ≡ order_of end.old.side.orders ring }
    requires few { length bytes.now ≤ 1048576 }
    ensures page { end.new.page ≡ end.old.page }
    ensures moved { result ≡ (index + length bytes.now) % 2 ^ 32 }
    ensures side { end.new.side ≡ strays_along end.old.side (byte_stores end.old.side.role end.old.side.orders index bytes.now ++ past (Op.Store (prod_word_of (written_ring_of end.old.side.role)) result) 0 ∷ []) }
{
    store_bytes(end, ring, order, index, bytes);
    let index = index.wrapping_add(bytes.len() as u32);
    end.store(prod_word(ring), u64::from(index));
    index
}
