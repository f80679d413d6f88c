//! An end that was turned over to a hostile user, and an end that makes no event any more.
ghost use Rattle.std.specs.Prelude.{◌≡◌, true};
ghost use Rattle.vchan_protocol.specs.Table.Ends.{peer_pending as peer_pending_of, own_gone as own_gone_of};
ghost use Rattle.vchan_protocol.specs.Hostile.Turned.{strays, MayPoke};

use crate::rule::TableSeat;
use crate::steps::{stray_load, stray_store};
use crate::words::EndWords;
use ring_words::{Layout, Orders, Role, WordName};
use std::marker::{Brand, Model};
use vchan_core::Op;
use vchan_core::words::{own_gone, peer_pending};

/// An end that was turned over to a hostile user, which may load and store any word that lies on the
/// shared page or in its rings, and may signal the peer. It stays turned.
#[derive(Drop)]
pub struct TurnedEnd<'p> {
    pub(crate) words: EndWords<'p>,
    pub(crate) seat: TableSeat,
    pub(crate) layout: Layout,
    pub(crate) role: Role,
}

impl<'p> Model for TurnedEnd<'p> {
    ghost use Rattle.std.specs.Prelude.{◌≡◌, true, [], ◌∷◌};
    ghost use Rattle.ring_words.specs.Page.{word_count};
    ghost use Rattle.vchan_rule.specs.Seated.{SeatedSide};
    ghost use Rattle.vchan_rule.specs.Ends.{end_in};
    ghost use Rattle.vchan_rule.specs.declared.rule.View.TheVariants.{One};

    ghost Value = { SeatedSide };

    ghost view = { λ e. record { page = e.seat.table_id; side = end_in e.seat.me.0 } };

    ghost invariant = { λ e. (e.seat.table_id ≡ e.words.table) × (e.words.table.words ≡ word_count e.layout.orders) × (e.words.key.orders ≡ e.layout.orders) × (e.seat.me ≡ (One (end_in e.seat.me.0), [])) × ((end_in e.seat.me.0).orders ≡ e.layout.orders) × ((end_in e.seat.me.0).role ≡ e.role) × ((end_in e.seat.me.0).turned ≡ true) };
}

impl<'p> TurnedEnd<'p> {
    /// Returns which end it is.
    pub fn role(&self) -> Role
        ensures { result ≡ self.now.side.role }
    {
        self.role
    }

    /// Returns the orders of the page.
    pub fn orders(&self) -> Orders
        ensures { result ≡ self.now.side.orders }
    {
        self.layout.orders
    }

    /// Loads a word: a field of the header that lies on the shared page, or a ring byte.
    pub fn load(&mut self, word: WordName) -> u64
        requires { MayPoke self.old.side.orders word }
        ensures same { self.new.page ≡ self.old.page }
        ensures event { self.new.side ≡ strays self.old.side (Op.Load word) result }
    {
        stray_load::<Brand>(self.words.get(), &mut self.seat, &self.layout, word)
    }

    /// Stores a value in such a word.
    pub fn store(&mut self, word: WordName, value: u64)
        requires { MayPoke self.old.side.orders word }
        ensures same { self.new.page ≡ self.old.page }
        ensures event { self.new.side ≡ strays self.old.side (Op.Store word value) 0 }
    {
        stray_store::<Brand>(self.words.get(), &mut self.seat, &self.layout, word, value);
    }

    /// Sets the peer's pending word.
    pub fn signal(&mut self)
        ensures same { self.new.page ≡ self.old.page }
        ensures event { self.new.side ≡ strays self.old.side (Op.Store (peer_pending_of self.old.side.role) 1) 0 }
    {
        let word = peer_pending(self.role);
        stray_store::<Brand>(self.words.get(), &mut self.seat, &self.layout, word, 1);
    }

    /// Sets its gone word, and signals its peer.
    pub fn retire(self) -> Retired
        ensures same { result.page ≡ self.entry.page }
        ensures events { result.side ≡ strays (strays self.entry.side (Op.Store (own_gone_of self.entry.side.role) 1) 0) (Op.Store (peer_pending_of self.entry.side.role) 1) 0 }
        ensures turned { result.side.turned ≡ true }
    {
        let Self {
            words,
            mut seat,
            layout,
            role,
        } = self;
        stray_store::<Brand>(words.get(), &mut seat, &layout, own_gone(role), 1);
        stray_store::<Brand>(words.get(), &mut seat, &layout, peer_pending(role), 1);
        Retired {
            seat,
            role,
            turned: true,
        }
    }
}

/// An end that makes no event any more: one that has retired, or that was turned and is done.
#[derive(Drop)]
pub struct Retired {
    pub(crate) seat: TableSeat,
    pub(crate) role: Role,
    pub(crate) turned: bool,
}

impl Model for Retired {
    ghost use Rattle.std.specs.Prelude.{◌≡◌, false, true, [], ◌∷◌};
    ghost use Rattle.vchan_protocol.specs.declared.call.EndState.TheVariants.{Shut};
    ghost use Rattle.vchan_rule.specs.Seated.{SeatedSide};
    ghost use Rattle.vchan_rule.specs.Ends.{end_in};
    ghost use Rattle.vchan_rule.specs.declared.rule.View.TheVariants.{One};

    ghost Value = { SeatedSide };

    ghost view = { λ e. record { page = e.seat.table_id; side = end_in e.seat.me.0 } };

    ghost invariant = { λ e. (e.seat.me ≡ (One (end_in e.seat.me.0), [])) × ((end_in e.seat.me.0).role ≡ e.role) × ((end_in e.seat.me.0).turned ≡ e.turned) × ((end_in e.seat.me.0).turned ≡ false → (end_in e.seat.me.0).retired ≡ true) × ((end_in e.seat.me.0).turned ≡ false → (end_in e.seat.me.0).state ≡ Shut) };
}

impl Retired {
    /// Returns which end it was.
    pub fn role(&self) -> Role
        ensures { result ≡ self.now.side.role }
    {
        self.role
    }

    /// Returns whether it was turned over to a hostile user.
    pub fn turned(&self) -> bool
        ensures { result ≡ self.now.side.turned }
    {
        self.turned
    }
}
