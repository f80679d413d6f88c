//! The client's side of a page that is made at its first use.
ghost use Rattle.std.specs.Prelude.{◌≡◌, [], false, IfOk, IfErr, IsTrue};
ghost use Rattle.ring_words.specs.declared.page.Role.TheVariants.{Client};
ghost use Rattle.rtrb.specs.Ring.{ConsumerLooked, known_items, received};
ghost use Rattle.end_view.specs.EndView.{IsUnused};
ghost use Rattle.vchan_rule.specs.Seated.{view, last_view};
ghost use Rattle.page_offer.specs.Names.{IsNameOf, name_of};
ghost use Rattle.page_offer.specs.Offers.{IsOfferedNext};
ghost use Rattle.page_offer.specs.Views.{idle_view, named, unused_view};

use crate::back::{Back, BackSender};
use crate::left::Left;
use crate::offer::Offer;
use ring_words::Orders;
use rtrb::Consumer;
use std::marker::Model;
use std::snapshot::Snapshot;
use vchan_lifecycle::retire;
use vchan_rule::{End, Retired};

/// The client's side of a page that wasn't offered to it yet.
#[derive(Drop)]
pub struct UnlaidClient {
    offers: Consumer<Offer>,
    orders: Orders,
    first: u32,
    left: Left,
}

impl Model for UnlaidClient {
    ghost use Rattle.std.specs.Prelude.{◌≡◌, []};
    ghost use Rattle.atomic_table.specs.Seated.{TableId};
    ghost use Rattle.rtrb.specs.Ring.{received};
    ghost use Rattle.page_offer.specs.Names.{name_of};

    ghost Value = { TableId };

    ghost view = { λ c. name_of c.offers.end c.orders c.first };

    ghost invariant = { λ c. received c.offers ≡ [] };
}

/// The client's side of a page whose client's end is in use.
#[derive(Drop)]
pub struct OpenClient {
    offers: Consumer<Offer>,
    orders: Orders,
    first: u32,
    back: BackSender,
    offer: Snapshot<Offer>,
}

impl Model for OpenClient {
    ghost use Rattle.std.specs.Prelude.{◌≡◌, [], ◌∷◌};
    ghost use Rattle.rtrb.specs.Ring.{received};
    ghost use Rattle.page_offer.specs.Names.{name_of};
    ghost use Rattle.page_offer.specs.Views.{InUse};

    ghost Value = { InUse };

    ghost view = { λ c. record { name = name_of c.offers.end c.orders c.first; table = c.offer.value.page.table } };

    ghost invariant = { λ c. (received c.offers ≡ c.offer.value ∷ []) × (c.back ≡ c.offer.value.back) };
}

/// What is left of a client's side that is done.
#[derive(Drop)]
pub(crate) enum ClientLast {
    /// No offer was taken: the side looked, and none of a page of its own was there.
    Unlaid,
    /// The client's end went back to the server.
    Returned {
        end: Snapshot<Retired>,
        back: BackSender,
    },
}

/// The client's side of a page with which its client is done.
#[derive(Drop)]
pub struct DoneClient {
    pub(crate) offers: Consumer<Offer>,
    pub(crate) orders: Orders,
    pub(crate) first: u32,
    pub(crate) last: ClientLast,
}

impl Model for DoneClient {
    ghost use Rattle.rtrb.specs.Ring.{known_items, received};
    ghost use Rattle.page_offer.specs.Names.{name_of};
    ghost use Rattle.page_offer.specs.Views.{DoneEnd};
    ghost use Rattle.page_offer.specs.Offers.{StandsClient, client_end};

    ghost Value = { DoneEnd };

    ghost view = { λ c. record { end = client_end (name_of c.offers.end c.orders c.first) c.last; orders = c.orders; start = c.first } };

    ghost invariant = { λ c. StandsClient (record { orders = c.orders; start = c.first }) (received c.offers) (known_items c.offers) c.last };
}

impl UnlaidClient {
    /// Makes the side of a page of these orders, whose indices begin at `first`, and which is offered through
    /// this ring.
    pub(crate) fn new(
        offers: Consumer<Offer>,
        orders: Orders,
        first: u32,
        left: Left,
    ) -> UnlaidClient
        requires { received offers ≡ [] }
        ensures { result ≡ name_of offers.end orders first }
    {
        UnlaidClient {
            offers,
            orders,
            first,
            left,
        }
    }

    /// Takes the offer and returns the client's end, if a page of the side's own orders and start is offered.
    /// Else returns the side as it was.
    pub fn open<'p>(self) -> Result<(End<'p>, OpenClient), UnlaidClient>
        ensures end { IfOk result (λ opened. IsUnused (view opened.0) × (named self (view opened.0) ≡ unused_view self Client)) }
        ensures side { IfOk result (λ opened. (opened.1.name ≡ self) × (opened.1.table ≡ (view opened.0).page)) }
        ensures words { IfOk result (λ opened. IsNameOf opened.0.side.orders opened.0.start self) }
        ensures none { IfErr result (λ side. side ≡ self) }
    {
        let UnlaidClient {
            mut offers,
            orders,
            first,
            left,
        } = self;
        if !is_offered(&mut offers, orders, first) {
            return Err(UnlaidClient {
                offers,
                orders,
                first,
                left,
            });
        }
        Ok(take(offers, orders, first))
    }

    /// Returns whether no offer comes any more: the server's side is done without having made the page, or was
    /// dropped, for instance because its task ran out of memory. Nothing is promised of the answer.
    pub fn is_abandoned(&mut self) -> bool
        ensures { self.new ≡ self.old }
    {
        self.offers.is_abandoned() || self.left.has_left()
    }

    /// Finishes the side of a client that doesn't use its end. An end that was offered retires at once, so that
    /// its peer finds it gone. The side leaves without one only if it looked and no page of its own was offered.
    pub fn finish(self) -> DoneClient
        ensures { result.end ≡ idle_view self Client }
    {
        let UnlaidClient {
            mut offers,
            orders,
            first,
            left,
        } = self;
        if is_offered(&mut offers, orders, first) {
            let (end, side) = take(offers, orders, first);
            return side.finish(retire(end));
        }
        left.leave();
        DoneClient {
            offers,
            orders,
            first,
            last: ClientLast::Unlaid,
        }
    }
}

// Looks, and returns whether a page of these orders and this start is offered.
fn is_offered(offers: &mut Consumer<Offer>, orders: Orders, first: u32) -> bool
    ensures looked { ConsumerLooked offers.old offers.new }
    ensures offered { IsTrue result → IsOfferedNext (record { orders = orders; start = first }) (known_items offers.new) }
    ensures unoffered { result ≡ false → ¬ IsOfferedNext (record { orders = orders; start = first }) (known_items offers.new) }
{
    if offers.slots() == 0 {
        return false;
    }
    offers.peek_known().page.begins_with(orders, first)
}

// Takes the offer of a page of these orders and this start, and makes the client's end.
fn take<'p>(mut offers: Consumer<Offer>, orders: Orders, first: u32) -> (End<'p>, OpenClient)
    requires none { received offers ≡ [] }
    requires offered { IsOfferedNext (record { orders = orders; start = first }) (known_items offers) }
    ensures end { IsUnused (view result.0) × (named (name_of offers.end orders first) (view result.0) ≡ unused_view (name_of offers.end orders first) Client) }
    ensures side { (result.1.name ≡ name_of offers.end orders first) × (result.1.table ≡ (view result.0).page) }
    ensures words { (result.0.side.orders ≡ orders) × (result.0.start ≡ first) }
{
    let taken = offers.pop_known();
    let offer = Snapshot::of(&taken);
    let Offer {
        page,
        seat,
        back,
        ..
    } = taken;
    let side = OpenClient {
        offers,
        orders,
        first,
        back,
        offer,
    };
    (page.attach(seat), side)
}

impl OpenClient {
    /// Finishes the side after the client's end is done, which goes back to the server.
    pub fn finish(self, own: Retired) -> DoneClient
        requires { (own.page ≡ self.table) × (own.side.role ≡ Client) }
        ensures { result.end ≡ named self.name (last_view own) }
    {
        let OpenClient {
            offers,
            orders,
            first,
            mut back,
            ..
        } = self;
        let end = Snapshot::of(&own);
        back.push_reserved(Back::Done(own));
        DoneClient {
            offers,
            orders,
            first,
            last: ClientLast::Returned { end, back },
        }
    }
}
