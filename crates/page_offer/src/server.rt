//! The server's side of a page that is made at its first use.
ghost use Rattle.std.specs.Prelude.{◌≡◌, ◌<◌, [], ◌∷◌, false, IfOk};
ghost use Rattle.ring_words.specs.declared.page.Role.TheVariants.{Server, Client};
ghost use Rattle.rtrb.specs.Ring.{IsPair, received, known_items};
ghost use Rattle.end_view.specs.EndView.{IsUnused};
ghost use Rattle.vchan_rule.specs.Seated.{view, last_view};
ghost use Rattle.page_offer.specs.declared.back.Back.TheVariants.{Of};
ghost use Rattle.page_offer.specs.Names.{IsNameOf};
ghost use Rattle.page_offer.specs.Views.{idle_view, named, unused_view};
ghost use Rattle.page_offer.specs.declared.server.ServerLast.{ServerLast};
ghost use Rattle.page_offer.specs.Offers.{StandsServer, server_end};

use crate::back::{Back, BackReceiver, OnePage};
use crate::client::UnlaidClient;
use crate::left::Left;
use crate::offer::Offer;
use ring_words::Orders;
use rtrb::{Producer, RingBuffer};
use std::alloc::Global;
use std::marker::Model;
use std::mem;
use std::snapshot::Snapshot;
use vchan_io::Memory;
use vchan_rule::{End, HeldPage, IdleSeat, Retired, Settled, StartWords};

/// The server's side of a page that isn't made yet.
#[derive(Drop)]
pub struct UnlaidServer<'p> {
    offers: Producer<Offer>,
    start: &'p StartWords,
    orders: Orders,
    first: u32,
    left: Left,
}

impl<'p> Model for UnlaidServer<'p> {
    ghost use Rattle.std.specs.Prelude.{◌≡◌, ◌<◌, []};
    ghost use Rattle.rtrb.specs.Ring.{sent, known_free};
    ghost use Rattle.vchan_rule.specs.Seated.{PageView};
    ghost use Rattle.page_offer.specs.Names.{name_of};

    ghost Value = { PageView };

    ghost view = { λ s. record { table = name_of s.offers.end s.orders s.first; orders = s.orders; start = s.first } };

    ghost invariant = { λ s. (s.start.now.orders ≡ s.orders) × (s.start.now.start ≡ s.first) × (sent s.offers ≡ []) × (0 < known_free s.offers) };
}

/// A page that a server has made and not offered yet.
#[derive(Drop)]
pub struct LaidPage {
    page: HeldPage,
    held_by_end: HeldPage,
    seat: IdleSeat,
    offer: Offer,
    back: BackReceiver,
    ghost one_page: { (held_by_end ≡ page) × (offer.page ≡ page) },
    ghost of_server: { (seat.page ≡ page) × (seat.role ≡ Server) },
    ghost pair: { IsPair offer.back back },
    ghost awaited: { received back ≡ Of offer.mark ∷ [] },
}

/// The server's side of a page whose server's end is in use.
#[derive(Drop)]
pub struct OpenServer {
    offers: Producer<Offer>,
    orders: Orders,
    first: u32,
    page: HeldPage,
    back: BackReceiver,
    left: Left,
}

impl Model for OpenServer {
    ghost use Rattle.std.specs.Prelude.{◌≡◌};
    ghost use Rattle.rtrb.specs.Ring.{sent};
    ghost use Rattle.page_offer.specs.Names.{name_of};
    ghost use Rattle.page_offer.specs.Views.{InUse};
    ghost use Rattle.page_offer.specs.Offers.{IsOffered, IsAwaited};

    ghost Value = { InUse };

    ghost view = { λ s. record { name = name_of s.offers.end s.orders s.first; table = s.page.table } };

    ghost invariant = { λ s. (s.page.orders ≡ s.orders) × (s.page.start ≡ s.first) × IsOffered (sent s.offers) s.page s.back × IsAwaited s.page s.back };
}

/// What is left of a server's side that is done.
#[derive(Drop)]
pub(crate) enum ServerLast {
    /// The page was never made.
    Unlaid,
    /// The client's end isn't back yet.
    Waits {
        page: HeldPage,
        own: Retired,
        back: BackReceiver,
    },
    /// The page is settled, and its memory is given back.
    Settled {
        settled: Settled,
        back: BackReceiver,
    },
}

/// The server's side of a page with which its server is done.
#[derive(Drop)]
pub struct DoneServer {
    pub(crate) offers: Producer<Offer>,
    pub(crate) orders: Orders,
    pub(crate) first: u32,
    pub(crate) last: ServerLast,
}

impl Model for DoneServer {
    ghost use Rattle.rtrb.specs.Ring.{sent};
    ghost use Rattle.page_offer.specs.Names.{name_of};
    ghost use Rattle.page_offer.specs.Views.{DoneEnd};
    ghost use Rattle.page_offer.specs.Offers.{StandsServer, server_end};

    ghost Value = { DoneEnd };

    ghost view = { λ s. record { end = server_end (name_of s.offers.end s.orders s.first) s.last; orders = s.orders; start = s.first } };

    ghost invariant = { λ s. StandsServer (record { orders = s.orders; start = s.first }) (sent s.offers) s.last };
}

/// Makes the two sides of a page of these orders whose indices begin at `first`: it begins with the words
/// `start` when it is made. Returns `Memory` if memory runs out.
pub fn unlaid<'p>(
    alloc: Global,
    start: &'p StartWords,
    orders: Orders,
    first: u32,
) -> Result<(UnlaidServer<'p>, UnlaidClient), Memory>
    requires { (start.now.orders ≡ orders) × (start.now.start ≡ first) }
    ensures sides { IfOk result (λ sides. (sides.0.orders ≡ orders) × (sides.0.start ≡ first) × (sides.1 ≡ sides.0.table)) }
    ensures name { IfOk result (λ sides. IsNameOf orders first sides.1) }
{
    let (sender, receiver) = RingBuffer::new(alloc, 1)?;
    let left = Left::new(alloc)?;
    let left_too = left.share()?;
    let server = UnlaidServer {
        offers: sender,
        start,
        orders,
        first,
        left,
    };
    let client = UnlaidClient::new(receiver, orders, first, left_too);
    Ok((server, client))
}

impl<'p> UnlaidServer<'p> {
    /// Makes the page. Returns `Memory` if memory runs out.
    pub fn lay(&self, alloc: Global) -> Result<LaidPage, Memory>
        ensures { IfOk result (λ laid. (laid.page.orders ≡ self.now.orders) × (laid.page.start ≡ self.now.start)) }
    {
        let (page, seat, client) = HeldPage::lay(alloc, self.start)?;
        let (mut sender, mut back) = RingBuffer::with_protocol::<Global, OnePage>(alloc, 2)?;
        sender.push_reserved(Back::Of(Snapshot::of(&page)));
        back.slots_beside(&mut sender);
        let _ = back.pop_known();
        let offer = Offer {
            page: page.hold()?,
            seat: client,
            back: sender,
            mark: Snapshot::of(&page),
        };
        Ok(LaidPage {
            held_by_end: page.hold()?,
            page,
            seat,
            offer,
            back,
        })
    }

    /// Offers the page that was made to the client, and returns the server's end. The page has the side's own
    /// orders and start, and so has the end.
    pub fn open(self, laid: LaidPage) -> (End<'p>, OpenServer)
        requires { (laid.page.orders ≡ self.orders) × (laid.page.start ≡ self.start) }
        ensures end { IsUnused (view result.0) × (named self.entry.table (view result.0) ≡ unused_view self.entry.table Server) }
        ensures side { (result.1.name ≡ self.entry.table) × (result.1.table ≡ (view result.0).page) }
        ensures words { (result.0.side.orders ≡ self.entry.orders) × (result.0.start ≡ self.entry.start) }
    {
        let UnlaidServer {
            mut offers,
            orders,
            first,
            left,
            ..
        } = self;
        let LaidPage {
            page,
            held_by_end,
            seat,
            offer,
            back,
        } = laid;
        offers.push_reserved(offer);
        let end = held_by_end.attach(seat);
        let side = OpenServer {
            offers,
            orders,
            first,
            page,
            back,
            left,
        };
        (end, side)
    }

    /// Finishes the side of a server that doesn't use its end.
    pub fn finish(self) -> DoneServer
        ensures { (result.end ≡ idle_view self.entry.table Server) × (result.orders ≡ self.entry.orders) × (result.start ≡ self.entry.start) }
    {
        let UnlaidServer {
            offers,
            orders,
            first,
            left,
            ..
        } = self;
        left.leave();
        DoneServer {
            offers,
            orders,
            first,
            last: ServerLast::Unlaid,
        }
    }
}

impl OpenServer {
    /// Returns whether the offer won't be taken any more: the client's side is done without having used its
    /// end, or was dropped, for instance because its task ran out of memory. Nothing is promised of the answer.
    pub fn is_abandoned(&mut self) -> bool
        ensures { self.new ≡ self.old }
    {
        self.offers.is_abandoned() || self.left.has_left()
    }

    /// Finishes the side after the server's end is done.
    pub fn finish(self, own: Retired) -> DoneServer
        requires { (own.page ≡ self.table) × (own.side.role ≡ Server) }
        ensures { result.end ≡ named self.name (last_view own) }
    {
        let OpenServer {
            offers,
            orders,
            first,
            page,
            back,
            ..
        } = self;
        let mut done = DoneServer {
            offers,
            orders,
            first,
            last: ServerLast::Waits { page, own, back },
        };
        done.take_back();
        done
    }
}

impl DoneServer {
    /// Gives what the name of the page tells: its orders, and the number at which its indices begin.
    pub fn promise(&self)
        ensures { IsNameOf self.now.orders self.now.start self.now.end.page }
    {
        let _ = &self.last;
    }

    /// Takes the client's end if that is back, so that the page is settled and its memory is freed. Returns
    /// whether anything is left to take.
    pub fn take_back(&mut self) -> bool
        ensures { self.new ≡ self.old }
    {
        let last = mem::replace(&mut self.last, ServerLast::Unlaid);
        let (last, waits) = last.take_back();
        self.last = last;
        waits
    }
}

impl ServerLast {
    // The same for what is left of the side; also returns whether the client's end isn't back yet.
    fn take_back(self) -> (ServerLast, bool)
        requires { (words : _) × (offers : _) × StandsServer words offers self }
        ensures { (name : _) (words : _) (offers : _) → StandsServer words offers self → StandsServer words offers result.0 × (server_end name result.0 ≡ server_end name self) }
    {
        match self {
            ServerLast::Waits {
                page,
                own,
                mut back,
            } => match back.pop() {
                Ok(Back::Done(theirs)) => {
                    let settled = page.settle(own, theirs);
                    (ServerLast::Settled { settled, back }, false)
                }
                Ok(Back::Of(_)) => unreachable!(),
                Err(_) => (ServerLast::Waits { page, own, back }, true),
            },
            last => (last, false),
        }
    }
}
