//! A page that was made at its first use, after both its sides are done.
ghost use Rattle.std.specs.Prelude.{◌≡◌, ◌∷◌, [], List, IfOk, OnErr};
ghost use Rattle.ring_words.specs.declared.page.Role.TheVariants.{Server, Client};
ghost use Rattle.rtrb.specs.Ring.{IsPair, sent, received, known_items};
ghost use Rattle.end_view.specs.Settled.{IsSettled};
ghost use Rattle.vchan_rule.specs.Seated.{SeatedSide, last_view};
ghost use Rattle.page_offer.specs.declared.back.Back.TheVariants.{Of, Done};
ghost use Rattle.page_offer.specs.Views.{idle_view, named, named_page};
ghost use Rattle.page_offer.specs.Offers.{IsAwaited, IsReturned};

use crate::back::{Back, BackReceiver, BackSender};
use crate::client::{ClientLast, DoneClient};
use crate::offer::Offer;
use crate::server::{DoneServer, ServerLast};
use rtrb::{Consumer, Producer};
use std::alloc::Global;
use std::marker::Model;
use std::snapshot::Snapshot;
use vchan_io::Memory;
use vchan_lifecycle::retire;
use vchan_rule::{HeldPage, Retired, Settled, StartWords};

/// A settled page, under the name by which it was known before it was made.
#[derive(Drop)]
pub struct OfferedPage {
    settled: Settled,
    server: Snapshot<DoneServer>,
    // They stay with the page, so that settling many pages doesn't free each one's memory on the way.
    rings: Option<Rings>,
}

/// The rings of a page, through which its sides passed all that they had for each other.
#[derive(Drop)]
struct Rings {
    offers: (Producer<Offer>, Consumer<Offer>),
    backs: (BackSender, BackReceiver),
}

impl Model for OfferedPage {
    ghost use Rattle.end_view.specs.Settled.{Settled as SettledPage};
    ghost use Rattle.page_offer.specs.Views.{named_page};

    ghost Value = { SettledPage };

    ghost view = { λ p. named_page p.server.value.end.page p.settled };
}

impl OfferedPage {
    /// Gives what holds of the page, as `Settled::promise` does for a page that was made at once.
    pub fn promise(&self)
        ensures { IsSettled self.now }
    {
        self.settled.promise();
    }
}

/// Returns what stands of a page of these start words, once both its sides are done with it.
///
/// Returns `Memory` if memory runs out, which happens only if the server's end was retired unused: a
/// page that was never made is made then, to be settled.
pub fn settle(
    alloc: Global,
    start: &StartWords,
    server: DoneServer,
    client: DoneClient,
) -> Result<OfferedPage, Memory>
    requires page { client.end.page ≡ server.end.page }
    requires words { (start.now.orders ≡ server.orders) × (start.now.start ≡ server.start) }
    ensures settled { IfOk result (λ page. page ≡ record { orders = server.orders; start = server.start; server = server.end; client = client.end }) }
    ensures unused { OnErr result (server.end ≡ idle_view server.end.page Server) }
{
    let kept = Snapshot::of(&server);
    let (settled, rings) = settle_sides(alloc, start, server, client)?;
    Ok(OfferedPage {
        settled,
        server: kept,
        rings,
    })
}

// The same without the name, with the rings if both sides have used them.
fn settle_sides(
    alloc: Global,
    start: &StartWords,
    server: DoneServer,
    client: DoneClient,
) -> Result<(Settled, Option<Rings>), Memory>
    requires page { client.end.page ≡ server.end.page }
    requires words { (start.now.orders ≡ server.orders) × (start.now.start ≡ server.start) }
    ensures settled { IfOk result (λ page. named_page server.end.page page.0 ≡ record { orders = server.orders; start = server.start; server = server.end; client = client.end }) }
    ensures unused { OnErr result (server.end ≡ idle_view server.end.page Server) }
{
    let DoneServer {
        offers: mut sender,
        last: server,
        ..
    } = server;
    let DoneClient {
        offers: mut receiver,
        last: client,
        ..
    } = client;
    receiver.slots_beside(&mut sender);
    match server {
        ServerLast::Unlaid => settle_unused(alloc, start),
        ServerLast::Waits { page, own, back } => match client {
            ClientLast::Unlaid => Ok((settle_untaken(page, own, receiver.pop_known()), None)),
            ClientLast::Returned { back: theirs, .. } => {
                Ok((settle_returned(page, own, back, theirs), None))
            }
        },
        ServerLast::Settled { settled, mut back } => match client {
            ClientLast::Unlaid => {
                was_taken(back, receiver.pop_known());
                Ok((settled, None))
            }
            ClientLast::Returned {
                back: mut theirs,
                ..
            } => {
                was_returned(&mut back, &mut theirs);
                let rings = Rings {
                    offers: (sender, receiver),
                    backs: (theirs, back),
                };
                Ok((settled, Some(rings)))
            }
        },
    }
}

// Settles a page that neither side used, and so without rings to keep: it is made for its two ends to retire.
fn settle_unused(alloc: Global, start: &StartWords) -> Result<(Settled, Option<Rings>), Memory>
    ensures { (name : _) → IfOk result (λ page. named_page name page.0 ≡ record { orders = start.now.orders; start = start.now.start; server = idle_view name Server; client = idle_view name Client }) }
{
    let (page, server, client) = HeldPage::lay(alloc, start)?;
    let (for_server, for_client) = (page.hold()?, page.hold()?);
    let server = retire(for_server.attach(server));
    let client = retire(for_client.attach(client));
    Ok((page.settle(server, client), None))
}

// Settles a page whose client didn't take the offer: its end retires now.
fn settle_untaken(page: HeldPage, own: Retired, offer: Offer) -> Settled
    requires offer { offer.page ≡ page }
    requires own { (own.page ≡ page.table) × (own.side.role ≡ Server) }
    ensures own { (result.orders ≡ page.orders) × (result.start ≡ page.start) × (result.server ≡ last_view own) }
    ensures client { (name : _) → named name result.client ≡ idle_view name Client }
{
    let Offer {
        page: theirs,
        seat,
        ..
    } = offer;
    let client = retire(theirs.attach(seat));
    page.settle(own, client)
}

// Settles a page whose client's end is on its way back.
fn settle_returned(
    page: HeldPage,
    own: Retired,
    mut back: BackReceiver,
    mut sender: BackSender,
) -> Settled
    requires pair { IsPair sender back }
    requires own { (own.page ≡ page.table) × (own.side.role ≡ Server) }
    requires awaited { IsAwaited page back }
    requires said { (mark : _) × (end : _) × (sent sender ≡ Of mark ∷ Done end ∷ []) }
    ensures own { (result.orders ≡ page.orders) × (result.start ≡ page.start) × (result.server ≡ last_view own) }
    ensures client { (mark : _) (end : SeatedSide) → sent sender ≡ Of mark ∷ Done end ∷ [] → result.client ≡ last_view end }
{
    back.slots_beside(&mut sender);
    match back.pop_known() {
        Back::Done(theirs) => page.settle(own, theirs),
        Back::Of(_) => unreachable!(),
    }
}

// Shows that what came back is what the client sent.
fn was_returned(back: &mut BackReceiver, sender: &mut BackSender)
    requires pair { IsPair sender.old back.old }
    ensures { (settled : _) → IsReturned settled back.old → (mark : _) (end : SeatedSide) → sent sender.old ≡ Of mark ∷ Done end ∷ [] → settled.client ≡ last_view end }
{
    back.slots_beside(sender);
}

// Shows that an offer whose client's end came back isn't on its way any more.
fn was_taken(mut back: BackReceiver, mut offer: Offer)
    requires pair { IsPair offer.back back }
    ensures { (settled : _) → IsReturned settled back → ⊥ }
{
    back.slots_beside(&mut offer.back);
}
