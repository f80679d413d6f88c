//! The way by which a client's end comes back to the server.
use rtrb::{Consumer, Producer, Protocol};
use std::alloc::Global;
use std::snapshot::Snapshot;
use vchan_rule::{HeldPage, Retired};

/// What goes back to the server.
#[derive(Drop)]
pub enum Back {
    /// The mark of the page, for the proof only.
    Of(Snapshot<HeldPage>),
    /// The client's end, which is done.
    Done(Retired),
}

/// The ring of one page's mark and its client's end.
pub struct OnePage;

impl Protocol<Back> for OnePage {
    ghost use Rattle.page_offer.specs.Backs.{Follows};

    ghost allows = { Follows };
}

/// The side by which the client gives its end back.
pub type BackSender = Producer<Back, Global, OnePage>;

/// The side from which the server takes the client's end.
pub type BackReceiver = Consumer<Back, Global, OnePage>;
