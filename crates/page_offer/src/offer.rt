//! What a server gives to its client.
ghost use Rattle.std.specs.Prelude.{◌≡◌, ◌<◌, [], ◌∷◌};
ghost use Rattle.rtrb.specs.Ring.{sent, known_free};
ghost use Rattle.ring_words.specs.declared.page.Role.TheVariants.{Client};
ghost use Rattle.page_offer.specs.declared.back.Back.TheVariants.{Of};

use crate::back::BackSender;
use std::snapshot::Snapshot;
use vchan_rule::{HeldPage, IdleSeat};

/// A page that its server has made, with the seat of the client's end, and the way by which that end comes
/// back after it is done.
#[derive(Drop)]
pub struct Offer {
    pub(crate) page: HeldPage,
    pub(crate) seat: IdleSeat,
    pub(crate) back: BackSender,
    pub(crate) mark: Snapshot<HeldPage>,
    ghost of_client: { (seat.page ≡ page) × (seat.role ≡ Client) },
    ghost marked: { (sent back ≡ Of mark ∷ []) × (mark.value ≡ page) },
    ghost room: { 0 < known_free back },
}
