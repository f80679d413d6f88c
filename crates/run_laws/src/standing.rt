//! What is known of a page of a run.
ghost use Rattle.std.specs.Prelude.{◌≡◌};

use page_offer::OfferedPage;
use std::marker::Model;
use vchan_rule::Settled;

/// A settled page, by when it was laid.
#[derive(Drop)]
pub(crate) enum Laid {
    /// Before the first turn.
    AtFirst(Settled),
    /// When it was first used, if it was.
    InUse(OfferedPage),
}

/// What is known of a page that is done with, whether it was laid at first or at its first use.
#[derive(Drop)]
pub struct Standing {
    page: Laid,
}

impl Model for Standing {
    ghost use Rattle.end_view.specs.Settled.{Settled as SettledEnds};
    ghost use Rattle.run_laws.specs.Standing.{stands_of};

    ghost Value = { SettledEnds };

    ghost view = { λ s. stands_of s.page };
}

impl Standing {
    /// Makes it for a page that was laid before the first turn.
    pub fn laid(page: Settled) -> Standing
        ensures { result ≡ page }
    {
        Standing {
            page: Laid::AtFirst(page),
        }
    }

    /// Makes it for a page that was to be laid at its first use.
    pub fn offered(page: OfferedPage) -> Standing
        ensures { result ≡ page }
    {
        Standing {
            page: Laid::InUse(page),
        }
    }
}
