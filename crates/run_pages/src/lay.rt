//! Laying the pages of a run.
ghost use Rattle.std.specs.Prelude.{◌≡◌, IfOk};
ghost use Rattle.page_offer.specs.Names.{IsNameOf};

use crate::places::places;
use crate::starts::RunStarts;
use page_offer::{UnlaidClient, UnlaidServer};
use ring_words::Orders;
use scenario_file::Scenario;
use std::alloc::Global;
use std::marker::Model;
use std::snapshot::Snapshot;
use task_duties::PagePlace;
use vchan_io::Memory;
use vchan_rule::{IdleSeat, Page};

/// A page of a run, and its place.
#[derive(Drop)]
pub(crate) enum RunPage {
    /// A page that is laid before the first turn.
    Laid { place: PagePlace, page: Page },
    /// A data page that is laid at its first use.
    Offered(Offering),
}

/// A data page that is laid at its first use: its place, and its client's side as it was made, for the proof
/// alone.
#[derive(Drop)]
pub(crate) struct Offering {
    pub(crate) from: u32,
    pub(crate) to: u32,
    pub(crate) port: u32,
    pub(crate) orders: Orders,
    pub(crate) start: u32,
    pub(crate) client: Snapshot<UnlaidClient>,
    ghost named: { IsNameOf orders start client.value },
}

impl RunPage {
    ghost use Rattle.run_pages.specs.Pages.{page_at};

    /// Returns the page's place.
    pub(crate) fn place(&self) -> PagePlace
        ensures { result ≡ (page_at self.now).place }
    {
        match self {
            RunPage::Laid { place, .. } => *place,
            RunPage::Offered(Offering { from, to, port, .. }) => PagePlace::Payload {
                from: *from,
                to: *to,
                port: *port,
            },
        }
    }
}

/// The two seats of a page whose ends have done nothing, or the two sides of a page that isn't laid yet.
#[derive(Drop)]
pub enum PageSeats<'p> {
    /// The seats of a page that is laid.
    Laid {
        /// The server's seat.
        server: IdleSeat,
        /// The client's seat.
        client: IdleSeat,
    },
    /// The sides of a page that is laid at its first use.
    Offered {
        /// The server's side.
        server: UnlaidServer<'p>,
        /// The client's side.
        client: UnlaidClient,
    },
}

/// The pages of a run, in the order of their places. Contracts see a page that is laid at its first use by
/// the name that it has before that.
#[derive(Drop)]
pub struct RunPages {
    pub(crate) pages: Vec<RunPage>,
}

impl Model for RunPages {
    ghost use Rattle.std.specs.Prelude.{List, map};
    ghost use Rattle.run_pages.specs.Pages.{PageAt, page_at};

    ghost Value = { List PageAt };

    ghost view = { λ p. map page_at p.pages.items };
}

impl RunPages {
    ghost use Rattle.run_pages.specs.Pages.{AreLaid, HasSeats};
    ghost use Rattle.run_pages.specs.Starts.{AreStartsOf};

    /// Makes the pages of a scenario, with the seats or the sides of each. Each control page is laid at once,
    /// and so is each page with a hostile domain at one end; any other page is laid at its first use. Returns
    /// `Memory` if memory runs out.
    pub fn lay<'s>(
        alloc: Global,
        starts: &'s RunStarts,
        scenario: &Scenario,
    ) -> Result<(RunPages, Vec<PageSeats<'s>>), Memory>
        requires starts { AreStartsOf scenario.now starts.now }
        ensures laid { IfOk result (λ p. AreLaid scenario.now p.0) }
        ensures seats { IfOk result (λ p. HasSeats p.0 p.1.items) }
    {
        let places = places(alloc, scenario)?;
        let (pages, seats) = starts.pages(alloc, scenario, places.as_slice())?;
        Ok((RunPages { pages }, seats))
    }
}
