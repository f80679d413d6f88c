//! The words with which pages begin, and making a page by them.
ghost use Rattle.std.specs.Prelude.{◌≡◌, true, false, map, IfOk};

use crate::hostile::is_hostile;
use crate::lay::{Offering, PageSeats, RunPage};
use page_offer::unlaid;
use ring_words::Orders;
use scenario_file::Scenario;
use std::alloc::Global;
use std::snapshot::Snapshot;
use task_duties::PagePlace;
use vchan_io::Memory;
use vchan_rule::{Page, StartWords};

/// The words with which the pages of a scenario begin, and the orders and the first index of its data pages.
#[derive(Drop)]
pub struct RunStarts {
    control: StartWords,
    pub(crate) payload: StartWords,
    orders: Orders,
    first: u32,
    ghost of_payload: { (payload.orders ≡ orders) × (payload.start ≡ first) },
}

impl RunStarts {
    ghost use Rattle.run_laws.specs.Laid.{orders_of};
    ghost use Rattle.scenario_file.specs.Scenario.{Plan};
    ghost use Rattle.task_duties.specs.declared.place.PagePlace.TheVariants.{Payload};
    ghost use Rattle.run_pages.specs.Pages.{IsLaying, are_offered, is_offered, page_at};
    ghost use Rattle.run_pages.specs.Starts.{AreStartsOf, IsMadeFor};

    /// Makes the start words of a scenario's control pages and of its data pages. Returns `Memory` if memory
    /// runs out.
    pub fn new(alloc: Global, scenario: &Scenario) -> Result<RunStarts, Memory>
        ensures { IfOk result (AreStartsOf scenario.now) }
    {
        Ok(RunStarts {
            control: StartWords::new(alloc, scenario.control, scenario.start)?,
            payload: StartWords::new(alloc, scenario.payload, scenario.start)?,
            orders: scenario.payload,
            first: scenario.start,
        })
    }

    /// Makes the pages at these places, with the seats or sides of each.
    pub(crate) fn pages<'s>(
        &'s self,
        alloc: Global,
        scenario: &Scenario,
        places: &[PagePlace],
    ) -> Result<(Vec<RunPage>, Vec<PageSeats<'s>>), Memory>
        ensures { AreStartsOf scenario.now self.now → IfOk result (λ p. IsLaying scenario.now places.now (map page_at p.0.items) p.1.items) }
    {
        let mut pages = Vec::with_capacity(alloc, places.len())?;
        let mut seats = Vec::with_capacity(alloc, places.len())?;
        for place in places {
            let (page, seats_of_page) = self.page(alloc, scenario, *place)?;
            // Both lists have room for all.
            pages.push_reserved(page);
            seats.push_reserved(seats_of_page);
        }
        Ok((pages, seats))
    }

    // Makes the page at a place, with its seats or sides.
    fn page<'s>(
        &'s self,
        alloc: Global,
        scenario: &Scenario,
        place: PagePlace,
    ) -> Result<(RunPage, PageSeats<'s>), Memory>
        ensures { AreStartsOf scenario.now self.now → IfOk result (λ p. IsMadeFor scenario.now place p.0 p.1) }
    {
        match place {
            PagePlace::Control { .. } => RunStarts::laid(alloc, &self.control, place),
            PagePlace::Payload { from, to, port } => {
                if is_hostile(scenario, from) || is_hostile(scenario, to) {
                    RunStarts::laid(alloc, &self.payload, place)
                } else {
                    self.offered(alloc, from, to, port)
                }
            }
        }
    }

    // Lays a page at once by these words, and gives it with its seats.
    fn laid<'s>(
        alloc: Global,
        start: &StartWords,
        place: PagePlace,
    ) -> Result<(RunPage, PageSeats<'s>), Memory>
        ensures { (s : Plan) → is_offered s place ≡ false → start.now.orders ≡ orders_of s place → start.now.start ≡ s.start → IfOk result (λ p. IsMadeFor s place p.0 p.1) }
    {
        let (page, server, client) = Page::lay(alloc, start)?;
        Ok((
            RunPage::Laid { place, page },
            PageSeats::Laid { server, client },
        ))
    }

    // Makes a data page that is laid at its first use, with its sides.
    fn offered<'s>(
        &'s self,
        alloc: Global,
        from: u32,
        to: u32,
        port: u32,
    ) -> Result<(RunPage, PageSeats<'s>), Memory>
        ensures { (s : Plan) → are_offered s from to ≡ true → AreStartsOf s self.now → IfOk result (λ p. IsMadeFor s (Payload from to port) p.0 p.1) }
    {
        let (server, client) = unlaid(alloc, &self.payload, self.orders, self.first)?;
        let page = Offering {
            from,
            to,
            port,
            orders: self.orders,
            start: self.first,
            client: Snapshot::of(&client),
        };
        Ok((
            RunPage::Offered(page),
            PageSeats::Offered { server, client },
        ))
    }
}
