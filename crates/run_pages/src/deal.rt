//! Dealing the ends of the pages to the tasks of a run.
ghost use Rattle.std.specs.Prelude.{◌≡◌, ◌≤◌, ◌++◌, ◌∷◌, [], List, length, IfOk, OnOk};
ghost use Rattle.task_duties.specs.GivenEnds.{fresh_view, given_at};
ghost use Rattle.task_duties.specs.declared.place.PagePlace.TheVariants.{Payload};
ghost use Rattle.vchan_rule.specs.Seated.{view};
ghost use Rattle.run_laws.specs.Laid.{orders_of};
ghost use Rattle.run_pages.specs.Dealt.{AddsHand, AreDealt, AreEndsOf, ControlsDealt, FitsDomain, Follows, Gives, HandsDealt, HaveOrders, hands_after};
ghost use Rattle.scenario_file.specs.Scenario.{Plan};
ghost use Rattle.run_pages.specs.Pages.{AreLaid, AreSeatsOf, HasSeats, IsLaidFor, PageAt, page_at};

use crate::lay::{PageSeats, RunPage, RunPages};
use scenario_file::Scenario;
use std::alloc::{AllocError, Global};
use task_duties::{DataEnd, PagePlace, UnusedEnd};
use vchan_io::Memory;
use vchan_rule::End;

/// The ends that are dealt to one domain.
#[derive(Drop)]
pub struct Hand<'p> {
    /// The domain's end of its control page.
    pub control: End<'p>,
    /// The domain's ends of data pages, in order of caller, target and port.
    pub payload: Vec<DataEnd<'p>>,
}

/// The ends of all pages of a run.
#[derive(Drop)]
pub struct Dealt<'p> {
    /// The broker's ends of the control pages, in the order of the domains.
    pub controls: Vec<End<'p>>,
    /// The ends of each domain, in the order of the domains.
    pub hands: Vec<Hand<'p>>,
}

impl RunPages {
    /// Deals the ends of all pages to the broker and to the domains of the scenario for which the pages were
    /// made, from the seats and sides that came with them. Returns `Memory` if memory runs out; the seats are
    /// dropped then.
    pub fn deal<'p>(
        &'p self,
        alloc: Global,
        scenario: &Scenario,
        seats: Vec<PageSeats<'p>>,
    ) -> Result<Dealt<'p>, Memory>
        requires laid { AreLaid scenario.now self.now }
        requires seats { HasSeats self.now seats.items }
        ensures controls { IfOk result (λ d. ControlsDealt self.now d.controls.items) }
        ensures hands { IfOk result (λ d. HandsDealt self.now d.hands.items) }
        ensures orders { IfOk result (λ d. HaveOrders scenario.now d.hands.items) }
        ensures all { IfOk result (λ d. length d.hands.items ≡ length scenario.now.domains) }
        ensures as_many { IfOk result (λ d. length d.controls.items ≡ length scenario.now.domains) }
    {
        let mut dealt = Dealt {
            controls: Vec::with_capacity(alloc, scenario.domains.len())?,
            hands: Vec::with_capacity(alloc, scenario.domains.len())?,
        };
        let mut index = 0;
        for seats in seats {
            dealt.deal_page(alloc, &self.pages[index], seats)?;
            index += 1;
        }
        Ok(dealt)
    }
}

impl<'p> Dealt<'p> {
    // Deals the two ends of a page.
    fn deal_page(
        &mut self,
        alloc: Global,
        page: &'p RunPage,
        seats: PageSeats<'p>,
    ) -> Result<(), AllocError>
        requires seats { AreSeatsOf (page_at page.now) seats }
        requires follows { Follows (length self.old.hands.items) ((page_at page.now).place ∷ []) }
        ensures dealt { (pages : List PageAt) → AreDealt pages self.old.controls.items self.old.hands.items
            → OnOk result (AreDealt (pages ++ page_at page.now ∷ []) self.new.controls.items self.new.hands.items) }
        ensures count { OnOk result (length self.new.hands.items ≡ hands_after (page_at page.now).place (length self.old.hands.items)) }
        ensures orders { (s : Plan) → IsLaidFor s (page_at page.now) → HaveOrders s self.old.hands.items → OnOk result (HaveOrders s self.new.hands.items) }
    {
        match page {
            RunPage::Laid { place, page } => match seats {
                PageSeats::Laid { server, client } => {
                    let server = page.attach(server);
                    let client = page.attach(client);
                    self.deal_laid(alloc, *place, server, client)?;
                    Ok(())
                }
                PageSeats::Offered { .. } => unreachable!(),
            },
            RunPage::Offered(page) => match seats {
                PageSeats::Laid { .. } => unreachable!(),
                PageSeats::Offered { server, client } => {
                    self.deal_data(
                        page.from,
                        page.to,
                        page.port,
                        UnusedEnd::Server(server),
                        UnusedEnd::Client(client),
                    )?;
                    Ok(())
                }
            },
        }
    }

    // Deals the two ends of a page that is laid.
    fn deal_laid(
        &mut self,
        alloc: Global,
        place: PagePlace,
        server: End<'p>,
        client: End<'p>,
    ) -> Result<(), AllocError>
        requires { Follows (length self.old.hands.items) (place ∷ []) }
        ensures dealt { (pages : List PageAt) (p : PageAt) → AreEndsOf p place (view server.entry) (view client.entry) → AreDealt pages self.old.controls.items self.old.hands.items
            → OnOk result (AreDealt (pages ++ p ∷ []) self.new.controls.items self.new.hands.items) }
        ensures count { OnOk result (length self.new.hands.items ≡ hands_after place (length self.old.hands.items)) }
        ensures orders { (s : Plan) → server.entry.side.orders ≡ orders_of s place → client.entry.side.orders ≡ orders_of s place → HaveOrders s self.old.hands.items
            → OnOk result (HaveOrders s self.new.hands.items) }
    {
        match place {
            PagePlace::Control { .. } => {
                self.deal_control(alloc, server, client)?;
                Ok(())
            }
            PagePlace::Payload { from, to, port } => {
                self.deal_data(
                    from,
                    to,
                    port,
                    UnusedEnd::Laid(server),
                    UnusedEnd::Laid(client),
                )?;
                Ok(())
            }
        }
    }

    // Deals the two ends of the next domain's control page.
    fn deal_control(
        &mut self,
        alloc: Global,
        server: End<'p>,
        client: End<'p>,
    ) -> Result<(), AllocError>
        ensures controls { OnOk result (self.new.controls.items ≡ self.old.controls.items ++ client.entry ∷ []) }
        ensures hands { OnOk result (AddsHand server.entry self.old.hands.items self.new.hands.items) }
        ensures orders { (s : Plan) → server.entry.side.orders ≡ s.control → HaveOrders s self.old.hands.items → OnOk result (HaveOrders s self.new.hands.items) }
    {
        let payload = Vec::new(alloc);
        self.controls.push(client)?;
        self.hands.push(Hand {
            control: server,
            payload,
        })?;
        Ok(())
    }

    // Deals the two ends of a data page.
    fn deal_data(
        &mut self,
        from: u32,
        to: u32,
        port: u32,
        server: UnusedEnd<'p>,
        client: UnusedEnd<'p>,
    ) -> Result<(), AllocError>
        requires { Follows (length self.old.hands.items) (Payload from to port ∷ []) }
        ensures dealt { (pages : List PageAt) (p : PageAt) → AreEndsOf p (Payload from to port) (fresh_view server.entry) (fresh_view client.entry)
            → AreDealt pages self.old.controls.items self.old.hands.items → OnOk result (AreDealt (pages ++ p ∷ []) self.new.controls.items self.new.hands.items) }
        ensures count { OnOk result (length self.new.hands.items ≡ length self.old.hands.items) }
        ensures orders { (s : Plan) → FitsDomain s from server.entry → FitsDomain s to client.entry → HaveOrders s self.old.hands.items → OnOk result (HaveOrders s self.new.hands.items) }
    {
        self.give(
            from,
            DataEnd {
                from,
                to,
                port,
                end: server,
            },
        )?;
        self.give(
            to,
            DataEnd {
                from,
                to,
                port,
                end: client,
            },
        )?;
        Ok(())
    }

    // Gives a data end to the domain of this number.
    fn give(&mut self, number: u32, end: DataEnd<'p>) -> Result<(), AllocError>
        requires { (1 ≤ number) × (number ≤ length self.old.hands.items) }
        ensures gives { OnOk result (Gives number (given_at end.entry) self.old.hands.items self.new.hands.items) }
        ensures same { self.new.controls ≡ self.old.controls }
        ensures orders { (s : Plan) → FitsDomain s number end.entry.end → HaveOrders s self.old.hands.items → OnOk result (HaveOrders s self.new.hands.items) }
    {
        self.hands[number as usize - 1].payload.push(end)?;
        Ok(())
    }
}
