//! Settling the pages of a run.
ghost use Rattle.std.specs.Prelude.{◌≡◌, ◌≢◌, ◌+◌, length, map, IfOk};
ghost use Rattle.run_laws.specs.Laid.{server_of, client_of};
ghost use Rattle.scenario_file.specs.Scenario.{Plan};
ghost use Rattle.run_pages.specs.Starts.{AreStartsOf};
ghost use Rattle.vchan_rule.specs.Seated.{words_of};
ghost use Rattle.run_pages.specs.Settling.{AreSettledBy, GivesUp, GivesUpBoth, HandsBack, HasEnd, IsJoinedBy, IsSettledAs};
ghost use Rattle.run_pages.specs.Pages.{AreLaid, IsLaidFor, new_end, page_at};
ghost use Rattle.ring_words.specs.declared.page.Role.TheVariants.{Server, Client};
ghost use Rattle.task_duties.specs.GivenEnds.{all_retired, done_view, retired_at};
ghost use Rattle.task_duties.specs.declared.place.PagePlace.TheVariants.{Payload};
ghost use Rattle.task_duties.specs.TaskOwes.{IsSameEnd};

use crate::lay::{Offering, RunPage, RunPages};
use crate::starts::RunStarts;
use page_offer::{DoneClient, DoneServer, settle};
use run_laws::{SettledPage, Standing};
use scenario_file::Scenario;
use std::alloc::Global;
use task_duties::{DoneEnd, PagePlace, RetiredEnd};
use vchan_io::Memory;
use vchan_rule::{Page, Retired};

impl RunPages {
    /// Settles all pages, in the order of their places, by the ends that the tasks give back: those of the
    /// broker first, then those of each domain, each in the order in which they were dealt. `starts` must be
    /// the start words by which the pages were made. Returns `Memory` if memory runs out; the pages and all
    /// ends are dropped then.
    pub fn settle(
        self,
        alloc: Global,
        starts: &RunStarts,
        scenario: &Scenario,
        mut given_back: Vec<Vec<RetiredEnd>>,
    ) -> Result<Vec<SettledPage>, Memory>
        requires starts { AreStartsOf scenario.now starts.now }
        requires laid { AreLaid scenario.now self }
        requires all { length given_back.items ≡ length scenario.now.domains + 1 }
        requires back { HandsBack self (map (λ h. all_retired h.items) given_back.items) }
        ensures { IfOk result (λ settled. AreSettledBy scenario.now self (map (λ h. all_retired h.items) given_back.items) settled.items) }
    {
        let RunPages { mut pages } = self;
        let left = given_back.as_mut_slice();
        let mut settled = Vec::with_capacity(alloc, pages.len())?;
        while let Some(page) = pages.pop() {
            let place = page.place();
            let (server, client) = take_ends(left, place);
            settled.push(settle_page(alloc, starts, page, server, client)?)?;
        }
        settled.reverse();
        Ok(settled)
    }
}

/// Settles a page by its two ends.
fn settle_page(
    alloc: Global,
    starts: &RunStarts,
    page: RunPage,
    server: RetiredEnd,
    client: RetiredEnd,
) -> Result<SettledPage, Memory>
    requires made { (s : Plan) × AreStartsOf s starts.now × IsLaidFor s (page_at page) }
    requires server { IsSameEnd (new_end (page_at page) Server) (retired_at server) }
    requires client { IsSameEnd (new_end (page_at page) Client) (retired_at client) }
    ensures { IfOk result (IsJoinedBy (page_at page) (retired_at server) (retired_at client)) }
{
    match page {
        RunPage::Laid { place, page } => settle_laid(place, page, server.retired, client.retired),
        RunPage::Offered(page) => {
            settle_offered(alloc, starts, page, server.retired, client.retired)
        }
    }
}

/// Settles a page that was laid before the first turn by its two ends. They must be ends of a laid page too:
/// a table has words, and the name of a page that is laid at its first use has none.
fn settle_laid(
    place: PagePlace,
    page: Page,
    server: DoneEnd,
    client: DoneEnd,
) -> Result<SettledPage, Memory>
    requires server { ((done_view server).page ≡ page.table) × ((done_view server).role ≡ Server) }
    requires client { ((done_view client).page ≡ page.table) × ((done_view client).role ≡ Client) }
    ensures { IfOk result (IsSettledAs place (words_of page) (done_view server) (done_view client)) }
{
    // Both are taken out first: so no end of an unknown kind is dropped here.
    let server = laid_end(server);
    let client = laid_end(client);
    let server = server?;
    let client = client?;
    let settled = page.finish(server, client);
    settled.promise();
    Ok(SettledPage {
        place,
        settled: Standing::laid(settled),
    })
}

/// Returns the end of a page that was laid before the first turn.
fn laid_end(done: DoneEnd) -> Result<Retired, Memory>
    ensures { IfOk result (λ end. done ≡ DoneEnd.Laid end) }
{
    match done {
        DoneEnd::Laid(end) => Ok(end),
        DoneEnd::Server(_) | DoneEnd::Client(_) => Err(Memory),
    }
}

/// Settles a page that was laid at its first use by its two sides.
fn settle_offered(
    alloc: Global,
    starts: &RunStarts,
    page: Offering,
    server: DoneEnd,
    client: DoneEnd,
) -> Result<SettledPage, Memory>
    requires starts { (starts.now.payload.orders ≡ page.orders) × (starts.now.payload.start ≡ page.start) }
    requires server { (done_view server).page ≡ page.client.value }
    requires client { (done_view client).page ≡ page.client.value }
    ensures { IfOk result (IsSettledAs (Payload page.from page.to page.port) (record { orders = page.orders; start = page.start }) (done_view server) (done_view client)) }
{
    // Both are taken out first: so no end of an unknown kind is dropped here.
    let server = server_side(server);
    let client = client_side(client);
    let server = server?;
    let client = client?;
    server.promise();
    let settled = settle(alloc, &starts.payload, server, client)?;
    settled.promise();
    let Offering { from, to, port, .. } = page;
    Ok(SettledPage {
        place: PagePlace::Payload { from, to, port },
        settled: Standing::offered(settled),
    })
}

/// Returns the server's side of a page that was laid at its first use.
fn server_side(done: DoneEnd) -> Result<DoneServer, Memory>
    ensures { IfOk result (λ side. done ≡ DoneEnd.Server side) }
{
    match done {
        DoneEnd::Server(side) => Ok(side),
        DoneEnd::Laid(_) | DoneEnd::Client(_) => Err(Memory),
    }
}

/// Returns the client's side of a page that was laid at its first use.
fn client_side(done: DoneEnd) -> Result<DoneClient, Memory>
    ensures { IfOk result (λ side. done ≡ DoneEnd.Client side) }
{
    match done {
        DoneEnd::Client(side) => Ok(side),
        DoneEnd::Laid(_) | DoneEnd::Server(_) => Err(Memory),
    }
}

/// Takes the server's and the client's end of the page at a place. They are the last ends of their tasks.
fn take_ends(hands: &mut [Vec<RetiredEnd>], place: PagePlace) -> (RetiredEnd, RetiredEnd)
    requires apart { server_of place ≢ client_of place }
    requires server { HasEnd (server_of place) (map (λ h. all_retired h.items) hands.old) }
    requires client { HasEnd (client_of place) (map (λ h. all_retired h.items) hands.old) }
    ensures { GivesUpBoth place (retired_at result.0) (retired_at result.1) (map (λ h. all_retired h.items) hands.old) (map (λ h. all_retired h.items) hands.new) }
{
    match place {
        PagePlace::Control { domain } => (take_end(hands, domain), take_end(hands, 0)),
        PagePlace::Payload { from, to, .. } => (take_end(hands, from), take_end(hands, to)),
    }
}

/// Takes the last end of the task with this number.
fn take_end(hands: &mut [Vec<RetiredEnd>], number: u32) -> RetiredEnd
    requires { HasEnd number (map (λ h. all_retired h.items) hands.old) }
    ensures { GivesUp number (retired_at result) (map (λ h. all_retired h.items) hands.old) (map (λ h. all_retired h.items) hands.new) }
{
    match hands[number as usize].pop() {
        Some(end) => end,
        None => unreachable!(),
    }
}
