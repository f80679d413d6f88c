//! The places of the pages of a scenario.
ghost use Rattle.std.specs.Prelude.{◌≡◌, ◌≤◌, ◌++◌, filter, length, map, IfOk, OnOk};
ghost use Rattle.std.specs.List.{flat_map};
ghost use Rattle.call_broker.specs.Domains.{first_port};
ghost use Rattle.task_duties.specs.Places.{numbers};
ghost use Rattle.task_duties.specs.declared.place.PagePlace.TheVariants.{Control, Payload};
ghost use Rattle.run_laws.specs.Laid.{all_domains, laid, laid_between, page_table, pages_between};
ghost use Rattle.run_pages.specs.Routes.{is_from, routes_of};

use crate::routes::{Route, pages_between, routes, routes_from};
use call_broker::port_after;
use scenario_file::Scenario;
use std::alloc::{AllocError, Global};
use task_duties::PagePlace;
use vchan_io::Memory;

/// Returns the number of data pages for each ordered pair of domains, with the pairs of the first domain
/// first: as many as the caller has calls to the target, and for a hostile caller as many as it has ports.
/// Returns `Memory` if memory runs out.
pub fn page_table(alloc: Global, scenario: &Scenario) -> Result<Vec<u32>, Memory>
    ensures { IfOk result (λ table. table.items ≡ page_table scenario.now) }
{
    let routes = routes(alloc, scenario)?;
    let mut table = Vec::new(alloc);
    for index in 0..scenario.domains.len() as u32 {
        let mine = routes_from(alloc, &routes, index + 1)?;
        push_row(&mut table, scenario, &mine, index + 1)?;
    }
    Ok(table)
}

/// Appends the numbers of pages for the calls from one domain to each other, by the routes from it.
fn push_row(
    table: &mut Vec<u32>,
    scenario: &Scenario,
    routes: &[Route],
    from: u32,
) -> Result<(), AllocError>
    requires routes { routes.now ≡ filter (is_from from) (routes_of scenario.now) }
    requires there { (1 ≤ from) × (from ≤ length scenario.now.domains) }
    ensures { OnOk result (table.new.items ≡ table.old.items ++ map (pages_between scenario.now from) (all_domains scenario.now)) }
{
    for index in 0..scenario.domains.len() as u32 {
        table.push(pages_between(scenario, routes, from, index + 1))?;
    }
    Ok(())
}

/// Returns the places of all pages: a control page for each domain, then the data pages in order of caller,
/// target and port.
pub(crate) fn places(alloc: Global, scenario: &Scenario) -> Result<Vec<PagePlace>, Memory>
    ensures { IfOk result (λ places. places.items ≡ laid scenario.now) }
{
    let routes = routes(alloc, scenario)?;
    let mut places = Vec::new(alloc);
    push_controls(&mut places, scenario.domains.len() as u32)?;
    for index in 0..scenario.domains.len() as u32 {
        let mine = routes_from(alloc, &routes, index + 1)?;
        push_from(&mut places, scenario, &mine, index + 1)?;
    }
    Ok(places)
}

fn push_controls(places: &mut Vec<PagePlace>, count: u32) -> Result<(), AllocError>
    requires { count ≤ 32 }
    ensures { OnOk result (places.new.items ≡ places.old.items ++ map Control (numbers 1 1 count)) }
{
    for index in 0..count {
        places.push(PagePlace::Control { domain: index + 1 })?;
    }
    Ok(())
}

/// Appends the places of the pages for the calls of one domain, by the routes from it.
fn push_from(
    places: &mut Vec<PagePlace>,
    scenario: &Scenario,
    routes: &[Route],
    from: u32,
) -> Result<(), AllocError>
    requires routes { routes.now ≡ filter (is_from from) (routes_of scenario.now) }
    requires there { (1 ≤ from) × (from ≤ length scenario.now.domains) }
    ensures { OnOk result (places.new.items ≡ places.old.items ++ flat_map (laid_between scenario.now from) (all_domains scenario.now)) }
{
    for index in 0..scenario.domains.len() as u32 {
        let count = pages_between(scenario, routes, from, index + 1);
        push_between(places, from, index + 1, count)?;
    }
    Ok(())
}

/// Appends the places of `count` pages for the calls from one domain to another.
fn push_between(
    places: &mut Vec<PagePlace>,
    from: u32,
    to: u32,
    count: u32,
) -> Result<(), AllocError>
    requires { count ≤ 4096 }
    ensures { OnOk result (places.new.items ≡ places.old.items ++ map (Payload from to) (numbers (first_port from to) 2 count)) }
{
    for call in 0..count {
        let port = port_after(from, to, call);
        places.push(PagePlace::Payload { from, to, port })?;
    }
    Ok(())
}
