//! From which domain and to which domain the calls of a scenario go.
ghost use Rattle.std.specs.Prelude.{◌≡◌, ◌≤◌, filter, length, Some, IfOk};
ghost use Rattle.scenario_file.specs.Scenario.{domain_at};
ghost use Rattle.std.specs.List.{count_by};
ghost use Rattle.run_laws.specs.Laid.{pages_between};
ghost use Rattle.run_pages.specs.Routes.{is_from, is_to, routes_of};

use scenario_file::{Domain, Scenario, number_named};
use std::alloc::{AllocError, Global};
use vchan_io::Memory;

/// The domain from which a call goes, and the domain to which it goes, if one has the target's name.
#[derive(Clone, Copy)]
pub(crate) struct Route {
    from: u32,
    to: Option<u32>,
}

/// Returns the routes of all calls of a scenario, in order.
pub(crate) fn routes(alloc: Global, scenario: &Scenario) -> Result<Vec<Route>, Memory>
    ensures { IfOk result (λ routes. routes.items ≡ routes_of scenario.now) }
{
    let mut routes = Vec::with_capacity(alloc, scenario.calls.len())?;
    for call in &scenario.calls {
        routes.push(Route {
            from: call.from,
            to: number_named(&scenario.domains, call.to.bytes()),
        })?;
    }
    Ok(routes)
}

/// Returns the routes from one domain, in order.
pub(crate) fn routes_from(
    alloc: Global,
    routes: &[Route],
    from: u32,
) -> Result<Vec<Route>, AllocError>
    ensures { IfOk result (λ mine. mine.items ≡ filter (is_from from) routes.now) }
{
    let mut mine = Vec::new(alloc);
    for route in routes {
        if route.from == from {
            mine.push(*route)?;
        }
    }
    Ok(mine)
}

/// Returns how many data pages there are for the calls from one domain to another, by the routes from it.
pub(crate) fn pages_between(scenario: &Scenario, routes: &[Route], from: u32, to: u32) -> u32
    requires routes { routes.now ≡ filter (is_from from) (routes_of scenario.now) }
    requires there { (1 ≤ from) × (from ≤ length scenario.now.domains) }
    ensures pages { result ≡ pages_between scenario.now from to }
    ensures few { result ≤ 4096 }
{
    if from == to {
        return 0;
    }
    let caller = domain_at(&scenario.domains, from);
    if caller.is_hostile() {
        return caller.ports;
    }
    calls_to(routes, to)
}

/// Returns the domain with this number.
fn domain_at(domains: &[Domain], number: u32) -> &Domain
    requires { (1 ≤ number) × (number ≤ length domains.now) }
    ensures { domain_at domains.now number ≡ Some result.now }
{
    &domains[number as usize - 1]
}

/// Returns how many of these routes go to a domain.
fn calls_to(routes: &[Route], to: u32) -> u32
    requires few { length routes.now ≤ 4096 }
    ensures count { result ≡ count_by (is_to to) routes.now }
    ensures few { result ≤ 4096 }
{
    let mut count = 0;
    for route in routes {
        if route.to == Some(to) {
            count += 1;
        }
    }
    count
}
