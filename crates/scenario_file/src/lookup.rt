//! Looking up the domains of a scenario.
ghost use Rattle.std.specs.Prelude.{◌≡◌, ◌<◌, ◌≤◌, length, slice_get, Some, IfSome, position, bytes_eq};
ghost use Rattle.scenario_file.specs.Scenario.{domain_at, is_hostile, number_named, place_named, targets_hostile, IsHonest};

use crate::scenario::{CallPlan, Domain};

impl Domain {
    /// Returns whether the domain is hostile.
    pub fn is_hostile(&self) -> bool
        ensures { result ≡ is_hostile self.now }
    {
        self.hostile.is_some()
    }
}

/// Returns the place of the first domain with this name, from 0 on.
pub(crate) fn place_named(domains: &[Domain], name: &[u8]) -> Option<usize>
    ensures place { result ≡ place_named domains.now name.now }
    ensures within { IfSome result (λ place. place < length domains.now) }
{
    position_named(domains, name)
}

/// Returns the same place, as the search in a list finds it.
fn position_named(domains: &[Domain], name: &[u8]) -> Option<usize>
    ensures { result ≡ position (λ domain. bytes_eq domain.name name.now) domains.now }
{
    domains
        .iter()
        .position(|domain| domain.name.bytes() == name)
}

/// Returns the domain at a place, from 0 on.
pub(crate) fn domain_at_place(domains: &[Domain], place: usize) -> &Domain
    requires { place < length domains.now }
    ensures { slice_get domains.now place ≡ Some result.now }
{
    &domains[place]
}

/// Returns the number of the first domain with this name, from 1 on, among at most 32 domains.
pub fn number_named(domains: &[Domain], name: &[u8]) -> Option<u32>
    requires { length domains.now ≤ 32 }
    ensures { result ≡ number_named domains.now name.now }
{
    let place = place_named(domains, name)?;
    Some(place as u32 + 1)
}

/// Returns whether a call's target is a hostile domain.
pub(crate) fn targets_hostile(domains: &[Domain], call: &CallPlan) -> bool
    ensures { result ≡ targets_hostile domains.now call.now }
{
    match place_named(domains, call.to.bytes()) {
        Some(place) => domain_at_place(domains, place).is_hostile(),
        None => false,
    }
}

/// Returns the honest domain of a number.
pub(crate) fn honest_domain(domains: &[Domain], number: u32) -> &Domain
    requires { IsHonest domains.now number }
    ensures domain { domain_at domains.now number ≡ Some result.now }
{
    &domains[number as usize - 1]
}
