//! Which domains of a scenario are hostile.
ghost use Rattle.std.specs.Prelude.{◌≡◌};
ghost use Rattle.scenario_file.specs.Scenario.{hostile_among, hostile_at};

use scenario_file::{Domain, Scenario};

/// Returns whether the domain with this number is hostile.
pub fn is_hostile(scenario: &Scenario, number: u32) -> bool
    ensures { result ≡ hostile_at scenario.now number }
{
    is_hostile_among(&scenario.domains, number)
}

/// Returns whether the domain with this number is hostile, among these domains.
fn is_hostile_among(domains: &[Domain], number: u32) -> bool
    ensures { result ≡ hostile_among domains.now number }
{
    if number == 0 {
        return false;
    }
    match domains.get(number as usize - 1) {
        Some(domain) => domain.is_hostile(),
        None => false,
    }
}
