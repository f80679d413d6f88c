//! A scenario without its hostile domains.
ghost use Rattle.std.specs.Prelude.{◌≡◌, ◌≤◌, length, IfOk};
ghost use Rattle.std.specs.List.{All};
ghost use Rattle.scenario_file.specs.Scenario.{CallFits, IsHonest};
ghost use Rattle.scenario_file.specs.Lines.{call_left, calls_left, honest, number_left, without_hostile};

use crate::copies::{copy_of_bytes, copy_of_honest};
use crate::lookup::targets_hostile;
use crate::scenario::{CallPlan, Domain, Scenario};
use std::alloc::Global;
use vchan_io::Memory;

/// Returns the scenario without its hostile domains and without the calls that name one. The other
/// calls keep their numbers; their callers are numbered anew, by their places in the new list of
/// domains, which may be empty.
///
/// # Errors
///
/// `Memory` if memory runs out; no other.
pub fn without_hostile(alloc: Global, scenario: &Scenario) -> Result<Scenario, Memory>
    ensures { IfOk result (λ left. left ≡ without_hostile scenario.now) }
{
    let domains = honest_domains(alloc, &scenario.domains)?;
    let calls = calls_left(alloc, &scenario.domains, &scenario.calls)?;
    Ok(Scenario {
        control: scenario.control,
        payload: scenario.payload,
        start: scenario.start,
        domains,
        calls,
    })
}

/// Returns the domains that aren't hostile.
fn honest_domains(alloc: Global, domains: &[Domain]) -> Result<Vec<Domain>, Memory>
    ensures { IfOk result (λ left. left.items ≡ honest domains.now) }
{
    let mut left = Vec::new(alloc);
    for domain in domains {
        if domain.is_hostile() {
            continue;
        }
        left.push(copy_of_honest(domain)?)?;
    }
    Ok(left)
}

/// Returns the calls whose target isn't hostile, with their callers' numbers among the honest
/// domains.
fn calls_left(
    alloc: Global,
    domains: &[Domain],
    calls: &[CallPlan],
) -> Result<Vec<CallPlan>, Memory>
    requires few { length domains.now ≤ 32 }
    requires fit { All (CallFits domains.now) calls.now }
    ensures { IfOk result (λ left. left.items ≡ calls_left domains.now calls.now) }
{
    let mut left = Vec::new(alloc);
    for call in calls {
        if targets_hostile(domains, call) {
            continue;
        }
        left.push(call_left(alloc, domains, call)?)?;
    }
    Ok(left)
}

/// Returns a copy of a call, with its caller's number among the honest domains.
fn call_left(alloc: Global, domains: &[Domain], call: &CallPlan) -> Result<CallPlan, Memory>
    requires few { length domains.now ≤ 32 }
    requires caller { IsHonest domains.now call.now.from }
    ensures { IfOk result (λ left. left ≡ call_left domains.now call.now) }
{
    Ok(CallPlan {
        number: call.number,
        from: number_left(domains, call.from),
        to: call.to.clone()?,
        service: call.service.clone()?,
        stdin: copy_of_bytes(alloc, &call.stdin)?,
    })
}

/// Returns the number that an honest domain has among the honest ones.
fn number_left(domains: &[Domain], number: u32) -> u32
    requires few { length domains.now ≤ 32 }
    requires honest { IsHonest domains.now number }
    ensures { result ≡ number_left domains.now number }
{
    honest_count(&domains[..number as usize - 1]) as u32 + 1
}

/// Returns how many domains are honest.
fn honest_count(domains: &[Domain]) -> usize
    ensures count { result ≡ length (honest domains.now) }
    ensures within { result ≤ length domains.now }
{
    let mut count = 0;
    for domain in domains {
        if !domain.is_hostile() {
            count += 1;
        }
    }
    count
}
