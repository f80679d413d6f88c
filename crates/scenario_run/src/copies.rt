//! Copies of what the tasks of a run are given, since the run keeps the scenario.
ghost use Rattle.std.specs.Prelude.{◌≡◌, map, IfOk};
ghost use Rattle.run_laws.specs.Laid.{calls_from};

use call_broker::DomainEntry;
use qrexec_frame::{Bytes, Text};
use scenario_file::{Act, ActPage, Acts, CallPlan, Scenario};
use std::alloc::{AllocError, Global};

/// Copies the names of all domains, in order.
pub(crate) fn names_of(alloc: Global, scenario: &Scenario) -> Result<Vec<Text>, AllocError>
    ensures { IfOk result (λ names. names.items ≡ map (λ domain. domain.name) scenario.now.domains) }
{
    let mut names = Vec::with_capacity(alloc, scenario.domains.len())?;
    for domain in &scenario.domains {
        names.push(domain.name.clone()?)?;
    }
    Ok(names)
}

/// Copies all domains as the broker knows them, in order.
pub(crate) fn entries_of(alloc: Global, scenario: &Scenario) -> Result<Vec<DomainEntry>, AllocError>
    ensures { IfOk result (λ entries. map (λ entry. entry.name) entries.items ≡ map (λ domain. domain.name) scenario.now.domains) }
{
    let mut entries = Vec::with_capacity(alloc, scenario.domains.len())?;
    for domain in &scenario.domains {
        let name = domain.name.clone()?;
        entries.push(DomainEntry { name })?;
    }
    Ok(entries)
}

/// Copies the calls of a domain, in order.
pub(crate) fn calls_from(
    alloc: Global,
    scenario: &Scenario,
    from: u32,
) -> Result<Vec<CallPlan>, AllocError>
    ensures { IfOk result (λ own. own.items ≡ calls_from scenario.now from) }
{
    let mut own = Vec::new(alloc);
    for call in &scenario.calls {
        if call.from == from {
            own.push(copy_of_call(alloc, call)?)?;
        }
    }
    Ok(own)
}

fn copy_of_call(alloc: Global, call: &CallPlan) -> Result<CallPlan, AllocError>
    ensures { IfOk result (λ copy. copy ≡ call.now) }
{
    Ok(CallPlan {
        number: call.number,
        from: call.from,
        to: call.to.clone()?,
        service: call.service.clone()?,
        stdin: copy_of_bytes(alloc, &call.stdin)?,
    })
}

fn copy_of_bytes(alloc: Global, bytes: &Bytes) -> Result<Bytes, AllocError>
    ensures { IfOk result (λ copy. copy ≡ bytes.now) }
{
    Ok(Bytes::of(Vec::from_slice(alloc, bytes.slice())?))
}

/// Copies the acts of a hostile domain.
pub(crate) fn copy_of_acts(alloc: Global, acts: &Acts) -> Result<Acts, AllocError>
    ensures { IfOk result (λ copy. copy ≡ acts.now) }
{
    let list = acts.list();
    let copies = copy_of_list(alloc, list)?;
    Ok(Acts::of(copies))
}

fn copy_of_list(alloc: Global, list: &[Act]) -> Result<Vec<Act>, AllocError>
    ensures { IfOk result (λ copies. copies.items ≡ list.now) }
{
    let mut copies = Vec::with_capacity(alloc, list.len())?;
    for act in list {
        copies.push(copy_of_act(act)?)?;
    }
    Ok(copies)
}

fn copy_of_act(act: &Act) -> Result<Act, AllocError>
    ensures { IfOk result (λ copy. copy ≡ act.now) }
{
    match act {
        Act::Hello => Ok(Act::Hello),
        Act::Say { bytes } => Ok(Act::Say {
            bytes: bytes.copy()?,
        }),
        Act::Trigger { to, service, count } => Ok(Act::Trigger {
            to: to.clone()?,
            service: service.clone()?,
            count: *count,
        }),
        Act::Terminate { domain, port } => Ok(Act::Terminate {
            domain: *domain,
            port: *port,
        }),
        Act::Poke { page, word, value } => Ok(Act::Poke {
            page: copy_of_page(page)?,
            word: *word,
            value: *value,
        }),
        Act::Scribble { seed, count } => Ok(Act::Scribble {
            seed: *seed,
            count: *count,
        }),
        Act::Signal => Ok(Act::Signal),
        Act::Rest { turns } => Ok(Act::Rest { turns: *turns }),
    }
}

fn copy_of_page(page: &ActPage) -> Result<ActPage, AllocError>
    ensures { IfOk result (λ copy. copy ≡ page.now) }
{
    match page {
        ActPage::Control => Ok(ActPage::Control),
        ActPage::Payload { peer, port } => Ok(ActPage::Payload {
            peer: peer.clone()?,
            port: *port,
        }),
    }
}
