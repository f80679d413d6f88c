//! The scenario that the generator of numbers makes.
ghost use Rattle.std.specs.Prelude.{◌≡◌, ◌≤◌, ◌<◌, map, IfOk};
ghost use Rattle.ring_words.specs.Rings.{number_of};
ghost use Rattle.qrexec_frame.specs.Texts.{HasNoNul};
ghost use Rattle.scenario_file.specs.Generator.{after_call, call_from, fill, generated, generated_call, generated_calls, generated_domain, generated_names, generated_services, other_place, text_at};
ghost use Rattle.scenario_file.specs.Scenario.{written};

use crate::names::text_of;
use crate::scenario::{CallPlan, Domain, Scenario};
use qrexec_frame::Bytes;
use ring_words::{Orders, check_orders};
use script_words::next_number;
use std::alloc::Global;
use vchan_io::Memory;

/// The orders of both rings if a scenario gives none.
pub(crate) const DEFAULT_ORDERS: (u16, u16) = (10, 11);

/// The names of the generated domains.
const NAMES: [&[u8]; 4] = [b"d1", b"d2", b"d3", b"d4"];

/// The services of generated calls.
const SERVICES: [&[u8]; 6] = [
    b"echo",
    b"upper",
    b"count",
    b"first+100",
    b"split",
    b"exit+7",
];

/// Returns the scenario of a seed: four honest domains `d1` to `d4`, rings of the default orders,
/// and this many calls. The generator begins at the seed, and each call takes four of its numbers:
/// for the caller, the target, the service and the length of the input.
///
/// # Errors
///
/// `Memory` if memory runs out; no other.
pub fn generate(alloc: Global, number: u32, calls: u32) -> Result<Scenario, Memory>
    requires seed { number ≤ 65535 }
    requires some { 1 ≤ calls }
    requires few { calls ≤ 2000 }
    ensures { IfOk result (λ made. written made ≡ generated number calls) }
{
    let orders = default_orders();
    Ok(Scenario {
        control: orders,
        payload: orders,
        start: 0,
        domains: generated_domains(alloc)?,
        calls: generated_calls(alloc, number, calls)?,
    })
}

/// Returns the orders 10 and 11.
pub(crate) fn default_orders() -> Orders
    ensures { (number_of result.left ≡ 10) × (number_of result.right ≡ 11) }
{
    match check_orders(DEFAULT_ORDERS.0, DEFAULT_ORDERS.1) {
        Ok(orders) => orders,
        Err(_) => unreachable!(),
    }
}

/// Returns the four domains.
fn generated_domains(alloc: Global) -> Result<Vec<Domain>, Memory>
    ensures { IfOk result (λ domains. domains.items ≡ map generated_domain generated_names) }
{
    let mut domains = Vec::with_capacity(alloc, 4)?;
    for place in 0..4 {
        let domain = generated_domain(alloc, name_at(place))?;
        domains.push(domain)?;
    }
    Ok(domains)
}

/// Returns an honest domain with this name.
fn generated_domain(alloc: Global, name: &[u8]) -> Result<Domain, Memory>
    requires { HasNoNul name.now }
    ensures { IfOk result (λ domain. domain ≡ generated_domain name.now) }
{
    Ok(Domain {
        name: text_of(alloc, name)?,
        hostile: None,
        ports: 4,
        version: 3,
    })
}

/// Returns this many calls, from the numbers after the seed.
fn generated_calls(alloc: Global, seed: u32, count: u32) -> Result<Vec<CallPlan>, Memory>
    requires seed { seed ≤ 65536 }
    requires few { count ≤ 2000 }
    ensures { IfOk result (λ calls. calls.items ≡ generated_calls 1 seed count) }
{
    let mut calls = Vec::with_capacity(alloc, count as usize)?;
    let mut x = seed;
    for number in 0..count {
        let (call, last) = call_from(alloc, number + 1, x)?;
        calls.push(call)?;
        x = last;
    }
    Ok(calls)
}

/// Returns the call that the four numbers after `x` make, and the last of them.
fn call_from(alloc: Global, number: u32, x: u32) -> Result<(CallPlan, u32), Memory>
    requires { x ≤ 65536 }
    ensures call { IfOk result (λ made. made.0 ≡ call_from number x) }
    ensures last { IfOk result (λ made. made.1 ≡ after_call x) }
    ensures within { IfOk result (λ made. made.1 ≤ 65536) }
{
    let caller = next_number(x);
    let target = next_number(caller);
    let service = next_number(target);
    let stdin = next_number(service);
    let call = generated_call(alloc, number, caller, target, service, stdin)?;
    Ok((call, stdin))
}

/// Returns the call that four drawn numbers choose.
fn generated_call(
    alloc: Global,
    number: u32,
    caller: u32,
    target: u32,
    service: u32,
    stdin: u32,
) -> Result<CallPlan, Memory>
    requires { caller ≤ 65536 }
    ensures { IfOk result (λ call. call ≡ generated_call number caller target service stdin) }
{
    let place = caller % 4;
    Ok(CallPlan {
        number,
        from: place + 1,
        to: text_of(alloc, name_at(other_place(place, target % 3)))?,
        service: text_of(alloc, service_at(service % 6))?,
        stdin: Bytes::of(fill(alloc, stdin % 2049)?),
    })
}

/// Returns one of the three places beside a caller's, the one of this number in their order.
fn other_place(caller: u32, number: u32) -> u32
    requires number { number < 3 }
    ensures place { result ≡ other_place caller number }
    ensures within { result < 4 }
{
    if number < caller { number } else { number + 1 }
}

/// Returns the name of the domain at a place.
fn name_at(place: u32) -> &'static [u8]
    requires { place < 4 }
    ensures name { result.now ≡ text_at generated_names place }
    ensures no_nul { HasNoNul result.now }
{
    NAMES[place as usize]
}

/// Returns the service at a place.
fn service_at(place: u32) -> &'static [u8]
    requires { place < 6 }
    ensures service { result.now ≡ text_at generated_services place }
    ensures no_nul { HasNoNul result.now }
{
    SERVICES[place as usize]
}

/// Returns the first bytes of a fill, of which byte i is i modulo 251.
#[tactic(auto, unfolding(crate::specs::Generator::fill))]
pub(crate) fn fill(alloc: Global, count: u32) -> Result<Vec<u8>, Memory>
    ensures { IfOk result (λ bytes. bytes.items ≡ fill count) }
{
    Ok((0..count).map(|i| (i % 251) as u8).collect(alloc)?)
}
