//! The places of an agent's calls by their numbers, and of their targets by name.
ghost use Rattle.std.specs.Prelude.{◌≡◌, ◌<◌, ◌^◌, List, ℕ, Some, bytes_eq, if◌then◌else◌, map, length, ◌++◌, ◌∷◌, [], IfOk, OnOk};
ghost use Rattle.std.specs.List.{AllByRecursion as Each};
ghost use Rattle.call_broker.specs.Domains.{place_of};
ghost use Rattle.std.specs.List.{AllZip as EachPair};
ghost use Rattle.task_duties.specs.Words.{ident_of};
ghost use Rattle.agent_queue.specs.Index.{place_in, number_in, IsIndex, IsFirst, HasTargets};

use crate::trigger::IDENT_FRONT;
use scenario_file::CallPlan;
use script_words::parse_number;
use std::alloc::{AllocError, Global};
use std::collections::BTreeMap;

/// The places of calls by their numbers.
pub(crate) type Index = BTreeMap<u32, usize>;

/// The first places of targets by their names.
type Targets<'a> = BTreeMap<&'a [u8], usize>;

/// Makes the index of some calls. If numbers are equal, it has the first place.
pub(crate) fn index_of(alloc: Global, calls: &[CallPlan]) -> Result<Index, AllocError>
    ensures is { IfOk result (λ index. IsIndex (map (λ c. ident_of c.number) calls.now) index) }
    ensures small { OnOk result (Each (λ c. c.number < 2 ^ 32) calls.now) }
{
    let mut index = BTreeMap::new(alloc);
    for noted in 0..calls.len() {
        let place = calls.len() - 1 - noted;
        note(&mut index, calls[place].number, place)?;
    }
    Ok(index)
}

// Notes the place of the call with a number.
fn note(index: &mut Index, number: u32, place: usize) -> Result<(), AllocError>
    ensures number { number < 2 ^ 32 }
    ensures notes { OnOk result ((ident : List ℕ) → place_in index.new ident ≡ (if bytes_eq ident (ident_of number) then Some place else place_in index.old ident)) }
{
    index.insert(number, place)?;
    Ok(())
}

/// Returns the first place of the call with an ident.
pub(crate) fn place_in(index: &Index, ident: &[u8]) -> Option<usize>
    ensures { result ≡ place_in index.now ident.now }
{
    let number = number_in(ident)?;
    index.get(&number).copied()
}

// The number of the call that an ident names, if it is the ident of a call.
fn number_in(ident: &[u8]) -> Option<u32>
    ensures { result ≡ number_in ident.now }
{
    let digits = ident.strip_prefix(IDENT_FRONT)?;
    let number = parse_number(digits, 4_294_967_295)?;
    Some(number as u32)
}

/// Returns the first place of each call's target.
pub(crate) fn first_places(alloc: Global, calls: &[CallPlan]) -> Result<Vec<usize>, AllocError>
    ensures { IfOk result (λ places. EachPair (IsFirst (map (λ c. c.to) calls.now)) (map (λ c. c.to) calls.now) places.items) }
{
    let mut targets = BTreeMap::new(alloc);
    let mut places = Vec::with_capacity(alloc, calls.len())?;
    for call in calls {
        let first = first_place(&mut targets, call.to.bytes(), places.len())?;
        places.push(first)?;
    }
    Ok(places)
}

// The first place of a target. One that has none gets this place.
fn first_place<'a>(
    targets: &mut Targets<'a>,
    name: &'a [u8],
    place: usize,
) -> Result<usize, AllocError>
    ensures { (names : List (List ℕ)) → length names ≡ place → HasTargets names targets.old
        → IfOk result (λ first. HasTargets (names ++ name.now ∷ []) targets.new × (place_of (names ++ name.now ∷ []) name.now ≡ Some first)) }
{
    if let Some(first) = targets.get(name).copied() {
        return Ok(first);
    }
    targets.insert(name, place)?;
    Ok(place)
}
