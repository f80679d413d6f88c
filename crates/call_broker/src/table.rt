//! The calls of all ordered pairs, in the order of the pairs.
ghost use Rattle.std.specs.Prelude.{◌≡◌, ◌==◌, ◌<◌, length, OnOk, OnErr};
ghost use Rattle.std.specs.List.{list_any};
ghost use Rattle.std.specs.BTreeMap.{IsUnchanged};
ghost use Rattle.call_broker.specs.Tables.{calls_at, live_of, number_of, AddsCall, EndsCall};

use crate::calls::{Calls, MOST_LIVE, MOST_PAGES};
use std::alloc::AllocError;
use std::collections::BTreeMap;

/// The calls of each ordered pair that has had one.
pub(crate) type Table = BTreeMap<(u32, u32), Calls>;

/// Adds a live call of the pair. Only the first call of a pair takes memory.
pub(crate) fn add_call(table: &mut Table, from: u32, to: u32, port: u32) -> Result<(), AllocError>
    requires room { length (live_of (calls_at table.old from to)) < MOST_LIVE }
    requires pages { number_of (calls_at table.old from to) < MOST_PAGES }
    ensures ok { OnOk result (AddsCall table.old table.new from to port) }
    ensures err { OnErr result (IsUnchanged table.old table.new) }
{
    if let Some(calls) = table.get_mut(&(from, to)) {
        calls.add(port);
        return Ok(());
    }
    let mut calls = Calls::none();
    calls.add(port);
    table.insert((from, to), calls)?;
    Ok(())
}

/// Ends a live call of the pair.
pub(crate) fn end_call(table: &mut Table, from: u32, to: u32, port: u32)
    ensures { EndsCall table.old table.new from to port }
{
    if let Some(calls) = table.get_mut(&(from, to)) {
        calls.end(port);
    }
}

/// Returns how many live calls the pair has.
pub(crate) fn live_count(table: &Table, from: u32, to: u32) -> u32
    ensures { result ≡ length (live_of (calls_at table.now from to)) }
{
    match table.get(&(from, to)) {
        Some(calls) => calls.live_count(),
        None => 0,
    }
}

/// Returns how many calls the pair has had.
pub(crate) fn call_count(table: &Table, from: u32, to: u32) -> u32
    ensures { result ≡ number_of (calls_at table.now from to) }
{
    match table.get(&(from, to)) {
        Some(calls) => calls.count,
        None => 0,
    }
}

/// Returns whether a live call of the pair has this port.
pub(crate) fn has_port(table: &Table, from: u32, to: u32, port: u32) -> bool
    ensures { result ≡ list_any (λ p. p == port) (live_of (calls_at table.now from to)) }
{
    match table.get(&(from, to)) {
        Some(calls) => calls.has_port(port),
        None => false,
    }
}
