//! Reading the calls of a scenario.
ghost use Rattle.std.specs.Prelude.{◌≡◌, ◌+◌, ◌≤◌, ◌^◌, ◌<◌, [], length, option_map, IfOk, IfSome, true, None, Some, codes, ok_or, unwrap_or};
ghost use Rattle.std.specs.List.{All};
ghost use Rattle.toml.specs.Data.{get_member};
ghost use Rattle.toml.specs.View.{items_view, table_view, view};
ghost use Rattle.scenario_file.specs.Names.{is_name, is_service};
ghost use Rattle.scenario_file.specs.Scenario.{CallFits, IsHonest, Rises};
ghost use Rattle.scenario_file.specs.Readings.{Gives, place_path};
ghost use Rattle.script_words.specs.ByteStrings.{byte_string};
ghost use Rattle.scenario_file.specs.declared.error.ScenarioKind.TheVariants.{BadText};
ghost use Rattle.scenario_file.specs.Checks.{all_from, optional};
ghost use Rattle.scenario_file.specs.Tables.{call_in, caller_named, caller_of, calls_of, fill_input_in, fill_within, first_input, hex_input_in, input_in, next_call, service_of, stdin_of, target_of, within_limit};

use crate::domains::at_most;
use crate::error::ScenarioKind;
use crate::generator::fill;
use crate::keys::{
    check_keys, integer_in, list_at, member, natural, needed_text, table_in, text_in,
};
use crate::lookup::{domain_at_place, place_named};
use crate::names::{is_name, is_service, text_of};
use crate::place::{CheckError, KeyPlace, Section};
use crate::scenario::{CallPlan, Domain};
use qrexec_frame::{Bytes, Text};
use script_words::{ByteError, bytes_of};
use std::alloc::Global;
use toml::{Table, Value};

/// The greatest number of calls of a scenario.
const MOST_CALLS: usize = 4096;

/// The greatest number of bytes of an input.
const MOST_STDIN: usize = 1_048_576;

/// Reads the list `call` of the file.
pub(crate) fn read_calls<'t>(
    alloc: Global,
    domains: &[Domain],
    top: &'t Table,
) -> Result<Vec<CallPlan>, CheckError<'t>>
    requires { length domains.now ≤ 32 }
    ensures calls { Gives (λ calls. calls.items) result (calls_of domains.now (table_view top.now)) }
    ensures few { IfOk result (λ calls. length calls.items ≤ 4096) }
    ensures fit { IfOk result (λ calls. All (CallFits domains.now) calls.items) }
    ensures rising { IfOk result (λ calls. Rises 0 calls.items) }
{
    let items = list_at(top, Section::Top, "call")?;
    at_most(MOST_CALLS, items, KeyPlace::key(Section::Top, "call"))?;
    read_items(alloc, domains, items)
}

/// Reads the items of the list `call`.
fn read_items<'t>(
    alloc: Global,
    domains: &[Domain],
    items: &'t [Value],
) -> Result<Vec<CallPlan>, CheckError<'t>>
    requires few_domains { length domains.now ≤ 32 }
    requires few_calls { length items.now ≤ 4096 }
    ensures calls { Gives (λ calls. calls.items) result (all_from (next_call domains.now) [] (items_view items.now)) }
    ensures few { IfOk result (λ calls. length calls.items ≤ 4096) }
    ensures fit { IfOk result (λ calls. All (CallFits domains.now) calls.items) }
    ensures rising { IfOk result (λ calls. Rises 0 calls.items) }
{
    let mut calls = Vec::with_capacity(alloc, items.len())?;
    for item in items {
        let call = next_call(alloc, domains, &calls, item)?;
        calls.push(call)?;
    }
    Ok(calls)
}

/// Reads an item as the call after those before it.
fn next_call<'t>(
    alloc: Global,
    domains: &[Domain],
    before: &[CallPlan],
    item: &'t Value,
) -> Result<CallPlan, CheckError<'t>>
    requires few_domains { length domains.now ≤ 32 }
    requires few_calls { length before.now < 4096 }
    ensures call { Gives (λ call. call) result (next_call domains.now before.now (view item.now)) }
    ensures fits { IfOk result (CallFits domains.now) }
    ensures number { IfOk result (λ call. call.number ≡ length before.now + 1) }
{
    let number = before.len() + 1;
    let table = table_in(item, KeyPlace::item(Section::Top, "call", number))?;
    read_call(alloc, domains, number, table)
}

/// Reads a table as the call of this number.
fn read_call<'t>(
    alloc: Global,
    domains: &[Domain],
    number: usize,
    table: &'t Table,
) -> Result<CallPlan, CheckError<'t>>
    requires few { length domains.now ≤ 32 }
    requires number { number ≤ 4096 }
    ensures call { Gives (λ call. call) result (call_in domains.now number (table_view table.now)) }
    ensures fits { IfOk result (CallFits domains.now) }
    ensures number { IfOk result (λ call. call.number ≡ number) }
{
    check_keys(table, Section::Call(number), false)?;
    Ok(CallPlan {
        number: number as u32,
        from: read_caller(domains, number, table)?,
        to: read_target(alloc, number, table)?,
        service: read_service(alloc, number, table)?,
        stdin: read_stdin(alloc, number, table)?,
    })
}

/// Reads the key `from` of a call.
fn read_caller<'t>(
    domains: &[Domain],
    number: usize,
    table: &'t Table,
) -> Result<u32, CheckError<'t>>
    requires { length domains.now ≤ 32 }
    ensures caller { Gives (λ from. from) result (caller_of number domains.now (table_view table.now)) }
    ensures honest { IfOk result (IsHonest domains.now) }
{
    let section = Section::Call(number);
    let name = needed_text(table, section, "from")?;
    caller_named(domains, name.as_bytes()).ok_or(CheckError::Bad(
        ScenarioKind::BadCaller,
        KeyPlace::key(section, "from"),
    ))
}

/// Returns the number of the honest domain with this name.
fn caller_named(domains: &[Domain], name: &[u8]) -> Option<u32>
    requires { length domains.now ≤ 32 }
    ensures number { result ≡ caller_named domains.now name.now }
    ensures honest { IfSome result (IsHonest domains.now) }
{
    let place = place_named(domains, name)?;
    if domain_at_place(domains, place).is_hostile() {
        None
    } else {
        Some(place as u32 + 1)
    }
}

/// Reads the key `to` of a call.
fn read_target<'t>(alloc: Global, number: usize, table: &'t Table) -> Result<Text, CheckError<'t>>
    ensures target { Gives (λ to. to) result (target_of number (table_view table.now)) }
    ensures clean { IfOk result (λ to. is_name to ≡ true) }
{
    let section = Section::Call(number);
    let text = needed_text(table, section, "to")?.as_bytes();
    if !is_name(text) {
        return Err(CheckError::Bad(ScenarioKind::BadText, KeyPlace::key(section, "to")));
    }
    Ok(text_of(alloc, text)?)
}

/// Reads the key `service` of a call.
fn read_service<'t>(alloc: Global, number: usize, table: &'t Table) -> Result<Text, CheckError<'t>>
    ensures service { Gives (λ service. service) result (service_of number (table_view table.now)) }
    ensures clean { IfOk result (λ service. is_service service ≡ true) }
{
    let section = Section::Call(number);
    let text = needed_text(table, section, "service")?.as_bytes();
    if !is_service(text) {
        return Err(CheckError::Bad(ScenarioKind::BadText, KeyPlace::key(section, "service")));
    }
    Ok(text_of(alloc, text)?)
}

/// Reads the input of a call, by one of three keys.
fn read_stdin<'t>(alloc: Global, number: usize, table: &'t Table) -> Result<Bytes, CheckError<'t>>
    ensures stdin { Gives (λ stdin. stdin) result (stdin_of number (table_view table.now)) }
    ensures within { IfOk result (λ stdin. length stdin ≤ 1048576) }
{
    let text = read_text_input(alloc, number, table)?;
    let hex = read_hex_input(alloc, number, table, text)?;
    let filled = read_fill_input(alloc, number, table, hex)?;
    match filled {
        Some(stdin) => Ok(stdin),
        None => Ok(Bytes::of(Vec::new(alloc))),
    }
}

/// Returns the input by the key `stdin`, a text, or `None` if the key has no value.
fn read_text_input<'t>(
    alloc: Global,
    number: usize,
    table: &'t Table,
) -> Result<Option<Bytes>, CheckError<'t>>
    ensures input { Gives (λ input. input) result (optional None (input_in number) (get_member (codes "stdin") (table_view table.now))) }
    ensures within { IfOk result (λ input. IfSome input (λ bytes. length bytes ≤ 1048576)) }
{
    match member(table, "stdin") {
        None => Ok(None),
        Some(value) => input_in(alloc, number, value),
    }
}

/// Reads a value as the input by the key `stdin`.
fn input_in<'t>(
    alloc: Global,
    number: usize,
    value: &'t Value,
) -> Result<Option<Bytes>, CheckError<'t>>
    ensures input { Gives (λ input. input) result (input_in number (view value.now)) }
    ensures within { IfOk result (λ input. IfSome input (λ bytes. length bytes ≤ 1048576)) }
{
    let text = text_in(value, KeyPlace::key(Section::Call(number), "stdin"))?;
    let bytes = within_limit(number, text.as_bytes())?;
    Ok(Some(Bytes::of(Vec::from_slice(alloc, bytes)?)))
}

/// Returns the input by the key `stdin_hex`, a byte string, or the input before if it has no value.
fn read_hex_input<'t>(
    alloc: Global,
    number: usize,
    table: &'t Table,
    before: Option<Bytes>,
) -> Result<Option<Bytes>, CheckError<'t>>
    requires { IfSome before (λ bytes. length bytes ≤ 1048576) }
    ensures input { Gives (λ input. input) result (optional before (hex_input_in number before) (get_member (codes "stdin_hex") (table_view table.now))) }
    ensures within { IfOk result (λ input. IfSome input (λ bytes. length bytes ≤ 1048576)) }
{
    match member(table, "stdin_hex") {
        None => Ok(before),
        Some(value) => hex_input_in(alloc, number, &before, value),
    }
}

/// Reads a value as the input by the key `stdin_hex`.
fn hex_input_in<'t>(
    alloc: Global,
    number: usize,
    before: &Option<Bytes>,
    value: &'t Value,
) -> Result<Option<Bytes>, CheckError<'t>>
    ensures input { Gives (λ input. input) result (hex_input_in number before.now (view value.now)) }
    ensures within { IfOk result (λ input. IfSome input (λ bytes. length bytes ≤ 1048576)) }
{
    let at = KeyPlace::key(Section::Call(number), "stdin_hex");
    let text = text_in(value, at)?;
    first_input(before.is_some(), at)?;
    let bytes = hex_bytes(alloc, text.as_bytes(), at)?;
    input_within(number, bytes)
}

/// Returns some bytes as the input, if they are within the limit.
fn input_within<'t>(number: usize, bytes: Vec<u8>) -> Result<Option<Bytes>, CheckError<'t>>
    ensures input { Gives (λ input. input) result (within_limit number bytes.items) }
    ensures within { IfOk result (λ input. IfSome input (λ bytes. length bytes ≤ 1048576)) }
{
    within_limit(number, bytes.as_slice())?;
    Ok(Some(Bytes::of(bytes)))
}

/// Returns the input by the key `stdin_fill`, the length of a fill, or the input before if it has
/// no value.
fn read_fill_input<'t>(
    alloc: Global,
    number: usize,
    table: &'t Table,
    before: Option<Bytes>,
) -> Result<Option<Bytes>, CheckError<'t>>
    requires { IfSome before (λ bytes. length bytes ≤ 1048576) }
    ensures input { Gives (λ input. input) result (optional before (fill_input_in number before) (get_member (codes "stdin_fill") (table_view table.now))) }
    ensures within { IfOk result (λ input. IfSome input (λ bytes. length bytes ≤ 1048576)) }
{
    match member(table, "stdin_fill") {
        None => Ok(before),
        Some(value) => fill_input_in(alloc, number, &before, value),
    }
}

/// Reads a value as the input by the key `stdin_fill`.
fn fill_input_in<'t>(
    alloc: Global,
    number: usize,
    before: &Option<Bytes>,
    value: &'t Value,
) -> Result<Option<Bytes>, CheckError<'t>>
    ensures input { Gives (λ input. input) result (fill_input_in number before.now (view value.now)) }
    ensures within { IfOk result (λ input. IfSome input (λ bytes. length bytes ≤ 1048576)) }
{
    let at = KeyPlace::key(Section::Call(number), "stdin_fill");
    let z = integer_in(value, at)?;
    first_input(before.is_some(), at)?;
    match natural(z) {
        Some(count) => fill_within(alloc, number, count),
        None => Err(CheckError::Bad(ScenarioKind::BadNumber, at)),
    }
}

/// Returns the fill of a length, if it is within the limit.
#[tactic(auto, using(crate::proofs::GeneratedLaws::length_fill))]
fn fill_within<'t>(
    alloc: Global,
    number: usize,
    count: u64,
) -> Result<Option<Bytes>, CheckError<'t>>
    ensures input { Gives (λ input. input) result (fill_within number count) }
    ensures within { IfOk result (λ input. IfSome input (λ bytes. length bytes ≤ 1048576)) }
{
    if count > MOST_STDIN as u64 {
        return Err(CheckError::Bad(
            ScenarioKind::TooMany,
            KeyPlace::key(Section::Call(number), "stdin"),
        ));
    }
    Ok(Some(Bytes::of(fill(alloc, count as u32)?)))
}

/// Checks that no input was given before the key at this place.
fn first_input<'t>(is_second: bool, at: KeyPlace<'t>) -> Result<(), CheckError<'t>>
    ensures { Gives (λ x. x) result (first_input (place_path at.entry) is_second) }
{
    if is_second {
        Err(CheckError::Bad(ScenarioKind::TwoStdin, at))
    } else {
        Ok(())
    }
}

/// Returns the bytes that a byte string spells.
fn hex_bytes<'t>(alloc: Global, text: &[u8], at: KeyPlace<'t>) -> Result<Vec<u8>, CheckError<'t>>
    ensures { Gives (λ bytes. bytes.items) result (ok_or (byte_string text.now) (BadText, place_path at.entry)) }
{
    match bytes_of(alloc, text) {
        Ok(bytes) => Ok(bytes),
        Err(ByteError::BadHex) => Err(CheckError::Bad(ScenarioKind::BadText, at)),
        Err(ByteError::Memory) => Err(CheckError::Memory),
    }
}

/// Checks that an input is within the limit.
fn within_limit<'t>(number: usize, bytes: &[u8]) -> Result<&[u8], CheckError<'t>>
    ensures input { Gives (λ input. Some input.now) result (within_limit number bytes.now) }
    ensures within { IfOk result (λ input. length input.now ≤ 1048576) }
    ensures same { IfOk result (λ input. input.now ≡ bytes.now) }
{
    if bytes.len() > MOST_STDIN {
        Err(CheckError::Bad(
            ScenarioKind::TooMany,
            KeyPlace::key(Section::Call(number), "stdin"),
        ))
    } else {
        Ok(bytes)
    }
}
