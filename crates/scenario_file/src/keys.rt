//! The keys of a table, and values of the types that a scenario needs.
ghost use Rattle.std.specs.Prelude.{◌≡◌, ◌≤◌, ◌∷◌, [], option_map, bytes_eq, IfOk, IfSome};
ghost use Rattle.std.specs.List.{list_any};
ghost use Rattle.toml.specs.Data.{get_member};
ghost use Rattle.toml.specs.View.{array_view, items_view, table_view, view};
ghost use Rattle.scenario_file.specs.Readings.{Gives, place_path};
ghost use Rattle.scenario_file.specs.Checks.{call_keys, integer_in, key_list, keys_of, known_keys, list_at, list_in, natural, needed, needed_text, number_at, number_in, table_in, text_in, within};

use crate::error::ScenarioKind;
use crate::place::{CheckError, KeyPlace, Section};
use toml::value::Array;
use toml::{Table, Value};

/// Returns the value of a key.
pub(crate) fn member<'t>(table: &'t Table, key: &str) -> Option<&'t Value>
    ensures { option_map (λ v. view v.now) result ≡ get_member key.now (table_view table.now) }
{
    table.get(key)
}

/// Checks that a table has no key that it can't have. The first unknown one, in byte order, is
/// refused.
pub(crate) fn check_keys<'t>(
    table: &'t Table,
    section: Section,
    hostile: bool,
) -> Result<(), CheckError<'t>>
    ensures { Gives (λ x. x) result (known_keys section hostile (key_list (table_view table.now))) }
{
    for key in table.keys() {
        if !is_known(section, hostile, key.as_str()) {
            return Err(CheckError::Bad(
                ScenarioKind::UnknownKey,
                KeyPlace::key(section, key.as_str()),
            ));
        }
    }
    Ok(())
}

/// Returns whether a table can have this key.
fn is_known(section: Section, hostile: bool, key: &str) -> bool
    ensures { result ≡ list_any (bytes_eq key.now) (keys_of section hostile) }
{
    match section {
        Section::Top => is_among(key, "rings", "domain", "call"),
        Section::Rings => is_among(key, "control", "data", "start"),
        Section::Domain(_) if hostile => is_among(key, "name", "hostile", "ports"),
        Section::Domain(_) => is_among(key, "name", "hostile", "version"),
        Section::Call(_) => is_known_of_call(key),
    }
}

/// Returns whether a call can have this key.
fn is_known_of_call(key: &str) -> bool
    ensures { result ≡ list_any (bytes_eq key.now) call_keys }
{
    is_among(key, "from", "to", "service") || is_among(key, "stdin", "stdin_hex", "stdin_fill")
}

/// Returns whether a key is one of three.
fn is_among(key: &str, first: &str, second: &str, third: &str) -> bool
    ensures { result ≡ list_any (bytes_eq key.now) (first.now ∷ second.now ∷ third.now ∷ []) }
{
    key == first || key == second || key == third
}

/// Returns the text of a value.
pub(crate) fn text_in<'t>(value: &'t Value, at: KeyPlace<'t>) -> Result<&'t str, CheckError<'t>>
    ensures { Gives (λ text. text.now) result (text_in (place_path at.entry) (view value.now)) }
{
    value
        .as_str()
        .ok_or(CheckError::Bad(ScenarioKind::WrongType, at))
}

/// Returns the integer of a value.
pub(crate) fn integer_in<'t>(value: &Value, at: KeyPlace<'t>) -> Result<i64, CheckError<'t>>
    ensures { Gives (λ z. z) result (integer_in (place_path at.entry) (view value.now)) }
{
    value
        .as_integer()
        .ok_or(CheckError::Bad(ScenarioKind::WrongType, at))
}

/// Returns the list of a value.
pub(crate) fn list_in<'t>(value: &'t Value, at: KeyPlace<'t>) -> Result<&'t Array, CheckError<'t>>
    ensures { Gives (λ list. array_view list.now) result (list_in (place_path at.entry) (view value.now)) }
{
    value
        .as_array()
        .ok_or(CheckError::Bad(ScenarioKind::WrongType, at))
}

/// Returns the table of a value.
pub(crate) fn table_in<'t>(value: &'t Value, at: KeyPlace<'t>) -> Result<&'t Table, CheckError<'t>>
    ensures { Gives (λ table. table_view table.now) result (table_in (place_path at.entry) (view value.now)) }
{
    value
        .as_table()
        .ok_or(CheckError::Bad(ScenarioKind::WrongType, at))
}

/// Returns the value of a key that is needed.
fn needed<'t>(
    table: &'t Table,
    section: Section,
    key: &'static str,
) -> Result<&'t Value, CheckError<'t>>
    ensures { Gives (λ value. view value.now) result (needed section key.now (table_view table.now)) }
{
    member(table, key).ok_or(CheckError::Bad(ScenarioKind::MissingKey, KeyPlace::key(section, key)))
}

/// Returns the text of a key that is needed.
pub(crate) fn needed_text<'t>(
    table: &'t Table,
    section: Section,
    key: &'static str,
) -> Result<&'t str, CheckError<'t>>
    ensures { Gives (λ text. text.now) result (needed_text section key.now (table_view table.now)) }
{
    let value = needed(table, section, key)?;
    text_in(value, KeyPlace::key(section, key))
}

/// Returns the items of the list of a key; no items if the key has no value.
pub(crate) fn list_at<'t>(
    table: &'t Table,
    section: Section,
    key: &'static str,
) -> Result<&'t [Value], CheckError<'t>>
    ensures { Gives (λ items. items_view items.now) result (list_at section key.now (table_view table.now)) }
{
    match member(table, key) {
        None => Ok(&[]),
        Some(value) => Ok(list_in(value, KeyPlace::key(section, key))?.as_slice()),
    }
}

/// Returns an integer, if it isn't negative.
pub(crate) fn natural(z: i64) -> Option<u64>
    ensures { result ≡ natural z }
{
    u64::try_from(z).ok()
}

/// Returns the number of a key, from `least` to `most`, or the default if the key has no value.
pub(crate) fn number_at<'t>(
    table: &'t Table,
    section: Section,
    key: &'static str,
    least: u32,
    most: u32,
    default: u32,
) -> Result<u32, CheckError<'t>>
    requires low { least ≤ default }
    requires high { default ≤ most }
    ensures number { Gives (λ n. n) result (number_at least most default section key.now (table_view table.now)) }
    ensures within { IfOk result (λ n. (least ≤ n) × (n ≤ most)) }
{
    match member(table, key) {
        None => Ok(default),
        Some(value) => number_in(value, KeyPlace::key(section, key), least, most),
    }
}

/// Returns the number of a value, from `least` to `most`.
fn number_in<'t>(
    value: &Value,
    at: KeyPlace<'t>,
    least: u32,
    most: u32,
) -> Result<u32, CheckError<'t>>
    ensures number { Gives (λ n. n) result (number_in least most (place_path at.entry) (view value.now)) }
    ensures within { IfOk result (λ n. (least ≤ n) × (n ≤ most)) }
{
    let z = integer_in(value, at)?;
    match within(natural(z), least, most) {
        Some(number) => Ok(number),
        None => Err(CheckError::Bad(ScenarioKind::BadNumber, at)),
    }
}

/// Returns a number, if it is within these bounds.
fn within(number: Option<u64>, least: u32, most: u32) -> Option<u32>
    ensures number { result ≡ within least most number }
    ensures bounds { IfSome result (λ n. (least ≤ n) × (n ≤ most)) }
{
    let number = number?;
    if u64::from(least) <= number && number <= u64::from(most) {
        Some(number as u32)
    } else {
        None
    }
}
