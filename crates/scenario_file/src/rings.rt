//! Reading the rings of a scenario.
ghost use Rattle.std.specs.Prelude.{◌≡◌, option_map};
ghost use Rattle.toml.specs.Data.{get_member};
ghost use Rattle.toml.specs.View.{items_view, table_view, view};
ghost use Rattle.scenario_file.specs.Readings.{Gives};
ghost use Rattle.scenario_file.specs.Scenario.{order_numbers};
ghost use Rattle.scenario_file.specs.RingsSeen.{rings_seen};
ghost use Rattle.scenario_file.specs.Tables.{orders_at, orders_from, orders_in, rings_in, rings_of, two_of};

use crate::error::ScenarioKind;
use crate::generator::default_orders;
use crate::keys::{check_keys, integer_in, list_in, member, natural, number_at, table_in};
use crate::place::{CheckError, KeyPlace, Section};
use ring_words::{Orders, check_orders};
use toml::{Table, Value};

/// The rings of a scenario.
#[derive(Clone, Copy)]
pub(crate) struct Rings {
    /// The orders of each control page.
    pub(crate) control: Orders,
    /// The orders of each data page.
    pub(crate) payload: Orders,
    /// Where all indices begin.
    pub(crate) start: u32,
}

/// Reads the table `rings` of the file, if it has one.
pub(crate) fn read_rings(top: &Table) -> Result<Rings, CheckError<'_>>
    ensures { Gives rings_seen result (rings_of (table_view top.now)) }
{
    match member(top, "rings") {
        None => Ok(Rings {
            control: default_orders(),
            payload: default_orders(),
            start: 0,
        }),
        Some(value) => read_table(value),
    }
}

/// Reads a value as the table `rings`.
fn read_table(value: &Value) -> Result<Rings, CheckError<'_>>
    ensures { Gives rings_seen result (rings_in (view value.now)) }
{
    let table = table_in(value, KeyPlace::key(Section::Top, "rings"))?;
    check_keys(table, Section::Rings, false)?;
    Ok(Rings {
        control: orders_at(table, "control")?,
        payload: orders_at(table, "data")?,
        start: number_at(table, Section::Rings, "start", 0, u32::MAX, 0)?,
    })
}

/// Returns the orders of a key: those of its list of two, or 10 and 11 if it has no value.
fn orders_at<'t>(table: &'t Table, key: &'static str) -> Result<Orders, CheckError<'t>>
    ensures { Gives order_numbers result (orders_at key.now (table_view table.now)) }
{
    match member(table, key) {
        None => Ok(default_orders()),
        Some(value) => orders_in(value, key),
    }
}

/// Returns the orders of a list of two.
fn orders_in<'t>(value: &'t Value, key: &'static str) -> Result<Orders, CheckError<'t>>
    ensures { Gives order_numbers result (orders_in key.now (view value.now)) }
{
    let at = KeyPlace::key(Section::Rings, key);
    let bad = CheckError::Bad(ScenarioKind::BadOrders, at);
    let (left, right) = two_of(list_in(value, at)?).ok_or(bad)?;
    let left = integer_in(left, KeyPlace::item(Section::Rings, key, 1))?;
    let right = integer_in(right, KeyPlace::item(Section::Rings, key, 2))?;
    orders_from(natural(left), natural(right)).ok_or(bad)
}

/// Returns the items of a list of two.
#[tactic(auto, using(crate::proofs::ReadLaws::two_of_some, crate::proofs::ReadLaws::two_of_none))]
fn two_of(items: &[Value]) -> Option<(&Value, &Value)>
    ensures { option_map (λ pair. (view pair.0.now, view pair.1.now)) result ≡ two_of (items_view items.now) }
{
    if items.len() == 2 {
        Some((&items[0], &items[1]))
    } else {
        None
    }
}

/// Returns two integers as the orders of a page.
fn orders_from(left: Option<u64>, right: Option<u64>) -> Option<Orders>
    ensures { option_map order_numbers result ≡ orders_from left right }
{
    let left = u16::try_from(left?).ok()?;
    let right = u16::try_from(right?).ok()?;
    check_orders(left, right).ok()
}
