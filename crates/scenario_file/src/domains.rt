//! Reading the domains of a scenario.
ghost use Rattle.std.specs.Prelude.{◌≡◌, ◌+◌, ◌<◌, ◌≤◌, [], length, option_map, is_some, true, None, Some, codes, IfOk, IfSome};
ghost use Rattle.std.specs.List.{All};
ghost use Rattle.toml.specs.Data.{get_member};
ghost use Rattle.toml.specs.View.{items_view, table_view, view};
ghost use Rattle.scenario_file.specs.Acts.{ActFits, AreActs};
ghost use Rattle.scenario_file.specs.Names.{is_name};
ghost use Rattle.scenario_file.specs.Scenario.{AreApart, DomainFits, HostileFits, NumbersFit, place_named};
ghost use Rattle.scenario_file.specs.Readings.{Gives, place_path};
ghost use Rattle.scenario_file.specs.Checks.{all_from, optional};
ghost use Rattle.scenario_file.specs.Tables.{act_in, at_most, domain_in, domains_of, hostile_in, new_name, next_act, next_domain, numbers_of, some_items};

use crate::act_words::{ActError, read_act};
use crate::acts::{Act, Acts};
use crate::error::ScenarioKind;
use crate::keys::{
    check_keys, list_at, list_in, member, needed_text, number_at, table_in, text_in,
};
use crate::lookup::place_named;
use crate::names::{is_name, text_of};
use crate::place::{CheckError, KeyPlace, Section};
use crate::scenario::Domain;
use std::alloc::Global;
use toml::{Table, Value};

/// The greatest number of domains of a scenario.
const MOST_DOMAINS: usize = 32;

/// The greatest number of acts of a domain.
const MOST_ACTS: usize = 256;

/// Reads the list `domain` of the file.
pub(crate) fn read_domains(alloc: Global, top: &Table) -> Result<Vec<Domain>, CheckError<'_>>
    ensures domains { Gives (λ domains. domains.items) result (domains_of (table_view top.now)) }
    ensures few { IfOk result (λ domains. length domains.items ≤ 32) }
    ensures fit { IfOk result (λ domains. All DomainFits domains.items) }
    ensures apart { IfOk result (λ domains. AreApart domains.items) }
{
    let items = list_at(top, Section::Top, "domain")?;
    some_items(items)?;
    at_most(MOST_DOMAINS, items, KeyPlace::key(Section::Top, "domain"))?;
    read_items(alloc, items)
}

/// Checks that the list `domain` has an item.
#[tactic(auto, using(crate::proofs::ReadLaws::some_items_full, crate::proofs::ReadLaws::some_items_none))]
fn some_items<'t>(items: &[Value]) -> Result<(), CheckError<'t>>
    ensures { Gives (λ x. items_view items.now) result (some_items (items_view items.now)) }
{
    if items.len() == 0 {
        Err(CheckError::Bad(
            ScenarioKind::MissingKey,
            KeyPlace::key(Section::Top, "domain"),
        ))
    } else {
        Ok(())
    }
}

/// Checks that a list has at most `most` items.
#[tactic(auto, using(crate::proofs::ReadLaws::item_count_seen))]
pub(crate) fn at_most<'t>(
    most: usize,
    items: &[Value],
    at: KeyPlace<'t>,
) -> Result<(), CheckError<'t>>
    ensures items { Gives (λ x. items_view items.now) result (at_most most (place_path at.entry) (items_view items.now)) }
    ensures few { IfOk result (λ x. length items.now ≤ most) }
{
    if items.len() > most {
        Err(CheckError::Bad(ScenarioKind::TooMany, at))
    } else {
        Ok(())
    }
}

/// Reads the items of the list `domain`.
fn read_items(alloc: Global, items: &[Value]) -> Result<Vec<Domain>, CheckError<'_>>
    requires { length items.now ≤ 32 }
    ensures domains { Gives (λ domains. domains.items) result (all_from next_domain [] (items_view items.now)) }
    ensures few { IfOk result (λ domains. length domains.items ≤ 32) }
    ensures fit { IfOk result (λ domains. All DomainFits domains.items) }
    ensures apart { IfOk result (λ domains. AreApart domains.items) }
{
    let mut domains = Vec::with_capacity(alloc, items.len())?;
    for item in items {
        let domain = next_domain(alloc, &domains, item)?;
        domains.push(domain)?;
    }
    Ok(domains)
}

/// Reads an item as the domain after those before it.
fn next_domain<'t>(
    alloc: Global,
    before: &[Domain],
    item: &'t Value,
) -> Result<Domain, CheckError<'t>>
    requires { length before.now < 32 }
    ensures domain { Gives (λ domain. domain) result (next_domain before.now (view item.now)) }
    ensures fits { IfOk result DomainFits }
    ensures new { IfOk result (λ domain. place_named before.now domain.name ≡ None) }
{
    let number = before.len() + 1;
    let table = table_in(item, KeyPlace::item(Section::Top, "domain", number))?;
    read_domain(alloc, before, number, table)
}

/// Reads a table as the domain of this number, after those before it.
#[tactic(auto, using(crate::proofs::TotalLaws::domain_fits, crate::proofs::NameLaws::no_nul_in_name))]
fn read_domain<'t>(
    alloc: Global,
    before: &[Domain],
    number: usize,
    table: &'t Table,
) -> Result<Domain, CheckError<'t>>
    ensures domain { Gives (λ domain. domain) result (domain_in before.now number (table_view table.now)) }
    ensures fits { IfOk result DomainFits }
    ensures new { IfOk result (λ domain. place_named before.now domain.name ≡ None) }
{
    let section = Section::Domain(number);
    check_keys(table, section, member(table, "hostile").is_some())?;
    let name = new_name(before, number, needed_text(table, section, "name")?)?;
    let hostile = read_hostile(alloc, number, table)?;
    let (ports, version) = read_numbers(number, hostile.is_some(), table)?;
    Ok(Domain {
        name: text_of(alloc, name)?,
        hostile,
        ports,
        version,
    })
}

/// Reads the ports of a hostile domain, or the version of an honest one. The other number has its
/// default.
#[tactic(auto, using(crate::proofs::TotalLaws::two_or_three))]
fn read_numbers<'t>(
    number: usize,
    hostile: bool,
    table: &'t Table,
) -> Result<(u32, u32), CheckError<'t>>
    ensures numbers { Gives (λ numbers. numbers) result (numbers_of number hostile (table_view table.now)) }
    ensures fit { IfOk result (λ numbers. NumbersFit hostile numbers.0 numbers.1) }
{
    let section = Section::Domain(number);
    if hostile {
        Ok((number_at(table, section, "ports", 0, 32, 4)?, 3))
    } else {
        Ok((4, number_at(table, section, "version", 2, 3, 3)?))
    }
}

/// Checks that a text is a name, and that no domain before has it.
fn new_name<'t>(before: &[Domain], number: usize, text: &'t str) -> Result<&'t [u8], CheckError<'t>>
    ensures name { Gives (λ name. name.now) result (new_name number before.now text.now) }
    ensures clean { IfOk result (λ name. is_name name.now ≡ true) }
    ensures new { IfOk result (λ name. place_named before.now name.now ≡ None) }
{
    let at = KeyPlace::key(Section::Domain(number), "name");
    let name = text.as_bytes();
    if !is_name(name) {
        Err(CheckError::Bad(ScenarioKind::BadText, at))
    } else if place_named(before, name).is_some() {
        Err(CheckError::Bad(ScenarioKind::SameName, at))
    } else {
        Ok(name)
    }
}

/// Reads the acts of a domain, if it has some.
fn read_hostile<'t>(
    alloc: Global,
    number: usize,
    table: &'t Table,
) -> Result<Option<Acts>, CheckError<'t>>
    ensures hostile { Gives (λ hostile. hostile) result (optional None (hostile_in number) (get_member (codes "hostile") (table_view table.now))) }
    ensures fit { IfOk result HostileFits }
{
    match member(table, "hostile") {
        None => Ok(None),
        Some(value) => Ok(Some(read_acts(alloc, number, value)?)),
    }
}

/// Reads a value as the acts of a domain.
fn read_acts<'t>(alloc: Global, number: usize, value: &'t Value) -> Result<Acts, CheckError<'t>>
    ensures acts { Gives (λ acts. Some acts) result (hostile_in number (view value.now)) }
    ensures fit { IfOk result AreActs }
{
    let at = KeyPlace::key(Section::Domain(number), "hostile");
    let items = list_in(value, at)?.as_slice();
    at_most(MOST_ACTS, items, at)?;
    Ok(Acts::of(read_act_items(alloc, number, items)?))
}

/// Reads the items of a list of acts.
fn read_act_items<'t>(
    alloc: Global,
    number: usize,
    items: &'t [Value],
) -> Result<Vec<Act>, CheckError<'t>>
    requires { length items.now ≤ 256 }
    ensures acts { Gives (λ acts. acts.items) result (all_from (next_act number) [] (items_view items.now)) }
    ensures fit { IfOk result (λ acts. AreActs acts.items) }
{
    let mut acts = Vec::with_capacity(alloc, items.len())?;
    for item in items {
        let act = next_act(alloc, number, &acts, item)?;
        acts.push(act)?;
    }
    Ok(acts)
}

/// Reads an item as the act after those before it.
fn next_act<'t>(
    alloc: Global,
    number: usize,
    before: &[Act],
    item: &'t Value,
) -> Result<Act, CheckError<'t>>
    requires { length before.now < 256 }
    ensures act { Gives (λ act. act) result (next_act number before.now (view item.now)) }
    ensures fits { IfOk result ActFits }
{
    let at = KeyPlace::item(Section::Domain(number), "hostile", before.len() + 1);
    act_in(alloc, item, at)
}

/// Reads a value as an act.
fn act_in<'t>(alloc: Global, value: &'t Value, at: KeyPlace<'t>) -> Result<Act, CheckError<'t>>
    ensures act { Gives (λ act. act) result (act_in (place_path at.entry) (view value.now)) }
    ensures fits { IfOk result ActFits }
{
    let text = text_in(value, at)?;
    match read_act(alloc, text.as_bytes()) {
        Ok(act) => Ok(act),
        Err(ActError::Bad) => Err(CheckError::Bad(ScenarioKind::BadAct, at)),
        Err(ActError::Memory) => Err(CheckError::Memory),
    }
}
