//! Reading a scenario file.
ghost use Rattle.std.specs.Prelude.{◌≡◌, IfOk, IfErr, Ok};
ghost use Rattle.toml.specs.View.{table_view};
ghost use Rattle.scenario_file.specs.Scenario.{written};
ghost use Rattle.scenario_file.specs.Readings.{Gives, IsFault, IsNoDocument};
ghost use Rattle.scenario_file.specs.Tables.{document_of, scenario_in, scenario_of};

use crate::calls::read_calls;
use crate::domains::read_domains;
use crate::error::{ScenarioError, ScenarioKind};
use crate::keys::check_keys;
use crate::path::Path;
use crate::place::{CheckError, Section};
use crate::rings::read_rings;
use crate::scenario::Scenario;
use crate::totals::check_totals;
use std::alloc::Global;
use toml::Table;

/// Reads a scenario file: TOML with the tables `rings`, `domain` and `call`.
///
/// # Errors
///
/// [`ScenarioError::Bad`] if and only if the bytes aren't a scenario and memory doesn't run out,
/// with the first check that fails and the path of what it looked at; `ScenarioError::Memory` if
/// memory runs out.
pub fn read(alloc: Global, bytes: &[u8]) -> Result<Scenario, ScenarioError>
    ensures scenario { IfOk result (λ scenario. scenario_of bytes.now ≡ Ok (written scenario)) }
    ensures bad { IfErr result (λ e. IsFault e (scenario_of bytes.now)) }
{
    let table = read_document(alloc, bytes)?;
    match read_scenario(alloc, &table) {
        Ok(scenario) => Ok(scenario),
        Err(refusal) => Err(refusal.told(alloc)),
    }
}

/// Reads the bytes as a table of TOML.
#[tactic(auto, using(crate::proofs::ReadLaws::document_read, crate::proofs::ReadLaws::document_bad, crate::proofs::ReadLaws::told_document))]
fn read_document(alloc: Global, bytes: &[u8]) -> Result<Table, ScenarioError>
    ensures table { IfOk result (λ table. document_of bytes.now ≡ Ok (table_view table)) }
    ensures bad { IfErr result (λ e. IsFault e (document_of bytes.now)) }
{
    match toml::table_from_slice(alloc, bytes) {
        Ok(table) => Ok(table),
        Err(error) => {
            if error.is_memory() {
                Err(ScenarioError::Memory)
            } else {
                Err(no_document(alloc))
            }
        }
    }
}

/// Returns the error of bytes that aren't TOML.
#[tactic(auto, using(crate::proofs::KeyLaws::printable_file))]
fn no_document(alloc: Global) -> ScenarioError
    ensures { IsNoDocument result }
{
    match String::from_str(alloc, "file") {
        Ok(text) => ScenarioError::Bad {
            kind: ScenarioKind::Toml,
            at: Path { text },
        },
        Err(_) => ScenarioError::Memory,
    }
}

/// Reads a table as a scenario.
fn read_scenario(alloc: Global, top: &Table) -> Result<Scenario, CheckError<'_>>
    ensures { Gives written result (scenario_in (table_view top.now)) }
{
    check_keys(top, Section::Top, false)?;
    let rings = read_rings(top)?;
    let domains = read_domains(alloc, top)?;
    let calls = read_calls(alloc, &domains, top)?;
    check_totals(rings, &domains, &calls)?;
    Ok(Scenario {
        control: rings.control,
        payload: rings.payload,
        start: rings.start,
        domains,
        calls,
    })
}
