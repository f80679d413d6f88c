//! Runs of scenarios, and the texts of their reports.
ghost use Rattle.std.specs.Prelude.{◌≡◌, ◌≤◌, IfOk};
ghost use Rattle.run_laws.specs.Lawful.{IsLawful};
ghost use Rattle.run_report.specs.Lines.{text_of};
ghost use Rattle.vchan_top.specs.Prints.{PrintsSums};

use run_report::{Report, report_text, summary_text};
use scenario_file::{Scenario, generate};
use scenario_run::run_scenario;
use service_gate::{Gate, OpenGate};
use std::alloc::Global;
use std::mem;
use std::sync::Wait;
use std::thread::Threads;
use vchan_io::Memory;

/// The number of workers that run a generated scenario.
const WORKERS_OF_LOAD: u32 = 4;

/// Runs a scenario with `workers` workers and this gate. Returns the text of the report, and the report,
/// which is lawful whatever the order of all steps. Returns `Memory` if memory runs out.
pub(crate) fn run_text<G: Gate, R: Threads + Wait + Sync>(
    rt: &R,
    alloc: Global,
    scenario: &Scenario,
    workers: u32,
    gate: &G,
) -> Result<(Vec<u8>, Report), Memory>
    requires some_worker { 1 ≤ workers }
    requires few_workers { workers ≤ 16 }
    ensures lawful { IfOk result (λ done. IsLawful scenario.now done.1) }
    ensures text { IfOk result (λ done. done.0.items ≡ text_of done.1) }
{
    let report = run_scenario(rt, alloc, scenario, workers, gate)?;
    let text = report_text(alloc, &report)?;
    Ok((text, report))
}

/// Generates the scenario of a number and runs it with 4 workers. Returns the text of the sums of its report,
/// and the report, which is lawful whatever the order of all steps. The text is the same at each run, because
/// the services and the names alone give its numbers. Returns `Memory` if memory runs out.
pub fn load_text<R: Threads + Wait + Sync>(
    rt: &R,
    alloc: Global,
    number: u32,
    calls: u32,
) -> Result<(Vec<u8>, Report), Memory>
    requires seed { number ≤ 65535 }
    requires some { 1 ≤ calls }
    requires few { calls ≤ 2000 }
    ensures { IfOk result (λ done. PrintsSums number calls done.0.items done.1) }
{
    let scenario = generate(alloc, number, calls)?;
    let report = run_scenario(rt, alloc, &scenario, WORKERS_OF_LOAD, &OpenGate)?;
    let text = summary_text(alloc, &scenario, &report)?;
    leave_to_exit(scenario);
    Ok((text, report))
}

/// Leaves what a run is done with to the end of the process, which is near and frees all memory at once. To
/// free tens of thousands of small pieces one after another would take a few milliseconds.
pub fn leave_to_exit<T: Drop>(done_with: T) {
    mem::forget(done_with);
}
