//! A run of a scenario.
ghost use Rattle.std.specs.Prelude.{◌≤◌, map, IfOk};
ghost use Rattle.domain_task.specs.Owes.{answer_of};
ghost use Rattle.run_laws.specs.Lawful.{IsLawful};
ghost use Rattle.run_pages.specs.Pages.{AreLaid, HasSeats};
ghost use Rattle.run_pages.specs.Starts.{AreStartsOf};
ghost use Rattle.scenario_run.specs.Alone.{AreDealt, RunsAlone, TurnedTo};
ghost use Rattle.scenario_run.specs.Answering.{AreAnswers};

use crate::answers::{Answers, take_apart};
use crate::lines::call_lines;
use crate::page_index::PageIndex;
use crate::run_task::RunTask;
use crate::sessions::served_lines;
use crate::tasks::{is_scenario, tasks};
use domain_task::TaskDone;
use run_pages::{PageSeats, RunPages, RunStarts};
use run_report::Report;
use scenario_file::Scenario;
use service_gate::Gate;
use std::alloc::Global;
use std::sync::Wait;
use std::sync::atomic::AtomicBool;
use std::thread::Threads;
use task_pool::{Rounds, run_pool, run_rounds};
use vchan_io::Memory;

/// Runs a scenario with this many workers, from 1 to 16, and returns its report. The pages are made. The
/// tasks, one for each domain and one for the broker, are made at their first turns and take turns until all
/// are done. Then each page is settled. A worker enters the gate with the place of the task before each turn:
/// 0 is the broker's task, k that of domain k.
///
/// The report is lawful whatever the order of all steps. Returns `Memory` if memory runs out.
pub fn run_scenario<G: Gate, R: Threads + Wait + Sync>(
    rt: &R,
    alloc: Global,
    scenario: &Scenario,
    workers: u32,
    gate: &G,
) -> Result<Report, Memory>
    requires some_worker { 1 ≤ workers }
    requires few_workers { workers ≤ 16 }
    ensures { IfOk result (λ report. IsLawful scenario.now report) }
{
    // One worker needs no thread.
    if workers == 1 {
        if let AloneRun::Reported(report) = run_alone(alloc, scenario, MOST_ROUNDS, gate)? {
            return Ok(report);
        }
    }
    let starts = RunStarts::new(alloc, scenario)?;
    let (pages, seats) = RunPages::lay(alloc, &starts, scenario)?;
    let dones = run_tasks(rt, alloc, scenario, workers, gate, &pages, seats)?;
    report(alloc, scenario, &starts, pages, dones)
}

// The rounds of one worker before a pool begins anew: far more than the turns that a scenario's acts can ask for.
const MOST_ROUNDS: u32 = u32::MAX;

/// How a run in one thread came out.
#[derive(Drop)]
pub enum AloneRun {
    /// All tasks are done.
    Reported(Report),
    /// After the last round a task wanted another turn.
    WentOn,
}

/// Runs a scenario as `run_scenario` does, in the calling thread and in so many rounds at most. In a round each
/// task that isn't done makes one turn, the broker's first, then those of the domains in order.
///
/// It starts no thread and never waits, so it always returns. Returns `Memory` if memory runs out.
pub fn run_alone<G: Gate>(
    alloc: Global,
    scenario: &Scenario,
    rounds: u32,
    gate: &G,
) -> Result<AloneRun, Memory>
    ensures { IfOk result (RunsAlone scenario.now rounds) }
{
    let starts = RunStarts::new(alloc, scenario)?;
    let (pages, seats) = RunPages::lay(alloc, &starts, scenario)?;
    match turn_tasks(alloc, scenario, rounds, gate, &pages, seats)? {
        Rounds::AllDone(dones) => {
            let report = report(alloc, scenario, &starts, pages, dones)?;
            Ok(AloneRun::Reported(report))
        }
        Rounds::WentOn => Ok(AloneRun::WentOn),
    }
}

// Turns the tasks of a scenario over its pages in rounds.
fn turn_tasks<'p, G: Gate>(
    alloc: Global,
    scenario: &Scenario,
    rounds: u32,
    gate: &G,
    pages: &'p RunPages,
    seats: Vec<PageSeats<'p>>,
) -> Result<Rounds<TaskDone>, Memory>
    requires laid { AreLaid scenario.now pages.now }
    requires seats { HasSeats pages.now seats.items }
    ensures { IfOk result (TurnedTo scenario.now pages.now rounds) }
{
    let no_memory = AtomicBool::new(false);
    let tasks = dealt_tasks(alloc, scenario, &no_memory, pages, seats)?;
    run_rounds(alloc, tasks, rounds, gate)
}

// Makes the tasks of a scenario over its pages.
fn dealt_tasks<'p, 's>(
    alloc: Global,
    scenario: &'s Scenario,
    no_memory: &'s AtomicBool,
    pages: &'p RunPages,
    seats: Vec<PageSeats<'p>>,
) -> Result<Vec<RunTask<'p, 's>>, Memory>
    requires laid { AreLaid scenario.now pages.now }
    requires seats { HasSeats pages.now seats.items }
    ensures { IfOk result (λ tasks. AreDealt scenario.now pages.now tasks.items) }
{
    is_scenario(scenario);
    let dealt = pages.deal(alloc, scenario, seats)?;
    Ok(tasks(alloc, scenario, no_memory, dealt)?)
}

// Runs the tasks of a scenario over its pages.
fn run_tasks<'p, G: Gate, R: Threads + Wait + Sync>(
    rt: &R,
    alloc: Global,
    scenario: &Scenario,
    workers: u32,
    gate: &G,
    pages: &'p RunPages,
    seats: Vec<PageSeats<'p>>,
) -> Result<Vec<TaskDone>, Memory>
    requires some_worker { 1 ≤ workers }
    requires few_workers { workers ≤ 16 }
    requires laid { AreLaid scenario.now pages.now }
    requires seats { HasSeats pages.now seats.items }
    ensures { IfOk result (λ dones. AreAnswers scenario.now pages.now (map answer_of dones.items)) }
{
    let no_memory = AtomicBool::new(false);
    let tasks = dealt_tasks(alloc, scenario, &no_memory, pages, seats)?;
    run_pool(rt, alloc, tasks, workers, gate)
}

// Makes the report from what the tasks of a scenario answered.
fn report(
    alloc: Global,
    scenario: &Scenario,
    starts: &RunStarts,
    pages: RunPages,
    dones: Vec<TaskDone>,
) -> Result<Report, Memory>
    requires starts { AreStartsOf scenario.now starts.now }
    requires laid { AreLaid scenario.now pages }
    requires answers { AreAnswers scenario.now pages (map answer_of dones.items) }
    ensures { IfOk result (λ report. IsLawful scenario.now report) }
{
    is_scenario(scenario);
    let Answers { ends, mut reports } = take_apart(alloc, dones)?;
    let pages = pages.settle(alloc, starts, scenario, ends)?;
    let index = PageIndex::of(alloc, pages.as_slice())?;
    let calls = call_lines(alloc, scenario, reports.as_mut_slice(), &index)?;
    let served = served_lines(alloc, scenario, reports)?;
    Ok(Report {
        calls,
        served,
        pages,
    })
}
