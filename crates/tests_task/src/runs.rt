//! Runs of scenarios in stated orders of turns.
ghost use Rattle.std.specs.Prelude.{◌≤◌};

use crate::in_order::InOrder;
use crate::late::Late;
use crate::reports::report_of;
use run_report::report_text;
use scenario_file::{Scenario, generate, read};
use scenario_run::{AloneRun, run_alone, run_scenario};
use service_gate::{Gate, OpenGate};
use std::alloc::Global;
use std::process::Abort;
use std::sync::Wait;
use std::test::Fail;
use std::thread::Threads;

/// Two domains with a call each to the other.
const EACH_WAY: &str = r#"
domain = [{name = "work"}, {name = "vault", version = 2}]
call = [
  {from = "work", to = "vault", service = "echo", stdin = "hello"},
  {from = "vault", to = "work", service = "exit+7", stdin_fill = 5000},
]
"#;

const EACH_WAY_LINES: &str = "call 1 work vault echo done 0 68656c6c6f -
call 2 vault work exit+7 done 7 - -
calls 2
";

/// A domain that spoils the order words of its control page, and a call to it.
const BAD_ORDERS: &str = r#"
domain = [{name = "work"}, {name = "evil", hostile = ["poke control left_order 9", "hello", "rest 60"]}]
call = [{from = "work", to = "evil", service = "echo"}]
"#;

/// The number of workers, one for each task of these runs.
const WORKERS: u32 = 3;

/// A scenario, the places of its tasks as they take turns, with 0 for the broker, and its report.
type Row = (&'static str, &'static [u32], &'static str);

const ROWS: [Row; 5] = [
    (EACH_WAY, &[0, 1, 2], EACH_WAY_LINES),
    (EACH_WAY, &[2, 1, 0], EACH_WAY_LINES),
    (EACH_WAY, &[1, 1, 1, 0, 2, 0, 2], EACH_WAY_LINES),
    // In the first row the broker has connected before the orders are spoilt; in the second it finds them
    // spoilt.
    (
        BAD_ORDERS,
        &[0, 1, 2],
        "call 1 work evil echo mixed gone -\ncalls 1\n",
    ),
    (
        BAD_ORDERS,
        &[2, 1, 0],
        "call 1 work evil echo mixed refused -\ncalls 1\n",
    ),
];

/// Returns the text of the report of a scenario whose tasks this gate lets in.
fn told<G: Gate, R: Threads + Wait + Sync + AllocGlobal>(
    rt: &R,
    file: &[u8],
    gate: &G,
) -> Result<Vec<u8>, Fail> {
    let scenario = read(rt.alloc(), file)?;
    run_text(rt, &scenario, WORKERS, gate)
}

/// The same of a scenario that is read, with this many workers.
fn run_text<G: Gate, R: Threads + Wait + Sync + AllocGlobal>(
    rt: &R,
    scenario: &Scenario,
    workers: u32,
    gate: &G,
) -> Result<Vec<u8>, Fail>
    requires { (1 ≤ workers) × (workers ≤ 16) }
{
    let report = run_scenario(rt, rt.alloc(), scenario, workers, gate)?;
    Ok(report_text(rt.alloc(), &report)?)
}

fn check_rows<R: Threads + Wait + Sync + AllocGlobal + Abort>(
    rt: &R,
    rows: &[Row],
) -> Result<(), Fail> {
    for (file, order, lines) in rows {
        let text = told(rt, file.as_bytes(), &InOrder::of(*order))?;
        assert!(rt; text.as_slice() == lines.as_bytes(), "{order:?} of {file}");
    }
    Ok(())
}

#[test]
fn runs_end_as_they_should_in_stated_orders(rt: HostRuntime) -> Result<(), Fail> {
    check_rows(&rt, &ROWS)
}

/// The number of calls that wait for the domain that comes late: more than fill its outbox at the broker.
const CALLS: u32 = 100;

/// Makes a scenario of two domains, the first of which calls the second `CALLS` times, and its report.
fn calls_to_one(alloc: Global) -> Result<(Vec<u8>, Vec<u8>), Fail> {
    let mut file = Vec::from_slice(alloc, b"domain = [{name = \"work\"}, {name = \"vault\"}]\n")?;
    let mut lines = Vec::new(alloc);
    for number in 1..=CALLS {
        file.extend_from_slice(b"[[call]]\nfrom = \"work\"\nto = \"vault\"\nservice = \"echo\"\n")?;
        let line = format!(in alloc; "call {number} work vault echo done 0 - -\n")?;
        lines.extend_from_slice(line.as_bytes())?;
    }
    let last = format!(in alloc; "calls {CALLS}\n")?;
    lines.extend_from_slice(last.as_bytes())?;
    Ok((file, lines))
}

#[test]
fn a_domain_that_comes_late_serves_all_calls(rt: HostRuntime) -> Result<(), Fail> {
    let (file, lines) = calls_to_one(rt.alloc())?;
    let text = told(&rt, &file, &Late::of(2, 10_000))?;
    assert!(rt; text == lines);
    Ok(())
}

/// The text of the report that the services alone tell.
fn services_text(alloc: Global, scenario: &Scenario) -> Result<Vec<u8>, Fail> {
    let report = report_of(alloc, scenario)?;
    Ok(report_text(alloc, &report)?)
}

fn check_workers<R: Threads + Wait + Sync + AllocGlobal + Abort>(
    rt: &R,
    scenario: &Scenario,
) -> Result<(), Fail> {
    let lines = services_text(rt.alloc(), scenario)?;
    assert!(rt; run_text(rt, scenario, 1, &OpenGate)? == lines, "1 worker");
    assert!(rt;
        run_text(rt, scenario, 16, &OpenGate)? == lines,
        "16 workers"
    );
    Ok(())
}

#[test]
fn generated_calls_have_the_services_lines_with_one_worker_and_sixteen(
    rt: HostRuntime,
) -> Result<(), Fail> {
    let scenario = generate(rt.alloc(), 7, 200)?;
    check_workers(&rt, &scenario)
}

/// The rounds in which a generated scenario of four calls or fewer ends, and many more.
const FEW_ROUNDS: u32 = 1_000;

#[test]
fn generated_calls_end_in_few_rounds_of_one_thread(rt: HostRuntime) -> Result<(), Fail> {
    for number in 0..2_000u32 {
        let scenario = generate(rt.alloc(), number, 1 + number % 4)?;
        let lines = services_text(rt.alloc(), &scenario)?;
        match run_alone(rt.alloc(), &scenario, FEW_ROUNDS, &OpenGate)? {
            AloneRun::Reported(report) => {
                let text = report_text(rt.alloc(), &report)?;
                assert!(rt; text == lines, "scenario {number}");
            }
            AloneRun::WentOn => assert!(rt; false, "scenario {number} goes on"),
        }
    }
    Ok(())
}

#[test]
fn no_round_ends_no_run(rt: HostRuntime) -> Result<(), Fail> {
    let scenario = generate(rt.alloc(), 7, 1)?;
    let run = run_alone(rt.alloc(), &scenario, 0, &OpenGate)?;
    assert!(rt; matches!(run, AloneRun::WentOn));
    Ok(())
}
