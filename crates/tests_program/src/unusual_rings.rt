//! A run whose pages have other orders than usual, and whose indices wrap.
ghost use Rattle.std.specs.Prelude.{◌≡◌, IfOk, IsTrue};
ghost use Rattle.std.specs.List.{AllByRecursion as Each};
ghost use Rattle.scenario_file.specs.Scenario.{order_numbers, written};
ghost use Rattle.tests_program.specs.RowRings.{HasRowRings, IsOfRow};

use crate::memory_runs::{ALL, sink, words_of};
use crate::whole_runs::SIX_CALLS;
use ring_words::Orders;
use scenario_file::{Scenario, read};
use service_gate::OpenGate;
use std::alloc::Global;
use std::sync::Wait;
use std::test::Fail;
use std::thread::Threads;
use std::time::Clock;
use vchan_io::MemSource;
use vchan_top::{Command, Report, RunEnd, command_in, top};

/// The rings of the row, as a file begins.
const ROW_RINGS: &[u8] = br#"
[rings]
control = [11, 10]
data = [10, 12]
start = 4294967290
"#;

/// Where all indices of the row begin.
const ROW_START: u32 = 4_294_967_290;

fn are_orders(orders: Orders, left: u16, right: u16) -> bool
    ensures { IsTrue result → order_numbers orders ≡ (left, right) }
{
    orders.left.number() == left && orders.right.number() == right
}

fn has_row_rings(scenario: &Scenario) -> bool
    ensures { IsTrue result → HasRowRings (written scenario.now) }
{
    are_orders(scenario.control, 11, 10)
        && are_orders(scenario.payload, 10, 12)
        && scenario.start == ROW_START
}

/// Runs a scenario file. It fails if the file hasn't the rings of the row, and if there is no report.
fn report_of_row<R: Threads + Wait + Clock + Sync>(
    rt: &R,
    alloc: Global,
    workers: &str,
    file: Vec<u8>,
) -> Result<Report, Fail>
    ensures { IfOk result (λ report. Each IsOfRow report.pages) }
{
    let scenario = read(alloc, file.as_slice())?;
    if !has_row_rings(&scenario) {
        return Err(Fail::new("other rings"));
    }
    let words = words_of(alloc, &["run", workers])?;
    let Some(Command::Run { .. }) = command_in(words.as_slice()) else {
        return Err(Fail::new("no run"));
    };
    let mut source = MemSource::new(file, ALL, Vec::new(alloc));
    let mut out = sink(alloc)?;
    let mut err = sink(alloc)?;
    let RunEnd { report, .. } = top(
        rt,
        alloc,
        words.as_slice(),
        &mut source,
        &mut out,
        &mut err,
        &OpenGate,
    );
    match report {
        Some(report) => Ok(report),
        None => Err(Fail::new("no report")),
    }
}

/// Each of the nine pages has the orders and the start that the file says, which the contract of
/// [`report_of_row`] tells.
#[test]
fn pages_have_the_rings_of_the_file(rt: HostRuntime) -> Result<(), Fail> {
    for workers in ["1", "8"] {
        let mut file = Vec::from_slice(rt.alloc(), ROW_RINGS)?;
        file.extend_from_slice(SIX_CALLS)?;
        let report = report_of_row(&rt, rt.alloc(), workers, file)?;
        assert!(rt; report.pages.len() == 9);
    }
    Ok(())
}
