//! The sums of a report.
ghost use Rattle.std.specs.Prelude.{◌≡◌, ◌<◌, ◌++◌, IfOk, OnOk};
ghost use Rattle.run_report.specs.Summary.{counted, done_of, sums_text, summary_of};

use crate::lines::push_sum;
use run_laws::{CallResult, Report};
use scenario_file::Scenario;
use std::alloc::{AllocError, Global};
use std::marker::Model;
use vchan_io::Memory;

/// What is summed over the calls that are done, of which there are at most 4,096. A length is below 2^64 and
/// a code below 2^31, so no sum leaves its type.
#[derive(Drop)]
struct Sums {
    done: u32,
    stdin: u128,
    stdout: u128,
    stderr: u128,
    codes: i64,
}

impl Model for Sums {
    ghost use Rattle.run_report.specs.Summary.{Totals, AreWithin};

    ghost Value = { Totals };

    ghost view = { λ s. record { done = s.done; stdin = s.stdin; stdout = s.stdout; stderr = s.stderr; codes = s.codes } };

    ghost invariant = { λ s. AreWithin (record { done = s.done; stdin = s.stdin; stdout = s.stdout; stderr = s.stderr; codes = s.codes }) };
}

impl Sums {
    /// Counts a call with an input of `stdin` bytes, if it is done.
    fn count(&mut self, stdin: usize, outcome: &CallResult)
        requires { self.old.done < 4096 }
        ensures { self.new ≡ counted (done_of stdin outcome.now) self.old }
    {
        if let CallResult::Done {
            code,
            stdout,
            stderr,
            ..
        } = outcome
        {
            self.done += 1;
            self.stdin += stdin as u128;
            self.stdout += stdout.slice().len() as u128;
            self.stderr += stderr.slice().len() as u128;
            self.codes += i64::from(*code);
        }
    }
}

/// Returns the text of the sums over the calls of a scenario that are done, by the report of its run: the
/// number of calls, how many are done, how many bytes their streams have in all, and the sum of their exit
/// codes. Returns `Memory` if memory runs out.
pub fn summary_text(alloc: Global, scenario: &Scenario, report: &Report) -> Result<Vec<u8>, Memory>
    ensures { IfOk result (λ text. text.items ≡ summary_of scenario.now.calls report.now) }
{
    let mut sums = Sums {
        done: 0,
        stdin: 0,
        stdout: 0,
        stderr: 0,
        codes: 0,
    };
    for (call, line) in scenario.calls.iter().zip(&report.calls) {
        sums.count(call.stdin.slice().len(), &line.result);
    }
    let mut text = Vec::new(alloc);
    push_sums(&mut text, report.calls.len(), &sums)?;
    Ok(text)
}

fn push_sums(out: &mut Vec<u8>, calls: usize, sums: &Sums) -> Result<(), AllocError>
    ensures { OnOk result (out.new.items ≡ out.old.items ++ sums_text calls sums.now) }
{
    push_sum(out, b"calls", calls)?;
    push_sum(out, b"done", sums.done)?;
    push_sum(out, b"stdin", sums.stdin)?;
    push_sum(out, b"stdout", sums.stdout)?;
    push_sum(out, b"stderr", sums.stderr)?;
    push_sum(out, b"codes", sums.codes)
}
