//! The work of a command: the text that it makes from its whole input.
ghost use Rattle.std.specs.Prelude.{◌≡◌, ◌≤◌, IfErr, IfOk, MatchResult, [], None, Some, Ok, Err, length};
ghost use Rattle.vchan_top.specs.Command.{KeepsLimits};
ghost use Rattle.vchan_top.specs.Prints.{IsDue, Prints};
ghost use Rattle.vchan_top.specs.Top.{greatest_input};

use crate::channels::{pipe_input, relay_input};
use crate::clients::persist_input;
use crate::command::Command;
use crate::runs::{leave_to_exit, load_text, run_text};
use crate::status::{Bad, Status};
use run_report::Report;
use scenario_file::{ScenarioError, read};
use service_gate::Gate;
use std::alloc::Global;
use std::sync::Wait;
use std::thread::Threads;
use std::time::Clock;
use step_script::{ScriptError, script_text};
use stream_text::{Channel, DecodeError, decode_text};
use vchan_io::Memory;
use vchan_rule::Settled;

/// What a command has to print.
#[derive(Drop)]
pub(crate) struct Work {
    /// The whole text.
    pub text: Vec<u8>,
    /// The report of the scenario that was run, if one was.
    pub report: Option<Report>,
    /// The pages apart from those of a report.
    pub settled: Vec<Settled>,
}

impl Work {
    /// Makes the work of a text, with a report if a scenario was run.
    fn of(alloc: Global, text: Vec<u8>, report: Option<Report>) -> Work
        ensures { (result.text ≡ text) × (result.report ≡ report) × (result.settled.items ≡ []) }
    {
        Work {
            text,
            report,
            settled: Vec::new(alloc),
        }
    }
}

/// Does the work of a command on the whole input. A scenario that is read is run with this gate.
///
/// # Errors
///
/// The status with which the program ends. `BadInput` comes only if the input doesn't have the command's
/// form. `OutOfMemory` comes only if memory is taken before a bad input is found to be bad: for a script,
/// byte strings or a list of clients only if the first line is good. No other status comes.
pub(crate) fn do_work<G: Gate, R: Threads + Wait + Clock + Sync>(
    rt: &R,
    alloc: Global,
    command: Command,
    input: Vec<u8>,
    gate: &G,
) -> Result<Work, Status>
    requires limits { KeepsLimits command }
    requires few { length input.items ≤ greatest_input }
    ensures prints { IfOk result (λ work. Prints command input.items work.text.items work.report work.settled.items) }
    ensures due { IfErr result (λ status. IsDue command input.items status) }
{
    match command {
        Command::Step => step(alloc, input.as_slice()),
        Command::Decode(channel) => decode(alloc, channel, input.as_slice()),
        Command::Run { workers } => run(rt, alloc, workers, input.as_slice(), gate),
        Command::Load { number, calls } => match load_text(rt, alloc, number, calls) {
            Ok((text, report)) => Ok(Work::of(alloc, text, Some(report))),
            Err(Memory) => Err(Status::OutOfMemory),
        },
        Command::Pipe { orders } => through(pipe_input(rt, alloc, orders, input)),
        Command::Persist { name } => match persist_input(rt, alloc, &name, input.as_slice()) {
            Ok((text, settled)) => Ok(Work {
                text,
                report: None,
                settled,
            }),
            Err(status) => Err(status),
        },
        Command::Relay { hops, workers } => through(relay_input(rt, alloc, hops, workers, input)),
    }
}

/// Does the work of a step script.
fn step(alloc: Global, input: &[u8]) -> Result<Work, Status>
    ensures prints { IfOk result (λ work. Prints Command.Step input.now work.text.items work.report work.settled.items) }
    ensures due { IfErr result (λ status. IsDue Command.Step input.now status) }
{
    match script_text(alloc, input) {
        Ok(text) => Ok(Work::of(alloc, text, None)),
        Err(ScriptError::Bad { line, kind }) => Err(Status::BadInput {
            bad: Bad::Script { line, kind },
        }),
        Err(ScriptError::Memory) => Err(Status::OutOfMemory),
    }
}

/// Does the work of a captured stream.
fn decode(alloc: Global, channel: Channel, input: &[u8]) -> Result<Work, Status>
    ensures prints { IfOk result (λ work. Prints (Command.Decode channel) input.now work.text.items work.report work.settled.items) }
    ensures due { IfErr result (λ status. IsDue (Command.Decode channel) input.now status) }
{
    match decode_text(alloc, channel, input) {
        Ok(text) => Ok(Work::of(alloc, text, None)),
        Err(DecodeError::Bad { line, kind }) => Err(Status::BadInput {
            bad: Bad::Decode { line, kind },
        }),
        Err(DecodeError::Memory) => Err(Status::OutOfMemory),
    }
}

/// Does the work of a scenario that is read. It gives the text of its report, and that report.
fn run<G: Gate, R: Threads + Wait + Sync>(
    rt: &R,
    alloc: Global,
    workers: u32,
    input: &[u8],
    gate: &G,
) -> Result<Work, Status>
    requires some_worker { 1 ≤ workers }
    requires few_workers { workers ≤ 16 }
    ensures prints { IfOk result (λ work. Prints (Command.Run workers) input.now work.text.items work.report work.settled.items) }
    ensures due { IfErr result (λ status. IsDue (Command.Run workers) input.now status) }
{
    let scenario = match read(alloc, input) {
        Ok(scenario) => scenario,
        Err(ScenarioError::Bad { kind, at }) => {
            return Err(Status::BadInput {
                bad: Bad::Scenario { kind, at },
            });
        }
        Err(ScenarioError::Memory) => return Err(Status::OutOfMemory),
    };
    match run_text(rt, alloc, &scenario, workers, gate) {
        Ok((text, report)) => {
            leave_to_exit(scenario);
            Ok(Work::of(alloc, text, Some(report)))
        }
        Err(Memory) => Err(Status::OutOfMemory),
    }
}

/// Makes the work of a command with pages apart from a report: its text, and these pages.
fn through(done: Result<(Vec<u8>, Vec<Settled>), Memory>) -> Result<Work, Status>
    ensures prints { MatchResult done (λ d. result ≡ Ok (record { text = d.0; report = None; settled = d.1 })) (λ e. result ≡ Err Status.OutOfMemory) }
{
    match done {
        Ok((text, settled)) => Ok(Work {
            text,
            report: None,
            settled,
        }),
        Err(Memory) => Err(Status::OutOfMemory),
    }
}
