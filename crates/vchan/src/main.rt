//! The program `vchan`: `top` of `vchan_top` over standard input, standard output and standard error.
//!
//! Above `top` it only does three things: it prints texts about the program, as for `--help`; it prints the
//! line of progress; and it leaves what `top` returns to the end of the process.
#![tactic(auto)]

mod progress;

use progress::Progress;
use service_gate::Gate;
use std::alloc::Global;
use std::env;
use std::io::{ErrorKind, IsTerminal};
use std::process::ExitCode;
use std::rt::Env;
use std::sync::Wait;
use std::thread::Threads;
use std::time::Clock;
use vchan_io::{Sink, Source, StdSink, StdSource};
use vchan_top::{about_in, command_words, exit_number, leave_to_exit, report_status, tell};
pub use vchan_top::{GREATEST_INPUT, Report, RunEnd, Status, top};

fn main(rt: HostRuntime) -> ExitCode {
    let mut source = StdSource::new(rt.stdin());
    let mut out = StdSink::new(rt.stdout());
    let mut err = StdSink::new(rt.stderr());
    let progress = Progress::new(&rt, rt.stderr().is_terminal());
    let status = match arguments(&rt, rt.alloc()) {
        Ok(arguments) => {
            let words = command_words(arguments.as_slice());
            Some(carry_out(
                &rt,
                rt.alloc(),
                words,
                &mut source,
                &mut out,
                &mut err,
                &progress,
            ))
        }
        Err(NoWords::Memory) => Some(without_memory(&mut err)),
        Err(NoWords::NotUtf8) => None,
    };
    progress.end();
    ExitCode::from(exit_number(status))
}

/// Why the program didn't get its words.
#[derive(Clone, Copy)]
enum NoWords {
    /// A word isn't UTF-8.
    NotUtf8,
    /// Memory ran out.
    Memory,
}

/// Returns all arguments, with the program's own name first.
fn arguments(rt: &(impl Env + AllocGlobal), alloc: Global) -> Result<Vec<String>, NoWords> {
    match env::args(rt) {
        Ok(arguments) => arguments.collect(alloc).map_err(|_| NoWords::Memory),
        Err(error) if error.kind() == ErrorKind::OutOfMemory => Err(NoWords::Memory),
        Err(_) => Err(NoWords::NotUtf8),
    }
}

/// Tells that memory ran out before there were words.
fn without_memory<E: Sink>(err: &mut E) -> Status {
    let status = Status::OutOfMemory;
    let _ = report_status(&status, err);
    status
}

/// Does what these words ask for. The workers of a run pass this gate.
fn carry_out<S: Source, K: Sink, E: Sink, G: Gate, R: Threads + Wait + Clock + Sync>(
    rt: &R,
    alloc: Global,
    words: &[String],
    source: &mut S,
    out: &mut K,
    err: &mut E,
    gate: &G,
) -> Status {
    match about_in(words) {
        Some(about) => tell(about.text(), out, err),
        None => {
            let RunEnd {
                status,
                report,
                settled,
            } = top(rt, alloc, words, source, out, err, gate);
            leave_to_exit(report);
            leave_to_exit(settled);
            status
        }
    }
}
