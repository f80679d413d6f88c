//! The text of a report.
ghost use Rattle.std.specs.Prelude.{◌≡◌, ◌++◌, OnOk, IfOk};
ghost use Rattle.std.specs.List.{flat_map};
ghost use Rattle.run_report.specs.Lines.{call_line, served_line, text_of};

use crate::lines::{push_call, push_served, push_sum};
use run_laws::{CallLine, Report, ServedLine};
use std::alloc::{AllocError, Global};
use vchan_io::Memory;

/// Returns the text of a report: a line for each call and for each session with a hostile caller, in the
/// order of the report, and the number of calls. Streams are in lower case hexadecimal, and `-` stands for an
/// empty one. Returns `Memory` if memory runs out.
pub fn report_text(alloc: Global, report: &Report) -> Result<Vec<u8>, Memory>
    ensures { IfOk result (λ text. text.items ≡ text_of report.now) }
{
    let mut text = Vec::new(alloc);
    push_calls(&mut text, &report.calls)?;
    push_sessions(&mut text, &report.served)?;
    push_sum(&mut text, b"calls", report.calls.len())?;
    Ok(text)
}

fn push_calls(out: &mut Vec<u8>, calls: &[CallLine]) -> Result<(), AllocError>
    ensures { OnOk result (out.new.items ≡ out.old.items ++ flat_map call_line calls.now) }
{
    for line in calls {
        push_call(out, line)?;
    }
    Ok(())
}

fn push_sessions(out: &mut Vec<u8>, sessions: &[ServedLine]) -> Result<(), AllocError>
    ensures { OnOk result (out.new.items ≡ out.old.items ++ flat_map served_line sessions.now) }
{
    for line in sessions {
        push_served(out, line)?;
    }
    Ok(())
}
