//! The texts of worked reports.
use qrexec_frame::{Bytes, Text};
use run_report::{CallLine, CallResult, MixedOutcome, Report, ServedLine, report_text};
use scenario_file::{Line, LineCause, LineResult, Scenario, honest_lines};
use std::alloc::Global;
use std::test::Fail;
use vchan_io::Memory;

// What came of a call that ran on no page.
fn result_of(told: LineResult) -> CallResult {
    match told {
        LineResult::Refused { cause } => CallResult::Refused { cause },
        LineResult::Done {
            code,
            stdout,
            stderr,
        } => CallResult::Done {
            code,
            stdout,
            stderr,
            page: 0,
        },
    }
}

/// Returns the report of a scenario without hostile domains as its services alone tell it. It has no pages.
pub(crate) fn report_of(alloc: Global, scenario: &Scenario) -> Result<Report, Memory> {
    let mut calls = Vec::new(alloc);
    for line in honest_lines(alloc, scenario)? {
        let Line {
            number,
            from,
            to,
            service,
            result,
        } = line;
        calls.push(CallLine {
            number,
            from,
            to,
            service,
            result: result_of(result),
        })?;
    }
    Ok(Report {
        calls,
        served: Vec::new(alloc),
        pages: Vec::new(alloc),
    })
}

fn bytes_of(alloc: Global, text: &[u8]) -> Result<Bytes, Fail> {
    Ok(Bytes::of(Vec::from_slice(alloc, text)?))
}

/// The names in the line of a call: `work` calls `vault`.
fn names(alloc: Global) -> Result<(Text, Text, Text), Fail> {
    Ok((
        Text::of(alloc, b"work")?,
        Text::of(alloc, b"vault")?,
        Text::of(alloc, b"upper")?,
    ))
}

/// A call that is done, and never comes from the services by name.
fn done(alloc: Global) -> Result<CallResult, Fail> {
    Ok(CallResult::Done {
        code: -1,
        stdout: bytes_of(alloc, b"OK")?,
        stderr: bytes_of(alloc, b"")?,
        page: 3,
    })
}

/// A call that is done with a hostile domain.
fn mixed(alloc: Global) -> Result<CallResult, Fail> {
    Ok(CallResult::Mixed {
        outcome: MixedOutcome::Done { code: 7 },
        got: bytes_of(alloc, b"\x00\xff")?,
    })
}

// Appends the line of a call. Few of these functions own what owns memory, since each that does is dear to
// prove.
fn push_call(
    alloc: Global,
    calls: &mut Vec<CallLine>,
    number: u32,
    outcome: CallResult,
) -> Result<(), Fail> {
    let (from, to, service) = names(alloc)?;
    calls.push(CallLine {
        number,
        from,
        to,
        service,
        result: outcome,
    })?;
    Ok(())
}

fn push_calls(alloc: Global, calls: &mut Vec<CallLine>) -> Result<(), Fail> {
    push_call(alloc, calls, 1, done(alloc)?)?;
    let refused = CallResult::Refused {
        cause: LineCause::SameDomain,
    };
    push_call(alloc, calls, 20, refused)?;
    push_call(alloc, calls, 300, mixed(alloc)?)
}

fn push_served(alloc: Global, served: &mut Vec<ServedLine>) -> Result<(), Fail> {
    served.push(ServedLine {
        from: Text::of(alloc, b"evil")?,
        to: Text::of(alloc, b"work")?,
        port: 514,
        outcome: MixedOutcome::Gone,
        got: bytes_of(alloc, b"")?,
    })?;
    Ok(())
}

/// Fills a report with a line of each kind, and returns its text.
fn text_of_kinds(alloc: Global, report: &mut Report) -> Result<Vec<u8>, Fail> {
    push_calls(alloc, &mut report.calls)?;
    push_served(alloc, &mut report.served)?;
    Ok(report_text(alloc, report)?)
}

#[test]
fn each_kind_of_line_has_its_text(rt: HostRuntime) -> Result<(), Fail> {
    let alloc = rt.alloc();
    let mut report = Report {
        calls: Vec::new(alloc),
        served: Vec::new(alloc),
        pages: Vec::new(alloc),
    };
    let wanted = "call 1 work vault upper done -1 4f4b -\n\
        call 20 work vault upper refused same-domain\n\
        call 300 work vault upper mixed done:7 00ff\n\
        served evil work 514 gone -\n\
        calls 3\n";
    let text = text_of_kinds(alloc, &mut report)?;
    assert!(rt; text.as_slice() == wanted.as_bytes());
    Ok(())
}
