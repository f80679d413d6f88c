//! Lines, each appended to the text that was printed before.
ghost use Rattle.std.specs.Prelude.{◌≡◌, ◌++◌, ◌∷◌, [], OnOk};
ghost use Rattle.run_report.specs.Lines.{call_line, cause_word, outcome_word, result_words, served_line, sum_line};
ghost use Rattle.script_words.specs.Text.{spaced};

use itoa::{Buffer, Integer};
use run_laws::{CallLine, CallResult, MixedOutcome, ServedLine};
use scenario_file::LineCause;
use script_words::text::{push_bytes, push_number, push_word};
use std::alloc::AllocError;

/// Appends the line of a call.
pub(crate) fn push_call(out: &mut Vec<u8>, line: &CallLine) -> Result<(), AllocError>
    ensures { OnOk result (out.new.items ≡ out.old.items ++ call_line line.now) }
{
    out.extend_from_slice(b"call")?;
    push_number(out, line.number)?;
    push_word(out, line.from.bytes())?;
    push_word(out, line.to.bytes())?;
    push_word(out, line.service.bytes())?;
    push_result(out, &line.result)?;
    out.push(b'\n')?;
    Ok(())
}

/// Appends the line of a session with a hostile caller.
pub(crate) fn push_served(out: &mut Vec<u8>, line: &ServedLine) -> Result<(), AllocError>
    ensures { OnOk result (out.new.items ≡ out.old.items ++ served_line line.now) }
{
    out.extend_from_slice(b"served")?;
    push_word(out, line.from.bytes())?;
    push_word(out, line.to.bytes())?;
    push_number(out, line.port)?;
    push_outcome(out, line.outcome)?;
    push_bytes(out, line.got.slice())?;
    out.push(b'\n')?;
    Ok(())
}

/// Appends the line of a name and a number.
pub(crate) fn push_sum<I: Integer>(out: &mut Vec<u8>, name: &[u8], sum: I) -> Result<(), AllocError>
    ensures { OnOk result (out.new.items ≡ out.old.items ++ sum_line name.now (I.text sum)) }
{
    out.extend_from_slice(name)?;
    push_number(out, sum)?;
    out.push(b'\n')?;
    Ok(())
}

fn push_result(out: &mut Vec<u8>, result_of_call: &CallResult) -> Result<(), AllocError>
    ensures { OnOk result (out.new.items ≡ out.old.items ++ spaced (result_words result_of_call.now)) }
{
    match result_of_call {
        CallResult::Done {
            code,
            stdout,
            stderr,
            ..
        } => {
            push_word(out, b"done")?;
            push_number(out, *code)?;
            push_bytes(out, stdout.slice())?;
            push_bytes(out, stderr.slice())
        }
        CallResult::Refused { cause } => {
            push_word(out, b"refused")?;
            push_cause(out, *cause)
        }
        CallResult::Mixed { outcome, got } => {
            push_word(out, b"mixed")?;
            push_outcome(out, *outcome)?;
            push_bytes(out, got.slice())
        }
    }
}

fn push_cause(out: &mut Vec<u8>, cause: LineCause) -> Result<(), AllocError>
    ensures { OnOk result (out.new.items ≡ out.old.items ++ spaced (cause_word cause ∷ [])) }
{
    match cause {
        LineCause::NoDomain => push_word(out, b"no-domain"),
        LineCause::SameDomain => push_word(out, b"same-domain"),
        LineCause::NoService => push_word(out, b"no-service"),
    }
}

fn push_outcome(out: &mut Vec<u8>, outcome: MixedOutcome) -> Result<(), AllocError>
    ensures { OnOk result (out.new.items ≡ out.old.items ++ spaced (outcome_word outcome ∷ [])) }
{
    match outcome {
        MixedOutcome::Done { code } => {
            push_word(out, b"done:")?;
            out.extend_from_slice(Buffer::new().format(code).as_bytes())
        }
        MixedOutcome::Refused => push_word(out, b"refused"),
        MixedOutcome::Fault => push_word(out, b"fault"),
        MixedOutcome::Closed => push_word(out, b"closed"),
        MixedOutcome::Gone => push_word(out, b"gone"),
    }
}
