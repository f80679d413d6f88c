//! The lines of the calls of a run.
ghost use Rattle.std.specs.Prelude.{◌≡◌, ◌+◌, ◌∷◌, [], List, length, map, IfOk};
ghost use Rattle.scenario_file.specs.Scenario.{is_mixed, name_at, targets_hostile};
ghost use Rattle.task_duties.specs.declared.place.PagePlace.{PagePlace as Place};
ghost use Rattle.task_duties.specs.Agent.Owes.{caller_done};
ghost use Rattle.run_laws.specs.Laid.{laid};
ghost use Rattle.run_laws.specs.Run.{Run};
ghost use Rattle.run_laws.specs.ReadOff.{cause_by, cause_in, cause_result, end_of_call, line_read, mixed_end, mixed_outcome, session_result};
ghost use Rattle.scenario_run.specs.Index.{IsIndexOf};
ghost use Rattle.scenario_run.specs.Lines.{HasReports, plain_result};

use crate::answers::TaskReport;
use crate::page_index::PageIndex;
use agent_queue::ident_text;
use call_broker::{Cause, Decision, Entry, Event};
use qrexec_data::Outcome;
use qrexec_frame::{Bytes, Text, TextError};
use run_laws::{CallLine, CallResult, MixedOutcome};
use run_pages::is_hostile;
use scenario_file::{CallPlan, LineCause, Scenario, number_named};
use std::alloc::Global;
use task_duties::CallEnd;
use vchan_io::Memory;

/// Makes the lines of all calls of a scenario, in order, from what the tasks report and the index of the
/// pages.
pub(crate) fn call_lines(
    alloc: Global,
    scenario: &Scenario,
    reports: &mut [TaskReport],
    index: &PageIndex,
) -> Result<Vec<CallLine>, Memory>
    requires count { length reports.old ≡ length scenario.now.domains + 1 }
    requires reports { (run : Run) × HasReports scenario.now run scenario.now.calls reports.old }
    requires pages { IsIndexOf (laid scenario.now) index.now }
    ensures lines { (run : Run) → HasReports scenario.now run scenario.now.calls reports.old → IfOk result (λ lines. lines.items ≡ map (line_read scenario.now run) scenario.now.calls) }
    ensures served { map (λ r. r.served) reports.new ≡ map (λ r. r.served) reports.old }
    ensures long { length reports.new ≡ length reports.old }
{
    let mut lines = Vec::with_capacity(alloc, scenario.calls.len())?;
    for call in &scenario.calls {
        let end = reports[call.from as usize].take_call().end;
        let line = call_line(alloc, scenario, call, end, reports[0].journal(), index)?;
        lines.push(line)?;
    }
    Ok(lines)
}

// The line of a call that ended like this.
fn call_line(
    alloc: Global,
    scenario: &Scenario,
    call: &CallPlan,
    end: CallEnd,
    journal: &[Entry],
    index: &PageIndex,
) -> Result<CallLine, Memory>
    requires pages { IsIndexOf (laid scenario.now) index.now }
    ensures { (run : Run) → run.journal ≡ journal.now → end ≡ end_of_call run call.now → IfOk result (λ line. line ≡ line_read scenario.now run call.now) }
{
    let result = if is_mixed(scenario, call) {
        mixed_result(alloc, end)
    } else {
        plain_result(alloc, call, end, journal, index)?
    };
    Ok(CallLine {
        number: call.number,
        from: name_of(alloc, scenario, call.from)?,
        to: call.to.clone()?,
        service: call.service.clone()?,
        result,
    })
}

// Whether a call's target is hostile.
fn is_mixed(scenario: &Scenario, call: &CallPlan) -> bool
    ensures { result ≡ is_mixed scenario.now call.now }
{
    match number_named(&scenario.domains, call.to.bytes()) {
        Some(number) => is_hostile(scenario, number),
        None => false,
    }
}

/// Returns the name of the domain with this number, or an empty text if there is none.
pub(crate) fn name_of(alloc: Global, scenario: &Scenario, number: u32) -> Result<Text, Memory>
    ensures { IfOk result (λ name. name ≡ name_at scenario.now number) }
{
    if number == 0 {
        return no_name(alloc);
    }
    match scenario.domains.get(number as usize - 1) {
        Some(domain) => Ok(domain.name.clone()?),
        None => no_name(alloc),
    }
}

fn no_name(alloc: Global) -> Result<Text, Memory>
    ensures { IfOk result (λ name. name ≡ []) }
{
    match Text::of(alloc, b"") {
        Ok(name) => Ok(name),
        Err(TextError::Memory) => Err(Memory),
        Err(TextError::Nul) => unreachable!(),
    }
}

// What comes of a call to a hostile domain.
fn mixed_result(alloc: Global, end: CallEnd) -> CallResult
    ensures { result ≡ mixed_end end }
{
    match end {
        CallEnd::Session { outcome, got, .. } => CallResult::Mixed {
            outcome: mixed_outcome(outcome),
            got,
        },
        CallEnd::Refused => without_bytes(alloc, MixedOutcome::Refused),
        CallEnd::Unanswered => without_bytes(alloc, MixedOutcome::Closed),
    }
}

// What comes of any other call.
fn plain_result(
    alloc: Global,
    call: &CallPlan,
    end: CallEnd,
    journal: &[Entry],
    index: &PageIndex,
) -> Result<CallResult, Memory>
    ensures { (places : List Place) → IsIndexOf places index.now → IfOk result (λ r. r ≡ plain_result places journal.now call.now end) }
{
    match end {
        CallEnd::Session {
            port,
            to,
            outcome: Outcome::Done { code },
            stdout,
            stderr,
            ..
        } => {
            let from = call.from;
            let page = index.number_at(from, to, port);
            Ok(CallResult::Done {
                code,
                stdout,
                stderr,
                page,
            })
        }
        CallEnd::Session { outcome, got, .. } => Ok(CallResult::Mixed {
            outcome: mixed_outcome(outcome),
            got,
        }),
        CallEnd::Refused => {
            let ident = ident_text(alloc, call.number)?;
            Ok(refusal(alloc, cause_in(journal, call.from, ident.bytes())))
        }
        CallEnd::Unanswered => Ok(without_bytes(alloc, MixedOutcome::Closed)),
    }
}

// A result with no bytes got.
fn without_bytes(alloc: Global, outcome: MixedOutcome) -> CallResult
    ensures { result ≡ CallResult.Mixed outcome [] }
{
    CallResult::Mixed {
        outcome,
        got: Bytes::of(Vec::new(alloc)),
    }
}

/// Returns an outcome without its cause.
pub(crate) fn mixed_outcome(outcome: Outcome) -> MixedOutcome
    ensures { result ≡ mixed_outcome outcome }
{
    match outcome {
        Outcome::Done { code } => MixedOutcome::Done { code },
        Outcome::Fault(_) => MixedOutcome::Fault,
        Outcome::Closed => MixedOutcome::Closed,
        Outcome::Gone => MixedOutcome::Gone,
    }
}

// What comes of a refusal: a cause that the names and services give, or that the broker gave the call up.
fn refusal(alloc: Global, cause: Option<Cause>) -> CallResult
    ensures { result ≡ cause_result cause }
{
    match cause {
        Some(Cause::NoDomain) => CallResult::Refused {
            cause: LineCause::NoDomain,
        },
        Some(Cause::SameDomain) => CallResult::Refused {
            cause: LineCause::SameDomain,
        },
        Some(Cause::NoService) => CallResult::Refused {
            cause: LineCause::NoService,
        },
        _ => without_bytes(alloc, MixedOutcome::Refused),
    }
}

// The first cause in a journal for which the call of a domain with this ident was refused.
fn cause_in(journal: &[Entry], from: u32, ident: &[u8]) -> Option<Cause>
    ensures { result ≡ cause_in journal.now from ident.now }
{
    for entry in journal {
        if let Some(cause) = cause_by(entry, from, ident) {
            return Some(cause);
        }
    }
    None
}

// The cause for which an entry refuses that call.
fn cause_by(entry: &Entry, from: u32, ident: &[u8]) -> Option<Cause>
    ensures { result ≡ cause_by from ident.now entry.now.event entry.now.decision }
{
    match (&entry.event, entry.decision) {
        (
            Event::Trigger {
                from: caller,
                ident: asked,
                ..
            },
            Decision::Refused { cause },
        ) if *caller == from && asked.bytes() == ident => Some(cause),
        _ => None,
    }
}
