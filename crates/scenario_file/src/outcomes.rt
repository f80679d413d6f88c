//! The lines of the calls between honest domains.
ghost use Rattle.std.specs.Prelude.{◌≡◌, ◌≤◌, length, IfOk};
ghost use Rattle.std.specs.List.{All};
ghost use Rattle.service_gate.specs.ServiceResult.{service};
ghost use Rattle.scenario_file.specs.Scenario.{CallFits, number_named};
ghost use Rattle.scenario_file.specs.Lines.{by_domain, by_service, line_among, lines, lines_among};

use crate::line::{Line, LineCause, LineResult};
use crate::lookup::{honest_domain, number_named, targets_hostile};
use crate::scenario::{CallPlan, Domain, Scenario};
use qrexec_frame::Bytes;
use service_gate::{Builtin, serve};
use std::alloc::Global;
use vchan_io::Memory;

/// Returns the lines of the calls whose target isn't a hostile domain, in order. The names and the
/// services alone determine them: neither a channel nor a broker is needed.
///
/// # Errors
///
/// `Memory` if memory runs out; no other.
pub fn honest_lines(alloc: Global, scenario: &Scenario) -> Result<Vec<Line>, Memory>
    ensures { IfOk result (λ made. made.items ≡ lines scenario.now) }
{
    lines_among(alloc, &scenario.domains, &scenario.calls)
}

/// Returns the lines of some calls between some domains.
fn lines_among(alloc: Global, domains: &[Domain], calls: &[CallPlan]) -> Result<Vec<Line>, Memory>
    requires few { length domains.now ≤ 32 }
    requires fit { All (CallFits domains.now) calls.now }
    ensures { IfOk result (λ made. made.items ≡ lines_among domains.now calls.now) }
{
    let mut lines = Vec::new(alloc);
    for call in calls {
        if targets_hostile(domains, call) {
            continue;
        }
        lines.push(line_of(alloc, domains, call)?)?;
    }
    Ok(lines)
}

/// Returns the line of a call.
fn line_of(alloc: Global, domains: &[Domain], call: &CallPlan) -> Result<Line, Memory>
    requires few { length domains.now ≤ 32 }
    requires fits { CallFits domains.now call.now }
    ensures { IfOk result (λ line. line ≡ line_among domains.now call.now) }
{
    Ok(Line {
        number: call.number,
        from: honest_domain(domains, call.from).name.clone()?,
        to: call.to.clone()?,
        service: call.service.clone()?,
        result: result_of(alloc, domains, call)?,
    })
}

/// Returns what comes of a call.
fn result_of(alloc: Global, domains: &[Domain], call: &CallPlan) -> Result<LineResult, Memory>
    requires { length domains.now ≤ 32 }
    ensures { IfOk result (λ outcome. outcome ≡ by_domain call.now (number_named domains.now call.now.to)) }
{
    match number_named(domains, call.to.bytes()) {
        None => Ok(LineResult::Refused {
            cause: LineCause::NoDomain,
        }),
        Some(number) => {
            if number == call.from {
                Ok(LineResult::Refused {
                    cause: LineCause::SameDomain,
                })
            } else {
                served(alloc, call)
            }
        }
    }
}

/// Returns what comes of a call to another domain.
fn served(alloc: Global, call: &CallPlan) -> Result<LineResult, Memory>
    ensures { IfOk result (λ outcome. outcome ≡ by_service (service call.now.service call.now.stdin)) }
{
    let Some(builtin) = Builtin::named(call.service.bytes()) else {
        return Ok(LineResult::Refused {
            cause: LineCause::NoService,
        });
    };
    let (stdout, stderr, code) = serve(alloc, builtin, &[call.stdin.slice()])?.into_parts();
    Ok(LineResult::Done {
        code,
        stdout: Bytes::of(stdout),
        stderr: Bytes::of(stderr),
    })
}
