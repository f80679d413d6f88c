//! The lines of the sessions in which honest domains served hostile ones.
ghost use Rattle.std.specs.Prelude.{◌≡◌, ◌≤◌, ◌+◌, ◌++◌, ◌∷◌, [], List, false, length, map, IfOk, OnOk, AllPairs, IsPermutation};
ghost use Rattle.scenario_file.specs.Scenario.{hostile_at};
ghost use Rattle.run_laws.specs.Run.{Run};
ghost use Rattle.run_laws.specs.HostileSessions.{HostileSession, hostile_sessions, session_line, stands_before};
ghost use Rattle.scenario_run.specs.Sessions.{HaveServed, seen, sessions_from, sessions_of, sessions_with};

use crate::answers::TaskReport;
use crate::lines::{mixed_outcome, name_of};
use crate::tasks::is_scenario;
use run_laws::ServedLine;
use run_pages::is_hostile;
use scenario_file::Scenario;
use std::alloc::{AllocError, Global};
use task_duties::ServedDone;
use vchan_io::Memory;

/// A session in which an honest domain served a hostile one.
#[derive(Drop)]
pub(crate) struct Session {
    /// The domain that served.
    pub(crate) to: u32,
    /// What it reports.
    pub(crate) done: ServedDone,
}

/// Makes the lines of all sessions with hostile callers that the tasks report, in order of the caller's
/// number, the server's number and the port.
pub(crate) fn served_lines(
    alloc: Global,
    scenario: &Scenario,
    reports: Vec<TaskReport>,
) -> Result<Vec<ServedLine>, Memory>
    requires { length reports.items ≡ length scenario.now.domains + 1 }
    ensures { (run : Run) → HaveServed run reports.items → IfOk result (λ lines. (sorted : List HostileSession) × IsPermutation (hostile_sessions scenario.now run) sorted
        × AllPairs (λ a b. stands_before b a ≡ false) sorted × (lines.items ≡ map (session_line scenario.now) sorted)) }
{
    let mut sessions = sessions(alloc, scenario, reports)?;
    sort(&mut sessions)?;
    lines_of(alloc, scenario, sessions)
}

// The sessions with hostile callers that the tasks report, those of the first domain first.
fn sessions(
    alloc: Global,
    scenario: &Scenario,
    reports: Vec<TaskReport>,
) -> Result<Vec<Session>, AllocError>
    requires { length reports.items ≡ length scenario.now.domains + 1 }
    ensures { IfOk result (λ sessions. map seen sessions.items ≡ sessions_from scenario.now 0 (map (λ r. r.served) reports.items)) }
{
    is_scenario(scenario);
    let mut sessions = Vec::new(alloc);
    let mut number = 0;
    for report in reports {
        push_sessions(&mut sessions, scenario, number, report.served)?;
        number += 1;
    }
    Ok(sessions)
}

// Appends the sessions with hostile callers that a domain reports.
fn push_sessions(
    sessions: &mut Vec<Session>,
    scenario: &Scenario,
    number: u32,
    served: Vec<ServedDone>,
) -> Result<(), AllocError>
    ensures { OnOk result (map seen sessions.new.items ≡ map seen sessions.old.items ++ sessions_of scenario.now number served.items) }
{
    if is_hostile(scenario, number) {
        return Ok(());
    }
    for done in served {
        push_session(sessions, scenario, number, done)?;
    }
    Ok(())
}

// Appends a session, if its caller is hostile.
fn push_session(
    sessions: &mut Vec<Session>,
    scenario: &Scenario,
    number: u32,
    done: ServedDone,
) -> Result<(), AllocError>
    ensures { OnOk result (map seen sessions.new.items ≡ map seen sessions.old.items ++ sessions_with scenario.now number (done ∷ [])) }
{
    if !is_hostile(scenario, done.from) {
        return Ok(());
    }
    sessions.push(Session { to: number, done })?;
    Ok(())
}

// Sorts sessions by the caller's number, the server's number and the port.
fn sort(sessions: &mut Vec<Session>) -> Result<(), AllocError>
    ensures same { OnOk result (IsPermutation sessions.old.items sessions.new.items) }
    ensures sorted { OnOk result (AllPairs (λ a b. stands_before (seen b) (seen a) ≡ false) sessions.new.items) }
{
    sessions.sort_by_key(|session| (session.done.from, session.to, session.done.port))
}

// The lines of sessions, in order.
fn lines_of(
    alloc: Global,
    scenario: &Scenario,
    sessions: Vec<Session>,
) -> Result<Vec<ServedLine>, Memory>
    ensures { IfOk result (λ lines. lines.items ≡ map (λ x. session_line scenario.now (seen x)) sessions.items) }
{
    let mut lines = Vec::with_capacity(alloc, sessions.len())?;
    for session in sessions {
        lines.push(line_of(alloc, scenario, session)?)?;
    }
    Ok(lines)
}

fn line_of(alloc: Global, scenario: &Scenario, session: Session) -> Result<ServedLine, Memory>
    ensures { IfOk result (λ line. line ≡ session_line scenario.now (seen session)) }
{
    let Session { to, done } = session;
    Ok(ServedLine {
        from: name_of(alloc, scenario, done.from)?,
        to: name_of(alloc, scenario, to)?,
        port: done.port,
        outcome: mixed_outcome(done.outcome),
        got: done.got,
    })
}
