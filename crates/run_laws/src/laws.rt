//! The laws of a run. A law is a function with no body, whose contract states it.
ghost use Rattle.ring_words.specs.declared.order.Orders.{Orders};
ghost use Rattle.run_laws.specs.Laws.{ControlBytes, ControlEnds, PortsApart, LimitsKept, AnswersAll, ServedAll, OutcomeDone, ResultEqual, RunsAreThere};
ghost use Rattle.run_laws.specs.HostileSessions.{SortedSessionsAreLawful};
ghost use Rattle.run_laws.specs.Results.{ResultsAreRuns, ResultsAreLawful};
ghost use Rattle.run_laws.specs.ReadOff.{ReportsAreLawful, SortedReportsAreLawful};

/// On the control page of an honest domain, neither side hears anything wrong.
pub fn control_bytes()
    ensures { ControlBytes }
{}

/// The control page of an honest domain is ended by the broker, after the domain's agent has got
/// all that the broker sent.
pub fn control_ends()
    ensures { ControlEnds }
{}

/// Each ordered pair of domains has its first ports, in order, and no more ports than pages.
pub fn ports_apart()
    ensures { PortsApart }
{}

/// No call of an honest domain is refused because its ports are spent, or because too many calls
/// are live: the names and services alone decide it, unless its target is hostile and was dropped.
pub fn limits_kept()
    ensures { LimitsKept }
{}

/// Each call of an honest domain has exactly one answer, and its agent reports it.
pub fn answers_all()
    ensures { AnswersAll }
{}

/// A call between honest domains that was answered with a port is served there.
pub fn served_all()
    ensures { ServedAll }
{}

/// Each session between honest domains ends with an exit code.
pub fn outcome_done()
    ensures { OutcomeDone }
{}

/// Each session between honest domains gives what the service gives for the caller's input.
pub fn result_equal()
    ensures { ResultEqual }
{}

/// A lawful report can be read off each run, hostile domains or not.
pub fn reports_are_lawful()
    ensures { ReportsAreLawful }
{}

/// The report of a run is lawful with any lines of sessions with hostile callers that stand, in
/// order.
pub fn sorted_reports_are_lawful()
    ensures { SortedReportsAreLawful }
{}

/// The report of a run is lawful with the lines of all sessions with hostile callers that honest
/// domains report, after these lines are sorted.
pub fn sorted_sessions_are_lawful()
    ensures { SortedSessionsAreLawful }
{}

/// Runs exist, whatever the orders of their pages: of a domain without calls, of a call that is
/// refused, and of a call that one honest domain serves for another.
pub fn runs_are_there()
    ensures { (orders : Orders) → RunsAreThere orders }
{}

/// What the tasks of a scenario answered, each as it owed, and the scenario's settled pages make up
/// a run with these pages.
pub fn results_are_runs()
    ensures { ResultsAreRuns }
{}

/// The report of such answers and pages is lawful with the lines of all sessions with hostile
/// callers that honest domains report, after these lines are sorted.
pub fn results_are_lawful()
    ensures { ResultsAreLawful }
{}
