//! What a run of the program returns.
ghost use Rattle.std.specs.Prelude.{◌≡◌, []};

use crate::status::Status;
use run_report::Report;
use std::alloc::Global;
use std::marker::Model;
use vchan_rule::Settled;

/// What a run of the program returns. Contracts see it as a record in which the list is a plain list.
#[derive(Drop)]
pub struct RunEnd {
    /// How the run ended.
    pub status: Status,
    /// The report of the scenario that was run, after `Done` and `WriteFault` of `run` and `load`; otherwise
    /// `None`.
    pub report: Option<Report>,
    /// The pages apart from those of a report. After `Done` these are the one page of `pipe`, the pages of
    /// the clients of `persist` in order, and those of `relay` from near to far. Otherwise there are none.
    pub settled: Vec<Settled>,
}

impl Model for RunEnd {
    ghost use Rattle.vchan_top.specs.EndOfRun.{EndOfRun};

    ghost Value = { EndOfRun };

    ghost view = { λ e. record { status = e.status; report = e.report; settled = e.settled.items } };
}

impl RunEnd {
    /// Makes the end of a run whose whole text was written.
    pub(crate) fn done(report: Option<Report>, settled: Vec<Settled>) -> RunEnd
        ensures { result ≡ record { status = Status.Done; report = report; settled = settled.items } }
    {
        RunEnd {
            status: Status::Done,
            report,
            settled,
        }
    }

    /// Makes the end of a run with no pages apart from its report.
    pub(crate) fn of(alloc: Global, status: Status, report: Option<Report>) -> RunEnd
        ensures { result ≡ record { status = status; report = report; settled = [] } }
    {
        RunEnd {
            status,
            report,
            settled: Vec::new(alloc),
        }
    }
}
