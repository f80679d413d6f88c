//! The report of a run: its lines and its pages.
use crate::standing::Standing;
use qrexec_frame::{Bytes, Text};
use scenario_file::LineCause;
use std::marker::Model;
use task_duties::PagePlace;

/// How a session with a hostile domain came out.
#[derive(Clone, Copy, Debug, PartialEq, Eq)]
pub enum MixedOutcome {
    /// The service ended.
    Done {
        /// Its exit code.
        code: i32,
    },
    /// The broker refused the call.
    Refused,
    /// The bytes that were got are wrong.
    Fault,
    /// The other side has closed the channel before the call was over.
    Closed,
    /// The other side has gone before the call was over.
    Gone,
}

/// What came of a call.
#[derive(Debug, Drop)]
pub enum CallResult {
    /// The service ended.
    Done {
        /// Its exit code.
        code: i32,
        /// What it wrote on stdout.
        stdout: Bytes,
        /// What it wrote on stderr.
        stderr: Bytes,
        /// The place of the call's page in the report's list of pages, from 0 on.
        page: u32,
    },
    /// The call was refused.
    Refused {
        /// Why it was refused.
        cause: LineCause,
    },
    /// The call's target is hostile.
    Mixed {
        /// How the session came out.
        outcome: MixedOutcome,
        /// All bytes that the caller got.
        got: Bytes,
    },
}

/// The line of a call.
#[derive(Debug, Drop)]
pub struct CallLine {
    /// The number of the call.
    pub number: u32,
    /// The name of the caller.
    pub from: Text,
    /// The name of the target.
    pub to: Text,
    /// The service that was asked for.
    pub service: Text,
    /// What came of the call.
    pub result: CallResult,
}

/// The line of a session in which an honest domain served a hostile one.
#[derive(Debug, Drop)]
pub struct ServedLine {
    /// The name of the domain that called.
    pub from: Text,
    /// The name of the domain that served.
    pub to: Text,
    /// The port of the session.
    pub port: u32,
    /// How the session came out.
    pub outcome: MixedOutcome,
    /// All bytes that the serving domain got.
    pub got: Bytes,
}

/// A page that is done with, and its place.
#[derive(Drop)]
pub struct SettledPage {
    /// The page's place among the pages of the run.
    pub place: PagePlace,
    /// What is known of it.
    pub settled: Standing,
}

impl Model for SettledPage {
    ghost use Rattle.run_laws.specs.Report.{SettledPage as PageOfReport};

    ghost Value = { PageOfReport };

    ghost view = { λ p. record { place = p.place; settled = p.settled } };
}

/// The report of a run. Contracts see it as a record in which the lists are plain lists.
#[derive(Drop)]
pub struct Report {
    /// A line for each call, in the order of the scenario.
    pub calls: Vec<CallLine>,
    /// A line for each session in which an honest domain served a hostile one, in order of the caller's
    /// number, the server's number and the port.
    pub served: Vec<ServedLine>,
    /// All pages of the run.
    pub pages: Vec<SettledPage>,
}

impl Model for Report {
    ghost use Rattle.run_laws.specs.Report.{Report as LinesAndPages};

    ghost Value = { LinesAndPages };

    ghost view = { λ r. record { calls = r.calls.items; served = r.served.items; pages = r.pages.items } };
}
