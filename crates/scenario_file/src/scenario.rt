//! A scenario as it is run.
use crate::acts::Acts;
use qrexec_frame::{Bytes, Text};
use ring_words::Orders;
use std::marker::Model;

/// A domain of a scenario.
#[derive(Debug, Drop)]
pub struct Domain {
    /// Its name, of 1 to 31 bytes.
    pub name: Text,
    /// Its acts, if it is hostile.
    pub hostile: Option<Acts>,
    /// How many data pages are laid for the calls of a hostile domain to each other domain, at most
    /// 32; 4 for an honest one.
    pub ports: u32,
    /// The version of qrexec that it announces, 2 or 3; 3 for a hostile one.
    pub version: u32,
}

/// A call that a scenario makes.
#[derive(Debug, Drop)]
pub struct CallPlan {
    /// Its number, which is greater than those of the calls before it.
    pub number: u32,
    /// The number of the caller, an honest domain: its place in the list of domains, from 1 on.
    pub from: u32,
    /// The name of the target, of 1 to 31 bytes; no domain need have it.
    pub to: Text,
    /// The service that is asked for, of 1 to 63 bytes.
    pub service: Text,
    /// The input of the service, of at most 1,048,576 bytes.
    pub stdin: Bytes,
}

/// A scenario: rings, domains and calls. Contracts see it as a record in which the lists are plain
/// lists, and may rely on what holds of every scenario.
#[derive(Debug, Drop)]
pub struct Scenario {
    /// The orders of the rings of each control page.
    pub control: Orders,
    /// The orders of the rings of each data page.
    pub payload: Orders,
    /// Where all indices begin.
    pub start: u32,
    /// The domains, at most 32, with names that differ. They are numbered from 1 on.
    pub domains: Vec<Domain>,
    /// The calls, at most 4,096.
    pub calls: Vec<CallPlan>,
}

impl Model for Scenario {
    ghost use Rattle.scenario_file.specs.Scenario.{Plan, IsScenario};

    ghost Value = { Plan };

    ghost view = { λ s. record { control = s.control; payload = s.payload; start = s.start; domains = s.domains.items; calls = s.calls.items } };

    ghost invariant = { λ s. IsScenario (record { control = s.control; payload = s.payload; start = s.start; domains = s.domains.items; calls = s.calls.items }) };
}
