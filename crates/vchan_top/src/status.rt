ghost use Rattle.std.specs.Prelude.{◌≡◌};
ghost use Rattle.vchan_top.specs.Status.{code_of, number_of_exit};

use scenario_file::{Path, ScenarioKind};
use step_script::ScriptKind;
use stream_text::DecodeKind;
use vchan_persist::ClientsKind;

/// How a run of the program ended.
#[derive(Drop)]
pub enum Status {
    /// The whole text was written.
    Done,
    /// The words are no command.
    BadWords,
    /// The source had a fault.
    ReadFault,
    /// The input is longer than the program reads.
    TooLong,
    /// The input doesn't have the form that the command reads.
    BadInput {
        /// What is wrong with the input.
        bad: Bad,
    },
    /// The sink for the output had a fault.
    WriteFault,
    /// Memory ran out.
    OutOfMemory,
}

/// What is wrong with an input.
#[derive(Drop)]
pub enum Bad {
    /// It is no script.
    Script {
        /// The number of the first bad line, from 1.
        line: u32,
        /// What is wrong with that line.
        kind: ScriptKind,
    },
    /// It is no list of byte strings.
    Decode {
        /// The number of the first bad line, from 1.
        line: u32,
        /// What is wrong with that line.
        kind: DecodeKind,
    },
    /// It is no list of clients.
    Clients {
        /// The number of the first bad line, from 1.
        line: u32,
        /// What is wrong with that line.
        kind: ClientsKind,
    },
    /// It is no scenario.
    Scenario {
        /// What the first check that failed found.
        kind: ScenarioKind,
        /// The path of what that check read, as `call[2].service`.
        at: Path,
    },
}

impl Status {
    /// Returns the number with which the program ends.
    pub fn code(&self) -> u8
        ensures { result ≡ code_of self.now }
    {
        match self {
            Status::Done => 0,
            Status::BadWords => 2,
            Status::ReadFault => 3,
            Status::TooLong => 4,
            Status::BadInput { .. } => 5,
            Status::WriteFault => 6,
            Status::OutOfMemory => 7,
        }
    }
}

/// The number with which the program ends if a word isn't UTF-8.
const NOT_UTF8: u8 = 8;

/// Returns the number with which the program ends: that of its status, or 8 if it has none because a word
/// isn't UTF-8.
pub fn exit_number(status: Option<Status>) -> u8
    ensures { result ≡ number_of_exit status }
{
    match status {
        Some(status) => status.code(),
        None => NOT_UTF8,
    }
}
