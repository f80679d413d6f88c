//! Why bytes aren't a scenario.
ghost use Rattle.std.specs.Prelude.{◌≡◌};

use crate::path::Path;
use std::alloc::AllocError;
use thiserror::Error;

/// What is wrong at a place of a scenario file.
#[derive(Clone, Copy, Debug, PartialEq, Eq)]
pub enum ScenarioKind {
    /// The bytes aren't UTF-8, or aren't TOML.
    Toml,
    /// The table can't have this key.
    UnknownKey,
    /// A key that is needed has no value, or there is no domain.
    MissingKey,
    /// A value is of another type.
    WrongType,
    /// No page can have these orders.
    BadOrders,
    /// A number is out of range.
    BadNumber,
    /// A text or a byte string isn't allowed at its place.
    BadText,
    /// A text isn't an act.
    BadAct,
    /// A domain has the name of an earlier one.
    SameName,
    /// A caller isn't an honest domain.
    BadCaller,
    /// A call has a second input.
    TwoStdin,
    /// There are too many items, bytes or words.
    TooMany,
}

/// Why bytes weren't read as a scenario.
#[derive(Debug, Drop, Error)]
pub enum ScenarioError {
    /// The first check that fails.
    #[error("the bytes are no scenario")]
    Bad {
        /// What is wrong.
        kind: ScenarioKind,
        /// The path of what the check looked at.
        at: Path,
    },
    /// Memory ran out for the scenario.
    #[error("out of memory")]
    Memory,
}

impl From<AllocError> for ScenarioError {
    ghost use Rattle.scenario_file.specs.declared.error.ScenarioError.TheVariants.{Memory};

    ghost from_gives = { λ _ e. e ≡ Memory };

    fn from(_refused: AllocError) -> ScenarioError {
        ScenarioError::Memory
    }
}

impl ScenarioKind {
    ghost use Rattle.scenario_file.specs.KindWords.{kind_word};

    /// Returns the word for the kind, as `bad-text`.
    pub fn word(self) -> &'static [u8]
        ensures { result.now ≡ kind_word self }
    {
        match self {
            ScenarioKind::Toml => b"toml",
            ScenarioKind::UnknownKey => b"unknown-key",
            ScenarioKind::MissingKey => b"missing-key",
            ScenarioKind::WrongType => b"wrong-type",
            ScenarioKind::BadOrders => b"bad-orders",
            ScenarioKind::BadNumber => b"bad-number",
            ScenarioKind::BadText => b"bad-text",
            ScenarioKind::BadAct => b"bad-act",
            ScenarioKind::SameName => b"same-name",
            ScenarioKind::BadCaller => b"bad-caller",
            ScenarioKind::TwoStdin => b"two-stdin",
            ScenarioKind::TooMany => b"too-many",
        }
    }
}
