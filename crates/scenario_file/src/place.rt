//! The places of a scenario file that checks look at, and what they refuse.
ghost use Rattle.std.specs.Prelude.{◌≡◌, IfOk, string_bytes};
ghost use Rattle.scenario_file.specs.Checks.{item_of, section_path};

use crate::error::{ScenarioError, ScenarioKind};
use crate::key_text::shown_key;
use crate::path::Path;
use std::alloc::{AllocError, AllocFailed, Global};

/// A table of the file.
#[derive(Clone, Copy)]
pub(crate) enum Section {
    /// The file itself.
    Top,
    /// The table `rings`.
    Rings,
    /// The domain of this number, from 1 on.
    Domain(usize),
    /// The call of this number, from 1 on.
    Call(usize),
}

/// A key of a table, or an item of the list that is its value.
#[derive(Clone, Copy)]
pub(crate) struct KeyPlace<'k> {
    section: Section,
    key: &'k str,
    item: Option<usize>,
}

/// Why a check fails. Its path is made only when it is told.
#[derive(Clone, Copy)]
pub(crate) enum CheckError<'k> {
    /// The check failed at this place.
    Bad(ScenarioKind, KeyPlace<'k>),
    /// Memory ran out.
    Memory,
}

impl From<AllocError> for CheckError<'_> {
    ghost use Rattle.scenario_file.specs.declared.place.CheckError.TheVariants.{Memory};

    ghost from_gives = { λ _ e. e ≡ Memory };

    fn from(_refused: AllocError) -> Self {
        CheckError::Memory
    }
}

impl<T: Drop> From<AllocFailed<T>> for CheckError<'_> {
    ghost use Rattle.scenario_file.specs.declared.place.CheckError.TheVariants.{Memory};

    ghost from_gives = { λ _ e. e ≡ Memory };

    fn from(_refused: AllocFailed<T>) -> Self {
        CheckError::Memory
    }
}

impl From<vchan_io::Memory> for CheckError<'_> {
    ghost use Rattle.scenario_file.specs.declared.place.CheckError.TheVariants.{Memory};

    ghost from_gives = { λ _ e. e ≡ Memory };

    fn from(_refused: vchan_io::Memory) -> Self {
        CheckError::Memory
    }
}

impl<'k> KeyPlace<'k> {
    ghost use Rattle.std.specs.Prelude.{None, Some};
    ghost use Rattle.scenario_file.specs.Readings.{place_path};

    /// Returns the place of a key.
    pub(crate) fn key(section: Section, key: &'k str) -> KeyPlace<'k>
        ensures { result ≡ record { section = section; key = key.entry; item = None } }
    {
        KeyPlace {
            section,
            key,
            item: None,
        }
    }

    /// Returns the place of an item of the list at a key, from 1 on.
    pub(crate) fn item(section: Section, key: &'k str, number: usize) -> KeyPlace<'k>
        ensures { result ≡ record { section = section; key = key.entry; item = Some number } }
    {
        KeyPlace {
            section,
            key,
            item: Some(number),
        }
    }

    /// Returns the path of the place.
    #[tactic(auto, using(crate::proofs::KeyLaws::printable_place))]
    fn path(self, alloc: Global) -> Result<Path, AllocError>
        ensures { IfOk result (λ path. path ≡ place_path self.entry) }
    {
        let text = self.path_text(alloc)?;
        Ok(Path { text })
    }

    /// Returns the text of that path.
    fn path_text(self, alloc: Global) -> Result<String, AllocError>
        ensures { IfOk result (λ text. string_bytes text ≡ place_path self.entry) }
    {
        let front = section_path(alloc, self.section)?;
        let key = shown_key(alloc, self.key)?;
        let text = match self.item {
            None => format!(in alloc; "{front}{key}")?,
            Some(number) => format!(in alloc; "{front}{key}[{number}]")?,
        };
        Ok(text)
    }
}

/// Returns what stands before the keys of a table.
fn section_path(alloc: Global, section: Section) -> Result<String, AllocError>
    ensures { IfOk result (λ path. string_bytes path ≡ section_path section) }
{
    match section {
        Section::Top => Ok(String::new(alloc)),
        Section::Rings => String::from_str(alloc, "rings."),
        Section::Domain(number) => format!(in alloc; "domain[{number}]."),
        Section::Call(number) => format!(in alloc; "call[{number}]."),
    }
}

impl CheckError<'_> {
    ghost use Rattle.scenario_file.specs.Readings.{Tells};

    /// Returns the error of the file, with the path of the place.
    pub(crate) fn told(self, alloc: Global) -> ScenarioError
        ensures { Tells result self.entry }
    {
        match self {
            CheckError::Bad(kind, place) => match place.path(alloc) {
                Ok(at) => ScenarioError::Bad { kind, at },
                Err(_) => ScenarioError::Memory,
            },
            CheckError::Memory => ScenarioError::Memory,
        }
    }
}
