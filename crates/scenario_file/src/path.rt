//! The places in a scenario file that errors name.
ghost use Rattle.std.specs.Prelude.{◌≡◌, ◌≤◌, ◌+◌, ◌++◌, length, vec_len, vec_capacity, IsOk, OnOk, OnErr, string_bytes};
ghost use Rattle.scenario_file.specs.KeyTexts.{IsPrintable};
ghost use Rattle.scenario_file.specs.KindWords.{fault_line};

use crate::error::ScenarioKind;
use std::alloc::AllocError;
use std::marker::Model;
use vchan_io::Memory;

/// The path of a key or of an item of a list, as `call[2].service`. Whatever key the file has, it is one line
/// of printable ASCII. Contracts see its bytes.
#[derive(Debug, Drop)]
pub struct Path {
    pub(crate) text: String,
}

impl Model for Path {
    ghost use Rattle.std.specs.Prelude.{List, ℕ, string_bytes};

    ghost Value = { List ℕ };

    ghost view = { λ p. string_bytes p.text };

    ghost use Rattle.scenario_file.specs.KeyTexts.{IsPrintable};

    ghost invariant = { λ p. IsPrintable (string_bytes p.text) };
}

impl Path {
    /// Borrows the bytes of the path.
    pub fn bytes(&self) -> &[u8]
        ensures bytes { result.now ≡ self.now }
        ensures printable { IsPrintable result.now }
    {
        self.text.as_bytes()
    }
}

/// Appends the line that tells of a failed check, without a line feed: the path and the word for
/// the kind, as `call[2].service: bad-text`.
///
/// # Errors
///
/// `Memory` if memory runs out, which never happens if `out` has room for the line; `out` is as it
/// was then.
#[tactic(auto, using(crate::proofs::KeyLaws::printable_fault))]
pub fn push_fault_line(out: &mut Vec<u8>, kind: ScenarioKind, at: &Path) -> Result<(), Memory>
    ensures ok { OnOk result (out.new.items ≡ out.old.items ++ fault_line kind at.now) }
    ensures err { OnErr result (out.new.items ≡ out.old.items) }
    ensures room { vec_len out.old + length (fault_line kind at.now) ≤ vec_capacity out.old → IsOk result }
    ensures printable { IsPrintable (fault_line kind at.now) }
{
    let word = kind.word();
    let path = at.bytes();
    out.reserve(path.len() + 2 + word.len())?;
    out.extend_from_slice(path)?;
    out.extend_from_slice(b": ")?;
    out.extend_from_slice(word)?;
    Ok(())
}
