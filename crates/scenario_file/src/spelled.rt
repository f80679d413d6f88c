//! Bytes that are held as they are written.
ghost use Rattle.std.specs.Prelude.{◌≡◌, ◌++◌, ◌↔◌, None, Some, is_some, IfOk, OnOk};
ghost use Rattle.script_words.specs.ByteStrings.{byte_string};

use script_words::{ByteError, PushError, push_bytes_of};
use std::alloc::{AllocError, Global};
use std::marker::Model;
use vchan_io::Memory;

/// The bytes that a byte string spells, held as that string: a few characters may spell two million
/// bytes. Contracts see the bytes.
#[derive(Debug, Drop)]
pub struct SpelledBytes {
    word: Vec<u8>,
}

impl Model for SpelledBytes {
    ghost use Rattle.std.specs.Prelude.{◌≡◌, List, ℕ, [], is_some, true, unwrap_or};
    ghost use Rattle.script_words.specs.ByteStrings.{byte_string};

    ghost Value = { List ℕ };

    ghost view = { λ s. unwrap_or (byte_string s.word.items) [] };

    ghost invariant = { λ s. is_some (byte_string s.word.items) ≡ true };
}

impl SpelledBytes {
    /// Returns the bytes of a byte string ([`script_words::bytes_of`]).
    ///
    /// # Errors
    ///
    /// `BadHex` if and only if the word isn't a byte string, however much memory there is; `Memory` if
    /// memory runs out for a copy of the word.
    #[tactic(auto, using(crate::proofs::SpelledLaws::some_of, crate::proofs::SpelledLaws::none_of))]
    pub(crate) fn of(alloc: Global, word: &[u8]) -> Result<SpelledBytes, ByteError>
        ensures ok { IfOk result (λ bytes. byte_string word.now ≡ Some bytes) }
        ensures bad { (result ≡ Err ByteError.BadHex) ↔ (byte_string word.now ≡ None) }
    {
        if !is_byte_string(alloc, word) {
            return Err(ByteError::BadHex);
        }
        match Vec::from_slice(alloc, word) {
            Ok(word) => Ok(SpelledBytes { word }),
            Err(_) => Err(ByteError::Memory),
        }
    }

    /// Appends the bytes to `out`.
    ///
    /// # Errors
    ///
    /// `Memory` if memory runs out.
    #[tactic(auto, using(crate::proofs::SpelledLaws::some_of, crate::proofs::SpelledLaws::gains))]
    pub fn push(&self, out: &mut Vec<u8>) -> Result<(), Memory>
        ensures { OnOk result (out.new.items ≡ out.old.items ++ self.now) }
    {
        push_bytes_of(out, &self.word, usize::MAX).map_err(|_| Memory)
    }

    /// Returns a copy.
    ///
    /// # Errors
    ///
    /// The error if memory runs out.
    pub fn copy(&self) -> Result<SpelledBytes, AllocError>
        ensures { IfOk result (λ copy. copy ≡ self.now) }
    {
        Ok(SpelledBytes {
            word: self.word.clone()?,
        })
    }
}

/// Returns whether a word is a byte string. Room for no byte tells that, and takes no memory.
fn is_byte_string(alloc: Global, word: &[u8]) -> bool
    ensures { result ≡ is_some (byte_string word.now) }
{
    let mut no_bytes = Vec::new(alloc);
    !matches!(
        push_bytes_of(&mut no_bytes, word, 0),
        Err(PushError::BadHex)
    )
}
