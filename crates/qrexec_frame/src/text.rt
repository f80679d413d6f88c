ghost use Rattle.std.specs.Prelude.{◌≡◌, ◌↔◌, ◌≤◌, length, position, Contains, IsSome, IfOk, bytes_eq};
ghost use Rattle.std.specs.List.{before_first, position_or_len};
ghost use Rattle.std.specs.Cmp.{partial_equiv_from_equiv};
ghost use Rattle.std.specs.Cmp.Lexicographic.{nat_list_eq_equiv};
ghost use Rattle.qrexec_frame.specs.Names.{cleaned};
ghost use Rattle.qrexec_frame.specs.Texts.{HasNoNul, is_nul};
ghost use Rattle.qrexec_frame.specs.declared.text.TextError.TheVariants as error;

use crate::clean::Letters;
use memchr::memchr;
use smallvec::SmallVec;
use std::alloc::{AllocError, Global};
use std::marker::Model;
use thiserror::Error;

/// The length up to which a text lies in its value and takes no memory of its own, in bytes. Most names,
/// services and identifiers are shorter.
const SHORT: usize = 24;

/// A text of a message: bytes without NUL, as names, identifiers and lines are.
#[derive(Debug, Drop)]
pub struct Text {
    bytes: SmallVec<u8, SHORT>,
}

impl Model for Text {
    ghost use Rattle.std.specs.Prelude.{List, ℕ};
    ghost use Rattle.qrexec_frame.specs.Texts.{HasNoNul};

    ghost Value = { List ℕ };

    ghost view = { λ t. t.bytes.items };

    ghost invariant = { λ t. HasNoNul t.bytes.items };
}

/// Why bytes aren't a text.
#[derive(Clone, Copy, Debug, PartialEq, Eq, Error)]
pub enum TextError {
    /// A byte is NUL.
    #[error("a byte of the text is NUL")]
    Nul,
    /// Memory ran out.
    #[error("out of memory")]
    Memory,
}

impl From<AllocError> for TextError {
    ghost from_gives = { λ _ e. e ≡ error.Memory };

    fn from(_refused: AllocError) -> TextError {
        TextError::Memory
    }
}

impl Clone for Text {
    ghost is_clone = { λ text copy. copy ≡ text };

    fn clone(&self) -> Result<Text, AllocError> {
        let bytes = SmallVec::from_slice(*self.bytes.allocator(), self.bytes())?;
        Ok(Text { bytes })
    }
}

impl PartialEq for Text {
    ghost eq = { bytes_eq };

    ghost laws = { partial_equiv_from_equiv nat_list_eq_equiv };

    fn eq(&self, other: &Text) -> bool {
        self.bytes() == other.bytes()
    }
}

impl Eq for Text {
    ghost laws = { nat_list_eq_equiv };
}

impl Text {
    /// Returns the text of these bytes.
    ///
    /// # Errors
    ///
    /// `Nul` if and only if one of the bytes is NUL; `Memory` if memory runs out.
    pub fn of(alloc: Global, bytes: &[u8]) -> Result<Text, TextError>
        ensures text { IfOk result (λ text. text ≡ bytes.now) }
        ensures nul { (result ≡ Err TextError.Nul) ↔ Contains bytes.now 0 }
    {
        if first_nul(bytes).is_some() {
            return Err(TextError::Nul);
        }
        let bytes = SmallVec::from_slice(alloc, bytes)?;
        Ok(Text { bytes })
    }

    /// Borrows the bytes, none of which is NUL.
    pub fn bytes(&self) -> &[u8]
        ensures bytes { result.now ≡ self.now }
        ensures no_nul { HasNoNul result.now }
    {
        self.bytes.as_slice()
    }

    /// Returns the text of a field of a message: its bytes before the first NUL.
    pub(crate) fn to_nul(alloc: Global, bytes: &[u8]) -> Result<Text, AllocError>
        ensures { IfOk result (λ text. text ≡ before_first is_nul bytes.now) }
    {
        let bytes = SmallVec::from_slice(alloc, before_nul(bytes))?;
        Ok(Text { bytes })
    }

    /// Returns a text with `_` in place of every byte that isn't one of the letters.
    pub(crate) fn cleaned(alloc: Global, text: &Text, letters: Letters) -> Result<Text, AllocError>
        ensures { IfOk result (λ clean. clean ≡ cleaned letters text.now) }
    {
        let bytes = clean_bytes(alloc, text.bytes(), letters)?;
        Ok(Text { bytes })
    }
}

fn clean_bytes(
    alloc: Global,
    bytes: &[u8],
    letters: Letters,
) -> Result<SmallVec<u8, SHORT>, AllocError>
    ensures { IfOk result (λ clean. clean.items ≡ cleaned letters bytes.now) }
{
    let mut clean = SmallVec::with_capacity(alloc, bytes.len())?;
    for byte in bytes {
        clean.push(letters.kept(*byte))?;
    }
    Ok(clean)
}

// The bytes before the first NUL.
pub(crate) fn before_nul(bytes: &[u8]) -> &[u8]
    ensures { result.now ≡ before_first is_nul bytes.now }
{
    &bytes[..len_to_nul(bytes)]
}

// How many bytes stand before the first NUL.
fn len_to_nul(bytes: &[u8]) -> usize
    ensures len { result ≡ position_or_len is_nul bytes.now }
    ensures within { result ≤ length bytes.now }
{
    first_nul(bytes).unwrap_or(bytes.len())
}

// Where the first NUL stands.
#[tactic(auto, using(crate::proofs::NulLaws::first_place, crate::proofs::NulLaws::some_nul))]
fn first_nul(bytes: &[u8]) -> Option<usize>
    ensures place { result ≡ position is_nul bytes.now }
    ensures some { IsSome result ↔ Contains bytes.now 0 }
{
    memchr(0, bytes)
}
