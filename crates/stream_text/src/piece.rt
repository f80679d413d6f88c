//! The pieces of a stream, one to a line.
ghost use Rattle.std.specs.Prelude.{◌≡◌, ◌+◌, ◌≤◌, ◌++◌, ℕ, List, length, IfErr, IfOk};
ghost use Rattle.stream_text.specs.Input.{IsLineRefusal, piece_at};

use crate::error::DecodeError;
use script_words::push_bytes_of;

/// The greatest number of bytes that the lines of an input may spell in all.
pub(crate) const MOST_BYTES: usize = 8_388_608;

/// Appends the piece that the line of this number spells to `out`, and returns how many bytes it
/// has; the lines before it spell `before` bytes.
///
/// # Errors
///
/// `Bad` if and only if the line isn't a byte string, or is one with which there are too many
/// bytes; `Memory` only if it is neither.
pub(crate) fn push_piece(
    out: &mut Vec<u8>,
    number: u32,
    before: usize,
    line: &[u8],
) -> Result<usize, DecodeError>
    requires { before ≤ 8388608 }
    ensures ok { IfOk result (λ count. (piece : List ℕ) × (piece_at number before line.now ≡ Ok piece) × (count ≡ length piece)
        × (out.new.items ≡ out.old.items ++ piece)) }
    ensures bad { IfErr result (λ e. IsLineRefusal e (piece_at number before line.now)) }
    ensures short { IfOk result (λ count. before + count ≤ 8388608) }
{
    let held = out.len();
    match push_bytes_of(out, line, MOST_BYTES - before) {
        Ok(()) => Ok(out.len() - held),
        Err(refused) => Err(DecodeError::at(number, refused)),
    }
}
