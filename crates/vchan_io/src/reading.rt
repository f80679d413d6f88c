ghost use Rattle.std.specs.Prelude.{◌≡◌, ℕ, List, ◌+◌, ◌<◌, ◌≤◌, ◌↔◌, length, take, drop, IfOk, OnOk, OnErr, IfSome, IsErrOf, vec_len};
ghost use Rattle.std.specs.Io.KnownBytes.{IsAtEnd};
ghost use Rattle.vchan_io.specs.Counts.{Rose};
ghost use Rattle.vchan_io.specs.Streams.{Takes};
ghost use Rattle.vchan_io.specs.declared.reading.ReadAllError.TheVariants as error;

use crate::faults::Failed;
use crate::source::Source;
use std::alloc::{AllocError, Global};
use thiserror::Error;

/// The greatest limit that `read_all` may be given, in bytes.
pub const GREATEST_LIMIT: usize = 1_073_741_824;

// A read asks for as many bytes as were read so far, but for no fewer than this many,
const SHORTEST_PIECE: usize = 8 * 1024;

// and for no more than this many.
const LONGEST_PIECE: usize = 128 * 1024;

/// The reasons why a source was not read to its end.
#[derive(Clone, Copy, Debug, PartialEq, Eq, Error)]
pub enum ReadAllError {
    /// The source failed.
    #[error("read fault")]
    ReadFault,
    /// The source has more than the limit.
    #[error("input too long")]
    TooLong,
    /// Memory ran out.
    #[error("out of memory")]
    Memory,
}

impl From<AllocError> for ReadAllError {
    ghost from_gives = { λ _ e. e ≡ error.Memory };

    fn from(_refused: AllocError) -> ReadAllError {
        ReadAllError::Memory
    }
}

impl From<Failed> for ReadAllError {
    ghost from_gives = { λ _ e. e ≡ error.ReadFault };

    fn from(_failed: Failed) -> ReadAllError {
        ReadAllError::ReadFault
    }
}

/// Reads a source to its end, at most `limit` bytes, and returns all that it had left.
///
/// Returns `ReadFault` only if the source's count of faults rose during this call; after every other result
/// that count is as it was. Returns `TooLong` if and only if more than `limit` bytes were taken, which are
/// then `limit + 1` bytes. Returns `Memory` if memory runs out. After each error the bytes that were taken
/// are gone from the source.
pub fn read_all<S: Source>(
    alloc: Global,
    source: &mut S,
    limit: usize,
) -> Result<Vec<u8>, ReadAllError>
    requires { limit ≤ GREATEST_LIMIT }
    ensures whole { IfOk result (λ bytes. IfSome (S.left source.old) (λ all. bytes.items ≡ all)) }
    ensures end { OnOk result (IsAtEnd (S.left source.new)) }
    ensures short { IfOk result (λ bytes. length bytes.items ≤ limit) }
    ensures taken { (taken : List ℕ) × Takes (S.left source.old) (S.left source.new) taken
        × (length taken ≤ limit + 1)
        × (IsErrOf result ReadAllError.TooLong ↔ (limit < length taken))
        × IfOk result (λ bytes. bytes.items ≡ taken) }
    ensures fault { IsErrOf result ReadAllError.ReadFault → Rose (S.faults source.old) (S.faults source.new) }
    ensures unfaulted { (¬ IsErrOf result ReadAllError.ReadFault) → S.faults source.new ≡ S.faults source.old }
    ensures counted { S.faults source.old ≤ S.faults source.new }
{
    let mut bytes = Vec::new(alloc);
    let mut filled = 0;
    while filled <= limit {
        make_room(&mut bytes, filled, limit)?;
        let count = read_at(source, bytes.as_mut_slice(), filled)?;
        if count == 0 {
            bytes.truncate(filled);
            return Ok(bytes);
        }
        filled += count;
    }
    Err(ReadAllError::TooLong)
}

// Grows `bytes` with zeros beyond `filled`, for a read of one piece, to at most one byte more than `limit`.
// What an earlier read left unfilled stays as it is, so no byte is zeroed twice.
fn make_room(bytes: &mut Vec<u8>, filled: usize, limit: usize) -> Result<(), AllocError>
    requires small { limit ≤ GREATEST_LIMIT }
    requires within { filled ≤ vec_len bytes.old }
    requires more { filled ≤ limit }
    requires bounded { vec_len bytes.old ≤ limit + 1 }
    ensures room { OnOk result (filled < vec_len bytes.new) }
    ensures bounded { vec_len bytes.new ≤ limit + 1 }
    ensures kept { take filled bytes.new.items ≡ take filled bytes.old.items }
{
    if filled < bytes.len() {
        return Ok(());
    }
    let piece = filled.max(SHORTEST_PIECE).min(LONGEST_PIECE);
    bytes.resize((filled + piece).min(limit + 1), 0)
}

// Makes one read into `bytes`, after the first `filled` of them.
fn read_at<S: Source>(source: &mut S, bytes: &mut [u8], filled: usize) -> Result<usize, Failed>
    requires { filled < length bytes.old }
    ensures kept { take filled bytes.new ≡ take filled bytes.old }
    ensures within { IfOk result (λ count. filled + count ≤ length bytes.old) }
    ensures taken { IfOk result (λ count. Takes (S.left source.old) (S.left source.new) (take count (drop filled bytes.new))) }
    ensures end { IfOk result (λ count. count ≡ 0 → IsAtEnd (S.left source.new)) }
    ensures unfaulted { OnOk result (S.faults source.new ≡ S.faults source.old) }
    ensures failed { OnErr result (Rose (S.faults source.old) (S.faults source.new)) }
    ensures none_taken { OnErr result (S.left source.new ≡ S.left source.old) }
    ensures counted { S.faults source.old ≤ S.faults source.new }
{
    source.read(&mut bytes[filled..])
}
