//! What the built-in services append to their outputs.
ghost use Rattle.std.specs.Prelude.{◌≡◌, ◌-◌, List, [], ◌∷◌, ◌++◌, true, false, map, take, length, decimal, OnOk, OnErr, IfOk};
ghost use Rattle.std.specs.Char.{to_ascii_uppercase};
ghost use Rattle.service_gate.specs.ServiceResult.{every_other};

use itoa::Buffer;
use vchan_io::Memory;

/// Appends the piece with `A` to `Z` in place of `a` to `z`. If memory runs out, `out` is as it
/// was.
pub(crate) fn append_upper(piece: &[u8], out: &mut Vec<u8>) -> Result<(), Memory>
    ensures ok { OnOk result (out.new.items ≡ out.old.items ++ map to_ascii_uppercase piece.now) }
    ensures no_memory { OnErr result (out.new.items ≡ out.old.items) }
{
    out.reserve(piece.len())?;
    for byte in piece {
        out.push_reserved(byte.to_ascii_uppercase());
    }
    Ok(())
}

/// Appends the first `left` bytes of the piece, or all of a shorter one, and returns how many more
/// may come. If memory runs out, `out` is as it was.
pub(crate) fn append_first(left: u32, piece: &[u8], out: &mut Vec<u8>) -> Result<u32, Memory>
    ensures ok { IfOk result (λ less. (out.new.items ≡ out.old.items ++ take left piece.now) × (less ≡ left - length piece.now)) }
    ensures no_memory { OnErr result (out.new.items ≡ out.old.items) }
{
    let count = piece.len().min(left as usize);
    out.extend_from_slice(&piece[..count])?;
    Ok(left - count as u32)
}

/// Appends the bytes of the piece to the two outputs in turn, beginning with `first`. If memory
/// runs out, both are as they were.
pub(crate) fn append_in_turn(
    piece: &[u8],
    first: &mut Vec<u8>,
    second: &mut Vec<u8>,
) -> Result<(), Memory>
    ensures first { OnOk result (first.new.items ≡ first.old.items ++ every_other true piece.now) }
    ensures second { OnOk result (second.new.items ≡ second.old.items ++ every_other false piece.now) }
    ensures no_memory { OnErr result ((first.new.items ≡ first.old.items) × (second.new.items ≡ second.old.items)) }
{
    first.reserve(piece.len().div_ceil(2))?;
    second.reserve(piece.len() / 2)?;
    let mut rest = piece;
    'pairs: while let [here, there, others @ ..] = rest {
        first.push_reserved(*here);
        second.push_reserved(*there);
        rest = others;
    }
    if let [last] = rest {
        first.push_reserved(*last);
    }
    Ok(())
}

/// Appends the text of the count and a line feed. If memory runs out, `out` is as it was.
pub(crate) fn append_count(taken: u64, out: &mut Vec<u8>) -> Result<(), Memory>
    ensures ok { OnOk result (out.new.items ≡ out.old.items ++ (decimal taken ++ 10 ∷ [])) }
    ensures no_memory { OnErr result (out.new.items ≡ out.old.items) }
{
    let mut buffer = Buffer::new();
    let digits = buffer.format(taken);
    out.reserve(digits.len() + 1)?;
    out.extend_from_slice(digits.as_bytes())?;
    out.push_reserved(b'\n');
    Ok(())
}
