//! Words of lines, each appended to the text that was printed before.
//!
//! It serves what prints lines: the answers of scripts, reports of runs, and further texts of the program.
//!
//! A text is whole before its first byte is written, so its room is what a large one costs. [`make_room`] says how
//! that grows. Each function here leaves room for [`LINE`] bytes besides, so that the few bytes that a line has
//! between its words need no room of their own.
ghost use Rattle.std.specs.Prelude.{◌≡◌, ◌+◌, ◌<◌, ◌≤◌, ◌++◌, ◌∷◌, [], IsOk, OnOk, OnErr, vec_len, vec_capacity};
ghost use Rattle.hex.specs.Hex.{encode_lower};
ghost use Rattle.script_words.specs.Text.{room_of, shown_bytes, spaced, spare_of};

use crate::digits::encode_digits;
use itoa::{Buffer, Integer};
use std::alloc::AllocError;

/// Up to this many bytes are printed one by one.
const FEW: usize = 8;

/// The hexadecimal digits.
const DIGITS: &[u8; 16] = b"0123456789abcdef";

/// More bytes than a line has beside the words that are appended here.
pub const LINE: usize = 64;

/// A text of fewer bytes doubles its room.
const LARGE: usize = 16_777_216;

/// Makes room for so many more bytes. A text that hasn't as much grows to twice what it needs, or from 16 MiB on by a
/// sixteenth: so a large one takes little more than its length, and each of its bytes is moved a few times at most.
///
/// Returns the error if memory runs out; the room is as it was then. The text stays in any case.
#[inline(always)]
pub fn make_room(out: &mut Vec<u8>, more: usize) -> Result<(), AllocError>
    ensures items { out.new.items ≡ out.old.items }
    ensures len { vec_len out.new ≡ vec_len out.old }
    ensures enough { OnOk result (vec_len out.new + more ≤ vec_capacity out.new) }
    ensures had { vec_len out.old + more ≤ vec_capacity out.old → vec_capacity out.new ≡ vec_capacity out.old }
    ensures grown { OnOk result (vec_capacity out.old < vec_len out.old + more → vec_capacity out.new ≡ room_of (vec_len out.old + more)) }
    ensures err { OnErr result (vec_capacity out.new ≡ vec_capacity out.old) }
    ensures capacity { vec_capacity out.old ≤ vec_capacity out.new }
    ensures succeeds { vec_len out.old + more ≤ vec_capacity out.old → IsOk result }
{
    if more <= out.capacity() - out.len() {
        return Ok(());
    }
    grow(out, more)
}

/// Grows a text that hasn't room for so many more bytes. It stands apart, so that the test alone is inlined.
#[cold]
#[inline(never)]
fn grow(out: &mut Vec<u8>, more: usize) -> Result<(), AllocError>
    requires { vec_capacity out.old < vec_len out.old + more }
    ensures items { out.new.items ≡ out.old.items }
    ensures len { vec_len out.new ≡ vec_len out.old }
    ensures grown { OnOk result (vec_capacity out.new ≡ room_of (vec_len out.old + more)) }
    ensures err { OnErr result (vec_capacity out.new ≡ vec_capacity out.old) }
{
    let Some(needed) = out.len().checked_add(more) else {
        return Err(AllocError);
    };
    let Some(added) = more.checked_add(spare_of(needed)) else {
        return Err(AllocError);
    };
    out.reserve_exact(added)
}

/// Returns how much more room than it needs a text gets when it grows.
fn spare_of(needed: usize) -> usize
    ensures { result ≡ spare_of needed }
{
    if needed < LARGE { needed } else { needed / 16 }
}

/// Appends a space and a word. Returns the error if memory runs out; the space may have been appended then.
#[inline(always)]
pub fn push_word(out: &mut Vec<u8>, word: &[u8]) -> Result<(), AllocError>
    ensures { OnOk result (out.new.items ≡ out.old.items ++ spaced (word.now ∷ [])) }
{
    make_room(out, word.len() + LINE)?;
    out.push(b' ')?;
    out.extend_from_slice(word)
}

/// Appends a space and a decimal number. Returns the error if memory runs out; the space may have been
/// appended then.
pub fn push_number<I: Integer>(out: &mut Vec<u8>, number: I) -> Result<(), AllocError>
    ensures { OnOk result (out.new.items ≡ out.old.items ++ spaced (I.text number ∷ [])) }
{
    push_word(out, Buffer::new().format(number).as_bytes())
}

/// Appends a space and the bytes in lower case hexadecimal, or `-` if there are none. Returns the error if
/// memory runs out; a part of the text may have been appended then.
#[inline(always)]
pub fn push_bytes(out: &mut Vec<u8>, bytes: &[u8]) -> Result<(), AllocError>
    ensures { OnOk result (out.new.items ≡ out.old.items ++ spaced (shown_bytes bytes.now ∷ [])) }
{
    if bytes.is_empty() {
        return push_word(out, b"-");
    }
    make_room(out, LINE)?;
    out.push(b' ')?;
    push_hex(out, bytes)
}

/// Appends two digits for each byte, in lower case. A few bytes cost less one by one, as the room for all of
/// them needn't be made first.
#[inline(always)]
fn push_hex(out: &mut Vec<u8>, bytes: &[u8]) -> Result<(), AllocError>
    ensures { OnOk result (out.new.items ≡ out.old.items ++ encode_lower bytes.now) }
{
    if bytes.len() <= FEW {
        push_few_hex(out, bytes)
    } else {
        push_much_hex(out, bytes)
    }
}

/// Appends the digits of a few bytes, one pair after another.
fn push_few_hex(out: &mut Vec<u8>, bytes: &[u8]) -> Result<(), AllocError>
    ensures { OnOk result (out.new.items ≡ out.old.items ++ encode_lower bytes.now) }
{
    for byte in bytes {
        let high = DIGITS[(*byte / 16) as usize];
        let low = DIGITS[(*byte % 16) as usize];
        out.extend_from_slice(&[high, low])?;
    }
    Ok(())
}

/// Appends the digits of more bytes: makes room for all of them first, and then writes them.
fn push_much_hex(out: &mut Vec<u8>, bytes: &[u8]) -> Result<(), AllocError>
    ensures { OnOk result (out.new.items ≡ out.old.items ++ encode_lower bytes.now) }
{
    let start = out.len();
    let Some(room) = bytes.len().checked_mul(2) else {
        return Err(AllocError);
    };
    let Some(more) = room.checked_add(LINE) else {
        return Err(AllocError);
    };
    make_room(out, more)?;
    out.resize(start + room, 0)?;
    encode_digits(bytes, &mut out[start..]);
    Ok(())
}
