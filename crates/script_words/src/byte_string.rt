//! Byte strings: words that spell bytes.
ghost use Rattle.std.specs.Prelude.{◌≡◌, ◌≤◌, ◌+◌, ◌*◌, ◌%◌, ◌∷◌, ◌↔◌, [], length, true, false, Some, None, unwrap_or, is_some, if◌then◌else◌, IfOk, IfErr, OnOk, OnErr};
ghost use Rattle.hex.specs.Hex.{hex_digit_value};
ghost use Rattle.script_words.specs.ByteStrings.{byte_string, bytes_of_pairs, repeated, at_most, Gains, IsPushRefusal};

use crate::number::parse_number;
use std::alloc::{AllocError, Global};
use thiserror::Error;

/// The greatest number of times that a byte is repeated.
const MOST_TIMES: u64 = 2_097_152;

/// Stands for the value of a byte that isn't a digit.
const NO_DIGIT: u8 = 16;

/// Why a word gave no bytes.
#[derive(Clone, Copy, Debug, PartialEq, Eq, Error)]
pub enum ByteError {
    /// The word isn't a byte string.
    #[error("bad hex")]
    BadHex,
    /// Memory ran out for its bytes.
    #[error("out of memory")]
    Memory,
}

/// Why the bytes of a word weren't appended.
// It has no parts, so that a result with it is returned without memory, as happens for each line of
// a stream.
#[derive(Clone, Copy, Debug, PartialEq, Eq, Error)]
pub enum PushError {
    /// The word isn't a byte string.
    #[error("bad hex")]
    BadHex,
    /// The word is a byte string, but of more bytes than are allowed.
    #[error("too many bytes")]
    TooManyBytes,
    /// Memory ran out for its bytes.
    #[error("out of memory")]
    Memory,
}

impl From<AllocError> for PushError {
    ghost use Rattle.script_words.specs.declared.byte_string.PushError.TheVariants.{Memory};

    ghost from_gives = { λ _ e. e ≡ Memory };

    fn from(_refused: AllocError) -> PushError {
        PushError::Memory
    }
}

/// Returns the bytes that a byte string spells.
///
/// A byte string is `-` for no bytes; or an even number of hexadecimal digits of either case, at
/// least two; or `HH*N`, the byte HH repeated N times, with N from 1 to 2,097,152 in decimal digits
/// without a leading zero.
///
/// # Errors
///
/// `BadHex` if and only if the word isn't a byte string, however much memory there is; `Memory` if
/// memory runs out.
pub fn bytes_of(alloc: Global, word: &[u8]) -> Result<Vec<u8>, ByteError>
    ensures ok { IfOk result (λ bytes. byte_string word.now ≡ Some bytes.items) }
    ensures bad { (result ≡ Err ByteError.BadHex) ↔ (byte_string word.now ≡ None) }
{
    let mut bytes = Vec::new(alloc);
    match push_bytes_of(&mut bytes, word, usize::MAX) {
        Ok(()) => Ok(bytes),
        Err(PushError::BadHex) => Err(ByteError::BadHex),
        // More than `usize::MAX` bytes never fit in memory.
        Err(PushError::TooManyBytes | PushError::Memory) => Err(ByteError::Memory),
    }
}

/// Appends the bytes of a byte string, as `bytes_of` reads it, to `out`, if there are at most
/// `most`.
///
/// # Errors
///
/// `BadHex` if and only if the word isn't a byte string, and `TooManyBytes` if and only if it is
/// one of more than `most` bytes, however much memory there is; `Memory` if memory runs out. After
/// an error `out` has the bytes that it had.
pub fn push_bytes_of(out: &mut Vec<u8>, word: &[u8], most: usize) -> Result<(), PushError>
    ensures ok { OnOk result (Gains (at_most most (byte_string word.now)) out.old.items out.new.items) }
    ensures within { OnOk result (length out.new.items ≤ length out.old.items + most) }
    ensures bad { IfErr result (λ e. IsPushRefusal e (at_most most (byte_string word.now))) }
    ensures err { OnErr result (out.new.items ≡ out.old.items) }
{
    if let [high, low] = word {
        push_pair(out, *high, *low, most)
    } else if word == b"-".as_slice() {
        Ok(())
    } else if word.len() > 2 && word[2] == b'*' {
        push_repeated(out, word[0], word[1], &word[3..], most)
    } else if word.is_empty() {
        Err(PushError::BadHex)
    } else {
        push_pairs(out, word, most)
    }
}

/// Appends the byte of two digits as often as a number says.
fn push_repeated(
    out: &mut Vec<u8>,
    high: u8,
    low: u8,
    count: &[u8],
    most: usize,
) -> Result<(), PushError>
    ensures ok { OnOk result (Gains (at_most most (repeated high low count.now)) out.old.items out.new.items) }
    ensures bad { IfErr result (λ e. IsPushRefusal e (at_most most (repeated high low count.now))) }
    ensures err { OnErr result (out.new.items ≡ out.old.items) }
{
    let high = digit_value(high);
    let low = digit_value(low);
    if high == NO_DIGIT || low == NO_DIGIT {
        return Err(PushError::BadHex);
    }
    let Some(times) = parse_number(count, MOST_TIMES) else {
        return Err(PushError::BadHex);
    };
    if times == 0 {
        return Err(PushError::BadHex);
    }
    if times > most as u64 {
        return Err(PushError::TooManyBytes);
    }
    out.resize(out.len() + times as usize, high * 16 + low)?;
    Ok(())
}

/// Appends the bytes of pairs of digits.
fn push_pairs(out: &mut Vec<u8>, digits: &[u8], most: usize) -> Result<(), PushError>
    ensures ok { OnOk result (Gains (at_most most (bytes_of_pairs digits.now)) out.old.items out.new.items) }
    ensures bad { IfErr result (λ e. IsPushRefusal e (at_most most (bytes_of_pairs digits.now))) }
    ensures err { OnErr result (out.new.items ≡ out.old.items) }
{
    if digits.len() % 2 != 0 {
        return Err(PushError::BadHex);
    }
    let count = digits.len() / 2;
    if count > most {
        return Err(refusal_of(digits, PushError::TooManyBytes));
    }
    let start = out.len();
    if out.resize(start + count, 0).is_err() {
        return Err(refusal_of(digits, PushError::Memory));
    }
    if put_pairs(digits, &mut out[start..]) {
        Ok(())
    } else {
        out.truncate(start);
        Err(PushError::BadHex)
    }
}

/// Appends the byte of a single pair of digits, without making room for it first. Streams that are
/// captured byte by byte have no other words.
#[inline(always)]
fn push_pair(out: &mut Vec<u8>, high: u8, low: u8, most: usize) -> Result<(), PushError>
    ensures ok { OnOk result (Gains (at_most most (bytes_of_pairs (high ∷ low ∷ []))) out.old.items out.new.items) }
    ensures bad { IfErr result (λ e. IsPushRefusal e (at_most most (bytes_of_pairs (high ∷ low ∷ [])))) }
    ensures err { OnErr result (out.new.items ≡ out.old.items) }
{
    let high = digit_value(high);
    let low = digit_value(low);
    if high == NO_DIGIT || low == NO_DIGIT {
        return Err(PushError::BadHex);
    }
    if most == 0 {
        return Err(PushError::TooManyBytes);
    }
    out.extend_from_slice(&[high * 16 + low])?;
    Ok(())
}

/// Returns why the bytes of these digits weren't appended: `BadHex` if one of them isn't a digit,
/// else `why`.
#[inline(never)]
fn refusal_of(digits: &[u8], why: PushError) -> PushError
    requires { length digits.now % 2 ≡ 0 }
    ensures { result ≡ if is_some (bytes_of_pairs digits.now) then why else PushError.BadHex }
{
    if are_pairs(digits) {
        why
    } else {
        PushError::BadHex
    }
}

/// Returns whether all of these are digits.
fn are_pairs(digits: &[u8]) -> bool
    requires { length digits.now % 2 ≡ 0 }
    ensures { result ≡ is_some (bytes_of_pairs digits.now) }
{
    'pairs: for i in 0..digits.len() / 2 {
        let high = digit_value(digits[2 * i]);
        let low = digit_value(digits[2 * i + 1]);
        if high == NO_DIGIT || low == NO_DIGIT {
            return false;
        }
    }
    true
}

/// Writes the bytes of pairs of digits. Returns false if and only if one of them isn't a digit;
/// what was written has no meaning then.
///
/// It looks at all digits before it answers and doesn't branch on any of them, so that the
/// processor can take several pairs at once.
fn put_pairs(digits: &[u8], out: &mut [u8]) -> bool
    requires { length digits.now ≡ 2 * length out.old }
    ensures ok { result ≡ true → bytes_of_pairs digits.now ≡ Some out.new }
    ensures bad { result ≡ false → bytes_of_pairs digits.now ≡ None }
{
    let mut greatest = 0u8;
    'pairs: for i in 0..out.len() {
        let high = digit_value(digits[2 * i]);
        let low = digit_value(digits[2 * i + 1]);
        greatest = greatest.max(high).max(low);
        out[i] = high.wrapping_mul(16).wrapping_add(low);
    }
    greatest < NO_DIGIT
}

/// Returns the value of a hexadecimal digit of either case, or `NO_DIGIT`.
fn digit_value(digit: u8) -> u8
    ensures { result ≡ unwrap_or (hex_digit_value digit) NO_DIGIT }
{
    match digit {
        b'0'..=b'9' => digit - b'0',
        b'a'..=b'f' => digit - b'a' + 10,
        b'A'..=b'F' => digit - b'A' + 10,
        _ => NO_DIGIT,
    }
}
