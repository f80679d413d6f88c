//! The words after a verb.
ghost use Rattle.std.specs.Prelude.{◌≡◌, ◌≤◌, [], length, IfOk};
ghost use Rattle.script_words.specs.WordsLeft.{words_left};
ghost use Rattle.vchan_protocol.specs.Honest.RingLaw.{AreBytes};
ghost use Rattle.step_script.specs.Language.Operands.{given, operand_of, alone, number_between, count_of, payload_of};
ghost use Rattle.step_script.specs.Parts.Readings.{Finds, Gives};

use crate::error::{LineError, ScriptKind};
use script_words::{WordsOfLine, parse_number, push_bytes_of};

/// The greatest value that a count of bytes or of events may have.
const MOST_COUNT: u32 = 2_147_483_647;

/// Returns a word that isn't empty.
///
/// # Errors
///
/// A bad line if it is empty.
pub(crate) fn read_given(word: &[u8]) -> Result<&[u8], ScriptKind>
    ensures { Finds (λ word. word.now) result (given word.now) }
{
    if word.is_empty() {
        Err(ScriptKind::BadLine)
    } else {
        Ok(word)
    }
}

/// Returns the only word that is left.
///
/// # Errors
///
/// A bad line if it isn't the only one, or is empty.
#[inline(always)]
pub(crate) fn read_operand<'a>(words: WordsOfLine<'a>) -> Result<&'a [u8], ScriptKind>
    ensures { Finds (λ word. word.now) result (operand_of (words_left words.entry)) }
{
    read_given(words.only().ok_or(ScriptKind::BadLine)?)
}

/// Checks that no word is left.
///
/// # Errors
///
/// A bad line if one is.
pub(crate) fn read_nothing(mut words: WordsOfLine) -> Result<(), ScriptKind>
    ensures { Finds (λ x. x) result (alone tt (words_left words.entry)) }
{
    match words.next() {
        None => Ok(()),
        Some(_) => Err(ScriptKind::BadLine),
    }
}

/// Reads a number from `least` to `most`.
///
/// # Errors
///
/// A bad number if the word is no such number.
pub(crate) fn read_number(word: &[u8], least: u64, most: u64) -> Result<u64, ScriptKind>
    ensures number { Finds (λ number. number) result (number_between least most word.now) }
    ensures within { IfOk result (λ number. (least ≤ number) × (number ≤ most)) }
{
    let number = parse_number(word, most).ok_or(ScriptKind::BadNumber)?;
    if number < least {
        Err(ScriptKind::BadNumber)
    } else {
        Ok(number)
    }
}

/// Reads a count of bytes or of events, from `least` on, from the only word that is left.
///
/// # Errors
///
/// A bad line if it isn't the only word or is empty; a bad number if it is no such number.
#[inline(always)]
pub(crate) fn read_count(words: WordsOfLine, least: u32) -> Result<u32, ScriptKind>
    ensures count { Finds (λ count. count) result (count_of least 2147483647 (words_left words.entry)) }
    ensures within { IfOk result (λ count. least ≤ count) }
{
    let word = read_operand(words)?;
    let count = read_number(word, u64::from(least), u64::from(MOST_COUNT))?;
    Ok(count as u32)
}

/// Appends the bytes of a byte string, the only word that is left, to the empty `payload`, at most
/// `room` of them. Returns how many there are.
///
/// # Errors
///
/// A bad line if it isn't the only word or is empty; bad hex if it isn't a byte string; too many
/// bytes. `Memory` only if it is none of these.
#[inline(always)]
pub(crate) fn read_payload(
    payload: &mut Vec<u8>,
    words: WordsOfLine,
    room: usize,
) -> Result<u32, LineError>
    requires none { payload.old.items ≡ [] }
    requires room { room ≤ 8388608 }
    ensures payload { Gives (λ count. payload.new.items) result (payload_of room (words_left words.entry)) }
    ensures count { IfOk result (λ count. count ≡ length payload.new.items) }
    ensures within { IfOk result (λ count. length payload.new.items ≤ room) }
    ensures bytes { IfOk result (λ count. AreBytes payload.new.items) }
{
    let word = read_operand(words)?;
    push_bytes_of(payload, word, room)?;
    Ok(count_bytes(payload.as_slice()))
}

/// Returns how many bytes there are, of at most 8,388,608.
fn count_bytes(bytes: &[u8]) -> u32
    requires { length bytes.now ≤ 8388608 }
    ensures count { result ≡ length bytes.now }
    ensures bytes { AreBytes bytes.now }
{
    bytes.len() as u32
}
