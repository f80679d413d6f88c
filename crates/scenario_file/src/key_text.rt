//! A key of a file as a path shows it. Whoever wrote the file chose the key: it may hold what drives a
//! terminal or forges a line, and it may be as long as the file.
ghost use Rattle.std.specs.Prelude.{◌≡◌, IfOk, OnOk, string_bytes, ◌++◌, length, ◌-◌, take};
ghost use Rattle.std.specs.Str.{chars};
ghost use Rattle.std.specs.List.{flat_map, list_all};
ghost use Rattle.scenario_file.specs.KeyTexts.{is_plain, is_plain_byte, is_quotable, quoted, shown_char, shown_key, with_rest};

use std::alloc::{AllocError, Global};

/// The greatest number of a key's characters that a path shows.
const MOST_SHOWN: usize = 64;

/// Returns a key as a path shows it: as it is, or in quotes.
pub(crate) fn shown_key(alloc: Global, key: &str) -> Result<String, AllocError>
    ensures { IfOk result (λ text. string_bytes text ≡ shown_key key.now) }
{
    if is_plain(key.as_bytes()) {
        String::from_str(alloc, key)
    } else {
        quoted_key(alloc, key)
    }
}

/// Returns whether a key is shown as it is: it has at most 64 bytes, all of them printable, and none a space.
fn is_plain(key: &[u8]) -> bool
    ensures { result ≡ is_plain key.now }
{
    key.len() <= MOST_SHOWN && are_plain_bytes(key)
}

#[tactic(auto, using(crate::proofs::NameLaws::all_step, crate::proofs::NameLaws::all_over))]
fn are_plain_bytes(key: &[u8]) -> bool
    ensures { result ≡ list_all is_plain_byte key.now }
{
    for byte in key {
        if !is_plain_byte(*byte) {
            return false;
        }
    }
    true
}

fn is_plain_byte(byte: u8) -> bool
    ensures { result ≡ is_plain_byte byte }
{
    0x21 <= byte && byte <= 0x7e
}

/// Returns a key in quotes: its first characters, and behind the quotes how many more there are.
#[tactic(auto, unfolding(crate::specs::KeyTexts::quoted))]
fn quoted_key(alloc: Global, key: &str) -> Result<String, AllocError>
    ensures { IfOk result (λ text. string_bytes text ≡ quoted (chars key.now)) }
{
    let shown = first_shown(alloc, key)?;
    let mut text = format!(in alloc; "\"{shown}\"")?;
    push_rest(&mut text, char_count(key).saturating_sub(MOST_SHOWN))?;
    Ok(text)
}

/// Appends how many characters aren't shown, if there are some.
fn push_rest(text: &mut String, left: usize) -> Result<(), AllocError>
    ensures { OnOk result (string_bytes text.new ≡ with_rest (string_bytes text.old) left) }
{
    if left > 0 {
        write!(text, "+{left}")
    } else {
        Ok(())
    }
}

/// Returns how many characters a key has.
fn char_count(key: &str) -> usize
    ensures { result ≡ length (chars key.now) }
{
    key.chars().count()
}

/// Returns the first characters of a key as quotes show them.
fn first_shown(alloc: Global, key: &str) -> Result<String, AllocError>
    ensures { IfOk result (λ text. string_bytes text ≡ flat_map shown_char (take 64 (chars key.now))) }
{
    let mut shown = String::new(alloc);
    for character in key.chars().take(MOST_SHOWN) {
        push_shown(&mut shown, character)?;
    }
    Ok(shown)
}

/// Appends a character as quotes show it.
fn push_shown(shown: &mut String, character: char) -> Result<(), AllocError>
    ensures { OnOk result (string_bytes shown.new ≡ string_bytes shown.old ++ shown_char character) }
{
    if is_quotable(character) {
        shown.push(character)
    } else {
        let code = u32::from(character);
        write!(shown, "\\u{{{code:x}}}")
    }
}

/// Returns whether quotes show a character as it is.
fn is_quotable(character: char) -> bool
    ensures { result ≡ is_quotable character }
{
    ' ' <= character && character <= '~' && character != '"' && character != '\\'
}
