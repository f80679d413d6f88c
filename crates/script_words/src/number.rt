//! The decimal numbers of scripts, and the generator by which scenarios are made and pages scribbled on.
ghost use Rattle.std.specs.Prelude.{◌≡◌, ◌+◌, ◌*◌, ◌≤◌, ◌^◌, MatchOption};
ghost use Rattle.std.specs.Str.{all_ascii_digits};
ghost use Rattle.script_words.specs.Generator.{next_number};
ghost use Rattle.script_words.specs.Numbers.{is_number, number_of};

/// Returns the number that a word spells, if it is at most `most`. The word is `0`, or decimal
/// digits without a leading zero. Returns `None` if and only if it is no such word or number.
pub fn parse_number(word: &[u8], most: u64) -> Option<u64>
    ensures { result ≡ number_of most word.now }
{
    if word.is_empty() || (word[0] == b'0' && word.len() != 1) {
        return None;
    }
    let mut value: u64 = 0;
    for digit in word {
        if !digit.is_ascii_digit() {
            return None;
        }
        let Some(longer) = longer_by(value, *digit - b'0') else {
            return None;
        };
        if longer > most {
            return None;
        }
        value = longer;
    }
    Some(value)
}

/// Returns the number with one more digit at its end, if it fits in 64 bits.
fn longer_by(value: u64, digit: u8) -> Option<u64>
    ensures { MatchOption result (2 ^ 64 ≤ value * 10 + digit) (λ longer. longer ≡ value * 10 + digit) }
{
    value.checked_mul(10)?.checked_add(u64::from(digit))
}

/// Returns whether a word is decimal digits without a leading zero, or `0`.
pub fn is_number(word: &[u8]) -> bool
    ensures { result ≡ is_number word.now }
{
    are_digits(word) && !word.is_empty() && (word.len() == 1 || word[0] != b'0')
}

/// Returns whether all bytes are decimal digits.
fn are_digits(word: &[u8]) -> bool
    ensures { result ≡ all_ascii_digits word.now }
{
    for digit in word {
        if !digit.is_ascii_digit() {
            return false;
        }
    }
    true
}

/// Returns the number after `x`: one step of the generator, 75 x + 74 modulo 65,537.
pub fn next_number(x: u32) -> u32
    requires { x ≤ 65536 }
    ensures number { result ≡ next_number x }
    ensures within { result ≤ 65536 }
{
    (75 * x + 74) % 65_537
}
