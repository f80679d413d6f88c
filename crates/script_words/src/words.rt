//! Cutting a script into lines, a line into words, and a word that names places.
ghost use Rattle.std.specs.Prelude.{◌≡◌, ◌==◌, ◌<◌, ◌∷◌, [], length, false, position, MatchOption, IfNone, IfSome, option_copied};
ghost use Rattle.std.specs.List.{list_any};
ghost use Rattle.script_words.specs.Places.{place_in};
ghost use Rattle.script_words.specs.Words.{lines_of, pieces};

use memchr::memchr;

/// From this many bytes on, the search looks at many bytes at once.
const MANY: usize = 32;

/// Returns the bytes before the first separator, and those after it if there is one.
#[tactic(auto, using(crate::proofs::WordLaws::cut_found, crate::proofs::WordLaws::cut_missing))]
pub fn cut_at(bytes: &[u8], separator: u8) -> (&[u8], Option<&[u8]>)
    ensures pieces { MatchOption result.1 (pieces separator bytes.now ≡ result.0.now ∷ [])
        (λ rest. pieces separator bytes.now ≡ result.0.now ∷ pieces separator rest.now) }
    ensures whole { IfNone result.1 (result.0.now ≡ bytes.now) }
    ensures shorter { IfSome result.1 (λ rest. length rest.now < length bytes.now) }
{
    match find_byte(bytes, separator) {
        Some(end) => (&bytes[..end], Some(&bytes[end + 1..])),
        None => (bytes, None),
    }
}

/// Returns the first line and the bytes after it, or `None` if and only if there are no bytes.
#[tactic(auto, using(crate::proofs::WordLaws::lines_of_cut, crate::proofs::WordLaws::lines_of_uncut))]
pub fn first_line(bytes: &[u8]) -> Option<(&[u8], &[u8])>
    ensures lines { MatchOption result (lines_of bytes.now ≡ [])
        (λ found. lines_of bytes.now ≡ found.0.now ∷ lines_of found.1.now) }
    ensures shorter { IfSome result (λ found. length found.1.now < length bytes.now) }
{
    if bytes.is_empty() {
        return None;
    }
    let (line, rest) = cut_at(bytes, b'\n');
    match rest {
        Some(rest) => Some((line, rest)),
        None => Some((line, &[])),
    }
}

/// Returns the place of the first byte that is `wanted`.
///
/// A search of many bytes at once pays only if there are many; a few are looked at one by one,
/// inlined into the caller.
#[inline(always)]
fn find_byte(bytes: &[u8], wanted: u8) -> Option<usize>
    ensures { result ≡ position (λ byte. byte == wanted) bytes.now }
{
    if bytes.len() < MANY {
        bytes.iter().position(|byte| *byte == wanted)
    } else {
        find_among_many(bytes, wanted)
    }
}

/// Returns the place of the first byte that is `wanted`, by a search of many bytes at once.
#[inline(never)]
#[tactic(auto, using(crate::proofs::WordLaws::first_place))]
fn find_among_many(bytes: &[u8], wanted: u8) -> Option<usize>
    ensures { result ≡ position (λ byte. byte == wanted) bytes.now }
{
    memchr(wanted, bytes)
}

/// The words of a line that haven't been read yet, with one space between each two.
#[derive(Drop)]
pub struct WordsOfLine<'a> {
    rest: Option<&'a [u8]>,
}

impl<'a> WordsOfLine<'a> {
    ghost use Rattle.script_words.specs.Words.{words_of, only};
    ghost use Rattle.script_words.specs.WordsLeft.{IsNotFirst, words_left};

    /// Begins at the first word of a line.
    pub fn of(line: &'a [u8]) -> WordsOfLine<'a>
        ensures { words_left result ≡ words_of line.now }
    {
        WordsOfLine { rest: Some(line) }
    }

    /// Returns the next word, or `None` if and only if none is left; it stays `None` then.
    pub fn next(&mut self) -> Option<&'a [u8]>
        ensures { MatchOption result ((words_left self.old ≡ []) × (words_left self.new ≡ []))
            (λ word. words_left self.old ≡ word.now ∷ words_left self.new) }
    {
        let (word, rest) = cut_at(self.rest?, b' ');
        self.rest = rest;
        Some(word)
    }

    /// Returns the words after the first, if the first is `word`, which has no space. Returns
    /// `None` if and only if the first is another word, or there is none.
    ///
    /// An expected word is found by one comparison, while `next` looks at each byte for the space.
    #[inline(always)]
    #[tactic(auto, using(crate::proofs::FirstWord::other_front, crate::proofs::FirstWord::goes_on, crate::proofs::FirstWord::only_word, crate::proofs::FirstWord::first_word))]
    pub fn behind(&self, word: &[u8]) -> Option<WordsOfLine<'a>>
        requires spaceless { list_any (λ byte. byte == 32) word.now ≡ false }
        ensures { MatchOption result (IsNotFirst word.now (words_left self.now)) (λ rest. words_left self.now ≡ word.now ∷ words_left rest) }
    {
        let behind = self.rest?.strip_prefix(word)?;
        let Some((first, rest)) = behind.split_first() else {
            return Some(WordsOfLine { rest: None });
        };
        if *first == b' ' {
            Some(WordsOfLine { rest: Some(rest) })
        } else {
            None
        }
    }

    /// Returns the word that is left, if it is the only one.
    #[inline(always)]
    #[tactic(auto, using(crate::proofs::WordLaws::only_cut, crate::proofs::WordLaws::only_uncut))]
    pub fn only(self) -> Option<&'a [u8]>
        ensures { option_copied result ≡ only (words_left self.entry) }
    {
        let word = self.rest?;
        match find_byte(word, b' ') {
            None => Some(word),
            Some(_) => None,
        }
    }
}

/// Returns what names the places in a word of the form `NAME[K]`: what stands between this front of the word and a `]` at its end, or `None` if and only if the word
/// lacks either. The front is `NAME[`.
pub fn place_in<'a>(front: &[u8], word: &'a [u8]) -> Option<&'a [u8]>
    ensures { option_copied result ≡ place_in front.now word.now }
{
    word.strip_prefix(front)?.strip_suffix(b"]")
}
