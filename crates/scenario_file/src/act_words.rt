//! Reading the acts of a hostile domain.
ghost use Rattle.std.specs.Prelude.{◌≡◌, ◌==◌, ◌<◌, ◌≤◌, ◌∷◌, [], length, position, bytes_eq, codes, option_map, true, false, MatchOption, IfOk, IfSome};
ghost use Rattle.script_words.specs.WordsLeft.{words_left};
ghost use Rattle.scenario_file.specs.Acts.{ActFits, PageFits};
ghost use Rattle.scenario_file.specs.Names.{is_name, is_service};
ghost use Rattle.scenario_file.specs.ActReadings.{AreNotThree, Spells};
ghost use Rattle.scenario_file.specs.declared.acts.Act.{Act};
ghost use Rattle.scenario_file.specs.ActWords.{act_of, act_of_words, alone, any_number, byte_at, byte_named, colon_parts, data_page, name_word, number_from, page_of, poke_from, poke_of, rest_of, say_of, scribble_of, service_word, terminate_of, trigger_from, trigger_of, word_named};

use crate::acts::{Act, ActPage};
use crate::names::{is_name, is_service, text_of};
use crate::spelled::SpelledBytes;
use qrexec_frame::Text;
use ring_words::{Ring, WordName, field_named};
use script_words::{ByteError, WordsOfLine, parse_number, place_in};
use std::alloc::Global;
use vchan_io::Memory;

/// Why a text wasn't read as an act.
#[derive(Clone, Copy)]
pub(crate) enum ActError {
    /// It isn't an act.
    Bad,
    /// Memory ran out for it.
    Memory,
}

impl From<Memory> for ActError {
    ghost use Rattle.scenario_file.specs.declared.act_words.ActError.TheVariants as error;

    ghost from_gives = { λ _ e. e ≡ error.Memory };

    fn from(_refused: Memory) -> ActError {
        ActError::Memory
    }
}

impl From<ByteError> for ActError {
    ghost use Rattle.scenario_file.specs.ActReadings.{act_error_of};

    ghost from_gives = { λ why e. e ≡ act_error_of why };

    fn from(error: ByteError) -> ActError {
        match error {
            ByteError::BadHex => ActError::Bad,
            ByteError::Memory => ActError::Memory,
        }
    }
}

/// Reads a text as an act: words with one space between each two.
pub(crate) fn read_act(alloc: Global, text: &[u8]) -> Result<Act, ActError>
    ensures act { Spells (λ act. act) result (act_of text.now) }
    ensures fits { IfOk result ActFits }
{
    let mut words = WordsOfLine::of(text);
    let Some(verb) = words.next() else {
        return Err(ActError::Bad);
    };
    if verb == b"say".as_slice() {
        read_say(alloc, words)
    } else if verb == b"trigger".as_slice() {
        read_trigger(alloc, words)
    } else if verb == b"poke".as_slice() {
        read_poke(alloc, words)
    } else {
        read_plain(verb, words).ok_or(ActError::Bad)
    }
}

/// Reads an act without texts and bytes, so that no memory can run out for it.
fn read_plain(verb: &[u8], words: WordsOfLine) -> Option<Act>
    requires say { bytes_eq verb.now (codes "say") ≡ false }
    requires trigger { bytes_eq verb.now (codes "trigger") ≡ false }
    requires poke { bytes_eq verb.now (codes "poke") ≡ false }
    ensures act { result ≡ act_of_words (verb.now ∷ words_left words.entry) }
    ensures fits { IfSome result ActFits }
{
    if verb == b"hello".as_slice() {
        read_nothing(words)?;
        Some(Act::Hello)
    } else if verb == b"terminate".as_slice() {
        read_terminate(words)
    } else if verb == b"scribble".as_slice() {
        read_scribble(words)
    } else if verb == b"signal".as_slice() {
        read_nothing(words)?;
        Some(Act::Signal)
    } else if verb == b"rest".as_slice() {
        read_rest(words)
    } else {
        None
    }
}

/// Checks that no word is left.
fn read_nothing(mut words: WordsOfLine) -> Option<()>
    ensures { (act : Act) → option_map (λ x. act) result ≡ alone act (words_left words.entry) }
{
    match words.next() {
        None => Some(()),
        Some(_) => None,
    }
}

/// Reads the bytes of `say BYTES`.
fn read_say(alloc: Global, words: WordsOfLine) -> Result<Act, ActError>
    ensures act { Spells (λ act. act) result (say_of (words_left words.entry)) }
    ensures fits { IfOk result ActFits }
{
    let Some(word) = words.only() else {
        return Err(ActError::Bad);
    };
    let bytes = SpelledBytes::of(alloc, word)?;
    Ok(Act::Say { bytes })
}

/// Reads the words of `trigger TO SERVICE K`.
fn read_trigger(alloc: Global, words: WordsOfLine) -> Result<Act, ActError>
    ensures act { Spells (λ act. act) result (trigger_of (words_left words.entry)) }
    ensures fits { IfOk result ActFits }
{
    match three_words(words) {
        Some((to, service, count)) => trigger_from(alloc, to, service, count),
        None => Err(ActError::Bad),
    }
}

/// Returns the words that are left, if there are three.
fn three_words(mut words: WordsOfLine) -> Option<(&[u8], &[u8], &[u8])>
    ensures { MatchOption result (AreNotThree (words_left words.entry)) (λ three. words_left words.entry ≡ three.0.now ∷ three.1.now ∷ three.2.now ∷ []) }
{
    let first = words.next()?;
    let second = words.next()?;
    let third = words.only()?;
    Some((first, second, third))
}

/// Reads the three words of a trigger.
fn trigger_from(alloc: Global, to: &[u8], service: &[u8], count: &[u8]) -> Result<Act, ActError>
    ensures act { Spells (λ act. act) result (trigger_from to.now service.now count.now) }
    ensures fits { IfOk result ActFits }
{
    let Some(count) = number_from(1, 64, count) else {
        return Err(ActError::Bad);
    };
    Ok(Act::Trigger {
        to: name_word(alloc, to)?,
        service: service_word(alloc, service)?,
        count,
    })
}

/// Reads the words of `terminate DOMAIN PORT`.
fn read_terminate(mut words: WordsOfLine) -> Option<Act>
    ensures act { result ≡ terminate_of (words_left words.entry) }
    ensures fits { IfSome result ActFits }
{
    let domain = words.next()?;
    let port = words.only()?;
    Some(Act::Terminate {
        domain: any_number(domain)?,
        port: any_number(port)?,
    })
}

/// Reads the words of `scribble SEED K`.
fn read_scribble(mut words: WordsOfLine) -> Option<Act>
    ensures act { result ≡ scribble_of (words_left words.entry) }
    ensures fits { IfSome result ActFits }
{
    let seed = words.next()?;
    let count = words.only()?;
    Some(Act::Scribble {
        seed: number_from(0, 65_535, seed)?,
        count: number_from(1, 65_536, count)?,
    })
}

/// Reads the word of `rest K`.
fn read_rest(words: WordsOfLine) -> Option<Act>
    ensures act { result ≡ rest_of (words_left words.entry) }
    ensures fits { IfSome result ActFits }
{
    let word = words.only()?;
    Some(Act::Rest {
        turns: number_from(1, 65_536, word)?,
    })
}

/// Reads the words of `poke PAGE WORD VALUE`.
fn read_poke(alloc: Global, words: WordsOfLine) -> Result<Act, ActError>
    ensures act { Spells (λ act. act) result (poke_of (words_left words.entry)) }
    ensures fits { IfOk result ActFits }
{
    match three_words(words) {
        Some((page, word, value)) => poke_from(alloc, page, word, value),
        None => Err(ActError::Bad),
    }
}

/// Reads the three words of a poke.
fn poke_from(alloc: Global, page: &[u8], word: &[u8], value: &[u8]) -> Result<Act, ActError>
    ensures act { Spells (λ act. act) result (poke_from page.now word.now value.now) }
    ensures fits { IfOk result ActFits }
{
    let Some(word) = word_named(word) else {
        return Err(ActError::Bad);
    };
    let Some(value) = parse_number(value, u64::MAX) else {
        return Err(ActError::Bad);
    };
    let page = page_of(alloc, page)?;
    Ok(Act::Poke { page, word, value })
}

/// Reads a number from `least` to `most`.
fn number_from(least: u32, most: u32, word: &[u8]) -> Option<u32>
    ensures number { result ≡ number_from least most word.now }
    ensures within { IfSome result (λ n. (least ≤ n) × (n ≤ most)) }
{
    let number = parse_number(word, u64::from(most))?;
    if u64::from(least) <= number {
        Some(number as u32)
    } else {
        None
    }
}

/// Reads a number of 32 bits.
fn any_number(word: &[u8]) -> Option<u32>
    ensures { result ≡ any_number word.now }
{
    let number = parse_number(word, u64::from(u32::MAX))?;
    Some(number as u32)
}

/// Reads the name of a domain.
#[tactic(auto, using(crate::proofs::NameLaws::no_nul_in_name))]
fn name_word(alloc: Global, word: &[u8]) -> Result<Text, ActError>
    ensures name { Spells (λ name. name) result (name_word word.now) }
    ensures clean { IfOk result (λ name. is_name name ≡ true) }
{
    if is_name(word) {
        Ok(text_of(alloc, word)?)
    } else {
        Err(ActError::Bad)
    }
}

/// Reads the name of a service.
#[tactic(auto, using(crate::proofs::NameLaws::no_nul_in_service))]
fn service_word(alloc: Global, word: &[u8]) -> Result<Text, ActError>
    ensures service { Spells (λ name. name) result (service_word word.now) }
    ensures clean { IfOk result (λ name. is_service name ≡ true) }
{
    if is_service(word) {
        Ok(text_of(alloc, word)?)
    } else {
        Err(ActError::Bad)
    }
}

/// Reads the name of a page: `control`, or `NAME:PORT`.
fn page_of(alloc: Global, word: &[u8]) -> Result<ActPage, ActError>
    ensures page { Spells (λ page. page) result (page_of word.now) }
    ensures fits { IfOk result PageFits }
{
    if word == b"control".as_slice() {
        Ok(ActPage::Control)
    } else {
        data_page(alloc, word)
    }
}

/// Reads `NAME:PORT`, the name of a data page.
fn data_page(alloc: Global, word: &[u8]) -> Result<ActPage, ActError>
    ensures page { Spells (λ page. page) result (data_page word.now) }
    ensures fits { IfOk result PageFits }
{
    let Some((peer, port)) = colon_parts(word) else {
        return Err(ActError::Bad);
    };
    let Some(port) = any_number(port) else {
        return Err(ActError::Bad);
    };
    let peer = name_word(alloc, peer)?;
    Ok(ActPage::Payload { peer, port })
}

/// Returns what stands before the first colon, and what stands after it.
fn colon_parts(word: &[u8]) -> Option<(&[u8], &[u8])>
    ensures { option_map (λ parts. (parts.0.now, parts.1.now)) result ≡ colon_parts word.now }
{
    match first_colon(word) {
        Some(at) => Some((&word[..at], &word[at + 1..])),
        None => None,
    }
}

/// Returns the place of the first colon.
fn first_colon(word: &[u8]) -> Option<usize>
    ensures place { result ≡ position (λ byte. byte == 58) word.now }
    ensures within { IfSome result (λ at. at < length word.now) }
{
    word.iter().position(|byte| *byte == b':')
}

/// Returns the word of a page that this text names: a header field, or `left[K]` and `right[K]` for
/// a byte of a ring.
fn word_named(word: &[u8]) -> Option<WordName>
    ensures { result ≡ word_named word.now }
{
    if let Some(field) = field_named(word) {
        Some(field)
    } else if let Some(place) = place_in(b"left[", word) {
        byte_at(Ring::Left, place)
    } else if let Some(place) = place_in(b"right[", word) {
        byte_at(Ring::Right, place)
    } else {
        None
    }
}

/// Returns the byte of a ring at the place that this text gives.
fn byte_at(ring: Ring, place: &[u8]) -> Option<WordName>
    ensures { result ≡ byte_at ring place.now }
{
    let at = any_number(place)?;
    Some(WordName::RingByte { ring, at })
}
