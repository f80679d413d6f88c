//! What the words of a script stand for.
ghost use Rattle.std.specs.Prelude.{◌≡◌, drop, IfSome};
ghost use Rattle.ring_words.specs.declared.page.Role.{Role};
ghost use Rattle.script_words.specs.WordsLeft.{words_left};
ghost use Rattle.step_script.specs.Parts.Forms.{FormFits, VerbFits, found_in};
ghost use Rattle.step_script.specs.Language.Tables.{meaning_first, verb_first, ends, calls_of, common_calls, acts};

use ring_words::Role;
use script_words::WordsOfLine;
use vchan_core::Call;

/// A call as its word names it, which determines the form of the words after it.
#[derive(Clone, Copy)]
pub(crate) enum CallForm {
    /// `write BYTES`.
    Write,
    /// `send BYTES`.
    Send,
    /// `read N`.
    Read,
    /// `recv N`.
    Recv,
    /// `drain N`.
    Drain,
    /// A call with no word after it.
    Bare(Call),
}

/// What an end does that isn't a whole call.
#[derive(Clone, Copy)]
pub(crate) enum Act {
    /// `begin CALL`.
    Begin,
    /// `step N`.
    Step,
    /// `finish`.
    Finish,
    /// `poke WORD VALUE`.
    Poke,
    /// `signal`.
    Signal,
}

/// What an end does, as a word of a script names it.
#[derive(Clone, Copy)]
pub(crate) enum Verb {
    /// It makes a whole call.
    Makes(CallForm),
    /// It does something else.
    Does(Act),
}

/// Returns the end that the first of these words names, and the words after it.
#[inline(always)]
#[tactic(auto, using(crate::proofs::Language::NameLaws::unnamed))]
pub(crate) fn end_in<'a>(words: &WordsOfLine<'a>) -> Option<(Role, WordsOfLine<'a>)>
    ensures { found_in result ≡ meaning_first ends (words_left words.now) }
{
    if let Some(rest) = words.behind(b"client") {
        Some((Role::Client, rest))
    } else if let Some(rest) = words.behind(b"server") {
        Some((Role::Server, rest))
    } else {
        None
    }
}

/// Returns what the first of these words tells this end to do, and the words after it. The
/// commonest words of scripts are looked for first, inlined into the caller.
#[inline(always)]
#[tactic(auto, using(crate::proofs::Language::NameLaws::frequent))]
pub(crate) fn verb_in<'a>(who: Role, words: &WordsOfLine<'a>) -> Option<(Verb, WordsOfLine<'a>)>
    ensures verb { found_in result ≡ verb_first who (words_left words.now) }
    ensures fits { IfSome result (λ found. VerbFits who found.0) }
{
    if let Some(rest) = words.behind(b"write") {
        Some((Verb::Makes(CallForm::Write), rest))
    } else if let Some(rest) = words.behind(b"read") {
        Some((Verb::Makes(CallForm::Read), rest))
    } else if let Some(rest) = words.behind(b"begin") {
        Some((Verb::Does(Act::Begin), rest))
    } else if let Some(rest) = words.behind(b"step") {
        Some((Verb::Does(Act::Step), rest))
    } else if let Some(rest) = words.behind(b"finish") {
        Some((Verb::Does(Act::Finish), rest))
    } else {
        further_verb_in(who, words)
    }
}

/// Does what [`verb_in`] does, by the tables.
#[inline(never)]
fn further_verb_in<'a>(who: Role, words: &WordsOfLine<'a>) -> Option<(Verb, WordsOfLine<'a>)>
    ensures verb { found_in result ≡ verb_first who (words_left words.now) }
    ensures fits { IfSome result (λ found. VerbFits who found.0) }
{
    match call_in(who, words) {
        Some((form, rest)) => Some((Verb::Makes(form), rest)),
        None => match act_in(words) {
            Some((act, rest)) => Some((Verb::Does(act), rest)),
            None => None,
        },
    }
}

/// Returns the call of this end that the first of these words names, and the words after it.
#[inline(always)]
pub(crate) fn call_in<'a>(who: Role, words: &WordsOfLine<'a>) -> Option<(CallForm, WordsOfLine<'a>)>
    ensures form { found_in result ≡ meaning_first (calls_of who) (words_left words.now) }
    ensures fits { IfSome result (λ found. FormFits who found.0) }
{
    match who {
        Role::Server => common_call_in(words),
        Role::Client => client_call_in(words),
    }
}

/// Returns the call of a client that the first of these words names, and the words after it.
#[inline(always)]
#[tactic(auto, using(crate::proofs::Language::NameLaws::past_name))]
fn client_call_in<'a>(words: &WordsOfLine<'a>) -> Option<(CallForm, WordsOfLine<'a>)>
    ensures form { found_in result ≡ meaning_first (calls_of Role.Client) (words_left words.now) }
    ensures fits { IfSome result (λ found. FormFits Role.Client found.0) }
{
    if let Some(rest) = words.behind(b"connect") {
        Some((CallForm::Bare(Call::Connect), rest))
    } else {
        common_call_in(words)
    }
}

/// Returns the call of either end that the first of these words names, and the words after it. The
/// two commonest calls of scripts are looked for first, inlined into the caller.
#[inline(always)]
#[tactic(auto, using(crate::proofs::Language::NameLaws::past_name))]
fn common_call_in<'a>(words: &WordsOfLine<'a>) -> Option<(CallForm, WordsOfLine<'a>)>
    ensures form { found_in result ≡ meaning_first common_calls (words_left words.now) }
    ensures fits { (who : Role) → IfSome result (λ found. FormFits who found.0) }
{
    if let Some(rest) = words.behind(b"write") {
        Some((CallForm::Write, rest))
    } else if let Some(rest) = words.behind(b"read") {
        Some((CallForm::Read, rest))
    } else {
        further_call_in(words)
    }
}

/// Returns the call of either end, except `write` and `read`, that the first of these words names,
/// and the words after it.
#[inline(never)]
#[tactic(auto, using(crate::proofs::Language::NameLaws::unnamed))]
fn further_call_in<'a>(words: &WordsOfLine<'a>) -> Option<(CallForm, WordsOfLine<'a>)>
    ensures form { found_in result ≡ meaning_first (drop 2 common_calls) (words_left words.now) }
    ensures fits { (who : Role) → IfSome result (λ found. FormFits who found.0) }
{
    if let Some(rest) = words.behind(b"send") {
        Some((CallForm::Send, rest))
    } else if let Some(rest) = words.behind(b"recv") {
        Some((CallForm::Recv, rest))
    } else if let Some(rest) = words.behind(b"drain") {
        Some((CallForm::Drain, rest))
    } else if let Some(rest) = words.behind(b"ready") {
        Some((CallForm::Bare(Call::DataReady), rest))
    } else if let Some(rest) = words.behind(b"space") {
        Some((CallForm::Bare(Call::BufferSpace), rest))
    } else if let Some(rest) = words.behind(b"close") {
        Some((CallForm::Bare(Call::Close), rest))
    } else if let Some(rest) = words.behind(b"event") {
        Some((CallForm::Bare(Call::TakeEvent), rest))
    } else if let Some(rest) = words.behind(b"gone") {
        Some((CallForm::Bare(Call::PeerGone), rest))
    } else if let Some(rest) = words.behind(b"retire") {
        Some((CallForm::Bare(Call::Retire), rest))
    } else {
        None
    }
}

/// Returns the act that the first of these words names, and the words after it.
#[tactic(auto, using(crate::proofs::Language::NameLaws::unnamed))]
pub(crate) fn act_in<'a>(words: &WordsOfLine<'a>) -> Option<(Act, WordsOfLine<'a>)>
    ensures { found_in result ≡ meaning_first acts (words_left words.now) }
{
    if let Some(rest) = words.behind(b"begin") {
        Some((Act::Begin, rest))
    } else if let Some(rest) = words.behind(b"step") {
        Some((Act::Step, rest))
    } else if let Some(rest) = words.behind(b"finish") {
        Some((Act::Finish, rest))
    } else if let Some(rest) = words.behind(b"poke") {
        Some((Act::Poke, rest))
    } else if let Some(rest) = words.behind(b"signal") {
        Some((Act::Signal, rest))
    } else {
        None
    }
}
