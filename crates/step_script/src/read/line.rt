//! Reading one line of a script after its opening.
ghost use Rattle.std.specs.Prelude.{◌≡◌, ◌≤◌, ℕ, List, [], length, IfOk};
ghost use Rattle.script_words.specs.Words.{words_of};
ghost use Rattle.script_words.specs.WordsLeft.{words_left};
ghost use Rattle.step_script.specs.Parts.Readings.{Gives};
ghost use Rattle.step_script.specs.Language.Grammar.{call_of, call_of_form, line_of, line_of_act, line_of_end, line_of_page, poke_of};
ghost use Rattle.step_script.specs.Parts.Forms.{FormFits, CallKeeps, LineKeeps, without_payload};
ghost use Rattle.ring_words.specs.declared.order.Orders.{Orders};
ghost use Rattle.ring_words.specs.declared.page.Role.{Role};
ghost use Rattle.step_script.specs.Parts.ScriptLines.{call_with, line_with, payload_len};

use crate::error::{LineError, ScriptKind};
use crate::read::forms::{Act, CallForm, Verb, call_in, end_in, verb_in};
use crate::read::operand::{read_count, read_nothing, read_number, read_operand, read_payload};
use crate::read::poke::read_word_name;
use crate::script::Line;
use ring_words::{Orders, Role};
use script_words::WordsOfLine;
use vchan_core::Call;

/// Reads a line of a script whose page has these orders, with `room` bytes left for its byte
/// strings. Its own byte string goes to `payload`, which stays empty if the line has none.
///
/// # Errors
///
/// A bad line if the language has no such line; then, from the left, a bad number or bad hex if a
/// word is neither; too many bytes. `Memory` only if the line is none of these.
pub(crate) fn read_line(
    payload: &mut Vec<u8>,
    orders: Orders,
    room: usize,
    line: &[u8],
) -> Result<Line, LineError>
    requires { room ≤ 8388608 }
    ensures line { Gives (λ line. line_with line payload.new.items) result (line_of orders room (words_of line.now)) }
    ensures fits { IfOk result (λ line. LineKeeps orders room (line_with line payload.new.items)) }
    ensures len { IfOk result (λ line. payload_len (line_with line payload.new.items) ≡ length payload.new.items) }
{
    payload.clear();
    let words = WordsOfLine::of(line);
    match end_in(&words) {
        Some((who, words)) => read_end_line(payload, orders, room, who, words),
        None => read_page_line(words),
    }
}

/// Reads `head` or `image`.
#[tactic(auto, using(crate::proofs::Language::NameLaws::unnamed))]
#[inline(never)]
fn read_page_line(words: WordsOfLine) -> Result<Line, LineError>
    ensures line { (payload : List ℕ) → Gives (λ line. line_with line payload) result (line_of_page (words_left words.entry)) }
    ensures fits { (payload : List ℕ) (orders : Orders) (room : ℕ) → IfOk result (λ line. LineKeeps orders room (line_with line payload)) }
    ensures len { (payload : List ℕ) → IfOk result (λ line. payload_len (line_with line payload) ≡ 0) }
{
    if let Some(words) = words.behind(b"head") {
        read_nothing(words)?;
        Ok(Line::Head)
    } else if let Some(words) = words.behind(b"image") {
        read_nothing(words)?;
        Ok(Line::Image)
    } else {
        Err(LineError::Bad(ScriptKind::BadLine))
    }
}

/// Reads what an end does.
#[inline(always)]
fn read_end_line(
    payload: &mut Vec<u8>,
    orders: Orders,
    room: usize,
    who: Role,
    words: WordsOfLine,
) -> Result<Line, LineError>
    requires none { payload.old.items ≡ [] }
    requires room { room ≤ 8388608 }
    ensures line { Gives (λ line. line_with line payload.new.items) result (line_of_end orders room who (words_left words.entry)) }
    ensures fits { IfOk result (λ line. LineKeeps orders room (line_with line payload.new.items)) }
    ensures len { IfOk result (λ line. payload_len (line_with line payload.new.items) ≡ length payload.new.items) }
{
    let Some((verb, words)) = verb_in(who, &words) else {
        return Err(LineError::Bad(ScriptKind::BadLine));
    };
    match verb {
        Verb::Makes(form) => {
            let call = read_call_of_form(payload, room, form, words)?;
            Ok(Line::Call { who, call })
        }
        Verb::Does(act) => read_line_of_act(payload, orders, room, who, act, words),
    }
}

/// Reads the words after an act's word.
#[inline(always)]
fn read_line_of_act(
    payload: &mut Vec<u8>,
    orders: Orders,
    room: usize,
    who: Role,
    act: Act,
    words: WordsOfLine,
) -> Result<Line, LineError>
    requires none { payload.old.items ≡ [] }
    requires room { room ≤ 8388608 }
    ensures line { Gives (λ line. line_with line payload.new.items) result (line_of_act orders room who act (words_left words.entry)) }
    ensures fits { IfOk result (λ line. LineKeeps orders room (line_with line payload.new.items)) }
    ensures len { IfOk result (λ line. payload_len (line_with line payload.new.items) ≡ length payload.new.items) }
{
    match act {
        Act::Begin => {
            let call = read_call(payload, room, who, words)?;
            Ok(Line::Begin { who, call })
        }
        Act::Step => {
            let most = read_count(words, 1)?;
            Ok(Line::Step { who, most })
        }
        Act::Finish => {
            read_nothing(words)?;
            Ok(Line::Finish { who })
        }
        Act::Poke => read_poke(orders, who, words),
        Act::Signal => {
            read_nothing(words)?;
            Ok(Line::Signal { who })
        }
    }
}

/// Reads the words `WORD VALUE` of a poke.
#[inline(never)]
fn read_poke(orders: Orders, who: Role, mut words: WordsOfLine) -> Result<Line, LineError>
    ensures line { (payload : List ℕ) → Gives (λ line. line_with line payload) result (poke_of orders who (words_left words.entry)) }
    ensures fits { (payload : List ℕ) (room : ℕ) → IfOk result (λ line. LineKeeps orders room (line_with line payload)) }
    ensures len { (payload : List ℕ) → IfOk result (λ line. payload_len (line_with line payload) ≡ 0) }
{
    let name = words.next().ok_or(ScriptKind::BadLine)?;
    let value = read_operand(words)?;
    let word = read_word_name(orders, name)?;
    let value = read_number(value, 0, u64::MAX)?;
    Ok(Line::Poke { who, word, value })
}

/// Reads a call of an end: its word, and the words after it.
fn read_call(
    payload: &mut Vec<u8>,
    room: usize,
    who: Role,
    words: WordsOfLine,
) -> Result<Call, LineError>
    requires none { payload.old.items ≡ [] }
    requires room { room ≤ 8388608 }
    ensures call { Gives (λ call. call_with call payload.new.items) result (call_of room who (words_left words.entry)) }
    ensures fits { IfOk result (λ call. CallKeeps room who (call_with call payload.new.items)) }
{
    match call_in(who, &words) {
        Some((form, words)) => read_call_of_form(payload, room, form, words),
        None => Err(LineError::Bad(ScriptKind::BadLine)),
    }
}

/// Reads the words after a call's word.
#[inline(always)]
fn read_call_of_form(
    payload: &mut Vec<u8>,
    room: usize,
    form: CallForm,
    words: WordsOfLine,
) -> Result<Call, LineError>
    requires none { payload.old.items ≡ [] }
    requires room { room ≤ 8388608 }
    ensures call { Gives (λ call. call_with call payload.new.items) result (call_of_form room form (words_left words.entry)) }
    ensures fits { (who : Role) → FormFits who form → IfOk result (λ call. CallKeeps room who (call_with call payload.new.items)) }
{
    match form {
        CallForm::Write => {
            let len = read_payload(payload, words, room)?;
            Ok(Call::Write { len })
        }
        CallForm::Send => {
            let len = read_payload(payload, words, room)?;
            Ok(Call::Send { len })
        }
        CallForm::Read => {
            let most = read_count(words, 0)?;
            Ok(Call::Read { most })
        }
        CallForm::Recv => {
            let len = read_count(words, 0)?;
            Ok(Call::Recv { len })
        }
        CallForm::Drain => {
            let most = read_count(words, 1)?;
            Ok(Call::Drain { most })
        }
        CallForm::Bare(call) => {
            read_nothing(words)?;
            Ok(call)
        }
    }
}
