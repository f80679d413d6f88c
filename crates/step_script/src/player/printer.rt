//! The output lines of a script, each appended to the text that was printed before.
ghost use Rattle.std.specs.Prelude.{◌≡◌, ◌≤◌, ◌++◌, ◌∷◌, [], decimal, codes, length, take, OnOk};
ghost use Rattle.step_script.specs.Meaning.Output.{answer_words, answered, flag_word, heads, images, lengths, line_text, refusal_word, refused, ring_word, role_word, taken_word};
ghost use Rattle.step_script.specs.Parts.Players.{got_front};
ghost use Rattle.script_words.specs.Text.{shown_bytes};
ghost use Rattle.vchan_protocol.specs.Lists.ListLaw.{count_got as got_len};
ghost use Rattle.step_script.specs.Parts.Spaced.{with_words};

use crate::player::refusal::LineRefusal;
use itoa::Buffer;
use ring_words::{Ring, Role};
use script_words::text::{LINE, make_room, push_bytes, push_word};
use std::alloc::AllocError;
use vchan_core::{Answer, Call};

/// Appends the line of an answer. The bytes that it tells of stand at the front of `buffer`.
#[tactic(auto, using(crate::proofs::Parts::SpacedLaws::join_spaced), unfolding(crate::specs::Meaning::Output::line_text))]
pub(crate) fn push_answer(
    out: &mut Vec<u8>,
    who: Role,
    call: Call,
    answer: Answer,
    buffer: &[u8],
) -> Result<(), AllocError>
    requires { got_len answer ≤ length buffer.now }
    ensures { OnOk result (out.new.items ≡ out.old.items ++ line_text (answered who call answer (got_front answer buffer.now))) }
{
    push_role(out, who)?;
    push_answer_words(out, call, answer, buffer)?;
    out.push(b'\n')?;
    Ok(())
}

/// Appends the line of an end that couldn't do what its line says.
#[tactic(auto, using(crate::proofs::Parts::SpacedLaws::join_spaced), unfolding(crate::specs::Meaning::Output::line_text))]
pub(crate) fn push_refusal(out: &mut Vec<u8>, who: Role, why: LineRefusal) -> Result<(), AllocError>
    ensures { OnOk result (out.new.items ≡ out.old.items ++ line_text (refused who why)) }
{
    push_role(out, who)?;
    push_word(out, name_of_refusal(why))?;
    out.push(b'\n')?;
    Ok(())
}

/// Appends the line of the first bytes of a page.
#[tactic(auto, using(crate::proofs::Parts::SpacedLaws::join_spaced), unfolding(crate::specs::Meaning::Output::line_text))]
pub(crate) fn push_head(out: &mut Vec<u8>, bytes: &[u8]) -> Result<(), AllocError>
    ensures { OnOk result (out.new.items ≡ out.old.items ++ line_text (heads bytes.now)) }
{
    out.extend_from_slice(b"head")?;
    push_bytes(out, bytes)?;
    out.push(b'\n')?;
    Ok(())
}

/// Appends the line of all bytes of a page.
#[tactic(auto, using(crate::proofs::Parts::SpacedLaws::join_spaced), unfolding(crate::specs::Meaning::Output::line_text))]
pub(crate) fn push_image(out: &mut Vec<u8>, bytes: &[u8]) -> Result<(), AllocError>
    ensures { OnOk result (out.new.items ≡ out.old.items ++ line_text (images bytes.now)) }
{
    out.extend_from_slice(b"image")?;
    push_bytes(out, bytes)?;
    out.push(b'\n')?;
    Ok(())
}

/// Appends the line of how many bytes a ring's writer sent, and its reader got.
#[tactic(auto, using(crate::proofs::Parts::SpacedLaws::join_spaced), unfolding(crate::specs::Meaning::Output::line_text))]
pub(crate) fn push_lengths(
    out: &mut Vec<u8>,
    ring: Ring,
    sent: u64,
    got: u64,
) -> Result<(), AllocError>
    ensures { OnOk result (out.new.items ≡ out.old.items ++ line_text (lengths ring sent got)) }
{
    out.extend_from_slice(name_of_ring(ring))?;
    push_count(out, b"sent", sent)?;
    push_count(out, b"got", got)?;
    out.push(b'\n')?;
    Ok(())
}

/// Appends the words of an answer, each after a space.
fn push_answer_words(
    out: &mut Vec<u8>,
    call: Call,
    answer: Answer,
    buffer: &[u8],
) -> Result<(), AllocError>
    requires { got_len answer ≤ length buffer.now }
    ensures { let words = answer_words call answer (got_front answer buffer.now) in
        OnOk result (out.new.items ≡ with_words out.old.items words) }
{
    match answer {
        Answer::Wrote { count } => {
            out.extend_from_slice(b" wrote")?;
            push_number(out, u64::from(count))
        }
        Answer::Full { prod, cons } => push_pair(out, b"full", prod, cons),
        Answer::Sent { count } => push_count(out, b"sent", u64::from(count)),
        Answer::NoRoom { prod, cons } => push_pair(out, b"noroom", prod, cons),
        Answer::Got { count } => push_taken(out, call, &buffer[..count as usize]),
        Answer::Empty { prod, cons } => push_pair(out, b"empty", prod, cons),
        Answer::Short { prod, cons } => push_pair(out, b"short", prod, cons),
        Answer::PeerClosed => push_word(out, b"peer-closed"),
        Answer::Ready { count } => push_count(out, b"ready", u64::from(count)),
        Answer::Space { count } => push_count(out, b"space", u64::from(count)),
        Answer::Connected => push_word(out, b"connected"),
        Answer::BadOrders { left, right } => {
            push_pair(out, b"badorders", u32::from(left), u32::from(right))
        }
        Answer::Done => push_word(out, b"done"),
        Answer::Event { was } => push_flag(out, b"event", was),
        Answer::NotYet { prod, cons } => push_pair(out, b"notyet", prod, cons),
        Answer::AllRead => push_word(out, b"allread"),
        Answer::PeerGone { prod, cons } => push_pair(out, b"peergone", prod, cons),
        Answer::Gone { is } => push_flag(out, b"gone", is),
    }
}

/// Appends a word and a number.
#[inline(always)]
fn push_count(out: &mut Vec<u8>, word: &[u8], count: u64) -> Result<(), AllocError>
    ensures { OnOk result (out.new.items ≡ with_words out.old.items (word.now ∷ decimal count ∷ [])) }
{
    push_word(out, word)?;
    push_number(out, count)
}

/// Appends a word and two indices.
fn push_pair(out: &mut Vec<u8>, word: &[u8], first: u32, second: u32) -> Result<(), AllocError>
    ensures { let words = word.now ∷ decimal first ∷ decimal second ∷ [] in
        OnOk result (out.new.items ≡ with_words out.old.items words) }
{
    push_count(out, word, u64::from(first))?;
    push_number(out, u64::from(second))
}

/// Appends a word, and 1 or 0.
fn push_flag(out: &mut Vec<u8>, word: &[u8], flag: bool) -> Result<(), AllocError>
    ensures { OnOk result (out.new.items ≡ with_words out.old.items (word.now ∷ flag_word flag ∷ [])) }
{
    push_word(out, word)?;
    push_word(out, if flag { b"1" } else { b"0" })
}

/// Appends the bytes that a call took, after the call's word for them.
fn push_taken(out: &mut Vec<u8>, call: Call, bytes: &[u8]) -> Result<(), AllocError>
    ensures { let words = taken_word call ∷ shown_bytes bytes.now ∷ [] in
        OnOk result (out.new.items ≡ with_words out.old.items words) }
{
    match call {
        Call::Recv { .. } => push_word(out, b"recv")?,
        Call::Drain { .. } => push_word(out, b"more")?,
        _ => out.extend_from_slice(b" read")?,
    }
    push_bytes(out, bytes)
}

/// Appends a number in decimal after a space. One digit, the usual case, needs no buffer.
#[tactic(auto, using(std::proofs::lemmas::Fmt::decimal_digit))]
fn push_number(out: &mut Vec<u8>, number: u64) -> Result<(), AllocError>
    ensures { OnOk result (out.new.items ≡ with_words out.old.items (decimal number ∷ [])) }
{
    if number < 10 {
        return out.extend_from_slice(&[b' ', b'0' + number as u8]);
    }
    push_word(out, Buffer::new().format(number).as_bytes())
}

/// Appends the name of an end, which begins a line, and makes room for more of it. Each name is a piece of its own
/// length, so that a few moves copy it.
#[inline(always)]
fn push_role(out: &mut Vec<u8>, who: Role) -> Result<(), AllocError>
    ensures { OnOk result (out.new.items ≡ out.old.items ++ role_word who) }
{
    make_room(out, LINE)?;
    match who {
        Role::Server => out.extend_from_slice(b"server"),
        Role::Client => out.extend_from_slice(b"client"),
    }
}

fn name_of_ring(ring: Ring) -> &'static [u8]
    ensures { result.now ≡ ring_word ring }
{
    match ring {
        Ring::Left => b"left",
        Ring::Right => b"right",
    }
}

fn name_of_refusal(why: LineRefusal) -> &'static [u8]
    ensures { result.now ≡ refusal_word why }
{
    match why {
        LineRefusal::Turned => b"turned",
        LineRefusal::Idle => b"idle",
        LineRefusal::Shut => b"shut",
        LineRefusal::Unconnected => b"unconnected",
    }
}
