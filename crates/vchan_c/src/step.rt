//! A step as plain numbers.
ghost use Rattle.std.specs.Prelude.{◌≡◌};
ghost use Rattle.vchan_core.specs.OneMachine.Keeping.{numbers_of_answer};
ghost use Rattle.vchan_c.specs.Steps.{offset_of, width_of, AreXenFields, ring_number as ring_number_of, moves_number, bytes_in, store_offset, store_width, store_value, numbers_of_event, numbers_of_answered, numbers_of_last, look_offset, look_width, answer_in, step_of};

use crate::stretch::{Bytes, Last, Moves, Stored, Stretch};
use ring_words::{Ring, Role, WordName};
use vchan_core::words::{ask_word, mask};
use vchan_core::{Answer, AnswerNumbers, Bit, Op};

/// What a caller does next, in this order: it moves bytes, stores a number, signals its peer, and
/// then makes the event whose value is awaited, or has the answer of its call. If there is a word to look
/// at, it is loaded after the awaited one, unless that one was 0. A notify clears the bits in its word, at
/// once, and signals the peer if the word had them. An announcement sets the bits in its word, at once,
/// and then signals the peer: so ends a connect, as in libxenvchan's client init.
///
/// A word is given by its offset in Xen's `struct vchan_interface` and its width in bytes. A word that
/// Xen's page doesn't have has the width 0: nothing is done there, and a load or a swap takes what the
/// caller knows, such as whether a signal is pending, or 0.
#[repr(C)]
#[derive(Clone, Copy, Debug, PartialEq, Eq)]
pub struct Step {
    /// What is awaited: 0 nothing, and the answer is in this step; 1 a load; 2 an or; 3 nothing, the answer is
    /// in this step, and the call ends with a notify; 4 a swap; 5 nothing, and the call goes on; 6 nothing, the answer
    /// is in this step, and the call ends with an announcement.
    pub kind: u8,
    /// The width of the awaited word, or of the notify's or the announcement's, in bytes.
    pub width: u8,
    /// The offset of that word.
    pub offset: u16,
    /// Whether bytes are moved: 0 no, 1 they are stored, 2 they are loaded.
    pub moves: u8,
    /// The ring that they lie in: 0 left, 1 right.
    pub ring: u8,
    /// The width of the word to store in, in bytes; 0 if nothing is stored.
    pub store_width: u8,
    /// 1 if the peer is to be signalled, else 0.
    pub signals: u8,
    /// The offset of the word to store in.
    pub store_offset: u16,
    /// The kind of the answer, from 1 to 18 in the order of [`vchan_core::Answer`].
    pub answer: u8,
    /// The width of the word to look at, in bytes; 0 if there is none.
    pub look_width: u8,
    /// The place in the ring of the first byte.
    pub place: u32,
    /// The number of the first byte in the caller's payload or buffer.
    pub at: u32,
    /// How many bytes lie from that place on.
    pub first: u32,
    /// How many bytes lie from the ring's front on; they come after the first ones.
    pub second: u32,
    /// The first part of the answer, such as how many bytes were moved.
    pub answer_first: u32,
    /// The second part of the answer.
    pub answer_second: u32,
    /// The offset of the word to look at.
    pub look_offset: u16,
    /// Always 0.
    pub spare: u16,
    /// The number to store.
    pub stored: u64,
    /// The bits of an or, those that a notify clears or an announcement sets, or what a swap stores.
    pub bits: u64,
}

/// Returns where a word lies in the page, and how wide it is there.
#[inline(always)]
pub(crate) fn offset_and_width(word: WordName) -> (u16, u8)
    ensures offset { result.0 ≡ offset_of word }
    ensures width { result.1 ≡ width_of word }
    ensures fields { AreXenFields }
{
    match word {
        WordName::LeftCons => (0, 4),
        WordName::LeftProd => (4, 4),
        WordName::RightCons => (8, 4),
        WordName::RightProd => (12, 4),
        WordName::LeftOrder => (16, 2),
        WordName::RightOrder => (18, 2),
        WordName::CliLive => (20, 1),
        WordName::SrvLive => (21, 1),
        WordName::CliNotify => (22, 1),
        WordName::SrvNotify => (23, 1),
        WordName::SrvPending
        | WordName::CliPending
        | WordName::SrvGone
        | WordName::CliGone
        | WordName::RingByte { .. } => (0, 0),
    }
}

#[inline(always)]
fn ring_number(ring: Ring) -> u8
    ensures { result ≡ ring_number_of ring }
{
    match ring {
        Ring::Left => 0,
        Ring::Right => 1,
    }
}

/// Returns whether bytes are moved, and which.
#[inline(always)]
fn moved(moves: Moves) -> (u8, Bytes)
    ensures number { result.0 ≡ moves_number moves }
    ensures bytes { result.1 ≡ bytes_in moves }
{
    match moves {
        Moves::Nothing => (
            0,
            Bytes {
                ring: Ring::Left,
                place: 0,
                at: 0,
                first: 0,
                second: 0,
            },
        ),
        Moves::Puts(bytes) => (1, bytes),
        Moves::Takes(bytes) => (2, bytes),
    }
}

/// Returns a store: the offset and the width of its word, and its number.
#[inline(always)]
fn stored(store: &Option<Stored>) -> (u16, u8, u64)
    ensures offset { result.0 ≡ store_offset store.now }
    ensures width { result.1 ≡ store_width store.now }
    ensures value { result.2 ≡ store_value store.now }
{
    match store {
        None => (0, 0, 0),
        Some(store) => {
            let (offset, width) = offset_and_width(store.word);
            (offset, width, store.value)
        }
    }
}

/// What is awaited, the notify or the announcement: its kind, the offset and the width of its word, and its number.
#[derive(Clone, Copy)]
struct Awaited {
    kind: u8,
    offset: u16,
    width: u8,
    bits: u64,
}

impl Awaited {
    const NOTHING: Awaited = Awaited {
        kind: 0,
        offset: 0,
        width: 0,
        bits: 0,
    };

    const FURTHER: Awaited = Awaited {
        kind: 5,
        offset: 0,
        width: 0,
        bits: 0,
    };

    #[inline(always)]
    fn at(kind: u8, word: WordName, bits: u64) -> Awaited
        ensures { result ≡ record { kind = kind; offset = offset_of word; width = width_of word; bits = bits } }
    {
        let (offset, width) = offset_and_width(word);
        Awaited {
            kind,
            offset,
            width,
            bits,
        }
    }

    /// Returns what comes with an answer: of a connect the announcement.
    #[inline(always)]
    fn with(answer: Answer) -> Awaited
        ensures kind { result.kind ≡ (numbers_of_answered answer).0 }
        ensures offset { result.offset ≡ (numbers_of_answered answer).1 }
        ensures width { result.width ≡ (numbers_of_answered answer).2 }
        ensures bits { result.bits ≡ (numbers_of_answered answer).3 }
    {
        match answer {
            Answer::Connected => Awaited::at(6, ask_word(Role::Client), mask(Bit::Written)),
            _ => Awaited::NOTHING,
        }
    }

    #[inline(always)]
    fn of(op: Op) -> Awaited
        ensures kind { result.kind ≡ (numbers_of_event op).0 }
        ensures offset { result.offset ≡ (numbers_of_event op).1 }
        ensures width { result.width ≡ (numbers_of_event op).2 }
        ensures bits { result.bits ≡ (numbers_of_event op).3 }
    {
        match op {
            Op::Load { word } => Awaited::at(1, word, 0),
            Op::Or { word, bits } => Awaited::at(2, word, bits),
            Op::Swap { word, value } => Awaited::at(4, word, value),
            Op::LoadByte { .. }
            | Op::Store { .. }
            | Op::StoreByte { .. }
            | Op::And { .. }
            | Op::Nothing => Awaited::FURTHER,
        }
    }
}

/// Returns the offset and the width of the word to look at.
#[inline(always)]
fn looked(last: Last) -> (u16, u8)
    ensures offset { result.0 ≡ look_offset last }
    ensures width { result.1 ≡ look_width last }
{
    match last {
        Last::Event {
            look: Some(word),
            ..
        } => offset_and_width(word),
        _ => (0, 0),
    }
}

/// Returns what comes after a stretch: what is awaited, the notify or the announcement, and the answer.
#[inline(always)]
fn ended(last: Last) -> (Awaited, AnswerNumbers)
    ensures kind { result.0.kind ≡ (numbers_of_last last).0 }
    ensures offset { result.0.offset ≡ (numbers_of_last last).1 }
    ensures width { result.0.width ≡ (numbers_of_last last).2 }
    ensures bits { result.0.bits ≡ (numbers_of_last last).3 }
    ensures answer { (result.1.number ≡ (answer_in last).0) × (result.1.first ≡ (answer_in last).1) × (result.1.second ≡ (answer_in last).2) }
{
    const NONE: AnswerNumbers = AnswerNumbers {
        number: 0,
        first: 0,
        second: 0,
    };
    match last {
        Last::Answer(answer) => (Awaited::with(answer), AnswerNumbers::of(answer)),
        Last::Event { op, .. } => (Awaited::of(op), NONE),
        Last::Notify(last) => (
            Awaited::at(3, last.word, mask(last.bit)),
            AnswerNumbers::of(last.answer),
        ),
        Last::Further => (Awaited::FURTHER, NONE),
    }
}

impl Step {
    /// Returns a stretch of events as numbers.
    #[inline(always)]
    pub(crate) fn of(stretch: Stretch) -> Step
        ensures { result ≡ step_of stretch }
    {
        let (moves, bytes) = moved(stretch.moves);
        let (store_offset, store_width, value) = stored(&stretch.store);
        let (awaited, answer) = ended(stretch.last);
        let (look_offset, look_width) = looked(stretch.last);
        Step {
            kind: awaited.kind,
            width: awaited.width,
            offset: awaited.offset,
            moves,
            ring: ring_number(bytes.ring),
            store_width,
            signals: u8::from(stretch.signals),
            store_offset,
            answer: answer.number,
            look_width,
            place: bytes.place,
            at: bytes.at,
            first: bytes.first,
            second: bytes.second,
            answer_first: answer.first,
            answer_second: answer.second,
            look_offset,
            spare: 0,
            stored: value,
            bits: awaited.bits,
        }
    }
}
