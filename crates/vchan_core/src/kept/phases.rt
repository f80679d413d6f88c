//! A phase as numbers, and back.
ghost use Rattle.std.specs.Prelude.{◌≡◌};
ghost use Rattle.vchan_core.specs.OneMachine.Keeping.{numbers_of_phase, answer_within, numbers_at, answer_at, bit_number as bit_number_of, bit_told, phase_told, phase_at_told, IsShortPhase, IsShortAt};

use super::answers::AnswerNumbers;
use crate::phase::Phase;
use vchan_protocol::{Answer, Bit};

/// A phase as plain numbers: its kind, its parts as they are declared, and its answer.
#[derive(Clone, Copy)]
pub(crate) struct PhaseNumbers {
    pub(crate) number: u8,
    pub(crate) first: u32,
    pub(crate) second: u32,
    pub(crate) answer: AnswerNumbers,
}

#[inline(always)]
fn bit_number(bit: Bit) -> u32
    ensures { result ≡ bit_number_of bit }
{
    match bit {
        Bit::Written => 1,
        Bit::Consumed => 2,
    }
}

#[inline(always)]
fn bit_of(number: u32) -> Option<Bit>
    ensures { result ≡ bit_told number }
{
    match number {
        1 => Some(Bit::Written),
        2 => Some(Bit::Consumed),
        _ => None,
    }
}

impl PhaseNumbers {
    pub(crate) const NONE: PhaseNumbers = PhaseNumbers {
        number: 0,
        first: 0,
        second: 0,
        answer: AnswerNumbers::NONE,
    };

    /// Returns the numbers of a phase.
    #[inline(always)]
    pub(crate) fn of(phase: Phase) -> PhaseNumbers
        ensures numbers { (result.number ≡ (numbers_of_phase phase).0) × (result.first ≡ (numbers_of_phase phase).1) × (result.second ≡ (numbers_of_phase phase).2) }
        ensures answer { (result.answer.number ≡ (answer_within phase).0) × (result.answer.first ≡ (answer_within phase).1) × (result.answer.second ≡ (answer_within phase).2) }
        ensures short { IsShortPhase phase }
    {
        const NONE: AnswerNumbers = AnswerNumbers::NONE;
        let (number, first, second, answer) = match phase {
            Phase::WriteLive { len } => (1, len, 0, NONE),
            Phase::WriteLook { len } => (2, len, 0, NONE),
            Phase::WriteAsk { len } => (3, len, 0, NONE),
            Phase::WriteLookAgain { len } => (4, len, 0, NONE),
            Phase::SendLive { len } => (5, len, 0, NONE),
            Phase::SendLook { len } => (6, len, 0, NONE),
            Phase::SendAsk { len } => (7, len, 0, NONE),
            Phase::SendLookAgain { len } => (8, len, 0, NONE),
            Phase::ReadLook { most } => (9, most, 0, NONE),
            Phase::ReadAsk { most } => (10, most, 0, NONE),
            Phase::ReadLookAgain { most } => (11, most, 0, NONE),
            Phase::ReadLive { prod } => (12, prod, 0, NONE),
            Phase::RecvLook { len } => (13, len, 0, NONE),
            Phase::RecvAsk { len } => (14, len, 0, NONE),
            Phase::RecvLookAgain { len } => (15, len, 0, NONE),
            Phase::RecvLive { prod } => (16, prod, 0, NONE),
            Phase::DrainLook { most } => (17, most, 0, NONE),
            Phase::DrainAsk { most } => (18, most, 0, NONE),
            Phase::DrainSecond { most } => (19, most, 0, NONE),
            Phase::DrainLive { most, prod } => (20, most, prod, NONE),
            Phase::DrainFurther { most } => (21, most, 0, NONE),
            Phase::DrainGone { most, prod } => (22, most, prod, NONE),
            Phase::DrainLast { most } => (23, most, 0, NONE),
            Phase::ReadyAsk => (24, 0, 0, NONE),
            Phase::ReadyLook => (25, 0, 0, NONE),
            Phase::SpaceAsk => (26, 0, 0, NONE),
            Phase::SpaceLook => (27, 0, 0, NONE),
            Phase::ConnectLeft => (28, 0, 0, NONE),
            Phase::ConnectRight { left } => (29, u32::from(left), 0, NONE),
            Phase::ConnectStore => (30, 0, 0, NONE),
            Phase::CloseStore => (31, 0, 0, NONE),
            Phase::TakePending => (32, 0, 0, NONE),
            Phase::LoadGone => (33, 0, 0, NONE),
            Phase::RetireStore => (34, 0, 0, NONE),
            Phase::RetireSignal => (35, 0, 0, NONE),
            Phase::GoneStore => (36, 0, 0, NONE),
            Phase::Put { at, count, answer } => (37, at, count, AnswerNumbers::of(answer)),
            Phase::Take { at, count, answer } => (38, at, count, AnswerNumbers::of(answer)),
            Phase::Notify { bit, answer } => (39, bit_number(bit), 0, AnswerNumbers::of(answer)),
            Phase::Signal { answer } => (40, 0, 0, AnswerNumbers::of(answer)),
        };
        PhaseNumbers {
            number,
            first,
            second,
            answer,
        }
    }
}

/// Returns where a machine with these numbers is, or `None` if there is no such kind. Some of the numbers may
/// be those of another machine.
#[inline(always)]
pub(crate) fn phase_of(
    number: u8,
    first: u32,
    second: u32,
    answer: Option<Answer>,
) -> Option<Option<Phase>>
    ensures { result ≡ phase_at_told number first second answer }
{
    match number {
        0 => Some(None),
        _ => Some(Some(inner_phase_of(number, first, second, answer)?)),
    }
}

#[inline(always)]
fn inner_phase_of(number: u8, first: u32, second: u32, answer: Option<Answer>) -> Option<Phase>
    ensures { result ≡ phase_told number first second answer }
{
    Some(match number {
        1 => Phase::WriteLive { len: first },
        2 => Phase::WriteLook { len: first },
        3 => Phase::WriteAsk { len: first },
        4 => Phase::WriteLookAgain { len: first },
        5 => Phase::SendLive { len: first },
        6 => Phase::SendLook { len: first },
        7 => Phase::SendAsk { len: first },
        8 => Phase::SendLookAgain { len: first },
        9 => Phase::ReadLook { most: first },
        10 => Phase::ReadAsk { most: first },
        11 => Phase::ReadLookAgain { most: first },
        12 => Phase::ReadLive { prod: first },
        13 => Phase::RecvLook { len: first },
        14 => Phase::RecvAsk { len: first },
        15 => Phase::RecvLookAgain { len: first },
        16 => Phase::RecvLive { prod: first },
        17 => Phase::DrainLook { most: first },
        18 => Phase::DrainAsk { most: first },
        19 => Phase::DrainSecond { most: first },
        20 => Phase::DrainLive {
            most: first,
            prod: second,
        },
        21 => Phase::DrainFurther { most: first },
        22 => Phase::DrainGone {
            most: first,
            prod: second,
        },
        23 => Phase::DrainLast { most: first },
        24 => Phase::ReadyAsk,
        25 => Phase::ReadyLook,
        26 => Phase::SpaceAsk,
        27 => Phase::SpaceLook,
        28 => Phase::ConnectLeft,
        29 => Phase::ConnectRight {
            left: (first % 65536) as u16,
        },
        30 => Phase::ConnectStore,
        31 => Phase::CloseStore,
        32 => Phase::TakePending,
        33 => Phase::LoadGone,
        34 => Phase::RetireStore,
        35 => Phase::RetireSignal,
        36 => Phase::GoneStore,
        37 => Phase::Put {
            at: first,
            count: second,
            answer: answer?,
        },
        38 => Phase::Take {
            at: first,
            count: second,
            answer: answer?,
        },
        39 => Phase::Notify {
            bit: bit_of(first)?,
            answer: answer?,
        },
        40 => Phase::Signal { answer: answer? },
        _ => return None,
    })
}
