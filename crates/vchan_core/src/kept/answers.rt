//! An answer as numbers, and back.
ghost use Rattle.std.specs.Prelude.{◌≡◌};
ghost use Rattle.vchan_core.specs.OneMachine.Keeping.{numbers_of_answer, answer_told, IsShortAnswer};

use vchan_protocol::Answer;

/// An answer as plain numbers.
#[repr(C)]
#[derive(Clone, Copy, Debug, PartialEq, Eq)]
pub struct AnswerNumbers {
    /// Its kind, from 1 to 18 in the order in which [`Answer`] declares them; 0 for none.
    pub number: u8,
    /// Its first part: a count of bytes, an index, an order, or 1 for true; 0 if it has none.
    pub first: u32,
    /// Its second part: an index or an order; 0 if it has none.
    pub second: u32,
}

impl AnswerNumbers {
    pub(crate) const NONE: AnswerNumbers = AnswerNumbers {
        number: 0,
        first: 0,
        second: 0,
    };

    /// Returns the numbers of an answer.
    #[inline(always)]
    pub fn of(answer: Answer) -> AnswerNumbers
        ensures number { result.number ≡ (numbers_of_answer answer).0 }
        ensures first { result.first ≡ (numbers_of_answer answer).1 }
        ensures second { result.second ≡ (numbers_of_answer answer).2 }
        ensures short { IsShortAnswer answer }
    {
        let (number, first, second) = match answer {
            Answer::Wrote { count } => (1, count, 0),
            Answer::Full { prod, cons } => (2, prod, cons),
            Answer::Sent { count } => (3, count, 0),
            Answer::NoRoom { prod, cons } => (4, prod, cons),
            Answer::Got { count } => (5, count, 0),
            Answer::Empty { prod, cons } => (6, prod, cons),
            Answer::Short { prod, cons } => (7, prod, cons),
            Answer::PeerClosed => (8, 0, 0),
            Answer::Ready { count } => (9, count, 0),
            Answer::Space { count } => (10, count, 0),
            Answer::Connected => (11, 0, 0),
            Answer::BadOrders { left, right } => (12, u32::from(left), u32::from(right)),
            Answer::Done => (13, 0, 0),
            Answer::Event { was } => (14, u32::from(was), 0),
            Answer::NotYet { prod, cons } => (15, prod, cons),
            Answer::AllRead => (16, 0, 0),
            Answer::PeerGone { prod, cons } => (17, prod, cons),
            Answer::Gone { is } => (18, u32::from(is), 0),
        };
        AnswerNumbers {
            number,
            first,
            second,
        }
    }

    /// Returns the answer of this kind with these parts, or `None` if there is no such kind. A part that the
    /// kind doesn't have is ignored.
    #[inline(always)]
    pub fn answer(self) -> Option<Answer>
        ensures { result ≡ answer_told self.number self.first self.second }
    {
        let first = self.first;
        let second = self.second;
        Some(match self.number {
            1 => Answer::Wrote { count: first },
            2 => Answer::Full {
                prod: first,
                cons: second,
            },
            3 => Answer::Sent { count: first },
            4 => Answer::NoRoom {
                prod: first,
                cons: second,
            },
            5 => Answer::Got { count: first },
            6 => Answer::Empty {
                prod: first,
                cons: second,
            },
            7 => Answer::Short {
                prod: first,
                cons: second,
            },
            8 => Answer::PeerClosed,
            9 => Answer::Ready { count: first },
            10 => Answer::Space { count: first },
            11 => Answer::Connected,
            12 => Answer::BadOrders {
                left: (first % 65536) as u16,
                right: (second % 65536) as u16,
            },
            13 => Answer::Done,
            14 => Answer::Event { was: first != 0 },
            15 => Answer::NotYet {
                prod: first,
                cons: second,
            },
            16 => Answer::AllRead,
            17 => Answer::PeerGone {
                prod: first,
                cons: second,
            },
            18 => Answer::Gone { is: first != 0 },
            _ => return None,
        })
    }
}
