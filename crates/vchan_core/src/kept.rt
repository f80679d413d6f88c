//! A machine as plain numbers and back, for a caller whose language has no such enums, as C.
ghost use Rattle.std.specs.Prelude.{◌≡◌, IfSome, Some};
ghost use Rattle.vchan_core.specs.declared.machine.Machine.{Machine};
ghost use Rattle.vchan_core.specs.OneMachine.Keeping.{kept_of, IsShort, role_number as role_number_of, state_number as state_number_of, role_told, state_told};

use crate::machine::Machine;
use ring_words::{Order, Orders, Role, check_orders};
use vchan_protocol::EndState;

mod answers;
mod phases;

pub use answers::AnswerNumbers;
use phases::{PhaseNumbers, phase_of};

/// A machine as 32 bytes of plain numbers. Any numbers are a value of this type; [`Kept::machine`] refuses
/// those that stand for no machine.
#[repr(C)]
#[derive(Clone, Copy, Debug, PartialEq, Eq)]
pub struct Kept {
    /// 0 for a server, 1 for a client.
    pub role: u8,
    /// 0 for fresh, 1 for open, 2 for shut.
    pub state: u8,
    /// The order of the ring that the client writes, from 10 to 20.
    pub left_order: u16,
    /// The order of the ring that the server writes, from 10 to 20.
    pub right_order: u16,
    /// Where the end is inside its call; 0 between two calls.
    pub phase: u8,
    /// The kind of the answer that the call will give, if it is known; else 0.
    pub answer: u8,
    /// The end's own count of the ring that it writes, in bytes modulo 2^32.
    pub prod: u32,
    /// The end's own count of the ring that it reads, in bytes modulo 2^32.
    pub cons: u32,
    /// The first part of the phase.
    pub first: u32,
    /// The second part of the phase.
    pub second: u32,
    /// The first part of the answer.
    pub answer_first: u32,
    /// The second part of the answer.
    pub answer_second: u32,
}

/// Returns the role of that number: 0 is a server and 1 a client. Returns `None` for every other number.
#[inline(always)]
pub fn role_of(number: u8) -> Option<Role>
    ensures { result ≡ role_told number }
{
    match number {
        0 => Some(Role::Server),
        1 => Some(Role::Client),
        _ => None,
    }
}

/// Returns the state of that number: 0 is fresh, 1 open and 2 shut. Returns `None` for every other number.
#[inline(always)]
pub fn state_of(number: u8) -> Option<EndState>
    ensures { result ≡ state_told number }
{
    match number {
        0 => Some(EndState::Fresh),
        1 => Some(EndState::Open),
        2 => Some(EndState::Shut),
        _ => None,
    }
}

#[inline(always)]
fn role_number(role: Role) -> u8
    ensures { result ≡ role_number_of role }
{
    match role {
        Role::Server => 0,
        Role::Client => 1,
    }
}

#[inline(always)]
fn state_number(state: EndState) -> u8
    ensures { result ≡ state_number_of state }
{
    match state {
        EndState::Fresh => 0,
        EndState::Open => 1,
        EndState::Shut => 2,
    }
}

impl Machine {
    /// Returns this machine as numbers, which are those of no other machine.
    #[inline(always)]
    pub fn kept(&self) -> Kept
        ensures kept { result ≡ kept_of self.now }
        ensures short { IsShort self.now }
        ensures alone { (other : Machine) → IsShort other → kept_of other ≡ result → other ≡ self.now }
    {
        let at = match self.phase {
            None => PhaseNumbers::NONE,
            Some(phase) => PhaseNumbers::of(phase),
        };
        Kept {
            role: role_number(self.role),
            state: state_number(self.state),
            left_order: self.orders.left.number(),
            right_order: self.orders.right.number(),
            phase: at.number,
            answer: at.answer.number,
            prod: self.prod,
            cons: self.cons,
            first: at.first,
            second: at.second,
            answer_first: at.answer.first,
            answer_second: at.answer.second,
        }
    }
}

impl Kept {
    /// Returns the machine that has these numbers, or `None` if and only if there is none.
    #[inline(always)]
    pub fn machine(&self) -> Option<Machine>
        ensures kept { IfSome result (λ machine. kept_of machine ≡ self.now) }
        ensures again { (machine : Machine) → IsShort machine → kept_of machine ≡ self.now → result ≡ Some machine }
    {
        let machine = self.read()?;
        if machine.kept() == *self {
            return Some(machine);
        }
        None
    }

    /// Returns the machine that these numbers tell; some of them may be those of another machine.
    #[inline(always)]
    fn read(&self) -> Option<Machine>
        ensures again { (machine : Machine) → IsShort machine → kept_of machine ≡ self.now → result ≡ Some machine }
    {
        let answer = AnswerNumbers {
            number: self.answer,
            first: self.answer_first,
            second: self.answer_second,
        };
        let phase = phase_of(self.phase, self.first, self.second, answer.answer())?;
        let role = role_of(self.role)?;
        let Ok(orders) = check_orders(self.left_order, self.right_order) else {
            return None;
        };
        let state = state_of(self.state)?;
        Some(Machine {
            role,
            orders,
            state,
            prod: self.prod,
            cons: self.cons,
            phase,
        })
    }
}
