//! What the numbers of a C caller stand for.
ghost use Rattle.std.specs.Prelude.{◌≡◌, ◌↔◌, IfSome, IsSome};
ghost use Rattle.vchan_core.specs.OneMachine.Phases.{standing, IsIdle};
ghost use Rattle.vchan_c.specs.Ends.{call_told, number_of_refusal, AreEndNumbers, IsStanding, live_offset_of, open_number};

use crate::step::offset_and_width;
use ring_words::{Role, check_orders};
use vchan_core::words::peer_live;
use vchan_core::{Call, EndState, Machine, Refusal, role_of, state_of};

/// Returns an end between two calls, if the numbers are those of one.
pub(crate) fn end_of(
    role: u32,
    state: u32,
    left_order: u32,
    right_order: u32,
    prod: u32,
    cons: u32,
) -> Option<Machine>
    ensures some { IsSome result ↔ AreEndNumbers role state left_order right_order }
    ensures standing { IfSome result (λ machine. IsStanding role state left_order right_order prod cons (standing machine)) }
    ensures idle { IfSome result (λ machine. IsIdle machine) }
{
    let role = role_of(u8::try_from(role).ok()?)?;
    let state = state_of(u8::try_from(state).ok()?)?;
    let (Ok(left), Ok(right)) = (u16::try_from(left_order), u16::try_from(right_order)) else {
        return None;
    };
    let Ok(orders) = check_orders(left, right) else {
        return None;
    };
    match (role, state) {
        (Role::Server, EndState::Fresh) => None,
        _ => Some(Machine::resumed(role, orders, state, prod, cons)),
    }
}

/// Returns the call of that number, if there is one.
pub(crate) fn call_of(number: u8, len: u32) -> Option<Call>
    ensures { result ≡ call_told number len }
{
    match number {
        1 => Some(Call::Write { len }),
        2 => Some(Call::Send { len }),
        3 => Some(Call::Read { most: len }),
        4 => Some(Call::Recv { len }),
        5 => Some(Call::Drain { most: len }),
        6 => Some(Call::DataReady),
        7 => Some(Call::BufferSpace),
        8 => Some(Call::Connect),
        9 => Some(Call::Close),
        10 => Some(Call::TakeEvent),
        _ => None,
    }
}

/// Returns the number of a refusal.
pub(crate) fn refusal_number(refusal: Refusal) -> u8
    ensures { result ≡ number_of_refusal refusal }
{
    match refusal {
        Refusal::Busy => 1,
        Refusal::Shut => 2,
        Refusal::Unconnected => 3,
        Refusal::Connected => 4,
        Refusal::NoBytes => 5,
    }
}

/// Returns the offset of the live byte of an end's peer.
pub(crate) fn live_offset(role: Role) -> u16
    ensures { result ≡ live_offset_of role }
{
    offset_and_width(peer_live(role)).0
}

/// Returns what the live byte of an end's peer tells.
pub(crate) fn open_of(role: Role, persists: bool, live: u8) -> u8
    ensures { result ≡ open_number role persists live }
{
    match (role, live) {
        (Role::Server, _) if persists => 1,
        (_, 0) => 0,
        (Role::Server, 2) => 2,
        _ => 1,
    }
}
