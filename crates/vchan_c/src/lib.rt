//! One end of a channel for a program in C or in Rust: which loads and stores come next, and what a
//! call answers.
//!
//! The end is 32 bytes that the caller owns, which hold only plain numbers. It knows no memory: the
//! caller makes the loads and stores that a [`Step`] tells, on a page that it has mapped, and passes the
//! value that the awaited one took. Which loads and stores these are, in which order, at which places, and
//! what a call answers is as in `vchan_core::Machine`, as `specs/Ends.antt` states.
#![tactic(auto)]

mod numbers;
mod step;
mod stretch;
mod telling;

ghost use Rattle.std.specs.Prelude.{◌≡◌, ◌≢◌, ◌<◌, ◌↔◌, IsTrue, true, false};
ghost use Rattle.ring_words.specs.declared.page.Role.{Role};
ghost use Rattle.vchan_core.specs.OneMachine.Keeping.{kept_of, IsShort, role_number};
ghost use Rattle.vchan_core.specs.OneMachine.Phases.{IsIdle};
ghost use Rattle.vchan_core.specs.declared.machine.Machine.{Machine};
ghost use Rattle.vchan_c.specs.Ends.{AreEndNumbers, IsNoEnd, Made, Begins, Goes, answer_to, live_offset_of, open_number};

use numbers::{call_of, end_of, live_offset, open_of, refusal_number};
pub use step::Step;
use telling::{tell_after, tell_next};
use vchan_core::{Kept, role_of};

/// Makes an end between two calls, with its own two counts, in bytes modulo 2^32: `prod` of the ring
/// that it writes, and `cons` of the one that it reads. The role is 0 for a server and 1 for a
/// client. The state is 0 for a client that hasn't connected, 1 for an open end and 2 for a shut one.
///
/// Returns false, and changes nothing, if the numbers are those of no end: an unknown role or state, a
/// server that isn't connected, or two orders that a page can't have. No number is cut, so that 257 is no role.
#[unsafe(no_mangle)]
pub extern "C" fn vchan_end_init(
    end: &mut Kept,
    role: u32,
    state: u32,
    left_order: u32,
    right_order: u32,
    prod: u32,
    cons: u32,
) -> bool
    ensures made { result ≡ true → Made role state left_order right_order prod cons end.new }
    ensures refused { result ≡ false → end.new ≡ end.old }
    ensures exact { IsTrue result ↔ AreEndNumbers role state left_order right_order }
{
    let Some(machine) = end_of(role, state, left_order, right_order, prod, cons) else {
        return false;
    };
    *end = machine.kept();
    true
}

/// Begins a call, and tells its first step. The length is how many bytes the call may move; a call
/// that moves none ignores it. The calls are 1 write, 2 send, 3 read, 4 recv, 5 drain, 6 data ready,
/// 7 buffer space, 8 connect, 9 close, 10 take the pending signal.
///
/// Returns 0 if the call began. Otherwise it changes nothing, and returns 1 if the end is inside a call, 2
/// if it is shut, 3 if it isn't connected yet, 4 if it is connected already, 5 for a drain of no byte, 6 if
/// there is no such call, and 7 if the 32 bytes are those of no end.
#[unsafe(no_mangle)]
pub extern "C" fn vchan_end_begin(end: &mut Kept, call: u8, len: u32, step: &mut Step) -> u8
    ensures begun { result ≡ 0 → Begins end.old call len end.new step.new }
    ensures refused { result ≢ 0 → (end.new ≡ end.old) × (step.new ≡ step.old) }
    ensures answer { (machine : Machine) → IsShort machine → kept_of machine ≡ end.old → result ≡ answer_to machine call len }
    ensures none { IsNoEnd end.old → result ≡ 7 }
{
    match (end.phase, call) {
        (0, 1) => begin_in::<1, 101>(end, len, step),
        (0, 2) => begin_in::<2, 102>(end, len, step),
        (0, 3) => begin_in::<3, 103>(end, len, step),
        (0, 4) => begin_in::<4, 104>(end, len, step),
        _ => begin_any(end, call, len, step),
    }
}

/// [`vchan_end_begin`] for whatever end and call, as a function that isn't inlined: so no frequent call
/// pays for it.
#[inline(never)]
fn begin_any(end: &mut Kept, call: u8, len: u32, step: &mut Step) -> u8
    ensures begun { result ≡ 0 → Begins end.old call len end.new step.new }
    ensures refused { result ≢ 0 → (end.new ≡ end.old) × (step.new ≡ step.old) }
    ensures answer { (machine : Machine) → IsShort machine → kept_of machine ≡ end.old → result ≡ answer_to machine call len }
    ensures none { IsNoEnd end.old → result ≡ 7 }
{
    let kept = *end;
    begin::<100>(end, kept, call, len, step)
}

/// [`vchan_end_begin`] for an end between two calls and for this call. Each frequent call has a copy of its
/// own, in which the end is read and written back with no case of another call.
#[inline(never)]
fn begin_in<const CALL: u8, const COPY: u8>(end: &mut Kept, len: u32, step: &mut Step) -> u8
    requires { end.old.phase ≡ 0 }
    ensures begun { result ≡ 0 → Begins end.old CALL len end.new step.new }
    ensures refused { result ≢ 0 → (end.new ≡ end.old) × (step.new ≡ step.old) }
    ensures answer { (machine : Machine) → IsShort machine → kept_of machine ≡ end.old → result ≡ answer_to machine CALL len }
    ensures none { IsNoEnd end.old → result ≡ 7 }
{
    let kept = Kept { phase: 0, ..*end };
    begin::<COPY>(end, kept, CALL, len, step)
}

/// [`vchan_end_begin`] for an end that was read. Each number is a copy.
#[inline(always)]
fn begin<const COPY: u8>(end: &mut Kept, kept: Kept, call: u8, len: u32, step: &mut Step) -> u8
    requires { kept ≡ end.old }
    ensures begun { result ≡ 0 → Begins end.old call len end.new step.new }
    ensures refused { result ≢ 0 → (end.new ≡ end.old) × (step.new ≡ step.old) }
    ensures answer { (machine : Machine) → IsShort machine → kept_of machine ≡ end.old → result ≡ answer_to machine call len }
    ensures none { IsNoEnd end.old → result ≡ 7 }
{
    let Some(mut machine) = kept.machine() else {
        return 7;
    };
    let Some(call) = call_of(call, len) else {
        return 6;
    };
    if let Some(refusal) = machine.refusal(call) {
        return refusal_number(refusal);
    }
    machine.begin(call);
    tell_next::<COPY>(end, step, &mut machine);
    0
}

/// Takes the value of what the last step awaits, after the step was carried out, and tells the next step.
/// The value is the word as it was; if nothing is awaited it is ignored. `look` is the value of the word to
/// look at; it is ignored if there is none, or if the awaited value was 0.
///
/// Returns false, and changes nothing, if the 32 bytes are those of no end, or of one that is between two
/// calls.
#[unsafe(no_mangle)]
pub extern "C" fn vchan_end_took(end: &mut Kept, value: u64, look: u64, step: &mut Step) -> bool
    ensures moved { result ≡ true → Goes end.old value look end.new step.new }
    ensures refused { result ≡ false → (end.new ≡ end.old) × (step.new ≡ step.old) }
    ensures accepted { (machine : Machine) → IsShort machine → kept_of machine ≡ end.old → (IsTrue result ↔ ¬ IsIdle machine) }
    ensures none { IsNoEnd end.old → result ≡ false }
{
    match end.phase {
        1 => took_in::<1>(end, value, look, step),
        5 => took_in::<5>(end, value, look, step),
        9 => took_in::<9>(end, value, look, step),
        13 => took_in::<13>(end, value, look, step),
        _ => took_any(end, value, look, step),
    }
}

/// [`vchan_end_took`] for whatever phase, as a function that isn't inlined.
#[inline(never)]
fn took_any(end: &mut Kept, value: u64, look: u64, step: &mut Step) -> bool
    ensures moved { result ≡ true → Goes end.old value look end.new step.new }
    ensures refused { result ≡ false → (end.new ≡ end.old) × (step.new ≡ step.old) }
    ensures accepted { (machine : Machine) → IsShort machine → kept_of machine ≡ end.old → (IsTrue result ↔ ¬ IsIdle machine) }
    ensures none { IsNoEnd end.old → result ≡ false }
{
    let kept = *end;
    took::<0>(end, kept, value, look, step)
}

/// [`vchan_end_took`] for an end in this phase. Each frequent phase has a copy of its own, in which the end
/// is read, moved on and written back with no case of another phase.
#[inline(never)]
fn took_in<const PHASE: u8>(end: &mut Kept, value: u64, look: u64, step: &mut Step) -> bool
    requires { end.old.phase ≡ PHASE }
    ensures moved { result ≡ true → Goes end.old value look end.new step.new }
    ensures refused { result ≡ false → (end.new ≡ end.old) × (step.new ≡ step.old) }
    ensures accepted { (machine : Machine) → IsShort machine → kept_of machine ≡ end.old → (IsTrue result ↔ ¬ IsIdle machine) }
    ensures none { IsNoEnd end.old → result ≡ false }
{
    let kept = Kept {
        phase: PHASE,
        ..*end
    };
    took::<PHASE>(end, kept, value, look, step)
}

/// [`vchan_end_took`] for an end that was read. Each number is a copy.
#[inline(always)]
fn took<const COPY: u8>(end: &mut Kept, kept: Kept, value: u64, look: u64, step: &mut Step) -> bool
    requires { kept ≡ end.old }
    ensures moved { result ≡ true → Goes end.old value look end.new step.new }
    ensures refused { result ≡ false → (end.new ≡ end.old) × (step.new ≡ step.old) }
    ensures accepted { (machine : Machine) → IsShort machine → kept_of machine ≡ end.old → (IsTrue result ↔ ¬ IsIdle machine) }
    ensures none { IsNoEnd end.old → result ≡ false }
{
    let Some(mut machine) = kept.machine() else {
        return false;
    };
    if machine.idle() {
        return false;
    }
    tell_after::<COPY>(end, step, &mut machine, value, look);
    true
}

/// Returns the offset of the byte that tells an end of this role whether its peer is there, in Xen's
/// `struct vchan_interface`. Returns 0 for a number that is no role.
#[unsafe(no_mangle)]
pub extern "C" fn vchan_end_live(role: u8) -> u16
    ensures offset { (known : Role) → role_number known ≡ role → result ≡ live_offset_of known }
    ensures none { 1 < role → result ≡ 0 }
{
    match role_of(role) {
        Some(role) => live_offset(role),
        None => 0,
    }
}

/// Returns what that byte, which took this value, tells of the peer: 0 if it has closed, 1 if it is there, and 2
/// for a server whose client may still come. A server that `persists`, for one client after another, always has a
/// peer. Returns 0 for a number that is no role.
///
/// The source is libxenvchan's `is_open`, which answers the byte as it is: its calls go on at each that isn't 0,
/// and an honest end stores no other than 0, 1 and 2.
#[unsafe(no_mangle)]
pub extern "C" fn vchan_end_is_open(role: u8, persists: bool, live: u8) -> u8
    ensures answer { (known : Role) → role_number known ≡ role → result ≡ open_number known persists live }
    ensures none { 1 < role → result ≡ 0 }
{
    match role_of(role) {
        Some(role) => open_of(role, persists, live),
        None => 0,
    }
}
