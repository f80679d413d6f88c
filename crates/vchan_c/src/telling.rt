//! What an end does next, told as a step.
//!
//! Each kind of bytes, and each kind of what comes last, has a copy of the code that fills the step, in which
//! every other field is known. The copies differ in numbers: those of one number would be one function again,
//! which is called.
ghost use Rattle.std.specs.Prelude.{◌≡◌};
ghost use Rattle.vchan_core.specs.declared.machine.Machine.{Machine};
ghost use Rattle.vchan_core.specs.OneMachine.Keeping.{IsShort};
ghost use Rattle.vchan_core.specs.OneMachine.Phases.{standing, rest, IsIdle, payload_needed, buffer_needed};
ghost use Rattle.vchan_c.specs.Stretches.{HasPassed, plan_behind};
ghost use Rattle.vchan_c.specs.Steps.{step_of};
ghost use Rattle.vchan_c.specs.Ends.{IsKept, Tells};

use crate::step::Step;
use crate::stretch::{Last, Moves, Stretch, after_bytes, answered, pass_awaited, pass_bytes};
use vchan_core::{Kept, Machine};

/// Tells what comes after the awaited event, which took this value, and the look after that.
#[inline(always)]
pub(crate) fn tell_after<const COPY: u8>(
    end: &mut Kept,
    step: &mut Step,
    machine: &mut Machine,
    value: u64,
    look: u64,
)
    requires { ¬ IsIdle machine.old }
    ensures { Tells (plan_behind machine.old value look) (standing machine.old) (payload_needed machine.old) (buffer_needed machine.old) end.new step.new }
{
    match pass_awaited(machine, value, look) {
        Some(answer) => tell::<COPY, 3>(end, step, machine, answered(answer)),
        None => tell_next::<COPY>(end, step, machine),
    }
}

/// Tells the events that come next; the end goes past those whose values are known.
#[inline(always)]
pub(crate) fn tell_next<const COPY: u8>(end: &mut Kept, step: &mut Step, machine: &mut Machine)
    requires { ¬ IsIdle machine.old }
    ensures { Tells (rest machine.old) (standing machine.old) (payload_needed machine.old) (buffer_needed machine.old) end.new step.new }
{
    let moves = pass_bytes(machine);
    match moves {
        Moves::Nothing => tell_behind::<COPY, 0>(end, step, machine, moves),
        Moves::Puts(_) => tell_behind::<COPY, 1>(end, step, machine, moves),
        Moves::Takes(_) => tell_behind::<COPY, 2>(end, step, machine, moves),
    }
}

/// Tells these bytes, which the end has passed, with what comes after them.
#[inline(always)]
fn tell_behind<const COPY: u8, const MOVES: u8>(
    end: &mut Kept,
    step: &mut Step,
    machine: &mut Machine,
    moves: Moves,
)
    requires { ¬ IsIdle machine.old }
    ensures { (before : Machine) → HasPassed before moves machine.old
        → Tells (rest before) (standing before) (payload_needed before) (buffer_needed before) end.new step.new }
{
    let stretch = after_bytes::<COPY, MOVES>(machine, moves);
    tell::<COPY, MOVES>(end, step, machine, stretch);
}

/// Tells a stretch, which leaves this machine.
#[inline(always)]
fn tell<const COPY: u8, const MOVES: u8>(
    end: &mut Kept,
    step: &mut Step,
    machine: &Machine,
    stretch: Stretch,
)
    ensures step { step.new ≡ step_of stretch }
    ensures kept { IsKept end.new machine.now }
    ensures short { IsShort machine.now }
{
    match stretch.last {
        Last::Notify(_) => tell_as::<0>(end, step, machine, stretch),
        Last::Event { .. } => tell_as::<1>(end, step, machine, stretch),
        Last::Answer(_) | Last::Further => tell_as::<2>(end, step, machine, stretch),
    }
}

#[inline(always)]
fn tell_as<const COPY: u8>(end: &mut Kept, step: &mut Step, machine: &Machine, stretch: Stretch)
    ensures step { step.new ≡ step_of stretch }
    ensures kept { IsKept end.new machine.now }
    ensures short { IsShort machine.now }
{
    // The end first: the compiler then leaves out the fields that it holds already.
    *end = machine.kept();
    *step = Step::of(stretch);
}
