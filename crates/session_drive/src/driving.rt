//! A whole call, driven to its end.
ghost use Rattle.std.specs.Prelude.{◌≡◌, ℕ, ◌+◌, ◌*◌, ◌<◌, ◌^◌, List, length, IfOk};
ghost use Rattle.std.specs.Int.{w32};
ghost use Rattle.std.specs.Int.RustNames.{FitsSigned};
ghost use Rattle.vchan_protocol.specs.History.Core.{Core};
ghost use Rattle.service_gate.specs.Triple.{Triple};
ghost use Rattle.service_gate.specs.Owing.{builtin_owes};
ghost use Rattle.qrexec_data.specs.declared.outcome.Outcome.TheVariants.{Done};
ghost use Rattle.session_drive.specs.Sides.{Stands};
ghost use Rattle.session_drive.specs.Driving.{Answers, Begins, Comes, HasCodes, IsNamed, IsSpeech, IsEnd};

use crate::page::MOST_DRAINED;
use crate::sides::Sides;
use qrexec_data::{Caller, CallerParts, Half, Outcome, Serving};
use ring_words::Orders;
use service_gate::Builtin;
use std::alloc::Global;
use vchan_core::{EndState, Plain};
use vchan_io::Memory;

/// How one side of a call speaks.
#[derive(Clone, Copy)]
pub struct Speech {
    /// The version that it announces, 2 or 3.
    pub version: u32,
    /// The most bytes that it puts into one message, 1 to 65,536.
    pub chunk: u32,
}

/// The page on which a call is made.
#[derive(Clone, Copy)]
pub struct CallPage {
    /// The orders of its two rings.
    pub orders: Orders,
    /// Where all its indices begin.
    pub start: u32,
}

/// How a call came out for its caller.
#[derive(Drop)]
pub struct CallEnd {
    /// The exit code.
    pub code: i32,
    /// The whole output.
    pub stdout: Vec<u8>,
    /// The whole error output.
    pub stderr: Vec<u8>,
    /// How many turns both sides made together.
    pub turns: u128,
}

/// Makes a whole call of this service with this input, and returns what its caller read: all that
/// the service gives. With n bytes of input both sides together make fewer than `2 * (499 + 36 n)`
/// turns.
///
/// # Errors
///
/// `Memory` if memory runs out; no other.
pub fn drive(
    alloc: Global,
    stdin: Vec<u8>,
    service: Builtin,
    caller: Speech,
    serving: Speech,
    page: CallPage,
) -> Result<CallEnd, Memory>
    requires named { IsNamed service }
    requires caller { IsSpeech caller }
    requires serving { IsSpeech serving }
    ensures { IfOk result (λ end. Answers (builtin_owes service stdin.items) (length stdin.items) end) }
{
    let most = 499 + 36 * stdin.len() as u128;
    let CallPage { orders, start } = page;
    let said = (orders.left.number(), orders.right.number());
    let mut sides = Sides {
        page: Plain::open(alloc, orders, start, said, EndState::Open)?,
        caller: Caller::new(alloc, stdin, caller.version, caller.chunk)?,
        serving: Serving::new(alloc, service, serving.version, serving.chunk)?,
    };
    let mut buffer = vec![in alloc; 0u8; MOST_DRAINED]?;
    let turns = rounds(&mut sides, buffer.as_mut_slice(), most)?;
    Ok(call_end(sides, turns))
}

/// Turns both sides, one after the other, until the caller knows how the call came out. Returns
/// how many turns they made.
fn rounds(sides: &mut Sides, buffer: &mut [u8], most: u128) -> Result<u128, Memory>
    requires begins { Begins sides.old most }
    requires small { most < 2 ^ 126 }
    requires buffer { length buffer.old ≡ 4096 }
    ensures { (input : List ℕ) (service : Builtin) (core : Core) → HasCodes service → Stands input (builtin_owes service) core sides.old → IfOk result (λ turns. Comes input service sides.new turns most) }
{
    for round in 0..most {
        sides.turn_caller(buffer)?;
        if sides.caller.outcome().is_some() {
            return Ok(2 * round + 1);
        }
        sides.turn_serving(buffer)?;
    }
    unreachable!()
}

/// Returns what a caller that knows it has read.
fn call_end(sides: Sides, turns: u128) -> CallEnd
    requires { (t : Triple) × IsEnd t sides.caller }
    ensures ends { (t : Triple) → FitsSigned w32 t.code → IsEnd t sides.caller → (result.code ≡ t.code) × (result.stdout.items ≡ t.stdout) × (result.stderr.items ≡ t.stderr) }
    ensures turns { result.turns ≡ turns }
{
    let Sides { caller, .. } = sides;
    let Some(outcome) = caller.outcome() else {
        unreachable!()
    };
    let Outcome::Done { code } = outcome else {
        unreachable!()
    };
    let CallerParts { stdout, stderr, .. } = caller.into_parts();
    CallEnd {
        code,
        stdout,
        stderr,
        turns,
    }
}
