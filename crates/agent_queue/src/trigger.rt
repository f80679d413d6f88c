//! The trigger of a call.
ghost use Rattle.std.specs.Prelude.{◌≡◌, ◌<◌, ◌^◌, length, IfOk};
ghost use Rattle.qrexec_frame.specs.Messages.{written, IsSpellable};
ghost use Rattle.qrexec_frame.specs.Texts.{HasNoNul, FitsText};
ghost use Rattle.task_duties.specs.Words.{ident_of};
ghost use Rattle.agent_queue.specs.Queue.{trigger_of, FitsTrigger};

use itoa::Buffer;
use qrexec_frame::{Message, Text, TextError};
use scenario_file::CallPlan;
use smallvec::SmallVec;
use std::alloc::Global;
use vchan_io::Memory;

/// The length of a trigger below version 3, in bytes: its header, two names of 32 bytes and a service of 64.
const TRIGGER_LEN: usize = 136;

/// The length of a trigger of version 3 without the bytes of its service: its header, a target of 64 bytes,
/// an ident of 32, and the NUL at the end.
const TRIGGER3_LEN: usize = 105;

/// The bytes with which the ident of a call begins.
pub(crate) const IDENT_FRONT: &[u8] = b"call-";

/// The greatest length of a call's ident: `call-` and the ten digits of a number below 2^32.
const LONGEST_IDENT: usize = 15;

/// Returns the ident by which the call with this number is requested: `call-` and the number.
///
/// # Errors
///
/// `Memory` if memory runs out; no other.
pub fn ident_text(alloc: Global, number: u32) -> Result<Text, Memory>
    ensures is { IfOk result (λ ident. ident ≡ ident_of number) }
    ensures short { IfOk result (λ ident. FitsText 31 ident) }
    ensures number { number < 2 ^ 32 }
{
    let bytes = ident_bytes(alloc, number)?;
    match Text::of(alloc, bytes.as_slice()) {
        Ok(text) => Ok(text),
        Err(TextError::Memory) => Err(Memory),
        Err(TextError::Nul) => unreachable!(),
    }
}

// The bytes of the same ident, which take no memory of their own.
fn ident_bytes(alloc: Global, number: u32) -> Result<SmallVec<u8, LONGEST_IDENT>, Memory>
    ensures is { IfOk result (λ bytes. bytes.items ≡ ident_of number) }
    ensures number { number < 2 ^ 32 }
{
    let mut bytes = SmallVec::new(alloc);
    bytes.extend_from_slice(IDENT_FRONT)?;
    let mut buffer = Buffer::new();
    bytes.extend_from_slice(buffer.format(number).as_bytes())?;
    Ok(bytes)
}

/// Returns the trigger of a call: a `Trigger` below version 3, and a `Trigger3` from then on.
pub(crate) fn trigger_of(alloc: Global, plan: &CallPlan, version: u32) -> Result<Message, Memory>
    requires { FitsTrigger plan.now }
    ensures is { IfOk result (λ message. message ≡ trigger_of version plan.now) }
    ensures spelt { IfOk result (λ message. IsSpellable message) }
{
    let target = plan.to.clone()?;
    let service = plan.service.clone()?;
    let ident = ident_text(alloc, plan.number)?;
    is_text(&target);
    is_text(&service);
    if version < 3 {
        return Ok(Message::Trigger {
            target,
            ident,
            service,
        });
    }
    Ok(Message::Trigger3 {
        target,
        ident,
        service,
    })
}

/// Returns how many bytes the trigger of a call takes on a channel.
pub(crate) fn trigger_len(plan: &CallPlan, version: u32) -> usize
    requires { FitsTrigger plan.now }
    ensures { result ≡ length (written (trigger_of version plan.now)) }
{
    is_u32(plan.number);
    if version >= 3 {
        return TRIGGER3_LEN + plan.service.bytes().len();
    }
    TRIGGER_LEN
}

// For the proof: a `u32` is below 2^32.
fn is_u32(number: u32)
    ensures { number < 2 ^ 32 }
{
    let _number = number;
}

// For the proof: no byte of a text is NUL.
fn is_text(text: &Text)
    ensures { HasNoNul text.now }
{
    let _bytes = text.bytes();
}
