//! The bytes that an act sends, in their written spelling.
ghost use Rattle.std.specs.Prelude.{◌≡◌, ◌++◌, ◌∷◌, [], ◌≤◌, codes, decimal, true, ◌<◌, IfOk, OnOk, OnErr};
ghost use Rattle.qrexec_frame.specs.Texts.{FitsText};
ghost use Rattle.scenario_file.specs.Acts.{ActFits};
ghost use Rattle.task_duties.specs.Places.{numbers};
ghost use Rattle.task_duties.specs.Hostile.Trail.{numbered_trigger};
ghost use Rattle.hostile_task.specs.Saying.{IsReady};
ghost use Rattle.std.specs.List.{flat_map};

use itoa::Buffer;
use qrexec_frame::{Message, Text, TextError, encode};
use scenario_file::Act;
use std::alloc::Global;
use vchan_io::Memory;

/// The version in the greeting of a hostile domain.
const VERSION: u32 = 3;

/// Makes the bytes that an act sends ready, before its first turn.
///
/// # Errors
///
/// `Memory` if memory runs out, which happens only before the first turn.
pub fn prepare(alloc: Global, act: &Act, turns: u32, spelled: &mut Vec<u8>) -> Result<(), Memory>
    requires fits { ActFits act.now }
    requires ready { 0 < turns → IsReady act.now spelled.old.items }
    ensures ready { OnOk result (IsReady act.now spelled.new.items) }
    ensures first { OnErr result (turns ≡ 0) }
{
    if turns > 0 {
        return Ok(());
    }
    spell(alloc, act, spelled)
}

// Spells out the bytes that an act sends.
fn spell(alloc: Global, act: &Act, spelled: &mut Vec<u8>) -> Result<(), Memory>
    requires { ActFits act.now }
    ensures { OnOk result (IsReady act.now spelled.new.items) }
{
    spelled.clear();
    match act {
        Act::Say { bytes } => bytes.push(spelled),
        Act::Hello => {
            let message = Message::Hello { version: VERSION };
            let encoded = encode(&message, spelled);
            // In a call: dropped here, each kind of message would be an exit of its own in the proof.
            drop(message);
            encoded
        }
        Act::Trigger { to, service, count } => put_triggers(alloc, to, service, *count, spelled),
        Act::Terminate { domain, port } => {
            let message = Message::Terminated {
                domain: *domain,
                port: *port,
            };
            let encoded = encode(&message, spelled);
            drop(message);
            encoded
        }
        _ => Ok(()),
    }
}

// Appends this many triggers, numbered from 1 on.
fn put_triggers(
    alloc: Global,
    to: &Text,
    service: &Text,
    count: u32,
    out: &mut Vec<u8>,
) -> Result<(), Memory>
    requires count { count ≤ 64 }
    requires to { FitsText 63 to.now }
    requires service { FitsText 65439 service.now }
    ensures { OnOk result (out.new.items ≡ out.old.items ++ flat_map (numbered_trigger to.now service.now) (numbers 1 1 count)) }
{
    for said in 0..count {
        put_trigger(alloc, to, service, said + 1, out)?;
    }
    Ok(())
}

// Appends the trigger of a number.
fn put_trigger(
    alloc: Global,
    to: &Text,
    service: &Text,
    number: u32,
    out: &mut Vec<u8>,
) -> Result<(), Memory>
    requires to { FitsText 63 to.now }
    requires service { FitsText 65439 service.now }
    ensures { OnOk result (out.new.items ≡ out.old.items ++ numbered_trigger to.now service.now number) }
{
    let message = Message::Trigger3 {
        target: to.clone()?,
        ident: ident(alloc, number)?,
        service: service.clone()?,
    };
    let encoded = encode(&message, out);
    // In a call, for the same reason as in `spell`.
    drop(message);
    encoded
}

// The ident of a trigger.
fn ident(alloc: Global, number: u32) -> Result<Text, Memory>
    ensures text { IfOk result (λ text. text ≡ codes "h-" ++ decimal number) }
    ensures fits { IfOk result (FitsText 31) }
{
    let mut buffer = Buffer::new();
    let mut bytes = Vec::from_slice(alloc, b"h-")?;
    bytes.extend_from_slice(buffer.format(number).as_bytes())?;
    match Text::of(alloc, &bytes) {
        Ok(text) => Ok(text),
        Err(TextError::Nul) => unreachable!(),
        Err(TextError::Memory) => Err(Memory),
    }
}
