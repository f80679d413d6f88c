//! What a side does on its end of the page: it drains its ring, and writes into the other.
ghost use Rattle.std.specs.Prelude.{◌≡◌, ◌<◌, ◌≤◌, List, length, take};
ghost use Rattle.ring_words.specs.declared.page.Role.{Role};
ghost use Rattle.vchan_protocol.specs.declared.call.EndState.TheVariants.{Open};
ghost use Rattle.vchan_protocol.specs.History.Core.{Core};
ghost use Rattle.vchan_protocol.specs.Table.Calls.{IsAllowed, loaded_most, payload_of};
ghost use Rattle.vchan_core.specs.Page.StandsFor.{machine_of};
ghost use Rattle.vchan_core.specs.OneMachine.Phases.{standing};
ghost use Rattle.session_drive.specs.Page.{Calls, Drains, IsRested, Rests, Writes};

use ring_words::Role;
use std::marker::Brand;
use std::sync::ledger::{Blank, Ledger};
use vchan_core::{Answer, Call, Plain, Steps};

/// How many bytes a drain gets at most, and how long the buffer of a drain is.
pub(crate) const MOST_DRAINED: usize = 4096;

/// Gets what waits for an end, at most `MOST_DRAINED` bytes, and returns how many that are. They
/// are the first of the buffer.
pub(crate) fn drain(page: &mut Plain, who: Role, buffer: &mut [u8]) -> usize
    requires rests { Rests page.old }
    requires buffer { length buffer.old ≡ 4096 }
    ensures within { result ≤ length buffer.new }
    ensures rests { Rests page.new }
    ensures drains { (core : Core) → IsRested core page.old → Drains core who page.new buffer.new result }
{
    let most = MOST_DRAINED as u32;
    match call(page, who, Call::Drain { most }, &[], buffer) {
        Answer::Got { count } => count as usize,
        _ => 0,
    }
}

/// Writes as many of the bytes as there is room for, and returns how many that are.
pub(crate) fn write(page: &mut Plain, who: Role, piece: &[u8]) -> usize
    requires { Rests page.old }
    ensures few { result ≤ length piece.now }
    ensures rests { Rests page.new }
    ensures writes { (core : Core) → IsRested core page.old → Writes core who piece.now page.new result }
{
    let len = piece.len().min(u32::MAX as usize) as u32;
    match call(page, who, Call::Write { len }, piece, &mut []) {
        Answer::Wrote { count } => count as usize,
        _ => 0,
    }
}

/// Makes a whole call that an open end may make.
fn call(page: &mut Plain, who: Role, call: Call, payload: &[u8], buffer: &mut [u8]) -> Answer
    requires rests { Rests page.old }
    requires allowed { IsAllowed who Open call }
    requires payload { payload_of call ≤ length payload.now }
    requires buffer { loaded_most (standing (machine_of page.old who)) call ≤ length buffer.old }
    ensures { (core : Core) → IsRested core page.old → Calls core who call (take (payload_of call) payload.now) buffer.old page.new buffer.new result }
{
    counted::<Brand>(page, who, call, payload, buffer, Blank::new(1))
}

/// Makes a whole call, whose events are counted in the ledger that `blank` opens.
fn counted<L: Ledger>(
    page: &mut Plain,
    who: Role,
    call: Call,
    payload: &[u8],
    buffer: &mut [u8],
    blank: Blank,
) -> Answer
    requires name { blank.name ≡ L.name }
    requires parts { blank.parts ≡ L.parts }
    requires some { 0 < blank.parts }
    requires rests { Rests page.old }
    requires allowed { IsAllowed who Open call }
    requires payload { payload_of call ≤ length payload.now }
    requires buffer { loaded_most (standing (machine_of page.old who)) call ≤ length buffer.old }
    ensures { (core : Core) → IsRested core page.old → Calls core who call (take (payload_of call) payload.now) buffer.old page.new buffer.new result }
{
    page.run_call(who, call, payload, buffer, &mut Steps::<L>::new(blank))
}
