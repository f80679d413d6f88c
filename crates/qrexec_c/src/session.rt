//! One side of a call, as plain numbers: which message may come next and which may go, on a data channel.
ghost use Rattle.std.specs.Prelude.{◌⊎◌, ◌≡◌, ◌≢◌, ◌↔◌, ◌≤◌, ◌&&◌, ℕ, List, [], ◌∷◌, ◌++◌, None, true, false};
ghost use Rattle.qrexec_frame.specs.declared.message.Message.{Message};
ghost use Rattle.qrexec_frame.specs.Kinds.{number_of};
ghost use Rattle.qrexec_frame.specs.Messages.{kind_of};
ghost use Rattle.qrexec_frame.specs.Streams.{Placed};
ghost use Rattle.qrexec_data.specs.Sending.{most};
ghost use Rattle.qrexec_c.specs.Sessions.{started, IsWaiting, AreNumbers, is_over, is_going, held_fault, Hears, HasHeard, TakesNext, HoldsFault, Sends, HasSent, may_go, part_may_go, part_of, other, with_piece, with_greeting, at_fault, after_message};

use crate::found::Found;
use crate::reader::{Reader, qrexec_next};

/// The number of the side that makes a call. The other side, which serves it, has the number 1.
const CALLER: u32 = 0;

/// The channel of a call.
const DATA: u32 = 1;

/// The greatest length of a body in version 2, and in version 3.
const MOST_IN_2: u32 = 4096;

const MOST_IN_3: u32 = 65_536;

/// One side of a call. Each stream belongs to one direction: a caller sends its input and reads two outputs.
#[repr(C)]
#[derive(Clone, Copy)]
pub struct Session {
    /// The reader of what comes. With a fault, it stands at the message at fault, and has its type.
    pub reader: Reader,
    /// 0 for the side that makes the call, 1 for the one that serves it.
    pub side: u32,
    /// The version of its own greeting, 2 or 3.
    pub own: u32,
    /// The version that both sides go on with, or 0 before the other side's greeting; with fault 4 that one's version.
    pub version: u32,
    /// 1 if its own greeting has gone.
    pub greeted: u32,
    /// 1 if the stream has ended.
    pub stdin_ended: u32,
    /// 1 if the stream has ended.
    pub stdout_ended: u32,
    /// 1 if the stream has ended.
    pub stderr_ended: u32,
    /// 1 if the exit code has come, or has gone.
    pub exited: u32,
    /// The exit code that has come.
    pub code: i32,
    /// 0 for none; 1 the other side may not send such a message; 2 its stream had ended; 3 the first message is no
    /// greeting; 4 its version is below 2. A fault of the bytes is the reader's.
    pub fault: u32,
}

/// What a message is to the side that gets it.
#[derive(Clone, Copy)]
pub(crate) enum Part {
    Stdin,
    Stdout,
    Stderr,
    ExitCode,
    Stray,
}

/// Returns what a message of this type is to a side that gets it.
#[inline(always)]
fn part_of(side: u32, kind: u32) -> Part
    ensures { result ≡ part_of side kind }
{
    if side == CALLER {
        match kind {
            0x191 => Part::Stdout,
            0x192 => Part::Stderr,
            0x193 => Part::ExitCode,
            _ => Part::Stray,
        }
    } else if kind == 0x190 {
        Part::Stdin
    } else {
        Part::Stray
    }
}

/// Returns the number of the other side.
fn other(side: u32) -> u32
    ensures { result ≡ other side }
{
    if side == CALLER { 1 } else { CALLER }
}

/// Returns whether the numbers are in their ranges.
#[inline(always)]
fn are_numbers(session: &Session) -> bool
    ensures { result ≡ true ↔ AreNumbers session.now }
{
    session.reader.channel == DATA
        && session.reader.fault <= 4
        && session.side <= 1
        && session.own >= 2
        && session.own <= 3
        && session.version <= session.own
        && (session.version != 1 || session.fault == 4)
        && session.greeted <= 1
        && session.stdin_ended <= 1
        && session.stdout_ended <= 1
        && session.stderr_ended <= 1
        && session.exited <= 1
        && session.fault <= 4
}

/// Returns whether a caller has read the exit code.
fn is_over(session: &Session) -> bool
    ensures { result ≡ is_over session.now }
{
    session.side == CALLER && session.exited == 1
}

/// Makes a side of a call, 0 for the one that makes it and 1 for the one that serves it, of version 2 or 3.
///
/// Returns false, and changes nothing, if and only if a number is another.
#[unsafe(no_mangle)]
pub extern "C" fn qrexec_session_init(session: &mut Session, side: u32, own: u32) -> bool
    ensures exact { result ≡ true ↔ (side ≤ 1) × (2 ≤ own) × (own ≤ 3) }
    ensures refused { result ≡ false → session.new ≡ session.old }
    ensures made { result ≡ true → session.new ≡ started side own }
    ensures hears { result ≡ true → Hears session.new [] [] [] }
    ensures sent { result ≡ true → HasSent session.new [] }
{
    if side > 1 || own < 2 || own > 3 {
        return false;
    }
    *session = Session {
        reader: Reader {
            at: 0,
            kind: 0,
            len: 0,
            channel: DATA,
            fault: 0,
        },
        side,
        own,
        version: 0,
        greeted: 0,
        stdin_ended: 0,
        stdout_ended: 0,
        stderr_ended: 0,
        exited: 0,
        code: 0,
        fault: 0,
    };
    true
}

fn at_fault(session: &mut Session, fault: u32, at: u64, kind: u32)
    ensures { session.new ≡ at_fault fault at kind session.old }
{
    session.reader.at = at;
    session.reader.kind = kind;
    session.fault = fault;
}

/// Takes a message of a stream, or the exit code, into the numbers.
#[inline(always)]
fn take(session: &mut Session, part: Part, len: u32, at: u64, kind: u32)
    ensures { session.new ≡ with_piece part len at kind session.old }
{
    let ended = if len == 0 { 1 } else { 0 };
    match part {
        Part::Stdin if session.stdin_ended == 0 => session.stdin_ended = ended,
        Part::Stdout if session.stdout_ended == 0 => session.stdout_ended = ended,
        Part::Stderr if session.stderr_ended == 0 => session.stderr_ended = ended,
        Part::ExitCode => session.exited = 1,
        Part::Stray => at_fault(session, 1, at, kind),
        _ => at_fault(session, 2, at, kind),
    }
}

/// Takes the first message, which must be a greeting.
fn greet(session: &mut Session, kind: u32, first: u32, at: u64)
    ensures { session.new ≡ with_greeting kind first at session.old }
{
    if kind != 0x300 {
        at_fault(session, 3, at, kind);
    } else if first < 2 {
        at_fault(session, 4, at, kind);
        session.version = first;
    } else {
        session.version = session.own.min(first);
    }
}

/// Takes a message that came.
#[inline(always)]
fn hear(session: &mut Session, found: &Found, at: u64)
    ensures { session.new ≡ after_message found.now.kind found.now.len found.now.first at session.old }
{
    if session.version == 0 {
        greet(session, found.kind, found.first, at);
        return;
    }
    let part = part_of(session.side, found.kind);
    take(session, part, found.len, at, found.kind);
    if let Part::ExitCode = part {
        session.code = found.first.cast_signed();
    }
}

/// Finds the message at the front of the bytes, as [`qrexec_next`] does, and takes it if the other side may send it.
///
/// Returns 1 if `found` tells that message, 0 if the bytes are less than a message; 2 if the session holds a fault,
/// its own or its reader's, as it will at each later call; 3 if the numbers are those of no session; 6 if a caller
/// has read the exit code before. Nothing changes at 0, 3 and 6.
#[unsafe(no_mangle)]
pub extern "C" fn qrexec_session_next(session: &mut Session, bytes: &[u8], found: &mut Found) -> u32
    ensures none { result ≢ 3 ↔ AreNumbers session.old }
    ensures over { result ≡ 6 ↔ AreNumbers session.old × (session.old.fault ≡ 0) × (is_over session.old ≡ true) }
    ensures same { (result ≡ 0) ⊎ (3 ≤ result) → (session.new ≡ session.old) × (found.new ≡ found.old) }
    ensures faulty { AreNumbers session.old → held_fault session.old ≢ None → is_over session.old ≡ false → (result ≡ 2) × (session.new ≡ session.old) }

    // However the stream is cut, what is told is what all its bytes decide.
    ensures less { result ≡ 0 → (stream : List ℕ) (given : List (Placed Message)) → Hears session.old bytes.now stream given →
        IsWaiting session.old bytes.now stream given }
    ensures next { result ≡ 1 → (stream : List ℕ) (given : List (Placed Message)) → Hears session.old bytes.now stream given →
        TakesNext session.old session.new found.new bytes.now stream given }
    ensures fault { result ≡ 2 → held_fault session.old ≡ None → (stream : List ℕ) (given : List (Placed Message)) → Hears session.old bytes.now stream given →
        HoldsFault session.new stream }
    ensures kept { (session.new.side ≡ session.old.side) × (session.new.own ≡ session.old.own) × (session.new.greeted ≡ session.old.greeted) }
    ensures sent { (sent : List (Placed Message)) → HasSent session.old sent → HasSent session.new sent }
{
    if !are_numbers(session) {
        return 3;
    }
    if session.fault != 0 {
        return 2;
    }
    if is_over(session) {
        return 6;
    }
    let at = session.reader.at;
    let answer = qrexec_next(&mut session.reader, bytes, found);
    if answer != 1 {
        return answer;
    }
    hear(session, found, at);
    if session.fault == 0 { 1 } else { 2 }
}

/// Returns the greatest length of a body in this version.
fn most_len(version: u32) -> u32
    ensures { result ≡ most version }
{
    if version < 3 { MOST_IN_2 } else { MOST_IN_3 }
}

fn part_may_go(session: &Session, part: Part, len: u32) -> bool
    ensures { result ≡ part_may_go session.now part len }
{
    let most = most_len(session.version);
    match part {
        Part::Stdin => session.stdin_ended == 0 && len <= most,
        Part::Stdout => session.stdout_ended == 0 && len <= most,
        Part::Stderr => session.stderr_ended == 0 && len <= most,
        Part::ExitCode => {
            len == 4
                && session.stdout_ended == 1
                && session.stderr_ended == 1
                && session.exited == 0
        }
        Part::Stray => false,
    }
}

/// Returns whether the side may send a message of this type, with a body of this length, next.
///
/// Its greeting comes first, and of the side that serves only after the caller's; what else it sends comes after both
/// greetings. A body has at most 4,096 bytes in version 2, and 65,536 in version 3. A message without bytes ends its
/// stream, and the exit code comes after both outputs ended. Nothing may be sent after a fault.
#[unsafe(no_mangle)]
pub extern "C" fn qrexec_session_may_send(session: &Session, kind: u32, len: u32) -> bool
    ensures { result ≡ true ↔ AreNumbers session.now × (is_going session.now && may_go session.now kind len ≡ true) }
{
    if !are_numbers(session)
        || session.fault != 0
        || session.reader.fault != 0
        || is_over(session)
    {
        return false;
    }
    if session.greeted == 0 {
        return kind == 0x300 && len == 4 && (session.side == CALLER || session.version != 0);
    }
    session.version != 0 && part_may_go(session, part_of(other(session.side), kind), len)
}

/// Takes a message that goes into the numbers, as soon as it is to be sent.
///
/// Returns false, and changes nothing, if and only if it may not be sent.
#[unsafe(no_mangle)]
pub extern "C" fn qrexec_session_sent(session: &mut Session, kind: u32, len: u32) -> bool
    ensures exact { result ≡ true ↔ AreNumbers session.old × (is_going session.old && may_go session.old kind len ≡ true) }
    ensures refused { result ≡ false → session.new ≡ session.old }
    ensures kept { (session.new.reader ≡ session.old.reader) × (session.new.side ≡ session.old.side) × (session.new.own ≡ session.old.own) × (session.new.version ≡ session.old.version) }
    ensures sent { result ≡ true → (sent : List (Placed Message)) (p : Placed Message) → kind ≡ number_of (kind_of p.message) → Sends session.old.own len p.message →
        HasSent session.old sent → HasSent session.new (sent ++ p ∷ []) }
    ensures heard { (given : List (Placed Message)) → HasHeard session.old given → HasHeard session.new given }
{
    if !qrexec_session_may_send(session, kind, len) {
        return false;
    }
    if session.greeted == 0 {
        session.greeted = 1;
    } else {
        take(session, part_of(other(session.side), kind), len, 0, kind);
    }
    true
}
