//! The events that an end makes next, up to one whose value it has to know.
ghost use Rattle.std.specs.Prelude.{◌≡◌, ◌≢◌, ◌↔◌, ◌≤◌, ◌<◌, ℕ, IsSome, None, true, false};
ghost use Rattle.vchan_protocol.specs.Table.Ends.{peer_pending as peer_pending_of};
ghost use Rattle.vchan_protocol.specs.Table.Plan.{Leads, next_op, after};
ghost use Rattle.vchan_core.specs.OneMachine.Ahead.{IsOnByte};
ghost use Rattle.vchan_core.specs.OneMachine.Phases.{standing, rest, rest_or_answer, IsIdle, payload_needed, buffer_needed};
ghost use Rattle.vchan_c.specs.Stretches.{AreBytes, HasPassed, awaits as awaits_of, moved, stored, signalled, notified, answered_by, looks_on, plan_behind, standing_stored, left, IsLast, IsStoreNone, IsPassed, MovesWithin, IsStretch};

use ring_words::{Ring, WordName, place};
use vchan_core::words::peer_pending;
use vchan_core::{Ahead, Answer, LastNotify, Machine, Op, Span};

/// Bytes of a ring: some from a place on, and some from the ring's front on.
#[derive(Clone, Copy)]
pub struct Bytes {
    /// The ring that they lie in.
    pub ring: Ring,
    /// The place of the first byte.
    pub place: u32,
    /// The number of the first byte in the caller's payload or buffer.
    pub at: u32,
    /// How many lie from that place on.
    pub first: u32,
    /// How many lie from the ring's front on: those that go on after the ring's end.
    pub second: u32,
}

/// Bytes that are moved.
#[derive(Clone, Copy)]
pub enum Moves {
    /// No bytes.
    Nothing,
    /// These bytes are stored.
    Puts(Bytes),
    /// These bytes are loaded.
    Takes(Bytes),
}

/// A number that is stored in a word.
#[derive(Clone, Copy)]
pub struct Stored {
    /// The word.
    pub word: WordName,
    /// The number that is stored.
    pub value: u64,
}

/// What comes after the events whose values are known.
#[derive(Clone, Copy)]
pub enum Last {
    /// The answer of the call.
    Answer(Answer),
    /// An event whose value is awaited, and the word that is loaded after it, unless that value is 0.
    Event { op: Op, look: Option<WordName> },
    /// The notify with which the call ends, and its answer.
    Notify(LastNotify),
    /// More events of this kind.
    Further,
}

/// The events that come next: bytes, then a store, then a signal, and what comes after them.
#[derive(Clone, Copy)]
pub struct Stretch {
    /// The bytes.
    pub moves: Moves,
    /// The store.
    pub store: Option<Stored>,
    /// Whether the peer is signalled.
    pub signals: bool,
    /// What comes after these events.
    pub last: Last,
}

/// Returns whether the value of an event is awaited. What follows an and is known for each value of it.
#[inline(always)]
fn awaits(op: Op) -> bool
    ensures { result ≡ awaits_of op }
{
    matches!(op, Op::Load { .. } | Op::Or { .. } | Op::Swap { .. })
}

/// Returns the next bytes of a span: as many as lie up to the ring's end, and from its front up to the
/// place of the first of them.
#[tactic(auto, using(ring_words::proofs::RingLaws::place_wraps, ring_words::proofs::RingLaws::place_within))]
#[inline(always)]
fn bytes_of(span: Span) -> Bytes
    requires { span.at < span.count }
    ensures { AreBytes span result }
{
    let lies = place(span.index.wrapping_add(span.at), span.order);
    let left = span.count - span.at;
    let first = left.min(span.order.size() - lies);
    Bytes {
        ring: span.ring,
        place: lies,
        at: span.at,
        first,
        second: (left - first).min(lies),
    }
}

/// Goes past the bytes that come next.
#[inline(always)]
pub(crate) fn pass_bytes(machine: &mut Machine) -> Moves
    ensures events { (values : ℕ → ℕ) → Leads (rest machine.old) (moved values result) (rest machine.new) }
    ensures standing { standing machine.new ≡ standing machine.old }
    ensures busy { ¬ IsIdle machine.old → ¬ IsIdle machine.new }
    ensures payload_left { payload_needed machine.new ≤ payload_needed machine.old }
    ensures buffer_left { buffer_needed machine.new ≤ buffer_needed machine.old }
    ensures within { MovesWithin (standing machine.old) (payload_needed machine.old) (buffer_needed machine.old) result }
    ensures none { result ≡ Moves.Nothing → ¬ IsOnByte (next_op (rest machine.old)) }
{
    match machine.ahead() {
        Ahead::Puts(span) => {
            let bytes = bytes_of(span);
            machine.put_to(span, span.at + (bytes.first + bytes.second));
            Moves::Puts(bytes)
        }
        Ahead::Takes(span) => {
            let bytes = bytes_of(span);
            machine.take_to(span, span.at + (bytes.first + bytes.second));
            Moves::Takes(bytes)
        }
        Ahead::Elsewhere => Moves::Nothing,
    }
}

/// Goes past a store, if one comes next that is no signal.
#[inline(always)]
fn pass_store(machine: &mut Machine) -> (Option<Stored>, Option<Answer>)
    requires { ¬ IsIdle machine.old }
    ensures events { Leads (rest machine.old) (stored result.0) (rest_or_answer result.1 machine.new) }
    ensures none { result.0 ≡ None → IsStoreNone (peer_pending_of (standing machine.old).role) (next_op (rest machine.old)) }
    ensures standing { standing machine.new ≡ standing_stored result.0 (standing machine.old) }
    ensures idle { IsSome result.1 ↔ IsIdle machine.new }
    ensures payload_left { payload_needed machine.new ≤ payload_needed machine.old }
    ensures buffer_left { buffer_needed machine.new ≤ buffer_needed machine.old }
{
    let signal = peer_pending(machine.role());
    match machine.next() {
        Op::Store { word, value } if word != signal || value != 1 => {
            (Some(Stored { word, value }), machine.took(0))
        }
        _ => (None, None),
    }
}

/// Goes past a signal to the peer, if one comes next.
#[inline(always)]
fn pass_signal(machine: &mut Machine) -> (bool, Option<Answer>)
    requires { ¬ IsIdle machine.old }
    ensures events { Leads (rest machine.old) (signalled (standing machine.old) result.0) (rest_or_answer result.1 machine.new) }
    ensures none { result.0 ≡ false → next_op (rest machine.old) ≢ Op.Store (peer_pending_of (standing machine.old).role) 1 }
    ensures standing { standing machine.new ≡ standing machine.old }
    ensures idle { IsSome result.1 ↔ IsIdle machine.new }
    ensures payload_left { payload_needed machine.new ≤ payload_needed machine.old }
    ensures buffer_left { buffer_needed machine.new ≤ buffer_needed machine.old }
{
    let signal = peer_pending(machine.role());
    match machine.next() {
        Op::Store { word, value: 1 } if word == signal => (true, machine.took(0)),
        _ => (false, None),
    }
}

/// Returns whether the end loads a word at once after the awaited event, which took this value.
#[inline(always)]
fn looks_behind(machine: &Machine, value: u64) -> bool
    ensures looks { result ≡ looks_on machine.now value }
    ensures awaited { result ≡ true → awaits_of (next_op (after (rest machine.now) value)) ≡ true }
{
    match machine.look_behind() {
        Some(_) => value % 256 != 0,
        None => false,
    }
}

/// Takes the value of the event that is awaited, if one is, and that of the word that is loaded after it,
/// if one is.
#[inline(always)]
pub(crate) fn pass_awaited(machine: &mut Machine, value: u64, look: u64) -> Option<Answer>
    requires { ¬ IsIdle machine.old }
    ensures rest { rest_or_answer result machine.new ≡ plan_behind machine.old value look }
    ensures standing { standing machine.new ≡ standing machine.old }
    ensures idle { IsSome result ↔ IsIdle machine.new }
    ensures payload_left { payload_needed machine.new ≤ payload_needed machine.old }
    ensures buffer_left { buffer_needed machine.new ≤ buffer_needed machine.old }
{
    if !awaits(machine.next()) {
        return None;
    }
    let looks = looks_behind(machine, value);
    match machine.took(value) {
        None if looks => machine.took(look),
        answer => answer,
    }
}

/// Returns what comes after the events whose values are known. The end goes past the notify with which
/// its call ends.
#[inline(always)]
fn pass_last(machine: &mut Machine) -> Last
    requires { ¬ IsIdle machine.old }
    ensures last { IsLast result machine.new }
    ensures events { (value : ℕ) → Leads (rest machine.old) (notified (standing machine.old) result value) (left result machine.new) }
    ensures standing { standing machine.new ≡ standing machine.old }
    ensures payload_left { payload_needed machine.new ≤ payload_needed machine.old }
    ensures buffer_left { buffer_needed machine.new ≤ buffer_needed machine.old }
    ensures further { result ≡ Last.Further → IsPassed (next_op (rest machine.old)) }
{
    if let Some(last) = machine.last_notify() {
        machine.drop_call();
        return Last::Notify(last);
    }
    let op = machine.next();
    if !awaits(op) {
        return Last::Further;
    }
    Last::Event {
        op,
        look: machine.look_behind(),
    }
}

/// Returns the answer of a call, with no event before it.
#[inline(always)]
pub(crate) fn answered(answer: Answer) -> Stretch
    ensures { result ≡ answered_by answer }
{
    Stretch {
        moves: Moves::Nothing,
        store: None,
        signals: false,
        last: Last::Answer(answer),
    }
}

/// Returns these bytes, which the end has passed, with the events that come after them; the end goes past
/// those whose values are known.
#[inline(always)]
pub(crate) fn after_bytes<const COPY: u8, const MOVES: u8>(
    machine: &mut Machine,
    moves: Moves,
) -> Stretch
    requires { ¬ IsIdle machine.old }
    ensures stretch { (before : Machine) → HasPassed before moves machine.old → IsStretch (rest before) (standing before) result machine.new }
    ensures payload_left { payload_needed machine.new ≤ payload_needed machine.old }
    ensures buffer_left { buffer_needed machine.new ≤ buffer_needed machine.old }
    ensures moves { result.moves ≡ moves }
{
    let (store, answer) = pass_store(machine);
    if let Some(answer) = answer {
        return Stretch {
            moves,
            store,
            signals: false,
            last: Last::Answer(answer),
        };
    }
    let (signals, answer) = pass_signal(machine);
    let last = match answer {
        Some(answer) => Last::Answer(answer),
        None => pass_last(machine),
    };
    Stretch {
        moves,
        store,
        signals,
        last,
    }
}
