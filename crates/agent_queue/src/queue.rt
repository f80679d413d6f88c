//! The queue of an agent's calls.
ghost use Rattle.std.specs.Prelude.{◌≡◌, ◌<◌, ◌+◌, ◌-◌, not, true, vec_len, slice_index, if◌then◌else◌, ◌++◌, ◌∷◌, [], ℕ, List, None, Some, false, length, map, IfOk, IfSome, slice_get, slice_set};
ghost use Rattle.std.specs.List.{list_any};
ghost use Rattle.qrexec_frame.specs.Messages.{IsSpellable};
ghost use Rattle.std.specs.List.{AllByRecursion as Each};
ghost use Rattle.qrexec_frame.specs.declared.message.Message.{Message as Said};
ghost use Rattle.qrexec_frame.specs.declared.message.Message.TheVariants.{Terminated};
ghost use Rattle.task_duties.specs.Words.{ident_of};
ghost use Rattle.task_duties.specs.Agent.Saying.{is_refusal};
ghost use Rattle.task_duties.specs.Agent.Answers.{IsRefused, At, waits_as};
ghost use Rattle.agent_queue.specs.Queue.{Queued, asked_as, asked_by, answer_of, fresh, IsDue, IsHeld, HasToSay, HasToSayOfLen, trigger_of, after_trigger, after_answer, FitsTrigger, IsWaitingAt, IsConnectedAt};
ghost use Rattle.list_laws.specs.Lists.{AreDifferent};
ghost use Rattle.agent_queue.specs.Asking.{Asks};

use crate::call::{CallAnswer, QueuedCall};
use crate::index::{Index, index_of, place_in};
use crate::setup::queued;
use crate::trigger::{trigger_len, trigger_of};
use qrexec_frame::{Bytes, Message};
use scenario_file::CallPlan;
use std::alloc::Global;
use std::marker::Model;
use std::mem::replace;
use vchan_io::Memory;

/// The most calls of an agent to one target that are open at once. Source: this project's own.
const MOST_OPEN: u32 = 16;

/// The calls of one agent in their order, with what was heard and sent of each.
///
/// A call is open from its trigger on, until its refusal was read or the end of its session was reported
/// after the trigger. A call may be answered before its trigger was sent; the trigger is sent all the same.
#[derive(Drop)]
pub struct CallQueue {
    calls: Vec<QueuedCall>,
    // How many calls were requested. These are the first ones.
    next: usize,
    // The places of the calls by the numbers in their idents.
    by_ident: Index,
    // How many calls to each target are open, at the place of the first call to it.
    counts: Vec<u32>,
}

impl Model for CallQueue {
    ghost use Rattle.agent_queue.specs.Queue.{QueueState};

    ghost Value = { QueueState };

    ghost use Rattle.agent_queue.specs.Inside.{state_of, IsKept};

    ghost view = { state_of };

    ghost invariant = { IsKept };
}

impl CallQueue {
    /// Makes a queue of these calls, none of which was requested. Their numbers must differ, and their texts
    /// must fit a trigger: a target of at most 31 bytes, and a service of at most 63.
    ///
    /// Returns `Memory` if memory runs out; the calls are dropped then.
    pub fn new(alloc: Global, calls: Vec<CallPlan>) -> Result<CallQueue, Memory>
        requires different { AreDifferent (map (λ c. c.number) calls.items) }
        requires short { Each FitsTrigger calls.items }
        ensures new { IfOk result (λ q. q ≡ record { calls = map fresh calls.items; next = 0 }) }
        ensures asks { IfOk result (λ q. Asks q []) }
        ensures apart { IfOk result (λ q. AreDifferent (map (λ a. ident_of a.call.number) (asked_by q))) }
    {
        let by_ident = index_of(alloc, &calls)?;
        let counts = vec![in alloc; 0u32; calls.len()]?;
        let calls = queued(alloc, calls)?;
        Ok(CallQueue {
            calls,
            next: 0,
            by_ident,
            counts,
        })
    }

    /// Returns the number of calls.
    pub fn count(&self) -> usize
        ensures { result ≡ length self.now.calls }
    {
        self.calls.len()
    }

    /// Returns the trigger that must be sent next, in the version that was agreed on. Returns `None` if all
    /// triggers were sent, or if 16 calls to the next one's target are open. Returns `Memory` if memory runs
    /// out.
    pub fn front(&self, alloc: Global, version: u32) -> Result<Option<Message>, Memory>
        ensures says { IfOk result (λ message. HasToSay self.now version message) }
        ensures spelt { IfOk result (λ message. IfSome message (λ m. IsSpellable m)) }
    {
        let Some(plan) = self.due() else {
            return Ok(None);
        };
        Ok(Some(trigger_of(alloc, plan, version)?))
    }

    /// Returns how many bytes the message of [`CallQueue::front`] takes on its channel. This takes no memory.
    pub fn front_len(&self, version: u32) -> Option<usize>
        ensures { HasToSayOfLen self.now version result }
    {
        let Some(plan) = self.due() else {
            return None;
        };
        Some(trigger_len(plan, version))
    }

    // The call whose trigger is next. There is none if all triggers were sent, or if the limit holds the next
    // one back.
    fn due(&self) -> Option<&CallPlan>
        ensures held { result ≡ None → IsHeld self.now }
        ensures says { IfSome result (λ plan. (version : ℕ) → HasToSay self.now version (Some (trigger_of version plan.now))) }
        ensures fits { IfSome result (λ plan. FitsTrigger plan.now) }
    {
        if self.next == self.calls.len() {
            return None;
        }
        let call = &self.calls[self.next];
        if self.counts[call.target] >= MOST_OPEN {
            return None;
        }
        Some(&call.plan)
    }

    /// Notes that the trigger of [`CallQueue::front`] was sent.
    pub fn triggered(&mut self)
        requires { (c : Queued) × IsDue self.old c }
        ensures is { (c : Queued) → IsDue self.old c → self.new ≡ after_trigger self.old c }
        ensures asks { (said : List Said) (version : ℕ) (m : Said) → HasToSay self.old version (Some m) → Asks self.old said → Asks self.new (said ++ m ∷ []) }
    {
        count_in(&mut self.calls[self.next], &mut self.counts);
        self.next += 1;
    }

    /// Returns the place of the call with this ident, if that call still waits for its answer.
    pub fn waiting(&self, ident: &[u8]) -> Option<usize>
        ensures some { IfSome result (λ place. IsWaitingAt self.now place ident.now) }
        ensures none { result ≡ None → list_any (waits_as ident.now) (asked_by self.now) ≡ false }
    {
        let place = place_in(&self.by_ident, ident)?;
        let call = &self.calls[place];
        if call.answer.waits() {
            return Some(place);
        }
        None
    }

    /// Notes that the call with this ident is refused. If no call waits by it, nothing changes.
    pub fn refused(&mut self, ident: &[u8])
        ensures is { self.new ≡ after_answer self.old ident.now IsRefused }
        ensures asks { (said : List Said) → Asks self.old said → Asks self.new said }
    {
        if let Some(place) = self.waiting(ident) {
            self.refuse_at(place);
        }
    }

    // Notes that the call at a place is refused. It must wait.
    fn refuse_at(&mut self, place: usize)
        requires { (ident : List ℕ) × IsWaitingAt self.old place ident }
        ensures is { (ident : List ℕ) → IsWaitingAt self.old place ident → self.new ≡ after_answer self.old ident IsRefused }
        ensures asks { (said : List Said) → Asks self.old said → Asks self.new said }
    {
        let call = &mut self.calls[place];
        call.answer = CallAnswer::Refused;
        count_out(call, &mut self.counts);
    }

    /// Notes that the call at this place is let through to a domain and a port, and hands out the call's
    /// input for its session. The call must wait; [`CallQueue::waiting`] finds the place.
    pub fn connected(&mut self, alloc: Global, place: usize, to: u32, port: u32) -> Bytes
        requires { (ident : List ℕ) × IsWaitingAt self.old place ident }
        ensures is { (ident : List ℕ) → IsWaitingAt self.old place ident → self.new ≡ after_answer self.old ident (At to port) }
        ensures stdin { (c : Queued) → slice_get self.old.calls place ≡ Some c → result ≡ c.call.stdin }
        ensures asks { (said : List Said) → Asks self.old said → Asks self.new said }
    {
        let call = &mut self.calls[place];
        call.answer = CallAnswer::At { to, port };
        replace(&mut call.plan.stdin, Bytes::of(Vec::new(alloc)))
    }

    /// Notes that the broker was told of the end of the session of the call at this place.
    pub fn ended(&mut self, place: usize)
        requires { place < length self.old.calls }
        ensures is { (c : Queued) → slice_get self.old.calls place ≡ Some c → self.new ≡ record self.old { calls = slice_set self.old.calls place (record c { is_open = false }) } }
        ensures asks { (said : List Said) (domain port : ℕ) → IsConnectedAt self.old place domain port → Asks self.old said → Asks self.new (said ++ Terminated domain port ∷ []) }
    {
        count_out(&mut self.calls[place], &mut self.counts);
    }

    /// Returns the number of the call at a place.
    pub fn number(&self, place: usize) -> u32
        requires { place < length self.now.calls }
        ensures { IfSome (slice_get self.now.calls place) (λ c. result ≡ c.call.number) }
    {
        self.calls[place].plan.number
    }

    /// Returns the answer to the call at a place.
    pub fn answer(&self, place: usize) -> CallAnswer
        requires { place < length self.now.calls }
        ensures { IfSome (slice_get self.now.calls place) (λ c. answer_of result ≡ c.answer) }
    {
        self.calls[place].answer
    }
}

// Counts a call that was requested: it is open, unless it was refused before.
fn count_in(call: &mut QueuedCall, counts: &mut Vec<u32>)
    requires closed { call.old.is_open ≡ false }
    requires room { call.old.target < vec_len counts.old }
    requires few { slice_index counts.old.items call.old.target < MOST_OPEN }
    ensures call { call.new ≡ record call.old { is_open = not (is_refusal (answer_of call.old.answer)) } }
    ensures counts { counts.new.items ≡ (if is_refusal (answer_of call.old.answer) then counts.old.items else slice_set counts.old.items call.old.target (slice_index counts.old.items call.old.target + 1)) }
{
    if call.answer == CallAnswer::Refused {
        return;
    }
    call.is_open = true;
    counts[call.target] += 1;
}

// Closes a call; if it was open, decrements its target's count.
fn count_out(call: &mut QueuedCall, counts: &mut Vec<u32>)
    requires room { call.old.target < vec_len counts.old }
    requires counted { call.old.is_open ≡ true → 0 < slice_index counts.old.items call.old.target }
    ensures call { call.new ≡ record call.old { is_open = false } }
    ensures counts { counts.new.items ≡ (if call.old.is_open then slice_set counts.old.items call.old.target (slice_index counts.old.items call.old.target - 1) else counts.old.items) }
{
    if call.is_open {
        call.is_open = false;
        counts[call.target] -= 1;
    }
}
