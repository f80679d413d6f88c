//! The data ends of an agent, what is noted of them, and their turns.
ghost use Rattle.std.specs.Prelude.{◌≡◌, ◌+◌, ◌<◌, is_some, IfOk, IfSome, OnOk, length, drop, get_or, if◌then◌else◌};
ghost use Rattle.std.specs.List.{AllByRecursion as Each};
ghost use Rattle.task_duties.specs.declared.place.PagePlace.TheVariants.{Payload};
ghost use Rattle.task_duties.specs.Places.{has_place};
ghost use Rattle.agent_slots.specs.Stages.{ForNothing, CanRetire};
ghost use Rattle.agent_slots.specs.Whole.{frames, unused_in, IsUsedAt, IsWhole, IsTurned, TakesFrom, HasSameEnds};
ghost use Rattle.agent_slots.specs.Sessions.{sessions_in, AllTakeTurns, OneTakesTurn};

use crate::index::{Index, end_at};
use crate::note::{CallNote, ServedNote};
use crate::slot::Slot;
use std::alloc::Global;
use task_duties::SessionEnd;
use vchan_io::Memory;

/// The ends in the order in which they were given, and what is noted of them.
#[derive(Drop)]
pub(crate) struct Ends<'p> {
    pub(crate) alloc: Global,
    pub(crate) domain: u32,
    pub(crate) version: u32,
    pub(crate) slots: Vec<Slot<'p>>,
    pub(crate) index: Index,
    /// Which of the ends have an open session.
    pub(crate) busy: Vec<usize>,
    /// The sessions of the agent's own calls, by the numbers of the calls.
    pub(crate) calls: Vec<Option<CallNote>>,
    /// What is served, in the order in which it began.
    pub(crate) served: Vec<ServedNote>,
    /// The ends that may still wait for the other end of their page; the page's memory is freed once that end
    /// is taken back. The memory of an end that is missing here is freed with all the others.
    pub(crate) waiting: Vec<usize>,
}

impl<'p> Ends<'p> {
    /// Finds the end at this place, if there is one and it is unused.
    pub(crate) fn find_unused(&self, from: u32, to: u32, port: u32) -> Option<usize>
        requires whole { IsWhole self.now }
        requires retire { Each (λ s. CanRetire s.stage) self.now.slots.items }
        ensures found { IfSome result (λ at. IsUsedAt (frames self.now.slots.items) at (Payload from to port) ForNothing) }
        ensures there { is_some result ≡ has_place (Payload from to port) (unused_in (frames self.now.slots.items)) }
    {
        let at = end_at(&self.index, from, to, port)?;
        if self.slots[at].is_unused() {
            Some(at)
        } else {
            None
        }
    }

    /// Gives back the pages of calls that are over at both ends.
    pub(crate) fn give_back(&mut self)
        requires whole { IsWhole self.old }
        requires retire { Each (λ s. CanRetire s.stage) self.old.slots.items }
        ensures turned { (over : _) → IsTurned self.old self.new over over }
        ensures sessions { sessions_in self.new.slots.items ≡ sessions_in self.old.slots.items }
        ensures same { HasSameEnds self.old self.new }
        ensures retire { Each (λ s. CanRetire s.stage) self.new.slots.items }
    {
        take_back_all(&mut self.slots, &mut self.waiting);
    }

    /// Makes one turn of each open session, and appends those that are over now to `over`. Returns whether any
    /// moved bytes or is over.
    pub(crate) fn turn_open(
        &mut self,
        scratch: &mut [u8],
        over: &mut Vec<SessionEnd>,
    ) -> Result<bool, Memory>
        requires whole { IsWhole self.old }
        requires retire { Each (λ s. CanRetire s.stage) self.old.slots.items }
        requires some { 0 < length scratch.old }
        ensures turned { OnOk result (IsTurned self.old self.new over.old.items over.new.items) }
        ensures turns { OnOk result (AllTakeTurns (sessions_in self.old.slots.items) (sessions_in self.new.slots.items)) }
        ensures same { HasSameEnds self.old self.new }
        ensures retire { Each (λ s. CanRetire s.stage) self.new.slots.items }
        ensures long { length scratch.new ≡ length scratch.old }
    {
        let mut next = 0;
        let mut moved = false;
        while next < self.busy.len() {
            if self.turn_one(next, scratch, over)? {
                moved = true;
            } else {
                moved = moved || self.has_moved(next);
                next += 1;
            }
        }
        Ok(moved)
    }

    // Whether the last turn of the session at this place among the open ones moved bytes.
    fn has_moved(&self, next: usize) -> bool {
        let Some(at) = self.busy.get(next) else {
            return false;
        };
        match self.slots.get(*at) {
            Some(slot) => slot.moved(),
            None => false,
        }
    }

    // Makes one turn of the session at this place among the open ones. Returns whether the session is over
    // now; another session has its place then.
    fn turn_one(
        &mut self,
        next: usize,
        scratch: &mut [u8],
        over: &mut Vec<SessionEnd>,
    ) -> Result<bool, Memory>
        requires whole { IsWhole self.old }
        requires retire { Each (λ s. CanRetire s.stage) self.old.slots.items }
        requires next { next < length self.old.busy.items }
        requires some { 0 < length scratch.old }
        ensures turned { OnOk result (IsTurned self.old self.new over.old.items over.new.items) }
        ensures turns { OnOk result (OneTakesTurn (get_or self.old.busy.items next 0) (sessions_in self.old.slots.items) (sessions_in self.new.slots.items)) }
        ensures ahead { IfOk result (λ is_over. TakesFrom (get_or self.old.busy.items next 0) (drop next self.old.busy.items) (drop (if is_over then next else next + 1) self.new.busy.items)) }
        ensures fewer { IfOk result (λ is_over. length self.new.busy.items + (if is_over then 1 else 0) ≡ length self.old.busy.items) }
        ensures same { HasSameEnds self.old self.new }
        ensures retire { Each (λ s. CanRetire s.stage) self.new.slots.items }
        ensures long { length scratch.new ≡ length scratch.old }
    {
        let at = self.busy[next];
        let Some(told) = self.slots[at].turn(scratch)? else {
            return Ok(false);
        };
        over.push(told)?;
        self.busy.swap_remove(next);
        await_other_end(&mut self.waiting, at);
        Ok(true)
    }
}

// Lists this end, which may wait for the other end of its page. If there is no room, the end isn't listed.
fn await_other_end(waiting: &mut Vec<usize>, at: usize) {
    let _ = waiting.push(at);
}

// Takes back the other ends of pages that are there, and drops these ends from the list.
fn take_back_all(slots: &mut [Slot], waiting: &mut Vec<usize>)
    ensures { slots.new ≡ slots.old }
{
    let mut next = 0;
    while next < waiting.len() {
        if take_back_at(slots, waiting[next]) {
            next += 1;
        } else {
            waiting.swap_remove(next);
        }
    }
}

// Takes back the other end of this end's page if it is there. Returns whether it is still awaited.
fn take_back_at(slots: &mut [Slot], at: usize) -> bool
    ensures { slots.new ≡ slots.old }
{
    if at < slots.len() {
        slots[at].take_back()
    } else {
        false
    }
}
