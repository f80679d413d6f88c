//! All data ends of one agent.
ghost use Rattle.std.specs.Prelude.{◌≡◌, ◌+◌, ◌<◌, ◌≤◌, ◌↔◌, ◌++◌, ◌∷◌, [], true, false, IsTrue, Some, None, IfOk, IfErr, OnOk, OnErr, length, map, replicate, slice_get, slice_set};
ghost use Rattle.std.specs.List.{AllByRecursion as Each};
ghost use Rattle.task_duties.specs.declared.place.PagePlace.TheVariants.{Payload};
ghost use Rattle.task_duties.specs.Places.{has_place, without};
ghost use Rattle.std.specs.List.{AllZip as EachPair};
ghost use Rattle.task_duties.specs.TaskOwes.{places_in};
ghost use Rattle.task_duties.specs.GivenEnds.{all_given, all_retired, retired_at};

use crate::done::DataDone;
use crate::ends::Ends;
use crate::finish::{finish_all, give_up_all, session_ends};
use crate::note::{CallNote, ServedNote};
use crate::setup::{EndsRoom, room_for, unused_slots};
use qrexec_data::{Caller, Serving};
use service_gate::Builtin;
use std::alloc::Global;
use std::marker::Model;
use std::snapshot::Snapshot;
use task_duties::{DataEnd, RetiredEnd, SessionEnd};
use vchan_io::Memory;

/// The most bytes that a session puts into one message.
const CHUNK: u32 = 65_536;

/// All data ends of an agent, in the order in which they were given.
///
/// A turn costs time only for open sessions, and an end is found by its place without a search. If memory ran
/// out in a turn, the ends can only be given up.
#[derive(Drop)]
pub struct DataSlots<'p> {
    ends: Ends<'p>,
    // Room for all ends when they are retired, and for one more before them, so that giving up takes no memory.
    retired: Vec<RetiredEnd>,
    // Whether memory ran out in a turn.
    spent: Snapshot<bool>,
}

impl<'p> Model for DataSlots<'p> {
    ghost use Rattle.std.specs.Prelude.{◌≡◌, ◌+◌, ◌≤◌, false, [], length, vec_capacity};
    ghost use Rattle.std.specs.List.{AllByRecursion as Each};
    ghost use Rattle.agent_slots.specs.Slots.{SlotsState};
    ghost use Rattle.agent_slots.specs.Stages.{CanRetire};
    ghost use Rattle.agent_slots.specs.Whole.{IsWhole, state_of};

    ghost Value = { SlotsState };

    ghost view = { λ s. state_of s.ends s.spent.value };

    ghost invariant = { λ s. Each (λ x. CanRetire x.stage) s.ends.slots.items
        × (s.retired.items ≡ []) × (length s.ends.slots.items + 1 ≤ vec_capacity s.retired)
        × (s.spent.value ≡ false → IsWhole s.ends) };
}

impl<'p> DataSlots<'p> {
    ghost use Rattle.agent_slots.specs.Slots.{held_at, late_count, IsGiven, AreApart};
    ghost use Rattle.agent_slots.specs.Sides.{late_places};
    ghost use Rattle.agent_slots.specs.Done.{AreBack, ReportsCalled, ReportsServes, TellsMore};
    ghost use Rattle.agent_slots.specs.Agreeing.{Agrees};
    ghost use Rattle.agent_slots.specs.Sessions.{NotBegun, AllTakeTurns, KeepsSessions};

    /// Makes the data ends of an agent of this domain and version, 2 or 3, which has `calls` calls of its
    /// own. All ends are unused. Each is a server's if the domain calls on its page, and a client's if the
    /// domain is called. No two lie at one place.
    ///
    /// Returns the ends as they were given if memory runs out.
    pub fn new(
        alloc: Global,
        domain: u32,
        version: u32,
        ends: Vec<DataEnd<'p>>,
        calls: usize,
    ) -> Result<DataSlots<'p>, Vec<DataEnd<'p>>>
        requires version { (2 ≤ version) × (version ≤ 3) }
        requires given { Each (IsGiven domain) (all_given ends.items) }
        requires apart { AreApart (places_in (all_given ends.items)) }
        ensures made { IfOk result (λ s. s ≡ record {
          domain = domain;
          version = version;
          held = map held_at (all_given ends.entry.items);
          unused = places_in (all_given ends.entry.items);
          late = late_places ends.entry.items;
          called = replicate calls None;
          served = [];
          opened = [];
          sessions = replicate (length ends.entry.items) NotBegun;
          spent = false;
        }) }
        ensures unmade { IfErr result (λ given. given ≡ ends.entry) }
    {
        let Ok(room) = room_for(alloc, &ends, calls) else {
            return Err(ends);
        };
        let EndsRoom {
            index,
            calls,
            retired,
            slots,
        } = room;
        Ok(DataSlots {
            ends: Ends {
                alloc,
                domain,
                version,
                slots: unused_slots(slots, ends),
                index,
                busy: Vec::new(alloc),
                calls,
                served: Vec::new(alloc),
                waiting: Vec::new(alloc),
            },
            retired,
            spent: Snapshot::of(&false),
        })
    }

    /// Returns whether there is an unused end for a call of the agent's own to this domain at this port.
    pub fn can_call(&self, to: u32, port: u32) -> bool
        requires whole { self.now.spent ≡ false }
        ensures { result ≡ has_place (Payload self.now.domain to port) self.now.unused }
    {
        self.ends.find_unused(self.ends.domain, to, port).is_some()
    }

    /// Returns whether there is an unused end for a call of this domain to the agent at this port.
    pub fn can_serve(&self, from: u32, port: u32) -> bool
        requires whole { self.now.spent ≡ false }
        ensures { result ≡ has_place (Payload from self.now.domain port) self.now.unused }
    {
        self.ends
            .find_unused(from, self.ends.domain, port)
            .is_some()
    }

    /// Opens the unused end at this place for the agent's own call with this number and input. The number
    /// counts the agent's calls in their order, and [`DataSlots::can_call`] must be true of the place.
    ///
    /// Returns `Memory` if memory runs out; the input is dropped then, and nothing else changes.
    pub fn call(&mut self, number: usize, to: u32, port: u32, input: Vec<u8>) -> Result<(), Memory>
        requires whole { self.old.spent ≡ false }
        requires number { slice_get self.old.called number ≡ Some None }
        requires unused { has_place (Payload self.old.domain to port) self.old.unused ≡ true }
        ensures ok { OnOk result (self.new ≡ record self.old {
          unused = without (Payload self.old.domain to port) self.old.unused;
          called = slice_set self.old.called number (Some (record { to = to; port = port; input = input.items }));
          opened = self.old.opened ++ record { domain = to; port = port; call = Some number } ∷ [];
          sessions = self.new.sessions;
        }) }
        ensures kept { KeepsSessions self.old.sessions self.new.sessions }
        ensures err { OnErr result (self.new ≡ self.old) }
    {
        let Some(at) = self.ends.find_unused(self.ends.domain, to, port) else {
            unreachable!()
        };
        self.ends.busy.reserve(1)?;
        let laid = self.ends.slots[at].lay(self.ends.alloc)?;
        let note = CallNote {
            at,
            to,
            port,
            input: Snapshot::of(&input),
        };
        let seen = Snapshot::of(&input);
        let caller = Caller::new(self.ends.alloc, input, self.ends.version, CHUNK)?;
        self.ends.busy.push_reserved(at);
        self.ends.slots[at].call(number, seen, caller, laid);
        self.ends.calls[number] = Some(note);
        Ok(())
    }

    /// Opens the unused end at this place for a call of this domain, which this service serves.
    /// [`DataSlots::can_serve`] must be true of the place.
    ///
    /// Returns `Memory` if memory runs out; nothing changes then.
    pub fn serve(&mut self, from: u32, port: u32, service: Builtin) -> Result<(), Memory>
        requires whole { self.old.spent ≡ false }
        requires unused { has_place (Payload from self.old.domain port) self.old.unused ≡ true }
        ensures ok { OnOk result (self.new ≡ record self.old {
          unused = without (Payload from self.old.domain port) self.old.unused;
          served = self.old.served ++ record { from = from; port = port; service = service } ∷ [];
          opened = self.old.opened ++ record { domain = from; port = port; call = None } ∷ [];
          sessions = self.new.sessions;
        }) }
        ensures kept { KeepsSessions self.old.sessions self.new.sessions }
        ensures err { OnErr result (self.new ≡ self.old) }
    {
        let Some(at) = self.ends.find_unused(from, self.ends.domain, port) else {
            unreachable!()
        };
        let number = self.ends.served.len();
        self.ends.busy.reserve(1)?;
        self.ends.served.reserve(1)?;
        let note = ServedNote {
            at,
            from,
            port,
            service: Snapshot::of(&service),
        };
        let seen = Snapshot::of(&service);
        let serving = Serving::new(self.ends.alloc, service, self.ends.version, CHUNK)?;
        self.ends.busy.push_reserved(at);
        self.ends.served.push_reserved(note);
        self.ends.slots[at].serve(number, seen, serving);
        Ok(())
    }

    /// One turn of each open session. Those that are over now are put behind `over`, each once, and are open
    /// no more; no fewer bytes came and went on their retired ends than before the turn. Each other one moved
    /// something, was quiet or was passed over, as its own turn says, or awaits its page still. A session that
    /// was over stays as it is. It answers whether any moved bytes or is over, of which nothing is promised.
    ///
    /// Returns `Memory` if memory runs out; the ends can only be given up then, and nothing is promised of
    /// `over`.
    pub fn turn(&mut self, scratch: &mut [u8], over: &mut Vec<SessionEnd>) -> Result<bool, Memory>
        requires whole { self.old.spent ≡ false }
        requires some { 0 < length scratch.old }
        ensures ok { OnOk result (self.new ≡ record self.old { opened = self.new.opened; sessions = self.new.sessions }) }
        ensures turns { OnOk result (AllTakeTurns self.old.sessions self.new.sessions) }
        ensures told { OnOk result (TellsMore self.old self.new over.old.items over.new.items) }
        ensures held { (self.new.held ≡ self.old.held) × (self.new.domain ≡ self.old.domain) × (self.new.version ≡ self.old.version) }
        ensures long { length scratch.new ≡ length scratch.old }
    {
        self.ends.give_back();
        let turned = self.ends.turn_open(scratch, over);
        self.spent = Snapshot::of(&turned.is_err());
        turned
    }

    /// How many open sessions are on pages that are laid when they are first used.
    pub fn pages_in_use(&self) -> usize
        requires whole { self.now.spent ≡ false }
        ensures { result ≡ late_count self.now }
    {
        let mut count = 0;
        for at in &self.ends.busy {
            if self.ends.slots[*at].is_late() {
                count += 1;
            }
        }
        count
    }

    /// Says that an end is unused as long as its session hasn't begun, that the end of a session that is over is
    /// retired, and that the sessions that are told of as open are. It does nothing: proofs read it.
    pub fn agree(&self)
        requires whole { self.now.spent ≡ false }
        ensures { Agrees self.now }
    {
        let _ends = &self.ends;
    }

    /// Returns whether no session is open.
    pub fn is_idle(&self) -> bool
        ensures { IsTrue result ↔ (self.now.opened ≡ []) }
    {
        self.ends.busy.is_empty()
    }

    /// Retires the ends that were never used, and returns what came of the others, none of which has an open
    /// session. The ends come back in the order in which they were given, behind `first`, an end that was
    /// retired before.
    ///
    /// Returns all these ends, retired and in the same order, if memory runs out.
    pub fn finish(self, first: RetiredEnd) -> Result<DataDone, Vec<RetiredEnd>>
        requires whole { self.spent ≡ false }
        requires idle { self.opened ≡ [] }
        ensures back { IfOk result (λ done. AreBack (retired_at first) self.entry.held (all_retired done.ends.items)) }
        ensures calls { IfOk result (λ done. EachPair (ReportsCalled self.entry.domain self.entry.version (all_retired done.ends.items)) self.entry.called done.calls.items) }
        ensures served { IfOk result (λ done. EachPair (ReportsServes self.entry.domain self.entry.version (all_retired done.ends.items)) self.entry.served done.served.items) }
        ensures err { IfErr result (λ ends. AreBack (retired_at first) self.entry.held (all_retired ends.items)) }
    {
        let DataSlots { ends, retired, .. } = self;
        let Ends {
            alloc,
            slots,
            calls,
            served,
            index,
            busy,
            waiting,
            ..
        } = ends;
        // Dropped here once, and not at each of the exits below.
        drop(index);
        drop(busy);
        drop(waiting);
        let mut reports = Vec::new(alloc);
        if reports.reserve(slots.len()).is_err() {
            return Err(give_up_all(slots, first, retired));
        }
        let ends = finish_all(slots, first, retired, &mut reports);
        let Ok((calls, served)) = session_ends(alloc, &calls, &served, &mut reports) else {
            return Err(ends);
        };
        Ok(DataDone {
            ends,
            calls,
            served,
        })
    }

    /// Retires all ends, used or not, and returns them in the order in which they were given, behind `first`,
    /// an end that was retired before. It takes no memory.
    pub fn give_up(self, first: RetiredEnd) -> Vec<RetiredEnd>
        ensures { AreBack (retired_at first) self.entry.held (all_retired result.items) }
    {
        let DataSlots { ends, retired, .. } = self;
        let Ends { slots, .. } = ends;
        give_up_all(slots, first, retired)
    }
}
