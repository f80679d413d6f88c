//! An agent between two turns, and what it was given.
ghost use Rattle.std.specs.Prelude.{◌≡◌, ◌≢◌, ◌⊎◌, ◌<◌, ◌++◌, [], Some, None, IfSome, OnOk, length};
ghost use Rattle.agent_task.specs.Standing.{IsUp, CanGiveUp, HasSameEnds, KeepsPort, OnlyTells};
ghost use Rattle.agent_slots.specs.Agreeing.{Agrees};
ghost use Rattle.agent_slots.specs.Slots.{late_count};
ghost use Rattle.agent_slots.specs.Sessions.{AllTakeTurns};
ghost use Rattle.agent_task.specs.Moving.{SaysNoMore, TurnsControl, KeepsControl, asked_at_most};
ghost use Rattle.agent_task.specs.State.{TurnsEach};
ghost use Rattle.agent_task.specs.Ending.{IsRunning};

use agent_control::AgentControl;
use agent_slots::DataSlots;
use scenario_file::CallPlan;
use std::alloc::Global;
use std::snapshot::Snapshot;
use task_duties::{ControlEnd, DataEnd, SessionEnd};
use vchan_io::Memory;
use vchan_rule::End;

/// The number of sessions open on pages laid for them at which an agent requests no more calls, since each
/// holds the memory of a page. It goes on serving, so no agent waits for another one's limit. Sessions with
/// hostile domains don't count, so these can't hold its calls back.
const MOST_PAGES: usize = 8;

/// The number of calls that it requests in a turn. A call that isn't answered yet isn't counted in the limit
/// above, and holds a page as soon as it is let through.
const MOST_ASKED: usize = 1;

/// What an agent was given, which no turn changes.
#[derive(Drop)]
pub(crate) struct Given<'p> {
    pub(crate) domain: u32,
    pub(crate) version: u32,
    pub(crate) calls: Snapshot<Vec<CallPlan>>,
    pub(crate) control: Snapshot<End<'p>>,
    pub(crate) payload: Snapshot<Vec<DataEnd<'p>>>,
}

/// The agent of a domain: its control channel with its calls, and its data ends.
#[derive(Drop)]
pub(crate) struct Agent<'p> {
    pub(crate) alloc: Global,
    pub(crate) given: Given<'p>,
    pub(crate) control: AgentControl<'p>,
    pub(crate) slots: DataSlots<'p>,
    // How the control channel ended; its end is retired then.
    pub(crate) over: Option<ControlEnd>,
}

impl<'p> Agent<'p> {
    /// Makes one round over all channels: it takes what has come on the control channel, then turns each open
    /// session, then sends what there is to send. Returns whether anything moved: something came or went on
    /// the control channel, or a session moved bytes or is over. `over` is empty before and after, and kept
    /// for its room.
    pub(crate) fn go_round(
        &mut self,
        scratch: &mut [u8],
        over: &mut Vec<SessionEnd>,
    ) -> Result<bool, Memory>
        requires running { IsRunning self.old }
        requires some { 0 < length scratch.old }
        requires empty { over.old.items ≡ [] }
        ensures running { OnOk result (IsRunning self.new) }
        ensures empty { OnOk result (over.new.items ≡ []) }
        ensures given { self.new.given ≡ self.old.given }
        ensures turns { OnOk result (TurnsEach self.old.slots.sessions self.new.slots.sessions) }
        ensures control { OnOk result (self.new.over ≡ None → TurnsControl (asked_at_most (late_count self.new.slots)) self.old.control self.new.control) }
        ensures channel { OnOk result (KeepsControl self.old.over self.new.over self.old.control self.new.control) }
        ensures agree { OnOk result (Agrees self.new.slots) }
        ensures retire { CanGiveUp self.new }
        ensures long { length scratch.new ≡ length scratch.old }
    {
        let before = self.control.port.moves();
        if self.over.is_none() {
            self.listen(scratch)?;
        }
        let moved = self.turn_sessions(scratch, over)?;
        if self.over.is_none() {
            self.say()?;
        }
        self.slots.agree();
        Ok(moved | (self.control.port.moves() != before))
    }

    /// Returns how the control channel ended, once all sessions are over too.
    pub(crate) fn ended(&self) -> Option<ControlEnd>
        ensures some { IfSome result (λ over. (self.now.over ≡ Some over) × (self.now.slots.opened ≡ [])) }
        ensures none { result ≡ None → (self.now.over ≡ None) ⊎ (self.now.slots.opened ≢ []) }
    {
        if self.slots.is_idle() {
            self.over
        } else {
            None
        }
    }

    // Makes one turn of each open session. Those that are over are noted to be reported, unless the control
    // channel is over. Returns whether any moved bytes or is over.
    fn turn_sessions(
        &mut self,
        scratch: &mut [u8],
        over: &mut Vec<SessionEnd>,
    ) -> Result<bool, Memory>
        requires running { IsRunning self.old }
        requires some { 0 < length scratch.old }
        requires empty { over.old.items ≡ [] }
        ensures running { OnOk result (IsRunning self.new) }
        ensures empty { OnOk result (over.new.items ≡ []) }
        ensures same { KeepsPort self.old self.new }
        ensures turns { OnOk result (AllTakeTurns self.old.slots.sessions self.new.slots.sessions) }
        ensures next { self.new.control.queue.next ≡ self.old.control.queue.next }
        ensures long { length scratch.new ≡ length scratch.old }
    {
        let moved = self.slots.turn(scratch, over)?;
        if self.over.is_none() {
            self.note_over(over)?;
        }
        over.clear();
        Ok(moved)
    }

    // Appends sessions that are over to those that are to be reported.
    fn note_over(&mut self, over: &[SessionEnd]) -> Result<(), Memory>
        ensures same { OnlyTells self.old self.new }
        ensures told { OnOk result (self.new.control.unsaid.items ≡ self.old.control.unsaid.items ++ over.now) }
    {
        for session in over {
            self.control.unsaid.push_back(*session)?;
        }
        Ok(())
    }

    // Sends what there is to send, after both greetings. With many pages in use the agent requests no more
    // calls: the open sessions go on without that.
    fn say(&mut self) -> Result<(), Memory>
        requires up { IsUp self.old }
        ensures up { OnOk result (IsUp self.new) }
        ensures says { OnOk result (SaysNoMore (asked_at_most (late_count self.old.slots)) self.old.control self.new.control) }
        ensures retire { CanGiveUp self.new }
        ensures same { HasSameEnds self.old self.new }
        ensures slots { self.new.slots ≡ self.old.slots }
    {
        if self.control.port.greeted() && self.control.port.version().is_some() {
            let more = MOST_PAGES.saturating_sub(self.slots.pages_in_use());
            self.control.say_on(self.alloc, more.min(MOST_ASKED))?;
        }
        Ok(())
    }
}
