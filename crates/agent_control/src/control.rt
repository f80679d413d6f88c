//! The control channel of an agent, with its calls, and what the agent sends there.
ghost use Rattle.std.specs.Prelude.{◌≡◌, ◌+◌, [], ℕ, true, false, Some, None, OnOk, IfOk};
ghost use Rattle.qrexec_frame.specs.Messages.{written, IsSpellable as Fits};
ghost use Rattle.qrexec_frame.specs.declared.message.Message.{Message as Said};
ghost use Rattle.task_duties.specs.Hearing.{to_broker};
ghost use Rattle.vchan_rule.specs.Seated.{IsOpen};
ghost use Rattle.vchan_rule.specs.Ends.{IsSameEnd};
ghost use Rattle.vchan_packet.specs.Packet.{FailsToSend};
ghost use Rattle.agent_queue.specs.Queue.{asked_by};
ghost use Rattle.agent_control.specs.Speaking.{CanSpeak, HasCall, SaysMore, Tells, Says, terminated};
ghost use Rattle.agent_control.specs.Stopping.{FindsLess, EndWaits, HoldsBack, Stops, Unless};

use agent_queue::CallQueue;
use control_port::ControlPort;
use qrexec_frame::Message;
use std::alloc::Global;
use std::collections::VecDeque;
use task_duties::SessionEnd;
use vchan_io::Memory;
use vchan_packet::SendAnswer;

/// An agent's port, the queue of its calls, and the ends of sessions that it has to report.
#[derive(Drop)]
pub struct AgentControl<'p> {
    /// The port of its control channel.
    pub port: ControlPort<'p>,
    /// The calls that the agent makes.
    pub queue: CallQueue,
    /// The ends of sessions that weren't reported yet, the first one first.
    pub unsaid: VecDeque<SessionEnd>,
}

impl<'p> AgentControl<'p> {
    /// Sends what there is to send, as far as there is room: the ends of sessions, and then the triggers of
    /// at most `calls` calls. It stops at the first message for which the end finds no room, or whose send
    /// finds the peer shut. Returns `Memory` if memory runs out; the end can still be retired then, and
    /// nothing is promised of what was sent.
    pub fn say_on(&mut self, alloc: Global, calls: usize) -> Result<(), Memory>
        requires can { CanSpeak self.old }
        ensures end { IsSameEnd self.old.port.end self.new.port.end }
        ensures open { IsOpen self.new.port.end }
        ensures more { OnOk result (SaysMore calls self.old self.new) }
        ensures why { OnOk result (Stops calls self.old self.new) }
    {
        if !self.say_ends()? {
            return Ok(());
        }
        self.say_triggers(alloc, calls)?;
        Ok(())
    }

    // Reports the ends of sessions, the first one first. Returns whether all were reported.
    fn say_ends(&mut self) -> Result<bool, Memory>
        requires can { CanSpeak self.old }
        ensures end { IsSameEnd self.old.port.end self.new.port.end }
        ensures open { IsOpen self.new.port.end }
        ensures more { OnOk result (SaysMore 0 self.old self.new) }
        ensures all { IfOk result (λ all. all ≡ true → self.new.unsaid.items ≡ []) }
        ensures why { IfOk result (λ all. Unless all (EndWaits self.old self.new)) }
        ensures next { OnOk result (self.new.queue.next ≡ self.old.queue.next) }
    {
        'ends: while let Some(end) = self.unsaid.front().copied() {
            if !self.tell(end)? {
                return Ok(false);
            }
            let _told = self.unsaid.pop_front();
        }
        Ok(true)
    }

    // Reports the end of a session. Returns whether the message was sent.
    #[inline(never)]
    fn tell(&mut self, end: SessionEnd) -> Result<bool, Memory>
        requires can { CanSpeak self.old }
        requires call { HasCall (asked_by self.old.queue) end.call }
        ensures end { IsSameEnd self.old.port.end self.new.port.end }
        ensures open { IsOpen self.new.port.end }
        ensures tells { IfOk result (λ gone. Tells self.old self.new end gone) }
        ensures why { IfOk result (λ gone. Unless gone (FailsToSend (written (terminated end)) self.old.port.end self.new.port.end)) }
        ensures next { OnOk result (self.new.queue.next ≡ self.old.queue.next) }
    {
        let message = Message::Terminated {
            domain: end.domain,
            port: end.port,
        };
        let said = self.say(&message);
        // In a call: dropped here, each kind of message would be an exit of its own in the proof.
        drop(message);
        if !said? {
            return Ok(false);
        }
        match end.call {
            Some(place) => {
                self.queue.ended(place);
                Ok(true)
            }
            None => Ok(true),
        }
    }

    // Sends the triggers of at most `calls` calls, as far as the limit and the room allow. No end of a
    // session waits.
    fn say_triggers(&mut self, alloc: Global, calls: usize) -> Result<(), Memory>
        requires can { CanSpeak self.old }
        requires none { self.old.unsaid.items ≡ [] }
        ensures end { IsSameEnd self.old.port.end self.new.port.end }
        ensures open { IsOpen self.new.port.end }
        ensures more { OnOk result (SaysMore calls self.old self.new) }
        ensures why { OnOk result (Stops calls self.old self.new) }
    {
        'triggers: for _call in 0..calls {
            if !self.say_trigger(alloc)? {
                return Ok(());
            }
        }
        Ok(())
    }

    // Sends the next trigger. Returns whether one was sent. A trigger for which there is no room isn't made,
    // so a turn without room takes no memory.
    fn say_trigger(&mut self, alloc: Global) -> Result<bool, Memory>
        requires can { CanSpeak self.old }
        requires none { self.old.unsaid.items ≡ [] }
        ensures end { IsSameEnd self.old.port.end self.new.port.end }
        ensures open { IsOpen self.new.port.end }
        ensures more { OnOk result (SaysMore 1 self.old self.new) }
        ensures why { IfOk result (λ gone. Unless gone (HoldsBack self.old self.new)) }
        ensures next { IfOk result (λ gone. gone ≡ true → self.new.queue.next ≡ self.old.queue.next + 1) }
    {
        let Some(version) = self.port.version() else {
            return Ok(false);
        };
        let Some(len) = self.queue.front_len(version) else {
            return Ok(false);
        };
        if !self.has_room(len) {
            return Ok(false);
        }
        Ok(self.say_front(alloc, version)?)
    }

    // Whether there is room for `len` bytes now.
    fn has_room(&mut self, len: usize) -> bool
        requires can { CanSpeak self.old }
        ensures end { IsSameEnd self.old.port.end self.new.port.end }
        ensures open { IsOpen self.new.port.end }
        ensures none { (m : Said) → Says self.old self.new m false }
        ensures less { Unless result (FindsLess self.old.port.end self.new.port.end len) }
    {
        len <= self.port.room() as usize
    }

    // Makes the next trigger, in the version that was agreed on, and sends it. Returns whether it was sent.
    #[inline(never)]
    fn say_front(&mut self, alloc: Global, version: u32) -> Result<bool, Memory>
        requires can { CanSpeak self.old }
        requires version { self.old.port.version ≡ Some version }
        requires none { self.old.unsaid.items ≡ [] }
        ensures end { IsSameEnd self.old.port.end self.new.port.end }
        ensures open { IsOpen self.new.port.end }
        ensures more { OnOk result (SaysMore 1 self.old self.new) }
        ensures why { IfOk result (λ gone. Unless gone (HoldsBack self.old self.new)) }
        ensures next { IfOk result (λ gone. gone ≡ true → self.new.queue.next ≡ self.old.queue.next + 1) }
    {
        let Some(message) = self.queue.front(alloc, version)? else {
            return Ok(false);
        };
        let said = self.say(&message);
        // In a call, for the same reason as in `tell`.
        drop(message);
        if !said? {
            return Ok(false);
        }
        self.queue.triggered();
        Ok(true)
    }

    // Sends one message. Returns whether it was sent.
    fn say(&mut self, message: &Message) -> Result<bool, Memory>
        requires can { CanSpeak self.old }
        requires fits { Fits message.now }
        requires may { to_broker message.now ≡ true }
        ensures end { IsSameEnd self.old.port.end self.new.port.end }
        ensures open { IsOpen self.new.port.end }
        ensures says { IfOk result (λ gone. Says self.old self.new message.now gone) }
        ensures why { IfOk result (λ gone. Unless gone (FailsToSend (written message.now) self.old.port.end self.new.port.end)) }
    {
        match self.port.say(message)? {
            SendAnswer::Sent => Ok(true),
            SendAnswer::NoRoom { .. } => Ok(false),
            // A later drain finds that the peer is shut.
            SendAnswer::PeerClosed => Ok(false),
        }
    }
}
