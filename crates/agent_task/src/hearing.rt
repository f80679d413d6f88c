//! What an agent does on its control channel.
ghost use Rattle.std.specs.Prelude.{◌≡◌, ◌<◌, true, None, OnOk, IfOk, length};
ghost use Rattle.vchan_rule.specs.Seated.{view, IsOpen};
ghost use Rattle.vchan_rule.specs.Ends.{IsSameEnd};
ghost use Rattle.control_port.specs.Port.{HasFewerLeft};
ghost use Rattle.agent_task.specs.Standing.{IsUp, IsHearing, HearsOn, HasHeardOut, HasSameEnds, KeepsOpen, CanGiveUp};
ghost use Rattle.channel_session.specs.Turning.{KeepsBytes};
ghost use Rattle.agent_task.specs.Moving.{Greets, Drains, Listens};
ghost use Rattle.agent_task.specs.Ending.{IsDrained, IsRunning, end_by, over_by};

use crate::agent::Agent;
use qrexec_data::SessionFault;
use task_duties::ControlEnd;
use vchan_io::Memory;
use vchan_lifecycle::DrainAnswer;

impl<'p> Agent<'p> {
    /// Takes what has come on the control channel, after it sent its own greeting, and acts on it. The end is
    /// retired if the channel has ended or something wrong came on it.
    pub(crate) fn listen(&mut self, scratch: &mut [u8]) -> Result<(), Memory>
        requires up { IsUp self.old }
        requires some { 0 < length scratch.old }
        ensures running { OnOk result (IsRunning self.new) }
        ensures given { self.new.given ≡ self.old.given }
        ensures kept { OnOk result (KeepsOpen self.old self.new) }
        ensures next { OnOk result (self.new.control.queue.next ≡ self.old.control.queue.next) }
        ensures end { OnOk result (self.new.over ≡ None → IsSameEnd self.old.control.port.end self.new.control.port.end) }
        ensures listens { OnOk result (self.new.over ≡ None → Listens self.old.control.port self.new.control.port.end) }
        ensures bytes { OnOk result (KeepsBytes (view self.old.control.port.end) (view self.new.control.port.end)) }
        ensures retire { CanGiveUp self.new }
        ensures long { length scratch.new ≡ length scratch.old }
    {
        self.greet()?;
        let drained = self.drain(scratch)?;
        self.hear_all()?;
        self.end_channel(drained);
        Ok(())
    }

    // Sends its own greeting, unless it was sent.
    fn greet(&mut self) -> Result<(), Memory>
        requires up { IsUp self.old }
        ensures up { OnOk result (IsUp self.new) }
        ensures greets { OnOk result (Greets self.old.control.port self.new.control.port) }
        ensures got { OnOk result ((view self.new.control.port.end).got ≡ (view self.old.control.port.end).got) }
        ensures same { HasSameEnds self.old self.new }
        ensures slots { self.new.slots ≡ self.old.slots }
        ensures queue { self.new.control.queue ≡ self.old.control.queue }
        ensures end { IsSameEnd self.old.control.port.end self.new.control.port.end }
        ensures open { IsOpen self.new.control.port.end }
    {
        if !self.control.port.greeted() {
            self.control.port.greet()?;
        }
        Ok(())
    }

    // Takes the bytes that have come.
    fn drain(&mut self, scratch: &mut [u8]) -> Result<DrainAnswer, Memory>
        requires up { IsUp self.old }
        requires some { 0 < length scratch.old }
        ensures hearing { OnOk result (IsHearing self.new) }
        ensures drained { IfOk result (λ drained. IsDrained drained self.new) }
        ensures drains { IfOk result (λ drained. Drains drained self.old.control.port.end self.new.control.port.end) }
        ensures same { HasSameEnds self.old self.new }
        ensures slots { self.new.slots ≡ self.old.slots }
        ensures queue { self.new.control.queue ≡ self.old.control.queue }
        ensures end { IsSameEnd self.old.control.port.end self.new.control.port.end }
        ensures open { IsOpen self.new.control.port.end }
        ensures long { length scratch.new ≡ length scratch.old }
    {
        Ok(self.control.port.drain(scratch)?)
    }

    // Acts on all whole messages that were taken.
    fn hear_all(&mut self) -> Result<(), Memory>
        requires hearing { IsHearing self.old }
        ensures out { OnOk result (HasHeardOut self.new) }
        ensures end { self.new.control.port.end ≡ self.old.control.port.end }
        ensures same { HasSameEnds self.old self.new }
        ensures kept { KeepsOpen self.old self.new }
        ensures next { self.new.control.queue.next ≡ self.old.control.queue.next }
    {
        'messages: while self.hear_next()? {}
        Ok(())
    }

    // Acts on the next message. Returns whether there was one.
    fn hear_next(&mut self) -> Result<bool, Memory>
        requires hearing { IsHearing self.old }
        ensures hears { IfOk result (λ more. HearsOn more self.new) }
        ensures fewer { result ≡ Ok true → HasFewerLeft self.old.control.port self.new.control.port }
        ensures end { self.new.control.port.end ≡ self.old.control.port.end }
        ensures same { HasSameEnds self.old self.new }
        ensures kept { KeepsOpen self.old self.new }
        ensures next { self.new.control.queue.next ≡ self.old.control.queue.next }
    {
        match self.control.port.next()? {
            Some(message) => {
                self.hear(message)?;
                Ok(true)
            }
            None => Ok(false),
        }
    }

    // Retires the end of a channel that is over: something wrong was heard, or the drain found the end.
    fn end_channel(&mut self, drained: DrainAnswer)
        requires out { HasHeardOut self.old }
        requires drained { IsDrained drained self.old }
        ensures running { IsRunning self.new }
        ensures given { self.new.given ≡ self.old.given }
        ensures slots { self.new.slots ≡ self.old.slots }
        ensures queue { self.new.control.queue ≡ self.old.control.queue }
        ensures up { self.new.over ≡ None → (self.new.control ≡ self.old.control) × (end_by drained ≡ None) }
        ensures bytes { KeepsBytes (view self.old.control.port.end) (view self.new.control.port.end) }
        ensures retire { CanGiveUp self.new }
    {
        match over_by(self.control.port.fault(), drained) {
            Some(over) => {
                self.control.port.hang_up();
                self.over = Some(over);
            }
            None => {}
        }
    }
}

// How the channel is over: by what is wrong with what was heard, or else by the drain.
fn over_by(fault: Option<SessionFault>, drained: DrainAnswer) -> Option<ControlEnd>
    ensures { result ≡ over_by fault drained }
{
    match fault {
        Some(fault) => Some(ControlEnd::Fault(fault)),
        None => end_by(drained),
    }
}

// How a drain shows that the channel is over.
fn end_by(drained: DrainAnswer) -> Option<ControlEnd>
    ensures { result ≡ end_by drained }
{
    match drained {
        DrainAnswer::More { .. } | DrainAnswer::NotYet { .. } => None,
        DrainAnswer::AllRead => Some(ControlEnd::Drained),
        DrainAnswer::PeerGone { .. } => Some(ControlEnd::Gone),
    }
}
