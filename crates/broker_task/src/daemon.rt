//! One domain's side of the broker.
ghost use Rattle.std.specs.Prelude.{◌≡◌, ℕ, ◌+◌, ◌<◌, ◌≤◌, ◌++◌, ◌∷◌, List, [], false, true, None, Some, Ok, OnOk, IfOk, IfSome, length, is_none, ◌↔◌, IsTrue, IsSome, is_some};
ghost use Rattle.ring_words.specs.declared.page.Role.TheVariants.{Client};
ghost use Rattle.vchan_rule.specs.Seated.{view, IsOpen};
ghost use Rattle.end_view.specs.EndView.{IsUnused};
ghost use Rattle.qrexec_frame.specs.declared.message.Message.{Message as Said};
ghost use Rattle.qrexec_frame.specs.Messages.{IsSpellable};
ghost use Rattle.std.specs.List.{AllByRecursion as Each};
ghost use Rattle.call_broker.specs.declared.event.Event.{Event as Told};
ghost use Rattle.control_port.specs.Port.{HasSaid, HasFewerLeft};
ghost use Rattle.control_port.specs.declared.talk.Talker.TheVariants.{Broker};
ghost use Rattle.task_duties.specs.Hearing.{to_agent, to_broker};
ghost use Rattle.task_duties.specs.Broker.Outbox.{event_of};
ghost use Rattle.broker_task.specs.Moving.{Begins, ListensAsTold, GreetsAsTold, SendsAsTold};
ghost use Rattle.broker_task.specs.Lines.{end_of, broker_end, is_gone, first_view, MayDrop, IsGoing, IsLine, ReadsOn, HasRead, HandsOut, SendsOne, IsReply, IsSameDaemon, KeepsEnd, OnlyPort, more_may_come};

use crate::outbox::Outbox;
use call_broker::Event;
use control_port::{ControlPort, Talker};
use qrexec_frame::Message;
use std::alloc::Global;
use task_duties::{DoneEnd, PagePlace, RetiredEnd};
use vchan_core::EndState;
use vchan_io::Memory;
use vchan_lifecycle::DrainAnswer;
use vchan_packet::SendAnswer;
use vchan_rule::End;

/// The version that the broker announces to each domain.
const VERSION: u32 = 3;

/// What the broker keeps for one domain: the work of a `qrexec-daemon`.
#[derive(Drop)]
pub(crate) struct Daemon<'p> {
    pub(crate) domain: u32,
    pub(crate) port: ControlPort<'p>,
    pub(crate) outbox: Outbox,
    // How many calls of the domain are awaited, and how many of its triggers were answered.
    pub(crate) awaited: u32,
    pub(crate) answered: usize,
}

impl<'p> Daemon<'p> {
    pub(crate) fn new(alloc: Global, domain: u32, control: End<'p>, awaited: u32) -> Daemon<'p>
        requires unused { IsUnused (view control) }
        requires client { (view control).role ≡ Client }
        ensures line { IsLine domain result }
        ensures up { is_gone result ≡ false }
        ensures read { HasRead result [] }
        ensures said { HasSaid result.port [] }
        ensures outbox { result.outbox.letters.items ≡ [] }
        ensures counts { (result.awaited ≡ awaited) × (result.answered ≡ 0) }
        ensures given { first_view (end_of result) ≡ view control.entry }
        ensures unused { IsUnused (end_of result) }
    {
        Daemon {
            domain,
            port: ControlPort::new(alloc, control, Talker::Broker, VERSION),
            outbox: Outbox::new(alloc),
            awaited,
            answered: 0,
        }
    }

    /// Returns whether the domain was dropped, so that its end is retired.
    pub(crate) fn is_gone(&self) -> bool
        ensures { result ≡ is_gone self.now }
    {
        match self.port.state() {
            EndState::Fresh | EndState::Open => false,
            EndState::Shut => true,
        }
    }

    /// Returns whether nothing is wrong with what was handed out.
    pub(crate) fn is_fine(&self) -> bool
        ensures { result ≡ is_none self.now.port.fault }
    {
        self.port.fault().is_none()
    }

    // Connects in the first turn. Returns whether the page has the orders that it should have.
    fn is_connected(&mut self) -> bool
        requires line { IsLine self.old.domain self.old }
        requires up { is_gone self.old ≡ false }
        ensures port { OnlyPort self.old self.new }
        ensures line { IsLine self.new.domain self.new }
        ensures up { is_gone self.new ≡ false }
        ensures open { result ≡ true → IsOpen self.new.port.end × (IsGoing (end_of self.old) → IsGoing (end_of self.new)) }
        ensures cause { result ≡ false → MayDrop (broker_end self.new) }
        ensures got { (end_of self.new).got ≡ (end_of self.old).got }
        ensures sent { (end_of self.new).sent ≡ (end_of self.old).sent }
        ensures begins { result ≡ true → Begins self.old.port.end self.new.port.end }
        ensures said { (said : List Said) → HasSaid self.old.port said → HasSaid self.new.port said }
        ensures read { (events : List Told) → ReadsOn self.old events → ReadsOn self.new events }
        ensures same { IsSameDaemon self.old self.new × (self.new.port.version ≡ self.old.port.version) }
    {
        if self.port.state() != EndState::Fresh {
            return true;
        }
        match self.port.connect() {
            Ok(()) => true,
            Err(_orders) => false,
        }
    }

    // Whether the domain isn't read because its outbox is full. A domain that hasn't greeted is still read:
    // nothing that waits for it may be sent before its greeting was read.
    fn is_unread(&self) -> bool
        ensures { IsTrue result ↔ IsSome self.now.port.version × (64 ≤ length self.now.outbox.letters.items) }
    {
        self.port.version().is_some() && self.outbox.is_full()
    }

    /// Takes what has come, after the connect of the first turn. If a domain that has greeted has a full
    /// outbox, it only asks whether the domain is gone. Returns whether the domain is still there.
    pub(crate) fn listen(&mut self, buf: &mut [u8]) -> Result<bool, Memory>
        requires line { IsLine self.old.domain self.old }
        requires up { is_gone self.old ≡ false }
        requires some { 0 < length buf.old }
        ensures port { OnlyPort self.old self.new }
        ensures long { length buf.new ≡ length buf.old }
        ensures idle { (end_of self.new).idle ≡ true }
        ensures kept { KeepsEnd self.old self.new }
        ensures line { OnOk result (IsLine self.new.domain self.new) }
        ensures up { OnOk result (is_gone self.new ≡ false) }
        ensures open { result ≡ Ok true → IsOpen self.new.port.end × (IsGoing (end_of self.old) → IsGoing (end_of self.new)) }
        ensures cause { result ≡ Ok false → MayDrop (broker_end self.new) }
        ensures listens { IfOk result (λ there. ListensAsTold there self.old self.new) }
        ensures full { IsSome self.old.port.version → 64 ≤ length self.old.outbox.letters.items → (end_of self.new).got ≡ (end_of self.old).got }
        ensures said { (said : List Said) → HasSaid self.old.port said → OnOk result (HasSaid self.new.port said) }
        ensures read { (events : List Told) → ReadsOn self.old events → OnOk result (ReadsOn self.new events) }
        ensures same { OnOk result (IsSameDaemon self.old self.new) }
    {
        if !self.is_connected() {
            return Ok(false);
        }
        if self.is_unread() {
            return Ok(!self.port.peer_gone());
        }
        let drained = self.port.drain(buf)?;
        Ok(more_may_come(&drained))
    }

    /// Hands out the next event that the domain has sent. Returns `None` if none is left of what was taken,
    /// or if something is wrong with it.
    pub(crate) fn next(&mut self) -> Result<Option<Event>, Memory>
        requires line { IsLine self.old.domain self.old }
        requires fine { self.old.port.fault ≡ None }
        ensures port { OnlyPort self.old self.new }
        ensures end { self.new.port.end ≡ self.old.port.end }
        ensures line { IsLine self.new.domain self.new }
        ensures hands { (events : List Told) → ReadsOn self.old events → IfOk result (λ event. HandsOut self.new events event) }
        ensures said { (said : List Said) → HasSaid self.old.port said → HasSaid self.new.port said }
        ensures fewer { IfOk result (λ event. IfSome event (λ e. HasFewerLeft self.old.port self.new.port)) }
    {
        match self.port.next()? {
            Some(message) => Ok(Some(event_of(self.domain, message))),
            None => Ok(None),
        }
    }

    /// Sends the first of its messages that isn't held, if there is room. Its own greeting is sent before all
    /// others, once the domain's greeting was read. Returns the message that was sent.
    pub(crate) fn send(&mut self) -> Result<Option<Message>, Memory>
        requires line { IsLine self.old.domain self.old }
        requires open { IsOpen self.old.port.end }
        requires letters { Each (λ l. IsReply l.message) self.old.outbox.letters.items }
        ensures same { OnOk result (IsSameDaemon self.old self.new × (self.new.answered ≡ self.old.answered)) }
        ensures idle { (end_of self.new).idle ≡ true }
        ensures kept { KeepsEnd self.old self.new }
        ensures line { OnOk result (IsLine self.new.domain self.new) }
        ensures open { OnOk result (IsOpen self.new.port.end) }
        ensures sends { (said : List Said) → HasSaid self.old.port said → IfOk result (λ gone. SendsOne self.old self.new said gone) }
        ensures moves { IfOk result (λ gone. SendsAsTold (is_some gone) self.old self.new) }
        ensures read { (events : List Told) → HasRead self.old events → OnOk result (HasRead self.new events) }
    {
        if !self.greet()? {
            return Ok(None);
        }
        let Some(at) = self.outbox.first_ready() else {
            return Ok(None);
        };
        match self.port.say(self.outbox.message(at))? {
            SendAnswer::Sent => Ok(Some(self.outbox.take(at))),
            _ => Ok(None),
        }
    }

    // Sends its own greeting, once the domain's greeting was read. Returns whether it was sent.
    fn greet(&mut self) -> Result<bool, Memory>
        requires line { IsLine self.old.domain self.old }
        requires open { IsOpen self.old.port.end }
        ensures port { OnlyPort self.old self.new }
        ensures same { OnOk result (IsSameDaemon self.old self.new) }
        ensures idle { (end_of self.new).idle ≡ true }
        ensures kept { KeepsEnd self.old self.new }
        ensures line { OnOk result (IsLine self.new.domain self.new) }
        ensures open { IsOpen self.new.port.end }
        ensures greeted { result ≡ Ok true → self.new.port.greeted ≡ true }
        ensures moves { IfOk result (λ greeted. GreetsAsTold greeted self.old self.new) }
        ensures said { (said : List Said) → HasSaid self.old.port said → OnOk result (HasSaid self.new.port said) }
        ensures read { (events : List Told) → HasRead self.old events → OnOk result (HasRead self.new events) }
    {
        if self.port.greeted() {
            return Ok(true);
        }
        if self.port.version().is_none() {
            return Ok(false);
        }
        match self.port.greet()? {
            SendAnswer::Sent => Ok(true),
            _ => Ok(false),
        }
    }

    /// Puts the answer to one of the domain's triggers after its other messages.
    pub(crate) fn answer(&mut self, answer: Message, held: bool) -> Result<(), Memory>
        requires { self.old.answered < usize.MAX }
        ensures port { self.new.port ≡ self.old.port }
        ensures same { (self.new.domain ≡ self.old.domain) × (self.new.awaited ≡ self.old.awaited) }
        ensures put { OnOk result (self.new.outbox.letters.items ≡ self.old.outbox.letters.items ++ record { message = answer; held = held } ∷ []) }
        ensures counted { OnOk result (self.new.answered ≡ self.old.answered + 1) }
    {
        self.outbox.put(answer, held)?;
        self.answered += 1;
        Ok(())
    }

    /// Retires the end of a domain that is dropped, and gives up the messages that wait for it.
    pub(crate) fn hang_up(&mut self)
        requires line { IsLine self.old.domain self.old }
        requires cause { MayDrop (broker_end self.old) }
        ensures gone { is_gone self.new ≡ true }
        ensures line { IsLine self.new.domain self.new }
        ensures said { (said : List Said) → HasSaid self.old.port said → HasSaid self.new.port said }
        ensures got { (end_of self.new).got ≡ (end_of self.old).got }
        ensures sent { (end_of self.new).sent ≡ (end_of self.old).sent }
        ensures version { self.new.port.version ≡ self.old.port.version }
        ensures outbox { self.new.outbox.letters.items ≡ [] }
        ensures same { IsSameDaemon self.old self.new × (self.new.answered ≡ self.old.answered) }
    {
        self.port.hang_up();
        self.outbox.clear();
    }
}

impl<'p> Daemon<'p> {
    ghost use Rattle.broker_task.specs.Given.{IsRetiredOf, IsGivenBack};

    /// Returns whether all messages were sent, if calls of the domain are awaited.
    pub(crate) fn has_said_all(&self) -> bool
        ensures { IsTrue result ↔ (0 < self.now.awaited → self.now.outbox.letters.items ≡ []) }
    {
        self.awaited == 0 || self.outbox.is_empty()
    }

    /// Gives its end back, and retires it first unless that was done when the domain was dropped.
    pub(crate) fn retire(self) -> RetiredEnd
        requires { IsLine self.domain self }
        ensures { IsRetiredOf self.entry result }
    {
        let gone = self.is_gone();
        let Daemon { domain, port, .. } = self;
        let place = PagePlace::Control { domain };
        if gone {
            let retired = port.rest();
            return RetiredEnd {
                place,
                retired: DoneEnd::Laid(retired),
            };
        }
        let retired = port.retire();
        RetiredEnd {
            place,
            retired: DoneEnd::Laid(retired),
        }
    }

    /// Retires its end and gives it back where memory ran out. An end that was retired before signals its peer
    /// once more.
    pub(crate) fn give_up(self) -> RetiredEnd
        requires { (end_of self).idle ≡ true }
        ensures { IsGivenBack self.entry result }
    {
        let Daemon { domain, port, .. } = self;
        let place = PagePlace::Control { domain };
        let retired = port.retire();
        RetiredEnd {
            place,
            retired: DoneEnd::Laid(retired),
        }
    }
}

// Whether more may come after this answer of a drain.
fn more_may_come(drained: &DrainAnswer) -> bool
    ensures { result ≡ more_may_come drained.now }
{
    match drained {
        DrainAnswer::More { .. } | DrainAnswer::NotYet { .. } => true,
        DrainAnswer::AllRead | DrainAnswer::PeerGone { .. } => false,
    }
}

// The event that a domain's message stands for.
fn event_of(domain: u32, message: Message) -> Event
    requires { to_broker message ≡ true }
    ensures { Some result ≡ event_of domain message }
{
    match message {
        Message::Trigger3 {
            target,
            ident,
            service,
        }
        | Message::Trigger {
            target,
            ident,
            service,
        } => Event::Trigger {
            from: domain,
            target,
            service,
            ident,
        },
        Message::Terminated {
            domain: other,
            port,
        } => Event::Terminated {
            from: domain,
            other,
            port,
        },
        _ => unreachable!(),
    }
}
