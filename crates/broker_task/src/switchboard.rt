//! The broker with all its domains.
ghost use Rattle.std.specs.Prelude.{◌≡◌, ◌≢◌, ℕ, ◌+◌, ◌-◌, ◌<◌, ◌≤◌, ◌++◌, ◌∷◌, List, [], length, true, false, Ok, OnOk, IfOk};
ghost use Rattle.call_broker.specs.declared.decision.Entry.{Entry as Kept};
ghost use Rattle.call_broker.specs.declared.event.Event.{Event as Told};
ghost use Rattle.call_broker.specs.declared.decision.Decision.{Decision as Decided};
ghost use Rattle.call_broker.specs.Domains.{Domains, is_domain};
ghost use Rattle.task_duties.specs.Broker.Outbox.{is_from};
ghost use Rattle.broker_task.specs.declared.daemon.Daemon.{Daemon as Attended};
ghost use Rattle.broker_task.specs.Letters.{IsAt};
ghost use Rattle.broker_task.specs.Moving.{Steps, StandsBy, Decides, SendsAsTold, SendsOrNot};
ghost use Rattle.broker_task.specs.Replies.{IsReplyTo, IsWithin, AreFit, HasShortNames};
ghost use Rattle.broker_task.specs.Posting.{EachMoves, Posts, SamePort, IsPosting, IsHearing, HasHeardOut, SameEnd, IsSending, HasGone, AreIdle, waiting_in};
ghost use Rattle.broker_task.specs.Holding.{lines_of, HoldsForExecs, IsLetGo, HoldsBut};
ghost use Rattle.broker_task.specs.Lines.{HasRoom, IsSameDaemon, KeepsEnd};
ghost use Rattle.call_broker.specs.Pair.{decision};
ghost use Rattle.call_broker.specs.Journal.{events};

use crate::daemon::Daemon;
use crate::reply::{Reply, reply_to};
use call_broker::{Broker, Event};
use qrexec_frame::Message;
use vchan_io::Memory;

/// The broker with what it keeps for each domain, in the order of their numbers.
#[derive(Drop)]
pub(crate) struct Switchboard<'p> {
    pub(crate) broker: Broker,
    pub(crate) daemons: Vec<Daemon<'p>>,
}

impl<'p> Switchboard<'p> {
    /// Returns how often the broker's ends have moved something. Nothing is promised of the count.
    pub(crate) fn moves(&self) -> u64 {
        let mut moves: u64 = 0;
        for daemon in &self.daemons {
            moves = moves.wrapping_add(daemon.port.moves());
        }
        moves
    }

    // Decides all that a domain has sent, as far as it was taken.
    pub(crate) fn hear(&mut self, domain: u32) -> Result<(), Memory>
        requires posting { IsPosting self.old.broker.hub self.old.broker.journal self.old.daemons.items }
        requires names { HasShortNames self.old.broker.hub }
        requires number { is_domain self.old.broker.hub domain ≡ true }
        requires hearing { IsHearing domain self.old.broker.journal self.old.daemons.items }
        requires holds { HoldsForExecs (lines_of self.old.daemons.items) }
        ensures hub { self.new.broker.hub ≡ self.old.broker.hub }
        ensures posting { OnOk result (IsPosting self.new.broker.hub self.new.broker.journal self.new.daemons.items) }
        ensures heard { OnOk result (HasHeardOut domain self.new.broker.journal self.new.daemons.items) }
        ensures holds { OnOk result (HoldsForExecs (lines_of self.new.daemons.items)) }
        ensures ends { EachMoves SameEnd self.old.daemons.items self.new.daemons.items }
        ensures steps { OnOk result (EachMoves (Steps domain Decides) self.old.daemons.items self.new.daemons.items) }
    {
        while let Some(event) = self.daemons[domain as usize - 1].next()? {
            self.decide(domain, event)?;
        }
        Ok(())
    }

    // Sends to a domain what waits for it, as far as it isn't held and there is room.
    pub(crate) fn send(&mut self, domain: u32) -> Result<(), Memory>
        requires number { is_domain self.old.broker.hub domain ≡ true }
        requires sending { IsSending self.old.broker.hub domain self.old.broker.journal self.old.daemons.items }
        requires holds { HoldsForExecs (lines_of self.old.daemons.items) }
        ensures broker { self.new.broker ≡ self.old.broker }
        ensures idle { AreIdle self.new.daemons.items }
        ensures kept { EachMoves (λ d. KeepsEnd) self.old.daemons.items self.new.daemons.items }
        ensures sending { OnOk result (IsSending self.new.broker.hub domain self.new.broker.journal self.new.daemons.items) }
        ensures holds { OnOk result (HoldsForExecs (lines_of self.new.daemons.items)) }
        ensures same { OnOk result (EachMoves (λ d. IsSameDaemon) self.old.daemons.items self.new.daemons.items) }
        ensures steps { OnOk result (EachMoves (Steps domain SendsOrNot) self.old.daemons.items self.new.daemons.items) }
    {
        'letters: while self.send_one(domain)? {}
        Ok(())
    }

    // Sends one message to a domain. Returns whether one was sent.
    fn send_one(&mut self, domain: u32) -> Result<bool, Memory>
        requires number { is_domain self.old.broker.hub domain ≡ true }
        requires sending { IsSending self.old.broker.hub domain self.old.broker.journal self.old.daemons.items }
        requires holds { HoldsForExecs (lines_of self.old.daemons.items) }
        ensures broker { self.new.broker ≡ self.old.broker }
        ensures idle { AreIdle self.new.daemons.items }
        ensures kept { EachMoves (λ d. KeepsEnd) self.old.daemons.items self.new.daemons.items }
        ensures sending { OnOk result (IsSending self.new.broker.hub domain self.new.broker.journal self.new.daemons.items) }
        ensures holds { OnOk result (HoldsForExecs (lines_of self.new.daemons.items)) }
        ensures same { OnOk result (EachMoves (λ d. IsSameDaemon) self.old.daemons.items self.new.daemons.items) }
        ensures steps { IfOk result (λ more. EachMoves (Steps domain (SendsAsTold more)) self.old.daemons.items self.new.daemons.items) }
        ensures fewer { result ≡ Ok true → waiting_in self.new.daemons.items (domain - 1) < waiting_in self.old.daemons.items (domain - 1) }
    {
        match self.daemons[domain as usize - 1].send()? {
            Some(message) => {
                self.let_go(domain, &message);
                // In a call: dropped here, each kind of message would be an exit of its own in the proof.
                drop(message);
                Ok(true)
            }
            None => Ok(false),
        }
    }

    // Once an Exec was sent to a domain, the Connect of its call may be sent.
    fn let_go(&mut self, domain: u32, gone: &Message)
        requires went { HasGone self.old.broker.hub domain self.old.broker.journal self.old.daemons.items gone.now }
        requires holds { HoldsBut (IsLetGo domain gone.now) (lines_of self.old.daemons.items) }
        ensures broker { self.new.broker ≡ self.old.broker }
        ensures sending { IsSending self.old.broker.hub domain self.old.broker.journal self.new.daemons.items }
        ensures holds { HoldsForExecs (lines_of self.new.daemons.items) }
        ensures same { EachMoves (λ d. IsSameDaemon) self.old.daemons.items self.new.daemons.items }
        ensures by { EachMoves (λ d. StandsBy) self.old.daemons.items self.new.daemons.items }
        ensures waiting { (i : ℕ) → i < length self.old.daemons.items → waiting_in self.new.daemons.items i ≡ waiting_in self.old.daemons.items i }
    {
        match gone {
            Message::Exec {
                domain: caller,
                port,
                ..
            } => self.daemons[*caller as usize - 1]
                .outbox
                .release_call(domain, *port),
            _ => {}
        }
    }

    // Decides an event of a domain, and puts the messages that follow into the outboxes.
    #[inline(never)]
    fn decide(&mut self, from: u32, event: Event) -> Result<(), Memory>
        requires posting { IsPosting self.old.broker.hub self.old.broker.journal self.old.daemons.items }
        requires names { HasShortNames self.old.broker.hub }
        requires sender { is_domain self.old.broker.hub from ≡ true }
        requires own { is_from from event ≡ true }
        requires room { HasRoom event }
        requires holds { HoldsForExecs (lines_of self.old.daemons.items) }
        ensures ports { EachMoves SamePort self.old.daemons.items self.new.daemons.items }
        ensures by { OnOk result (EachMoves (λ d. StandsBy) self.old.daemons.items self.new.daemons.items) }
        ensures hub { self.new.broker.hub ≡ self.old.broker.hub }
        ensures entry { OnOk result (self.new.broker.journal ≡ self.old.broker.journal ++ record { event = event; decision = decision self.old.broker.hub (events self.old.broker.journal) event } ∷ []) }
        ensures posting { OnOk result (IsPosting self.new.broker.hub self.new.broker.journal self.new.daemons.items) }
        ensures holds { OnOk result (HoldsForExecs (lines_of self.new.daemons.items)) }
    {
        let alloc = *self.daemons.allocator();
        let decision = self.broker.event(event)?;
        let journal = self.broker.journal();
        let event = &journal[journal.len() - 1].event;
        let reply = reply_to(alloc, &self.broker, event, decision)?;
        post(self.daemons.as_mut_slice(), from, reply)
    }
}

// Puts the messages that follow from the decision on an event of a domain into the outboxes.
fn post(daemons: &mut [Daemon<'_>], from: u32, reply: Reply) -> Result<(), Memory>
    requires sender { (1 ≤ from) × (from ≤ length daemons.old) }
    requires target { IsWithin (length daemons.old) reply }
    requires few { (i : ℕ) (x : Attended) → IsAt daemons.old i x → x.answered < usize.MAX }
    ensures ports { EachMoves SamePort daemons.old daemons.new }
    ensures posts { (hub : Domains) (event : Told) (decided : Decided) → is_from from event ≡ true → IsReplyTo hub event decided reply → AreFit hub reply →
        OnOk result (EachMoves (Posts hub (record { event = event; decision = decided })) daemons.old daemons.new) }
{
    match reply {
        Reply::Nothing => Ok(()),
        Reply::Refused { refused } => daemons[from as usize - 1].answer(refused, false),
        Reply::Accepted { to, exec, connect } => {
            match daemons[from as usize - 1].answer(connect, true) {
                Ok(()) => daemons[to as usize - 1].outbox.put(exec, false),
                Err(Memory) => {
                    // In a call, for the same reason as in `send_one`.
                    drop(exec);
                    Err(Memory)
                }
            }
        }
    }
}
