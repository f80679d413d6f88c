//! A round over all domains.
ghost use Rattle.std.specs.Prelude.{◌≡◌, ◌<◌, ℕ, length, true, None, OnOk, IfOk};
ghost use Rattle.call_broker.specs.Domains.{is_domain};
ghost use Rattle.broker_task.specs.Lines.{broker_end, MayDrop, IsSameDaemon, KeepsEnd};
ghost use Rattle.broker_task.specs.Posting.{EachAt, EachMoves, LetsGo, IsPosting, HasHeardOut, HaveRead, AreIdle};
ghost use Rattle.broker_task.specs.Holding.{lines_of, HoldsForExecs};
ghost use Rattle.broker_task.specs.Rounds.{IsReady, GoesOn, IsUp, HasListened};
ghost use Rattle.broker_task.specs.Moving.{Steps, ListensAsTold, IsDropped, Turns};

use crate::daemon::Daemon;
use crate::switchboard::Switchboard;
use call_broker::Event;
use vchan_io::Memory;

impl<'p> Switchboard<'p> {
    /// Attends to each domain in turn.
    pub(crate) fn round(&mut self, buf: &mut [u8]) -> Result<(), Memory>
        requires ready { IsReady self.old }
        requires some { 0 < length buf.old }
        ensures idle { AreIdle self.new.daemons.items }
        ensures kept { EachMoves (λ d. KeepsEnd) self.old.daemons.items self.new.daemons.items }
        ensures goes { OnOk result (GoesOn self.old self.new) }
        ensures turns { OnOk result (EachMoves (λ d. Turns) self.old.daemons.items self.new.daemons.items) }
    {
        for at in 0..self.daemons.len() {
            let domain = self.daemons[at].domain;
            self.attend(domain, buf)?;
        }
        Ok(())
    }

    // Takes and decides what a domain has sent, and sends to it what waits. A domain that is gone, or that
    // has sent something wrong, is dropped.
    fn attend(&mut self, domain: u32, buf: &mut [u8]) -> Result<(), Memory>
        requires ready { IsReady self.old }
        requires number { is_domain self.old.broker.hub domain ≡ true }
        requires some { 0 < length buf.old }
        ensures idle { AreIdle self.new.daemons.items }
        ensures kept { EachMoves (λ d. KeepsEnd) self.old.daemons.items self.new.daemons.items }
        ensures goes { OnOk result (GoesOn self.old self.new) }
        ensures turns { OnOk result (EachMoves (Steps domain Turns) self.old.daemons.items self.new.daemons.items) }
    {
        if self.daemons[domain as usize - 1].is_gone() {
            return Ok(());
        }
        let there = self.listen(domain, buf)?;
        self.hear(domain)?;
        if !there {
            return self.drop_domain(domain);
        }
        if !self.daemons[domain as usize - 1].is_fine() {
            return self.drop_domain(domain);
        }
        self.send(domain)
    }

    // Takes what has come from a domain. Returns whether the domain is still there.
    fn listen(&mut self, domain: u32, buf: &mut [u8]) -> Result<bool, Memory>
        requires ready { IsReady self.old }
        requires number { is_domain self.old.broker.hub domain ≡ true }
        requires up { IsUp domain self.old.daemons.items }
        requires some { 0 < length buf.old }
        ensures broker { self.new.broker ≡ self.old.broker }
        ensures idle { AreIdle self.new.daemons.items }
        ensures kept { EachMoves (λ d. KeepsEnd) self.old.daemons.items self.new.daemons.items }
        ensures listened { IfOk result (λ there. HasListened self.old.broker.hub domain self.old.broker.journal self.new.daemons.items there) }
        ensures same { OnOk result (EachMoves (λ d. IsSameDaemon) self.old.daemons.items self.new.daemons.items) }
        ensures steps { IfOk result (λ there. EachMoves (Steps domain (ListensAsTold there)) self.old.daemons.items self.new.daemons.items) }
    {
        self.daemons[domain as usize - 1].listen(buf)
    }

    // Drops a domain: its end retires, the messages that wait for it are given up, and the Connects of calls
    // to it are no longer held.
    fn drop_domain(&mut self, domain: u32) -> Result<(), Memory>
        requires number { is_domain self.old.broker.hub domain ≡ true }
        requires posting { IsPosting self.old.broker.hub self.old.broker.journal self.old.daemons.items }
        requires heard { HasHeardOut domain self.old.broker.journal self.old.daemons.items }
        requires cause { EachAt (λ d x. d ≡ domain → MayDrop (broker_end x)) self.old.daemons.items }
        requires holds { HoldsForExecs (lines_of self.old.daemons.items) }
        ensures hub { self.new.broker.hub ≡ self.old.broker.hub }
        ensures idle { AreIdle self.new.daemons.items }
        ensures kept { EachMoves (λ d. KeepsEnd) self.old.daemons.items self.new.daemons.items }
        ensures posting { OnOk result (IsPosting self.new.broker.hub self.new.broker.journal self.new.daemons.items) }
        ensures read { OnOk result (HaveRead self.new.broker.journal self.new.daemons.items) }
        ensures holds { OnOk result (HoldsForExecs (lines_of self.new.daemons.items)) }
        ensures same { OnOk result (EachMoves (λ d. IsSameDaemon) self.old.daemons.items self.new.daemons.items) }
        ensures steps { OnOk result (EachMoves (Steps domain IsDropped) self.old.daemons.items self.new.daemons.items) }
    {
        self.broker.event(Event::Dropped { domain })?;
        self.daemons[domain as usize - 1].hang_up();
        release_target(self.daemons.as_mut_slice(), domain);
        Ok(())
    }
}

// Lets the Connects of all calls to a domain be sent.
fn release_target(daemons: &mut [Daemon<'_>], target: u32)
    ensures { EachMoves (λ d. LetsGo target None) daemons.old daemons.new }
{
    for daemon in daemons.iter_mut() {
        daemon.outbox.release_target(target);
    }
}
