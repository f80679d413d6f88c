//! Whether all that the task waits for has come.
ghost use Rattle.std.specs.Prelude.{◌+◌, ◌≤◌, ◌↔◌, IsTrue, length};
ghost use Rattle.task_duties.specs.Places.{numbers};
ghost use Rattle.task_duties.specs.Broker.Outbox.{live_calls};
ghost use Rattle.broker_task.specs.Lines.{IsLine};
ghost use Rattle.broker_task.specs.Posting.{EachAt};
ghost use Rattle.broker_task.specs.Rounds.{IsSettled};

use crate::daemon::Daemon;
use crate::switchboard::Switchboard;

impl<'p> Switchboard<'p> {
    /// Returns whether each domain is dropped or settled. A domain is settled if its awaited calls were
    /// answered and are over and, if some were awaited, all its messages were sent.
    pub(crate) fn is_settled(&self) -> bool
        requires { EachAt IsLine self.now.daemons.items }
        ensures { IsTrue result ↔ EachAt (IsSettled self.now.broker.hub self.now.broker.journal (length self.now.daemons.items)) self.now.daemons.items }
    {
        for daemon in &self.daemons {
            if !self.is_domain_settled(daemon) {
                return false;
            }
        }
        true
    }

    // Whether one domain is dropped or settled.
    fn is_domain_settled(&self, daemon: &Daemon<'p>) -> bool
        requires { EachAt IsLine self.now.daemons.items }
        ensures { IsTrue result ↔ IsSettled self.now.broker.hub self.now.broker.journal (length self.now.daemons.items) daemon.now.domain daemon.now }
    {
        if daemon.is_gone() {
            return true;
        }
        if !daemon.has_said_all() {
            return false;
        }
        self.are_over(daemon)
    }

    // Whether the awaited calls of a domain were answered and are over.
    fn are_over(&self, daemon: &Daemon<'p>) -> bool
        requires { EachAt IsLine self.now.daemons.items }
        ensures { IsTrue result ↔ daemon.now.awaited + live_calls self.now.broker.hub self.now.broker.journal (numbers 1 1 (length self.now.daemons.items)) daemon.now.domain ≤ daemon.now.answered }
    {
        let mut over = daemon.answered;
        for other in &self.daemons {
            let live = self.broker.live(daemon.domain, other.domain) as usize;
            if live > over {
                return false;
            }
            over -= live;
        }
        daemon.awaited as usize <= over
    }
}
