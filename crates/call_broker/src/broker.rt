ghost use Rattle.std.specs.Prelude.{◌≡◌, ℕ, List, ◌≤◌, ◌*◌, ◌++◌, ◌∷◌, [], true, false, not, ◌==◌, ◌&&◌, length, map, vec_len, vec_capacity, ◌<◌, OnErr, IfOk, All};
ghost use Rattle.call_broker.specs.Domains.{count_of, is_domain, is_service, name_of, pages_of, target_of};
ghost use Rattle.call_broker.specs.Brokered.{with_entry};
ghost use Rattle.call_broker.specs.Pair.{Ordered, state_after, takes_call, decision, by_port};
ghost use Rattle.call_broker.specs.Journal.{events, drops, live, IsJournal, IsNumbered, AreNumbered};
ghost use Rattle.std.specs.List.{list_any};

use crate::calls::{MOST_LIVE, MOST_PAGES};
use crate::decision::{Cause, Decision, Entry};
use crate::entering::{append, enter};
use crate::event::Event;
use crate::index::{self, DomainEntry, Index};
use crate::ports::{pair_by_port, port_after};
use crate::table::{self, Table};
use qrexec_frame::{Text, clean_service, clean_target};
use service_gate::Builtin;
use std::alloc::Global;
use std::collections::{BTreeMap, BTreeSet};
use std::marker::Model;
use vchan_io::Memory;

/// The broker of some domains. It decides each event after those before it, and keeps them all.
#[derive(Drop)]
pub struct Broker {
    domains: Vec<DomainEntry>,
    pages: Vec<u32>,
    index: Index,
    journal: Vec<Entry>,
    calls: Table,
    dropped: BTreeSet<u32>,
}

impl Model for Broker {
    ghost use Rattle.call_broker.specs.Brokered.{Brokered};

    ghost Value = { Brokered };

    ghost use Rattle.call_broker.specs.Inside.{brokered, IsKept};

    ghost view = { brokered };

    ghost invariant = { IsKept };
}

impl Broker {
    /// Returns the broker of these domains, before any event. With n domains, the item
    /// `pages[(f - 1) * n + (t - 1)]` is the number of pages that were laid for calls from the
    /// domain f to the domain t.
    ///
    /// # Errors
    ///
    /// `Memory` if memory runs out; no other.
    pub fn new(alloc: Global, domains: Vec<DomainEntry>, pages: Vec<u32>) -> Result<Broker, Memory>
        requires few { vec_len domains ≤ 32 }
        requires square { vec_len pages ≡ vec_len domains * vec_len domains }
        requires within { All (λ p. p ≤ 65536) pages.items }
        ensures names { IfOk result (λ broker. broker.hub.names ≡ map (λ d. d.name) domains.items) }
        ensures pages { IfOk result (λ broker. broker.hub.pages ≡ pages.items) }
        ensures journal { IfOk result (λ broker. broker.journal ≡ []) }
    {
        let index = index::index_of(alloc, &domains)?;
        Ok(Broker {
            domains,
            pages,
            index,
            journal: Vec::new(alloc),
            calls: BTreeMap::new(alloc),
            dropped: BTreeSet::new(alloc),
        })
    }

    /// Decides an event, and keeps it with its decision. docs/QREXEC.md has the table of decisions.
    ///
    /// # Errors
    ///
    /// `Memory` if memory runs out; the broker is as it was then.
    pub fn event(&mut self, event: Event) -> Result<Decision, Memory>
        requires { IsNumbered self.old.hub event }
        ensures decided { IfOk result (λ decided. decided ≡ decision self.old.hub (events self.old.journal) event) }
        ensures kept { IfOk result (λ decided. self.new ≡ with_entry self.old event decided) }
        ensures memory { OnErr result (self.new ≡ self.old) }
    {
        let decision = self.decide(&event)?;
        self.journal.reserve(1)?;
        enter(&mut self.calls, &mut self.dropped, &event, decision)?;
        append(&mut self.journal, Entry { event, decision });
        Ok(decision)
    }

    /// Returns all events so far, each with its decision, in order.
    pub fn journal(&self) -> &[Entry]
        ensures entries { result.now ≡ self.now.journal }
        ensures decided { IsJournal self.now.hub result.now }
        ensures numbered { AreNumbered self.now.hub result.now }
    {
        self.journal.as_slice()
    }

    /// Returns the name of a domain.
    pub fn name(&self, domain: u32) -> &Text
        requires { is_domain self.now.hub domain ≡ true }
        ensures { result.now ≡ name_of self.now.hub domain }
    {
        &self.domains[domain as usize - 1].name
    }

    /// Returns how many calls from one domain to another are live: 0 if one of the numbers isn't a
    /// domain's.
    pub fn live(&self, from: u32, to: u32) -> u32
        ensures live { result ≡ length (live self.now.hub self.now.journal from to) }
        ensures no_domain { (is_domain self.now.hub from && is_domain self.now.hub to) ≡ false → result ≡ 0 }
    {
        if self.dropped.contains(&from) || self.dropped.contains(&to) {
            return 0;
        }
        table::live_count(&self.calls, from, to)
    }

    // Whether a domain was dropped.
    fn is_dropped(&self, domain: u32) -> bool
        ensures { result ≡ list_any (drops domain) (events self.now.journal) }
    {
        self.dropped.contains(&domain)
    }

    // Whether this is the number of a domain other than the sender.
    fn is_other(&self, from: u32, other: u32) -> bool
        ensures { result ≡ (is_domain self.now.hub other && not (other == from)) }
    {
        1 <= other && other as usize <= self.domains.len() && other != from
    }

    // The domain that a target names.
    fn domain_of(&self, target: &Text) -> Result<Option<u32>, Memory>
        ensures domain { IfOk result (λ domain. domain ≡ target_of self.now.hub target.now) }
    {
        let name = clean_target(*self.journal.allocator(), target)?;
        Ok(index::number_of(&self.index, name.bytes()))
    }

    // How many pages were laid for calls from one domain to another.
    fn pages_for(&self, from: u32, to: u32) -> u32
        requires from { is_domain self.now.hub from ≡ true }
        requires to { is_domain self.now.hub to ≡ true }
        ensures pages { result ≡ pages_of self.now.hub from to }
        ensures within { result ≤ MOST_PAGES }
    {
        self.pages[(from as usize - 1) * self.domains.len() + (to as usize - 1)]
    }

    // The decision on an event.
    fn decide(&self, event: &Event) -> Result<Decision, Memory>
        requires { IsNumbered self.now.hub event.now }
        ensures { IfOk result (λ decided. decided ≡ decision self.now.hub (events self.now.journal) event.now) }
    {
        match event {
            Event::Trigger {
                from,
                target,
                service,
                ..
            } => self.answer(*from, target, service),
            Event::Terminated { from, other, port } => Ok(self.ending(*from, *other, *port)),
            Event::Dropped { .. } => Ok(Decision::PassedOver),
        }
    }

    // The decision on a trigger.
    fn answer(&self, from: u32, target: &Text, service: &Text) -> Result<Decision, Memory>
        requires { is_domain self.now.hub from ≡ true }
        ensures { IfOk result (λ decided. (ident : List ℕ) → decided ≡ decision self.now.hub (events self.now.journal) (Event.Trigger from target.now service.now ident)) }
    {
        if self.is_dropped(from) {
            return Ok(Decision::PassedOver);
        }
        let Some(to) = self.domain_of(target)? else {
            return Ok(refused(Cause::NoDomain));
        };
        if to == from {
            return Ok(refused(Cause::SameDomain));
        }
        if !is_service(*self.journal.allocator(), service)? {
            return Ok(refused(Cause::NoService));
        }
        Ok(self.take_call(from, to))
    }

    // The decision on a Terminated.
    fn ending(&self, from: u32, other: u32, port: u32) -> Decision
        ensures { result ≡ decision self.now.hub (events self.now.journal) (Event.Terminated from other port) }
    {
        if self.is_dropped(from) {
            return Decision::PassedOver;
        }
        if !self.is_other(from, other) {
            return Decision::PassedOver;
        }
        if self.dropped.contains(&other) {
            return Decision::PassedOver;
        }
        let (from, to) = pair_by_port(from, other, port);
        if table::has_port(&self.calls, from, to, port) {
            Decision::Ended { from, to, port }
        } else {
            Decision::PassedOver
        }
    }

    // The decision on a trigger to another domain, whose sender wasn't dropped.
    fn take_call(&self, from: u32, to: u32) -> Decision
        requires from { is_domain self.now.hub from ≡ true }
        requires to { is_domain self.now.hub to ≡ true }
        requires up { list_any (drops from) (events self.now.journal) ≡ false }
        ensures { result ≡ takes_call self.now.hub (state_after self.now.hub (events self.now.journal) (Ordered from to)) from to }
    {
        if self.is_dropped(to) {
            return refused(Cause::TargetDropped);
        }
        let live = table::live_count(&self.calls, from, to);
        if live as usize >= MOST_LIVE {
            return refused(Cause::PairFull { live });
        }
        let count = table::call_count(&self.calls, from, to);
        let port = port_after(from, to, count);
        if count >= self.pages_for(from, to) {
            return refused(Cause::PortsSpent { next: port });
        }
        Decision::Accepted { to, port }
    }
}

fn refused(cause: Cause) -> Decision
    ensures { result ≡ Decision.Refused cause }
{
    Decision::Refused { cause }
}

// Whether a name is that of a built-in service.
fn is_service(alloc: Global, name: &Text) -> Result<bool, Memory>
    ensures { IfOk result (λ known. known ≡ is_service name.now) }
{
    let name = clean_service(alloc, name)?;
    Ok(Builtin::named(name.bytes()).is_some())
}
