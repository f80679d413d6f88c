//! A page of a hostile domain.
ghost use Rattle.std.specs.Prelude.{◌≡◌, ◌∷◌, [], ◌++◌};
ghost use Rattle.vchan_protocol.specs.Table.Ends.{peer_pending};

use crate::domain::HostileDomain;
use hostile_seat::{Hostile, turn};
use ring_words::WordName;
use scenario_file::ActPage;
use std::snapshot::Snapshot;
use task_duties::{DataEnd, DoneEnd, PagePlace, RetiredEnd, UnusedEnd};
use vchan_rule::End;

/// A page of which the domain has an end.
#[derive(Drop)]
pub struct TurnedPage<'p> {
    /// Where the page lies.
    pub place: PagePlace,
    /// The end as it was given; only clauses use it.
    pub given: Snapshot<End<'p>>,
    /// The end, turned over to the domain.
    pub end: Hostile<'p>,
}

impl<'p> TurnedPage<'p> {
    ghost use Rattle.task_duties.specs.Hostile.Stores.{orders_at, poked, stored, is_named};
    ghost use Rattle.hostile_task.specs.Plan.{plan_of};
    ghost use Rattle.hostile_task.specs.Pages.{after_events, IsTurnedOver, IsDataTurnedOver, IsLaid, IsRetiredOf};

    /// Turns an end over to the domain.
    pub fn turn(place: PagePlace, end: End<'p>) -> TurnedPage<'p>
        ensures { IsTurnedOver place end.entry result }
    {
        let given = Snapshot::of(&end);
        TurnedPage {
            place,
            given,
            end: turn(end),
        }
    }

    /// Does the same with the end of a data page, which is laid.
    pub fn of_data(given: DataEnd<'p>) -> TurnedPage<'p>
        requires { IsLaid given }
        ensures { IsDataTurnedOver given.entry result }
    {
        let DataEnd {
            from,
            to,
            port,
            end,
        } = given;
        match end {
            UnusedEnd::Laid(end) => TurnedPage::turn(PagePlace::Payload { from, to, port }, end),
            _ => unreachable!(),
        }
    }

    /// Stores a value to a word, if the page that the act names is this one, and a hostile user
    /// reaches the word.
    pub fn poke(&mut self, domain: &HostileDomain, page: &ActPage, word: WordName, value: u64)
        requires { self.old.end.side.orders ≡ orders_at (plan_of domain.now []) self.old.place }
        ensures { self.new ≡ after_events self.old (poked (plan_of domain.now []) self.old.place page.now word value) }
    {
        if self.is_named(domain, page) && self.end.may(word) {
            self.end.store(word, value);
        }
    }

    // Whether the page that an act names is this one.
    fn is_named(&self, domain: &HostileDomain, page: &ActPage) -> bool
        ensures { result ≡ is_named (plan_of domain.now []) page.now self.now.place }
    {
        match page {
            ActPage::Control => match self.place {
                PagePlace::Control { .. } => true,
                PagePlace::Payload { .. } => false,
            },
            ActPage::Payload { peer, port } => match self.place {
                PagePlace::Control { .. } => false,
                PagePlace::Payload {
                    from,
                    to,
                    port: own,
                } => {
                    let other = if from == domain.number { to } else { from };
                    own == *port && peer.bytes() == domain.name_of(other)
                }
            },
        }
    }

    /// Signals the end's peer.
    pub fn signal(&mut self)
        ensures { self.new ≡ after_events self.old (stored (peer_pending self.old.end.side.role) 1 ∷ []) }
    {
        self.end.signal();
    }

    /// Retires the end.
    pub fn retire(self) -> RetiredEnd
        ensures { IsRetiredOf self.entry result }
    {
        let TurnedPage { place, end, .. } = self;
        RetiredEnd {
            place,
            retired: DoneEnd::Laid(end.retire()),
        }
    }
}
