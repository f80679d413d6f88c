//! A page with its two seats, and what is known once both ends are done.
ghost use Rattle.std.specs.Prelude.{◌≡◌, None, IfOk};
ghost use Rattle.ring_words.specs.declared.page.Role.TheVariants.{Server, Client};
ghost use Rattle.ring_words.specs.Page.{word_count};
ghost use Rattle.end_view.specs.EndView.{state_at_first};
ghost use Rattle.end_view.specs.Settled.{IsSettled};
ghost use Rattle.vchan_protocol.specs.History.Core.{new_side};
ghost use Rattle.vchan_core.specs.OneMachine.Phases.{IsIdle};
ghost use Rattle.vchan_rule.specs.Seated.{settled_page};

use crate::end::End;
use crate::rule::{Halves, Opening, PageTable, TableSeat};
use crate::turned::Retired;
use crate::words::EndWords;
use ring_words::{Orders, Role, Words};
use std::alloc::Global;
use std::marker::Model;
use std::snapshot::Snapshot;
use vchan_core::{EndState, start_words};
use vchan_io::Memory;

/// The words with which pages of these orders begin, made once for any number of pages: all indices are at
/// this start, the order words hold these orders, and the client is fresh.
#[derive(Drop)]
pub struct StartWords {
    words: Words,
    orders: Orders,
    start: u32,
}

impl Model for StartWords {
    ghost use Rattle.std.specs.Prelude.{◌≡◌, ◌<◌, ◌^◌};
    ghost use Rattle.vchan_protocol.specs.History.Page.{start_words as start_words_of};
    ghost use Rattle.vchan_protocol.specs.declared.call.EndState.TheVariants.{Fresh};
    ghost use Rattle.vchan_rule.specs.Rule.{said_of};
    ghost use Rattle.vchan_rule.specs.Seated.{PageStart};

    ghost Value = { PageStart };

    ghost view = { λ w. record { orders = w.orders; start = w.start } };

    ghost invariant = { λ w. (w.words.list ≡ start_words_of w.orders w.start (said_of w.orders) Fresh) × (w.start < 2 ^ 32) };
}

impl StartWords {
    /// Makes the words for pages of these orders whose indices begin at `start`. Returns `Memory` if memory
    /// runs out.
    pub fn new(alloc: Global, orders: Orders, start: u32) -> Result<StartWords, Memory>
        ensures { IfOk result (λ w. (w.orders ≡ orders) × (w.start ≡ start)) }
    {
        let said = (orders.left.number(), orders.right.number());
        let words = start_words(alloc, orders, start, said, EndState::Fresh)?;
        Ok(StartWords {
            words,
            orders,
            start,
        })
    }
}

/// A page that two ends share.
#[derive(Drop)]
pub struct Page {
    table: PageTable,
    orders: Orders,
    start: u32,
}

impl Model for Page {
    ghost use Rattle.std.specs.Prelude.{◌≡◌};
    ghost use Rattle.ring_words.specs.Page.{word_count};
    ghost use Rattle.vchan_rule.specs.Seated.{PageView};

    ghost Value = { PageView };

    ghost view = { λ p. record { table = p.table.shared.table_id; orders = p.orders; start = p.start } };

    ghost invariant = { λ p. (p.table.shared.table_id.words ≡ word_count p.orders) × (p.table.shared.table_id.slots ≡ 0) × (p.table.shared.key.orders ≡ p.orders) × (p.table.shared.key.start ≡ p.start) };
}

/// A seat of a page whose end has done nothing.
#[derive(Drop)]
pub struct IdleSeat {
    seat: TableSeat,
    role: Role,
    orders: Orders,
    start: u32,
}

impl Model for IdleSeat {
    ghost use Rattle.std.specs.Prelude.{◌≡◌, [], ◌∷◌};
    ghost use Rattle.vchan_protocol.specs.History.Core.{new_side};
    ghost use Rattle.vchan_rule.specs.Seated.{SeatView};
    ghost use Rattle.ring_words.specs.Page.{word_count};
    ghost use Rattle.end_view.specs.EndView.{state_at_first};
    ghost use Rattle.vchan_rule.specs.declared.rule.View.TheVariants.{One};

    ghost Value = { SeatView };

    ghost view = { λ s. record { page = record { table = s.seat.table_id; orders = s.orders; start = s.start }; role = s.role } };

    ghost invariant = { λ s. s.seat.me ≡ (One (new_side s.role s.orders s.start (state_at_first s.role)), []) };
}

impl IdleSeat {
    /// Makes the end of this seat, with the words of its page.
    pub(crate) fn attach<'p>(self, words: EndWords<'p>, orders: Orders, start: u32) -> End<'p>
        requires page { (self.page.table ≡ words.table) × (self.page.orders ≡ orders) × (self.page.start ≡ start) }
        requires words { (words.table.words ≡ word_count orders) × (words.key.orders ≡ orders) × (words.key.start ≡ start) }
        ensures page { (result.page ≡ self.page.table) × (result.start ≡ start) }
        ensures side { result.side ≡ new_side self.role orders start (state_at_first self.role) }
        ensures idle { IsIdle result.machine × (result.begun ≡ None) }
    {
        let IdleSeat {
            seat,
            role,
            orders: _,
            start: _,
        } = self;
        let state = match role {
            Role::Server => EndState::Open,
            Role::Client => EndState::Fresh,
        };
        End::new(words, seat, role, orders, state, start)
    }
}

impl Page {
    /// Makes a page with the start values, whose order words hold its orders, and its two seats: the server's
    /// and the client's. Returns `Memory` if memory runs out.
    ///
    /// To make many pages of the same orders, make their start words once, and make each page from these with
    /// [`Page::lay`].
    pub fn open(
        alloc: Global,
        orders: Orders,
        start: u32,
    ) -> Result<(Page, IdleSeat, IdleSeat), Memory>
        ensures { IfOk result (λ p. (p.0.orders ≡ orders) × (p.0.start ≡ start) × (p.1 ≡ record { page = p.0; role = Server }) × (p.2 ≡ record { page = p.0; role = Client })) }
    {
        let words = StartWords::new(alloc, orders, start)?;
        Page::lay(alloc, &words)
    }

    /// Makes a page of these start words and its two seats, as `open` gives them. Returns `Memory` if memory
    /// runs out.
    pub fn lay(alloc: Global, start: &StartWords) -> Result<(Page, IdleSeat, IdleSeat), Memory>
        ensures { IfOk result (λ p. (p.0.orders ≡ start.now.orders) × (p.0.start ≡ start.now.start) × (p.1 ≡ record { page = p.0; role = Server }) × (p.2 ≡ record { page = p.0; role = Client })) }
    {
        let words = start.words.list();
        let orders = start.orders;
        let start = start.start;
        let opening = Opening { orders, start };
        let (table, mut server) = PageTable::of_words(alloc, words, &opening)?;
        let client = table.shared.split_seat::<Halves>(&mut server);
        let page = Page {
            table,
            orders,
            start,
        };
        let server = IdleSeat {
            seat: server,
            role: Role::Server,
            orders,
            start,
        };
        let client = IdleSeat {
            seat: client,
            role: Role::Client,
            orders,
            start,
        };
        Ok((page, server, client))
    }

    /// Makes the end of a seat, which must be one of the two that `open` or `lay` gave with this page. A server
    /// is open and a client fresh.
    pub fn attach(&self, seat: IdleSeat) -> End<'_>
        requires { seat.page ≡ self.now }
        ensures page { (result.page ≡ self.now.table) × (result.start ≡ self.now.start) }
        ensures side { result.side ≡ new_side seat.role self.now.orders self.now.start (state_at_first seat.role) }
        ensures idle { IsIdle result.machine × (result.begun ≡ None) }
    {
        seat.attach(EndWords::lent(&self.table.shared), self.orders, self.start)
    }

    /// Returns its table, its orders and its first index.
    pub(crate) fn into_parts(self) -> (PageTable, Orders, u32)
        ensures parts { (result.0.shared.table_id ≡ self.table) × (result.1 ≡ self.orders) × (result.2 ≡ self.start) }
        ensures words { (result.0.shared.table_id.words ≡ word_count self.orders) × (result.0.shared.key.orders ≡ self.orders) × (result.0.shared.key.start ≡ self.start) }
    {
        let Page {
            table,
            orders,
            start,
        } = self;
        (table, orders, start)
    }

    /// Closes the page, after both its ends are done. The two must come from the two seats of this page. The
    /// result has the page's orders, its start and the two ends as they were.
    pub fn finish(self, server: Retired, client: Retired) -> Settled
        requires server { (server.page ≡ self.table) × (server.side.role ≡ Server) }
        requires client { (client.page ≡ self.table) × (client.side.role ≡ Client) }
        ensures { result ≡ settled_page self server client }
    {
        let Retired {
            mut seat,
            role: _,
            turned: server_turned,
        } = server;
        let Retired {
            seat: other,
            role: _,
            turned: client_turned,
        } = client;
        self.table.shared.join_seat::<Halves>(&mut seat, other);
        let seen = Snapshot::of(&seat);
        let Page {
            table,
            orders,
            start,
        } = self;
        table.close_with(seat).free();
        Settled {
            seen,
            orders,
            start,
            server_turned,
            client_turned,
        }
    }
}

/// A page that is done with, and what holds of it. Only `Page::finish` and `HeldPage::settle` make one.
#[derive(Drop)]
pub struct Settled {
    pub(crate) seen: Snapshot<TableSeat>,
    pub(crate) orders: Orders,
    pub(crate) start: u32,
    pub(crate) server_turned: bool,
    pub(crate) client_turned: bool,
}

impl Model for Settled {
    ghost use Rattle.std.specs.Prelude.{◌≡◌};
    ghost use Rattle.end_view.specs.Settled.{Settled as SettledPage, IsSettled, settled_view};
    ghost use Rattle.vchan_rule.specs.Done.{server_in, client_in};

    ghost Value = { SettledPage };

    ghost view = { λ s. settled_view s.orders s.start s.seen.value.table_id (server_in s.seen.value.me.0) (client_in s.seen.value.me.0) };

    ghost invariant = { λ s. IsSettled (settled_view s.orders s.start s.seen.value.table_id (server_in s.seen.value.me.0) (client_in s.seen.value.me.0)) × (s.server_turned ≡ (server_in s.seen.value.me.0).turned) × (s.client_turned ≡ (client_in s.seen.value.me.0).turned) };
}

impl Settled {
    /// Gives what holds of the page. Between honest ends what was got begins what was sent, and is all of it if
    /// the ring is drained. If a writer was turned, what its honest reader had got then is as it was sent.
    pub fn promise(&self)
        ensures { IsSettled self.now }
    {
        let _ = &self.seen;
    }

    /// Returns whether the server was turned over to a hostile user.
    pub fn server_turned(&self) -> bool
        ensures { result ≡ self.now.server.turned }
    {
        self.server_turned
    }

    /// Returns whether the client was turned over to a hostile user.
    pub fn client_turned(&self) -> bool
        ensures { result ≡ self.now.client.turned }
    {
        self.client_turned
    }
}
