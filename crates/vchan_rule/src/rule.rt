//! What a seat knows, the rule of the table, and what each step tells its seat.
use atomic_table::{Join, Play, Seat, Shared, Split, Table, TableRule};
use ring_words::Orders;
use std::alloc::Global;
use std::marker::{Brand, PhantomData};
use vchan_core::Side;

/// What a seat at the table knows. It exists only in proofs: no value of it is made.
pub enum View {
    /// Both ends, at the opening.
    Whole {
        /// The orders of the rings.
        orders: Orders,
        /// The number at which all indices begin.
        start: u32,
    },
    /// One end.
    One(Side),
    /// Both ends, after the page is done with.
    Both {
        /// The server.
        server: Side,
        /// The client.
        client: Side,
    },
    /// Nothing any more.
    Spent,
}

/// What the table is told when it is made.
#[derive(Drop)]
pub struct Opening {
    /// The orders of the rings.
    pub orders: Orders,
    /// The number at which all indices begin.
    pub start: u32,
}

/// The rule of a page: its words and the views make up a core state that may come, and so all holds of
/// it that holds of a page at each moment.
pub struct PageRule;

impl TableRule<(), View, Opening> for PageRule {
    ghost use Rattle.vchan_rule.specs.Rule.{Ruled};
    ghost use Rattle.vchan_rule.specs.declared.rule.View.TheVariants.{Whole};

    ghost holds = { Ruled };

    ghost first = { λ key. Whole key.orders key.start };
}

/// The words of a page, which its two seats share.
pub type PageWords = Shared<(), View, Opening, PageRule>;

/// The table of a page, which owns the words.
pub type PageTable = Table<(), View, Opening, PageRule, Global>;

/// A seat at the table of a page.
pub type TableSeat = Seat<(), View>;

/// Which event a step is, for the proof only: the end before it, within its call. A call at `Brand`
/// picks it.
pub trait Event {
    ghost use Rattle.vchan_protocol.specs.declared.side.Side.{Side};
    ghost use Rattle.vchan_protocol.specs.declared.op.Op.{Op};

    ghost before: { Side };

    ghost op: { Op };
}

impl Event for Brand {
    ghost use Rattle.vchan_rule.specs.Rule.{nobody};
    ghost use Rattle.vchan_protocol.specs.declared.op.Op.TheVariants.{Nothing};

    ghost before = { nobody };

    ghost op = { Nothing };
}

/// The step is the next event of an honest end.
pub struct Makes<E> {
    event: PhantomData<E>,
}

impl<E: Event> Play<(), View> for Makes<E> {
    ghost use Rattle.vchan_rule.specs.Rule.{makes};

    ghost then = { makes E.before };
}

/// The end is given up.
pub struct GivesUp<E> {
    event: PhantomData<E>,
}

impl<E: Event> Play<(), View> for GivesUp<E> {
    ghost use Rattle.vchan_rule.specs.Rule.{gives_up};

    ghost then = { gives_up E.before };
}

/// The step is an event of an end that was turned.
pub struct Strays<E> {
    event: PhantomData<E>,
}

impl<E: Event> Play<(), View> for Strays<E> {
    ghost use Rattle.vchan_rule.specs.Rule.{wanders};

    ghost then = { wanders E.before E.op };
}

/// What the table was told, for the proof only. A call at `Brand` picks it.
pub trait Told {
    ghost use Rattle.vchan_rule.specs.declared.rule.Opening.{Opening};

    ghost key: { Opening };
}

impl Told for Brand {
    ghost use Rattle.vchan_rule.specs.Rule.{nothing_told};

    ghost key = { nothing_told };
}

/// The step shows what holds of a page whose ends are both done.
pub struct Settling<T> {
    told: PhantomData<T>,
}

impl<T: Told> Play<(), View> for Settling<T> {
    ghost use Rattle.vchan_rule.specs.Done.{shows_settled};

    ghost then = { shows_settled T.key };
}

/// The two seats of a page.
pub struct Halves;

impl Split<View> for Halves {
    ghost use Rattle.vchan_rule.specs.Rule.{server_half, client_half};

    ghost left = { server_half };

    ghost right = { client_half };
}

impl Join<View> for Halves {
    ghost use Rattle.vchan_rule.specs.Rule.{joined};
    ghost use Rattle.vchan_rule.specs.declared.rule.View.TheVariants.{Spent};

    ghost both = { joined };

    ghost spent = { Spent };
}
