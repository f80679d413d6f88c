//! The ends that a task is given, those that it gives back, and what a turn of it returns.
use crate::place::PagePlace;
use page_offer::{DoneClient, DoneServer, UnlaidClient, UnlaidServer};
use vchan_rule::{End, Retired};

/// An end of a data page on which nothing was done yet.
#[derive(Drop)]
pub enum UnusedEnd<'p> {
    /// An end of a page that is laid.
    Laid(End<'p>),
    /// The server's side of a page that is laid at its first use.
    Server(UnlaidServer<'p>),
    /// The client's side of such a page.
    Client(UnlaidClient),
}

/// An end of a data page, with the place of the page.
#[derive(Drop)]
pub struct DataEnd<'p> {
    /// The domain that calls.
    pub from: u32,
    /// The domain that serves.
    pub to: u32,
    /// The port, which differs from page to page between the two domains.
    pub port: u32,
    /// The end: a server's at the domain that calls, else a client's.
    pub end: UnusedEnd<'p>,
}

/// The ends of a domain whose task couldn't be made, as they were given.
#[derive(Drop)]
pub struct UnmadeEnds<'p> {
    /// The end of its control page.
    pub control: End<'p>,
    /// Its data ends.
    pub payload: Vec<DataEnd<'p>>,
}

/// An end that makes no more events.
#[derive(Drop)]
pub enum DoneEnd {
    /// An end of a page that was laid before the tasks began.
    Laid(Retired),
    /// The server's side of a page that is laid at its first use.
    Server(DoneServer),
    /// The client's side of such a page.
    Client(DoneClient),
}

/// An end that makes no more events, with the place of its page.
#[derive(Drop)]
pub struct RetiredEnd {
    /// The place.
    pub place: PagePlace,
    /// The end.
    pub retired: DoneEnd,
}

/// What a turn of a task returns.
pub enum TaskTurn<T, D> {
    /// The task wants another turn.
    Again(T),
    /// The task is done, and this is what it gives.
    Done(D),
    /// Memory ran out.
    NoMemory {
        /// The ends, all of them retired, in the order in which they were given: a domain's with the end of its
        /// control page first, the broker's in the order of the domains.
        ends: Vec<RetiredEnd>,
    },
}
