use crate::call::{Answer, Call, EndState};
use crate::op::PastEvent;
use ring_words::{Orders, Role};
use std::collections::LinkedList;

/// The answer by which a drain ended a stream.
#[derive(Clone, Copy, Debug, PartialEq, Eq)]
pub enum EndedBy {
    /// A drain answered that all was read.
    AllRead,
    /// A drain answered that the peer is gone.
    PeerGone,
}

/// A call under way, with the state and the counts that its end had when it began.
#[derive(Clone, Copy, Debug, PartialEq, Eq)]
pub struct Begun {
    /// The call.
    pub call: Call,
    /// The state in which the end began it.
    pub state: EndState,
    /// The end's own count of the bytes that it wrote, modulo 2^32, at that moment.
    pub prod: u32,
    /// The end's own count of the bytes that it read, modulo 2^32, at that moment.
    pub cons: u32,
}

/// A call that an end has made and that was answered: how it began, its events, and its answer.
pub struct PastCall {
    /// The call, with the state and the counts that the end had when it began.
    pub begun: Begun,
    /// Its events.
    pub trail: LinkedList<PastEvent>,
    /// Its answer.
    pub answer: Answer,
}

/// What an end remembers of one of the bits with which it asks for signals.
#[derive(Clone, Copy, Debug, PartialEq, Eq)]
pub struct Asked {
    /// The end has asked since it took an event last; a try that found none counts for nothing.
    pub since: bool,
    /// The peer's index that the end loaded last since it asked.
    pub seen: Option<u32>,
}

/// What an end may rely on to be woken: what it asked by each bit, the peer's live byte and its gone word.
#[derive(Clone, Copy, Debug, PartialEq, Eq)]
pub struct Notes {
    /// The bit for bytes that are written.
    pub written: Asked,
    /// The bit for bytes that are consumed.
    pub consumed: Asked,
    /// The peer's live byte, as loaded last since the end took an event.
    pub live: Option<u64>,
    /// The peer's gone word, as loaded last since the end took an event.
    pub gone: Option<u64>,
}

/// One end's part of a core state: all that it has done. Only contracts use it; no running program makes
/// one.
pub struct Side {
    /// Which end it is.
    pub role: Role,
    /// The orders of the page.
    pub orders: Orders,
    /// Where it stands in its life.
    pub state: EndState,
    /// Its own count of the bytes that it wrote, from the page's start on, modulo 2^32.
    pub prod: u32,
    /// Its own count of the bytes that it read, from the page's start on, modulo 2^32.
    pub cons: u32,
    /// The call under way; none between two calls.
    pub call: Option<Begun>,
    /// The events of the call that was begun last, so far.
    pub trail: LinkedList<PastEvent>,
    /// The bytes that the caller gave to that call.
    pub payload: LinkedList<u8>,
    /// All calls that it has made and that were answered, the last one at the end.
    pub calls: LinkedList<PastCall>,
    /// All bytes that the end has shown to its peer by an index.
    pub sent: LinkedList<u8>,
    /// All bytes that the end has taken and whose places it has released by an index.
    pub got: LinkedList<u8>,
    /// The end loaded its peer's live byte as 0, or its gone word as not 0, while it wasn't shut itself.
    pub saw: bool,
    /// How a drain of this end first ended its stream.
    pub ended: Option<EndedBy>,
    /// A connect of this end answered that the orders are bad.
    pub misled: bool,
    /// A drain of this end answered that nothing is left, and its peer writes no more.
    pub drained: bool,
    /// The end has stored to its gone word, and is done with the page.
    pub retired: bool,
    /// The end was turned over to a hostile user.
    pub turned: bool,
    /// How much the reader of a turned end's ring had got when the end was turned.
    pub consumed: u64,
    /// What the end may rely on to be woken.
    pub notes: Notes,
}
