/// The state of an end in its life.
#[derive(Clone, Copy, Debug, PartialEq, Eq)]
pub enum EndState {
    /// A client that hasn't connected yet. A server is never fresh.
    Fresh,
    /// An end that may move bytes.
    Open,
    /// An end that has stored 0 in its live byte.
    Shut,
}

/// A call on one end: those of libxenvchan.h in non-blocking mode, and `Drain`, `PeerGone` and `Retire`
/// besides. Lengths are in bytes.
#[derive(Clone, Copy, Debug, PartialEq, Eq)]
pub enum Call {
    /// Writes as many of the first `len` bytes of the payload as there is room for.
    Write { len: u32 },
    /// Writes all `len` bytes of the payload, or none.
    Send { len: u32 },
    /// Reads as many bytes as wait, at most `most`.
    Read { most: u32 },
    /// Reads exactly `len` bytes, or none.
    Recv { len: u32 },
    /// Reads as many bytes as wait, at most `most`, which is at least 1, and tells an end from a pause.
    Drain { most: u32 },
    /// Asks for a signal when bytes come, and tells how many wait.
    DataReady,
    /// Asks for a signal when bytes are consumed, and tells how much room there is.
    BufferSpace,
    /// Opens a fresh client, if the page's order fields hold the orders that the page was made with.
    Connect,
    /// Shuts the end.
    Close,
    /// Takes the pending signal.
    TakeEvent,
    /// Asks whether the peer has retired.
    PeerGone,
    /// Shuts the end if it isn't shut yet, and marks it as gone.
    Retire,
}

/// The answer to a call. Counts are in bytes.
///
/// In a pair of indices the peer's index is the value that the call's last look loaded. The other one is
/// the end's own count at that event. Both are modulo 2^32.
#[derive(Clone, Copy, Debug, PartialEq, Eq)]
pub enum Answer {
    /// A write moved this many bytes.
    Wrote { count: u32 },
    /// A write of at least one byte found no room.
    Full { prod: u32, cons: u32 },
    /// A send moved all its bytes.
    Sent { count: u32 },
    /// A send found too little room, and moved nothing.
    NoRoom { prod: u32, cons: u32 },
    /// A read, recv or drain moved this many bytes.
    Got { count: u32 },
    /// A read found nothing, and the peer is alive.
    Empty { prod: u32, cons: u32 },
    /// A recv found too few bytes, and the peer is alive.
    Short { prod: u32, cons: u32 },
    /// The peer's live byte was 0. Bytes may wait all the same.
    PeerClosed,
    /// This many bytes wait.
    Ready { count: u32 },
    /// There is room for this many bytes.
    Space { count: u32 },
    /// The client is open.
    Connected,
    /// The page's two order fields are refused, or don't hold the orders of the page.
    BadOrders { left: u16, right: u16 },
    /// A close or a retire was carried out.
    Done,
    /// Whether a signal was pending.
    Event { was: bool },
    /// A drain found nothing, and more may come.
    NotYet { prod: u32, cons: u32 },
    /// A drain found nothing, and nothing will come: the peer closed, and all was read.
    AllRead,
    /// A drain found nothing, and the peer has retired.
    PeerGone { prod: u32, cons: u32 },
    /// Whether the peer has retired.
    Gone { is: bool },
}

/// What an end asks a signal for: the two bits of a notify byte (`VCHAN_NOTIFY_WRITE` and
/// `VCHAN_NOTIFY_READ` of libxenvchan.h).
#[derive(Clone, Copy, Debug, PartialEq, Eq)]
pub enum Bit {
    /// Bytes were written: bit 1.
    Written,
    /// Bytes were consumed: bit 2.
    Consumed,
}
