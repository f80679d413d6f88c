//! The rows of two honest ends, by name. Contracts of the rows speak of them.

/// What two honest ends do on a new page whose client has connected.
#[derive(Clone, Copy)]
pub enum Row {
    /// The server finds nothing to drain.
    Fresh,
    /// The client writes five bytes, and the server reads them.
    FiveBytes,
    /// The client writes one byte more than the ring holds, and then another.
    FullRing,
    /// The client sends a packet that fills the ring, and another has no room. The server gets four bytes
    /// of it, and then asks for one more than wait.
    Packets,
    /// The client sends a packet that is longer than the ring.
    LongPacket,
    /// A server that found nothing to read is signalled once for two writes.
    Events,
}
