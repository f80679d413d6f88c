//! The names of the words of a page.

/// The two ends of a page.
#[derive(Clone, Copy, Debug, PartialEq, Eq)]
pub enum Role {
    /// The end that made the page.
    Server,
    /// The end that connects to it.
    Client,
}

/// The two rings of a page.
#[derive(Clone, Copy, Debug, PartialEq, Eq)]
pub enum Ring {
    /// The ring that the client writes and the server reads.
    Left,
    /// The ring that the server writes and the client reads.
    Right,
}

/// A word of a page. The first ten are the fields of `struct vchan_interface` in Xen's
/// `public/io/libxenvchan.h`; the pending and gone words stand for the event channel.
///
/// An index counts bytes modulo 2^32. In a notify word, bit 1 asks for a signal when data is written, and
/// bit 2 for one when data is consumed.
#[derive(Clone, Copy, Debug, PartialEq, Eq)]
pub enum WordName {
    /// How many bytes of the left ring were read.
    LeftCons,
    /// How many bytes of the left ring were written.
    LeftProd,
    /// How many bytes of the right ring were read.
    RightCons,
    /// How many bytes of the right ring were written.
    RightProd,
    /// The order of the left ring.
    LeftOrder,
    /// The order of the right ring.
    RightOrder,
    /// 0 if the client has closed, 2 if it hasn't connected yet.
    CliLive,
    /// 0 if the server has closed.
    SrvLive,
    /// What the server asks the client to signal to it.
    CliNotify,
    /// What the client asks the server to signal to it.
    SrvNotify,
    /// A signal to the server that it hasn't taken yet.
    SrvPending,
    /// A signal to the client that it hasn't taken yet.
    CliPending,
    /// Not 0 once the server has left the page.
    SrvGone,
    /// Not 0 once the client has left the page.
    CliGone,
    /// A byte of a ring.
    RingByte {
        /// The ring in which it lies.
        ring: Ring,
        /// Its place in the ring, counted from 0.
        at: u32,
    },
}
