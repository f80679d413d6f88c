//! Where a page lies.

/// A page between two domains, or between a domain and the broker.
#[derive(Clone, Copy, Debug, PartialEq, Eq)]
pub enum PagePlace {
    /// The control page of a domain, whose other end is the broker's.
    Control {
        /// The number of the domain, from 1 on.
        domain: u32,
    },
    /// A data page.
    Payload {
        /// The domain that calls.
        from: u32,
        /// The domain that serves.
        to: u32,
        /// The port, which differs from page to page between the two domains.
        port: u32,
    },
}
