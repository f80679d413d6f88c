use qrexec_frame::Text;

/// An event that a broker decides. Domains are numbered from 1, in the order in which they were
/// passed.
#[derive(Debug, Drop)]
pub enum Event {
    /// A domain asks for a service of another: MSG_TRIGGER_SERVICE3, or MSG_TRIGGER_SERVICE.
    Trigger {
        /// The domain that asks.
        from: u32,
        /// The name of the domain that is to serve, as it was sent.
        target: Text,
        /// The name of the service, as it was sent.
        service: Text,
        /// The name that the caller gives this call.
        ident: Text,
    },
    /// A domain tells that a call has ended: MSG_CONNECTION_TERMINATED.
    Terminated {
        /// The domain that tells it.
        from: u32,
        /// The other domain of the call, as it was sent.
        other: u32,
        /// The port of the call, as it was sent.
        port: u32,
    },
    /// A domain is no longer listened to: its control channel ended, or carried something that no
    /// domain may send.
    Dropped {
        /// The domain.
        domain: u32,
    },
}
