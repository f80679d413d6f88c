use crate::event::Event;

/// The decision of a broker on an event.
#[derive(Clone, Copy, Debug, PartialEq, Eq)]
pub enum Decision {
    /// The call is accepted.
    Accepted {
        /// The domain that is to serve it.
        to: u32,
        /// The port at which the two domains meet.
        port: u32,
    },
    /// The call is refused.
    Refused {
        /// The first cause that applies.
        cause: Cause,
    },
    /// A live call has ended.
    Ended {
        /// The domain that asked for it.
        from: u32,
        /// The domain that served it.
        to: u32,
        /// Its port.
        port: u32,
    },
    /// The event changes nothing.
    PassedOver,
}

/// Why a call was refused: the first of these that applies.
#[derive(Clone, Copy, Debug, PartialEq, Eq)]
pub enum Cause {
    /// The target names no domain.
    NoDomain,
    /// The target is the domain that asks.
    SameDomain,
    /// No service has this name.
    NoService,
    /// The target was dropped.
    TargetDropped,
    /// The pair has as many live calls as a pair may have.
    PairFull {
        /// How many live calls it has.
        live: u32,
    },
    /// Each page that was laid for the pair has had its call.
    PortsSpent {
        /// The port that would come next.
        next: u32,
    },
}

/// An event, and the decision on it.
#[derive(Debug, Drop)]
pub struct Entry {
    /// The event.
    pub event: Event,
    /// The decision.
    pub decision: Decision,
}
