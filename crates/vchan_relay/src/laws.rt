//! The laws of relays in a row. A law is a function with no body, whose contract states it.
ghost use Rattle.vchan_relay.specs.Hops.{RelaysKeepOrder, RelaysPassAll};

/// After any number of relays a reader has a prefix of what the first writer sent, if the ends of all pages
/// are honest.
pub fn relays_keep_order()
    ensures { RelaysKeepOrder }
{}

/// The reader has all of it once each ring is drained and no relay holds a byte.
pub fn relays_pass_all()
    ensures { RelaysPassAll }
{}
