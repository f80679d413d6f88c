//! The version on which both sides of a channel go on.
use qrexec_frame::Message;
use qrexec_hello::{Hello, HelloFault};
use std::process::Abort;

/// Checks what a side of this version answers to its peer's first message.
fn check_took(rt: &impl Abort, own: u32, message: &Message, want: Result<u32, HelloFault>) {
    assert!(rt; (2..=3).contains(&own));
    let mut hello = Hello::start(own);
    assert!(rt; hello.waiting());
    assert!(rt; hello.took(message) == want, "{own} {want:?}");
    assert!(rt; !hello.waiting());
}

/// The same for the greeting that the peer announces itself with.
fn check_greeted(rt: &impl Abort, own: u32, peer: u32, want: Result<u32, HelloFault>) {
    assert!(rt; (2..=3).contains(&peer));
    check_took(rt, own, &Hello::announce(peer), want);
}

/// The fault of a peer of an unknown version.
fn version(got: u32) -> Result<u32, HelloFault> {
    Err(HelloFault::Version { got })
}

/// The fault of a peer that begins with another message.
fn not_hello(kind: u32) -> Result<u32, HelloFault> {
    Err(HelloFault::NotHello { kind })
}

// Each message stands where it is lent: a function that keeps one proves its drop at each of its ends.
#[test]
fn both_go_on_with_the_lower_version(rt: HostRuntime) {
    check_greeted(&rt, 3, 3, Ok(3));
    check_took(&rt, 3, &Message::Hello { version: 5 }, Ok(3));
    check_greeted(&rt, 3, 2, Ok(2));
    check_took(&rt, 2, &Message::Hello { version: 7 }, Ok(2));
    check_took(&rt, 3, &Message::Hello { version: 1 }, version(1));
    check_took(&rt, 2, &Message::Hello { version: 0 }, version(0));
    check_took(&rt, 3, &Message::ExitCode { code: 0 }, not_hello(403));
    let terminated = &Message::Terminated { domain: 1, port: 2 };
    check_took(&rt, 2, terminated, not_hello(529));
}
