//! Streams of bytes from outside, and how the side that takes them comes out.
use crate::sessions::{HELLO, builtin, bytes_of, caller, serving};
use qrexec_data::{Half, Outcome};
use service_gate::Service;
use std::alloc::Global;
use std::process::Abort;
use std::test::Fail;

/// Which side takes the bytes of a row.
#[derive(Clone, Copy, Debug)]
enum Side {
    Caller,
    Serving,
}

/// What the owner tells a side after the bytes of a row.
#[derive(Clone, Copy, Debug)]
enum End {
    Open,
    Closed,
    Gone,
}

/// What a side of version 3 takes, what its owner tells it then, and how it comes out.
type Row = (Side, &'static [&'static str], End, &'static str);

/// Streams of either side that aren't as they should be, and some that are.
const STREAMS: [Row; 18] = [
    (
        Side::Serving,
        &["9001000000000000"],
        End::Open,
        "Some(Fault(Hello(NotHello { kind: 400 })))",
    ),
    (
        Side::Serving,
        &["000300000400000002000000"],
        End::Open,
        "None",
    ),
    (
        Side::Serving,
        &["000300000400000001000000"],
        End::Open,
        "Some(Fault(Hello(Version { got: 1 })))",
    ),
    (
        Side::Serving,
        &[HELLO, "9101000000000000"],
        End::Open,
        "Some(Fault(WrongSide { at: 12, kind: 401 }))",
    ),
    (
        Side::Serving,
        &[HELLO, "90010000000000009001000000000000"],
        End::Open,
        "Some(Fault(AfterEnd { at: 20, kind: 400 }))",
    ),
    (
        Side::Serving,
        &[HELLO, "9001000001000100"],
        End::Open,
        "Some(Fault(Frame(TooLong { at: 12, kind: 400, len: 65537 })))",
    ),
    (
        Side::Serving,
        &[HELLO, "0004000000000000"],
        End::Open,
        "Some(Fault(Frame(UnknownType { at: 12, kind: 1024 })))",
    ),
    (
        Side::Caller,
        &[HELLO, "9301000004000000ffffffff"],
        End::Open,
        "Some(Done { code: -1 })",
    ),
    (
        Side::Caller,
        &[
            HELLO,
            "92010000000000009101000000000000930100000400000000000000",
        ],
        End::Open,
        "Some(Done { code: 0 })",
    ),
    (
        Side::Caller,
        &[HELLO, "9301000008000000"],
        End::Open,
        "Some(Fault(Frame(BadLength { at: 12, kind: 403, len: 8 })))",
    ),
    (
        Side::Caller,
        &[HELLO, "93010000"],
        End::Closed,
        "Some(Closed)",
    ),
    (Side::Caller, &[], End::Gone, "Some(Gone)"),
    // The same of the other side, and what its owner tells it after something has decided.
    (
        Side::Caller,
        &["9001000000000000"],
        End::Open,
        "Some(Fault(Hello(NotHello { kind: 400 })))",
    ),
    (
        Side::Caller,
        &["000300000400000001000000"],
        End::Gone,
        "Some(Fault(Hello(Version { got: 1 })))",
    ),
    (
        Side::Caller,
        &[HELLO, "9001000000000000"],
        End::Closed,
        "Some(Fault(WrongSide { at: 12, kind: 400 }))",
    ),
    (
        Side::Caller,
        &[HELLO, "9101000000000000910100000100000061"],
        End::Open,
        "Some(Fault(AfterEnd { at: 20, kind: 401 }))",
    ),
    (
        Side::Serving,
        &[HELLO, "93010000"],
        End::Closed,
        "Some(Closed)",
    ),
    (Side::Serving, &[], End::Gone, "Some(Gone)"),
];

/// How a side that takes these bytes in pieces of at most `most` comes out.
fn outcome_of(
    side: &mut impl Half,
    bytes: &[u8],
    most: usize,
    end: End,
) -> Result<Option<Outcome>, Fail> {
    for piece in bytes.chunks(most.max(1)) {
        side.take(piece)?;
    }
    match end {
        End::Open => {}
        End::Closed => side.closed(),
        End::Gone => side.gone(),
    }
    Ok(side.outcome())
}

/// How a caller comes out.
fn called(alloc: Global, bytes: &[u8], most: usize, end: End) -> Result<Option<Outcome>, Fail> {
    let mut side = caller(alloc, b"", 3, 1)?;
    outcome_of(&mut side, bytes, most, end)
}

/// How a side that serves comes out.
fn served<S: Service>(
    alloc: Global,
    service: S,
    bytes: &[u8],
    most: usize,
    end: End,
) -> Result<Option<Outcome>, Fail> {
    let mut side = serving(alloc, service, 3, 1)?;
    outcome_of(&mut side, bytes, most, end)
}

fn check_streams(rt: &impl Abort, alloc: Global, rows: &[Row]) -> Result<(), Fail> {
    for (side, parts, end, want) in rows {
        let bytes = bytes_of(alloc, parts)?;
        for most in [1, 7, 100] {
            let outcome = match side {
                Side::Caller => called(alloc, &bytes, most, *end)?,
                Side::Serving => served(alloc, builtin(b"echo")?, &bytes, most, *end)?,
            };
            let got = format!(in alloc; "{outcome:?}")?;
            assert!(rt; got.as_str() == *want, "{got}");
        }
    }
    Ok(())
}

#[test]
fn each_side_comes_out_by_the_first_event_that_decides(rt: HostRuntime) -> Result<(), Fail> {
    check_streams(&rt, rt.alloc(), &STREAMS)
}
