//! What one side sends, and when it is over.
use crate::sessions::{HELLO, answered, builtin, bytes_of, caller, lines_of, sends, serving};
use qrexec_data::{Caller, Half, Outcome, Serving};
use service_gate::Service;
use std::alloc::Global;
use std::test::Fail;

/// Whether a caller of `hello` sends its greeting, and its input after it is greeted.
fn sends_hello(alloc: Global, side: &mut Caller, out: &mut Vec<u8>) -> Result<bool, Fail> {
    sends(side, out, 5)?;
    if lines_of(alloc, out)?.as_str() != "hello 3;" {
        return Ok(false);
    }
    side.take(&bytes_of(alloc, &[HELLO])?)?;
    sends(side, out, 3)?;
    Ok(lines_of(alloc, out)?.as_str() == "hello 3;stdin 2 6865;stdin 2 6c6c;stdin 1 6f;stdin 0 -;")
}

#[test]
fn sends_its_input_behind_both_greetings(rt: HostRuntime) -> Result<(), Fail> {
    let alloc = rt.alloc();
    let mut side = caller(alloc, b"hello", 3, 2)?;
    let mut out = Vec::new(alloc);
    assert!(rt; sends_hello(alloc, &mut side, &mut out)?);
    Ok(())
}

/// Greets, sends four bytes, and ends them.
const FOUR_BYTES: [&str; 3] = [HELLO, "900100000400000061626364", "9001000000000000"];

#[test]
fn serves_split_in_single_bytes(rt: HostRuntime) -> Result<(), Fail> {
    let alloc = rt.alloc();
    assert!(rt;
        answered(alloc, builtin(b"split")?, 65_536, &FOUR_BYTES)?.as_str()
            == "hello 3;stdout 2 6163;stderr 2 6264;stdout 0 -;stderr 0 -;exit 0;"
    );
    Ok(())
}

/// Whether a side that serves has no outcome while a byte of its answer is left, and then this one.
fn tells_last<S: Service>(side: &mut Serving<S>, last: Outcome) -> Result<bool, Fail> {
    for _ in 0..1_000 {
        if side.front()?.is_empty() {
            return Ok(side.outcome() == Some(last));
        }
        if side.outcome().is_some() {
            return Ok(false);
        }
        side.advance(1);
    }
    Ok(false)
}

/// Whether a side that serves and takes these bytes, one at a time, is done once its last byte went.
fn is_done_last<S: Service>(side: &mut Serving<S>, bytes: &[u8]) -> Result<bool, Fail> {
    for byte in bytes {
        side.take(&[*byte])?;
    }
    tells_last(side, Outcome::Done { code: 0 })
}

#[test]
fn serving_is_done_once_its_last_byte_went(rt: HostRuntime) -> Result<(), Fail> {
    let alloc = rt.alloc();
    let bytes = bytes_of(alloc, &FOUR_BYTES)?;
    let mut side = serving(alloc, builtin(b"split")?, 3, 65_536)?;
    assert!(rt; is_done_last(&mut side, &bytes)?);
    Ok(())
}
