//! Streams as bytes from outside, and calls passed between both sides. Contracts say the rest. Here stand the
//! two sides for tests, and what they send.
mod passing;
mod sending;
mod services;
mod streams;

use qrexec_data::{Caller, Half, Serving};
use qrexec_frame::{Channel, Decoder};
use service_gate::{Builtin, Service};
use std::alloc::Global;
use std::test::Fail;

/// The greeting of version 3.
pub(crate) const HELLO: &str = "000300000400000003000000";

pub(crate) fn bytes_of(alloc: Global, parts: &[&str]) -> Result<Vec<u8>, Fail> {
    let mut bytes = Vec::new(alloc);
    for text in parts {
        let part = hex::decode(alloc, *text)?;
        bytes.extend_from_slice(&part)?;
    }
    Ok(bytes)
}

/// The lines of the messages of a data channel, with `;` after each.
pub(crate) fn lines_of(alloc: Global, bytes: &[u8]) -> Result<String, Fail> {
    let mut decoder = Decoder::new(alloc, Channel::Data);
    decoder.feed(bytes)?;
    let mut lines = Vec::new(alloc);
    for _ in 0..100 {
        if !decoder.next_line(&mut lines).unwrap_or(false) {
            break;
        }
        lines.push(b';')?;
    }
    Ok(String::from_utf8(lines)?)
}

pub(crate) fn caller(alloc: Global, stdin: &[u8], own: u32, chunk: u32) -> Result<Caller, Fail> {
    if !(2..=3).contains(&own) || chunk == 0 || chunk > 65_536 {
        return Err(Fail::from("not a version or a chunk"));
    }
    Ok(Caller::new(alloc, Vec::from_slice(alloc, stdin)?, own, chunk)?)
}

pub(crate) fn serving<S: Service>(
    alloc: Global,
    service: S,
    own: u32,
    chunk: u32,
) -> Result<Serving<S>, Fail> {
    if !(2..=3).contains(&own) || chunk == 0 || chunk > 65_536 {
        return Err(Fail::from("not a version or a chunk"));
    }
    Ok(Serving::new(alloc, service, own, chunk)?)
}

pub(crate) fn builtin(name: &[u8]) -> Result<Builtin, Fail> {
    Ok(Builtin::named(name).ok_or("no service of this name")?)
}

/// All that a side sends now, reported in steps of at most `most` bytes.
pub(crate) fn sends(side: &mut impl Half, out: &mut Vec<u8>, most: usize) -> Result<(), Fail> {
    for _ in 0..1_000 {
        let piece = side.front()?;
        if piece.is_empty() {
            break;
        }
        let count = piece.len().min(most);
        out.extend_from_slice(&piece[..count])?;
        side.advance(count);
    }
    Ok(())
}

/// The lines of what a service answers to these bytes.
pub(crate) fn answered<S: Service>(
    alloc: Global,
    service: S,
    chunk: u32,
    parts: &[&str],
) -> Result<String, Fail> {
    let bytes = bytes_of(alloc, parts)?;
    let mut side = serving(alloc, service, 3, chunk)?;
    answers_of(alloc, &mut side, &bytes)
}

/// The same of this side, which is dropped at one place.
fn answers_of<S: Service>(
    alloc: Global,
    side: &mut Serving<S>,
    bytes: &[u8],
) -> Result<String, Fail> {
    for byte in bytes {
        side.take(&[*byte])?;
    }
    let mut out = Vec::new(alloc);
    sends(side, &mut out, 1)?;
    lines_of(alloc, &out)
}

/// How many messages the bytes are, and how long the longest body is.
pub(crate) fn count_of(alloc: Global, bytes: &[u8]) -> Result<(usize, usize), Fail> {
    let mut decoder = Decoder::new(alloc, Channel::Data);
    decoder.feed(bytes)?;
    let mut longest = 0;
    for count in 0..100_000 {
        match decoder.next_body() {
            Ok(Some(body)) => longest = body.bytes.len().max(longest),
            _ => return Ok((count, longest)),
        }
    }
    Err(Fail::from("too many messages"))
}
