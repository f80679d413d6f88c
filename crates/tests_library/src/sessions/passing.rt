//! Calls passed between both sides.
use crate::sessions::{HELLO, builtin, bytes_of, caller, count_of, serving};
use qrexec_data::{Caller, Half, Outcome, Serving};
use service_gate::Service;
use std::alloc::Global;
use std::process::Abort;
use std::test::Fail;

/// Passes what each of the two sides sends to the other, at most this many bytes at a time.
fn pass<S: Service>(
    caller: &mut Caller,
    serving: &mut Serving<S>,
    most: usize,
) -> Result<usize, Fail> {
    let asked = caller.front()?;
    let sent = asked.len().min(most);
    serving.take(&asked[..sent])?;
    caller.advance(sent);
    let answered = serving.front()?;
    let came = answered.len().min(most);
    caller.take(&answered[..came])?;
    serving.advance(came);
    Ok(sent + came)
}

/// A call of `echo`: both versions, the chunk, the length of the input, and the greatest number of
/// bytes that go over at a time; then how many messages the caller sends, and how long the longest
/// body on either way is.
type Call = (u32, u32, u32, usize, usize, usize, usize);

const CALLS: [Call; 8] = [
    (3, 3, 65_536, 65_537, 1, 4, 65_536),
    (2, 3, 65_536, 65_537, 1, 19, 4_096),
    (3, 2, 65_536, 8_192, 100_000, 4, 4_096),
    (3, 3, 1, 65_537, 100_000, 65_539, 4),
    (3, 3, 1, 1, 1, 3, 4),
    (3, 3, 1, 0, 1, 2, 4),
    (2, 2, 65_536, 1, 7, 3, 4),
    (3, 3, 65_536, 0, 100_000, 2, 4),
];

/// Passes what both sides send until neither sends anything.
fn pass_all<S: Service>(
    caller: &mut Caller,
    serving: &mut Serving<S>,
    most: usize,
) -> Result<(), Fail> {
    for _ in 0..1_000_000 {
        if pass(caller, serving, most)? == 0 {
            break;
        }
    }
    Ok(())
}

/// Whether a call of `echo` is over with its input.
fn is_echoed<S: Service>(caller: &Caller, serving: &Serving<S>, input: &[u8]) -> bool {
    let done = Some(Outcome::Done { code: 0 });
    caller.outcome() == done && serving.outcome() == done && caller.stdout() == input
}

/// How many messages the caller sent, and how long the longest body on either way was.
fn counts_of<S: Service>(
    alloc: Global,
    caller: &Caller,
    serving: &Serving<S>,
) -> Result<(usize, usize), Fail> {
    let (asked, longest_asked) = count_of(alloc, serving.got())?;
    let (_, longest_answered) = count_of(alloc, caller.got())?;
    Ok((asked, longest_asked.max(longest_answered)))
}

/// Passes a call of `echo` to its end, and returns its counts.
fn passed_between<S: Service>(
    alloc: Global,
    caller: &mut Caller,
    serving: &mut Serving<S>,
    most: usize,
    input: &[u8],
) -> Result<(usize, usize), Fail> {
    pass_all(caller, serving, most)?;
    if !is_echoed(caller, serving, input) {
        return Err(Fail::from("not the input"));
    }
    counts_of(alloc, caller, serving)
}

/// Passes a call to its end, and returns its counts.
fn passed<S: Service>(alloc: Global, service: S, call: Call) -> Result<(usize, usize), Fail> {
    let (own, theirs, chunk, len, most, _, _) = call;
    let input = vec![in alloc; 0x61; len]?;
    let mut caller = caller(alloc, &input, own, chunk)?;
    passed_by(alloc, &mut caller, service, theirs, chunk, most, &input)
}

/// Passes this caller's call to its end, and returns its counts. Each side is dropped at one place.
fn passed_by<S: Service>(
    alloc: Global,
    caller: &mut Caller,
    service: S,
    theirs: u32,
    chunk: u32,
    most: usize,
    input: &[u8],
) -> Result<(usize, usize), Fail> {
    let mut serving = serving(alloc, service, theirs, chunk)?;
    passed_between(alloc, caller, &mut serving, most, input)
}

fn check_calls(rt: &impl Abort, alloc: Global, calls: &[Call]) -> Result<(), Fail> {
    for call in calls {
        let (messages, longest) = passed(alloc, builtin(b"echo")?, *call)?;
        assert!(rt;
            messages == call.5 && longest == call.6,
            "{messages} {longest}"
        );
    }
    Ok(())
}

#[test]
fn calls_of_echo_give_their_input(rt: HostRuntime) -> Result<(), Fail> {
    check_calls(&rt, rt.alloc(), &CALLS)
}

/// A greeting and a message of the longest body, which a side of version 2 takes.
fn longest(alloc: Global, header: &str) -> Result<Vec<u8>, Fail> {
    let mut bytes = bytes_of(alloc, &[HELLO, header])?;
    bytes.extend_from_slice(&vec![in alloc; 0x61; 65_536]?)?;
    Ok(bytes)
}

/// How many messages a side of version 2 that takes these bytes sends, and how long the longest
/// body is.
fn sent_by<S: Service>(alloc: Global, service: S, bytes: &[u8]) -> Result<(usize, usize), Fail> {
    let mut side = serving(alloc, service, 2, 65_536)?;
    sent_of(alloc, &mut side, bytes)
}

/// The same of this side.
fn sent_of<S: Service>(
    alloc: Global,
    side: &mut Serving<S>,
    bytes: &[u8],
) -> Result<(usize, usize), Fail> {
    side.take(bytes)?;
    let mut out = Vec::new(alloc);
    for _ in 0..100 {
        let piece = side.front()?;
        out.extend_from_slice(piece)?;
        let count = piece.len();
        side.advance(count);
    }
    count_of(alloc, &out)
}

/// How many bytes of output a caller of version 2 that takes these bytes has.
fn output_of(alloc: Global, bytes: &[u8]) -> Result<usize, Fail> {
    let mut side = caller(alloc, b"", 2, 65_536)?;
    output_after(&mut side, bytes)
}

/// The same of this caller.
fn output_after(side: &mut Caller, bytes: &[u8]) -> Result<usize, Fail> {
    side.take(bytes)?;
    Ok(side.stdout().len())
}

#[test]
fn version_two_takes_the_longest_bodies_and_sends_none(rt: HostRuntime) -> Result<(), Fail> {
    let alloc = rt.alloc();
    assert!(rt; output_of(alloc, &longest(alloc, "9101000000000100")?)? == 65_536);
    let sent = sent_by(
        alloc,
        builtin(b"echo")?,
        &longest(alloc, "9001000000000100")?,
    )?;
    assert!(rt; sent == (17, 4_096));
    Ok(())
}
