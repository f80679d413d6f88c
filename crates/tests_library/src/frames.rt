//! Messages and texts by the calls that borrow, clean and print them. Streams are read through the
//! whole program.
use qrexec_frame::{
    Channel, Decoder, Kind, Message, Text, clean_name, clean_service, clean_target, encode_data,
    fits, message_line,
};
use std::alloc::Global;
use std::process::Abort;
use std::test::Fail;
use vchan_io::Memory;

/// The bytes of two bytes on the error output, and of none on the output.
fn two_messages(alloc: Global) -> Result<Vec<u8>, Memory> {
    let mut bytes = Vec::new(alloc);
    encode_data(Kind::Stderr, b"ab", &mut bytes)?;
    encode_data(Kind::Stdout, b"", &mut bytes)?;
    Ok(bytes)
}

/// Checks the first body that a decoder lends of these bytes.
fn check_body(rt: &impl Abort, decoder: &mut Decoder, bytes: &[u8]) -> Result<(), Fail> {
    decoder.feed(bytes)?;
    let Ok(Some(body)) = decoder.next_body() else {
        return Err(Fail::from("no message"));
    };
    assert!(rt; body.kind == Kind::Stderr && body.bytes == b"ab".as_slice());
    assert!(rt; decoder.rest() == 8 && decoder.held() == 18 && decoder.at() == 10);
    Ok(())
}

#[test]
fn lends_bodies(rt: HostRuntime) -> Result<(), Fail> {
    let bytes = two_messages(rt.alloc())?;
    check_body(&rt, &mut Decoder::new(rt.alloc(), Channel::Data), &bytes)
}

/// Makes a text of bytes without a NUL, so that only memory can be wanting.
pub(crate) fn text(alloc: Global, text: &str) -> Result<Text, Memory> {
    match Text::of(alloc, text.as_bytes()) {
        Ok(text) => Ok(text),
        Err(_) => Err(Memory),
    }
}

// Whether a cleaning call gives these bytes, in functions of their own: what a contract says of a text, and
// the text's end, stay out of the tests.
pub(crate) fn name_becomes(alloc: Global, name: &str, clean: &[u8]) -> Result<bool, Fail> {
    Ok(clean_name(alloc, &text(alloc, name)?)?.bytes() == clean)
}

pub(crate) fn service_becomes(alloc: Global, service: &str, clean: &[u8]) -> Result<bool, Fail> {
    Ok(clean_service(alloc, &text(alloc, service)?)?.bytes() == clean)
}

pub(crate) fn target_becomes(alloc: Global, target: &str, clean: &[u8]) -> Result<bool, Fail> {
    Ok(clean_target(alloc, &text(alloc, target)?)?.bytes() == clean)
}

#[test]
fn cleans_texts(rt: HostRuntime) -> Result<(), Fail> {
    let alloc = rt.alloc();
    let text = "a @:+$";
    assert!(rt; name_becomes(alloc, text, b"a_____")?);
    assert!(rt; service_becomes(alloc, text, b"a___+_")?);
    assert!(rt; target_becomes(alloc, text, b"a_@:__")?);
    Ok(())
}

/// The line of a message, which fits into a frame.
fn fitting_line(rt: &(impl Abort + AllocGlobal), message: &Message) -> Result<Vec<u8>, Memory> {
    assert!(rt; fits(message));
    message_line(rt.alloc(), message)
}

fn is_no_text(alloc: Global, bytes: &[u8]) -> bool {
    Text::of(alloc, bytes).is_err()
}

/// Whether the clone of a text of these bytes has them too.
fn is_cloned(alloc: Global, bytes: &[u8]) -> Result<bool, Fail> {
    Ok(Text::of(alloc, bytes)?.clone()?.bytes() == bytes)
}

// The lines of messages that own memory are rows of tests/cli: a function that owns one is dear to prove.
#[test]
fn prints_texts_without_nul(rt: HostRuntime) -> Result<(), Fail> {
    let alloc = rt.alloc();
    assert!(rt; is_no_text(alloc, b"a\0b"));
    assert!(rt; is_cloned(alloc, b"call 1")?);
    let line = fitting_line(&rt, &Message::Hello { version: 3 })?;
    assert!(rt; line.as_slice() == b"hello 3".as_slice());
    Ok(())
}

/// Whether a decoder returns a message now.
fn gives_one(decoder: &mut Decoder) -> bool {
    match decoder.next() {
        Ok(found) => found.is_some(),
        Err(_) => false,
    }
}

/// How many messages a decoder returns of these bytes, fed one at a time, and after how many bytes
/// the first comes.
fn fed_in_single_bytes(decoder: &mut Decoder, bytes: &[u8]) -> Result<(usize, usize), Fail> {
    let mut given: usize = 0;
    let mut first = 0;
    for (at, byte) in bytes.iter().enumerate() {
        decoder.feed(&[*byte])?;
        if gives_one(decoder) {
            if given == 0 {
                first = at + 1;
            }
            given = given.saturating_add(1);
        }
    }
    Ok((given, first))
}

/// The bytes of a message of the longest body.
fn longest_message(alloc: Global) -> Result<Vec<u8>, Memory> {
    let body = vec![in alloc; 7u8; 65_536]?;
    let mut bytes = Vec::new(alloc);
    encode_data(Kind::Stdout, &body, &mut bytes)?;
    Ok(bytes)
}

/// Checks that the message comes after its last byte, and none after the first two bytes of another.
fn check_single_bytes(rt: &impl Abort, decoder: &mut Decoder, bytes: &[u8]) -> Result<(), Fail> {
    assert!(rt; fed_in_single_bytes(decoder, bytes)? == (1, 65_544));
    assert!(rt; fed_in_single_bytes(decoder, &[0x91, 0x01])? == (0, 0));
    assert!(rt; decoder.rest() == 2 && decoder.at() == 65_544);
    Ok(())
}

#[test]
fn gives_a_message_after_its_last_byte(rt: HostRuntime) -> Result<(), Fail> {
    let bytes = longest_message(rt.alloc())?;
    check_single_bytes(&rt, &mut Decoder::new(rt.alloc(), Channel::Data), &bytes)
}
