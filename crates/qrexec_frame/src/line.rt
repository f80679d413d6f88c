//! The line that each message is printed as.
ghost use Rattle.std.specs.Prelude.{◌≡◌, ◌+◌, ◌*◌, ◌≤◌, ◌++◌, length, codes, map, IfOk, IfSome, OnOk, OnErr, vec_len, vec_capacity};
ghost use Rattle.std.specs.Fmt.{decimal, signed_decimal};
ghost use Rattle.hex.specs.Hex.{encode_lower};
ghost use Rattle.qrexec_frame.specs.Fronts.{made};
ghost use Rattle.qrexec_frame.specs.Kinds.{least_len, most_len};
ghost use Rattle.qrexec_frame.specs.Lines.{line_of, shown_byte, shown_text, three_texts};
ghost use Rattle.script_words.specs.Text.{shown_bytes};

use crate::encoding::put;
use crate::front::{field_bytes, line_bytes, u32_at};
use crate::kind::Kind;
use crate::message::Message;
use itoa::Buffer;
use script_words::text::make_room;
use std::alloc::{AllocError, Global};
use vchan_io::Memory;

/// The greatest number of bytes that the name, the numbers, the spaces, a `-` and the line feed of a line take.
const FRAME: usize = 40;

/// Returns the line that a message is printed as, without a line feed: its name, then its numbers,
/// bytes and texts, with a space before each.
///
/// Numbers are decimal. Bytes are in lower case hexadecimal after their number. `-` stands for no
/// bytes and for an empty text. In a text, `_` stands for each byte outside 0x20 to 0x7e.
///
/// # Errors
///
/// `Memory` if memory runs out; no other.
pub fn message_line(alloc: Global, message: &Message) -> Result<Vec<u8>, Memory>
    ensures { IfOk result (λ line. line.items ≡ line_of message.now) }
{
    let mut line = Vec::new(alloc);
    push_message_line(&mut line, message)?;
    Ok(line)
}

/// Appends the line of a message, as `message_line` has it.
///
/// # Errors
///
/// `Memory` if memory runs out; `out` is as it was then.
pub fn push_message_line(out: &mut Vec<u8>, message: &Message) -> Result<(), Memory>
    ensures ok { OnOk result (out.new.items ≡ out.old.items ++ line_of message.now) }
    ensures no_memory { OnErr result (out.new.items ≡ out.old.items) }
{
    put_message(out, message)?;
    Ok(())
}

fn put_message(out: &mut Vec<u8>, message: &Message) -> Result<(), AllocError>
    ensures ok { OnOk result (out.new.items ≡ out.old.items ++ line_of message.now) }
    ensures no_memory { OnErr result (out.new.items ≡ out.old.items) }
{
    match message {
        Message::Hello { version } => put_hello(out, *version),
        Message::Stdin { bytes } => put_data(out, b"stdin ", bytes.slice()),
        Message::Stdout { bytes } => put_data(out, b"stdout ", bytes.slice()),
        Message::Stderr { bytes } => put_data(out, b"stderr ", bytes.slice()),
        Message::ExitCode { code } => put_exit(out, *code),
        Message::Exec { domain, port, line } => {
            put_command(out, b"exec ", *domain, *port, line.bytes())
        }
        Message::JustExec { domain, port, line } => {
            put_command(out, b"just-exec ", *domain, *port, line.bytes())
        }
        Message::Connect {
            domain,
            port,
            ident,
        } => put_command(out, b"connect ", *domain, *port, ident.bytes()),
        Message::Refused { ident } => put_refused(out, ident.bytes()),
        Message::Terminated { domain, port } => put_terminated(out, *domain, *port),
        Message::Trigger3 {
            target,
            ident,
            service,
        } => put_call(
            out,
            b"trigger3 ",
            target.bytes(),
            ident.bytes(),
            service.bytes(),
        ),
        Message::Trigger {
            target,
            ident,
            service,
        } => put_call(
            out,
            b"trigger ",
            target.bytes(),
            ident.bytes(),
            service.bytes(),
        ),
    }
}

/// Appends the line of the message of this type and body, whose length is in the type's range. If
/// memory runs out, `out` is as it was.
pub(crate) fn put_body(out: &mut Vec<u8>, kind: Kind, bytes: &[u8]) -> Result<(), AllocError>
    requires least { least_len kind ≤ length bytes.now }
    requires most { length bytes.now ≤ most_len kind }
    ensures ok { OnOk result (out.new.items ≡ out.old.items ++ line_of (made kind bytes.now)) }
    ensures no_memory { OnErr result (out.new.items ≡ out.old.items) }
{
    match kind {
        Kind::Hello => put_hello(out, u32_at(bytes, 0)),
        Kind::Stdin => put_data(out, b"stdin ", bytes),
        Kind::Stdout => put_data(out, b"stdout ", bytes),
        Kind::Stderr => put_data(out, b"stderr ", bytes),
        Kind::ExitCode => put_exit(out, u32_at(bytes, 0).cast_signed()),
        Kind::Exec => put_command(
            out,
            b"exec ",
            u32_at(bytes, 0),
            u32_at(bytes, 4),
            line_bytes(bytes, 8),
        ),
        Kind::JustExec => put_command(
            out,
            b"just-exec ",
            u32_at(bytes, 0),
            u32_at(bytes, 4),
            line_bytes(bytes, 8),
        ),
        Kind::Connect => put_command(
            out,
            b"connect ",
            u32_at(bytes, 0),
            u32_at(bytes, 4),
            field_bytes(bytes, 8, 32),
        ),
        Kind::Refused => put_refused(out, field_bytes(bytes, 0, 32)),
        Kind::Terminated => put_terminated(out, u32_at(bytes, 0), u32_at(bytes, 4)),
        Kind::Trigger3 => put_call(
            out,
            b"trigger3 ",
            field_bytes(bytes, 0, 64),
            field_bytes(bytes, 64, 32),
            line_bytes(bytes, 96),
        ),
        Kind::Trigger => put_call(
            out,
            b"trigger ",
            field_bytes(bytes, 64, 32),
            field_bytes(bytes, 96, 32),
            field_bytes(bytes, 0, 64),
        ),
    }
}

fn put_hello(out: &mut Vec<u8>, version: u32) -> Result<(), AllocError>
    ensures ok { OnOk result (out.new.items ≡ out.old.items ++ (codes "hello " ++ decimal version)) }
    ensures no_memory { OnErr result (out.new.items ≡ out.old.items) }
{
    make_room(out, FRAME)?;
    put(out, b"hello ");
    put_number(out, version);
    Ok(())
}

/// Appends a name, the number of some bytes, and the bytes. The length of a name is a parameter, so
/// that a store or two copy it.
fn put_data<const N: usize>(
    out: &mut Vec<u8>,
    name: &[u8; N],
    bytes: &[u8],
) -> Result<(), AllocError>
    requires { N ≤ 8 }
    ensures ok { OnOk result (out.new.items ≡ out.old.items ++ ((name.now ++ (decimal (length bytes.now) ++ codes " ")) ++ shown_bytes bytes.now)) }
    ensures no_memory { OnErr result (out.new.items ≡ out.old.items) }
{
    let Some(room) = room_of(bytes.len(), bytes.len(), 0) else {
        return Err(AllocError);
    };
    make_room(out, room)?;
    put(out, name);
    put_count(out, bytes.len());
    put(out, b" ");
    put_bytes(out, bytes);
    Ok(())
}

fn put_exit(out: &mut Vec<u8>, code: i32) -> Result<(), AllocError>
    ensures ok { OnOk result (out.new.items ≡ out.old.items ++ (codes "exit " ++ signed_decimal code)) }
    ensures no_memory { OnErr result (out.new.items ≡ out.old.items) }
{
    make_room(out, FRAME)?;
    put(out, b"exit ");
    put(out, Buffer::new().format(code).as_bytes());
    Ok(())
}

/// Appends a name, a domain, a port and a text.
fn put_command(
    out: &mut Vec<u8>,
    name: &[u8],
    domain: u32,
    port: u32,
    text: &[u8],
) -> Result<(), AllocError>
    requires { length name.now ≤ 12 }
    ensures ok { OnOk result (out.new.items ≡ out.old.items ++ ((name.now ++ (decimal domain ++ (codes " " ++ (decimal port ++ codes " ")))) ++ shown_text text.now)) }
    ensures no_memory { OnErr result (out.new.items ≡ out.old.items) }
{
    make_room(out, FRAME + text.len())?;
    put_place(out, name, domain, port);
    put(out, b" ");
    put_text(out, text);
    Ok(())
}

fn put_refused(out: &mut Vec<u8>, ident: &[u8]) -> Result<(), AllocError>
    ensures ok { OnOk result (out.new.items ≡ out.old.items ++ (codes "refused " ++ shown_text ident.now)) }
    ensures no_memory { OnErr result (out.new.items ≡ out.old.items) }
{
    make_room(out, FRAME + ident.len())?;
    put(out, b"refused ");
    put_text(out, ident);
    Ok(())
}

fn put_terminated(out: &mut Vec<u8>, domain: u32, port: u32) -> Result<(), AllocError>
    ensures ok { OnOk result (out.new.items ≡ out.old.items ++ (codes "terminated " ++ (decimal domain ++ (codes " " ++ decimal port)))) }
    ensures no_memory { OnErr result (out.new.items ≡ out.old.items) }
{
    make_room(out, FRAME)?;
    put_place(out, b"terminated ", domain, port);
    Ok(())
}

/// Appends a name and three texts.
fn put_call(
    out: &mut Vec<u8>,
    name: &[u8],
    target: &[u8],
    ident: &[u8],
    service: &[u8],
) -> Result<(), AllocError>
    requires { length name.now ≤ 12 }
    ensures ok { OnOk result (out.new.items ≡ out.old.items ++ (name.now ++ three_texts target.now ident.now service.now)) }
    ensures no_memory { OnErr result (out.new.items ≡ out.old.items) }
{
    let Some(room) = room_of(target.len(), ident.len(), service.len()) else {
        return Err(AllocError);
    };
    make_room(out, room)?;
    put(out, name);
    put_text(out, target);
    put(out, b" ");
    put_text(out, ident);
    put(out, b" ");
    put_text(out, service);
    Ok(())
}

/// Returns the greatest length of a line whose parts have these lengths, if it is a length.
fn room_of(first: usize, second: usize, third: usize) -> Option<usize>
    ensures { IfSome result (λ room. room ≡ first + second + third + FRAME) }
{
    first
        .checked_add(second)?
        .checked_add(third)?
        .checked_add(FRAME)
}

// The functions below append where there is room.

/// Appends a name, a domain and a port.
fn put_place(out: &mut Vec<u8>, name: &[u8], domain: u32, port: u32)
    requires { vec_len out.old + (length name.now + 21) ≤ vec_capacity out.old }
    ensures items { out.new.items ≡ out.old.items ++ (name.now ++ (decimal domain ++ (codes " " ++ decimal port))) }
    ensures len { vec_len out.new ≤ vec_len out.old + (length name.now + 21) }
    ensures capacity { vec_capacity out.old ≤ vec_capacity out.new }
{
    put(out, name);
    put_number(out, domain);
    put(out, b" ");
    put_number(out, port);
}

fn put_number(out: &mut Vec<u8>, number: u32)
    requires { vec_len out.old + 10 ≤ vec_capacity out.old }
    ensures items { out.new.items ≡ out.old.items ++ decimal number }
    ensures len { vec_len out.new ≤ vec_len out.old + 10 }
    ensures capacity { vec_capacity out.old ≤ vec_capacity out.new }
{
    put(out, Buffer::new().format(number).as_bytes());
}

/// Appends the number of bytes of a stream's message. The number of a short one is one digit, which
/// needs no buffer.
#[inline(always)]
#[tactic(auto, using(std::proofs::lemmas::Fmt::decimal_digit))]
fn put_count(out: &mut Vec<u8>, count: usize)
    requires { vec_len out.old + 20 ≤ vec_capacity out.old }
    ensures items { out.new.items ≡ out.old.items ++ decimal count }
    ensures len { vec_len out.new ≤ vec_len out.old + 20 }
    ensures capacity { vec_capacity out.old ≤ vec_capacity out.new }
{
    if count < 10 {
        out.push_reserved(b'0' + count as u8);
    } else {
        put(out, Buffer::new().format(count).as_bytes());
    }
}

fn put_text(out: &mut Vec<u8>, text: &[u8])
    requires { vec_len out.old + (length text.now + 1) ≤ vec_capacity out.old }
    ensures items { out.new.items ≡ out.old.items ++ shown_text text.now }
    ensures len { vec_len out.new ≤ vec_len out.old + (length text.now + 1) }
    ensures capacity { vec_capacity out.old ≤ vec_capacity out.new }
{
    if text.is_empty() {
        put(out, b"-");
        return;
    }
    put_shown(out, text);
}

fn put_shown(out: &mut Vec<u8>, text: &[u8])
    requires { vec_len out.old + length text.now ≤ vec_capacity out.old }
    ensures items { out.new.items ≡ out.old.items ++ map shown_byte text.now }
    ensures len { vec_len out.new ≡ vec_len out.old + length text.now }
    ensures capacity { vec_capacity out.old ≤ vec_capacity out.new }
{
    for b in text {
        out.push_reserved(shown(*b));
    }
}

// A byte of a text, or `_` if it isn't printable.
fn shown(byte: u8) -> u8
    ensures { result ≡ shown_byte byte }
{
    if matches!(byte, b' '..=b'~') {
        byte
    } else {
        b'_'
    }
}

#[inline(always)]
fn put_bytes(out: &mut Vec<u8>, bytes: &[u8])
    requires { vec_len out.old + (2 * length bytes.now + 1) ≤ vec_capacity out.old }
    ensures { out.new.items ≡ out.old.items ++ shown_bytes bytes.now }
{
    if bytes.is_empty() {
        put(out, b"-");
        return;
    }
    put_hex(out, bytes);
}

#[inline(always)]
fn put_hex(out: &mut Vec<u8>, bytes: &[u8])
    requires { vec_len out.old + 2 * length bytes.now ≤ vec_capacity out.old }
    ensures { out.new.items ≡ out.old.items ++ encode_lower bytes.now }
{
    let start = out.len();
    out.resize(start + 2 * bytes.len(), 0).unwrap();
    hex::encode_to_slice(bytes, &mut out[start..]).unwrap();
}
