ghost use Rattle.std.specs.Prelude.{◌≡◌, ◌+◌, ◌≤◌, ◌++◌, List, ℕ, length, OnOk, OnErr, vec_len, vec_capacity};
ghost use Rattle.qrexec_frame.specs.declared.kind.Channel.{Channel};
ghost use Rattle.qrexec_frame.specs.Messages.{Fits, HasNumbers, GoesOn, body_of, four, written};
ghost use Rattle.qrexec_frame.specs.Grammar.{Spelled};
ghost use Rattle.qrexec_frame.specs.Fronts.{front, made};
ghost use Rattle.qrexec_frame.specs.Kinds.{IsData};
ghost use Rattle.qrexec_frame.specs.Streams.{Whole};
ghost use Rattle.qrexec_frame.specs.Texts.{padded, ended};

use crate::kind::Kind;
use crate::message::Message;
use crate::text::Text;
use vchan_io::Memory;

/// The length of a header, in bytes: the type and the length of the body.
pub(crate) const HEADER: usize = 8;

/// The length of the longest fixed field of a message, in bytes.
const LONGEST_FIELD: usize = 64;

/// Fills the fixed fields.
static NULS: [u8; LONGEST_FIELD] = [0; LONGEST_FIELD];

/// Appends a message in its written spelling: a fixed field is filled with NULs, and a line or a
/// service ends with one NUL.
///
/// # Errors
///
/// `Memory` if memory runs out; `out` is as it was then.
pub fn encode(message: &Message, out: &mut Vec<u8>) -> Result<(), Memory>
    requires { Fits message.now }
    ensures ok { OnOk result (out.new.items ≡ out.old.items ++ written message.now) }
    ensures err { OnErr result (out.new.items ≡ out.old.items) }

    // What was written spells the message on each channel that has its type, and is read again,
    // whatever follows it.
    ensures spelled { OnOk result ((channel : Channel) → GoesOn channel message.now → Spelled channel (written message.now) message.now) }
    ensures read_again { OnOk result ((channel : Channel) (more : List ℕ) → GoesOn channel message.now →
        front channel (written message.now ++ more) ≡ Whole message.now (length (written message.now))) }
{
    let len = body_len(message);
    out.reserve(HEADER + len)?;
    put_number(out, message.kind());
    put_number(out, len as u32);
    put_body(out, message);
    Ok(())
}

/// Appends a message of a stream of the call with these bytes, as `encode` writes it; no bytes end
/// the stream. The type is `Stdin`, `Stdout` or `Stderr`.
///
/// # Errors
///
/// `Memory` if memory runs out; `out` is as it was then.
#[tactic(auto, using(crate::proofs::WrittenLaws::written_data))]
pub fn encode_data(kind: Kind, bytes: &[u8], out: &mut Vec<u8>) -> Result<(), Memory>
    requires stream { IsData kind }
    requires fits { length bytes.now ≤ 65536 }
    ensures ok { OnOk result (out.new.items ≡ out.old.items ++ written (made kind bytes.now)) }
    ensures err { OnErr result (out.new.items ≡ out.old.items) }
{
    out.reserve(HEADER + bytes.len())?;
    put_number(out, kind.number());
    put_number(out, bytes.len() as u32);
    put(out, bytes);
    Ok(())
}

// The length of the body, in bytes.
fn body_len(message: &Message) -> usize
    requires { Fits message.now }
    ensures len { result ≡ length (body_of message.now) }
    ensures most { result ≤ 65536 }
{
    match message {
        Message::Hello { .. } | Message::ExitCode { .. } => 4,
        Message::Stdin { bytes } => bytes.slice().len(),
        Message::Stdout { bytes } => bytes.slice().len(),
        Message::Stderr { bytes } => bytes.slice().len(),
        Message::Exec { line, .. } => 9 + line.bytes().len(),
        Message::JustExec { line, .. } => 9 + line.bytes().len(),
        Message::Connect { .. } => 40,
        Message::Refused { .. } => 32,
        Message::Terminated { .. } => 8,
        Message::Trigger3 { service, .. } => 97 + service.bytes().len(),
        Message::Trigger { .. } => 128,
    }
}

fn put_body(out: &mut Vec<u8>, message: &Message)
    requires fits { Fits message.now }
    requires room { vec_len out.old + length (body_of message.now) ≤ vec_capacity out.old }
    ensures items { out.new.items ≡ out.old.items ++ body_of message.now }
    ensures numbers { HasNumbers message.now }
{
    match message {
        Message::Hello { version } => put_number(out, *version),
        Message::Stdin { bytes } => put(out, bytes.slice()),
        Message::Stdout { bytes } => put(out, bytes.slice()),
        Message::Stderr { bytes } => put(out, bytes.slice()),
        Message::ExitCode { code } => put(out, &code.to_le_bytes()),
        Message::Exec { domain, port, line } => put_line(out, *domain, *port, line),
        Message::JustExec { domain, port, line } => put_line(out, *domain, *port, line),
        Message::Connect {
            domain,
            port,
            ident,
        } => put_connect(out, *domain, *port, ident),
        Message::Refused { ident } => put_field(out, ident, 32),
        Message::Terminated { domain, port } => {
            put_number(out, *domain);
            put_number(out, *port);
        }
        Message::Trigger3 {
            target,
            ident,
            service,
        } => put_trigger3(out, target, ident, service),
        Message::Trigger {
            target,
            ident,
            service,
        } => put_trigger(out, target, ident, service),
    }
}

fn put_connect(out: &mut Vec<u8>, domain: u32, port: u32, ident: &Text)
    requires within { length ident.now ≤ 31 }
    requires room { vec_len out.old + 40 ≤ vec_capacity out.old }
    ensures { out.new.items ≡ out.old.items ++ (four domain ++ (four port ++ padded 32 ident.now)) }
{
    put_number(out, domain);
    put_number(out, port);
    put_field(out, ident, 32);
}

fn put_trigger3(out: &mut Vec<u8>, target: &Text, ident: &Text, service: &Text)
    requires target { length target.now ≤ 63 }
    requires ident { length ident.now ≤ 31 }
    requires room { vec_len out.old + (97 + length service.now) ≤ vec_capacity out.old }
    ensures { out.new.items ≡ out.old.items ++ (padded 64 target.now ++ (padded 32 ident.now ++ ended service.now)) }
{
    put_field(out, target, 64);
    put_field(out, ident, 32);
    put_ended(out, service);
}

fn put_trigger(out: &mut Vec<u8>, target: &Text, ident: &Text, service: &Text)
    requires target { length target.now ≤ 31 }
    requires ident { length ident.now ≤ 31 }
    requires service { length service.now ≤ 63 }
    requires room { vec_len out.old + 128 ≤ vec_capacity out.old }
    ensures { out.new.items ≡ out.old.items ++ (padded 64 service.now ++ (padded 32 target.now ++ padded 32 ident.now)) }
{
    put_field(out, service, 64);
    put_field(out, target, 32);
    put_field(out, ident, 32);
}

fn put_line(out: &mut Vec<u8>, domain: u32, port: u32, line: &Text)
    requires { vec_len out.old + (9 + length line.now) ≤ vec_capacity out.old }
    ensures { out.new.items ≡ out.old.items ++ (four domain ++ (four port ++ ended line.now)) }
{
    put_number(out, domain);
    put_number(out, port);
    put_ended(out, line);
}

fn put_ended(out: &mut Vec<u8>, text: &Text)
    requires { vec_len out.old + length (ended text.now) ≤ vec_capacity out.old }
    ensures items { out.new.items ≡ out.old.items ++ ended text.now }
    ensures capacity { vec_capacity out.old ≤ vec_capacity out.new }
{
    put(out, text.bytes());
    put(out, &[0]);
}

fn put_field(out: &mut Vec<u8>, text: &Text, len: usize)
    requires within { length text.now ≤ len }
    requires field { len ≤ 64 }
    requires room { vec_len out.old + len ≤ vec_capacity out.old }
    ensures items { out.new.items ≡ out.old.items ++ padded len text.now }
    ensures len { vec_len out.new ≡ vec_len out.old + len }
    ensures capacity { vec_capacity out.old ≤ vec_capacity out.new }
{
    let text = text.bytes();
    put(out, text);
    put(out, &NULS[text.len()..len]);
}

fn put_number(out: &mut Vec<u8>, number: u32)
    requires { vec_len out.old + 4 ≤ vec_capacity out.old }
    ensures items { out.new.items ≡ out.old.items ++ four number }
    ensures len { vec_len out.new ≡ vec_len out.old + 4 }
    ensures capacity { vec_capacity out.old ≤ vec_capacity out.new }
{
    put(out, &number.to_le_bytes());
}

/// Appends bytes for which there is room.
pub(crate) fn put(out: &mut Vec<u8>, bytes: &[u8])
    requires { vec_len out.old + length bytes.now ≤ vec_capacity out.old }
    ensures items { out.new.items ≡ out.old.items ++ bytes.now }
    ensures len { vec_len out.new ≡ vec_len out.old + length bytes.now }
    ensures capacity { vec_capacity out.old ≤ vec_capacity out.new }
{
    out.extend_from_slice(bytes).unwrap()
}
