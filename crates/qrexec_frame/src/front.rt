//! What stands at the front of some bytes of a channel.
ghost use Rattle.std.specs.Prelude.{◌≡◌, ◌+◌, ◌≤◌, length, IfOk};
ghost use Rattle.qrexec_frame.specs.Kinds.{least_len, most_len};
ghost use Rattle.qrexec_frame.specs.Grammar.{number_at};
ghost use Rattle.qrexec_frame.specs.Fronts.{made};
ghost use Rattle.qrexec_frame.specs.Bodies.{IsHeaderKind};
ghost use Rattle.qrexec_frame.specs.Messages.{HasNumbers};
ghost use Rattle.qrexec_frame.specs.declared.message.Message.TheVariants.{Trigger3, Trigger};
ghost use Rattle.qrexec_frame.specs.Texts.{field_text, line_text};

use crate::bytes::Bytes;
use crate::encoding::HEADER;
use crate::fault::FrameFault;
use crate::kind::{Channel, Kind, MOST_BODY};
use crate::message::Message;
use crate::text::{Text, before_nul};
use std::alloc::{AllocError, Global};

/// The type and the body of a whole message, borrowed from where it lies.
#[derive(Clone, Copy, Debug)]
pub struct Body<'a> {
    /// The type.
    pub kind: Kind,
    /// The bytes after the header, as many as the header says.
    pub bytes: &'a [u8],
}

impl<'a> Body<'a> {
    ghost use Rattle.qrexec_frame.specs.Bodies.{StandsAtFront};

    /// Returns the message at the front of some bytes of a channel, or `None` if that message isn't
    /// whole and no fault shows. The first of the bytes has the offset `at`.
    ///
    /// It reads a stream as a `Decoder` does, for a caller that keeps the bytes: it takes no
    /// memory, and moves no byte.
    ///
    /// # Errors
    ///
    /// The first fault that applies, if and only if one shows.
    #[inline(always)]
    pub fn at_front(
        channel: Channel,
        at: u64,
        bytes: &'a [u8],
    ) -> Result<Option<Body<'a>>, FrameFault>
        ensures { StandsAtFront channel at bytes.now result }
    {
        if bytes.len() < HEADER {
            return Ok(None);
        }
        let kind = u32_at(bytes, 0);
        let len = u32_at(bytes, 4);
        let row = header_kind(channel, at, kind, len)?;
        let end = HEADER + len as usize;
        if bytes.len() < end {
            return Ok(None);
        }
        let body = &bytes[HEADER..end];
        if row.has_line() && body[body.len() - 1] != 0 {
            return Err(FrameFault::NoNul { at, kind });
        }
        Ok(Some(Body {
            kind: row,
            bytes: body,
        }))
    }

    /// Returns the length of the whole message, header and body, in bytes.
    pub fn message_len(&self) -> usize
        ensures { result ≡ 8 + length self.now.bytes.now }
    {
        HEADER + self.bytes.len()
    }

    /// Returns the number that the body begins with, four bytes, the lowest first: a greeting's
    /// version, or the bits of an exit code.
    pub fn number(&self) -> u32
        requires { 4 ≤ length self.now.bytes.now }
        ensures { result ≡ number_at 0 self.now.bytes.now }
    {
        u32_at(self.bytes, 0)
    }
}

/// Returns the type that a header of this number and length is of.
///
/// It serves a caller that has a header without its body. A fault that it answers shows whatever
/// body follows, and is the one that [`Body::at_front`] answers.
///
/// # Errors
///
/// `UnknownType`, `TooLong` or `BadLength`, the first that applies, if and only if one does.
#[inline(always)]
pub fn header_kind(channel: Channel, at: u64, kind: u32, len: u32) -> Result<Kind, FrameFault>
    ensures { IsHeaderKind channel at kind len result }
{
    let Some(row) = Kind::of(channel, kind) else {
        return Err(FrameFault::UnknownType { at, kind });
    };
    if len > MOST_BODY {
        return Err(FrameFault::TooLong { at, kind, len });
    }
    if len < row.least_len() || row.most_len() < len {
        return Err(FrameFault::BadLength { at, kind, len });
    }
    Ok(row)
}

/// Returns the message of a type with this body, whose length is in the type's range.
pub(crate) fn message_of(alloc: Global, kind: Kind, body: &[u8]) -> Result<Message, AllocError>
    requires least { least_len kind ≤ length body.now }
    requires most { length body.now ≤ most_len kind }
    ensures made { IfOk result (λ m. m ≡ made kind body.now) }
    ensures numbers { IfOk result HasNumbers }
{
    match kind {
        Kind::Hello => Ok(Message::Hello {
            version: u32_at(body, 0),
        }),
        Kind::Stdin => Ok(Message::Stdin {
            bytes: copied(alloc, body)?,
        }),
        Kind::Stdout => Ok(Message::Stdout {
            bytes: copied(alloc, body)?,
        }),
        Kind::Stderr => Ok(Message::Stderr {
            bytes: copied(alloc, body)?,
        }),
        Kind::ExitCode => Ok(Message::ExitCode {
            code: u32_at(body, 0).cast_signed(),
        }),
        Kind::Exec => Ok(Message::Exec {
            domain: u32_at(body, 0),
            port: u32_at(body, 4),
            line: line(alloc, body, 8)?,
        }),
        Kind::JustExec => Ok(Message::JustExec {
            domain: u32_at(body, 0),
            port: u32_at(body, 4),
            line: line(alloc, body, 8)?,
        }),
        Kind::Connect => Ok(Message::Connect {
            domain: u32_at(body, 0),
            port: u32_at(body, 4),
            ident: field(alloc, body, 8, 32)?,
        }),
        Kind::Refused => Ok(Message::Refused {
            ident: field(alloc, body, 0, 32)?,
        }),
        Kind::Terminated => Ok(Message::Terminated {
            domain: u32_at(body, 0),
            port: u32_at(body, 4),
        }),
        Kind::Trigger3 => trigger3(alloc, body),
        Kind::Trigger => trigger(alloc, body),
    }
}

// A call of version 3.
fn trigger3(alloc: Global, body: &[u8]) -> Result<Message, AllocError>
    requires { 97 ≤ length body.now }
    ensures { IfOk result (λ m. m ≡ Trigger3 (field_text 0 64 body.now) (field_text 64 32 body.now) (line_text 96 body.now)) }
{
    Ok(Message::Trigger3 {
        target: field(alloc, body, 0, 64)?,
        ident: field(alloc, body, 64, 32)?,
        service: line(alloc, body, 96)?,
    })
}

// A call of version 2.
fn trigger(alloc: Global, body: &[u8]) -> Result<Message, AllocError>
    requires { 128 ≤ length body.now }
    ensures { IfOk result (λ m. m ≡ Trigger (field_text 64 32 body.now) (field_text 96 32 body.now) (field_text 0 64 body.now)) }
{
    Ok(Message::Trigger {
        service: field(alloc, body, 0, 64)?,
        target: field(alloc, body, 64, 32)?,
        ident: field(alloc, body, 96, 32)?,
    })
}

fn copied(alloc: Global, body: &[u8]) -> Result<Bytes, AllocError>
    ensures { IfOk result (λ b. b ≡ body.now) }
{
    Ok(Bytes::of(Vec::from_slice(alloc, body)?))
}

// A fixed field, whose last byte counts as NUL.
fn field(alloc: Global, body: &[u8], start: usize, len: usize) -> Result<Text, AllocError>
    requires some { 1 ≤ len }
    requires within { start + len ≤ length body.now }
    ensures { IfOk result (λ text. text ≡ field_text start len body.now) }
{
    Text::to_nul(alloc, &body[start..start + len - 1])
}

/// Borrows the text of a fixed field of a body, whose last byte counts as NUL.
pub fn field_bytes(body: &[u8], start: usize, len: usize) -> &[u8]
    requires some { 1 ≤ len }
    requires within { start + len ≤ length body.now }
    ensures { result.now ≡ field_text start len body.now }
{
    before_nul(&body[start..start + len - 1])
}

// A line or a service, which goes to the end of the body.
fn line(alloc: Global, body: &[u8], start: usize) -> Result<Text, AllocError>
    requires { start ≤ length body.now }
    ensures { IfOk result (λ text. text ≡ line_text start body.now) }
{
    Text::to_nul(alloc, &body[start..])
}

/// Borrows the text of a line or a service, which goes to the end of the body.
pub fn line_bytes(body: &[u8], start: usize) -> &[u8]
    requires { start ≤ length body.now }
    ensures { result.now ≡ line_text start body.now }
{
    before_nul(&body[start..])
}

/// Returns the number of four bytes, the lowest first.
pub fn u32_at(bytes: &[u8], start: usize) -> u32
    requires { start + 4 ≤ length bytes.now }
    ensures { result ≡ number_at start bytes.now }
{
    u32::from_le_bytes([
        bytes[start],
        bytes[start + 1],
        bytes[start + 2],
        bytes[start + 3],
    ])
}
