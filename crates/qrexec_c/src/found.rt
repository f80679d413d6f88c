//! A message as plain numbers, and as places in the bytes that it begins.
ghost use Rattle.std.specs.Prelude.{◌≡◌, ◌+◌, ◌≤◌, length, take, drop};
ghost use Rattle.qrexec_frame.specs.Kinds.{number_of, least_len, most_len};
ghost use Rattle.qrexec_frame.specs.Fronts.{made};
ghost use Rattle.qrexec_frame.specs.Texts.{field_text, line_text};
ghost use Rattle.qrexec_c.specs.Founds.{IsAt, Tells};

use qrexec_frame::{Kind, field_bytes, line_bytes, u32_at};

/// Where a text lies in the message's bytes. Its NUL isn't counted.
#[repr(C)]
#[derive(Clone, Copy)]
pub struct Span {
    /// The place of its first byte, counted from the first byte of the header.
    pub at: u32,
    /// Its length in bytes.
    pub len: u32,
}

/// A message: its type, the length of its body, and its fields. A field that the type doesn't have is 0. The body
/// begins at the eighth byte, and is what a data message carries.
#[repr(C)]
#[derive(Clone, Copy)]
pub struct Found {
    /// The number of the type.
    pub kind: u32,
    /// The length of the body in bytes.
    pub len: u32,
    /// The domain; of a greeting the version, and of an exit code its bits.
    pub first: u32,
    /// The port.
    pub second: u32,
    /// The target of a call.
    pub target: Span,
    /// The ident of a call.
    pub ident: Span,
    /// The service of a call, or the line.
    pub text: Span,
}

const NO_TEXT: Span = Span { at: 0, len: 0 };

/// Returns where the text of a fixed field lies.
#[tactic(auto, using(crate::proofs::Places::field_at, crate::proofs::Places::field_short))]
fn field(bytes: &[u8], len: usize, start: usize, size: usize) -> Span
    requires there { 8 + len ≤ length bytes.now }
    requires some { 1 ≤ size }
    requires within { start + size ≤ len }
    requires short { len ≤ 65536 }
    ensures { IsAt result bytes.now (field_text start size (take len (drop 8 bytes.now))) }
{
    let body = &bytes[8..8 + len];
    let text = field_bytes(body, start, size);
    Span {
        at: (8 + start) as u32,
        len: text.len() as u32,
    }
}

/// Returns where the text of a line or a service lies.
#[tactic(auto, using(crate::proofs::Places::line_at, crate::proofs::Places::line_short))]
fn line(bytes: &[u8], len: usize, start: usize) -> Span
    requires there { 8 + len ≤ length bytes.now }
    requires within { start ≤ len }
    requires short { len ≤ 65536 }
    ensures { IsAt result bytes.now (line_text start (take len (drop 8 bytes.now))) }
{
    let body = &bytes[8..8 + len];
    let text = line_bytes(body, start);
    Span {
        at: (8 + start) as u32,
        len: text.len() as u32,
    }
}

/// Tells a message whose body has this length.
#[inline(always)]
pub(crate) fn tell(kind: Kind, bytes: &[u8], len: usize) -> Found
    requires there { 8 + len ≤ length bytes.now }
    requires least { least_len kind ≤ len }
    requires most { len ≤ most_len kind }
    requires short { len ≤ 65536 }
    ensures kind { result.kind ≡ number_of kind }
    ensures len { result.len ≡ len }
    ensures tells { Tells result bytes.now (made kind (take len (drop 8 bytes.now))) }
{
    let body = &bytes[8..8 + len];
    let plain = Found {
        kind: kind.number(),
        len: len as u32,
        first: 0,
        second: 0,
        target: NO_TEXT,
        ident: NO_TEXT,
        text: NO_TEXT,
    };
    match kind {
        Kind::Stdin | Kind::Stdout | Kind::Stderr => plain,
        Kind::Hello | Kind::ExitCode => Found {
            first: u32_at(body, 0),
            ..plain
        },
        Kind::Exec | Kind::JustExec => Found {
            first: u32_at(body, 0),
            second: u32_at(body, 4),
            text: line(bytes, len, 8),
            ..plain
        },
        Kind::Connect => Found {
            first: u32_at(body, 0),
            second: u32_at(body, 4),
            ident: field(bytes, len, 8, 32),
            ..plain
        },
        Kind::Refused => Found {
            ident: field(bytes, len, 0, 32),
            ..plain
        },
        Kind::Terminated => Found {
            first: u32_at(body, 0),
            second: u32_at(body, 4),
            ..plain
        },
        Kind::Trigger3 => Found {
            target: field(bytes, len, 0, 64),
            ident: field(bytes, len, 64, 32),
            text: line(bytes, len, 96),
            ..plain
        },
        Kind::Trigger => Found {
            text: field(bytes, len, 0, 64),
            target: field(bytes, len, 64, 32),
            ident: field(bytes, len, 96, 32),
            ..plain
        },
    }
}
