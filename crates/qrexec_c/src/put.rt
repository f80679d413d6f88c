//! Writers of messages into the caller's bytes.
//!
//! Each returns how many bytes it wrote. It returns 0, and writes nothing, if and only if there is no room for the
//! whole message, or a text has a NUL or too many bytes for its field. A fixed field is filled with NULs, and a line
//! or a service ends with one NUL.
ghost use Rattle.std.specs.Prelude.{◌≡◌, ◌≤◌, ◌+◌, ◌++◌, ◌↔◌, IsTrue, length, take};
ghost use Rattle.qrexec_frame.specs.declared.message.Message.TheVariants.{Hello, Stdin, Stdout, Stderr, ExitCode, Exec, JustExec, Connect, Refused, Terminated, Trigger3, Trigger};
ghost use Rattle.qrexec_frame.specs.Messages.{written, framed, four};
ghost use Rattle.qrexec_frame.specs.Texts.{padded, ended, FitsText};
ghost use Rattle.qrexec_c.specs.Puts.{Puts};

use crate::gather::fill;
use memchr::memchr;

/// Fills the fixed fields.
static NULS: [u8; 64] = [0; 64];

/// The greatest number of bytes that a data message carries.
const MOST_BYTES: usize = 65_536;

/// The greatest lengths of the texts, so that each fits its field with at least one NUL.
const MOST_LINE: usize = 65_527;

const MOST_SERVICE: usize = 65_439;

const MOST_IN_64: usize = 63;

const MOST_IN_32: usize = 31;

/// Returns whether a text has at most this many bytes, and no NUL.
fn fits_text(text: &[u8], most: usize) -> bool
    ensures { IsTrue result ↔ FitsText most text.now }
{
    text.len() <= most && memchr(0, text).is_none()
}

// Whether the texts of a call fit their fields.
fn call_fits(
    target: &[u8],
    most_target: usize,
    ident: &[u8],
    service: &[u8],
    most_service: usize,
) -> bool
    ensures { IsTrue result ↔ FitsText most_target target.now × FitsText 31 ident.now × FitsText most_service service.now }
{
    fits_text(target, most_target)
        && fits_text(ident, MOST_IN_32)
        && fits_text(service, most_service)
}

fn put_number(out: &mut [u8], at: usize, number: u32)
    requires { at + 4 ≤ length out.old }
    ensures { take (at + 4) out.new ≡ take at out.old ++ four number }
{
    fill(out, at, &number.to_le_bytes());
}

fn put_header(out: &mut [u8], kind: u32, len: u32)
    requires { 8 ≤ length out.old }
    ensures { take 8 out.new ≡ four kind ++ four len }
{
    put_number(out, 0, kind);
    put_number(out, 4, len);
}

// A text and NULs up to the length of its field.
fn put_field(out: &mut [u8], at: usize, text: &[u8], size: usize)
    requires within { length text.now ≤ size }
    requires size { size ≤ 64 }
    requires room { at + size ≤ length out.old }
    ensures { take (at + size) out.new ≡ take at out.old ++ padded size text.now }
{
    fill(out, at, text);
    fill(out, at + text.len(), &NULS[text.len()..size]);
}

// A text and one NUL.
fn put_ended(out: &mut [u8], at: usize, text: &[u8])
    requires { at + (length text.now + 1) ≤ length out.old }
    ensures { take (at + (length text.now + 1)) out.new ≡ take at out.old ++ ended text.now }
{
    fill(out, at, text);
    fill(out, at + text.len(), &[0]);
}

// Messages whose body is one number.
fn lay_number(out: &mut [u8], kind: u32, number: u32)
    requires { length out.old ≡ 12 }
    ensures { out.new ≡ framed kind (four number) }
{
    put_header(out, kind, 4);
    put_number(out, 8, number);
}

// Messages whose body is bytes of a stream.
fn lay_bytes(out: &mut [u8], kind: u32, bytes: &[u8])
    requires size { length out.old ≡ 8 + length bytes.now }
    requires most { length bytes.now ≤ 65536 }
    ensures { out.new ≡ framed kind bytes.now }
{
    put_header(out, kind, bytes.len() as u32);
    fill(out, 8, bytes);
}

// Messages whose body is a domain, a port and a line.
fn lay_line(out: &mut [u8], kind: u32, domain: u32, port: u32, line: &[u8])
    requires size { length out.old ≡ 17 + length line.now }
    requires most { length line.now ≤ 65527 }
    ensures { out.new ≡ framed kind (four domain ++ (four port ++ ended line.now)) }
{
    put_header(out, kind, 9 + line.len() as u32);
    put_number(out, 8, domain);
    put_number(out, 12, port);
    put_ended(out, 16, line);
}

fn lay_connect(out: &mut [u8], domain: u32, port: u32, ident: &[u8])
    requires size { length out.old ≡ 48 }
    requires ident { length ident.now ≤ 31 }
    ensures { out.new ≡ written (Connect domain port ident.now) }
{
    put_header(out, 0x202, 40);
    put_number(out, 8, domain);
    put_number(out, 12, port);
    put_field(out, 16, ident, 32);
}

fn lay_refused(out: &mut [u8], ident: &[u8])
    requires size { length out.old ≡ 40 }
    requires ident { length ident.now ≤ 31 }
    ensures { out.new ≡ written (Refused ident.now) }
{
    put_header(out, 0x203, 32);
    put_field(out, 8, ident, 32);
}

fn lay_terminated(out: &mut [u8], domain: u32, port: u32)
    requires { length out.old ≡ 16 }
    ensures { out.new ≡ written (Terminated domain port) }
{
    put_header(out, 0x211, 8);
    put_number(out, 8, domain);
    put_number(out, 12, port);
}

fn lay_trigger3(out: &mut [u8], target: &[u8], ident: &[u8], service: &[u8])
    requires size { length out.old ≡ 105 + length service.now }
    requires target { length target.now ≤ 63 }
    requires ident { length ident.now ≤ 31 }
    requires service { length service.now ≤ 65439 }
    ensures { out.new ≡ written (Trigger3 target.now ident.now service.now) }
{
    put_header(out, 0x212, 97 + service.len() as u32);
    put_field(out, 8, target, 64);
    put_field(out, 72, ident, 32);
    put_ended(out, 104, service);
}

fn lay_trigger(out: &mut [u8], target: &[u8], ident: &[u8], service: &[u8])
    requires size { length out.old ≡ 136 }
    requires target { length target.now ≤ 31 }
    requires ident { length ident.now ≤ 31 }
    requires service { length service.now ≤ 63 }
    ensures { out.new ≡ written (Trigger target.now ident.now service.now) }
{
    put_header(out, 0x210, 128);
    put_field(out, 8, service, 64);
    put_field(out, 72, target, 32);
    put_field(out, 104, ident, 32);
}

/// Writes `MSG_HELLO`.
#[unsafe(no_mangle)]
pub extern "C" fn qrexec_put_hello(out: &mut [u8], version: u32) -> usize
    ensures { Puts (Hello version) out.old out.new result }
{
    if out.len() < 12 {
        return 0;
    }
    lay_number(&mut out[..12], 0x300, version);
    12
}

/// Writes `MSG_DATA_STDIN`. No bytes end the stream; more than 65,536 are too many.
#[unsafe(no_mangle)]
pub extern "C" fn qrexec_put_stdin(out: &mut [u8], bytes: &[u8]) -> usize
    ensures { Puts (Stdin bytes.now) out.old out.new result }
{
    if bytes.len() > MOST_BYTES {
        return 0;
    }
    if out.len() < 8 + bytes.len() {
        return 0;
    }
    lay_bytes(&mut out[..8 + bytes.len()], 0x190, bytes);
    8 + bytes.len()
}

/// Writes `MSG_DATA_STDOUT`. No bytes end the stream; more than 65,536 are too many.
#[unsafe(no_mangle)]
pub extern "C" fn qrexec_put_stdout(out: &mut [u8], bytes: &[u8]) -> usize
    ensures { Puts (Stdout bytes.now) out.old out.new result }
{
    if bytes.len() > MOST_BYTES {
        return 0;
    }
    if out.len() < 8 + bytes.len() {
        return 0;
    }
    lay_bytes(&mut out[..8 + bytes.len()], 0x191, bytes);
    8 + bytes.len()
}

/// Writes `MSG_DATA_STDERR`. No bytes end the stream; more than 65,536 are too many.
#[unsafe(no_mangle)]
pub extern "C" fn qrexec_put_stderr(out: &mut [u8], bytes: &[u8]) -> usize
    ensures { Puts (Stderr bytes.now) out.old out.new result }
{
    if bytes.len() > MOST_BYTES {
        return 0;
    }
    if out.len() < 8 + bytes.len() {
        return 0;
    }
    lay_bytes(&mut out[..8 + bytes.len()], 0x192, bytes);
    8 + bytes.len()
}

/// Writes `MSG_DATA_EXIT_CODE`.
#[unsafe(no_mangle)]
pub extern "C" fn qrexec_put_exit_code(out: &mut [u8], code: i32) -> usize
    ensures { Puts (ExitCode code) out.old out.new result }
{
    if out.len() < 12 {
        return 0;
    }
    lay_number(&mut out[..12], 0x193, code.cast_unsigned());
    12
}

/// Writes `MSG_EXEC_CMDLINE`. The line has at most 65,527 bytes.
#[unsafe(no_mangle)]
#[tactic(auto, using(crate::proofs::PutLaws::puts_none))]
pub extern "C" fn qrexec_put_exec(out: &mut [u8], domain: u32, port: u32, line: &[u8]) -> usize
    ensures { Puts (Exec domain port line.now) out.old out.new result }
{
    if !fits_text(line, MOST_LINE) {
        return 0;
    }
    if out.len() < 17 + line.len() {
        return 0;
    }
    lay_line(&mut out[..17 + line.len()], 0x200, domain, port, line);
    17 + line.len()
}

/// Writes `MSG_JUST_EXEC`. The line has at most 65,527 bytes.
#[unsafe(no_mangle)]
#[tactic(auto, using(crate::proofs::PutLaws::puts_none))]
pub extern "C" fn qrexec_put_just_exec(out: &mut [u8], domain: u32, port: u32, line: &[u8]) -> usize
    ensures { Puts (JustExec domain port line.now) out.old out.new result }
{
    if !fits_text(line, MOST_LINE) {
        return 0;
    }
    if out.len() < 17 + line.len() {
        return 0;
    }
    lay_line(&mut out[..17 + line.len()], 0x201, domain, port, line);
    17 + line.len()
}

/// Writes `MSG_SERVICE_CONNECT`. The ident has at most 31 bytes.
#[unsafe(no_mangle)]
#[tactic(auto, using(crate::proofs::PutLaws::puts_none))]
pub extern "C" fn qrexec_put_connect(out: &mut [u8], domain: u32, port: u32, ident: &[u8]) -> usize
    ensures { Puts (Connect domain port ident.now) out.old out.new result }
{
    if !fits_text(ident, MOST_IN_32) {
        return 0;
    }
    if out.len() < 48 {
        return 0;
    }
    lay_connect(&mut out[..48], domain, port, ident);
    48
}

/// Writes `MSG_SERVICE_REFUSED`. The ident has at most 31 bytes.
#[unsafe(no_mangle)]
#[tactic(auto, using(crate::proofs::PutLaws::puts_none))]
pub extern "C" fn qrexec_put_refused(out: &mut [u8], ident: &[u8]) -> usize
    ensures { Puts (Refused ident.now) out.old out.new result }
{
    if !fits_text(ident, MOST_IN_32) {
        return 0;
    }
    if out.len() < 40 {
        return 0;
    }
    lay_refused(&mut out[..40], ident);
    40
}

/// Writes `MSG_CONNECTION_TERMINATED`.
#[unsafe(no_mangle)]
pub extern "C" fn qrexec_put_terminated(out: &mut [u8], domain: u32, port: u32) -> usize
    ensures { Puts (Terminated domain port) out.old out.new result }
{
    if out.len() < 16 {
        return 0;
    }
    lay_terminated(&mut out[..16], domain, port);
    16
}

/// Writes `MSG_TRIGGER_SERVICE3`. The target has at most 63 bytes, the ident 31, and the service 65,439.
#[unsafe(no_mangle)]
#[tactic(auto, using(crate::proofs::PutLaws::puts_none))]
pub extern "C" fn qrexec_put_trigger3(
    out: &mut [u8],
    target: &[u8],
    ident: &[u8],
    service: &[u8],
) -> usize
    ensures { Puts (Trigger3 target.now ident.now service.now) out.old out.new result }
{
    if !call_fits(target, MOST_IN_64, ident, service, MOST_SERVICE) {
        return 0;
    }
    if out.len() < 105 + service.len() {
        return 0;
    }
    lay_trigger3(&mut out[..105 + service.len()], target, ident, service);
    105 + service.len()
}

/// Writes `MSG_TRIGGER_SERVICE`. The target and the ident have at most 31 bytes, and the service 63.
#[unsafe(no_mangle)]
#[tactic(auto, using(crate::proofs::PutLaws::puts_none))]
pub extern "C" fn qrexec_put_trigger(
    out: &mut [u8],
    target: &[u8],
    ident: &[u8],
    service: &[u8],
) -> usize
    ensures { Puts (Trigger target.now ident.now service.now) out.old out.new result }
{
    if !call_fits(target, MOST_IN_32, ident, service, MOST_IN_64) {
        return 0;
    }
    if out.len() < 136 {
        return 0;
    }
    lay_trigger(&mut out[..136], target, ident, service);
    136
}
