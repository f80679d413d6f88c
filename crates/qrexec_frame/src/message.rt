ghost use Rattle.std.specs.Prelude.{◌≡◌, ◌↔◌, IsTrue};
ghost use Rattle.qrexec_frame.specs.Kinds.{number_of};
ghost use Rattle.qrexec_frame.specs.Messages.{kind_of, Fits};
ghost use Rattle.qrexec_frame.specs.Texts.{FitsText};

use crate::bytes::Bytes;
use crate::kind::Kind;
use crate::text::Text;

/// The greatest number of bytes that a message carries.
const MOST_BYTES: usize = 65_536;
/// The greatest lengths of the texts, so that each fits its field with at least one NUL.
const MOST_LINE: usize = 65_527;

const MOST_SERVICE: usize = 65_439;

const MOST_IN_64: usize = 63;

const MOST_IN_32: usize = 31;

/// A qrexec message.
#[derive(Debug, Drop)]
pub enum Message {
    /// `MSG_HELLO`: the sender's version of the protocol, on either kind of channel.
    Hello {
        version: u32,
    },
    /// `MSG_DATA_STDIN`: bytes of the call's input; no bytes end it.
    Stdin {
        bytes: Bytes,
    },
    /// `MSG_DATA_STDOUT`: bytes of the call's output; no bytes end it.
    Stdout {
        bytes: Bytes,
    },
    /// `MSG_DATA_STDERR`: bytes of the call's error output; no bytes end it.
    Stderr {
        bytes: Bytes,
    },
    /// `MSG_DATA_EXIT_CODE`: how the call's service ended.
    ExitCode {
        code: i32,
    },
    /// `MSG_EXEC_CMDLINE`: run this line, and connect to this domain and port.
    Exec {
        domain: u32,
        port: u32,
        line: Text,
    },
    /// `MSG_JUST_EXEC`: run this line, with no channel.
    JustExec {
        domain: u32,
        port: u32,
        line: Text,
    },
    /// `MSG_SERVICE_CONNECT`: the call of this ident was taken, at this domain and port.
    Connect {
        domain: u32,
        port: u32,
        ident: Text,
    },
    /// `MSG_SERVICE_REFUSED`: the call of this ident was refused.
    Refused {
        ident: Text,
    },
    /// `MSG_CONNECTION_TERMINATED`: the channel to this domain and port has ended.
    Terminated {
        domain: u32,
        port: u32,
    },
    /// `MSG_TRIGGER_SERVICE3`: asks for a call of a service of a target, in version 3.
    Trigger3 {
        target: Text,
        ident: Text,
        service: Text,
    },
    /// `MSG_TRIGGER_SERVICE`: asks for the same in version 2.
    Trigger {
        target: Text,
        ident: Text,
        service: Text,
    },
}

impl Message {
    fn of_kind(&self) -> Kind
        ensures { result ≡ kind_of self.now }
    {
        match self {
            Message::Hello { .. } => Kind::Hello,
            Message::Stdin { .. } => Kind::Stdin,
            Message::Stdout { .. } => Kind::Stdout,
            Message::Stderr { .. } => Kind::Stderr,
            Message::ExitCode { .. } => Kind::ExitCode,
            Message::Exec { .. } => Kind::Exec,
            Message::JustExec { .. } => Kind::JustExec,
            Message::Connect { .. } => Kind::Connect,
            Message::Refused { .. } => Kind::Refused,
            Message::Terminated { .. } => Kind::Terminated,
            Message::Trigger3 { .. } => Kind::Trigger3,
            Message::Trigger { .. } => Kind::Trigger,
        }
    }

    /// Returns the number of the message's type, as its header has it.
    pub fn kind(&self) -> u32
        ensures { result ≡ number_of (kind_of self.now) }
    {
        self.of_kind().number()
    }
}

/// Returns whether a message has a spelling: whether its bytes and texts are within the greatest
/// lengths.
///
/// These are 65,536 bytes; 65,527 in a line; 65,439 in the service of a `Trigger3`, and 63 in its
/// target; 63 in the service of a `Trigger`, and 31 in its target; 31 in an ident.
pub fn fits(message: &Message) -> bool
    ensures { IsTrue result ↔ Fits message.now }
{
    match message {
        Message::Hello { .. } | Message::ExitCode { .. } | Message::Terminated { .. } => true,
        Message::Stdin { bytes } => bytes.slice().len() <= MOST_BYTES,
        Message::Stdout { bytes } => bytes.slice().len() <= MOST_BYTES,
        Message::Stderr { bytes } => bytes.slice().len() <= MOST_BYTES,
        Message::Exec { line, .. } => line.bytes().len() <= MOST_LINE,
        Message::JustExec { line, .. } => line.bytes().len() <= MOST_LINE,
        Message::Connect { ident, .. } => ident.bytes().len() <= MOST_IN_32,
        Message::Refused { ident } => ident.bytes().len() <= MOST_IN_32,
        Message::Trigger3 {
            target,
            ident,
            service,
        } => call_fits(target, MOST_IN_64, ident, service, MOST_SERVICE),
        Message::Trigger {
            target,
            ident,
            service,
        } => call_fits(target, MOST_IN_32, ident, service, MOST_IN_64),
    }
}

// Whether the texts of a call are within the greatest lengths.
fn call_fits(
    target: &Text,
    most_target: usize,
    ident: &Text,
    service: &Text,
    most_service: usize,
) -> bool
    ensures { IsTrue result ↔ FitsText most_target target.now × FitsText 31 ident.now × FitsText most_service service.now }
{
    target.bytes().len() <= most_target
        && ident.bytes().len() <= MOST_IN_32
        && service.bytes().len() <= most_service
}
