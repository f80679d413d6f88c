//! The table of message types: the number, the channel, the lengths of the body, and how it ends.
ghost use Rattle.std.specs.Prelude.{◌≡◌, ◌==◌, find, true, false};
ghost use Rattle.qrexec_frame.specs.Kinds.{kind_on, number_of, least_len, most_len, has_line};

/// The two kinds of channel that carry qrexec messages: one control channel per domain, and one data
/// channel per call.
#[derive(Clone, Copy, Debug, PartialEq, Eq)]
pub enum Channel {
    /// The channel of a domain, for triggers and their answers.
    Control,
    /// The channel of one call, for its streams and its exit code.
    Data,
}

/// The greatest length of a body.
pub(crate) const MOST_BODY: u32 = 65_536;

/// The types of qrexec messages; [`Message`](crate::Message) says what each is for.
#[derive(Clone, Copy, Debug, PartialEq, Eq)]
pub enum Kind {
    /// `MSG_HELLO`.
    Hello,
    /// `MSG_DATA_STDIN`.
    Stdin,
    /// `MSG_DATA_STDOUT`.
    Stdout,
    /// `MSG_DATA_STDERR`.
    Stderr,
    /// `MSG_DATA_EXIT_CODE`.
    ExitCode,
    /// `MSG_EXEC_CMDLINE`.
    Exec,
    /// `MSG_JUST_EXEC`.
    JustExec,
    /// `MSG_SERVICE_CONNECT`.
    Connect,
    /// `MSG_SERVICE_REFUSED`.
    Refused,
    /// `MSG_CONNECTION_TERMINATED`.
    Terminated,
    /// `MSG_TRIGGER_SERVICE3`.
    Trigger3,
    /// `MSG_TRIGGER_SERVICE`.
    Trigger,
}

/// The types that a data channel carries.
const ON_DATA: [Kind; 5] = [
    Kind::Stdin,
    Kind::Stdout,
    Kind::Stderr,
    Kind::ExitCode,
    Kind::Hello,
];

/// The types that a control channel carries.
const ON_CONTROL: [Kind; 8] = [
    Kind::Exec,
    Kind::JustExec,
    Kind::Connect,
    Kind::Refused,
    Kind::Trigger,
    Kind::Terminated,
    Kind::Trigger3,
    Kind::Hello,
];

/// What the table says of one type.
#[derive(Clone, Copy)]
struct Row {
    /// The number in a header.
    number: u32,
    /// The least and the greatest length of the body.
    least: u32,
    most: u32,
    /// Whether the body ends with a line or a service, whose last byte must be NUL.
    line: bool,
}

impl Row {
    /// Returns the row of a type whose bodies all have this length.
    fn fixed(number: u32, len: u32) -> Row
        ensures { result ≡ record { number = number; least = len; most = len; line = false } }
    {
        Row {
            number,
            least: len,
            most: len,
            line: false,
        }
    }

    /// Returns the row of a type whose bodies are any bytes, or none.
    fn bytes(number: u32) -> Row
        ensures { result ≡ record { number = number; least = 0; most = MOST_BODY; line = false } }
    {
        Row {
            number,
            least: 0,
            most: MOST_BODY,
            line: false,
        }
    }

    /// Returns the row of a type whose bodies have at least this length, and end with a line or a
    /// service.
    fn line(number: u32, least: u32) -> Row
        ensures { result ≡ record { number = number; least = least; most = MOST_BODY; line = true } }
    {
        Row {
            number,
            least,
            most: MOST_BODY,
            line: true,
        }
    }
}

impl Kind {
    fn row(self) -> Row
        ensures number { result.number ≡ number_of self }
        ensures least { result.least ≡ least_len self }
        ensures most { result.most ≡ most_len self }
        ensures line { result.line ≡ has_line self }
    {
        match self {
            Kind::Stdin => Row::bytes(0x190),
            Kind::Stdout => Row::bytes(0x191),
            Kind::Stderr => Row::bytes(0x192),
            Kind::ExitCode => Row::fixed(0x193, 4),
            Kind::Exec => Row::line(0x200, 9),
            Kind::JustExec => Row::line(0x201, 9),
            Kind::Connect => Row::fixed(0x202, 40),
            Kind::Refused => Row::fixed(0x203, 32),
            Kind::Trigger => Row::fixed(0x210, 128),
            Kind::Terminated => Row::fixed(0x211, 8),
            Kind::Trigger3 => Row::line(0x212, 97),
            Kind::Hello => Row::fixed(0x300, 4),
        }
    }

    /// Returns the type of this number on a channel, or `None` if the channel has no such type.
    pub(crate) fn of(channel: Channel, number: u32) -> Option<Kind>
        ensures { result ≡ kind_on channel number }
    {
        match channel {
            Channel::Data => Kind::among(&ON_DATA, number),
            Channel::Control => Kind::among(&ON_CONTROL, number),
        }
    }

    // The type of this number among some types.
    #[inline(always)]
    fn among(kinds: &[Kind], number: u32) -> Option<Kind>
        ensures { result ≡ find (λ k. number == number_of k) kinds.now }
    {
        kinds.iter().copied().find(|kind| number == kind.number())
    }

    /// Returns the number of the type, as a header has it.
    pub fn number(self) -> u32
        ensures { result ≡ number_of self }
    {
        self.row().number
    }

    /// Returns the least length of the body.
    pub(crate) fn least_len(self) -> u32
        ensures { result ≡ least_len self }
    {
        self.row().least
    }

    /// Returns the greatest length of the body.
    pub(crate) fn most_len(self) -> u32
        ensures { result ≡ most_len self }
    {
        self.row().most
    }

    /// Returns whether the body ends with a line or a service, whose last byte must be NUL.
    pub(crate) fn has_line(self) -> bool
        ensures { result ≡ has_line self }
    {
        self.row().line
    }
}
