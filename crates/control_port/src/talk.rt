//! Who may send what on a control channel.
ghost use Rattle.std.specs.Prelude.{◌≡◌};
ghost use Rattle.task_duties.specs.Hearing.{to_agent, to_broker};
ghost use Rattle.control_port.specs.Talking.{may_say, may_hear};

use qrexec_frame::Message;

/// A side of a control channel.
#[derive(Clone, Copy, Debug, PartialEq, Eq)]
pub enum Talker {
    /// The side of a domain. It triggers calls, and reports which calls to it are over.
    Agent,
    /// The side of the broker. It answers triggers, and asks for calls to be served.
    Broker,
}

impl Talker {
    /// Returns whether this side may send the message after its greeting.
    pub fn says(self, message: &Message) -> bool
        ensures { result ≡ may_say self message.now }
    {
        match self {
            Talker::Agent => is_request(message),
            Talker::Broker => is_reply(message),
        }
    }

    /// Returns whether the other side may send the message after its greeting.
    pub fn hears(self, message: &Message) -> bool
        ensures { result ≡ may_hear self message.now }
    {
        match self {
            Talker::Agent => is_reply(message),
            Talker::Broker => is_request(message),
        }
    }
}

fn is_request(message: &Message) -> bool
    ensures { result ≡ to_broker message.now }
{
    matches!(
        message,
        Message::Trigger3 { .. } | Message::Trigger { .. } | Message::Terminated { .. }
    )
}

fn is_reply(message: &Message) -> bool
    ensures { result ≡ to_agent message.now }
{
    matches!(
        message,
        Message::Connect { .. }
            | Message::Refused { .. }
            | Message::Exec { .. }
            | Message::JustExec { .. }
    )
}
