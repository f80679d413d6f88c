//! The lines of MSG_EXEC_CMDLINE.
ghost use Rattle.std.specs.Prelude.{◌≡◌, ◌≤◌, length, None, Some, IfSome};
ghost use Rattle.std.specs.List.{position_or_len, list_any};
ghost use Rattle.service_gate.specs.ServiceResult.{after_prefix};
ghost use Rattle.task_duties.specs.Words.{user, is_space, is_word, service_of_line, service_in};
ghost use Rattle.agent_task.specs.Lines.{IsNamed};

use service_gate::Builtin;

/// The beginning of each line: the user, and the program that runs a service. Source: the broker of Qubes OS
/// puts this before a service's name.
const USER: &[u8] = b"DEFAULT:QUBESRPC ";

/// Returns the service that a line asks for. Returns `None` if and only if the line isn't the user, the name
/// of a built-in service and one more word.
pub(crate) fn service_of(line: &[u8]) -> Option<Builtin>
    ensures named { IsNamed (service_of_line line.now) result }
{
    service_in(behind_user(line)?)
}

// What follows the user.
fn behind_user(line: &[u8]) -> Option<&[u8]>
    ensures some { IfSome result (λ rest. after_prefix user line.now ≡ Some rest.now) }
    ensures none { result ≡ None → after_prefix user line.now ≡ None }
{
    line.strip_prefix(USER)
}

// The service in a name and one more word.
fn service_in(rest: &[u8]) -> Option<Builtin>
    ensures named { IsNamed (service_in rest.now) result }
{
    let end = name_end(rest);
    if end == rest.len() || !is_word(&rest[end + 1..]) {
        return None;
    }
    Builtin::named(&rest[..end])
}

// The place of the first space, or the length if there is none.
fn name_end(text: &[u8]) -> usize
    ensures is { result ≡ position_or_len is_space text.now }
    ensures within { result ≤ length text.now }
{
    for (at, byte) in text.iter().enumerate() {
        if *byte == b' ' {
            return at;
        }
    }
    text.len()
}

// Whether a text is one word.
fn is_word(text: &[u8]) -> bool
    ensures { result ≡ is_word text.now }
{
    match text {
        [] => false,
        _ => !has_space(text),
    }
}

// Whether a text has a space.
fn has_space(text: &[u8]) -> bool
    ensures { result ≡ list_any is_space text.now }
{
    text.iter().any(|byte| *byte == b' ')
}
