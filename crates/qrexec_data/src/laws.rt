//! Laws of what one side of a call sees of what the other sends, and of both together. A law is a
//! function with no body, whose contract states it.
ghost use Rattle.qrexec_data.specs.Session.{SessionsGoOn, SessionsSendLittle};
ghost use Rattle.qrexec_data.specs.Laws.{CallersSeeTriples, CallersAreDone, CallersWait, InputsAreRead, GreetingsAreNoFault, CallersSendStreams, ServingSendsStreams, DoneSendsAll};

use service_gate::Service;

/// A caller sees, of a beginning of a serving stream, nothing that decides, or the exit code after
/// the whole of both outputs.
pub fn callers_see_triples()
    ensures { CallersSeeTriples }
{}

/// A caller that got a whole serving stream has its exit code.
pub fn callers_are_done()
    ensures { CallersAreDone }
{}

/// Before the outputs have ended, nothing decides.
pub fn callers_wait()
    ensures { CallersWait }
{}

/// A side that serves sees, of a beginning of a caller's stream, no fault, and the whole input if
/// it has ended.
pub fn inputs_are_read()
    ensures { InputsAreRead }
{}

/// A greeting alone, or a part of it, isn't a fault and ends no input.
pub fn greetings_are_no_fault()
    ensures { GreetingsAreNoFault }
{}

/// What a caller stands for having sent is what a caller that got these bytes may send: the
/// beginning of a caller's whole stream, or of its greeting alone until it has read the other
/// side's.
pub fn callers_send_streams()
    ensures { CallersSendStreams }
{}

/// What a serving side stands for having sent is what such a side that got these bytes may send:
/// nothing before a greeting, then a beginning of what its service gives, and after the input's end
/// the beginning of its whole stream.
pub fn serving_sends_streams<S: Service>()
    ensures { ServingSendsStreams S }
{}

/// A serving side that is done has sent its whole stream, and its code is the service's.
pub fn done_sends_all<S: Service>()
    ensures { DoneSendsAll S }
{}

/// While nothing has decided a session, and each side has got all that the other sent, one of the two has
/// something to send.
pub fn sessions_go_on<S>()
    ensures { SessionsGoOn S }
{}

/// A side of a session sends no more than its input, or what its service owes, makes up in messages of one byte each,
/// with a greeting, the ends of its streams and an exit code, whatever its peer sends.
pub fn sessions_send_little()
    ensures { SessionsSendLittle }
{}
