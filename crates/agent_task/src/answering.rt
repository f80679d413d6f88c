//! What an agent does on each message.
ghost use Rattle.std.specs.Prelude.{◌≡◌, ◌++◌, ◌∷◌, [], None, OnOk};
ghost use Rattle.qrexec_frame.specs.declared.message.Message.TheVariants.{Connect, Refused, Exec};
ghost use Rattle.agent_task.specs.Standing.{IsHearing, Awaits, KeepsPort, KeepsOpen, OnlyTells};

use crate::agent::Agent;
use crate::line::service_of;
use qrexec_frame::{Message, Text};
use task_duties::SessionEnd;
use vchan_io::Memory;

impl<'p> Agent<'p> {
    /// Acts on a message that was handed out. A message that an agent doesn't hear from a broker changes
    /// nothing.
    #[inline(never)]
    pub(crate) fn hear(&mut self, message: Message) -> Result<(), Memory>
        requires { Awaits self.old message }
        ensures hearing { OnOk result (IsHearing self.new) }
        ensures same { KeepsPort self.old self.new }
        ensures kept { KeepsOpen self.old self.new }
        ensures next { self.new.control.queue.next ≡ self.old.control.queue.next }
    {
        match message {
            Message::Connect {
                domain,
                port,
                ident,
            } => self.connect(domain, port, &ident),
            Message::Refused { ident } => self.refuse(&ident),
            Message::Exec { domain, port, line } => self.serve(domain, port, &line),
            Message::JustExec {
                domain,
                port,
                line: _,
            } => self.end_unserved(domain, port),
            _ => Ok(()),
        }
    }

    // Opens a session for a call that was let through, if the call waits and there is an unused end.
    // Otherwise the message is skipped.
    fn connect(&mut self, to: u32, port: u32, ident: &Text) -> Result<(), Memory>
        requires { Awaits self.old (Connect to port ident.now) }
        ensures hearing { OnOk result (IsHearing self.new) }
        ensures same { KeepsPort self.old self.new }
        ensures kept { KeepsOpen self.old self.new }
        ensures next { self.new.control.queue.next ≡ self.old.control.queue.next }
    {
        let Some(place) = self.control.queue.waiting(ident.bytes()) else {
            return Ok(());
        };
        if !self.slots.can_call(to, port) {
            return Ok(());
        }
        let input = self.control.queue.connected(self.alloc, place, to, port);
        self.slots.call(place, to, port, input.into_list())
    }

    // Notes that a call was refused, if it waits.
    fn refuse(&mut self, ident: &Text) -> Result<(), Memory>
        requires { Awaits self.old (Refused ident.now) }
        ensures hearing { OnOk result (IsHearing self.new) }
        ensures same { KeepsPort self.old self.new }
        ensures kept { KeepsOpen self.old self.new }
        ensures next { self.new.control.queue.next ≡ self.old.control.queue.next }
    {
        self.control.queue.refused(ident.bytes());
        Ok(())
    }

    // Serves a call of another domain, if the line names a service and there is an unused end. Otherwise the
    // agent will report that the session has ended.
    fn serve(&mut self, from: u32, port: u32, line: &Text) -> Result<(), Memory>
        requires { Awaits self.old (Exec from port line.now) }
        ensures hearing { OnOk result (IsHearing self.new) }
        ensures same { KeepsPort self.old self.new }
        ensures kept { KeepsOpen self.old self.new }
        ensures next { self.new.control.queue.next ≡ self.old.control.queue.next }
    {
        let Some(service) = service_of(line.bytes()) else {
            return self.end_unserved(from, port);
        };
        if !self.slots.can_serve(from, port) {
            return self.end_unserved(from, port);
        }
        self.slots.serve(from, port, service)
    }

    // Notes that the end of a session that isn't served is to be reported.
    fn end_unserved(&mut self, domain: u32, port: u32) -> Result<(), Memory>
        ensures same { OnlyTells self.old self.new }
        ensures told { OnOk result (self.new.control.unsaid.items ≡ self.old.control.unsaid.items ++ record { domain = domain; port = port; call = None } ∷ []) }
    {
        self.control.unsaid.push_back(SessionEnd {
            domain,
            port,
            call: None,
        })?;
        Ok(())
    }
}
