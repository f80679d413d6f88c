//! The result of an epoch, by what its tasks handed back.
ghost use Rattle.std.specs.Prelude.{◌≡◌, IfOk, ℕ, List};
ghost use Rattle.atomic_table.specs.Seated.{TableId};
ghost use Rattle.ring_words.specs.declared.page.Role.TheVariants.{Server, Client as ClientEnd};
ghost use Rattle.service_gate.specs.Owing.{builtin_owes};
ghost use Rattle.service_gate.specs.declared.builtin.Builtin.{Builtin as Service};
ghost use Rattle.task_duties.specs.Agent.Sessions.{IsService};
ghost use Rattle.vchan_rule.specs.Seated.{words_of};
ghost use Rattle.vchan_persist.specs.declared.client.Client.{Client as Guest};
ghost use Rattle.vchan_persist.specs.declared.client.Client.TheVariants.{Call};
ghost use Rattle.vchan_persist.specs.Owes.{AreHandedBack, ClientHands, ServerHands, HasCalled, HasServed, IsEndOf};
ghost use Rattle.vchan_persist.specs.Settling.{ComesTo};
ghost use Rattle.vchan_rule.specs.Seated.{IsSettledBy};

use crate::epoch::EpochResult;
use crate::task::SideDone;
use channel_session::{CallerEnd, ServingEnd};
use qrexec_data::Outcome;
use task_duties::CallerDone;
use vchan_io::Memory;
use vchan_rule::{Page, Retired, Settled};

/// The result of an epoch, and its page.
#[derive(Drop)]
pub(crate) struct Epoch {
    pub(crate) result: EpochResult,
    pub(crate) settled: Settled,
}

/// Settles a page by its two ends.
fn settle_page(page: Page, server: Retired, client: Retired) -> Settled
    requires server { IsEndOf page.table Server server }
    requires client { IsEndOf page.table ClientEnd client }
    ensures { IsSettledBy page server client result }
{
    let settled = page.finish(server, client);
    settled.promise();
    settled
}

/// Returns the epoch of a client that called. Between honest ends its call is done.
fn settle_call(page: Page, caller: CallerEnd, server: ServingEnd) -> Epoch
    requires { (name : List ℕ) × (stdin : List ℕ) × (service : Service) × IsService name (builtin_owes service) × HasCalled page.table stdin caller × HasServed page.table service server }
    ensures { (stdin : List ℕ) (service : Service) → HasCalled page.table stdin caller → HasServed page.table service server → ComesTo (words_of page) (Call stdin) service result.result result.settled }
{
    let CallerEnd { done, retired } = caller;
    let settled = settle_page(page, server.retired, retired);
    let CallerDone {
        outcome,
        stdout,
        stderr,
        ..
    } = done;
    match outcome {
        Outcome::Done { code } => Epoch {
            result: EpochResult::Answered {
                code,
                stdout,
                stderr,
            },
            settled,
        },
        _ => unreachable!(),
    }
}

/// Returns the epoch of a client whose task handed this back, after the server's side is over.
fn settle_client(page: Page, client: SideDone, server: ServingEnd) -> Result<Epoch, Memory>
    requires { (name : List ℕ) × (guest : Guest) × (service : Service) × IsService name (builtin_owes service) × ClientHands page.table guest client × HasServed page.table service server }
    ensures { (guest : Guest) (service : Service) → ClientHands page.table guest client → HasServed page.table service server → IfOk result (λ e. ComesTo (words_of page) guest service e.result e.settled) }
{
    match client {
        SideDone::Called(caller) => Ok(settle_call(page, caller, server)),
        SideDone::Scribbled(end) => Ok(Epoch {
            result: EpochResult::Hostile,
            settled: settle_page(page, server.retired, end),
        }),
        SideDone::Refused(end) => {
            // Never reached: the page's order words hold its orders, as long as both ends are
            // honest.
            let _ = settle_page(page, server.retired, end);
            unreachable!()
        }
        SideDone::Served(_) => unreachable!(),
        SideDone::NoMemory => Err(Memory),
    }
}

/// Returns the end of a server whose task is over.
fn served(done: SideDone) -> Result<ServingEnd, Memory>
    requires { (page : TableId) × (service : Service) × ServerHands page service done }
    ensures { IfOk result (λ end. done ≡ SideDone.Served end) }
{
    match done {
        SideDone::Served(end) => Ok(end),
        SideDone::NoMemory => Err(Memory),
        _ => unreachable!(),
    }
}

/// Returns the epoch whose two tasks handed this back, the client's first.
///
/// # Errors
///
/// `Memory` if a task ran out of memory; no other.
pub(crate) fn settle(page: Page, dones: Vec<SideDone>) -> Result<Epoch, Memory>
    requires { (name : List ℕ) × (guest : Guest) × (service : Service) × IsService name (builtin_owes service) × AreHandedBack page.table guest service dones.items }
    ensures { (guest : Guest) (service : Service) → AreHandedBack page.table guest service dones.items → IfOk result (λ e. ComesTo (words_of page) guest service e.result e.settled) }
{
    let mut dones = dones.into_iter();
    let Some(client) = dones.next() else {
        unreachable!()
    };
    let Some(server) = dones.next() else {
        unreachable!()
    };
    settle_client(page, client, served(server)?)
}
