//! Clients that are served one after another: what `persist` does with its input.
ghost use Rattle.std.specs.Prelude.{◌≡◌, ◌++◌, ◌∷◌, [], ℕ, List, None, IfOk, IfErr, OnOk, length, map, codes, decimal};
ghost use Rattle.ring_words.specs.declared.order.Orders.{Orders as PageOrders};
ghost use Rattle.vchan_top.specs.declared.command.Command.TheVariants.{Persist};
ghost use Rattle.vchan_top.specs.Prints.{IsDue, Prints};
ghost use Rattle.std.specs.Fmt.{signed_decimal};
ghost use Rattle.qrexec_frame.specs.Lines.{shown_bytes};
ghost use Rattle.run_report.specs.Lines.{spaced};
ghost use Rattle.vchan_top.specs.Clients.{client_lines, client_line, client_words, clients_text};

use crate::channels::small_orders;
use crate::service_name::ServiceName;
use crate::status::{Bad, Status};
use run_report::{push_bytes, push_number};
use std::alloc::{AllocError, Global};
use std::sync::Wait;
use std::thread::Threads;
use vchan_io::Memory;
use vchan_persist::{ClientsError, EpochDone, EpochResult, parse_clients, serve_clients};
use vchan_rule::Settled;

/// Serves the clients of the input by the service with this name, on pages of the orders 10 and 11 whose
/// indices begin at 0. Returns the text, with a line for each client and one for their number; and the pages
/// in order.
///
/// # Errors
///
/// `BadInput` if the input is no list of clients. `OutOfMemory` if memory runs out; for a bad list it comes
/// only if the first line is good.
pub(crate) fn persist_input<R: Threads + Wait + Sync>(
    rt: &R,
    alloc: Global,
    name: &ServiceName,
    input: &[u8],
) -> Result<(Vec<u8>, Vec<Settled>), Status>
    ensures prints { IfOk result (λ done. Prints (Persist name.now) input.now done.0.items None done.1.items) }
    ensures due { IfErr result (λ status. IsDue (Persist name.now) input.now status) }
{
    let clients = match parse_clients(alloc, input) {
        Ok(clients) => clients,
        Err(ClientsError::Bad { line, kind }) => {
            return Err(Status::BadInput {
                bad: Bad::Clients { line, kind },
            });
        }
        Err(ClientsError::Memory) => return Err(Status::OutOfMemory),
    };
    match serve_clients(rt, alloc, name.bytes(), small_orders(), 0, clients) {
        Ok(dones) => match tell(alloc, dones) {
            Ok(told) => Ok(told),
            Err(Memory) => Err(Status::OutOfMemory),
        },
        Err(Memory) => Err(Status::OutOfMemory),
    }
}

/// Returns the lines of epochs and the line of their number, and the pages of the epochs.
fn tell(alloc: Global, dones: Vec<EpochDone>) -> Result<(Vec<u8>, Vec<Settled>), Memory>
    ensures text { IfOk result (λ told. told.0.items ≡ clients_text dones.items) }
    ensures pages { IfOk result (λ told. told.1.items ≡ map (λ e. e.settled) dones.items) }
{
    let count = dones.len();
    let mut text = Vec::new(alloc);
    let mut pages = Vec::with_capacity(alloc, count)?;
    for done in dones {
        let EpochDone {
            number,
            result: answer,
            settled,
        } = done;
        push_client(&mut text, number, &answer)?;
        pages.push(settled)?;
    }
    text.extend_from_slice(b"clients")?;
    push_number(&mut text, count)?;
    text.push(b'\n')?;
    Ok((text, pages))
}

/// Appends the line of a client.
fn push_client(out: &mut Vec<u8>, number: u32, answer: &EpochResult) -> Result<(), AllocError>
    ensures { OnOk result (out.new.items ≡ out.old.items ++ client_line number answer.now) }
{
    out.extend_from_slice(b"client")?;
    push_number(out, number)?;
    push_answer(out, answer)?;
    out.push(b'\n')?;
    Ok(())
}

/// Appends what came of a client, as the words of its line.
fn push_answer(out: &mut Vec<u8>, answer: &EpochResult) -> Result<(), AllocError>
    ensures { OnOk result (out.new.items ≡ out.old.items ++ spaced (client_words answer.now)) }
{
    match answer {
        EpochResult::Answered {
            code,
            stdout,
            stderr,
        } => push_answered(out, *code, stdout.slice(), stderr.slice()),
        EpochResult::Hostile => out.extend_from_slice(b" hostile"),
    }
}

/// Appends the words of a client that was answered.
fn push_answered(
    out: &mut Vec<u8>,
    code: i32,
    stdout: &[u8],
    stderr: &[u8],
) -> Result<(), AllocError>
    ensures { OnOk result (out.new.items ≡ out.old.items ++ spaced (codes "done" ∷ signed_decimal code ∷ shown_bytes stdout.now ∷ shown_bytes stderr.now ∷ [])) }
{
    out.extend_from_slice(b" done")?;
    push_number(out, code)?;
    push_bytes(out, stdout)?;
    push_bytes(out, stderr)
}
