//! The clients of a persistent server, and the list of them that a text has.
ghost use Rattle.std.specs.Prelude.{◌≡◌, Ok, Err, IfOk, IfErr, OnOk};
ghost use Rattle.script_words.specs.Words.{lines_of};
ghost use Rattle.vchan_persist.specs.Clients.{AreServable, BeginsWell, clients_of};
ghost use Rattle.vchan_persist.specs.Reading.{IsRefusal};

use crate::error::ClientsError;
use crate::lines::ClientList;
use qrexec_frame::Bytes;
use script_words::first_line;
use std::alloc::Global;

/// A client of a persistent server.
#[derive(Debug, Drop)]
pub enum Client {
    /// It calls the service with this input.
    Call {
        /// The input.
        stdin: Bytes,
    },
    /// It stores drawn numbers to the header of its page.
    Hostile {
        /// Where the generator of numbers begins, at most 65,535.
        seed: u32,
        /// How many stores it makes, from 1 to 65,536.
        stores: u32,
    },
}

/// Returns the clients of a text. Each line is `call BYTES`, with a byte string of this project's
/// scripts, or `hostile SEED K`; an empty line and one that begins with `#` are skipped.
///
/// # Errors
///
/// `Bad` if and only if a line is bad, with the first such line. It is `BadLine` if the first word
/// is neither, the line has another number of words, or a word is empty; else `BadNumber` if SEED
/// isn't a number up to 65,535 or K isn't one from 1 to 65,536; else `BadHex` if BYTES isn't a byte
/// string; else `TooMany` if it is the 65,537th line or has the 4,097th client, or if with it the
/// inputs have more than 8,388,608 bytes. `Memory` if memory runs out; it replaces `Bad` only if
/// the first line that isn't skipped is a client's.
pub fn parse_clients(alloc: Global, bytes: &[u8]) -> Result<Vec<Client>, ClientsError>
    ensures clients { IfOk result (λ clients. clients_of bytes.now ≡ Ok clients.items) }
    ensures servable { IfOk result (λ clients. AreServable clients.items) }
    ensures begins { OnOk result (BeginsWell (lines_of bytes.now)) }
    ensures bad { IfErr result (λ e. IsRefusal e (clients_of bytes.now)) }
    ensures memory { result ≡ Err ClientsError.Memory → BeginsWell (lines_of bytes.now) }
{
    let mut list = ClientList::new(alloc);
    let mut rest = bytes;
    while let Some((text, more)) = first_line(rest) {
        match list.take(text) {
            Ok(()) => rest = more,
            Err(refused) => return Err(refused),
        }
    }
    Ok(list.into_clients())
}
