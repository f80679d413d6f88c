//! Reading a list of clients line by line.
ghost use Rattle.std.specs.Prelude.{◌≡◌, ◌≤◌, ◌+◌, [], false, Ok, OnOk, IfOk, IfErr, IfSome, length};
ghost use Rattle.script_words.specs.KeptLines.{is_passed_over};
ghost use Rattle.script_words.specs.Words.{words_of};
ghost use Rattle.script_words.specs.WordsLeft.{words_left};
ghost use Rattle.vchan_persist.specs.Clients.{IsServable, added, call_of, client_of, given, has_too_many, hostile_of, number_between, operand_of, stdin_len, too_many, with_line};
ghost use Rattle.vchan_persist.specs.Reading.{Finds, Gives, GivesEntry, IsAddRefusal, IsLineRefusal, IsList};

use crate::client::Client;
use crate::error::{ClientsError, ClientsKind, LineError};
use qrexec_frame::Bytes;
use script_words::{ByteError, MOST_LINES, WordsOfLine, bytes_of, parse_number};
use std::alloc::Global;

/// The greatest number of clients of a list.
const MOST_CLIENTS: usize = 4_096;

/// The greatest number of bytes that the inputs of a list may have.
const MOST_BYTES: usize = 8_388_608;

/// The greatest seed of a hostile client.
const MOST_SEED: u32 = 65_535;

/// The greatest number of stores of a hostile client.
const MOST_STORES: u32 = 65_536;

/// The clients of the lines that were read.
#[derive(Drop)]
pub(crate) struct ClientList {
    alloc: Global,
    pub(crate) clients: Vec<Client>,
    // How many lines were read, and how many bytes the inputs have.
    pub(crate) lines: u32,
    pub(crate) bytes: usize,
}

impl ClientList {
    /// Returns a list without lines.
    pub(crate) fn new(alloc: Global) -> ClientList
        ensures list { IsList result }
        ensures none { (result.clients.items ≡ []) × (result.lines ≡ 0) }
    {
        ClientList {
            alloc,
            clients: Vec::new(alloc),
            lines: 0,
            bytes: 0,
        }
    }

    /// Reads one more line.
    ///
    /// # Errors
    ///
    /// `Bad` if and only if the line is bad after those before it, with its number; `Memory` only
    /// if the line has a client.
    pub(crate) fn take(&mut self, text: &[u8]) -> Result<(), ClientsError>
        requires list { IsList self.old }
        ensures list { OnOk result (IsList self.new) }
        ensures line { OnOk result (self.new.lines ≡ self.old.lines + 1) }
        ensures clients { OnOk result (with_line (self.old.lines + 1) self.old.clients.items text.now ≡ Ok self.new.clients.items) }
        ensures bad { IfErr result (λ e. IsLineRefusal (self.old.lines + 1) e text.now (with_line (self.old.lines + 1) self.old.clients.items text.now)) }
    {
        let line = self.lines + 1;
        match read_entry(self.alloc, text) {
            Ok(entry) => self.add(line, entry),
            Err(refused) => Err(refused.at(line)),
        }
    }

    // Adds what stands on the line of this number, which is the next one.
    fn add(&mut self, line: u32, entry: Option<Client>) -> Result<(), ClientsError>
        requires list { IsList self.old }
        requires line { line ≡ self.old.lines + 1 }
        requires servable { IfSome entry IsServable }
        ensures list { OnOk result (IsList self.new) }
        ensures line { OnOk result (self.new.lines ≡ line) }
        ensures clients { OnOk result ((too_many line (added self.old.clients.items entry) ≡ false) × (self.new.clients.items ≡ added self.old.clients.items entry)) }
        ensures bad { IfErr result (λ e. IsAddRefusal line entry e (too_many line (added self.old.clients.items entry))) }
    {
        if self.is_full(line, &entry) {
            return Err(ClientsError::Bad {
                line,
                kind: ClientsKind::TooMany,
            });
        }
        if let Some(client) = entry {
            let more = stdin_len(&client);
            self.clients.push(client)?;
            self.bytes += more;
            self.lines = line;
            return Ok(());
        }
        self.lines = line;
        Ok(())
    }

    // Whether the list is full for what stands on the line of this number.
    fn is_full(&self, line: u32, entry: &Option<Client>) -> bool
        requires list { IsList self.now }
        ensures { result ≡ too_many line (added self.now.clients.items entry.now) }
    {
        line > MOST_LINES || self.has_no_room(entry)
    }

    // Whether one more entry makes too many clients, or too many bytes.
    fn has_no_room(&self, entry: &Option<Client>) -> bool
        requires list { IsList self.now }
        ensures { result ≡ has_too_many (added self.now.clients.items entry.now) }
    {
        match entry {
            None => false,
            Some(client) => self.clients.len() == MOST_CLIENTS
                || stdin_len(client) > MOST_BYTES - self.bytes,
        }
    }

    /// Returns the clients that were read.
    pub(crate) fn into_clients(self) -> Vec<Client>
        ensures { result ≡ self.clients }
    {
        let ClientList { clients, .. } = self;
        clients
    }
}

/// Returns how many bytes the input of a client has.
fn stdin_len(client: &Client) -> usize
    ensures { result ≡ stdin_len client.now }
{
    match client {
        Client::Call { stdin } => stdin.slice().len(),
        Client::Hostile { .. } => 0,
    }
}

/// Returns whether a line is skipped: it is empty, or begins with `#`.
fn is_passed_over(line: &[u8]) -> bool
    ensures { result ≡ is_passed_over line.now }
{
    match line {
        [] => true,
        [first, ..] => *first == b'#',
    }
}

/// Reads a line: a client, or nothing if the line is skipped.
fn read_entry(alloc: Global, text: &[u8]) -> Result<Option<Client>, LineError>
    ensures entry { GivesEntry result text.now }
    ensures servable { IfOk result (λ entry. IfSome entry IsServable) }
{
    if is_passed_over(text) {
        return Ok(None);
    }
    match read_client(alloc, text) {
        Ok(client) => Ok(Some(client)),
        Err(refused) => Err(refused),
    }
}

/// Reads a line that isn't skipped.
fn read_client(alloc: Global, text: &[u8]) -> Result<Client, LineError>
    ensures client { Gives result (client_of (words_of text.now)) }
    ensures servable { IfOk result IsServable }
{
    let mut words = WordsOfLine::of(text);
    let Some(first) = words.next() else {
        return Err(LineError::Bad(ClientsKind::BadLine));
    };
    if first == b"call".as_slice() {
        read_call(alloc, words)
    } else if first == b"hostile".as_slice() {
        read_hostile(words)
    } else {
        Err(LineError::Bad(ClientsKind::BadLine))
    }
}

/// Reads the words after `call`.
fn read_call(alloc: Global, words: WordsOfLine) -> Result<Client, LineError>
    ensures client { Gives result (call_of (words_left words.entry)) }
    ensures servable { IfOk result IsServable }
{
    let word = read_operand(words)?;
    match bytes_of(alloc, word) {
        Ok(bytes) => Ok(Client::Call {
            stdin: Bytes::of(bytes),
        }),
        Err(ByteError::BadHex) => Err(LineError::Bad(ClientsKind::BadHex)),
        Err(ByteError::Memory) => Err(LineError::Memory),
    }
}

/// Reads the words after `hostile`.
fn read_hostile(mut words: WordsOfLine) -> Result<Client, LineError>
    ensures client { Gives result (hostile_of (words_left words.entry)) }
    ensures servable { IfOk result IsServable }
{
    let Some(first) = words.next() else {
        return Err(LineError::Bad(ClientsKind::BadLine));
    };
    let second = read_operand(words)?;
    let first = read_given(first)?;
    let seed = read_number(first, 0, MOST_SEED)?;
    let stores = read_number(second, 1, MOST_STORES)?;
    Ok(Client::Hostile { seed, stores })
}

/// Returns the only word that is left.
fn read_operand<'a>(words: WordsOfLine<'a>) -> Result<&'a [u8], ClientsKind>
    ensures { Finds (λ word. word.now) result (operand_of (words_left words.entry)) }
{
    read_given(words.only().ok_or(ClientsKind::BadLine)?)
}

/// Returns a word that isn't empty.
fn read_given(word: &[u8]) -> Result<&[u8], ClientsKind>
    ensures { Finds (λ word. word.now) result (given word.now) }
{
    if word.is_empty() {
        Err(ClientsKind::BadLine)
    } else {
        Ok(word)
    }
}

/// Reads a number from `least` to `most`.
fn read_number(word: &[u8], least: u32, most: u32) -> Result<u32, ClientsKind>
    ensures number { Finds (λ number. number) result (number_between least most word.now) }
    ensures within { IfOk result (λ number. (least ≤ number) × (number ≤ most)) }
{
    let number = parse_number(word, u64::from(most)).ok_or(ClientsKind::BadNumber)? as u32;
    if number < least {
        Err(ClientsKind::BadNumber)
    } else {
        Ok(number)
    }
}
