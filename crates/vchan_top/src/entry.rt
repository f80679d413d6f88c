ghost use Rattle.std.specs.Prelude.{◌++◌, codes, ◌≡◌, ℕ, List, [], ◌+◌, ◌<◌, ◌≤◌, ◌↔◌, length, IfOk, IfSome, IsErrOf, OnOk, map, string_bytes, true, false};
ghost use Rattle.std.specs.List.{flat_map};
ghost use Rattle.std.specs.Io.KnownBytes.{IsAtEnd};
ghost use Rattle.vchan_io.specs.Counts.{Rose};
ghost use Rattle.vchan_io.specs.Streams.{Takes};
ghost use Rattle.vchan_top.specs.Command.{reads_input};
ghost use Rattle.scenario_file.specs.KeyTexts.{IsPrintable};
ghost use Rattle.vchan_top.specs.Status.{IsAtMostALine, IsWritten, Writes, status_line, bad_input, bad_line, bad_place, script_word, decode_word, clients_word};
ghost use Rattle.vchan_top.specs.Top.{IsRun, greatest_input};

use crate::command::{Command, command_in};
use crate::run_end::RunEnd;
use crate::status::{Bad, Status};
use crate::work::{Work, do_work};
use itoa::Buffer;
use scenario_file::{Path, ScenarioKind};
use service_gate::Gate;
use std::alloc::Global;
use std::sync::Wait;
use std::thread::Threads;
use std::time::Clock;
use step_script::ScriptKind;
use stream_text::DecodeKind;
use vchan_io::{ReadAllError, Sink, Source, WriteFault, read_all, write_all};
use vchan_persist::ClientsKind;

/// The longest input that the program reads, in bytes.
pub const GREATEST_INPUT: usize = 4_194_304;

/// Does all that the program does. It reads its words, then its whole input, then it does its work, and
/// writes the text, which is made whole before its first byte is written. If it ends otherwise, it writes one
/// line of printable ASCII about that to `err`; a fault of `err` cuts that line short, and changes nothing else.
/// For `run` the workers pass `gate`, and other words don't use it.
///
/// With `run` and `load` it returns the report whose text or sums are written. The report is lawful for the
/// scenario, whatever the order of all steps of its workers. With `pipe` and `relay`, which take any bytes,
/// it returns the pages through which all of these bytes went, if the whole text was written.
///
/// # Statuses
///
/// `BadWords` comes if and only if the words are no command. `ReadFault` comes only if the source's count of
/// faults rose. `TooLong` comes if and only if more than [`GREATEST_INPUT`] bytes were taken. `BadInput`
/// comes only if the input was read to its end and doesn't have the command's form; it never comes with
/// `pipe` and `relay`. `WriteFault` comes only if the count of `out` rose. `OutOfMemory` may come wherever
/// memory runs out.
///
/// Text is written to `out` only with `Done`, and a part of it with `WriteFault`. The source's count changes
/// only with `ReadFault`, and that of `out` only with `WriteFault`. With `load` nothing is taken from the
/// source.
pub fn top<S: Source, K: Sink, E: Sink, G: Gate, R: Threads + Wait + Clock + Sync>(
    rt: &R,
    alloc: Global,
    words: &[String],
    source: &mut S,
    out: &mut K,
    err: &mut E,
    gate: &G,
) -> RunEnd
    ensures run { IsRun (map string_bytes words.now) (S.left source.old) (S.left source.new) (S.faults source.old) (S.faults source.new)
        (K.held out.old) (K.held out.new) (K.faults out.old) (K.faults out.new) result }
    ensures line { IsWritten (status_line result.status) (E.held err.old) (E.held err.new) (E.faults err.old) (E.faults err.new) }
    ensures printable { IsAtMostALine (status_line result.status) }
{
    let end = run(rt, alloc, words, source, out, gate);
    let _ = report_status(&end.status, err);
    end
}

/// Does the work, and writes nothing about how it ended.
fn run<S: Source, K: Sink, G: Gate, R: Threads + Wait + Clock + Sync>(
    rt: &R,
    alloc: Global,
    words: &[String],
    source: &mut S,
    out: &mut K,
    gate: &G,
) -> RunEnd
    ensures { IsRun (map string_bytes words.now) (S.left source.old) (S.left source.new) (S.faults source.old) (S.faults source.new)
        (K.held out.old) (K.held out.new) (K.faults out.old) (K.faults out.new) result }
{
    let Some(command) = command_in(words) else {
        return RunEnd::of(alloc, Status::BadWords, None);
    };
    let input = match read_input(alloc, &command, source) {
        Ok(input) => input,
        Err(ReadAllError::ReadFault) => return RunEnd::of(alloc, Status::ReadFault, None),
        Err(ReadAllError::TooLong) => return RunEnd::of(alloc, Status::TooLong, None),
        Err(ReadAllError::Memory) => return RunEnd::of(alloc, Status::OutOfMemory, None),
    };
    let work = match do_work(rt, alloc, command, input, gate) {
        Ok(work) => work,
        Err(status) => return RunEnd::of(alloc, status, None),
    };
    let Work {
        text,
        report,
        settled,
    } = work;
    match write_all(out, text.as_slice()) {
        Ok(()) => RunEnd::done(report, settled),
        Err(WriteFault) => RunEnd::of(alloc, Status::WriteFault, report),
    }
}

/// Reads the input of a command: the source to its end, or nothing if the command reads none.
fn read_input<S: Source>(
    alloc: Global,
    command: &Command,
    source: &mut S,
) -> Result<Vec<u8>, ReadAllError>
    ensures end { OnOk result (reads_input command.now ≡ true → IsAtEnd (S.left source.new)) }
    ensures few { IfOk result (λ bytes. length bytes.items ≤ greatest_input) }
    ensures taken { (taken : List ℕ) × Takes (S.left source.old) (S.left source.new) taken
        × (reads_input command.now ≡ false → taken ≡ [])
        × (IsErrOf result ReadAllError.TooLong ↔ (greatest_input < length taken))
        × IfOk result (λ bytes. bytes.items ≡ taken) }
    ensures fault { IsErrOf result ReadAllError.ReadFault → (reads_input command.now ≡ true) × Rose (S.faults source.old) (S.faults source.new) }
    ensures unfaulted { (¬ IsErrOf result ReadAllError.ReadFault) → S.faults source.new ≡ S.faults source.old }
{
    if !command.reads_input() {
        return Ok(Vec::new(alloc));
    }
    read_all(alloc, source, GREATEST_INPUT)
}

/// Writes to `err` how the run ended, if it didn't end well.
pub fn report_status<E: Sink>(status: &Status, err: &mut E) -> Result<(), WriteFault>
    ensures writes { Writes (status_line status.now) (E.held err.old) (E.held err.new) (E.faults err.old) (E.faults err.new) result }
    ensures printable { IsAtMostALine (status_line status.now) }
{
    match status {
        Status::Done => Ok(()),
        Status::BadWords => write_all(err, b"vchan: bad words\n"),
        Status::ReadFault => write_all(err, b"vchan: read fault\n"),
        Status::TooLong => write_all(err, b"vchan: input too long\n"),
        Status::BadInput { bad } => report_bad(err, bad),
        Status::WriteFault => write_all(err, b"vchan: write fault\n"),
        Status::OutOfMemory => write_all(err, b"vchan: out of memory\n"),
    }
}

/// Writes to `err` what is wrong with the input.
fn report_bad<E: Sink>(err: &mut E, bad: &Bad) -> Result<(), WriteFault>
    ensures writes { Writes (bad_input bad.now) (E.held err.old) (E.held err.new) (E.faults err.old) (E.faults err.new) result }
    ensures printable { IsAtMostALine (bad_input bad.now) }
{
    match bad {
        Bad::Script { line, kind } => report_line(err, *line, script_kind(*kind)),
        Bad::Decode { line, kind } => report_line(err, *line, decode_kind(*kind)),
        Bad::Clients { line, kind } => report_line(err, *line, clients_kind(*kind)),
        Bad::Scenario { kind, at } => report_place(err, *kind, at),
    }
}

/// Writes to `err` which line is bad. It takes no memory, so the line is written even if memory ran out.
fn report_line<E: Sink>(err: &mut E, line: u32, kind: &[u8]) -> Result<(), WriteFault>
    ensures { Writes (bad_line line kind.now) (E.held err.old) (E.held err.new) (E.faults err.old) (E.faults err.new) result }
{
    let mut digits = Buffer::new();
    let number = digits.format(line).as_bytes();
    write_pieces(err, &[b"vchan: line ", number, b": ", kind, b"\n"])
}

/// Writes to `err` which place of a scenario file is bad. It takes no memory, so the place is written even if
/// memory ran out.
fn report_place<E: Sink>(err: &mut E, kind: ScenarioKind, at: &Path) -> Result<(), WriteFault>
    ensures writes { Writes (bad_place kind at.now) (E.held err.old) (E.held err.new) (E.faults err.old) (E.faults err.new) result }
    ensures printable { IsPrintable at.now }
{
    write_place(err, at.bytes(), kind.word())
}

/// Writes a line of a place and the word for what is wrong there.
fn write_place<E: Sink>(err: &mut E, at: &[u8], word: &[u8]) -> Result<(), WriteFault>
    ensures { Writes (codes "vchan: " ++ (at.now ++ codes ": " ++ word.now) ++ codes "\n") (E.held err.old) (E.held err.new) (E.faults err.old) (E.faults err.new) result }
{
    write_pieces(err, &[b"vchan: ", at, b": ", word, b"\n"])
}

/// Writes these pieces of a line, one after the other.
fn write_pieces<E: Sink>(err: &mut E, pieces: &[&[u8]]) -> Result<(), WriteFault>
    ensures { Writes (flat_map (λ piece. piece.now) pieces.now) (E.held err.old) (E.held err.new) (E.faults err.old) (E.faults err.new) result }
{
    for piece in pieces {
        write_all(err, piece)?;
    }
    Ok(())
}

/// Returns what is wrong with a line of a script, in the program's words.
fn script_kind(kind: ScriptKind) -> &'static [u8]
    ensures { result.now ≡ script_word kind }
{
    match kind {
        ScriptKind::BadHeader => b"bad-header",
        ScriptKind::BadLine => b"bad-line",
        ScriptKind::BadNumber => b"bad-number",
        ScriptKind::BadHex => b"bad-hex",
        ScriptKind::BadOrders => b"bad-orders",
        ScriptKind::TooManyLines => b"too-many-lines",
        ScriptKind::TooManyBytes => b"too-many-bytes",
    }
}

/// Returns what is wrong with a line of a list of clients, in the program's words.
fn clients_kind(kind: ClientsKind) -> &'static [u8]
    ensures { result.now ≡ clients_word kind }
{
    match kind {
        ClientsKind::BadLine => b"bad-line",
        ClientsKind::BadNumber => b"bad-number",
        ClientsKind::BadHex => b"bad-hex",
        ClientsKind::TooMany => b"too-many",
    }
}

/// Returns what is wrong with a line of byte strings, in the program's words.
fn decode_kind(kind: DecodeKind) -> &'static [u8]
    ensures { result.now ≡ decode_word kind }
{
    match kind {
        DecodeKind::BadHex => b"bad-hex",
        DecodeKind::TooManyLines => b"too-many-lines",
        DecodeKind::TooManyBytes => b"too-many-bytes",
    }
}
