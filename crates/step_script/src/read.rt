//! Reading a script.
ghost use Rattle.std.specs.Prelude.{◌≡◌, ◌≢◌, ◌≤◌, IfErr, IfOk, length, sum_by};
ghost use Rattle.std.specs.List.{All};
ghost use Rattle.vchan_protocol.specs.declared.call.EndState.TheVariants.{Shut};
ghost use Rattle.step_script.specs.Language.Grammar.{at_number, front_from, opening_of, opening_from, start_from, line_of, lines_from, script_of};
ghost use Rattle.step_script.specs.Parts.Forms.{LineKeeps};
ghost use Rattle.script_words.specs.LinesLeft.{lines_left};
ghost use Rattle.step_script.specs.Parts.Readings.{CanBeOpened, FindsAt, GivesAt, IsScriptRefusal, Reads};
ghost use Rattle.step_script.specs.Language.Script.{LineFits};
ghost use Rattle.step_script.specs.Parts.ScriptLines.{line_with, lines_seen, payload_len};
ghost use Rattle.script_words.specs.Words.{words_of};

use crate::error::{BadLine, ScriptError, ScriptKind};
use crate::script::{Line, Opening, Script, ScriptLine};
use line::read_line;
use opening::{read_opening, read_start, start_word};
use ring_words::Orders;
use script_words::{LineReader, NextLine};
use smallvec::SmallVec;
use std::alloc::Global;

mod forms;
mod line;
mod opening;
mod operand;
mod poke;

/// The greatest number of bytes that the byte strings of a script may have in all.
pub(crate) const MOST_BYTES: usize = 8_388_608;

/// Reads a script: its opening, then one line after another, each ended by a line feed, which the
/// last line may lack. An empty line and one that begins with `#` are skipped, but counted.
///
/// # Errors
///
/// [`ScriptError::Bad`] if and only if the bytes aren't a script, with the first line that doesn't
/// fit and what is wrong with it. `ScriptError::Memory` only if the page's opening fits; it
/// replaces a bad line only if memory ran out for a line before it.
pub fn parse(alloc: Global, bytes: &[u8]) -> Result<Script, ScriptError>
    ensures script { IfOk result (λ script. script_of bytes.now ≡ Ok script) }
    ensures bad { IfErr result (λ e. IsScriptRefusal e (script_of bytes.now)) }
    ensures memory { result ≡ Err ScriptError.Memory → CanBeOpened bytes.now }
{
    let mut reader = LineReader::of(bytes);
    let opening = read_front(&mut reader)?;
    let lines = read_lines(alloc, opening.orders, reader)?;
    Ok(Script { opening, lines })
}

/// Reads how the page is opened: the first line, and a `start` line if one comes next.
pub(crate) fn read_front(reader: &mut LineReader) -> Result<Opening, BadLine>
    ensures opening { let due = front_from (lines_left reader.old) in
        FindsAt (λ opening. (opening, lines_left reader.new)) result due }
    ensures state { IfOk result (λ opening. opening.state ≢ Shut) }
{
    let opening = read_first(reader)?;
    let start = start_at(reader)?;
    Ok(Opening { start, ..opening })
}

/// Reads the first line.
fn read_first(reader: &mut LineReader) -> Result<Opening, BadLine>
    ensures opening { let due = opening_from (lines_left reader.old) in
        FindsAt (λ opening. (opening, lines_left reader.new)) result due }
    ensures state { IfOk result (λ opening. opening.state ≢ Shut) }
{
    match reader.next()? {
        NextLine::Line { number, text } => {
            read_opening(text).map_err(|kind| BadLine { line: number, kind })
        }
        NextLine::End { number } => Err(BadLine {
            line: number,
            kind: ScriptKind::BadHeader,
        }),
    }
}

/// Returns where all indices begin, by a `start` line if one comes next. Any other line isn't
/// taken.
fn start_at(reader: &mut LineReader) -> Result<u32, BadLine>
    ensures { let due = start_from (lines_left reader.old) in
        FindsAt (λ start. (start, lines_left reader.new)) result due }
{
    let mut ahead = *reader;
    let NextLine::Line { number, text } = ahead.next()? else {
        return Ok(0);
    };
    let Some(word) = start_word(text) else {
        return Ok(0);
    };
    *reader = ahead;
    read_start(word).map_err(|kind| BadLine { line: number, kind })
}

/// Reads the lines after the opening of a page with these orders.
fn read_lines(
    alloc: Global,
    orders: Orders,
    mut reader: LineReader,
) -> Result<Vec<ScriptLine>, ScriptError>
    ensures lines { let due = lines_from orders 8388608 (lines_left reader.entry) in
        Reads (λ lines. lines_seen lines.items) result due }
    ensures fit { IfOk result (λ lines. All (LineFits orders) (lines_seen lines.items)) }
    ensures short { IfOk result (λ lines. sum_by payload_len (lines_seen lines.items) ≤ 8388608) }
{
    let mut lines = Vec::new(alloc);
    let mut payload = Vec::new(alloc);
    let mut room = MOST_BYTES;
    while let NextLine::Line { number, text } = reader.next()? {
        let line = read_line_at(&mut payload, orders, room, number, text)?;
        room -= payload.len();
        let payload = SmallVec::from_slice(alloc, payload.as_slice())?;
        lines.push(ScriptLine { line, payload })?;
    }
    Ok(lines)
}

/// Reads the line of this number, with `room` bytes left for its byte strings.
pub(crate) fn read_line_at(
    payload: &mut Vec<u8>,
    orders: Orders,
    room: usize,
    number: u32,
    text: &[u8],
) -> Result<Line, ScriptError>
    requires { room ≤ 8388608 }
    ensures line { let due = line_of orders room (words_of text.now) in
        GivesAt (λ line. line_with line payload.new.items) result (at_number number due) }
    ensures fits { IfOk result (λ line. LineKeeps orders room (line_with line payload.new.items)) }
    ensures len { IfOk result (λ line. payload_len (line_with line payload.new.items) ≡ length payload.new.items) }
{
    read_line(payload, orders, room, text).map_err(|error| error.at(number))
}
