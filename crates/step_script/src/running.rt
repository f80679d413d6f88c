//! Reading a script and playing it in one pass.
ghost use Rattle.std.specs.Prelude.{◌≡◌, IfErr, IfOk};
ghost use Rattle.step_script.specs.Language.Grammar.{script_of};
ghost use Rattle.step_script.specs.Parts.Readings.{CanBeOpened, IsScriptRefusal};
ghost use Rattle.step_script.specs.Meaning.ScriptText.{IsTextOf};

use crate::error::ScriptError;
use crate::player::Player;
use crate::read::{MOST_BYTES, read_front, read_line_at};
use script_words::{LineReader, NextLine};
use std::alloc::Global;

/// Returns the text that a script prints: what [`text`](crate::text) gives of [`play`](crate::play)
/// of [`parse`](crate::parse). Each line is played when it is read, so no list of lines is kept.
///
/// # Errors
///
/// [`ScriptError::Bad`] if and only if the bytes aren't a script, with the first line that doesn't
/// fit and what is wrong with it. `ScriptError::Memory` only if the page's opening fits; it
/// replaces a bad line only if memory ran out for a line before it.
pub fn script_text(alloc: Global, bytes: &[u8]) -> Result<Vec<u8>, ScriptError>
    ensures text { IfOk result (λ text. IsTextOf bytes.now text.items) }
    ensures bad { IfErr result (λ e. IsScriptRefusal e (script_of bytes.now)) }
    ensures memory { result ≡ Err ScriptError.Memory → CanBeOpened bytes.now }
{
    let mut reader = LineReader::of(bytes);
    let opening = read_front(&mut reader)?;
    let mut player = Player::open(alloc, opening)?;
    let mut payload = Vec::new(alloc);
    let mut room = MOST_BYTES;
    while let NextLine::Line { number, text } = reader.next()? {
        let line = read_line_at(&mut payload, opening.orders, room, number, text)?;
        room -= payload.len();
        player.play_line(line, payload.as_slice())?;
    }
    let text = player.end()?;
    Ok(text)
}
