//! Reading how the page of a script begins.
ghost use Rattle.std.specs.Prelude.{◌≡◌, ◌≤◌, ◌≢◌, ok_or, option_copied, IfOk};
ghost use Rattle.script_words.specs.Words.{words_of};
ghost use Rattle.script_words.specs.WordsLeft.{words_left};
ghost use Rattle.step_script.specs.declared.error.ScriptKind.TheVariants.{BadOrders};
ghost use Rattle.step_script.specs.Language.Opening.{orders_of};
ghost use Rattle.step_script.specs.Language.Operands.{number_between};
ghost use Rattle.step_script.specs.Parts.Readings.{Finds};
ghost use Rattle.step_script.specs.Language.Grammar.{opening_of, open_operands, fresh_operands, open_of, fresh_of, page_opening, start_of, start_word};

use crate::error::ScriptKind;
use crate::read::operand::{read_given, read_number};
use crate::script::Opening;
use ring_words::{Orders, check_orders};
use script_words::WordsOfLine;
use vchan_core::EndState;

/// The greatest value that the word of an order may have.
const MOST_ORDER: u64 = 65_535;

/// The greatest value that an index may have.
const MOST_INDEX: u64 = 4_294_967_295;

/// Reads the first line: `open L R`, or `fresh L R A B`.
///
/// # Errors
///
/// A bad header if the line doesn't have one of these words with the right number of words after
/// it; a bad line if one of those is empty; a bad number if one of them isn't a number up to
/// 65,535; bad orders if `check_orders` refuses L and R.
pub(crate) fn read_opening(line: &[u8]) -> Result<Opening, ScriptKind>
    ensures { Finds (λ opening. opening) result (opening_of (words_of line.now)) }
{
    let mut words = WordsOfLine::of(line);
    let verb = words.next().ok_or(ScriptKind::BadHeader)?;
    if verb == b"open".as_slice() {
        read_open(words)
    } else if verb == b"fresh".as_slice() {
        read_fresh(words)
    } else {
        Err(ScriptKind::BadHeader)
    }
}

/// Reads the words `L R` of an open page.
fn read_open(mut words: WordsOfLine) -> Result<Opening, ScriptKind>
    ensures { Finds (λ opening. opening) result (open_operands (words_left words.entry)) }
{
    let left = words.next().ok_or(ScriptKind::BadHeader)?;
    let right = words.only().ok_or(ScriptKind::BadHeader)?;
    read_open_words(left, right)
}

/// Reads two words of an open page.
fn read_open_words(left: &[u8], right: &[u8]) -> Result<Opening, ScriptKind>
    ensures { Finds (λ opening. opening) result (open_of left.now right.now) }
{
    let left = read_given(left)?;
    let right = read_given(right)?;
    let said = (read_order(left)?, read_order(right)?);
    page_opening(said, said, EndState::Open)
}

/// Reads the words `L R A B` of a fresh page.
fn read_fresh(mut words: WordsOfLine) -> Result<Opening, ScriptKind>
    ensures { Finds (λ opening. opening) result (fresh_operands (words_left words.entry)) }
{
    let left = words.next().ok_or(ScriptKind::BadHeader)?;
    let right = words.next().ok_or(ScriptKind::BadHeader)?;
    let said_left = words.next().ok_or(ScriptKind::BadHeader)?;
    let said_right = words.only().ok_or(ScriptKind::BadHeader)?;
    read_fresh_words(left, right, said_left, said_right)
}

/// Reads four words of a fresh page.
fn read_fresh_words(
    left: &[u8],
    right: &[u8],
    said_left: &[u8],
    said_right: &[u8],
) -> Result<Opening, ScriptKind>
    ensures { let due = fresh_of left.now right.now said_left.now said_right.now in
        Finds (λ opening. opening) result due }
{
    let left = read_given(left)?;
    let right = read_given(right)?;
    let said_left = read_given(said_left)?;
    let said_right = read_given(said_right)?;
    let numbers = (read_order(left)?, read_order(right)?);
    let said = (read_order(said_left)?, read_order(said_right)?);
    page_opening(numbers, said, EndState::Fresh)
}

/// Returns the number of a word that may be an order.
fn read_order(word: &[u8]) -> Result<u16, ScriptKind>
    ensures { Finds (λ number. number) result (number_between 0 65535 word.now) }
{
    let number = read_number(word, 0, MOST_ORDER)?;
    Ok(number as u16)
}

/// Returns the opening of a page with two numbers as its orders, with what the order words hold and
/// the client's state.
fn page_opening(
    numbers: (u16, u16),
    said: (u16, u16),
    state: EndState,
) -> Result<Opening, ScriptKind>
    ensures { Finds (λ opening. opening) result (page_opening numbers said state) }
{
    let orders = page_orders(numbers.0, numbers.1)?;
    Ok(Opening {
        orders,
        said,
        state,
        start: 0,
    })
}

/// Returns two numbers as the orders of a page.
#[tactic(auto, using(crate::proofs::Language::OrdersLaws::orders_of_bad))]
fn page_orders(left: u16, right: u16) -> Result<Orders, ScriptKind>
    ensures { Finds (λ orders. orders) result (ok_or (orders_of left right) BadOrders) }
{
    match check_orders(left, right) {
        Ok(orders) => Ok(orders),
        Err(_) => Err(ScriptKind::BadOrders),
    }
}

/// Returns N of a line `start N`, or `None` if and only if the line doesn't have that word and just
/// one more.
pub(crate) fn start_word(line: &[u8]) -> Option<&[u8]>
    ensures { option_copied result ≡ start_word (words_of line.now) }
{
    let mut words = WordsOfLine::of(line);
    if words.next()? == b"start".as_slice() {
        words.only()
    } else {
        None
    }
}

/// Reads the number at which all indices begin.
///
/// # Errors
///
/// A bad line if the word is empty; a bad number if it isn't a number up to 4,294,967,295.
pub(crate) fn read_start(word: &[u8]) -> Result<u32, ScriptKind>
    ensures { Finds (λ start. start) result (start_of word.now) }
{
    let start = read_number(read_given(word)?, 0, MOST_INDEX)?;
    Ok(start as u32)
}
