//! Reading the name of the word of a page that a poke stores to.
ghost use Rattle.std.specs.Prelude.{IfOk};
ghost use Rattle.step_script.specs.Language.Pokes.{ring_byte, poked_word};
ghost use Rattle.step_script.specs.Parts.Readings.{Finds};
ghost use Rattle.vchan_protocol.specs.Hostile.Turned.{MayPoke};

use crate::error::ScriptKind;
use crate::read::operand::read_number;
use ring_words::{Orders, Ring, WordName, field_named};
use script_words::{is_number, place_in};

/// Reads the name of a word of a page with these orders: a header field, or `left[K]` and
/// `right[K]` for a byte of a ring.
///
/// # Errors
///
/// A bad line if there is no such name; a bad number if K isn't below the ring's size.
pub(crate) fn read_word_name(orders: Orders, word: &[u8]) -> Result<WordName, ScriptKind>
    ensures name { Finds (λ name. name) result (poked_word orders word.now) }
    ensures within { IfOk result (λ name. MayPoke orders name) }
{
    if let Some(field) = field_named(word) {
        Ok(field)
    } else if let Some(place) = place_in(b"left[", word) {
        read_ring_byte(orders, Ring::Left, place)
    } else if let Some(place) = place_in(b"right[", word) {
        read_ring_byte(orders, Ring::Right, place)
    } else {
        Err(ScriptKind::BadLine)
    }
}

/// Reads the place of a ring's byte.
fn read_ring_byte(orders: Orders, ring: Ring, place: &[u8]) -> Result<WordName, ScriptKind>
    ensures byte { Finds (λ name. name) result (ring_byte orders ring place.now) }
    ensures within { IfOk result (λ name. MayPoke orders name) }
{
    if !is_number(place) {
        return Err(ScriptKind::BadLine);
    }
    let size = orders.order_of(ring).size();
    let at = read_number(place, 0, u64::from(size - 1))?;
    Ok(WordName::RingByte {
        ring,
        at: at as u32,
    })
}
