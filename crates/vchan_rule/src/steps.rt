//! One event of an end, as one step of the table.
ghost use Rattle.std.specs.Prelude.{◌≡◌, ◌≢◌, ◌<◌, ◌≤◌, ◌-◌, ◌^◌, true, false, [], ◌∷◌, length, slice_index, ℕ, List, None};
ghost use Rattle.ring_words.specs.Page.{word_count, index_of, Has};
ghost use Rattle.vchan_protocol.specs.Table.Apply.{Fits, leaves};
ghost use Rattle.vchan_protocol.specs.Table.Plan.{GoesOn};
ghost use Rattle.vchan_protocol.specs.History.Core.{op_next, plan_left, side_after};
ghost use Rattle.vchan_protocol.specs.OneEnd.OneEnd.{Enters};
ghost use Rattle.vchan_protocol.specs.Hostile.Turned.{turns, strays};
ghost use Rattle.vchan_core.specs.OneMachine.Ahead.{IsPut, IsTake, put_at, take_at};
ghost use Rattle.vchan_core.specs.Page.StandsFor.{HasPayload};
ghost use Rattle.vchan_rule.specs.Ends.{end_in, Agrees};
ghost use Rattle.vchan_rule.specs.Rule.{last_look};
ghost use Rattle.vchan_rule.specs.Along.{GoesAlong};
ghost use Rattle.vchan_rule.specs.declared.rule.View.TheVariants.{One};

use crate::rule::{Event, GivesUp, Makes, PageWords, Strays, TableSeat};
use ring_words::{Layout, WordName, place};
use std::marker::Brand;
use std::snapshot::Snapshot;
use vchan_core::{Call, Machine, Op, Span};

/// Makes the event `op` of the end that `E` names, on the table.
#[inline(always)]
pub(crate) fn perform<E: Event>(
    words: &PageWords,
    seat: &mut TableSeat,
    begun: &Snapshot<Option<Call>>,
    layout: &Layout,
    payload: &[u8],
    op: Op,
) -> u64
    requires seat { (seat.old.table_id ≡ words.now.table_id) × ((v : _) × (seat.old.me ≡ (One v, [])) × Enters v E.before) × (E.before.turned ≡ false) }
    requires op { (op ≡ op_next E.before) × GoesOn (plan_left E.before) × (op ≢ Op.Nothing) }
    requires page { (words.now.table_id.words ≡ word_count layout.now.orders) × (words.now.key.orders ≡ layout.now.orders) }
    requires fits { (into : ℕ) × Fits layout.now.orders (length payload.now) into op }
    requires payload { (n : ℕ) → leaves E.before.payload op n ≡ leaves payload.now op n }
    ensures seat { (seat.new.table_id ≡ seat.old.table_id) × (seat.new.id ≡ seat.old.id) }
    ensures event { seat.new.me ≡ (One (side_after E.before result), []) }
{
    let _ = begun;
    match op {
        Op::Load { word } => words.load::<Makes<E>>(seat, layout.word(word)),
        Op::LoadByte { word, at: _ } => words.load::<Makes<E>>(seat, layout.word(word)),
        Op::Store { word, value } => {
            words.store::<Makes<E>>(seat, layout.word(word), value);
            0
        }
        Op::StoreByte { word, at } => {
            words.store::<Makes<E>>(seat, layout.word(word), u64::from(payload[at as usize]));
            0
        }
        Op::Or { word, bits } => words.fetch_or::<Makes<E>>(seat, layout.word(word), bits),
        Op::And { word, bits } => words.fetch_and::<Makes<E>>(seat, layout.word(word), bits),
        Op::Swap { word, value } => words.swap::<Makes<E>>(seat, layout.word(word), value),
        Op::Nothing => unreachable!(),
    }
}

/// Makes one byte of a put: the next event of the end that `E` names, on the word of this number.
#[inline(always)]
fn put_byte<E: Event>(
    words: &PageWords,
    seat: &mut TableSeat,
    layout: &Layout,
    word: WordName,
    number: usize,
    at: u32,
    payload: &[u8],
)
    requires seat { (seat.old.table_id ≡ words.now.table_id) × ((v : _) × (seat.old.me ≡ (One v, [])) × Enters v E.before) × (E.before.turned ≡ false) }
    requires op { (Op.StoreByte word at ≡ op_next E.before) × GoesOn (plan_left E.before) }
    requires page { (words.now.table_id.words ≡ word_count layout.now.orders) × (words.now.key.orders ≡ layout.now.orders) }
    requires number { (number ≡ index_of layout.now.orders word) × (number < words.now.table_id.words) }
    requires fits { at < length payload.now }
    requires payload { slice_index E.before.payload at ≡ slice_index payload.now at }
    ensures seat { seat.new.table_id ≡ seat.old.table_id }
    ensures event { seat.new.me ≡ (One (side_after E.before 0), []) }
{
    let _ = layout;
    let _ = word;
    words.store::<Makes<E>>(seat, number, u64::from(payload[at as usize]));
}

/// Makes one byte of a take: the next event of the end that `E` names, on the word of this number.
#[inline(always)]
fn take_byte<E: Event>(
    words: &PageWords,
    seat: &mut TableSeat,
    layout: &Layout,
    word: WordName,
    number: usize,
    at: u32,
) -> u64
    requires seat { (seat.old.table_id ≡ words.now.table_id) × ((v : _) × (seat.old.me ≡ (One v, [])) × Enters v E.before) × (E.before.turned ≡ false) }
    requires op { (Op.LoadByte word at ≡ op_next E.before) × GoesOn (plan_left E.before) }
    requires page { (words.now.table_id.words ≡ word_count layout.now.orders) × (words.now.key.orders ≡ layout.now.orders) }
    requires number { (number ≡ index_of layout.now.orders word) × (number < words.now.table_id.words) }
    ensures seat { seat.new.table_id ≡ seat.old.table_id }
    ensures event { seat.new.me ≡ (One (side_after E.before result), []) }
{
    let _ = layout;
    let _ = word;
    let _ = at;
    words.load::<Makes<E>>(seat, number)
}

/// Stores the bytes of a put, each as one step of the table; the end makes no other event between them.
#[inline(always)]
pub(crate) fn put_bytes(
    words: &PageWords,
    seat: &mut TableSeat,
    layout: &Layout,
    machine: &Machine,
    span: Span,
    payload: &[u8],
)
    requires seat { (seat.old.table_id ≡ words.now.table_id) × (seat.old.me ≡ (One (end_in seat.old.me.0), [])) }
    requires page { (words.now.table_id.words ≡ word_count layout.now.orders) × (words.now.key.orders ≡ layout.now.orders) × (machine.now.orders ≡ layout.now.orders) }
    requires put { IsPut machine.now span }
    requires agrees { Agrees words.now.key.start None machine.now (end_in seat.old.me.0) }
    requires payload { HasPayload (end_in seat.old.me.0) payload.now × (span.count ≤ length payload.now) }
    ensures seat { (seat.new.table_id ≡ seat.old.table_id) × (seat.new.me ≡ (One (end_in seat.new.me.0), [])) }
    ensures agrees { Agrees words.now.key.start None (put_at machine.now span span.count) (end_in seat.new.me.0) }
    ensures payload { HasPayload (end_in seat.new.me.0) payload.now }
    ensures along { (buffer : List ℕ) → GoesAlong (end_in seat.old.me.0) buffer (end_in seat.new.me.0) buffer }
{
    let _ = machine;
    let _left = layout.orders.left.size();
    let _size = span.order.size();
    let base = layout.word(WordName::RingByte {
        ring: span.ring,
        at: 0,
    });
    let mut at = span.at;
    'bytes: while at < span.count {
        let lies = place(span.index.wrapping_add(at), span.order);
        let number = base + lies as usize;
        let word = WordName::RingByte {
            ring: span.ring,
            at: lies,
        };
        put_byte::<Brand>(words, seat, layout, word, number, at, payload);
        at += 1;
    }
}

/// Loads the bytes of a take, each as one step of the table; the end makes no other event between them.
#[inline(always)]
pub(crate) fn take_bytes(
    words: &PageWords,
    seat: &mut TableSeat,
    layout: &Layout,
    machine: &Machine,
    span: Span,
    payload: &[u8],
    buf: &mut [u8],
)
    requires seat { (seat.old.table_id ≡ words.now.table_id) × (seat.old.me ≡ (One (end_in seat.old.me.0), [])) }
    requires page { (words.now.table_id.words ≡ word_count layout.now.orders) × (words.now.key.orders ≡ layout.now.orders) × (machine.now.orders ≡ layout.now.orders) }
    requires take { IsTake machine.now span }
    requires agrees { Agrees words.now.key.start None machine.now (end_in seat.old.me.0) }
    requires payload { HasPayload (end_in seat.old.me.0) payload.now }
    requires buf { span.count ≤ length buf.old }
    ensures seat { (seat.new.table_id ≡ seat.old.table_id) × (seat.new.me ≡ (One (end_in seat.new.me.0), [])) }
    ensures agrees { Agrees words.now.key.start None (take_at machine.now span span.count) (end_in seat.new.me.0) }
    ensures payload { HasPayload (end_in seat.new.me.0) payload.now }
    ensures along { GoesAlong (end_in seat.old.me.0) buf.old (end_in seat.new.me.0) buf.new }
{
    let _ = machine;
    let _left = layout.orders.left.size();
    let _size = span.order.size();
    let base = layout.word(WordName::RingByte {
        ring: span.ring,
        at: 0,
    });
    let mut at = span.at;
    'bytes: while at < span.count {
        let lies = place(span.index.wrapping_add(at), span.order);
        let number = base + lies as usize;
        let word = WordName::RingByte {
            ring: span.ring,
            at: lies,
        };
        let value = take_byte::<Brand>(words, seat, layout, word, number, at);
        buf[at as usize] = (value % 256) as u8;
        at += 1;
    }
}

/// Turns the end that `E` names over to a hostile user, by a load.
pub(crate) fn give_up<E: Event>(
    words: &PageWords,
    seat: &mut TableSeat,
    layout: &Layout,
    word: WordName,
)
    requires seat { (seat.old.table_id ≡ words.now.table_id) × (seat.old.me ≡ (One E.before, [])) × (E.before.turned ≡ false) }
    requires page { (words.now.table_id.words ≡ word_count layout.now.orders) × (words.now.key.orders ≡ layout.now.orders) }
    requires word { Op.Load word ≡ last_look E.before }
    ensures seat { (seat.new.table_id ≡ seat.old.table_id) × (seat.new.id ≡ seat.old.id) }
    ensures event { (consumed : ℕ) × (seat.new.me ≡ (One (turns E.before consumed), [])) }
{
    words.load::<GivesUp<E>>(seat, layout.word(word));
}

/// Makes a load by an end that was turned.
pub(crate) fn stray_load<E: Event>(
    words: &PageWords,
    seat: &mut TableSeat,
    layout: &Layout,
    word: WordName,
) -> u64
    requires seat { (seat.old.table_id ≡ words.now.table_id) × (seat.old.me ≡ (One E.before, [])) × (E.before.turned ≡ true) × (E.op ≡ Op.Load word) }
    requires page { (words.now.table_id.words ≡ word_count layout.now.orders) × (words.now.key.orders ≡ layout.now.orders) }
    requires word { Has layout.now.orders word }
    ensures seat { (seat.new.table_id ≡ seat.old.table_id) × (seat.new.id ≡ seat.old.id) }
    ensures event { seat.new.me ≡ (One (strays E.before (Op.Load word) result), []) }
{
    words.load::<Strays<E>>(seat, layout.word(word))
}

/// Makes a store by an end that was turned.
pub(crate) fn stray_store<E: Event>(
    words: &PageWords,
    seat: &mut TableSeat,
    layout: &Layout,
    word: WordName,
    value: u64,
)
    requires seat { (seat.old.table_id ≡ words.now.table_id) × (seat.old.me ≡ (One E.before, [])) × (E.before.turned ≡ true) × (E.op ≡ Op.Store word value) }
    requires page { (words.now.table_id.words ≡ word_count layout.now.orders) × (words.now.key.orders ≡ layout.now.orders) }
    requires word { Has layout.now.orders word }
    ensures seat { (seat.new.table_id ≡ seat.old.table_id) × (seat.new.id ≡ seat.old.id) }
    ensures event { seat.new.me ≡ (One (strays E.before (Op.Store word value) 0), []) }
{
    words.store::<Strays<E>>(seat, layout.word(word), value);
}
