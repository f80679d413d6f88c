ghost use Rattle.std.specs.Prelude.{◌≡◌, length};
ghost use Rattle.vchan_protocol.specs.Table.Apply.{words_after, value_taken, buffer_after, Fits};

use ring_words::Words;
use vchan_protocol::Op;

/// Carries an event out, and returns the value that it took.
#[inline(always)]
pub(crate) fn carry_out(words: &mut Words, op: Op, payload: &[u8], buf: &mut [u8]) -> u64
    requires { Fits words.old.orders (length payload.now) (length buf.old) op }
    ensures orders { words.new.orders ≡ words.old.orders }
    ensures words { words.new.list ≡ words_after words.old.orders words.old.list payload.now op }
    ensures value { result ≡ value_taken words.old.orders words.old.list op }
    ensures buffer { buf.new ≡ buffer_after words.old.orders words.old.list buf.old op }
{
    match op {
        Op::Load { word } => words.load(word),
        Op::LoadByte { word, at } => {
            let value = words.load(word);
            buf[at as usize] = (value % 256) as u8;
            value
        }
        Op::Store { word, value } => {
            words.store(word, value);
            0
        }
        Op::StoreByte { word, at } => {
            words.store(word, u64::from(payload[at as usize]));
            0
        }
        Op::Or { word, bits } => {
            let old = words.load(word);
            words.store(word, old | bits);
            old
        }
        Op::And { word, bits } => {
            let old = words.load(word);
            words.store(word, old & bits);
            old
        }
        Op::Swap { word, value } => {
            let old = words.load(word);
            words.store(word, value);
            old
        }
        Op::Nothing => 0,
    }
}
