//! A read that waits.
ghost use Rattle.std.specs.Prelude.{◌≡◌, ◌<◌, length};
ghost use Rattle.vchan_protocol.specs.declared.call.Call.TheVariants.{Read};
ghost use Rattle.vchan_protocol.specs.Table.Apply.{filled};
ghost use Rattle.vchan_protocol.specs.History.Core.{bytes_loaded};
ghost use Rattle.vchan_protocol.specs.OneEnd.OneCall.{bytes_in};
ghost use Rattle.vchan_rule.specs.Called.{most_asked};
ghost use Rattle.vchan_stream.specs.Stream.{read_from, read_told};
ghost use Rattle.vchan_rule.specs.Seated.{view, IsOpen};
ghost use Rattle.vchan_rule.specs.Ends.{IsSameEnd};

use crate::wait::wait;
use std::sync::Wait;
use std::time::Clock;
use vchan_rule::End;
use vchan_stream::{self as stream, ReadAnswer};

/// The answer of a read that waits.
#[derive(Clone, Copy, Debug, PartialEq, Eq)]
pub enum BlockRead {
    /// This many bytes were got, into the front of the buffer.
    Got { count: u32 },
    /// The last round found the ring empty and the peer shut.
    PeerClosed,
}

ghost use Rattle.vchan_block.specs.Rounds.{EndsIn, Reads, last_read};

/// Gets as many bytes as wait, up to the length of the buffer, and waits for some if there are none. It
/// may wait for ever, if the peer never writes.
pub fn read<R: Wait + Clock>(rt: &R, end: &mut End<'_>, buf: &mut [u8]) -> BlockRead
    requires open { IsOpen end.old }
    requires some { 0 < length buf.old }
    ensures same { IsSameEnd end.old end.new }
    ensures open { IsOpen end.new }
    ensures view { view end.new ≡ read_from (view end.old) (last_read result) buf.new }
    ensures long { length buf.new ≡ length buf.old }
    ensures fills { buf.new ≡ filled buf.old (bytes_loaded end.new.side.trail) }
    ensures kept { bytes_in (read_told (last_read result)) ≡ 0 → buf.new ≡ buf.old }
    ensures rounds { Reads (most_asked buf.old) buf.new end.old end.new result }
    ensures trail { EndsIn end.new (Read (most_asked buf.old)) (read_told (last_read result)) }
{
    'rounds: for _ in rt.forever() {
        match stream::read(end, buf) {
            ReadAnswer::Got { count } => return BlockRead::Got { count },
            ReadAnswer::Empty { prod: _, cons: _ } => {}
            ReadAnswer::PeerClosed => return BlockRead::PeerClosed,
        }
        wait(rt, end);
    }
    unreachable!()
}
