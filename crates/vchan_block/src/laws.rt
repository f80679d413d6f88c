//! The law of an end that waits. A law is a function with no body, whose contract states it.
ghost use Rattle.vchan_block.specs.Waiting.{RoundMissesNothing};

/// Between two honest ends a call that waits misses nothing, however long it waits. Suppose that its round
/// was left unfinished, its tries since then took no event, no signal is there to take and the peer is between
/// two calls. Then the peer's index and live byte are as the round found them, and the peer signals when it
/// stores its index next. A close always signals.
pub fn round_misses_nothing()
    ensures { RoundMissesNothing }
{}
