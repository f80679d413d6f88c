//! The answers of a relay's turn.

/// The answer of one turn of a relay.
#[derive(Clone, Copy, Debug, PartialEq, Eq)]
pub enum RelayTurn {
    /// This many bytes were got from the near channel, at least one, and are held now.
    Took { count: u32 },
    /// This many of the held bytes were sent on the far channel, at least one.
    Passed { count: u32 },
    /// None was held and none was got: at these two indices the near ring is empty, and more may
    /// come.
    NotYet { prod: u32, cons: u32 },
    /// None of the held bytes was sent: at these two indices the far ring has no room.
    Full { prod: u32, cons: u32 },
    /// All that the near peer sent was got and passed on, and no more comes. The relay has ended.
    Ended,
    /// The near peer is gone, and left two indices that no honest end leaves. The relay has ended.
    NearGone { prod: u32, cons: u32 },
    /// The far peer is shut, and this many held bytes weren't passed on. The relay has ended.
    FarClosed { held: u32 },
}
