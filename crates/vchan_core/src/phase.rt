//! The place of an end inside its call, and why it can begin none.
use vchan_protocol::{Answer, Bit};

/// The place of an end inside its call.
#[derive(Clone, Copy, Debug)]
pub enum Phase {
    WriteLive { len: u32 },
    WriteLook { len: u32 },
    WriteAsk { len: u32 },
    WriteLookAgain { len: u32 },
    SendLive { len: u32 },
    SendLook { len: u32 },
    SendAsk { len: u32 },
    SendLookAgain { len: u32 },
    ReadLook { most: u32 },
    ReadAsk { most: u32 },
    ReadLookAgain { most: u32 },
    ReadLive { prod: u32 },
    RecvLook { len: u32 },
    RecvAsk { len: u32 },
    RecvLookAgain { len: u32 },
    RecvLive { prod: u32 },
    DrainLook { most: u32 },
    DrainAsk { most: u32 },
    DrainSecond { most: u32 },
    DrainLive { most: u32, prod: u32 },
    DrainFurther { most: u32 },
    DrainGone { most: u32, prod: u32 },
    DrainLast { most: u32 },
    ReadyAsk,
    ReadyLook,
    SpaceAsk,
    SpaceLook,
    ConnectLeft,
    ConnectRight { left: u16 },
    ConnectStore,
    CloseStore,
    TakePending,
    LoadGone,
    RetireStore,
    RetireSignal,
    GoneStore,
    Put { at: u32, count: u32, answer: Answer },
    Take { at: u32, count: u32, answer: Answer },
    Notify { bit: Bit, answer: Answer },
    Signal { answer: Answer },
}

impl Phase {
    /// Returns whether the next events of this phase may be ones that can be made at once: looks, or events on
    /// bytes. The other phases need not search for them then; no promise rests on it.
    #[inline(always)]
    pub(crate) fn may_go_ahead(self) -> bool {
        matches!(
            self,
            Phase::WriteLive { .. }
                | Phase::WriteLook { .. }
                | Phase::ReadLook { .. }
                | Phase::Put { .. }
                | Phase::Take { .. }
        )
    }
}

/// What comes of an event: a phase, or the call's answer.
#[derive(Clone, Copy, Debug)]
pub enum Next {
    To(Phase),
    Done(Answer),
}

/// The reasons why an end can't begin a call now.
#[derive(Clone, Copy, Debug, PartialEq, Eq)]
pub enum Refusal {
    /// The end is inside another call.
    Busy,
    /// The end is shut.
    Shut,
    /// The client hasn't connected yet.
    Unconnected,
    /// The end is connected already.
    Connected,
    /// The drain asks for no byte.
    NoBytes,
}
