//! Whether a side of a page is done without having used its end.
use std::alloc::{AllocError, Global};
use std::sync::Arc;
use std::sync::atomic::{AtomicBool, Ordering};

/// What the two sides of a page tell each other before the page is made: that one of them won't use its
/// end. Nothing is promised of it.
#[derive(Drop)]
pub(crate) struct Left {
    flag: Arc<AtomicBool, Global>,
}

impl Left {
    /// Makes a flag that tells that neither side has left. Returns `AllocError` if memory runs out.
    pub(crate) fn new(alloc: Global) -> Result<Left, AllocError> {
        let flag = Arc::new(alloc, AtomicBool::new(false))?;
        Ok(Left { flag })
    }

    /// Returns the same flag, for the other side.
    pub(crate) fn share(&self) -> Result<Left, AllocError> {
        let flag = Arc::try_clone(&self.flag)?;
        Ok(Left { flag })
    }

    /// Tells that a side has left.
    pub(crate) fn leave(self) {
        self.flag.store(true, Ordering::SeqCst);
    }

    /// Returns whether a side has left.
    pub(crate) fn has_left(&self) -> bool {
        self.flag.load(Ordering::SeqCst)
    }
}
