//! A service of the caller's own type.
ghost use Rattle.std.specs.Prelude.{◌≡◌};

use crate::service::Service;
use vchan_io::Memory;

/// A service behind a pointer, of any type of the caller's.
#[derive(Drop)]
pub struct Boxed {
    /// The service.
    pub inner: Box<dyn Service + Send>,
}

impl Service for Boxed {
    ghost owes = { λ b. (Service-box b.inner).owes b.inner.value };

    fn feed(&mut self, piece: &[u8], out: &mut Vec<u8>, err: &mut Vec<u8>) -> Result<(), Memory> {
        self.inner.feed(piece, out, err)
    }

    fn end(&mut self, out: &mut Vec<u8>, err: &mut Vec<u8>) -> Result<i32, Memory> {
        self.inner.end(out, err)
    }
}
