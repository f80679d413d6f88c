//! Services of a caller's own.
ghost use Rattle.std.specs.Prelude.{[], pos};

use crate::services::Greeting;
use crate::sessions::{HELLO, answered, bytes_of, serving};
use qrexec_data::{Half, Serving};
use service_gate::{Boxed, Service};
use std::alloc::Global;
use std::test::Fail;
use vchan_io::Memory;

#[test]
fn serves_with_an_object_of_the_callers(rt: HostRuntime) -> Result<(), Fail> {
    let alloc = rt.alloc();
    let service = Boxed {
        inner: Box::new(alloc, Greeting)?,
    };
    assert!(rt;
        answered(alloc, service, 1, &[HELLO, "9001000000000000"])?.as_str()
            == "hello 3;stderr 1 68;stderr 1 69;stdout 0 -;stderr 0 -;exit -1;"
    );
    Ok(())
}

/// A service that runs out of memory at any input.
#[derive(Drop)]
struct Poor;

impl Service for Poor {
    ghost owes = { λ _ _. record { stdout = []; stderr = []; code = pos 0 } };

    fn feed(
        &mut self,
        _piece: &[u8],
        _out: &mut Vec<u8>,
        _err: &mut Vec<u8>,
    ) -> Result<(), Memory> {
        Err(Memory)
    }

    fn end(&mut self, _out: &mut Vec<u8>, _err: &mut Vec<u8>) -> Result<i32, Memory> {
        Err(Memory)
    }
}

/// Whether a side that takes the first piece, but not the second, has got only the first.
fn keeps_the_first<S: Service>(
    alloc: Global,
    service: S,
    first: &[u8],
    second: &[u8],
) -> Result<bool, Fail> {
    let mut side = serving(alloc, service, 3, 1)?;
    has_only_the_first(&mut side, first, second)
}

/// The same of this side, which is dropped at one place.
fn has_only_the_first<S: Service>(
    side: &mut Serving<S>,
    first: &[u8],
    second: &[u8],
) -> Result<bool, Fail> {
    side.take(first)?;
    Ok(side.take(second).is_err() && side.got() == first)
}

#[test]
fn tells_what_it_got_after_want_of_memory(rt: HostRuntime) -> Result<(), Fail> {
    let alloc = rt.alloc();
    let greeting = bytes_of(alloc, &[HELLO])?;
    let input = bytes_of(alloc, &["900100000100000061"])?;
    assert!(rt; keeps_the_first(alloc, Poor, &greeting, &input)?);
    Ok(())
}
