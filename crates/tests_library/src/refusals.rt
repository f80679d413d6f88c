//! What stands where a growth of memory is refused. In a run without a refusal these tests say what two rows
//! give. `rt try --test --fail-alloc N` in this crate refuses the Nth growth of each test, and they pass then too.
ghost use Rattle.std.specs.Prelude.{◌≡◌, IfOk, IfSome};
ghost use Rattle.call_broker.specs.Domains.{count_of};

use crate::broker::{broker_with, check_two_domains};
use call_broker::Broker;
use std::alloc::Global;
use std::test::Fail;
use step_script::{ScriptError, script_text};
use vchan_io::Memory;

/// A script by which five bytes go from the client to the server.
const FIVE_BYTES: &[u8] = b"open 10 11\nclient write 68656c6c6f\nserver read 5\n";

const FIVE_BYTES_TEXT: &[u8] =
    b"client wrote 5\nserver read 68656c6c6f\nleft sent 5 got 5\nright sent 0 got 0\n";

/// Plays the script, and once more if memory is refused at first.
fn five_bytes(alloc: Global) -> Result<Vec<u8>, ScriptError> {
    match script_text(alloc, FIVE_BYTES) {
        Err(ScriptError::Memory) => script_text(alloc, FIVE_BYTES),
        played => played,
    }
}

#[test]
fn a_script_has_its_text_or_no_memory(rt: HostRuntime) -> Result<(), Fail> {
    assert!(rt; five_bytes(rt.alloc())?.as_slice() == FIVE_BYTES_TEXT);
    Ok(())
}

/// A broker of the domains `a` and `b`, with 20 pages from `a` to `b` and one back, made once more if memory
/// is refused at first.
fn broker_of_two(alloc: Global) -> Result<Option<Broker>, Memory>
    ensures { IfOk result (λ made. IfSome made (λ broker. count_of broker.hub ≡ 2)) }
{
    match broker_with(alloc, &["a", "b"], &[0, 20, 1, 0]) {
        Ok(made) => Ok(made),
        Err(Memory) => broker_with(alloc, &["a", "b"], &[0, 20, 1, 0]),
    }
}

/// An event for which memory is refused leaves the journal, the live calls and the ports as they were.
#[test]
fn a_broker_stands_without_memory(rt: HostRuntime) -> Result<(), Fail> {
    let Some(mut broker) = broker_of_two(rt.alloc())? else {
        return Err(Fail::from("other pages"));
    };
    Ok(check_two_domains(&rt, &mut broker)?)
}
