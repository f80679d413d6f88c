ghost use Rattle.std.specs.Prelude.{◌≡◌, ◌≤◌, OnOk, OnErr};
ghost use Rattle.vchan_io.specs.Counts.{Rose};
ghost use Rattle.vchan_io.specs.Streams.{Appends, AppendsProperPrefix};

use crate::sink::Sink;
use thiserror::Error;

/// A sink failed before it had taken all bytes.
#[derive(Clone, Copy, Debug, PartialEq, Eq, Error)]
#[error("write fault")]
pub struct WriteFault;

/// Writes all of `bytes`, in as many writes as the sink needs. It takes no memory.
///
/// Returns `WriteFault` only if the sink's count of faults rose during this call; then a proper prefix of the
/// bytes was appended. After `Ok` that count is as it was.
pub fn write_all<K: Sink>(sink: &mut K, bytes: &[u8]) -> Result<(), WriteFault>
    ensures ok { OnOk result (Appends (K.held sink.old) (K.held sink.new) bytes.now) }
    ensures unfaulted { OnOk result (K.faults sink.new ≡ K.faults sink.old) }
    ensures fault { OnErr result (Rose (K.faults sink.old) (K.faults sink.new)) }
    ensures part { OnErr result (AppendsProperPrefix (K.held sink.old) (K.held sink.new) bytes.now) }
    ensures counted { K.faults sink.old ≤ K.faults sink.new }
{
    let mut written = 0;
    while written < bytes.len() {
        match sink.write(&bytes[written..]) {
            Ok(count) => written += count,
            Err(_) => return Err(WriteFault),
        }
    }
    Ok(())
}
