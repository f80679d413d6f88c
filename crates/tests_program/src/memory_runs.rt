//! A run of the program over memory.
use service_gate::Gate;
use std::alloc::{AllocError, Global};
use std::sync::Wait;
use std::test::Fail;
use std::thread::Threads;
use std::time::Clock;
use vchan_io::{MemSink, MemSource, Memory};
use vchan_top::{RunEnd, leave_to_exit, top};

/// More bytes than these runs read or write.
pub(crate) const ALL: usize = 1 << 16;

pub(crate) fn words_of(alloc: Global, words: &[&str]) -> Result<Vec<String>, AllocError> {
    let mut all = Vec::new(alloc);
    for word in words {
        all.push(String::from_str(alloc, *word)?)?;
    }
    Ok(all)
}

/// A sink that takes all bytes at once, and never fails.
pub(crate) fn sink(alloc: Global) -> Result<MemSink, Memory> {
    MemSink::new(alloc, ALL, ALL, Vec::new(alloc))
}

/// Runs the program over memory with workers that pass this gate. Returns the number with which it ends, and
/// its output.
pub(crate) fn run_through<G: Gate, R: Threads + Wait + Clock + Sync>(
    rt: &R,
    alloc: Global,
    words: &[&str],
    input: Vec<u8>,
    gate: &G,
) -> Result<(u8, MemSink), Fail> {
    let words = words_of(alloc, words)?;
    let mut source = MemSource::new(input, ALL, Vec::new(alloc));
    let mut out = sink(alloc)?;
    let mut err = sink(alloc)?;
    let RunEnd {
        status,
        report,
        settled,
    } = top(
        rt,
        alloc,
        words.as_slice(),
        &mut source,
        &mut out,
        &mut err,
        gate,
    );
    leave_to_exit(report);
    leave_to_exit(settled);
    Ok((status.code(), out))
}
