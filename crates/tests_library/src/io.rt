//! Each public call once, through the bounds that generic callers use, and the trusted edge over real
//! streams. Contracts state all that memory streams do, so these tests look for calls that never succeed.
ghost use Rattle.std.specs.Prelude.{◌≡◌, ◌≤◌, IfOk};

use std::alloc::{AllocError, Global};
use std::io::{ErrorKind, Read, Write};
use std::path::Path;
use std::rt::Runtime;
use std::test::Fail;
use std::{env, fs, io, process};
use vchan_io::{
    Failed, GREATEST_LIMIT, MemSink, MemSource, Memory, ReadAllError, Sink, Source, StdSink,
    StdSource, WriteFault, read_all, write_all,
};

fn source_of(alloc: Global, text: &str, most: usize, fails: &[u64]) -> Result<MemSource, AllocError>
    requires { 1 ≤ most }
{
    Ok(MemSource::new(text.as_bytes().to_vec(alloc)?, most, fails.to_vec(alloc)?))
}

fn read_once<S: Source>(source: &mut S, buf: &mut [u8]) -> Result<usize, Failed> {
    source.read(buf)
}

#[test]
fn memory_source_gives_parts_and_fails_by_number(rt: HostRuntime) -> Result<(), Fail> {
    let mut source = source_of(rt.alloc(), "abcdefg", 4, &[2, 5])?;
    let mut buf = *b"......";
    assert!(rt; read_once(&mut source, &mut buf) == Ok(4));
    assert!(rt; buf == *b"abcd..");
    assert!(rt; read_once(&mut source, &mut buf) == Err(Failed));
    assert!(rt; buf == *b"abcd..");
    assert!(rt; read_once(&mut source, &mut buf[..1]) == Ok(1));
    assert!(rt; read_once(&mut source, &mut buf) == Ok(2));
    assert!(rt; buf == *b"fgcd..");
    assert!(rt; read_once(&mut source, &mut buf) == Err(Failed));
    assert!(rt; read_once(&mut source, &mut buf) == Ok(0));
    Ok(())
}

fn write_once<K: Sink>(sink: &mut K, piece: &[u8]) -> Result<usize, Failed> {
    sink.write(piece)
}

#[test]
fn memory_sink_takes_parts_and_fails_by_number_and_room(rt: HostRuntime) -> Result<(), Fail> {
    let mut sink = MemSink::new(rt.alloc(), 5, 3, [2].to_vec(rt.alloc())?)?;
    assert!(rt; write_once(&mut sink, b"abcd") == Ok(3));
    assert!(rt; write_once(&mut sink, b"") == Err(Failed));
    assert!(rt; write_once(&mut sink, b"def") == Ok(2));
    assert!(rt; write_once(&mut sink, b"f") == Err(Failed));
    assert!(rt; write_once(&mut sink, b"") == Ok(0));
    assert!(rt; sink.bytes() == b"abcde".as_slice());
    Ok(())
}

// A reading, in a function of its own: what its contract says stays out of the test.
fn len_of_all(alloc: Global, source: &mut MemSource, limit: usize) -> Result<usize, ReadAllError>
    requires { limit ≤ GREATEST_LIMIT }
{
    Ok(read_all(alloc, source, limit)?.len())
}

#[test]
fn reads_to_the_end_within_the_limit(rt: HostRuntime) -> Result<(), Fail> {
    let alloc = rt.alloc();
    let cases = [
        ("", 3, 0, Ok(0)),
        ("abcdef", 4, 6, Ok(6)),
        ("abcdef", 1, GREATEST_LIMIT, Ok(6)),
        ("abcdefg", 4, 6, Err(ReadAllError::TooLong)),
        ("a", 4, 0, Err(ReadAllError::TooLong)),
    ];
    for (text, most, limit, want) in cases {
        let mut source = source_of(alloc, text, most, &[])?;
        let got = len_of_all(alloc, &mut source, limit);
        assert!(rt; got == want, "{text} within {limit}");
    }
    let mut faulty = source_of(alloc, "abcdef", 4, &[2])?;
    assert!(rt; len_of_all(alloc, &mut faulty, 6) == Err(ReadAllError::ReadFault));
    Ok(())
}

#[test]
fn reads_much_in_large_pieces(rt: HostRuntime) -> Result<(), Fail> {
    let alloc = rt.alloc();
    let bytes: Vec<u8> = (0..400_000u32).map(|k| (k % 251) as u8).collect(alloc)?;
    let mut source = MemSource::new(bytes.clone()?, usize::MAX, Vec::new(alloc));
    let got = read_all(alloc, &mut source, 400_000)?;
    assert!(rt; got == bytes);
    Ok(())
}

#[test]
fn writes_all_or_a_proper_prefix(rt: HostRuntime) -> Result<(), Fail> {
    let alloc = rt.alloc();
    let mut sink = MemSink::new(alloc, 10, 4, Vec::new(alloc))?;
    assert!(rt; write_all(&mut sink, b"abcdefghij") == Ok(()));
    assert!(rt; sink.bytes() == b"abcdefghij".as_slice());
    assert!(rt; write_all(&mut sink, b"") == Ok(()));
    let mut faulty = MemSink::new(alloc, 10, 4, [2].to_vec(alloc)?)?;
    assert!(rt; write_all(&mut faulty, b"abcdefghij") == Err(WriteFault));
    assert!(rt; faulty.bytes() == b"abcd".as_slice());
    Ok(())
}

// A stream of std that is interrupted at its first call and breaks at its third.
#[derive(Drop)]
struct Shaky {
    calls: u8,
}

impl Shaky {
    fn turn(&mut self) -> io::Result<usize>
        ensures { IfOk result (λ count. count ≡ 1) }
    {
        self.calls = self.calls.saturating_add(1);
        match self.calls {
            1 => Err(ErrorKind::Interrupted.into()),
            2 => Ok(1),
            _ => Err(ErrorKind::BrokenPipe.into()),
        }
    }
}

impl Read for Shaky {
    fn read(&mut self, buf: &mut [u8]) -> io::Result<usize> {
        let Some(first) = buf.first_mut() else {
            return Ok(0);
        };
        *first = b'a';
        self.turn()
    }
}

impl Write for Shaky {
    fn write(&mut self, buf: &[u8]) -> io::Result<usize> {
        if buf.is_empty() {
            return Ok(0);
        }
        self.turn()
    }

    fn flush(&mut self) -> io::Result<()> {
        Ok(())
    }
}

#[test]
fn std_streams_count_errors_as_faults(rt: HostRuntime) -> Result<(), Fail> {
    let alloc = rt.alloc();
    let mut source = StdSource::new(b"hello".as_slice());
    assert!(rt; read_all(alloc, &mut source, 5)?.as_slice() == b"hello".as_slice());
    let mut written = Vec::new(alloc);
    assert!(rt; write_all(&mut StdSink::new(&mut written), b"hello") == Ok(()));
    assert!(rt; written.as_slice() == b"hello".as_slice());

    let mut shaky = StdSource::new(Shaky { calls: 0 });
    let mut buf = [0; 2];
    assert!(rt; read_once(&mut shaky, &mut buf) == Ok(1));
    assert!(rt; read_once(&mut shaky, &mut buf) == Err(Failed));
    let mut shaky = StdSink::new(Shaky { calls: 0 });
    assert!(rt; write_once(&mut shaky, b"ab") == Ok(1));
    assert!(rt; write_once(&mut shaky, b"b") == Err(Failed));

    let mut room = [0; 3];
    let mut full = StdSink::new(room.as_mut_slice());
    assert!(rt; write_all(&mut full, b"hello") == Err(WriteFault));
    Ok(())
}

/// Whether a new file of this path carries these bytes. It is removed then.
fn is_carried(rt: &HostRuntime, path: Path<'_>, bytes: &[u8]) -> Result<bool, Fail> {
    write_all(&mut StdSink::new(fs::create(rt, path)?), bytes)?;
    let got = read_all(
        rt.alloc(),
        &mut StdSource::new(fs::open(rt, path)?),
        200_000,
    )?;
    fs::remove_file(rt, path)?;
    Ok(got.as_slice() == bytes)
}

#[test]
fn std_streams_carry_a_file(rt: HostRuntime) -> Result<(), Fail> {
    let alloc = rt.alloc();
    let name = format!(in alloc; "vchan_io-{}", process::id(rt.process()))?;
    let path = env::temp_dir(&rt)?.join(alloc, name.as_str())?;
    let bytes = vec![in alloc; 7; 200_000]?;
    assert!(rt; is_carried(&rt, path.as_path(), &bytes)?);
    Ok(())
}

#[test]
fn errors_are_told_in_words(rt: HostRuntime) -> Result<(), Fail> {
    let told = format!(in rt.alloc();
        "{}; {}; {}; {}; {}; {}",
        ReadAllError::ReadFault,
        ReadAllError::TooLong,
        ReadAllError::Memory,
        WriteFault,
        Failed,
        Memory,
    )?;
    assert!(rt;
        told.as_str()
            == "read fault; input too long; out of memory; write fault; fault of a source or a sink; \
         out of memory"
    );
    Ok(())
}
