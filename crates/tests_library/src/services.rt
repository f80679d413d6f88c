//! The services by name, an object of the caller's as a service, and the gate that holds nobody.
ghost use Rattle.std.specs.Prelude.{[], codes, negsuc};

use service_gate::{Answer, Boxed, Builtin, Gate, OpenGate, Service, serve};
use std::alloc::Global;
use std::test::Fail;
use vchan_io::Memory;

// The answer of the named service to the input in pieces of this size.
fn cut(alloc: Global, name: &[u8], input: &[u8], size: usize) -> Result<Option<Answer>, Fail> {
    let Some(service) = Builtin::named(name) else {
        return Ok(None);
    };
    let mut pieces = Vec::new(alloc);
    if size > 0 {
        for piece in input.chunks(size) {
            pieces.push(piece)?;
        }
    }
    Ok(Some(serve(alloc, service, pieces.as_slice())?))
}

#[test]
fn answers_the_same_for_every_cutting(rt: HostRuntime) -> Result<(), Fail> {
    let rows: [(&[u8], &[u8], &[u8], &[u8], i32); 14] = [
        (b"echo", b"", b"", b"", 0),
        (b"echo", b"a", b"a", b"", 0),
        (b"echo", b"az\n{AZ", b"az\n{AZ", b"", 0),
        (b"upper", b"az`{AZ\xe9\x00", b"AZ`{AZ\xe9\x00", b"", 0),
        (b"count", b"", b"0\n", b"", 0),
        (b"count", b"x", b"1\n", b"", 0),
        (b"count", b"0123456789", b"10\n", b"", 0),
        (b"first+0", b"abc", b"", b"", 0),
        (b"first+2", b"abc", b"ab", b"", 0),
        (b"first+9", b"abc", b"abc", b"", 0),
        (b"split", b"", b"", b"", 0),
        (b"split", b"a", b"a", b"", 0),
        (b"split", b"abcdefg", b"aceg", b"bdf", 0),
        (b"exit+7", b"abc", b"", b"", 7),
    ];
    for (name, input, stdout, stderr, code) in rows {
        for size in [1, 2, 3, 100] {
            let answer = cut(rt.alloc(), name, input, size)?.ok_or("no such service")?;
            assert!(rt; answer.stdout() == stdout, "stdout of {name:?} by {size}");
            assert!(rt; answer.stderr() == stderr, "stderr of {name:?} by {size}");
            assert!(rt; answer.code() == code, "code of {name:?} by {size}");
        }
    }
    Ok(())
}

#[test]
fn answers_long_inputs(rt: HostRuntime) -> Result<(), Fail> {
    let input = vec![in rt.alloc(); b'q'; 65_537]?;
    let rows: [(&[u8], usize, usize); 4] = [
        (b"echo", 65_537, 0),
        (b"upper", 65_537, 0),
        (b"first+65536", 65_536, 0),
        (b"split", 32_769, 32_768),
    ];
    for (name, out, err) in rows {
        for size in [1, 65_536, 65_537] {
            let answer = cut(rt.alloc(), name, input.as_slice(), size)?.ok_or("no such service")?;
            assert!(rt;
                answer.stdout().len() == out,
                "stdout of {name:?} by {size}"
            );
            assert!(rt;
                answer.stderr().len() == err,
                "stderr of {name:?} by {size}"
            );
        }
    }
    let count = cut(rt.alloc(), b"count", input.as_slice(), 1000)?.ok_or("no such service")?;
    assert!(rt; count.stdout() == b"65537\n".as_slice());
    Ok(())
}

#[test]
fn knows_its_names(rt: HostRuntime) {
    let known: [&[u8]; 8] = [
        b"echo",
        b"upper",
        b"count",
        b"split",
        b"first+0",
        b"first+1048576",
        b"exit+0",
        b"exit+255",
    ];
    for name in known {
        assert!(rt; Builtin::named(name).is_some(), "{name:?}");
    }
    let strangers: [&[u8]; 16] = [
        b"",
        b"ech",
        b"echo+x",
        b"echo ",
        b"Echo",
        b"first",
        b"first+",
        b"first+01",
        b"first++1",
        b"first+1048577",
        b"first+18446744073709551616",
        b"first+1 ",
        b"exit+256",
        b"exit+00",
        b"exit+-1",
        b"exit+\xff",
    ];
    for name in strangers {
        assert!(rt; Builtin::named(name).is_none(), "{name:?}");
    }
}

/// A service of the tests' own: it answers the end with a text, and doesn't look at its input.
#[derive(Drop)]
pub(crate) struct Greeting;

impl Service for Greeting {
    ghost owes = { λ _ _. record { stdout = []; stderr = codes "hi"; code = negsuc 0 } };

    fn feed(
        &mut self,
        _piece: &[u8],
        _out: &mut Vec<u8>,
        _err: &mut Vec<u8>,
    ) -> Result<(), Memory> {
        Ok(())
    }

    fn end(&mut self, _out: &mut Vec<u8>, err: &mut Vec<u8>) -> Result<i32, Memory> {
        err.extend_from_slice(b"hi")?;
        Ok(-1)
    }
}

#[test]
fn takes_an_object_of_the_callers(rt: HostRuntime) -> Result<(), Fail> {
    let service = Boxed {
        inner: Box::new(rt.alloc(), Greeting)?,
    };
    let answer = serve(rt.alloc(), service, &[b"a".as_slice(), b"bc".as_slice()])?;
    assert!(rt; answer.into_parts() == (Vec::new(rt.alloc()), b"hi".to_vec(rt.alloc())?, -1));
    OpenGate.enter(7);
    Ok(())
}
