//! The errors of lists of clients, and servers of some lists. Lists that are read or refused are rows of
//! tests/cli.
ghost use Rattle.std.specs.Prelude.{ℕ, List, IsSome};
ghost use Rattle.service_gate.specs.ServiceResult.{service as service_of};

use ring_words::check_orders;
use std::sync::Wait;
use std::test::Fail;
use std::thread::Threads;
use vchan_persist::{ClientsError, ClientsKind, EpochResult, parse_clients, serve_clients};

fn bad(line: u32, kind: ClientsKind) -> ClientsError {
    ClientsError::Bad { line, kind }
}

/// The texts of errors, which no contract has.
#[test]
fn errors_of_lists_are_told_in_words(rt: HostRuntime) -> Result<(), Fail> {
    let told = format!(in rt.alloc();
        "{}; {}; {}; {}; {}",
        bad(1, ClientsKind::BadLine),
        bad(2, ClientsKind::BadLine),
        bad(1, ClientsKind::BadNumber),
        bad(2, ClientsKind::BadNumber),
        bad(1, ClientsKind::BadHex),
    )?;
    assert!(rt;
        told.as_str()
            == "line 1: bad line; line 2: bad line; line 1: bad number; line 2: bad number; \
                line 1: bad hex"
    );
    Ok(())
}

/// The answers to the clients of a list, one after the other: `h` for a hostile one, else the two
/// outputs and the code.
fn answers<R: Threads + Wait + AllocGlobal + Sync>(
    rt: &R,
    name: &[u8],
    list: &[u8],
) -> Option<Vec<u8>>
    requires { (input : List ℕ) → IsSome (service_of name.now input) }
{
    let clients = parse_clients(rt.alloc(), list).ok()?;
    let orders = check_orders(10, 11).ok()?;
    let dones = serve_clients(rt, rt.alloc(), name, orders, 4_294_967_290, clients).ok()?;
    let mut text = Vec::new(rt.alloc());
    for done in &dones {
        push_answer(&mut text, &done.result)?;
    }
    Some(text)
}

/// Appends the answer to a client.
fn push_answer(text: &mut Vec<u8>, answer: &EpochResult) -> Option<()> {
    match answer {
        EpochResult::Hostile => text.push(b'h').ok(),
        EpochResult::Answered {
            code,
            stdout,
            stderr,
        } => {
            text.extend_from_slice(stdout.slice()).ok()?;
            text.push(b'|').ok()?;
            text.extend_from_slice(stderr.slice()).ok()?;
            text.push(if *code == 0 { b'.' } else { b'!' }).ok()
        }
    }
}

#[test]
fn clients_are_served(rt: HostRuntime) {
    let list =
        b"hostile 7 65536\ncall 6162\nhostile 65535 65536\ncall 616263\nhostile 1 1\ncall -\n";
    let text = answers(&rt, b"split", list);
    assert!(rt; text.is_some_and(|text| text.as_slice() == b"ha|b.hac|b.h|.".as_slice()));
}
