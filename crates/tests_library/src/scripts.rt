//! The way from a script's bytes to its text, by the calls that the program doesn't make.
use std::alloc::Global;
use std::test::Fail;
use step_script::{ScriptError, parse, play, text};

const SCRIPT: &[u8] = b"open 10 11\nclient write 6162\nserver begin read 4\nserver finish\n";

const TEXT: &[u8] = b"client wrote 2\nserver read 6162\nleft sent 2 got 2\nright sent 0 got 0\n";

/// Whether the script, read as a list of lines and played, has its text.
fn plays_as_it_should(alloc: Global) -> Result<bool, ScriptError> {
    let script = parse(alloc, SCRIPT)?;
    let played = play(alloc, &script)?;
    Ok(text(alloc, &played)?.as_slice() == TEXT)
}

#[test]
fn a_script_prints_its_text(rt: HostRuntime) -> Result<(), Fail> {
    assert!(rt; plays_as_it_should(rt.alloc())?);
    Ok(())
}
