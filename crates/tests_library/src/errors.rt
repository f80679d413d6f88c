//! The texts of errors, which no contract has.
use std::test::Fail;
use step_script::{ScriptError, ScriptKind};
use stream_text::{DecodeError, DecodeKind};

#[test]
fn errors_of_scripts_are_told_in_words(rt: HostRuntime) -> Result<(), Fail> {
    let told = format!(in rt.alloc();
        "{}; {}; {}; {}; {}; {}; {}; {}",
        ScriptKind::BadHeader,
        ScriptKind::BadLine,
        ScriptKind::BadNumber,
        ScriptKind::BadHex,
        ScriptKind::BadOrders,
        ScriptKind::TooManyLines,
        ScriptKind::TooManyBytes,
        ScriptError::Memory,
    )?;
    assert!(rt;
        told.as_str()
            == "bad header; bad line; bad number; bad hex; bad orders; too many lines; too many bytes; \
         out of memory"
    );
    let bad = ScriptError::Bad {
        line: 7,
        kind: ScriptKind::BadHex,
    };
    assert!(rt; format!(in rt.alloc(); "{bad}")?.as_str() == "line 7: bad hex");
    Ok(())
}

#[test]
fn errors_of_streams_are_told_in_words(rt: HostRuntime) -> Result<(), Fail> {
    let bad = DecodeError::Bad {
        line: 7,
        kind: DecodeKind::BadHex,
    };
    let told = format!(in rt.alloc(); "{bad}; {}", DecodeError::Memory)?;
    assert!(rt; told.as_str() == "line 7 is bad; out of memory");
    Ok(())
}
