//! Lines, words, numbers and byte strings of scripts.
use script_words::{
    ByteError, LineReader, NextLine, PushError, TooManyLines, WordsOfLine, bytes_of, first_line,
    is_number, parse_number, push_bytes_of,
};
use std::test::Fail;

/// Words and the bytes that they spell.
const SPELLED: [(&[u8], &[u8]); 6] = [
    (b"-", b""),
    (b"00", b"\x00"),
    (b"68656C6c6f", b"hello"),
    (b"fFaA09", b"\xff\xaa\x09"),
    (b"7a*1", b"z"),
    (b"FF*3", b"\xff\xff\xff"),
];

/// Words that aren't byte strings.
const REFUSED: [&[u8]; 12] = [
    b"",
    b"--",
    b"6",
    b"616",
    b"0g",
    b"g0",
    b"@0`0/0:0",
    b"61*0",
    b"61*01",
    b"61*",
    b"6*1",
    b"61*2097153",
];

#[test]
fn byte_strings_spell_their_bytes(rt: HostRuntime) -> Result<(), Fail> {
    for (word, bytes) in SPELLED {
        assert!(rt; bytes_of(rt.alloc(), word)?.as_slice() == bytes);
    }
    for word in REFUSED {
        assert!(rt; bytes_of(rt.alloc(), word).err() == Some(ByteError::BadHex));
    }
    assert!(rt; bytes_of(rt.alloc(), b"5a*2097152")?.len() == 2_097_152);
    Ok(())
}

// A call in a function of its own: what its contract says stays out of the test.
fn push(bytes: &mut Vec<u8>, word: &[u8]) -> Result<(), PushError> {
    push_bytes_of(bytes, word, 2)
}

#[test]
fn bytes_stand_behind_those_before(rt: HostRuntime) -> Result<(), Fail> {
    let mut bytes = Vec::from_slice(rt.alloc(), b"a")?;
    push(&mut bytes, b"6263")?;
    assert!(rt; push(&mut bytes, b"646x") == Err(PushError::BadHex));
    assert!(rt; push(&mut bytes, b"64*3") == Err(PushError::TooManyBytes));
    assert!(rt; push(&mut bytes, b"646566") == Err(PushError::TooManyBytes));
    assert!(rt; push(&mut bytes, b"64656x") == Err(PushError::BadHex));
    push(&mut bytes, b"64*2")?;
    assert!(rt; bytes.as_slice() == b"abcdd".as_slice());
    Ok(())
}

#[test]
fn lines_words_and_numbers_are_read(rt: HostRuntime) {
    let mut reader = LineReader::of(b"\n# rings\nhead\n");
    assert!(rt;
        reader.next()
            == Ok(NextLine::Line {
                number: 3,
                text: b"head"
            })
    );
    assert!(rt; reader.next() == Ok(NextLine::End { number: 4 }));
    let (line, rest) = first_line(b"step 7\nlast").expect(&rt, "a line");
    assert!(rt; line == b"step 7".as_slice());
    assert!(rt; first_line(rest).is_some_and(|found| found.0 == b"last".as_slice()));
    let mut words = WordsOfLine::of(line);
    assert!(rt; words.next().is_some_and(|word| word == b"step".as_slice()));
    assert!(rt; words.only().is_some_and(|word| word == b"7".as_slice()));
    let words = WordsOfLine::of(b"read 7");
    assert!(rt; words.behind(b"rea").is_none());
    let rest = words.behind(b"read").expect(&rt, "a word behind");
    assert!(rt; rest.only().is_some_and(|word| word == b"7".as_slice()));
    let numbers: [(&[u8], u64, Option<u64>); 5] = [
        (b"0", 0, Some(0)),
        (b"18446744073709551615", u64::MAX, Some(u64::MAX)),
        (b"18446744073709551616", u64::MAX, None),
        (b"65536", 65_535, None),
        (b"00", 9, None),
    ];
    for (word, most, number) in numbers {
        assert!(rt; parse_number(word, most) == number);
        assert!(rt; is_number(word) == (word != b"00".as_slice()));
    }
}

#[test]
fn errors_are_told_in_words(rt: HostRuntime) -> Result<(), Fail> {
    let told = format!(in rt.alloc();
        "{}; {}; {}; {}; {}; {}",
        ByteError::BadHex,
        ByteError::Memory,
        PushError::BadHex,
        PushError::TooManyBytes,
        PushError::Memory,
        TooManyLines { line: 65_537 },
    )?;
    assert!(rt;
        told.as_str()
            == "bad hex; out of memory; bad hex; too many bytes; out of memory; line 65537: too many lines"
    );
    Ok(())
}
