//! Texts and their tokens or first faults, with the places counted by hand.
use crate::{LexFault, Span, lex};
use std::alloc::{AllocError, Global};
use std::test::Fail;

/// What a text gives, each token or fault by its kind and its place.
fn told(alloc: Global, text: &[u8]) -> Result<String, AllocError> {
    if text.len() > 1_048_576 {
        return String::from_str(alloc, "too long");
    }
    let mut line = String::new(alloc);
    match lex(alloc, text) {
        Ok(tokens) => {
            for token in tokens.items() {
                let Span { from, to } = token.span;
                line.push_str(&format!(in alloc; "{:?} {from}..{to};", token.kind)?)?;
            }
        }
        Err(LexFault::OpenString(span)) => {
            line = format!(in alloc; "OpenString {}..{}", span.from, span.to)?;
        }
        Err(LexFault::BadByte(span)) => {
            line = format!(in alloc; "BadByte {}..{}", span.from, span.to)?;
        }
        Err(LexFault::NoMemory) => line = String::from_str(alloc, "NoMemory")?,
    }
    Ok(line)
}

/// White space, separators, comments and the backslash at a line's end give no tokens.
#[test]
fn what_separates_gives_no_tokens(rt: HostRuntime) -> Result<(), Fail> {
    let alloc = rt.alloc();
    let cases: [(&[u8], &str); 16] = [
        (b"", ""),
        (b" \t\r\n,=", ""),
        (b"a=b,c", "Word 0..1;Word 2..3;Word 4..5;"),
        (b"a\r\nb\r\n", "Word 0..1;Word 3..4;"),
        (b"#", ""),
        (b"a #", "Word 0..1;"),
        (b"a#b'c\xff\x00\r\\d\ne", "Word 0..1;Word 11..12;"),
        (b"#\"\n\"#\"", "Quoted 3..6;"),
        (b"\\", ""),
        (b"a\\", "Word 0..1;"),
        (b"a\\\nb", "Word 0..1;Word 3..4;"),
        (b"a \\ \t\r\nb", "Word 0..1;Word 7..8;"),
        (b"a\\ \\\\\nb", "Word 0..1;Word 6..7;"),
        (b"a\\\r\n\\\r\n", "Word 0..1;"),
        (b"a \\ \t\r", "Word 0..1;"),
        (b"\\\n\\\n3", "Number 4..5;"),
    ];
    for (text, tokens) in cases {
        assert_eq!(rt; told(alloc, text)?.as_str(), tokens);
    }
    Ok(())
}

/// Words, numbers and strings, alone and one behind the other.
#[test]
fn words_numbers_and_strings_are_tokens(rt: HostRuntime) -> Result<(), Fail> {
    let alloc = rt.alloc();
    let cases: [(&[u8], &str); 15] = [
        (b"method 'abc'", "Word 0..6;Quoted 7..12;"),
        (b"-1 +x .5", "Number 0..2;Number 3..5;Number 6..8;"),
        (b"0 9 1e3", "Number 0..1;Number 2..3;Number 4..7;"),
        (b"- 4*0 *4", "Number 0..1;Number 2..5;Word 6..8;"),
        (b"/1 :1 x1", "Word 0..2;Word 3..5;Word 6..8;"),
        (b"!~", "Word 0..2;"),
        (b"a'b'c", "Word 0..1;Quoted 1..4;Word 4..5;"),
        (b"1\"2\"3", "Number 0..1;Quoted 1..4;Number 4..5;"),
        (b"''\"\"", "Quoted 0..2;Quoted 2..4;"),
        (b"'a''b'", "Quoted 0..3;Quoted 3..6;"),
        (b"'a\"b'", "Quoted 0..5;"),
        (b"\"it's\"", "Quoted 0..6;"),
        (b"'#a=,\\'", "Quoted 0..7;"),
        (b"' ~'", "Quoted 0..4;"),
        (b"a#'b\n'c'", "Word 0..1;Quoted 5..8;"),
    ];
    for (text, tokens) in cases {
        assert_eq!(rt; told(alloc, text)?.as_str(), tokens);
    }
    Ok(())
}

/// A string whose line or text ends before it does is told from its quote to that end.
#[test]
fn a_string_ends_in_its_line(rt: HostRuntime) -> Result<(), Fail> {
    let alloc = rt.alloc();
    let cases: [(&[u8], &str); 10] = [
        (b"method 'abc", "OpenString 7..11"),
        (b"variables descriptors 'a", "OpenString 22..24"),
        (b"'", "OpenString 0..1"),
        (b"a \"", "OpenString 2..3"),
        (b"a'b", "OpenString 1..3"),
        (b"'ab\nc'", "OpenString 0..3"),
        (b"a 'b\"\n'", "OpenString 2..5"),
        (b"'a''", "OpenString 3..4"),
        (b"'a\\\nb'", "OpenString 0..3"),
        (b"'a\nb\x00", "OpenString 0..2"),
    ];
    for (text, fault) in cases {
        assert_eq!(rt; told(alloc, text)?.as_str(), fault);
    }
    Ok(())
}

/// A byte that may not stand where it does is told alone, in a string before the string that isn't closed.
#[test]
fn a_bad_byte_is_told_alone(rt: HostRuntime) -> Result<(), Fail> {
    let alloc = rt.alloc();
    let cases: [(&[u8], &str); 23] = [
        (b"\x00a", "BadByte 0..1"),
        (b"a\x7fb", "BadByte 1..2"),
        (b"ab\x80", "BadByte 2..3"),
        (b"\xff", "BadByte 0..1"),
        (b"a \x0b", "BadByte 2..3"),
        (b"'\x01ab'", "BadByte 1..2"),
        (b"'a\tb'", "BadByte 2..3"),
        (b"'ab\xff'", "BadByte 3..4"),
        (b"\"a\x7f", "BadByte 2..3"),
        (b"'\x1fa\n", "BadByte 1..2"),
        (b"'ab\r\n", "BadByte 3..4"),
        (b"'a\xc3\xa4'", "BadByte 2..3"),
        (b"\\a", "BadByte 0..1"),
        (b"a\\b", "BadByte 1..2"),
        (b"method\\vector", "BadByte 6..7"),
        (b"a \\ b\n", "BadByte 2..3"),
        (b"a\\ #c\n", "BadByte 1..2"),
        (b"a\\,\n", "BadByte 1..2"),
        (b"a\\'b'", "BadByte 1..2"),
        (b"\\ \\ a", "BadByte 0..1"),
        (b"\\\n\\ a", "BadByte 2..3"),
        (b"a\\b 'c", "BadByte 1..2"),
        (b"'a' \x01'b", "BadByte 4..5"),
    ];
    for (text, fault) in cases {
        assert_eq!(rt; told(alloc, text)?.as_str(), fault);
    }
    Ok(())
}

/// Texts as long as may be, each of bytes of one sort.
#[test]
fn long_texts_are_cut(rt: HostRuntime) -> Result<(), Fail> {
    let alloc = rt.alloc();
    let cases = [
        (b'x', "Word 0..1048576;"),
        (b'7', "Number 0..1048576;"),
        (b'\\', ""),
        (b'#', ""),
        (b',', ""),
        (b'\x01', "BadByte 0..1"),
    ];
    for (byte, tokens) in cases {
        let text = vec![in alloc; byte; 1_048_576]?;
        assert_eq!(rt; told(alloc, &text)?.as_str(), tokens);
    }
    let mut text = vec![in alloc; b'\\'; 1_048_575]?;
    text.push(b'x')?;
    assert_eq!(rt; told(alloc, &text)?.as_str(), "BadByte 0..1");
    Ok(())
}
