ghost use Rattle.std.specs.Prelude.{◌≤◌, length};

use super::*;
use crate::laws::scanned_texts_have_tokens;
use std::alloc::Global;
use std::test::Fail;

fn token(kind: TokenKind, start: u32, len: u32, line: u32) -> Token {
    Token {
        kind,
        start,
        len,
        line,
    }
}

fn name(start: u32, len: u32, line: u32) -> Token {
    token(TokenKind::Name, start, len, line)
}

fn digits(start: u32, len: u32, line: u32) -> Token {
    token(TokenKind::Number, start, len, line)
}

fn sign(start: u32, line: u32) -> Token {
    token(TokenKind::Sign, start, 1, line)
}

// Whether a short text has these tokens, or this fault.
fn is_scan(alloc: Global, text: &[u8], first_line: u32, want: Result<&[Token], ScanFault>) -> bool
    requires short { length text.now ≤ 100 }
    requires low { first_line ≤ 100 }
{
    match (scan(alloc, text, first_line), want) {
        (Ok(tokens), Ok(want)) => tokens.as_slice() == want,
        (Err(fault), Err(want)) => fault == want,
        _ => false,
    }
}

#[test]
fn tokens_and_bad_bytes(rt: HostRuntime) {
    let cases: [(&[u8], u32, Result<&[Token], ScanFault>); 10] = [
        (b"", 1, Ok(&[])),
        (
            b"do x_1 10\n",
            1,
            Ok(&[name(0, 2, 1), name(3, 3, 1), digits(7, 2, 1)]),
        ),
        (b"A'B", 1, Ok(&[name(0, 1, 1), sign(1, 1), name(2, 1, 1)])),
        (
            b"12a_ 0",
            1,
            Ok(&[digits(0, 2, 1), name(2, 2, 1), digits(5, 1, 1)]),
        ),
        (
            b"(),:=",
            1,
            Ok(&[sign(0, 1), sign(1, 1), sign(2, 1), sign(3, 1), sign(4, 1)]),
        ),
        (
            b"+-*'",
            1,
            Ok(&[sign(0, 1), sign(1, 1), sign(2, 1), sign(3, 1)]),
        ),
        (
            b"# a @\n\n\tx\r\n y#z",
            5,
            Ok(&[name(8, 1, 7), name(12, 1, 8)]),
        ),
        (b"x @ $", 1, Err(ScanFault::BadByte { at: 2, line: 1 })),
        (b"#@\n\n  _a", 3, Err(ScanFault::BadByte { at: 6, line: 5 })),
        (b"a\x0bb", 1, Err(ScanFault::BadByte { at: 1, line: 1 })),
    ];
    for (text, first_line, want) in cases {
        assert!(rt; text.len() <= 100 && first_line <= 100);
        assert!(rt; is_scan(rt.alloc(), text, first_line, want), "{:?}", text);
    }
}

// The number that a short text begins with.
fn number_in(alloc: Global, text: &[u8]) -> Option<u64>
    requires { length text.now ≤ 100 }
{
    scanned_texts_have_tokens();
    match scan(alloc, text, 1) {
        Ok(tokens) => match tokens.first() {
            Some(token) if token.kind == TokenKind::Number => number(text, *token),
            _ => None,
        },
        Err(_) => None,
    }
}

#[test]
fn numbers_below_the_limit(rt: HostRuntime) {
    let cases: [(&[u8], Option<u64>); 6] = [
        (b"0", Some(0)),
        (b"00", None),
        (b"07", None),
        (b" 70 x", Some(70)),
        (b"18446744073709551615", Some(u64::MAX)),
        (b"18446744073709551616", None),
    ];
    for (text, want) in cases {
        assert!(rt; text.len() <= 100);
        assert_eq!(rt; number_in(rt.alloc(), text), want);
    }
}

// The number of the line that is due, and how many words it has and leaves, where another is due behind it
// or not; or where the text ends.
fn line_in(alloc: Global, text: &[u8], inner: bool) -> Result<(u32, usize, usize), u32>
    requires { length text.now ≤ 100 }
{
    scanned_texts_have_tokens();
    match scan(alloc, text, 1) {
        Ok(tokens) => {
            let mut lines = Lines::new(1, text, tokens.as_slice());
            let line = if inner { lines.inner() } else { lines.due() };
            match line {
                Ok(line) => Ok((line.number(), line.len(), lines.word_count())),
                Err(end) => Err(end.line),
            }
        }
        Err(_) => Err(0),
    }
}

#[test]
fn lines_and_ends(rt: HostRuntime) {
    let cases: [(&[u8], bool, Result<(u32, usize, usize), u32>); 7] = [
        (b"#\na b\n\nc", true, Ok((2, 2, 1))),
        (b"a b\n", true, Ok((1, 2, 0))),
        (b"\na b", false, Ok((2, 2, 0))),
        (b"\na b", true, Err(2)),
        (b"\n\n#", false, Err(3)),
        (b"\n \n", true, Err(3)),
        (b"", true, Err(1)),
    ];
    for (text, inner, want) in cases {
        assert!(rt; text.len() <= 100);
        assert_eq!(rt; line_in(rt.alloc(), text, inner), want);
    }
}

// The names that the words of a short text's first line are, from a place on.
fn names_in(alloc: Global, text: &[u8], at: usize) -> Result<NameList, Fail>
    requires { length text.now ≤ 100 }
{
    scanned_texts_have_tokens();
    let Ok(tokens) = scan(alloc, text, 1) else {
        return Ok(NameList::new(alloc));
    };
    let mut lines = Lines::new(1, text, tokens.as_slice());
    match lines.next_with(b"dims") {
        Some(line) => Ok(line.behind(at).names(alloc)?),
        None => Ok(NameList::new(alloc)),
    }
}

#[test]
fn words_of_lines(rt: HostRuntime) -> Result<(), Fail> {
    let names = names_in(rt.alloc(), b"# c\ndims m 12 n'\nend\n", 2)?;
    assert_eq!(rt; names.len(), 3);
    assert_eq!(rt; number_of(names.as_slice(), b"n"), 1);
    assert!(rt; is_among(names.as_slice(), b"'") && !has_twice(names.as_slice()));
    let cases: [(&[u8], bool); 5] = [
        (b"A234567890123456789012345678901_", true),
        (b"A234567890123456789012345678901_3", false),
        (b"0", true),
        (b"00", false),
        (b"'", false),
    ];
    for (text, want) in cases {
        assert_eq!(rt; is_name(text) || is_number(text), want);
    }
    Ok(())
}
