ghost use Rattle.std.specs.Prelude.{◌≡◌, ◌+◌, ◌<◌, ◌≤◌, List, Result, length, drop, OnOk, IfErr};
ghost use Rattle.std.specs.List.{prefix_len};
ghost use Rattle.std.specs.Char.{is_ascii_digit};
ghost use Rattle.byte_texts.specs.Reading.{EndsWith, Gives};
ghost use Rattle.text_scan.specs.declared.token.Token.{Token};
ghost use Rattle.text_scan.specs.Tokens.{BadByte, front_of, behind, is_name_byte, is_comment_byte, line_behind, tokens_of, bad_byte, with_found, with_front};

use crate::token::{Front, ScanFault, Token, TokenKind};
use std::alloc::Global;

#[tactic(auto, unfolding(crate::specs::Tokens::front_of))]
fn front(b: u8) -> Front
    ensures { result ≡ front_of b }
{
    match b {
        b' ' | b'\t' | b'\r' | b'\n' => Front::Blank,
        b'#' => Front::Comment,
        b'A'..=b'Z' | b'a'..=b'z' => Front::Token(TokenKind::Name),
        b'0'..=b'9' => Front::Token(TokenKind::Number),
        b'(' | b')' | b',' | b':' | b'=' | b'+' | b'-' | b'*' | b'\'' => {
            Front::Token(TokenKind::Sign)
        }
        _ => Front::Bad,
    }
}

fn name_len(bytes: &[u8]) -> usize
    ensures value { result ≡ prefix_len is_name_byte bytes.now }
    ensures within { result ≤ length bytes.now }
{
    bytes
        .iter()
        .take_while(|b| b.is_ascii_alphabetic() || b.is_ascii_digit() || **b == b'_')
        .count()
}

fn number_len(bytes: &[u8]) -> usize
    ensures value { result ≡ prefix_len is_ascii_digit bytes.now }
    ensures within { result ≤ length bytes.now }
{
    bytes.iter().take_while(|b| b.is_ascii_digit()).count()
}

fn comment_len(bytes: &[u8]) -> usize
    ensures value { result ≡ prefix_len is_comment_byte bytes.now }
    ensures within { result ≤ length bytes.now }
{
    bytes.iter().take_while(|b| **b != b'\n').count()
}

/// How many bytes belong to what begins with the first of them.
fn piece_len(front: Front, bytes: &[u8]) -> usize
    requires { 0 < length bytes.now }
    ensures value { result ≡ behind front (drop 1 bytes.now) + 1 }
    ensures within { result ≤ length bytes.now }
{
    let rest = &bytes[1..];
    1 + match front {
        Front::Comment => comment_len(rest),
        Front::Token(TokenKind::Name) => name_len(rest),
        Front::Token(TokenKind::Number) => number_len(rest),
        Front::Token(TokenKind::Sign) | Front::Blank | Front::Bad => 0,
    }
}

/// Keeps the token, if one begins at the place.
fn keep(front: Front, at: u32, len: u32, line: u32, found: &mut Vec<Token>) -> Result<(), ScanFault>
    ensures ok { OnOk result ((rest : Result (List Token) BadByte)
        → with_found found.old.items (with_front front at len line rest)
        ≡ with_found found.new.items rest) }
    ensures err { IfErr result (λ e. (rest : Result (List Token) BadByte)
        → EndsWith (bad_byte e) (with_found found.old.items (with_front front at len line rest))) }
{
    match front {
        Front::Bad => Err(ScanFault::BadByte { at, line }),
        Front::Blank | Front::Comment => Ok(()),
        Front::Token(kind) => {
            found.push(Token {
                kind,
                start: at,
                len,
                line,
            })?;
            Ok(())
        }
    }
}

fn next_line(b: u8, line: u32) -> u32
    requires { line < 1000000000 }
    ensures value { result ≡ line_behind b line }
    ensures low { result ≤ line + 1 }
{
    if b == b'\n' { line + 1 } else { line }
}

/// The tokens of the bytes, in order, where `first_line` is the number of the first byte's line. Its
/// errors are want of memory, and the first byte outside comments that is in no token and no blank.
pub fn scan(alloc: Global, bytes: &[u8], first_line: u32) -> Result<Vec<Token>, ScanFault>
    requires short { length bytes.now ≤ 67108865 }
    requires low { first_line ≤ 67108865 }
    ensures { Gives bad_byte (λ tokens. tokens.items) result (tokens_of first_line bytes.now) }
{
    let mut found = Vec::new(alloc);
    let mut at = 0;
    let mut line = first_line;
    while at < bytes.len() {
        let first = bytes[at];
        let front = front(first);
        let len = piece_len(front, &bytes[at..]);
        keep(front, at as u32, len as u32, line, &mut found)?;
        line = next_line(first, line);
        at += len;
    }
    Ok(found)
}
