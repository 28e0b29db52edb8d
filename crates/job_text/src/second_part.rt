//! The second part of an input: where it begins.

ghost use Rattle.std.specs.Prelude.{◌≡◌, ◌-◌, ◌<◌, ◌≤◌, length, ◌==◌, if◌then◌else◌};
ghost use Rattle.text_scan.specs.Lines.{end_line_of};
ghost use Rattle.job_text.specs.SecondParts.{from_word, rest_at};
ghost use Rattle.job_text.specs.SpelledJobs.{place_behind};

use text_scan::{Lines, Rest};

/// How many line feeds are left to pass, behind this byte.
fn feeds_behind(b: u8, left: u32) -> u32
    requires { 0 < left }
    ensures value { result ≡ (if b == 10 then left - 1 else left) }
{
    if b == b'\n' { left - 1 } else { left }
}

/// The place behind so many line feeds.
fn place_behind(feeds: u32, bytes: &[u8]) -> usize
    ensures value { result ≡ place_behind feeds bytes.now }
    ensures within { result ≤ length bytes.now }
{
    let mut left = feeds;
    let mut at = 0;
    while left > 0 && at < bytes.len() {
        left = feeds_behind(bytes[at], left);
        at += 1;
    }
    at
}

/// Where the first of the lines begins that begins with the word, or the end of the bytes. The lines are those of these
/// bytes.
pub fn place_from_word(bytes: &[u8], lines: &mut Lines<'_>, word: &[u8]) -> Rest
    requires short { length bytes.now ≤ 67108865 }
    requires end { lines.old.end ≡ end_line_of 1 bytes.now }
    ensures value { result ≡ rest_at bytes.now (from_word word.now lines.old.lines) }
    ensures within { result.at ≤ length bytes.now }
{
    while let Some(line) = lines.next() {
        if line.begins_with(word) {
            let number = line.number();
            return Rest {
                at: place_behind(number.saturating_sub(1), bytes) as u32,
                line: number,
            };
        }
    }
    Rest {
        at: bytes.len() as u32,
        line: lines.end(),
    }
}
