//! What the program answers, on streams in memory.

use flame_top::top;
use outside_io::{Gate, MemSink, MemSource};
use std::alloc::{AllocError, Global};
use std::sync::Wait;
use std::thread::Threads;

/// What a run answers.
#[derive(Drop)]
pub struct Answer {
    status: u8,
    text: Vec<u8>,
}

impl Answer {
    /// Whether it is this status with this text.
    pub fn says(&self, status: u8, text: &str) -> bool {
        self.status == status && self.text.as_slice() == text.as_bytes()
    }

    /// Whether it is this status with a text that begins so.
    pub fn begins(&self, status: u8, text: &str) -> bool {
        self.status == status && self.text.starts_with(text.as_bytes())
    }

    /// Whether the text has one line, and another one somewhere behind it.
    pub fn has_in_order(&self, one: &str, other: &str) -> bool {
        match from(self.text.as_slice(), one.as_bytes()) {
            Some(rest) => from(rest, other.as_bytes()).is_some(),
            None => false,
        }
    }
}

/// The text from where some bytes stand in it first.
fn from<'a>(text: &'a [u8], bytes: &[u8]) -> Option<&'a [u8]> {
    let mut rest = text;
    for _ in 0..text.len() {
        if rest.starts_with(bytes) {
            return Some(rest);
        }
        match rest.split_first() {
            Some((_, next)) => rest = next,
            None => return None,
        }
    }
    None
}

/// Which calls of the streams fail, by their numbers from 1.
#[derive(Clone, Copy)]
pub struct Faults {
    pub source: &'static [u32],
    pub sink: &'static [u32],
}

/// No call fails.
pub const NO_FAULTS: Faults = Faults {
    source: &[],
    sink: &[],
};

fn words_of(alloc: Global, words: &[&str]) -> Result<Vec<String>, AllocError> {
    let mut all = Vec::new(alloc);
    for word in words {
        all.push(String::from_str(alloc, word)?)?;
    }
    Ok(all)
}

fn joined(alloc: Global, parts: &[&str]) -> Result<Vec<u8>, AllocError> {
    let mut all = Vec::new(alloc);
    for part in parts {
        all.extend_from_slice(part.as_bytes())?;
    }
    Ok(all)
}

/// A source that gives 16 bytes a call.
fn source_of(alloc: Global, input: Vec<u8>, fails: &[u32]) -> Result<MemSource, AllocError> {
    let fails = Vec::from_slice(alloc, fails)?;
    Ok(MemSource::new(input, 16, fails))
}

/// A sink that takes 8 bytes a call.
fn sink_of(alloc: Global, fails: &[u32]) -> Result<MemSink, AllocError> {
    let fails = Vec::from_slice(alloc, fails)?;
    MemSink::new(alloc, 6000, 8, fails)
}

/// The status of a run, and nothing of what else `top` promises, which no test looks at.
fn status_of<R: Threads + Wait + Sync, G: Gate>(
    rt: &R,
    alloc: Global,
    words: &Vec<String>,
    source: &mut MemSource,
    sink: &mut MemSink,
    gate: &G,
) -> u8 {
    top(rt, alloc, words, source, sink, gate)
}

/// What is answered to words, with the bytes of an input.
pub fn answered_to<R: Threads + Wait + Sync, G: Gate>(
    rt: &R,
    alloc: Global,
    words: &[&str],
    input: Vec<u8>,
    faults: Faults,
    gate: &G,
) -> Result<Answer, AllocError> {
    let mut source = source_of(alloc, input, faults.source)?;
    let mut sink = sink_of(alloc, faults.sink)?;
    let words = words_of(alloc, words)?;
    let status = status_of(rt, alloc, &words, &mut source, &mut sink, gate);
    let text = Vec::from_slice(alloc, sink.bytes())?;
    Ok(Answer { status, text })
}

/// What is answered to words, with an input in parts.
pub fn answered<R: Threads + Wait + Sync, G: Gate>(
    rt: &R,
    alloc: Global,
    words: &[&str],
    parts: &[&str],
    faults: Faults,
    gate: &G,
) -> Result<Answer, AllocError> {
    answered_to(rt, alloc, words, joined(alloc, parts)?, faults, gate)
}
