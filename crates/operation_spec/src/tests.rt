use super::*;
use std::alloc::{AllocError, Global};
use std::test::Fail;
use text_scan::scan;

// ---- faults

pub fn syntax(line: u32) -> SpecFault {
    SpecFault::Syntax { line }
}

pub fn limit(line: u32) -> SpecFault {
    SpecFault::Limit { line }
}

pub fn name_twice(line: u32) -> SpecFault {
    SpecFault::NameTwice { line }
}

pub fn name_unknown(line: u32) -> SpecFault {
    SpecFault::NameUnknown { line }
}

pub fn too_many_terms(line: u32) -> SpecFault {
    SpecFault::TooManyTerms { line }
}

pub fn shape(line: u32) -> SpecFault {
    SpecFault::Shape { line }
}

pub fn form(line: u32) -> SpecFault {
    SpecFault::Form { line }
}

// ---- reading

/// A text of three parts.
pub fn joined(alloc: Global, front: &str, middle: &str, back: &str) -> Result<Vec<u8>, AllocError> {
    let mut text = Vec::new(alloc);
    text.extend_from_slice(front.as_bytes())?;
    text.extend_from_slice(middle.as_bytes())?;
    text.extend_from_slice(back.as_bytes())?;
    Ok(text)
}

/// The operation that a text begins with, and whether it is all of the text.
fn read(alloc: Global, text: &[u8]) -> Result<(Operation, bool), SpecFault> {
    if text.len() > 1000 {
        return Err(SpecFault::Memory);
    }
    match scan(alloc, text, 1) {
        Ok(tokens) => match read_operation(alloc, text, &tokens, 0) {
            Ok((op, at)) => Ok((op, at == tokens.len())),
            Err(fault) => Err(fault),
        },
        Err(_) => Err(SpecFault::Memory),
    }
}

/// The fault of a text that begins with an operation block.
pub fn fault(alloc: Global, text: &[u8]) -> Option<SpecFault> {
    read(alloc, text).err()
}

/// Whether the text is the block of an operation with so many dimensions, known operands and terms, and with
/// this form.
fn is_block(alloc: Global, text: &[u8], want: (usize, usize, usize, Form)) -> bool {
    match read(alloc, text) {
        Ok((op, is_all)) => {
            is_all
                && (op.dims.len(), op.knowns.len(), op.terms.len()) == (want.0, want.1, want.2)
                && op.form == want.3
        }
        Err(_) => false,
    }
}

fn factor(known: u32, primed: bool) -> Factor {
    Factor { known, primed }
}

#[test]
fn assignments_and_factorisations_are_read(rt: HostRuntime) {
    let cases = [
        (
            "operation mul\ndims m n k\nwork W general m n\nknown A general m k\nknown B general k n\nequation X = W + A * B\nend\n",
            (3, 2, 1, Form::Assign),
        ),
        (
            "operation lu\ndims n\nwork W general n n\nequation lu X = W\nend\n",
            (1, 0, 0, Form::Lu),
        ),
        (
            "operation ldl\ndims n\nwork W lower n n\nequation ldl X = W\nend\n",
            (1, 0, 0, Form::Ldl),
        ),
        (
            "operation sqr\ndims n k\nwork W lower n n\nknown A general n k\nequation X = W + A * A'\nend\n",
            (2, 1, 1, Form::Assign),
        ),
        (
            "operation prod\ndims n\nwork W general n n\nknown L unitlower n n\nknown U upper n n\nequation X = W + L * U\nend",
            (1, 2, 1, Form::Assign),
        ),
    ];
    for (text, want) in cases {
        assert!(rt; is_block(rt.alloc(), text.as_bytes(), want), "{text}");
    }
}

#[test]
fn equations_with_factors_are_read(rt: HostRuntime) {
    let t = factor(0, false);
    let u = factor(1, false);
    let both = Form::Sylvester { t, u, minus: false };
    let cases = [
        (
            "operation low\ndims n m\nwork W general n m\nknown T lower n n\nequation T * X = W\nend\n",
            (2, 1, 0, Form::Left { t }),
        ),
        (
            "operation ulow\ndims n m\nwork W general n m\nknown T unitlower n n\nequation T * X = W\nend\n",
            (2, 1, 0, Form::Left { t }),
        ),
        (
            "operation upp\ndims n m\nwork W general n m\nknown T upper n n\nequation T * X = W\nend\n",
            (2, 1, 0, Form::Left { t }),
        ),
        (
            "operation inv\ndims n\nwork W lower n n\nknown T lower n n\nequation T * X = W\nend\n",
            (1, 1, 0, Form::Left { t }),
        ),
        (
            "operation syl\ndims m n\nwork W general m n\nknown T lower m m\nknown U upper n n\nequation T * X + X * U = W\nend\n",
            (2, 2, 0, both),
        ),
    ];
    for (text, want) in cases {
        assert!(rt; is_block(rt.alloc(), text.as_bytes(), want), "{text}");
    }
}

/// Whether the text has an equation of this form, with this first term.
fn is_equation(alloc: Global, text: &[u8], form: Form, first: Term) -> bool {
    match read(alloc, text) {
        Ok((op, _)) => match op.terms.get(0) {
            Some(term) => op.form == form && *term == first,
            None => false,
        },
        Err(_) => false,
    }
}

fn term(minus: bool, first: Factor, second: Factor) -> Term {
    Term {
        minus,
        first,
        second,
    }
}

/// Declarations of W, B, T and S, and the start of the equation's line.
const DECLARED: &str =
    "operation a\ndims m n\nwork W general m n\nknown B general n m\nknown T lower m m\nknown S upper n n\nequation ";

#[test]
fn signs_and_primes_are_kept(rt: HostRuntime) -> Result<(), Fail> {
    let t = factor(1, true);
    let u = factor(2, false);
    let cases = [
        (
            "T'*X-X*S=W-B'*S",
            Form::Sylvester { t, u, minus: true },
            term(true, factor(0, true), factor(2, false)),
        ),
        (
            "T' * X + X * S = W - B ' * S'",
            Form::Sylvester { t, u, minus: false },
            term(true, factor(0, true), factor(2, true)),
        ),
        (
            "T' * X = W + B' * S + T * B' # and no more",
            Form::Left { t },
            term(false, factor(0, true), factor(2, false)),
        ),
        (
            "X * S = W - T' * B'",
            Form::Right { t: u },
            term(true, factor(1, true), factor(0, true)),
        ),
    ];
    for (words, form, first) in cases {
        let text = joined(rt.alloc(), DECLARED, words, "\nend\n")?;
        assert!(rt; is_equation(rt.alloc(), &text, form, first), "{words}");
    }
    Ok(())
}
