use crate::tests::{fault, form, joined, name_unknown, shape, syntax, too_many_terms};
use std::test::Fail;

/// Declarations of W, A, B, T and S, and the start of the equation's line.
const DECLARED: &str =
    "operation a\ndims m n\nwork W general m n\nknown A general m m\nknown B general m n\nknown T lower m m\nknown S symmetric n n\nequation ";

#[test]
fn words_of_no_equation_are_refused(rt: HostRuntime) -> Result<(), Fail> {
    let cases = [
        ("X", syntax(8)),
        ("X' = W", syntax(8)),
        ("X = 3", syntax(8)),
        ("X = + A * B", syntax(8)),
        ("X = W'", syntax(8)),
        ("X = W + A * B C", syntax(8)),
        ("X = W + A * V + B", syntax(8)),
        ("X = W = A * B", syntax(8)),
        ("X' * T = W", syntax(8)),
        ("T * X' = W", syntax(8)),
        ("lu W = W", syntax(8)),
        ("T * B = W", syntax(8)),
        ("T * X + S * X = W", syntax(8)),
    ];
    for (words, due) in cases {
        let text = joined(rt.alloc(), DECLARED, words, "\nend\n")?;
        assert_eq!(rt; fault(rt.alloc(), &text), Some(due), "{words}");
    }
    Ok(())
}

#[test]
fn unknown_names_and_third_terms_are_refused(rt: HostRuntime) -> Result<(), Fail> {
    let cases = [
        ("X * X = W", name_unknown(8)),
        ("X * X' = W", name_unknown(8)),
        ("X = V", name_unknown(8)),
        ("X = W + A * B - A * B + A * X", name_unknown(8)),
        ("X = W + A * B - A * V", name_unknown(8)),
        ("T * X + X * V = W", name_unknown(8)),
        ("X = W + A * B + A * B - A * B", too_many_terms(8)),
        ("X = A + B * A + B * A + B * A", too_many_terms(8)),
    ];
    for (words, due) in cases {
        let text = joined(rt.alloc(), DECLARED, words, "\nend\n")?;
        assert_eq!(rt; fault(rt.alloc(), &text), Some(due), "{words}");
    }
    Ok(())
}

#[test]
fn sizes_that_differ_are_refused(rt: HostRuntime) -> Result<(), Fail> {
    let cases = [
        ("X = W + B * A", shape(8)),
        ("X = W + A * B'", shape(8)),
        ("X = A", shape(8)),
        ("X * T = W", shape(8)),
        ("S * X = W", shape(8)),
    ];
    for (words, due) in cases {
        let text = joined(rt.alloc(), DECLARED, words, "\nend\n")?;
        assert_eq!(rt; fault(rt.alloc(), &text), Some(due), "{words}");
    }
    Ok(())
}

#[test]
fn equations_of_no_form_are_refused(rt: HostRuntime) -> Result<(), Fail> {
    let cases = [
        ("X = B", form(8)),
        ("X = W", form(8)),
        ("A * X = W + T * B", form(8)),
        ("T * X + X * S = W + A * B", form(8)),
        ("T * X = W + A * B", form(8)),
        ("lu X = W + A * B + T * B", form(8)),
    ];
    for (words, due) in cases {
        let text = joined(rt.alloc(), DECLARED, words, "\nend\n")?;
        assert_eq!(rt; fault(rt.alloc(), &text), Some(due), "{words}");
    }
    Ok(())
}

#[test]
fn forms_have_conditions(rt: HostRuntime) {
    let cases = [
        (
            "operation a\ndims m\nwork W lower m m\nequation lu X = W\nend\n",
            form(4),
        ),
        (
            "operation a\ndims m\nwork W general m m\nequation ldl X = W\nend\n",
            form(4),
        ),
        (
            "operation a\ndims m n\nwork W general m n\nequation lu X = W\nend\n",
            form(4),
        ),
        (
            "operation a\ndims m\nwork W lower m m\nknown T lower m m\nknown U upper m m\nequation T * X - X * U = W\nend\n",
            form(6),
        ),
        (
            "operation a\ndims m n\nwork W general m m\nequation lu X = W\nend\n",
            form(4),
        ),
        (
            "operation a\ndims m\nwork W general m m\nknown T lower m m\nequation T * X = W + T * W\nend\n",
            form(5),
        ),
        (
            "operation a\ndims m\nwork W general m m\nknown T symmetric m m\nequation X * T = W\nend\n",
            form(5),
        ),
    ];
    for (text, due) in cases {
        assert_eq!(rt; fault(rt.alloc(), text.as_bytes()), Some(due), "{text}");
    }
}
