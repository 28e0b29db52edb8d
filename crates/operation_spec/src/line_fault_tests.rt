use crate::tests::{fault, form, limit, name_twice, name_unknown, shape, syntax};

#[test]
fn names_and_dimensions_are_refused(rt: HostRuntime) {
    let cases = [
        ("", syntax(1)),
        ("operation 3\n", syntax(1)),
        ("operation lu", syntax(1)),
        ("operation a\ndims\n", syntax(2)),
        ("operation a\ndims m 3 m\n", syntax(2)),
        ("operation a\ndims a b c d e f a\n", limit(2)),
        ("operation a\ndims m n m\n", name_twice(2)),
        ("operation a234567890123456789012345678901234\n", syntax(1)),
    ];
    for (text, due) in cases {
        assert_eq!(rt; fault(rt.alloc(), text.as_bytes()), Some(due), "{text}");
    }
}

#[test]
fn work_operands_are_refused(rt: HostRuntime) {
    let cases = [
        ("operation a\ndims m\n\nwork X triangle m k\n", syntax(4)),
        ("operation a\ndims m n\nwork X lower m k\n", name_twice(3)),
        (
            "operation a\ndims m n\nwork W unitlower m k\n",
            name_unknown(3),
        ),
        ("operation a\ndims m n\nwork W diagonal m n\n", shape(3)),
        ("operation a\ndims m n\nwork W symmetric m m\n", form(3)),
        ("operation a\ndims m n\nwork W unitupper n n\n", form(3)),
        ("operation a\ndims m n\nwork W general m n", syntax(3)),
        ("operation a\ndims m n\nwork W general m n\n", syntax(4)),
    ];
    for (text, due) in cases {
        assert_eq!(rt; fault(rt.alloc(), text.as_bytes()), Some(due), "{text}");
    }
}

#[test]
fn known_operands_are_refused(rt: HostRuntime) {
    let cases = [
        (
            "operation a\ndims m n\nwork W lower m m\nknown W upper m k\n",
            name_twice(4),
        ),
        (
            "operation a\ndims m n\nwork W lower m m\nknown X upper m n\n",
            name_twice(4),
        ),
        (
            "operation a\ndims m n\nwork W lower m m\nknown T upper k n\n",
            name_unknown(4),
        ),
        (
            "operation a\ndims m n\nwork W lower m m\nknown T upper m n\n",
            shape(4),
        ),
        (
            "operation a\ndims m\nwork W lower m m\nknown A general m m\nknown A\n",
            syntax(5),
        ),
    ];
    for (text, due) in cases {
        assert_eq!(rt; fault(rt.alloc(), text.as_bytes()), Some(due), "{text}");
    }
}

#[test]
fn seventh_known_operands_are_refused(rt: HostRuntime) {
    let cases = [
        (
            "operation a\ndims m n\nwork W general m n\nknown A general m n\nknown B general m n\nknown C general m n\nknown D general m n\nknown E general m n\nknown F general m n\nknown A general k k\n",
            limit(10),
        ),
        (
            "operation a\ndims m n\nwork W general m n\nknown A general m n\nknown B general m n\nknown C general m n\nknown D general m n\nknown E general m n\nknown F general m n\nknown A general k 2\n",
            syntax(10),
        ),
    ];
    for (text, due) in cases {
        assert_eq!(rt; fault(rt.alloc(), text.as_bytes()), Some(due), "{text}");
    }
}

#[test]
fn last_lines_are_refused(rt: HostRuntime) {
    let cases = [
        ("operation a\ndims m\nwork W lower m m\ndims m\n", syntax(4)),
        (
            "operation a\ndims m\nwork W lower m m\nequation ldl X = W\nend 3\n",
            syntax(5),
        ),
        (
            "operation a\ndims m\nwork W lower m m\nequation ldl X = W\nend end",
            syntax(5),
        ),
        (
            "operation a\ndims m\nwork W lower m m\nequation ldl X = W\n\n",
            syntax(6),
        ),
        (
            "operation a\ndims m\nwork W lower m m\nequation ldl X = W",
            syntax(4),
        ),
    ];
    for (text, due) in cases {
        assert_eq!(rt; fault(rt.alloc(), text.as_bytes()), Some(due), "{text}");
    }
}
