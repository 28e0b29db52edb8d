use super::*;
use std::alloc::{AllocError, Global};
use std::test::Fail;
use text_scan::Rest;

/// A text whose one fault is that the work matrix of its last line is bound to known operands, too.
const BASE: [&str; 13] = [
    "flame 1",
    "modulus 7",
    "operation mul",
    "dims m n k",
    "work W general m n",
    "known A general m k",
    "known B general k n",
    "equation X = W + A * B",
    "end",
    "matrix P 1 1",
    "3",
    "end",
    "do mul P P P",
];

// ---- texts

fn put_line(line: &str, text: &mut Vec<u8>) -> Result<(), AllocError> {
    text.extend_from_slice(line.as_bytes())?;
    text.push(b'\n')?;
    Ok(())
}

/// The base text with another line of this number, or with lines in its place.
fn with_line(alloc: Global, number: usize, line: &str) -> Result<Vec<u8>, AllocError> {
    let mut text = Vec::new(alloc);
    for (i, old) in BASE.iter().enumerate() {
        put_line(if i + 1 == number { line } else { old }, &mut text)?;
    }
    Ok(text)
}

/// So many lines of the base text, and what stands behind them.
fn cut(alloc: Global, lines: usize, last: &str) -> Result<Vec<u8>, AllocError> {
    let mut text = Vec::new(alloc);
    for line in BASE.iter().take(lines) {
        put_line(line, &mut text)?;
    }
    text.extend_from_slice(last.as_bytes())?;
    Ok(text)
}

/// The fault of a text that is a job up to its end.
pub fn fault(alloc: Global, text: &[u8]) -> Option<JobFault> {
    rest(alloc, text, Stop::Nothing).err()
}

/// Where the second part of a text begins.
pub fn rest(alloc: Global, text: &[u8], stop: Stop) -> Result<Rest, JobFault> {
    if text.len() > 67_108_865 {
        return Err(JobFault::Memory);
    }
    match read_job(alloc, text, stop) {
        Ok((_, rest)) => Ok(rest),
        Err(fault) => Err(fault),
    }
}

// ---- faults

#[test]
fn texts_are_refused(rt: HostRuntime) -> Result<(), Fail> {
    let alloc = rt.alloc();
    let cases = [
        (13, "do mul P P P", JobFault::Alias { line: 13 }),
        (11, "7", JobFault::EntryRange { line: 11 }),
        (11, "03", JobFault::Syntax { line: 11 }),
        (
            8,
            "equation X = W + A * B + A * B + A * B",
            JobFault::TooManyTerms { line: 8 },
        ),
        (
            8,
            "equation X = W + A * C",
            JobFault::NameUnknown { line: 8 },
        ),
        (8, "equation X = W + B * A", JobFault::Shape { line: 8 }),
        (8, "equation X = W", JobFault::Form { line: 8 }),
        (13, "do mul P P", JobFault::Binding { line: 13 }),
        (13, "modulus 7", JobFault::TrailingText { line: 13 }),
        (10, "matrix P 1 1025", JobFault::TooLarge { line: 10 }),
        (4, "dims m n @ k", JobFault::BadByte { line: 4 }),
    ];
    for (number, line, due) in cases {
        let text = with_line(alloc, number, line)?;
        assert_eq!(rt; fault(alloc, &text), Some(due), "{line}");
    }
    Ok(())
}

/// So many lines of the base text and a last one, and the fault.
const LAST_LINES: [(usize, &str, Option<JobFault>); 24] = [
    (0, "", Some(JobFault::Header { line: 1 })),
    (0, "# flame 1\n\n", Some(JobFault::Header { line: 3 })),
    (0, "flame 2", Some(JobFault::Header { line: 1 })),
    (0, "flame 1", Some(JobFault::Syntax { line: 1 })),
    (1, "", Some(JobFault::Syntax { line: 2 })),
    (1, "modulus 1", Some(JobFault::Modulus { line: 2 })),
    (1, "modulus 7", None),
    (2, "operation 3", Some(JobFault::Syntax { line: 3 })),
    (3, "dims m m", Some(JobFault::Syntax { line: 4 })),
    (7, "equation X = W", Some(JobFault::Syntax { line: 8 })),
    (8, "", Some(JobFault::Syntax { line: 9 })),
    (8, "end", None),
    (9, "operation mul", Some(JobFault::Syntax { line: 10 })),
    (9, "matrix P 1 1025", Some(JobFault::Syntax { line: 10 })),
    (
        9,
        "matrix P 1 2\n3\n",
        Some(JobFault::RowLength { line: 11 }),
    ),
    (9, "matrix P 1 2\n3", Some(JobFault::Syntax { line: 11 })),
    (
        9,
        "matrix P 1 2\nend\n",
        Some(JobFault::RowLength { line: 11 }),
    ),
    (9, "matrix P 1 2\nend", Some(JobFault::Syntax { line: 11 })),
    (9, "matrix P 1 1\n3\nend", None),
    (9, "do mul P", Some(JobFault::NameUnknown { line: 10 })),
    (12, "do mul P P P", Some(JobFault::Alias { line: 13 })),
    (
        12,
        "print P\nprint P",
        Some(JobFault::NameTwice { line: 14 }),
    ),
    (12, "end", Some(JobFault::TrailingText { line: 13 })),
    (12, "print P", None),
];

#[test]
fn last_lines_are_refused(rt: HostRuntime) -> Result<(), Fail> {
    let alloc = rt.alloc();
    for (lines, last, due) in LAST_LINES {
        let text = cut(alloc, lines, last)?;
        assert_eq!(rt; fault(alloc, &text), due, "{last}");
    }
    Ok(())
}

/// Each text has another fault, too: on the same line, or on another one.
/// A line of the base text, what stands in its place, and the fault.
const TWO_FAULTS: [(usize, &str, JobFault); 59] = [
    // A bad byte comes before all others; comments have none.
    (1, "flame 2\n@", JobFault::BadByte { line: 2 }),
    (13, "do mul P P !\n;", JobFault::BadByte { line: 13 }),
    (1, "flame 1 # @", JobFault::Alias { line: 13 }),
    (1, "flame 01\nmodulus 1", JobFault::Header { line: 1 }),
    (1, "modulus 7\nflame 1", JobFault::Header { line: 1 }),
    // A section's first word is due.
    (3, "modulus 7", JobFault::TrailingText { line: 3 }),
    (13, "operation 3", JobFault::TrailingText { line: 13 }),
    (
        13,
        "d23456789012345678901234567890123 3\ndo",
        JobFault::TrailingText { line: 13 },
    ),
    (
        13,
        "print P\ndo mul P P P",
        JobFault::TrailingText { line: 14 },
    ),
    // Lines that are not of their form.
    (2, "modulus 01", JobFault::Syntax { line: 2 }),
    (8, "equation X = 3 + A * B", JobFault::Syntax { line: 8 }),
    (8, "equation X = + A * B", JobFault::Syntax { line: 8 }),
    (8, "equation X' * A = W", JobFault::Syntax { line: 8 }),
    (8, "equation A * X' = W", JobFault::Syntax { line: 8 }),
    (10, "matrix P 1025 01", JobFault::Syntax { line: 10 }),
    (11, "7 01", JobFault::Syntax { line: 11 }),
    (11, "end 3", JobFault::Syntax { line: 11 }),
    (11, "end end", JobFault::Syntax { line: 11 }),
    (12, "ends", JobFault::Syntax { line: 12 }),
    (13, "do mul Q 3", JobFault::Syntax { line: 13 }),
    (13, "print P\nprint P P", JobFault::Syntax { line: 14 }),
    (
        7,
        "known B general k n\nknown C general m k\nknown D general m k\nknown E general m k\nknown F general m k\nknown A 3",
        JobFault::Syntax { line: 12 },
    ),
    // The modulus.
    (2, "modulus 1\noperation 3", JobFault::Modulus { line: 2 }),
    (2, "modulus 4294967296", JobFault::Modulus { line: 2 }),
    (
        2,
        "modulus 18446744073709551618",
        JobFault::Modulus { line: 2 },
    ),
    // One too many.
    (4, "dims a b c d e f a", JobFault::Limit { line: 4 }),
    (
        7,
        "known B general k n\nknown C general m k\nknown D general m k\nknown E general m k\nknown F general m k\nknown A general q q",
        JobFault::Limit { line: 12 },
    ),
    // Names for the second time.
    (4, "dims m n m", JobFault::NameTwice { line: 4 }),
    (5, "work X general m q", JobFault::NameTwice { line: 5 }),
    (6, "known W general m q", JobFault::NameTwice { line: 6 }),
    (
        9,
        "end\noperation mul\ndims",
        JobFault::NameTwice { line: 10 },
    ),
    (12, "end\nmatrix P 1 1025", JobFault::NameTwice { line: 13 }),
    (
        13,
        "print P\nprint P\nprint Q",
        JobFault::NameTwice { line: 14 },
    ),
    // Names that are not declared.
    (6, "known A lower m q", JobFault::NameUnknown { line: 6 }),
    (
        8,
        "equation X = W + A * C + A * B + A * B",
        JobFault::NameUnknown { line: 8 },
    ),
    (8, "equation X = V", JobFault::NameUnknown { line: 8 }),
    (8, "equation X * X = W", JobFault::NameUnknown { line: 8 }),
    (8, "equation X * X' = W", JobFault::NameUnknown { line: 8 }),
    (13, "do mull P P", JobFault::NameUnknown { line: 13 }),
    (13, "do mul P Q", JobFault::NameUnknown { line: 13 }),
    (13, "print Q\nprint Q", JobFault::NameUnknown { line: 13 }),
    // Equations and structures.
    (
        8,
        "equation X = W + B * A + A * B + A * B",
        JobFault::TooManyTerms { line: 8 },
    ),
    (5, "work W diagonal m n", JobFault::Shape { line: 5 }),
    (6, "known A lower m k", JobFault::Shape { line: 6 }),
    (8, "equation X = A + A * B", JobFault::Shape { line: 8 }),
    (5, "work W diagonal m m", JobFault::Form { line: 5 }),
    (
        7,
        "known B general m n\nequation X = B",
        JobFault::Form { line: 8 },
    ),
    (8, "equation lu X = W", JobFault::Form { line: 8 }),
    (8, "equation ldl X = W", JobFault::Form { line: 8 }),
    // Matrices.
    (10, "matrix P 1025 1\n7", JobFault::TooLarge { line: 10 }),
    (10, "matrix P 0 1025\n7", JobFault::TooLarge { line: 10 }),
    (11, "7 1", JobFault::RowLength { line: 11 }),
    (11, "end", JobFault::RowLength { line: 11 }),
    (11, "7\nends", JobFault::EntryRange { line: 11 }),
    (
        11,
        "99999999999999999999999",
        JobFault::EntryRange { line: 11 },
    ),
    // Statements.
    (13, "do mul P P", JobFault::Binding { line: 13 }),
    (13, "do mul\nend", JobFault::Binding { line: 13 }),
    (
        12,
        "end\nmatrix Q 1 2\n1 2\nend\ndo mul P P Q",
        JobFault::Binding { line: 16 },
    ),
    (13, "do mul P P P\nend", JobFault::Alias { line: 13 }),
];

#[test]
fn of_two_faults_one_decides(rt: HostRuntime) -> Result<(), Fail> {
    let alloc = rt.alloc();
    for (number, line, due) in TWO_FAULTS {
        let text = with_line(alloc, number, line)?;
        assert_eq!(rt; fault(alloc, &text), Some(due), "{line}");
    }
    Ok(())
}

#[test]
fn faults_are_shown(rt: HostRuntime) -> Result<(), Fail> {
    let fault = JobFault::Alias { line: 13 };
    let text = format!(in rt.alloc(); "{fault}")?;
    assert_eq!(rt;
        text.as_str(),
        "line 13: the work matrix is bound to a known operand, too"
    );
    Ok(())
}
