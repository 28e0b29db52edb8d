use super::*;
use crate::tests::{fault, rest};
use std::alloc::{AllocError, Global};
use std::fmt::Write;
use std::test::Fail;
use text_scan::Rest;

// ---- limits

/// Appends operations a0, a1 and so on.
fn put_operations(count: u32, text: &mut String) -> Result<(), AllocError> {
    for i in 0..count {
        write!(text, "operation a{i}\ndims n\nwork W general n n\n")?;
        text.push_str("equation lu X = W\nend\n")?;
    }
    Ok(())
}

/// Appends matrices M0, M1 and so on, which have no rows.
fn put_matrices(count: u32, text: &mut String) -> Result<(), AllocError> {
    for i in 0..count {
        write!(text, "matrix M{i} 0 0\nend\n")?;
    }
    Ok(())
}

/// The fault of a job with so many operations, matrices and statements, and a last line.
fn fault_of_many(
    alloc: Global,
    operations: u32,
    matrices: u32,
    statements: u32,
    last: &str,
) -> Result<Option<JobFault>, AllocError> {
    let mut text = String::from_str(alloc, "flame 1\nmodulus 7\n")?;
    put_operations(operations, &mut text)?;
    put_matrices(matrices, &mut text)?;
    for _ in 0..statements {
        text.push_str("do a0 M0\n")?;
    }
    text.push_str(last)?;
    Ok(fault(alloc, text.as_bytes()))
}

#[test]
fn sections_have_limits(rt: HostRuntime) -> Result<(), Fail> {
    let cases = [
        (16, 32, 16, "print M31\n", None),
        (
            16,
            0,
            0,
            "operation a0\n",
            Some(JobFault::Limit { line: 83 }),
        ),
        (
            16,
            0,
            0,
            "operation 3\n",
            Some(JobFault::Syntax { line: 83 }),
        ),
        (
            0,
            32,
            0,
            "matrix M0 1025 0\n",
            Some(JobFault::Limit { line: 67 }),
        ),
        (
            0,
            32,
            0,
            "matrix M0 1 01\n",
            Some(JobFault::Syntax { line: 67 }),
        ),
        (1, 1, 16, "do a0 Q\n", Some(JobFault::Limit { line: 26 })),
        (1, 1, 16, "do a0 3\n", Some(JobFault::Syntax { line: 26 })),
    ];
    for (operations, matrices, statements, last, due) in cases {
        let found = fault_of_many(rt.alloc(), operations, matrices, statements, last)?;
        assert_eq!(rt; found, due, "{last}");
    }
    Ok(())
}

/// A row of 1,024 zeros.
fn row_of_zeros(alloc: Global) -> Result<Vec<u8>, AllocError> {
    let mut row = Vec::new(alloc);
    for _ in 0..1023 {
        row.extend_from_slice(b"0 ")?;
    }
    row.extend_from_slice(b"0\n")?;
    Ok(row)
}

/// Appends a matrix of 1,024 such rows.
fn put_zeros(name: &str, row: &[u8], text: &mut Vec<u8>) -> Result<(), AllocError> {
    text.extend_from_slice(b"matrix ")?;
    text.extend_from_slice(name.as_bytes())?;
    text.extend_from_slice(b" 1024 1024\n")?;
    for _ in 0..1024 {
        text.extend_from_slice(row)?;
    }
    text.extend_from_slice(b"end\n")?;
    Ok(())
}

/// A job whose four matrices have as many entries as all matrices may have.
fn full_job(alloc: Global) -> Result<Vec<u8>, AllocError> {
    let row = row_of_zeros(alloc)?;
    let mut text = Vec::from_slice(alloc, b"flame 1\nmodulus 7\n")?;
    for name in ["A", "B", "C", "D"] {
        put_zeros(name, &row, &mut text)?;
    }
    Ok(text)
}

#[test]
fn entries_of_all_matrices_count(rt: HostRuntime) -> Result<(), Fail> {
    let cases = [
        (
            "matrix E 1 1\n7\nend\n",
            Some(JobFault::TooLarge { line: 4107 }),
        ),
        ("matrix E 1 0\nend\n", None),
    ];
    let mut text = full_job(rt.alloc())?;
    let length = text.len();
    for (last, due) in cases {
        text.truncate(length);
        text.extend_from_slice(last.as_bytes())?;
        assert_eq!(rt; fault(rt.alloc(), &text), due, "{last}");
    }
    Ok(())
}

// ---- the two parts of an input

/// A text, where its job ends, and where the second part begins, or the fault.
const SECOND_PARTS: [(&str, Stop, Result<Rest, JobFault>); 14] = [
    (
        "flame 1\nmodulus 7\n",
        Stop::Nothing,
        Ok(Rest { at: 18, line: 3 }),
    ),
    (
        "flame 1\nmodulus 7",
        Stop::Nothing,
        Ok(Rest { at: 17, line: 2 }),
    ),
    (
        "flame 1\nmodulus 7\n\n",
        Stop::Worksheet,
        Ok(Rest { at: 19, line: 4 }),
    ),
    (
        "flame 1\nmodulus 7\n",
        Stop::After,
        Ok(Rest { at: 18, line: 3 }),
    ),
    (
        "flame 1\nmodulus 7\n# worksheet\n \tworksheet lu # x\nafter A\nworksheet b\n",
        Stop::Worksheet,
        Ok(Rest { at: 30, line: 4 }),
    ),
    (
        "flame 1\nmodulus 7\n\nafter A 0 0\nend\nworksheet\n",
        Stop::After,
        Ok(Rest { at: 19, line: 4 }),
    ),
    (
        "flame 1\nmodulus 7\nafter",
        Stop::After,
        Ok(Rest { at: 18, line: 3 }),
    ),
    // Faults of the job's text, which ends where the second part begins.
    (
        "flame 1\nmodulus 7\nworksheet lu\n",
        Stop::Nothing,
        Err(JobFault::TrailingText { line: 3 }),
    ),
    (
        "flame 1\nmodulus 7\nworksheet lu\nafter A\n",
        Stop::After,
        Err(JobFault::TrailingText { line: 3 }),
    ),
    (
        "flame 1\nmodulus 7\nworksheets\nworksheet\n",
        Stop::Worksheet,
        Err(JobFault::TrailingText { line: 3 }),
    ),
    (
        "worksheet lu\n",
        Stop::Worksheet,
        Err(JobFault::Header { line: 1 }),
    ),
    (
        "flame 1\nafter A\n",
        Stop::After,
        Err(JobFault::Syntax { line: 2 }),
    ),
    (
        "flame 2\nafter A\n@\n",
        Stop::After,
        Err(JobFault::BadByte { line: 3 }),
    ),
    (
        "flame 1\nmodulus 1\n",
        Stop::Worksheet,
        Err(JobFault::Modulus { line: 2 }),
    ),
];

#[test]
fn second_parts_begin_at_their_word(rt: HostRuntime) -> Result<(), Fail> {
    for (text, stop, due) in SECOND_PARTS {
        let found = rest(rt.alloc(), text.as_bytes(), stop);
        assert_eq!(rt; found, due, "{text}");
    }
    Ok(())
}

// ---- a job with each form and each structure

/// Its text with comments, free blanks and empty lines.
const FREE: &str =
    "# each form @\r\n\t flame\t1 # header\r\n\n  modulus  4294967295\noperation two\n\n dims m\tn k# sizes\nwork W general m n\nknown A general k m\nknown B general k n\nknown S symmetric m m\nknown V general n m\nequation X=W+A'*B-S*V'\nend\noperation left\ndims n m\nwork W general n m\nknown T unitupper n n\nequation T ' *X=W\nend # left\noperation right\ndims n\nwork W upper n n\nknown T diagonal n n\nequation X*T'=W\nend\noperation plus\ndims m n\nwork W general m n\nknown T lower m m\nknown U upper n n\nequation T*X+X*U=W\nend\noperation minus\ndims m n\nwork W general m n\nknown T unitlower m m\nknown U upper n n\nequation T'*X-X*U'=W\nend\noperation lu\ndims n\nwork W general n n\nequation lu X=W\nend\noperation ldl\ndims n\nwork W lower n n\nequation ldl X=W\nend\n\n matrix A 2 2\n0 1 # row\n\n\t2 4294967294\nend\nmatrix B 2 2\n5 6\n7 8\nend\nmatrix Z_0 0 2\nend\nmatrix Z1 2 0\nend\nmatrix E 0 0\nend\n do lu A\ndo left B A\ndo two A B B B B#\ndo plus B A A\ndo left Z_0 E\nprint Z_0\n\tprint\tA";

/// Its normal text.
const NORMAL: &str =
    "flame 1\nmodulus 4294967295\noperation two\ndims m n k\nwork W general m n\nknown A general k m\nknown B general k n\nknown S symmetric m m\nknown V general n m\nequation X = W + A' * B - S * V'\nend\noperation left\ndims n m\nwork W general n m\nknown T unitupper n n\nequation T' * X = W\nend\noperation right\ndims n\nwork W upper n n\nknown T diagonal n n\nequation X * T' = W\nend\noperation plus\ndims m n\nwork W general m n\nknown T lower m m\nknown U upper n n\nequation T * X + X * U = W\nend\noperation minus\ndims m n\nwork W general m n\nknown T unitlower m m\nknown U upper n n\nequation T' * X - X * U' = W\nend\noperation lu\ndims n\nwork W general n n\nequation lu X = W\nend\noperation ldl\ndims n\nwork W lower n n\nequation ldl X = W\nend\nmatrix A 2 2\n0 1\n2 4294967294\nend\nmatrix B 2 2\n5 6\n7 8\nend\nmatrix Z_0 0 2\nend\nmatrix Z1 2 0\nend\nmatrix E 0 0\nend\ndo lu A\ndo left B A\ndo two A B B B B\ndo plus B A A\ndo left Z_0 E\nprint Z_0\nprint A\n";

/// The normal text of the job that a text says; no text where it says none.
fn normal(alloc: Global, text: &[u8]) -> Result<Vec<u8>, AllocError> {
    let mut out = Vec::new(alloc);
    if text.len() > 1500 {
        return Ok(out);
    }
    match read_job(alloc, text, Stop::Nothing) {
        Ok((job, _)) => {
            write_job(alloc, &job, &mut out)?;
            Ok(out)
        }
        Err(_) => Ok(out),
    }
}

#[test]
fn jobs_are_read_and_written(rt: HostRuntime) -> Result<(), Fail> {
    let alloc = rt.alloc();
    let first = normal(alloc, FREE.as_bytes())?;
    assert_eq!(rt; first.as_slice(), NORMAL.as_bytes());
    let again = normal(alloc, &first)?;
    assert_eq!(rt; again.as_slice(), NORMAL.as_bytes());
    Ok(())
}
