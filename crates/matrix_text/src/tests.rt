use super::*;
use field_word::Modulus;
use matrix_core::Matrix;
use std::alloc::{AllocError, Global};
use std::test::Fail;
use text_scan::{Lines, Name, scan};

/// A matrix without entries, whose name has 32 bytes.
const LONG_NAME: &str = "matrix aaaaaaaaaabbbbbbbbbbccccccccccdd 0 0\nend\n";

/// The same, with one byte more.
const LONGER_NAME: &str = "matrix aaaaaaaaaabbbbbbbbbbccccccccccddd 0 0\nend\n";

/// The text as one matrix with at most six entries, below 7.
fn read(alloc: Global, text: &str) -> Result<(Name, Matrix, usize), MatrixFault> {
    let bytes = text.as_bytes();
    if bytes.len() > 1000 {
        return Err(MatrixFault::Memory);
    }
    match (Modulus::new(7), scan(alloc, bytes, 1)) {
        (Some(seven), Ok(tokens)) => read_matrix(alloc, bytes, &tokens, 0, seven, 6),
        _ => Err(MatrixFault::Memory),
    }
}

fn fault(alloc: Global, text: &str) -> Option<MatrixFault> {
    match read(alloc, text) {
        Ok(_) => None,
        Err(fault) => Some(fault),
    }
}

/// The matrix of a text as it is printed, and how many tokens it has.
fn printed(alloc: Global, text: &str) -> Result<(Vec<u8>, usize), AllocError> {
    let mut out = Vec::new(alloc);
    match read(alloc, text) {
        Ok((name, matrix, place)) => {
            write_matrix(alloc, &name, &matrix, &mut out)?;
            Ok((out, place))
        }
        Err(_) => Ok((out, 0)),
    }
}

#[test]
fn texts_are_read(rt: HostRuntime) -> Result<(), Fail> {
    let alloc = rt.alloc();
    let cases = [
        (
            "matrix P 2 3\n1 2 3\n4 5 6\nend\n",
            "matrix P 2 3\n1 2 3\n4 5 6\nend\n",
            11,
        ),
        (
            "# c\n\n\tmatrix P 2 3 # @\r\n\r\n 1  2\t3\r\n# @\n\n4 5 6# @\nend\r\ndo mul P\n",
            "matrix P 2 3\n1 2 3\n4 5 6\nend\n",
            11,
        ),
        ("matrix P 3 0\nend", "matrix P 3 0\nend\n", 5),
        ("matrix P 0 3\nend", "matrix P 0 3\nend\n", 5),
        ("matrix P 0 0\nend\n3\n", "matrix P 0 0\nend\n", 5),
        ("matrix P 1024 0\nend\n", "matrix P 1024 0\nend\n", 5),
        ("matrix P 0 1024\nend\n", "matrix P 0 1024\nend\n", 5),
        ("matrix end 1 1\n0\nend", "matrix end 1 1\n0\nend\n", 6),
        (LONG_NAME, LONG_NAME, 5),
    ];
    for (text, normal, tokens) in cases {
        let (out, place) = printed(alloc, text)?;
        assert_eq!(rt; out.as_slice(), normal.as_bytes(), "{text}");
        assert_eq!(rt; place, tokens, "{text}");
    }
    Ok(())
}

#[test]
fn texts_are_refused(rt: HostRuntime) -> Result<(), Fail> {
    let alloc = rt.alloc();
    let syntax = |line: u32| MatrixFault::Syntax { line };
    let too_large = |line: u32| MatrixFault::TooLarge { line };
    let row_length = |line: u32| MatrixFault::RowLength { line };
    let entry_range = |line: u32| MatrixFault::EntryRange { line };
    let cases = [
        // The first line.
        ("", syntax(1)),
        ("\n\n# matrix\n", syntax(4)),
        ("matrices P 1 1\n3\nend\n", syntax(1)),
        ("matrix 3 1 1\n3\nend\n", syntax(1)),
        ("matrix P 1\n3\nend\n", syntax(1)),
        ("matrix P 1 1 1\n3\nend\n", syntax(1)),
        ("matrix P 1 01\n3\nend\n", syntax(1)),
        ("matrix P 1 A\n3\nend\n", syntax(1)),
        (LONGER_NAME, syntax(1)),
        ("matrix P 1 1", syntax(1)),
        ("matrix P 1025 0\nend\n", too_large(1)),
        ("matrix P 0 1025\nend\n", too_large(1)),
        ("\n\n\n\n\n\n\n\n\nmatrix P 1 1025\n3\nend\n", too_large(10)),
        ("matrix P 18446744073709551617 1\n3\nend\n", too_large(1)),
        ("matrix P 0 99999999999999999999\nend\n", too_large(1)),
        ("matrix P 1 7\n", too_large(1)),
        ("matrix P 4 2\n", too_large(1)),
        // A row.
        ("matrix P 1 1\n", syntax(2)),
        ("\n\n\n\n\n\n\n\n\nmatrix P 1 1\n03\nend\n", syntax(11)),
        ("matrix P 1 2\n3 A\nend\n", syntax(2)),
        ("matrix P 1 2\n3, 4\nend\n", syntax(2)),
        ("matrix P 1 1\nend end\n", syntax(2)),
        ("matrix P 1 1\nend 3\n", syntax(2)),
        ("\n\n\n\n\n\n\n\n\nmatrix P 1 2\n3\n", row_length(11)),
        ("matrix P 2 1\n3\n3 4\nend\n", row_length(3)),
        ("matrix P 1 1\nend\n", row_length(2)),
        ("\n\n\n\n\n\n\n\n\nmatrix P 1 1\n7\nend\n", entry_range(11)),
        (
            "matrix P 1 2\n0 123456789012345678901234567890\nend\n",
            entry_range(2),
        ),
        // The last line.
        ("matrix P 1 1\n3\n", syntax(3)),
        ("matrix P 1 1\n3\n3\nend\n", syntax(3)),
        ("matrix P 1 1\n3\nend end\n", syntax(3)),
        ("matrix P 2 0\n\nends\n", syntax(3)),
        // Without its line feed a line isn't one that another can follow.
        ("matrix P 1 1025", syntax(1)),
        ("matrix P 1 2\n3", syntax(2)),
        ("matrix P 1 1\nend", syntax(2)),
        ("matrix P 1 1\n7", syntax(2)),
        // Of two faults the one that decides.
        ("matrix P 2 1\n7\n03\nend\n", entry_range(2)),
        ("matrix P 1 1\n7 03\nend\n", syntax(2)),
        ("matrix P 1 1\n7 1\nend\n", row_length(2)),
        ("matrix P 1025 01\n", syntax(1)),
    ];
    for (text, due) in cases {
        assert_eq!(rt; fault(alloc, text), Some(due), "{text}");
    }
    Ok(())
}

/// The sum of the entries of two rows with two columns, below 7, or the fault. The text begins on line 5.
fn rows_sum(alloc: Global, text: &str) -> Result<u64, MatrixFault> {
    let bytes = text.as_bytes();
    if bytes.len() > 1000 {
        return Err(MatrixFault::Memory);
    }
    match (Modulus::new(7), scan(alloc, bytes, 5)) {
        (Some(seven), Ok(tokens)) => {
            let mut lines = Lines::new(5, bytes, &tokens);
            let matrix = next_rows(alloc, &mut lines, seven, 2, 2)?;
            let sum = matrix
                .entries()
                .iter()
                .fold(0, |sum: u64, x| sum.wrapping_add(*x));
            Ok(sum.wrapping_add(100 * (lines.word_count() as u64 % 100)))
        }
        _ => Err(MatrixFault::Memory),
    }
}

#[test]
fn rows_are_read_on_their_lines(rt: HostRuntime) -> Result<(), Fail> {
    let alloc = rt.alloc();
    let cases = [
        ("1 2\n3 4\nend\n", Ok(10)),
        ("1 2\n3 4\nend", Ok(10)),
        ("\n1 2\n3 4\nend\nmore of it\n", Ok(310)),
        ("1 2\n3 7\nend\n", Err(MatrixFault::EntryRange { line: 6 })),
        ("1 2\n3 4", Err(MatrixFault::Syntax { line: 6 })),
        ("1 2\n3 4\n", Err(MatrixFault::Syntax { line: 7 })),
        ("1 2\nend\n", Err(MatrixFault::RowLength { line: 6 })),
    ];
    for (text, due) in cases {
        assert_eq!(rt; rows_sum(alloc, text), due, "{text}");
    }
    Ok(())
}
