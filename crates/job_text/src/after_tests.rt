use super::*;
use matrix_core::MatrixList;
use std::alloc::Global;
use std::test::Fail;

/// A job of eleven lines without a statement.
const NONE: &str =
    "flame 1\nmodulus 101\noperation lu\ndims n\nwork W general n n\nequation lu X = W\nend\nmatrix A 2 2\n2 1\n4 5\nend\n";

/// A job of twelve lines with one statement.
const ONE: &str =
    "flame 1\nmodulus 101\noperation lu\ndims n\nwork W general n n\nequation lu X = W\nend\nmatrix A 2 2\n2 1\n4 5\nend\ndo lu A\n";

/// A job of thirteen lines with two statements.
const TWO: &str =
    "flame 1\nmodulus 101\noperation lu\ndims n\nwork W general n n\nequation lu X = W\nend\nmatrix A 2 2\n2 1\n4 5\nend\ndo lu A\ndo lu A\n";

/// The matrices that a text has behind a job.
fn read(alloc: Global, job: &str, behind: &str) -> Result<MatrixList, JobFault> {
    let mut bytes = Vec::new(alloc);
    bytes.extend_from_slice(job.as_bytes())?;
    bytes.extend_from_slice(behind.as_bytes())?;
    if bytes.len() > 1000 {
        return Err(JobFault::Memory);
    }
    match read_job(alloc, &bytes, Stop::After) {
        Ok((job, rest)) => read_after(alloc, &bytes, rest, &job),
        Err(fault) => Err(fault),
    }
}

/// The entries of all of them, which are as many as `count`.
fn entries(alloc: Global, job: &str, behind: &str, count: usize) -> Result<Vec<u64>, JobFault> {
    let mut all = Vec::new(alloc);
    match read(alloc, job, behind) {
        Ok(matrices) if matrices.len() == count => {
            for matrix in matrices.as_slice() {
                all.extend_from_slice(matrix.entries())?;
            }
            Ok(all)
        }
        Ok(_) => Err(JobFault::Memory),
        Err(fault) => Err(fault),
    }
}

fn fault(alloc: Global, job: &str, behind: &str) -> Option<JobFault> {
    match read(alloc, job, behind) {
        Ok(_) => None,
        Err(fault) => Some(fault),
    }
}

#[test]
fn matrices_are_read(rt: HostRuntime) -> Result<(), Fail> {
    let alloc = rt.alloc();
    let cases: [(&str, &str, usize, &[u64]); 7] = [
        (ONE, "after A 2 2\n2 1\n2 3\nend\n", 1, &[2, 1, 2, 3]),
        (ONE, "after A 2 2\n2 1\n2 3\nend", 1, &[2, 1, 2, 3]),
        (
            ONE,
            "\n# @\n  after A 2 2 # @\n\n2 1\r\n2\t3\nend\n\n# @",
            1,
            &[2, 1, 2, 3],
        ),
        (
            ONE,
            "print A\nafter A 2 2\n2 1\n2 3\nend\n",
            1,
            &[2, 1, 2, 3],
        ),
        (
            TWO,
            "after A 2 2\n2 1\n2 3\nend\nafter A 2 2\n2 1\n1 100\nend\n",
            2,
            &[2, 1, 2, 3, 2, 1, 1, 100],
        ),
        (NONE, "", 0, &[]),
        (NONE, "# @", 0, &[]),
    ];
    for (job, behind, count, due) in cases {
        match entries(alloc, job, behind, count) {
            Ok(all) => assert_eq!(rt; all.as_slice(), due, "{behind}"),
            Err(_) => assert!(rt; false, "{behind}"),
        }
    }
    Ok(())
}

/// A job, what stands behind it, and the fault.
const REFUSED: [(&str, &str, JobFault); 26] = [
    // A block is missing, or another line is due.
    (ONE, "", JobFault::Syntax { line: 13 }),
    (
        TWO,
        "after A 2 2\n2 1\n2 3\nend\n",
        JobFault::Syntax { line: 18 },
    ),
    (
        TWO,
        "after A 2 2\n2 1\n2 3\nend\nprint A\n",
        JobFault::Syntax { line: 18 },
    ),
    // The first line.
    (
        ONE,
        "after A 2\n2 1\n2 3\nend\n",
        JobFault::Syntax { line: 13 },
    ),
    (
        ONE,
        "after A 2 2 2\n2 1\n2 3\nend\n",
        JobFault::Syntax { line: 13 },
    ),
    (
        ONE,
        "after 2 2 A\n2 1\n2 3\nend\n",
        JobFault::Syntax { line: 13 },
    ),
    (
        ONE,
        "after A 02 2\n2 1\n2 3\nend\n",
        JobFault::Syntax { line: 13 },
    ),
    (ONE, "after A 2 2", JobFault::Syntax { line: 13 }),
    (ONE, "after B 2 2", JobFault::Syntax { line: 13 }),
    (
        ONE,
        "after B 2 2\n2 1\n2 3\nend\n",
        JobFault::Binding { line: 13 },
    ),
    (
        ONE,
        "after A 3 2\n2 1\n2 3\nend\n",
        JobFault::Binding { line: 13 },
    ),
    (
        ONE,
        "after A 2 3\n2 1\n2 3\nend\n",
        JobFault::Binding { line: 13 },
    ),
    (ONE, "after A 2 2000\n", JobFault::Binding { line: 13 }),
    (
        ONE,
        "after A 18446744073709551618 2\n",
        JobFault::Binding { line: 13 },
    ),
    // The rows, and what is behind them.
    (
        ONE,
        "\n# text\nafter A 2 2\n2 1\n2 3 4\nend\n",
        JobFault::RowLength { line: 17 },
    ),
    (
        ONE,
        "after A 2 2\n2 1\nend\n",
        JobFault::RowLength { line: 15 },
    ),
    (
        ONE,
        "after A 2 2\n2 101\n2 3\nend\n",
        JobFault::EntryRange { line: 14 },
    ),
    (
        ONE,
        "after A 2 2\n2 1\n2 B\nend\n",
        JobFault::Syntax { line: 15 },
    ),
    (ONE, "after A 2 2\n2 1\n2 3", JobFault::Syntax { line: 15 }),
    (
        ONE,
        "after A 2 2\n2 1\n2 3\n",
        JobFault::Syntax { line: 16 },
    ),
    (
        ONE,
        "after A 2 2\n2 1\n2 3\nend end\n",
        JobFault::Syntax { line: 16 },
    ),
    // A line behind the last block.
    (
        ONE,
        "after A 2 2\n2 1\n2 3\nend\nafter A 2 2\n",
        JobFault::TrailingText { line: 17 },
    ),
    (
        ONE,
        "after A 2 2\n2 1\n2 3\nend\n\n# text\nprint A",
        JobFault::TrailingText { line: 19 },
    ),
    (NONE, "after A 2 2\n", JobFault::TrailingText { line: 12 }),
    // The job's own faults come first, and a bad byte before all.
    (
        ONE,
        "print B\nafter A 2\n",
        JobFault::NameUnknown { line: 13 },
    ),
    (
        ONE,
        "after A 2\n2 1\n@ 3\nend\n",
        JobFault::BadByte { line: 15 },
    ),
];

#[test]
fn texts_are_refused(rt: HostRuntime) -> Result<(), Fail> {
    let alloc = rt.alloc();
    for (job, behind, due) in REFUSED {
        assert_eq!(rt; fault(alloc, job, behind), Some(due), "{behind}");
    }
    Ok(())
}
