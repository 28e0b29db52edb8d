//! Each command answers while memory lasts, and long inputs, faults of streams and bad words are told.

use crate::answers::{Faults, NO_FAULTS, answered, answered_to};
use outside_io::OpenGate;
use std::test::Fail;

const RUN: &[&str] = &["run", "--block", "1", "--workers", "1"];

const HEAD: &str = "flame 1\nmodulus 7\n";

const MUL: &str =
    "operation mul\ndims m n k\nwork W general m n\nknown A general m k\nknown B general k n\nequation X = W + A * B\nend\n";

const LU: &str = "operation lu\ndims n\nwork W general n n\nequation lu X = W\nend\n";

const SMALL: &str = "matrix W 1 1\n1\nend\nmatrix A 1 1\n2\nend\nmatrix B 1 1\n3\nend\n";

const TAIL: &str = "do mul W A B\nprint W\n";

const TRACE: &[&str] = &[
    "run",
    "--block",
    "2",
    "--workers",
    "1",
    "--variants",
    "5",
    "--trace",
];

const SIXTH: &[&str] = &["run", "--block", "1", "--workers", "1", "--variants", "6"];

const SELFRUN: &[&str] = &["selfrun", "2", "101", "1", "--block", "1", "--workers", "1"];

const MAKE: &[&str] = &["make", "0", "2", "0"];

const IDENTITY: &str = "matrix A 4 4\n1 0 0 0\n0 1 0 0\n0 0 1 0\n0 0 0 1\nend\ndo lu A\nprint A\n";

const AFTER: &str = "do mul W A B\nafter W 1 1\n0\nend\n";

/// The factors of the matrix of four rows with ones on the diagonal, and their trace by the fifth variant.
const TRACED: &str =
    "matrix A 4 4\n1 0 0 0\n0 1 0 0\n0 0 1 0\n0 0 0 1\nend\ntrace\ntasks 5\n1 1 solve(0,0)\n2 1 solve(0,1)\n3 1 solve(1,0)\n4 1 left(1,1,0)\n5 1 solve(1,1)\nedges 5\n1 2 flow\n1 3 flow\n2 4 flow\n3 4 flow\n4 5 output\nschedule 10\nstart 1\nfinish 1\nstart 2\nfinish 2\nstart 3\nfinish 3\nstart 4\nfinish 4\nstart 5\nfinish 5\nend\n";

/// The partitioned matrix expression of `lu` along its dimension.
const EXPRESSION: &str =
    "pme lu split n\nX[0,0] = lu(W[0,0])\nX[0,1] = inv(X.l[0,0])*(W[0,1])\nX[1,0] = (W[1,0])*inv(X.u[0,0])\nX[1,1] = lu(W[1,1] - X.l[1,0]*X.u[0,1])\ntasks 5\n1 solve(0,0)\n2 solve(0,1) needs 1\n3 solve(1,0) needs 1\n4 left(1,1,0) needs 2 3\n5 solve(1,1) needs 4\nend\n";

/// The summary of a small generated job.
const SUMMARY: &str = "selfrun 2 101 1 block 1 workers 1\ntasks 23\nsum S 88\nsum B 21\n";

#[test]
fn commands_are_answered(rt: HostRuntime) -> Result<(), Fail> {
    let alloc = rt.alloc();
    let cases: [(&[&str], &[&str], u8, &str); 9] = [
        (&["derive"], &[HEAD], 0, ""),
        (RUN, &[HEAD, MUL, SMALL, TAIL], 0, "matrix W 1 1\n0\nend\n"),
        (TRACE, &[HEAD, LU, IDENTITY], 0, TRACED),
        (
            SIXTH,
            &[HEAD, LU, IDENTITY],
            3,
            "refused NoVariant statement 1\n",
        ),
        (&["pme", "lu", "n"], &[HEAD, MUL, LU], 0, EXPRESSION),
        (
            &["pme", "lu", "m"],
            &[HEAD, MUL, LU],
            3,
            "refused NoSplit\n",
        ),
        (
            &["pme", "qr", "n"],
            &[HEAD, MUL, LU],
            3,
            "refused NoOperation\n",
        ),
        (&["verify"], &[HEAD, MUL, SMALL, AFTER], 0, "verified 1\n"),
        (SELFRUN, &[], 0, SUMMARY),
    ];
    for (i, (words, parts, status, text)) in cases.iter().enumerate() {
        let given = answered(&rt, alloc, words, parts, NO_FAULTS, &OpenGate)?;
        assert!(rt; given.says(*status, text), "case {i}");
    }
    let given = answered(&rt, alloc, MAKE, &[], SILENT, &OpenGate)?;
    assert!(rt; given.begins(0, "flame 1\nmodulus 2\noperation prod\n"));
    Ok(())
}

#[test]
fn long_inputs_are_refused(rt: HostRuntime) -> Result<(), Fail> {
    let alloc = rt.alloc();
    for (length, text) in [
        (67_108_865, "refused TooLong\n"),
        (67_108_864, "refused Header line 1\n"),
    ] {
        let blanks = vec![in alloc; b' '; length]?;
        let given = answered_to(&rt, alloc, RUN, blanks, NO_FAULTS, &OpenGate)?;
        assert!(rt; given.says(3, text));
    }
    Ok(())
}

/// The first call of the source fails.
const SILENT: Faults = Faults {
    source: &[1],
    sink: &[],
};

#[test]
fn bad_words_are_told_without_reading(rt: HostRuntime) -> Result<(), Fail> {
    let alloc = rt.alloc();
    let cases: [(&[&str], u8, &str); 4] = [
        (&["run", "--block", "1024", "--workers", "1"], 1, ""),
        (&[], 2, "bad words\n"),
        (
            &["run", "--block", "1025", "--workers", "1"],
            2,
            "bad words\n",
        ),
        (&["derive", "extra"], 2, "bad words\n"),
    ];
    for (i, (words, status, text)) in cases.iter().enumerate() {
        let given = answered(&rt, alloc, words, &[], SILENT, &OpenGate)?;
        assert!(rt; given.says(*status, text), "case {i}");
    }
    Ok(())
}

/// A call of a stream that fails, what is answered, and what was written before.
const FAILING: [(Faults, u8, &str); 4] = [
    (
        Faults {
            source: &[2],
            sink: &[],
        },
        1,
        "",
    ),
    (
        Faults {
            source: &[],
            sink: &[1],
        },
        6,
        "",
    ),
    (
        Faults {
            source: &[],
            sink: &[2],
        },
        6,
        "matrix W",
    ),
    (
        Faults {
            source: &[],
            sink: &[4],
        },
        6,
        "matrix W 1 1\n0\nend\n",
    ),
];

#[test]
fn faults_of_streams_are_told(rt: HostRuntime) -> Result<(), Fail> {
    let alloc = rt.alloc();
    for (i, (faults, status, text)) in FAILING.iter().enumerate() {
        let parts = [HEAD, MUL, SMALL, TAIL];
        let given = answered(&rt, alloc, RUN, &parts, *faults, &OpenGate)?;
        assert!(rt; given.says(*status, text), "case {i}");
    }
    Ok(())
}
