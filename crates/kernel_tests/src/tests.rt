//! Each kernel beside its plain body.

use crate::cases::{Case, Kernel};
use crate::numbers::{Diagonal, residues};
use crate::operands::{PLAIN, drawn};
use crate::plain::Plain;
use crate::runs::{Failure, run_factor, run_product, run_solve};
use field_word::Modulus;
use matrix_parts::whole_of;
use std::alloc::{AllocError, Global};
use std::process::Abort;
use std::test::Fail;

/// Whether an update leaves what it has to.
fn is_updated(alloc: Global, case: Case) -> Result<bool, AllocError> {
    let (rows, inner, cols) = (case.rows, case.inner, case.cols);
    let any = case.plan(0, Diagonal::Any, 0);
    let a = drawn(alloc, any, case.factor(false, rows, inner), rows, inner)?;
    let d = drawn(
        alloc,
        case.plan(1, Diagonal::Any, 0),
        case.middle(),
        inner,
        inner,
    )?;
    let b = drawn(
        alloc,
        case.plan(2, Diagonal::Any, 0),
        case.factor(true, inner, cols),
        inner,
        cols,
    )?;
    let x = drawn(alloc, case.plan(3, Diagonal::Any, 0), PLAIN, rows, cols)?;
    let plain = Plain {
        case,
        first: &a,
        middle: &d,
        second: &b,
        left: &x,
    };
    let mut entries = residues(alloc, case.m, rows as usize * cols as usize, &plain)?;
    run_product(&case, &a, &d, &b, &mut whole_of(&mut entries, rows, cols));
    Ok(plain.is_left_in(&entries))
}

/// Whether a run has left what it has to, or has named the first pivot that is no unit.
fn is_due(plain: &Plain<'_>, found: Result<(), Failure>, entries: &[u64]) -> bool {
    match plain.bad_pivot() {
        Some(place) => found == Err(Failure::BadPivot(place)),
        None => found == Ok(()) && plain.is_left_in(entries),
    }
}

/// Whether a system is solved, or the inverses of its pivots are found.
fn is_solved(alloc: Global, case: Case) -> Result<bool, AllocError> {
    let (rows, cols) = (case.rows, case.cols);
    let t = drawn(
        alloc,
        case.plan(0, Diagonal::Low, rows),
        case.triangle(false),
        rows,
        rows,
    )?;
    let u = drawn(
        alloc,
        case.plan(1, case.right_diagonal(), cols),
        case.triangle(true),
        cols,
        cols,
    )?;
    let x = drawn(alloc, case.plan(2, Diagonal::Any, 0), PLAIN, rows, cols)?;
    let plain = Plain {
        case,
        first: &t,
        middle: &u,
        second: &u,
        left: &x,
    };
    let mut entries = residues(alloc, case.m, rows as usize * cols as usize, &plain)?;
    let found = run_solve(
        alloc,
        &case,
        &t,
        &u,
        &mut whole_of(&mut entries, rows, cols),
    );
    Ok(is_due(&plain, found, &entries))
}

/// Whether a matrix is factored.
fn is_factored(alloc: Global, case: Case) -> Result<bool, AllocError> {
    let n = case.rows;
    let x = drawn(alloc, case.plan(0, Diagonal::Low, n), PLAIN, n, n)?;
    let plain = Plain {
        case,
        first: &x,
        middle: &x,
        second: &x,
        left: &x,
    };
    let mut entries = residues(alloc, case.m, n as usize * n as usize, &plain)?;
    let found = run_factor(&case, &mut whole_of(&mut entries, n, n));
    Ok(is_due(&plain, found, &entries))
}

/// Whether the kernel does what its plain body says.
fn goes(alloc: Global, case: Case) -> Result<bool, AllocError> {
    match case.kernel {
        Kernel::Update | Kernel::UpdateLdl => is_updated(alloc, case),
        Kernel::FactorLu | Kernel::FactorLdl => is_factored(alloc, case),
        _ => is_solved(alloc, case),
    }
}

/// A number with zero divisors, and primes: the least one, one of small residues, and the greatest ones below 2^31 and 2^32.
const MODULI: [u64; 5] = [6, 2, 7, 2147483647, 4294967291];

/// Numbers of rows, of inner numbers and of columns, and how many cases have them with each modulus.
type Sizes = (u32, u32, u32, u32);

/// Runs a kernel on cases of such sizes.
fn check_sizes<R: Abort + AllocGlobal>(
    rt: &R,
    kernel: Kernel,
    sizes: Sizes,
) -> Result<(), AllocError> {
    let (rows, inner, cols, turns) = sizes;
    for number in MODULI {
        let m = Modulus::new(number).expect(rt, "the modulus is in range");
        for turn in 36..36 + turns.min(1000) {
            let case = Case {
                kernel,
                m,
                rows,
                inner,
                cols,
                turn,
            };
            assert!(rt; goes(rt.alloc(), case)?, "{case:?}");
        }
    }
    Ok(())
}

/// Inner numbers go through small buffers up to 32, short ones up to 204 and long ones beyond, in pieces of 256 at most where
/// the rows are copied, and else of 1,536; rows go in groups of three.
const PRODUCTS: [Sizes; 22] = [
    (0, 0, 0, 2),
    (0, 3, 2, 8),
    (2, 0, 3, 8),
    (3, 2, 0, 8),
    (1, 1, 1, 200),
    (2, 2, 2, 400),
    (3, 3, 3, 400),
    (4, 4, 4, 400),
    (5, 5, 5, 100),
    (3, 4, 5, 30),
    (7, 2, 7, 30),
    (4, 6, 6, 30),
    (12, 12, 12, 20),
    (13, 13, 13, 20),
    (32, 32, 32, 6),
    (33, 33, 33, 6),
    (4, 31, 65, 8),
    (4, 204, 33, 4),
    (4, 205, 40, 4),
    (3, 257, 2, 8),
    (4, 1537, 3, 2),
    (65, 65, 65, 3),
];

/// Equations go in groups of three and of twelve, with buffers for up to 32 of them, 128 and 2,048; 64 lines are solved at once.
const SYSTEMS: [Sizes; 17] = [
    (0, 0, 0, 2),
    (0, 0, 3, 8),
    (3, 0, 0, 8),
    (1, 0, 1, 200),
    (2, 0, 2, 400),
    (3, 0, 3, 400),
    (4, 0, 4, 400),
    (5, 0, 5, 100),
    (12, 0, 13, 30),
    (13, 0, 12, 30),
    (25, 0, 25, 30),
    (32, 0, 33, 12),
    (33, 0, 32, 12),
    (3, 0, 65, 12),
    (65, 0, 3, 12),
    (129, 0, 2, 12),
    (2, 0, 129, 12),
];

/// Systems of more equations than there is a buffer for.
const LONG_SYSTEMS: [Sizes; 2] = [(2049, 0, 1, 1), (1, 0, 2049, 1)];

/// Columns go in pieces of 32, and panels are small up to 128 rows.
const SQUARES: [Sizes; 16] = [
    (0, 0, 0, 2),
    (1, 0, 1, 100),
    (2, 0, 2, 100),
    (3, 0, 3, 100),
    (4, 0, 4, 100),
    (5, 0, 5, 60),
    (8, 0, 8, 20),
    (12, 0, 12, 20),
    (13, 0, 13, 20),
    (31, 0, 31, 12),
    (32, 0, 32, 12),
    (33, 0, 33, 12),
    (63, 0, 63, 6),
    (65, 0, 65, 6),
    (128, 0, 128, 1),
    (129, 0, 129, 1),
];

#[test]
fn products_are_added_and_subtracted(rt: HostRuntime) -> Result<(), Fail> {
    for kernel in [Kernel::Update, Kernel::UpdateLdl] {
        for sizes in PRODUCTS {
            check_sizes(&rt, kernel, sizes)?;
        }
    }
    Ok(())
}

#[test]
fn systems_are_solved(rt: HostRuntime) -> Result<(), Fail> {
    for kernel in [
        Kernel::SolveLeft,
        Kernel::SolveRight,
        Kernel::SolveRightLdl,
        Kernel::SolveSylvester,
        Kernel::PivotsSylvester,
    ] {
        for sizes in SYSTEMS {
            check_sizes(&rt, kernel, sizes)?;
        }
        for sizes in LONG_SYSTEMS {
            check_sizes(&rt, kernel, sizes)?;
        }
    }
    Ok(())
}

#[test]
fn pivots_are_inverted(rt: HostRuntime) -> Result<(), Fail> {
    for n in 0..40 {
        check_sizes(&rt, Kernel::Pivots, (1, 0, n, 40))?;
    }
    Ok(())
}

#[test]
fn squares_are_factored(rt: HostRuntime) -> Result<(), Fail> {
    for kernel in [Kernel::FactorLu, Kernel::FactorLdl] {
        for sizes in SQUARES {
            check_sizes(&rt, kernel, sizes)?;
        }
    }
    Ok(())
}
