//! Seeded residues, and how kernels read them.

ghost use Rattle.std.specs.Prelude.{◌≡◌, ℕ, ◌*◌, ◌<◌, All, IfOk, IsTrue, vec_len};
ghost use Rattle.residue_sums.specs.Grids.{Grid};
ghost use Rattle.structure_rules.specs.Structures.{IsTriangular};
ghost use Rattle.kernel_bench.specs.Squares.{IsSquare, IsSquareOper};

use field_word::Modulus;
use matrix_core::Matrix;
use matrix_parts::{Oper, whole};
use std::alloc::{AllocError, Global};
use structure_rules::Structure;

/// How a matrix is read: through the view of a structure, transposed where it is primed.
#[derive(Clone, Copy, Debug, PartialEq, Eq)]
pub(crate) struct Reading {
    pub(crate) structure: Structure,
    pub(crate) primed: bool,
}

/// A matrix as it is.
pub(crate) const GENERAL: Reading = Reading {
    structure: Structure::General,
    primed: false,
};

/// A matrix whose diagonal alone matters.
pub(crate) const DIAGONAL: Reading = Reading {
    structure: Structure::Diagonal,
    primed: false,
};

impl Reading {
    /// The matrix as an operand.
    pub(crate) fn of<'a>(self, matrix: &'a Matrix) -> Oper<'a>
        requires { matrix.now.rows ≡ matrix.now.cols }
        ensures structure { result.structure ≡ self.structure }
        ensures primed { result.primed ≡ self.primed }
        ensures square { (m n : ℕ) → IsSquare m n matrix.now → IsSquareOper m n result }
    {
        Oper {
            part: whole(matrix),
            structure: self.structure,
            primed: self.primed,
        }
    }

    /// Whether its structure is one that is solved with.
    pub(crate) fn is_triangular(self) -> bool
        ensures { IsTrue result → IsTriangular self.structure }
    {
        match self.structure {
            Structure::General | Structure::Symmetric => false,
            _ => true,
        }
    }
}

/// The next number of a linear congruential sequence: Knuth, The Art of Computer Programming, volume 2, section 3.3.4.
fn next(state: u64) -> u64 {
    state
        .wrapping_mul(6364136223846793005)
        .wrapping_add(1442695040888963407)
}

/// So many residues, which a seed determines. Its one error is want of memory.
pub(crate) fn residues(
    alloc: Global,
    m: Modulus,
    count: usize,
    seed: u64,
) -> Result<Vec<u64>, AllocError>
    ensures count { IfOk result (λ v. vec_len v ≡ count) }
    ensures residues { IfOk result (λ v. All (λ x. x < m) v.items) }
{
    let mut numbers = vec![in alloc; 0; count]?;
    let mut state = seed;
    for i in 0..count {
        state = next(state);
        numbers[i] = (state >> 32) % m.value();
    }
    Ok(numbers)
}

/// A matrix of n by n residues, which a seed determines. Its one error is want of memory.
pub(crate) fn square(alloc: Global, m: Modulus, n: u32, seed: u64) -> Result<Matrix, AllocError>
    ensures { IfOk result (IsSquare m n) }
{
    let entries = residues(alloc, m, n as usize * n as usize, seed)?;
    Ok(Matrix::from_entries(n, n, entries))
}
