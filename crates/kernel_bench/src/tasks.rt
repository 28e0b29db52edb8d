//! Tasks: a kernel, how it reads its operands, and how much it has to do.

ghost use Rattle.std.specs.Prelude.{◌≡◌, ◌*◌, ◌<◌, ◌≤◌, All, length};
ghost use Rattle.kernel_bench.specs.Squares.{IsSquare, IsSquareOper, IsSquarePart};

use crate::operands::{DIAGONAL, Reading, residues, square};
use crate::runs::{
    Amount, Failure, run_factor_ldl, run_factor_lu, run_pivots, run_solve_left, run_solve_right,
    run_solve_right_ldl, run_solve_sylvester, run_unit, run_update, run_update_ldl,
};
use matrix_core::Matrix;
use matrix_parts::{Oper, PartMut, whole_of};
use std::alloc::Global;
use structure_rules::Structure;

/// A kernel.
#[derive(Clone, Copy, Debug, PartialEq, Eq)]
pub(crate) enum Kernel {
    Update,
    UpdateLdl,
    SolveLeft,
    SolveRight,
    SolveRightLdl,
    SolveSylvester,
    FactorLu,
    FactorLdl,
    Pivots,
    /// The product by the plain loop.
    Unit,
}

/// A kernel that reads its operands so, and adds to the entries of a structure.
#[derive(Clone, Copy, Debug)]
pub(crate) struct Task {
    pub(crate) kernel: Kernel,
    pub(crate) amount: Amount,
    pub(crate) first: Reading,
    pub(crate) second: Reading,
    pub(crate) inside: Structure,
}

impl Task {
    /// A matrix as an operand.
    fn operand<'a>(&self, reading: Reading, matrix: &'a Matrix) -> Oper<'a>
        requires { IsSquare self.now.amount.m self.now.amount.n matrix.now }
        ensures structure { result.structure ≡ reading.structure }
        ensures primed { result.primed ≡ reading.primed }
        ensures square { IsSquareOper self.now.amount.m self.now.amount.n result }
    {
        reading.of(matrix)
    }

    /// Runs a kernel that solves with triangular operands.
    fn run_solve(
        &self,
        alloc: Global,
        first: &Matrix,
        second: &Matrix,
        w: &mut PartMut<'_>,
    ) -> Result<(), Failure>
        requires first { IsSquare self.now.amount.m self.now.amount.n first.now }
        requires second { IsSquare self.now.amount.m self.now.amount.n second.now }
        requires work { IsSquarePart self.now.amount.m self.now.amount.n w.old }
    {
        if !self.first.is_triangular() {
            return Err(Failure::NoTriangle);
        }
        let t = self.operand(self.first, first);
        match self.kernel {
            Kernel::SolveLeft => run_solve_left(alloc, self.amount, &t, w),
            Kernel::SolveRight => run_solve_right(alloc, self.amount, &t, w),
            _ => {
                if self.second.is_triangular() {
                    let u = self.operand(self.second, second);
                    run_solve_sylvester(alloc, self.amount, &t, &u, w)
                } else {
                    Err(Failure::NoTriangle)
                }
            }
        }
    }

    /// Runs a kernel on a work matrix.
    fn run_on(
        &self,
        alloc: Global,
        first: &Matrix,
        second: &Matrix,
        w: &mut PartMut<'_>,
    ) -> Result<(), Failure>
        requires first { IsSquare self.now.amount.m self.now.amount.n first.now }
        requires second { IsSquare self.now.amount.m self.now.amount.n second.now }
        requires work { IsSquarePart self.now.amount.m self.now.amount.n w.old }
    {
        let (a, b) = (
            self.operand(self.first, first),
            self.operand(self.second, second),
        );
        let diagonal = self.operand(DIAGONAL, second);
        match self.kernel {
            Kernel::Update => {
                run_update(self.amount, &a, &b, self.inside, w);
                Ok(())
            }
            Kernel::UpdateLdl => {
                run_update_ldl(self.amount, &a, &diagonal, &b, self.inside, w);
                Ok(())
            }
            Kernel::SolveRightLdl => run_solve_right_ldl(alloc, self.amount, &diagonal, w),
            Kernel::FactorLu => run_factor_lu(self.amount, w),
            Kernel::FactorLdl => run_factor_ldl(self.amount, w),
            _ => self.run_solve(alloc, first, second, w),
        }
    }

    /// Runs the kernel on the entries of a work matrix.
    fn run(
        &self,
        alloc: Global,
        first: &Matrix,
        second: &Matrix,
        entries: &mut [u64],
    ) -> Result<(), Failure>
        requires first { IsSquare self.now.amount.m self.now.amount.n first.now }
        requires second { IsSquare self.now.amount.m self.now.amount.n second.now }
        requires count { length entries.old ≡ self.now.amount.n * self.now.amount.n }
        requires residues { All (λ x. x < self.now.amount.m) entries.old }
    {
        let n = self.amount.n;
        match self.kernel {
            Kernel::Pivots => run_pivots(
                alloc,
                self.amount,
                &self.operand(self.first, first),
                entries,
            ),
            Kernel::Unit => run_unit(alloc, self.amount, first, second, entries),
            _ => self.run_on(alloc, first, second, &mut whole_of(entries, n, n)),
        }
    }

    /// Runs the kernel on residues that a seed determines: a sum over the work matrix that is left, or why there is none.
    pub(crate) fn sum(&self, alloc: Global) -> Result<u64, Failure> {
        let (m, n) = (self.amount.m, self.amount.n);
        let first = square(alloc, m, n, 1)?;
        let second = square(alloc, m, n, 2)?;
        let mut entries = residues(alloc, m, n as usize * n as usize, 3)?;
        self.run(alloc, &first, &second, &mut entries)?;
        Ok(
            entries
                .iter()
                .fold(0, |sum: u64, x| sum.wrapping_mul(31).wrapping_add(*x)),
        )
    }
}
