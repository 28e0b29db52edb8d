//! One run of each kernel.

ghost use Rattle.std.specs.Prelude.{◌≡◌, ◌≢◌};
ghost use Rattle.structure_rules.specs.Structures.{IsTriangular};
ghost use Rattle.kernel_tests.specs.Shapes.{IsRead, IsWork};

use crate::cases::{Case, Kernel};
use crate::operands::Operand;
use kernel_lib::{
    BadPivot, factor_ldl, factor_lu, pivots, pivots_sylvester, solve_left, solve_right,
    solve_right_ldl, solve_sylvester, update, update_ldl,
};
use matrix_parts::{Oper, PartMut, whole, whole_of};
use std::alloc::{AllocError, Global};
use structure_rules::Structure;

/// Why a run leaves no result.
#[derive(Clone, Copy, Debug, PartialEq, Eq)]
pub enum Failure {
    WantOfMemory,
    BadPivot(BadPivot),
}

impl From<AllocError> for Failure {
    fn from(_error: AllocError) -> Failure {
        Failure::WantOfMemory
    }
}

impl From<BadPivot> for Failure {
    fn from(place: BadPivot) -> Failure {
        Failure::BadPivot(place)
    }
}

/// Adds or subtracts a product of the first operand, the middle one where the kernel has one, and the second one.
pub fn run_product(case: &Case, a: &Operand, d: &Operand, b: &Operand, w: &mut PartMut<'_>)
    requires first { IsRead case.now.m case.now.rows case.now.inner
        a.now.reading.structure a.now.reading.primed a.now.matrix }
    requires middle { IsRead case.now.m case.now.inner case.now.inner
        d.now.reading.structure d.now.reading.primed d.now.matrix }
    requires second { IsRead case.now.m case.now.inner case.now.cols
        b.now.reading.structure b.now.reading.primed b.now.matrix }
    requires work { IsWork case.now.m case.now.rows case.now.cols w.old }
{
    let (m, inside) = (case.m, case.inside());
    match case.kernel {
        Kernel::UpdateLdl => update_ldl(m, w, inside, a.oper(), d.oper(), b.oper()),
        _ => update(m, case.minus(), w, inside, a.oper(), b.oper()),
    }
}

/// Solves with t on the left.
fn run_left(alloc: Global, case: &Case, t: &Operand, w: &mut PartMut<'_>) -> Result<(), Failure>
    requires triangular { IsTriangular t.now.reading.structure }
    requires factor { IsRead case.now.m case.now.rows case.now.rows
        t.now.reading.structure t.now.reading.primed t.now.matrix }
    requires work { IsWork case.now.m case.now.rows case.now.cols w.old }
{
    let mut inverses = vec![in alloc; 0; case.rows as usize]?;
    let mut row = whole_of(&mut inverses, 1, case.rows);
    pivots(case.m, t.oper(), &mut row)?;
    solve_left(case.m, t.oper(), row.as_part(), w, case.work());
    Ok(())
}

/// Solves with u on the right.
fn run_right(alloc: Global, case: &Case, u: &Operand, w: &mut PartMut<'_>) -> Result<(), Failure>
    requires triangular { IsTriangular u.now.reading.structure }
    requires factor { IsRead case.now.m case.now.cols case.now.cols
        u.now.reading.structure u.now.reading.primed u.now.matrix }
    requires work { IsWork case.now.m case.now.rows case.now.cols w.old }
{
    let mut inverses = vec![in alloc; 0; case.cols as usize]?;
    let mut row = whole_of(&mut inverses, 1, case.cols);
    pivots(case.m, u.oper(), &mut row)?;
    solve_right(case.m, u.oper(), row.as_part(), w, case.work());
    Ok(())
}

/// Solves with the factors L and D that the matrix of u packs.
fn run_right_ldl(
    alloc: Global,
    case: &Case,
    u: &Operand,
    w: &mut PartMut<'_>,
) -> Result<(), Failure>
    requires triangular { IsTriangular u.now.reading.structure }
    requires factor { IsRead case.now.m case.now.cols case.now.cols
        u.now.reading.structure u.now.reading.primed u.now.matrix }
    requires work { IsWork case.now.m case.now.rows case.now.cols w.old }
{
    let diagonal = Oper {
        part: whole(&u.matrix),
        structure: Structure::Diagonal,
        primed: false,
    };
    let mut inverses = vec![in alloc; 0; case.cols as usize]?;
    let mut row = whole_of(&mut inverses, 1, case.cols);
    pivots(case.m, diagonal, &mut row)?;
    solve_right_ldl(case.m, whole(&u.matrix), row.as_part(), w);
    Ok(())
}

/// Finds the inverses of the pivots of u, where the work matrix is one row.
fn run_pivots(case: &Case, u: &Operand, w: &mut PartMut<'_>) -> Result<(), Failure>
    requires factor { IsRead case.now.m case.now.cols case.now.cols
        u.now.reading.structure u.now.reading.primed u.now.matrix }
    requires work { IsWork case.now.m case.now.rows case.now.cols w.old }
{
    if w.rows() == 1 {
        pivots(case.m, u.oper(), w)?;
    }
    Ok(())
}

/// Solves with the first operand on the left, the second one on the right, or both, or finds the inverses of their pivots.
pub fn run_solve(
    alloc: Global,
    case: &Case,
    t: &Operand,
    u: &Operand,
    w: &mut PartMut<'_>,
) -> Result<(), Failure>
    requires triangular { IsTriangular t.now.reading.structure × IsTriangular u.now.reading.structure }
    requires left { IsRead case.now.m case.now.rows case.now.rows
        t.now.reading.structure t.now.reading.primed t.now.matrix }
    requires right { IsRead case.now.m case.now.cols case.now.cols
        u.now.reading.structure u.now.reading.primed u.now.matrix }
    requires work { IsWork case.now.m case.now.rows case.now.cols w.old }
{
    match case.kernel {
        Kernel::SolveLeft => run_left(alloc, case, t, w),
        Kernel::SolveRight => run_right(alloc, case, u, w),
        Kernel::SolveRightLdl => run_right_ldl(alloc, case, u, w),
        // with the sum of t on the left and u on the right, or with their difference
        Kernel::SolveSylvester => {
            let minus = case.minus();
            let mut inverses = vec![in alloc; 0; case.rows as usize * case.cols as usize]?;
            let mut block = whole_of(&mut inverses, case.rows, case.cols);
            pivots_sylvester(case.m, t.oper(), u.oper(), minus, &mut block)?;
            solve_sylvester(case.m, t.oper(), u.oper(), minus, block.as_part(), w);
            Ok(())
        }
        Kernel::Pivots => run_pivots(case, u, w),
        _ => {
            pivots_sylvester(case.m, t.oper(), u.oper(), case.minus(), w)?;
            Ok(())
        }
    }
}

/// Factors a square work matrix.
pub fn run_factor(case: &Case, w: &mut PartMut<'_>) -> Result<(), Failure>
    requires { IsWork case.now.m case.now.rows case.now.rows w.old }
{
    match case.kernel {
        Kernel::FactorLu => factor_lu(case.m, w)?,
        _ => factor_ldl(case.m, w)?,
    }
    Ok(())
}
