//! Each kernel, so many times in place.

ghost use Rattle.std.specs.Prelude.{◌≡◌, ◌*◌, ◌<◌, All, OnOk, false, length};
ghost use Rattle.structure_rules.specs.declared.Structure.TheVariants.{Diagonal};
ghost use Rattle.structure_rules.specs.Structures.{IsTriangular};
ghost use Rattle.kernel_bench.specs.Squares.{IsSquare, IsSquareOper, IsSquarePart};

use crate::unit::add_product;
use field_word::Modulus;
use kernel_lib::{
    BadPivot, factor_ldl, factor_lu, pivots, pivots_sylvester, solve_left, solve_right,
    solve_right_ldl, solve_sylvester, update, update_ldl,
};
use matrix_core::Matrix;
use matrix_parts::{Oper, PartMut, whole_of};
use std::alloc::{AllocError, Global};
use structure_rules::Structure;

/// Why a task has no result.
#[derive(Clone, Copy, Debug, PartialEq, Eq)]
pub(crate) enum Failure {
    /// There was no memory for the operands.
    WantOfMemory,
    /// A kernel met a pivot that is no unit.
    BadPivot,
    /// An operand that is solved with is not triangular.
    NoTriangle,
}

impl From<AllocError> for Failure {
    fn from(_error: AllocError) -> Failure {
        Failure::WantOfMemory
    }
}

impl From<BadPivot> for Failure {
    fn from(_place: BadPivot) -> Failure {
        Failure::BadPivot
    }
}

/// How much a kernel has to do: all matrices are n by n, with entries modulo m, and it runs so many times.
#[derive(Clone, Copy, Debug)]
pub(crate) struct Amount {
    pub(crate) m: Modulus,
    pub(crate) n: u32,
    pub(crate) count: u32,
}

/// The same operand, lent once more.
fn again<'a>(o: &Oper<'a>) -> Oper<'a>
    ensures { result ≡ o.now }
{
    Oper {
        part: o.part.reborrow(),
        structure: o.structure,
        primed: o.primed,
    }
}

/// Adds `a * b` on the entries of a structure.
pub(crate) fn run_update(
    amount: Amount,
    a: &Oper<'_>,
    b: &Oper<'_>,
    inside: Structure,
    w: &mut PartMut<'_>,
)
    requires first { IsSquareOper amount.m amount.n a.now }
    requires second { IsSquareOper amount.m amount.n b.now }
    requires work { IsSquarePart amount.m amount.n w.old }
    ensures { IsSquarePart amount.m amount.n w.new }
{
    'runs: for _ in 0..amount.count {
        update(amount.m, false, w, inside, again(a), again(b));
    }
}

/// Subtracts `a * d * b`, where d is the diagonal of a matrix.
pub(crate) fn run_update_ldl(
    amount: Amount,
    a: &Oper<'_>,
    d: &Oper<'_>,
    b: &Oper<'_>,
    inside: Structure,
    w: &mut PartMut<'_>,
)
    requires first { IsSquareOper amount.m amount.n a.now }
    requires middle { IsSquareOper amount.m amount.n d.now }
    requires second { IsSquareOper amount.m amount.n b.now }
    requires work { IsSquarePart amount.m amount.n w.old }
    ensures { IsSquarePart amount.m amount.n w.new }
{
    'runs: for _ in 0..amount.count {
        update_ldl(amount.m, w, inside, again(a), again(d), again(b));
    }
}

/// Solves with t on the left.
pub(crate) fn run_solve_left(
    alloc: Global,
    amount: Amount,
    t: &Oper<'_>,
    w: &mut PartMut<'_>,
) -> Result<(), Failure>
    requires triangular { IsTriangular t.now.structure }
    requires factor { IsSquareOper amount.m amount.n t.now }
    requires work { IsSquarePart amount.m amount.n w.old }
    ensures { OnOk result (IsSquarePart amount.m amount.n w.new) }
{
    let mut inverses = vec![in alloc; 0; amount.n as usize]?;
    let mut row = whole_of(&mut inverses, 1, amount.n);
    pivots(amount.m, again(t), &mut row)?;
    'runs: for _ in 0..amount.count {
        solve_left(amount.m, again(t), row.as_part(), w, Structure::General);
    }
    Ok(())
}

/// Solves with t on the right.
pub(crate) fn run_solve_right(
    alloc: Global,
    amount: Amount,
    t: &Oper<'_>,
    w: &mut PartMut<'_>,
) -> Result<(), Failure>
    requires triangular { IsTriangular t.now.structure }
    requires factor { IsSquareOper amount.m amount.n t.now }
    requires work { IsSquarePart amount.m amount.n w.old }
    ensures { OnOk result (IsSquarePart amount.m amount.n w.new) }
{
    let mut inverses = vec![in alloc; 0; amount.n as usize]?;
    let mut row = whole_of(&mut inverses, 1, amount.n);
    pivots(amount.m, again(t), &mut row)?;
    'runs: for _ in 0..amount.count {
        solve_right(amount.m, again(t), row.as_part(), w, Structure::General);
    }
    Ok(())
}

/// Solves with packed factors L and D on the right, which the diagonal operand f holds.
pub(crate) fn run_solve_right_ldl(
    alloc: Global,
    amount: Amount,
    f: &Oper<'_>,
    w: &mut PartMut<'_>,
) -> Result<(), Failure>
    requires diagonal { (f.now.structure ≡ Diagonal) × (f.now.primed ≡ false) }
    requires factor { IsSquareOper amount.m amount.n f.now }
    requires work { IsSquarePart amount.m amount.n w.old }
    ensures { OnOk result (IsSquarePart amount.m amount.n w.new) }
{
    let mut inverses = vec![in alloc; 0; amount.n as usize]?;
    let mut row = whole_of(&mut inverses, 1, amount.n);
    pivots(amount.m, again(f), &mut row)?;
    'runs: for _ in 0..amount.count {
        solve_right_ldl(amount.m, f.part.reborrow(), row.as_part(), w);
    }
    Ok(())
}

/// Solves with t on the left and u on the right.
pub(crate) fn run_solve_sylvester(
    alloc: Global,
    amount: Amount,
    t: &Oper<'_>,
    u: &Oper<'_>,
    w: &mut PartMut<'_>,
) -> Result<(), Failure>
    requires triangular { IsTriangular t.now.structure × IsTriangular u.now.structure }
    requires first { IsSquareOper amount.m amount.n t.now }
    requires second { IsSquareOper amount.m amount.n u.now }
    requires work { IsSquarePart amount.m amount.n w.old }
    ensures { OnOk result (IsSquarePart amount.m amount.n w.new) }
{
    let mut inverses = vec![in alloc; 0; amount.n as usize * amount.n as usize]?;
    let mut block = whole_of(&mut inverses, amount.n, amount.n);
    pivots_sylvester(amount.m, again(t), again(u), false, &mut block)?;
    'runs: for _ in 0..amount.count {
        solve_sylvester(amount.m, again(t), again(u), false, block.as_part(), w);
    }
    Ok(())
}

/// Factors what the last run left into L and U, packed in its place.
pub(crate) fn run_factor_lu(amount: Amount, w: &mut PartMut<'_>) -> Result<(), Failure>
    requires { IsSquarePart amount.m amount.n w.old }
    ensures { OnOk result (IsSquarePart amount.m amount.n w.new) }
{
    'runs: for _ in 0..amount.count {
        factor_lu(amount.m, w)?;
    }
    Ok(())
}

/// Factors what the last run left into L and D, packed in its place.
pub(crate) fn run_factor_ldl(amount: Amount, w: &mut PartMut<'_>) -> Result<(), Failure>
    requires { IsSquarePart amount.m amount.n w.old }
    ensures { OnOk result (IsSquarePart amount.m amount.n w.new) }
{
    'runs: for _ in 0..amount.count {
        factor_ldl(amount.m, w)?;
    }
    Ok(())
}

/// Finds the inverses of the pivots of t, and leaves them as the first row of the entries.
pub(crate) fn run_pivots(
    alloc: Global,
    amount: Amount,
    t: &Oper<'_>,
    entries: &mut [u64],
) -> Result<(), Failure>
    requires factor { IsSquareOper amount.m amount.n t.now }
    requires count { length entries.old ≡ amount.n * amount.n }
{
    let mut inverses = vec![in alloc; 0; amount.n as usize]?;
    let mut row = whole_of(&mut inverses, 1, amount.n);
    'runs: for _ in 0..amount.count {
        pivots(amount.m, again(t), &mut row)?;
    }
    for i in 0..entries.len().min(inverses.len()) {
        entries[i] = inverses[i];
    }
    Ok(())
}

/// Adds the product of two matrices by the plain loop.
pub(crate) fn run_unit(
    alloc: Global,
    amount: Amount,
    first: &Matrix,
    second: &Matrix,
    entries: &mut [u64],
) -> Result<(), Failure>
    requires first { IsSquare amount.m amount.n first.now }
    requires second { IsSquare amount.m amount.n second.now }
    requires count { length entries.old ≡ amount.n * amount.n }
    requires residues { All (λ x. x < amount.m) entries.old }
{
    let mut sums = vec![in alloc; 0; amount.n as usize]?;
    'runs: for _ in 0..amount.count {
        add_product(amount.m, entries, &mut sums, first, second);
    }
    Ok(())
}
