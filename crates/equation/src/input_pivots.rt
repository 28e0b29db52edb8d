//! The first bad pivot of a statement among those that its known matrices give: the diagonals of triangular factors.

ghost use Rattle.std.specs.Prelude.{◌≡◌, ◌≢◌, ◌↔◌, ℕ, ◌<◌, ◌≤◌, length, All, IsTrue, MatchOption};
ghost use Rattle.residue_sums.specs.Residues.{IsModulus, IsUnit};
ghost use Rattle.residue_sums.specs.Grids.{AreResidues};
ghost use Rattle.operation_spec.specs.declared.operation.Form.TheVariants.{Left, Right, Sylvester};
ghost use Rattle.operation_spec.specs.ValidOperations.{IsValid};
ghost use Rattle.equation.specs.declared.job.Place.{Place};
ghost use Rattle.equation.specs.Candidates.{combined_at, IsReadable, view_cols, view_rows, view_table};
ghost use Rattle.equation.specs.Jobs.{Fits, known_grids, nth_grid};
ghost use Rattle.equation.specs.Pivots.{IsFirstBadInputPivot, IsFirstByRows, IsFirstOnDiagonal};

use crate::job::Place;
use crate::row_products::combined;
use crate::views::{FactorView, factor_view};
use field_word::Modulus;
use matrix_core::{Matrix, MatrixList};
use operation_spec::{Binding, Factor, Form, Operation};

/// Whether a residue has an inverse.
fn is_unit(m: Modulus, a: u64) -> bool
    requires { a < m }
    ensures { IsTrue result ↔ IsUnit m a }
{
    m.inverse(a).is_some()
}

/// The first entry on the diagonal that has no inverse.
fn first_on_diagonal(m: Modulus, t: &FactorView) -> Option<Place>
    requires readable { IsReadable m t.now }
    requires square { view_rows t.now ≡ view_cols t.now }
    ensures { MatchOption result ((i : ℕ) → i < view_rows t.now → IsUnit m (view_table t.now i i))
        (IsFirstOnDiagonal m (view_rows t.now) (λ i. view_table t.now i i)) }
{
    for i in 0..t.rows() {
        if !is_unit(m, t.entry(i, i)) {
            return Some(Place { row: i, col: i });
        }
    }
    None
}

/// Of the sums of a number and the entries on a diagonal, or of the differences, the first that has no inverse, as its column.
fn first_in_row(m: Modulus, minus: bool, a: u64, u: &FactorView) -> Option<u32>
    requires residue { a < m }
    requires readable { IsReadable m u.now }
    requires square { view_rows u.now ≡ view_cols u.now }
    ensures { MatchOption result ((j : ℕ) → j < view_rows u.now
        → IsUnit m (combined_at m minus a (view_table u.now j j)))
        (λ col. (col < view_rows u.now) × ¬ (IsUnit m (combined_at m minus a (view_table u.now col col)))
        × ((j : ℕ) → j < col → IsUnit m (combined_at m minus a (view_table u.now j j)))) }
{
    for j in 0..u.rows() {
        if !is_unit(m, combined(m, minus, a, u.entry(j, j))) {
            return Some(j);
        }
    }
    None
}

/// Of the sums of entries on two diagonals, or of the differences, the first, row by row, that has no inverse.
fn first_by_rows(m: Modulus, minus: bool, t: &FactorView, u: &FactorView) -> Option<Place>
    requires first { IsReadable m t.now }
    requires second { IsReadable m u.now }
    requires first_square { view_rows t.now ≡ view_cols t.now }
    requires second_square { view_rows u.now ≡ view_cols u.now }
    ensures { MatchOption result ((i j : ℕ) → i < view_rows t.now → j < view_rows u.now
        → IsUnit m (combined_at m minus (view_table t.now i i) (view_table u.now j j)))
        (IsFirstByRows m (view_rows t.now) (view_rows u.now) (λ i j. combined_at m minus (view_table t.now i i) (view_table u.now j j))) }
{
    for i in 0..t.rows() {
        if let Some(col) = first_in_row(m, minus, t.entry(i, i), u) {
            return Some(Place { row: i, col });
        }
    }
    None
}

/// The first bad pivot that matrices give, at a slice of them.
fn first_given(op: &Operation, m: Modulus, matrices: &[Matrix], bind: &Binding) -> Option<Place>
    requires modulus { IsModulus m }
    requires valid { IsValid op.now }
    requires fits { Fits op.now matrices.now bind.now }
    requires residues { All (AreResidues m) matrices.now }
    ensures { MatchOption result ((place : Place)
        → ¬ (IsFirstBadInputPivot m op.now (known_grids matrices.now bind.now)
        (nth_grid matrices.now bind.now.work) place))
        (IsFirstBadInputPivot m op.now (known_grids matrices.now bind.now) (nth_grid matrices.now bind.now.work)) }
{
    match op.form {
        Form::Left { t } => first_on_diagonal(m, &factor_view(m, op, matrices, bind, t)),
        Form::Right { t } => first_on_diagonal(m, &factor_view(m, op, matrices, bind, t)),
        Form::Sylvester { t, u, minus } => {
            let t = factor_view(m, op, matrices, bind, t);
            let u = factor_view(m, op, matrices, bind, u);
            first_by_rows(m, minus, &t, &u)
        },
        Form::Assign | Form::Lu | Form::Ldl => None,
    }
}

/// The first bad pivot of an operation of the form `op(T) * X = R`, `X * op(T) = R`, `op(T) * X + X * op(U) = R` or
/// `op(T) * X - X * op(U) = R`, and None for each other operation. The binding fits the operation, and the entries of the
/// matrices are residues.
pub fn first_bad_input_pivot(
    op: &Operation,
    m: Modulus,
    matrices: &MatrixList,
    bind: &Binding,
) -> Option<Place>
    requires modulus { IsModulus m }
    requires valid { IsValid op.now }
    requires fits { Fits op.now matrices.now bind.now }
    requires residues { All (AreResidues m) matrices.now }
    ensures { MatchOption result ((place : Place)
        → ¬ (IsFirstBadInputPivot m op.now (known_grids matrices.now bind.now)
        (nth_grid matrices.now bind.now.work) place))
        (IsFirstBadInputPivot m op.now (known_grids matrices.now bind.now) (nth_grid matrices.now bind.now.work)) }
{
    first_given(op, m, matrices.as_slice(), bind)
}
