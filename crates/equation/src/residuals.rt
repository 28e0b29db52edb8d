//! Where a matrix isn't the work matrix that a statement leaves. It takes no memory.

ghost use Rattle.std.specs.Prelude.{◌≡◌, ◌↔◌, ℕ, ◌+◌, ◌<◌, length, All, IfSome, IsNone, IsTrue, MatchOption};
ghost use Rattle.residue_sums.specs.Residues.{IsModulus};
ghost use Rattle.residue_sums.specs.Grids.{AreResidues};
ghost use Rattle.operation_spec.specs.ValidOperations.{IsValid};
ghost use Rattle.equation.specs.Candidates.{HasPiece, HoldsHere, IsCandidate, IsFirstInPiece, IsPiece, knowns_of, work_of};
ghost use Rattle.equation.specs.Equations.{left_side, right_side, Satisfies};
ghost use Rattle.equation.specs.Jobs.{Fits, known_grids, nth_grid};
ghost use Rattle.equation.specs.Residuals.{HoldsAt, IsFirstInRow, IsFirstResidual};

use crate::candidate::Candidate;
use crate::job::Place;
use crate::row_products::PIECE;
use field_word::Modulus;
use matrix_core::{Matrix, MatrixList};
use operation_spec::{Binding, Operation};

/// Whether the entry is as it has to be, where the sides of the equation have these entries.
fn holds(c: &Candidate, at: Place, left: u64, right: u64) -> bool
    requires candidate { IsCandidate c.now }
    requires row_in { at.row < (work_of c.now).rows }
    requires col_in { at.col < (work_of c.now).cols }
    requires left { left ≡ left_side c.now.m c.now.op.now
        (knowns_of c.now) c.now.after.now at.row at.col }
    requires right { right ≡ right_side c.now.m c.now.op.now (knowns_of c.now)
        (work_of c.now) at.row at.col }
    ensures { IsTrue result ↔ HoldsAt c.now.m c.now.op.now (knowns_of c.now)
        (work_of c.now) c.now.after.now at.row at.col }
{
    if c.op.work.structure.zero(at.row, at.col) {
        c.after.get(at.row, at.col) == c.work().get(at.row, at.col)
    } else {
        left == right
    }
}

/// Of the entries of a row from a place on, at which the sides of the equation have these entries, the first that isn't as
/// it has to be.
fn first_among(c: &Candidate, at: Place, left: &[u64], right: &[u64]) -> Option<Place>
    requires candidate { IsCandidate c.now }
    requires piece { IsPiece c.now at (length left.now) }
    requires places { length right.now ≡ length left.now }
    requires left { HasPiece (left_side c.now.m c.now.op.now
        (knowns_of c.now) c.now.after.now) at left.now }
    requires right { HasPiece (right_side c.now.m c.now.op.now (knowns_of c.now)
        (work_of c.now)) at right.now }
    ensures { MatchOption result ((j : ℕ) → j < length left.now
        → HoldsHere c.now at.row (at.col + j)) (IsFirstInPiece c.now at (length left.now)) }
{
    for j in 0..left.len() {
        let place = Place {
            row: at.row,
            col: at.col + j as u32,
        };
        if !holds(c, place, left[j], right[j]) {
            return Some(place);
        }
    }
    None
}

/// Of so many entries of a row from a place on, the first that isn't as it has to be.
fn first_in_piece(c: &Candidate, at: Place, width: usize) -> Option<Place>
    requires candidate { IsCandidate c.now }
    requires piece { IsPiece c.now at width }
    ensures { MatchOption result ((j : ℕ) → j < width → HoldsHere c.now at.row (at.col + j))
        (IsFirstInPiece c.now at width) }
{
    let mut left = [0; PIECE];
    let mut right = [0; PIECE];
    c.write_left(&mut left[..width], at);
    c.write_right(&mut right[..width], at);
    first_among(c, at, &left[..width], &right[..width])
}

/// Of a row, piece by piece.
fn first_in_row(c: &Candidate, row: u32) -> Option<Place>
    requires candidate { IsCandidate c.now }
    requires row_in { row < (work_of c.now).rows }
    ensures { MatchOption result ((j : ℕ) → j < (work_of c.now).cols → HoldsHere c.now row j)
        (IsFirstInRow c.now.m c.now.op.now (knowns_of c.now) (work_of c.now) c.now.after.now row) }
{
    let cols = c.after.cols() as usize;
    for piece in 0..cols / PIECE + 1 {
        let from = piece * PIECE;
        let at = Place {
            row,
            col: from as u32,
        };
        let first = first_in_piece(c, at, usize::min(PIECE, cols - from));
        if first.is_some() {
            return first;
        }
    }
    None
}

/// Of all rows.
fn first_in_rows(c: &Candidate) -> Option<Place>
    requires candidate { IsCandidate c.now }
    ensures { MatchOption result (Satisfies c.now.m c.now.op.now (knowns_of c.now)
        (work_of c.now) c.now.after.now)
        (IsFirstResidual c.now.m c.now.op.now (knowns_of c.now) (work_of c.now) c.now.after.now) }
{
    for row in 0..c.after.rows() {
        let first = first_in_row(c, row);
        if first.is_some() {
            return first;
        }
    }
    None
}

/// The first entry, row by row, at which a statement's equation fails between its work matrix and `after`, or, outside the
/// work structure, `after` has another entry than the work matrix. There is none exactly where `after` is a work matrix that
/// the statement may leave. The binding fits the operation, `after` has the shape of the work matrix, and the entries of all
/// matrices are residues.
pub fn residual(
    op: &Operation,
    m: Modulus,
    matrices: &MatrixList,
    bind: &Binding,
    after: &Matrix,
) -> Option<Place>
    requires modulus { IsModulus m }
    requires valid { IsValid op.now }
    requires fits { Fits op.now matrices.now bind.now }
    requires residues { All (AreResidues m) matrices.now }
    requires rows { after.now.rows ≡ (nth_grid matrices.now bind.now.work).rows }
    requires cols { after.now.cols ≡ (nth_grid matrices.now bind.now.work).cols }
    requires after { AreResidues m after.now }
    ensures none { IsNone result ↔ Satisfies m op.now (known_grids matrices.now bind.now)
        (nth_grid matrices.now bind.now.work) after.now }
    ensures first { IfSome result (IsFirstResidual m op.now (known_grids matrices.now bind.now)
        (nth_grid matrices.now bind.now.work) after.now) }
{
    first_in_rows(&Candidate {
        m,
        op,
        matrices: matrices.as_slice(),
        bind,
        after,
    })
}

/// The same of the entries of one row, which is below the rows of `after`.
pub fn residual_row(
    op: &Operation,
    m: Modulus,
    matrices: &MatrixList,
    bind: &Binding,
    after: &Matrix,
    row: u32,
) -> Option<Place>
    requires modulus { IsModulus m }
    requires valid { IsValid op.now }
    requires fits { Fits op.now matrices.now bind.now }
    requires residues { All (AreResidues m) matrices.now }
    requires rows { after.now.rows ≡ (nth_grid matrices.now bind.now.work).rows }
    requires cols { after.now.cols ≡ (nth_grid matrices.now bind.now.work).cols }
    requires after { AreResidues m after.now }
    requires row_in { row < after.now.rows }
    ensures none { IsNone result ↔ ((j : ℕ) → j < after.now.cols
        → HoldsAt m op.now (known_grids matrices.now bind.now) (nth_grid matrices.now bind.now.work) after.now row j) }
    ensures first { IfSome result (IsFirstInRow m op.now (known_grids matrices.now bind.now)
        (nth_grid matrices.now bind.now.work) after.now row) }
{
    let candidate = Candidate {
        m,
        op,
        matrices: matrices.as_slice(),
        bind,
        after,
    };
    first_in_row(&candidate, row)
}
