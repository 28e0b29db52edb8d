//! The step that tests the pivots of a statement: it fills the statement's list with their inverses, row by row.

ghost use Rattle.std.specs.Prelude.{◌≡◌, ◌≢◌, ℕ, ◌<◌, OnOk, Err};
ghost use Rattle.residue_sums.specs.Sums.{part_count};
ghost use Rattle.residue_sums.specs.Grids.{entry};
ghost use Rattle.matrix_parts.specs.Lent.{grid_of, loan_of, IsPart, IsKept};
ghost use Rattle.equation.specs.Kernels.{combined};
ghost use Rattle.kernel_lib.specs.BadPivot.{BadPivot};
ghost use Rattle.kernel_lib.specs.BadPlaces.{IsFirstInRow};
ghost use Rattle.flash_blocks.specs.Blocks.{Blocks};
ghost use Rattle.block_kernels.specs.PivotLists as pivots;
ghost use Rattle.block_kernels.specs.PivotLists.{diagonal_pivot, paired_pivots, pivots_of};
ghost use Rattle.block_kernels.specs.PivotLists.{ArePivots, AreInverted, CanInvert};
ghost use Rattle.block_kernels.specs.PivotLists.{HasDiagonal, HasInverse, HasPivot};

use crate::block_task::BlockTask;
use equation::Place;
use field_word::Modulus;
use kernel_lib::BadPivot;
use matrix_parts::PartMut;
use operation_spec::{Factor, Form};

/// The sum of two residues, or their difference where `minus` is true.
fn sum_or_difference(m: Modulus, minus: bool, first: u64, second: u64) -> u64
    requires first { first < m }
    requires second { second < m }
    ensures value { result ≡ combined m minus (λ i j. first) (λ i j. second) 0 0 }
    ensures range { result < m }
{
    if minus {
        m.sub(first, second)
    } else {
        m.add(first, second)
    }
}

impl BlockTask<'_> {
    /// The pivot at place q of a factor, whose diagonal blocks the task reads from a place on.
    fn factor_pivot(&self, f: Factor, from: usize, q: u32) -> u64
        requires has { HasPivot self.now f from q }
        ensures value { (knowns : ℕ → Blocks) (n : ℕ) → HasDiagonal self.now knowns f from n → q < n
            → result ≡ diagonal_pivot self.now knowns f q }
        ensures range { result < self.now.m }
    {
        let _modulus = self.m.value();
        let _count = self.reads.len();
        let (at, place) = (q / self.b, q % self.b);
        let block = self.factor(f, at, at, from + at as usize);
        block.get(place, place)
    }

    /// The sum or difference of pivots that the entry of a list in row i and column j is to invert.
    fn pair_pivot(&self, t: Factor, u: Factor, minus: bool, rows: u32, at: Place) -> u64
        requires first { HasPivot self.now t 0 at.row }
        requires second { HasPivot self.now u (part_count rows self.now.b) at.col }
        ensures value { (knowns : ℕ → Blocks) (cols : ℕ) → HasDiagonal self.now knowns t 0 rows
            → HasDiagonal self.now knowns u (part_count rows self.now.b) cols
            → at.row < rows → at.col < cols
            → result ≡ paired_pivots self.now knowns t u minus at.row at.col }
        ensures range { result < self.now.m }
    {
        let behind = rows.div_ceil(self.b) as usize;
        let first = self.factor_pivot(t, 0, at.row);
        let second = self.factor_pivot(u, behind, at.col);
        sum_or_difference(self.m, minus, first, second)
    }

    /// What the entry of the list in row i and column j is to invert.
    fn list_pivot(&self, list: &PartMut<'_>, i: u32, j: u32) -> u64
        requires can { CanInvert self.now (grid_of list.now) }
        requires row_in { i < list.now.rows }
        requires col_in { j < list.now.cols }
        ensures value { (knowns : ℕ → Blocks) (rows cols : ℕ)
            → ArePivots self.now knowns rows cols (grid_of list.now)
            → result ≡ pivots_of self.now knowns i j }
        ensures range { result < self.now.m }
    {
        let _modulus = self.m.value();
        match self.op.form {
            Form::Left { t } => self.factor_pivot(t, 0, j),
            Form::Right { t } => self.factor_pivot(t, 0, j),
            Form::Sylvester { t, u, minus } => {
                self.pair_pivot(t, u, minus, list.rows(), Place { row: i, col: j })
            }
            Form::Assign => 0,
            Form::Lu => 0,
            Form::Ldl => 0,
        }
    }

    /// Writes row i of the list, or names the first of its pivots that has no inverse.
    fn write_list_row(&self, i: u32, list: &mut PartMut<'_>) -> Result<(), BadPivot>
        requires part { IsPart list.old }
        requires can { CanInvert self.now (grid_of list.old) }
        requires row_in { i < list.old.rows }
        ensures loan { loan_of list.new ≡ loan_of list.old }
        ensures part { IsPart list.new }
        ensures kept { IsKept list.old list.new }
        ensures others { (a b : ℕ) → a < list.old.rows → b < list.old.cols → a ≢ i
            → entry (grid_of list.new) a b ≡ entry (grid_of list.old) a b }
        ensures inverts { OnOk result ((knowns : ℕ → Blocks) (rows cols j : ℕ)
            → ArePivots self.now knowns rows cols (grid_of list.old) → j < list.old.cols
            → HasInverse self.now.m (pivots_of self.now knowns) (grid_of list.new) i j) }
        ensures bad_pivot { (place : BadPivot) → result ≡ Err place
            → (knowns : ℕ → Blocks) (rows cols : ℕ)
            → ArePivots self.now knowns rows cols (grid_of list.old)
            → IsFirstInRow self.now.m list.old.cols i (pivots_of self.now knowns) place }
    {
        let _modulus = self.m.value();
        for j in 0..list.cols() {
            match self.m.inverse(self.list_pivot(list, i, j)) {
                Some(inverse) => {
                    list.set(i, j, inverse);
                }
                None => return Err(BadPivot { row: i, col: j }),
            }
        }
        Ok(())
    }

    /// The place, in the whole matrix, of the pivot that an entry of the list belongs to.
    fn pivot_place(&self, entry: BadPivot) -> Place
        ensures { result ≡ pivots.pivot_place self.now.op.now.form entry.row entry.col }
    {
        let row = match self.op.form {
            Form::Sylvester { .. } => entry.row,
            _ => entry.col,
        };
        Place {
            row,
            col: entry.col,
        }
    }

    /// Fills the pivot list of the statement with the inverses of its pivots, or answers the first pivot that has none, by its
    /// place in the whole matrix: of Left and Right on the diagonal of their factor, of Sylvester row by row.
    ///
    /// The task is the statement's first, which tests the pivots; it reads the diagonal blocks of T and then those of U. Whatever
    /// the list held before is written over. Where a place is answered, what the list then holds isn't said.
    pub fn write_pivots(&self, list: &mut PartMut<'_>) -> Option<Place>
        requires part { IsPart list.old }
        requires can { CanInvert self.now (grid_of list.old) }
        ensures loan { loan_of list.new ≡ loan_of list.old }
        ensures part { IsPart list.new }
        ensures kept { IsKept list.old list.new }
        ensures outcome { AreInverted self.now (grid_of list.old) (grid_of list.new) result }
    {
        let _modulus = self.m.value();
        for i in 0..list.rows() {
            match self.write_list_row(i, list) {
                Ok(()) => {}
                Err(entry) => return Some(self.pivot_place(entry)),
            }
        }
        None
    }
}
