//! A matrix as a factor reads it.

ghost use Rattle.std.specs.Prelude.{◌≡◌, ◌≢◌, ℕ, ◌<◌, ◌≤◌, length, All, IsTrue};
ghost use Rattle.residue_sums.specs.Residues.{IsModulus};
ghost use Rattle.residue_sums.specs.Grids.{AreResidues};
ghost use Rattle.structure_rules.specs.declared.Structure.TheVariants.{General};
ghost use Rattle.operation_spec.specs.ValidOperations.{IsValid};
ghost use Rattle.equation.specs.Candidates.{IsViewOf, view_cols, view_rows, view_table};
ghost use Rattle.equation.specs.Jobs.{Fits, known_grids};

use field_word::Modulus;
use matrix_core::Matrix;
use operation_spec::{Binding, Factor, Operation};
use structure_rules::Structure;

/// A matrix that is read through a structure, and transposed where `primed` is true.
#[derive(Clone, Copy)]
pub(crate) struct FactorView<'a> {
    pub matrix: &'a Matrix,
    pub structure: Structure,
    pub primed: bool,
}

impl FactorView<'_> {
    /// How many rows it has, as it is read.
    pub fn rows(&self) -> u32
        ensures { result ≡ view_rows self.now }
    {
        if self.primed {
            self.matrix.cols()
        } else {
            self.matrix.rows()
        }
    }

    /// How many columns it has.
    pub fn cols(&self) -> u32
        ensures { result ≡ view_cols self.now }
    {
        if self.primed {
            self.matrix.rows()
        } else {
            self.matrix.cols()
        }
    }

    /// The entry in row i and column j.
    pub fn entry(&self, i: u32, j: u32) -> u64
        requires row_in { i < view_rows self.now }
        requires col_in { j < view_cols self.now }
        requires square { self.now.structure ≢ General
            → self.now.matrix.now.rows ≡ self.now.matrix.now.cols }
        ensures { result ≡ view_table self.now i j }
    {
        if self.primed {
            self.matrix.view_entry(self.structure, j, i)
        } else {
            self.matrix.view_entry(self.structure, i, j)
        }
    }

    /// Whether its structure has zeros alone above the diagonal.
    fn zero_above(&self) -> bool
        ensures { IsTrue result → (i k : ℕ) → i < k → view_table self.now i k ≡ 0 }
    {
        if self.primed {
            self.structure.zero(1, 0)
        } else {
            self.structure.zero(0, 1)
        }
    }

    /// Whether its structure has zeros alone below the diagonal.
    fn zero_below(&self) -> bool
        ensures { IsTrue result → (i k : ℕ) → k < i → view_table self.now i k ≡ 0 }
    {
        if self.primed {
            self.structure.zero(0, 1)
        } else {
            self.structure.zero(1, 0)
        }
    }

    /// The column before which row i holds zeros alone.
    pub fn row_start(&self, i: u32) -> u32
        ensures { (k : ℕ) → k < result → view_table self.now i k ≡ 0 }
    {
        if self.zero_below() { i } else { 0 }
    }

    /// The column from which on row i holds zeros alone.
    pub fn row_end(&self, i: u32) -> u32
        requires { i < view_rows self.now }
        ensures zeros { (k : ℕ) → result ≤ k → k < view_cols self.now
            → view_table self.now i k ≡ 0 }
        ensures within { result ≤ view_cols self.now }
    {
        let _rows = self.rows();
        if self.zero_above() {
            u32::min(i + 1, self.cols())
        } else {
            self.cols()
        }
    }

    /// The row before which the columns from j on hold zeros alone.
    pub fn col_start(&self, j: u32) -> u32
        ensures { (k c : ℕ) → k < result → j ≤ c → view_table self.now k c ≡ 0 }
    {
        if self.zero_above() { j } else { 0 }
    }

    /// The row from which on the columns below j hold zeros alone.
    pub fn col_end(&self, j: u32) -> u32
        ensures zeros { (k c : ℕ) → result ≤ k → k < view_rows self.now → c < j
            → view_table self.now k c ≡ 0 }
        ensures within { result ≤ view_rows self.now }
    {
        if self.zero_below() {
            u32::min(j, self.rows())
        } else {
            self.rows()
        }
    }
}

/// The view of a factor's matrix, of the matrices that an operation is bound to, which hold residues.
pub(crate) fn factor_view<'a>(
    m: Modulus,
    op: &Operation,
    matrices: &'a [Matrix],
    bind: &Binding,
    f: Factor,
) -> FactorView<'a>
    requires modulus { IsModulus m }
    requires valid { IsValid op.now }
    requires fits { Fits op.now matrices.now bind.now }
    requires residues { All (AreResidues m) matrices.now }
    requires known { f.known < length op.now.knowns }
    ensures { IsViewOf m op.now (known_grids matrices.now bind.now) f result }
{
    let at = f.known as usize;
    let number = bind.knowns.as_slice()[at];
    FactorView {
        matrix: &matrices[number as usize],
        structure: op.knowns.as_slice()[at].structure,
        primed: f.primed,
    }
}
