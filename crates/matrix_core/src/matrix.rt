ghost use Rattle.std.specs.Prelude.{◌≡◌, ◌≢◌, ◌*◌, ◌<◌, ◌≤◌, length, IfOk};
ghost use Rattle.residue_sums.specs.Grids.{IsFull, entry, with_entry};
ghost use Rattle.structure_rules.specs.Structures.{view};
ghost use Rattle.structure_rules.specs.declared.Structure.TheVariants.{General};
ghost use Rattle.matrix_core.specs.Matrices.{zero_grid, IsIdentity};
ghost use Rattle.std.specs.Borrow.{sem};
ghost use Rattle.matrix_core.specs.LentEntries.{LendsEntries};

use std::alloc::{AllocError, Global};
use std::marker::Model;
use structure_rules::Structure;

/// A matrix of whole numbers below 2^64, which it owns. Rows and columns are numbered from 0.
#[derive(Debug, Drop)]
pub struct Matrix {
    rows: u32,
    cols: u32,
    entries: Vec<u64>,
}

impl Model for Matrix {
    ghost use Rattle.std.specs.Prelude.{◌≡◌, ◌*◌, length};
    ghost use Rattle.residue_sums.specs.Grids.{Grid};

    ghost Value = { Grid };

    ghost view = { λ a. record { rows = a.rows; cols = a.cols; entries = a.entries.items } };

    ghost invariant = { λ a. length a.entries.items ≡ a.rows * a.cols };
}

impl Matrix {
    /// The matrix of zeros. Its one error is want of memory.
    pub fn zero(alloc: Global, rows: u32, cols: u32) -> Result<Matrix, AllocError>
        requires few_rows { rows ≤ 2048 }
        requires few_cols { cols ≤ 2048 }
        ensures { IfOk result (λ matrix. matrix ≡ zero_grid rows cols) }
    {
        let entries = vec![in alloc; 0; rows as usize * cols as usize]?;
        Ok(Matrix {
            rows,
            cols,
            entries,
        })
    }

    /// The identity matrix of size n. Its one error is want of memory.
    pub fn identity(alloc: Global, n: u32) -> Result<Matrix, AllocError>
        requires { n ≤ 2048 }
        ensures { IfOk result (IsIdentity n) }
    {
        let mut matrix = Matrix::zero(alloc, n, n)?;
        for i in 0..n {
            matrix.set(i, i, 1);
        }
        Ok(matrix)
    }

    /// The matrix with these entries, row by row. It takes no memory.
    pub fn from_entries(rows: u32, cols: u32, entries: Vec<u64>) -> Matrix
        requires { length entries.items ≡ rows * cols }
        ensures { result ≡ record { rows = rows; cols = cols; entries = entries.items } }
    {
        Matrix {
            rows,
            cols,
            entries,
        }
    }

    /// Lends the entries, row by row.
    pub fn entries(&self) -> &[u64]
        ensures entries { result.now ≡ self.now.entries }
        ensures full { IsFull self.now }
    {
        &self.entries
    }

    /// Lends the entries, row by row, to be written.
    pub fn entries_mut(&mut self) -> &mut [u64]
        ensures* writes_back { sem 𝓛 (LendsEntries self.entry result) }
        ensures entries { result.now ≡ self.old.entries }
        ensures full { IsFull self.old }
    {
        self.entries.as_mut_slice()
    }

    /// The entries as a vector, row by row. It takes no memory.
    pub fn into_entries(self) -> Vec<u64>
        ensures entries { result.items ≡ self.entries }
        ensures full { IsFull self }
    {
        let Matrix {
            rows: _,
            cols: _,
            entries,
        } = self;
        entries
    }

    /// How many rows there are.
    pub fn rows(&self) -> u32
        ensures rows { result ≡ self.now.rows }
        ensures full { IsFull self.now }
    {
        self.rows
    }

    /// How many columns there are.
    pub fn cols(&self) -> u32
        ensures cols { result ≡ self.now.cols }
        ensures full { IsFull self.now }
    {
        self.cols
    }

    /// The entry in row i and column j.
    pub fn get(&self, i: u32, j: u32) -> u64
        requires row_in { i < self.now.rows }
        requires col_in { j < self.now.cols }
        ensures { result ≡ entry self.now i j }
    {
        self.entries[i as usize * self.cols as usize + j as usize]
    }

    /// The entry in row i and column j of the view of this matrix by a structure.
    pub fn view_entry(&self, s: Structure, i: u32, j: u32) -> u64
        requires row_in { i < self.now.rows }
        requires col_in { j < self.now.cols }
        requires square { s ≢ General → self.now.rows ≡ self.now.cols }
        ensures { result ≡ view s (entry self.now) i j }
    {
        match s {
            Structure::General => self.get(i, j),
            Structure::Lower => if j <= i { self.get(i, j) } else { 0 },
            Structure::UnitLower => if i == j {
                1
            } else if j < i {
                self.get(i, j)
            } else {
                0
            },
            Structure::Upper => if i <= j { self.get(i, j) } else { 0 },
            Structure::UnitUpper => if i == j {
                1
            } else if i < j {
                self.get(i, j)
            } else {
                0
            },
            Structure::Diagonal => if i == j { self.get(i, j) } else { 0 },
            Structure::Symmetric => if j <= i {
                self.get(i, j)
            } else {
                self.get(j, i)
            },
        }
    }

    /// Writes the entry in row i and column j. No other entry changes.
    pub fn set(&mut self, i: u32, j: u32, v: u64)
        requires row_in { i < self.old.rows }
        requires col_in { j < self.old.cols }
        ensures { self.new ≡ with_entry self.old i j v }
    {
        let at = i as usize * self.cols as usize + j as usize;
        self.entries[at] = v;
    }

    /// A matrix of its own with the same entries. Its one error is want of memory.
    pub fn copy(&self, alloc: Global) -> Result<Matrix, AllocError>
        ensures { IfOk result (λ matrix. matrix ≡ self.now) }
    {
        let entries = Vec::from_slice(alloc, &self.entries)?;
        Ok(Matrix {
            rows: self.rows,
            cols: self.cols,
            entries,
        })
    }
}

#[cfg(test)]
mod tests {
    use super::*;
    use std::test::Fail;

    #[test]
    fn matrices_are_made(rt: HostRuntime) -> Result<(), Fail> {
        let alloc = rt.alloc();
        let zero = Matrix::zero(alloc, 2, 3)?;
        assert_eq!(rt; zero.entries(), [0; 6].as_slice());
        let identity = Matrix::identity(alloc, 2)?;
        let again = identity.copy(alloc)?;
        assert_eq!(rt; again.into_entries().as_slice(), [1, 0, 0, 1].as_slice());
        Ok(())
    }
}
