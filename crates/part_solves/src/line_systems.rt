//! A triangular system on the lines of a part: which unknown comes when, what its equation reads, and how it is solved for.

ghost use Rattle.std.specs.Prelude.{◌≡◌, ◌≢◌, ℕ, ◌+◌, ◌*◌, ◌%◌, ◌<◌, ◌≤◌, ◌⊎◌, ◌↔◌, IsTrue};
ghost use Rattle.residue_sums.specs.Residues.{Cong, IsModulus};
ghost use Rattle.structure_rules.specs.declared.Structure.TheVariants.{Upper, UnitUpper};
ghost use Rattle.matrix_algebra.proofs.Triangles.{structure_of};
ghost use Rattle.matrix_parts.specs.Opers.{op_rows, op_cols, op_table};
ghost use Rattle.part_solves.specs.LineSystems.{IsReadable, IsReady, IsEquation, IsInBand, IsInLine, equation_of, order_in};

use matrix_parts::{Oper, Part};
use row_products::Reducer;
use structure_rules::Structure;

/// A triangular table whose rows are equations between the unknowns of each line of a part.
#[derive(Drop)]
pub(crate) struct LineSystem<'a> {
    pub(crate) reducer: Reducer,
    /// The triangular table, square.
    pub(crate) table: Oper<'a>,
    /// One row with the inverses of its diagonal, which is not read where the table has ones there by its structure.
    pub(crate) inverses: Part<'a>,
    /// The structure of the part: its other entries are no unknowns, and are read as 0.
    pub(crate) inside: Structure,
    /// Whether a line is a column of the part, or a row of it.
    pub(crate) turned: bool,
}

/// An equation of the table: the unknown that it is solved for, and which others it reads, so many from a first one on.
#[derive(Clone, Copy, Debug)]
pub(crate) struct Equation {
    pub(crate) unknown: u32,
    pub(crate) from: u32,
    pub(crate) len: u32,
}

/// Equations that are solved one after another: so many after the first `start`.
#[derive(Clone, Copy, Debug)]
pub(crate) struct Group {
    pub(crate) start: u32,
    pub(crate) count: u32,
}

/// The rows of the table that a group of equations has, so many from one on, and the columns that they read, so many from
/// another one on.
#[derive(Clone, Copy, Debug)]
pub(crate) struct Band {
    pub(crate) row: u32,
    pub(crate) count: u32,
    pub(crate) from: u32,
    pub(crate) width: u32,
}

/// So many lines of a part, from a first one on.
#[derive(Clone, Copy, Debug)]
pub(crate) struct Lines {
    pub(crate) first: u32,
    pub(crate) count: usize,
}

impl<'a> LineSystem<'a> {
    /// How many unknowns a line has.
    pub(crate) fn size(&self) -> u32
        ensures { result ≡ op_rows self.now.table }
    {
        self.table.rows()
    }

    /// The structure of the table, as it is oriented.
    pub(crate) fn structure(&self) -> Structure
        ensures { result ≡ structure_of self.now.table.primed self.now.table.structure }
    {
        if self.table.primed {
            self.table.structure.transposed()
        } else {
            self.table.structure
        }
    }

    /// Whether the unknowns are solved for from the last to the first.
    pub(crate) fn is_descending(&self) -> bool
        ensures upper { IsTrue result → (structure_of self.now.table.primed self.now.table.structure
            ≡ Upper)
            ⊎ (structure_of self.now.table.primed self.now.table.structure ≡ UnitUpper) }
        ensures others { ¬ (IsTrue result)
            → (structure_of self.now.table.primed self.now.table.structure ≢ Upper)
            × (structure_of self.now.table.primed self.now.table.structure ≢ UnitUpper) }
    {
        match self.structure() {
            Structure::Upper | Structure::UnitUpper => true,
            _ => false,
        }
    }

    /// The equation that is solved after r others: they ascend where the table is lower, and descend where it is upper.
    pub(crate) fn equation_at(&self, r: u32) -> Equation
        requires readable { IsReadable self.now }
        requires before_end { r < op_rows self.now.table }
        ensures place { order_in self.now.table result.unknown ≡ r }
        ensures equation { IsEquation self.now.table result }
        ensures span { result ≡ equation_of
            (structure_of self.now.table.primed self.now.table.structure)
            (op_rows self.now.table) r }
    {
        let n = self.size();
        match self.structure() {
            Structure::Lower | Structure::UnitLower => Equation {
                unknown: r,
                from: 0,
                len: r,
            },
            Structure::Upper | Structure::UnitUpper => Equation {
                unknown: n - 1 - r,
                from: n - r,
                len: r,
            },
            _ => Equation {
                unknown: r,
                from: 0,
                len: 0,
            },
        }
    }

    /// The rows and the columns of the table that a group of equations reads.
    pub(crate) fn band_of(&self, group: Group) -> Band
        requires within { group.start + group.count ≤ op_rows self.now.table }
        ensures count { result.count ≡ group.count }
        ensures rows { result.row + group.count ≤ op_rows self.now.table }
        ensures cols { result.from + result.width ≤ op_rows self.now.table }
        ensures width { result.width ≡ group.start + group.count }
        ensures holds { (r : ℕ) → group.start ≤ r → r < group.start + group.count
            → IsInBand result
            (equation_of (structure_of self.now.table.primed self.now.table.structure)
            (op_rows self.now.table) r) }
    {
        let n = self.size();
        let width = group.start + group.count;
        match self.structure() {
            Structure::Upper | Structure::UnitUpper => Band {
                row: n - width,
                count: group.count,
                from: n - width,
                width,
            },
            _ => Band {
                row: group.start,
                count: group.count,
                from: 0,
                width,
            },
        }
    }

    /// The inverse of entry i on the diagonal.
    pub(crate) fn inverse_at(&self, i: u32) -> u64
        requires ready { IsReady self.now }
        requires row_in { i < op_rows self.now.table }
        ensures range { result < self.now.reducer }
        ensures inverts { (op_table self.now.table i i * result) % self.now.reducer ≡ 1 }
    {
        let _modulus = self.reducer.modulus();
        match self.table.structure {
            Structure::UnitLower | Structure::UnitUpper => 1,
            _ => {
                let _cols = self.inverses.cols();
                self.inverses.get(0, i)
            }
        }
    }

    /// A fact: the entries of the table, as it is read, are residues.
    pub(crate) fn has_residues(&self)
        requires readable { IsReadable self.now }
        ensures modulus { IsModulus self.now.reducer }
        ensures table { (i k : ℕ) → i < op_rows self.now.table → k < op_rows self.now.table
            → op_table self.now.table i k < self.now.reducer }
    {
        let _modulus = self.reducer.modulus();
        let _rows = self.table.part.rows();
    }

    /// Whether unknown i of a line is an entry of the part's structure.
    pub(crate) fn is_inside(&self, line: u32, i: u32) -> bool
        ensures { IsTrue result ↔ IsInLine self.now.turned self.now.inside line i }
    {
        if self.turned {
            self.inside.inside(i, line)
        } else {
            self.inside.inside(line, i)
        }
    }
}

/// The x for which `sum + t * x` is the right side, where `inverse` is that of t. The difference is reduced as a sum, since a
/// test whether it is negative would be foreseen wrongly every second time.
pub(crate) fn unknown(m: Reducer, right: u64, sum: u64, inverse: u64) -> u64
    requires right { right < m }
    requires sum { sum < m }
    requires inverse { inverse < m }
    ensures solves { (t : ℕ) → (t * inverse) % m ≡ 1 → Cong m (sum + t * result) right }
    ensures range { result < m }
{
    let value = m.modulus().value();
    m.product(m.residue(right + value - sum), inverse)
}
