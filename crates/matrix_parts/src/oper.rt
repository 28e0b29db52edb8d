ghost use Rattle.std.specs.Prelude.{◌≡◌, ◌≢◌, ℕ, ◌+◌, ◌<◌, ◌≤◌};
ghost use Rattle.residue_sums.specs.Grids.{IsFull, entry};
ghost use Rattle.structure_rules.specs.declared.Structure.TheVariants.{General};
ghost use Rattle.structure_rules.specs.Structures.{view};
ghost use Rattle.matrix_parts.specs.Opers.{op_rows, op_cols, op_table, IsOper};

use crate::part::Part;
use structure_rules::Structure;

/// A part that is read through the view of a structure, transposed where it is primed.
#[derive(Drop)]
pub struct Oper<'a> {
    pub part: Part<'a>,
    pub structure: Structure,
    pub primed: bool,
}

impl<'a> Part<'a> {
    /// The entry in row i and column j of the view of this part by a structure.
    pub fn view_entry(&self, s: Structure, i: u32, j: u32) -> u64
        requires row_in { i < self.now.rows }
        requires col_in { j < self.now.cols }
        requires square { s ≢ General → self.now.rows ≡ self.now.cols }
        ensures { result ≡ view s (entry self.now) i j }
    {
        match s {
            Structure::General => self.get(i, j),
            Structure::Lower => if j <= i { self.get(i, j) } else { 0 },
            Structure::UnitLower => if i == j {
                1
            } else if j < i {
                self.get(i, j)
            } else {
                0
            },
            Structure::Upper => if i <= j { self.get(i, j) } else { 0 },
            Structure::UnitUpper => if i == j {
                1
            } else if i < j {
                self.get(i, j)
            } else {
                0
            },
            Structure::Diagonal => if i == j { self.get(i, j) } else { 0 },
            Structure::Symmetric => if j <= i {
                self.get(i, j)
            } else {
                self.get(j, i)
            },
        }
    }
}

impl<'a> Oper<'a> {
    /// The transposed operand: the same part, read the other way.
    pub fn turned(&self) -> Oper<'a>
        ensures part { result.part ≡ self.now.part }
        ensures structure { result.structure ≡ self.now.structure }
        ensures rows { op_rows result ≡ op_cols self.now }
        ensures cols { op_cols result ≡ op_rows self.now }
        ensures table { (i j : ℕ) → op_table result i j ≡ op_table self.now j i }
    {
        Oper {
            part: self.part.reborrow(),
            structure: self.structure,
            primed: !self.primed,
        }
    }

    /// How many rows it has, as it is oriented.
    pub fn rows(&self) -> u32
        ensures rows { result ≡ op_rows self.now }
    {
        if self.primed {
            self.part.cols()
        } else {
            self.part.rows()
        }
    }

    /// How many columns it then has.
    pub fn cols(&self) -> u32
        ensures cols { result ≡ op_cols self.now }
    {
        if self.primed {
            self.part.rows()
        } else {
            self.part.cols()
        }
    }

    /// The entry in row i and column j of the view, as it is oriented.
    pub fn get(&self, i: u32, j: u32) -> u64
        requires oper { IsOper self.now }
        requires row_in { i < op_rows self.now }
        requires col_in { j < op_cols self.now }
        ensures { result ≡ op_table self.now i j }
    {
        if self.primed {
            self.part.view_entry(self.structure, j, i)
        } else {
            self.part.view_entry(self.structure, i, j)
        }
    }
}
