//! Cases: a kernel, a modulus, sizes, and a number that determines everything else.

ghost use Rattle.std.specs.Prelude.{◌≡◌, ◌≢◌};
ghost use Rattle.structure_rules.specs.declared.Structure.TheVariants.{General};
ghost use Rattle.structure_rules.specs.Structures.{IsTriangular, IsWorkStructure};

use crate::numbers::Diagonal;
use crate::operands::{Plan, Reading};
use field_word::Modulus;
use structure_rules::Structure;

/// A kernel.
#[derive(Clone, Copy, Debug, PartialEq, Eq)]
pub enum Kernel {
    Update,
    UpdateLdl,
    SolveLeft,
    SolveRight,
    SolveRightLdl,
    SolveSylvester,
    Pivots,
    PivotsSylvester,
    FactorLu,
    FactorLdl,
}

/// A kernel on a work matrix of so many rows and columns, with a product of so many inner numbers.
#[derive(Clone, Copy, Debug)]
pub struct Case {
    pub kernel: Kernel,
    pub m: Modulus,
    pub rows: u32,
    pub inner: u32,
    pub cols: u32,
    pub turn: u32,
}

/// A triangular structure.
fn triangle_at(turn: u32) -> Structure
    ensures { IsTriangular result }
{
    match turn % 5 {
        0 => Structure::Lower,
        1 => Structure::UnitLower,
        2 => Structure::Upper,
        3 => Structure::UnitUpper,
        _ => Structure::Diagonal,
    }
}

/// Any structure.
fn structure_at(turn: u32) -> Structure {
    match turn % 7 {
        5 => Structure::General,
        6 => Structure::Symmetric,
        other => triangle_at(other),
    }
}

impl Case {
    /// Whether a kernel subtracts that may do either.
    pub fn minus(self) -> bool {
        self.turn / 16 % 2 == 1
    }

    /// How the first factor is read, or the second one, which is a triangle.
    pub fn triangle(self, second: bool) -> Reading
        ensures { IsTriangular result.structure }
    {
        if second {
            Reading {
                structure: triangle_at(self.turn / 5),
                primed: self.turn / 8 % 2 == 1,
            }
        } else {
            Reading {
                structure: triangle_at(self.turn),
                primed: self.turn / 4 % 2 == 1,
            }
        }
    }

    /// How the first factor of a product is read, or the second one, of so many rows and columns.
    pub fn factor(self, second: bool, rows: u32, cols: u32) -> Reading
        ensures { result.structure ≢ General → rows ≡ cols }
    {
        let turn = if second { self.turn / 7 } else { self.turn };
        Reading {
            structure: if rows == cols {
                structure_at(turn)
            } else {
                Structure::General
            },
            primed: self.triangle(second).primed,
        }
    }

    /// How the middle factor of a product is read: as a diagonal one in every other case.
    pub fn middle(self) -> Reading {
        Reading {
            structure: if self.turn % 2 == 0 {
                Structure::Diagonal
            } else {
                structure_at(self.turn / 11)
            },
            primed: self.turn / 2 % 2 == 1,
        }
    }

    /// What stands on the diagonal of the factor on the right: what leaves units for pivots, but for what is planted.
    pub fn right_diagonal(self) -> Diagonal {
        match self.kernel {
            Kernel::SolveSylvester | Kernel::PivotsSylvester => if self.minus() {
                Diagonal::Subtracted
            } else {
                Diagonal::Added
            },
            _ => Diagonal::Low,
        }
    }

    /// The entries that a system is solved for.
    pub fn work(self) -> Structure
        ensures work { IsWorkStructure result }
        ensures square { result ≢ General → self.rows ≡ self.cols }
    {
        if self.rows != self.cols {
            return Structure::General;
        }
        match self.turn % 3 {
            0 => Structure::General,
            1 => Structure::Lower,
            _ => Structure::Upper,
        }
    }

    /// The entries that the kernel writes.
    pub fn inside(self) -> Structure {
        match self.kernel {
            Kernel::Update | Kernel::UpdateLdl => structure_at(self.turn / 3),
            Kernel::SolveLeft | Kernel::SolveRight => self.work(),
            Kernel::FactorLdl => Structure::Lower,
            _ => Structure::General,
        }
    }

    /// How a matrix is drawn. In some cases one number on the diagonal is 0, in a row below so many.
    pub fn plan(self, which: u32, diagonal: Diagonal, rows: u32) -> Plan
        ensures { result.m ≡ self.m }
    {
        let zero = if self.turn % 6 == 5 && rows != 0 {
            Some((self.turn / 6 % rows) as usize)
        } else {
            None
        };
        Plan {
            m: self.m,
            seed: u64::from(self.turn) * 5 + u64::from(which),
            diagonal,
            zero,
        }
    }
}
