//! Matrices that kernels read, and what plain bodies see of them.

ghost use Rattle.std.specs.Prelude.{◌≡◌, ◌≢◌, IfOk, if◌then◌else◌};
ghost use Rattle.structure_rules.specs.declared.Structure.TheVariants.{General};
ghost use Rattle.kernel_tests.specs.Shapes.{IsRead};

use crate::numbers::{Diagonal, Drawn, residues};
use field_word::Modulus;
use matrix_core::Matrix;
use matrix_parts::{Oper, whole};
use std::alloc::{AllocError, Global};
use structure_rules::Structure;

/// How a matrix is read: through the view of a structure, transposed where it is primed.
#[derive(Clone, Copy, Debug, PartialEq, Eq)]
pub struct Reading {
    pub structure: Structure,
    pub primed: bool,
}

/// A matrix as it is.
pub const PLAIN: Reading = Reading {
    structure: Structure::General,
    primed: false,
};

/// A matrix, and how it is read.
#[derive(Drop)]
pub struct Operand {
    pub matrix: Matrix,
    pub reading: Reading,
}

/// What a matrix is drawn by: a seed, what stands on its diagonal, and the row where a 0 does.
#[derive(Clone, Copy, Debug)]
pub struct Plan {
    pub m: Modulus,
    pub seed: u64,
    pub diagonal: Diagonal,
    pub zero: Option<usize>,
}

/// How many rows a matrix has that is read as one of so many rows and columns; with the two exchanged, how many columns.
fn stored(primed: bool, rows: u32, cols: u32) -> u32
    ensures { result ≡ (if primed then cols else rows) }
{
    if primed { cols } else { rows }
}

/// A matrix that is read as one of so many rows and columns. Its one error is want of memory.
pub fn drawn(
    alloc: Global,
    plan: Plan,
    reading: Reading,
    rows: u32,
    cols: u32,
) -> Result<Operand, AllocError>
    requires { reading.structure ≢ General → rows ≡ cols }
    ensures reading { IfOk result (λ o. o.reading ≡ reading) }
    ensures read { IfOk result (λ o. IsRead plan.m rows cols o.reading.structure o.reading.primed o.matrix) }
{
    let (r, c) = (
        stored(reading.primed, rows, cols),
        stored(reading.primed, cols, rows),
    );
    let numbers = Drawn {
        m: plan.m,
        seed: plan.seed,
        cols: c,
        diagonal: plan.diagonal,
        zero: plan.zero,
    };
    let entries = residues(alloc, plan.m, r as usize * c as usize, &numbers)?;
    Ok(Operand {
        matrix: Matrix::from_entries(r, c, entries),
        reading,
    })
}

impl Operand {
    /// It as kernels are given it.
    pub fn oper(&self) -> Oper<'_>
        ensures part { result.part ≡ self.now.matrix }
        ensures structure { result.structure ≡ self.now.reading.structure }
        ensures primed { result.primed ≡ self.now.reading.primed }
    {
        Oper {
            part: whole(&self.matrix),
            structure: self.reading.structure,
            primed: self.reading.primed,
        }
    }

    /// It as plain bodies see it.
    pub fn view(&self) -> View<'_> {
        View {
            entries: self.matrix.entries(),
            cols: self.matrix.cols(),
            reading: self.reading,
        }
    }
}

/// Entries row by row, seen through a structure.
#[derive(Drop)]
pub struct View<'a> {
    entries: &'a [u64],
    cols: u32,
    reading: Reading,
}

impl<'a> View<'a> {
    /// The same entries, read in another way.
    pub fn read(&self, structure: Structure, primed: bool) -> View<'a> {
        View {
            entries: self.entries,
            cols: self.cols,
            reading: Reading { structure, primed },
        }
    }

    /// Whether what it shows is 0 off the diagonal.
    pub fn is_diagonal(&self) -> bool {
        self.reading.structure == Structure::Diagonal
    }

    /// The entry that is stored in row i and column j, and 0 where none is.
    fn stored(&self, i: u32, j: u32) -> u64 {
        let row = (i as usize).wrapping_mul(self.cols as usize);
        match self.entries.get(row.wrapping_add(j as usize)) {
            Some(x) => *x,
            None => 0,
        }
    }

    /// What is seen in row i and column j.
    pub fn at(&self, i: u32, j: u32) -> u64 {
        let (i, j) = if self.reading.primed { (j, i) } else { (i, j) };
        match self.reading.structure {
            Structure::UnitLower | Structure::UnitUpper if i == j => 1,
            Structure::Symmetric if i < j => self.stored(j, i),
            structure => if structure.inside(i, j) {
                self.stored(i, j)
            } else {
                0
            },
        }
    }
}
