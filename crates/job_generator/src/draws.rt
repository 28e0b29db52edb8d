//! Numbers drawn one after another, and the matrices that are made of them.

ghost use Rattle.std.specs.Prelude.{◌≡◌, ◌*◌, ◌-◌, ◌%◌, ◌<◌, ◌≤◌, ◌==◌, if◌then◌else◌};
ghost use Rattle.std.specs.Prelude.{IfOk, OnOk};
ghost use Rattle.residue_sums.specs.Residues.{IsModulus};
ghost use Rattle.flash_blocks.specs.Blocks.{grid_of};
ghost use Rattle.job_generator.specs.Draws.{first_number, next_number, number_after};
ghost use Rattle.job_generator.specs.Draws.{drawn_table, unit_diagonal_table};

use field_word::Modulus;
use matrix_core::Matrix;
use std::alloc::{AllocError, Global};

const PRIME: u64 = 65537;

/// The number that was last drawn from, and the modulus of the draws.
#[derive(Drop)]
pub struct Draws {
    number: u64,
    modulus: u64,
    ghost below: { number < 65537 },
    ghost some_residues: { 0 < modulus },
}

impl Draws {
    /// Nothing was drawn yet.
    pub fn new(modulus: Modulus, seed: u32) -> Draws
        ensures number { result.number ≡ first_number seed }
        ensures modulus { result.modulus ≡ modulus }
        ensures range { IsModulus modulus }
    {
        Draws {
            number: seed as u64 % PRIME,
            modulus: modulus.value(),
        }
    }

    /// Draws a residue.
    fn next(&mut self) -> u64
        ensures drawn { result ≡ next_number self.old.number % self.old.modulus }
        ensures number { self.new.number ≡ next_number self.old.number }
        ensures modulus { self.new.modulus ≡ self.old.modulus }
    {
        self.number = (75 * self.number + 74) % PRIME;
        self.number % self.modulus
    }

    /// The next entry: on the diagonal it is 1 and takes no draw.
    fn next_entry(&mut self, row: u32, col: u32) -> u64
        ensures entry { result ≡ (if row == col then 1
            else next_number self.old.number % self.old.modulus) }
        ensures number { self.new.number ≡ (if row == col then self.old.number
            else next_number self.old.number) }
        ensures modulus { self.new.modulus ≡ self.old.modulus }
    {
        if row == col { 1 } else { self.next() }
    }

    /// Draws the entries of n rows and columns that stand off the diagonal, row by row; those on it
    /// are 1. Its one error is want of memory.
    pub fn unit_diagonal(&mut self, alloc: Global, n: u32) -> Result<Matrix, AllocError>
        requires { n ≤ 1024 }
        ensures matrix { IfOk result (λ matrix.
            matrix ≡ grid_of (unit_diagonal_table self.old.modulus self.old.number n) n n) }
        ensures number { OnOk result (self.new.number ≡ number_after (n * n - n) self.old.number) }
        ensures modulus { self.new.modulus ≡ self.old.modulus }
    {
        let mut entries = Vec::new(alloc);
        for place in 0..n * n {
            let entry = self.next_entry(place / n, place % n);
            entries.push(entry)?;
        }
        Ok(Matrix::from_entries(n, n, entries))
    }

    /// Draws all entries of n rows and columns, row by row. Its one error is want of memory.
    pub fn matrix(&mut self, alloc: Global, n: u32) -> Result<Matrix, AllocError>
        requires { n ≤ 1024 }
        ensures { IfOk result (λ matrix.
            matrix ≡ grid_of (drawn_table self.old.modulus self.old.number n) n n) }
    {
        let mut entries = Vec::new(alloc);
        for _place in 0..n * n {
            entries.push(self.next())?;
        }
        Ok(Matrix::from_entries(n, n, entries))
    }
}
