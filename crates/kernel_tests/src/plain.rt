//! What kernels are given and have to leave, entry by entry.

use crate::cases::{Case, Kernel};
use crate::numbers::Numbers;
use crate::operands::{Operand, View};
use field_word::Modulus;
use kernel_lib::BadPivot;
use structure_rules::Structure;

/// A row and a column.
#[derive(Clone, Copy)]
struct Place {
    row: u32,
    col: u32,
}

/// A residue plus the product of two.
fn with_product(m: Modulus, sum: u64, x: u64, y: u64) -> u64 {
    sum.wrapping_add(x.wrapping_mul(y)) % m.value()
}

/// The sum of two residues, or their difference.
fn combined(modulus: Modulus, minus: bool, x: u64, y: u64) -> u64 {
    let m = modulus.value();
    if minus {
        x.wrapping_add(m).wrapping_sub(y) % m
    } else {
        x.wrapping_add(y) % m
    }
}

/// An entry of a product with so many inner numbers.
fn product(m: Modulus, inner: u32, first: &View<'_>, second: &View<'_>, at: Place) -> u64 {
    let mut sum = 0;
    for k in 0..inner {
        sum = with_product(m, sum, first.at(at.row, k), second.at(k, at.col));
    }
    sum
}

/// An entry of the product of three factors, of which the middle one is square with so many rows.
fn product_of_three(
    m: Modulus,
    inner: u32,
    first: &View<'_>,
    middle: &View<'_>,
    second: &View<'_>,
    at: Place,
) -> u64 {
    let mut sum = 0;
    for row in 0..inner {
        let right = if middle.is_diagonal() {
            with_product(m, 0, middle.at(row, row), second.at(row, at.col))
        } else {
            product(m, inner, middle, second, Place { row, col: at.col })
        };
        sum = with_product(m, sum, first.at(at.row, row), right);
    }
    sum
}

/// An entry of X * D * L', where `packed` has L below its diagonal and D on it.
fn product_with_packed(m: Modulus, inner: u32, x: &View<'_>, packed: &View<'_>, at: Place) -> u64 {
    let diagonal = packed.read(Structure::Diagonal, false);
    let lower = packed.read(Structure::UnitLower, true);
    product_of_three(m, inner, x, &diagonal, &lower, at)
}

/// A case with its operands, and the matrix that the kernel is to leave.
#[derive(Clone, Copy)]
pub struct Plain<'a> {
    pub case: Case,
    pub first: &'a Operand,
    pub middle: &'a Operand,
    pub second: &'a Operand,
    pub left: &'a Operand,
}

impl Plain<'_> {
    /// An entry of the product that an update adds or subtracts.
    fn added(&self, at: Place) -> u64 {
        let (m, inner) = (self.case.m, self.case.inner);
        let (first, second) = (self.first.view(), self.second.view());
        if self.case.kernel == Kernel::UpdateLdl {
            product_of_three(m, inner, &first, &self.middle.view(), &second, at)
        } else {
            product(m, inner, &first, &second, at)
        }
    }

    /// An entry of T * X.
    fn with_left(&self, at: Place) -> u64 {
        let seen = self.left.view().read(self.case.inside(), false);
        product(self.case.m, self.case.rows, &self.first.view(), &seen, at)
    }

    /// An entry of X * U.
    fn with_right(&self, at: Place) -> u64 {
        let seen = self.left.view().read(self.case.inside(), false);
        product(self.case.m, self.case.cols, &seen, &self.second.view(), at)
    }

    /// An entry of the product of the factors that are to be found.
    fn factored(&self, at: Place) -> u64 {
        let (m, n, packed) = (self.case.m, self.case.rows, self.left.view());
        let lower = packed.read(Structure::UnitLower, false);
        if self.case.kernel == Kernel::FactorLu {
            let upper = packed.read(Structure::Upper, false);
            product(m, n, &lower, &upper, at)
        } else {
            product_with_packed(m, n, &lower, &packed, at)
        }
    }

    /// What an entry inside is before, where the kernel leaves x.
    fn before(&self, x: u64, at: Place) -> u64 {
        let (m, minus) = (self.case.m, self.case.minus());
        match self.case.kernel {
            Kernel::Update => combined(m, !minus, x, self.added(at)),
            Kernel::UpdateLdl => combined(m, false, x, self.added(at)),
            Kernel::SolveLeft => self.with_left(at),
            Kernel::SolveRight => self.with_right(at),
            Kernel::SolveRightLdl => {
                let (x, packed) = (self.left.view(), self.second.view());
                product_with_packed(m, self.case.cols, &x, &packed, at)
            }
            Kernel::SolveSylvester => combined(m, minus, self.with_left(at), self.with_right(at)),
            Kernel::FactorLu | Kernel::FactorLdl => self.factored(at),
            Kernel::Pivots | Kernel::PivotsSylvester => x,
        }
    }

    /// A pivot: of a row, of a column, or of both.
    fn pivot(&self, at: Place) -> u64 {
        let (first, second) = (self.first.view(), self.second.view());
        match self.case.kernel {
            Kernel::SolveLeft => first.at(at.row, at.row),
            Kernel::SolveRight | Kernel::Pivots => second.at(at.col, at.col),
            Kernel::SolveRightLdl => second.read(Structure::General, false).at(at.col, at.col),
            Kernel::SolveSylvester | Kernel::PivotsSylvester => {
                let (x, y) = (first.at(at.row, at.row), second.at(at.col, at.col));
                combined(self.case.m, self.case.minus(), x, y)
            }
            Kernel::FactorLu | Kernel::FactorLdl => self.left.view().at(at.row, at.row),
            Kernel::Update | Kernel::UpdateLdl => 1,
        }
    }

    /// The inverse of a pivot.
    fn inverse(&self, at: Place) -> Option<u64> {
        let m = self.case.m;
        m.inverse(self.pivot(at) % m.value())
    }

    /// Whether there is a pivot.
    fn has_pivot(&self, at: Place) -> bool {
        let case = self.case;
        match case.kernel {
            Kernel::SolveSylvester | Kernel::PivotsSylvester => {
                at.row < case.rows && at.col < case.cols
            }
            Kernel::SolveLeft => at.row == at.col && at.row < case.rows,
            _ => at.row == at.col && at.row < case.cols,
        }
    }

    /// The first pivot, row by row, that is no unit.
    pub fn bad_pivot(&self) -> Option<BadPivot> {
        let most = self.case.rows.max(self.case.cols);
        for row in 0..most {
            for col in 0..most {
                let at = Place { row, col };
                if self.has_pivot(at) && self.inverse(at).is_none() {
                    return Some(BadPivot { row, col });
                }
            }
        }
        None
    }

    /// What is to stand in a place of the work matrix.
    fn after(&self, at: Place) -> u64 {
        match self.case.kernel {
            Kernel::Pivots | Kernel::PivotsSylvester => match self.inverse(at) {
                Some(x) => x,
                None => 0,
            },
            _ => self.left.view().at(at.row, at.col),
        }
    }

    /// The row and the column of a number of the work matrix.
    fn place(&self, number: usize) -> Place {
        let number = u32::try_from(number).unwrap_or(0);
        match self.case.cols {
            0 => Place { row: 0, col: 0 },
            cols => Place {
                row: number / cols,
                col: number % cols,
            },
        }
    }

    /// Whether all numbers are those that are to stand in the work matrix.
    pub fn is_left_in(&self, entries: &[u64]) -> bool {
        for (number, x) in entries.iter().enumerate() {
            if *x != self.after(self.place(number)) {
                return false;
            }
        }
        true
    }
}

impl Numbers for Plain<'_> {
    /// What the kernel is given in a place of the work matrix.
    fn number(&self, place: usize) -> u64 {
        let at = self.place(place);
        let x = self.left.view().at(at.row, at.col);
        if self.case.inside().inside(at.row, at.col) {
            self.before(x, at)
        } else {
            x
        }
    }
}
