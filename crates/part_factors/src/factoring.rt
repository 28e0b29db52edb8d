//! Which factors are found in the place of a square part, and modulo which number.

ghost use Rattle.std.specs.Prelude.{◌≡◌};
ghost use Rattle.part_factors.specs.ColumnFactors.{first_row_of};

use row_products::Reducer;

/// The factors that a square part is packed into.
#[derive(Clone, Copy, Debug, PartialEq, Eq)]
pub(crate) enum FactorKind {
    /// L, unit lower, below the diagonal, and U, upper, on it and above: L * U.
    Lu,
    /// L, unit lower, below the diagonal, and D on it, of a part that is read there alone: L * D * L'.
    Ldl,
}

/// A search for factors modulo m.
#[derive(Clone, Copy, Debug)]
pub(crate) struct Factoring {
    pub(crate) m: Reducer,
    pub(crate) kind: FactorKind,
}

impl Factoring {
    /// The first row in which a column from `from` on has entries that are found.
    pub(crate) fn first_row(&self, from: u32) -> u32
        ensures { result ≡ first_row_of self.now.kind from }
    {
        match self.kind {
            FactorKind::Lu => 0,
            FactorKind::Ldl => from,
        }
    }
}
