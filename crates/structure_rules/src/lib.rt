//! The seven structures of an operand: how a view reads a stored matrix, which blocks of the view hold zeros
//! alone, and what the view of a transpose is. `laws` says what the definitions of `specs/Structures.antt` mean
//! together.
#![tactic(auto)]

pub mod laws;

ghost use Rattle.std.specs.Prelude.{◌≡◌, ◌↔◌, IsTrue};

use item_lists::ItemList;

/// Numbers in their order.
pub type NumberList = ItemList<u32>;

/// How an operand reads the matrix that is stored for it. Every structure but `General` is of a square matrix.
#[derive(Clone, Copy, Debug, PartialEq, Eq)]
pub enum Structure {
    /// Each entry as it is stored.
    General,
    /// The entries on and below the diagonal, and 0 above.
    Lower,
    /// The entries below the diagonal, 1 on it and 0 above.
    UnitLower,
    /// The entries on and above the diagonal, and 0 below.
    Upper,
    /// The entries above the diagonal, 1 on it and 0 below.
    UnitUpper,
    /// The entries on the diagonal, and 0 elsewhere.
    Diagonal,
    /// The entries on and below the diagonal, and above it their mirror images.
    Symmetric,
}

/// The place that is stored for an entry, or for a block, of a view. Where `transposed` is true, the view has the
/// transpose of the stored block.
#[derive(Clone, Copy, Debug, PartialEq, Eq)]
pub struct Stored {
    pub row: u32,
    pub col: u32,
    pub transposed: bool,
}

impl Structure {
    ghost use Rattle.structure_rules.specs.Structures.{IsZero, is_zero, IsInside, stored_of, transpose_of};

    /// Whether block (i, j) holds zeros alone, whatever is stored. At block size 1 a block is an entry.
    pub fn zero(self, i: u32, j: u32) -> bool
        ensures exact { IsTrue result ↔ IsZero self i j }
        ensures test { result ≡ is_zero self i j }
    {
        match self {
            Structure::General | Structure::Symmetric => false,
            Structure::Lower | Structure::UnitLower => i < j,
            Structure::Upper | Structure::UnitUpper => i > j,
            Structure::Diagonal => i != j,
        }
    }

    /// Whether block (i, j) may hold something else than zeros: the contrary of `zero`.
    pub fn inside(self, i: u32, j: u32) -> bool
        ensures exact { IsTrue result ↔ IsInside self i j }
    {
        !self.zero(i, j)
    }

    /// The stored place that the view reads at (i, j), of an entry or of a block.
    pub fn stored(self, i: u32, j: u32) -> Stored
        ensures place { result ≡ stored_of self i j }
    {
        if self == Structure::Symmetric && i < j {
            Stored {
                row: j,
                col: i,
                transposed: true,
            }
        } else {
            Stored {
                row: i,
                col: j,
                transposed: false,
            }
        }
    }

    /// The structure of the transpose.
    pub fn transposed(self) -> Structure
        ensures exact { result ≡ transpose_of self }
    {
        match self {
            Structure::Lower => Structure::Upper,
            Structure::UnitLower => Structure::UnitUpper,
            Structure::Upper => Structure::Lower,
            Structure::UnitUpper => Structure::UnitLower,
            same => same,
        }
    }
}
