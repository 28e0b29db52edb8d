ghost use Rattle.std.specs.Prelude.{◌≡◌};
ghost use Rattle.matrix_text.specs.declared.fault.MatrixFault.TheVariants.{Memory, Syntax};

use std::alloc::{AllocError, AllocFailed};
use text_scan::TextEnd;

/// Why lines were not read as a matrix. Each fault of the text has the number of its line.
#[derive(Clone, Copy, Debug, PartialEq, Eq)]
pub enum MatrixFault {
    /// Memory ran out.
    Memory,
    /// The line isn't of its form, another line is due, or the text ends.
    Syntax { line: u32 },
    /// Rows or columns pass 1,024, or the entries pass the room that is left for them.
    TooLarge { line: u32 },
    /// A row doesn't have as many numbers as there are columns, or `end` stands where a row is due.
    RowLength { line: u32 },
    /// An entry isn't below the modulus.
    EntryRange { line: u32 },
}

impl From<AllocError> for MatrixFault {
    ghost from_gives = { λ _ e. e ≡ Memory };

    fn from(_e: AllocError) -> MatrixFault {
        MatrixFault::Memory
    }
}

impl<T: Drop> From<AllocFailed<T>> for MatrixFault {
    ghost from_gives = { λ _ e. e ≡ Memory };

    fn from(_e: AllocFailed<T>) -> MatrixFault {
        MatrixFault::Memory
    }
}

impl From<TextEnd> for MatrixFault {
    ghost from_gives = { λ end e. e ≡ Syntax end.line };

    fn from(end: TextEnd) -> MatrixFault {
        MatrixFault::Syntax { line: end.line }
    }
}
