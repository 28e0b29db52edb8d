ghost use Rattle.std.specs.Prelude.{◌≡◌};
ghost use Rattle.worksheet_text.specs.declared.fault.WsFault.TheVariants.{Memory, Syntax};

use std::alloc::{AllocError, AllocFailed};
use text_scan::TextEnd;
use thiserror::Error;

/// Why a text was not read as a worksheet. Each fault of the text has the number of its line.
#[derive(Clone, Copy, Debug, Error, PartialEq, Eq)]
pub enum WsFault {
    /// Memory ran out.
    #[error("memory ran out")]
    Memory,
    /// The line isn't of its form, another line is due, the text ends, or a line follows `end`.
    #[error("line {line}: not of the form that is due")]
    Syntax { line: u32 },
    /// The job has no such operation, or the operation no such dimension.
    #[error("line {line}: a name that is not declared")]
    NameUnknown { line: u32 },
    /// The second dimension of the split isn't declared after the first.
    #[error("line {line}: the dimensions are out of order")]
    SplitOrder { line: u32 },
}

impl From<AllocError> for WsFault {
    ghost from_gives = { λ _ e. e ≡ Memory };

    fn from(_e: AllocError) -> WsFault {
        WsFault::Memory
    }
}

impl<T: Drop> From<AllocFailed<T>> for WsFault {
    ghost from_gives = { λ _ e. e ≡ Memory };

    fn from(_e: AllocFailed<T>) -> WsFault {
        WsFault::Memory
    }
}

impl From<TextEnd> for WsFault {
    ghost from_gives = { λ end e. e ≡ Syntax end.line };

    fn from(end: TextEnd) -> WsFault {
        WsFault::Syntax { line: end.line }
    }
}
