ghost use Rattle.std.specs.Prelude.{◌≡◌};
ghost use Rattle.operation_spec.specs.declared.fault.SpecFault.TheVariants.{Memory, Syntax};

use std::alloc::{AllocError, AllocFailed};
use text_scan::TextEnd;

/// Why lines were not read as an operation. Each fault of the text has the number of its line.
#[derive(Clone, Copy, Debug, PartialEq, Eq)]
pub enum SpecFault {
    /// Memory ran out.
    Memory,
    /// The line isn't of its form, another line is due, or the text ends.
    Syntax { line: u32 },
    /// A seventh dimension, or a seventh known operand.
    Limit { line: u32 },
    /// A name is there already, or an operand is named `X`.
    NameTwice { line: u32 },
    /// A dimension or an operand isn't declared above.
    NameUnknown { line: u32 },
    /// The equation has a third term.
    TooManyTerms { line: u32 },
    /// An operand that isn't general has two different dimensions, or the dimensions of a product or of the
    /// two sides of the equation don't agree.
    Shape { line: u32 },
    /// The work operand isn't general, lower or upper; the equation doesn't meet the conditions of its form; its
    /// right side doesn't begin with the work operand; the work operand is T, U or a factor; or a known operand
    /// or a dimension isn't used.
    Form { line: u32 },
}

impl From<AllocError> for SpecFault {
    ghost from_gives = { λ _ e. e ≡ Memory };

    fn from(_e: AllocError) -> SpecFault {
        SpecFault::Memory
    }
}

impl<T: Drop> From<AllocFailed<T>> for SpecFault {
    ghost from_gives = { λ _ e. e ≡ Memory };

    fn from(_e: AllocFailed<T>) -> SpecFault {
        SpecFault::Memory
    }
}

impl From<TextEnd> for SpecFault {
    ghost from_gives = { λ end e. e ≡ Syntax end.line };

    fn from(end: TextEnd) -> SpecFault {
        SpecFault::Syntax { line: end.line }
    }
}
