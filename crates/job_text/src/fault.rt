ghost use Rattle.std.specs.Prelude.{◌≡◌};
ghost use Rattle.text_scan.specs.Tokens.{scan_fault};
ghost use Rattle.operation_spec.specs.OperationFaults.{spec_fault};
ghost use Rattle.matrix_text.specs.MatrixFaults.{matrix_fault};
ghost use Rattle.job_text.specs.declared.fault.JobFault.TheVariants.{Memory, Syntax};
ghost use Rattle.job_text.specs.JobFaults.{job_fault};

use matrix_text::MatrixFault;
use operation_spec::SpecFault;
use std::alloc::{AllocError, AllocFailed};
use text_scan::{ScanFault, TextEnd};
use thiserror::Error;

/// Why an input was not read as a job. Each fault of the text has the number of its line.
#[derive(Clone, Copy, Debug, Error, PartialEq, Eq)]
pub enum JobFault {
    /// Memory ran out.
    #[error("memory ran out")]
    Memory,
    /// A byte outside comments that is in no token and no blank.
    #[error("line {line}: a byte that is in no token")]
    BadByte { line: u32 },
    /// The first line with tokens isn't `flame 1`, or there is none.
    #[error("line {line}: `flame 1` is due")]
    Header { line: u32 },
    /// A section's first word is due, and the line begins with none that may stand there; or the second part has
    /// a line behind its last block.
    #[error("line {line}: no section may begin so here")]
    TrailingText { line: u32 },
    /// The line isn't of its form, another line is due, or the text ends.
    #[error("line {line}: not of the form that is due")]
    Syntax { line: u32 },
    /// The modulus isn't in 2 to 4,294,967,295.
    #[error("line {line}: the modulus is not in 2 to 4294967295")]
    Modulus { line: u32 },
    /// A seventeenth operation, a seventh dimension or known operand, a thirty-third matrix, or a seventeenth
    /// statement.
    #[error("line {line}: one more than a job may have")]
    Limit { line: u32 },
    /// A name is there already, an operand is named `X`, or a matrix is printed twice.
    #[error("line {line}: a name for the second time")]
    NameTwice { line: u32 },
    /// A dimension, operand, operation or matrix isn't declared above.
    #[error("line {line}: a name that is not declared above")]
    NameUnknown { line: u32 },
    /// The equation has a third term.
    #[error("line {line}: a third term")]
    TooManyTerms { line: u32 },
    /// An operand that isn't general has two different dimensions, or the dimensions of a product or of the
    /// two sides of an equation don't agree.
    #[error("line {line}: dimensions that do not agree")]
    Shape { line: u32 },
    /// The work operand isn't general, lower or upper, the equation doesn't meet the conditions of its form,
    /// or a known operand or a dimension isn't used.
    #[error("line {line}: the conditions of the form are not met")]
    Form { line: u32 },
    /// Rows or columns pass 1,024, or the entries of all matrices so far pass 4,194,304.
    #[error("line {line}: too many rows, columns or entries")]
    TooLarge { line: u32 },
    /// A row doesn't have as many numbers as there are columns, or `end` stands where a row is due.
    #[error("line {line}: not as many numbers as there are columns")]
    RowLength { line: u32 },
    /// An entry isn't below the modulus.
    #[error("line {line}: an entry that is not below the modulus")]
    EntryRange { line: u32 },
    /// The number of matrices isn't the number of operands, or one dimension would have two lengths; or a block of
    /// the second part has another name, or other rows or columns, than the statement's work matrix.
    #[error("line {line}: the matrices do not fit the operands")]
    Binding { line: u32 },
    /// The work matrix is also bound to a known operand.
    #[error("line {line}: the work matrix is bound to a known operand, too")]
    Alias { line: u32 },
}

impl From<AllocError> for JobFault {
    ghost from_gives = { λ _ e. e ≡ Memory };

    fn from(_e: AllocError) -> JobFault {
        JobFault::Memory
    }
}

impl<T: Drop> From<AllocFailed<T>> for JobFault {
    ghost from_gives = { λ _ e. e ≡ Memory };

    fn from(_e: AllocFailed<T>) -> JobFault {
        JobFault::Memory
    }
}

impl From<TextEnd> for JobFault {
    ghost from_gives = { λ end e. e ≡ Syntax end.line };

    fn from(end: TextEnd) -> JobFault {
        JobFault::Syntax { line: end.line }
    }
}

impl From<SpecFault> for JobFault {
    ghost from_gives = { λ fault e. job_fault e ≡ spec_fault fault };

    fn from(fault: SpecFault) -> JobFault {
        match fault {
            SpecFault::Memory => JobFault::Memory,
            SpecFault::Syntax { line } => JobFault::Syntax { line },
            SpecFault::Limit { line } => JobFault::Limit { line },
            SpecFault::NameTwice { line } => JobFault::NameTwice { line },
            SpecFault::NameUnknown { line } => JobFault::NameUnknown { line },
            SpecFault::TooManyTerms { line } => JobFault::TooManyTerms { line },
            SpecFault::Shape { line } => JobFault::Shape { line },
            SpecFault::Form { line } => JobFault::Form { line },
        }
    }
}

impl From<MatrixFault> for JobFault {
    ghost from_gives = { λ fault e. job_fault e ≡ matrix_fault fault };

    fn from(fault: MatrixFault) -> JobFault {
        match fault {
            MatrixFault::Memory => JobFault::Memory,
            MatrixFault::Syntax { line } => JobFault::Syntax { line },
            MatrixFault::TooLarge { line } => JobFault::TooLarge { line },
            MatrixFault::RowLength { line } => JobFault::RowLength { line },
            MatrixFault::EntryRange { line } => JobFault::EntryRange { line },
        }
    }
}

impl From<ScanFault> for JobFault {
    ghost from_gives = { λ fault e. job_fault e ≡ scan_fault fault };

    fn from(fault: ScanFault) -> JobFault {
        match fault {
            ScanFault::Memory => JobFault::Memory,
            ScanFault::BadByte { at: _, line } => JobFault::BadByte { line },
        }
    }
}
