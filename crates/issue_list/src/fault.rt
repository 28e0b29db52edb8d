ghost use Rattle.std.specs.Prelude.{◌≡◌};
ghost use Rattle.issue_list.specs.declared.fault.IssueFault.TheVariants.{Memory};

use std::alloc::{AllocError, AllocFailed};
use task_graph::TaskFault;

/// Why there is no list of steps for a job under a block size.
#[derive(Clone, Copy, Debug, PartialEq, Eq)]
pub enum IssueFault {
    /// Memory ran out.
    Memory,
    /// The given numbers of variants aren't as many as the statements.
    VariantCount { given: u64, due: u32 },
    /// The first statement, numbered from 1, whose operation has no variant with its number.
    NoVariant { statement: u32 },
    /// The first statement, numbered from 1, and in it the first declared dimension, numbered from 0, that is cut into more
    /// than 32 parts.
    TooManyParts { statement: u32, dim: u32 },
    /// No dimension has more than 32 parts, and there are more than 262,144 steps.
    TooManySteps,
}

impl From<AllocError> for IssueFault {
    ghost from_gives = { λ _ e. e ≡ Memory };

    fn from(_error: AllocError) -> IssueFault {
        IssueFault::Memory
    }
}

impl<T: Drop> From<AllocFailed<T>> for IssueFault {
    ghost from_gives = { λ _ e. e ≡ Memory };

    fn from(_failed: AllocFailed<T>) -> IssueFault {
        IssueFault::Memory
    }
}

impl From<TaskFault> for IssueFault {
    ghost use Rattle.issue_list.specs.Faults.{fault_of};

    ghost from_gives = { λ fault e. e ≡ fault_of fault };

    fn from(fault: TaskFault) -> IssueFault {
        match fault {
            TaskFault::Memory => IssueFault::Memory,
            TaskFault::TooMany => IssueFault::TooManySteps,
        }
    }
}
