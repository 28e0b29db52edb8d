ghost use Rattle.std.specs.Prelude.{◌≡◌};
ghost use Rattle.task_graph.specs.declared.fault.TaskFault.TheVariants.{Memory};

use std::alloc::{AllocError, AllocFailed};

/// Why the tasks of an operation were not listed.
#[derive(Clone, Copy, Debug, PartialEq, Eq)]
pub enum TaskFault {
    /// No memory was left for them.
    Memory,
    /// There are more than 262,144 of them.
    TooMany,
}

impl From<AllocError> for TaskFault {
    ghost from_gives = { λ _ e. e ≡ Memory };

    fn from(_error: AllocError) -> TaskFault {
        TaskFault::Memory
    }
}

impl<T: Drop> From<AllocFailed<T>> for TaskFault {
    ghost from_gives = { λ _ e. e ≡ Memory };

    fn from(_failed: AllocFailed<T>) -> TaskFault {
        TaskFault::Memory
    }
}
