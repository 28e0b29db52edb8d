ghost use Rattle.std.specs.Prelude.{◌≡◌};
ghost use Rattle.task_graph.specs.Tasks.{parts_of};

use crate::cut::{Counts, Cut, Sides};

/// What says how many parts each dimension is cut into.
pub(crate) trait Parts {
    ghost use Rattle.std.specs.Prelude.{ℕ, List};

    ghost counts: { Self → List ℕ };

    /// How many parts a dimension is cut into, and 0 where nothing is said of it.
    fn parts(&self, dim: u32) -> u32
        ensures { result ≡ parts_of (counts self.now) dim };
}

impl Parts for Counts {
    ghost counts = { λ counts. counts };

    fn parts(&self, dim: u32) -> u32 {
        self.get(dim as usize).copied().unwrap_or(0)
    }
}

impl Parts for Cut {
    ghost use Rattle.task_graph.specs.Classes.{counts_of};

    ghost counts = { counts_of };

    fn parts(&self, dim: u32) -> u32 {
        match self.get(dim as usize) {
            Some(Sides::One) => 1,
            Some(Sides::Two { .. }) => 2,
            None => 0,
        }
    }
}
