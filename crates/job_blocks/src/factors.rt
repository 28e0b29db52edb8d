//! The blocks that are stored for blocks of factors.

ghost use Rattle.std.specs.Prelude.{◌≡◌, if◌then◌else◌};
ghost use Rattle.structure_rules.specs.Structures.{stored_of};
ghost use Rattle.job_blocks.specs.BlockedJobs.{HasStatement};
ghost use Rattle.job_blocks.specs.FactorBlocks.{HasFactorBlock, factor_at};

use crate::job_blocks::JobBlocks;
use crate::tables::known_structure;
use operation_spec::Factor;
use structure_rules::{Stored, Structure};

/// The block that is stored for block (i, k) of an operand with this structure, transposed where it is primed.
fn stored_block(structure: Structure, primed: bool, i: u32, k: u32) -> Stored
    ensures { result ≡ (if primed then stored_of structure k i else stored_of structure i k) }
{
    if primed {
        structure.stored(k, i)
    } else {
        structure.stored(i, k)
    }
}

impl JobBlocks<'_> {
    /// The number of the block that is stored for block (i, k) of a factor of statement s.
    pub(crate) fn factor(&self, s: u32, f: Factor, i: u32, k: u32) -> u32
        requires statement { HasStatement self.now s }
        requires block { HasFactorBlock self.now s f i k }
        ensures { result ≡ factor_at self.now s f i k }
    {
        let structure = known_structure(self.operation(s), f);
        let matrix = self.statement(s).bind.knowns.as_slice()[f.known as usize];
        let place = stored_block(structure, f.primed, i, k);
        self.block(matrix, place.row, place.col)
    }
}
