ghost use Rattle.std.specs.Prelude.{◌≡◌, ◌<◌, length, replicate, All, IfOk, OnOk};
ghost use Rattle.dependence_queue.specs.Uses.{no_use, written_by, with_reader, read_by, used_by};

use crate::Access;
use std::alloc::{AllocError, Global};
use structure_rules::NumberList;

/// What the steps so far did with one block: the last of them that writes it, and those that read it and come no earlier.
/// A step that reads it twice stands among them twice.
#[derive(Drop)]
pub struct BlockUse {
    pub writer: Option<u32>,
    pub readers: NumberList,
}

impl BlockUse {
    /// No step used the block.
    fn none(alloc: Global) -> BlockUse
        ensures { result ≡ no_use }
    {
        BlockUse {
            writer: None,
            readers: NumberList::new(alloc),
        }
    }

    /// A step wrote the block, and none read it since.
    fn written(alloc: Global, step: u32) -> BlockUse
        ensures { result ≡ written_by step }
    {
        BlockUse {
            writer: Some(step),
            readers: NumberList::new(alloc),
        }
    }

    /// A step reads the block.
    fn read(&mut self, step: u32) -> Result<(), AllocError>
        ensures { OnOk result (self.new ≡ with_reader step self.old) }
    {
        self.readers.push(step)
    }
}

/// Blocks by their numbers, of which none was used.
pub fn unused_blocks(alloc: Global, count: usize) -> Result<Vec<BlockUse>, AllocError>
    ensures { IfOk result (λ uses. uses.items ≡ replicate count no_use) }
{
    let mut uses = Vec::with_capacity(alloc, count)?;
    for _ in 0..count {
        uses.push(BlockUse::none(alloc))?;
    }
    Ok(uses)
}

/// Notes what a step uses.
pub fn note(
    alloc: Global,
    uses: &mut [BlockUse],
    access: &Access,
    step: u32,
) -> Result<(), AllocError>
    requires write { access.now.write < length uses.old }
    requires reads { All (λ x. x < length uses.old) access.now.reads }
    ensures { OnOk result (uses.new ≡ used_by step access.now uses.old) }
{
    uses[access.write as usize] = BlockUse::written(alloc, step);
    note_reads(uses, access.reads.as_slice(), step)
}

/// Notes that a step reads these blocks.
fn note_reads(uses: &mut [BlockUse], reads: &[u32], step: u32) -> Result<(), AllocError>
    requires { All (λ x. x < length uses.old) reads.now }
    ensures { OnOk result (uses.new ≡ read_by step reads.now uses.old) }
{
    for block in reads {
        uses[*block as usize].read(step)?;
    }
    Ok(())
}
