//! The dimensions of a split, and the ends at which a loop along them begins.

ghost use Rattle.std.specs.Prelude.{◌≡◌, map, IfOk};
ghost use Rattle.worksheet.specs.Ends.{split_dims, is_last, end_of, split_ends};

use crate::sheet::{End, EndList};
use invariant_family::dir_of;
use operation_spec::{Dir, Dirs, Split};
use std::alloc::{AllocError, Global};
use structure_rules::NumberList;

/// The dimensions of a split, in declared order.
pub(crate) fn split_dims(alloc: Global, split: Split) -> Result<NumberList, AllocError>
    ensures { IfOk result (λ dims. dims ≡ split_dims split) }
{
    let mut dims = NumberList::new(alloc);
    dims.push(split.first)?;
    if let Some(second) = split.second {
        dims.push(second)?;
    }
    Ok(dims)
}

/// The ends of the dimensions of a split at which a loop in these directions begins.
pub(crate) fn split_ends(alloc: Global, split: Split, dirs: Dirs) -> Result<EndList, AllocError>
    ensures { IfOk result (λ ends. ends ≡ split_ends split dirs) }
{
    let mut ends = EndList::new(alloc);
    ends.push(end_of(split, dirs, split.first))?;
    if let Some(second) = split.second {
        ends.push(end_of(split, dirs, second))?;
    }
    Ok(ends)
}

/// The end of a dimension at which a loop begins.
fn end_of(split: Split, dirs: Dirs, dim: u32) -> End
    ensures { result ≡ end_of split dirs dim }
{
    End {
        dim,
        last: dir_of(split, dirs, dim as usize) == Dir::Backward,
    }
}
