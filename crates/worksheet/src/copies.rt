ghost use Rattle.std.specs.Prelude.{◌≡◌, IfOk};

use item_lists::ItemList;
use std::alloc::{AllocError, Global};

/// A list of its own with the same items. Its one error is want of memory.
pub fn copied<T: Copy>(alloc: Global, items: &[T]) -> Result<ItemList<T>, AllocError>
    ensures { IfOk result (λ list. list ≡ items.now) }
{
    Ok(ItemList::from_vec(items.iter().copied().collect(alloc)?))
}
