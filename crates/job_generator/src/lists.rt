//! Short lists.

ghost use Rattle.std.specs.Prelude.{◌≡◌, [], ◌∷◌, IfOk};

use item_lists::ItemList;
use std::alloc::{AllocError, Global};

/// The list of one item.
pub fn one<T: Drop>(alloc: Global, item: T) -> Result<ItemList<T>, AllocError>
    ensures { IfOk result (λ list. list ≡ item ∷ []) }
{
    let mut list = ItemList::new(alloc);
    list.push(item)?;
    Ok(list)
}

/// The list of two items.
pub fn two<T: Drop>(alloc: Global, first: T, second: T) -> Result<ItemList<T>, AllocError>
    ensures { IfOk result (λ list. list ≡ first ∷ second ∷ []) }
{
    let mut list = one(alloc, first)?;
    list.push(second)?;
    Ok(list)
}

/// The list of three items.
pub fn three<T: Drop>(
    alloc: Global,
    first: T,
    second: T,
    third: T,
) -> Result<ItemList<T>, AllocError>
    ensures { IfOk result (λ list. list ≡ first ∷ second ∷ third ∷ []) }
{
    let mut list = two(alloc, first, second)?;
    list.push(third)?;
    Ok(list)
}
