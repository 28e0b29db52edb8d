ghost use Rattle.std.specs.Prelude.{◌≡◌, ◌≤◌, ◌↔◌, [], ◌∷◌, ◌++◌, length, slice_get, IsTrue, IsNone, OnOk, OnErr};
ghost use Rattle.std.specs.Option.{option_copied};

use std::alloc::{AllocError, Global};
use std::marker::Model;

/// A list of items, in their order. It owns them, and keeps the allocator that it was made with.
///
/// Its promises are those of a vector's calls. A crate gives its own lists names of their own, as
/// `pub type MatrixList = ItemList<Matrix>`.
#[derive(Debug, Drop)]
pub struct ItemList<T> {
    items: Vec<T>,
}

impl<T> Model for ItemList<T> {
    ghost use Rattle.std.specs.Prelude.{List};
    ghost use Rattle.std.specs.Coded.{coded_list};

    ghost Value = { List T };

    ghost coded = { coded_list T.code };

    ghost view = { λ a. a.items.items };
}

impl<T> ItemList<T> {
    /// An empty list, which takes no memory yet.
    pub fn new(alloc: Global) -> ItemList<T>
        ensures { result ≡ [] }
    {
        ItemList {
            items: Vec::new(alloc),
        }
    }

    /// The items of a vector, in their order.
    pub fn from_vec(items: Vec<T>) -> ItemList<T>
        ensures { result ≡ items.items }
    {
        ItemList { items }
    }

    /// The items as a vector, in their order.
    pub fn into_vec(self) -> Vec<T>
        ensures { result.items ≡ self }
    {
        let ItemList { items } = self;
        items
    }

    /// How many items there are.
    pub fn len(&self) -> usize
        ensures { result ≡ length self.now }
    {
        self.items.len()
    }

    /// Whether there is no item.
    pub fn is_empty(&self) -> bool
        ensures { IsTrue result ↔ (self.now ≡ []) }
    {
        self.items.is_empty()
    }

    /// Lends the item at a place, from 0.
    pub fn get(&self, at: usize) -> Option<&T>
        ensures item { option_copied result ≡ slice_get self.now at }
        ensures none { IsNone result ↔ (length self.now ≤ at) }
    {
        self.items.get(at)
    }

    /// Lends all items.
    pub fn as_slice(&self) -> &[T]
        ensures { result.now ≡ self.now }
    {
        self.items.as_slice()
    }
}

impl<T: Drop> ItemList<T> {
    /// Adds an item at the end. Its one error is want of memory; the list is then as it was, and the
    /// item is dropped.
    pub fn push(&mut self, item: T) -> Result<(), AllocError>
        ensures ok { OnOk result (self.new ≡ self.old ++ item ∷ []) }
        ensures err { OnErr result (self.new ≡ self.old) }
    {
        self.items.push(item)?;
        Ok(())
    }
}

#[cfg(test)]
mod tests {
    use super::*;
    use std::test::Fail;

    #[test]
    fn items_keep_their_order(rt: HostRuntime) -> Result<(), Fail> {
        let mut list: ItemList<u32> = ItemList::new(rt.alloc());
        assert!(rt; list.is_empty());
        for item in [3, 1, 2] {
            list.push(item)?;
        }
        assert_eq!(rt; list.len(), 3);
        assert_eq!(rt; list.get(1).copied(), Some(1));
        assert_eq!(rt; list.get(3).copied(), None);
        let again: ItemList<u32> = ItemList::from_vec(list.into_vec());
        assert_eq!(rt; again.as_slice(), [3, 1, 2].as_slice());
        Ok(())
    }
}
