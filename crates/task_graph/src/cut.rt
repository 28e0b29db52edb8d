use item_lists::ItemList;
use structure_rules::NumberList;

/// How many parts each dimension is cut into.
pub type Counts = NumberList;

/// How one dimension is cut anew: kept as one part, or in two parts, where an index below `edge` goes to
/// part 0 and another to part 1.
#[derive(Clone, Copy, Debug, PartialEq, Eq)]
pub enum Sides {
    One,
    Two { edge: u32 },
}

/// A coarser cut: one item for each dimension.
pub type Cut = ItemList<Sides>;
