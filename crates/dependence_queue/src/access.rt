use item_lists::ItemList;
use structure_rules::NumberList;

/// The block that a step writes, and those that it reads, by their numbers. A step reads no block that it writes, but
/// for what it finds there.
#[derive(Debug, Drop)]
pub struct Access {
    pub write: u32,
    pub reads: NumberList,
}

/// The accesses of steps in their order.
pub type AccessList = ItemList<Access>;
