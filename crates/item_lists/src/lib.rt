//! The list type that contracts see as a list: a small type over a vector, once for every kind of item.
#![tactic(auto)]

mod item_list;

pub use item_list::ItemList;
