use item_lists::ItemList;
use operation_spec::{Dirs, Split, TaskList};
use structure_rules::NumberList;
use text_scan::Name;

/// A worksheet of an operation's loop along a split.
///
/// Of the three parts of a split dimension, part 1 is the middle; part 0 is done forward, and part 2 backward.
#[derive(Debug, Drop)]
pub struct Worksheet {
    /// The operation's name.
    pub operation: Name,
    pub split: Split,
    pub dirs: Dirs,
    /// The tasks, of the cut in two parts, that the loop keeps done.
    pub invariant: TaskList,
    /// The loop goes on while one of these dimensions has a part that isn't done.
    pub guard: NumberList,
    /// Where the loop begins.
    pub start: EndList,
    /// From which end of what remains the middle part is taken.
    pub take: EndList,
    /// What is done, of the cut in three parts, when the middle part was taken.
    pub before: StateList,
    pub updates: TaskList,
    /// At which end of what is done the middle part is added.
    pub give: EndList,
    /// What is done when the updates were.
    pub after: StateList,
}

/// An end of a dimension: the last one, or the first one.
#[derive(Clone, Copy, Debug, PartialEq, Eq)]
pub struct End {
    pub dim: u32,
    pub last: bool,
}

/// Ends in their order.
pub type EndList = ItemList<End>;

/// A block of W's structure, with those of its tasks that are done.
#[derive(Debug, Drop)]
pub struct State {
    pub row: u32,
    pub col: u32,
    pub done: TaskList,
}

/// States in their order.
pub type StateList = ItemList<State>;
