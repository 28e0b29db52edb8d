use crate::sheet::{EndList, State};
use operation_spec::Task;
use structure_rules::NumberList;

/// What a check says of a worksheet: that it is right, or its first wrong place, what was found there and what is due.
#[derive(Debug, Drop)]
pub enum Verdict {
    Right,
    Wrong {
        place: WsPlace,
        found: Shown,
        due: Shown,
    },
}

/// A place of a worksheet; the places come in this order.
#[derive(Clone, Copy, Debug, PartialEq, Eq)]
pub enum WsPlace {
    /// The order of the invariant's tasks.
    Order,
    /// A needed task is in the invariant.
    F1,
    /// Nothing of the remaining part is.
    F2,
    /// All of the done part is.
    F3,
    /// No work is undone.
    F4,
    Guard,
    Start,
    Take,
    /// A line of the state before, from 1.
    Before(u32),
    /// An update, from 1.
    Update(u32),
    Give,
    /// A line of the state after, from 1.
    After(u32),
}

/// What a verdict shows.
#[derive(Debug, Drop)]
pub enum Shown {
    Nothing,
    One(Task),
    Dims(NumberList),
    Ends(EndList),
    Line(State),
}
