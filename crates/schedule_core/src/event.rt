use item_lists::ItemList;

/// A step begins, when what it reads is as it finds it, or it ends, when it writes. Steps are numbered from 1.
#[derive(Clone, Copy, Debug, PartialEq, Eq)]
pub enum Event {
    Start(u32),
    Finish(u32),
}

/// Events in the order in which they come.
pub type EventList = ItemList<Event>;
