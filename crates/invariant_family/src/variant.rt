use operation_spec::{Dirs, Split, TaskList};

/// A loop variant: its number in the family, from 1, its split and directions, and its invariant, the tasks
/// of the cut in two parts that are done, in canonical order.
#[derive(Debug, Drop)]
pub struct Variant {
    pub number: u32,
    pub split: Split,
    pub dirs: Dirs,
    pub kept: TaskList,
}
