use dependence_queue::Access;
use item_lists::ItemList;
use operation_spec::Task;

/// A step of a job: its statement, from 1, its task, and the blocks that it writes and reads.
#[derive(Debug, Drop)]
pub struct Step {
    pub statement: u32,
    pub task: Task,
    pub access: Access,
}

/// Steps in their order.
pub type StepList = ItemList<Step>;
