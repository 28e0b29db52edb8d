use block_expr::ExprList;
use item_lists::ItemList;
use operation_spec::TaskList;

/// One task needs another. Both are places in the list of tasks, from 1.
#[derive(Clone, Copy, Debug, PartialEq, Eq)]
pub struct Pair {
    pub task: u32,
    pub need: u32,
}

/// Pairs in their order.
pub type PairList = ItemList<Pair>;

/// The partitioned matrix expression of an operation: the expression of each block of W's structure, row by row, with
/// all tasks of the block done; the tasks in canonical order; and which task needs which, by task and then need.
#[derive(Debug, Drop)]
pub struct Pme {
    pub blocks: ExprList,
    pub tasks: TaskList,
    pub edges: PairList,
}
