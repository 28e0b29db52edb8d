use item_lists::ItemList;

/// What a task does: `Pivots` tests the pivots of a statement, and each other kind changes one block of W.
#[derive(Clone, Copy, Debug, PartialEq, Eq)]
pub enum Kind {
    /// Tests the pivots of the triangular factors and finds their inverses, before all other tasks of a statement.
    Pivots,
    /// Adds or subtracts a product of known blocks.
    Term,
    /// Subtracts a product with a block of the left-hand triangular factor, or of Lu and Ldl.
    Left,
    /// Subtracts, or adds, a product with a block of the right-hand triangular factor.
    Right,
    /// Solves or factors with the diagonal blocks.
    Solve,
}

/// A block task: its kind, the number of its term from 1, the row i and the column j of its block of W,
/// and the inner part k, from 0. Fields without a meaning are 0: `term` but for Term, `k` for Solve, and all of them
/// for Pivots.
#[derive(Clone, Copy, Debug, PartialEq, Eq)]
pub struct Task {
    pub kind: Kind,
    pub term: u32,
    pub i: u32,
    pub j: u32,
    pub k: u32,
}

/// Tasks in their order.
pub type TaskList = ItemList<Task>;
