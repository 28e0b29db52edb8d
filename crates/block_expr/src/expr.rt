use block_values::Leaf;
use item_lists::ItemList;
use sqlite_items::Boxed;

/// An expression of blocks.
#[derive(Debug, Drop)]
pub enum Expr {
    Zero,
    /// Block (i, j) of a leaf, or of its transpose where `primed` is true.
    Block {
        leaf: Leaf,
        primed: bool,
        i: u32,
        j: u32,
    },
    Add(Boxed<Expr>, Boxed<Expr>),
    Sub(Boxed<Expr>, Boxed<Expr>),
    Mul(Boxed<Expr>, Boxed<Expr>),
    /// The Y with `t * Y = sum`.
    SolveLeft {
        t: Boxed<Expr>,
        sum: Boxed<Expr>,
    },
    /// The Y with `Y * t = sum`.
    SolveRight {
        sum: Boxed<Expr>,
        t: Boxed<Expr>,
    },
    /// The Y with `t * Y + Y * u = sum`, or with `-` where `minus` is true.
    Sylvester {
        t: Boxed<Expr>,
        u: Boxed<Expr>,
        minus: bool,
        sum: Boxed<Expr>,
    },
    /// The packed factors L and U of a block.
    Lu(Boxed<Expr>),
    /// The packed factors L and D of a block.
    Ldl(Boxed<Expr>),
}

/// Expressions in their order.
pub type ExprList = ItemList<Expr>;

/// The equation of one block of W.
#[derive(Debug, Drop)]
pub struct BlockEquation {
    pub row: u32,
    pub col: u32,
    pub left: Expr,
    pub right: Expr,
}

/// Block equations in their order.
pub type BlockEquations = ItemList<BlockEquation>;
