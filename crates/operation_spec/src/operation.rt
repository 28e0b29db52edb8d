use item_lists::ItemList;
use structure_rules::{NumberList, Structure};
use text_scan::{Name, NameList};

/// An operation. Dimensions and known operands are numbered from 0, in declared order.
#[derive(Debug, Drop)]
pub struct Operation {
    pub name: Name,
    pub dims: NameList,
    pub work: Operand,
    pub knowns: OperandList,
    pub form: Form,
    pub terms: TermList,
}

/// An operand: a matrix that is read through its structure, with the numbers of its row dimension and
/// its column dimension.
#[derive(Debug, Drop)]
pub struct Operand {
    pub name: Name,
    pub structure: Structure,
    pub rows: u32,
    pub cols: u32,
}

/// Operands in declared order.
pub type OperandList = ItemList<Operand>;

/// The left side of an operation's equation.
#[derive(Clone, Copy, Debug, PartialEq, Eq)]
pub enum Form {
    /// `X = R`.
    Assign,
    /// `op(T) * X = R`.
    Left { t: Factor },
    /// `X * op(T) = R`.
    Right { t: Factor },
    /// `op(T) * X + X * op(U) = R`, or with `-` where `minus` is true.
    Sylvester { t: Factor, u: Factor, minus: bool },
    /// `L * U = R`, with L the unit lower and U the upper part of the solution.
    Lu,
    /// `L * D * L' = R`, with L the unit lower part and D the diagonal of the solution.
    Ldl,
}

/// A known operand by its number, transposed where `primed` is true.
#[derive(Clone, Copy, Debug, PartialEq, Eq)]
pub struct Factor {
    pub known: u32,
    pub primed: bool,
}

/// The term `+ first * second`, or `- first * second` where `minus` is true.
#[derive(Clone, Copy, Debug, PartialEq, Eq)]
pub struct Term {
    pub minus: bool,
    pub first: Factor,
    pub second: Factor,
}

/// Terms in their order.
pub type TermList = ItemList<Term>;

/// Which matrices stand for the operands: their numbers in the job's list, from 0.
#[derive(Debug, Drop)]
pub struct Binding {
    pub work: u32,
    pub knowns: NumberList,
}
