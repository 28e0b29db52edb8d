use item_lists::ItemList;

/// An operand of an equation by its number, transposed where `primed` is true. The work operand has the
/// number 0, and known operand k has k + 1.
#[derive(Clone, Copy, Debug, PartialEq, Eq)]
pub struct Side {
    pub operand: u32,
    pub primed: bool,
}

/// The left side of an equation as it was written, with the solution X.
#[derive(Clone, Copy, Debug, PartialEq, Eq)]
pub enum LeftSide {
    /// `X`.
    Solution,
    /// `T * X`.
    OnLeft { t: Side },
    /// `X * T`.
    OnRight { t: Side },
    /// `T * X + X * U`, or with `-` where `minus` is true.
    OnBoth { t: Side, u: Side, minus: bool },
    /// `lu X`.
    LuFactors,
    /// `ldl X`.
    LdlFactors,
}

/// `+ first * second`, or `- first * second` where `minus` is true.
#[derive(Clone, Copy, Debug, PartialEq, Eq)]
pub struct Product {
    pub minus: bool,
    pub first: Side,
    pub second: Side,
}

/// Products in their order.
pub type ProductList = ItemList<Product>;

/// An equation as it was written: its left side, the operand that its right side begins with, and the
/// products that follow. A name that no operand has is numbered by the count of operands.
#[derive(Debug, Drop)]
pub struct Equation {
    pub left: LeftSide,
    pub first: u32,
    pub products: ProductList,
}
