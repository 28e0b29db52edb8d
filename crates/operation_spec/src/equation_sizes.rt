//! The sizes of the operands of an equation, and whether they agree.

ghost use Rattle.std.specs.Prelude.{◌≡◌};
ghost use Rattle.std.specs.List.{list_all};
ghost use Rattle.operation_spec.specs.Equations.{left_has, nth_operand, product_has, size_of, sizes_agree};
ghost use Rattle.operation_spec.specs.SizesSeen.{size_seen};

use crate::equation::{Equation, LeftSide, Product, Side};
use crate::operation::Operand;

/// Rows and columns by the numbers of their dimensions.
#[derive(Clone, Copy, Debug, PartialEq, Eq)]
pub struct Size {
    pub rows: u32,
    pub cols: u32,
}

/// The operand with a number.
pub fn nth_operand<'a>(work: &'a Operand, knowns: &'a [Operand], number: u32) -> &'a Operand
    ensures { result.now ≡ nth_operand work.now knowns.now number }
{
    if number == 0 {
        return work;
    }
    match knowns.get(number as usize - 1) {
        Some(known) => known,
        None => work,
    }
}

/// The size of an operand as it stands in the equation.
fn size_of(work: &Operand, knowns: &[Operand], side: Side) -> Size
    ensures { size_seen result ≡ size_of work.now knowns.now side }
{
    let operand = nth_operand(work, knowns, side.operand);
    if side.primed {
        Size {
            rows: operand.cols,
            cols: operand.rows,
        }
    } else {
        Size {
            rows: operand.rows,
            cols: operand.cols,
        }
    }
}

/// Whether the product of two operands with these sizes exists, and has the size.
fn product_has(size: Size, a: Size, b: Size) -> bool
    ensures { result ≡ product_has (size_seen size) (size_seen a) (size_seen b) }
{
    a.cols == b.rows && a.rows == size.rows && b.cols == size.cols
}

/// Whether each summand of the left side has the size.
fn left_has(work: &Operand, knowns: &[Operand], size: Size, left: LeftSide) -> bool
    ensures { result ≡ left_has work.now knowns.now (size_seen size) left }
{
    let x = Size {
        rows: work.rows,
        cols: work.cols,
    };
    match left {
        LeftSide::OnLeft { t } => product_has(size, size_of(work, knowns, t), x),
        LeftSide::OnRight { t } => product_has(size, x, size_of(work, knowns, t)),
        LeftSide::OnBoth { t, u, minus: _ } => {
            product_has(size, size_of(work, knowns, t), x)
                && product_has(size, x, size_of(work, knowns, u))
        }
        LeftSide::Solution | LeftSide::LuFactors | LeftSide::LdlFactors => {
            size.rows == x.rows && size.cols == x.cols
        }
    }
}

/// Whether each of the products has the size.
fn products_have(work: &Operand, knowns: &[Operand], size: Size, products: &[Product]) -> bool
    ensures { result ≡ list_all (λ p. product_has (size_seen size)
        (size_of work.now knowns.now p.first) (size_of work.now knowns.now p.second)) products.now }
{
    products.iter().all(|p| {
        product_has(
            size,
            size_of(work, knowns, p.first),
            size_of(work, knowns, p.second),
        )
    })
}

/// Whether the dimensions of each product and of both sides agree.
pub fn sizes_agree(work: &Operand, knowns: &[Operand], e: &Equation) -> bool
    ensures { result ≡ sizes_agree work.now knowns.now e.now }
{
    let first = Side {
        operand: e.first,
        primed: false,
    };
    let size = size_of(work, knowns, first);
    left_has(work, knowns, size, e.left) && products_have(work, knowns, size, e.products.as_slice())
}
