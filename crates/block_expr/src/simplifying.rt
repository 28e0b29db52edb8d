//! Expressions without what is zero by structure.

ghost use Rattle.std.specs.Prelude.{◌≡◌, if◌then◌else◌, IfOk};
ghost use Rattle.block_expr.specs.Seen.{tree_of};
ghost use Rattle.block_expr.specs.Simplified.{is_none, is_zero_block, leaf_structure, simplified};
ghost use Rattle.block_expr.specs.Simplified.{simplified_difference, simplified_product};
ghost use Rattle.block_expr.specs.Simplified.{simplified_sum};
ghost use Rattle.block_values.specs.Trees as trees;

use crate::build::{block, difference, ldl, lu, product, solve_left, solve_right, sum, sylvester};
use crate::expr::Expr;
use crate::operands::known;
use block_values::Leaf;
use operation_spec::Operation;
use std::alloc::{AllocError, Global};
use structure_rules::Structure;

/// The expression without its blocks that are zero by structure, and without the sums and products with them. It keeps
/// the values of the expressions of `expand` and `state_expr` (`laws`). Its one error is want of memory.
#[cycle(simplify)]
pub fn simplify(alloc: Global, op: &Operation, e: &Expr) -> Result<Expr, AllocError>
    ensures { IfOk result (λ y. tree_of y ≡ simplified op.now (tree_of e.now)) }
{
    match e {
        Expr::Zero => Ok(Expr::Zero),
        Expr::Block { leaf, primed, i, j } => Ok(simplify_block(op, *leaf, *primed, *i, *j)),
        Expr::Add(a, b) => {
            let first = simplify(alloc, op, a.get())?;
            simplify_summand(alloc, op, b.get(), first)
        }
        Expr::Sub(a, b) => {
            let first = simplify(alloc, op, a.get())?;
            simplify_subtrahend(alloc, op, b.get(), first)
        }
        Expr::Mul(a, b) => {
            let first = simplify(alloc, op, a.get())?;
            simplify_factor(alloc, op, b.get(), first)
        }
        Expr::SolveLeft { t, sum } => {
            let factor = simplify(alloc, op, t.get())?;
            simplify_left(alloc, op, sum.get(), factor)
        }
        Expr::SolveRight { sum, t } => {
            let factor = simplify(alloc, op, t.get())?;
            simplify_right(alloc, op, sum.get(), factor)
        }
        Expr::Sylvester { t, u, minus, sum } => {
            let first = simplify(alloc, op, t.get())?;
            let second = simplify(alloc, op, u.get())?;
            simplify_both(alloc, op, sum.get(), first, second, *minus)
        }
        Expr::Lu(sum) => {
            let factored = simplify(alloc, op, sum.get())?;
            lu(alloc, factored)
        }
        Expr::Ldl(sum) => {
            let factored = simplify(alloc, op, sum.get())?;
            ldl(alloc, factored)
        }
    }
}

/// The sum of an expression that is simplified and one that is not yet.
#[cycle(simplify)]
fn simplify_summand(
    alloc: Global,
    op: &Operation,
    b: &Expr,
    first: Expr,
) -> Result<Expr, AllocError>
    ensures { IfOk result (λ y. tree_of y
        ≡ simplified_sum (tree_of first) (simplified op.now (tree_of b.now))) }
{
    let second = simplify(alloc, op, b)?;
    simplified_sum(alloc, first, second)
}

/// An expression that is simplified without one that is not yet.
#[cycle(simplify)]
fn simplify_subtrahend(
    alloc: Global,
    op: &Operation,
    b: &Expr,
    first: Expr,
) -> Result<Expr, AllocError>
    ensures { IfOk result (λ y. tree_of y
        ≡ simplified_difference (tree_of first) (simplified op.now (tree_of b.now))) }
{
    let second = simplify(alloc, op, b)?;
    simplified_difference(alloc, first, second)
}

/// The product of an expression that is simplified and one that is not yet.
#[cycle(simplify)]
fn simplify_factor(alloc: Global, op: &Operation, b: &Expr, first: Expr) -> Result<Expr, AllocError>
    ensures { IfOk result (λ y. tree_of y
        ≡ simplified_product (tree_of first) (simplified op.now (tree_of b.now))) }
{
    let second = simplify(alloc, op, b)?;
    simplified_product(alloc, first, second)
}

/// The Y with `factor * Y = sum`, the sum not being simplified yet.
#[cycle(simplify)]
fn simplify_left(
    alloc: Global,
    op: &Operation,
    sum: &Expr,
    factor: Expr,
) -> Result<Expr, AllocError>
    ensures { IfOk result (λ y. tree_of y
        ≡ trees.SolveLeft (tree_of factor) (simplified op.now (tree_of sum.now))) }
{
    let solved = simplify(alloc, op, sum)?;
    solve_left(alloc, factor, solved)
}

/// The Y with `Y * factor = sum`, the sum not being simplified yet.
#[cycle(simplify)]
fn simplify_right(
    alloc: Global,
    op: &Operation,
    sum: &Expr,
    factor: Expr,
) -> Result<Expr, AllocError>
    ensures { IfOk result (λ y. tree_of y
        ≡ trees.SolveRight (simplified op.now (tree_of sum.now)) (tree_of factor)) }
{
    let solved = simplify(alloc, op, sum)?;
    solve_right(alloc, solved, factor)
}

/// The Y with `first * Y + Y * second = sum`, or with `-`, the sum not being simplified yet.
#[cycle(simplify)]
fn simplify_both(
    alloc: Global,
    op: &Operation,
    sum: &Expr,
    first: Expr,
    second: Expr,
    minus: bool,
) -> Result<Expr, AllocError>
    ensures { IfOk result (λ y. tree_of y
        ≡ trees.Sylvester (tree_of first) (tree_of second) minus
        (simplified op.now (tree_of sum.now))) }
{
    let solved = simplify(alloc, op, sum)?;
    sylvester(alloc, first, second, minus, solved)
}

/// A block, but for one that is zero by structure.
fn simplify_block(op: &Operation, leaf: Leaf, primed: bool, i: u32, j: u32) -> Expr
    ensures { tree_of result ≡ simplified op.now (trees.Block leaf primed i j) }
{
    if is_zero_block(op, leaf, primed, i, j) {
        Expr::Zero
    } else {
        block(leaf, primed, i, j)
    }
}

/// Whether block (i, j) of a leaf, or of its transpose, is zero by structure.
fn is_zero_block(op: &Operation, leaf: Leaf, primed: bool, i: u32, j: u32) -> bool
    ensures { result ≡ is_zero_block op.now leaf primed i j }
{
    let structure = leaf_structure(op, leaf);
    if primed {
        structure.zero(j, i)
    } else {
        structure.zero(i, j)
    }
}

/// The structure that a leaf is read through.
fn leaf_structure(op: &Operation, leaf: Leaf) -> Structure
    ensures { result ≡ leaf_structure op.now leaf }
{
    match leaf {
        Leaf::Work => Structure::General,
        Leaf::Known(k) => known(op, k).structure,
        Leaf::Solution => op.work.structure,
        Leaf::L => Structure::UnitLower,
        Leaf::D => Structure::Diagonal,
        Leaf::U => Structure::Upper,
    }
}

/// Whether nothing is left.
fn is_none(e: &Expr) -> bool
    ensures { result ≡ is_none (tree_of e.now) }
{
    match e {
        Expr::Zero => true,
        Expr::Block { .. } => false,
        Expr::Add(_, _) => false,
        Expr::Sub(_, _) => false,
        Expr::Mul(_, _) => false,
        Expr::SolveLeft { .. } => false,
        Expr::SolveRight { .. } => false,
        Expr::Sylvester { .. } => false,
        Expr::Lu(_) => false,
        Expr::Ldl(_) => false,
    }
}

/// The sum of two expressions of which nothing may be left.
fn simplified_sum(alloc: Global, a: Expr, b: Expr) -> Result<Expr, AllocError>
    ensures { IfOk result (λ y. tree_of y ≡ simplified_sum (tree_of a) (tree_of b)) }
{
    if is_none(&a) {
        return Ok(b);
    }
    if is_none(&b) {
        return Ok(a);
    }
    sum(alloc, a, b)
}

/// The first of two expressions without the second, of which nothing may be left.
fn simplified_difference(alloc: Global, a: Expr, b: Expr) -> Result<Expr, AllocError>
    ensures { IfOk result (λ y. tree_of y ≡ simplified_difference (tree_of a) (tree_of b)) }
{
    if is_none(&b) {
        return Ok(a);
    }
    difference(alloc, a, b)
}

/// The product of two expressions of which nothing may be left.
fn simplified_product(alloc: Global, a: Expr, b: Expr) -> Result<Expr, AllocError>
    ensures { IfOk result (λ y. tree_of y ≡ simplified_product (tree_of a) (tree_of b)) }
{
    if is_none(&a) || is_none(&b) {
        return Ok(Expr::Zero);
    }
    product(alloc, a, b)
}
