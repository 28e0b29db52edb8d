//! The equation of an operation, cut into the equations of its blocks.

ghost use Rattle.std.specs.Prelude.{◌≡◌, false, map, true, IfOk};
ghost use Rattle.block_expr.specs.Expanded.{equation_of, expanded, expanded_block, expanded_left};
ghost use Rattle.block_expr.specs.Expanded.{expanded_right, ldl_left, products_of};
ghost use Rattle.block_expr.specs.Expanded.{with_product, with_products};
ghost use Rattle.block_expr.specs.Places.{work_places};
ghost use Rattle.block_expr.specs.Seen.{tree_of};
ghost use Rattle.block_values.specs.Trees as trees;
ghost use Rattle.invariant_family.specs.Splits.{two_parts};

use crate::build::{block, difference, factor_block, product, sum};
use crate::expr::{BlockEquation, BlockEquations, Expr};
use crate::operands::factor_cols;
use crate::places::{parts_of, two_parts, work_places};
use block_values::Leaf;
use equation::Place;
use operation_spec::{Factor, Form, Operation, Split, Term};
use std::alloc::{AllocError, Global};
use task_graph::Counts;

/// What a product takes its blocks from: a leaf, or its transpose.
#[derive(Clone, Copy)]
struct Side {
    leaf: Leaf,
    primed: bool,
}

/// X, as it is read.
fn solution() -> Side
    ensures { result ≡ record { leaf = Leaf.Solution; primed = false } }
{
    Side {
        leaf: Leaf::Solution,
        primed: false,
    }
}

/// op(F).
fn factor(f: Factor) -> Side
    ensures { result ≡ record { leaf = Leaf.Known f.known; primed = f.primed } }
{
    Side {
        leaf: Leaf::Known(f.known),
        primed: f.primed,
    }
}

/// A factor in the packed solution.
fn packed(leaf: Leaf) -> Side
    ensures { result ≡ record { leaf = leaf; primed = false } }
{
    Side {
        leaf,
        primed: false,
    }
}

/// The equation of the operation cut into two parts per dimension of the split: for each block of W's structure, row
/// by row, the left side and the right side, with all products of blocks, also those that are zero by structure.
pub fn expand(alloc: Global, op: &Operation, split: Split) -> Result<BlockEquations, AllocError>
    ensures { IfOk result (λ found. map equation_of found
        ≡ expanded op.now (two_parts op.now split)) }
{
    let parts = two_parts(alloc, op, split)?;
    let places = work_places(alloc, op, &parts)?;
    expand_places(alloc, op, &parts, &places)
}

/// The equations of some blocks.
fn expand_places(
    alloc: Global,
    op: &Operation,
    parts: &Counts,
    places: &[Place],
) -> Result<BlockEquations, AllocError>
    ensures { IfOk result (λ found. map equation_of found
        ≡ map (expanded_block op.now parts.now) places.now) }
{
    let mut found = BlockEquations::new(alloc);
    for place in places {
        found.push(expand_block(alloc, op, parts, *place)?)?;
    }
    Ok(found)
}

/// The equation of one block.
fn expand_block(
    alloc: Global,
    op: &Operation,
    parts: &Counts,
    place: Place,
) -> Result<BlockEquation, AllocError>
    ensures { IfOk result (λ e. equation_of e ≡ expanded_block op.now parts.now place) }
{
    let left = expanded_left(alloc, op, parts, place)?;
    let right = expanded_right(alloc, op, parts, place)?;
    Ok(BlockEquation {
        row: place.row,
        col: place.col,
        left,
        right,
    })
}

/// Its left side.
fn expanded_left(
    alloc: Global,
    op: &Operation,
    parts: &Counts,
    place: Place,
) -> Result<Expr, AllocError>
    ensures { IfOk result (λ e. tree_of e ≡ expanded_left op.now parts.now place.row place.col) }
{
    let rows = parts_of(parts, op.work.rows);
    let cols = parts_of(parts, op.work.cols);
    match op.form {
        Form::Assign => Ok(block(Leaf::Solution, false, place.row, place.col)),
        Form::Left { t } => products(alloc, factor(t), solution(), rows, place),
        Form::Right { t } => products(alloc, solution(), factor(t), cols, place),
        Form::Sylvester { t, u, minus } => {
            let first = products(alloc, factor(t), solution(), rows, place)?;
            let second = products(alloc, solution(), factor(u), cols, place)?;
            if minus {
                difference(alloc, first, second)
            } else {
                sum(alloc, first, second)
            }
        }
        Form::Lu => products(alloc, packed(Leaf::L), packed(Leaf::U), cols, place),
        Form::Ldl => ldl_left(alloc, cols, place),
    }
}

/// The sum over so many parts k of the products of block (row, k) of one side and block (k, col) of another.
#[tactic(auto, using(crate::proofs::Sums::sum_of_more))]
fn products(alloc: Global, a: Side, b: Side, count: u32, place: Place) -> Result<Expr, AllocError>
    ensures { IfOk result (λ e. tree_of e
        ≡ products_of a.leaf a.primed b.leaf b.primed count place.row place.col) }
{
    if count == 0 {
        return Ok(Expr::Zero);
    }
    let mut found = product_over(alloc, a, b, 0, place)?;
    for k in 1..count {
        let next = product_over(alloc, a, b, k, place)?;
        found = sum(alloc, found, next)?;
    }
    Ok(found)
}

/// The product over one part.
fn product_over(alloc: Global, a: Side, b: Side, k: u32, place: Place) -> Result<Expr, AllocError>
    ensures { IfOk result (λ e. tree_of e
        ≡ trees.Mul (trees.Block a.leaf a.primed place.row k)
        (trees.Block b.leaf b.primed k place.col)) }
{
    let first = block(a.leaf, a.primed, place.row, k);
    product(alloc, first, block(b.leaf, b.primed, k, place.col))
}

/// The left side in Ldl: the sum over so many parts k of block (row, k) of L * D and block (k, col) of L'.
#[tactic(auto, using(crate::proofs::Sums::sum_of_more))]
fn ldl_left(alloc: Global, count: u32, place: Place) -> Result<Expr, AllocError>
    ensures { IfOk result (λ e. tree_of e ≡ ldl_left count place.row place.col) }
{
    if count == 0 {
        return Ok(Expr::Zero);
    }
    let mut found = ldl_over(alloc, count, 0, place)?;
    for k in 1..count {
        let next = ldl_over(alloc, count, k, place)?;
        found = sum(alloc, found, next)?;
    }
    Ok(found)
}

/// The product over one part.
fn ldl_over(alloc: Global, count: u32, k: u32, place: Place) -> Result<Expr, AllocError>
    ensures { IfOk result (λ e. tree_of e
        ≡ trees.Mul (products_of Leaf.L false Leaf.D false count place.row k)
        (trees.Block Leaf.L true k place.col)) }
{
    let at = Place {
        row: place.row,
        col: k,
    };
    let scaled = products(alloc, packed(Leaf::L), packed(Leaf::D), count, at)?;
    product(alloc, scaled, block(Leaf::L, true, k, place.col))
}

/// Its right side.
fn expanded_right(
    alloc: Global,
    op: &Operation,
    parts: &Counts,
    place: Place,
) -> Result<Expr, AllocError>
    ensures { IfOk result (λ e. tree_of e ≡ expanded_right op.now parts.now place.row place.col) }
{
    let mut found = block(Leaf::Work, false, place.row, place.col);
    for term in op.terms.as_slice() {
        let count = parts_of(parts, factor_cols(op, term.first));
        found = with_products(alloc, *term, count, place, found)?;
    }
    Ok(found)
}

/// A sum with the products of a term over so many parts added, or subtracted.
#[tactic(auto, using(crate::proofs::Sums::with_products_more))]
fn with_products(
    alloc: Global,
    term: Term,
    count: u32,
    place: Place,
    start: Expr,
) -> Result<Expr, AllocError>
    ensures { IfOk result (λ e. tree_of e
        ≡ with_products term place.row place.col count (tree_of start)) }
{
    let mut found = start;
    for k in 0..count {
        found = with_product(alloc, term, k, place, found)?;
    }
    Ok(found)
}

/// A sum with the product over one part.
fn with_product(
    alloc: Global,
    term: Term,
    k: u32,
    place: Place,
    start: Expr,
) -> Result<Expr, AllocError>
    ensures { IfOk result (λ e. tree_of e
        ≡ with_product term place.row place.col k (tree_of start)) }
{
    let first = factor_block(term.first, place.row, k);
    let added = product(alloc, first, factor_block(term.second, k, place.col))?;
    if term.minus {
        difference(alloc, start, added)
    } else {
        sum(alloc, start, added)
    }
}
