//! Expressions built from their parts.

ghost use Rattle.std.specs.Prelude.{◌≡◌, IfOk};
ghost use Rattle.block_expr.specs.Seen.{tree_of};
ghost use Rattle.block_expr.specs.declared.expr.Expr.TheVariants as variants;
ghost use Rattle.block_values.specs.States.{factor_block};
ghost use Rattle.block_values.specs.Trees as trees;

use crate::expr::Expr;
use block_values::Leaf;
use operation_spec::Factor;
use sqlite_items::Boxed;
use std::alloc::{AllocError, Global};

/// Block (i, j) of a leaf, or of its transpose.
pub(crate) fn block(leaf: Leaf, primed: bool, i: u32, j: u32) -> Expr
    ensures { tree_of result ≡ trees.Block leaf primed i j }
{
    Expr::Block { leaf, primed, i, j }
}

/// Block (i, j) of op(F).
pub(crate) fn factor_block(f: Factor, i: u32, j: u32) -> Expr
    ensures { tree_of result ≡ factor_block f i j }
{
    block(Leaf::Known(f.known), f.primed, i, j)
}

fn boxed_sum(alloc: Global, a: Expr, b: Expr) -> Result<Expr, AllocError>
    ensures { IfOk result (λ e. e ≡ variants.Add a b) }
{
    let a = Boxed::new(alloc, a)?;
    let b = Boxed::new(alloc, b)?;
    Ok(Expr::Add(a, b))
}

/// The sum of two expressions.
#[tactic(auto, using(crate::proofs::SeenTrees::added))]
pub(crate) fn sum(alloc: Global, a: Expr, b: Expr) -> Result<Expr, AllocError>
    ensures { IfOk result (λ e. tree_of e ≡ trees.Add (tree_of a) (tree_of b)) }
{
    boxed_sum(alloc, a, b)
}

fn boxed_difference(alloc: Global, a: Expr, b: Expr) -> Result<Expr, AllocError>
    ensures { IfOk result (λ e. e ≡ variants.Sub a b) }
{
    let a = Boxed::new(alloc, a)?;
    let b = Boxed::new(alloc, b)?;
    Ok(Expr::Sub(a, b))
}

/// The first expression without the second.
#[tactic(auto, using(crate::proofs::SeenTrees::subtracted))]
pub(crate) fn difference(alloc: Global, a: Expr, b: Expr) -> Result<Expr, AllocError>
    ensures { IfOk result (λ e. tree_of e ≡ trees.Sub (tree_of a) (tree_of b)) }
{
    boxed_difference(alloc, a, b)
}

fn boxed_product(alloc: Global, a: Expr, b: Expr) -> Result<Expr, AllocError>
    ensures { IfOk result (λ e. e ≡ variants.Mul a b) }
{
    let a = Boxed::new(alloc, a)?;
    let b = Boxed::new(alloc, b)?;
    Ok(Expr::Mul(a, b))
}

/// The product of two expressions.
#[tactic(auto, using(crate::proofs::SeenTrees::multiplied))]
pub(crate) fn product(alloc: Global, a: Expr, b: Expr) -> Result<Expr, AllocError>
    ensures { IfOk result (λ e. tree_of e ≡ trees.Mul (tree_of a) (tree_of b)) }
{
    boxed_product(alloc, a, b)
}

fn boxed_solve_left(alloc: Global, t: Expr, sum: Expr) -> Result<Expr, AllocError>
    ensures { IfOk result (λ e. e ≡ variants.SolveLeft t sum) }
{
    let t = Boxed::new(alloc, t)?;
    let sum = Boxed::new(alloc, sum)?;
    Ok(Expr::SolveLeft { t, sum })
}

/// The Y with `t * Y = sum`.
#[tactic(auto, using(crate::proofs::SeenTrees::solved_left))]
pub(crate) fn solve_left(alloc: Global, t: Expr, sum: Expr) -> Result<Expr, AllocError>
    ensures { IfOk result (λ e. tree_of e ≡ trees.SolveLeft (tree_of t) (tree_of sum)) }
{
    boxed_solve_left(alloc, t, sum)
}

fn boxed_solve_right(alloc: Global, sum: Expr, t: Expr) -> Result<Expr, AllocError>
    ensures { IfOk result (λ e. e ≡ variants.SolveRight sum t) }
{
    let sum = Boxed::new(alloc, sum)?;
    let t = Boxed::new(alloc, t)?;
    Ok(Expr::SolveRight { sum, t })
}

/// The Y with `Y * t = sum`.
#[tactic(auto, using(crate::proofs::SeenTrees::solved_right))]
pub(crate) fn solve_right(alloc: Global, sum: Expr, t: Expr) -> Result<Expr, AllocError>
    ensures { IfOk result (λ e. tree_of e ≡ trees.SolveRight (tree_of sum) (tree_of t)) }
{
    boxed_solve_right(alloc, sum, t)
}

fn boxed_sylvester(
    alloc: Global,
    t: Expr,
    u: Expr,
    minus: bool,
    sum: Expr,
) -> Result<Expr, AllocError>
    ensures { IfOk result (λ e. e ≡ variants.Sylvester t u minus sum) }
{
    let t = Boxed::new(alloc, t)?;
    let u = Boxed::new(alloc, u)?;
    let sum = Boxed::new(alloc, sum)?;
    Ok(Expr::Sylvester { t, u, minus, sum })
}

/// The Y with `t * Y + Y * u = sum`, or with `-`.
#[tactic(auto, using(crate::proofs::SeenTrees::solved_both))]
pub(crate) fn sylvester(
    alloc: Global,
    t: Expr,
    u: Expr,
    minus: bool,
    sum: Expr,
) -> Result<Expr, AllocError>
    ensures { IfOk result (λ e. tree_of e
        ≡ trees.Sylvester (tree_of t) (tree_of u) minus (tree_of sum)) }
{
    boxed_sylvester(alloc, t, u, minus, sum)
}

fn boxed_lu(alloc: Global, sum: Expr) -> Result<Expr, AllocError>
    ensures { IfOk result (λ e. e ≡ variants.Lu sum) }
{
    let sum = Boxed::new(alloc, sum)?;
    Ok(Expr::Lu(sum))
}

/// The packed factors L and U.
#[tactic(auto, using(crate::proofs::SeenTrees::lu_factored))]
pub(crate) fn lu(alloc: Global, sum: Expr) -> Result<Expr, AllocError>
    ensures { IfOk result (λ e. tree_of e ≡ trees.Lu (tree_of sum)) }
{
    boxed_lu(alloc, sum)
}

fn boxed_ldl(alloc: Global, sum: Expr) -> Result<Expr, AllocError>
    ensures { IfOk result (λ e. e ≡ variants.Ldl sum) }
{
    let sum = Boxed::new(alloc, sum)?;
    Ok(Expr::Ldl(sum))
}

/// The packed factors L and D.
#[tactic(auto, using(crate::proofs::SeenTrees::ldl_factored))]
pub(crate) fn ldl(alloc: Global, sum: Expr) -> Result<Expr, AllocError>
    ensures { IfOk result (λ e. tree_of e ≡ trees.Ldl (tree_of sum)) }
{
    boxed_ldl(alloc, sum)
}
