//! Expressions as text.

ghost use Rattle.std.specs.Prelude.{◌≡◌, ◌++◌, decimal, OnOk, OnErr};
ghost use Rattle.block_expr.specs.Seen.{tree_of};
ghost use Rattle.block_expr.specs.Texts.{between_text, leaf_text, place_text, prime_text};
ghost use Rattle.block_expr.specs.Texts.{tree_text};

use crate::expr::Expr;
use crate::operands::known;
use block_values::Leaf;
use byte_texts::put_decimal;
use operation_spec::Operation;
use std::alloc::{AllocError, Global};

/// Appends the text of an expression. Its one error is want of memory, and then nothing is appended: the text is
/// composed apart from `out` first.
pub fn write_expr(
    alloc: Global,
    op: &Operation,
    e: &Expr,
    out: &mut Vec<u8>,
) -> Result<(), AllocError>
    ensures ok { OnOk result (out.new.items ≡ out.old.items ++ tree_text op.now (tree_of e.now)) }
    ensures err { OnErr result (out.new.items ≡ out.old.items) }
{
    let mut text = Vec::new(alloc);
    put_expr(op, e, &mut text)?;
    out.extend_from_slice(&text)
}

fn put_expr(op: &Operation, e: &Expr, out: &mut Vec<u8>) -> Result<(), AllocError>
    ensures { OnOk result (out.new.items ≡ out.old.items ++ tree_text op.now (tree_of e.now)) }
{
    match e {
        Expr::Zero => Ok(out.push(b'0')?),
        Expr::Block { leaf, primed, i, j } => Ok(put_block(op, *leaf, *primed, *i, *j, out)?),
        Expr::Add(a, b) => {
            put_expr(op, a.get(), out)?;
            out.extend_from_slice(b" + ")?;
            put_expr(op, b.get(), out)?;
            Ok(())
        }
        Expr::Sub(a, b) => {
            put_expr(op, a.get(), out)?;
            out.extend_from_slice(b" - ")?;
            put_expr(op, b.get(), out)?;
            Ok(())
        }
        Expr::Mul(a, b) => {
            put_expr(op, a.get(), out)?;
            out.push(b'*')?;
            put_expr(op, b.get(), out)?;
            Ok(())
        }
        Expr::SolveLeft { t, sum } => {
            out.extend_from_slice(b"inv(")?;
            put_expr(op, t.get(), out)?;
            out.extend_from_slice(b")*(")?;
            put_expr(op, sum.get(), out)?;
            out.push(b')')?;
            Ok(())
        }
        Expr::SolveRight { sum, t } => {
            out.push(b'(')?;
            put_expr(op, sum.get(), out)?;
            out.extend_from_slice(b")*inv(")?;
            put_expr(op, t.get(), out)?;
            out.push(b')')?;
            Ok(())
        }
        Expr::Sylvester { t, u, minus, sum } => {
            out.extend_from_slice(b"sylvester(")?;
            put_expr(op, t.get(), out)?;
            put_between(*minus, out)?;
            put_expr(op, u.get(), out)?;
            out.push(b',')?;
            put_expr(op, sum.get(), out)?;
            out.push(b')')?;
            Ok(())
        }
        Expr::Lu(sum) => {
            out.extend_from_slice(b"lu(")?;
            put_expr(op, sum.get(), out)?;
            out.push(b')')?;
            Ok(())
        }
        Expr::Ldl(sum) => {
            out.extend_from_slice(b"ldl(")?;
            put_expr(op, sum.get(), out)?;
            out.push(b')')?;
            Ok(())
        }
    }
}

/// Appends what stands between the two factors of `sylvester`.
fn put_between(minus: bool, out: &mut Vec<u8>) -> Result<(), AllocError>
    ensures { OnOk result (out.new.items ≡ out.old.items ++ between_text minus) }
{
    if minus {
        Ok(out.extend_from_slice(b",-")?)
    } else {
        Ok(out.push(b',')?)
    }
}

/// Appends a block, as `A'[1,0]`.
fn put_block(
    op: &Operation,
    leaf: Leaf,
    primed: bool,
    i: u32,
    j: u32,
    out: &mut Vec<u8>,
) -> Result<(), AllocError>
    ensures { OnOk result (out.new.items
        ≡ out.old.items ++ (leaf_text op.now leaf ++ prime_text primed ++ place_text i j)) }
{
    put_leaf(op, leaf, out)?;
    put_prime(primed, out)?;
    Ok(put_place(i, j, out)?)
}

/// Appends the name of a leaf.
fn put_leaf(op: &Operation, leaf: Leaf, out: &mut Vec<u8>) -> Result<(), AllocError>
    ensures { OnOk result (out.new.items ≡ out.old.items ++ leaf_text op.now leaf) }
{
    match leaf {
        Leaf::Work => Ok(out.extend_from_slice(op.work.name.as_slice())?),
        Leaf::Known(k) => Ok(out.extend_from_slice(known(op, k).name.as_slice())?),
        Leaf::Solution => Ok(out.push(b'X')?),
        Leaf::L => Ok(out.extend_from_slice(b"X.l")?),
        Leaf::D => Ok(out.extend_from_slice(b"X.d")?),
        Leaf::U => Ok(out.extend_from_slice(b"X.u")?),
    }
}

fn put_prime(primed: bool, out: &mut Vec<u8>) -> Result<(), AllocError>
    ensures { OnOk result (out.new.items ≡ out.old.items ++ prime_text primed) }
{
    if primed {
        out.push(b'\'')?;
    }
    Ok(())
}

/// Appends the place of a block, as `[1,0]`.
pub fn put_place(i: u32, j: u32, out: &mut Vec<u8>) -> Result<(), AllocError>
    ensures { OnOk result (out.new.items ≡ out.old.items ++ place_text i j) }
{
    out.push(b'[')?;
    put_decimal(u64::from(i), out)?;
    out.push(b',')?;
    put_decimal(u64::from(j), out)?;
    out.push(b']')?;
    Ok(())
}
