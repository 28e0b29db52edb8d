//! The operands and terms of an operation, by their numbers.

ghost use Rattle.std.specs.Prelude.{◌≡◌};
ghost use Rattle.block_expr.specs.Terms.{numbered_term};
ghost use Rattle.task_graph.specs.Factors.{factor_cols, known};

use operation_spec::{Factor, Operand, Operation, Term};

/// Known operand n, or the work operand where there is none.
pub(crate) fn known(op: &Operation, n: u32) -> &Operand
    ensures { result.now ≡ known op.now n }
{
    op.knowns.get(n as usize).unwrap_or(&op.work)
}

/// The number of the column dimension of op(F).
pub(crate) fn factor_cols(op: &Operation, f: Factor) -> u32
    ensures { result ≡ factor_cols op.now f }
{
    let operand = known(op, f.known);
    if f.primed { operand.rows } else { operand.cols }
}

/// The term with a number, from 1.
pub(crate) fn numbered_term(op: &Operation, number: u32) -> Option<Term>
    ensures { result ≡ numbered_term op.now number }
{
    if number == 0 {
        return None;
    }
    op.terms.get((number - 1) as usize).copied()
}
