//! The operands of an operation, transposed where they are primed.

ghost use Rattle.std.specs.Prelude.{◌≡◌};
ghost use Rattle.task_graph.specs.Factors.{known, factor_structure, factor_cols};

use operation_spec::{Factor, Operand, Operation};
use structure_rules::Structure;

/// Known operand n, or the work operand where there is none.
pub(crate) fn known(op: &Operation, n: u32) -> &Operand
    ensures { result.now ≡ known op.now n }
{
    op.knowns.get(n as usize).unwrap_or(&op.work)
}

/// The structure of op(F).
pub(crate) fn factor_structure(op: &Operation, factor: Factor) -> Structure
    ensures { result ≡ factor_structure op.now factor }
{
    let structure = known(op, factor.known).structure;
    if factor.primed {
        structure.transposed()
    } else {
        structure
    }
}

/// The number of the column dimension of op(F).
pub(crate) fn factor_cols(op: &Operation, factor: Factor) -> u32
    ensures { result ≡ factor_cols op.now factor }
{
    let operand = known(op, factor.known);
    if factor.primed {
        operand.rows
    } else {
        operand.cols
    }
}
