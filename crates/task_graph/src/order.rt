//! The canonical order of an operation's tasks.

ghost use Rattle.std.specs.Prelude.{◌≡◌};
ghost use Rattle.task_graph.specs.Order.{is_upper, is_lower, rows_descend, cols_descend};
ghost use Rattle.task_graph.specs.Order.{comes_before, rank, earlier_in_block, is_earlier};

use crate::factors::factor_structure;
use operation_spec::{Form, Kind, Operation, Task};
use structure_rules::Structure;

/// Whether task a comes before task b in the canonical order.
pub fn earlier(op: &Operation, a: Task, b: Task) -> bool
    ensures { result ≡ is_earlier op.now a b }
{
    comes_before(rows_descend(op), a.i, b.i)
        || (a.i == b.i
            && (comes_before(cols_descend(op), a.j, b.j) || (a.j == b.j && earlier_in_block(a, b))))
}

/// Whether the rows of blocks come from the last one up.
pub(crate) fn rows_descend(op: &Operation) -> bool
    ensures { result ≡ rows_descend op.now }
{
    match op.form {
        Form::Left { t } | Form::Sylvester { t, .. } => is_upper(factor_structure(op, t)),
        Form::Assign | Form::Right { .. } | Form::Lu | Form::Ldl => false,
    }
}

/// Whether the columns of blocks come from the last one down to the first.
pub(crate) fn cols_descend(op: &Operation) -> bool
    ensures { result ≡ cols_descend op.now }
{
    match op.form {
        Form::Right { t } => is_lower(factor_structure(op, t)),
        Form::Sylvester { u, .. } => is_lower(factor_structure(op, u)),
        Form::Assign | Form::Left { .. } | Form::Lu | Form::Ldl => false,
    }
}

/// Whether a triangular factor on the left is solved from its last row up.
fn is_upper(structure: Structure) -> bool
    ensures { result ≡ is_upper structure }
{
    matches!(structure, Structure::Upper | Structure::UnitUpper)
}

/// Whether a triangular factor on the right is solved from its last column on.
fn is_lower(structure: Structure) -> bool
    ensures { result ≡ is_lower structure }
{
    matches!(structure, Structure::Lower | Structure::UnitLower)
}

/// Whether a number comes before another in a direction.
fn comes_before(descend: bool, a: u32, b: u32) -> bool
    ensures { result ≡ comes_before descend a b }
{
    if descend { b < a } else { a < b }
}

/// The place of a kind within a block.
fn rank(kind: Kind) -> u32
    ensures { result ≡ rank kind }
{
    match kind {
        Kind::Pivots => 0,
        Kind::Term => 1,
        Kind::Left => 2,
        Kind::Right => 3,
        Kind::Solve => 4,
    }
}

/// Whether task a comes before task b of the same block: by kind, then term, then inner part.
fn earlier_in_block(a: Task, b: Task) -> bool
    ensures { result ≡ earlier_in_block a b }
{
    rank(a.kind) < rank(b.kind)
        || (rank(a.kind) == rank(b.kind) && (a.term < b.term || (a.term == b.term && a.k < b.k)))
}
