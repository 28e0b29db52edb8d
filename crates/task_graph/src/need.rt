//! Which tasks a task needs.

ghost use Rattle.std.specs.Prelude.{◌≡◌, ℕ};
ghost use Rattle.task_graph.specs.Needs.{solves, left_needs, right_needs, factors_diagonal, solve_needs, does_need};

use operation_spec::{Form, Kind, Operation, Task};

/// Whether task a needs task b, for two tasks that the operation has under one cut.
pub fn needs(op: &Operation, a: Task, b: Task) -> bool
    ensures { result ≡ does_need op.now a b }
{
    match a.kind {
        Kind::Pivots | Kind::Term => false,
        Kind::Left => left_needs(op.form, a.i, a.j, a.k, b),
        Kind::Right => right_needs(op.form, a.i, a.k, b),
        Kind::Solve => solve_needs(op.form, a.i, a.j, b),
    }
}

/// Whether task b solves block (i, j).
fn solves(b: Task, i: u32, j: u32) -> bool
    ensures { result ≡ solves b i j }
{
    b.kind == Kind::Solve && b.i == i && b.j == j
}

/// Whether task b solves a block of W that the update Left (i, j, k) reads.
fn left_needs(form: Form, i: u32, j: u32, k: u32, b: Task) -> bool
    ensures { result ≡ left_needs form i j k b }
{
    match form {
        Form::Left { .. } | Form::Sylvester { .. } => solves(b, k, j),
        Form::Lu => solves(b, i, k) || solves(b, k, j),
        Form::Ldl => solves(b, i, k) || solves(b, k, k) || solves(b, j, k),
        Form::Assign | Form::Right { .. } => false,
    }
}

/// Whether task b solves the block of W that an update Right in row i with inner part k reads.
fn right_needs(form: Form, i: u32, k: u32, b: Task) -> bool
    ensures { (j : ℕ) → result ≡ right_needs form i j k b }
{
    match form {
        Form::Right { .. } | Form::Sylvester { .. } => solves(b, i, k),
        Form::Assign | Form::Left { .. } | Form::Lu | Form::Ldl => false,
    }
}

/// Whether the form is a factorisation, which solves the diagonal block of a row or a column first.
fn factors_diagonal(form: Form) -> bool
    ensures { result ≡ factors_diagonal form }
{
    match form {
        Form::Lu | Form::Ldl => true,
        Form::Assign | Form::Left { .. } | Form::Right { .. } | Form::Sylvester { .. } => false,
    }
}

/// Whether the solve of block (i, j) needs task b: another task of the block, or the solve of its diagonal block.
fn solve_needs(form: Form, i: u32, j: u32, b: Task) -> bool
    ensures { result ≡ solve_needs form i j b }
{
    let diagonal = i.min(j);
    (b.kind != Kind::Solve && b.i == i && b.j == j)
        || (factors_diagonal(form) && i != j && solves(b, diagonal, diagonal))
}
