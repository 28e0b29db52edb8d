//! The four operations of a generated job.

ghost use Rattle.std.specs.Prelude.{◌≡◌, [], ◌∷◌, IfOk};
ghost use Rattle.job_generator.specs.GeneratedOperations.{factor, operand, prod, lu, solve};

use crate::lists::{one, two};
use item_lists::ItemList;
use operation_spec::{Factor, Form, Operand, Operation, Term};
use std::alloc::{AllocError, Global};
use structure_rules::Structure;
use text_scan::Name;

/// The name with this text.
pub fn name(alloc: Global, text: &[u8]) -> Result<Name, AllocError>
    ensures { IfOk result (λ name. name ≡ text.now) }
{
    Ok(ItemList::from_vec(Vec::from_slice(alloc, text)?))
}

fn operand(
    alloc: Global,
    text: &[u8],
    structure: Structure,
    rows: u32,
    cols: u32,
) -> Result<Operand, AllocError>
    ensures { IfOk result (λ o. o ≡ operand text.now structure rows cols) }
{
    Ok(Operand {
        name: name(alloc, text)?,
        structure,
        rows,
        cols,
    })
}

/// A known operand as it is.
fn factor(known: u32) -> Factor
    ensures { result ≡ factor known }
{
    Factor {
        known,
        primed: false,
    }
}

/// X = W + L * U, of a unit lower and an upper factor.
#[tactic(auto, unfolding(crate::specs::GeneratedOperations::prod))]
pub fn prod(alloc: Global) -> Result<Operation, AllocError>
    ensures { IfOk result (λ op. op ≡ prod) }
{
    let lower = operand(alloc, b"L", Structure::UnitLower, 0, 0)?;
    let upper = operand(alloc, b"U", Structure::Upper, 0, 0)?;
    let term = Term {
        minus: false,
        first: factor(0),
        second: factor(1),
    };
    Ok(Operation {
        name: name(alloc, b"prod")?,
        dims: one(alloc, name(alloc, b"n")?)?,
        work: operand(alloc, b"W", Structure::General, 0, 0)?,
        knowns: two(alloc, lower, upper)?,
        form: Form::Assign,
        terms: one(alloc, term)?,
    })
}

/// lu X = W.
#[tactic(auto, unfolding(crate::specs::GeneratedOperations::lu))]
pub fn lu(alloc: Global) -> Result<Operation, AllocError>
    ensures { IfOk result (λ op. op ≡ lu) }
{
    Ok(Operation {
        name: name(alloc, b"lu")?,
        dims: one(alloc, name(alloc, b"n")?)?,
        work: operand(alloc, b"W", Structure::General, 0, 0)?,
        knowns: ItemList::new(alloc),
        form: Form::Lu,
        terms: ItemList::new(alloc),
    })
}

/// T * X = W, of a triangular factor with this structure.
#[tactic(auto, unfolding(crate::specs::GeneratedOperations::solve))]
pub fn solve(alloc: Global, text: &[u8], structure: Structure) -> Result<Operation, AllocError>
    ensures { IfOk result (λ op. op ≡ solve text.now structure) }
{
    let triangle = operand(alloc, b"T", structure, 0, 0)?;
    Ok(Operation {
        name: name(alloc, text)?,
        dims: two(alloc, name(alloc, b"n")?, name(alloc, b"m")?)?,
        work: operand(alloc, b"W", Structure::General, 0, 1)?,
        knowns: one(alloc, triangle)?,
        form: Form::Left { t: factor(0) },
        terms: ItemList::new(alloc),
    })
}
