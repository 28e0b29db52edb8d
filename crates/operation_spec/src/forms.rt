//! The form and the terms of an operation, from its equation.

ghost use Rattle.std.specs.Prelude.{◌≡◌, map, IfOk};
ghost use Rattle.operation_spec.specs.OperationFaults.{factor_of, form_of, term_of};

use crate::equation::{LeftSide, Product, Side};
use crate::operation::{Factor, Form, Term, TermList};
use std::alloc::{AllocError, Global};

/// The known operand of a side that isn't the work operand.
fn factor_of(side: Side) -> Factor
    ensures { result ≡ factor_of side }
{
    Factor {
        known: side.operand.saturating_sub(1),
        primed: side.primed,
    }
}

/// The form with this left side.
pub fn form_of(left: LeftSide) -> Form
    ensures { result ≡ form_of left }
{
    match left {
        LeftSide::Solution => Form::Assign,
        LeftSide::OnLeft { t } => Form::Left { t: factor_of(t) },
        LeftSide::OnRight { t } => Form::Right { t: factor_of(t) },
        LeftSide::OnBoth { t, u, minus } => Form::Sylvester {
            t: factor_of(t),
            u: factor_of(u),
            minus,
        },
        LeftSide::LuFactors => Form::Lu,
        LeftSide::LdlFactors => Form::Ldl,
    }
}

/// The term that is this product.
fn term_of(p: Product) -> Term
    ensures { result ≡ term_of p }
{
    Term {
        minus: p.minus,
        first: factor_of(p.first),
        second: factor_of(p.second),
    }
}

/// The terms that are these products.
pub fn terms_of(alloc: Global, products: &[Product]) -> Result<TermList, AllocError>
    ensures { IfOk result (λ terms. terms ≡ map term_of products.now) }
{
    let mut terms = TermList::new(alloc);
    for p in products {
        terms.push(term_of(*p))?;
    }
    Ok(terms)
}
