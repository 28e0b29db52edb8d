//! What an equation has to meet: that its operands are declared, the conditions of its form, and that all is
//! used that is declared.

ghost use Rattle.std.specs.Prelude.{◌≡◌, ◌≤◌, suc, ◌&&◌, ◌||◌, ◌==◌, not, nat_lt, length, IfOk};
ghost use Rattle.std.specs.List.{list_all};
ghost use Rattle.byte_texts.specs.Reading.{Gives};
ghost use Rattle.operation_spec.specs.Equations.{has_dim, is_triangle_on, meets_form, sides_of, sides_of_left};
ghost use Rattle.operation_spec.specs.OperationFaults.{all_below, equation_at, is_malformed, sides_at, spec_fault};

use crate::equation::{Equation, LeftSide, Side};
use crate::equation_sizes::{nth_operand, sizes_agree};
use crate::equation_words::read_equation_words;
use crate::fault::SpecFault;
use crate::operation::Operand;
use std::alloc::{AllocError, Global};
use structure_rules::Structure;
use text_scan::{Name, TextLine};

/// How many terms an equation may have.
const TERM_LIMIT: usize = 2;

/// Whether the operand is a triangular factor on a dimension.
fn is_triangle_on(work: &Operand, knowns: &[Operand], dim: u32, side: Side) -> bool
    ensures { result ≡ is_triangle_on work.now knowns.now dim side }
{
    let operand = nth_operand(work, knowns, side.operand);
    match operand.structure {
        Structure::General | Structure::Symmetric => false,
        Structure::Lower
        | Structure::UnitLower
        | Structure::Upper
        | Structure::UnitUpper
        | Structure::Diagonal => operand.rows == dim,
    }
}

/// Whether the conditions of the form are met.
fn meets_form(work: &Operand, knowns: &[Operand], left: LeftSide) -> bool
    ensures { result ≡ meets_form work.now knowns.now left }
{
    match left {
        LeftSide::Solution => true,
        LeftSide::OnLeft { t } => is_triangle_on(work, knowns, work.rows, t),
        LeftSide::OnRight { t } => is_triangle_on(work, knowns, work.cols, t),
        LeftSide::OnBoth { t, u, minus: _ } => {
            work.structure == Structure::General
                && is_triangle_on(work, knowns, work.rows, t)
                && is_triangle_on(work, knowns, work.cols, u)
        }
        LeftSide::LuFactors => work.structure == Structure::General && work.rows == work.cols,
        LeftSide::LdlFactors => work.structure == Structure::Lower,
    }
}

// ---- what is used

/// The operands of a left side.
fn sides_of_left(alloc: Global, left: LeftSide) -> Result<Vec<Side>, AllocError>
    ensures { IfOk result (λ sides. sides.items ≡ sides_of_left left) }
{
    match left {
        LeftSide::OnLeft { t } | LeftSide::OnRight { t } => Ok(vec![in alloc; t]?),
        LeftSide::OnBoth { t, u, minus: _ } => Ok(vec![in alloc; t, u]?),
        LeftSide::Solution | LeftSide::LuFactors | LeftSide::LdlFactors => Ok(Vec::new(alloc)),
    }
}

/// All operands that stand in products, those of the left side first.
fn sides_of(alloc: Global, e: &Equation) -> Result<Vec<Side>, AllocError>
    ensures { IfOk result (λ sides. sides.items ≡ sides_of e.now) }
{
    let mut sides = sides_of_left(alloc, e.left)?;
    for p in e.products.as_slice() {
        sides.push(p.first)?;
        sides.push(p.second)?;
    }
    Ok(sides)
}

/// Whether all sides are operands with other numbers.
fn all_other(sides: &[Side], number: u32) -> bool
    ensures { result ≡ list_all (λ side. not (side.operand == number)) sides.now }
{
    sides.iter().all(|side| side.operand != number)
}

/// Whether one of the sides is the operand with this number.
fn has_operand(sides: &[Side], number: u32) -> bool
    ensures { result ≡ not (list_all (λ side. not (side.operand == number)) sides.now) }
{
    !all_other(sides, number)
}

/// Whether each known operand, of which there are so many, is one of the sides.
fn has_all_knowns(sides: &[Side], count: u32) -> bool
    requires { count ≤ 6 }
    ensures { result ≡ all_below count (λ k. not
        (list_all (λ side. not (side.operand == suc k)) sides.now)) }
{
    for k in 0..count {
        if !has_operand(sides, k + 1) {
            return false;
        }
    }
    true
}

/// Whether the operand has the dimension.
fn is_on(o: &Operand, d: u32) -> bool
    ensures { result ≡ (o.now.rows == d || o.now.cols == d) }
{
    o.rows == d || o.cols == d
}

/// Whether all operands are on other dimensions.
fn all_elsewhere(operands: &[Operand], d: u32) -> bool
    ensures { result ≡ list_all (λ o. not (o.rows == d || o.cols == d)) operands.now }
{
    operands.iter().all(|o| !is_on(o, d))
}

/// Whether one of the operands has the dimension.
fn has_dim(work: &Operand, knowns: &[Operand], d: u32) -> bool
    ensures { result ≡ has_dim work.now knowns.now d }
{
    is_on(work, d) || !all_elsewhere(knowns, d)
}

/// Whether each dimension, of which there are so many, is one of an operand.
fn has_all_dims(work: &Operand, knowns: &[Operand], count: u32) -> bool
    ensures { result ≡ all_below count (has_dim work.now knowns.now) }
{
    for d in 0..count {
        if !has_dim(work, knowns, d) {
            return false;
        }
    }
    true
}

// ---- the tests of the line

/// Whether all sides have numbers below the count of the operands.
fn are_known(sides: &[Side], count: u32) -> bool
    ensures { result ≡ list_all (λ side. nat_lt side.operand count) sides.now }
{
    sides.iter().all(|side| side.operand < count)
}

/// Whether a name stands for no operand.
fn has_unknown_side(knowns: &[Operand], first: u32, sides: &[Side]) -> bool
    requires { length knowns.now ≤ 6 }
    ensures { result ≡ not (nat_lt first (suc (length knowns.now))
        && list_all (λ side. nat_lt side.operand (suc (length knowns.now))) sides.now) }
{
    let count = knowns.len() as u32 + 1;
    first >= count || !are_known(sides, count)
}

/// Whether the equation's form is faulty: its right side doesn't begin with the work operand, or that is T, U
/// or a factor, or a condition of the form isn't met, or a known operand or a dimension isn't used.
fn is_malformed(
    dims: &[Name],
    work: &Operand,
    knowns: &[Operand],
    e: &Equation,
    sides: &[Side],
) -> bool
    requires dims { length dims.now ≤ 6 }
    requires knowns { length knowns.now ≤ 6 }
    requires sides { sides.now ≡ sides_of e.now }
    ensures { result ≡ is_malformed dims.now work.now knowns.now e.now }
{
    e.first != 0
        || has_operand(sides, 0)
        || !meets_form(work, knowns, e.left)
        || !has_all_knowns(sides, knowns.len() as u32)
        || !has_all_dims(work, knowns, dims.len() as u32)
}

/// Finds the first fault of an equation that was read from a line. Its errors are want of memory, and that
/// fault.
#[tactic(auto, unfolding(crate::specs::OperationFaults::sides_at))]
fn check_equation(
    alloc: Global,
    dims: &[Name],
    work: &Operand,
    knowns: &[Operand],
    number: u32,
    e: &Equation,
) -> Result<(), SpecFault>
    requires dims { length dims.now ≤ 6 }
    requires knowns { length knowns.now ≤ 6 }
    ensures { Gives spec_fault (λ _. e.now) result
        (sides_at dims.now work.now knowns.now number e.now) }
{
    let sides = sides_of(alloc, e)?;
    if has_unknown_side(knowns, e.first, sides.as_slice()) {
        return Err(SpecFault::NameUnknown { line: number });
    }
    if e.products.len() > TERM_LIMIT {
        return Err(SpecFault::TooManyTerms { line: number });
    }
    if !sizes_agree(work, knowns, e) {
        return Err(SpecFault::Shape { line: number });
    }
    if is_malformed(dims, work, knowns, e, sides.as_slice()) {
        return Err(SpecFault::Form { line: number });
    }
    Ok(())
}

/// Reads the line `equation LEFTSIDE = W TERMS`, over the dimensions and operands that are declared above it.
#[tactic(auto, unfolding(crate::specs::OperationFaults::equation_at))]
pub fn read_equation(
    alloc: Global,
    dims: &[Name],
    work: &Operand,
    knowns: &[Operand],
    line: &TextLine<'_>,
) -> Result<Equation, SpecFault>
    requires dims { length dims.now ≤ 6 }
    requires knowns { length knowns.now ≤ 6 }
    ensures { Gives spec_fault (λ e. e) result (equation_at dims.now work.now knowns.now line.now) }
{
    let e = read_equation_words(alloc, work, knowns, line)?;
    check_equation(alloc, dims, work, knowns, line.number(), &e)?;
    Ok(e)
}
