//! Matrices that stand for the operands of an operation.

ghost use Rattle.std.specs.Prelude.{◌≡◌, ◌<◌, ◌∷◌, [], ◌++◌, ℕ, List, length, map, not, ◌||◌, ◌==◌, All, OnOk, IfOk};
ghost use Rattle.std.specs.List.{list_all};
ghost use Rattle.byte_texts.specs.Reading.{Gives};
ghost use Rattle.equation.specs.Jobs.{nth_grid};
ghost use Rattle.job_text.specs.JobFaults.{bound_at, has_two_lengths, job_fault, lengths_of};

use crate::fault::JobFault;
use crate::names::has_number;
use equation::Statement;
use matrix_core::Matrix;
use operation_spec::{Binding, Operand, Operation};
use std::alloc::{AllocError, Global};
use structure_rules::NumberList;

/// The length that a matrix gives a dimension of its operand.
#[derive(Clone, Copy)]
pub struct Length {
    pub dim: u32,
    pub length_of: u32,
}

/// Whether none of the others gives the dimension of the first another length.
fn agrees(first: Length, others: &[Length]) -> bool
    ensures { result ≡ list_all (λ b. not (b.dim == first.dim) || b.length_of == first.length_of)
        others.now }
{
    others
        .iter()
        .all(|b| b.dim != first.dim || b.length_of == first.length_of)
}

/// Whether a dimension has two lengths.
pub fn has_two_lengths(lengths: &[Length]) -> bool
    ensures { result ≡ has_two_lengths lengths.now }
{
    match lengths {
        [first, others @ ..] => !agrees(*first, others) || has_two_lengths(others),
        [] => false,
    }
}

/// The matrix with a number.
fn matrix_of(matrices: &[Matrix], n: u32) -> &Matrix
    requires { n < length matrices.now }
    ensures { result.now ≡ nth_grid matrices.now n }
{
    &matrices[n as usize]
}

/// Appends the lengths that a matrix gives the dimensions of an operand.
fn put_lengths(
    operand: &Operand,
    matrix: &Matrix,
    lengths: &mut Vec<Length>,
) -> Result<(), AllocError>
    ensures { OnOk result (lengths.new.items ≡ lengths.old.items ++ lengths_of (operand.now ∷ [])
        (matrix.now ∷ [])) }
{
    lengths.push(Length {
        dim: operand.rows,
        length_of: matrix.rows(),
    })?;
    lengths.push(Length {
        dim: operand.cols,
        length_of: matrix.cols(),
    })?;
    Ok(())
}

/// Appends the lengths that matrices give the dimensions of known operands, one matrix for each.
fn put_knowns(
    operands: &[Operand],
    matrices: &[Matrix],
    bound: &[u32],
    lengths: &mut Vec<Length>,
) -> Result<(), AllocError>
    requires count { length bound.now ≡ length operands.now }
    requires within { All (λ k. k < length matrices.now) bound.now }
    ensures { OnOk result (lengths.new.items ≡ lengths.old.items ++ lengths_of operands.now
        (map (nth_grid matrices.now) bound.now)) }
{
    for (i, operand) in operands.iter().enumerate() {
        put_lengths(operand, matrix_of(matrices, bound[i]), lengths)?;
    }
    Ok(())
}

/// The lengths that matrices give the dimensions of an operation.
fn lengths_of(
    alloc: Global,
    op: &Operation,
    matrices: &[Matrix],
    work: u32,
    knowns: &[u32],
) -> Result<Vec<Length>, AllocError>
    requires count { length knowns.now ≡ length op.now.knowns }
    requires work { work < length matrices.now }
    requires knowns { All (λ k. k < length matrices.now) knowns.now }
    ensures { IfOk result (λ lengths. lengths.items ≡ lengths_of (op.now.work ∷ op.now.knowns)
        (map (nth_grid matrices.now) (work ∷ knowns.now))) }
{
    let mut lengths = Vec::new(alloc);
    put_lengths(&op.work, matrix_of(matrices, work), &mut lengths)?;
    put_knowns(op.knowns.as_slice(), matrices, knowns, &mut lengths)?;
    Ok(lengths)
}

/// The statement that binds matrices to the operands of an operation.
fn statement(
    alloc: Global,
    operation: u32,
    work: u32,
    knowns: &[u32],
) -> Result<Statement, AllocError>
    ensures { IfOk result (λ s.
        s ≡ record { operation = operation; bind = record { work = work; knowns = knowns.now } }) }
{
    let mut numbers = Vec::new(alloc);
    numbers.extend_from_slice(knowns)?;
    Ok(Statement {
        operation,
        bind: Binding {
            work,
            knowns: NumberList::from_vec(numbers),
        },
    })
}

/// Binds matrices by their numbers to the operands of an operation, which has a number itself.
#[tactic(auto, unfolding(crate::specs::JobFaults::bound_at))]
pub fn bind(
    alloc: Global,
    number: u32,
    op: &Operation,
    matrices: &[Matrix],
    operation: u32,
    bound: &[u32],
) -> Result<Statement, JobFault>
    requires { All (λ k. k < length matrices.now) bound.now }
    ensures { (words : List (List ℕ)) → Gives job_fault (λ s. s) result
        (bound_at (record { number = number; words = words }) op.now matrices.now operation
        bound.now) }
{
    match bound {
        [work, knowns @ ..] => {
            if knowns.len() != op.knowns.len() {
                return Err(JobFault::Binding { line: number });
            }
            let lengths = lengths_of(alloc, op, matrices, *work, knowns)?;
            if has_two_lengths(&lengths) {
                return Err(JobFault::Binding { line: number });
            }
            if has_number(knowns, *work) {
                return Err(JobFault::Alias { line: number });
            }
            Ok(statement(alloc, operation, *work, knowns)?)
        }
        [] => Err(JobFault::Binding { line: number }),
    }
}
