//! An equation as its words say it.

ghost use Rattle.std.specs.Prelude.{◌≤◌, Some, length};
ghost use Rattle.byte_texts.specs.Reading.{Gives, some_or};
ghost use Rattle.text_scan.specs.FaultKinds.{Syntax};
ghost use Rattle.text_scan.specs.Faults.{◌on◌};
ghost use Rattle.operation_spec.specs.Equations.{left_at, products_of, with_right};
ghost use Rattle.operation_spec.specs.MarkedWords.{left_front_seen, marked_words};
ghost use Rattle.operation_spec.specs.OperationFaults.{equation_in, names_of, spec_fault};

use crate::equation::{Equation, ProductList};
use crate::fault::SpecFault;
use crate::left_sides::{LeftSideFront, left_at, signed_at};
use crate::marked_words::{MarkedWord, marked};
use crate::operation::Operand;
use std::alloc::Global;
use text_scan::TextLine;

/// Any number of `+ F * G` or `- F * G`, and nothing else.
fn products_of(
    alloc: Global,
    work: &Operand,
    knowns: &[Operand],
    number: u32,
    words: &[MarkedWord<'_>],
) -> Result<ProductList, SpecFault>
    requires { length knowns.now ≤ 6 }
    ensures { Gives spec_fault (λ products. products) result
        (some_or (Syntax on number) (products_of (names_of work.now knowns.now)
        (marked_words words.now))) }
{
    let mut products = ProductList::new(alloc);
    let mut at = 0;
    while at < words.len() {
        match signed_at(work, knowns, &words[at..]) {
            Some(product) => {
                products.push(product)?;
                at += 4;
            }
            None => return Err(SpecFault::Syntax { line: number }),
        }
    }
    Ok(products)
}

/// The equation whose left side was read: `= W TERMS` is due.
fn with_right(
    alloc: Global,
    work: &Operand,
    knowns: &[Operand],
    number: u32,
    front: LeftSideFront<'_, '_>,
) -> Result<Equation, SpecFault>
    requires { length knowns.now ≤ 6 }
    ensures { Gives spec_fault (λ e. e) result
        (some_or (Syntax on number) (with_right (names_of work.now knowns.now)
        (Some (left_front_seen front.entry)))) }
{
    match front.rest {
        [equals, w, rest @ ..] => {
            if equals.is_plain(b"=") && !w.primed && w.is_factor() {
                let products = products_of(alloc, work, knowns, number, rest)?;
                Ok(Equation {
                    left: front.left,
                    first: w.side(work, knowns).operand,
                    products,
                })
            } else {
                Err(SpecFault::Syntax { line: number })
            }
        }
        _ => Err(SpecFault::Syntax { line: number }),
    }
}

/// Reads what stands behind the word `equation`.
fn equation_of(
    alloc: Global,
    work: &Operand,
    knowns: &[Operand],
    number: u32,
    words: &[MarkedWord<'_>],
) -> Result<Equation, SpecFault>
    requires { length knowns.now ≤ 6 }
    ensures { Gives spec_fault (λ e. e) result
        (some_or (Syntax on number) (with_right (names_of work.now knowns.now)
        (left_at (names_of work.now knowns.now) (marked_words words.now)))) }
{
    match left_at(work, knowns, words) {
        Some(front) => Ok(with_right(alloc, work, knowns, number, front)?),
        None => Err(SpecFault::Syntax { line: number }),
    }
}

/// Reads the line `equation LEFTSIDE = W TERMS`, whatever its names stand for.
#[tactic(auto, unfolding(crate::specs::Equations::equation_of))]
pub fn read_equation_words(
    alloc: Global,
    work: &Operand,
    knowns: &[Operand],
    line: &TextLine<'_>,
) -> Result<Equation, SpecFault>
    requires { length knowns.now ≤ 6 }
    ensures { Gives spec_fault (λ e. e) result
        (some_or (Syntax on line.now.number)
        (equation_in (names_of work.now knowns.now) line.now.words)) }
{
    let number = line.number();
    if line.begins_with(b"equation") {
        let words = marked(alloc, line.behind(1))?;
        Ok(equation_of(alloc, work, knowns, number, words.as_slice())?)
    } else {
        Err(SpecFault::Syntax { line: number })
    }
}
