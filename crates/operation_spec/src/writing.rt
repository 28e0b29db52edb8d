ghost use Rattle.std.specs.Prelude.{◌≡◌, [], ◌∷◌, ◌++◌, map, codes, OnOk, OnErr};
ghost use Rattle.text_scan.specs.NormalTexts.{line_text, lines_text};
ghost use Rattle.operation_spec.specs.OperationLines.{equation_words, operand_line, operation_lines};

use crate::equation_writing::put_equation;
use crate::operation::{Operand, Operation};
use crate::words::{dim_name, put_names, put_structure, put_word};
use std::alloc::{AllocError, Global};
use text_scan::Name;

/// Appends the line of an operand, which begins with a word.
fn put_operand(
    dims: &[Name],
    word: &[u8],
    operand: &Operand,
    out: &mut Vec<u8>,
) -> Result<(), AllocError>
    ensures { OnOk result (out.new.items ≡ out.old.items ++ line_text
        (operand_line dims.now word.now operand.now)) }
{
    out.extend_from_slice(word)?;
    put_word(operand.name.as_slice(), out)?;
    put_structure(operand.structure, out)?;
    put_word(dim_name(dims, operand.rows), out)?;
    put_word(dim_name(dims, operand.cols), out)?;
    out.push(b'\n')?;
    Ok(())
}

fn put_knowns(dims: &[Name], knowns: &[Operand], out: &mut Vec<u8>) -> Result<(), AllocError>
    ensures { OnOk result (out.new.items ≡ out.old.items ++ lines_text
        (map (operand_line dims.now (codes "known")) knowns.now)) }
{
    for known in knowns {
        put_operand(dims, b"known", known, out)?;
    }
    Ok(())
}

fn put_name_line(name: &Name, out: &mut Vec<u8>) -> Result<(), AllocError>
    ensures { OnOk result (out.new.items ≡ out.old.items ++ line_text
        (codes "operation" ∷ name.now ∷ [])) }
{
    out.extend_from_slice(b"operation")?;
    put_word(name.as_slice(), out)?;
    out.push(b'\n')?;
    Ok(())
}

fn put_dims_line(dims: &[Name], out: &mut Vec<u8>) -> Result<(), AllocError>
    ensures { OnOk result (out.new.items ≡ out.old.items ++ line_text (codes "dims" ∷ dims.now)) }
{
    out.extend_from_slice(b"dims")?;
    put_names(dims, out)?;
    out.push(b'\n')?;
    Ok(())
}

fn put_equation_line(op: &Operation, out: &mut Vec<u8>) -> Result<(), AllocError>
    ensures { OnOk result (out.new.items ≡ out.old.items ++ line_text
        (codes "equation" ∷ equation_words op.now)) }
{
    out.extend_from_slice(b"equation")?;
    put_equation(op, out)?;
    out.push(b'\n')?;
    Ok(())
}

/// Appends all lines of an operation.
fn put_operation(op: &Operation, out: &mut Vec<u8>) -> Result<(), AllocError>
    ensures { OnOk result (out.new.items ≡ out.old.items ++ lines_text (operation_lines op.now)) }
{
    let dims = op.dims.as_slice();
    put_name_line(&op.name, out)?;
    put_dims_line(dims, out)?;
    put_operand(dims, b"work", &op.work, out)?;
    put_knowns(dims, op.knowns.as_slice(), out)?;
    put_equation_line(op, out)?;
    out.extend_from_slice(b"end\n")?;
    Ok(())
}

/// Appends the normal text of an operation, its block of lines. Its one error is want of memory, and then
/// nothing is appended: the text is composed apart from `out` first.
pub fn write_operation(alloc: Global, op: &Operation, out: &mut Vec<u8>) -> Result<(), AllocError>
    ensures ok { OnOk result (out.new.items ≡ out.old.items ++ lines_text
        (operation_lines op.now)) }
    ensures err { OnErr result (out.new.items ≡ out.old.items) }
{
    let mut text = Vec::new(alloc);
    put_operation(op, &mut text)?;
    out.extend_from_slice(&text)
}

#[cfg(test)]
mod tests {
    use super::*;
    use crate::operation::{Factor, Form, OperandList, Term, TermList};
    use std::test::Fail;
    use structure_rules::Structure;
    use text_scan::NameList;

    fn name(alloc: Global, text: &[u8]) -> Result<Name, AllocError> {
        let mut bytes = Vec::new(alloc);
        bytes.extend_from_slice(text)?;
        Ok(Name::from_vec(bytes))
    }

    fn operand(
        alloc: Global,
        text: &[u8],
        structure: Structure,
        rows: u32,
        cols: u32,
    ) -> Result<Operand, AllocError> {
        let name = name(alloc, text)?;
        Ok(Operand {
            name,
            structure,
            rows,
            cols,
        })
    }

    // X * T' = W - A * T
    fn right(alloc: Global) -> Result<Operation, AllocError> {
        let factor = |known, primed| Factor { known, primed };
        let mut dims = NameList::new(alloc);
        dims.push(name(alloc, b"n")?)?;
        dims.push(name(alloc, b"m")?)?;
        let mut knowns = OperandList::new(alloc);
        knowns.push(operand(alloc, b"T", Structure::Upper, 0, 0)?)?;
        knowns.push(operand(alloc, b"A", Structure::General, 1, 0)?)?;
        let mut terms = TermList::new(alloc);
        terms.push(Term {
            minus: true,
            first: factor(1, false),
            second: factor(0, false),
        })?;
        Ok(Operation {
            name: name(alloc, b"right")?,
            dims,
            work: operand(alloc, b"W", Structure::General, 1, 0)?,
            knowns,
            form: Form::Right { t: factor(0, true) },
            terms,
        })
    }

    #[test]
    fn an_operation_is_printed_behind_other_text(rt: HostRuntime) -> Result<(), Fail> {
        let alloc = rt.alloc();
        let mut out = Vec::new(alloc);
        out.extend_from_slice(b"modulus 7\n")?;
        write_operation(alloc, &right(alloc)?, &mut out)?;
        assert_eq!(rt;
            out.as_slice(),
            b"modulus 7\noperation right\ndims n m\nwork W general m n\nknown T upper n n\nknown A general m n\nequation X * T' = W - A * T\nend\n".as_slice()
        );
        Ok(())
    }
}
