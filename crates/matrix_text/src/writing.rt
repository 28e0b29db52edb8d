ghost use Rattle.std.specs.Prelude.{◌≡◌, ◌∷◌, [], ◌++◌, ◌<◌, length, decimal, OnOk, OnErr};
ghost use Rattle.matrix_text.specs.MatrixTexts.{entry_end, entry_lines, matrix_text};

use byte_texts::put_decimal;
use matrix_core::Matrix;
use std::alloc::{AllocError, Global};
use text_scan::Name;

/// What ends an entry that so many entries follow.
fn end_of_entry(cols: usize, behind: usize) -> u8
    requires { 0 < cols }
    ensures { result ≡ entry_end cols behind }
{
    if behind % cols == 0 { b'\n' } else { b' ' }
}

/// Appends a number and the byte that ends it.
fn put_number(n: u64, end: u8, out: &mut Vec<u8>) -> Result<(), AllocError>
    ensures { OnOk result (out.new.items ≡ out.old.items ++ decimal n ++ end ∷ []) }
{
    put_decimal(n, out)?;
    out.push(end)?;
    Ok(())
}

/// Appends the entries of whole rows, each row on a line of its own.
fn put_entries(cols: usize, entries: &[u64], out: &mut Vec<u8>) -> Result<(), AllocError>
    requires { 0 < length entries.now → 0 < cols }
    ensures { OnOk result (out.new.items ≡ out.old.items ++ entry_lines cols entries.now) }
{
    for (i, x) in entries.iter().enumerate() {
        put_number(*x, end_of_entry(cols, entries.len() - 1 - i), out)?;
    }
    Ok(())
}

/// Appends the text of a matrix under its name.
fn put_matrix(name: &Name, matrix: &Matrix, out: &mut Vec<u8>) -> Result<(), AllocError>
    ensures { OnOk result (out.new.items ≡ out.old.items ++ matrix_text name.now matrix.now) }
{
    out.extend_from_slice(b"matrix ")?;
    out.extend_from_slice(name.as_slice())?;
    out.push(b' ')?;
    put_number(matrix.rows() as u64, b' ', out)?;
    put_number(matrix.cols() as u64, b'\n', out)?;
    put_entries(matrix.cols() as usize, matrix.entries(), out)?;
    out.extend_from_slice(b"end\n")?;
    Ok(())
}

/// Appends the text of a matrix under its name. Its one error is want of memory, and then nothing is
/// appended: the text is composed apart from `out` first.
pub fn write_matrix(
    alloc: Global,
    name: &Name,
    matrix: &Matrix,
    out: &mut Vec<u8>,
) -> Result<(), AllocError>
    ensures ok { OnOk result (out.new.items ≡ out.old.items ++ matrix_text name.now matrix.now) }
    ensures err { OnErr result (out.new.items ≡ out.old.items) }
{
    let mut text = Vec::new(alloc);
    put_matrix(name, matrix, &mut text)?;
    out.extend_from_slice(&text)
}
