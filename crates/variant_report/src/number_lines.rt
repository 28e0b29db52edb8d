ghost use Rattle.std.specs.Prelude.{◌≡◌, ◌++◌, OnOk};
ghost use Rattle.variant_report.specs.NumberLines.{number_line};

use byte_texts::put_decimal;
use std::alloc::AllocError;

/// Appends a word and a number behind it, on a line.
pub fn put_number_line(word: &[u8], n: u64, out: &mut Vec<u8>) -> Result<(), AllocError>
    ensures { OnOk result (out.new.items ≡ out.old.items ++ number_line word.now n) }
{
    out.extend_from_slice(word)?;
    out.push(b' ')?;
    put_decimal(n, out)?;
    out.push(b'\n')?;
    Ok(())
}
