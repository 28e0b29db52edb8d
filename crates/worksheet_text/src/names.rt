//! Operations and dimensions by their names.

ghost use Rattle.std.specs.Prelude.{◌≡◌, None, Some, MatchOption, IfOk};
ghost use Rattle.text_scan.specs.Names.{number_of};
ghost use Rattle.worksheet_text.specs.SheetReading.{operation_named};

use operation_spec::Operation;
use std::alloc::AllocError;
use text_scan::{Name, number_of};

/// The first operation with a name.
pub fn named<'a>(operations: &'a [Operation], name: &[u8]) -> Option<&'a Operation>
    ensures { MatchOption result (operation_named operations.now name.now ≡ None)
        (λ op. operation_named operations.now name.now ≡ Some op.now) }
{
    match operations {
        [op, others @ ..] => {
            if op.name.as_slice() == name {
                Some(op)
            } else {
                named(others, name)
            }
        }
        [] => None,
    }
}

/// The number of the dimension with a name; the count of the dimensions where none has it. Its one error is want of
/// memory, which is also answered for a number of more than 32 bits.
pub fn dim_number(dims: &[Name], name: &[u8]) -> Result<u32, AllocError>
    ensures { IfOk result (λ n. n ≡ number_of dims.now name.now) }
{
    let n = number_of(dims, name);
    if n <= u32::MAX as usize {
        Ok(n as u32)
    } else {
        Err(AllocError)
    }
}
