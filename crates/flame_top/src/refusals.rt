//! The texts of refusals, and of a bad pivot.

ghost use Rattle.std.specs.Prelude.{◌≡◌, ◌++◌, decimal, MatchOption, OnOk};
ghost use Rattle.job_text.specs.JobFaults.{job_fault};
ghost use Rattle.worksheet_text.specs.SheetFaults.{ws_fault};
ghost use Rattle.flame_top.specs.Refusals.{bad_pivot_text, kind_at, no_variant_text, refusal_text};
ghost use Rattle.flame_top.specs.Refusals.{sheet_refusal_text, too_many_parts_text};
ghost use Rattle.flame_top.specs.Refusals.{variant_count_text};

use byte_texts::put_decimal;
use equation::Place;
use job_text::JobFault;
use std::alloc::AllocError;
use worksheet_text::WsFault;

/// Appends the kind of a fault and its line.
fn put_kind(kind: &[u8], line: u32, out: &mut Vec<u8>) -> Result<(), AllocError>
    ensures { OnOk result (out.new.items ≡ out.old.items ++ kind_at kind.now line) }
{
    out.extend_from_slice(b"refused ")?;
    out.extend_from_slice(kind)?;
    out.extend_from_slice(b" line ")?;
    put_decimal(u64::from(line), out)?;
    out.push(b'\n')?;
    Ok(())
}

/// Appends what is printed of a fault of a job's text, and of want of memory nothing.
pub fn put_refusal(fault: JobFault, out: &mut Vec<u8>) -> Result<(), AllocError>
    ensures { OnOk result (MatchOption (job_fault fault) (out.new.items ≡ out.old.items)
        (λ told. out.new.items ≡ out.old.items ++ refusal_text told)) }
{
    match fault {
        JobFault::Memory => Ok(()),
        JobFault::BadByte { line } => Ok(put_kind(b"BadByte", line, out)?),
        JobFault::Header { line } => Ok(put_kind(b"Header", line, out)?),
        JobFault::TrailingText { line } => Ok(put_kind(b"TrailingText", line, out)?),
        JobFault::Syntax { line } => Ok(put_kind(b"Syntax", line, out)?),
        JobFault::Modulus { line } => Ok(put_kind(b"Modulus", line, out)?),
        JobFault::Limit { line } => Ok(put_kind(b"Limit", line, out)?),
        JobFault::NameTwice { line } => Ok(put_kind(b"NameTwice", line, out)?),
        JobFault::NameUnknown { line } => Ok(put_kind(b"NameUnknown", line, out)?),
        JobFault::TooManyTerms { line } => Ok(put_kind(b"TooManyTerms", line, out)?),
        JobFault::Shape { line } => Ok(put_kind(b"Shape", line, out)?),
        JobFault::Form { line } => Ok(put_kind(b"Form", line, out)?),
        JobFault::TooLarge { line } => Ok(put_kind(b"TooLarge", line, out)?),
        JobFault::RowLength { line } => Ok(put_kind(b"RowLength", line, out)?),
        JobFault::EntryRange { line } => Ok(put_kind(b"EntryRange", line, out)?),
        JobFault::Binding { line } => Ok(put_kind(b"Binding", line, out)?),
        JobFault::Alias { line } => Ok(put_kind(b"Alias", line, out)?),
    }
}

/// Appends what is printed of a fault of a worksheet's text, and of want of memory nothing.
pub fn put_sheet_refusal(fault: WsFault, out: &mut Vec<u8>) -> Result<(), AllocError>
    ensures { OnOk result (MatchOption (ws_fault fault) (out.new.items ≡ out.old.items)
        (λ told. out.new.items ≡ out.old.items ++ sheet_refusal_text told)) }
{
    match fault {
        WsFault::Memory => Ok(()),
        WsFault::Syntax { line } => Ok(put_kind(b"Syntax", line, out)?),
        WsFault::NameUnknown { line } => Ok(put_kind(b"NameUnknown", line, out)?),
        WsFault::SplitOrder { line } => Ok(put_kind(b"SplitOrder", line, out)?),
    }
}

/// Appends words and a number behind them.
fn put_numbered(words: &[u8], number: u32, out: &mut Vec<u8>) -> Result<(), AllocError>
    ensures { OnOk result (out.new.items ≡ out.old.items ++ (words.now ++ decimal number)) }
{
    out.extend_from_slice(words)?;
    put_decimal(u64::from(number), out)?;
    Ok(())
}

/// Appends what is printed where so many numbers of variants are given and so many are due.
pub fn put_variant_count(given: u64, due: u32, out: &mut Vec<u8>) -> Result<(), AllocError>
    ensures { OnOk result (out.new.items ≡ out.old.items ++ variant_count_text given due) }
{
    out.extend_from_slice(b"refused VariantCount given ")?;
    put_decimal(given, out)?;
    put_numbered(b" due ", due, out)?;
    out.push(b'\n')?;
    Ok(())
}

/// Appends what is printed of a job whose statement, numbered from 1, has no variant with its number.
pub fn put_no_variant(statement: u32, out: &mut Vec<u8>) -> Result<(), AllocError>
    ensures { OnOk result (out.new.items ≡ out.old.items ++ no_variant_text statement) }
{
    put_numbered(b"refused NoVariant statement ", statement, out)?;
    out.push(b'\n')?;
    Ok(())
}

/// Appends what is printed of a job that cuts this dimension of this statement, numbered from 1, into too many parts.
pub fn put_too_many_parts(
    statement: u32,
    dimension: &[u8],
    out: &mut Vec<u8>,
) -> Result<(), AllocError>
    ensures { OnOk result
        (out.new.items ≡ out.old.items ++ too_many_parts_text statement dimension.now) }
{
    put_numbered(b"refused TooManyParts statement ", statement, out)?;
    out.extend_from_slice(b" dimension ")?;
    out.extend_from_slice(dimension)?;
    out.push(b'\n')?;
    Ok(())
}

/// Appends what is printed of a job whose first bad pivot is met by this statement, numbered from 1, at this place.
pub fn put_bad_pivot(statement: u32, place: Place, out: &mut Vec<u8>) -> Result<(), AllocError>
    ensures { OnOk result (out.new.items ≡ out.old.items ++ bad_pivot_text statement place) }
{
    put_numbered(b"no inverse statement ", statement, out)?;
    put_numbered(b" row ", place.row, out)?;
    put_numbered(b" column ", place.col, out)?;
    out.push(b'\n')?;
    Ok(())
}
