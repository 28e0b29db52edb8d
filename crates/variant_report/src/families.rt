ghost use Rattle.std.specs.Prelude.{◌≡◌, ◌++◌, ◌<◌, ℕ, length, OnOk, OnErr, Option};
ghost use Rattle.variant_report.specs.FamilyTexts.{variant_line, variant_lines, family_text};

use byte_texts::put_decimal;
use invariant_family::Variant;
use operation_spec::Operation;
use std::alloc::{AllocError, Global};
use task_texts::{put_split, put_tasks};

fn put_variant(op: &Operation, variant: &Variant, out: &mut Vec<u8>) -> Result<(), AllocError>
    ensures { OnOk result (out.new.items ≡ out.old.items ++ variant_line op.now variant.now) }
{
    put_decimal(u64::from(variant.number), out)?;
    out.extend_from_slice(b" split")?;
    put_split(op, variant.split, variant.dirs, out)?;
    out.extend_from_slice(b" :")?;
    put_tasks(variant.kept.as_slice(), out)?;
    out.push(b'\n')?;
    Ok(())
}

fn put_family(op: &Operation, variants: &[Variant], out: &mut Vec<u8>) -> Result<(), AllocError>
    ensures { OnOk result (out.new.items ≡ out.old.items ++ family_text op.now variants.now) }
{
    out.extend_from_slice(b"operation ")?;
    out.extend_from_slice(op.name.as_slice())?;
    out.extend_from_slice(b"\nvariants ")?;
    put_decimal(variants.len() as u64, out)?;
    out.push(b'\n')?;
    put_variants(op, variants, out)?;
    Ok(())
}

fn put_variants(op: &Operation, variants: &[Variant], out: &mut Vec<u8>) -> Result<(), AllocError>
    ensures { OnOk result (out.new.items ≡ out.old.items ++ variant_lines op.now variants.now) }
{
    for variant in variants {
        put_variant(op, variant, out)?;
    }
    Ok(())
}

/// Appends the text of an operation's family: a line with the operation's name, a line with the number of
/// variants, and a line for each variant. Its one error is want of memory, and then nothing is appended:
/// the text is composed apart from `out` first.
pub fn write_family(
    alloc: Global,
    op: &Operation,
    variants: &Vec<Variant>,
    out: &mut Vec<u8>,
) -> Result<(), AllocError>
    ensures ok { OnOk result (out.new.items ≡ out.old.items ++ family_text op.now variants.now.items) }
    ensures err { OnErr result (out.new.items ≡ out.old.items) }
{
    let mut text = Vec::new(alloc);
    put_family(op, variants, &mut text)?;
    out.extend_from_slice(&text)
}
