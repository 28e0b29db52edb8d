//! The dimensions of a split.

ghost use Rattle.std.specs.Prelude.{◌≡◌, ◌++◌, ℕ, OnOk, Option};
ghost use Rattle.task_texts.specs.DimTexts.{dim_name, dim_text, dir_text, second_text, split_text};

use operation_spec::{Dir, Dirs, Operation, Split};
use std::alloc::AllocError;

/// Appends the word of a direction.
pub fn put_dir(dir: Dir, out: &mut Vec<u8>) -> Result<(), AllocError>
    ensures { OnOk result (out.new.items ≡ out.old.items ++ dir_text dir) }
{
    match dir {
        Dir::Forward => Ok(out.extend_from_slice(b"forward")?),
        Dir::Backward => Ok(out.extend_from_slice(b"backward")?),
    }
}

/// The name of a dimension.
pub fn name_of(op: &Operation, d: u32) -> &[u8]
    ensures { result.now ≡ dim_name op.now d }
{
    match op.dims.get(d as usize) {
        Some(name) => name.as_slice(),
        None => &[],
    }
}

/// Appends a dimension's name and its direction, behind a space.
fn put_dim(op: &Operation, d: u32, dir: Dir, out: &mut Vec<u8>) -> Result<(), AllocError>
    ensures { OnOk result (out.new.items ≡ out.old.items ++ dim_text op.now d dir) }
{
    out.push(b' ')?;
    out.extend_from_slice(name_of(op, d))?;
    out.push(b' ')?;
    put_dir(dir, out)?;
    Ok(())
}

fn put_second(
    op: &Operation,
    second: Option<u32>,
    dir: Dir,
    out: &mut Vec<u8>,
) -> Result<(), AllocError>
    ensures { OnOk result (out.new.items ≡ out.old.items ++ second_text op.now second dir) }
{
    match second {
        Some(d) => Ok(put_dim(op, d, dir, out)?),
        None => Ok(()),
    }
}

/// Appends each dimension of a split with its direction, behind a space.
pub fn put_split(
    op: &Operation,
    split: Split,
    dirs: Dirs,
    out: &mut Vec<u8>,
) -> Result<(), AllocError>
    ensures { OnOk result (out.new.items ≡ out.old.items ++ split_text op.now split dirs) }
{
    put_dim(op, split.first, dirs.first, out)?;
    put_second(op, split.second, dirs.second, out)?;
    Ok(())
}
