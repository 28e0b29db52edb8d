ghost use Rattle.std.specs.Prelude.{◌≡◌, ◌<◌};
ghost use Rattle.residue_sums.specs.Grids.{with_entry};

use crate::{Oper, Part, part_of_slice, whole, whole_mut, whole_of};
use matrix_core::Matrix;
use std::test::Fail;
use structure_rules::Structure;

/// A caller that knows what a matrix ends as: it keeps the slice that was lent, and uses it once more when the part is
/// gone.
fn set_corner(m: &mut Matrix)
    requires { (0 < m.old.rows) × (0 < m.old.cols) }
    ensures { m.new ≡ with_entry m.old 0 0 7 }
{
    let (rows, cols) = (m.rows(), m.cols());
    let entries = m.entries_mut();
    let mut part = whole_of(entries, rows, cols);
    part.set(0, 0, 7);
    let _ = entries.len();
}

#[test]
fn matrices_end_as_their_parts(rt: HostRuntime) -> Result<(), Fail> {
    let mut m = Matrix::zero(rt.alloc(), 2, 3)?;
    set_corner(&mut m);
    let (mut above, mut below) = whole_mut(&mut m).split_rows(1);
    above.set(0, 2, 1);
    below.write_row(0, 1, [4, 5].as_slice());
    assert_eq!(rt; above.get(0, 0) + below.as_part().get(0, 2), 12);
    assert_eq!(rt; m.entries(), [7, 0, 1, 0, 4, 5].as_slice());
    Ok(())
}

#[test]
fn matrices_end_as_their_panels(rt: HostRuntime) -> Result<(), Fail> {
    let mut m = Matrix::zero(rt.alloc(), 2, 4)?;
    let (mut left, right) = whole_mut(&mut m).split_cols(1);
    let (mut above, below) = right.split_rows(1);
    let (mut middle, mut last) = below.split_cols(2);
    left.set(1, 0, 1);
    above.set(0, 2, 2);
    middle.set(0, 1, 3);
    last.set(0, 0, 4);
    assert_eq!(rt; left.get(1, 0) + above.get(0, 2), 3);
    assert_eq!(rt; m.entries(), [0, 0, 0, 2, 1, 0, 3, 4].as_slice());
    Ok(())
}

#[test]
fn parts_are_read(rt: HostRuntime) -> Result<(), Fail> {
    let entries = [1, 2, 3, 4, 5, 6];
    let (_, below) = part_of_slice(entries.as_slice(), 3, 2).split_rows(1);
    let (_, right) = Part::of(entries.as_slice(), 1, 3, 2, 2).split_cols(1);
    assert_eq!(rt; below.row(1), [5, 6].as_slice());
    assert_eq!(rt; right.get(1, 0), 6);
    let m = Matrix::identity(rt.alloc(), 2)?;
    let lower = Oper {
        part: whole(&m),
        structure: Structure::Lower,
        primed: true,
    };
    assert_eq!(rt; lower.get(1, 1), 1);
    Ok(())
}
