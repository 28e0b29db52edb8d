//! The inverses of pivots that a solve reads, out of the pivot list of its statement.

ghost use Rattle.std.specs.Prelude.{◌≡◌, ◌⊎◌};
ghost use Rattle.equation.specs.Jobs.{nth_grid};
ghost use Rattle.matrix_parts.specs.Rects.{IsBlockOf};
ghost use Rattle.kernel_lib.specs.Conditions.{IsUnitTriangle};
ghost use Rattle.block_tasks.specs.Inverses.{is_unit_triangle as is_unit};
ghost use Rattle.block_kernels.specs.Ready.{grids_of, HasListPart, IsStored};

use crate::block_task::BlockTask;
use matrix_parts::Part;
use structure_rules::Structure;

/// Has a triangle of this structure ones on its diagonal?
fn is_unit_triangle(s: Structure) -> bool
    ensures { result ≡ is_unit s }
{
    match s {
        Structure::UnitLower => true,
        Structure::UnitUpper => true,
        _ => false,
    }
}

/// No inverses, for triangles with ones on their diagonals.
pub(crate) fn no_inverses() -> Part<'static> {
    Part::of(&[], 0, 0, 0, 0)
}

impl BlockTask<'_> {
    /// A block of the pivot list, from a row and a column on. The list stands at a place of the blocks that the task reads.
    pub(crate) fn list_part(
        &self,
        at: usize,
        row: usize,
        col: usize,
        rows: u32,
        cols: u32,
    ) -> Part<'_>
        requires stored { IsStored self.now }
        requires list { HasListPart self.now at row col rows cols }
        ensures { IsBlockOf (nth_grid (grids_of self.now) at) row col rows cols result }
    {
        let list = self.laid(at);
        let stride = list.cols as usize;
        let _rows = list.rows;
        Part::of(list.entries, row * stride + col, stride, rows, cols)
    }

    /// The inverses of the pivots of a diagonal block, from a place of the list on; a triangle with ones on its diagonal needs
    /// none.
    pub(crate) fn row_inverses(&self, s: Structure, first: usize, n: u32) -> Part<'_>
        requires stored { IsStored self.now }
        requires list { IsUnitTriangle s ⊎ HasListPart self.now 1 0 first 1 n }
        ensures { IsUnitTriangle s ⊎ IsBlockOf (nth_grid (grids_of self.now) 1) 0 first 1 n result }
    {
        if is_unit_triangle(s) {
            return no_inverses();
        }
        self.list_part(1, 0, first, 1, n)
    }
}
