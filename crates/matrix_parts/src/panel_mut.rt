ghost use Rattle.std.specs.Prelude.{◌≡◌, ◌≢◌, ◌⊎◌, ℕ, ◌+◌, ◌-◌, ◌<◌, ◌≤◌, length};
ghost use Rattle.std.specs.Borrow.{sem};
ghost use Rattle.residue_sums.specs.Grids.{entry, with_entry};
ghost use Rattle.matrix_parts.specs.Rects.{IsBlockOf};
ghost use Rattle.matrix_parts.specs.Lent.{grid_of, IsPart};
ghost use Rattle.matrix_parts.specs.Panels.{panel_grid, panel_loan, IsPanel, AreApart, PartEndsAs, PanelEndsAs, AreColsOfPart, AreRowsOfPanel, AreColsOfPanel};

use crate::part_mut::PartMut;
use crate::region::{Base, Lent, Region};
use std::marker::PhantomData;

/// A part of a matrix that is lent to be written and shares rows with another one: what lies between its rows in memory
/// is not its own.
///
/// Contracts see its entries as `panel_grid`, and the loan that it holds as `panel_loan`.
#[derive(Drop)]
pub struct PanelMut<'a> {
    base: Base,
    lent: Lent<'a>,
    region: Region,
}

impl<'a> PartMut<'a> {
    /// The columns left of column `at`, and those from it on. The two panels have no entry in common: what was lent to
    /// this part ends with the numbers that each panel ends with at its places, and with the old ones elsewhere.
    pub fn split_cols(self, at: u32) -> (PanelMut<'a>, PanelMut<'a>)
        requires part { IsPart self }
        requires at { at ≤ self.cols }
        ensures* ends_as { sem 𝓛 (PartEndsAs self.entry result) }
        ensures panels { IsPanel result.0 × IsPanel result.1 }
        ensures apart { AreApart result }
        ensures left { IsBlockOf (grid_of self.entry) 0 0 self.entry.rows at (panel_grid result.0) }
        ensures right { IsBlockOf (grid_of self.entry) 0 at self.entry.rows (self.entry.cols - at)
            (panel_grid result.1) }
        ensures joined { AreColsOfPart self.entry at result }
    {
        let PartMut {
            entries,
            first,
            stride,
            rows,
            cols,
        } = self;
        let base = Base {
            at: entries.as_mut_ptr(),
        };
        let left = Region {
            first,
            stride,
            top: 0,
            left: 0,
            rows,
            cols: at,
        };
        let right = Region {
            first,
            stride,
            top: 0,
            left: at,
            rows,
            cols: cols - at,
        };
        (
            PanelMut {
                base,
                lent: Lent { mark: PhantomData },
                region: left,
            },
            PanelMut {
                base,
                lent: Lent { mark: PhantomData },
                region: right,
            },
        )
    }
}

impl<'a> PanelMut<'a> {
    /// How many rows there are.
    pub fn rows(&self) -> u32
        ensures { result ≡ self.now.region.rows }
    {
        self.region.rows
    }

    /// How many columns there are.
    pub fn cols(&self) -> u32
        ensures { result ≡ self.now.region.cols }
    {
        self.region.cols
    }

    /// The entry in row i and column j.
    pub fn get(&self, i: u32, j: u32) -> u64
        requires panel { IsPanel self.now }
        requires row_in { i < self.now.region.rows }
        requires col_in { j < self.now.region.cols }
        ensures { result ≡ entry (panel_grid self.now) i j }
    {
        let at = self.region.place(i, j);
        self.lent.read(self.base, at)
    }

    /// Writes the entry in row i and column j. No other entry changes.
    pub fn set(&mut self, i: u32, j: u32, v: u64)
        requires panel { IsPanel self.old }
        requires row_in { i < self.old.region.rows }
        requires col_in { j < self.old.region.cols }
        ensures loan { panel_loan self.new ≡ panel_loan self.old }
        ensures panel { IsPanel self.new }
        ensures region { self.new.region ≡ self.old.region }
        ensures len { length self.new.lent.numbers ≡ length self.old.lent.numbers }
        ensures grid { panel_grid self.new ≡ with_entry (panel_grid self.old) i j v }
        ensures here { entry (panel_grid self.new) i j ≡ v }
        ensures others { (a b : ℕ) → a < self.old.region.rows → b < self.old.region.cols → (a ≢ i) ⊎ (b ≢ j)
            → entry (panel_grid self.new) a b ≡ entry (panel_grid self.old) a b }
    {
        let at = self.region.place(i, j);
        self.lent.write(self.base, at, v);
    }

    /// The rows above row `at`, and those from it on. The two panels have no entry in common.
    pub fn split_rows(self, at: u32) -> (PanelMut<'a>, PanelMut<'a>)
        requires panel { IsPanel self }
        requires at { at ≤ self.region.rows }
        ensures* ends_as { sem 𝓛 (PanelEndsAs self.entry result) }
        ensures panels { IsPanel result.0 × IsPanel result.1 }
        ensures apart { AreApart result }
        ensures above { IsBlockOf (panel_grid self.entry) 0 0 at self.entry.region.cols
            (panel_grid result.0) }
        ensures below { IsBlockOf (panel_grid self.entry) at 0 (self.entry.region.rows - at)
            self.entry.region.cols (panel_grid result.1) }
        ensures joined { AreRowsOfPanel self.entry at result }
    {
        let PanelMut { base, lent, region } = self;
        let Lent { mark: _ } = lent;
        let above = Region {
            first: region.first,
            stride: region.stride,
            top: region.top,
            left: region.left,
            rows: at,
            cols: region.cols,
        };
        let below = Region {
            first: region.first,
            stride: region.stride,
            top: region.top + at,
            left: region.left,
            rows: region.rows - at,
            cols: region.cols,
        };
        (
            PanelMut {
                base,
                lent: Lent { mark: PhantomData },
                region: above,
            },
            PanelMut {
                base,
                lent: Lent { mark: PhantomData },
                region: below,
            },
        )
    }

    /// The columns left of column `at`, and those from it on. The two panels have no entry in common.
    pub fn split_cols(self, at: u32) -> (PanelMut<'a>, PanelMut<'a>)
        requires panel { IsPanel self }
        requires at { at ≤ self.region.cols }
        ensures* ends_as { sem 𝓛 (PanelEndsAs self.entry result) }
        ensures panels { IsPanel result.0 × IsPanel result.1 }
        ensures apart { AreApart result }
        ensures left { IsBlockOf (panel_grid self.entry) 0 0 self.entry.region.rows at
            (panel_grid result.0) }
        ensures right { IsBlockOf (panel_grid self.entry) 0 at self.entry.region.rows
            (self.entry.region.cols - at) (panel_grid result.1) }
        ensures joined { AreColsOfPanel self.entry at result }
    {
        let PanelMut { base, lent, region } = self;
        let Lent { mark: _ } = lent;
        let left = Region {
            first: region.first,
            stride: region.stride,
            top: region.top,
            left: region.left,
            rows: region.rows,
            cols: at,
        };
        let right = Region {
            first: region.first,
            stride: region.stride,
            top: region.top,
            left: region.left + at,
            rows: region.rows,
            cols: region.cols - at,
        };
        (
            PanelMut {
                base,
                lent: Lent { mark: PhantomData },
                region: left,
            },
            PanelMut {
                base,
                lent: Lent { mark: PhantomData },
                region: right,
            },
        )
    }
}
