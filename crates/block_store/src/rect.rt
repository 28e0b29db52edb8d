//! What is copied of a block.

/// So many rows and columns of a block, from a row and a column on. Rows and columns are numbered from 0.
#[derive(Clone, Copy, Debug, PartialEq, Eq)]
pub struct Rect {
    pub row: u32,
    pub col: u32,
    pub rows: u32,
    pub cols: u32,
}

/// Whether a rectangle was copied. `Away` says that another seat held the block, so that nothing was.
#[derive(Clone, Copy, Debug, PartialEq, Eq)]
pub enum Copied {
    Whole,
    Away,
}
