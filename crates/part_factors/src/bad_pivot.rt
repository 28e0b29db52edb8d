/// The place of a pivot that is no unit modulo m, in the block that a kernel was given: rows and columns from 0.
#[derive(Clone, Copy, Debug, PartialEq, Eq)]
pub struct BadPivot {
    pub row: u32,
    pub col: u32,
}
