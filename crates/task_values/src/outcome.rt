use matrix_core::MatrixList;

/// What the steps of a job come to.
#[derive(Debug, Drop)]
pub enum Outcome {
    /// The matrices that the last step leaves, in the order of the job's.
    Done(MatrixList),
    /// The first statement that meets a pivot without an inverse, by its number from 1, and the place of its first such
    /// pivot, by row and column from 0.
    BadPivot { statement: u32, row: u32, col: u32 },
}

/// A step that met a bad pivot: its statement, and the pivot's place in the whole matrix.
#[derive(Clone, Copy)]
pub struct Failure {
    pub statement: u32,
    pub row: u32,
    pub col: u32,
}
