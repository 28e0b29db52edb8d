use field_word::Modulus;
use item_lists::ItemList;
use matrix_core::MatrixList;
use operation_spec::{Binding, Operation};
use structure_rules::NumberList;
use text_scan::NameList;

/// Operations in declared order.
pub type OperationList = ItemList<Operation>;

/// A job: a modulus, operations, matrices with their names, statements that change matrices one after
/// another, and the numbers of the matrices that are printed in the end. Operations and matrices are
/// numbered from 0.
#[derive(Debug, Drop)]
pub struct Job {
    pub modulus: Modulus,
    pub operations: OperationList,
    pub names: NameList,
    pub matrices: MatrixList,
    pub statements: StatementList,
    pub prints: NumberList,
}

/// A statement: the number of its operation, and the numbers of the matrices that its operands are bound to.
#[derive(Debug, Drop)]
pub struct Statement {
    pub operation: u32,
    pub bind: Binding,
}

/// Statements in their order, numbered from 1.
pub type StatementList = ItemList<Statement>;

/// An entry's place in a matrix, by row and column from 0.
#[derive(Clone, Copy, Debug, PartialEq, Eq)]
pub struct Place {
    pub row: u32,
    pub col: u32,
}
