//! Operations of dense linear algebra: their dimensions, operands, form and terms, the block tasks that
//! they are cut into, and the splits of their dimensions.
//!
//! An operation has one work operand W, which holds the right side before and the solution X after, and
//! known operands. Its equation is `X = R`, `op(T) * X = R`, `X * op(T) = R`, `op(T) * X + X * op(U) = R`
//! or with `-`, `L * U = R`, or `L * D * L' = R`, where R is W with the terms added.
#![tactic(auto)]

mod block_lines;
mod declarations;
mod equation;
mod equation_checks;
mod equation_sizes;
mod equation_words;
mod equation_writing;
mod fault;
mod forms;
pub mod laws;
mod left_sides;
mod marked_words;
mod names;
mod operand_lines;
mod operation;
mod reading;
mod split;
mod task;
mod words;
mod writing;

pub use block_lines::is_name_line;
pub use fault::SpecFault;
pub use operation::{Binding, Factor, Form, Operand, OperandList, Operation, Term, TermList};
pub use reading::{next_operation, read_operation};
pub use split::{Dir, Dirs, Split, valid_split};
pub use task::{Kind, Task, TaskList};
pub use words::put_word;
pub use writing::write_operation;

#[cfg(test)]
mod equation_fault_tests;
#[cfg(test)]
mod line_fault_tests;
#[cfg(test)]
mod tests;
