//! The block tasks of one statement, done one after another on the blocks of its work matrix, as definitions and lemmas, with
//! no code.
//!
//! `specs/StatementRuns` says what such a run is: each task once, behind those that it needs, some left out. `proofs` has for
//! each form what a task does to the entries of the whole matrix (`StepValues`), what all of them do (`FormRuns` and the file of
//! the form), and for Lu and Ldl the task that fails (`LuPivots`, `LdlPivots`); `AllForms` has the six forms together.
//! `laws` says what comes of it: the matrix satisfies the equation, or a task fails at the first bad pivot. Nothing here
//! knows jobs, the numbers of blocks or which blocks a step may read.
#![tactic(auto)]

pub mod laws;
