//! Sums of products that belong to tasks, and what a run of such tasks leaves in a table, as definitions and lemmas, with no code.
//!
//! A task changes one block of a table: an update subtracts its products, a solve makes its products what the block was
//! (`specs/TaskRuns`). The products of all tasks of an equation are one sum, in which each product counts with the weight
//! of its task (`specs/SharedSums`). `proofs/Shares` says how such sums are made. `proofs/Runs` has the induction over
//! a run, for any order and with any steps left out, and `proofs/CutRuns` that over a run that is cut behind a step. `laws`
//! says what they come to: where all tasks of a block ran, the whole sum is there. Nothing here knows matrices, operations
//! or jobs.
#![tactic(auto)]

pub mod laws;
