//! Pivots: their inverses, and the factors LU and LDL of a part in place, or the first pivot that is no unit.
//!
//! Factors are found piece by piece of columns, and in a piece row by row: the columns that are found are kept in a panel, each
//! as a line, so that a row meets them as sums of products along rows (`pieces`, `lu_rows`, `ldl_rows`, `panel_rows`). What is too
//! large for a panel is factored entry by entry (`columns`). The search for factors ends at the first pivot without an
//! inverse (`pivots_met`), and so do the kernels that write the inverses of pivots into a block of their own (`pivot_lists`,
//! `pair_pivots`).
#![tactic(auto)]

mod bad_pivot;
mod columns;
mod factoring;
mod factors;
mod ldl_rows;
mod lu_rows;
mod pair_pivots;
mod panel_rows;
mod pieces;
mod pivot_lists;
mod pivots_met;

pub use bad_pivot::BadPivot;
pub use factors::{factor_ldl, factor_lu};
pub use pair_pivots::pivots_sylvester;
pub use pivot_lists::pivots;
