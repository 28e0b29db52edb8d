//! What the steps of a statement leave in the blocks of its work matrix, as definitions and lemmas, with no code.
//!
//! `specs/Effects` says it in the words of the kernels: each task leaves in its block what the kernel of its kind and form
//! leaves there, over the blocks of the known matrices and those of W, or meets a bad pivot. `proofs` finds the blocks again
//! in the whole matrices (`BlockViews`, `WorkViews`), says each effect as one equation (`EffectValues`), and has for each form
//! the sum of its products, each with the task that it belongs to (`TermSums`, `LeftSums`, `RightSums`, `LuSums`,
//! `LdlSums`). `StatementSizes` has the sizes of the factors of a valid operation. `laws` says what is read of a block.
#![tactic(auto)]

pub mod laws;
