//! The algebra of matrices of residues, as definitions and lemmas, with no code.
//!
//! `specs/` says what triangles are (`Triangles`), what factors of a matrix are, and which pivot is the first bad one (`Factors`).
//! `proofs/` begins with products (`Products`) and triangular views (`Triangles`). A system of equations that is solved entry by
//! entry in an order has just one solution (`Substitution`). The equations with triangular factors are such systems (`Systems`),
//! each with its one solution (`Solutions`), and so are the factors L * U (`Lu`, `LuFactors`) and L * D * L' (`Ldl`, `LdlFactors`),
//! which one table holds (`Packed`); with them stand the first bad pivots. Loops that solve such systems in place have their
//! invariant in `InPlace`, their order of the entries in `Places`, and for the factors `LuInPlace` and `LdlInPlace`. `Inverse` has
//! the inverse of a triangle. Each lemma file says at its head who cites it.
#![tactic(auto)]
