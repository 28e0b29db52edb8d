//! The arithmetic that every crate above speaks of, as definitions and lemmas, with no code.
//!
//! `specs/` says what residues, units and congruences are (`Residues`), what the inverse of a unit is (`Inverses`), the sum over a
//! range and over its parts (`Sums`), tables of entries with their products (`Tables`), and grids, as which contracts see matrices
//! (`Grids`). `proofs/` has their laws: linear combinations of congruences (`Congruence`), a number as a unit or none (`Inverses`),
//! sums taken apart, exchanged, compared and added up by a loop (`Sums`), a range in parts (`Parts`), induction over the entries of
//! a table (`Induction`), and reading and writing grids (`Grids`).
//! Each lemma file says at its head who cites it.
#![tactic(auto)]
