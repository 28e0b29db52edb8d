//! What the faults of texts are, in other words than the tests of each line: where they stand, that they stay, and what is told of a
//! text that is cut off.
//!
//! The definitions of `text_scan`, `operation_spec`, `matrix_text` and `job_text` name the first fault of a text by tests of its lines
//! in their order. `laws` says what they have in common, whatever those tests are: a reader looks at no line behind the one that it
//! refuses. The lemma is one for all readers: what each does on two texts that begin with the same lines (`proofs/Readers`).
#![tactic(auto)]

pub mod laws;
