//! Lines of operands, copied into panels, and what all kernels know of the parts that they write.
//!
//! Before a kernel multiplies, it copies rows of an operand, as its structure and its prime have them, into a buffer, each
//! as a line of numbers side by side (`fill_lines`). From then on structures and primes are gone, and sums of products go
//! along rows. The lemmas that kernels share stand here too: when the entries of a written part are residues, and when they
//! are the value of an equation.
#![tactic(auto)]

mod lines;

pub use lines::fill_lines;
