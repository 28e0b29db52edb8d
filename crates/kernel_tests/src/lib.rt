//! Tests of kernels (`kernel_lib`): each beside a plain body, on both sides of each place where it goes another way.
//!
//! A case (`cases`) has a kernel, a modulus and sizes, and a number that determines everything else. What the kernel has to leave
//! is drawn (`numbers`); what it is given is computed from that, entry by entry, each entry as the sum that the definitions have
//! (`plain`). Then the kernel runs (`runs`), and all entries are compared (`tests`). Where a pivot is planted that is no unit, the
//! kernel has to name it.
#![tactic(auto)]

#[cfg(test)]
mod cases;
#[cfg(test)]
mod numbers;
#[cfg(test)]
mod operands;
#[cfg(test)]
mod plain;
#[cfg(test)]
mod runs;
#[cfg(test)]
mod tests;
