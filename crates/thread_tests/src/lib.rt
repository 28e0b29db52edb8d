//! Tests of workers on threads (`dispatcher`): what no clause says of a run, since a clause knows nothing of when a step is done.
//!
//! The jobs stand in `jobs`, with the call that runs one. Gates hold a step, delay each step, or count (`gates`). A step can be held
//! until any other one that has no path to it or from it has entered or left (`pairs`), and a job means the same by any number of
//! workers and with any delays (`tests`).
#![tactic(auto)]

#[cfg(test)]
mod gates;
#[cfg(test)]
mod jobs;
#[cfg(test)]
mod pairs;
#[cfg(test)]
mod tests;
