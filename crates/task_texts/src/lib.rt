//! Tasks as text, as `left(1,1,0)`, and the dimensions of a split, each with its direction.
#![tactic(auto)]

mod dims;
mod tasks;

pub use dims::{name_of, put_dir, put_split};
pub use tasks::{put_number, put_task, put_tasks};
