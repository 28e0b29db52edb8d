//! The call that does all that the program does.
//!
//! The words name a command (crate `command_words`). A command has a file with its call, its output and the calls that compose it
//! (`checks`, `derive`, `make`, `pme`, `run`, `selfrun`, `verify`, `worksheets`), and in `specs/`, under the same name, the relation of
//! what is due for it. What all of them do stands in `answering`: the input, where the command reads one, is read whole, the output
//! is composed, and only then is the first byte written. `steps` lists the steps of a job, or refuses it, and `workers` go through
//! them, one in the thread that calls or several on threads: the call of a command hands down, as a closure, which of the two. `run`
//! and `selfrun` print what the steps come to, by `meaning` where that is a bad pivot. Each fault of a text is refused by name
//! (`refusals`). `program` holds `top`, which joins them, and `laws` tells that exactly one status is due, and one text but for the
//! schedule of several workers, and that neither the variants nor the block size nor the workers change a result.
#![tactic(auto)]

mod answering;
mod checks;
mod derive;
mod laws;
mod make;
mod meaning;
mod output;
mod pme;
mod program;
mod refusals;
mod run;
mod selfrun;
mod steps;
mod verify;
mod workers;
mod worksheets;

pub use checks::check_cmd;
pub use command_words::{Command, RunWords, read_words};
pub use derive::derive_cmd;
pub use laws::{
    due_is_determined, no_selfrun_meets_a_bad_pivot, quiet_streams_get_the_whole_text,
    something_is_due, variants_and_block_sizes_change_no_result, workers_change_no_result,
};
pub use make::make_cmd;
pub use pme::pme_cmd;
pub use program::top;
pub use run::{run_many_cmd, run_one_cmd};
pub use selfrun::{selfrun_many_cmd, selfrun_one_cmd};
pub use verify::verify_cmd;
pub use worksheets::worksheet_cmd;
