//! The commands.

ghost use Rattle.std.specs.Prelude.{◌≡◌};
ghost use Rattle.command_words.specs.Words.{workers_of};

use issue_list::Choice;
use text_scan::{Name, NameList};
use variant_report::SelfWords;

/// How a job is run and what is printed of it.
#[derive(Debug, Drop)]
pub struct RunWords {
    /// The block size, 1 to 1,024.
    pub block: u32,
    /// How many workers run, 1 to 16.
    pub workers: u32,
    /// The variant of each statement. Given numbers are at least one, each at least 1.
    pub choice: Choice,
    /// Whether the trace follows the matrices.
    pub trace: bool,
}

/// What the words ask for.
#[derive(Debug, Drop)]
pub enum Command {
    /// `derive`: prints the family of each operation of the input's job.
    Derive,
    /// `pme OP D` or `pme OP D D`: prints the partitioned matrix expression of an operation of the input's job, with two parts
    /// in each of the dimensions.
    Pme { op: Name, dims: NameList },
    /// `worksheet OP V`: prints the worksheet of a variant, numbered from 1, of an operation of the input's job.
    Worksheet { op: Name, number: u32 },
    /// `check`: checks the worksheet behind the input's job.
    Check,
    /// `verify`: checks the matrices behind the input's job.
    Verify,
    /// `make N M SEED`: prints the job that is generated for size N (0 to 1,024), modulus M (from 2 on) and a seed.
    Make { n: u32, m: u32, seed: u32 },
    /// `run --block B --workers K`, then perhaps `--variants V,V`, then perhaps `--trace`: runs the job of the input.
    Run { words: RunWords },
    /// `selfrun N M SEED --block B --workers K`: runs the generated job and prints a summary.
    SelfRun { words: SelfWords },
}

impl Command {
    /// How many workers it asks for; one that runs nothing goes by one.
    pub fn workers(&self) -> u32
        ensures { result ≡ workers_of self.now }
    {
        match self {
            Command::Run { words } => words.workers,
            Command::SelfRun { words } => words.workers,
            Command::Derive
            | Command::Pme { .. }
            | Command::Worksheet { .. }
            | Command::Check
            | Command::Verify
            | Command::Make { .. } => 1,
        }
    }
}
