//! What the blocks of a run keep. Each law is the contract of a function that does nothing.

ghost use Rattle.std.specs.Prelude.{◌≡◌, ◌≤◌, ℕ, List, length};
ghost use Rattle.equation.specs.declared.job.Job.{Job};
ghost use Rattle.equation.specs.Jobs.{IsJob};
ghost use Rattle.step_replays.specs.declared.step.Step.{Step};
ghost use Rattle.step_replays.specs.Accesses.{first_block};
ghost use Rattle.step_replays.specs.Fits.{FitsJob};
ghost use Rattle.step_replays.specs.Replays.{StepResult, block_after, IsReplay};

/// However many steps of a replay were gone through, a block or a pivot list has the rows, the columns and the count of entries that
/// the job gives it.
pub fn blocks_keep_their_sizes()
    ensures rows { (job : Job) (b : ℕ) (steps : List Step) (results : List StepResult)
        → IsJob job → 1 ≤ b → FitsJob job b steps → IsReplay job b steps results
        → (n x : ℕ) → n ≤ length steps
        → (block_after job b steps results n x).rows ≡ (first_block job b x).rows }
    ensures cols { (job : Job) (b : ℕ) (steps : List Step) (results : List StepResult)
        → IsJob job → 1 ≤ b → FitsJob job b steps → IsReplay job b steps results
        → (n x : ℕ) → n ≤ length steps
        → (block_after job b steps results n x).cols ≡ (first_block job b x).cols }
    ensures entries { (job : Job) (b : ℕ) (steps : List Step) (results : List StepResult)
        → IsJob job → 1 ≤ b → FitsJob job b steps → IsReplay job b steps results
        → (n x : ℕ) → n ≤ length steps → length (block_after job b steps results n x).entries
        ≡ length (first_block job b x).entries }
{}
