//! What the replay of steps that fit a job is. Each law is the contract of a function that does nothing.

ghost use Rattle.std.specs.Prelude.{◌≡◌, ◌≤◌, ◌<◌, ◌⊎◌, ℕ, List, [], length, suc};
ghost use Rattle.residue_sums.specs.Grids.{Grid};
ghost use Rattle.equation.specs.declared.job.Job.{Job};
ghost use Rattle.equation.specs.declared.job.Place.{Place};
ghost use Rattle.equation.specs.Jobs.{Fits, IsJob, nth_grid};
ghost use Rattle.equation.specs.Meanings.{Means, MeansBadPivot};
ghost use Rattle.operation_spec.specs.declared.operation.Binding.{Binding};
ghost use Rattle.operation_spec.specs.declared.operation.Operation.{Operation};
ghost use Rattle.operation_spec.specs.ValidOperations.{IsValid};
ghost use Rattle.block_tasks.specs.Counts.{AreCounts};
ghost use Rattle.dependence_queue.specs.Conflicts.{IsDirectEdge};
ghost use Rattle.step_replays.specs.declared.step.Step.{Step};
ghost use Rattle.step_replays.specs.Accesses.{first_block};
ghost use Rattle.step_replays.specs.Fits.{FitsJob, counts_by};
ghost use Rattle.step_replays.specs.Replays.{Failed, IsDone, IsFailure, IsFront, IsReplay, IsStop, Skipped, StepResult};
ghost use Rattle.step_replays.specs.Replays.{block_after, blocks_after, matrices_after, nth_access, nth_result, nth_step};
ghost use Rattle.step_replays.specs.Replays.{value, writes_before, written};

/// The replay of steps that fit a valid job does what the job means, in whatever order they fit: where no step failed, it
/// leaves the matrices that the job means; else the failed step of the least statement is the job's first bad pivot.
pub fn replays_do_what_jobs_mean()
    ensures done { (job : Job) (b : ℕ) (steps : List Step) (results : List StepResult) → IsJob job
        → 0 < b → FitsJob job b steps
        → IsReplay job b steps results → IsDone steps results → Means job (matrices_after job b steps results (length steps)) }
    ensures failed { (job : Job) (b : ℕ) (steps : List Step) (results : List StepResult) → IsJob job
        → 0 < b → FitsJob job b steps
        → IsReplay job b steps results → (number : ℕ) (place : Place) → IsFailure steps results number place
        → MeansBadPivot job number place }
{}

/// The values of a block: before any write it is as the job gives it; a step finds it as it is after the writes of the
/// steps before; and a write makes of it what the step leaves, which for a step that failed or was skipped is what it
/// found.
pub fn values_follow_the_writes()
    ensures first { (job : Job) (b : ℕ) (steps : List Step) (results : List StepResult) (x : ℕ)
        → value job b steps results x 0 ≡ first_block job b x }
    ensures found { (job : Job) (b : ℕ) (steps : List Step) (results : List StepResult) (s x : ℕ)
        → s ≤ length steps
        → value job b steps results x (writes_before job b steps results s x) ≡ block_after job b steps results s x }
    ensures next { (job : Job) (b : ℕ) (steps : List Step) (results : List StepResult) (s : ℕ)
        → s < length steps
        → value job b steps results (nth_step steps s).access.write (suc (writes_before job b steps results s (nth_step steps s).access.write))
        ≡ written (nth_result results s)
        (value job b steps results (nth_step steps s).access.write (writes_before job b steps results s (nth_step steps s).access.write)) }
{}

/// A step is skipped exactly where a direct edge goes into it from a step that failed or was skipped.
pub fn steps_are_skipped_by_edges()
    ensures skips { (job : Job) (b : ℕ) (steps : List Step) (results : List StepResult)
        → IsReplay job b steps results
        → (q s : ℕ) → s < length steps → IsStop (nth_result results q) → IsDirectEdge (nth_access steps) q s
        → nth_result results s ≡ Skipped }
    ensures edge { (job : Job) (b : ℕ) (steps : List Step) (results : List StepResult)
        → IsReplay job b steps results
        → (s : ℕ) → s < length steps → nth_result results s ≡ Skipped
        → (q : ℕ) × IsStop (nth_result results q) × IsDirectEdge (nth_access steps) q s }
{}

/// The counts of a valid operation that fits matrices are those of the lengths that its dimensions have over them.
pub fn counts_are_those_of_the_lengths()
    ensures { (b : ℕ) (op : Operation) → IsValid op
        → (grids : List Grid) (bind : Binding) (fits : Fits op grids bind)
        → AreCounts b (length op.dims) fits.lengths (counts_by b op grids bind) }
{}

/// Some job has steps that fit it, and a replay of them, with a step that failed.
pub fn some_steps_fit_a_job()
    ensures { (job : Job) × (steps : List Step) × (results : List StepResult) × (length steps ≡ 5)
        × FitsJob job 1 steps
        × IsReplay job 1 steps results × ((place : Place) × IsFailure steps results 1 place) }
{}

/// Steps that fit a valid job have a replay, and just one. In it no step failed, or one of the least statement did; and of the steps
/// of one statement no two fail.
pub fn fitting_steps_have_one_replay()
    ensures some { (job : Job) (b : ℕ) (steps : List Step) → IsJob job → 0 < b → FitsJob job b steps
        → (results : List StepResult) × IsReplay job b steps results }
    ensures one { (job : Job) (b : ℕ) (steps : List Step) (results others : List StepResult)
        → IsJob job → 0 < b → FitsJob job b steps → IsReplay job b steps results
        → IsReplay job b steps others → results ≡ others }
    ensures outcome { (job : Job) (b : ℕ) (steps : List Step) (results : List StepResult)
        → IsJob job → 0 < b → FitsJob job b steps → IsReplay job b steps results
        → IsDone steps results
        ⊎ ((number : ℕ) × (place : Place) × IsFailure steps results number place) }
    ensures fails { (job : Job) (b : ℕ) (steps : List Step) (results : List StepResult) → IsJob job
        → 0 < b → FitsJob job b steps → IsReplay job b steps results → (p q : ℕ) (x y : Place)
        → nth_result results p ≡ Failed x → nth_result results q ≡ Failed y
        → (nth_step steps p).statement ≡ (nth_step steps q).statement → p ≡ q }
{}

/// Lists of steps that fit the same job, perhaps under different block sizes, come to the same: if in one no step failed, none did
/// in the other, and both leave the same matrices; and what one finds as the first bad pivot, the other finds too.
pub fn two_fitting_lists_agree()
    ensures done { (job : Job) (b c : ℕ) (steps other : List Step)
        (results outcomes : List StepResult)
        → IsJob job → 0 < b → 0 < c → FitsJob job b steps → FitsJob job c other
        → IsReplay job b steps results → IsReplay job c other outcomes → IsDone steps results
        → IsDone other outcomes
        × (matrices_after job b steps results (length steps)
        ≡ matrices_after job c other outcomes (length other)) }
    ensures failed { (job : Job) (b c : ℕ) (steps other : List Step)
        (results outcomes : List StepResult)
        → IsJob job → 0 < b → 0 < c → FitsJob job b steps → FitsJob job c other
        → IsReplay job b steps results → IsReplay job c other outcomes
        → (number : ℕ) (place : Place) → IsFailure steps results number place
        → IsFailure other outcomes number place }
{}

/// A job without statements has no steps.
pub fn an_empty_job_has_no_steps()
    ensures { (job : Job) (b : ℕ) (steps : List Step) → FitsJob job b steps → job.statements ≡ []
        → steps ≡ [] }
{}

/// A matrix that is no longer and no wider than a block is its only block, before and after each step that was gone through.
pub fn one_block_is_the_matrix()
    ensures { (job : Job) (b : ℕ) (steps : List Step) (results : List StepResult) (n : ℕ)
        → IsJob job → 0 < b → FitsJob job b steps → IsFront job b steps results n
        → (s k : ℕ) → s ≤ n
        → (nth_grid job.matrices k).rows ≤ b → (nth_grid job.matrices k).cols ≤ b
        → 0 < (nth_grid job.matrices k).rows → 0 < (nth_grid job.matrices k).cols
        → blocks_after job b steps results s k 0 0
        ≡ nth_grid (matrices_after job b steps results s) k }
{}
