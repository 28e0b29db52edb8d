//! What the front of a replay keeps, and what its next step finds. Each law is the contract of a function that does nothing.

ghost use Rattle.std.specs.Prelude.{[], ◌++◌, ◌∷◌, ◌≡◌, ◌≤◌, ◌<◌, ◌↔◌, ℕ, IsTrue, List, length, suc};
ghost use Rattle.residue_sums.specs.Sums.{part_count, part_length};
ghost use Rattle.equation.specs.declared.job.Job.{Job};
ghost use Rattle.equation.specs.Jobs.{Fits, IsJob, nth_grid};
ghost use Rattle.step_replays.specs.declared.step.Step.{Step};
ghost use Rattle.step_replays.specs.Accesses.{block_number, has_pivots, operation_of, pivot_number, statement_of};
ghost use Rattle.step_replays.specs.Fits.{FitsJob};
ghost use Rattle.step_replays.specs.Fronts.{FindsPivots, IsResidueBlock, statement_at, zero_list_of};
ghost use Rattle.step_replays.specs.Replays.{IsFront, IsReplay, IsResult, IsStopped, StepResult, block_after};

/// The front of a replay begins with no step, grows by an outcome of the next step, and ends as a replay; an outcome
/// more changes nothing of the blocks that the steps so far left, nor of which step is stopped.
pub fn fronts_grow()
    ensures first { (job : Job) (b : ℕ) (steps : List Step) → IsFront job b steps [] 0 }
    ensures next { (job : Job) (b : ℕ) (steps : List Step) (results : List StepResult) (n : ℕ)
        → (r : StepResult) → IsFront job b steps results n → n < length steps
        → IsResult job b steps results n r → IsFront job b steps (results ++ r ∷ []) (suc n) }
    ensures kept { (job : Job) (b : ℕ) (steps : List Step) (results : List StepResult)
        → (r : StepResult) (s x : ℕ) → s ≤ length results
        → block_after job b steps (results ++ r ∷ []) s x ≡ block_after job b steps results s x }
    ensures stops { (job : Job) (b : ℕ) (steps : List Step) (results : List StepResult)
        → (r : StepResult) (s : ℕ) → s ≤ length results
        → (IsStopped job b steps (results ++ r ∷ []) s ↔ IsStopped job b steps results s) }
    ensures whole { (job : Job) (b : ℕ) (steps : List Step) (results : List StepResult)
        → IsFront job b steps results (length steps) → IsReplay job b steps results }
{}

/// Whatever the steps gone through did, each block of a matrix has the shape of its parts, and each pivot list that of
/// its statement, and all of them hold residues.
pub fn blocks_keep_their_shapes()
    ensures blocks { (job : Job) (b : ℕ) (steps : List Step) (results : List StepResult) (n : ℕ)
        → IsJob job → 0 < b → FitsJob job b steps → IsFront job b steps results n → (k i j : ℕ)
        → k < length job.matrices → i < part_count (nth_grid job.matrices k).rows b
        → j < part_count (nth_grid job.matrices k).cols b
        → IsResidueBlock job.modulus (part_length (nth_grid job.matrices k).rows b i)
        (part_length (nth_grid job.matrices k).cols b j)
        (block_after job b steps results n (block_number b job.matrices k i j)) }
    ensures lists { (job : Job) (b : ℕ) (steps : List Step) (results : List StepResult) (n : ℕ)
        → IsJob job → 0 < b → FitsJob job b steps → IsFront job b steps results n → (s : ℕ) → 1 ≤ s
        → s ≤ length job.statements → IsTrue (has_pivots (operation_of job (statement_of job s)))
        → IsResidueBlock job.modulus (zero_list_of job s).rows (zero_list_of job s).cols
        (block_after job b steps results n (pivot_number job b s)) }
{}

/// The next step, if it isn't stopped, finds what it divides by: the inverses of its pivots in the pivot list of its
/// statement, or units on the diagonal of the factored block that it divides by.
pub fn steps_find_their_pivots()
    ensures { (job : Job) (b : ℕ) (steps : List Step) (results : List StepResult) (n : ℕ)
        → IsJob job → 0 < b → FitsJob job b steps → IsFront job b steps results n
        → n < length steps → (IsStopped job b steps results n → ⊥)
        → (fits : Fits (operation_of job (statement_at job steps n)) job.matrices
        (statement_at job steps n).bind)
        → FindsPivots job b steps results n fits.lengths }
{}
