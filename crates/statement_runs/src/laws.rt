//! What a run of the block tasks of a statement leaves, in any order in which each task comes behind those that it needs.
//! Each law is the contract of a function that does nothing.

ghost use Rattle.std.specs.Prelude.{◌≡◌, ◌≤◌, ◌<◌, ◌⊎◌, ℕ, Bool, List, length, true};
ghost use Rattle.residue_sums.specs.Grids.{AreResidues, Grid};
ghost use Rattle.operation_spec.specs.declared.operation.Binding.{Binding};
ghost use Rattle.operation_spec.specs.declared.operation.Form.TheVariants.{Ldl, Lu};
ghost use Rattle.operation_spec.specs.declared.operation.Operation.{Operation};
ghost use Rattle.operation_spec.specs.declared.task.Task.{Task};
ghost use Rattle.operation_spec.specs.ValidOperations.{IsValid};
ghost use Rattle.equation.specs.declared.job.Place.{Place};
ghost use Rattle.equation.specs.Equations.{Satisfies};
ghost use Rattle.equation.specs.Jobs.{Fits, known_grids, nth_grid};
ghost use Rattle.equation.specs.Pivots.{IsFirstBadPivot};
ghost use Rattle.flash_blocks.specs.Blocks.{Blocks, gathered, grid_of};
ghost use Rattle.block_tasks.specs.Counts.{AreCounts};
ghost use Rattle.block_tasks.specs.Effects.{IsBadTask};
ghost use Rattle.statement_runs.specs.StatementRuns.{IsReady, IsStatementRun, NoneBad};

/// Where all block tasks of a valid operation ran, on the blocks of matrices that it fits, the matrix that has the blocks
/// of W in the end satisfies the operation's equation.
pub fn runs_satisfy_equations()
    ensures { (m b : ℕ) → 2 ≤ m → 0 < b → (op : Operation) → IsValid op
        → (grids : List Grid) (bind : Binding) (fits : Fits op grids bind)
        → (counts : List ℕ) → AreCounts b (length op.dims) fits.lengths counts
        → (n : ℕ) (task : ℕ → Task) (did : ℕ → Bool) (known : ℕ → ℕ → Blocks) (w : ℕ → Blocks)
        → IsStatementRun m b op (known_grids grids bind) (nth_grid grids bind.work) counts n task did known w
        → AreResidues m (nth_grid grids bind.work) → ((p : ℕ) → p < n → did p ≡ true)
        → Satisfies m op (known_grids grids bind) (nth_grid grids bind.work)
        (grid_of (gathered b (w n)) (nth_grid grids bind.work).rows (nth_grid grids bind.work).cols) }
{}

/// Where no task that ran met a bad pivot, a task that meets one, behind all that it needs, meets the first bad pivot of
/// the statement. Where all tasks ran, a form that finds factors of W has no bad pivot.
pub fn runs_fail_at_the_first_bad_pivot()
    ensures fails { (m b : ℕ) → 2 ≤ m → 0 < b → (op : Operation) → IsValid op
        → (grids : List Grid) (bind : Binding) (fits : Fits op grids bind)
        → (counts : List ℕ) → AreCounts b (length op.dims) fits.lengths counts
        → (n : ℕ) (task : ℕ → Task) (did : ℕ → Bool) (known : ℕ → ℕ → Blocks) (w : ℕ → Blocks)
        → IsStatementRun m b op (known_grids grids bind) (nth_grid grids bind.work) counts n task did known w
        → AreResidues m (nth_grid grids bind.work) → NoneBad m b op n task did w
        → (f : ℕ) → f < n → (place : Place) → IsReady op n task did f → IsBadTask m b op (w f) (task f) place
        → IsFirstBadPivot m op (known_grids grids bind) (nth_grid grids bind.work) place }
    ensures none { (m b : ℕ) → 2 ≤ m → 0 < b → (op : Operation) → IsValid op
        → (grids : List Grid) (bind : Binding) (fits : Fits op grids bind)
        → (counts : List ℕ) → AreCounts b (length op.dims) fits.lengths counts
        → (n : ℕ) (task : ℕ → Task) (did : ℕ → Bool) (known : ℕ → ℕ → Blocks) (w : ℕ → Blocks)
        → IsStatementRun m b op (known_grids grids bind) (nth_grid grids bind.work) counts n task did known w
        → AreResidues m (nth_grid grids bind.work) → NoneBad m b op n task did w
        → (op.form ≡ Lu) ⊎ (op.form ≡ Ldl) → ((p : ℕ) → p < n → did p ≡ true)
        → (place : Place) → ¬ (IsFirstBadPivot m op (known_grids grids bind) (nth_grid grids bind.work) place) }
{}
