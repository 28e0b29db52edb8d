//! What the numbers of blocks mean, and which blocks a step names. Each law is the contract of a function that does
//! nothing.

ghost use Rattle.std.specs.Prelude.{◌≡◌, ◌<◌, ◌≤◌, ℕ, List, false, All, IsTrue};
ghost use Rattle.residue_sums.specs.Grids.{Grid};
ghost use Rattle.operation_spec.specs.declared.task.Task.{Task};
ghost use Rattle.dependence_queue.specs.Conflicts.{has_number};
ghost use Rattle.step_replays.specs.Accesses.{access_of, blocks_in, has_pivots, pivot_number};
ghost use Rattle.job_blocks.specs.BlockedJobs.{AreFirstBlocks, BlockedJob, HasBlock, HasStatement, HasTask};
ghost use Rattle.job_blocks.specs.BlockedJobs.{HaveBlockShapes, IsBlockedJob, block_total, gathered_matrices, number_at, operation_at};

/// Each number below those of the pivot lists is that of one block of one matrix.
pub fn numbers_have_one_block()
    ensures below { (x : BlockedJob) (k i j : ℕ) → HasBlock x k i j
        → number_at x k i j < blocks_in x.b x.job.matrices }
    ensures some { (x : BlockedJob) (n : ℕ) → n < blocks_in x.b x.job.matrices
        → (k : ℕ) × (i : ℕ) × (j : ℕ) × HasBlock x k i j × (number_at x k i j ≡ n) }
    ensures one { (x : BlockedJob) (k i j l p q : ℕ) → HasBlock x k i j → HasBlock x l p q
        → number_at x k i j ≡ number_at x l p q → (k ≡ l) × (i ≡ p) × (j ≡ q) }
{}

/// The number of a pivot list is that of no block of a matrix, and that of one statement.
pub fn lists_have_one_statement()
    ensures behind { (x : BlockedJob) (s : ℕ)
        → blocks_in x.b x.job.matrices ≤ pivot_number x.job x.b s }
    ensures within { (x : BlockedJob) (s : ℕ) → HasStatement x s
        → IsTrue (has_pivots (operation_at x s))
        → pivot_number x.job x.b s < block_total x }
    ensures one { (x : BlockedJob) (s t : ℕ) → HasStatement x s → HasStatement x t
        → IsTrue (has_pivots (operation_at x s)) → IsTrue (has_pivots (operation_at x t))
        → pivot_number x.job x.b s ≡ pivot_number x.job x.b t → s ≡ t }
{}

/// There are the blocks that a step writes and reads.
pub fn steps_name_blocks()
    ensures write { (x : BlockedJob) (s : ℕ) (u : Task) → IsBlockedJob x → HasStatement x s
        → HasTask x s u
        → (access_of x.job x.b s u).write < block_total x }
    ensures reads { (x : BlockedJob) (s : ℕ) (u : Task) → IsBlockedJob x → HasStatement x s
        → HasTask x s u
        → All (λ n. n < block_total x) (access_of x.job x.b s u).reads }
{}

/// The block that a step writes isn't among those that it reads.
pub fn steps_read_other_blocks()
    ensures { (x : BlockedJob) (s : ℕ) (u : Task) → IsBlockedJob x → HasStatement x s
        → HasTask x s u
        → has_number (access_of x.job x.b s u).reads (access_of x.job x.b s u).write ≡ false }
{}

/// The blocks that a job gives have the shapes of their parts, and the matrices that are gathered from them are the job's.
pub fn first_blocks_make_the_matrices()
    ensures shapes { (x : BlockedJob) (blocks : List Grid) → AreFirstBlocks x blocks
        → HaveBlockShapes x blocks }
    ensures whole { (x : BlockedJob) (blocks : List Grid) → IsBlockedJob x → AreFirstBlocks x blocks
        → gathered_matrices x blocks ≡ x.job.matrices }
{}
