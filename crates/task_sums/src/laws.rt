//! What a run of tasks leaves. Each law is the contract of a function that does nothing. It speaks of tasks that are
//! numbers; the lemmas behind it hold for tasks of any type.

ghost use Rattle.std.specs.Prelude.{ℕ, ◌+◌, ◌<◌, Bool, IsTrue};
ghost use Rattle.residue_sums.specs.Residues.{Cong};
ghost use Rattle.residue_sums.specs.Tables.{Table};
ghost use Rattle.task_sums.specs.SharedSums.{IsShared, NumberedTasks, tasks_of_numbers};
ghost use Rattle.task_sums.specs.TaskRuns.{EachRan, IsRun, IsSolvedAt};

/// Where each task of an entry's block ran, whatever the order, the sum of all products is at that entry, over the last
/// table, what the first table holds there, if a task solved the block; and what it holds less the last entry, if no task
/// did.
pub fn runs_leave_the_whole_sum()
    ensures solved { (m b : ℕ) (tasks : NumberedTasks) (inside : ℕ → ℕ → Bool) (S : (ℕ → ℕ) → Table → ℕ → ℕ → ℕ)
        → IsShared b (tasks_of_numbers tasks) (λ i j. IsTrue (inside i j)) S
        → (n : ℕ) (task : ℕ → ℕ) (did : ℕ → Bool) (w : ℕ → Table)
        → IsRun m b (tasks_of_numbers tasks) (λ i j. IsTrue (inside i j)) S n task did w
        → (r c : ℕ) → IsTrue (inside r c) → EachRan m b (tasks_of_numbers tasks) (λ i j. IsTrue (inside i j)) S n task did w r c
        → (q : ℕ) → q < n → IsSolvedAt m b (tasks_of_numbers tasks) (λ i j. IsTrue (inside i j)) S n task did w q r c
        → Cong m (S (λ u. 1) (w n) r c) (w 0 r c) }
    ensures updated { (m b : ℕ) (tasks : NumberedTasks) (inside : ℕ → ℕ → Bool) (S : (ℕ → ℕ) → Table → ℕ → ℕ → ℕ)
        → IsShared b (tasks_of_numbers tasks) (λ i j. IsTrue (inside i j)) S
        → (n : ℕ) (task : ℕ → ℕ) (did : ℕ → Bool) (w : ℕ → Table)
        → IsRun m b (tasks_of_numbers tasks) (λ i j. IsTrue (inside i j)) S n task did w
        → (r c : ℕ) → IsTrue (inside r c) → EachRan m b (tasks_of_numbers tasks) (λ i j. IsTrue (inside i j)) S n task did w r c
        → ((q : ℕ) → q < n → ¬ (IsSolvedAt m b (tasks_of_numbers tasks) (λ i j. IsTrue (inside i j)) S n task did w q r c))
        → Cong m (w n r c + S (λ u. 1) (w n) r c) (w 0 r c) }
{}
