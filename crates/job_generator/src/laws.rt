//! What the definition of generated jobs means. Each law is the contract of a function that does
//! nothing.

ghost use Rattle.std.specs.Prelude.{◌≡◌, ℕ, suc, ◌+◌, ◌*◌, ◌/◌, ◌%◌, ◌^◌, ◌<◌, ◌≤◌, ◌==◌};
ghost use Rattle.std.specs.Prelude.{if◌then◌else◌, List, Ok};
ghost use Rattle.residue_sums.specs.Residues.{Cong, IsModulus};
ghost use Rattle.text_scan.specs.declared.Rest.{Rest};
ghost use Rattle.residue_sums.specs.Sums.{sum_below};
ghost use Rattle.residue_sums.specs.Grids.{Grid};
ghost use Rattle.equation.specs.declared.job.Place.{Place};
ghost use Rattle.equation.specs.Jobs.{IsJob, nth_grid};
ghost use Rattle.equation.specs.Meanings.{Means, MeansBadPivot};
ghost use Rattle.job_text.specs.declared.stop.Stop.{Stop};
ghost use Rattle.job_text.specs.JobTexts.{job_text};
ghost use Rattle.job_text.specs.SpelledJobs.{IsWritable, job_in};
ghost use Rattle.job_generator.specs.Draws.{draw_prime, number_after, off_diagonal_before};
ghost use Rattle.job_generator.specs.GeneratedJobs.{factors, generated_job};

/// One more than each number is a power of 75 times one more than the first, modulo a prime.
pub fn numbers_are_powers()
    ensures power { (x draws : ℕ)
        → Cong draw_prime (number_after draws x + 1) (75 ^ draws * (x + 1)) }
    ensures below { (x draws : ℕ) → number_after (suc draws) x < draw_prime }
{}

/// An entry off the diagonal has the draw whose number is the count of such entries before it, row
/// by row.
pub fn entries_are_drawn_in_order()
    ensures { (n i j : ℕ) → i < n → j < n → off_diagonal_before n i j
        ≡ sum_below (λ k. if (k / n) == (k % n) then 0 else 1) (i * n + j) }
{}

/// A generated job is valid.
pub fn generated_jobs_are_jobs()
    ensures { (n m seed : ℕ) → n ≤ 1024 → IsModulus m → IsJob (generated_job n m seed) }
{}

/// It can stand in a text: its normal text is read as the job that it is, whatever the second part
/// that an input may have.
pub fn generated_jobs_are_read_back()
    ensures writable { (n m seed : ℕ) → n ≤ 1024 → IsWritable (generated_job n m seed) }
    ensures read { (stop : Stop) (n m seed : ℕ) → n ≤ 1024 → IsModulus m
        → let job = generated_job n m seed in
        (rest : Rest) × (job_in stop (job_text job) ≡ Ok (job, rest)) }
{}

/// No generated job has a bad pivot, and the matrix S that it leaves, and prints, is the matrix of
/// its factors.
pub fn generated_jobs_have_no_bad_pivot()
    ensures none { (n m seed number : ℕ) (place : Place) → n ≤ 1024 → IsModulus m
        → ¬ (MeansBadPivot (generated_job n m seed) number place) }
    ensures some { (n m seed : ℕ) → IsModulus m
        → (after : List Grid) × Means (generated_job n m seed) after }
    ensures factors_again { (n m seed : ℕ) (after : List Grid) → n ≤ 1024 → IsModulus m
        → Means (generated_job n m seed) after → nth_grid after 1 ≡ factors n m seed }
{}
