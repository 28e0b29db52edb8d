//! What the definitions of job texts mean together. Each law is the contract of a function that does nothing.

ghost use Rattle.std.specs.Prelude.{◌≡◌, ℕ, ◌+◌, List, ◌∷◌, ◌++◌, length, Ok, Err, All, IsTrue};
ghost use Rattle.text_scan.specs.declared.Rest.{Rest};
ghost use Rattle.text_scan.specs.Faults.{Fault};
ghost use Rattle.text_scan.specs.NormalTexts.{is_line, lines_text};
ghost use Rattle.text_scan.specs.Words.{is_name};
ghost use Rattle.equation.specs.declared.job.Job.{Job};
ghost use Rattle.equation.specs.Jobs.{IsJob};
ghost use Rattle.job_text.specs.declared.stop.Stop.{Stop};
ghost use Rattle.job_text.specs.JobLines.{job_lines};
ghost use Rattle.job_text.specs.JobTexts.{job_text};
ghost use Rattle.job_text.specs.SpelledJobs.{IsWritable, Spells, is_stop_line, job_in};

/// A text that spells a job has no fault, and is read as that job.
pub fn spelled_jobs_are_read()
    ensures { (bytes : List ℕ) (stop : Stop) (job : Job) (rest : Rest) → Spells bytes stop job rest
        → job_in stop bytes ≡ Ok (job, rest) }
{}

/// What is read without a fault is a valid job, and spelled so.
pub fn read_jobs_are_spelled()
    ensures { (bytes : List ℕ) (stop : Stop) (job : Job) (rest : Rest)
        → job_in stop bytes ≡ Ok (job, rest) → Spells bytes stop job rest }
{}

/// A text spells one job at most, and its second part begins at one place.
pub fn texts_spell_one_job()
    ensures { (bytes : List ℕ) (stop : Stop) (job other : Job) (rest end : Rest)
        → Spells bytes stop job rest → Spells bytes stop other end
        → (job ≡ other) × (rest ≡ end) }
{}

/// A text that has a fault spells no job.
pub fn refused_texts_spell_no_job()
    ensures { (bytes : List ℕ) (stop : Stop) (fault : Fault) (job : Job) (rest : Rest)
        → job_in stop bytes ≡ Err fault → Spells bytes stop job rest → ⊥ }
{}

/// The printed text is the normal text of the lines, where the names of matrices are texts of names: a normal text has
/// no space before a `'`.
pub fn printed_jobs_are_lines()
    ensures { (job : Job) → All (λ name. IsTrue (is_name name)) job.names
        → job_text job ≡ lines_text (job_lines job) }
{}

/// The printed text of a valid job, whose names and sizes can stand in a text, spells it whatever its stop: no line of it
/// begins a second part.
pub fn printed_jobs_are_spelled()
    ensures { (stop : Stop) (job : Job) → IsJob job → IsWritable job
        → Spells (job_text job) stop job
        (record { at = length (job_text job); line = length (job_lines job) + 1 }) }
{}

/// It also does before other lines of words, of which the first begins a second part: that part begins behind it.
pub fn jobs_before_others_are_spelled()
    ensures { (stop : Stop) (job : Job) (first : List (List ℕ)) (others : List (List (List ℕ)))
        → IsJob job → IsWritable job
        → IsTrue (is_stop_line stop first) → All (λ words. IsTrue (is_line words)) (first ∷ others)
        → Spells (job_text job ++ lines_text (first ∷ others)) stop job
        (record { at = length (job_text job); line = length (job_lines job) + 1 }) }
{}
