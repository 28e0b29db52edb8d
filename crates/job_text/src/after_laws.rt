//! What the definitions of the second part of an input mean together, which has each statement's work matrix as it stands
//! after it. Each law is the contract of a function that does nothing.

ghost use Rattle.std.specs.Prelude.{◌≡◌, ℕ, ◌+◌, List, ◌++◌, length, drop, Ok};
ghost use Rattle.residue_sums.specs.Grids.{Grid};
ghost use Rattle.text_scan.specs.declared.Rest.{Rest};
ghost use Rattle.text_scan.specs.declared.token.Token.{Token};
ghost use Rattle.text_scan.specs.NormalTexts.{lines_text};
ghost use Rattle.text_scan.specs.Tokens.{tokens_of};
ghost use Rattle.equation.specs.declared.job.Job.{Job};
ghost use Rattle.equation.specs.Jobs.{IsJob};
ghost use Rattle.job_text.specs.declared.stop.Stop.{Stop};
ghost use Rattle.job_text.specs.declared.stop.Stop.TheVariants.{After};
ghost use Rattle.job_text.specs.AfterBlocks.{AreAfter, HaveShortSizes, IsPlace, SpellsAfter, after_blocks};
ghost use Rattle.job_text.specs.AfterFaults.{after_in};
ghost use Rattle.job_text.specs.JobLines.{job_lines};
ghost use Rattle.job_text.specs.JobTexts.{job_text};
ghost use Rattle.job_text.specs.SpelledJobs.{IsWritable, Spells};

/// The second part of an input begins at a place of its bytes.
pub fn second_parts_begin_at_places()
    ensures { (bytes : List ℕ) (stop : Stop) (job : Job) (rest : Rest) → Spells bytes stop job rest
        → IsPlace bytes rest }
{}

/// From such a place on bytes have no bad byte, where all of them have none.
pub fn second_parts_have_tokens()
    ensures { (bytes : List ℕ) (rest : Rest) (tokens : List Token) → tokens_of 1 bytes ≡ Ok tokens
        → IsPlace bytes rest
        → (there : List Token) × (tokens_of rest.line (drop rest.at bytes) ≡ Ok there) }
{}

/// A text that spells the matrices of a job after its statements has no fault, and is read as these, where they have fewer
/// than 2^32 rows and columns.
pub fn spelled_matrices_are_read()
    ensures { (bytes : List ℕ) (rest : Rest) (job : Job) (grids : List Grid) → IsJob job
        → HaveShortSizes job job.statements → SpellsAfter bytes rest job grids
        → after_in bytes rest job ≡ Ok grids }
{}

/// What is read without a fault is spelled so, where the job's work matrices have fewer than 2^32 rows and columns.
pub fn read_matrices_are_spelled()
    ensures { (bytes : List ℕ) (rest : Rest) (job : Job) (grids : List Grid) → IsJob job
        → HaveShortSizes job job.statements → after_in bytes rest job ≡ Ok grids
        → SpellsAfter bytes rest job grids }
{}

/// The printed text of a valid job, whose names and sizes can stand in a text, before the lines of matrices that its
/// statements' work matrices may be after them: it spells the job, the second part begins behind it and spells the
/// matrices, and these are read again. Without statements there are no such lines, and the second part is empty.
pub fn printed_matrices_are_spelled()
    ensures job { (job : Job) (grids : List Grid) → IsJob job → IsWritable job
        → AreAfter job job.statements grids
        → Spells (job_text job ++ lines_text (after_blocks job job.statements grids)) After job
        (record { at = length (job_text job); line = length (job_lines job) + 1 }) }
    ensures matrices { (job : Job) (grids : List Grid) → IsJob job → IsWritable job
        → AreAfter job job.statements grids
        → SpellsAfter (job_text job ++ lines_text (after_blocks job job.statements grids))
        (record { at = length (job_text job); line = length (job_lines job) + 1 }) job grids }
    ensures read { (job : Job) (grids : List Grid) → IsJob job → IsWritable job
        → AreAfter job job.statements grids
        → after_in (job_text job ++ lines_text (after_blocks job job.statements grids))
        (record { at = length (job_text job); line = length (job_lines job) + 1 }) job ≡ Ok grids }
{}
