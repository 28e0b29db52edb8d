//! What the relation of what is due means. Each law is the contract of a function that does nothing.
//! Together they say that for all words and each input exactly one status is due, and one text but for the schedule in the trace of
//! several workers; that a run's result depends neither on the variants nor on the block size nor on the workers; and what a call's
//! promise comes to where nothing fails.

ghost use Rattle.std.specs.Prelude.{◌≡◌, ◌≢◌, ◌++◌, ℕ, List, Some, false};
ghost use Rattle.outside_io.specs.Causes.{Rose};
ghost use Rattle.command_words.specs.declared.command.RunWords.{RunWords};
ghost use Rattle.equation.specs.declared.job.Job.{Job};
ghost use Rattle.equation.specs.Jobs.{IsJob};
ghost use Rattle.flame_top.specs.Answers.{Answers, StreamState};
ghost use Rattle.flame_top.specs.Due.{Due};
ghost use Rattle.flame_top.specs.Run.{DueRun};
ghost use Rattle.flame_top.specs.SameTexts.{AreSameSummaries, AreSameToSchedule, HasOneText};
ghost use Rattle.flame_top.specs.SelfRun.{DueSelfRun};
ghost use Rattle.variant_report.specs.declared.self_words.SelfWords.{SelfWords};
ghost use Rattle.command_words.specs.Words.{AreSelfWords};

/// For the same words and input at most one status is due. One text is due too, unless the words ask for the trace of several
/// workers; then two texts that are due are the same up to their schedules.
pub fn due_is_determined()
    ensures status { (words : List (List ℕ)) (input : List ℕ)
        → (status other : ℕ) (text different : List ℕ)
        → Due words input status text → Due words input other different → status ≡ other }
    ensures text { (words : List (List ℕ)) → HasOneText words
        → (input : List ℕ) (status other : ℕ) (text different : List ℕ)
        → Due words input status text → Due words input other different → text ≡ different }
    ensures schedule { (words : List (List ℕ)) (input : List ℕ)
        → (status other : ℕ) (text different : List ℕ) → Due words input status text
        → Due words input other different → AreSameToSchedule text different }
{}

/// For all words and each input a status and a text are due.
pub fn something_is_due()
    ensures { (words : List (List ℕ)) (input : List ℕ)
        → (status : ℕ) × (text : List ℕ) × Due words input status text }
{}

/// Neither the variants nor the block size change a result: where a job is refused under neither of two lists of words that ask for
/// no trace, the same is due under both.
pub fn variants_and_block_sizes_change_no_result()
    ensures { (job : Job) → IsJob job → (words changed : RunWords)
        → words.trace ≡ false → changed.trace ≡ false
        → (status other : ℕ) (text different : List ℕ)
        → DueRun words job status text → DueRun changed job other different
        → status ≢ 3 → other ≢ 3 → (status ≡ other) × (text ≡ different) }
{}

/// The number of workers changes no result: where other words differ from these in it alone, the same status is due for a job, and
/// the same text but for the schedule of a trace, where a schedule of the same steps stands, or for the number of workers that the
/// first line of a summary names.
pub fn workers_change_no_result()
    ensures run { (job : Job) → IsJob job → (words : RunWords)
        → (workers status other : ℕ) (text different : List ℕ) → DueRun words job status text
        → DueRun (record words { workers = workers }) job other different
        → (status ≡ other) × AreSameToSchedule text different }
    ensures plain { (job : Job) → IsJob job → (words : RunWords) → words.trace ≡ false
        → (workers status other : ℕ) (text different : List ℕ) → DueRun words job status text
        → DueRun (record words { workers = workers }) job other different → text ≡ different }
    ensures selfrun { (words : SelfWords) → AreSelfWords words
        → (workers status other : ℕ) (text different : List ℕ) → DueSelfRun words status text
        → DueSelfRun (record words { workers = workers }) other different → (status ≡ other)
        × AreSameSummaries words (record words { workers = workers }) text different }
{}

/// No run of a generated job meets a bad pivot.
pub fn no_selfrun_meets_a_bad_pivot()
    ensures { (words : SelfWords) → AreSelfWords words → (status : ℕ) (text : List ℕ)
        → DueSelfRun words status text → status ≢ 4 }
{}

/// What the promise of `top` comes to where the source tells its bytes, the sink tells what it holds, and neither fails: the
/// status is neither 1 nor 6, and unless it is 5 the status and the text that are due for the whole input have come, the text
/// behind what the sink held and nothing else.
pub fn quiet_streams_get_the_whole_text()
    ensures { (words : List (List ℕ)) (source source_after sink sink_after : StreamState)
        (status : ℕ) (input held : List ℕ)
        → Answers (Due words) source source_after sink sink_after status
        → source.bytes ≡ Some input → sink.bytes ≡ Some held
        → ¬ (Rose source.faults source_after.faults) → ¬ (Rose sink.faults sink_after.faults)
        → (status ≢ 1) × (status ≢ 6)
        × (status ≢ 5 → (text : List ℕ) × Due words input status text
        × (sink_after.bytes ≡ Some (held ++ text))) }
{}
