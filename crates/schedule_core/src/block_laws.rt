//! What the blocks of a job are while its steps begin and end. Each law is the contract of a function that does nothing.

ghost use Rattle.std.specs.Prelude.{◌≡◌, ◌<◌, ◌≤◌, ◌↔◌, ◌-◌, ◌==◌, ◌++◌, ◌∷◌, ℕ, List, [], length, take, IsTrue, false, if◌then◌else◌};
ghost use Rattle.equation.specs.declared.job.Job.{Job};
ghost use Rattle.step_replays.specs.declared.step.Step.{Step};
ghost use Rattle.equation.specs.Jobs.{IsJob};
ghost use Rattle.step_replays.specs.Accesses.{first_block};
ghost use Rattle.step_replays.specs.Fits.{FitsJob};
ghost use Rattle.step_replays.specs.Replays.{IsFront, IsReplay, IsResult, IsStopped, StepResult};
ghost use Rattle.step_replays.specs.Replays.{block_after, nth_result, written};
ghost use Rattle.schedule_core.specs.declared.event.Event.{Event};
ghost use Rattle.schedule_core.specs.declared.event.Event.TheVariants.{Finish, Start};
ghost use Rattle.schedule_core.specs.EventBlocks.{block_at, step_access};
ghost use Rattle.schedule_core.specs.Schedules.{has_event, is_begun, is_schedule, may_come, uses_block};

/// Before any event each block is as the job gives it. A step that begins changes none. While it runs, each block that it uses is
/// as a replay in the order of the steps leaves it to it. When it ends, the block that it writes becomes what it leaves. After a
/// schedule all blocks are as after the replay, whatever the schedule.
pub fn blocks_follow_the_events()
    ensures first { (job : Job) (b : ℕ) (steps : List Step) (results : List StepResult) (x : ℕ)
        → block_at job b steps results [] x ≡ first_block job b x }
    ensures start { (job : Job) (b : ℕ) (steps : List Step) (results : List StepResult)
        (events : List Event) (t x : ℕ)
        → block_at job b steps results (events ++ Start t ∷ []) x
        ≡ block_at job b steps results events x }
    ensures found { (job : Job) (b : ℕ) (steps : List Step) (results : List StepResult)
        (events : List Event) → IsTrue (is_begun (step_access steps) (length steps) events)
        → (t x : ℕ) → IsTrue (has_event events (Start t)) → has_event events (Finish t) ≡ false
        → IsTrue (uses_block (step_access steps t) x)
        → block_at job b steps results events x ≡ block_after job b steps results (t - 1) x }
    ensures finish { (job : Job) (b : ℕ) (steps : List Step) (results : List StepResult)
        (events : List Event) → IsTrue (is_begun (step_access steps) (length steps) events)
        → (t x : ℕ) → IsTrue (may_come (step_access steps) (length steps) events (Finish t))
        → block_at job b steps results (events ++ Finish t ∷ []) x
        ≡ (if (step_access steps t).write == x
        then written (nth_result results (t - 1)) (block_at job b steps results events x)
        else block_at job b steps results events x) }
    ensures whole { (job : Job) (b : ℕ) (steps : List Step) (results : List StepResult)
        (events : List Event) → IsTrue (is_schedule (step_access steps) (length steps) events)
        → (x : ℕ) → block_at job b steps results events x
        ≡ block_after job b steps results (length steps) x }
{}

/// A replay up to a step: the outcomes of the steps before it are a front of the replay, which leaves the same blocks to the step
/// and stops it if the replay does, and the one thing that can become of the step behind them is its outcome in the replay.
pub fn a_step_has_its_outcome_in_the_replay()
    ensures front { (job : Job) (b : ℕ) (steps : List Step) (results : List StepResult)
        → IsReplay job b steps results → (s : ℕ) → s ≤ length steps
        → IsFront job b steps (take s results) s }
    ensures found { (job : Job) (b : ℕ) (steps : List Step) (results : List StepResult) (s x : ℕ)
        → block_after job b steps (take s results) s x ≡ block_after job b steps results s x }
    ensures stopped { (job : Job) (b : ℕ) (steps : List Step) (results : List StepResult) (s : ℕ)
        → (IsStopped job b steps (take s results) s ↔ IsStopped job b steps results s) }
    ensures outcome { (job : Job) (b : ℕ) (steps : List Step) (results : List StepResult)
        → IsJob job → 0 < b → FitsJob job b steps → IsReplay job b steps results → (s : ℕ)
        → s < length steps → (r : StepResult) → IsResult job b steps (take s results) s r
        → nth_result results s ≡ r }
{}
