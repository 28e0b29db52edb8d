//! What the stamps and the blocks of a run come to. Each law is the contract of a function that does nothing.

ghost use Rattle.std.specs.Prelude.{◌≡◌, ◌-◌, ◌*◌, ◌<◌, ◌≤◌, ℕ, List, length};
ghost use mathlib.Core.Option.{some};
ghost use lib.ListN.{get_elem?};
ghost use Rattle.equation.specs.Jobs.{IsJob};
ghost use Rattle.residue_sums.specs.Grids.{Grid, IsFull};
ghost use Rattle.step_replays.specs.Fits.{FitsJob};
ghost use Rattle.step_replays.specs.Replays.{StepResult, block_after};
ghost use Rattle.schedule_core.specs.declared.event.Event.{Event};
ghost use Rattle.schedule_core.specs.EventBlocks.{step_access};
ghost use Rattle.schedule_core.specs.Schedules.{IsSchedule};
ghost use Rattle.block_store.specs.declared.key.BoardKey.{BoardKey};
ghost use Rattle.block_store.specs.declared.view.View.{View};
ghost use Rattle.block_store.specs.Blocks.{access_of, block_count, IsFound, IsLeft, KeepShapes};
ghost use Rattle.block_store.specs.Holding.{HaveLast};
ghost use Rattle.block_store.specs.Keys.{step_count, IsReplayOf, IsStep};
ghost use Rattle.block_store.specs.Parts.{part_of};
ghost use Rattle.block_store.specs.Plays.{IsWhole};
ghost use Rattle.block_store.specs.Stamps.{AreByStamps, HasStamp, HaveStamps};

/// Where a view stands for all workers and the clock is twice the number of steps, each number below that is the stamp of an event,
/// and events of which each stands at its stamp are a schedule of the steps, and have each event of the view.
pub fn stamps_are_a_schedule()
    ensures stamps { (key : BoardKey) (v : View) → IsWhole key (2 * step_count key) v → (n : ℕ)
        → n < 2 * step_count key → (e : Event) × HasStamp v.facts n e }
    ensures schedule { (key : BoardKey) (v : View) (events : List Event)
        → IsWhole key (2 * step_count key) v → length events ≡ 2 * step_count key
        → HaveStamps v.facts events
        → IsSchedule (step_access key.steps.value) (step_count key) events }
    ensures placed { (key : BoardKey) (v : View) (events : List Event)
        → IsWhole key (2 * step_count key) v → length events ≡ 2 * step_count key
        → HaveStamps v.facts events → AreByStamps v.facts events }
{}

/// What a step of a replay finds and leaves, by the blocks after the steps: it finds each block as the steps before it leave it, and
/// leaves the block that it writes as the steps up to it do; after all steps each block is as the replay leaves it.
pub fn values_are_those_of_the_replay()
    ensures found { (key : BoardKey) (results : List StepResult) → IsReplayOf key results
        → (t x : ℕ) (g : Grid) → IsStep key t → IsFound key t x g
        → g ≡ block_after key.job.value key.b key.steps.value results (t - 1) x }
    ensures left { (key : BoardKey) (results : List StepResult) → IsReplayOf key results
        → (t : ℕ) (g : Grid) → IsStep key t → IsLeft key t (access_of key t).write g
        → g ≡ block_after key.job.value key.b key.steps.value results t (access_of key t).write }
    ensures last { (key : BoardKey) (results : List StepResult) → IsReplayOf key results
        → (slots : List Grid) → HaveLast key slots → (x : ℕ) → x < block_count key
        → get_elem? slots x ≡ some (block_after key.job.value key.b key.steps.value results
        (step_count key) x) }
{}

/// Where the steps fit a valid job, each block keeps the rows and columns that the job gives it, at any time.
pub fn blocks_keep_their_shapes()
    ensures { (key : BoardKey) → IsJob key.job.value → 1 ≤ key.b
        → FitsJob key.job.value key.b key.steps.value → KeepShapes key }
{}

/// All rows and columns of a grid are the grid.
pub fn whole_parts_are_the_grid()
    ensures { (g : Grid) → IsFull g
        → part_of g (record { row = 0; col = 0; rows = g.rows; cols = g.cols }) ≡ g }
{}
