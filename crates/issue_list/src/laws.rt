//! What the list of steps is. Each law is the contract of a function that does nothing.

ghost use Rattle.std.specs.Prelude.{◌≡◌, ◌⊎◌, ◌<◌, ℕ, List, [], ◌∷◌, length, suc, sum_by};
ghost use Rattle.std.specs.List.{range_with_len};
ghost use Rattle.operation_spec.specs.declared.operation.Operation.{Operation};
ghost use Rattle.invariant_family.specs.Families.{family_of, variant_numbered};
ghost use Rattle.equation.specs.declared.job.Job.{Job};
ghost use Rattle.equation.specs.Jobs.{IsJob};
ghost use Rattle.step_replays.specs.Fits.{FitsJob};
ghost use Rattle.issue_list.specs.CanonicalSteps.{canonical_steps as canonical, step_count};
ghost use Rattle.issue_list.specs.declared.choice.Choice.TheVariants.{Each, First};
ghost use Rattle.issue_list.specs.Choices.{HasDueCount, IsFirstWithout, numbers_of};
ghost use Rattle.issue_list.specs.IssuedSteps.{HaveVariants, issued_steps, number_for, tasks_by};
ghost use Rattle.issue_list.specs.WorkedSteps.{nine_steps, steps_by_columns};
ghost use Rattle.issue_list.specs.WorkedSteps.{backward_tasks, bordered_tasks, corner_tasks};
ghost use Rattle.issue_list.specs.WorkedSteps.{paired_tasks, right_looking_tasks};

/// The canonical list of steps of a valid job fits it.
pub fn canonical_steps_fit()
    ensures { (job : Job) (b : ℕ) → IsJob job → 0 < b → FitsJob job b (canonical job b) }
{}

/// The list of steps by variants fits its job, where each statement of a valid job has the variant with its number: it has each
/// task of each statement once, behind what it needs.
pub fn issued_steps_fit()
    ensures { (job : Job) (b : ℕ) (numbers : List ℕ) → IsJob job → 0 < b
        → HaveVariants job numbers → FitsJob job b (issued_steps job b numbers) }
{}

/// The list of steps by variants is as long as the canonical one, where each statement of a valid job has the variant with its number.
pub fn issued_steps_are_counted()
    ensures { (job : Job) (b : ℕ) (numbers : List ℕ) → IsJob job → HaveVariants job numbers
        → length (issued_steps job b numbers) ≡ length (canonical job b) }
{}

/// The first variants are always as many as the statements, and each of them is the one with number 1. Given numbers stand as they
/// are given.
pub fn first_variants_are_counted()
    ensures count { (job : Job) → HasDueCount job First }
    ensures ones { (job : Job) (before : ℕ) → before < length job.statements
        → number_for (numbers_of job First) (suc before) ≡ 1 }
    ensures given { (job : Job) (numbers : List ℕ) → numbers_of job (Each numbers) ≡ numbers }
{}

/// Each statement of a job has the variant with its number, or one of them is the first that has none.
pub fn statements_have_variants()
    ensures some { (job : Job) (numbers : List ℕ)
        → HaveVariants job numbers ⊎ ((s : ℕ) × IsFirstWithout job numbers s) }
    ensures apart { (job : Job) (numbers : List ℕ) (s : ℕ) → HaveVariants job numbers
        → IsFirstWithout job numbers s → ⊥ }
    ensures one { (job : Job) (numbers : List ℕ) (s t : ℕ) → IsFirstWithout job numbers s
        → IsFirstWithout job numbers t → s ≡ t }
{}

/// The canonical list has the steps of each statement, and no other: its block tasks, and one more where its pivots are tested. Of
/// no statement it has none.
pub fn steps_are_counted()
    ensures count { (job : Job) (b : ℕ)
        → length (canonical job b)
        ≡ sum_by (step_count job b) (range_with_len 1 (length job.statements)) }
    ensures none { (job : Job) (b : ℕ) → length job.statements ≡ 0 → canonical job b ≡ [] }
{}

/// Some job has the nine steps that were worked by hand, and some job has fourteen.
pub fn some_lists_are_worked_out()
    ensures nine { (job : Job) × (canonical job 1 ≡ nine_steps) }
    ensures fourteen { (job : Job) × (length (canonical job 1) ≡ 14) }
{}

/// Some job has the steps by variants 3 and 2 that were worked by hand, and some operations the tasks by others: with rows done before
/// columns, backward, and along two dimensions, of which one is done first or which go in two directions.
pub fn some_variants_are_worked_out()
    ensures steps { (job : Job) × (issued_steps job 1 (3 ∷ 2 ∷ []) ≡ steps_by_columns) }
    ensures bordered { (op : Operation)
        × (tasks_by op (3 ∷ []) (variant_numbered (family_of op) 1) ≡ bordered_tasks) }
    ensures right_looking { (op : Operation)
        × (tasks_by op (3 ∷ []) (variant_numbered (family_of op) 5) ≡ right_looking_tasks) }
    ensures backward { (op : Operation)
        × (tasks_by op (1 ∷ 3 ∷ []) (variant_numbered (family_of op) 4) ≡ backward_tasks) }
    ensures paired { (op : Operation)
        × (tasks_by op (1 ∷ 3 ∷ []) (variant_numbered (family_of op) 5) ≡ paired_tasks) }
    ensures cornered { (op : Operation)
        × (tasks_by op (2 ∷ 3 ∷ []) (variant_numbered (family_of op) 13) ≡ corner_tasks) }
{}
