//! What the calls on expressions keep. Each law is the contract of a function that does nothing.

ghost use Rattle.std.specs.Prelude.{◌≡◌, ◌↔◌, ℕ, List, All, true};
ghost use Rattle.residue_sums.specs.Tables.{Table};
ghost use Rattle.operation_spec.specs.declared.operation.Operation.{Operation};
ghost use Rattle.operation_spec.specs.declared.task.Task.{Task};
ghost use Rattle.operation_spec.specs.ValidOperations.{IsValid};
ghost use Rattle.equation.specs.Equations.{left_side, right_side};
ghost use Rattle.task_graph.specs.Tasks.{has, is_work_block};
ghost use Rattle.block_expr.specs.Expanded.{expanded_left, expanded_right, SidesAgree};
ghost use Rattle.block_expr.specs.Shapes.{HasNoZeroBlock, HasValuesOf, IsShaped};
ghost use Rattle.block_expr.specs.Simplified.{simplified};
ghost use Rattle.block_values.specs.PartitionedEquations.{EquationHolds};
ghost use Rattle.block_values.specs.Settings.{IsSetting};
ghost use Rattle.block_values.specs.States.{full_tree, state_tree};
ghost use Rattle.block_values.specs.Trees.{Tree};
ghost use Rattle.block_values.specs.Values.{IsValue, Setting};

/// The expanded equation of a block holds on its entries in W's structure exactly where the equation of the whole
/// does, for parts of any lengths; and its sides have the values of the sides of the whole.
pub fn expanded_equations_are_the_whole()
    ensures blocks { (s : Setting) (counts : List ℕ) → IsSetting s counts → (i j : ℕ)
        → SidesAgree s i j (expanded_left s.op counts i j) (expanded_right s.op counts i j)
        ↔ EquationHolds s i j }
    ensures left { (s : Setting) (counts : List ℕ) → IsSetting s counts → (i j : ℕ) (y : Table)
        → IsValue s (expanded_left s.op counts i j) y
        ↔ ((r c : ℕ) → y r c ≡ left_side s.modulus s.op s.knowns s.solution r c) }
    ensures right { (s : Setting) (counts : List ℕ) → IsSetting s counts → (i j : ℕ) (y : Table)
        → IsValue s (expanded_right s.op counts i j) y
        ↔ ((r c : ℕ) → y r c ≡ right_side s.modulus s.op s.knowns s.work r c) }
{}

/// A simplified expression has, on the places of its block, the values of the expression, and the other way round,
/// where the blocks of the expression fit together. Those of expanded equations and of states do.
pub fn simplified_expressions_keep_their_values()
    ensures kept { (s : Setting) (counts : List ℕ) → IsSetting s counts → (e : Tree) → IsShaped s e
        → HasValuesOf s e e (simplified s.op e) × HasValuesOf s e (simplified s.op e) e }
    ensures expanded { (s : Setting) (counts : List ℕ) → IsSetting s counts → (i j : ℕ)
        → is_work_block s.op counts i j ≡ true
        → IsShaped s (expanded_left s.op counts i j) × IsShaped s (expanded_right s.op counts i j) }
    ensures states { (s : Setting) (counts : List ℕ) → IsSetting s counts
        → (i j : ℕ) (done : List Task)
        → All (λ a. (has s.op counts a ≡ true) × (a.i ≡ i) × (a.j ≡ j)) done
        → IsShaped s (state_tree s.op i j done) }
{}

/// A simplified expression has no block that is zero by structure.
pub fn simplified_expressions_have_no_zero_block()
    ensures { (op : Operation) (e : Tree) → HasNoZeroBlock op (simplified op e) }
{}

/// In a state there is nothing to simplify, whichever tasks of its block are done; so it has no block that is zero by
/// structure, and nothing of it is left out.
pub fn states_are_simplified()
    ensures states { (op : Operation) (counts : List ℕ) → IsValid op → (i j : ℕ)
        → is_work_block op counts i j ≡ true → (done : List Task)
        → All (λ a. (has op counts a ≡ true) × (a.i ≡ i) × (a.j ≡ j)) done
        → simplified op (state_tree op i j done) ≡ state_tree op i j done }
    ensures full { (op : Operation) (counts : List ℕ) → IsValid op → (i j : ℕ)
        → is_work_block op counts i j ≡ true
        → simplified op (full_tree op counts i j) ≡ full_tree op counts i j }
{}
