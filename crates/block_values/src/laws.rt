//! What the expressions of blocks say together. Each law is the contract of a function that does nothing.

ghost use Rattle.std.specs.Prelude.{◌≡◌, ◌↔◌, ℕ, List, false, true};
ghost use Rattle.residue_sums.specs.Grids.{entry};
ghost use Rattle.residue_sums.specs.Tables.{Table};
ghost use Rattle.operation_spec.specs.declared.task.Task.{Task};
ghost use Rattle.equation.specs.Equations.{Satisfies};
ghost use Rattle.task_graph.specs.Tasks.{is_work_block};
ghost use Rattle.block_values.specs.Held.{with_products};
ghost use Rattle.block_values.specs.Orders.{AreAll, in_order};
ghost use Rattle.block_values.specs.PartitionedEquations.{EquationHolds, HasBlock};
ghost use Rattle.block_values.specs.PartitionedEquations.{HaveValues, KeepsOthers};
ghost use Rattle.block_values.specs.Settings.{IsSetting};
ghost use Rattle.block_values.specs.States.{full_tree, has_solved, state_tree};
ghost use Rattle.block_values.specs.Values.{IsValue, Setting};

/// A block of W's structure has, on its entries in W's structure, a value of its expression with all its tasks done,
/// exactly where the equation of the whole holds on these entries: in each form, and for parts of any lengths.
pub fn blocks_have_values_where_the_equation_holds()
    ensures { (s : Setting) (counts : List ℕ) → IsSetting s counts → (i j : ℕ)
        → is_work_block s.op counts i j ≡ true
        → HasBlock s i j (full_tree s.op counts i j) ↔ EquationHolds s i j }
{}

/// All blocks of W's structure have values of their expressions, and no entry outside W's structure changed, exactly
/// where the solution satisfies the equation of the operation.
pub fn blocks_are_the_whole()
    ensures { (s : Setting) (counts : List ℕ) → IsSetting s counts
        → (HaveValues s counts × KeepsOthers s)
        ↔ Satisfies s.modulus s.op s.knowns s.work s.solution }
{}

/// The state of a block denotes what the block holds. Without a solve it has one value, the old block with the products of
/// the done updates added or subtracted, in whatever order they are listed. With all tasks of the block done, in whatever
/// order they are listed, the solution has a value of it on the block's entries in W's structure.
pub fn states_denote_what_blocks_hold()
    ensures unsolved { (s : Setting) (counts : List ℕ) → IsSetting s counts
        → (i j : ℕ) (done : List Task)
        → has_solved done ≡ false
        → IsValue s (state_tree s.op i j (in_order s.op done)) (with_products s done (entry s.work))
        × ((y : Table) → IsValue s (state_tree s.op i j (in_order s.op done)) y
        → (r c : ℕ) → y r c ≡ with_products s done (entry s.work) r c) }
    ensures solved { (s : Setting) (counts : List ℕ) → IsSetting s counts
        → Satisfies s.modulus s.op s.knowns s.work s.solution
        → (i j : ℕ) → is_work_block s.op counts i j ≡ true → (done : List Task)
        → AreAll s.op counts i j done → HasBlock s i j (state_tree s.op i j (in_order s.op done)) }
{}
