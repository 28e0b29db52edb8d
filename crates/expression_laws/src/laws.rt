//! Blocks and their expressions. Each law is the contract of a function that does nothing.

ghost use Rattle.std.specs.Prelude.{◌≡◌, ℕ, ◌*◌, ◌/◌, ◌<◌, ◌≤◌, List, length, All, Bool, true, false};
ghost use Rattle.residue_sums.specs.Residues.{IsModulus};
ghost use Rattle.residue_sums.specs.Sums.{part_count};
ghost use Rattle.residue_sums.specs.Grids.{AreResidues, Grid};
ghost use Rattle.residue_sums.specs.Tables.{oriented, Table};
ghost use Rattle.structure_rules.specs.Structures.{view};
ghost use Rattle.operation_spec.specs.declared.operation.Binding.{Binding};
ghost use Rattle.operation_spec.specs.declared.operation.Operation.{Operation};
ghost use Rattle.operation_spec.specs.declared.split.Split.{Split};
ghost use Rattle.operation_spec.specs.declared.task.Task.{Task};
ghost use Rattle.operation_spec.specs.ValidOperations.{IsValid};
ghost use Rattle.equation.specs.Jobs.{Fits, nth_grid};
ghost use Rattle.task_graph.specs.Listing.{block_of};
ghost use Rattle.task_graph.specs.Tasks.{is_work_block, parts_of};
ghost use Rattle.invariant_family.specs.Splits.{two_parts};
ghost use Rattle.block_expr.specs.Expanded.{expanded, expanded_left, expanded_right};
ghost use Rattle.block_expr.specs.Simplified.{is_zero_block, leaf_structure};
ghost use Rattle.block_values.specs.Cuts.{IsCut, Starts};
ghost use Rattle.block_values.specs.declared.leaf.Leaf.{Leaf};
ghost use Rattle.block_values.specs.Orders.{AreAll, in_order};
ghost use Rattle.block_values.specs.Settings.{IsSetting};
ghost use Rattle.block_values.specs.States.{full_tree, state_tree};
ghost use Rattle.block_values.specs.Values.{leaf_table, Setting};
ghost use Rattle.expression_laws.specs.OwnBlocks.{IsEquationOfItsBlock, IsOfBlock};
ghost use Rattle.expression_laws.specs.StatementSettings.{MayFollow, setting_of};
ghost use Rattle.expression_laws.specs.StatementSettings.{starts_by_edge, starts_by_size};
ghost use Rattle.expression_laws.specs.StoredLeaves.{stored_table};

/// The sides of the expanded equation of a block and the states of the block stand for this block and no other: their rows
/// and columns are those of the block. So the equations that `expand` answers are those of the blocks that they name.
pub fn expressions_stand_for_their_blocks()
    ensures left { (s : Setting) (counts : List ℕ) → IsSetting s counts → (i j : ℕ)
        → is_work_block s.op counts i j ≡ true
        → IsOfBlock s i j (expanded_left s.op counts i j) }
    ensures right { (s : Setting) (counts : List ℕ) (i j : ℕ)
        → IsOfBlock s i j (expanded_right s.op counts i j) }
    ensures expanded { (s : Setting) (counts : List ℕ) → IsSetting s counts
        → All (IsEquationOfItsBlock s counts) (expanded s.op counts) }
    ensures states { (s : Setting) (i j : ℕ) (done : List Task)
        → IsOfBlock s i j (state_tree s.op i j done) }
    ensures full { (s : Setting) (counts : List ℕ) (i j : ℕ)
        → IsOfBlock s i j (full_tree s.op counts i j) }
{}

/// Simplifying drops the blocks that are zero and no others. Each leaf is read through the structure by which its blocks are
/// dropped, the work matrix as it is stored. With parts of size b a block that is dropped holds zeros alone, whatever is
/// stored, and any other one begins with 1 where ones are stored.
pub fn zero_blocks_are_dropped_and_no_others()
    ensures read { (s : Setting) → IsValid s.op → (leaf : Leaf) (r c : ℕ)
        → leaf_table s leaf r c
        ≡ view (leaf_structure s.op leaf) (stored_table s leaf) r c }
    ensures zeros { (op : Operation) (leaf : Leaf) (primed : Bool) (a : Table) (b r c : ℕ)
        → is_zero_block op leaf primed (r / b) (c / b) ≡ true
        → oriented primed (view (leaf_structure op leaf) a) r c ≡ 0 }
    ensures others { (op : Operation) (leaf : Leaf) (primed : Bool) (b i j : ℕ)
        → is_zero_block op leaf primed i j ≡ false
        → oriented primed (view (leaf_structure op leaf) (λ _ _. 1)) (i * b) (j * b) ≡ 1 }
{}

/// Where the matrices of a statement fit its operation and hold residues, they are a setting with each matrix that may
/// follow and each cut. The parts of each size are a cut, and so are two parts along a split with any edges.
pub fn statements_are_settings()
    ensures matrices { (m : ℕ) (op : Operation) (grids : List Grid) (bind : Binding) (after : Grid)
        (counts : List ℕ) (starts : Starts)
        → IsModulus m → IsValid op → All (AreResidues m) grids
        → (fits : Fits op grids bind) → MayFollow m (nth_grid grids bind.work) after
        → IsCut (length op.dims) fits.lengths counts starts
        → IsSetting (setting_of m op grids bind after starts) counts }
    ensures by_size { (dims b : ℕ) (lengths : ℕ → ℕ) (counts : List ℕ) → 0 < b
        → ((d : ℕ) → d < dims → parts_of counts d ≡ part_count (lengths d) b)
        → IsCut dims lengths counts (starts_by_size b lengths) }
    ensures in_two { (op : Operation) (split : Split) (lengths edges : ℕ → ℕ)
        → ((d : ℕ) → edges d ≤ lengths d)
        → IsCut (length op.dims) lengths (two_parts op split)
        (starts_by_edge (two_parts op split) edges lengths) }
{}

/// The list of a block's tasks has each of them once, and no others. Each list that has is this one, in canonical order.
pub fn blocks_list_all_their_tasks()
    ensures all { (op : Operation) (counts : List ℕ) → IsValid op → (i j : ℕ)
        → is_work_block op counts i j ≡ true
        → AreAll op counts i j (block_of op counts i j) }
    ensures in_order { (op : Operation) (counts : List ℕ) → IsValid op → (i j : ℕ)
        → is_work_block op counts i j ≡ true → (done : List Task)
        → AreAll op counts i j done → in_order op done ≡ block_of op counts i j }
{}
