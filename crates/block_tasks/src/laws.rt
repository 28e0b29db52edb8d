//! What is read of a block. Each law is the contract of a function that does nothing.

ghost use Rattle.std.specs.Prelude.{◌≡◌, ◌≢◌, ◌+◌, ◌*◌, ◌<◌, ℕ, List, IsTrue};
ghost use Rattle.residue_sums.specs.Grids.{Grid};
ghost use Rattle.residue_sums.specs.Sums.{part_length};
ghost use Rattle.structure_rules.specs.declared.Structure.TheVariants.{General};
ghost use Rattle.operation_spec.specs.declared.operation.Factor.{Factor};
ghost use Rattle.operation_spec.specs.declared.operation.Operation.{Operation};
ghost use Rattle.task_graph.specs.Factors.{known};
ghost use Rattle.task_graph.specs.Tasks.{is_inside};
ghost use Rattle.equation.specs.Equations.{factor_cols, factor_table, known_grid};
ghost use Rattle.flash_blocks.specs.Blocks.{Blocks};
ghost use Rattle.block_tasks.specs.Effects.{AreKnown, factor_block, factor_rows};

/// An entry of a block of op(F) that is no zero block is the entry of op(F), for each structure, and where the factor is
/// primed. A matrix whose structure isn't general is square.
pub fn blocks_of_factors_are_parts_of_them()
    ensures { (b : ℕ) (op : Operation) (knowns : List Grid) (blocks : ℕ → Blocks) (f : Factor)
        → AreKnown b knowns blocks
        → ((known op f.known).structure ≢ General → (known_grid knowns f.known).rows ≡ (known_grid knowns f.known).cols)
        → (i k r c : ℕ) → IsTrue (is_inside op f i k)
        → r < part_length (factor_rows knowns f) b i → c < part_length (factor_cols knowns f) b k
        → factor_block op blocks f i k r c ≡ factor_table op knowns f (i * b + r) (k * b + c) }
{}
