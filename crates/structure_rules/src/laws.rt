//! What the definitions of structures mean together. Each law is the contract of a function that does nothing.

ghost use Rattle.std.specs.Prelude.{◌≡◌, ◌≢◌, ◌↔◌, ◌+◌, ◌*◌, ◌/◌, ℕ};
ghost use Rattle.residue_sums.specs.Tables.{Table, transpose, oriented};
ghost use Rattle.structure_rules.specs.declared.Structure.{Structure};
ghost use Rattle.structure_rules.specs.declared.Structure.TheVariants.{Symmetric};
ghost use Rattle.structure_rules.specs.Structures.{view, IsZero, IsInside, IsOne, stored_of, transpose_of};

/// Each entry of a view is 0 or 1 by its structure, or is the entry at the stored place.
pub fn entries_of_view()
    ensures zero { (s : Structure) (a : Table) (i j : ℕ) → IsZero s i j → view s a i j ≡ 0 }
    ensures one { (s : Structure) (a : Table) (i j : ℕ) → IsOne s i j → view s a i j ≡ 1 }
    ensures stored { (s : Structure) (a : Table) (i j : ℕ) → IsInside s i j → ¬ (IsOne s i j)
        → view s a i j ≡ a (stored_of s i j).row (stored_of s i j).col }
{}

/// With blocks of size b, a zero block holds zeros alone, whatever is stored, and no other block does.
pub fn zero_blocks()
    ensures zeros { (s : Structure) (a : Table) (b r c : ℕ) → IsZero s (r / b) (c / b) → view s a r c ≡ 0 }
    ensures others { (s : Structure) (b i j : ℕ) → IsInside s i j → view s (λ _ _. 1) (i * b) (j * b) ≡ 1 }
{}

/// A diagonal block of a view is the view of the stored diagonal block. Any other block that is no zero block is the
/// block at the stored place, or the transpose of that block.
pub fn blocks_of_view()
    ensures diagonal { (s : Structure) (a : Table) (first r c : ℕ)
        → view s a (first + r) (first + c) ≡ view s (λ i j. a (first + i) (first + j)) r c }
    ensures others { (s : Structure) (a : Table) (b r c : ℕ) → IsInside s (r / b) (c / b) → r / b ≢ c / b
        → view s a r c ≡ oriented (stored_of s (r / b) (c / b)).transposed a r c }
{}

/// The transpose of a view is the view of the transpose, but a symmetric view is its own transpose.
pub fn transpose_of_view()
    ensures views { (s : Structure) (a : Table) (i j : ℕ) → s ≢ Symmetric
        → view (transpose_of s) (transpose a) i j ≡ transpose (view s a) i j }
    ensures symmetric { (a : Table) (i j : ℕ) → transpose (view Symmetric a) i j ≡ view Symmetric a i j }
    ensures zeros { (s : Structure) (i j : ℕ) → IsZero (transpose_of s) i j ↔ IsZero s j i }
    ensures twice { (s : Structure) → transpose_of (transpose_of s) ≡ s }
{}
