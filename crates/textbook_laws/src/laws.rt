//! A matrix that is cut in two. Each law is the contract of a function that does nothing.

ghost use Rattle.std.specs.Prelude.{◌≡◌, ◌↔◌, ℕ, List, []};
ghost use Rattle.residue_sums.specs.Grids.{entry};
ghost use Rattle.operation_spec.specs.declared.operation.Form.TheVariants.{Lu, Ldl};
ghost use Rattle.equation.specs.Equations.{right_side};
ghost use Rattle.block_values.specs.PartitionedEquations.{HaveValues};
ghost use Rattle.block_values.specs.Settings.{IsSetting};
ghost use Rattle.block_values.specs.Values.{Setting};
ghost use Rattle.textbook_laws.specs.Textbook.{IsLuInTwo, IsLdlInTwo, four_blocks};
ghost use Rattle.textbook_laws.specs.TwoParts.{IsInTwo};

/// The blocks of a matrix cut in two have values of their expressions, with all tasks done, exactly where the textbook's four equations
/// of LU hold. The right side is W, with the terms where the operation has any.
pub fn lu_in_two_is_the_textbooks()
    ensures plain { (s : Setting) (counts : List ℕ) (n0 n1 : ℕ) → IsSetting s counts
        → s.op.form ≡ Lu → IsInTwo s counts n0 n1 → s.op.terms ≡ []
        → HaveValues s counts ↔ IsLuInTwo s.modulus n0 n1
        (four_blocks n0 (entry s.work)) (four_blocks n0 (entry s.solution)) }
    ensures with_terms { (s : Setting) (counts : List ℕ) (n0 n1 : ℕ) → IsSetting s counts
        → s.op.form ≡ Lu → IsInTwo s counts n0 n1
        → HaveValues s counts ↔ IsLuInTwo s.modulus n0 n1
        (four_blocks n0 (right_side s.modulus s.op s.knowns s.work))
        (four_blocks n0 (entry s.solution)) }
{}

/// The same of LDL and its three equations on and below the diagonal.
pub fn ldl_in_two_is_the_textbooks()
    ensures plain { (s : Setting) (counts : List ℕ) (n0 n1 : ℕ) → IsSetting s counts
        → s.op.form ≡ Ldl → IsInTwo s counts n0 n1 → s.op.terms ≡ []
        → HaveValues s counts ↔ IsLdlInTwo s.modulus n0 n1
        (four_blocks n0 (entry s.work)) (four_blocks n0 (entry s.solution)) }
    ensures with_terms { (s : Setting) (counts : List ℕ) (n0 n1 : ℕ) → IsSetting s counts
        → s.op.form ≡ Ldl → IsInTwo s counts n0 n1
        → HaveValues s counts ↔ IsLdlInTwo s.modulus n0 n1
        (four_blocks n0 (right_side s.modulus s.op s.knowns s.work))
        (four_blocks n0 (entry s.solution)) }
{}
