//! What the definitions of equations, pivots and meanings mean together. Each law is the contract of a function
//! that does nothing.

ghost use Rattle.std.specs.Prelude.{◌≡◌, ◌<◌, ◌⊎◌, ℕ, Bool, List, All};
ghost use Rattle.residue_sums.specs.Residues.{IsModulus, IsUnit};
ghost use Rattle.residue_sums.specs.Tables.{Table, oriented};
ghost use Rattle.residue_sums.specs.Grids.{AreResidues, Grid, entry};
ghost use Rattle.structure_rules.specs.declared.Structure.{Structure};
ghost use Rattle.structure_rules.specs.Structures.{IsTriangular, IsWorkStructure, view};
ghost use Rattle.operation_spec.specs.declared.operation.Operation.{Operation};
ghost use Rattle.operation_spec.specs.declared.operation.Binding.{Binding};
ghost use Rattle.operation_spec.specs.declared.operation.Factor.{Factor};
ghost use Rattle.operation_spec.specs.declared.operation.Form.TheVariants.{Assign, Left, Right, Sylvester, Lu, Ldl};
ghost use Rattle.operation_spec.specs.ValidOperations.{IsValid};
ghost use Rattle.equation.specs.declared.job.Job.{Job};
ghost use Rattle.equation.specs.declared.job.Place.{Place};
ghost use Rattle.equation.specs.Equations.{Satisfies, factor_table};
ghost use Rattle.equation.specs.Jobs.{Fits, IsJob, known_grids, nth_grid};
ghost use Rattle.equation.specs.Kernels.{combined, AreInverses, AreInversesOfPairs, HasRightSide};
ghost use Rattle.equation.specs.Kernels.{IsFactoredLdl, IsFactoredLu, IsSolvedLeft, IsSolvedRight};
ghost use Rattle.equation.specs.Kernels.{IsSolvedRightLdl, IsSolvedSylvester, IsUpdated, IsUpdatedLdl};
ghost use Rattle.equation.specs.Meanings.{IsAssignment, Means, MeansBadPivot};
ghost use Rattle.equation.specs.Pivots.{IsBadForLdl, IsBadForLu, IsFirstBadPivot, IsUnitFactor};

/// Of an operation of the form `X = R` one matrix at most satisfies the equation.
pub fn assignments_have_one_solution()
    ensures { (m : ℕ) (op : Operation) (knowns : List Grid) (work x y : Grid) → op.form ≡ Assign
        → Satisfies m op knowns work x → Satisfies m op knowns work y → x ≡ y }
{}

/// Of an operation of the form `X = R` some matrix satisfies the equation, where the work matrix holds residues.
pub fn some_assignment_is_satisfied()
    ensures { (m : ℕ) (op : Operation) (knowns : List Grid) (work : Grid) → 0 < m → op.form ≡ Assign
        → AreResidues m work
        → (x : Grid) × Satisfies m op knowns work x }
{}

/// An operation of the form `X = R` has no bad pivot.
pub fn assignments_have_no_bad_pivot()
    ensures { (m : ℕ) (op : Operation) (knowns : List Grid) (work : Grid) (place : Place)
        → op.form ≡ Assign
        → ¬ (IsFirstBadPivot m op knowns work place) }
{}

/// A triangular factor of a unit structure has no bad pivot, whatever its matrix holds.
pub fn unit_factors_have_no_bad_pivot()
    ensures { (m : ℕ) (op : Operation) (knowns : List Grid) (work : Grid) (place : Place)
        (t : Factor) → IsModulus m
        → (op.form ≡ Left t) ⊎ (op.form ≡ Right t) → IsUnitFactor op t → ¬ (IsFirstBadPivot m op knowns work place) }
{}

/// An operation of any form has one first bad pivot at most, whatever the matrices hold.
pub fn first_bad_pivot_is_unique()
    ensures { (m : ℕ) (op : Operation) (knowns : List Grid) (work : Grid) (place other : Place)
        → IsModulus m
        → IsFirstBadPivot m op knowns work place → IsFirstBadPivot m op knowns work other → place ≡ other }
{}

/// Where an operation has no bad pivot for the matrices that it is bound to, at most one matrix satisfies its
/// equation, and there is one.
pub fn statements_have_one_solution()
    ensures one { (m : ℕ) (op : Operation) (grids : List Grid) (bind : Binding) (x y : Grid)
        → IsModulus m → IsValid op → Fits op grids bind
        → All (AreResidues m) grids
        → ((place : Place) → ¬ (IsFirstBadPivot m op (known_grids grids bind) (nth_grid grids bind.work) place))
        → Satisfies m op (known_grids grids bind) (nth_grid grids bind.work) x
        → Satisfies m op (known_grids grids bind) (nth_grid grids bind.work) y → x ≡ y }
    ensures some { (m : ℕ) (op : Operation) (grids : List Grid) (bind : Binding) → IsModulus m
        → IsValid op → Fits op grids bind
        → All (AreResidues m) grids
        → ((place : Place) → ¬ (IsFirstBadPivot m op (known_grids grids bind) (nth_grid grids bind.work) place))
        → (x : Grid) × Satisfies m op (known_grids grids bind) (nth_grid grids bind.work) x }
{}

/// A valid job has one meaning at most: one list of matrices, or one first bad pivot, and never both.
pub fn meaning_is_unique()
    ensures matrices { (job : Job) (a b : List Grid) → IsJob job → Means job a → Means job b
        → a ≡ b }
    ensures pivots { (job : Job) (number other : ℕ) (place there : Place) → IsJob job
        → MeansBadPivot job number place → MeansBadPivot job other there
        → (number ≡ other) × (place ≡ there) }
    ensures apart { (job : Job) (a : List Grid) (number : ℕ) (place : Place) → IsJob job
        → Means job a → MeansBadPivot job number place → ⊥ }
{}

/// A valid job has a meaning: the matrices that it leaves, or its first bad pivot. With the law above it means
/// exactly one thing.
pub fn jobs_have_a_meaning()
    ensures { (job : Job) → IsJob job → ((after : List Grid) × Means job after)
        ⊎ ((number : ℕ) × (place : Place) × MeansBadPivot job number place) }
{}

/// A job of statements of the form `X = R` has one meaning at most, and it is no bad pivot, whether the job is valid or not.
pub fn meaning_is_unique_for_assignments()
    ensures one { (job : Job) (a b : List Grid) → All (IsAssignment job) job.statements
        → Means job a → Means job b → a ≡ b }
    ensures pivots { (job : Job) (number : ℕ) (place : Place)
        → All (IsAssignment job) job.statements → ¬ (MeansBadPivot job number place) }
{}

/// A valid job of statements of the form `X = R` has a meaning. With the law above it has just one.
pub fn assignments_have_a_meaning()
    ensures { (job : Job) → IsJob job → All (IsAssignment job) job.statements
        → (after : List Grid) × Means job after }
{}

/// An update leaves one value of a block.
pub fn updates_have_one_value()
    ensures products { (m : ℕ) (negative : Bool) (s : Structure) (n : ℕ) (a b : Table)
        (old x y : Grid)
        → IsUpdated m negative s n a b old x → IsUpdated m negative s n a b old y → x ≡ y }
    ensures ldl { (m : ℕ) (s : Structure) (n : ℕ) (a d b : Table) (old x y : Grid)
        → IsUpdatedLdl m s n a d b old x → IsUpdatedLdl m s n a d b old y → x ≡ y }
{}

/// A solve with a triangular factor, perhaps transposed, leaves one value of a block, where the diagonal that it reads has units.
pub fn solves_have_one_value()
    ensures left { (m : ℕ) (s k : Structure) (primed : Bool) (a : Table) (old x y : Grid)
        → IsModulus m → IsWorkStructure s → IsTriangular k
        → ((i : ℕ) → i < old.rows → IsUnit m (oriented primed (view k a) i i))
        → IsSolvedLeft m s (oriented primed (view k a)) old x → IsSolvedLeft m s (oriented primed (view k a)) old y → x ≡ y }
    ensures right { (m : ℕ) (s k : Structure) (primed : Bool) (a : Table) (old x y : Grid)
        → IsModulus m → IsWorkStructure s → IsTriangular k
        → ((j : ℕ) → j < old.cols → IsUnit m (oriented primed (view k a) j j))
        → IsSolvedRight m s (oriented primed (view k a)) old x → IsSolvedRight m s (oriented primed (view k a)) old y → x ≡ y }
    ensures ldl { (m : ℕ) (f : Table) (old x y : Grid) → IsModulus m
        → ((j : ℕ) → j < old.cols → IsUnit m (f j j))
        → IsSolvedRightLdl m f old x → IsSolvedRightLdl m f old y → x ≡ y }
{}

/// A solve with two triangular factors leaves one value of a block, where the sums of the entries on their diagonals, or the
/// differences, are units.
pub fn sylvester_solves_have_one_value()
    ensures { (m : ℕ) (negative : Bool) (k l : Structure) (first second : Bool) (a b : Table)
        (old x y : Grid)
        → IsModulus m → IsTriangular k → IsTriangular l → ((j : ℕ) → j < old.cols → oriented second (view l b) j j < m)
        → ((i j : ℕ) → i < old.rows → j < old.cols
        → IsUnit m (combined m negative (λ i j. oriented first (view k a) i i) (λ i j. oriented second (view l b) j j) i j))
        → IsSolvedSylvester m negative (oriented first (view k a)) (oriented second (view l b)) old x
        → IsSolvedSylvester m negative (oriented first (view k a)) (oriented second (view l b)) old y → x ≡ y }
{}

/// A square block has one value of its factors, where none of its leading blocks has its first bad pivot last.
pub fn factors_have_one_value()
    ensures lu { (m : ℕ) (old x y : Grid) → IsModulus m → old.rows ≡ old.cols
        → ((k : ℕ) → k < old.rows → ¬ (IsBadForLu m (entry old) k))
        → IsFactoredLu m old x → IsFactoredLu m old y → x ≡ y }
    ensures ldl { (m : ℕ) (old x y : Grid) → IsModulus m → old.rows ≡ old.cols
        → ((k : ℕ) → k < old.rows → ¬ (IsBadForLdl m (entry old) k))
        → IsFactoredLdl m old x → IsFactoredLdl m old y → x ≡ y }
{}

/// Inverses of pivots have one value.
pub fn inverses_have_one_value()
    ensures pivots { (m : ℕ) (t : Table) (old x y : Grid) → AreInverses m t old x
        → AreInverses m t old y → x ≡ y }
    ensures pairs { (m : ℕ) (negative : Bool) (t u : Table) (old x y : Grid)
        → AreInversesOfPairs m negative t u old x
        → AreInversesOfPairs m negative t u old y → x ≡ y }
{}

/// What the kernel of an operation's form leaves of the right side satisfies the equation of the operation.
pub fn kernels_satisfy_equations()
    ensures assign { (m : ℕ) (op : Operation) (knowns : List Grid) (work r : Grid) → IsValid op
        → HasRightSide m op knowns work r
        → op.form ≡ Assign → Satisfies m op knowns work r }
    ensures left { (m : ℕ) (op : Operation) (knowns : List Grid) (work r x : Grid) (t : Factor)
        → IsValid op → HasRightSide m op knowns work r
        → op.form ≡ Left t → IsSolvedLeft m op.work.structure (factor_table op knowns t) r x → Satisfies m op knowns work x }
    ensures right { (m : ℕ) (op : Operation) (knowns : List Grid) (work r x : Grid) (t : Factor)
        → IsValid op → HasRightSide m op knowns work r
        → op.form ≡ Right t → IsSolvedRight m op.work.structure (factor_table op knowns t) r x → Satisfies m op knowns work x }
    ensures sylvester { (m : ℕ) (op : Operation) (knowns : List Grid) (work r x : Grid)
        (t u : Factor) (negative : Bool) → IsValid op
        → HasRightSide m op knowns work r → op.form ≡ Sylvester t u negative
        → IsSolvedSylvester m negative (factor_table op knowns t) (factor_table op knowns u) r x → Satisfies m op knowns work x }
    ensures lu { (m : ℕ) (op : Operation) (knowns : List Grid) (work r x : Grid) → IsValid op
        → HasRightSide m op knowns work r
        → r.rows ≡ r.cols → op.form ≡ Lu → IsFactoredLu m r x → Satisfies m op knowns work x }
    ensures ldl { (m : ℕ) (op : Operation) (knowns : List Grid) (work r x : Grid) → IsValid op
        → HasRightSide m op knowns work r
        → r.rows ≡ r.cols → op.form ≡ Ldl → IsFactoredLdl m r x → Satisfies m op knowns work x }
{}
