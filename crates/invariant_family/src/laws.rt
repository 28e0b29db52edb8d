//! What the definitions of families mean together. Each law is the contract of a function that does nothing.

ghost use Rattle.std.specs.Prelude.{◌≡◌, ◌≢◌, ℕ, ◌+◌, ◌<◌, ◌≤◌, List, length, slice_index_or, All, AllPairs, Contains, IsTrue, Some};
ghost use Rattle.operation_spec.specs.declared.operation.Operation.{Operation};
ghost use Rattle.operation_spec.specs.declared.split.Split.{Split};
ghost use Rattle.operation_spec.specs.declared.split.Dirs.{Dirs};
ghost use Rattle.operation_spec.specs.declared.task.Task.{Task};
ghost use Rattle.operation_spec.specs.Splits.{IsSplit};
ghost use Rattle.operation_spec.specs.ValidOperations.{IsValid};
ghost use Rattle.task_graph.specs.Order.{tasks_of};
ghost use Rattle.invariant_family.specs.declared.variant.Variant.{Variant};
ghost use Rattle.invariant_family.specs.Splits.{two_parts, three_parts, directions_of};
ghost use Rattle.invariant_family.specs.Feasible.{is_feasible};
ghost use Rattle.invariant_family.specs.Families.{Invariant, invariant_of, invariant_of_variant, feasible_sets, invariants_along, numbered_from, family_of, variant_numbered};
ghost use Rattle.invariant_family.specs.Sublists.{IsSublist, set_number};

/// Where a loop cuts a valid operation, it has at most 36 tasks in two parts, and 117 in three: four blocks of at most
/// nine, and nine of at most 13. So they are never too many to list, and the number of a set has at most 36 bits.
pub fn cuts_have_few_tasks()
    ensures two { (op : Operation) (split : Split) → IsValid op
        → length (tasks_of op (two_parts op split)) ≤ 36 }
    ensures three { (op : Operation) (split : Split) → IsValid op
        → length (tasks_of op (three_parts op split)) ≤ 117 }
{}

/// Each loop invariant along splits is feasible, and keeps tasks of the cut in two parts in canonical order. It goes along
/// one of the splits, in one of its directions.
pub fn invariants_are_feasible()
    ensures feasible { (op : Operation) (splits : List Split)
        → All (λ v. IsTrue (is_feasible op v.split v.dirs v.kept)) (invariants_along op splits) }
    ensures in_order { (op : Operation) (splits : List Split)
        → All (λ v. IsSublist v.kept (tasks_of op (two_parts op v.split)))
        (invariants_along op splits) }
    ensures along { (op : Operation) (splits : List Split)
        → All (λ v. Contains splits v.split × Contains (directions_of v.split) v.dirs)
        (invariants_along op splits) }
{}

/// Each feasible set of such tasks, for one of the splits in one of its directions, is kept by a loop invariant.
pub fn feasible_sets_are_kept()
    ensures { (op : Operation) (splits : List Split) (split : Split) (dirs : Dirs) (s : List Task)
        → Contains splits split → Contains (directions_of split) dirs
        → IsSublist s (tasks_of op (two_parts op split)) → IsTrue (is_feasible op split dirs s)
        → Contains (invariants_along op splits) (invariant_of split dirs s) }
{}

/// The sets of a split and its directions come by ascending number, and no loop invariant stands twice, where no
/// split does.
pub fn invariants_come_in_order()
    ensures by_number { (op : Operation) (split : Split) (dirs : Dirs)
        → AllPairs (λ a b. set_number (tasks_of op (two_parts op split)) a
        < set_number (tasks_of op (two_parts op split)) b) (feasible_sets op split dirs) }
    ensures once { (op : Operation) (splits : List Split)
        → AllPairs (λ a b. a ≢ b) splits → AllPairs (λ u v. u ≢ v) (invariants_along op splits) }
{}

/// The variants are those loop invariants, numbered one by one from the first number.
pub fn variants_are_numbered()
    ensures count { (n : ℕ) (invariants : List Invariant)
        → length (numbered_from n invariants) ≡ length invariants }
    ensures numbers { (n : ℕ) (invariants : List Invariant) (k : ℕ) (d : Variant)
        → k < length invariants → (slice_index_or (numbered_from n invariants) k d).number ≡ n + k }
    ensures kept { (n : ℕ) (invariants : List Invariant) (k : ℕ) (d : Variant) (e : Invariant)
        → k < length invariants
        → invariant_of_variant (slice_index_or (numbered_from n invariants) k d)
        ≡ slice_index_or invariants k e }
{}

/// The family: each variant goes along one dimension of the operation, or along two in declared order, in one of their
/// directions, and keeps a feasible set of tasks in canonical order. Each such set is kept by a variant, and no two
/// variants keep one set along one split in the same directions. They are numbered from 1.
pub fn family_is_exact()
    ensures feasible { (op : Operation)
        → All (λ v. IsTrue (is_feasible op v.split v.dirs v.kept)) (family_of op) }
    ensures in_order { (op : Operation)
        → All (λ v. IsSublist v.kept (tasks_of op (two_parts op v.split))) (family_of op) }
    ensures along { (op : Operation)
        → All (λ v. IsSplit op v.split × Contains (directions_of v.split) v.dirs) (family_of op) }
    ensures complete { (op : Operation) (split : Split) (dirs : Dirs) (s : List Task)
        → IsSplit op split → Contains (directions_of split) dirs
        → IsSublist s (tasks_of op (two_parts op split)) → IsTrue (is_feasible op split dirs s)
        → (v : Variant) × Contains (family_of op) v
        × (invariant_of_variant v ≡ invariant_of split dirs s) }
    ensures once { (op : Operation)
        → AllPairs (λ u v. invariant_of_variant u ≢ invariant_of_variant v) (family_of op) }
    ensures numbers { (op : Operation) (k : ℕ) (d : Variant) → k < length (family_of op)
        → (slice_index_or (family_of op) k d).number ≡ 1 + k }
{}

/// The numbers of a family are 1 to its length, and each finds its variant.
pub fn numbers_find_variants()
    ensures found { (op : Operation) (number : ℕ) → 1 ≤ number → number ≤ length (family_of op)
        → (v : Variant) × (variant_numbered (family_of op) number ≡ Some v) × (v.number ≡ number) }
    ensures each { (op : Operation)
        → All (λ v. variant_numbered (family_of op) v.number ≡ Some v) (family_of op) }
{}
