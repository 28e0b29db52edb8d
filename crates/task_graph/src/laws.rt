//! What the definitions of tasks mean together. Each law is the contract of a function that does nothing.

ghost use Rattle.std.specs.Prelude.{◌≡◌, ◌≢◌, ◌⊎◌, ◌↔◌, ℕ, List, length, map, All, Contains, AllPairs, IsTrue};
ghost use Rattle.structure_rules.specs.declared.Structure.TheVariants.{Lower};
ghost use Rattle.operation_spec.specs.declared.operation.Operation.{Operation};
ghost use Rattle.operation_spec.specs.declared.operation.Form.TheVariants.{Ldl};
ghost use Rattle.operation_spec.specs.declared.task.Kind.TheVariants.{Solve};
ghost use Rattle.operation_spec.specs.declared.task.Task.{Task};
ghost use Rattle.operation_spec.specs.ValidOperations.{IsValid};
ghost use Rattle.task_graph.specs.declared.cut.Sides.{Sides};
ghost use Rattle.task_graph.specs.Classes.{class_of};
ghost use Rattle.task_graph.specs.Factors.{AreTriangular};
ghost use Rattle.task_graph.specs.Tasks.{has};
ghost use Rattle.task_graph.specs.Needs.{does_need};
ghost use Rattle.task_graph.specs.Order.{is_earlier, tasks_of};
ghost use Rattle.task_graph.specs.Reads.{blocks_read, solve_of, IsOtherOfBlock, IsDiagonalSolve};

/// The canonical order is a strict order in which of two different tasks one is before the other.
pub fn earlier_is_an_order()
    ensures irreflexive { (op : Operation) (a : Task) → ¬ (IsTrue (is_earlier op a a)) }
    ensures transitive { (op : Operation) (a b c : Task)
        → IsTrue (is_earlier op a b) → IsTrue (is_earlier op b c) → IsTrue (is_earlier op a c) }
    ensures total { (op : Operation) (a b : Task)
        → (a ≡ b) ⊎ (IsTrue (is_earlier op a b) ⊎ IsTrue (is_earlier op b a)) }
{}

/// The list of tasks has each task that the operation has, and no other, in canonical order and once. It has all where
/// W is lower in Ldl, and so for a valid operation.
pub fn tasks_are_those_that_exist()
    ensures existing { (op : Operation) (counts : List ℕ) (a : Task)
        → Contains (tasks_of op counts) a → IsTrue (has op counts a) }
    ensures all { (op : Operation) (counts : List ℕ) (a : Task)
        → (op.form ≡ Ldl → op.work.structure ≡ Lower)
        → IsTrue (has op counts a) → Contains (tasks_of op counts) a }
    ensures all_valid { (op : Operation) (counts : List ℕ) (a : Task) → IsValid op
        → IsTrue (has op counts a) → Contains (tasks_of op counts) a }
    ensures sorted { (op : Operation) (counts : List ℕ)
        → AllPairs (λ a b. IsTrue (is_earlier op a b)) (tasks_of op counts) }
    ensures once { (op : Operation) (counts : List ℕ)
        → AllPairs (λ a b. a ≢ b) (tasks_of op counts) }
{}

/// What a task needs comes before it in the canonical order, where the factors of the operation's form are triangular,
/// and so for a valid operation.
pub fn order_extends_needs()
    ensures triangular { (op : Operation) (counts : List ℕ) (a b : Task) → AreTriangular op
        → IsTrue (has op counts a) → IsTrue (does_need op a b) → IsTrue (is_earlier op b a) }
    ensures valid { (op : Operation) (counts : List ℕ) (a b : Task) → IsValid op
        → IsTrue (has op counts a) → IsTrue (does_need op a b) → IsTrue (is_earlier op b a) }
{}

/// What a task needs, of the tasks that its operation has. A task that solves no block needs exactly the solves of the
/// blocks of W that it reads, and in a valid operation each of these exists. A solve needs each other task of its block
/// and, off the diagonal in Lu and Ldl, the solve of the diagonal block of its row or column; it needs nothing else.
pub fn needs_are_what_is_read()
    ensures updates { (op : Operation) (counts : List ℕ) (a b : Task)
        → IsTrue (has op counts b) → a.kind ≢ Solve
        → (IsTrue (does_need op a b) ↔ Contains (map solve_of (blocks_read op a)) b) }
    ensures read { (op : Operation) (counts : List ℕ) (a : Task)
        → IsValid op → IsTrue (has op counts a)
        → All (λ block. IsTrue (has op counts (solve_of block))) (blocks_read op a) }
    ensures solves { (op : Operation) (counts : List ℕ) (a b : Task)
        → IsTrue (has op counts a) → IsTrue (has op counts b) → a.kind ≡ Solve
        → (IsTrue (does_need op a b) ↔ (IsOtherOfBlock a b ⊎ IsDiagonalSolve op.form a b)) }
{}

/// Where a task needs another one, its class under a coarser cut needs the class of that one, or the two are one class.
pub fn needs_pass_to_classes()
    ensures { (op : Operation) (cut : List Sides) (counts : List ℕ) (a b : Task)
        → IsValid op → length cut ≡ length op.dims
        → IsTrue (has op counts a) → IsTrue (has op counts b) → IsTrue (does_need op a b)
        → (class_of op cut a ≡ class_of op cut b)
        ⊎ IsTrue (does_need op (class_of op cut a) (class_of op cut b)) }
{}
