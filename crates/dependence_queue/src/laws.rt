//! What the definitions of conflicts and edges mean together. Each law is the contract of a function that does nothing.

ghost use Rattle.std.specs.Prelude.{◌<◌, ◌⊎◌, ℕ, IsTrue};
ghost use Rattle.dependence_queue.specs.declared.access.Access.{Access};
ghost use Rattle.dependence_queue.specs.Conflicts.{ConflictOn, IsDirectEdge, conflicts};

/// Two steps conflict exactly where they do so on some block.
pub fn conflicts_are_on_blocks()
    ensures some { (a c : Access) → IsTrue (conflicts a c) → (x : ℕ) × ConflictOn a c x }
    ensures any { (a c : Access) (x : ℕ) → ConflictOn a c x → IsTrue (conflicts a c) }
{}

/// A direct edge goes from a step to a later one that it conflicts with. Where an earlier step conflicts with a later one,
/// there is a direct edge into the later one: from the earlier one, or from a step between that conflicts with the
/// earlier one.
pub fn conflicts_come_in_by_edges()
    ensures conflicts { (accesses : ℕ → Access) (s t : ℕ) → IsDirectEdge accesses s t
        → (s < t) × IsTrue (conflicts (accesses s) (accesses t)) }
    ensures edges { (accesses : ℕ → Access) (s t : ℕ) → s < t → IsTrue (conflicts (accesses s) (accesses t))
        → IsDirectEdge accesses s t
        ⊎ ((r : ℕ) × (s < r) × (r < t) × IsTrue (conflicts (accesses s) (accesses r)) × IsDirectEdge accesses r t) }
{}
