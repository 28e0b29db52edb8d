//! What the list of edges, and chains of edges, mean. Each law is the contract of a function that does nothing.

ghost use Rattle.std.specs.Prelude.{◌≡◌, ◌<◌, ◌≤◌, ◌↔◌, ℕ, List, length, map, sum, All, AllPairs, Bool, IsTrue};
ghost use Rattle.std.specs.List.{range_with_len};
ghost use Rattle.dependence_queue.specs.declared.access.Access.{Access};
ghost use Rattle.dependence_queue.specs.Conflicts.{IsDirectEdge};
ghost use Rattle.dependence_queue.specs.Edges.{access_at, edges_of, has_edge, joins, edge_number, count_into, HasItsKinds, IsOrdered};
ghost use Rattle.dependence_queue.specs.Chains.{IsConflict, IsEdgeIn, Reaches};

/// The list of edges has exactly the direct edges between steps of the list of accesses, with their kinds, by the earlier
/// step and then the later one, so each once.
pub fn edges_are_the_direct_ones()
    ensures direct { (accesses : List Access) (s t : ℕ) → 0 < s → t ≤ length accesses
        → (IsTrue (has_edge (edges_of accesses) s t) ↔ IsDirectEdge (access_at accesses) s t) }
    ensures kinds { (accesses : List Access) → All (HasItsKinds (access_at accesses)) (edges_of accesses) }
    ensures steps { (accesses : List Access)
        → All (λ e. (0 < e.from) × (e.from < e.to) × (e.to ≤ length accesses)) (edges_of accesses) }
    ensures ordered { (accesses : List Access) → AllPairs IsOrdered (edges_of accesses) }
    ensures test { (accesses : List Access) (s t : ℕ)
        → has_edge (edges_of accesses) s t ≡ joins accesses s t }
{}

/// A step is reached over direct edges from an earlier one exactly where a chain of conflicts joins them. So every conflict
/// is a path of direct edges.
pub fn edges_reach_what_conflicts_reach()
    ensures conflicts { (accesses : ℕ → Access) (s t : ℕ) → IsConflict accesses s t
        → Reaches (IsDirectEdge accesses) s t }
    ensures chains { (accesses : ℕ → Access) (s t : ℕ)
        → (Reaches (IsDirectEdge accesses) s t ↔ Reaches (IsConflict accesses) s t) }
    ensures listed { (accesses : List Access) (s t : ℕ) → 0 < s → t ≤ length accesses
        → (Reaches (IsEdgeIn (edges_of accesses)) s t ↔ Reaches (IsConflict (access_at accesses)) s t) }
    ensures upward { (accesses : List Access) (s t : ℕ)
        → Reaches (IsEdgeIn (edges_of accesses)) s t → s < t }
{}

/// A mark that passes over conflicts comes into a step by a direct edge: where step s is marked, each conflict from s on and
/// before t passes the mark on, and s conflicts with t, then a direct edge goes into t from a marked step.
pub fn marks_come_in_by_edges()
    ensures { (accesses : ℕ → Access) (marked : ℕ → Bool) (s t : ℕ)
        → ((q r : ℕ) → s ≤ q → r < t → IsTrue (marked q) → IsConflict accesses q r → IsTrue (marked r))
        → IsTrue (marked s) → IsConflict accesses s t
        → (r : ℕ) × (s ≤ r) × IsTrue (marked r) × IsDirectEdge accesses r t }
{}

/// The edges into a step are counted step by step. They are fewer than the steps, and a step without any conflicts with no
/// earlier one.
pub fn edges_into_a_step_are_counted()
    ensures sum { (accesses : List Access) (t : ℕ) → count_into (edges_of accesses) t
        ≡ sum (map (λ s. edge_number accesses s t) (range_with_len 1 (length accesses))) }
    ensures few { (accesses : List Access) (t : ℕ)
        → count_into (edges_of accesses) t ≤ length accesses }
    ensures none { (accesses : List Access) (s t : ℕ) → 0 < s → t ≤ length accesses
        → count_into (edges_of accesses) t ≡ 0 → ¬ (IsConflict (access_at accesses) s t) }
{}
