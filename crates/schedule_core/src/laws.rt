//! What the definitions of schedules mean together. Each law is the contract of a function that does nothing.

ghost use Rattle.std.specs.Prelude.{◌≡◌, ◌<◌, ◌≤◌, ◌-◌, ◌*◌, ◌++◌, ◌∷◌, ◌&&◌, ◌↔◌, ℕ, List, [], IsTrue, false, true, length, map, sum};
ghost use Rattle.std.specs.List.{range_with_len};
ghost use Rattle.dependence_queue.specs.declared.access.Access.{Access};
ghost use Rattle.dependence_queue.specs.Chains.{IsConflict};
ghost use Rattle.dependence_queue.specs.Conflicts.{IsDirectEdge};
ghost use Rattle.dependence_queue.specs.Edges.{count_into, edge_number, edges_of};
ghost use Rattle.schedule_core.specs.declared.event.Event.{Event};
ghost use Rattle.schedule_core.specs.declared.event.Event.TheVariants.{Finish, Start};
ghost use Rattle.schedule_core.specs.Schedules.{IsBegun, IsSchedule, ended_writes, has_event, in_order, is_begun, is_schedule, may_come};
ghost use Rattle.schedule_core.specs.Schedules.{uses_block, writes_upto};

/// The tests tell which lists are schedules, and which ones some schedule begins with.
pub fn tests_tell_schedules()
    ensures whole { (accesses : ℕ → Access) (n : ℕ) (events : List Event)
        → (IsTrue (is_schedule accesses n events) ↔ IsSchedule accesses n events) }
    ensures begun { (accesses : ℕ → Access) (n : ℕ) (events : List Event)
        → (IsTrue (is_begun accesses n events) ↔ IsBegun accesses n events) }
{}

/// What some schedule begins with grows by the events that may come next.
pub fn beginnings_grow_by_events()
    ensures none { (accesses : ℕ → Access) (n : ℕ) → is_begun accesses n [] ≡ true }
    ensures next { (accesses : ℕ → Access) (n : ℕ) (events : List Event) (e : Event)
        → is_begun accesses n (events ++ e ∷ [])
        ≡ (is_begun accesses n events && may_come accesses n events e) }
{}

/// The beginning and then the end of each step, in their order, is a schedule.
pub fn steps_in_order_are_a_schedule()
    ensures { (accesses : ℕ → Access) (n : ℕ) → IsSchedule accesses n (in_order n) }
{}

/// A step that has begun comes behind the end of each earlier step that it conflicts with, so of two steps that have begun and
/// haven't ended none conflicts with the other. Where a step has begun and hasn't ended, those writes of a block that it uses
/// have ended that come before it in the order of the steps, and no others.
pub fn running_steps_do_not_conflict()
    ensures ended { (accesses : ℕ → Access) (n : ℕ) (events : List Event)
        → IsTrue (is_begun accesses n events) → (s t : ℕ) → 0 < s → IsConflict accesses s t
        → IsTrue (has_event events (Start t)) → IsTrue (has_event events (Finish s)) }
    ensures writes { (accesses : ℕ → Access) (n : ℕ) (events : List Event)
        → IsTrue (is_begun accesses n events) → (t x : ℕ) → IsTrue (has_event events (Start t))
        → has_event events (Finish t) ≡ false → IsTrue (uses_block (accesses t) x)
        → ended_writes accesses events x n ≡ writes_upto accesses x (t - 1) }
{}

/// A step that hasn't begun may begin exactly when all steps have ended from which a direct edge goes into it.
pub fn edges_tell_which_step_may_begin()
    ensures { (accesses : ℕ → Access) (n : ℕ) (events : List Event)
        → IsTrue (is_begun accesses n events) → (t : ℕ) → 0 < t → t ≤ n
        → has_event events (Start t) ≡ false → (IsTrue (may_come accesses n events (Start t))
        ↔ ((s : ℕ) → 0 < s → IsDirectEdge accesses s t → IsTrue (has_event events (Finish s)))) }
{}

/// The list of direct edges is as long as there are pairs of steps with a direct edge from the earlier to the later one: each
/// edge is counted at the step that it goes into. So n steps have at most n * (n - 1) / 2 edges.
pub fn direct_edges_are_counted()
    ensures into { (accesses : List Access) → length (edges_of accesses)
        ≡ sum (map (λ t. count_into (edges_of accesses) t) (range_with_len 1 (length accesses))) }
    ensures pairs { (accesses : List Access) → length (edges_of accesses)
        ≡ sum (map (λ t. sum (map (λ s. edge_number accesses s t)
        (range_with_len 1 (length accesses)))) (range_with_len 1 (length accesses))) }
    ensures few { (accesses : List Access)
        → length (edges_of accesses) * 2 ≤ length accesses * (length accesses - 1) }
{}
