//! What the definitions of worksheets mean together. Each law is the contract of a function that does nothing.

ghost use Rattle.std.specs.Prelude.{◌≡◌, ◌⊎◌, ◌↔◌, List, Contains, IsTrue};
ghost use Rattle.operation_spec.specs.declared.operation.Operation.{Operation};
ghost use Rattle.operation_spec.specs.declared.split.Split.{Split};
ghost use Rattle.operation_spec.specs.declared.split.Dirs.{Dirs};
ghost use Rattle.operation_spec.specs.declared.task.Task.{Task};
ghost use Rattle.operation_spec.specs.ValidOperations.{IsValid};
ghost use Rattle.task_graph.specs.Order.{tasks_of};
ghost use Rattle.invariant_family.specs.Splits.{two_parts, three_parts};
ghost use Rattle.invariant_family.specs.Feasible.{is_feasible};
ghost use Rattle.invariant_family.specs.Sublists.{IsSublist};
ghost use Rattle.worksheet.specs.declared.sheet.Worksheet.{Worksheet};
ghost use Rattle.worksheet.specs.Moments.{cut_before, cut_after, is_done, updates_of};
ghost use Rattle.worksheet.specs.Worksheets.{worksheet_of, Valid};

/// The worksheet of a feasible set of tasks in canonical order is valid, for a valid operation. Any other valid worksheet
/// of the operation differs from it in the order of its updates alone.
pub fn valid_worksheets_are_made()
    ensures made { (op : Operation) (split : Split) (dirs : Dirs) (s : List Task) → IsValid op
        → IsSublist s (tasks_of op (two_parts op split)) → IsTrue (is_feasible op split dirs s)
        → Valid op (worksheet_of op split dirs s) }
    ensures others { (op : Operation) (w : Worksheet) → Valid op w → w.operation ≡ op.name
        → record w { updates = updates_of op w.split w.dirs w.invariant }
        ≡ worksheet_of op w.split w.dirs w.invariant }
{}

/// In a valid worksheet what is done after is what was done before and the updates.
pub fn updates_lead_on()
    ensures { (op : Operation) (w : Worksheet) (a : Task) → Valid op w
        → Contains (tasks_of op (three_parts op w.split)) a
        → (IsTrue (is_done op w.invariant (cut_after op w.split w.dirs) a)
        ↔ (IsTrue (is_done op w.invariant (cut_before op w.split w.dirs) a)
        ⊎ Contains w.updates a)) }
{}
