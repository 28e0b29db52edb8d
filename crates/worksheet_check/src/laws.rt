//! What the table of verdicts means. Each law is the contract of a function that does nothing.

ghost use Rattle.std.specs.Prelude.{◌≡◌, ◌↔◌, IsTrue};
ghost use Rattle.operation_spec.specs.declared.operation.Operation.{Operation};
ghost use Rattle.worksheet.specs.declared.sheet.Worksheet.{Worksheet};
ghost use Rattle.worksheet.specs.declared.verdict.Shown.{Shown};
ghost use Rattle.worksheet.specs.declared.verdict.Verdict.TheVariants.{Right, Wrong};
ghost use Rattle.worksheet.specs.declared.verdict.WsPlace.{WsPlace};
ghost use Rattle.worksheet.specs.Worksheets.{Valid};
ghost use Rattle.worksheet_check.specs.Places.{is_before, IsRightAt};
ghost use Rattle.worksheet_check.specs.Verdicts.{verdict_of};

/// No place is wrong exactly where the worksheet is valid.
pub fn right_is_valid()
    ensures { (op : Operation) (w : Worksheet) → (verdict_of op w ≡ Right) ↔ Valid op w }
{}

/// The place that a verdict names is wrong, and every place before it is right.
pub fn verdicts_name_the_first_wrong_place()
    ensures wrong { (op : Operation) (w : Worksheet) (place : WsPlace) (found due : Shown)
        → verdict_of op w ≡ Wrong place found due → ¬ (IsRightAt op w place) }
    ensures before { (op : Operation) (w : Worksheet) (place : WsPlace) (found due : Shown)
        (earlier : WsPlace) → verdict_of op w ≡ Wrong place found due
        → IsTrue (is_before earlier place) → IsRightAt op w earlier }
{}
