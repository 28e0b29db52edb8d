//! What the definitions of worksheet texts mean together. Each law is the contract of a function that does nothing.

ghost use Rattle.std.specs.Prelude.{◌≡◌, ℕ, List, Ok, Some};
ghost use Rattle.text_scan.specs.declared.Rest.{Rest};
ghost use Rattle.operation_spec.specs.declared.operation.Operation.{Operation};
ghost use Rattle.worksheet.specs.declared.sheet.Worksheet.{Worksheet};
ghost use Rattle.worksheet_text.specs.SheetReading.{operation_named, worksheet_in};

/// A worksheet that was read is one of the operations: of the first one with its name.
pub fn read_worksheets_have_operations()
    ensures { (bytes : List ℕ) (rest : Rest) (operations : List Operation) (w : Worksheet)
        → worksheet_in bytes rest operations ≡ Ok w
        → (op : Operation) × (operation_named operations w.operation ≡ Some op) }
{}
