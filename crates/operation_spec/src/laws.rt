//! What the definitions of operation texts mean together. Each law is the contract of a function that does
//! nothing.

ghost use Rattle.std.specs.Prelude.{◌≡◌, ℕ, List, [], Ok, All, IsTrue};
ghost use Rattle.text_scan.specs.declared.token.Token.{Token};
ghost use Rattle.text_scan.specs.LineOrder.{AreLines};
ghost use Rattle.text_scan.specs.Lines.{Line, lines_of};
ghost use Rattle.text_scan.specs.NormalTexts.{is_line, lines_text};
ghost use Rattle.text_scan.specs.Tokens.{tokens_of};
ghost use Rattle.operation_spec.specs.declared.operation.Operation.{Operation};
ghost use Rattle.operation_spec.specs.OperationFaults.{operation_at};
ghost use Rattle.operation_spec.specs.OperationLines.{operation_lines};
ghost use Rattle.operation_spec.specs.ValidOperations.{HasNames, IsValid, SpellsOperation};

/// Lines that spell an operation have no fault, and are read as that operation.
pub fn spelled_operations_are_read()
    ensures { (end : ℕ) (lines : List Line) (op : Operation) (rest : List Line) → AreLines end lines
        → SpellsOperation lines op rest → operation_at end lines ≡ Ok (op, rest) }
{}

/// What is read without a fault is valid, and spelled so, each line of it.
pub fn read_operations_are_spelled()
    ensures { (end : ℕ) (lines : List Line) (op : Operation) (rest : List Line) → AreLines end lines
        → operation_at end lines ≡ Ok (op, rest) → SpellsOperation lines op rest }
{}

/// Each line of an operation that has names and dimensions has words, so that its normal text can be read again.
pub fn printed_operations_are_lines()
    ensures { (op : Operation) → IsValid op → HasNames op
        → All (λ words. IsTrue (is_line words)) (operation_lines op) }
{}

/// Scanning the normal text of a valid operation with names gives lines that spell it.
pub fn printed_operations_are_spelled()
    ensures { (op : Operation) → IsValid op → HasNames op → (tokens : List Token)
        × (tokens_of 1 (lines_text (operation_lines op)) ≡ Ok tokens)
        × SpellsOperation (lines_of (lines_text (operation_lines op)) tokens) op [] }
{}
