//! The names of operands, and their numbers.

ghost use Rattle.std.specs.Prelude.{◌≡◌, ◌≤◌, ◌+◌, length, not};
ghost use Rattle.std.specs.List.{prefix_len};
ghost use Rattle.std.specs.Str.{bytes_eq};
ghost use Rattle.text_scan.specs.Names.{number_of};
ghost use Rattle.operation_spec.specs.OperationFaults.{names_of};

use crate::operation::Operand;

/// The first number of a known operand with this name; their count where none has it.
fn known_number(knowns: &[Operand], text: &[u8]) -> usize
    ensures value { result ≡ prefix_len (λ o. not (bytes_eq o.name text.now)) knowns.now }
    ensures within { result ≤ length knowns.now }
{
    knowns
        .iter()
        .take_while(|known| known.name.as_slice() != text)
        .count()
}

/// The number of the operand with this name: 0 for the work operand, k + 1 for known operand k, and the count
/// of all operands where none has it.
#[tactic(auto, using(crate::proofs::NameNumbers::known_number_is))]
pub fn operand_number(work: &Operand, knowns: &[Operand], text: &[u8]) -> usize
    ensures value { result ≡ number_of (names_of work.now knowns.now) text.now }
    ensures within { result ≤ length knowns.now + 1 }
{
    if work.name.as_slice() == text {
        return 0;
    }
    known_number(knowns, text) + 1
}
