//! The first two lines of a job: `flame 1` and `modulus M`.

ghost use Rattle.std.specs.Prelude.{◌≡◌, ◌^◌, ◌||◌, IsTrue, MatchOption, false, nat_le, nat_lt};
ghost use Rattle.byte_texts.specs.Reading.{Gives};
ghost use Rattle.text_scan.specs.Lines.{nth_word};
ghost use Rattle.text_scan.specs.Words.{is_number};
ghost use Rattle.job_text.specs.JobFaults.{header_at, is_header, is_modulus_line, job_fault, modulus_at, modulus_of};

use crate::fault::JobFault;
use field_word::Modulus;
use text_scan::{Lines, TextLine, is_number};

/// Whether the line is `flame 1`.
#[tactic(auto, using(crate::proofs::LineForms::header_is))]
fn is_header(line: &TextLine<'_>) -> bool
    ensures { result ≡ is_header line.now.words }
{
    line.len() == 2 && line.is_text(0, b"flame") && line.is_text(1, b"1")
}

/// Reads the line `flame 1`, behind which another is due.
#[tactic(auto, unfolding(crate::specs::JobFaults::header_at))]
pub fn read_header(lines: &mut Lines<'_>) -> Result<(), JobFault>
    ensures header { Gives job_fault (λ _. lines.new.lines) result
        (header_at lines.old.end lines.old.lines) }
    ensures end { lines.new.end ≡ lines.old.end }
{
    let end = lines.end();
    match lines.next() {
        Some(line) => {
            let number = line.number();
            if !is_header(&line) {
                Err(JobFault::Header { line: number })
            } else if number == end {
                Err(JobFault::Syntax { line: number })
            } else {
                Ok(())
            }
        }
        None => Err(JobFault::Header { line: end }),
    }
}

/// Whether the line is `modulus M`.
#[tactic(auto, using(crate::proofs::LineForms::modulus_line_is))]
fn is_modulus_line(line: &TextLine<'_>) -> bool
    ensures { result ≡ is_modulus_line line.now.words }
{
    line.len() == 2 && line.is_text(0, b"modulus") && is_number(line.word(1))
}

/// The modulus that the line says.
fn modulus_of(line: &TextLine<'_>) -> Option<Modulus>
    requires { IsTrue (is_number (nth_word line.now.words 1)) }
    ensures { let m = modulus_of line.now.words in MatchOption result
        (IsTrue (nat_lt m 2 || nat_le (2 ^ 32) m))
        (λ modulus. (modulus ≡ m) × ((nat_lt m 2 || nat_le (2 ^ 32) m) ≡ false)) }
{
    match line.number_at(1) {
        Some(m) => Modulus::new(m),
        None => None,
    }
}

/// Reads the line `modulus M`.
#[tactic(auto, unfolding(crate::specs::JobFaults::modulus_at))]
pub fn read_modulus(line: &TextLine<'_>) -> Result<Modulus, JobFault>
    ensures { Gives job_fault (λ m. m) result (modulus_at line.now) }
{
    let number = line.number();
    if !is_modulus_line(line) {
        return Err(JobFault::Syntax { line: number });
    }
    match modulus_of(line) {
        Some(m) => Ok(m),
        None => Err(JobFault::Modulus { line: number }),
    }
}
