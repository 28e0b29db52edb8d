//! Which columns of some rows of an operand have to be multiplied: by its structure the rows are zero in all others.

ghost use Rattle.std.specs.Prelude.{◌≡◌, ◌⊎◌, ℕ, ◌+◌, ◌-◌, ◌<◌, ◌≤◌, IsTrue};
ghost use Rattle.matrix_parts.specs.Opers.{op_rows, op_cols, op_table};

use matrix_parts::Oper;

/// So many columns, behind so many that are left out.
#[derive(Clone, Copy, Debug)]
pub(crate) struct Span {
    pub(crate) begin: usize,
    pub(crate) width: usize,
}

/// Whether an operand is zero above its diagonal, by its structure.
fn is_zero_above(o: &Oper<'_>) -> bool
    ensures { IsTrue result → (i k : ℕ) → i < k → op_table o.now i k ≡ 0 }
{
    if o.primed {
        o.structure.zero(1, 0)
    } else {
        o.structure.zero(0, 1)
    }
}

/// Whether an operand is zero below its diagonal, by its structure.
fn is_zero_below(o: &Oper<'_>) -> bool
    ensures { IsTrue result → (i k : ℕ) → k < i → op_table o.now i k ≡ 0 }
{
    if o.primed {
        o.structure.zero(0, 1)
    } else {
        o.structure.zero(1, 0)
    }
}

/// How many columns from `from` on, at most `height`, come before all columns in which a row from `first` on isn't zero.
fn zeros_before(o: &Oper<'_>, first: u32, from: u32, height: usize) -> usize
    ensures within { result ≤ height }
    ensures before { result ≤ first - from }
    ensures zero { (i k : ℕ) → first ≤ i → k < result → op_table o.now i (from + k) ≡ 0 }
{
    if is_zero_below(o) && from < first {
        usize::min(height, (first - from) as usize)
    } else {
        0
    }
}

/// How many columns from `from` on, at most `height`, hold all those in which a row before `end` isn't zero.
fn zeros_behind(o: &Oper<'_>, end: u32, from: u32, height: usize) -> usize
    ensures within { result ≤ height }
    ensures zero { (i k : ℕ) → i < end → result ≤ k → k < height → op_table o.now i (from + k) ≡ 0 }
{
    if !is_zero_above(o) {
        height
    } else if from < end {
        usize::min(height, (end - from) as usize)
    } else {
        0
    }
}

/// Which of the `height` columns from `from` on have to be multiplied of so many rows from `first` on.
pub(crate) fn span_of(o: &Oper<'_>, first: u32, count: usize, from: u32, height: usize) -> Span
    requires rows_in { first + count ≤ op_rows o.now }
    ensures within { result.begin + result.width ≤ height }
    ensures zero { (i k : ℕ) → first ≤ i → i < first + count → k < height
        → (k < result.begin) ⊎ (result.begin + result.width ≤ k) → op_table o.now i (from + k) ≡ 0 }
{
    let _rows = o.rows();
    let begin = zeros_before(o, first, from, height);
    let end = zeros_behind(o, first + count as u32, from, height);
    Span {
        begin,
        width: usize::max(begin, end) - begin,
    }
}
