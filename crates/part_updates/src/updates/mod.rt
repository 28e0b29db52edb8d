//! Products that are added to the entries of a structure, or subtracted from them.
//!
//! The second factor goes panel by panel: as many columns as a buffer holds are copied into it, each as a line, and the rows of
//! the first factor go along them by three. Long inner dimensions go in pieces, each of which is reduced once.

ghost use Rattle.std.specs.Prelude.{◌≡◌, ◌<◌, ◌≤◌, ◌^◌, ℕ};
ghost use Rattle.residue_sums.specs.Grids.{AreResidues};
ghost use Rattle.equation.specs.Kernels.{IsUpdated, IsUpdatedLdl};
ghost use Rattle.part_updates.specs.ProductFactors.{second_table, AreFactors, HaveSmallEntries};
ghost use Rattle.matrix_parts.specs.Lent.{grid_of, loan_of, IsPart, IsKept};
ghost use Rattle.matrix_parts.specs.Opers.{op_rows, op_cols, op_table, IsOper};

mod columns;
mod factors;
mod rows;
mod spans;
mod tiles;

use crate::changes::Change;
use columns::update_in;
use factors::Factors;
use field_word::Modulus;
use matrix_parts::{Oper, PartMut};
use row_products::Reducer;
use structure_rules::Structure;

/// How many numbers the buffer has for a small block, where the inner dimension is short, and where it is long.
const SMALL_ROOM: usize = 1536;

const SHORT_ROOM: usize = 8192;

const LONG_ROOM: usize = 61440;

/// The greatest inner dimension, and the greatest number of columns, that go in one piece through the small buffer.
const SMALL: u32 = 32;

/// The greatest inner dimension that goes in one piece through the short buffer.
const SHORT: u32 = 204;

/// The entries of an operand are below 2^32.
pub(crate) fn has_small_entries(m: Modulus, o: &Oper<'_>)
    requires oper { IsOper o.now }
    requires residues { AreResidues m o.now.part }
    ensures small { (i k : ℕ) → i < op_rows o.now → k < op_cols o.now → op_table o.now i k < 2 ^ 32 }
{
    let _modulus = m.value();
    let _rows = o.part.rows();
}

/// The update in a buffer of the stack of so many numbers, which is cleared first.
fn update_within<const ROOM: usize>(change: &Change, w: &mut PartMut<'_>, factors: &Factors<'_>)
    requires some_room { 40 ≤ ROOM }
    requires little_room { ROOM < 2 ^ 31 }
    requires part { IsPart w.old }
    requires factors { AreFactors factors.now }
    requires rows { op_rows factors.now.first ≡ w.old.rows }
    requires cols { op_cols factors.now.second ≡ w.old.cols }
    requires residues { AreResidues change.now.m (grid_of w.old) }
    requires small { HaveSmallEntries factors.now }
    ensures loan { loan_of w.new ≡ loan_of w.old }
    ensures part { IsPart w.new }
    ensures kept { IsKept w.old w.new }
    ensures updated { IsUpdated change.now.m change.now.minus change.now.inside (op_cols factors.now.first)
        (op_table factors.now.first) (second_table change.now.m factors.now) (grid_of w.old) (grid_of w.new) }
{
    let mut room = [0; ROOM];
    update_in(change, w, factors, &mut room);
}

/// The update in the buffer that suits its sizes: to clear a great one takes longer than a small product.
fn update_by(change: &Change, w: &mut PartMut<'_>, factors: &Factors<'_>)
    requires part { IsPart w.old }
    requires factors { AreFactors factors.now }
    requires rows { op_rows factors.now.first ≡ w.old.rows }
    requires cols { op_cols factors.now.second ≡ w.old.cols }
    requires residues { AreResidues change.now.m (grid_of w.old) }
    requires small { HaveSmallEntries factors.now }
    ensures loan { loan_of w.new ≡ loan_of w.old }
    ensures part { IsPart w.new }
    ensures kept { IsKept w.old w.new }
    ensures updated { IsUpdated change.now.m change.now.minus change.now.inside (op_cols factors.now.first)
        (op_table factors.now.first) (second_table change.now.m factors.now) (grid_of w.old) (grid_of w.new) }
{
    let inner = factors.first.cols();
    if inner <= SMALL && w.cols() <= SMALL {
        update_within::<SMALL_ROOM>(change, w, factors);
    } else if inner <= SHORT {
        update_within::<SHORT_ROOM>(change, w, factors);
    } else {
        update_within::<LONG_ROOM>(change, w, factors);
    }
}

/// Adds `a * b` modulo m to the entries of the structure `inside` in w, or subtracts it where `minus` is true.
///
/// With r rows and c columns in w, a has r rows and b has c columns; a has as many columns as b has rows. All entries are below
/// m. No entry outside w or outside the structure changes. It takes no memory but 12, 64 or 480 KB of the stack.
pub fn update(
    m: Modulus,
    minus: bool,
    w: &mut PartMut<'_>,
    inside: Structure,
    a: Oper<'_>,
    b: Oper<'_>,
)
    requires part { IsPart w.old }
    requires oper_a { IsOper a }
    requires oper_b { IsOper b }
    requires rows { op_rows a ≡ w.old.rows }
    requires cols { op_cols b ≡ w.old.cols }
    requires inner { op_rows b ≡ op_cols a }
    requires residues { AreResidues m (grid_of w.old) }
    requires first { AreResidues m a.part }
    requires second { AreResidues m b.part }
    ensures loan { loan_of w.new ≡ loan_of w.old }
    ensures part { IsPart w.new }
    ensures kept { IsKept w.old w.new }
    ensures updated { IsUpdated m minus inside (op_cols a.entry) (op_table a.entry) (op_table b.entry) (grid_of w.old) (grid_of w.new) }
{
    has_small_entries(m, &a);
    has_small_entries(m, &b);
    let change = Change {
        m: Reducer::new(m),
        minus,
        inside,
    };
    let factors = Factors {
        middle: b.turned(),
        first: a,
        second: b,
        scaled: false,
    };
    update_by(&change, w, &factors);
}

/// Subtracts `a * d * b` modulo m from the entries of the structure `inside` in w.
///
/// With r rows and c columns in w, a has r rows, b has c columns, and d is square: it has as many rows as a has columns and as b
/// has rows. All entries are below m. No entry outside w or outside the structure changes. It is quick where d is diagonal, as the
/// D of L * D * L' is. It takes no memory but 12, 64 or 480 KB of the stack.
pub fn update_ldl(
    m: Modulus,
    w: &mut PartMut<'_>,
    inside: Structure,
    a: Oper<'_>,
    d: Oper<'_>,
    b: Oper<'_>,
)
    requires part { IsPart w.old }
    requires oper_a { IsOper a }
    requires oper_d { IsOper d }
    requires oper_b { IsOper b }
    requires rows { op_rows a ≡ w.old.rows }
    requires cols { op_cols b ≡ w.old.cols }
    requires inner { op_rows b ≡ op_cols a }
    requires middle_rows { op_rows d ≡ op_cols a }
    requires middle_cols { op_cols d ≡ op_cols a }
    requires residues { AreResidues m (grid_of w.old) }
    requires first { AreResidues m a.part }
    requires middle { AreResidues m d.part }
    requires second { AreResidues m b.part }
    ensures loan { loan_of w.new ≡ loan_of w.old }
    ensures part { IsPart w.new }
    ensures kept { IsKept w.old w.new }
    ensures updated { IsUpdatedLdl m inside (op_cols a.entry) (op_table a.entry) (op_table d.entry) (op_table b.entry) (grid_of w.old) (grid_of w.new) }
{
    has_small_entries(m, &a);
    has_small_entries(m, &d);
    has_small_entries(m, &b);
    let change = Change {
        m: Reducer::new(m),
        minus: true,
        inside,
    };
    let factors = Factors {
        first: a,
        middle: d,
        second: b,
        scaled: true,
    };
    update_by(&change, w, &factors);
}
