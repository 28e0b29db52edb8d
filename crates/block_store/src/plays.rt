//! What each kind of atomic step tells its caller.

ghost use Rattle.std.specs.Prelude.{◌≡◌, ◌%◌, ◌-◌, ◌<◌, ℕ};
ghost use Rattle.block_store.specs.Views.{learned};
ghost use Rattle.block_store.specs.Plays.{claim_view, IsTaken, IsFresh, NoLast, IsNewStamp};
ghost use Rattle.block_store.specs.declared.outcome.StepOutcome.{StepOutcome};
ghost use Rattle.block_store.specs.declared.outcome.StepOutcome.TheVariants.{Ran};
ghost use Rattle.block_store.specs.declared.view.Fact.TheVariants.{Began, Ended, Marked, Noticed};

use crate::view::View;
use atomic_table::{Join, Play, Split};
use matrix_core::Matrix;
use std::marker::{Brand, PhantomData};

/// What a call is about, where the word that it steps on doesn't say it. A call with `Brand` picks it.
pub trait Subject {
    ghost step: { ℕ };

    ghost outcome: { StepOutcome };

    ghost block: { ℕ };
}

impl Subject for Brand {
    ghost step = { 0 };

    ghost outcome = { Ran };

    ghost block = { 0 };
}

/// An exchange that claims a step.
pub struct Claims;

impl Play<Matrix, View> for Claims {
    ghost then = { λ st me found next. (next.0 ≡ claim_view st.first st.word found me.0)
        × IsTaken st.word found me.0 × (found ≡ st.first → IsFresh st.word me.0)
        × (next.1 ≡ me.1) };
}

/// A step begins.
pub struct Begins<J> {
    of: PhantomData<J>,
}

impl<J: Subject> Play<Matrix, View> for Begins<J> {
    ghost then = { λ st me found next. (next.0 ≡ learned (Began J.step found) me.0)
        × (next.1 ≡ me.1) × IsNewStamp found me.0 };
}

/// A step ends.
pub struct Ends<J> {
    of: PhantomData<J>,
}

impl<J: Subject> Play<Matrix, View> for Ends<J> {
    ghost then = { λ st me found next. (next.0 ≡ learned (Ended J.step found J.outcome) me.0)
        × (next.1 ≡ me.1) × IsNewStamp found me.0 };
}

/// An edge is noticed.
pub struct Notices<J> {
    of: PhantomData<J>,
}

impl<J: Subject> Play<Matrix, View> for Notices<J> {
    ghost then = { λ st me found next.
        (next.0 ≡ learned (Noticed J.step st.word (found % 4294967296 - 1)) me.0)
        × (0 < found % 4294967296) × NoLast st.word me.0 × (next.1 ≡ me.1) };
}

/// The second step of an edge is marked to be skipped.
pub struct Marks<J> {
    of: PhantomData<J>,
}

impl<J: Subject> Play<Matrix, View> for Marks<J> {
    ghost then = { λ st me found next. (next.0 ≡ learned (Marked J.step st.word) me.0)
        × (next.1 ≡ me.1) };
}

/// The clock is loaded.
pub struct Loads;

impl Play<Matrix, View> for Loads {
    ghost use Rattle.block_store.specs.Plays.{IsTimed};

    ghost then = { λ st me found next. IsTimed found me.0 next.0 × (next.1 ≡ me.1) };
}

/// A step's word is loaded.
pub struct Looks;

impl Play<Matrix, View> for Looks {
    ghost use Rattle.block_store.specs.Plays.{HasLooked};

    ghost then = { λ st me found next. HasLooked st.word found me.0 next.0
        × (next.1 ≡ me.1) };
}

/// A seat is cut off for the first worker of another one.
pub struct Halves;

impl Split<View> for Halves {
    ghost use Rattle.block_store.specs.Views.{kept_view, new_view};

    ghost left = { kept_view };

    ghost right = { new_view };
}

/// Two seats become one.
pub struct Both;

impl Join<View> for Both {
    ghost use Rattle.block_store.specs.Views.{both_views, spent_view};

    ghost both = { both_views };

    ghost spent = { spent_view };
}

/// A block is taken for a step, unless it is away.
pub struct Takes<J> {
    of: PhantomData<J>,
}

impl<J: Subject> Play<Matrix, View> for Takes<J> {
    ghost use Rattle.block_store.specs.Plays.{HasTaken};

    ghost then = { λ st me found next.
        HasTaken me.0.key J.step J.block st.word found me next };
}

/// The block that was taken last goes home as it was.
pub struct Gives<J> {
    of: PhantomData<J>,
}

impl<J: Subject> Play<Matrix, View> for Gives<J> {
    ghost use Rattle.atomic_table.specs.Table.{rest};
    ghost use Rattle.block_store.specs.declared.view.Fact.TheVariants.{Gave};

    ghost then = { λ st me found next. (next.0 ≡ learned (Gave J.block) me.0)
        × (next.1 ≡ rest me.1) };
}

/// The block that was taken last goes home with what a step leaves in it.
pub struct Puts<J> {
    of: PhantomData<J>,
}

impl<J: Subject> Play<Matrix, View> for Puts<J> {
    ghost use Rattle.atomic_table.specs.Table.{rest};
    ghost use Rattle.block_store.specs.declared.view.Fact.TheVariants.{Put};

    ghost then = { λ st me found next. (next.0 ≡ learned (Put J.step J.block) me.0)
        × (next.1 ≡ rest me.1) };
}
