//! What becomes of the view of a pass in each step of the queue, and what the step tells its caller.

ghost use Rattle.std.specs.Prelude.{◌≡◌, ℕ, List};
ghost use Rattle.ready_queue.specs.PassViews.{after_pop, after_push, pass_view, kept_pass_view, new_pass_view, IsStepNumber};
ghost use Rattle.ready_queue.specs.Rule.{AreOfOneMoment, HasRoom};

use crate::pass_view::PassView;
use crossbeam_queue::protocol::{Lesson, Outcome, Split};
use std::marker::{Brand, PhantomData};

/// The sizes of a queue. A call with `Brand` picks them.
pub trait Sizes {
    ghost steps: { ℕ };

    ghost callers: { ℕ };
}

impl Sizes for Brand {
    ghost steps = { 0 };

    ghost callers = { 0 };
}

/// The first pass learns the sizes and stands for all callers; the new pass stands for none.
pub struct Sets<J> {
    of: PhantomData<J>,
}

impl<J: Sizes> Split<PassView> for Sets<J> {
    ghost left = { λ v. pass_view J.steps J.callers J.callers };

    ghost right = { λ v. pass_view J.steps J.callers 0 };
}

/// A pass is cut off for one of the callers that another one stands for.
pub struct Cuts;

impl Split<PassView> for Cuts {
    ghost left = { kept_pass_view };

    ghost right = { new_pass_view };
}

/// A number is pushed. Where the queue is full, its pass learns that it isn't.
pub struct Pushes;

impl Outcome<u32, PassView> for Pushes {
    ghost then = { λ v t w. w ≡ after_push t v };
}

impl Lesson<u32, PassView> for Pushes {
    ghost fact = { HasRoom };
}

/// A number is popped. Where the queue is empty, its pass learns what was pushed and popped then.
pub struct Pops;

impl Outcome<u32, PassView> for Pops {
    ghost then = { λ v t w. (w ≡ after_pop t v) × IsStepNumber v.steps t
        × ((items : List ℕ) × AreOfOneMoment items w) };
}

impl Lesson<u32, PassView> for Pops {
    ghost fact = { λ v items. AreOfOneMoment items v };
}
