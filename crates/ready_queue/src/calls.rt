//! The calls of the queue.

ghost use Rattle.std.specs.Prelude.{◌≡◌, ◌+◌, ◌<◌, ◌≤◌, ℕ, List, [], IfOk, IfSome, IfNone};
ghost use Rattle.crossbeam_queue.specs.Passes.{IsPassOf as IsInnerPassOf};
ghost use Rattle.crossbeam_queue.specs.Passes.{view as inner_view};
ghost use Rattle.ready_queue.specs.PassViews.{after_pop, after_push, pass_view, kept_pass_view, new_pass_view, times, unset_pass_view, IsStepNumber};
ghost use Rattle.ready_queue.specs.Queues.{callers_of, steps_of, view, AreFirstPasses, IsNewPass, IsPassOf};
ghost use Rattle.ready_queue.specs.Rule.{AreOfOneMoment};

use crate::moves::{Cuts, Pops, Pushes, Sets, Sizes};
use crate::pass_view::{PassView, ReadyRule};
use crate::queue::{Pass, Passes, Ready};
use crossbeam_queue::RuledArrayQueue;
use std::alloc::{AllocError, Global};
use std::marker::Brand;
use std::sync::Wait;

impl Ready {
    /// An empty queue for so many steps and callers, with a pass for each caller. It has room for each step once from each
    /// caller, so no push finds it full. Its one error is want of memory.
    pub fn new(alloc: Global, steps: u32, callers: u32) -> Result<(Ready, Passes), AllocError>
        requires callers { 1 ≤ callers }
        ensures sizes { IfOk result (λ r. (steps_of r.0 ≡ steps) × (callers_of r.0 ≡ callers)) }
        ensures passes { IfOk result (λ r. AreFirstPasses r.0 r.1.items) }
    {
        let room = steps as usize * callers as usize;
        let (numbers, mut first) = RuledArrayQueue::ruled(alloc, room.max(1))?;
        set_sizes::<Brand>(&numbers, &mut first, steps, callers);
        let ready = Ready {
            numbers,
            steps,
            callers,
        };
        let passes = ready.passes(alloc, Pass { inner: first })?;
        Ok((ready, passes))
    }

    /// A pass for each caller, where a new one stands for all of them.
    fn passes(&self, alloc: Global, pass: Pass) -> Result<Passes, AllocError>
        requires pass { IsNewPass self.now (callers_of self.now) pass }
        ensures { IfOk result (λ passes. AreFirstPasses self.now passes.items) }
    {
        let mut last = pass;
        let mut passes = Vec::with_capacity(alloc, self.callers as usize)?;
        for _ in 1..self.callers {
            let first = self.split(&mut last);
            passes.push(first)?;
        }
        passes.push(last)?;
        Ok(passes)
    }

    /// A new pass for one of the callers that this pass stands for.
    fn split(&self, pass: &mut Pass) -> Pass
        requires inner { IsInnerPassOf self.now.numbers pass.old.inner }
        requires sizes { 0 < (view pass.old).callers }
        requires more { 1 < (view pass.old).parts }
        ensures old { IsInnerPassOf self.now.numbers pass.new.inner
            × (view pass.new ≡ kept_pass_view (view pass.old)) }
        ensures new { IsInnerPassOf self.now.numbers result.inner
            × (view result ≡ new_pass_view (view pass.old)) }
    {
        let inner = self.numbers.another::<Cuts>(&mut pass.inner);
        Pass { inner }
    }

    /// Adds a step that this pass hasn't pushed. The queue can't be full, so there is no refusal. It may wait for a push or a pop of
    /// another caller that is under way.
    pub fn push<R: Wait>(&self, rt: &R, pass: &mut Pass, t: u32)
        requires pass { IsPassOf self.now pass.old }
        requires step { IsStepNumber (steps_of self.now) t }
        requires fresh { times t (view pass.old).pushed ≡ 0 }
        ensures pass { IsPassOf self.now pass.new }
        ensures pushed { view pass.new ≡ after_push t (view pass.old) }
    {
        let Ok(()) = self.numbers.push_as::<Pushes, R>(rt, &mut pass.inner, t) else {
            unreachable!()
        };
    }

    /// Takes a number, the oldest one first. It finds none only where the queue was empty at a moment of the call, and it may wait
    /// for a push or a pop of another caller that is under way.
    pub fn pop<R: Wait>(&self, rt: &R, pass: &mut Pass) -> Option<u32>
        requires pass { IsPassOf self.now pass.old }
        ensures pass { IsPassOf self.now pass.new }
        ensures popped { IfSome result (λ t. view pass.new ≡ after_pop t (view pass.old)) }
        ensures step { IfSome result (λ t. IsStepNumber (steps_of self.now) t) }
        // by the laws of the queue it was pushed as often as it was popped, at least
        ensures pushed { IfSome result (λ t. (items : List ℕ)
            × AreOfOneMoment items (view pass.new)) }
        ensures none { IfNone result (view pass.new ≡ view pass.old) }
        ensures empty { IfNone result (AreOfOneMoment [] (view pass.old)) }
    {
        self.numbers.pop_as::<Pops, R>(rt, &mut pass.inner)
    }
}

/// The first pass of a queue learns the sizes, and stands for all callers.
fn set_sizes<J: Sizes>(
    numbers: &RuledArrayQueue<u32, PassView, ReadyRule>,
    first: &mut crossbeam_queue::Pass<u32, PassView>,
    steps: u32,
    callers: u32,
)
    requires named { (steps ≡ J.steps) × (callers ≡ J.callers) }
    requires callers { 0 < callers }
    requires first { IsInnerPassOf numbers.now first.old × (inner_view first.old ≡ unset_pass_view) }
    ensures pass { IsInnerPassOf numbers.now first.new }
    ensures sizes { inner_view first.new ≡ pass_view steps callers callers }
{
    let _ = (steps, callers);
    numbers.another::<Sets<J>>(first);
}
