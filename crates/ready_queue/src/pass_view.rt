//! What a pass knows, and the rule over the numbers in the queue and all views.

use crossbeam_queue::protocol::Protocol;
use std::collections::LinkedList;

/// What a pass knows. No value of it is made.
pub struct PassView {
    /// The queue is for the steps with the numbers from 1 to this one.
    pub steps: u32,
    /// How many callers the queue is for.
    pub callers: u32,
    /// For how many of them the pass stands.
    pub parts: u32,
    /// What was pushed through the pass, the latest first.
    pub pushed: LinkedList<u32>,
    /// What was popped through the pass, the latest first.
    pub popped: LinkedList<u32>,
}

/// The rule of the queue.
pub struct ReadyRule;

impl Protocol<u32, PassView> for ReadyRule {
    ghost use Rattle.ready_queue.specs.PassViews.{unset_pass_view};
    ghost use Rattle.ready_queue.specs.Rule.{IsRuled};

    ghost holds = { IsRuled };

    ghost first = { unset_pass_view };
}
