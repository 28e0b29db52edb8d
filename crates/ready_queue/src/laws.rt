//! What the rule of the queue says of all passes. Each law is the contract of a function that does nothing.

ghost use Rattle.std.specs.Prelude.{◌≡◌, ◌+◌, ◌<◌, ◌≤◌, ℕ, List, All, Contains};
ghost use Rattle.ready_queue.specs.declared.pass_view.PassView.{PassView};
ghost use Rattle.ready_queue.specs.PassViews.{popped_in, pushed_in, times, IsStepNumber};
ghost use Rattle.ready_queue.specs.Rule.{IsRuled};

/// At any moment each number was pushed as often as it was popped and stands in the queue; no pass pushed a number twice, so
/// over all passes it was popped at most as often as there are callers; and what was popped are numbers of steps.
pub fn each_push_is_popped_at_most_once()
    ensures balance { (items : List ℕ) (views : List PassView) → IsRuled items views → (t : ℕ)
        → popped_in views t + times t items ≡ pushed_in views t }
    ensures popped { (items : List ℕ) (views : List PassView) → IsRuled items views → (t : ℕ)
        → popped_in views t ≤ pushed_in views t }
    ensures once { (items : List ℕ) (views : List PassView) → IsRuled items views → (t : ℕ)
        → All (λ v. times t v.pushed ≤ 1) views }
    ensures few { (items : List ℕ) (views : List PassView) → IsRuled items views → (t : ℕ)
        → All (λ v. popped_in views t ≤ v.callers) views }
    ensures steps { (items : List ℕ) (views : List PassView) → IsRuled items views → (t : ℕ)
        → 0 < pushed_in views t → All (λ v. IsStepNumber v.steps t) views }
{}

/// Where one pass stands for all callers, what it pushed it has popped, or it stands in the queue.
pub fn one_caller_pops_what_it_pushed()
    ensures { (items : List ℕ) (views : List PassView) → IsRuled items views → (v : PassView)
        → Contains views v → v.parts ≡ v.callers → (t : ℕ)
        → times t v.popped + times t items ≡ times t v.pushed }
{}
