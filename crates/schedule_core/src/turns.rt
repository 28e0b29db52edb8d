//! Which steps may begin and end: marks and counters, which one event after another changes.

ghost use Rattle.std.specs.Prelude.{◌≡◌, ℕ, ◌+◌, ◌-◌, ◌^◌, ◌<◌, ◌≤◌, length, map, All, IfOk, slice_index, slice_set, true};
ghost use Rattle.std.specs.List.{list_all, range_with_len};
ghost use Rattle.dependence_queue.specs.Edges.{count_into, most_accesses, successors};
ghost use Rattle.schedule_core.specs.declared.event.Event.TheVariants.{Finish, Start};
ghost use Rattle.schedule_core.specs.Turns.{IsFirstTurns, can_finish, can_start, times_in};

use crate::event::Event;
use dependence_queue::Edges;
use std::alloc::{AllocError, Global};

/// Which steps have begun and which have ended, by their numbers from 0; for each how many edges go into it from steps that
/// haven't ended; and the events so far, with room for all.
#[derive(Drop)]
pub struct Turns {
    pub begun: Vec<bool>,
    pub ended: Vec<bool>,
    pub waits: Vec<u32>,
    pub log: Vec<Event>,
    pub count: usize,
}

impl Turns {
    /// Before any event of so many steps.
    pub fn first(alloc: Global, edges: &Edges, steps: u32) -> Result<Turns, AllocError>
        requires { steps ≤ most_accesses }
        ensures { IfOk result (IsFirstTurns edges.now steps) }
    {
        Ok(Turns {
            begun: vec![in alloc; false; steps as usize]?,
            ended: vec![in alloc; false; steps as usize]?,
            waits: first_waits(alloc, edges, steps)?,
            log: vec![in alloc; Event::Start(0); 2 * steps as usize]?,
            count: 0,
        })
    }

    /// May step t begin next?
    pub fn may_start(&self, t: u32) -> bool
        requires { length self.now.waits.items ≡ length self.now.begun.items }
        ensures { result ≡ can_start self.now.begun.items self.now.waits.items t }
    {
        0 < t
            && t as usize <= self.begun.len()
            && !self.begun[t as usize - 1]
            && self.waits[t as usize - 1] == 0
    }

    /// May step t end next?
    pub fn may_finish(&self, t: u32) -> bool
        requires { length self.now.ended.items ≡ length self.now.begun.items }
        ensures { result ≡ can_finish self.now.begun.items self.now.ended.items t }
    {
        0 < t
            && t as usize <= self.begun.len()
            && !self.ended[t as usize - 1]
            && self.begun[t as usize - 1]
    }

    /// Notes that step t begins.
    pub fn begin(&mut self, t: u32)
        requires from { 0 < t }
        requires within { t ≤ length self.old.begun.items }
        requires room { self.old.count < length self.old.log.items }
        ensures begun { self.new.begun.items ≡ slice_set self.old.begun.items (t - 1) true }
        ensures ended { self.new.ended.items ≡ self.old.ended.items }
        ensures waits { self.new.waits.items ≡ self.old.waits.items }
        ensures log { self.new.log.items ≡ slice_set self.old.log.items self.old.count (Start t) }
        ensures count { self.new.count ≡ self.old.count + 1 }
    {
        self.begun[t as usize - 1] = true;
        self.note(Event::Start(t));
    }

    /// Notes that step t ends: one edge less goes into each step to which one goes from it.
    pub fn end(&mut self, edges: &Edges, t: u32)
        requires from { 0 < t }
        requires within { t ≤ length self.old.ended.items }
        requires room { self.old.count < length self.old.log.items }
        requires few { length (successors edges.now t) < 2 ^ 32 - 1 }
        requires steps { All (λ (n : ℕ). (0 < n) × (n ≤ length self.old.waits.items))
            (successors edges.now t) }
        requires enough { (s : ℕ) → times_in (successors edges.now t) (s + 1)
            ≤ slice_index self.old.waits.items s }
        ensures begun { self.new.begun.items ≡ self.old.begun.items }
        ensures ended { self.new.ended.items ≡ slice_set self.old.ended.items (t - 1) true }
        ensures waits_len { length self.new.waits.items ≡ length self.old.waits.items }
        ensures waits { (s : ℕ) → slice_index self.new.waits.items s
            + times_in (successors edges.now t) (s + 1) ≡ slice_index self.old.waits.items s }
        ensures log { self.new.log.items ≡ slice_set self.old.log.items self.old.count (Finish t) }
        ensures count { self.new.count ≡ self.old.count + 1 }
    {
        self.ended[t as usize - 1] = true;
        release(self.waits.as_mut_slice(), edges, t);
        self.note(Event::Finish(t));
    }

    /// Has each step ended?
    pub fn all_ended(&self) -> bool
        ensures { result ≡ list_all (λ e. e) self.now.ended.items }
    {
        self.ended.as_slice().iter().all(|ended| *ended)
    }

    /// Notes an event.
    fn note(&mut self, event: Event)
        requires { self.old.count < length self.old.log.items }
        ensures begun { self.new.begun.items ≡ self.old.begun.items }
        ensures ended { self.new.ended.items ≡ self.old.ended.items }
        ensures waits { self.new.waits.items ≡ self.old.waits.items }
        ensures log { self.new.log.items ≡ slice_set self.old.log.items self.old.count event }
        ensures count { self.new.count ≡ self.old.count + 1 }
    {
        self.log[self.count] = event;
        self.count += 1;
    }
}

/// How many edges go into each step.
fn first_waits(alloc: Global, edges: &Edges, steps: u32) -> Result<Vec<u32>, AllocError>
    ensures { IfOk result (λ waits. waits.items
        ≡ map (λ s. count_into edges.now (s + 1)) (range_with_len 0 steps)) }
{
    let mut waits = Vec::with_capacity(alloc, steps as usize)?;
    for s in 0..steps {
        waits.push(edges.preds(s + 1))?;
    }
    Ok(waits)
}

/// Counts one edge less into each step to which one goes from step t.
fn release(waits: &mut [u32], edges: &Edges, t: u32)
    requires few { length (successors edges.now t) < 2 ^ 32 - 1 }
    requires steps { All (λ (n : ℕ). (0 < n) × (n ≤ length waits.old)) (successors edges.now t) }
    requires enough { (s : ℕ) → times_in (successors edges.now t) (s + 1)
        ≤ slice_index waits.old s }
    ensures { (s : ℕ) → slice_index waits.new s + times_in (successors edges.now t) (s + 1)
        ≡ slice_index waits.old s }
{
    for p in 0..u32::MAX {
        let Some(next) = edges.succ(t, p) else {
            return;
        };
        waits[next as usize - 1] -= 1;
    }
}
