//! Marks of blocks, by which a step is found to conflict with one that failed or was skipped.

ghost use Rattle.std.specs.Prelude.{◌≡◌, ◌<◌, length, replicate, All, IfOk, false, true, slice_set};
ghost use Rattle.task_values.specs.Marks.{all_marked, has_marked, meets};

use dependence_queue::Access;
use std::alloc::{AllocError, Global};

/// Which blocks steps that failed or were skipped write, and which ones they read.
#[derive(Drop)]
pub struct Marks {
    pub written: Vec<bool>,
    pub read: Vec<bool>,
}

impl Marks {
    /// No marks, for so many blocks.
    pub fn none(alloc: Global, count: usize) -> Result<Marks, AllocError>
        ensures { IfOk result (λ marks. (marks.written.items ≡ replicate count false)
            × (marks.read.items ≡ replicate count false)) }
    {
        Ok(Marks {
            written: vec![in alloc; false; count]?,
            read: vec![in alloc; false; count]?,
        })
    }

    /// Does a step with this access conflict with one that was marked?
    pub fn stop(&self, access: &Access) -> bool
        requires write { access.now.write < length self.now.written.items }
        requires marks { access.now.write < length self.now.read.items }
        requires reads { All (λ x. x < length self.now.written.items) access.now.reads }
        ensures { result ≡ meets self.now.written.items self.now.read.items access.now }
    {
        let write = access.write as usize;
        self.written[write]
            || self.read[write]
            || has_any(self.written.as_slice(), access.reads.as_slice())
    }

    /// Marks what a step uses.
    pub fn mark(&mut self, access: &Access)
        requires write { access.now.write < length self.old.written.items }
        requires reads { All (λ x. x < length self.old.read.items) access.now.reads }
        ensures written { self.new.written.items
            ≡ slice_set self.old.written.items access.now.write true }
        ensures read { self.new.read.items ≡ all_marked access.now.reads self.old.read.items }
    {
        self.written[access.write as usize] = true;
        set_all(self.read.as_mut_slice(), access.reads.as_slice());
    }
}

/// Is one of these numbers marked?
fn has_any(marks: &[bool], numbers: &[u32]) -> bool
    requires { All (λ x. x < length marks.now) numbers.now }
    ensures { result ≡ has_marked marks.now numbers.now }
{
    for number in numbers {
        if marks[*number as usize] {
            return true;
        }
    }
    false
}

/// Marks these numbers.
fn set_all(marks: &mut [bool], numbers: &[u32])
    requires { All (λ x. x < length marks.old) numbers.now }
    ensures { marks.new ≡ all_marked numbers.now marks.old }
{
    for number in numbers {
        marks[*number as usize] = true;
    }
}
