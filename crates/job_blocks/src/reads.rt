//! Which blocks each kind of task reads.

ghost use Rattle.std.specs.Prelude.{◌≡◌, [], ◌∷◌, ◌++◌, ◌==◌, if◌then◌else◌, min, IfOk, IsTrue};
ghost use Rattle.operation_spec.specs.declared.task.Kind.TheVariants as kinds;
ghost use Rattle.task_graph.specs.Tasks.{has};
ghost use Rattle.step_replays.specs.Accesses.{left_reads, list_reads, numbered_term_reads, pivot_number};
ghost use Rattle.step_replays.specs.Accesses.{right_reads, solve_reads};
ghost use Rattle.job_blocks.specs.BlockedJobs.{HasBlock, HasStatement, binding_at, counts_at, operation_at};
ghost use Rattle.job_blocks.specs.FactorBlocks.{HasFactorBlock, factor_at, work_at};

use crate::job_blocks::JobBlocks;
use operation_spec::{Factor, Form, Task};
use std::alloc::{AllocError, Global};
use structure_rules::NumberList;

/// A list of these numbers.
fn numbers(alloc: Global, all: &[u32]) -> Result<NumberList, AllocError>
    ensures { IfOk result (λ list. list ≡ all.now) }
{
    Ok(NumberList::from_vec(Vec::from_slice(alloc, all)?))
}

/// A list of these numbers, and behind them the others.
fn joined(alloc: Global, front: &[u32], back: &[u32]) -> Result<NumberList, AllocError>
    ensures { IfOk result (λ list. list ≡ front.now ++ back.now) }
{
    let mut all = Vec::with_capacity(alloc, front.len() + back.len())?;
    all.extend_from_slice(front)?;
    all.extend_from_slice(back)?;
    Ok(NumberList::from_vec(all))
}

impl JobBlocks<'_> {
    /// What a Term reads: a block of each factor.
    pub(crate) fn term_reads(
        &self,
        alloc: Global,
        s: u32,
        task: Task,
    ) -> Result<NumberList, AllocError>
        requires statement { HasStatement self.now s }
        requires task { IsTrue (has (operation_at self.now s) (counts_at self.now s) task) }
        requires kind { task.kind ≡ kinds.Term }
        ensures { IfOk result (λ reads. reads ≡ numbered_term_reads self.now.b self.now.job.matrices
            (operation_at self.now s) (binding_at self.now s) task.term task.i task.j task.k) }
    {
        let term = self.term(s, task.term);
        let first = self.factor(s, term.first, task.i, task.k);
        let second = self.factor(s, term.second, task.k, task.j);
        numbers(alloc, &[first, second])
    }

    /// What a Left reads: blocks of W, and one of the triangular factor on the left.
    pub(crate) fn left_reads(
        &self,
        alloc: Global,
        s: u32,
        task: Task,
    ) -> Result<NumberList, AllocError>
        requires statement { HasStatement self.now s }
        requires task { IsTrue (has (operation_at self.now s) (counts_at self.now s) task) }
        requires kind { task.kind ≡ kinds.Left }
        ensures { IfOk result (λ reads. reads ≡ left_reads self.now.b self.now.job.matrices
            (operation_at self.now s) (binding_at self.now s) (operation_at self.now s).form task.i task.j task.k) }
    {
        let (i, j, k) = (task.i, task.j, task.k);
        match self.form(s) {
            Form::Left { t } => self.left_factor_reads(alloc, s, t, task),
            Form::Sylvester { t, .. } => self.left_factor_reads(alloc, s, t, task),
            Form::Lu => numbers(alloc, &[self.work(s, i, k), self.work(s, k, j)]),
            Form::Ldl => {
                numbers(
                    alloc,
                    &[self.work(s, i, k), self.work(s, k, k), self.work(s, j, k)],
                )
            }
            Form::Assign | Form::Right { .. } => Ok(NumberList::new(alloc)),
        }
    }

    /// Block (i, k) of a factor on the left, and block (k, j) of W.
    fn left_factor_reads(
        &self,
        alloc: Global,
        s: u32,
        t: Factor,
        task: Task,
    ) -> Result<NumberList, AllocError>
        requires statement { HasStatement self.now s }
        requires factor { HasFactorBlock self.now s t task.i task.k }
        requires block { HasBlock self.now (binding_at self.now s).work task.k task.j }
        ensures { IfOk result (λ reads. reads
            ≡ factor_at self.now s t task.i task.k
            ∷ work_at self.now s task.k task.j ∷ []) }
    {
        numbers(
            alloc,
            &[
                self.factor(s, t, task.i, task.k),
                self.work(s, task.k, task.j),
            ],
        )
    }

    /// What a Right reads: a block of W, and one of the triangular factor on the right.
    pub(crate) fn right_reads(
        &self,
        alloc: Global,
        s: u32,
        task: Task,
    ) -> Result<NumberList, AllocError>
        requires statement { HasStatement self.now s }
        requires task { IsTrue (has (operation_at self.now s) (counts_at self.now s) task) }
        requires kind { task.kind ≡ kinds.Right }
        ensures { IfOk result (λ reads. reads ≡ right_reads self.now.b self.now.job.matrices
            (operation_at self.now s) (binding_at self.now s) (operation_at self.now s).form task.i task.j task.k) }
    {
        match self.form(s) {
            Form::Right { t: u } => self.right_factor_reads(alloc, s, u, task),
            Form::Sylvester { u, .. } => self.right_factor_reads(alloc, s, u, task),
            Form::Assign | Form::Left { .. } | Form::Lu | Form::Ldl => Ok(NumberList::new(alloc)),
        }
    }

    /// Block (i, k) of W, and block (k, j) of a factor on the right.
    fn right_factor_reads(
        &self,
        alloc: Global,
        s: u32,
        u: Factor,
        task: Task,
    ) -> Result<NumberList, AllocError>
        requires statement { HasStatement self.now s }
        requires block { HasBlock self.now (binding_at self.now s).work task.i task.k }
        requires factor { HasFactorBlock self.now s u task.k task.j }
        ensures { IfOk result (λ reads. reads
            ≡ work_at self.now s task.i task.k
            ∷ factor_at self.now s u task.k task.j ∷ []) }
    {
        numbers(
            alloc,
            &[
                self.work(s, task.i, task.k),
                self.factor(s, u, task.k, task.j),
            ],
        )
    }

    /// What a Solve reads: the diagonal blocks that it solves with, and the pivot list where there is one.
    pub(crate) fn solve_reads(
        &self,
        alloc: Global,
        s: u32,
        task: Task,
    ) -> Result<NumberList, AllocError>
        requires statement { HasStatement self.now s }
        requires task { IsTrue (has (operation_at self.now s) (counts_at self.now s) task) }
        ensures { IfOk result (λ reads. reads ≡ solve_reads self.now.b self.now.job.matrices
            (operation_at self.now s) (binding_at self.now s) (pivot_number self.now.job self.now.b s)
            (operation_at self.now s).form task.i task.j) }
    {
        let (i, j) = (task.i, task.j);
        match self.form(s) {
            Form::Left { t } => self.with_list(alloc, s, &[self.factor(s, t, i, i)]),
            Form::Right { t: u } => self.with_list(alloc, s, &[self.factor(s, u, j, j)]),
            Form::Sylvester { t, u, .. } => {
                self.with_list(
                    alloc,
                    s,
                    &[self.factor(s, t, i, i), self.factor(s, u, j, j)],
                )
            }
            Form::Lu => self.lesser_reads(alloc, s, i, j),
            Form::Ldl => self.lesser_reads(alloc, s, i, j),
            Form::Assign => Ok(NumberList::new(alloc)),
        }
    }

    /// These blocks, and the pivot list of statement s where there is one.
    fn with_list(&self, alloc: Global, s: u32, diagonal: &[u32]) -> Result<NumberList, AllocError>
        requires { HasStatement self.now s }
        ensures { IfOk result (λ reads. reads
            ≡ diagonal.now ++ list_reads (operation_at self.now s) (pivot_number self.now.job self.now.b s)) }
    {
        if self.has_pivots(s) {
            joined(alloc, diagonal, &[self.list(s)])
        } else {
            numbers(alloc, diagonal)
        }
    }

    /// The diagonal block that a factorisation solves block (i, j) with, off the diagonal.
    fn lesser_reads(&self, alloc: Global, s: u32, i: u32, j: u32) -> Result<NumberList, AllocError>
        requires statement { HasStatement self.now s }
        requires block { HasBlock self.now (binding_at self.now s).work (min i j) (min i j) }
        ensures { IfOk result (λ reads. reads ≡ (if i == j then []
            else work_at self.now s (min i j) (min i j) ∷ [])) }
    {
        if i == j {
            Ok(NumberList::new(alloc))
        } else {
            let lesser = i.min(j);
            numbers(alloc, &[self.work(s, lesser, lesser)])
        }
    }
}
