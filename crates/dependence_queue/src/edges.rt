ghost use Rattle.std.specs.Prelude.{◌≡◌, ◌↔◌, ℕ, ◌<◌, ◌≤◌, ◌^◌, length, slice_get, slice_index, replicate, All, IfOk, IsNone};
ghost use Rattle.std.specs.List.{flat_map};
ghost use Rattle.std.specs.Option.{option_copied};
ghost use Rattle.dependence_queue.specs.Edges.{successors, count_into};
ghost use Rattle.dependence_queue.specs.Indexes.{AreRowsFrom};

use crate::Edge;
use crate::row::Row;
use std::alloc::{AllocError, Global};
use std::marker::Model;

/// The edges between steps, by the step that they come from and then the one that they go to. With them it keeps where
/// the edges from each step begin, and how many go into each.
#[derive(Debug, Drop)]
pub struct Edges {
    edges: Vec<Edge>,
    starts: Vec<usize>,
    preds: Vec<u32>,
}

impl Model for Edges {
    ghost use Rattle.std.specs.Prelude.{List};
    ghost use Rattle.dependence_queue.specs.declared.edge.Edge.{Edge};
    ghost use Rattle.dependence_queue.specs.Indexes.{IsIndexed};

    ghost Value = { List Edge };

    ghost view = { λ a. a.edges.items };

    ghost invariant = { λ a. IsIndexed a.edges.items a.starts.items a.preds.items };
}

impl Edges {
    /// How many edges there are.
    pub fn len(&self) -> usize
        ensures { result ≡ length self.now }
    {
        self.edges.len()
    }

    /// Lends the edge at a place, from 0.
    pub fn get(&self, at: usize) -> Option<&Edge>
        ensures edge { option_copied result ≡ slice_get self.now at }
        ensures none { IsNone result ↔ (length self.now ≤ at) }
    {
        self.edges.get(at)
    }

    /// How many edges go into a step, by its number from 1; none go into what is no step.
    pub fn preds(&self, t: u32) -> u32
        ensures { result ≡ count_into self.now t }
    {
        self.preds.get(t as usize).copied().unwrap_or(0)
    }

    /// The step at a place, from 0, of those to which an edge goes from step s, in ascending order. None past the last,
    /// and where s is no step.
    pub fn succ(&self, s: u32, p: u32) -> Option<u32>
        ensures { result ≡ slice_get (successors self.now s) p }
    {
        let edges = self.edges.as_slice();
        let starts = self.starts.as_slice();
        let at = s as usize;
        if at + 1 >= starts.len() {
            return None;
        }
        let place = starts[at] + p as usize;
        if place < starts[at + 1] {
            Some(edges[place].to)
        } else {
            None
        }
    }

    /// The edges of rows, of which the one at place j has those from step j + 1, to steps that have a row.
    pub(crate) fn from_rows(alloc: Global, rows: &[Row]) -> Result<Edges, AllocError>
        requires rows { AreRowsFrom 1 (length rows.now) rows.now }
        requires few { (t : ℕ) → count_into (flat_map (λ row. row) rows.now) t < 2 ^ 32 }
        ensures { IfOk result (λ edges. edges ≡ flat_map (λ row. row) rows.now) }
    {
        let mut edges = Vec::new(alloc);
        let mut starts = Vec::with_capacity(alloc, rows.len() + 2)?;
        starts.push(0)?;
        for row in rows {
            starts.push(edges.len())?;
            edges.extend_from_slice(row.as_slice())?;
        }
        starts.push(edges.len())?;
        let preds = count_preds(alloc, edges.as_slice(), rows.len())?;
        Ok(Edges {
            edges,
            starts,
            preds,
        })
    }
}

/// How many edges go into each step, by its number.
fn count_preds(alloc: Global, edges: &[Edge], steps: usize) -> Result<Vec<u32>, AllocError>
    requires size { steps < 2 ^ 63 }
    requires steps { All (λ e. e.to ≤ steps) edges.now }
    requires few { (t : ℕ) → count_into edges.now t < 2 ^ 32 }
    ensures { IfOk result (λ preds. (t : ℕ) → slice_index preds.items t ≡ count_into edges.now t) }
{
    let mut preds = zeros(alloc, steps + 1)?;
    for edge in edges {
        preds[edge.to as usize] += 1;
    }
    Ok(preds)
}

/// As many zeros.
fn zeros(alloc: Global, count: usize) -> Result<Vec<u32>, AllocError>
    ensures { IfOk result (λ numbers. numbers.items ≡ replicate count 0) }
{
    Ok(vec![in alloc; 0; count]?)
}
