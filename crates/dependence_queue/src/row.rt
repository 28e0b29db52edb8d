ghost use Rattle.std.specs.Prelude.{◌≡◌, [], OnOk};
ghost use Rattle.dependence_queue.specs.Marks.{ends_at, marked};

use crate::Edge;
use std::alloc::{AllocError, Global};
use std::marker::Model;

/// The edges from one step that were found so far, by the step to which they go.
#[derive(Drop)]
pub struct Row {
    edges: Vec<Edge>,
}

impl Model for Row {
    ghost use Rattle.std.specs.Prelude.{List};
    ghost use Rattle.dependence_queue.specs.declared.edge.Edge.{Edge};

    ghost Value = { List Edge };

    ghost view = { λ a. a.edges.items };
}

impl Row {
    /// No edge yet.
    pub fn new(alloc: Global) -> Row
        ensures { result ≡ [] }
    {
        Row {
            edges: Vec::new(alloc),
        }
    }

    /// Lends the edges.
    pub fn as_slice(&self) -> &[Edge]
        ensures { result.now ≡ self.now }
    {
        self.edges.as_slice()
    }

    /// Whether the last edge goes to this step.
    fn ends_at(&self, step: u32) -> bool
        ensures { result ≡ ends_at step self.now }
    {
        let count = self.edges.len();
        count > 0 && self.edges[count - 1].to == step
    }

    /// Adds the kinds of an edge to the last one, where that goes to the same step, and else the edge.
    #[tactic(auto, unfolding(crate::specs::Marks::marked))]
    pub fn mark(&mut self, found: Edge) -> Result<(), AllocError>
        ensures { OnOk result (self.new ≡ marked found self.old) }
    {
        if self.ends_at(found.to) {
            let last = self.edges.len() - 1;
            self.edges[last] = self.edges[last].joined(found);
        } else {
            self.edges.push(found)?;
        }
        Ok(())
    }
}
