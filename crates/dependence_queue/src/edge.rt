ghost use Rattle.std.specs.Prelude.{◌≡◌};
ghost use Rattle.dependence_queue.specs.Marks.{found_edge, joined};

/// A direct edge from one step to a later one, with all its kinds: the later one reads what the earlier one writes
/// (flow), writes what it reads (anti), or both write one block (output).
#[derive(Clone, Copy, Debug, PartialEq, Eq)]
pub struct Edge {
    pub from: u32,
    pub to: u32,
    pub flow: bool,
    pub anti: bool,
    pub output: bool,
}

/// A kind of edge.
#[derive(Clone, Copy, Debug, PartialEq, Eq)]
pub enum EdgeKind {
    Flow,
    Anti,
    Output,
}

impl Edge {
    /// An edge that was found to be of one kind.
    pub(crate) fn found(kind: EdgeKind, to: u32, from: u32) -> Edge
        ensures { result ≡ found_edge kind to from }
    {
        let (flow, anti, output) = match kind {
            EdgeKind::Flow => (true, false, false),
            EdgeKind::Anti => (false, true, false),
            EdgeKind::Output => (false, false, true),
        };
        Edge {
            from,
            to,
            flow,
            anti,
            output,
        }
    }

    /// The same edge with the kinds of another one between its steps too.
    pub(crate) fn joined(self, other: Edge) -> Edge
        ensures { result ≡ joined self other }
    {
        Edge {
            flow: self.flow || other.flow,
            anti: self.anti || other.anti,
            output: self.output || other.output,
            ..self
        }
    }
}
