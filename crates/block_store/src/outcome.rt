/// How a step ended: it wrote its block, was skipped, or met a bad pivot, whose place is that in the whole matrix.
#[derive(Clone, Copy, Debug, PartialEq, Eq)]
pub enum StepOutcome {
    Ran,
    Skipped,
    Failed { row: u32, col: u32 },
}
