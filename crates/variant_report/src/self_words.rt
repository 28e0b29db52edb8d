/// The words that ask for a run of a generated job: its matrices are `n` by `n`, of residues modulo `m`, and drawn
/// from a seed; the block size; and how many workers there are.
#[derive(Clone, Copy, Debug, PartialEq, Eq)]
pub struct SelfWords {
    pub n: u32,
    pub m: u32,
    pub seed: u32,
    pub block: u32,
    pub workers: u32,
}
