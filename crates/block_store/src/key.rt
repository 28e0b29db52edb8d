use equation::Job;
use std::snapshot::Snapshot;
use step_replays::StepList;

/// What a run is about: a job, a block size, the steps, which are numbered from 1, and the number of workers. The direct edges
/// between the steps follow from these.
#[derive(Drop)]
pub struct BoardKey {
    pub job: Snapshot<Job>,
    pub b: u32,
    pub steps: Snapshot<StepList>,
    pub workers: u32,
}
