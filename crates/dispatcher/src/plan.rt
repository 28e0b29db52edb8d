use equation::Job;
use step_replays::StepList;

/// What a run does: the steps of a job, whose matrices are cut into blocks of b rows and columns, by so many workers.
#[derive(Clone, Copy)]
pub struct Plan<'a> {
    pub job: &'a Job,
    pub b: u32,
    pub steps: &'a StepList,
    pub workers: u32,
}
