/// What stands round each task's work. A run calls it and is changed by nothing that it does.
pub trait Gate: Sync {
    /// Called before the task's work. Tasks are numbered from 1.
    fn enter(&self, task: u32);

    /// Called after the task's work, with the number that `enter` had.
    fn leave(&self, task: u32);
}

/// The gate that does nothing.
#[derive(Clone, Copy, Debug)]
pub struct OpenGate;

impl Gate for OpenGate {
    fn enter(&self, _task: u32) {}

    fn leave(&self, _task: u32) {}
}
