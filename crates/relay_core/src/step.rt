//! What a step of a duplex answers.

use relay_tasks::{Fail, Pause};

/// What one step of a duplex did.
#[derive(Clone, Copy, Debug, PartialEq, Eq)]
pub enum Step {
    /// Something moved, or a side ended.
    Moved,
    /// The branch's side had to wait, and nothing changed but its count.
    Waited(Pause),
    /// Both halves have finished, by this step.
    Finished,
    /// A half failed, for that reason; no branch is enabled from now on.
    Failed(Fail),
}
