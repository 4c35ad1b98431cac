//! One request: what a machine holds of it between two turns, what its hooks are shown and have
//! logged, and what is recorded of it (RFC 9110, sections 3.7 and 7).
#![tactic(auto)]

mod calls;
mod closing_hooks;
mod delaying;
mod machine;
mod outcome;
mod owed;
mod record;
mod uses;
mod work;

pub use calls::{
    At, Calls, Opened, answer_error, begin_calls, call_last, call_next, call_purger, filter,
    tell_link, treat, treat_unlinked,
};
pub use delaying::hand_delays;
pub use machine::{Attempt, Did, Lease, Machine, Next, Phase, RunStep};
pub use outcome::{Ending, Outcome, Processed, count_ended, kept_of};
pub use owed::Owed;
pub use record::{AttemptList, AttemptRecord, AttemptRoom, RunRecord};
pub use uses::{Uses, has_risen};
pub use work::{Work, count_turn, work_of, work_of_failure};
