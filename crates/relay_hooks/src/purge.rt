//! What a purge came to, as its filter is told.

use relay_tasks::Fault;

/// What a purge came to: no cache is kept, something was purged, nothing was kept for that target,
/// or the purger failed.
#[derive(Clone, Copy, PartialEq, Eq)]
pub enum PurgeStatus {
    NoCache,
    Found,
    NotFound,
    Error(Fault),
}
