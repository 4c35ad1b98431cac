//! What a link, a connector or a purger reports when it cannot go on.

use crate::error::RetryType;

/// What went wrong in a call to the outside. A receiving call fails by `Read`, `ReadTimedout`,
/// `H2Error`, `H2Downgrade` or `InvalidH2`, a sending call by `Write`, `WriteTimedout` or
/// `H2Error`, a connector by `Connect`.
#[derive(Clone, Copy, Debug, PartialEq, Eq)]
pub enum FaultKind {
    Read,
    ReadTimedout,
    Write,
    WriteTimedout,
    Connect,
    H2Error,
    H2Downgrade,
    InvalidH2,
}

/// A fault that the outside answered, with the mark that says whether another attempt may help.
#[derive(Clone, Copy, Debug, PartialEq, Eq)]
pub struct Fault {
    pub kind: FaultKind,
    pub retry: RetryType,
}
