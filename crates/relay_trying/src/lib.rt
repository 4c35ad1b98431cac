//! The hooks of an attempt, each called once as one turn: its peer, its link, its head, and the
//! error with which it failed (RFC 9110, sections 3.7 and 9.2.2).
#![tactic(auto)]

mod failure;
mod link;

pub use failure::{summarize, treat_failure, treat_refusal, warn};
pub use link::{filter_head, name_peer, tell_connected};
