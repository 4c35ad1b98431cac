//! The two turns of a purge: what it does is asked; then the purger is asked, and its answer is
//! filtered and queued (RFC 9110, section 15; RFC 9111, section 4.4).
#![tactic(auto)]

mod answer;
mod asked;
mod turn;

pub use turn::{End, ask_action, purge};
