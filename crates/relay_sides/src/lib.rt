//! The sides of a duplex: the client's over its session, and one over another side of the upstream.
#![tactic(auto)]

mod client_side;
mod filtered;

pub use client_side::ClientSide;
pub use filtered::{Filtered, is_head_request};
