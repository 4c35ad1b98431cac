//! The hooks of a request before its attempts, one a turn: in their order, each entered in the log,
//! up to the first that stops the request, answers it, or lets it go to an upstream (RFC 9110,
//! section 3.7).
#![tactic(auto)]

mod place;
mod turn;

pub use place::{Called, End, Place};
pub use turn::{begin_opening, take_turn};
