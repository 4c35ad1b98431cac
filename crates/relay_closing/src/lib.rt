//! The hooks at the end of a request, one a turn: in their order, each entered in the log, up to
//! the value that is kept for the next request of the client's connection (RFC 9110, section 3.7;
//! RFC 9112, section 9.3).
#![tactic(auto)]

mod place;
mod turn;

pub use place::{Cause, End, Failure, Place, Stage, begin_closing};
pub use turn::take_turn;
