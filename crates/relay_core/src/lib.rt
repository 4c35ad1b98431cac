//! The duplex core: bodies flow both ways, one step at a time, under any schedule.
#![tactic(auto)]

mod batch;
mod down;
mod down_half;
mod downstream_state;
mod duplex;
mod piece;
mod pipe;
mod pipe_state;
mod response_state;
mod step;
mod told;
mod up;
mod up_half;

pub use down::Down;
pub use downstream_state::DownstreamStateMachine;
pub use duplex::Duplex;
pub use piece::Piece;
pub use pipe::{PIPE_PLACES, Pipe};
pub use pipe_state::PipeState;
pub use response_state::ResponseStateMachine;
pub use step::Step;
pub use told::Told;
pub use up::Up;
