//! One exchange over any two sides: a request whose head was read, and its response. Both bodies
//! flow at once, under any schedule.
#![tactic(auto)]

mod exchange;
mod round;

pub use exchange::{Exchange, Turn};
