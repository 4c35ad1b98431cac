//! The sides over links that answer by scripts.

mod client_side;
mod filtered;
