//! Many clients at once: their connections are accepted, and each request on them is taken through
//! the proxy, one turn of each in its turn (RFC 9112, section 9).
#![tactic(auto)]

mod floor;
mod open_connection;
mod serve;
mod serving_schedule;
mod stillness;

pub use serve::{ServeEnd, serve_with};
pub use serving_schedule::ServingSchedule;
