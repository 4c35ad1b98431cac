//! The session of a client on an HTTP/1 link: its request is read, and the response is queued and
//! written (RFC 9112, sections 2 to 9).
#![tactic(auto)]

mod batch;
mod front;
mod generated;
mod reading;
mod replay;
mod session;
mod summary;
mod task_text;
mod writing;

pub use front::Front;
pub use generated::{answer_with_body, generated_head};
pub use session::HttpSession;
pub use task_text::{Asks, Place, Request};
pub use writing::Writing;
