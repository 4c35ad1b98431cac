//! The modules of a request, and the session that hooks are given: what a module may do to what
//! passes, and the calls by which a response reaches the client through the modules.
#![tactic(auto)]

mod filtering;
mod module;
mod seen;
mod session;

pub use filtering::{filter_task, filter_tasks};
pub use module::{HttpModule, NoModules};
pub use seen::{Seen, Upstream};
pub use session::Session;
