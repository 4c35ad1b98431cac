//! The application of a script: a proxy whose hooks do what a list of rules says, and the modules
//! of its requests.
#![tactic(auto)]

mod decision;
mod modules;
mod proxy;

pub use decision::Reply;
pub use modules::ScriptModules;
pub use proxy::ScriptProxy;
