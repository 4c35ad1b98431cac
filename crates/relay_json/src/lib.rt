//! Scripts: what the client and the peers of a run give, and the rules on hooks, read from JSON; and
//! what hooks and types of errors are called in them (RFC 8259).
#![tactic(auto)]

mod names;
mod number;
mod retries;
mod rules;
mod script;
mod values;

pub use names::{
    hook_name, hook_named, named_alone, type_name, type_named, type_number, typed_alone,
};
pub use number::parse_number;
pub use retries::Retries;
pub use rules::listed;
pub use script::{PeerEntry, Script, ScriptError, read_script};
