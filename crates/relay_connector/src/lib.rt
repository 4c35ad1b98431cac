//! The connector of the relay: it hands out links to peers, of bytes or of whole messages, and takes
//! each of them back.
#![tactic(auto)]

mod connector;
mod script_connector;
mod upstream;

pub use connector::{Connector, LinkOf, Returned};
pub use script_connector::{AnyScript, PeerScript, ScriptConnector};
pub use upstream::Upstream;
