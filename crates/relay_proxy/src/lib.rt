//! The proxy itself: one request, from the client's bytes to its outcome.
#![tactic(auto)]

mod answering;
mod client_head;
mod connecting;
mod failing;
mod finish;
mod opening;
mod preparing;
mod proxy;
mod purging;
mod relayable;
mod relaying;
mod turn;
mod unlinked;

pub use proxy::{HttpProxy, Outside, RequestMachine, ServerConf, http_proxy};
pub use relay_hooks::{Defaults, ProxyHttp};
pub use relay_request::{AttemptList, AttemptRecord, Outcome, Processed, RunRecord, RunStep};
