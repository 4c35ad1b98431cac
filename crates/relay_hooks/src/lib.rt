//! The application of a relay: its hooks, what each may do to a request and to its session, and
//! what it allows.
#![tactic(auto)]

mod app;
mod default_app;
pub mod defaults;
mod failing;
mod filters;
mod hooks;
mod purge;

pub use app::{App, Counted};
pub use default_app::Defaults;
pub use failing::{FailToProxy, ProxyWarnLogContext};
pub use filters::Filters;
pub use hooks::ProxyHttp;
pub use purge::PurgeStatus;
pub use relay_modules::{HttpModule, NoModules, Session};
