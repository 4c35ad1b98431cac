//! The hooks that do not run while a message is relayed, each called once and entered once in the
//! log; and the order in which all hooks are called.
#![tactic(auto)]

mod attempt;
mod before;
mod ending;
mod item;
mod message;
mod modules;
mod purge;
mod settled;

pub use attempt::{
    call_connected_to_upstream, call_custom_forwarding, call_error_while_proxy,
    call_fail_to_connect, call_suppress_proxy_warn_log, call_upstream_peer,
    call_upstream_request_filter,
};
pub use before::{
    call_early_request_filter, call_new_ctx, call_on_connection_reuse, call_proxy_upstream_filter,
    call_request_filter,
};
pub use ending::{
    call_fail_to_proxy, call_logging, call_persist_connection_context, call_request_summary,
    call_suppress_error_log,
};
pub use message::{
    call_downstream_custom_message_proxy_filter, call_upstream_custom_message_proxy_filter,
};
pub use modules::{call_allow_spawning_subrequest, call_module_request_header, make_modules};
pub use purge::{call_is_purge, call_purge_action, call_purge_response_filter};
