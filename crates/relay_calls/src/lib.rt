//! The filters that run while a request and its response are relayed, those of modules among them,
//! each called once and entered once in the log.
#![tactic(auto)]

mod answer;
mod entry;
mod filters;
mod item;
mod modules;

pub use answer::{Reply, error_of};
pub use entry::{Begun, Outcome, Told, begin, log_call};
pub use filters::{
    call_request_body_filter, call_response_body_filter, call_response_filter,
    call_response_trailer_filter, call_upstream_response_body_filter,
    call_upstream_response_filter, call_upstream_response_trailer_filter,
};
pub use item::{
    fields_item, head_item, nothing, piece_item, piece_or, trailed_item, trailers_item,
};
pub use modules::{
    call_module_request_body, call_module_response_body, call_module_response_done,
    call_module_response_header, call_module_response_trailer,
};
