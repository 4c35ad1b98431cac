//! Host, target, path and framing of requests: whom a request is for, and how the sent head says
//! so.
#![tactic(auto)]

mod address;
mod attempt;
mod authority;
mod edit;
mod entry;
mod framing;
mod heads;
mod http2;
mod raw;
mod reconcile;
mod sent;
mod target;
mod upstream;

pub use address::address_h2_head;
pub use attempt::{ready_h1_head, ready_h2_head, settle_h1_head, settle_h2_head};
pub use entry::{check_entry, validate_request_authority};
pub use framing::{finalize_h1_upstream_request_framing, is_h1_upgrade_req};
pub use http2::{h2_path_and_query, update_h2_scheme_authority};
pub use raw::raw_target_authority;
pub use reconcile::reconcile_upstream_authority;
pub use sent::{set_h1_host_from_authority, set_h1_host_from_authority_if_absent};
pub use target::{AuthorityPolicy, RawTargetAuthority};
pub use upstream::{Client, Upstream, ready_head, sent_head};
