//! What a request head says of its authority (RFC 9110, section 7.2; RFC 9112, section 3.2).
ghost use Rattle.std.specs.Prelude.{◌≡◌, ◌↔◌, ◌<◌, ◌∷◌, [], length, nat_lt, is_some, IsTrue, option_copied};
ghost use Rattle.http_header.specs.HeaderMap.{get_all};
ghost use Rattle.relay_authority.specs.Heads.{host_name, hosts, first_host, uri_authority_of, head_authority};

use crate::raw::raw_target_authority;
use http_header::HOST;
use relay_tasks::RequestHeader;

/// The value of the first Host field.
pub fn first_host(head: &RequestHeader) -> Option<&[u8]>
    ensures { option_copied result ≡ first_host head.now }
{
    match head.headers().get(&HOST) {
        Some(value) => Some(value.as_bytes()),
        None => None,
    }
}

fn host_count(head: &RequestHeader) -> usize
    ensures { result ≡ length (get_all head.now.fields host_name) }
{
    head.headers().get_all(&HOST).iter().count()
}

/// Whether there is a Host field.
pub fn has_host(head: &RequestHeader) -> bool
    ensures { result ≡ is_some (first_host head.now) }
{
    match first_host(head) {
        Some(_) => true,
        None => false,
    }
}

/// Whether there is no Host field.
pub fn has_no_host(head: &RequestHeader) -> bool
    ensures { IsTrue result ↔ (hosts head.now.fields ≡ []) }
{
    match first_host(head) {
        Some(_) => false,
        None => true,
    }
}

/// Whether there is more than one Host field.
pub fn has_many_hosts(head: &RequestHeader) -> bool
    ensures { result ≡ nat_lt 1 (length (hosts head.now.fields)) }
{
    host_count(head) > 1
}

/// Whether the only Host field says that.
pub fn is_only_host(head: &RequestHeader, text: &[u8]) -> bool
    ensures { IsTrue result ↔ (hosts head.now.fields ≡ text.now ∷ []) }
{
    match first_host(head) {
        Some(host) => host == text && !has_many_hosts(head),
        None => false,
    }
}

/// The authority of the head's URI.
pub fn uri_authority(head: &RequestHeader) -> Option<&[u8]>
    ensures { option_copied result ≡ uri_authority_of head.now }
{
    let uri = head.uri()?;
    let authority = uri.authority()?;
    Some(authority.as_str().as_bytes())
}

/// The head's authority: that of its URI, else that of an absolute raw target.
pub fn head_authority(head: &RequestHeader) -> Option<&[u8]>
    ensures { option_copied result ≡ head_authority head.now }
{
    match uri_authority(head) {
        Some(authority) => Some(authority),
        None => raw_target_authority(head.raw_path()).authority(),
    }
}
