//! Which request heads are refused for their authority (RFC 9112, section 3.2).
ghost use Rattle.std.specs.Prelude.{◌≡◌, ◌↔◌, IsTrue};
ghost use Rattle.relay_authority.specs.Entry.{Entered, Validated, HostHasUserinfo, HostIsNoAuthority, AuthorityHasUserinfo, HostDisagrees, HostDisagreesWith, LacksHost};
ghost use Rattle.relay_authority.specs.Table.{Judges, judged};
ghost use Rattle.relay_authority.specs.Target.{is_ambiguous};

use crate::authority::{agree, has_userinfo, is_authority};
use crate::heads::{first_host, has_many_hosts, has_no_host, head_authority};
use crate::raw::raw_target_authority;
use crate::target::RawTargetAuthority;
use http::Version;
use relay_tasks::{Context, Error, ErrorType, RequestHeader};

/// Refuses a head whose Host and target do not name one authority, without userinfo. Each
/// refusal is `InvalidHTTPHeader`, with the context of the first of these that applies: more
/// than one Host (`HostCount`), userinfo in Host (`UserinfoHost`), a Host that is not empty and
/// no authority (`HostInvalid`), an ambiguous raw target (`Ambiguous`), userinfo in the head's
/// authority (`Userinfo`), and an authority and a Host that differ in more than case
/// (`HostMismatch`). It takes no memory.
pub fn validate_request_authority(head: &RequestHeader) -> Result<(), Error>
    ensures { Judges (Validated head.now) result }
{
    judged(refusal(head))
}

/// What an HTTP/1 client's head is held to when it comes in: HTTP/1.1 has a Host (`HostCount`),
/// and then as `validate_request_authority`.
pub fn check_entry(head: &RequestHeader) -> Result<(), Error>
    ensures { Judges (Entered head.now) result }
{
    if lacks_host(head) {
        return judged(Some(Context::HostCount));
    }
    validate_request_authority(head)
}

fn judged(refusal: Option<Context>) -> Result<(), Error>
    ensures { result ≡ judged refusal }
{
    match refusal {
        Some(why) => Err(Error::explain(ErrorType::InvalidHTTPHeader, why)),
        None => Ok(()),
    }
}

// The table, line by line.
fn refusal(head: &RequestHeader) -> Option<Context>
    ensures { Validated head.now result }
{
    if has_many_hosts(head) {
        return Some(Context::HostCount);
    }
    if host_has_userinfo(head) {
        return Some(Context::UserinfoHost);
    }
    if host_is_no_authority(head) {
        return Some(Context::HostInvalid);
    }
    if is_ambiguous(head.raw_path()) {
        return Some(Context::Ambiguous);
    }
    if authority_has_userinfo(head) {
        return Some(Context::Userinfo);
    }
    if host_disagrees(head) {
        return Some(Context::HostMismatch);
    }
    None
}

fn host_has_userinfo(head: &RequestHeader) -> bool
    ensures { IsTrue result ↔ HostHasUserinfo head.now }
{
    match first_host(head) {
        Some(host) => has_userinfo(host),
        None => false,
    }
}

fn host_is_no_authority(head: &RequestHeader) -> bool
    ensures { IsTrue result ↔ HostIsNoAuthority head.now }
{
    match first_host(head) {
        Some(host) => !host.is_empty() && !is_authority(host),
        None => false,
    }
}

fn is_ambiguous(target: &[u8]) -> bool
    ensures { result ≡ is_ambiguous target.now }
{
    match raw_target_authority(target) {
        RawTargetAuthority::AmbiguousAuthority => true,
        RawTargetAuthority::None => false,
        RawTargetAuthority::Absolute {
            scheme: _,
            authority: _,
            path_and_query: _,
        } => false,
    }
}

fn authority_has_userinfo(head: &RequestHeader) -> bool
    ensures { IsTrue result ↔ AuthorityHasUserinfo head.now }
{
    match head_authority(head) {
        Some(authority) => has_userinfo(authority),
        None => false,
    }
}

fn host_disagrees(head: &RequestHeader) -> bool
    ensures { IsTrue result ↔ HostDisagrees head.now }
{
    match head_authority(head) {
        Some(authority) => disagrees(head, authority),
        None => false,
    }
}

fn disagrees(head: &RequestHeader, authority: &[u8]) -> bool
    ensures { IsTrue result ↔ HostDisagreesWith head.now authority.now }
{
    match first_host(head) {
        Some(host) => !agree(authority, host),
        None => false,
    }
}

fn lacks_host(head: &RequestHeader) -> bool
    ensures { IsTrue result ↔ LacksHost head.now }
{
    head.version() == Version::HTTP_11 && has_no_host(head)
}
