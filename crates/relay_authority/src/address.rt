//! Whom a filtered head is for, as HTTP/2 says it: by its URI, and by no Host (RFC 9113, section
//! 8.3.1).
ghost use Rattle.std.specs.Prelude.{◌≡◌, ◌↔◌, Some, None, IfOk, IsTrue, IsOkUnless, option_map, option_copied};
ghost use Rattle.relay_authority.specs.Address.{Addresses, LacksAuthority, MovesHost, NamesHost, raw_host, target_authority, without_host};
ghost use Rattle.relay_authority.specs.Stage.{Makes};

use crate::attempt::of_relay;
use crate::edit::{owned, refusal};
use crate::heads::{first_host, has_no_host, uri_authority};
use crate::http2::{h2_path_and_query, update_h2_scheme_authority};
use crate::raw::raw_target_authority;
use http_header::HOST;
use http_uri::PathAndQuery;
use relay_tasks::{Context, RequestHeader, Result};
use std::alloc::Global;

/// Moves whom a filtered head is for from Host into its URI, for an HTTP/2 upstream. The raw host
/// is the first Host, and for a client that is not custom else the authority of an absolute target.
/// With one, the URI is made as by `update_h2_scheme_authority` of it, `tls` and the path of the
/// target; else the URI stays. No Host is left. Refused, with the source `Internal`, where there is
/// neither a raw host nor a URI with an authority (`NoAuthorityH2`), and as by `h2_path_and_query`;
/// and as by `update_h2_scheme_authority`, with the source `Unset`.
pub fn address_h2_head(
    alloc: Global,
    head: RequestHeader,
    custom: bool,
    tls: bool,
) -> Result<RequestHeader>
    ensures { Makes (Addresses custom tls head) result }
{
    if lacks_authority(&head, custom) {
        return Err(of_relay(refusal(Context::NoAuthorityH2)));
    }
    match h2_path_and_query(alloc, &head) {
        Ok(path) => move_host(alloc, head, custom, tls, path),
        Err(fail) => Err(of_relay(fail)),
    }
}

fn target_authority(head: &RequestHeader, custom: bool) -> Option<&[u8]>
    ensures { option_copied result ≡ target_authority custom head.now }
{
    if custom {
        return None;
    }
    raw_target_authority(head.raw_path()).authority()
}

fn lacks_authority(head: &RequestHeader, custom: bool) -> bool
    ensures { IsTrue result ↔ LacksAuthority custom head.now }
{
    has_no_host(head) && uri_authority(head).is_none() && target_authority(head, custom).is_none()
}

fn raw_host(head: &RequestHeader, custom: bool) -> Option<&[u8]>
    ensures { option_copied result ≡ raw_host custom head.now }
{
    match first_host(head) {
        Some(host) => Some(host),
        None => target_authority(head, custom),
    }
}

fn move_host(
    alloc: Global,
    head: RequestHeader,
    custom: bool,
    tls: bool,
    path: PathAndQuery,
) -> Result<RequestHeader>
    ensures { Makes (NamesHost tls path (raw_host custom head) (without_host head)) result }
{
    let host = owned(alloc, raw_host(&head, custom))?;
    let mut bare = head;
    let _ = bare.remove_header(&HOST);
    match host {
        Some(host) => name_host(alloc, bare, host, tls, path),
        None => Ok(bare),
    }
}

fn name_host(
    alloc: Global,
    head: RequestHeader,
    host: Vec<u8>,
    tls: bool,
    path: PathAndQuery,
) -> Result<RequestHeader>
    ensures { Makes (NamesHost tls path (Some host.items) head) result }
{
    let mut named = head;
    match update_h2_scheme_authority(alloc, &mut named, host.as_slice(), tls, path) {
        Ok(()) => Ok(named),
        Err(fail) => Err(fail),
    }
}
