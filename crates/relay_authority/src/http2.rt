//! Path and authority of a request that is sent over HTTP/2 (RFC 9113, section 8.3.1).
ghost use Rattle.std.specs.Prelude.{◌≡◌, ◌∷◌, ◌↔◌, Some, IfOk, IsTrue, IsUtf8};
ghost use Rattle.http_uri.specs.Uri.{HasParts};
ghost use Rattle.relay_authority.specs.Http2.{Answers, PathFor, SetsAuthority, TakenAs, is_origin, path_of_rest, scheme_by};
ghost use Rattle.relay_authority.specs.Table.{Settles};

use crate::authority::has_userinfo;
use crate::edit::{new_authority, refusal};
use crate::raw::raw_target_authority;
use crate::target::RawTargetAuthority;
use http_uri::{Authority, Parts, PathAndQuery, Scheme, Uri, UriError};
use relay_tasks::{Context, Fail, RequestHeader, Result};
use std::alloc::{AllocError, Global};
use std::str;

/// The path and query that the raw target names: that of the origin form, `*`, or what follows
/// the authority of the absolute form, with a `/` in front where it has none; `/` for other
/// targets. A fragment is left out. Refused, as `InvalidHTTPHeader`, where the target is not
/// UTF-8 (`NonUtf8H2`), ambiguous (`Ambiguous`), or no path and query (`PathInvalid`).
pub fn h2_path_and_query(alloc: Global, head: &RequestHeader) -> Result<PathAndQuery>
    ensures { Answers (PathFor head.now.target) result }
{
    path_of_target(alloc, head.raw_path())
}

fn path_of_target(alloc: Global, target: &[u8]) -> Result<PathAndQuery>
    ensures { Answers (PathFor target.now) result }
{
    if !is_utf8(target) {
        return Err(refusal(Context::NonUtf8H2));
    }
    if is_origin(target) {
        return taken_path(alloc, target);
    }
    match raw_target_authority(target) {
        RawTargetAuthority::None => taken_path(alloc, b"/"),
        RawTargetAuthority::AmbiguousAuthority => Err(refusal(Context::Ambiguous)),
        RawTargetAuthority::Absolute {
            scheme: _,
            authority: _,
            path_and_query,
        } => path_of_rest(alloc, path_and_query),
    }
}

fn is_utf8(target: &[u8]) -> bool
    ensures { IsTrue result ↔ IsUtf8 target.now }
{
    str::from_utf8(target).is_ok()
}

fn is_origin(target: &[u8]) -> bool
    ensures { result ≡ is_origin target.now }
{
    target.first() == Some(&b'/') || target == b"*".as_slice()
}

fn path_of_rest(alloc: Global, rest: &[u8]) -> Result<PathAndQuery>
    ensures { Answers (TakenAs (path_of_rest rest.now)) result }
{
    if rest.is_empty() {
        return taken_path(alloc, b"/");
    }
    if rest[0] != b'?' {
        return taken_path(alloc, rest);
    }
    let text = slashed(alloc, rest)?;
    taken_path(alloc, text.as_slice())
}

fn slashed(alloc: Global, rest: &[u8]) -> std::result::Result<Vec<u8>, AllocError>
    ensures { IfOk result (λ text. text.items ≡ 47 ∷ rest.now) }
{
    let mut text = vec![in alloc; b'/']?;
    text.extend_from_slice(rest)?;
    Ok(text)
}

fn taken_path(alloc: Global, text: &[u8]) -> Result<PathAndQuery>
    ensures { Answers (TakenAs text.now) result }
{
    match PathAndQuery::from_bytes(alloc, text) {
        Ok(path) => Ok(path),
        Err(UriError::Invalid(_)) => Err(refusal(Context::PathInvalid)),
        Err(UriError::OutOfMemory) => Err(Fail::OutOfMemory),
    }
}

/// Makes the URI of a scheme, `https` or `http` by `tls`, the raw host and the path. Refused, as
/// `InvalidHTTPHeader`, where the host is no authority (`HostInvalid`) or has userinfo
/// (`UserinfoHost`). After an error the head is as it was.
pub fn update_h2_scheme_authority(
    alloc: Global,
    head: &mut RequestHeader,
    raw_host: &[u8],
    tls: bool,
    path: PathAndQuery,
) -> Result<()>
    ensures { Settles (SetsAuthority head.old raw_host.now tls path) head.old head.new result }
{
    let authority = new_authority(alloc, raw_host)?;
    if has_userinfo(raw_host) {
        return Err(refusal(Context::UserinfoHost));
    }
    head.set_uri(absolute_uri(tls, authority, path))
}

fn absolute_uri(tls: bool, authority: Authority, path: PathAndQuery) -> Uri
    ensures { HasParts result (Some (scheme_by tls)) (Some authority) path }
{
    let scheme = if tls { Scheme::HTTPS } else { Scheme::HTTP };
    let parts = Parts {
        scheme: Some(scheme),
        authority: Some(authority),
        path_and_query: Some(path),
    };
    Uri::from_parts(parts).unwrap()
}
