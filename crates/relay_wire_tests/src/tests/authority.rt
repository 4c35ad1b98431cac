//! Vectors from outside: what each call makes of a head, with ample memory.

mod enumeration;
mod lengths;
mod plain;
mod sending;

use http::{Method, Version};
use http_header::{HOST, HeaderName, HeaderValue, UPGRADE};
use http_uri::{PathAndQuery, Uri};
use relay_authority::*;
use relay_tasks::{Context, Error, ErrorType, Fail, RequestHeader, Result};
use std::alloc::Global;
use std::test::Fail as Failed;

type Checked = std::result::Result<(), Failed>;

fn refused(why: Context) -> Option<Fail> {
    Some(Fail::Error(Error::explain(ErrorType::InvalidHTTPHeader, why)))
}

fn head_of(alloc: Global, target: &[u8]) -> Result<RequestHeader> {
    RequestHeader::build(alloc, &Method::GET, target)
}

fn head_at(alloc: Global, uri: &'static str) -> Result<RequestHeader> {
    let Ok(uri) = Uri::from_static(uri) else {
        return Err(Fail::OutOfMemory);
    };
    let mut head = head_of(alloc, b"/")?;
    head.set_uri(uri)?;
    Ok(head)
}

// Without memory the head stays as it is.
fn with_field(mut head: RequestHeader, name: HeaderName, value: HeaderValue) -> RequestHeader {
    let _ = head.insert_header(name, value);
    head
}

fn host_is(head: &RequestHeader, want: &[u8]) -> bool {
    match head.headers().get("host") {
        Some(host) => host.as_bytes() == want && head.headers().len() == 1,
        None => false,
    }
}

/// Whether a head of that URI gets that Host in place of its own.
fn gets_host(alloc: Global, uri: &'static str, want: &str) -> Result<bool> {
    let host = HeaderValue::from_static("host.example");
    let mut head = with_field(head_at(alloc, uri)?, HOST, host);
    let set = set_h1_host_from_authority(alloc, &mut head);
    Ok(set.is_ok() && host_is(&head, want.as_bytes()) && check_entry(&head).is_ok())
}

/// Why a head of that URI without Host gets none, if it gets none.
fn host_refusal(alloc: Global, uri: &'static str) -> Result<Option<Fail>> {
    let mut head = head_at(alloc, uri)?;
    Ok(set_h1_host_from_authority(alloc, &mut head).err())
}

/// Whether a head of that URI without Host gets this one.
fn gets_absent_host(alloc: Global, uri: &'static str, want: &str) -> Result<bool> {
    let mut head = head_at(alloc, uri)?;
    let set = set_h1_host_from_authority_if_absent(alloc, &mut head);
    Ok(set.is_ok() && host_is(&head, want.as_bytes()))
}

#[test]
fn takes_host_from_the_authority(rt: HostRuntime) -> Checked {
    let uri = "https://authority.example/test";
    assert!(rt; gets_host(rt.alloc(), uri, "authority.example")?);
    assert!(rt; gets_absent_host(rt.alloc(), "/test", "")?);
    let uri = "https://user@authority.example/test";
    assert!(rt; gets_absent_host(rt.alloc(), uri, "user@authority.example")?);
    assert!(rt; host_refusal(rt.alloc(), uri)? == refused(Context::Userinfo));
    Ok(())
}

/// Whether a head with another Host gets that target.
fn is_reconciled(alloc: Global, head: RequestHeader, target: &[u8]) -> Result<bool> {
    let mut head = with_field(head, HOST, HeaderValue::from_static("origin.example"));
    let done = reconcile_upstream_authority(alloc, &mut head);
    let agrees = validate_request_authority(&head).is_ok();
    Ok(done.is_ok() && agrees && head.raw_path() == target)
}

#[test]
fn reconciles_a_uri_and_a_raw_target(rt: HostRuntime) -> Checked {
    let head = head_at(rt.alloc(), "https://client.example/path?q=1")?;
    assert!(rt; is_reconciled(rt.alloc(), head, b"/path?q=1")?);
    let head = head_of(rt.alloc(), b"http://client.example/path?q=1")?;
    assert!(rt; is_reconciled(rt.alloc(), head, b"http://origin.example/path?q=1")?);
    Ok(())
}

/// Whether the target is cut into these parts.
fn is_cut(target: &[u8], name: &[u8], named: &[u8], rest: &[u8]) -> bool {
    match raw_target_authority(target) {
        RawTargetAuthority::Absolute {
            scheme,
            authority,
            path_and_query,
        } => scheme == name && authority == named && path_and_query == rest,
        RawTargetAuthority::None | RawTargetAuthority::AmbiguousAuthority => false,
    }
}

#[test]
fn cuts_a_raw_target(rt: HostRuntime) {
    let target = b"http://client.example/path?q=1";
    assert!(rt; is_cut(target, b"http", b"client.example", b"/path?q=1"));
}

/// Whether a head of that target has that path over HTTP/2.
fn has_path(alloc: Global, target: &str, want: &str) -> Result<bool> {
    let head = head_of(alloc, target.as_bytes())?;
    match h2_path_and_query(alloc, &head) {
        Ok(path) => Ok(path.as_str() == want),
        Err(_) => Ok(false),
    }
}

fn path_refusal(alloc: Global, target: &[u8]) -> Result<Option<Fail>> {
    let head = head_of(alloc, target)?;
    Ok(h2_path_and_query(alloc, &head).err())
}

#[test]
fn gives_http2_paths(rt: HostRuntime) -> Checked {
    for (target, want) in [
        ("http://example.com?only=query", "/?only=query"),
        ("http://example.com", "/"),
        ("foo/bar", "/"),
    ] {
        assert!(rt; has_path(rt.alloc(), target, want)?, "{target}");
    }
    let refusal = path_refusal(rt.alloc(), b"http:/\\/\\other.example/admin")?;
    assert!(rt; refusal == refused(Context::Ambiguous));
    Ok(())
}

/// Why that Host cannot become the head's authority, if it cannot.
fn refusal_of(alloc: Global, head: &mut RequestHeader, host: &str) -> Option<Fail> {
    match PathAndQuery::from_static("/a") {
        Ok(path) => update_h2_scheme_authority(alloc, head, host.as_bytes(), true, path).err(),
        Err(_) => Some(Fail::OutOfMemory),
    }
}

/// Whether the URI of the head names that authority.
fn is_named(head: &RequestHeader, host: &[u8]) -> bool {
    let Some(uri) = head.uri() else {
        return false;
    };
    match uri.authority() {
        Some(named) => named.as_str().as_bytes() == host,
        None => false,
    }
}

fn keeps_host(alloc: Global, host: &str) -> Result<bool> {
    let mut head = head_of(alloc, b"/")?;
    let refusal = refusal_of(alloc, &mut head, host);
    Ok(refusal.is_none() && is_named(&head, host.as_bytes()))
}

fn refuses_host(alloc: Global, host: &str, why: Context) -> Result<bool> {
    let mut head = head_of(alloc, b"/")?;
    Ok(refusal_of(alloc, &mut head, host) == refused(why))
}

#[test]
fn keeps_and_refuses_http2_hosts(rt: HostRuntime) -> Checked {
    assert!(rt; keeps_host(rt.alloc(), "example.com:")?);
    assert!(rt; keeps_host(rt.alloc(), "[::1]")?);
    assert!(rt; refuses_host(rt.alloc(), "example.com:123:345", Context::HostInvalid)?);
    assert!(rt; refuses_host(rt.alloc(), "user@example.com", Context::UserinfoHost)?);
    Ok(())
}

fn frames_body(alloc: Global) -> Result<bool> {
    let mut head = head_of(alloc, b"/")?;
    let framed = finalize_h1_upstream_request_framing(&mut head, true);
    let chunked = head.headers().contains_key("transfer-encoding");
    Ok(framed.is_ok() && chunked && !is_h1_upgrade_req(&head))
}

fn upgrades(alloc: Global) -> Result<bool> {
    let value = HeaderValue::from_static("websocket");
    let head = with_field(head_of(alloc, b"/")?, UPGRADE, value);
    Ok(is_h1_upgrade_req(&head))
}

#[test]
fn frames_a_body(rt: HostRuntime) -> Checked {
    assert!(rt; frames_body(rt.alloc())?);
    assert!(rt; upgrades(rt.alloc())?);
    Ok(())
}

fn readies_h1(alloc: Global) -> Result<RequestHeader> {
    let mut head = head_at(alloc, "https://client.example/path")?;
    head.set_version(Version::HTTP_2);
    ready_h1_head(alloc, head, true)
}

fn settles_h1(alloc: Global) -> Result<bool> {
    let ready = readies_h1(alloc)?;
    let was_named = host_is(&ready, b"client.example");
    let host = HeaderValue::from_static("origin.example");
    let sent = settle_h1_head(alloc, with_field(ready, HOST, host), true)?;
    Ok(was_named && host_is(&sent, b"origin.example"))
}

fn settles_h2(alloc: Global) -> Result<bool> {
    let value = HeaderValue::from_static("h2c");
    let head = with_field(head_of(alloc, b"/path")?, UPGRADE, value);
    let Ok(ready) = ready_h2_head(head, false) else {
        return Ok(false);
    };
    let sent = settle_h2_head(alloc, ready)?;
    Ok(sent.version() == Version::HTTP_2 && !sent.headers().contains_key("upgrade"))
}

#[test]
fn readies_and_settles(rt: HostRuntime) -> Checked {
    assert!(rt; settles_h1(rt.alloc())?);
    assert!(rt; settles_h2(rt.alloc())?);
    Ok(())
}
