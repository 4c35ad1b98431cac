//! What an attempt sends of a head, over each upstream.

use super::enumeration::head_with;
use super::{Checked, head_at, head_of, host_is, is_named};
use http::Version;
use relay_authority::*;
use relay_tasks::{Context, Error, ErrorSource, ErrorType, Fail, RequestHeader, Result};
use std::alloc::Global;

const BROWSER: Client = Client {
    custom: false,
    has_body: false,
};

const GATEWAY: Client = Client {
    custom: true,
    has_body: false,
};

const PLAIN_H2: Upstream = Upstream::H2 { tls: false };

fn blamed(why: Context, side: ErrorSource) -> Option<Fail> {
    Some(Fail::Error(Error {
        esource: side,
        ..Error::explain(ErrorType::InvalidHTTPHeader, why)
    }))
}

fn hosted(alloc: Global, target: &[u8], host: &str) -> Result<RequestHeader> {
    head_with(alloc, target, Some(host.as_bytes()))
}

// The head that goes out where no hook changes what was made ready.
fn sent(
    alloc: Global,
    head: RequestHeader,
    upstream: Upstream,
    client: Client,
) -> Result<RequestHeader> {
    let ready = ready_head(alloc, head.copy()?, upstream, client.custom)?;
    sent_head(alloc, &head, ready, upstream, client)
}

// Where a head goes over HTTP/2.
#[derive(Clone, Copy)]
struct Way {
    scheme: &'static str,
    authority: &'static str,
    path: &'static str,
}

fn goes(head: &RequestHeader, way: Way) -> bool {
    let Some(uri) = head.uri() else {
        return false;
    };
    uri.scheme_str() == Some(way.scheme)
        && is_named(head, way.authority.as_bytes())
        && head.raw_path() == way.path.as_bytes()
        && !head.headers().contains_key("host")
        && head.version() == Version::HTTP_2
}

fn is_sent(alloc: Global, head: RequestHeader, tls: bool, client: Client, way: Way) -> bool {
    match sent(alloc, head, Upstream::H2 { tls }, client) {
        Ok(sent) => goes(&sent, way),
        Err(_) => false,
    }
}

const HOSTED: Way = Way {
    scheme: "https",
    authority: "h.example",
    path: "/c",
};

const TARGETED: Way = Way {
    scheme: "http",
    authority: "t.example",
    path: "/?q",
};

const KEPT: Way = Way {
    scheme: "https",
    authority: "u.example",
    path: "/a",
};

#[test]
fn sends_an_authority_over_http2(rt: HostRuntime) -> Checked {
    let head = hosted(rt.alloc(), b"/c", "h.example")?;
    assert!(rt; is_sent(rt.alloc(), head, true, GATEWAY, HOSTED));
    let head = head_of(rt.alloc(), b"https://t.example?q")?;
    assert!(rt; is_sent(rt.alloc(), head, false, BROWSER, TARGETED));
    let head = head_at(rt.alloc(), "https://u.example/a")?;
    assert!(rt; is_sent(rt.alloc(), head, false, GATEWAY, KEPT));
    Ok(())
}

// Why a head is not sent over HTTP/2.
fn refusal(alloc: Global, target: &[u8], host: &str, client: Client) -> Result<Option<Fail>> {
    Ok(sent(alloc, hosted(alloc, target, host)?, PLAIN_H2, client).err())
}

#[test]
fn blames_each_refusal_over_http2(rt: HostRuntime) -> Checked {
    let fail = refusal(rt.alloc(), b"/\xff", "h.example", GATEWAY)?;
    assert!(rt; fail == blamed(Context::NonUtf8H2, ErrorSource::Downstream));
    let fail = refusal(rt.alloc(), b"/<", "h.example", GATEWAY)?;
    assert!(rt; fail == blamed(Context::PathInvalid, ErrorSource::Internal));
    let fail = refusal(rt.alloc(), b"/", "u@h.example", GATEWAY)?;
    assert!(rt; fail == blamed(Context::UserinfoHost, ErrorSource::Unset));
    let fail = refusal(rt.alloc(), b"/", "u@h.example", BROWSER)?;
    assert!(rt; fail == blamed(Context::UserinfoHost, ErrorSource::Internal));
    Ok(())
}

fn frames_over_h1(alloc: Global) -> Result<bool> {
    let client = Client {
        custom: false,
        has_body: true,
    };
    let framed = sent(
        alloc,
        hosted(alloc, b"/c", "h.example")?,
        Upstream::H1,
        client,
    )?;
    Ok(framed.headers().contains_key("transfer-encoding") && framed.headers().contains_key("host"))
}

#[test]
fn frames_a_body_over_http1(rt: HostRuntime) -> Checked {
    assert!(rt; frames_over_h1(rt.alloc())?);
    Ok(())
}

fn leaves_over_custom(alloc: Global) -> Result<bool> {
    let head = hosted(alloc, b"http:/a", "u@h.example")?;
    let same = sent(alloc, head, Upstream::Custom, BROWSER)?;
    Ok(host_is(&same, b"u@h.example") && same.raw_path() == b"http:/a".as_slice())
}

#[test]
fn leaves_a_head_for_a_custom_link(rt: HostRuntime) -> Checked {
    assert!(rt; leaves_over_custom(rt.alloc())?);
    Ok(())
}
