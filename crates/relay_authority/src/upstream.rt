//! The head that an attempt sends, by its upstream and its client: what is done to a copy of the
//! client's head before the hook that may change it, and behind it (RFC 9112, section 3.2; RFC
//! 9113, section 8.3.1).
ghost use Rattle.std.specs.Prelude.{◌≡◌, IfOk, IsTrue};
ghost use Rattle.relay_authority.specs.Attempt.{SettlesH1, SettlesH2};
ghost use Rattle.relay_authority.specs.Kept.{KeepsFields, SaysFraming};
ghost use Rattle.relay_authority.specs.Stage.{Gives, Makes, OnSide, Unless};
ghost use Rattle.relay_authority.specs.Upstream.{FramesBody, ReadyHead, SentH1, SentH2, SentHead};

use crate::address::address_h2_head;
use crate::attempt::{ready_h1_head, ready_h2_head, settle_h1_head, settle_h2_head};
use crate::framing::finalize_h1_upstream_request_framing;
use crate::heads::has_host;
use relay_tasks::{ErrorSource, Fail, RequestHeader, Result};
use std::alloc::Global;

/// What a head is sent over: HTTP/1, HTTP/2 with or without TLS, or a custom link.
#[derive(Clone, Copy, Debug, PartialEq, Eq)]
pub enum Upstream {
    H1,
    H2 { tls: bool },
    Custom,
}

/// Whose head is sent: whether the client is custom, and whether its body is not empty.
#[derive(Clone, Copy, Debug, PartialEq, Eq)]
pub struct Client {
    pub custom: bool,
    pub has_body: bool,
}

/// Makes a copy of a client's head ready for the hook that may change it, as `ready_h1_head` and
/// `ready_h2_head` do. A head for a custom link is left as it is.
pub fn ready_head(
    alloc: Global,
    head: RequestHeader,
    upstream: Upstream,
    custom: bool,
) -> Result<RequestHeader>
    ensures { Makes (ReadyHead upstream custom head) result }
{
    match upstream {
        Upstream::H1 => ready_h1_head(alloc, head, custom),
        Upstream::H2 { tls: _ } => match ready_h2_head(head, custom) {
            Ok(ready) => Ok(ready),
            Err(error) => Err(Fail::Error(error)),
        },
        Upstream::Custom => Ok(head),
    }
}

/// Makes the head that is sent of a filtered head; `asked` is the client's own head. Over HTTP/1
/// it is settled, unless the client is custom, as by `settle_h1_head`, and its body is framed, as
/// by `finalize_h1_upstream_request_framing`, whose refusals have the source `Unset`. Over HTTP/2
/// it is settled, unless the client is custom, as by `settle_h2_head`, and then addressed, as by
/// `address_h2_head`. A head for a custom link is sent as it is.
pub fn sent_head(
    alloc: Global,
    asked: &RequestHeader,
    filtered: RequestHeader,
    upstream: Upstream,
    client: Client,
) -> Result<RequestHeader>
    ensures table { Makes (SentHead upstream client asked.now filtered) result }
    // Over HTTP/1 a head that says how its body is framed keeps all but its target and its Host.
    ensures kept { IfOk result (λ sent. upstream ≡ Upstream.H1
        → (IsTrue client.has_body → SaysFraming filtered) → KeepsFields filtered sent) }
{
    match upstream {
        Upstream::H1 => sent_h1_head(alloc, filtered, client, has_host(asked)),
        Upstream::H2 { tls } => sent_h2_head(alloc, filtered, client, tls),
        Upstream::Custom => Ok(filtered),
    }
}

fn sent_h1_head(
    alloc: Global,
    head: RequestHeader,
    client: Client,
    had_host: bool,
) -> Result<RequestHeader>
    ensures { Makes (SentH1 client had_host head) result }
{
    let settled = h1_settled(alloc, head, client.custom, had_host)?;
    framed(settled, client.has_body)
}

fn h1_settled(
    alloc: Global,
    head: RequestHeader,
    custom: bool,
    had_host: bool,
) -> Result<RequestHeader>
    ensures { Makes (Unless custom (OnSide ErrorSource.Internal (SettlesH1 had_host)) head) result }
{
    if custom {
        return Ok(head);
    }
    settle_h1_head(alloc, head, had_host)
}

fn framed(head: RequestHeader, has_body: bool) -> Result<RequestHeader>
    ensures { Gives ErrorSource.Unset (FramesBody has_body) head result }
{
    let mut framed = head;
    match finalize_h1_upstream_request_framing(&mut framed, has_body) {
        Ok(()) => Ok(framed),
        Err(fail) => Err(fail),
    }
}

fn sent_h2_head(
    alloc: Global,
    head: RequestHeader,
    client: Client,
    tls: bool,
) -> Result<RequestHeader>
    ensures { Makes (SentH2 client tls head) result }
{
    let settled = h2_settled(alloc, head, client.custom)?;
    address_h2_head(alloc, settled, client.custom, tls)
}

fn h2_settled(alloc: Global, head: RequestHeader, custom: bool) -> Result<RequestHeader>
    ensures { Makes (Unless custom (OnSide ErrorSource.Internal SettlesH2) head) result }
{
    if custom {
        return Ok(head);
    }
    settle_h2_head(alloc, head)
}
