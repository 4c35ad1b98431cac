//! The head that an attempt sends: what is done to a copy of the client's head before the hook
//! that may change it, and after (RFC 9112, section 3.2; RFC 9110, section 7.6).
ghost use Rattle.std.specs.Prelude.{◌≡◌, ◌↔◌, IsTrue, IsUtf8, None, IfOk, IsErrOf, IsOkUnless};
ghost use Rattle.http_header.specs.HeaderMap.{remove};
ghost use Rattle.relay_authority.specs.Attempt.{Finishes, IsBelowH2, ReadiesH1, ReadiesH2, SetsHostWhere, SettlesH1, SettlesH2, StripsWhere, Then, Validates, without_connection};
ghost use Rattle.relay_authority.specs.Stage.{Gives, blamed, sided};
ghost use Rattle.relay_authority.specs.Table.{Settles};

use crate::entry::validate_request_authority;
use crate::heads::head_authority;
use crate::reconcile::reconcile_upstream_authority;
use crate::sent::{set_h1_host_from_authority, set_h1_host_from_authority_if_absent};
use http::Version;
use http_header::{CONNECTION, HeaderName, TRANSFER_ENCODING, UPGRADE};
use relay_tasks::{Context, Error, ErrorSource, ErrorType, Fail, RequestHeader, Result};
use std::alloc::Global;

/// Readies a client's head for an HTTP/1 upstream. The version becomes HTTP/1.1, and the head of a
/// custom client that spoke HTTP/2 gets a Host as by `set_h1_host_from_authority_if_absent`, whose
/// refusals have the source `Downstream` here.
pub fn ready_h1_head(alloc: Global, head: RequestHeader, custom: bool) -> Result<RequestHeader>
    ensures { Gives ErrorSource.Downstream (ReadiesH1 custom) head result }
{
    let mut ready = head;
    let lacks_host = spoke_h2(&ready, custom);
    ready.set_version(Version::HTTP_11);
    if !lacks_host {
        return Ok(ready);
    }
    match set_h1_host_from_authority_if_absent(alloc, &mut ready) {
        Ok(()) => Ok(ready),
        Err(fail) => Err(of_client(fail)),
    }
}

// Whether the head is that of a custom client that spoke HTTP/2.
fn spoke_h2(head: &RequestHeader, custom: bool) -> bool
    ensures { IsTrue result ↔ (IsTrue custom × (head.now.version ≡ Version.HTTP_2)) }
{
    custom && head.version() == Version::HTTP_2
}

/// Makes a filtered head for an HTTP/1 upstream say one authority, for a client that is not
/// custom: reconciles it, sets its Host where the client had one or there is an authority, and
/// validates it. Their refusals have the source `Internal` here.
pub fn settle_h1_head(
    alloc: Global,
    head: RequestHeader,
    client_had_host: bool,
) -> Result<RequestHeader>
    ensures { Gives ErrorSource.Internal (SettlesH1 client_had_host) head result }
{
    let mut settled = head;
    match settle_h1(alloc, &mut settled, client_had_host) {
        Ok(()) => Ok(settled),
        Err(fail) => Err(of_relay(fail)),
    }
}

fn settle_h1(alloc: Global, head: &mut RequestHeader, client_had_host: bool) -> Result<()>
    ensures { Finishes (SettlesH1 client_had_host head.old) head.new result }
{
    reconcile_upstream_authority(alloc, head)?;
    settle_host(alloc, head, client_had_host)
}

fn settle_host(alloc: Global, head: &mut RequestHeader, client_had_host: bool) -> Result<()>
    ensures { Finishes (Then (SetsHostWhere client_had_host) Validates head.old) head.new result }
{
    set_host_where(alloc, head, client_had_host)?;
    validate(head)
}

fn set_host_where(alloc: Global, head: &mut RequestHeader, client_had_host: bool) -> Result<()>
    ensures { Settles (SetsHostWhere client_had_host head.old) head.old head.new result }
{
    if !client_had_host && head_authority(head).is_none() {
        return Ok(());
    }
    set_h1_host_from_authority(alloc, head)
}

fn validate(head: &RequestHeader) -> Result<()>
    ensures { Finishes (Validates head.now) head.now result }
{
    match validate_request_authority(head) {
        Ok(()) => Ok(()),
        Err(error) => Err(Fail::Error(error)),
    }
}

/// Readies a client's head for an HTTP/2 upstream. From a head below HTTP/2, and from one of a
/// custom client, the fields Transfer-Encoding, Connection, Upgrade, Keep-Alive and
/// Proxy-Connection are removed; the version becomes HTTP/2. Refused where the raw target is not
/// UTF-8, with the context `NonUtf8H2` and the source `Downstream`. It takes no memory.
pub fn ready_h2_head(head: RequestHeader, custom: bool) -> std::result::Result<RequestHeader, Error>
    ensures ok { IfOk result (λ ready. ReadiesH2 custom head
        (record { refusal = None; head = ready })) }
    ensures refused { IsErrOf result (blamed ErrorSource.Downstream Context.NonUtf8H2)
        ↔ ¬ (IsUtf8 head.target) }
    ensures causes { IsOkUnless result (blamed ErrorSource.Downstream Context.NonUtf8H2) }
{
    if !head.raw_path_is_utf8() {
        return Err(Error::explain(ErrorType::InvalidHTTPHeader, Context::NonUtf8H2).into_down());
    }
    let mut ready = head;
    strip_where(&mut ready, custom);
    ready.set_version(Version::HTTP_2);
    Ok(ready)
}

// Removes what concerns one connection of HTTP/1.
fn strip(head: &mut RequestHeader)
    ensures { head.new ≡ record head.old { fields = without_connection head.old.fields } }
{
    drop_field(head, TRANSFER_ENCODING);
    drop_field(head, CONNECTION);
    drop_field(head, UPGRADE);
    drop_field(head, HeaderName::from_static("keep-alive"));
    drop_field(head, HeaderName::from_static("proxy-connection"));
}

fn drop_field(head: &mut RequestHeader, name: HeaderName)
    ensures { head.new ≡ record head.old { fields = remove head.old.fields name } }
{
    let _ = head.remove_header(&name);
}

fn strip_where(head: &mut RequestHeader, custom: bool)
    ensures { StripsWhere custom head.old head.new }
{
    if custom || is_below_h2(head) {
        strip(head);
    }
}

fn is_below_h2(head: &RequestHeader) -> bool
    ensures { IsTrue result ↔ IsBelowH2 head.now.version }
{
    head.version() != Version::HTTP_2 && head.version() != Version::HTTP_3
}

/// Makes a filtered head for an HTTP/2 upstream say one authority, for a client that is not
/// custom: reconciles it and validates it. Their refusals have the source `Internal` here.
pub fn settle_h2_head(alloc: Global, head: RequestHeader) -> Result<RequestHeader>
    ensures { Gives ErrorSource.Internal SettlesH2 head result }
{
    let mut settled = head;
    match settle_h2(alloc, &mut settled) {
        Ok(()) => Ok(settled),
        Err(fail) => Err(of_relay(fail)),
    }
}

fn settle_h2(alloc: Global, head: &mut RequestHeader) -> Result<()>
    ensures { Finishes (SettlesH2 head.old) head.new result }
{
    reconcile_upstream_authority(alloc, head)?;
    validate(head)
}

// The failure, on the client's side.
fn of_client(fail: Fail) -> Fail
    ensures { result ≡ sided ErrorSource.Downstream fail }
{
    of_side(fail, ErrorSource::Downstream)
}

/// The failure, on the relay's own side.
pub fn of_relay(fail: Fail) -> Fail
    ensures { result ≡ sided ErrorSource.Internal fail }
{
    of_side(fail, ErrorSource::Internal)
}

fn of_side(fail: Fail, side: ErrorSource) -> Fail
    ensures { result ≡ sided side fail }
{
    match fail {
        Fail::OutOfMemory => Fail::OutOfMemory,
        Fail::Error(error) => Fail::Error(Error {
            esource: side,
            ..error
        }),
    }
}
