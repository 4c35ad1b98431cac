//! Framing and upgrade of a request that is sent over HTTP/1 (RFC 9112, section 6).
ghost use Rattle.std.specs.Prelude.{◌↔◌, IsTrue};
ghost use Rattle.http_header.specs.HeaderMap.{ContainsKey};
ghost use Rattle.relay_authority.specs.Framing.{Frames, IsFramed, IsUpgrade, content_length, transfer_encoding};
ghost use Rattle.relay_authority.specs.Table.{Settles};

use crate::edit::put_field;
use http::Version;
use http_header::{HeaderValue, TRANSFER_ENCODING};
use relay_tasks::{RequestHeader, Result};

fn has_content_length(head: &RequestHeader) -> bool
    ensures { IsTrue result ↔ ContainsKey head.now.fields content_length }
{
    head.headers().contains_key("content-length")
}

fn has_transfer_encoding(head: &RequestHeader) -> bool
    ensures { IsTrue result ↔ ContainsKey head.now.fields transfer_encoding }
{
    head.headers().contains_key("transfer-encoding")
}

fn is_framed(head: &RequestHeader) -> bool
    ensures { IsTrue result ↔ IsFramed head.now }
{
    has_content_length(head) || has_transfer_encoding(head)
}

/// Frames the body of a request: where the client has a body that is not empty and the head has
/// neither Content-Length nor Transfer-Encoding, `transfer-encoding: chunked` is put. Refused
/// only where the field list is full, with `HeadTooLong`; the head then stays as it was.
pub fn finalize_h1_upstream_request_framing(
    head: &mut RequestHeader,
    downstream_has_body: bool,
) -> Result<()>
    ensures { Settles (Frames head.old downstream_has_body) head.old head.new result }
{
    if !downstream_has_body || is_framed(head) {
        return Ok(());
    }
    put_field(head, TRANSFER_ENCODING, HeaderValue::from_static("chunked"))
}

/// Whether the request asks to leave HTTP: HTTP/1.1 with an Upgrade field.
pub fn is_h1_upgrade_req(head: &RequestHeader) -> bool
    ensures { IsTrue result ↔ IsUpgrade head.now }
{
    head.version() == Version::HTTP_11 && head.headers().contains_key("upgrade")
}
