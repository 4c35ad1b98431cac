//! The text that a head is sent as (RFC 9112, sections 2 to 5).
ghost use Rattle.std.specs.Prelude.{◌≡◌, ◌++◌, OnOk, OnErr, IsOkUnless, flat_map};
ghost use Rattle.http_header.specs.HeaderMap.{pairs};
ghost use Rattle.relay_tasks.specs.Head.{IsStatus};
ghost use Rattle.relay_h1.specs.Wire.{crlf, field_lines, request_line, status_line, reason, request_text, response_text, generated, KeepsFront};

use http::StatusCode;
use http_header::HeaderMap;
use relay_tasks::{Fail, RequestHeader, ResponseHeader, Result};
use std::alloc::AllocError;

/// The fields of an answer that the relay makes itself, and the empty line.
const GENERATED_FIELDS: &[u8] =
    b"server: Pingora\r\ncontent-length: 0\r\ncache-control: private, no-store\r\n\r\n";

/// Room that is taken for a head at once. Most heads have fewer bytes.
const HEAD_ROOM: usize = 512;

/// Appends the text of a request's head. Its request line names HTTP/1.1, whatever the version.
/// Where memory is wanted, `out` stays as it was.
pub fn write_request_head(out: &mut Vec<u8>, head: &RequestHeader) -> Result<()>
    ensures ok { OnOk result (out.new.items ≡ out.old.items ++ request_text head.now) }
    ensures err { OnErr result (out.new.items ≡ out.old.items) }
    ensures memory { IsOkUnless result Fail.OutOfMemory }
{
    let before = out.len();
    if push_request(out, head).is_err() {
        out.truncate(before);
        return Err(Fail::OutOfMemory);
    }
    Ok(())
}

/// Appends the text of a response's head. Where memory is wanted, `out` stays as it was.
pub fn write_response_head(out: &mut Vec<u8>, head: &ResponseHeader) -> Result<()>
    ensures ok { OnOk result (out.new.items ≡ out.old.items ++ response_text head.now) }
    ensures err { OnErr result (out.new.items ≡ out.old.items) }
    ensures memory { IsOkUnless result Fail.OutOfMemory }
{
    let before = out.len();
    if push_response(out, head).is_err() {
        out.truncate(before);
        return Err(Fail::OutOfMemory);
    }
    Ok(())
}

/// Appends an answer without a body, with that status from 100 to 999, as the relay makes it
/// itself. Where memory is wanted, `out` stays as it was.
pub fn write_generated(out: &mut Vec<u8>, code: u16) -> Result<()>
    requires { IsStatus code }
    ensures ok { OnOk result (out.new.items ≡ out.old.items ++ generated code) }
    ensures err { OnErr result (out.new.items ≡ out.old.items) }
    ensures memory { IsOkUnless result Fail.OutOfMemory }
{
    let before = out.len();
    if push_generated(out, code).is_err() {
        out.truncate(before);
        return Err(Fail::OutOfMemory);
    }
    Ok(())
}

fn push_request(out: &mut Vec<u8>, head: &RequestHeader) -> std::result::Result<(), AllocError>
    ensures ok { OnOk result (out.new.items ≡ out.old.items ++ request_text head.now) }
    ensures front { KeepsFront out.old.items out.new.items }
{
    out.reserve(HEAD_ROOM)?;
    push_request_line(out, head)?;
    push_fields(out, head.headers())
}

fn push_response(out: &mut Vec<u8>, head: &ResponseHeader) -> std::result::Result<(), AllocError>
    ensures ok { OnOk result (out.new.items ≡ out.old.items ++ response_text head.now) }
    ensures front { KeepsFront out.old.items out.new.items }
{
    out.reserve(HEAD_ROOM)?;
    push_status_line(out, head.status())?;
    push_fields(out, head.headers())
}

fn push_generated(out: &mut Vec<u8>, code: u16) -> std::result::Result<(), AllocError>
    requires { IsStatus code }
    ensures ok { OnOk result (out.new.items ≡ out.old.items ++ generated code) }
    ensures front { KeepsFront out.old.items out.new.items }
{
    push_status_line(out, code)?;
    out.extend_from_slice(GENERATED_FIELDS)
}

fn push_request_line(out: &mut Vec<u8>, head: &RequestHeader) -> std::result::Result<(), AllocError>
    ensures ok { OnOk result (out.new.items ≡ out.old.items ++ request_line head.now) }
    ensures front { KeepsFront out.old.items out.new.items }
{
    let method = head.method().as_str().as_bytes();
    push_parts(out, &[method, b" ", head.raw_path(), b" HTTP/1.1\r\n"])
}

fn push_status_line(out: &mut Vec<u8>, status: u16) -> std::result::Result<(), AllocError>
    requires { IsStatus status }
    ensures ok { OnOk result (out.new.items ≡ out.old.items ++ status_line status) }
    ensures front { KeepsFront out.old.items out.new.items }
{
    let status = status_code(status);
    let digits = status.as_str().as_bytes();
    push_parts(out, &[b"HTTP/1.1 ", digits, b" ", reason(status), b"\r\n"])
}

fn status_code(status: u16) -> StatusCode
    requires { IsStatus status }
    ensures { result ≡ status }
{
    StatusCode::from_u16(status).unwrap()
}

fn reason(status: StatusCode) -> &'static [u8]
    ensures { result.now ≡ reason status }
{
    match status.canonical_reason() {
        Some(phrase) => phrase.as_bytes(),
        None => b"",
    }
}

/// The field lines, and the empty line that ends a head.
fn push_fields(out: &mut Vec<u8>, fields: &HeaderMap) -> std::result::Result<(), AllocError>
    ensures ok { OnOk result
        (out.new.items ≡ out.old.items ++ field_lines (pairs fields.now) ++ crlf) }
    ensures front { KeepsFront out.old.items out.new.items }
{
    for (name, value) in fields.iter() {
        push_parts(out, &[name.as_bytes(), b": ", value.as_bytes(), b"\r\n"])?;
    }
    push_parts(out, &[b"\r\n"])
}

fn push_parts(out: &mut Vec<u8>, parts: &[&[u8]]) -> std::result::Result<(), AllocError>
    ensures ok { OnOk result (out.new.items ≡ out.old.items ++ flat_map (λ p. p.now) parts.now) }
    ensures front { KeepsFront out.old.items out.new.items }
{
    for part in parts {
        out.extend_from_slice(part)?;
    }
    Ok(())
}
