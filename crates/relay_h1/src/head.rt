//! Where a message head ends, and what it says (RFC 9112, sections 2 to 5).
ghost use Rattle.std.specs.Prelude.{◌≡◌, ◌≢◌, ◌+◌, ◌<◌, ◌≤◌, ◌↔◌, [], length, drop, All, IfOk, IfErr, IfSome, IfNone, OnOk, IsErrOf, IsOkUnless, IsTrue};
ghost use Rattle.http_header.specs.FieldName.{IsFieldName};
ghost use Rattle.http_header.specs.FieldValue.{IsFieldValue, plain_value};
ghost use Rattle.http_header.specs.Token.{IsToken, lowercase};
ghost use Rattle.relay_tasks.specs.Error.{IsMemoryOr};
ghost use Rattle.relay_tasks.specs.Head.{RequestHead, ResponseHead};
ghost use Rattle.relay_h1.specs.Head.{IsOneHead, ReadsRequest, ReadsResponse, RefusesRequest, RefusesResponse, head_refusal, version_of};
ghost use Rattle.relay_h1.specs.HeadEnd.{begins_with_mark, head_end, NoMarkBefore};
ghost use Rattle.relay_h1.specs.HeadSpans.{IsFieldAt, IsRequestFound, IsResponseFound, kept_fields_at};

use http::{Method, Version};
use http_header::{HeaderName, HeaderValue};
use httparse::Status;
use httparse::spans::{
    EMPTY_HEADER_SPAN, HeaderSpan, RequestSpans, ResponseSpans, parse_request, parse_response,
};
use relay_tasks::{Context, Error, ErrorType, Fail, RequestHeader, ResponseHeader, Result};
use std::alloc::Global;

/// How many fields a head may have.
pub const MAX_FIELDS: usize = 256;

/// How many bytes a head may have.
pub const MAX_HEAD: usize = 65_536;

/// For how many fields there is room at first. Few heads have more, and these are parsed again.
const FEW_FIELDS: usize = 32;

/// Finds and reads message heads. It keeps nothing.
pub struct HeadReader;

impl HeadReader {
    /// The place after the first CR LF CR LF, which is the length of the head at the front of
    /// `bytes`; `None` where no head ends in them.
    pub fn find(bytes: &[u8]) -> Option<usize>
        ensures { result ≡ head_end bytes.now }
    {
        find_from(bytes, 0)
    }

    /// Reads the text of a request head, whole.
    ///
    /// `InvalidHTTPHeader`, about `HeadTooLong`: the text has more than 65,536 bytes. About
    /// `HeadGrammar`: it is no request head of HTTP/1.0 or HTTP/1.1 with at most 256 fields that
    /// ends, with the text, at its first CR LF CR LF.
    pub fn read_request(alloc: Global, bytes: &[u8]) -> Result<RequestHeader>
        ensures ok { IfOk result (ReadsRequest bytes.now) }
        ensures refused { IsErrOf result (Fail.Error (head_refusal bytes.now))
            ↔ RefusesRequest bytes.now }
        ensures memory { IsErrOf result Fail.OutOfMemory
            → (head : RequestHead) × ReadsRequest bytes.now head }
        ensures causes { IfErr result (IsMemoryOr (head_refusal bytes.now)) }
    {
        if !is_one_head(bytes) {
            return Err(Fail::Error(head_refusal(bytes)));
        }
        read_one_request(alloc, bytes)
    }

    /// Reads the text of a response head, whole.
    ///
    /// `InvalidHTTPHeader`, about `HeadTooLong`: the text has more than 65,536 bytes. About
    /// `HeadGrammar`: it is no response head of HTTP/1.0 or HTTP/1.1 with a status from 100 to
    /// 999 and at most 256 fields that ends, with the text, at its first CR LF CR LF.
    pub fn read_response(alloc: Global, bytes: &[u8]) -> Result<ResponseHeader>
        ensures ok { IfOk result (ReadsResponse bytes.now) }
        ensures refused { IsErrOf result (Fail.Error (head_refusal bytes.now))
            ↔ RefusesResponse bytes.now }
        ensures memory { IsErrOf result Fail.OutOfMemory
            → (head : ResponseHead) × ReadsResponse bytes.now head }
        ensures causes { IfErr result (IsMemoryOr (head_refusal bytes.now)) }
    {
        if !is_one_head(bytes) {
            return Err(Fail::Error(head_refusal(bytes)));
        }
        read_one_response(alloc, bytes)
    }
}

/// Whether the text ends at its first CR LF CR LF.
fn is_one_head(bytes: &[u8]) -> bool
    ensures { IsTrue result ↔ IsOneHead bytes.now }
{
    match HeadReader::find(bytes) {
        Some(place) => place == bytes.len(),
        None => false,
    }
}

/// `HeadReader::read_request` of a text that was found to end as a head does.
pub(crate) fn read_one_request(alloc: Global, bytes: &[u8]) -> Result<RequestHeader>
    requires { IsOneHead bytes.now }
    ensures ok { IfOk result (ReadsRequest bytes.now) }
    ensures refused { IsErrOf result (Fail.Error (head_refusal bytes.now))
        ↔ RefusesRequest bytes.now }
    ensures memory { IsErrOf result Fail.OutOfMemory
        → (head : RequestHead) × ReadsRequest bytes.now head }
    ensures causes { IfErr result (IsMemoryOr (head_refusal bytes.now)) }
{
    let mut spans = [EMPTY_HEADER_SPAN; FEW_FIELDS];
    match find_request(bytes, &mut spans) {
        Some(found) => make_request(alloc, bytes, &found, &spans),
        None => read_long_request(alloc, bytes),
    }
}

/// The same, with room for as many fields as a head may have.
fn read_long_request(alloc: Global, bytes: &[u8]) -> Result<RequestHeader>
    requires { IsOneHead bytes.now }
    ensures ok { IfOk result (ReadsRequest bytes.now) }
    ensures refused { IsErrOf result (Fail.Error (head_refusal bytes.now))
        ↔ RefusesRequest bytes.now }
    ensures memory { IsErrOf result Fail.OutOfMemory
        → (head : RequestHead) × ReadsRequest bytes.now head }
    ensures causes { IfErr result (IsMemoryOr (head_refusal bytes.now)) }
{
    let mut spans = [EMPTY_HEADER_SPAN; MAX_FIELDS];
    match find_request(bytes, &mut spans) {
        Some(found) => make_request(alloc, bytes, &found, &spans),
        None => Err(Fail::Error(head_refusal(bytes))),
    }
}

/// `HeadReader::read_response` of a text that was found to end as a head does.
pub(crate) fn read_one_response(alloc: Global, bytes: &[u8]) -> Result<ResponseHeader>
    requires { IsOneHead bytes.now }
    ensures ok { IfOk result (ReadsResponse bytes.now) }
    ensures refused { IsErrOf result (Fail.Error (head_refusal bytes.now))
        ↔ RefusesResponse bytes.now }
    ensures memory { IsErrOf result Fail.OutOfMemory
        → (head : ResponseHead) × ReadsResponse bytes.now head }
    ensures causes { IfErr result (IsMemoryOr (head_refusal bytes.now)) }
{
    let mut spans = [EMPTY_HEADER_SPAN; FEW_FIELDS];
    match find_response(bytes, &mut spans) {
        Some(found) => make_response(alloc, bytes, &found, &spans),
        None => read_long_response(alloc, bytes),
    }
}

/// The same, with room for as many fields as a head may have.
fn read_long_response(alloc: Global, bytes: &[u8]) -> Result<ResponseHeader>
    requires { IsOneHead bytes.now }
    ensures ok { IfOk result (ReadsResponse bytes.now) }
    ensures refused { IsErrOf result (Fail.Error (head_refusal bytes.now))
        ↔ RefusesResponse bytes.now }
    ensures memory { IsErrOf result Fail.OutOfMemory
        → (head : ResponseHead) × ReadsResponse bytes.now head }
    ensures causes { IfErr result (IsMemoryOr (head_refusal bytes.now)) }
{
    let mut spans = [EMPTY_HEADER_SPAN; MAX_FIELDS];
    match find_response(bytes, &mut spans) {
        Some(found) => make_response(alloc, bytes, &found, &spans),
        None => Err(Fail::Error(head_refusal(bytes))),
    }
}

fn head_refusal(bytes: &[u8]) -> Error
    ensures { result ≡ head_refusal bytes.now }
{
    let context = if bytes.len() > MAX_HEAD {
        Context::HeadTooLong
    } else {
        Context::HeadGrammar
    };
    Error::explain(ErrorType::InvalidHTTPHeader, context)
}

fn find_request(bytes: &[u8], spans: &mut [HeaderSpan]) -> Option<RequestSpans>
    requires ends { IsOneHead bytes.now }
    requires room { length spans.old ≤ MAX_FIELDS }
    ensures found { IfSome result (IsRequestFound bytes.now spans.new) }
    ensures refused { length spans.old ≡ MAX_FIELDS → IfNone result (RefusesRequest bytes.now) }
{
    if bytes.len() > MAX_HEAD {
        return None;
    }
    let Ok(Status::Complete(found)) = parse_request(bytes, spans) else {
        return None;
    };
    if found.len != bytes.len() {
        return None;
    }
    Some(found)
}

fn find_response(bytes: &[u8], spans: &mut [HeaderSpan]) -> Option<ResponseSpans>
    requires ends { IsOneHead bytes.now }
    requires room { length spans.old ≤ MAX_FIELDS }
    ensures found { IfSome result (IsResponseFound bytes.now spans.new) }
    ensures refused { length spans.old ≡ MAX_FIELDS → IfNone result (RefusesResponse bytes.now) }
{
    if bytes.len() > MAX_HEAD {
        return None;
    }
    let Ok(Status::Complete(found)) = parse_response(bytes, spans) else {
        return None;
    };
    if found.len != bytes.len() || found.code < 100 {
        return None;
    }
    Some(found)
}

fn make_request(
    alloc: Global,
    bytes: &[u8],
    found: &RequestSpans,
    spans: &[HeaderSpan],
) -> Result<RequestHeader>
    requires { IsRequestFound bytes.now spans.now found.now }
    ensures ok { IfOk result (ReadsRequest bytes.now) }
    ensures memory { IsOkUnless result Fail.OutOfMemory }
{
    let method = method_of(alloc, found.method.of(bytes))?;
    let mut head = RequestHeader::build(alloc, &method, found.path.of(bytes))?;
    head.set_version(version_of(found.version));
    push_request_fields(alloc, &mut head, bytes, &spans[..found.headers])?;
    Ok(head)
}

fn make_response(
    alloc: Global,
    bytes: &[u8],
    found: &ResponseSpans,
    spans: &[HeaderSpan],
) -> Result<ResponseHeader>
    requires { IsResponseFound bytes.now spans.now found.now }
    ensures ok { IfOk result (ReadsResponse bytes.now) }
    ensures memory { IsOkUnless result Fail.OutOfMemory }
{
    let mut head = ResponseHeader::build(alloc, found.code)?;
    head.set_version(version_of(found.version));
    push_response_fields(alloc, &mut head, bytes, &spans[..found.headers])?;
    Ok(head)
}

fn push_request_fields(
    alloc: Global,
    head: &mut RequestHeader,
    bytes: &[u8],
    spans: &[HeaderSpan],
) -> Result<()>
    requires none { head.old.fields ≡ [] }
    requires few { length spans.now ≤ MAX_FIELDS }
    requires fields { All (IsFieldAt bytes.now) spans.now }
    ensures ok { OnOk result
        (head.new ≡ record head.old { fields = kept_fields_at bytes.now spans.now }) }
    ensures memory { IsOkUnless result Fail.OutOfMemory }
{
    for span in spans {
        let name = field_name(alloc, span.name.of(bytes))?;
        let value = field_value(alloc, span.value.of(bytes))?;
        head.append_header(name, value)?;
    }
    Ok(())
}

fn push_response_fields(
    alloc: Global,
    head: &mut ResponseHeader,
    bytes: &[u8],
    spans: &[HeaderSpan],
) -> Result<()>
    requires none { head.old.fields ≡ [] }
    requires few { length spans.now ≤ MAX_FIELDS }
    requires fields { All (IsFieldAt bytes.now) spans.now }
    ensures ok { OnOk result
        (head.new ≡ record head.old { fields = kept_fields_at bytes.now spans.now }) }
    ensures memory { IsOkUnless result Fail.OutOfMemory }
{
    for span in spans {
        let name = field_name(alloc, span.name.of(bytes))?;
        let value = field_value(alloc, span.value.of(bytes))?;
        head.append_header(name, value)?;
    }
    Ok(())
}

fn version_of(minor: u8) -> Version
    ensures { result ≡ version_of minor }
{
    if minor == 0 {
        Version::HTTP_10
    } else {
        Version::HTTP_11
    }
}

/// The method that a token names, which only memory can refuse.
fn method_of(alloc: Global, token: &[u8]) -> Result<Method>
    requires { IsToken token.now }
    ensures ok { IfOk result (λ method. method ≡ token.now) }
    ensures memory { IsOkUnless result Fail.OutOfMemory }
{
    Method::from_bytes(alloc, token).map_err(|_| Fail::OutOfMemory)
}

/// The name of a field, which only memory can refuse.
fn field_name(alloc: Global, name: &[u8]) -> Result<HeaderName>
    requires { IsFieldName name.now }
    ensures ok { IfOk result (λ kept. kept ≡ lowercase name.now) }
    ensures memory { IsOkUnless result Fail.OutOfMemory }
{
    HeaderName::from_bytes(alloc, name).map_err(|_| Fail::OutOfMemory)
}

/// The value of a field, which only memory can refuse.
fn field_value(alloc: Global, value: &[u8]) -> Result<HeaderValue>
    requires { IsFieldValue value.now }
    ensures ok { IfOk result (λ kept. kept ≡ plain_value value.now) }
    ensures memory { IsOkUnless result Fail.OutOfMemory }
{
    HeaderValue::from_bytes(alloc, value).map_err(|_| Fail::OutOfMemory)
}

/// The same, where no CR LF CR LF begins before `start`.
pub(crate) fn find_from(bytes: &[u8], start: usize) -> Option<usize>
    requires within { start ≤ length bytes.now }
    requires none_before { NoMarkBefore start bytes.now }
    ensures { result ≡ head_end bytes.now }
{
    let mut at = start;
    while bytes.len() - at >= 4 {
        if has_mark_at(bytes, at) {
            return Some(at + 4);
        }
        at += stride(bytes[at + 3]);
    }
    None
}

/// How far the search goes on from four bytes that are no CR LF CR LF, by the last of them: where
/// that is neither CR nor LF, none begins among the four.
fn stride(last: u8) -> usize
    ensures within { (0 < result) × (result ≤ 4) }
    ensures passes { 1 < result → (last ≢ 13) × (last ≢ 10) }
{
    if last == b'\r' || last == b'\n' { 1 } else { 4 }
}

fn has_mark_at(bytes: &[u8], at: usize) -> bool
    requires { at + 4 ≤ length bytes.now }
    ensures { result ≡ begins_with_mark (drop at bytes.now) }
{
    bytes[at] == b'\r' && bytes[at + 1] == b'\n' && bytes[at + 2] == b'\r' && bytes[at + 3] == b'\n'
}
