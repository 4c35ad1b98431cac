//! Where the body of a message ends, told by its head alone (RFC 9112, section 6.3).
ghost use Rattle.std.specs.Prelude.{◌≡◌, ◌^◌, codes, if◌then◌else◌, Some, None, IsTrue, nat_lt};
ghost use Rattle.std.specs.Char.{is_ascii_digit, digit_value};
ghost use Rattle.std.specs.List.{list_all};
ghost use Rattle.std.specs.Str.Parse.{digits_value};
ghost use Rattle.http_header.specs.HeaderMap.{get_all};
ghost use Rattle.relay_h1.specs.Framing.{is_length, is_chunked, is_http_10, length_said, coding_said, request_table, response_table, is_bodiless, has_no_body, opens_tunnel, request_framing, response_framing, IsFramedBy};

use http::{Method, Version};
use http_header::{CONTENT_LENGTH, HeaderMap, TRANSFER_ENCODING};
use relay_tasks::{Context, Error, ErrorType, RequestHeader, ResponseHeader};

/// How the body of a message is delimited.
#[derive(Clone, Copy, Debug, PartialEq, Eq)]
pub enum Framing {
    /// There is no body.
    Empty,
    /// The body has so many bytes.
    Length(u64),
    /// The body comes in chunks, up to the last chunk and its trailer.
    Chunked,
    /// The body ends where the connection does.
    UntilClose,
    /// An upgrade was accepted: the bytes are no message any more.
    Tunnel,
}

/// What the Content-Length fields of a head say.
#[derive(Clone, Copy)]
pub(crate) enum LengthField {
    Absent,
    Value(u64),
    Malformed,
}

/// What the Transfer-Encoding fields of a head say.
#[derive(Clone, Copy)]
pub(crate) enum CodingField {
    Absent,
    Chunked,
    Other,
}

/// The framing of a request, in which at most one of the two framing fields may stand.
///
/// `InvalidHTTPHeader`, about `BadFraming`: Content-Length stands twice or is no number below
/// 2^64, Transfer-Encoding stands twice, is not `chunked` or comes in HTTP/1.0, or both stand.
#[tactic(auto, unfolding(crate::specs::Framing::request_framing))]
pub fn request_framing(head: &RequestHeader) -> std::result::Result<Framing, Error>
    ensures { IsFramedBy result (request_framing head.now) }
{
    let length = length_said(head.headers());
    let coding = coding_said(head.headers());
    framed(request_table(is_http_10(head.version()), length, coding))
}

/// The framing of a response to a request with that method; `asked` is whether the request asked
/// for an upgrade. A Transfer-Encoding overrides a Content-Length that is well formed.
///
/// `InvalidHTTPHeader`, about `BadFraming`: the response may have a body, and Content-Length
/// stands twice or is no number below 2^64, or Transfer-Encoding stands twice or is not `chunked`.
#[tactic(auto, unfolding(crate::specs::Framing::response_framing))]
pub fn response_framing(
    method: &Method,
    asked: bool,
    head: &ResponseHeader,
) -> std::result::Result<Framing, Error>
    ensures { IsFramedBy result (response_framing method.now asked head.now) }
{
    if opens_tunnel(asked, head.status()) {
        return Ok(Framing::Tunnel);
    }
    if has_no_body(method, head.status()) {
        return Ok(Framing::Empty);
    }
    let length = length_said(head.headers());
    let coding = coding_said(head.headers());
    framed(response_table(length, coding))
}

fn framed(framing: Option<Framing>) -> std::result::Result<Framing, Error>
    ensures { IsFramedBy result framing }
{
    framing.ok_or(Error::explain(ErrorType::InvalidHTTPHeader, Context::BadFraming))
}

fn opens_tunnel(asked: bool, status: u16) -> bool
    ensures { result ≡ opens_tunnel asked status }
{
    asked && status == 101
}

pub(crate) fn has_no_body(method: &Method, status: u16) -> bool
    ensures { result ≡ has_no_body method.now status }
{
    method.as_str() == "HEAD" || is_bodiless(status)
}

fn is_bodiless(status: u16) -> bool
    ensures { result ≡ is_bodiless status }
{
    (100..200).contains(&status) || status == 204 || status == 304
}

fn response_table(length: LengthField, coding: CodingField) -> Option<Framing>
    ensures { result ≡ response_table length coding }
{
    match (length, coding) {
        (LengthField::Absent, CodingField::Absent) => Some(Framing::UntilClose),
        (LengthField::Value(n), CodingField::Absent) => Some(Framing::Length(n)),
        (LengthField::Absent | LengthField::Value(_), CodingField::Chunked) => {
            Some(Framing::Chunked)
        }
        (LengthField::Malformed, _) | (_, CodingField::Other) => None,
    }
}

fn request_table(is_old: bool, length: LengthField, coding: CodingField) -> Option<Framing>
    ensures { result ≡ request_table is_old length coding }
{
    match (length, coding) {
        (LengthField::Absent, CodingField::Absent) => Some(Framing::Empty),
        (LengthField::Absent, CodingField::Chunked) if !is_old => Some(Framing::Chunked),
        (LengthField::Value(n), CodingField::Absent) => Some(Framing::Length(n)),
        (LengthField::Absent, CodingField::Chunked | CodingField::Other)
        | (LengthField::Value(_), CodingField::Chunked | CodingField::Other)
        | (LengthField::Malformed, _) => None,
    }
}

pub(crate) fn is_http_10(version: Version) -> bool
    ensures { result ≡ is_http_10 version }
{
    version == Version::HTTP_10
}

/// The length that the digits write, where they are digits and it is below 2^64.
fn length_of(digits: &[u8]) -> Option<u64>
    ensures { result ≡ (if is_length digits.now then Some (digits_value 10 digits.now) else None) }
{
    if digits.is_empty() || !are_digits(digits) {
        return None;
    }
    value_of(digits)
}

fn are_digits(bytes: &[u8]) -> bool
    ensures { result ≡ list_all is_ascii_digit bytes.now }
{
    bytes.iter().all(|byte| byte.is_ascii_digit())
}

fn value_of(digits: &[u8]) -> Option<u64>
    requires { IsTrue (list_all is_ascii_digit digits.now) }
    ensures { result ≡ (if nat_lt (digits_value 10 digits.now) (2 ^ 64)
        then Some (digits_value 10 digits.now) else None) }
{
    let mut value: u64 = 0;
    for digit in digits {
        value = value.checked_mul(10)?.checked_add(digit_value(*digit))?;
    }
    Some(value)
}

fn digit_value(digit: u8) -> u64
    requires { IsTrue (is_ascii_digit digit) }
    ensures { result ≡ digit_value digit }
{
    u64::from(digit - b'0')
}

fn is_chunked(value: &[u8]) -> bool
    ensures { result ≡ is_chunked value.now }
{
    value.eq_ignore_ascii_case(b"chunked")
}

fn length_said(fields: &HeaderMap) -> LengthField
    ensures { result ≡ length_said (get_all fields.now (codes "content-length")) }
{
    let mut values = fields.get_all(&CONTENT_LENGTH).iter();
    match (values.next(), values.next()) {
        (None, _) => LengthField::Absent,
        (Some(value), None) => match length_of(value.as_bytes()) {
            Some(n) => LengthField::Value(n),
            None => LengthField::Malformed,
        },
        (Some(_), Some(_)) => LengthField::Malformed,
    }
}

fn coding_said(fields: &HeaderMap) -> CodingField
    ensures { result ≡ coding_said (get_all fields.now (codes "transfer-encoding")) }
{
    let mut values = fields.get_all(&TRANSFER_ENCODING).iter();
    match (values.next(), values.next()) {
        (None, _) => CodingField::Absent,
        (Some(value), None) if is_chunked(value.as_bytes()) => CodingField::Chunked,
        (Some(_), _) => CodingField::Other,
    }
}
