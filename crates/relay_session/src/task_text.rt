//! The text that a task of a response is sent as to a client of HTTP/1 (RFC 9112, sections 4, 6
//! and 7).
ghost use Rattle.std.specs.Prelude.{◌≡◌, [], false, None, IfOk, OnOk, OnErr, IsOkUnless};
ghost use Rattle.relay_tasks.specs.Head.{ResponseHead};
ghost use Rattle.relay_h1.specs.Framing.{response_framing};
ghost use Rattle.relay_h1.specs.BodyWire.{after_piece};
ghost use Rattle.relay_h1.specs.ClientHead.{client_framing, client_head};
ghost use Rattle.relay_session.specs.Asked.{method_of, asks_of, request_of, unread, is_http_11, lets_ask};
ghost use Rattle.relay_session.specs.TaskWire.{piece_sent, piece_refusal, head_sent, head_refusal, behind_head, ends_connection, framed_head_sent, framed_head_refusal, framing_of, shown, informed, head_at, head_refusal_at, piece_at, piece_refusal_at, IsFramedInside};
ghost use Rattle.relay_session.specs.TaskSteps.{GoesOn, HeadGoesOn, HeadGoesOnAt, PieceGoesOnAt, HasPushed};

use bytes::Bytes;
use http::{Method, Version};
use relay_h1::{BodyWriter, Framing, Output, client_framing, closes, frame_for_client, is_sent_to};
use relay_tasks::{Error, Fail, RequestHeader, ResponseHeader, Result};

/// What a response depends on of its request's method: a response to HEAD has no body.
#[derive(Clone, Copy, Debug, PartialEq, Eq)]
pub enum Asks {
    /// The method is HEAD.
    Head,
    /// The method is another.
    Other,
}

/// What a response and its client's connection depend on of the request, as it was read: the method,
/// the version of the client, whether it asked for an upgrade, and whether it asked to close the
/// connection: a Connection field has the option `close` (RFC 9112, section 9.6).
#[derive(Clone, Copy)]
pub struct Request {
    pub method: Asks,
    pub version: Version,
    pub asked: bool,
    pub close: bool,
}

impl Request {
    /// A request whose head has not come: no HEAD, of HTTP/1.1, that asks for no upgrade and not to
    /// close.
    pub fn unread() -> Request
        ensures { result ≡ unread }
    {
        Request {
            method: Asks::Other,
            version: Version::HTTP_11,
            asked: false,
            close: false,
        }
    }

    /// The request with that head. Upgrades are not offered, so it counts as one that asks for
    /// none.
    pub fn of(head: &RequestHeader) -> Request
        ensures value { result ≡ request_of head.now }
        ensures framing { (response : ResponseHead)
            → client_framing (method_of result.method) result.version result.asked response
            ≡ client_framing head.now.method head.now.version false response }
        ensures head { (response : ResponseHead)
            → client_head (method_of result.method) result.version result.asked response
            ≡ client_head head.now.method head.now.version false response }
        ensures found { (response : ResponseHead)
            → response_framing (method_of result.method) result.asked response
            ≡ response_framing head.now.method false response }
    {
        Request {
            method: asks_of(head.method()),
            version: head.version(),
            asked: false,
            close: closes(head.headers()),
        }
    }

    /// Whether it lets its client ask for more behind it: it is of HTTP/1.1, and does not ask to close
    /// (RFC 9112, section 9.3).
    pub(crate) fn lets_ask(&self) -> bool
        ensures { result ≡ lets_ask self.now }
    {
        is_http_11(self.version) && !self.close
    }
}

fn is_http_11(version: Version) -> bool
    ensures { result ≡ is_http_11 version }
{
    version == Version::HTTP_11
}

/// What a response depends on of that method.
fn asks_of(method: &Method) -> Asks
    ensures { result ≡ asks_of method.now }
{
    if method.as_str() == "HEAD" {
        return Asks::Head;
    }
    Asks::Other
}

/// A method that asks so.
fn method_of(asks: Asks) -> Method
    ensures { result ≡ method_of asks }
{
    match asks {
        Asks::Head => Method::HEAD,
        Asks::Other => Method::GET,
    }
}

/// Where a response stands.
#[derive(Clone, Copy, Debug, PartialEq, Eq)]
pub enum Place {
    /// No final head was queued.
    NoHead,
    /// The final head was queued, and what is left of its body is framed so.
    Body(Framing),
    /// The end was queued.
    Done,
}

/// What was queued for a task: how many bytes of the body, whether it closes the connection, where the
/// response stands then, and the error where the task is refused.
#[derive(Clone, Copy)]
pub(crate) struct Pushed {
    pub(crate) counted: u64,
    pub(crate) closes: bool,
    pub(crate) place: Place,
    pub(crate) refused: Option<Error>,
}

impl Pushed {
    /// Nothing is queued, and the response stays there.
    fn nothing_at(place: Place) -> Pushed
        ensures { result ≡ record { counted = 0; closes = false; place = place; refused = None } }
    {
        Pushed {
            counted: 0,
            closes: false,
            place,
            refused: None,
        }
    }
}

/// Queues a piece of a body whose rest is framed so, and the end where it ends with the piece.
///
/// It is refused with `PrematureBodyEnd`, of the client's side, exactly where the end comes short
/// of a length. The piece is queued then too, and the body stays open. Where memory is wanted,
/// nothing changes.
pub(crate) fn push_piece(
    rest: Framing,
    out: &mut Output,
    piece: Bytes,
    ends: bool,
) -> Result<Pushed>
    ensures ok { IfOk result (HasPushed (piece_sent rest piece ends)
        (piece_refusal rest piece ends) out.old out.new) }
    ensures memory { IsOkUnless result Fail.OutOfMemory }
    ensures kept { OnErr result (out.new ≡ out.old) }
    ensures goes_on { OnOk result (GoesOn rest piece ends) }
{
    let before = out.len();
    let left = after_piece(rest, piece.as_slice());
    let mut body = BodyWriter::new(rest);
    let counted = out.push_piece(&mut body, piece)?.unwrap_or(0);
    if !ends {
        return Ok(Pushed {
            counted,
            closes: false,
            place: Place::Body(left),
            refused: None,
        });
    }
    match out.push_end(&mut body) {
        Ok(()) => Ok(Pushed {
            counted,
            closes: false,
            place: Place::Done,
            refused: None,
        }),
        Err(Fail::Error(error)) => Ok(Pushed {
            counted,
            closes: false,
            place: Place::Body(left),
            refused: Some(error.into_down()),
        }),
        Err(Fail::OutOfMemory) => {
            out.truncate(before);
            Err(Fail::OutOfMemory)
        }
    }
}

/// As `push_piece`, without a piece: the end alone, where it is asked for.
fn push_empty(rest: Framing, out: &mut Output, ends: bool) -> Result<Pushed>
    ensures ok { IfOk result (HasPushed (piece_sent rest [] ends)
        (piece_refusal rest [] ends) out.old out.new) }
    ensures memory { IsOkUnless result Fail.OutOfMemory }
    ensures kept { OnErr result (out.new ≡ out.old) }
    ensures goes_on { OnOk result (GoesOn rest [] ends) }
{
    push_piece(rest, out, Bytes::new(), ends)
}

/// How what is left of a body is framed once the piece was written.
fn after_piece(rest: Framing, piece: &[u8]) -> Framing
    ensures { result ≡ after_piece rest piece.now }
{
    match rest {
        Framing::Length(left) => Framing::Length(left.saturating_sub(piece.len() as u64)),
        Framing::Empty => Framing::Empty,
        Framing::Chunked => Framing::Chunked,
        Framing::UntilClose => Framing::UntilClose,
        Framing::Tunnel => Framing::Tunnel,
    }
}

/// Queues a head where no final head was queued: for a final head its text as the client gets
/// it, and the end of the body where it ends with the head; for an informational head its text,
/// and nothing for a client of HTTP/1.0.
///
/// It is refused with `InvalidHTTPHeader`, of the relay's own side, exactly where the framing of a
/// final head is refused; nothing is queued then. It is refused with `PrematureBodyEnd`, of the
/// client's side, exactly where the end comes short of a length; the head is queued then.
fn push_head(
    request: &Request,
    out: &mut Output,
    head: ResponseHeader,
    ends: bool,
) -> Result<Pushed>
    ensures ok { IfOk result (HasPushed (head_sent request.now head ends)
        (head_refusal request.now head ends) out.old out.new) }
    ensures memory { IsOkUnless result Fail.OutOfMemory }
    ensures kept { OnErr result (out.new ≡ out.old) }
    ensures goes_on { OnOk result (HeadGoesOn request.now head ends) }
{
    if head.is_informational() {
        return push_informing(request, out, &head);
    }
    push_final(request, out, head, ends)
}

fn push_informing(request: &Request, out: &mut Output, head: &ResponseHeader) -> Result<Pushed>
    ensures ok { IfOk result
        (HasPushed (informed request.now head.now) None out.old out.new) }
    ensures memory { IsOkUnless result Fail.OutOfMemory }
    ensures kept { OnErr result (out.new ≡ out.old) }
{
    if is_sent_to(request.version, head) {
        out.push_response_head(head)?;
    }
    Ok(Pushed::nothing_at(Place::NoHead))
}

fn push_final(
    request: &Request,
    out: &mut Output,
    mut head: ResponseHeader,
    ends: bool,
) -> Result<Pushed>
    ensures ok { IfOk result (HasPushed
        (framed_head_sent (shown request.now head) ends (framing_of request.now head))
        (framed_head_refusal ends (framing_of request.now head)) out.old out.new) }
    ensures memory { IsOkUnless result Fail.OutOfMemory }
    ensures kept { OnErr result (out.new ≡ out.old) }
    ensures goes_on { OnOk result (HeadGoesOn request.now head ends) }
{
    match frame(request, &mut head) {
        Ok(framing) => push_framed(framing, out, &head, ends),
        Err(error) => Ok(Pushed {
            counted: 0,
            closes: false,
            place: Place::NoHead,
            refused: Some(error),
        }),
    }
}

/// Queues a final head as the client gets it, whose body is framed so.
fn push_framed(
    framing: Framing,
    out: &mut Output,
    head: &ResponseHeader,
    ends: bool,
) -> Result<Pushed>
    ensures ok { IfOk result (HasPushed
        (behind_head head.now framing (piece_sent framing [] ends))
        (piece_refusal framing [] ends) out.old out.new) }
    ensures memory { IsOkUnless result Fail.OutOfMemory }
    ensures kept { OnErr result (out.new ≡ out.old) }
    ensures goes_on { OnOk result (GoesOn framing [] ends) }
{
    let before = out.len();
    out.push_response_head(head)?;
    match push_empty(framing, out, ends) {
        Ok(pushed) => Ok(Pushed {
            closes: ends_connection(head, framing),
            ..pushed
        }),
        Err(fail) => {
            out.truncate(before);
            Err(fail)
        }
    }
}

/// Whether a final head that is framed so closes its connection: it has the connection option `close`,
/// or its body lasts until the connection ends (RFC 9112, sections 6.3 and 9.6).
fn ends_connection(head: &ResponseHeader, framing: Framing) -> bool
    ensures { result ≡ ends_connection head.now framing }
{
    match framing {
        Framing::UntilClose | Framing::Tunnel => true,
        Framing::Empty | Framing::Length(_) | Framing::Chunked => closes(head.headers()),
    }
}

/// Makes the head the one that the client gets, and gives the framing of the body behind it.
fn frame(request: &Request, head: &mut ResponseHeader) -> std::result::Result<Framing, Error>
    ensures framing { IsFramedInside result (framing_of request.now head.old) }
    ensures head { head.new ≡ shown request.now head.old }
{
    let method = method_of(request.method);
    frame_inside(&method, request.version, request.asked, head)
}

/// As `frame_for_client`, with a refusal on the relay's own side.
fn frame_inside(
    method: &Method,
    version: Version,
    asked: bool,
    head: &mut ResponseHeader,
) -> std::result::Result<Framing, Error>
    ensures framing { IsFramedInside result (client_framing method.now version asked head.old) }
    ensures head { head.new ≡ client_head method.now version asked head.old }
{
    match frame_for_client(method, version, asked, head) {
        Ok(framing) => Ok(framing),
        Err(error) => Err(error.into_in()),
    }
}

/// The framing of the body behind a final head towards its client.
pub(crate) fn framing_of(
    request: &Request,
    head: &ResponseHeader,
) -> std::result::Result<Framing, Error>
    ensures { IsFramedInside result (framing_of request.now head.now) }
{
    let method = method_of(request.method);
    framing_inside(&method, request.version, request.asked, head)
}

/// As `client_framing`, with a refusal on the relay's own side.
fn framing_inside(
    method: &Method,
    version: Version,
    asked: bool,
    head: &ResponseHeader,
) -> std::result::Result<Framing, Error>
    ensures { IsFramedInside result (client_framing method.now version asked head.now) }
{
    match client_framing(method, version, asked, head) {
        Ok(framing) => Ok(framing),
        Err(error) => Err(error.into_in()),
    }
}

/// Queues a head by where the response stands.
pub(crate) fn push_head_at(
    request: &Request,
    place: Place,
    out: &mut Output,
    head: ResponseHeader,
    ends: bool,
) -> Result<Pushed>
    ensures ok { IfOk result (HasPushed (head_at request.now place head ends)
        (head_refusal_at request.now place head ends) out.old out.new) }
    ensures memory { IsOkUnless result Fail.OutOfMemory }
    ensures kept { OnErr result (out.new ≡ out.old) }
    ensures goes_on { OnOk result (HeadGoesOnAt request.now place head ends) }
{
    match place {
        Place::NoHead => push_head(request, out, head, ends),
        Place::Body(rest) => push_empty(rest, out, ends),
        Place::Done => Ok(Pushed::nothing_at(place)),
    }
}

/// Queues a piece of the body by where the response stands.
pub(crate) fn push_piece_at(
    place: Place,
    out: &mut Output,
    piece: Bytes,
    ends: bool,
) -> Result<Pushed>
    ensures ok { IfOk result (HasPushed (piece_at place piece ends)
        (piece_refusal_at place piece ends) out.old out.new) }
    ensures memory { IsOkUnless result Fail.OutOfMemory }
    ensures kept { OnErr result (out.new ≡ out.old) }
    ensures goes_on { OnOk result (PieceGoesOnAt place piece ends) }
{
    match place {
        Place::NoHead | Place::Done => Ok(Pushed::nothing_at(place)),
        Place::Body(rest) => push_piece(rest, out, piece, ends),
    }
}
