//! The head of a response as its client gets it, and how the body behind it is framed
//! (RFC 9112, sections 6.1 and 6.3; RFC 9110, section 15.2).
ghost use Rattle.std.specs.Prelude.{◌≡◌, ◌↔◌, ℕ, List, [], Bool, true, OnOk, OnErr, IfOk, IfErr, IsErrOf, IsTrue, Some, codes};
ghost use Rattle.http_header.specs.HeaderMap.{get_all, IsUnique, RefusesInsert};
ghost use Rattle.relay_tasks.specs.Error.{refused, IsMemoryOr};
ghost use Rattle.relay_h1.specs.Framing.{IsFramedBy, is_http_10, response_framing};
ghost use Rattle.relay_h1.specs.ClientHead.{is_sent_to, framing_for, client_framing, head_for, client_head, lacks_framing, chunked_head};
ghost use Rattle.relay_h1.specs.Verdict.{settled};

use crate::framing::{Framing, has_no_body, is_http_10, response_framing};
use crate::verdict::settle;
use http::{Method, Version};
use http_header::{CONTENT_LENGTH, HeaderValue, TRANSFER_ENCODING};
use relay_tasks::{Context, Error, Fail, ResponseHeader, Result};

/// Whether a client of that version is sent the head: HTTP/1.0 has no informational ones.
pub fn is_sent_to(version: Version, head: &ResponseHeader) -> bool
    ensures { result ≡ is_sent_to version head.now.status }
{
    !(is_http_10(version) && head.is_informational())
}

/// The framing of a response towards a client that asked with that method in that version; `asked`
/// is whether it asked for an upgrade. It is that of the head by the rule for responses, but a
/// client of HTTP/1.0 reads no chunks: what would be chunked lasts until the close.
///
/// `InvalidHTTPHeader`, about `BadFraming`: exactly where `response_framing` answers it.
#[tactic(auto, unfolding(crate::specs::ClientHead::client_framing))]
pub fn client_framing(
    method: &Method,
    version: Version,
    asked: bool,
    head: &ResponseHeader,
) -> std::result::Result<Framing, Error>
    ensures { IsFramedBy result (client_framing method.now version asked head.now) }
{
    let framing = response_framing(method, asked, head)?;
    Ok(framing_for(is_http_10(version), framing))
}

fn framing_for(is_old: bool, framing: Framing) -> Framing
    ensures { result ≡ framing_for is_old framing }
{
    match framing {
        Framing::Chunked if is_old => Framing::UntilClose,
        Framing::Empty
        | Framing::Length(_)
        | Framing::Chunked
        | Framing::UntilClose
        | Framing::Tunnel => framing,
    }
}

/// Makes the head the one that the client gets, and gives the framing of the body behind it, as
/// `client_framing` does: a Content-Length beside chunked is removed, and for HTTP/1.0 each
/// Transfer-Encoding. By the rule for responses the client finds that framing in that head.
///
/// `InvalidHTTPHeader`, about `BadFraming`: exactly where `response_framing` answers it. The head
/// then stays as it was.
#[tactic(auto, unfolding(crate::specs::ClientHead::client_framing, crate::specs::ClientHead::client_head))]
pub fn frame_for_client(
    method: &Method,
    version: Version,
    asked: bool,
    head: &mut ResponseHeader,
) -> std::result::Result<Framing, Error>
    ensures framing { IsFramedBy result (client_framing method.now version asked head.old) }
    ensures head { head.new ≡ client_head method.now version asked head.old }
    ensures found { IfOk result (λ framing.
        response_framing method.now asked head.new ≡ Some framing) }
    ensures plain { OnOk result (IsTrue (is_http_10 version)
        → get_all head.new.fields (codes "transfer-encoding") ≡ []) }
{
    let framing = response_framing(method, asked, head)?;
    make_head_for(is_http_10(version), framing, head);
    Ok(framing_for(is_http_10(version), framing))
}

fn make_head_for(is_old: bool, framing: Framing, head: &mut ResponseHeader)
    ensures head { head.new ≡ head_for is_old framing head.old }
    ensures unique { IsUnique head.old.fields }
    ensures still_unique { IsUnique (settled framing head.old).fields }
{
    names_are_unique(head);
    settle(framing, head);
    names_are_unique(head);
    if is_old {
        let _ = head.remove_header(&TRANSFER_ENCODING);
    }
}

/// Does nothing: it says what holds of every field list.
fn names_are_unique(head: &ResponseHeader)
    ensures { IsUnique head.now.fields }
{
    let _ = head.headers().len();
}

/// Whether HTTP/1 has to send the body behind the head in chunks, since nothing says where it ends:
/// a final head that may have a body, does not end its stream and has neither framing field.
#[tactic(auto, unfolding(crate::specs::ClientHead::lacks_framing))]
pub fn lacks_framing(method: &Method, ends: bool, head: &ResponseHeader) -> bool
    ensures { result ≡ lacks_framing method.now ends head.now }
{
    !ends
        && !has_no_body(method, head.status())
        && head.headers().get(&CONTENT_LENGTH).is_none()
        && head.headers().get(&TRANSFER_ENCODING).is_none()
}

/// Says in the head that its body comes in chunks, and makes it one of HTTP/1.1. A head that lacked
/// a framing is chunked then.
///
/// `InvalidHTTPHeader`, about `HeadTooLong`: exactly where the field list is full. Then, and where
/// memory is wanted, the head stays as it was.
pub fn add_chunked(head: &mut ResponseHeader) -> Result<()>
    ensures ok { OnOk result (head.new ≡ chunked_head head.old) }
    ensures framed { OnOk result ((method : List ℕ) (asked ends : Bool)
        → lacks_framing method ends head.old ≡ true
        → response_framing method asked head.new ≡ Some Framing.Chunked) }
    ensures full { IsErrOf result (Fail.Error (refused Context.HeadTooLong))
        ↔ RefusesInsert head.old.fields (codes "transfer-encoding") }
    ensures causes { IfErr result (IsMemoryOr (refused Context.HeadTooLong)) }
    ensures err { OnErr result (head.new ≡ head.old) }
{
    head.insert_header(TRANSFER_ENCODING, HeaderValue::from_static("chunked"))?;
    head.set_version(Version::HTTP_11);
    Ok(())
}
