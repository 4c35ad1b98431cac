//! A gateway: it asks for an authorisation, sends each path to its peer, takes out what concerns
//! one connection, and names itself in what it forwards (RFC 9110, sections 3.7, 7.6 and 15.5.4).

use crate::memory::{REQUEST, Scene};
use bytes::Bytes;
use http::Version;
use http_header::{
    AUTHORIZATION, CONNECTION, CONTENT_LENGTH, HOST, HeaderMap, HeaderName, HeaderNameError,
    HeaderValue, TE, TRANSFER_ENCODING, UPGRADE, VIA,
};
use relay_hooks::{Filters, NoModules, Session};
use relay_tasks::{Peer, RequestHeader, ResponseHeader, Result};
use std::alloc::{AllocError, Global};

/// A request without an authorisation; one with it for a path of the images, from another gateway
/// that speaks HTTP/1.0; and one for another path. That one and the response have fields of one
/// connection; the response names its Content-Length as such, which stays all the same.
pub(crate) const SCENE: Scene = Scene {
    requests: &[
        REQUEST,
        "GET /images/a HTTP/1.0\r\nHost: h.example\r\nAuthorization: Basic eDp5\r\n\
         Via: 1.1 edge\r\n\r\n",
        "GET /b HTTP/1.1\r\nHost: h.example\r\nAuthorization: Basic eDp5\r\n\
         Connection: TE, X-Hop\r\nTE: trailers\r\nX-Hop: 1\r\n\r\n",
    ],
    response: &[
        "HTTP/1.1 200 OK\r\nConnection: Keep-Alive, ,X-Hop\r\nKeep-Alive: timeout=5\r\n\
         X-Hop: 1\r\nServer: a\r\nConnection: content-length\r\nContent-Length: 2\r\n\r\nhi",
    ],
    refused: 0,
};

/// An application with a peer for the images, and one for all else.
#[derive(Drop)]
pub struct Gateway;

/// The fields of a head that concern the connection over which it came: those that Connection
/// names, that field itself, and those that are known to be such (RFC 9110, section 7.6.1). A
/// member of Connection that is no name of a field is none.
fn fields_of_connection(
    alloc: Global,
    fields: &HeaderMap,
) -> std::result::Result<Vec<HeaderName>, AllocError> {
    let mut names = Vec::new(alloc);
    names.push(CONNECTION)?;
    names.push(HeaderName::from_static("keep-alive"))?;
    names.push(HeaderName::from_static("proxy-connection"))?;
    names.push(TE)?;
    names.push(UPGRADE)?;
    for value in fields.get_all(&CONNECTION).iter() {
        for member in value.as_bytes().split(|byte| *byte == b',') {
            match HeaderName::from_bytes(alloc, member.trim_ascii()) {
                Ok(name) => names.push(name)?,
                Err(HeaderNameError::Invalid) => {}
                Err(HeaderNameError::OutOfMemory) => return Err(AllocError),
            }
        }
    }
    names.retain(|name| !is_for_all(name));
    Ok(names)
}

/// Whether a field is meant for all who receive the message, whatever Connection says: those by
/// which it is framed, of which the relay takes care, and Host.
fn is_for_all(name: &HeaderName) -> bool {
    *name == CONTENT_LENGTH || *name == TRANSFER_ENCODING || *name == HOST
}

/// What the gateway adds to the field Via of a message that came in that version.
fn via(version: Version) -> HeaderValue {
    if version == Version::HTTP_10 {
        HeaderValue::from_static("1.0 gateway")
    } else {
        HeaderValue::from_static("1.1 gateway")
    }
}

impl Filters for Gateway {
    type CTX = ();

    fn new_ctx(&self) {}

    /// Answers 403 to a request without an authorisation.
    fn request_filter(
        &self,
        _alloc: Global,
        session: &mut Session<NoModules>,
        _ctx: &mut (),
    ) -> Result<bool> {
        if session.req_header().headers().contains_key(AUTHORIZATION) {
            return Ok(false);
        }
        session.respond_error(403)?;
        Ok(true)
    }

    fn upstream_peer(
        &self,
        _alloc: Global,
        session: &Session<NoModules>,
        _ctx: &mut (),
    ) -> Result<Peer> {
        let address = if session.req_header().raw_path().starts_with(b"/images/") {
            "images.example:80"
        } else {
            "pages.example:80"
        };
        Ok(Peer {
            address: Bytes::from_static(address.as_bytes()),
            tls: false,
            allows_h1: true,
        })
    }

    /// Takes the fields of the client's connection out, and adds the gateway to Via.
    fn upstream_request_filter(
        &self,
        alloc: Global,
        session: &Session<NoModules>,
        head: &mut RequestHeader,
        _ctx: &mut (),
    ) -> Result<()> {
        for name in &fields_of_connection(alloc, head.headers())? {
            head.remove_header(name);
        }
        head.append_header(VIA, via(session.req_header().version()))
    }

    /// Takes the fields of the peer's connection out, and adds the gateway to Via. That is done
    /// here, where a head is as it came, and not in `response_filter`, behind which the relay
    /// frames nothing anew.
    fn upstream_response_filter(
        &self,
        alloc: Global,
        _session: &Session<NoModules>,
        head: &mut ResponseHeader,
        _ctx: &mut (),
    ) -> Result<()> {
        for name in &fields_of_connection(alloc, head.headers())? {
            head.remove_header(name);
        }
        head.append_header(VIA, via(head.version()))
    }
}
