//! Request bodies of every framing, and clients that break off.
use super::super::scripts::Gives;
use super::support::{ANSWER, ANSWERED, Case, Ending, exchange, exchange_by};
use relay_links::{Branch, ListSchedule};
use relay_tasks::Result;
use std::alloc::{AllocError, Global};

/// The head of a POST whose body comes in chunks.
const CHUNKED: &str = "POST /c HTTP/1.1\r\nHost: h.example\r\nTransfer-Encoding: chunked\r\n\r\n";

#[test]
fn a_body_in_one_item_is_one_chunk(rt: HostRuntime) {
    let case = Case {
        from_client: &[Gives::Text(CHUNKED), Gives::Text("5\r\nhello\r\n0\r\n\r\n")],
        from_peer: &[Gives::Text(ANSWER)],
        written: ANSWERED,
        sent: "POST /c HTTP/1.1\r\nhost: h.example\r\ntransfer-encoding: chunked\r\n\r\n\
            5\r\nhello\r\n0\r\n\r\n",
    };
    assert!(rt; exchange(rt.alloc(), case) == Ending::Relayed);
}

#[test]
fn a_body_byte_by_byte_is_a_chunk_for_each_byte(rt: HostRuntime) {
    let case = Case {
        from_client: &[
            Gives::Text(CHUNKED),
            Gives::ByteByByte("2\r\nhi\r\n0\r\n\r\n"),
        ],
        from_peer: &[Gives::Text(ANSWER)],
        written: ANSWERED,
        sent: "POST /c HTTP/1.1\r\nhost: h.example\r\ntransfer-encoding: chunked\r\n\r\n\
            1\r\nh\r\n1\r\ni\r\n0\r\n\r\n",
    };
    assert!(rt; exchange(rt.alloc(), case) == Ending::Relayed);
}

/// An upload that waits for leave: the body comes only once the client got the informational head,
/// and the final head only once the peer got the body.
#[test]
fn a_body_follows_the_leave_to_send_it(rt: HostRuntime) {
    let case = Case {
        from_client: &[
            Gives::Text(
                "PUT /e HTTP/1.1\r\nHost: h.example\r\nExpect: 100-continue\r\n\
                Content-Length: 5\r\n\r\n",
            ),
            Gives::After(25),
            Gives::Text("hello"),
        ],
        from_peer: &[
            Gives::After(77),
            Gives::Text("HTTP/1.1 100 Continue\r\n\r\n"),
            Gives::After(82),
            Gives::Text("HTTP/1.1 200 OK\r\nContent-Length: 0\r\n\r\n"),
        ],
        written: "HTTP/1.1 100 Continue\r\n\r\nHTTP/1.1 200 OK\r\ncontent-length: 0\r\n\r\n",
        sent: "PUT /e HTTP/1.1\r\nhost: h.example\r\nexpect: 100-continue\r\n\
            content-length: 5\r\n\r\nhello",
    };
    assert!(rt; exchange(rt.alloc(), case) == Ending::Relayed);
}

const SHORT_UPLOAD: &str = "PUT /u HTTP/1.1\r\nHost: h.example\r\nContent-Length: 10\r\n\r\n";

const SHORT_SENT: &str = "PUT /u HTTP/1.1\r\nhost: h.example\r\ncontent-length: 10\r\n\r\nabc";

#[test]
fn a_client_that_breaks_off_leaves_no_end(rt: HostRuntime) {
    let case = Case {
        from_client: &[Gives::Text(SHORT_UPLOAD), Gives::Text("abc"), Gives::End],
        from_peer: &[],
        written: "",
        sent: SHORT_SENT,
    };
    assert!(rt; exchange(rt.alloc(), case) == Ending::Closed);
}

/// What comes of a client that sends a byte behind its request, and is read first.
fn sends_more(alloc: Global) -> Result<Ending> {
    let case = Case {
        from_client: &[Gives::Text("GET /a HTTP/1.1\r\nHost: h.example\r\n\r\nx")],
        from_peer: &[Gives::Text(ANSWER)],
        written: "",
        sent: "GET /a HTTP/1.1\r\nhost: h.example\r\n\r\n",
    };
    let mut branches = Vec::new(alloc);
    branches.push(Branch::DownRead).map_err(AllocError::from)?;
    exchange_by(alloc, case, 0, ListSchedule::new(branches))
}

#[test]
fn a_byte_behind_the_request_ends_the_exchange(rt: HostRuntime) {
    assert!(rt; sends_more(rt.alloc()) == Ok(Ending::Closed));
}

/// A client that is silent inside its body: both links are, once what came was sent.
#[test]
fn a_silent_client_leaves_the_exchange_waiting(rt: HostRuntime) {
    let case = Case {
        from_client: &[Gives::Text(SHORT_UPLOAD), Gives::Text("abc")],
        from_peer: &[],
        written: "",
        sent: SHORT_SENT,
    };
    assert!(rt; exchange(rt.alloc(), case) == Ending::Silent);
}

/// A response that comes whole before the request was read whole is relayed, and so is the request.
#[test]
fn an_early_response_does_not_end_the_request(rt: HostRuntime) {
    let case = Case {
        from_client: &[
            Gives::Text("PUT /u HTTP/1.1\r\nHost: h.example\r\nContent-Length: 6\r\n\r\nabc"),
            Gives::After(38),
            Gives::Text("def"),
        ],
        from_peer: &[Gives::Text("HTTP/1.1 413 Payload Too Large\r\nContent-Length: 0\r\n\r\n")],
        written: "HTTP/1.1 413 Payload Too Large\r\ncontent-length: 0\r\n\r\n",
        sent: "PUT /u HTTP/1.1\r\nhost: h.example\r\ncontent-length: 6\r\n\r\nabcdef",
    };
    assert!(rt; exchange(rt.alloc(), case) == Ending::Relayed);
}
