//! Exchanges that begin with a session of whose body some was read: it is sent from its first byte.
use super::super::scripts::Gives;
use super::support::{ANSWER, ANSWERED, Case, Ending, exchange_behind};
use std::alloc::Global;

/// The head of a request with a body of five bytes.
const UPLOAD: &str = "PUT /u HTTP/1.1\r\nHost: h.example\r\nContent-Length: 5\r\n\r\n";

/// That of one whose body comes in chunks.
const CHUNKED: &str = "PUT /c HTTP/1.1\r\nHost: h.example\r\nTransfer-Encoding: chunked\r\n\r\n";

/// What comes of a body in three items of which so many were read.
fn uploads(alloc: Global, reads: usize) -> Ending {
    let case = Case {
        from_client: &[
            Gives::Text(UPLOAD),
            Gives::Text("he"),
            Gives::Text("l"),
            Gives::Text("lo"),
        ],
        from_peer: &[Gives::Text(ANSWER)],
        written: ANSWERED,
        sent: "PUT /u HTTP/1.1\r\nhost: h.example\r\ncontent-length: 5\r\n\r\nhello",
    };
    exchange_behind(alloc, case, reads)
}

#[test]
fn sends_a_body_that_was_read_from_its_first_byte(rt: HostRuntime) {
    for reads in 0..4 {
        assert!(rt;
            uploads(rt.alloc(), reads) == Ending::Relayed,
            "behind {reads} reads"
        );
    }
}

/// What comes of a body in two chunks of which so much was read, and which is sent so.
fn chunks(alloc: Global, reads: usize, sent: &'static str) -> Ending {
    let case = Case {
        from_client: &[
            Gives::Text(CHUNKED),
            Gives::Text("2\r\nhe\r\n"),
            Gives::Text("3\r\nllo\r\n"),
            Gives::Text("0\r\n\r\n"),
        ],
        from_peer: &[Gives::Text(ANSWER)],
        written: ANSWERED,
        sent,
    };
    exchange_behind(alloc, case, reads)
}

const APART: &str = "PUT /c HTTP/1.1\r\nhost: h.example\r\ntransfer-encoding: chunked\r\n\r\n\
    2\r\nhe\r\n3\r\nllo\r\n0\r\n\r\n";

const JOINED: &str = "PUT /c HTTP/1.1\r\nhost: h.example\r\ntransfer-encoding: chunked\r\n\r\n\
    5\r\nhello\r\n0\r\n\r\n";

#[test]
fn sends_chunks_that_were_read_as_one(rt: HostRuntime) {
    assert!(rt; chunks(rt.alloc(), 1, APART) == Ending::Relayed);
    assert!(rt; chunks(rt.alloc(), 2, JOINED) == Ending::Relayed);
    // its end was read too
    assert!(rt; chunks(rt.alloc(), 3, JOINED) == Ending::Relayed);
}

#[test]
fn sends_the_end_that_was_read_of_an_empty_body(rt: HostRuntime) {
    let case = Case {
        from_client: &[Gives::Text(CHUNKED), Gives::Text("0\r\n\r\n")],
        from_peer: &[Gives::Text(ANSWER)],
        written: ANSWERED,
        sent: "PUT /c HTTP/1.1\r\nhost: h.example\r\ntransfer-encoding: chunked\r\n\r\n0\r\n\r\n",
    };
    assert!(rt; exchange_behind(rt.alloc(), case, 1) == Ending::Relayed);
}

#[test]
fn sends_no_end_that_a_client_did_not_send(rt: HostRuntime) {
    let case = Case {
        from_client: &[Gives::Text(UPLOAD), Gives::Text("he"), Gives::End],
        from_peer: &[],
        written: "",
        sent: "PUT /u HTTP/1.1\r\nhost: h.example\r\ncontent-length: 5\r\n\r\nhe",
    };
    assert!(rt; exchange_behind(rt.alloc(), case, 1) == Ending::Closed);
}
