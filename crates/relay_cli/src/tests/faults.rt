//! An upload that waits for leave, over two links of which one fails at any of its calls.
use super::support::{ANSWERING, ASKING, HEADED, LEFT, SENT_WHOLE, SLOWLY, Sweep, reports};
use std::alloc::AllocError;

/// The head of the client's request, whose body comes once there is leave.
const HEAD: &[u8] =
    b"PUT /e HTTP/1.1\r\nHost: h.example\r\nExpect: 100-continue\r\nContent-Length: 5\r\n\r\n";

/// What is reported where both links pass all.
const RELAYED: [&str; 8] = [
    "0 request 1",
    "outcome Served",
    "error -",
    "reuse yes",
    "written HTTP/1.1 100 Continue\\r\\n\\r\\n\
        HTTP/1.1 200 OK\\r\\ncontent-length: 2\\r\\n\\r\\nhi",
    "attempt 1 a reused no kept yes error -",
    SENT_WHOLE,
    "log new_ctx ok",
];

/// A read of the client's head, and one of its body.
const HEAD_READS: Sweep = Sweep {
    schedule: "",
    client: ["", ""],
    front: "",
    fault: "{\"fault\":\"Read\"},",
    back: "{\"after\":25},{\"text\":\"hello\"}],\"peers\":[{\"name\":\"a\",\"read\":[",
    last: ANSWERING,
};

const BODY_READS: Sweep = Sweep {
    schedule: "",
    client: [ASKING, ""],
    front: "",
    fault: "{\"fault\":\"Read\"},",
    back: "{\"after\":0}],\"peers\":[{\"name\":\"a\",\"read\":[",
    last: ANSWERING,
};

/// What is reported where the head does not come whole, and where the body does not.
const NO_HEAD: [&str; 5] = [
    "0 request 1",
    "outcome Refused",
    "error ReadError Downstream false",
    "reuse no",
    "written ",
];

const NO_BODY: [&str; 7] = [
    "0 request 1",
    "outcome Served",
    "error ReadError Downstream false",
    "reuse no",
    "written ~HTTP/1.1 100 Continue\\r\\n\\r\\n\
        HTTP/1.1 200 OK\\r\\ncontent-length: 2\\r\\n\\r\\nhi",
    "attempt 1 a reused no kept no error ReadError Downstream false",
    "sent PUT /e HTTP/1.1\\r\\nhost: h.example\\r\\nexpect: 100-continue\\r\\n\
        content-length: 5\\r\\n\\r\\n~hell",
];

#[test]
fn fails_at_every_read_of_the_client(rt: HostRuntime) -> Result<(), AllocError> {
    for at in 0..=HEAD.len() {
        let lines: &[&str] = if at < HEAD.len() { &NO_HEAD } else { &NO_BODY };
        let told = HEAD_READS.reports_at_read(rt.alloc(), HEAD, at, lines)?;
        assert!(rt; told, "behind {at} bytes of the head");
    }
    for at in 0..=5usize {
        let lines: &[&str] = if at < 5 { &NO_BODY } else { &RELAYED };
        let told = BODY_READS.reports_at_read(rt.alloc(), b"hello", at, lines)?;
        assert!(rt; told, "behind {at} bytes of the body");
    }
    Ok(())
}

/// A read of the peer.
const PEER_READS: Sweep = Sweep {
    schedule: "",
    client: [ASKING, SLOWLY],
    front: "\"peers\":[{\"name\":\"a\",\"read\":[{\"after\":77},",
    fault: "{\"fault\":\"Read\"},",
    back: "{\"after\":0}]}]}",
    last: "",
};

/// The leave and the answer.
const ANSWER: &[u8] = b"HTTP/1.1 100 Continue\r\n\r\n\
    HTTP/1.1 200 OK\r\nContent-Length: 2\r\n\r\nhi";

/// What the client is written before there is leave, behind that, and behind the final head.
const NO_LEAVE: [&str; 7] = [
    "0 request 1",
    "outcome Served",
    "error ReadError Upstream false",
    "reuse no",
    "written HTTP/1.1 502 Bad Gateway\\r\\nserver: Pingora\\r\\n\
        content-length: 0\\r\\ncache-control: private, no-store\\r\\n\\r\\n",
    "attempt 1 a reused no kept no error ReadError Upstream false",
    "sent PUT /e HTTP/1.1\\r\\nhost: h.example\\r\\nexpect: 100-continue\\r\\n\
        content-length: 5\\r\\n\\r\\n",
];

const NO_ANSWER: [&str; 7] = [
    "0 request 1",
    "outcome Served",
    "error ReadError Upstream false",
    "reuse no",
    "written HTTP/1.1 100 Continue\\r\\n\\r\\nHTTP/1.1 502 Bad Gateway\\r\\nserver: Pingora\\r\\n\
        content-length: 0\\r\\ncache-control: private, no-store\\r\\n\\r\\n",
    "attempt 1 a reused no kept no error ReadError Upstream false",
    "sent PUT /e HTTP/1.1\\r\\nhost: h.example\\r\\nexpect: 100-continue\\r\\n\
        content-length: 5\\r\\n\\r\\n~hello",
];

const HALF_ANSWER: [&str; 7] = [
    "0 request 1",
    "outcome Served",
    "error ReadError Upstream false",
    "reuse no",
    "written HTTP/1.1 100 Continue\\r\\n\\r\\n\
        HTTP/1.1 200 OK\\r\\ncontent-length: 2\\r\\n\\r\\n~h",
    "attempt 1 a reused no kept no error ReadError Upstream false",
    "sent PUT /e HTTP/1.1\\r\\nhost: h.example\\r\\nexpect: 100-continue\\r\\n\
        content-length: 5\\r\\n\\r\\n~hello",
];

/// What is reported where the peer fails behind so many bytes.
fn lines_at_peer(bytes: usize) -> &'static [&'static str] {
    if bytes < LEFT {
        return &NO_LEAVE;
    }
    if bytes < HEADED {
        return &NO_ANSWER;
    }
    if bytes < ANSWER.len() {
        return &HALF_ANSWER;
    }
    &RELAYED
}

#[test]
fn fails_at_every_read_of_the_peer(rt: HostRuntime) -> Result<(), AllocError> {
    for at in 0..=ANSWER.len() {
        let told = PEER_READS.reports_at_read(rt.alloc(), ANSWER, at, lines_at_peer(at))?;
        assert!(rt; told, "behind {at} bytes");
    }
    Ok(())
}

/// A write to the client.
const CLIENT_WRITES: Sweep = Sweep {
    schedule: "",
    client: [ASKING, "{\"text\":\"hello\"}],"],
    front: "\"client_write\":[",
    fault: "{\"fault\":\"Write\"},",
    back: "{\"take\":5}],\"peers\":[{\"name\":\"a\",\"read\":[",
    last: ANSWERING,
};

/// What is reported where the client does not take all.
const NOT_WRITTEN: [&str; 7] = [
    "0 request 1",
    "outcome Served",
    "error WriteError Downstream false",
    "reuse no",
    "written ~HTTP/1.1 100 Continue\\r\\n\\r\\n\
        HTTP/1.1 200 OK\\r\\ncontent-length: 2\\r\\n\\r\\nh",
    "attempt 1 a reused no kept no error WriteError Downstream false",
    "sent PUT /e HTTP/1.1\\r\\nhost: h.example\\r\\nexpect: 100-continue\\r\\n\
        content-length: 5\\r\\n\\r\\n~hello",
];

/// How many writes to the client there are, five bytes at a time: 25 bytes of the leave, 38 of the
/// final head, and the body.
const WRITTEN: usize = 14;

#[test]
fn fails_at_every_write_to_the_client(rt: HostRuntime) -> Result<(), AllocError> {
    for call in 0..=WRITTEN {
        let lines: &[&str] = if call < WRITTEN {
            &NOT_WRITTEN
        } else {
            &RELAYED
        };
        let told = CLIENT_WRITES.reports_at_write(rt.alloc(), call, lines)?;
        assert!(rt; told, "at {call}");
    }
    Ok(())
}

/// A write to the peer, which gives its final answer whether or not the body came.
const PEER_WRITES: Sweep = Sweep {
    schedule: "",
    client: [ASKING, SLOWLY],
    front: "\"peers\":[{\"name\":\"a\",\"write\":[",
    fault: "{\"fault\":\"Write\"},",
    back: "{\"take\":5}],\"read\":[",
    last: ANSWERING,
};

/// The request ends where a write of its head fails.
const HALF_SENT: [&str; 7] = [
    "0 request 1",
    "outcome Served",
    "error WriteError Upstream false",
    "reuse no",
    "written HTTP/1.1 502 Bad Gateway\\r\\nserver: Pingora\\r\\n\
        content-length: 0\\r\\ncache-control: private, no-store\\r\\n\\r\\n",
    "attempt 1 a reused no kept no error WriteError Upstream false",
    "sent ~PUT /e HTTP/1.1\\r\\nhost: h.example\\r\\nexpect: 100-continue\\r\\n\
        content-length: 5\\r\\n\\r",
];

/// The answer still goes to the client where a write of the body fails, and the link is not kept.
const BODY_LOST: [&str; 7] = [
    "0 request 1",
    "outcome Served",
    "error -",
    "reuse yes",
    "written HTTP/1.1 100 Continue\\r\\n\\r\\n\
        HTTP/1.1 200 OK\\r\\ncontent-length: 2\\r\\n\\r\\nhi",
    "attempt 1 a reused no kept no error -",
    "sent PUT /e HTTP/1.1\\r\\nhost: h.example\\r\\nexpect: 100-continue\\r\\n\
        content-length: 5\\r\\n\\r\\n~hell",
];

/// What is reported where that write to the peer fails: 77 bytes of the head, five at a time, and
/// then each byte of the body.
fn lines_at_write(call: usize) -> &'static [&'static str] {
    if call < 16 {
        return &HALF_SENT;
    }
    if call < 21 { &BODY_LOST } else { &RELAYED }
}

#[test]
fn keeps_no_link_after_a_write_to_it_failed(rt: HostRuntime) -> Result<(), AllocError> {
    for call in 0..=21usize {
        let told = PEER_WRITES.reports_at_write(rt.alloc(), call, lines_at_write(call))?;
        assert!(rt; told, "at {call}");
    }
    Ok(())
}

/// A peer that answers only to a whole body, of which a write fails.
const LOST: &str = "{\"turns\":2000,\"client\":[{\"text\":\"PUT /e HTTP/1.1\\r\\n\
    Host: h.example\\r\\nExpect: 100-continue\\r\\nContent-Length: 5\\r\\n\\r\\n\"},\
    {\"text\":\"hello\"}],\"peers\":[{\"name\":\"a\",\
    \"write\":[{\"take\":77},{\"fault\":\"Write\"}],\"read\":[{\"after\":82},\
    {\"text\":\"HTTP/1.1 200 OK\\r\\nContent-Length: 0\\r\\n\\r\\n\"}]}]}";

const WAITS: [&str; 7] = [
    "0 request 1",
    "outcome TurnLimit",
    "error -",
    "reuse no",
    "written ",
    "attempt 1 a reused no kept no error -",
    "sent PUT /e HTTP/1.1\\r\\nhost: h.example\\r\\nexpect: 100-continue\\r\\n\
        content-length: 5\\r\\n\\r\\n",
];

#[test]
fn waits_for_a_peer_that_lost_the_body(rt: HostRuntime) -> Result<(), AllocError> {
    assert!(rt; reports(rt.alloc(), &[LOST], &WAITS)?);
    Ok(())
}
