//! An upload whose first link fails at any of its calls, beside a second peer that answers: what
//! was read of the body is sent again from its first byte.
use super::support::{ANSWERING, ASKING, HEADED, LEFT, SENT_WHOLE, SLOWLY, Sweep};
use std::alloc::{AllocError, Global};

/// Both bodies pass in turn, so that a link fails at each stage of them.
const TURNS: &str = r#"
    "DownRead","UpRead","DownTake","DownWrite","UpTake","UpWrite",
    "DownRead","UpRead","DownTake","DownWrite","UpTake","UpWrite",
    "DownRead","UpRead","DownTake","DownWrite","UpTake","UpWrite",
    "DownRead","UpRead","DownTake","DownWrite","UpTake","UpWrite",
    "DownRead","UpRead","DownTake","DownWrite","UpTake","UpWrite",
    "DownRead","UpRead","DownTake","DownWrite","UpTake","UpWrite",
    "DownRead","UpRead","DownTake","DownWrite","UpTake","UpWrite",
    "DownRead","UpRead","DownTake","DownWrite","UpTake","UpWrite"
"#;

/// A request that waits for leave, before the bytes of the first peer.
const READS: Sweep = Sweep {
    schedule: TURNS,
    client: [ASKING, SLOWLY],
    front: "\"peers\":[{\"name\":\"a\",\"read\":[{\"after\":77},",
    fault: "{\"fault\":\"Read\",\"retry\":true},",
    back: "{\"after\":0}]},{\"name\":\"b\",\"read\":[",
    last: ANSWERING,
};

/// The leave and the answer of the first peer.
const FIRST: &[u8] = b"HTTP/1.1 100 Continue\r\n\r\n\
    HTTP/1.1 200 OK\r\nContent-Length: 2\r\n\r\nno";

/// How many bytes these are.
const ANSWERED: usize = 65;

/// The second peer answers behind a first that gave no leave.
const BY_SECOND: [&str; 9] = [
    "0 request 1",
    "outcome Served",
    "error -",
    "reuse yes",
    "written HTTP/1.1 100 Continue\\r\\n\\r\\n\
        HTTP/1.1 200 OK\\r\\ncontent-length: 2\\r\\n\\r\\nhi",
    "attempt 1 a reused no kept no error ReadError Upstream true",
    "sent ~PUT /e HTTP/1.1\\r\\nhost: h.example\\r\\nexpect: 100-continue\\r\\n\
        content-length: 5\\r\\n\\r\\nhello",
    "attempt 2 b reused no kept yes error -",
    SENT_WHOLE,
];

/// The same behind a first that did.
const BY_BOTH: [&str; 9] = [
    "0 request 1",
    "outcome Served",
    "error -",
    "reuse yes",
    "written HTTP/1.1 100 Continue\\r\\n\\r\\nHTTP/1.1 100 Continue\\r\\n\\r\\n\
        HTTP/1.1 200 OK\\r\\ncontent-length: 2\\r\\n\\r\\nhi",
    "attempt 1 a reused no kept no error ReadError Upstream true",
    "sent ~PUT /e HTTP/1.1\\r\\nhost: h.example\\r\\nexpect: 100-continue\\r\\n\
        content-length: 5\\r\\n\\r\\nhello",
    "attempt 2 b reused no kept yes error -",
    SENT_WHOLE,
];

/// The first answer breaks off behind its head: no other peer is asked.
const BROKEN_OFF: [&str; 8] = [
    "0 request 1",
    "outcome Served",
    "error ReadError Upstream true",
    "reuse no",
    "written HTTP/1.1 100 Continue\\r\\n\\r\\n\
        HTTP/1.1 200 OK\\r\\ncontent-length: 2\\r\\n\\r\\n~n",
    "attempt 1 a reused no kept no error ReadError Upstream true",
    "sent ~PUT /e HTTP/1.1\\r\\nhost: h.example\\r\\nexpect: 100-continue\\r\\n\
        content-length: 5\\r\\n\\r\\nhello",
    "log new_ctx ok",
];

/// The first answers.
const BY_FIRST: [&str; 8] = [
    "0 request 1",
    "outcome Served",
    "error -",
    "reuse yes",
    "written HTTP/1.1 100 Continue\\r\\n\\r\\n\
        HTTP/1.1 200 OK\\r\\ncontent-length: 2\\r\\n\\r\\nno",
    "attempt 1 a reused no kept yes error -",
    SENT_WHOLE,
    "log new_ctx ok",
];

/// What is reported where the first link fails behind so many bytes.
fn lines_at_read(bytes: usize) -> &'static [&'static str] {
    if bytes < LEFT {
        return &BY_SECOND;
    }
    if bytes < HEADED {
        return &BY_BOTH;
    }
    if bytes < ANSWERED {
        return &BROKEN_OFF;
    }
    &BY_FIRST
}

#[test]
fn tries_again_at_every_read_of_the_first_link(rt: HostRuntime) -> Result<(), AllocError> {
    for at in 0..=ANSWERED {
        let told = READS.reports_at_read(rt.alloc(), FIRST, at, lines_at_read(at))?;
        assert!(rt; told, "behind {at} bytes");
    }
    Ok(())
}

/// The same request before the writes to the first peer, which gives leave, waits for longer than
/// the body takes, and ends.
const WRITES: Sweep = Sweep {
    schedule: TURNS,
    client: [ASKING, SLOWLY],
    front: "\"peers\":[{\"name\":\"a\",\"read\":[{\"after\":77},\
        {\"text\":\"HTTP/1.1 100 Continue\\r\\n\\r\\n\"},{\"wait\":100},{\"end\":true}],\
        \"write\":[",
    fault: "{\"fault\":\"Write\",\"retry\":true},",
    back: "{\"take\":5}]},{\"name\":\"b\",\"read\":[",
    last: ANSWERING,
};

/// What a peer is sent: a head of 77 bytes, and the body.
const SENT: &[u8] =
    b"PUT /e HTTP/1.1\r\nhost: h.example\r\nexpect: 100-continue\r\ncontent-length: 5\r\n\r\nhello";

/// How many writes to the first link there are: those of the head, five bytes at a time, and then
/// each byte of the body.
const HEAD_WRITES: usize = 16;

const ALL_WRITES: usize = 21;

/// How many bytes of the request the first link took where that write fails.
fn taken_before(call: usize) -> usize {
    if call < HEAD_WRITES {
        return 5 * call;
    }
    (call - HEAD_WRITES).saturating_add(77)
}

/// The line that tells so many bytes of the request as sent.
fn line_of_sent(alloc: Global, bytes: usize) -> Result<String, AllocError> {
    let mut line = String::from_str(alloc, "sent ")?;
    for byte in SENT.iter().take(bytes) {
        match *byte {
            b'\r' => line.push_str("\\r")?,
            b'\n' => line.push_str("\\n")?,
            byte => line.push(char::from(byte))?,
        }
    }
    Ok(line)
}

/// The line that tells what the client is written where that write to the first link fails.
fn line_of_written(call: usize) -> &'static str {
    if call < HEAD_WRITES {
        return BY_SECOND[4];
    }
    BY_BOTH[4]
}

/// Whether the upload is sent whole over the second link where that write to the first one fails.
fn tries_again_at_write(alloc: Global, call: usize) -> Result<bool, AllocError> {
    let sent = line_of_sent(alloc, taken_before(call))?;
    let lines = [
        "0 request 1",
        "outcome Served",
        "error -",
        "reuse yes",
        line_of_written(call),
        "attempt 1 a reused no kept no error WriteError Upstream true",
        sent.as_str(),
        "attempt 2 b reused no kept yes error -",
        SENT_WHOLE,
    ];
    WRITES.reports_at_write(alloc, call, &lines)
}

/// The first link, which took all, ended without an answer: no other peer is asked.
const UNANSWERED: [&str; 8] = [
    "0 request 1",
    "outcome Served",
    "error ConnectionClosed Upstream false",
    "reuse no",
    "written HTTP/1.1 100 Continue\\r\\n\\r\\nHTTP/1.1 502 Bad Gateway\\r\\nserver: Pingora\\r\\n\
        content-length: 0\\r\\ncache-control: private, no-store\\r\\n\\r\\n",
    "attempt 1 a reused no kept no error ConnectionClosed Upstream false",
    SENT_WHOLE,
    "log new_ctx ok",
];

#[test]
fn tries_again_at_every_write_to_the_first_link(rt: HostRuntime) -> Result<(), AllocError> {
    for call in 0..ALL_WRITES {
        assert!(rt; tries_again_at_write(rt.alloc(), call)?, "at {call}");
    }
    let told = WRITES.reports_at_write(rt.alloc(), ALL_WRITES, &UNANSWERED)?;
    assert!(rt; told);
    Ok(())
}

/// An upload in chunks of one byte each, before the bytes of the first peer; the second answers at
/// once.
const CHUNKS: Sweep = Sweep {
    schedule: TURNS,
    client: [
        "{\"text\":\"PUT /c HTTP/1.1\\r\\nHost: h.example\\r\\n\
            Transfer-Encoding: chunked\\r\\n\\r\\n\"},",
        "{\"text\":\"1\\r\\nh\\r\\n\"},{\"text\":\"1\\r\\ne\\r\\n\"},\
            {\"text\":\"1\\r\\nl\\r\\n\"},{\"text\":\"1\\r\\nl\\r\\n\"},\
            {\"text\":\"1\\r\\no\\r\\n\"},{\"text\":\"0\\r\\n\\r\\n\"}],",
    ],
    front: "\"peers\":[{\"name\":\"a\",\"read\":[",
    fault: "{\"fault\":\"Read\",\"retry\":true},",
    back: "{\"after\":0}]},{\"name\":\"b\",\"read\":[",
    last: "{\"text\":\"HTTP/1.1 200 OK\\r\\nContent-Length: 2\\r\\n\\r\\nhi\"}]}]}",
};

/// The head of the first peer's answer.
const CHUNKS_FIRST: &[u8] = b"HTTP/1.1 200 OK\r\nContent-Length: 2\r\n\r\n";

/// What the second peer is sent where so many bytes of the body were read before: those are one
/// chunk, so none and one look alike.
const JOINED: [&str; 6] = [
    "sent PUT /c HTTP/1.1\\r\\nhost: h.example\\r\\ntransfer-encoding: chunked\\r\\n\\r\\n\
        1\\r\\nh\\r\\n1\\r\\ne\\r\\n1\\r\\nl\\r\\n1\\r\\nl\\r\\n1\\r\\no\\r\\n0\\r\\n\\r\\n",
    "sent PUT /c HTTP/1.1\\r\\nhost: h.example\\r\\ntransfer-encoding: chunked\\r\\n\\r\\n\
        1\\r\\nh\\r\\n1\\r\\ne\\r\\n1\\r\\nl\\r\\n1\\r\\nl\\r\\n1\\r\\no\\r\\n0\\r\\n\\r\\n",
    "sent PUT /c HTTP/1.1\\r\\nhost: h.example\\r\\ntransfer-encoding: chunked\\r\\n\\r\\n\
        2\\r\\nhe\\r\\n1\\r\\nl\\r\\n1\\r\\nl\\r\\n1\\r\\no\\r\\n0\\r\\n\\r\\n",
    "sent PUT /c HTTP/1.1\\r\\nhost: h.example\\r\\ntransfer-encoding: chunked\\r\\n\\r\\n\
        3\\r\\nhel\\r\\n1\\r\\nl\\r\\n1\\r\\no\\r\\n0\\r\\n\\r\\n",
    "sent PUT /c HTTP/1.1\\r\\nhost: h.example\\r\\ntransfer-encoding: chunked\\r\\n\\r\\n\
        4\\r\\nhell\\r\\n1\\r\\no\\r\\n0\\r\\n\\r\\n",
    "sent PUT /c HTTP/1.1\\r\\nhost: h.example\\r\\ntransfer-encoding: chunked\\r\\n\\r\\n\
        5\\r\\nhello\\r\\n0\\r\\n\\r\\n",
];

/// Whether the second peer is sent this where the first link fails behind so many bytes.
fn sends_again(alloc: Global, at: usize, sent: &'static str) -> Result<bool, AllocError> {
    let mut lines = BY_SECOND;
    lines[4] = "written HTTP/1.1 200 OK\\r\\ncontent-length: 2\\r\\n\\r\\nhi";
    lines[6] = "sent ~PUT /c HTTP/1.1\\r\\nhost: h.example\\r\\n\
        transfer-encoding: chunked\\r\\n\\r\\n\
        1\\r\\nh\\r\\n1\\r\\ne\\r\\n1\\r\\nl\\r\\n1\\r\\nl\\r\\n1\\r\\no\\r\\n0\\r\\n\\r\\n";
    lines[8] = sent;
    CHUNKS.reports_at_read(alloc, CHUNKS_FIRST, at, &lines)
}

/// How many bytes of the body were read before the second attempt, which sent the upload whole, at
/// least so many; none where it did not.
fn read_before(alloc: Global, at: usize, least: usize) -> Result<Option<usize>, AllocError> {
    for (read, sent) in JOINED.iter().enumerate().skip(least) {
        if sends_again(alloc, at, sent)? {
            return Ok(Some(read));
        }
    }
    Ok(None)
}

#[test]
fn sends_chunks_that_were_read_again_as_one(rt: HostRuntime) -> Result<(), AllocError> {
    let mut before = Some(0);
    for at in 0..CHUNKS_FIRST.len() {
        // the later the first link fails, the more was read
        before = read_before(rt.alloc(), at, before.unwrap_or(JOINED.len()))?;
    }
    assert!(rt; before == Some(5));
    Ok(())
}
