//! Exchanges over links that give them in any pieces, and by schedules that name one branch.
use super::support::{hex_item, repeated, reports};
use std::alloc::{AllocError, Global};

/// Two items that give these bytes, cut at that place, and a comma behind each.
fn cut_in_two(alloc: Global, bytes: &[u8], at: usize) -> Result<String, AllocError> {
    let (front, rest) = bytes.split_at(at.min(bytes.len()));
    let mut items = hex_item(alloc, front)?;
    items.push_str(hex_item(alloc, rest)?.as_str())?;
    Ok(items)
}

/// A request with a body of five bytes, and an answer with one of two.
const PUT: &[u8] = b"PUT /u HTTP/1.1\r\nHost: h.example\r\nContent-Length: 5\r\n\r\nhello";

const ANSWER: &[u8] = b"HTTP/1.1 200 OK\r\nContent-Length: 2\r\n\r\nhi";

const ANSWERED: [&str; 7] = [
    "0 request 1",
    "outcome Served",
    "error -",
    "reuse yes",
    "written HTTP/1.1 200 OK\\r\\ncontent-length: 2\\r\\n\\r\\nhi",
    "attempt 1 a reused no kept yes error -",
    "sent PUT /u HTTP/1.1\\r\\nhost: h.example\\r\\ncontent-length: 5\\r\\n\\r\\nhello",
];

/// Whether both bodies pass where the request and the answer are cut at these places.
fn relays_cut(alloc: Global, first: usize, second: usize) -> Result<bool, AllocError> {
    let request = cut_in_two(alloc, PUT, first)?;
    let answer = cut_in_two(alloc, ANSWER, second)?;
    let parts = [
        "{\"client\":[",
        request.as_str(),
        "{\"after\":0}],\"peers\":[{\"name\":\"a\",\"read\":[",
        answer.as_str(),
        "{\"after\":0}]}]}",
    ];
    reports(alloc, &parts, &ANSWERED)
}

#[test]
fn relays_both_bodies_whatever_the_cuts(rt: HostRuntime) -> Result<(), AllocError> {
    for first in 1..PUT.len() {
        for second in 1..ANSWER.len() {
            assert!(rt;
                relays_cut(rt.alloc(), first, second)?,
                "cut at {first} and {second}"
            );
        }
    }
    Ok(())
}

/// What a GET to a client that takes five bytes at a time is answered in two pieces, before the
/// writes and before the pieces.
const GET: &str = "{\"client\":[{\"text\":\"GET /a HTTP/1.1\\r\\nHost: h.example\\r\\n\\r\\n\"}],\
    \"client_write\":[";

const FROM_PEER: &str = "{\"take\":5}],\"peers\":[{\"name\":\"a\",\"read\":[";

/// Whether a GET is answered with this line of what is written, where the peer's bytes are cut at
/// that place.
fn answers_cut(alloc: Global, bytes: &[u8], at: usize, written: &str) -> Result<bool, AllocError> {
    let writes = repeated(alloc, "{\"take\":5},", 30)?;
    let items = cut_in_two(alloc, bytes, at)?;
    let parts = [
        GET,
        writes.as_str(),
        FROM_PEER,
        items.as_str(),
        "{\"after\":0}]}]}",
    ];
    let mut lines = ANSWERED;
    lines[4] = written;
    lines[6] = "sent GET /a HTTP/1.1\\r\\nhost: h.example\\r\\n\\r\\n";
    reports(alloc, &parts, &lines)
}

const CHUNKED: &[u8] =
    b"HTTP/1.1 200 OK\r\nTransfer-Encoding: chunked\r\n\r\n5;x=1\r\nhello\r\n0\r\ny: 2\r\n\r\n";

/// Where the body stands in it.
const BODY: usize = 54;

/// What is written of it where so many bytes of the body came in the first piece.
const PIECES: [&str; 6] = [
    "written HTTP/1.1 200 OK\\r\\ntransfer-encoding: chunked\\r\\n\\r\\n\
        5\\r\\nhello\\r\\n0\\r\\n\\r\\n",
    "written HTTP/1.1 200 OK\\r\\ntransfer-encoding: chunked\\r\\n\\r\\n\
        1\\r\\nh\\r\\n4\\r\\nello\\r\\n0\\r\\n\\r\\n",
    "written HTTP/1.1 200 OK\\r\\ntransfer-encoding: chunked\\r\\n\\r\\n\
        2\\r\\nhe\\r\\n3\\r\\nllo\\r\\n0\\r\\n\\r\\n",
    "written HTTP/1.1 200 OK\\r\\ntransfer-encoding: chunked\\r\\n\\r\\n\
        3\\r\\nhel\\r\\n2\\r\\nlo\\r\\n0\\r\\n\\r\\n",
    "written HTTP/1.1 200 OK\\r\\ntransfer-encoding: chunked\\r\\n\\r\\n\
        4\\r\\nhell\\r\\n1\\r\\no\\r\\n0\\r\\n\\r\\n",
    "written HTTP/1.1 200 OK\\r\\ntransfer-encoding: chunked\\r\\n\\r\\n\
        5\\r\\nhello\\r\\n0\\r\\n\\r\\n",
];

#[test]
fn relays_chunks_whatever_the_cuts(rt: HostRuntime) -> Result<(), AllocError> {
    for at in 1..CHUNKED.len() {
        let written = PIECES[at.saturating_sub(BODY).min(5)];
        assert!(rt;
            answers_cut(rt.alloc(), CHUNKED, at, written)?,
            "cut at {at}"
        );
    }
    Ok(())
}

const INFORMED: &[u8] = b"HTTP/1.1 100 Continue\r\n\r\nHTTP/1.1 103 Early Hints\r\na: b\r\n\r\n\
    HTTP/1.1 200 OK\r\nContent-Length: 2\r\n\r\nhi";

const INFORMED_WRITTEN: &str = "written HTTP/1.1 100 Continue\\r\\n\\r\\n\
    HTTP/1.1 103 Early Hints\\r\\na: b\\r\\n\\r\\n\
    HTTP/1.1 200 OK\\r\\ncontent-length: 2\\r\\n\\r\\nhi";

#[test]
fn hands_heads_on_whatever_the_cuts(rt: HostRuntime) -> Result<(), AllocError> {
    for at in 1..INFORMED.len() {
        let told = answers_cut(rt.alloc(), INFORMED, at, INFORMED_WRITTEN)?;
        assert!(rt; told, "cut at {at}");
    }
    Ok(())
}

/// Each branch by which bodies pass.
const BRANCHES: [&str; 11] = [
    "\"UpWrite\",",
    "\"DownWrite\",",
    "\"UpTake\",",
    "\"DownTake\",",
    "\"DownDrop\",",
    "\"DownEnd\",",
    "\"DownClosed\",",
    "\"UpRead\",",
    "\"DownRead\",",
    "\"UpFinish\",",
    "\"DownFinish\",",
];

/// An upload and a download of twelve chunks each, and what comes of both.
const UPLOAD: &str = "\"UpRead\"],\"client\":[{\"text\":\"POST /c HTTP/1.1\\r\\n\
    Host: h.example\\r\\nTransfer-Encoding: chunked\\r\\n\\r\\n\"},";

const DOWNLOAD: &str = "{\"text\":\"0\\r\\n\\r\\n\"}],\"peers\":[{\"name\":\"a\",\"read\":[\
    {\"text\":\"HTTP/1.1 200 OK\\r\\nTransfer-Encoding: chunked\\r\\n\\r\\n\"},";

const TWELVE: [&str; 7] = [
    "0 request 1",
    "outcome Served",
    "error -",
    "reuse yes",
    "written HTTP/1.1 200 OK\\r\\ntransfer-encoding: chunked\\r\\n\\r\\n\
        3\\r\\nabc\\r\\n3\\r\\nabc\\r\\n3\\r\\nabc\\r\\n3\\r\\nabc\\r\\n\
        3\\r\\nabc\\r\\n3\\r\\nabc\\r\\n3\\r\\nabc\\r\\n3\\r\\nabc\\r\\n\
        3\\r\\nabc\\r\\n3\\r\\nabc\\r\\n3\\r\\nabc\\r\\n3\\r\\nabc\\r\\n0\\r\\n\\r\\n",
    "attempt 1 a reused no kept yes error -",
    "sent POST /c HTTP/1.1\\r\\nhost: h.example\\r\\ntransfer-encoding: chunked\\r\\n\\r\\n\
        3\\r\\nabc\\r\\n3\\r\\nabc\\r\\n3\\r\\nabc\\r\\n3\\r\\nabc\\r\\n\
        3\\r\\nabc\\r\\n3\\r\\nabc\\r\\n3\\r\\nabc\\r\\n3\\r\\nabc\\r\\n\
        3\\r\\nabc\\r\\n3\\r\\nabc\\r\\n3\\r\\nabc\\r\\n3\\r\\nabc\\r\\n0\\r\\n\\r\\n",
];

/// Whether both pass by a schedule that names that branch for longer than they take.
fn relays_by(alloc: Global, branch: &str) -> Result<bool, AllocError> {
    let schedule = repeated(alloc, branch, 200)?;
    let chunks = repeated(alloc, "{\"text\":\"3\\r\\nabc\\r\\n\"},", 12)?;
    let parts = [
        "{\"schedule\":[",
        schedule.as_str(),
        UPLOAD,
        chunks.as_str(),
        DOWNLOAD,
        chunks.as_str(),
        "{\"text\":\"0\\r\\n\\r\\n\"}]}]}",
    ];
    reports(alloc, &parts, &TWELVE)
}

#[test]
fn relays_both_bodies_whatever_branch_is_named(rt: HostRuntime) -> Result<(), AllocError> {
    for branch in BRANCHES {
        assert!(rt; relays_by(rt.alloc(), branch)?, "at branch {branch}");
    }
    Ok(())
}
