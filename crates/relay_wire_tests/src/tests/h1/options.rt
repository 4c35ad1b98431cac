//! Options of a connection (RFC 9110, section 7.6.1).
use relay_h1::{HeadReader, closes};
use relay_tasks::Result;
use std::alloc::Global;
use std::test::Fail;

/// Whether this response asks to close its connection.
fn is_closing(alloc: Global, text: &str) -> Result<bool> {
    let head = HeadReader::read_response(alloc, text.as_bytes())?;
    Ok(closes(head.headers()))
}

const RESPONSES: [(&str, bool); 8] = [
    ("HTTP/1.1 200 OK\r\n\r\n", false),
    ("HTTP/1.1 200 OK\r\nConnection: CLOSE\r\n\r\n", true),
    (
        "HTTP/1.1 200 OK\r\nConnection: keep-alive,\tclose , x\r\n\r\n",
        true,
    ),
    (
        "HTTP/1.1 200 OK\r\nConnection: x\r\nConnection: close\r\n\r\n",
        true,
    ),
    ("HTTP/1.1 200 OK\r\nConnection: closed\r\n\r\n", false),
    ("HTTP/1.1 200 OK\r\nConnection: x close\r\n\r\n", false),
    ("HTTP/1.1 200 OK\r\nConnection: ,,\r\n\r\n", false),
    ("HTTP/1.1 200 OK\r\nClose: close\r\n\r\n", false),
];

#[test]
fn finds_close_among_the_options(rt: HostRuntime) -> std::result::Result<(), Fail> {
    for (text, is_close) in RESPONSES {
        assert!(rt; is_closing(rt.alloc(), text)? == is_close, "at {text:?}");
    }
    Ok(())
}
