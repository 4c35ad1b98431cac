use http::Version;
use relay_h1::*;
use relay_tasks::{Context, Fail, Result};
use std::alloc::{AllocError, Global};
use std::test::Fail as Failed;

type Checked = std::result::Result<(), Failed>;

const ENDS: [(&str, Option<usize>); 6] = [
    ("", None),
    ("GET / HTTP/1.1\r\n\r\nbody\r\n\r\n", Some(18)),
    ("GET / HTTP/1.1\r\n\n\r\n", None),
    ("\r\n\r\n\r\n", Some(4)),
    ("\r\r\n\r\n", Some(5)),
    ("GET / HTTP/1.1\r\n\r", None),
];

#[test]
fn finds_where_a_head_ends(rt: HostRuntime) {
    for (bytes, want) in ENDS {
        assert!(rt; HeadReader::find(bytes.as_bytes()) == want, "at {bytes:?}");
    }
}

fn reads_request(alloc: Global) -> Result<bool> {
    let text = "GET /index.html HTTP/1.1\r\nHost: www.example.org\r\nACCEPT: \t*/* \r\n\r\n";
    let head = HeadReader::read_request(alloc, text.as_bytes())?;
    let accepts = match head.headers().get("accept") {
        Some(accept) => accept.as_bytes() == b"*/*".as_slice(),
        None => false,
    };
    let line = head.method().as_str() == "GET" && head.version() == Version::HTTP_11;
    Ok(line && accepts && head.raw_path() == b"/index.html".as_slice())
}

#[test]
fn reads_a_usual_request(rt: HostRuntime) -> Checked {
    assert!(rt; reads_request(rt.alloc())?);
    Ok(())
}

fn reads_response(alloc: Global) -> Result<bool> {
    let text = "HTTP/1.0 404 Not Found\r\nServer: nginx\r\nSet-Cookie: a\r\nset-cookie: b\r\n\r\n";
    let head = HeadReader::read_response(alloc, text.as_bytes())?;
    let cookies = head.headers().get_all("set-cookie").iter().count();
    Ok(head.status() == 404 && head.version() == Version::HTTP_10 && cookies == 2)
}

#[test]
fn reads_a_usual_response(rt: HostRuntime) -> Checked {
    assert!(rt; reads_response(rt.alloc())?);
    Ok(())
}

/// What the text is refused for; none where it is read.
fn refusal(alloc: Global, text: &[u8]) -> Option<Context> {
    match HeadReader::read_request(alloc, text) {
        Ok(_) | Err(Fail::OutOfMemory) => None,
        Err(Fail::Error(error)) => Some(error.context),
    }
}

const READ: [&str; 2] = [
    "GET / HTTP/1.1\nHost: a\r\n\r\n",
    "\r\nGET / HTTP/1.1\r\n\r\n",
];

const REFUSED: [&str; 12] = [
    "\r\n\r\n",
    "\r\n\r\nGET / HTTP/1.1\r\n\r\n",
    "GET / HTTP/1.1\nHost: a\n\n",
    "GET / HTTP/1.1\nHost: a\n\r\n",
    "GET / HTTP/1.1\r\n\r\nmore",
    "GET / HTTP/1.1\r\nHost : a\r\n\r\n",
    "GET / HTTP/1.1\r\nHost: a\r\n b\r\n\r\n",
    "GET / HTTP/1.1\r\nHost: a\0b\r\n\r\n",
    "GET / HTTP/1.1\r\n: a\r\n\r\n",
    "GET  HTTP/1.1\r\n\r\n",
    "GET / HTTP/2.0\r\n\r\n",
    "GET /\r\n\r\n",
];

#[test]
fn refuses_what_is_no_request(rt: HostRuntime) {
    for text in READ {
        assert!(rt;
            refusal(rt.alloc(), text.as_bytes()).is_none(),
            "at {text:?}"
        );
    }
    for text in REFUSED {
        let why = refusal(rt.alloc(), text.as_bytes());
        assert!(rt; why == Some(Context::HeadGrammar), "at {text:?}");
    }
}

/// What a request with so many fields is refused for.
fn refusal_of_fields(
    alloc: Global,
    count: usize,
) -> std::result::Result<Option<Context>, AllocError> {
    let mut text = Vec::from_slice(alloc, b"GET / HTTP/1.1\r\n")?;
    for _ in 0..count {
        text.extend_from_slice(b"a: b\r\n")?;
    }
    text.extend_from_slice(b"\r\n")?;
    Ok(refusal(alloc, text.as_slice()))
}

#[test]
fn reads_256_fields(rt: HostRuntime) -> Checked {
    assert!(rt; refusal_of_fields(rt.alloc(), 256)?.is_none());
    assert!(rt; refusal_of_fields(rt.alloc(), 257)? == Some(Context::HeadGrammar));
    Ok(())
}

/// What a request of so many bytes is refused for.
fn refusal_of_bytes(
    alloc: Global,
    count: usize,
) -> std::result::Result<Option<Context>, AllocError> {
    let mut text = Vec::from_slice(alloc, b"GET / HTTP/1.1\r\na:")?;
    text.resize(count.saturating_sub(4), b'v')?;
    text.extend_from_slice(b"\r\n\r\n")?;
    Ok(refusal(alloc, text.as_slice()))
}

#[test]
fn reads_65536_bytes(rt: HostRuntime) -> Checked {
    assert!(rt; refusal_of_bytes(rt.alloc(), 65_536)?.is_none());
    assert!(rt; refusal_of_bytes(rt.alloc(), 65_537)? == Some(Context::HeadTooLong));
    Ok(())
}
