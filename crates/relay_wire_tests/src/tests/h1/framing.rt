use http::Method;
use relay_h1::*;
use relay_tasks::Result;
use std::alloc::Global;
use std::test::Fail as Failed;

type Checked = std::result::Result<(), Failed>;

fn of_request(alloc: Global, text: &str) -> Result<Option<Framing>> {
    let head = HeadReader::read_request(alloc, text.as_bytes())?;
    Ok(request_framing(&head).ok())
}

const REQUESTS: [(&str, Option<Framing>); 13] = [
    ("PUT / HTTP/1.1\r\n\r\n", Some(Framing::Empty)),
    (
        "PUT / HTTP/1.1\r\nContent-Length: 05\r\n\r\n",
        Some(Framing::Length(5)),
    ),
    ("PUT / HTTP/1.1\r\nContent-Length: +5\r\n\r\n", None),
    ("PUT / HTTP/1.1\r\nContent-Length: 0x5\r\n\r\n", None),
    ("PUT / HTTP/1.1\r\nContent-Length:\r\n\r\n", None),
    (
        "PUT / HTTP/1.1\r\nContent-Length: 18446744073709551615\r\n\r\n",
        Some(Framing::Length(u64::MAX)),
    ),
    (
        "PUT / HTTP/1.1\r\nContent-Length: 18446744073709551616\r\n\r\n",
        None,
    ),
    (
        "PUT / HTTP/1.1\r\nContent-Length: 99999999999999999999\r\n\r\n",
        None,
    ),
    (
        "PUT / HTTP/1.1\r\nContent-Length: 5\r\nContent-Length: 5\r\n\r\n",
        None,
    ),
    (
        "PUT / HTTP/1.1\r\nTransfer-Encoding: gzip, chunked\r\n\r\n",
        None,
    ),
    ("PUT / HTTP/1.0\r\nTransfer-Encoding: chunked\r\n\r\n", None),
    (
        "PUT / HTTP/1.1\r\nTransfer-Encoding: Chunked\r\n\r\n",
        Some(Framing::Chunked),
    ),
    (
        "PUT / HTTP/1.1\r\nTransfer-Encoding: chunked\r\nContent-Length: 5\r\n\r\n",
        None,
    ),
];

#[test]
fn frames_requests(rt: HostRuntime) -> Checked {
    for (text, want) in REQUESTS {
        assert!(rt; of_request(rt.alloc(), text)? == want, "at {text:?}");
    }
    Ok(())
}

fn of_response(alloc: Global, asked: bool, text: &str) -> Result<Option<Framing>> {
    let head = HeadReader::read_response(alloc, text.as_bytes())?;
    Ok(response_framing(&Method::GET, asked, &head).ok())
}

const RESPONSES: [(bool, &str, Option<Framing>); 8] = [
    (false, "HTTP/1.1 200 OK\r\n\r\n", Some(Framing::UntilClose)),
    (
        false,
        "HTTP/1.1 200 OK\r\nContent-Length: 5\r\n\r\n",
        Some(Framing::Length(5)),
    ),
    (
        false,
        "HTTP/1.1 200 OK\r\nContent-Length: 5, 5\r\n\r\n",
        None,
    ),
    (
        false,
        "HTTP/1.1 200 OK\r\nContent-Length: 5\r\nTransfer-Encoding: chunked\r\n\r\n",
        Some(Framing::Chunked),
    ),
    (
        false,
        "HTTP/1.1 204 No Content\r\nContent-Length: x\r\n\r\n",
        Some(Framing::Empty),
    ),
    (
        false,
        "HTTP/1.1 101 Switching Protocols\r\n\r\n",
        Some(Framing::Empty),
    ),
    (
        false,
        "HTTP/1.1 304 Not Modified\r\nContent-Length: 5\r\n\r\n",
        Some(Framing::Empty),
    ),
    (
        true,
        "HTTP/1.1 101 Switching Protocols\r\n\r\n",
        Some(Framing::Tunnel),
    ),
];

#[test]
fn frames_responses(rt: HostRuntime) -> Checked {
    for (asked, text, want) in RESPONSES {
        assert!(rt;
            of_response(rt.alloc(), asked, text)? == want,
            "at {text:?}"
        );
    }
    Ok(())
}
