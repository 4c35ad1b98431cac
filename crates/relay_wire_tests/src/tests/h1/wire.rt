use relay_h1::*;
use relay_tasks::Result;
use std::alloc::Global;
use std::test::Fail as Failed;

type Checked = std::result::Result<(), Failed>;

/// Whether the request is written so, behind what stands there.
fn writes_so(alloc: Global, text: &str, want: &str) -> Result<bool> {
    let head = HeadReader::read_request(alloc, text.as_bytes())?;
    let mut out = Vec::from_slice(alloc, b"before ")?;
    Ok(write_request_head(&mut out, &head).is_ok() && out.as_slice() == want.as_bytes())
}

#[test]
fn writes_a_request(rt: HostRuntime) -> Checked {
    let text = "PUT /a?b HTTP/1.0\r\nHost: h.example\r\nX-Long:  one two\t\r\nhost: other\r\n\r\n";
    let want =
        "before PUT /a?b HTTP/1.1\r\nhost: h.example\r\nhost: other\r\nx-long: one two\r\n\r\n";
    assert!(rt; writes_so(rt.alloc(), text, want)?);
    Ok(())
}

/// Whether the response is written so.
fn responds_so(alloc: Global, text: &str, want: &str) -> Result<bool> {
    let head = HeadReader::read_response(alloc, text.as_bytes())?;
    let mut out = Vec::new(alloc);
    Ok(write_response_head(&mut out, &head).is_ok() && out.as_slice() == want.as_bytes())
}

#[test]
fn writes_responses(rt: HostRuntime) -> Checked {
    let text = "HTTP/1.0 200 Fine\r\nContent-Length: 2\r\n\r\n";
    let want = "HTTP/1.1 200 OK\r\ncontent-length: 2\r\n\r\n";
    assert!(rt; responds_so(rt.alloc(), text, want)?);
    let text = "HTTP/1.1 799 Odd\r\n\r\n";
    assert!(rt; responds_so(rt.alloc(), text, "HTTP/1.1 799 \r\n\r\n")?);
    Ok(())
}

const ANSWER: &str = "HTTP/1.1 405 Method Not Allowed\r\nserver: Pingora\r\ncontent-length: 0\r\n\
cache-control: private, no-store\r\n\r\n";

fn refuses_a_method(alloc: Global) -> bool {
    let mut out = Vec::new(alloc);
    write_generated(&mut out, 405).is_ok() && out.as_slice() == ANSWER.as_bytes()
}

#[test]
fn writes_its_own_answers(rt: HostRuntime) {
    assert!(rt; refuses_a_method(rt.alloc()));
}
