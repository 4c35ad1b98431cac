//! Every target and every Host of a few bytes: what is let in, and what is sent over each upstream,
//! beside the plain program.

use super::plain::{Blame, OverH1, OverH2, Target};
use super::{host_is, is_named, plain};
use http::Method;
use http_header::{HOST, HeaderValue};
use relay_authority::*;
use relay_tasks::{Context, Error, ErrorType, Fail, RequestHeader, Result};
use std::alloc::Global;

const ALPHABET: [u8; 12] = [
    b'/', b':', b'@', b'?', b'#', b'[', b']', b'\\', b'.', b'a', b'0', b'%',
];

// How many texts have up to four bytes, and how many up to two.
const UP_TO_FOUR: usize = 22621;

const UP_TO_TWO: usize = 157;

// What targets begin with, so that short ones have every form.
const FRONTS: [&str; 3] = ["", "http:", "a://"];

// Targets of each form.
const TARGETS: [&str; 10] = [
    "/", "*", "a", "a:", "a:/a", "http:", "http:/", "http://", "/#a", "a://a#?#",
];

// The text of that number behind the front: texts of fewer bytes have smaller numbers.
fn text_of(alloc: Global, front: &str, number: usize) -> Result<Vec<u8>> {
    let mut text = Vec::from_slice(alloc, front.as_bytes())?;
    let mut left = number;
    for _ in 0..4 {
        if left > 0 {
            left -= 1;
            text.extend_from_slice(&[ALPHABET[left % 12]])?;
            left /= 12;
        }
    }
    Ok(text)
}

fn put_host(alloc: Global, head: &mut RequestHeader, host: &[u8]) -> Result<()> {
    match HeaderValue::from_bytes(alloc, host) {
        Ok(value) => head.insert_header(HOST, value),
        Err(_) => Err(Fail::OutOfMemory),
    }
}

/// A head with that target and that Host.
pub fn head_with(alloc: Global, target: &[u8], host: Option<&[u8]>) -> Result<RequestHeader> {
    let mut head = RequestHeader::build(alloc, &Method::GET, target)?;
    if let Some(host) = host {
        put_host(alloc, &mut head, host)?;
    }
    Ok(head)
}

// Whether the target is spelled so.
fn is_spelled(target: &[u8], plain: Target<'_>) -> bool {
    match plain {
        Target::Whole { text, unclear: _ } => target == text,
        Target::Parts {
            scheme,
            authority,
            rest,
        } => {
            let (name, behind) = target.split_at(scheme.len().min(target.len()));
            let (mark, text) = behind.split_at(behind.len().min(3));
            let (named, tail) = text.split_at(authority.len().min(text.len()));
            name == scheme && mark == b"://".as_slice() && named == authority && tail == rest
        }
    }
}

// Whether the path is that behind its first byte.
fn is_path(path: &[u8], plain: &[u8]) -> bool {
    match path.first() {
        Some(_) => path.split_at(1).1 == plain,
        None => false,
    }
}

fn is_verdict(answer: std::result::Result<(), Error>, plain: Option<Context>) -> bool {
    match (answer, plain) {
        (Err(error), Some(why)) => error == Error::explain(ErrorType::InvalidHTTPHeader, why),
        (Ok(()), None) => true,
        (Ok(()), Some(_)) | (Err(_), None) => false,
    }
}

fn same_verdict(head: &RequestHeader, host: Option<&[u8]>) -> bool {
    let plain = plain::validated(plain::cut(head.raw_path()), host);
    let entry = match host {
        Some(_) => plain,
        None => Some(Context::HostCount),
    };
    is_verdict(validate_request_authority(head), plain) && is_verdict(check_entry(head), entry)
}

fn is_over_h1(head: &RequestHeader, plain: OverH1<'_>) -> bool {
    let said = match plain.host {
        Some(host) => host_is(head, host),
        None => head.headers().is_empty(),
    };
    said && is_spelled(head.raw_path(), plain.target)
}

fn is_over_h2(head: &RequestHeader, plain: OverH2<'_>) -> bool {
    is_named(head, plain.authority)
        && is_path(head.raw_path(), plain.path)
        && head.headers().is_empty()
}

fn is_blamed(fail: Fail, blame: Blame) -> bool {
    let error = Error::explain(ErrorType::InvalidHTTPHeader, blame.why);
    fail == Fail::Error(Error {
        esource: blame.side,
        ..error
    })
}

fn sent(
    alloc: Global,
    head: &RequestHeader,
    over: Upstream,
    custom: bool,
) -> Result<RequestHeader> {
    let client = Client {
        custom,
        has_body: false,
    };
    sent_head(alloc, head, head.copy()?, over, client)
}

fn same_over_h1(alloc: Global, head: &RequestHeader, host: Option<&[u8]>) -> bool {
    let told = plain::over_h1(plain::cut(head.raw_path()), host);
    match sent(alloc, head, Upstream::H1, false) {
        Ok(sent) => match told {
            Ok(plain) => is_over_h1(&sent, plain),
            Err(_) => false,
        },
        Err(fail) => match told {
            Ok(_) => false,
            Err(why) => is_blamed(fail, plain::inside(why)),
        },
    }
}

fn same_over_h2(alloc: Global, head: &RequestHeader, host: Option<&[u8]>, custom: bool) -> bool {
    let target = plain::cut(head.raw_path());
    let told = if custom {
        plain::addressed(target, host)
    } else {
        plain::over_h2(target, host)
    };
    match sent(alloc, head, Upstream::H2 { tls: custom }, custom) {
        Ok(sent) => match told {
            Ok(plain) => is_over_h2(&sent, plain),
            Err(_) => false,
        },
        Err(fail) => match told {
            Ok(_) => false,
            Err(blame) => is_blamed(fail, blame),
        },
    }
}

fn same_answers(alloc: Global, head: &RequestHeader, host: Option<&[u8]>) -> bool {
    same_verdict(head, host)
        && same_over_h1(alloc, head, host)
        && same_over_h2(alloc, head, host, false)
        && same_over_h2(alloc, head, host, true)
}

fn same_beside(alloc: Global, target: &[u8], host: Option<&[u8]>) -> bool {
    match head_with(alloc, target, host) {
        Ok(head) => same_answers(alloc, &head, host),
        Err(_) => false,
    }
}

fn same_with_host(alloc: Global, target: &[u8], number: usize) -> bool {
    match text_of(alloc, "", number) {
        Ok(host) => same_beside(alloc, target, Some(host.as_slice())),
        Err(_) => false,
    }
}

// Whether all answers are the plain program's beside each Host of up to two bytes.
fn same_with_hosts(alloc: Global, target: &[u8]) -> bool {
    for number in 0..UP_TO_TWO {
        if !same_with_host(alloc, target, number) {
            return false;
        }
    }
    true
}

fn same_of_number(alloc: Global, number: usize) -> bool {
    match text_of(alloc, "a://", number) {
        Ok(target) => same_with_hosts(alloc, target.as_slice()),
        Err(_) => false,
    }
}

fn same_of_numbers(alloc: Global) -> bool {
    for number in 0..UP_TO_TWO {
        if !same_of_number(alloc, number) {
            return false;
        }
    }
    true
}

fn same_of_targets(alloc: Global) -> bool {
    for target in TARGETS {
        if !same_with_hosts(alloc, target.as_bytes()) {
            return false;
        }
    }
    true
}

#[test]
fn treats_heads_as_the_plain_program(rt: HostRuntime) {
    assert!(rt; same_of_numbers(rt.alloc()));
    assert!(rt; same_of_targets(rt.alloc()));
}

fn same_of_hosts(alloc: Global) -> bool {
    for number in 0..UP_TO_FOUR {
        if !same_with_host(alloc, b"/", number) {
            return false;
        }
    }
    true
}

#[test]
fn treats_hosts_as_the_plain_program(rt: HostRuntime) {
    assert!(rt; same_of_hosts(rt.alloc()));
}

fn same_target(alloc: Global, front: &str, number: usize, host: Option<&[u8]>) -> bool {
    match text_of(alloc, front, number) {
        Ok(target) => target.is_empty() || same_beside(alloc, target.as_slice(), host),
        Err(_) => false,
    }
}

fn same_behind(alloc: Global, front: &str, host: Option<&[u8]>) -> bool {
    for number in 0..UP_TO_FOUR {
        if !same_target(alloc, front, number, host) {
            return false;
        }
    }
    true
}

#[test]
fn treats_heads_without_host_as_the_plain_program(rt: HostRuntime) {
    for front in FRONTS {
        assert!(rt; same_behind(rt.alloc(), front, None), "{front}");
    }
}

// Without Host no path is sent of a target that names nobody.
#[test]
fn treats_targets_as_the_plain_program(rt: HostRuntime) {
    assert!(rt; same_behind(rt.alloc(), "", Some(b"a")));
}
