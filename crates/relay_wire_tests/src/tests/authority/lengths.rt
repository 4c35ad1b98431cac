//! Targets of the greatest length, and of one byte more.

use super::{Checked, refused, with_field};
use http::Method;
use http_header::{HOST, HeaderValue};
use relay_authority::*;
use relay_tasks::{Context, Fail, RequestHeader, Result};
use std::alloc::Global;

// A head whose target begins so and has that length.
fn long_head(alloc: Global, front: &str, length: usize) -> Result<RequestHeader> {
    let mut target = Vec::from_slice(alloc, front.as_bytes())?;
    target.resize(length, b'a')?;
    RequestHeader::build(alloc, &Method::GET, target.as_slice())
}

fn path_length(alloc: Global, front: &str) -> Result<usize> {
    let head = long_head(alloc, front, 65_534)?;
    match h2_path_and_query(alloc, &head) {
        Ok(path) => Ok(path.as_str().len()),
        Err(fail) => Err(fail),
    }
}

#[test]
fn takes_a_target_of_65534_bytes(rt: HostRuntime) -> Checked {
    for (front, length) in [("/", 65_534), ("http://h?", 65_527), ("http://h/", 65_526)] {
        assert!(rt; path_length(rt.alloc(), front)? == length, "{front}");
    }
    let longer = long_head(rt.alloc(), "/", 65_535).err();
    assert!(rt; longer == refused(Context::HeadGrammar));
    Ok(())
}

// Why a target one byte below the greatest length is refused with another Host, if it is, and how
// long it is then.
fn moved(alloc: Global, host: HeaderValue) -> Result<(Option<Fail>, usize)> {
    let mut head = with_field(long_head(alloc, "http://h/", 65_533)?, HOST, host);
    let refusal = reconcile_upstream_authority(alloc, &mut head).err();
    Ok((refusal, head.raw_path().len()))
}

#[test]
fn moves_a_target_up_to_65534_bytes(rt: HostRuntime) -> Checked {
    assert!(rt; moved(rt.alloc(), HeaderValue::from_static("h2"))? == (None, 65_534));
    let refusal = refused(Context::HeadGrammar);
    assert!(rt; moved(rt.alloc(), HeaderValue::from_static("h22"))? == (refusal, 65_533));
    Ok(())
}
