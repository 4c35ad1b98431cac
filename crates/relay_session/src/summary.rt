//! One line on a request, for a log.
ghost use Rattle.std.specs.Prelude.{◌≡◌, IfOk, IsOkUnless};
ghost use Rattle.relay_session.specs.Summary.{first_host, request_summary};

use relay_tasks::{Fail, RequestHeader, Result};
use std::alloc::{AllocError, Global};

/// The method, the target and the first Host, or nothing for that.
pub(crate) fn request_summary(alloc: Global, head: &RequestHeader) -> Result<Vec<u8>>
    ensures ok { IfOk result (λ text. text.items ≡ request_summary head.now) }
    ensures memory { IsOkUnless result Fail.OutOfMemory }
{
    match written(alloc, head) {
        Ok(text) => Ok(text),
        Err(AllocError) => Err(Fail::OutOfMemory),
    }
}

fn written(alloc: Global, head: &RequestHeader) -> std::result::Result<Vec<u8>, AllocError>
    ensures { IfOk result (λ text. text.items ≡ request_summary head.now) }
{
    let mut text = Vec::from_slice(alloc, head.method().as_str().as_bytes())?;
    text.extend_from_slice(b" ")?;
    text.extend_from_slice(head.raw_path())?;
    text.extend_from_slice(b", Host: ")?;
    text.extend_from_slice(first_host(head))?;
    Ok(text)
}

/// The value of the first Host field, or nothing.
fn first_host(head: &RequestHeader) -> &[u8]
    ensures { result.now ≡ first_host head.now }
{
    match head.headers().get("host") {
        Some(value) => value.as_bytes(),
        None => b"",
    }
}
