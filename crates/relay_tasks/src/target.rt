//! The raw target of a request (RFC 9112, section 3.2): what may be one, and what a URI is sent as.
ghost use Rattle.std.specs.Prelude.{◌≡◌, ◌↔◌, IfOk, IsTrue};
ghost use Rattle.http_uri.specs.Grammar.{path_and_query_text};
ghost use Rattle.relay_tasks.specs.Head.{IsRawTarget, IsSendable, is_target_byte, target_of};

use http_uri::Uri;
use std::alloc::{AllocError, Global};

/// The greatest length of a raw target, in bytes.
pub const MAX_TARGET: usize = 65534;

fn is_target_byte(byte: u8) -> bool
    ensures { result ≡ is_target_byte byte }
{
    byte >= 0x21 && byte != 0x7F
}

pub fn is_raw_target(target: &[u8]) -> bool
    ensures { IsTrue result ↔ IsRawTarget target.now }
{
    !target.is_empty()
        && target.len() <= MAX_TARGET
        && target.iter().all(|byte| is_target_byte(*byte))
}

// The path and query as it is kept, which may lack the `/` in front.
fn kept_path(uri: &Uri) -> &[u8]
    ensures value { path_and_query_text result.now ≡ target_of uri.now }
    ensures valid { IsSendable (target_of uri.now) }
{
    match uri.path_and_query() {
        Some(text) => text.as_str().as_bytes(),
        None => b"/".as_slice(),
    }
}

// The path and query, with a `/` in front where it does not begin with one and is not `*`.
pub fn sent_target(alloc: Global, uri: &Uri) -> Result<Vec<u8>, AllocError>
    ensures value { IfOk result (λ target. target.items ≡ target_of uri.now) }
    ensures valid { IsSendable (target_of uri.now) }
{
    let text = kept_path(uri);
    if matches!(text.first(), Some(b'/' | b'*')) {
        return Vec::from_slice(alloc, text);
    }
    let mut target = vec![in alloc; b'/']?;
    target.extend_from_slice(text)?;
    Ok(target)
}
