//! Equal copies of what tasks and log entries hold. A copy of bytes shares them.
ghost use Rattle.std.specs.Prelude.{◌≡◌, IfOk, IsOkUnless};

use crate::error::{Fail, Result};
use bytes::Bytes;
use http_header::HeaderMap;

/// An equal piece of a body.
pub fn copy_piece(piece: &Option<Bytes>) -> Result<Option<Bytes>>
    ensures ok { IfOk result (λ copy. copy ≡ piece.now) }
    ensures memory { IsOkUnless result Fail.OutOfMemory }
{
    match piece {
        Some(bytes) => Ok(Some(bytes.clone()?)),
        None => Ok(None),
    }
}

/// An equal field list.
pub fn copy_fields(fields: &HeaderMap) -> Result<HeaderMap>
    ensures ok { IfOk result (λ copy. copy ≡ fields.now) }
    ensures memory { IsOkUnless result Fail.OutOfMemory }
{
    Ok(fields.clone()?)
}

/// Equal trailer fields, or none.
pub fn copy_trailers(trailers: &Option<HeaderMap>) -> Result<Option<HeaderMap>>
    ensures ok { IfOk result (λ copy. copy ≡ trailers.now) }
    ensures memory { IsOkUnless result Fail.OutOfMemory }
{
    match trailers {
        Some(fields) => Ok(Some(copy_fields(fields)?)),
        None => Ok(None),
    }
}
