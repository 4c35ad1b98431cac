//! How a field is put into a head that is edited.
ghost use Rattle.std.specs.Prelude.{◌≡◌, ◌↔◌, IfOk, IfErr, IsErrOf, IsOkUnless, option_map, option_copied};
ghost use Rattle.relay_tasks.specs.Error.{refused, IsMemoryOr};
ghost use Rattle.http_uri.specs.Grammar.{IsAuthority};
ghost use Rattle.relay_authority.specs.Sent.{PutsField};
ghost use Rattle.relay_authority.specs.Table.{Settles};

use crate::authority::is_authority;
use http_header::{HeaderName, HeaderValue};
use http_uri::{Authority, UriError};
use relay_tasks::{Context, Error, ErrorType, Fail, RequestHeader, Result};
use std::alloc::Global;

/// The failure that refuses a head for that reason.
pub fn refusal(why: Context) -> Fail
    ensures { result ≡ Fail.Error (refused why) }
{
    Fail::Error(Error::explain(ErrorType::InvalidHTTPHeader, why))
}

/// Puts the field in place of all of its name. Refused with `HeadTooLong` where the list is full.
pub fn put_field(head: &mut RequestHeader, name: HeaderName, value: HeaderValue) -> Result<()>
    ensures { Settles (PutsField head.old name value) head.old head.new result }
{
    head.insert_header(name, value)
}

/// A copy of the text, where there is one.
pub fn owned(alloc: Global, text: Option<&[u8]>) -> Result<Option<Vec<u8>>>
    ensures ok { IfOk result (λ copy. option_map (λ v. v.items) copy ≡ option_copied text.entry) }
    ensures memory { IsOkUnless result Fail.OutOfMemory }
{
    match text {
        Some(text) => Ok(Some(Vec::from_slice(alloc, text)?)),
        None => Ok(None),
    }
}

/// The text as an authority, refused with `HostInvalid` exactly where it is none.
pub fn new_authority(alloc: Global, text: &[u8]) -> Result<Authority>
    ensures ok { IfOk result (λ authority. authority ≡ text.now) }
    ensures invalid { IsErrOf result (Fail.Error (refused Context.HostInvalid))
        ↔ ¬ (IsAuthority text.now) }
    ensures causes { IfErr result (IsMemoryOr (refused Context.HostInvalid)) }
{
    if !is_authority(text) {
        return Err(refusal(Context::HostInvalid));
    }
    match Authority::from_bytes(alloc, text) {
        Ok(authority) => Ok(authority),
        Err(UriError::Invalid(_)) => Err(refusal(Context::HostInvalid)),
        Err(UriError::OutOfMemory) => Err(Fail::OutOfMemory),
    }
}
