//! Which Host a head is sent with (RFC 9112, section 3.2; RFC 9110, section 7.2).
ghost use Rattle.std.specs.Prelude.{◌≡◌, ◌↔◌, ◌∷◌, [], IfOk, IfErr, IfSome, IsErrOf, OnOk};
ghost use Rattle.http_header.specs.FieldValue.{IsFieldValue, plain_value};
ghost use Rattle.relay_tasks.specs.Error.{refused, IsMemoryOr};
ghost use Rattle.relay_authority.specs.Heads.{head_authority, hosts};
ghost use Rattle.relay_authority.specs.Sent.{AddsHost, AddsUriHost, AddsValue, KeepsHost, SetsHost, TakesHost};
ghost use Rattle.relay_authority.specs.Table.{Settles};

use crate::authority::has_userinfo;
use crate::edit::{owned, put_field, refusal};
use crate::heads::{first_host, head_authority, is_only_host, uri_authority};
use http_header::{HOST, HeaderValue, HeaderValueError};
use relay_tasks::{Context, Fail, RequestHeader, Result};
use std::alloc::Global;

/// Makes Host say the head's authority: exactly one Host equal to it byte for byte is left, else
/// Host becomes that authority alone. Refused, as `InvalidHTTPHeader`, where the authority has
/// userinfo (`Userinfo`), where it is no field value (`HostInvalid`), and where a Host is to be
/// put into a full field list (`HeadTooLong`). Without an authority a Host is left, and without
/// one the empty Host is put. After an error the head is as it was.
pub fn set_h1_host_from_authority(alloc: Global, head: &mut RequestHeader) -> Result<()>
    ensures table { Settles (SetsHost head.old) head.old head.new result }
    ensures one_host { OnOk result (IfSome (head_authority head.old) (λ authority.
        hosts head.new.fields ≡ authority ∷ [])) }
{
    set_host(alloc, head)
}

fn set_host(alloc: Global, head: &mut RequestHeader) -> Result<()>
    ensures { Settles (SetsHost head.old) head.old head.new result }
{
    match owned(alloc, head_authority(head))? {
        Some(authority) => take_host(head, authority),
        None => keep_host(head),
    }
}

/// Puts Host where there is none: the URI's authority, userinfo and all, or the empty value.
/// Refused, as `InvalidHTTPHeader`, where that authority is no field value (`HostInvalid`), and
/// where the field list is full (`HeadTooLong`). After an error the head is as it was.
pub fn set_h1_host_from_authority_if_absent(alloc: Global, head: &mut RequestHeader) -> Result<()>
    ensures { Settles (AddsHost head.old) head.old head.new result }
{
    match first_host(head) {
        Some(_) => Ok(()),
        None => add_host(alloc, head),
    }
}

fn add_host(alloc: Global, head: &mut RequestHeader) -> Result<()>
    ensures { Settles (AddsUriHost head.old) head.old head.new result }
{
    match owned(alloc, uri_authority(head))? {
        Some(authority) => add_value(head, authority),
        None => put_field(head, HOST, HeaderValue::from_static("")),
    }
}

fn add_value(head: &mut RequestHeader, authority: Vec<u8>) -> Result<()>
    ensures { Settles (AddsValue head.old authority.items) head.old head.new result }
{
    let value = host_value(authority)?;
    put_field(head, HOST, value)
}

fn keep_host(head: &mut RequestHeader) -> Result<()>
    ensures { Settles (KeepsHost head.old) head.old head.new result }
{
    match first_host(head) {
        Some(_) => Ok(()),
        None => put_field(head, HOST, HeaderValue::from_static("")),
    }
}

fn take_host(head: &mut RequestHeader, authority: Vec<u8>) -> Result<()>
    ensures { Settles (TakesHost head.old authority.items) head.old head.new result }
{
    if has_userinfo(authority.as_slice()) {
        return Err(refusal(Context::Userinfo));
    }
    let value = host_value(authority)?;
    if is_only_host(head, value.as_bytes()) {
        return Ok(());
    }
    put_field(head, HOST, value)
}

// The value of a field that says the authority, refused with `HostInvalid` where none can.
fn host_value(authority: Vec<u8>) -> Result<HeaderValue>
    ensures ok { IfOk result (λ value. value ≡ plain_value authority.items) }
    ensures invalid { IsErrOf result (Fail.Error (refused Context.HostInvalid))
        ↔ ¬ (IsFieldValue authority.items) }
    ensures causes { IfErr result (IsMemoryOr (refused Context.HostInvalid)) }
{
    match HeaderValue::from_vec(authority) {
        Ok(value) => Ok(value),
        Err(HeaderValueError::Invalid) => Err(refusal(Context::HostInvalid)),
        Err(HeaderValueError::OutOfMemory) => Err(Fail::OutOfMemory),
    }
}
