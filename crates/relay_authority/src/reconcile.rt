//! URI and target made to say what Host says (RFC 9112, section 3.2).
ghost use Rattle.std.specs.Prelude.{◌≡◌, ◌↔◌, IsTrue, IsSome, Some, IfOk, IfSome, IsOkUnless, OnOk, IsUtf8, None};
ghost use Rattle.http_uri.specs.Grammar.{IsAuthority};
ghost use Rattle.http_uri.specs.Uri.{HasParts, uri_authority, uri_data, uri_scheme};
ghost use Rattle.relay_tasks.specs.Head.{IsSendable, target_of};
ghost use Rattle.relay_authority.specs.Cut.{parts_of};
ghost use Rattle.relay_authority.specs.Heads.{first_host, head_authority, uri_authority_of};
ghost use Rattle.relay_authority.specs.Sent.{FollowsHost, IsMoved, Reconciles, ReconcilesRaw, ReconcilesTarget, ReconcilesUri, ReconcilesWith, moved_target};
ghost use Rattle.relay_authority.specs.Table.{Settles};
ghost use Rattle.relay_authority.specs.Target.{absolute_parts};

use crate::authority::{has_userinfo, is_authority};
use crate::edit::{new_authority, owned, refusal};
use crate::heads::{first_host, uri_authority};
use crate::raw::raw_target_authority;
use crate::target::RawTargetAuthority;
use http_uri::{Authority, Uri};
use relay_tasks::{Context, Fail, RequestHeader, Result};
use std::alloc::{AllocError, Global};

/// Makes the head's authority say what its first Host says. A URI with an authority gets Host in
/// its place, scheme and path staying; else an absolute raw target gets it. Nothing changes
/// without Host, where both are equal byte for byte, and where there is neither. Refused, as
/// `InvalidHTTPHeader`, where Host has userinfo (`UserinfoHost`), where a raw target beside a URI
/// with an authority is not UTF-8 (`NonUtf8Reconcile`), where Host is no authority
/// (`HostInvalid`), and where the new target is longer than 65,534 bytes (`HeadGrammar`). After
/// an error the head is as it was.
pub fn reconcile_upstream_authority(alloc: Global, head: &mut RequestHeader) -> Result<()>
    ensures table { Settles (Reconciles head.old) head.old head.new result }
    ensures agrees { OnOk result (IfSome (first_host head.old) (λ host.
        IfSome (head_authority head.old) (λ _. head_authority head.new ≡ Some host))) }
    ensures rests { OnOk result (Reconciles head.new (record { refusal = None; head = head.new })) }
{
    reconcile(alloc, head)
}

fn reconcile(alloc: Global, head: &mut RequestHeader) -> Result<()>
    ensures { Settles (Reconciles head.old) head.old head.new result }
{
    match owned(alloc, first_host(head))? {
        Some(host) => follow_host(alloc, head, host.as_slice()),
        None => Ok(()),
    }
}

fn follow_host(alloc: Global, head: &mut RequestHeader, host: &[u8]) -> Result<()>
    ensures { Settles (FollowsHost head.old host.now) head.old head.new result }
{
    if has_userinfo(host) {
        return Err(refusal(Context::UserinfoHost));
    }
    match uri_authority(head) {
        Some(_) => follow_by_uri(alloc, head, host),
        None => follow_by_target(alloc, head, host),
    }
}

fn is_uri_authority(head: &RequestHeader, host: &[u8]) -> bool
    ensures { IsTrue result ↔ (uri_authority_of head.now ≡ Some host.now) }
{
    match uri_authority(head) {
        Some(authority) => authority == host,
        None => false,
    }
}

fn follow_by_uri(alloc: Global, head: &mut RequestHeader, host: &[u8]) -> Result<()>
    requires { IsSome (uri_authority_of head.old) }
    ensures { Settles (ReconcilesUri head.old host.now) head.old head.new result }
{
    if !head.raw_path_is_utf8() {
        return Err(refusal(Context::NonUtf8Reconcile));
    }
    if is_uri_authority(head, host) {
        return Ok(());
    }
    let authority = new_authority(alloc, host)?;
    let moved = moved_uri(head, authority)?;
    head.set_uri(moved)
}

fn moved_uri(head: &RequestHeader, authority: Authority) -> Result<Uri>
    requires { IsSome (uri_authority_of head.now) }
    ensures ok { IfOk result (IsMoved head.now authority) }
    ensures utf8 { IfOk result (λ moved. IsUtf8 (target_of moved)) }
    ensures memory { IsOkUnless result Fail.OutOfMemory }
{
    let uri = head.uri().unwrap();
    Ok(with_authority(uri, authority)?)
}

fn with_authority(uri: &Uri, authority: Authority) -> std::result::Result<Uri, AllocError>
    requires { IsSome (uri_authority uri.now) }
    ensures parts { IfOk result (λ moved.
        HasParts moved (uri_scheme uri.now) (Some authority) (uri_data uri.now)) }
    ensures utf8 { IfOk result (λ moved. IsUtf8 (target_of moved)) }
{
    let mut parts = uri.clone()?.into_parts();
    parts.authority = Some(authority);
    let moved = Uri::from_parts(parts).unwrap();
    sent_as_text(&moved);
    Ok(moved)
}

// What a URI is sent as is UTF-8, since its path and query are.
fn sent_as_text(uri: &Uri)
    ensures { IsUtf8 (target_of uri.now) }
{
    let _path = uri.path();
}

fn follow_by_target(alloc: Global, head: &mut RequestHeader, host: &[u8]) -> Result<()>
    ensures { Settles (ReconcilesRaw head.old host.now) head.old head.new result }
{
    let target = Vec::from_slice(alloc, head.raw_path())?;
    match raw_target_authority(target.as_slice()) {
        RawTargetAuthority::None => Ok(()),
        RawTargetAuthority::AmbiguousAuthority => Ok(()),
        RawTargetAuthority::Absolute {
            scheme,
            authority,
            path_and_query,
        } => move_target(
            alloc,
            head,
            CutTarget {
                scheme,
                authority,
                rest: path_and_query,
            },
            host,
        ),
    }
}

// The parts of an absolute target.
#[derive(Clone, Copy)]
struct CutTarget<'a> {
    scheme: &'a [u8],
    authority: &'a [u8],
    rest: &'a [u8],
}

fn move_target(
    alloc: Global,
    head: &mut RequestHeader,
    cut: CutTarget<'_>,
    host: &[u8],
) -> Result<()>
    requires cut { absolute_parts head.old.target ≡ Some (parts_of cut) }
    requires sendable { IsSendable head.old.target }
    ensures { Settles (ReconcilesTarget head.old (parts_of cut.entry) host.now)
        head.old head.new result }
{
    if host == cut.authority {
        return Ok(());
    }
    if !is_authority(host) {
        return Err(refusal(Context::HostInvalid));
    }
    let target = moved_target(alloc, cut, host)?;
    head.set_raw_path(target.as_slice())
}

fn moved_target(
    alloc: Global,
    cut: CutTarget<'_>,
    host: &[u8],
) -> std::result::Result<Vec<u8>, AllocError>
    ensures { IfOk result (λ target. target.items ≡ moved_target (parts_of cut.entry) host.now) }
{
    let mut target = Vec::from_slice(alloc, cut.scheme)?;
    target.extend_from_slice(b"://")?;
    target.extend_from_slice(host)?;
    target.extend_from_slice(cut.rest)?;
    Ok(target)
}
