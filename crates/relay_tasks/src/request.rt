//! The head of a request (RFC 9112, section 3; RFC 9110, section 6.2).
ghost use Rattle.std.specs.Prelude.{◌≡◌, ◌↔◌, Some, None, IfOk, IfErr, OnOk, OnErr, IsErrOf, IsOkUnless, IsTrue, IsUtf8, option_copied};
ghost use Rattle.http_header.specs.HeaderMap.{RefusesInsert, RefusesAppend, get, insert, append, remove};
ghost use Rattle.relay_tasks.specs.Error.{refused, IsMemoryOr};

use crate::context::Context;
use crate::error::{Error, ErrorType, Fail, Result};
use crate::fields::{append_field, insert_field};
use crate::shared::Shared;
use crate::target::{is_raw_target, sent_target};
use http::{Method, Version};
use http_header::{HeaderMap, HeaderName, HeaderValue};
use http_uri::Uri;
use std::alloc::Global;
use std::marker::Model;
use std::str;

/// The head of a request: a method, a version, a raw target, the URI that was set last, if the
/// target was set by one, and a field list.
///
/// A head that was shared keeps what it gave until it is changed, so that it need not be copied
/// for each who asks.
pub struct RequestHeader {
    parts: RequestParts,
    shared: Option<SharedRequest>,
}

/// A head of a request that nobody changes, so that many may hold it.
#[derive(Drop)]
pub struct SharedRequest {
    parts: Shared<RequestParts>,
}

/// What a head of a request consists of.
#[derive(Drop)]
struct RequestParts {
    method: Method,
    version: Version,
    target: Shared<Vec<u8>>,
    uri: Option<Shared<Uri>>,
    headers: HeaderMap,
    ends: bool,
}

impl Model for RequestHeader {
    ghost use Rattle.std.specs.Prelude.{◌≡◌};
    ghost use Rattle.std.specs.Option.{ForSome};
    ghost use Rattle.relay_tasks.specs.Head.{RequestHead};

    ghost Value = { RequestHead };

    ghost view = { λ r. r.parts };

    ghost invariant = { λ r. ForSome r.shared (λ shared. shared ≡ r.parts) };
}

// A call in place of the fields: what drops a head needs not know of them.
impl Drop for RequestHeader {
    fn drop(self) {
        let RequestHeader {
            parts: _parts,
            shared: _shared,
        } = self;
    }
}

impl Model for SharedRequest {
    ghost use Rattle.relay_tasks.specs.Head.{RequestHead};

    ghost Value = { RequestHead };

    ghost view = { λ s. s.parts };
}

impl Model for RequestParts {
    ghost use Rattle.relay_tasks.specs.Head.{RequestHead, IsSendable};

    ghost Value = { RequestHead };

    ghost view = { λ p. record {
      method = p.method;
      version = p.version;
      target = p.target.items;
      uri = p.uri;
      fields = p.headers;
      ends = p.ends;
    } };

    ghost invariant = { λ p. IsSendable p.target.items };
}

impl RequestHeader {
    ghost use Rattle.relay_tasks.specs.Head.{IsRawTarget, IsSendable, new_request, target_of};

    /// A head of HTTP/1.1 without fields. The target is refused as in `set_raw_path`.
    pub fn build(alloc: Global, method: &Method, target: &[u8]) -> Result<RequestHeader>
        ensures ok { IfOk result (λ head. head ≡ new_request method.now target.now) }
        ensures refused { IsErrOf result (Fail.Error (refused Context.HeadGrammar))
            ↔ ¬ (IsRawTarget target.now) }
        ensures causes { IfErr result (IsMemoryOr (refused Context.HeadGrammar)) }
    {
        if !is_raw_target(target) {
            return Err(Fail::Error(Error::explain(
                ErrorType::InvalidHTTPHeader,
                Context::HeadGrammar,
            )));
        }
        let method = method.clone()?;
        let target = Shared::new(alloc, Vec::from_slice(alloc, target)?)?;
        let parts = RequestParts {
            method,
            version: Version::HTTP_11,
            target,
            uri: None,
            headers: HeaderMap::new(alloc),
            ends: true,
        };
        Ok(RequestHeader {
            parts,
            shared: None,
        })
    }

    /// The method.
    pub fn method(&self) -> &Method
        ensures { result.now ≡ self.now.method }
    {
        &self.parts.method
    }

    /// Sets the method.
    pub fn set_method(&mut self, method: Method)
        ensures { self.new ≡ record self.old { method = method } }
    {
        self.shared = None;
        self.parts.method = method;
    }

    /// The version.
    pub fn version(&self) -> Version
        ensures { result ≡ self.now.version }
    {
        self.parts.version
    }

    /// Sets the version.
    pub fn set_version(&mut self, version: Version)
        ensures { self.new ≡ record self.old { version = version } }
    {
        self.shared = None;
        self.parts.version = version;
    }

    /// The URI that `set_uri` gave last, and none after `set_raw_path`.
    pub fn uri(&self) -> Option<&Uri>
        ensures { option_copied result ≡ self.now.uri }
    {
        lent_uri(&self.parts.uri)
    }

    /// Sets the URI. The raw target becomes its path and query, `/` where it has none.
    pub fn set_uri(&mut self, uri: Uri) -> Result<()>
        ensures ok { OnOk result (self.new
            ≡ record self.old { target = target_of uri; uri = Some uri }) }
        ensures memory { IsOkUnless result Fail.OutOfMemory }
        ensures err { OnErr result (self.new ≡ self.old) }
    {
        let alloc = *self.parts.target.get().allocator();
        let target = Shared::new(alloc, sent_target(alloc, &uri)?)?;
        let uri = Shared::new(alloc, uri)?;
        self.shared = None;
        self.parts.target = target;
        self.parts.uri = Some(uri);
        Ok(())
    }

    /// Sets the raw target, and leaves no URI. Refused is a target that is empty or longer than
    /// 65,534 bytes, or that has a blank or a control byte; the head then stays as it was.
    pub fn set_raw_path(&mut self, target: &[u8]) -> Result<()>
        ensures ok { OnOk result (self.new
            ≡ record self.old { target = target.now; uri = None }) }
        ensures refused { IsErrOf result (Fail.Error (refused Context.HeadGrammar))
            ↔ ¬ (IsRawTarget target.now) }
        ensures causes { IfErr result (IsMemoryOr (refused Context.HeadGrammar)) }
        ensures err { OnErr result (self.new ≡ self.old) }
    {
        if !is_raw_target(target) {
            return Err(Fail::Error(Error::explain(
                ErrorType::InvalidHTTPHeader,
                Context::HeadGrammar,
            )));
        }
        let alloc = *self.parts.target.get().allocator();
        let target = Shared::new(alloc, Vec::from_slice(alloc, target)?)?;
        self.shared = None;
        self.parts.target = target;
        self.parts.uri = None;
        Ok(())
    }

    /// The raw target, as it stands in the request line.
    pub fn raw_path(&self) -> &[u8]
        ensures value { result.now ≡ self.now.target }
        ensures valid { IsSendable result.now }
    {
        self.parts.target.get().as_slice()
    }

    /// Whether the raw target is UTF-8.
    pub fn raw_path_is_utf8(&self) -> bool
        ensures { IsTrue result ↔ IsUtf8 self.now.target }
    {
        str::from_utf8(self.parts.target.get().as_slice()).is_ok()
    }

    /// The field list.
    pub fn headers(&self) -> &HeaderMap
        ensures { result.now ≡ self.now.fields }
    {
        &self.parts.headers
    }

    /// Puts the value in place of all those under the name. Refused exactly where the list is
    /// full; the head then stays as it was.
    pub fn insert_header(&mut self, name: HeaderName, value: HeaderValue) -> Result<()>
        ensures ok { OnOk result (self.new
            ≡ record self.old { fields = insert self.old.fields name value }) }
        ensures full { IsErrOf result (Fail.Error (refused Context.HeadTooLong))
            ↔ RefusesInsert self.old.fields name }
        ensures causes { IfErr result (IsMemoryOr (refused Context.HeadTooLong)) }
        ensures err { OnErr result (self.new ≡ self.old) }
    {
        self.shared = None;
        insert_field(&mut self.parts.headers, name, value)
    }

    /// Adds the value after those under the name. Refused exactly where the list is full; the
    /// head then stays as it was.
    pub fn append_header(&mut self, name: HeaderName, value: HeaderValue) -> Result<()>
        ensures ok { OnOk result (self.new
            ≡ record self.old { fields = append self.old.fields name value }) }
        ensures full { IsErrOf result (Fail.Error (refused Context.HeadTooLong))
            ↔ RefusesAppend self.old.fields name }
        ensures causes { IfErr result (IsMemoryOr (refused Context.HeadTooLong)) }
        ensures err { OnErr result (self.new ≡ self.old) }
    {
        self.shared = None;
        append_field(&mut self.parts.headers, name, value)
    }

    /// Removes all values under the name, and hands back the first.
    pub fn remove_header(&mut self, name: &HeaderName) -> Option<HeaderValue>
        ensures value { result ≡ get self.old.fields name.now }
        ensures after { self.new
            ≡ record self.old { fields = remove self.old.fields name.now } }
    {
        self.shared = None;
        self.parts.headers.remove(name)
    }

    /// Sets whether an HTTP/2 stream ends with its body.
    pub fn set_send_end_stream(&mut self, on: bool)
        ensures { self.new ≡ record self.old { ends = on } }
    {
        self.shared = None;
        self.parts.ends = on;
    }

    /// Whether the stream ends with its body; none unless the version is HTTP/2.
    pub fn send_end_stream(&self) -> Option<bool>
        ensures h2 { self.now.version ≡ Version.HTTP_2 → result ≡ Some self.now.ends }
        ensures others { ¬ (self.now.version ≡ Version.HTTP_2) → result ≡ None }
    {
        if self.parts.version == Version::HTTP_2 {
            Some(self.parts.ends)
        } else {
            None
        }
    }

    /// An equal head, which keeps what this one gave to be held by many.
    pub fn copy(&self) -> Result<RequestHeader>
        ensures ok { IfOk result (λ copy. copy ≡ self.now) }
        ensures memory { IsOkUnless result Fail.OutOfMemory }
    {
        let parts = copy_parts(&self.parts)?;
        let shared = copy_shared(&self.shared)?;
        Ok(RequestHeader { parts, shared })
    }

    /// This head as it stands, to be held by many. Its parts are copied by the first call behind a
    /// change, and by no other.
    #[inline(always)]
    pub fn share(&mut self) -> Result<SharedRequest>
        ensures ok { IfOk result (λ shared. shared ≡ self.old) }
        ensures memory { IsOkUnless result Fail.OutOfMemory }
        ensures same { self.new ≡ self.old }
    {
        match &self.shared {
            Some(shared) => shared.copy(),
            None => self.share_anew(),
        }
    }

    /// As `share`, where nothing was shared since the last change.
    fn share_anew(&mut self) -> Result<SharedRequest>
        ensures ok { IfOk result (λ shared. shared ≡ self.old) }
        ensures memory { IsOkUnless result Fail.OutOfMemory }
        ensures same { self.new ≡ self.old }
    {
        let kept = share_parts(&self.parts)?;
        let shared = kept.copy()?;
        self.shared = Some(kept);
        Ok(shared)
    }
}

impl SharedRequest {
    ghost use Rattle.relay_tasks.specs.Head.{IsSendable};

    /// The method.
    pub fn method(&self) -> &Method
        ensures { result.now ≡ self.now.method }
    {
        &self.parts.get().method
    }

    /// The version.
    pub fn version(&self) -> Version
        ensures { result ≡ self.now.version }
    {
        self.parts.get().version
    }

    /// The URI that `set_uri` gave last, and none after `set_raw_path`.
    pub fn uri(&self) -> Option<&Uri>
        ensures { option_copied result ≡ self.now.uri }
    {
        lent_uri(&self.parts.get().uri)
    }

    /// The raw target, as it stands in the request line.
    pub fn raw_path(&self) -> &[u8]
        ensures value { result.now ≡ self.now.target }
        ensures valid { IsSendable result.now }
    {
        self.parts.get().target.get().as_slice()
    }

    /// The field list.
    pub fn headers(&self) -> &HeaderMap
        ensures { result.now ≡ self.now.fields }
    {
        &self.parts.get().headers
    }

    /// The same head for one more holder. None of its parts is copied.
    pub fn copy(&self) -> Result<SharedRequest>
        ensures ok { IfOk result (λ copy. copy ≡ self.now) }
        ensures memory { IsOkUnless result Fail.OutOfMemory }
    {
        let parts = self.parts.copy()?;
        Ok(SharedRequest { parts })
    }
}

/// A copy of the parts, to be held by many.
#[inline(always)]
fn share_parts(parts: &RequestParts) -> Result<SharedRequest>
    ensures ok { IfOk result (λ shared. shared ≡ parts.now) }
    ensures memory { IsOkUnless result Fail.OutOfMemory }
{
    let alloc = *parts.target.get().allocator();
    let parts = Shared::new(alloc, copy_parts(parts)?)?;
    Ok(SharedRequest { parts })
}

/// Equal parts.
#[inline(always)]
fn copy_parts(parts: &RequestParts) -> Result<RequestParts>
    ensures ok { IfOk result (λ copy. copy ≡ parts.now) }
    ensures memory { IsOkUnless result Fail.OutOfMemory }
{
    let method = parts.method.clone()?;
    let target = parts.target.copy()?;
    let uri = copy_uri(&parts.uri)?;
    let headers = parts.headers.clone()?;
    Ok(RequestParts {
        method,
        version: parts.version,
        target,
        uri,
        headers,
        ends: parts.ends,
    })
}

#[inline(always)]
fn copy_uri(uri: &Option<Shared<Uri>>) -> Result<Option<Shared<Uri>>>
    ensures ok { IfOk result (λ copy. copy ≡ uri.now) }
    ensures memory { IsOkUnless result Fail.OutOfMemory }
{
    match uri {
        Some(uri) => Ok(Some(uri.copy()?)),
        None => Ok(None),
    }
}

#[inline(always)]
fn copy_shared(shared: &Option<SharedRequest>) -> Result<Option<SharedRequest>>
    ensures ok { IfOk result (λ copy. copy ≡ shared.now) }
    ensures memory { IsOkUnless result Fail.OutOfMemory }
{
    match shared {
        Some(shared) => Ok(Some(shared.copy()?)),
        None => Ok(None),
    }
}

fn lent_uri(uri: &Option<Shared<Uri>>) -> Option<&Uri>
    ensures { option_copied result ≡ uri.now }
{
    match uri {
        Some(uri) => Some(uri.get()),
        None => None,
    }
}
