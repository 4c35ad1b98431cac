//! The head of a response (RFC 9112, section 4; RFC 9110, section 15).
ghost use Rattle.std.specs.Prelude.{◌≡◌, ◌↔◌, IfOk, IfErr, OnOk, OnErr, IsErrOf, IsOkUnless, IsTrue};
ghost use Rattle.http_header.specs.HeaderMap.{RefusesInsert, RefusesAppend, get, insert, append, remove};
ghost use Rattle.relay_tasks.specs.Error.{refused, IsMemoryOr};

use crate::context::Context;
use crate::error::{Error, ErrorType, Fail, Result};
use crate::fields::{append_field, insert_field};
use crate::shared::Shared;
use http::Version;
use http_header::{HeaderMap, HeaderName, HeaderValue};
use std::alloc::Global;
use std::marker::Model;

/// The head of a response: a status from 100 to 999, a version and a field list.
///
/// A head that was shared keeps what it gave until it is changed, so that it need not be copied
/// for each who asks.
pub struct ResponseHeader {
    parts: ResponseParts,
    shared: Option<SharedResponse>,
}

/// A head of a response that nobody changes, so that many may hold it.
#[derive(Drop)]
pub struct SharedResponse {
    parts: Shared<ResponseParts>,
}

/// What a head of a response consists of.
#[derive(Drop)]
struct ResponseParts {
    status: u16,
    version: Version,
    headers: HeaderMap,
}

impl Model for ResponseHeader {
    ghost use Rattle.std.specs.Prelude.{◌≡◌};
    ghost use Rattle.std.specs.Option.{ForSome};
    ghost use Rattle.relay_tasks.specs.Head.{ResponseHead};

    ghost Value = { ResponseHead };

    ghost view = { λ r. r.parts };

    ghost invariant = { λ r. ForSome r.shared (λ shared. shared ≡ r.parts) };
}

// A call in place of the fields: what drops a head needs not know of them.
impl Drop for ResponseHeader {
    fn drop(self) {
        let ResponseHeader {
            parts: _parts,
            shared: _shared,
        } = self;
    }
}

impl Model for SharedResponse {
    ghost use Rattle.relay_tasks.specs.Head.{ResponseHead};

    ghost Value = { ResponseHead };

    ghost view = { λ s. s.parts };
}

impl Model for ResponseParts {
    ghost use Rattle.relay_tasks.specs.Head.{ResponseHead, IsStatus};

    ghost Value = { ResponseHead };

    ghost view = { λ p. record {
      status = p.status;
      version = p.version;
      fields = p.headers;
    } };

    ghost invariant = { λ p. IsStatus p.status };
}

impl ResponseHeader {
    ghost use Rattle.relay_tasks.specs.Head.{IsStatus, IsInformational, new_response};

    /// A head of HTTP/1.1 without fields. The status is refused as in `set_status`.
    pub fn build(alloc: Global, status: u16) -> Result<ResponseHeader>
        ensures ok { IfOk result (λ head. head ≡ new_response status) }
        ensures refused { IsErrOf result (Fail.Error (refused Context.HeadGrammar))
            ↔ ¬ (IsStatus status) }
        ensures causes { IfErr result (IsMemoryOr (refused Context.HeadGrammar)) }
    {
        if !ResponseHeader::is_status(status) {
            return Err(Fail::Error(Error::explain(
                ErrorType::InvalidHTTPHeader,
                Context::HeadGrammar,
            )));
        }
        let parts = ResponseParts {
            status,
            version: Version::HTTP_11,
            headers: HeaderMap::new(alloc),
        };
        Ok(ResponseHeader {
            parts,
            shared: None,
        })
    }

    /// The status.
    pub fn status(&self) -> u16
        ensures value { result ≡ self.now.status }
        ensures valid { IsStatus result }
    {
        self.parts.status
    }

    /// Sets the status. Refused exactly where it is outside 100 to 999; the head then stays as
    /// it was.
    pub fn set_status(&mut self, status: u16) -> std::result::Result<(), Error>
        ensures ok { OnOk result (self.new ≡ record self.old { status = status }) }
        ensures refused { IsErrOf result (refused Context.HeadGrammar) ↔ ¬ (IsStatus status) }
        ensures causes { IsOkUnless result (refused Context.HeadGrammar) }
        ensures err { OnErr result (self.new ≡ self.old) }
    {
        if !ResponseHeader::is_status(status) {
            return Err(Error::explain(ErrorType::InvalidHTTPHeader, Context::HeadGrammar));
        }
        self.shared = None;
        self.parts.status = status;
        Ok(())
    }

    /// The version.
    pub fn version(&self) -> Version
        ensures { result ≡ self.now.version }
    {
        self.parts.version
    }

    /// Sets the version.
    pub fn set_version(&mut self, version: Version)
        ensures { self.new ≡ record self.old { version = version } }
    {
        self.shared = None;
        self.parts.version = version;
    }

    /// The field list.
    pub fn headers(&self) -> &HeaderMap
        ensures { result.now ≡ self.now.fields }
    {
        &self.parts.headers
    }

    /// Puts the value in place of all those under the name. Refused exactly where the list is
    /// full; the head then stays as it was.
    pub fn insert_header(&mut self, name: HeaderName, value: HeaderValue) -> Result<()>
        ensures ok { OnOk result (self.new
            ≡ record self.old { fields = insert self.old.fields name value }) }
        ensures full { IsErrOf result (Fail.Error (refused Context.HeadTooLong))
            ↔ RefusesInsert self.old.fields name }
        ensures causes { IfErr result (IsMemoryOr (refused Context.HeadTooLong)) }
        ensures err { OnErr result (self.new ≡ self.old) }
    {
        self.shared = None;
        insert_field(&mut self.parts.headers, name, value)
    }

    /// Adds the value after those under the name. Refused exactly where the list is full; the
    /// head then stays as it was.
    pub fn append_header(&mut self, name: HeaderName, value: HeaderValue) -> Result<()>
        ensures ok { OnOk result (self.new
            ≡ record self.old { fields = append self.old.fields name value }) }
        ensures full { IsErrOf result (Fail.Error (refused Context.HeadTooLong))
            ↔ RefusesAppend self.old.fields name }
        ensures causes { IfErr result (IsMemoryOr (refused Context.HeadTooLong)) }
        ensures err { OnErr result (self.new ≡ self.old) }
    {
        self.shared = None;
        append_field(&mut self.parts.headers, name, value)
    }

    /// Removes all values under the name, and hands back the first.
    pub fn remove_header(&mut self, name: &HeaderName) -> Option<HeaderValue>
        ensures value { result ≡ get self.old.fields name.now }
        ensures after { self.new
            ≡ record self.old { fields = remove self.old.fields name.now } }
    {
        self.shared = None;
        self.parts.headers.remove(name)
    }

    /// Whether the head only informs, and a final head is to follow: 100 to 199 without 101.
    pub fn is_informational(&self) -> bool
        ensures { IsTrue result ↔ IsInformational self.now.status }
    {
        self.parts.status < 200 && self.parts.status != 101
    }

    /// An equal head, which keeps what this one gave to be held by many.
    pub fn copy(&self) -> Result<ResponseHeader>
        ensures ok { IfOk result (λ copy. copy ≡ self.now) }
        ensures memory { IsOkUnless result Fail.OutOfMemory }
    {
        let parts = copy_parts(&self.parts)?;
        let shared = copy_shared(&self.shared)?;
        Ok(ResponseHeader { parts, shared })
    }

    /// This head as it stands, to be held by many. Its parts are copied by the first call behind a
    /// change, and by no other.
    #[inline(always)]
    pub fn share(&mut self, alloc: Global) -> Result<SharedResponse>
        ensures ok { IfOk result (λ shared. shared ≡ self.old) }
        ensures memory { IsOkUnless result Fail.OutOfMemory }
        ensures same { self.new ≡ self.old }
    {
        match &self.shared {
            Some(shared) => shared.copy(),
            None => self.share_anew(alloc),
        }
    }

    /// As `share`, where nothing was shared since the last change.
    fn share_anew(&mut self, alloc: Global) -> Result<SharedResponse>
        ensures ok { IfOk result (λ shared. shared ≡ self.old) }
        ensures memory { IsOkUnless result Fail.OutOfMemory }
        ensures same { self.new ≡ self.old }
    {
        let kept = share_parts(alloc, &self.parts)?;
        let shared = kept.copy()?;
        self.shared = Some(kept);
        Ok(shared)
    }

    fn is_status(status: u16) -> bool
        ensures { IsTrue result ↔ IsStatus status }
    {
        status >= 100 && status < 1000
    }
}

impl SharedResponse {
    ghost use Rattle.relay_tasks.specs.Head.{IsStatus};

    /// The status.
    pub fn status(&self) -> u16
        ensures value { result ≡ self.now.status }
        ensures valid { IsStatus result }
    {
        self.parts.get().status
    }

    /// The version.
    pub fn version(&self) -> Version
        ensures { result ≡ self.now.version }
    {
        self.parts.get().version
    }

    /// The field list.
    pub fn headers(&self) -> &HeaderMap
        ensures { result.now ≡ self.now.fields }
    {
        &self.parts.get().headers
    }

    /// The same head for one more holder. None of its parts is copied.
    pub fn copy(&self) -> Result<SharedResponse>
        ensures ok { IfOk result (λ copy. copy ≡ self.now) }
        ensures memory { IsOkUnless result Fail.OutOfMemory }
    {
        let parts = self.parts.copy()?;
        Ok(SharedResponse { parts })
    }
}

/// A copy of the parts, to be held by many.
#[inline(always)]
fn share_parts(alloc: Global, parts: &ResponseParts) -> Result<SharedResponse>
    ensures ok { IfOk result (λ shared. shared ≡ parts.now) }
    ensures memory { IsOkUnless result Fail.OutOfMemory }
{
    let parts = Shared::new(alloc, copy_parts(parts)?)?;
    Ok(SharedResponse { parts })
}

/// Equal parts.
#[inline(always)]
fn copy_parts(parts: &ResponseParts) -> Result<ResponseParts>
    ensures ok { IfOk result (λ copy. copy ≡ parts.now) }
    ensures memory { IsOkUnless result Fail.OutOfMemory }
{
    let headers = parts.headers.clone()?;
    Ok(ResponseParts {
        status: parts.status,
        version: parts.version,
        headers,
    })
}

#[inline(always)]
fn copy_shared(shared: &Option<SharedResponse>) -> Result<Option<SharedResponse>>
    ensures ok { IfOk result (λ copy. copy ≡ shared.now) }
    ensures memory { IsOkUnless result Fail.OutOfMemory }
{
    match shared {
        Some(shared) => Ok(Some(shared.copy()?)),
        None => Ok(None),
    }
}
