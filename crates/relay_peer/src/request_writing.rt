//! How a request is written to its peer: its head, its body piece by piece, its end (RFC 9112,
//! sections 3, 6 and 7).
ghost use Rattle.std.specs.Prelude.{◌≡◌, ◌↔◌, ◌++◌, ◌<◌, ℕ, List, [], length, take, None, IfOk, IfErr, OnOk, OnErr, IsErrOf, IsOkUnless, IsTrue};
ghost use Rattle.relay_tasks.specs.Error.{IsMemoryOr, refused};
ghost use Rattle.relay_h1.specs.BodyWire.{count_of, is_short};
ghost use Rattle.relay_h1.specs.Framing.{request_framing};
ghost use Rattle.relay_h1.specs.Move.{WritesOut, taken};
ghost use Rattle.relay_h1.specs.Verdict.{refused_from};
ghost use Rattle.relay_peer.specs.RequestWriting.{Sent, SentSoFar, with_head, with_piece, with_end, rest_of, has_head, may_keep_writing, short_request};

use bytes::Bytes;
use relay_h1::{BodyWriter, Output, closes, request_framing};
use relay_links::{ByteLink, Put};
use relay_tasks::{Context, Error, ErrorSource, Fail, RequestHeader, Result};
use std::alloc::Global;

/// A request whose head was queued: the head, and the writer of its body.
#[derive(Drop)]
pub(crate) struct Sending {
    pub(crate) head: RequestHeader,
    pub(crate) body: BodyWriter,
}

/// What of a request was queued.
#[derive(Drop)]
pub(crate) enum RequestPlace {
    /// Nothing.
    NoHead,
    /// Its head, and its body as far as the writer has come.
    Sending(Sending),
}

/// The writing of one request.
#[derive(Drop)]
pub(crate) struct RequestWriting {
    pub(crate) request: RequestPlace,
    pub(crate) unsent: Output,
}

impl RequestWriting {
    pub(crate) fn new(alloc: Global) -> RequestWriting
        ensures request { result.request ≡ RequestPlace.NoHead }
        ensures unsent { result.unsent ≡ [] }
    {
        RequestWriting {
            request: RequestPlace::NoHead,
            unsent: Output::new(Vec::new(alloc)),
        }
    }

    /// Queues the head, unless one was queued before.
    pub(crate) fn write_head(&mut self, head: RequestHeader) -> Result<()>
        ensures keeps { OnOk result ((sent : Sent) (taken : List ℕ)
            → SentSoFar sent taken self.old → SentSoFar (with_head sent head) taken self.new) }
        ensures refused { IsErrOf result
            (Fail.Error (refused_from ErrorSource.Internal Context.BadFraming))
            ↔ (request_framing head ≡ None) }
        ensures causes { IfErr result
            (IsMemoryOr (refused_from ErrorSource.Internal Context.BadFraming)) }
        ensures err { OnErr result (self.new ≡ self.old) }
    {
        match request_framing(&head) {
            Ok(framing) => self.queue_head(head, BodyWriter::new(framing)),
            Err(error) => Err(Fail::Error(error.into_in())),
        }
    }

    /// Queues a head that is framed so, unless one was queued before.
    fn queue_head(&mut self, head: RequestHeader, body: BodyWriter) -> Result<()>
        ensures keeps { OnOk result (request_framing head ≡ Some body → (sent : Sent)
            (taken : List ℕ)
            → SentSoFar sent taken self.old → SentSoFar (with_head sent head) taken self.new) }
        ensures memory { IsOkUnless result Fail.OutOfMemory }
        ensures err { OnErr result (self.new ≡ self.old) }
    {
        if self.has_head() {
            return Ok(());
        }
        self.unsent.push_request_head(&head)?;
        self.request = RequestPlace::Sending(Sending { head, body });
        Ok(())
    }

    /// Whether a head was queued.
    fn has_head(&self) -> bool
        ensures { result ≡ has_head self.now.request }
    {
        match &self.request {
            RequestPlace::NoHead => false,
            RequestPlace::Sending(_) => true,
        }
    }

    /// Queues a piece of the body.
    pub(crate) fn write_body(&mut self, piece: Bytes) -> Result<Option<u64>>
        ensures keeps { OnOk result ((sent : Sent) (taken : List ℕ)
            → SentSoFar sent taken self.old
            → SentSoFar (with_piece sent piece) taken self.new) }
        ensures counted { IfOk result (λ count. count ≡ count_of (rest_of self.old.request)
            piece) }
        ensures memory { IsOkUnless result Fail.OutOfMemory }
        ensures err { OnErr result (self.new ≡ self.old) }
    {
        match &mut self.request {
            RequestPlace::NoHead => Ok(None),
            RequestPlace::Sending(sending) => self.unsent.push_piece(&mut sending.body, piece),
        }
    }

    /// Queues the end of the body.
    pub(crate) fn finish(&mut self) -> Result<()>
        ensures keeps { OnOk result ((sent : Sent) (taken : List ℕ)
            → SentSoFar sent taken self.old → SentSoFar (with_end sent) taken self.new) }
        ensures short { IsErrOf result (Fail.Error short_request)
            ↔ IsTrue (is_short (rest_of self.old.request)) }
        ensures causes { IfErr result (IsMemoryOr short_request) }
        ensures err { OnErr result (self.new ≡ self.old) }
    {
        match &mut self.request {
            RequestPlace::NoHead => Ok(()),
            RequestPlace::Sending(sending) => match self.unsent.push_end(&mut sending.body) {
                Ok(()) => Ok(()),
                Err(Fail::OutOfMemory) => Err(Fail::OutOfMemory),
                Err(Fail::Error(error)) => Err(Fail::Error(error.into_up())),
            },
        }
    }

    /// One write to the link of what is queued, which is some.
    pub(crate) fn write_to<L: ByteLink>(&mut self, link: &mut L) -> Put
        requires { 0 < length self.old.unsent }
        ensures answer { WritesOut (L.state link.old) (L.state link.new) self.old.unsent
            self.new.unsent result }
        ensures start { L.start link.new ≡ L.start link.old }
        ensures keeps { (sent : Sent) (gone : List ℕ) → SentSoFar sent gone self.old
            → SentSoFar sent (gone ++ take (taken result) self.old.unsent) self.new }
        ensures same { self.new.request ≡ self.old.request }
    {
        self.unsent.write_to(link)
    }

    /// Whether something is queued that the link has not taken.
    pub(crate) fn has_unsent(&self) -> bool
        ensures { IsTrue result ↔ (0 < length self.now.unsent) }
    {
        !self.unsent.is_empty()
    }

    /// Whether all of the request was queued and taken, and its head lets the link be kept.
    pub(crate) fn may_keep(&self) -> bool
        ensures { result ≡ may_keep_writing self.now }
    {
        match &self.request {
            RequestPlace::NoHead => false,
            RequestPlace::Sending(sending) => {
                sending.body.is_done()
                    && (!closes(sending.head.headers()) && self.unsent.is_empty())
            }
        }
    }
}
