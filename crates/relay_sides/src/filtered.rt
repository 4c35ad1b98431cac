//! A side over a side of the upstream: the tasks of the response that the inner side gives are
//! handed on, up to a head that is refused (RFC 9110, section 15.2; RFC 9112, sections 6 and 7).
ghost use Rattle.std.specs.Prelude.{◌≡◌, ℕ, List, None, false};
ghost use Rattle.relay_core.specs.Past.{Origin, UpPast};
ghost use Rattle.relay_tasks.specs.declared.error.Error.{Error};
ghost use Rattle.relay_h1.specs.ClientHead.{lacks_framing};
ghost use Rattle.relay_sides.specs.Filtered.{IsFiltered, BlamesOver, CutsOver, HandsOn, asks_to_close, inside, is_head_request, state_over, still_blames};

use crate::client_side::either;
use http::{Method, Version};
use relay_core::{Told, Up};
use relay_h1::{add_chunked, closes, is_sent_to, lacks_framing};
use relay_links::{Put, UpKind};
use relay_tasks::{
    Context, Error, ErrorSource, ErrorType, Fail, HttpTask, RequestHeader, ResponseHeader, Result,
    Took,
};

/// The upstream's side over another: a final head that switches protocols is refused, and one
/// whose body would last until the link ends is chunked. Behind a head that is refused nothing more
/// is handed on.
#[derive(Drop)]
pub struct Filtered<U> {
    inner: U,
    // Whether the request is a HEAD, whose response has no body.
    of_head: bool,
    // Whether a head that was handed on began a tunnel.
    upgraded: bool,
    told: Told,
    // Why no more of the response is handed on, once a head was not.
    stopped: Option<Fail>,
    // Whether a final head that was handed on asks to close.
    closes: bool,
}

/// Whether the request is a HEAD.
pub fn is_head_request(head: &RequestHeader) -> bool
    ensures { result ≡ is_head_request head.now.method }
{
    head.method().as_str() == "HEAD"
}

impl<U: Up> Filtered<U> {
    /// The side over that one, of a request that is a HEAD or is none. It tells what the inner one
    /// has told.
    pub fn new(inner: U, of_head: bool) -> Filtered<U>
        ensures { result ≡ record {
          inner = inner;
          of_head = of_head;
          upgraded = (U.state inner).upgraded;
          told = (U.state inner).told;
          stopped = None;
          closes = false;
        } }
    {
        let upgraded = inner.upgraded();
        let told = inner.told();
        Filtered {
            inner,
            of_head,
            upgraded,
            told,
            stopped: None,
            closes: false,
        }
    }
}

impl<U> Filtered<U> {
    /// The inner side.
    pub fn inner(&self) -> &U
        ensures { result.now ≡ self.now.inner }
    {
        &self.inner
    }

    /// Whether a final head of the response that was handed on asks for the connection to be closed
    /// (RFC 9112, section 9.6).
    pub fn asks_to_close(&self) -> bool
        ensures { result ≡ self.now.closes }
    {
        self.closes
    }

    /// The inner side alone.
    pub fn into_inner(self) -> U
        ensures { result ≡ self.inner }
    {
        let Filtered {
            inner,
            of_head: _,
            upgraded: _,
            told: _,
            stopped: _,
            closes: _,
        } = self;
        inner
    }
}

/// A task of the response as it is handed on, or why no more is: a head that switches protocols is
/// refused, and one whose body would last until the link ends is chunked. `of_head` is whether the
/// request is a HEAD.
fn hand_on(task: HttpTask, of_head: bool) -> std::result::Result<HttpTask, Fail>
    ensures { (method : List ℕ) → of_head ≡ is_head_request method → HandsOn method task result }
{
    match task {
        HttpTask::Header(head, end) => hand_head_on(head, end, of_head),
        HttpTask::Failed(error) => Err(Fail::Error(error)),
        HttpTask::Body(piece, end) => Ok(HttpTask::Body(piece, end)),
        HttpTask::UpgradedBody(piece, end) => Ok(HttpTask::UpgradedBody(piece, end)),
        HttpTask::Trailer(fields) => Ok(HttpTask::Trailer(fields)),
        HttpTask::Done => Ok(HttpTask::Done),
    }
}

/// The same for a head.
fn hand_head_on(
    mut head: ResponseHeader,
    end: bool,
    of_head: bool,
) -> std::result::Result<HttpTask, Fail>
    ensures { (method : List ℕ) → of_head ≡ is_head_request method
        → HandsOn method (HttpTask.Header head end) result }
{
    if head.status() == 101 {
        let error = Error::explain(ErrorType::InvalidHTTPHeader, Context::Mismatch101);
        return Err(Fail::Error(error.into_up()));
    }
    if !has_no_end(of_head, end, &head) {
        return Ok(HttpTask::Header(head, end));
    }
    match add_chunked(&mut head) {
        Ok(()) => Ok(HttpTask::Header(head, end)),
        Err(fail) => Err(inside(fail)),
    }
}

/// Whether nothing says where the body behind that head ends.
fn has_no_end(of_head: bool, end: bool, head: &ResponseHeader) -> bool
    ensures { (method : List ℕ) → of_head ≡ is_head_request method
        → result ≡ lacks_framing method end head.now }
{
    if of_head {
        lacks_framing(&Method::HEAD, end, head)
    } else {
        lacks_framing(&Method::GET, end, head)
    }
}

/// A failure as one of the relay's own.
fn inside(fail: Fail) -> Fail
    ensures { result ≡ inside fail }
{
    match fail {
        Fail::OutOfMemory => Fail::OutOfMemory,
        Fail::Error(error) => Fail::Error(error.into_in()),
    }
}

/// Whether a task is a final head that asks for the connection to be closed.
fn asks_to_close(task: &HttpTask) -> bool
    ensures { result ≡ asks_to_close task.now }
{
    match task {
        // HTTP/1.0 is sent final heads alone.
        HttpTask::Header(head, _) => {
            is_sent_to(Version::HTTP_10, head) && closes(head.headers())
        }
        HttpTask::Body(_, _)
        | HttpTask::UpgradedBody(_, _)
        | HttpTask::Trailer(_)
        | HttpTask::Done
        | HttpTask::Failed(_) => false,
    }
}

impl<U: Up> Up for Filtered<U> {
    ghost state = { λ f. state_over (U.state f.inner) f.upgraded f.stopped f.told };

    ghost past = { λ f s q. IsFiltered (U.past f.inner s) s.sent.method f.of_head f.closes f.stopped
        f.told (U.state f.inner).told q };

    ghost blames = { λ f s q e. BlamesOver (U.blames f.inner s) f.stopped q e };

    ghost link = { λ f. U.link f.inner };

    ghost start = { λ f. U.start f.inner };

    ghost cuts = { λ old new answer. (method : List ℕ) → old.of_head ≡ is_head_request method
        → CutsOver (U.cuts old.inner new.inner) (new.inner ≡ old.inner) method old.stopped answer };

    ghost unread = { λ f s q read e blamed.
        still_blames (U.blames f.inner s) f.stopped q read e (U.unread f.inner s q read e) blamed };

    fn kind(&self) -> UpKind {
        self.inner.kind()
    }

    fn upgraded(&self) -> bool {
        self.upgraded
    }

    fn read_task(&mut self) -> Took<HttpTask> {
        match self.stopped {
            Some(why) => {
                self.told = self.told.failed(why);
                Took::Failed(why)
            }
            None => match self.inner.read_task() {
                Took::Item(task) => match hand_on(task, self.of_head) {
                    Ok(task) => {
                        self.upgraded = either(self.upgraded, self.inner.upgraded());
                        self.closes = either(self.closes, asks_to_close(&task));
                        Took::Item(task)
                    }
                    Err(why) => {
                        self.stopped = Some(why);
                        self.told = self.told.failed(why);
                        Took::Failed(why)
                    }
                },
                Took::More => Took::More,
                Took::End => Took::End,
                Took::Waited(pause) => {
                    self.told = self.told.paused(pause);
                    Took::Waited(pause)
                }
                Took::Failed(why) => {
                    self.told = self.told.failed(why);
                    Took::Failed(why)
                }
            },
        }
    }

    fn take_piece(&mut self, task: HttpTask) -> Result<()> {
        match self.inner.take_piece(task) {
            Ok(()) => Ok(()),
            Err(why) => {
                self.told = self.told.failed(why);
                Err(why)
            }
        }
    }

    fn has_pending(&self) -> bool {
        self.inner.has_pending()
    }

    fn write_pending(&mut self) -> Put {
        let put = self.inner.write_pending();
        self.told = self.told.written(ErrorSource::Upstream, put);
        put
    }

    fn told(&self) -> Told {
        self.told
    }
}
