//! Each public call of a session with modules once with ample memory, over a module that rewrites
//! what passes; and each wrapper of a filter of the modules once, over modules that leave it.
ghost use Rattle.std.specs.Prelude.{◌≡◌, IsSome};
ghost use Rattle.relay_session.specs.Reading.{head_of};

use crate::tests::calls::Told;
use crate::tests::rows::{self, Came, OfModules};
use crate::tests::support::{defaults, expect, is_written, release};
use bytes::Bytes;
use http::Method;
use http_header::{CONTENT_LENGTH, HeaderMap, HeaderValue, TRANSFER_ENCODING, VIA};
use relay_h1::Framing;
use relay_modules::{HttpModule, Session};
use relay_session::HttpSession;
use relay_tasks::{
    Context, Error, ErrorType, Fail, HttpTask, RequestHeader, ResponseHeader, Result, TaskList,
};
use std::alloc::Global;

/// A module that adds a field to the request's head, writes `ho` for each piece, refuses the piece
/// `no`, and writes `end` for trailer fields.
#[derive(Drop)]
struct Rewrites;

/// The error with which the piece `no` is refused.
fn refused() -> Fail {
    Fail::Error(Error::new(ErrorType::Custom(7)))
}

impl HttpModule for Rewrites {
    ghost allows = { λ _ _. Unit {0} };

    fn request_header_filter(&mut self, head: &mut RequestHeader) -> Result<()> {
        head.insert_header(VIA, HeaderValue::from_static("relay"))
    }

    fn request_body_filter(&mut self, body: &mut Option<Bytes>, _end: bool) -> Result<()> {
        *body = None;
        Ok(())
    }

    fn response_header_filter(&mut self, head: &mut ResponseHeader, _end: bool) -> Result<()> {
        head.remove_header(&VIA);
        Ok(())
    }

    fn response_body_filter(&mut self, body: &mut Option<Bytes>, _end: bool) -> Result<()> {
        if let Some(piece) = body {
            if piece.as_slice() == b"no".as_slice() {
                return Err(refused());
            }
            *body = Some(Bytes::from_static(b"ho"));
        }
        Ok(())
    }

    fn response_trailer_filter(
        &mut self,
        _trailers: &mut Option<HeaderMap>,
    ) -> Result<Option<Bytes>> {
        Ok(Some(Bytes::from_static(b"end")))
    }

    fn response_done_filter(&mut self) -> Result<Option<Bytes>> {
        Ok(None)
    }
}

/// What is tried of a session.
#[derive(Clone, Copy)]
enum Tried {
    Batch,
    Refusal,
    Upgrade,
    Calls,
    Later,
    Head,
    Answers,
}

/// What came of it over a session of a GET whose body has ended, with that module.
fn came_of(alloc: Global, tried: Tried) -> Result<bool> {
    let head = RequestHeader::build(alloc, &Method::GET, b"/")?;
    let client = HttpSession::begun_http1(alloc, head, Framing::Empty);
    let mut session = Session::new_h1_with_modules(alloc, client, Rewrites);
    let came = run(alloc, &mut session, tried);
    release(session);
    came
}

fn run(alloc: Global, session: &mut Session<Rewrites>, tried: Tried) -> Result<bool>
    requires { IsSome (head_of session.old.seen.downstream.reading) }
{
    match tried {
        Tried::Batch => writes_a_batch(alloc, session),
        Tried::Refusal => queues_nothing(alloc, session),
        Tried::Upgrade => refuses_upgrades(alloc, session),
        Tried::Calls => writes_call_by_call(alloc, session),
        Tried::Later => keeps_tasks(alloc, session),
        Tried::Head => filters_head(session),
        Tried::Answers => answers(alloc, session),
    }
}

/// A head that is final, before a body of two bytes.
fn head(alloc: Global) -> Result<ResponseHeader> {
    let mut head = ResponseHeader::build(alloc, 200)?;
    head.insert_header(CONTENT_LENGTH, HeaderValue::from_static("2"))?;
    Ok(head)
}

/// A batch of that head and that piece, which ends it.
fn batch(alloc: Global, piece: &'static [u8]) -> Result<TaskList> {
    let mut tasks = TaskList::new(alloc);
    tasks.push(HttpTask::Header(head(alloc)?, false))?;
    tasks.push(HttpTask::Body(Some(Bytes::from_static(piece)), true))?;
    Ok(tasks)
}

/// What the module made of a piece.
const HO: &[u8] = b"HTTP/1.1 200 OK\r\ncontent-length: 2\r\n\r\nho";

fn writes_a_batch(alloc: Global, session: &mut Session<Rewrites>) -> Result<bool> {
    let over = session.write_response_tasks(batch(alloc, b"hi")?)?;
    let count = session.seen.take_wrote().len();
    let shows_head = session.seen.view().final_head;
    let written = is_written(alloc, session.as_downstream_mut(), HO);
    Ok(over && count == 2 && shows_head && written)
}

fn queues_nothing(alloc: Global, session: &mut Session<Rewrites>) -> Result<bool> {
    let refusal = session.write_response_tasks(batch(alloc, b"no")?);
    let count = session.seen.wrote.len();
    let answered = session.as_downstream().response_written();
    let written = is_written(alloc, session.as_downstream_mut(), b"");
    Ok(refusal == Err(refused()) && count == 0 && !answered && written)
}

/// An error of the relay's own.
fn own(etype: ErrorType, context: Context) -> Fail {
    Fail::Error(Error::explain(etype, context).into_in())
}

fn refuses_upgrades(alloc: Global, session: &mut Session<Rewrites>) -> Result<bool> {
    let switches = ResponseHeader::build(alloc, 101)?;
    let of_head = session.write_response_header_ref(&switches, false);
    session.set_proxy_tasks_enabled(true);
    let of_piece = session.send_downstream_proxy_task(HttpTask::UpgradedBody(None, true));
    let waits = session.has_pending_downstream_tasks();
    let of_head = of_head == Err(own(ErrorType::InvalidHTTPHeader, Context::Mismatch101));
    let of_piece = of_piece == Err(own(ErrorType::InvalidHTTPHeader, Context::BeforeUpgrade));
    Ok(of_head && of_piece && !waits)
}

fn chunked(alloc: Global) -> Result<ResponseHeader> {
    let mut head = ResponseHeader::build(alloc, 200)?;
    head.insert_header(TRANSFER_ENCODING, HeaderValue::from_static("chunked"))?;
    Ok(head)
}

fn writes_call_by_call(alloc: Global, session: &mut Session<Rewrites>) -> Result<bool> {
    session.write_response_header(chunked(alloc)?, false)?;
    session.write_response_body(None, false)?;
    session.write_response_body(Some(Bytes::from_static(b"hello")), false)?;
    let mut tasks = TaskList::new(alloc);
    tasks.push(HttpTask::Trailer(None))?;
    let over = session.write_response_tasks(tasks)?;
    let want = b"HTTP/1.1 200 OK\r\ntransfer-encoding: chunked\r\n\r\n\
        2\r\nho\r\n3\r\nend\r\n0\r\n\r\n";
    let written = is_written(alloc, session.as_downstream_mut(), want);
    Ok(over && written)
}

fn keeps_tasks(alloc: Global, session: &mut Session<Rewrites>) -> Result<bool> {
    let off = session.send_downstream_proxy_task(HttpTask::Done);
    session.set_proxy_tasks_enabled(true);
    let over_before = session.write_downstream_proxy_tasks()?;
    session.send_downstream_proxy_task(HttpTask::Header(head(alloc)?, false))?;
    let piece = Some(Bytes::from_static(b"hi"));
    session.send_downstream_proxy_task(HttpTask::Body(piece, true))?;
    let waits = session.has_pending_downstream_tasks();
    let over = session.write_downstream_proxy_tasks()?;
    let written = is_written(alloc, session.as_downstream_mut(), HO);
    let off = off == Err(own(ErrorType::WriteError, Context::NoTaskApi));
    Ok(off && !over_before && waits && over && written)
}

fn filters_head(session: &mut Session<Rewrites>) -> Result<bool>
    requires { IsSome (head_of session.old.seen.downstream.reading) }
{
    let touched_before = session.seen.touched;
    session.filter_request_header()?;
    let touched = !touched_before && session.seen.touched;
    if !session.seen.downstream.has_head() {
        return Ok(false);
    }
    let set = session.req_header().headers().contains_key(&VIA);
    session.seen.begin_call();
    let cleared = !session.seen.touched;
    session.req_header_mut().remove_header(&VIA);
    let touched_again = session.seen.touched;
    Ok(touched && set && cleared && touched_again)
}

/// Whether a new session is as its calls leave it.
fn keeps_flags<M: HttpModule>(session: &mut Session<M>) -> bool {
    let is_new = session.seen.keepalive && session.phase_log().is_empty();
    session.set_keepalive(false);
    session.mark_upstream_headers_mutated_for_cache();
    let stands = !session.seen.keepalive && session.upstream_headers_mutated_for_cache();
    let is_free = !session.is_process_shutting_down() && !session.may_spawn_subrequest();
    let received = session.upstream_body_bytes_received();
    let is_sent = session.upstream_body_bytes_sent().is_some();
    let waited = session.upstream_write_pending_time();
    is_new && stands && is_free && received == 0 && !is_sent && waited == 0
}

fn answers(alloc: Global, session: &mut Session<Rewrites>) -> Result<bool> {
    session.respond_error_with_body(403, Bytes::from_static(b"no"))?;
    session.respond_error(500)?;
    session.as_downstream_mut().finish_body()?;
    let count = session.seen.wrote.len();
    let want = b"HTTP/1.1 403 Forbidden\r\nserver: Pingora\r\ncontent-length: 2\r\n\
        cache-control: private, no-store\r\n\r\nno";
    let written = is_written(alloc, session.as_downstream_mut(), want);
    Ok(count == 2 && written)
}

#[test]
fn writes_what_the_module_made(rt: HostRuntime) {
    expect(&rt, came_of(rt.alloc(), Tried::Batch), Ok(true));
    expect(&rt, came_of(rt.alloc(), Tried::Calls), Ok(true));
    expect(&rt, came_of(rt.alloc(), Tried::Later), Ok(true));
}

#[test]
fn queues_nothing_that_is_refused(rt: HostRuntime) {
    expect(&rt, came_of(rt.alloc(), Tried::Refusal), Ok(true));
    expect(&rt, came_of(rt.alloc(), Tried::Upgrade), Ok(true));
}

#[test]
fn filters_the_head_of_the_request(rt: HostRuntime) {
    expect(&rt, came_of(rt.alloc(), Tried::Head), Ok(true));
}

#[test]
fn answers_without_the_modules(rt: HostRuntime) {
    expect(&rt, came_of(rt.alloc(), Tried::Answers), Ok(true));
}

#[test]
fn keeps_its_flags(rt: HostRuntime) {
    let alloc = rt.alloc();
    let mut session = Session::new_h1(alloc, HttpSession::new_http1(alloc));
    let kept = keeps_flags(&mut session);
    release(session);
    assert!(rt; kept);
}

fn entered(alloc: Global, filter: OfModules) -> Result<(Came, usize)> {
    rows::entered(defaults(), alloc, filter)
}

#[test]
fn enters_each_call_of_the_modules_once(rt: HostRuntime) {
    let alloc = rt.alloc();
    let same = Told {
        status: 204,
        via: false,
    };
    let piece = Came::Left(Some(b'h'));
    expect(&rt, entered(alloc, OfModules::RequestBody), Ok((piece, 1)));
    expect(
        &rt,
        entered(alloc, OfModules::ResponseHeader),
        Ok((Came::Head(same), 1)),
    );
    expect(&rt, entered(alloc, OfModules::ResponseBody), Ok((piece, 1)));
    expect(
        &rt,
        entered(alloc, OfModules::ResponseTrailer),
        Ok((Came::Says(false), 1)),
    );
    expect(
        &rt,
        entered(alloc, OfModules::ResponseDone),
        Ok((Came::Says(false), 1)),
    );
}
