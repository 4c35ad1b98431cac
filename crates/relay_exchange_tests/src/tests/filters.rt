//! A side over that of a client whose link answers by a script, behind applications that change
//! what passes. What comes of it is a plain value.
use super::app::{Changes, Does, app, refused};
use super::scripts::{Gives, has_taken, link};
use bytes::Bytes;
use http::Method;
use http_header::{CONTENT_LENGTH, HeaderValue};
use relay_core::{Down, Piece};
use relay_filters::{Hooked, Rested};
use relay_h1::{Connection, Framing};
use relay_hooks::{App, Counted, NoModules, ProxyHttp, Session};
use relay_links::{ScriptLink, UpKind};
use relay_session::HttpSession;
use relay_sides::ClientSide;
use relay_tasks::{
    Context, Error, ErrorType, Fail, HttpTask, RequestHeader, ResponseHeader, Result, TaskList,
    Took,
};
use std::alloc::Global;

type Client = Connection<ScriptLink, ()>;

/// What a side is made over for a call: the application, the session and the context that its hooks
/// are shown, and the rest of it.
#[derive(Drop)]
struct Held<'a> {
    app: &'a App<Changes>,
    session: Session<NoModules>,
    ctx: Counted<Bytes>,
    rest: Rested,
}

/// A client that sends a body of four bytes in two parts, and takes all.
fn client(alloc: Global) -> Result<Client> {
    let script = &[Gives::Text("ab"), Gives::Text("cd")];
    Ok(Connection::new(alloc, link(alloc, script)?))
}

/// The session of a request with a body in that framing.
fn session(alloc: Global, framing: Framing) -> Result<HttpSession> {
    let head = RequestHeader::build(alloc, &Method::PUT, b"/")?;
    Ok(HttpSession::begun_http1(alloc, head, framing))
}

/// The session whose log has the calls, with modules or before they are made.
fn shown(app: &App<Changes>, alloc: Global, made: bool) -> Result<Session<NoModules>> {
    let stand_in = session(alloc, Framing::Empty)?;
    if made {
        let modules = app.init_downstream_modules(alloc)?;
        return Ok(Session::new_h1_with_modules(alloc, stand_in, modules));
    }
    Ok(Session::new_h1_unmade(alloc, stand_in))
}

/// The side of a client whose request has a body in that framing.
fn inner(alloc: Global, framing: Framing) -> Result<ClientSide> {
    Ok(ClientSide::new(alloc, session(alloc, framing)?))
}

/// The side behind that application of a request with a body in that framing, which has ended or
/// not.
fn begun<'a>(
    app: &'a App<Changes>,
    alloc: Global,
    framing: Framing,
    made: bool,
    ended: bool,
) -> Result<Held<'a>> {
    let inner = inner(alloc, framing)?;
    let session = shown(app, alloc, made)?;
    let rest = Rested::begin::<Client>(inner, session.phase_log(), ended, false);
    let ctx = app.new_ctx();
    Ok(Held {
        app,
        session,
        ctx,
        rest,
    })
}

/// How many calls were entered by that side.
fn entered(held: &Held<'_>) -> usize {
    held.session.phase_log().len()
}

/// How many bytes a piece has, and whether the request ends with it.
type Given = Option<(usize, bool)>;

/// What that is of a piece.
fn piece_given(piece: &Piece) -> Given {
    match &piece.bytes {
        Some(bytes) => Some((bytes.len(), piece.upstream_end)),
        None => Some((0, piece.upstream_end)),
    }
}

/// What a read gives; none where it gives no piece.
fn given(took: &Took<Piece>) -> Given {
    match took {
        Took::Item(piece) => piece_given(piece),
        Took::More | Took::Waited(_) | Took::End | Took::Failed(_) => None,
    }
}

/// What a read gives, where the client may be read.
fn read(held: &mut Held<'_>, client: &mut Client) -> Given {
    let mut side = Hooked::over(held.app, &mut held.session, &mut held.ctx, &mut held.rest);
    if !Down::<Client>::may_read(&side) {
        return None;
    }
    given(&side.read_piece(client, false))
}

/// What two reads give behind that application, whose modules were made or not, and how many calls
/// were entered.
fn reads(app: &App<Changes>, alloc: Global, made: bool) -> Result<(Given, Given, usize)> {
    let mut client = client(alloc)?;
    let mut held = begun(app, alloc, Framing::Length(4), made, false)?;
    let first = read(&mut held, &mut client);
    let second = read(&mut held, &mut client);
    Ok((first, second, entered(&held)))
}

#[test]
fn gathers_two_pieces_in_one(rt: HostRuntime) {
    let wanted = Ok((Some((0, false)), Some((4, true)), 4));
    assert!(rt; reads(&app(Does::Gathers), rt.alloc(), true) == wanted);
    // before modules are made they are not called
    let wanted = Ok((Some((0, false)), Some((4, true)), 2));
    assert!(rt; reads(&app(Does::Gathers), rt.alloc(), false) == wanted);
}

#[test]
fn ends_the_request_where_a_piece_is_taken_away(rt: HostRuntime) {
    let wanted = Ok((Some((0, true)), Some((0, false)), 4));
    assert!(rt; reads(&app(Does::Cuts), rt.alloc(), true) == wanted);
}

/// The side behind that application over that of a client, where an attempt puts again two bytes
/// that were read before, and what passes of them.
fn again_over<'a>(
    app: &'a App<Changes>,
    mut session: Session<NoModules>,
    inner: ClientSide,
) -> Result<(Held<'a>, Given)> {
    if !inner.session().has_head() {
        return Err(Fail::OutOfMemory);
    }
    let put = Piece {
        bytes: Some(Bytes::from_static(b"xy")),
        upstream_end: false,
        client_end: false,
    };
    let mut ctx = app.new_ctx();
    let (rest, passed) = Rested::begin_again::<App<Changes>, Client>(
        app,
        &mut session,
        &mut ctx,
        inner,
        put,
        false,
    );
    let held = Held {
        app,
        session,
        ctx,
        rest,
    };
    match &passed {
        Ok(piece) => Ok((held, piece_given(piece))),
        Err(_) => Ok((held, None)),
    }
}

/// What passes of what is put again, what the two reads behind that give, and how many calls were
/// entered.
fn again(app: &App<Changes>, alloc: Global) -> Result<([Given; 3], usize)> {
    let mut client = client(alloc)?;
    let inner = inner(alloc, Framing::Length(4))?;
    let session = shown(app, alloc, true)?;
    let (mut held, first) = again_over(app, session, inner)?;
    let second = read(&mut held, &mut client);
    let third = read(&mut held, &mut client);
    Ok(([first, second, third], entered(&held)))
}

#[test]
fn gathers_what_is_put_again_with_what_is_read(rt: HostRuntime) {
    let wanted = Ok(([Some((0, false)), Some((0, false)), Some((6, true))], 6));
    assert!(rt; again(&app(Does::Gathers), rt.alloc()) == wanted);
}

#[test]
fn ends_the_request_where_what_is_put_again_is_taken_away(rt: HostRuntime) {
    let wanted = Ok(([Some((0, true)), Some((0, false)), Some((0, false))], 6));
    assert!(rt; again(&app(Does::Cuts), rt.alloc()) == wanted);
}

/// A response of a head with that status and a piece, which ends it. A length is said or not.
#[derive(Clone, Copy, Drop)]
struct Response {
    status: u16,
    says: bool,
    piece: &'static [u8],
}

/// Its batch.
fn batch(alloc: Global, response: Response) -> Result<TaskList> {
    let mut head = ResponseHeader::build(alloc, response.status)?;
    if response.says {
        head.insert_header(CONTENT_LENGTH, HeaderValue::from_static("2"))?;
    }
    let mut tasks = TaskList::new(alloc);
    tasks.push(HttpTask::Header(head, false))?;
    tasks.push(HttpTask::Body(Some(Bytes::from_static(response.piece)), true))?;
    Ok(tasks)
}

/// Gives that batch to the side.
fn take(held: &mut Held<'_>, tasks: TaskList) -> Result<bool> {
    let mut side = Hooked::over(held.app, &mut held.session, &mut held.ctx, &mut held.rest);
    Down::<Client>::take_batch(&mut side, tasks, UpKind::H1)
}

/// Writes what waits, if anything does.
fn write(held: &mut Held<'_>, client: &mut Client) {
    let mut side = Hooked::over(held.app, &mut held.session, &mut held.ctx, &mut held.rest);
    if Down::<Client>::has_pending(&side) {
        let _ = side.write_pending(client);
    }
}

/// What becomes of that batch at that side: the answer, how many calls were entered, and whether
/// the client takes just that text.
fn answer(
    held: &mut Held<'_>,
    client: &mut Client,
    tasks: TaskList,
    text: &str,
) -> (Result<bool>, usize, bool) {
    let answer = take(held, tasks);
    write(held, client);
    (answer, entered(held), has_taken(client.link(), text))
}

/// The same of a response behind the application that writes, whose modules were made or not.
fn answers(
    alloc: Global,
    made: bool,
    response: Response,
    text: &str,
) -> Result<(Result<bool>, usize, bool)> {
    let app = app(Does::Writes);
    let tasks = batch(alloc, response)?;
    let mut client = client(alloc)?;
    let mut held = begun(&app, alloc, Framing::Empty, made, true)?;
    Ok(answer(&mut held, &mut client, tasks, text))
}

const WRITTEN: &str = "HTTP/1.1 200 OK\r\ncontent-length: 2\r\nvia: relay\r\n\r\nho";

#[test]
fn writes_what_the_filters_made(rt: HostRuntime) {
    let response = Response {
        status: 200,
        says: true,
        piece: b"hi",
    };
    assert!(rt; answers(rt.alloc(), true, response, WRITTEN) == Ok((Ok(true), 6, true)));
    // before modules are made they are not called
    assert!(rt; answers(rt.alloc(), false, response, WRITTEN) == Ok((Ok(true), 4, true)));
}

#[test]
fn chunks_a_body_without_an_end(rt: HostRuntime) {
    let response = Response {
        status: 200,
        says: false,
        piece: b"hi",
    };
    let text =
        "HTTP/1.1 200 OK\r\nvia: relay\r\ntransfer-encoding: chunked\r\n\r\n2\r\nho\r\n0\r\n\r\n";
    assert!(rt; answers(rt.alloc(), true, response, text) == Ok((Ok(true), 6, true)));
}

#[test]
fn queues_nothing_of_a_batch_that_a_filter_refuses(rt: HostRuntime) {
    let response = Response {
        status: 200,
        says: true,
        piece: b"no",
    };
    assert!(rt; answers(rt.alloc(), true, response, "") == Ok((Err(refused()), 4, true)));
}

#[test]
fn refuses_a_head_that_switches_protocols(rt: HostRuntime) {
    let response = Response {
        status: 101,
        says: true,
        piece: b"hi",
    };
    let error = Error::explain(ErrorType::InvalidHTTPHeader, Context::Mismatch101).into_up();
    let wanted = Ok((Err(Fail::Error(error)), 1, true));
    assert!(rt; answers(rt.alloc(), true, response, "") == wanted);
}

/// Three pieces of a response.
fn three_pieces(alloc: Global) -> Result<TaskList> {
    let mut tasks = TaskList::new(alloc);
    for _ in 0..3 {
        tasks.push(HttpTask::Body(Some(Bytes::from_static(b"hi")), false))?;
    }
    Ok(tasks)
}

/// The delay that is taken behind a batch of three pieces, and that behind it.
fn delays(app: &App<Changes>, alloc: Global) -> Result<(u64, u64)> {
    let tasks = three_pieces(alloc)?;
    let mut held = begun(app, alloc, Framing::Empty, true, true)?;
    let _refused = take(&mut held, tasks);
    let Held {
        app: _,
        session,
        ctx: _ctx,
        mut rest,
    } = held;
    let first = rest.take_delay(session.phase_log());
    let second = rest.take_delay(session.phase_log());
    Ok((first, second))
}

#[test]
fn sums_the_delays_of_the_pieces(rt: HostRuntime) {
    assert!(rt; delays(&app(Does::Slows), rt.alloc()) == Ok((15, 0)));
}
