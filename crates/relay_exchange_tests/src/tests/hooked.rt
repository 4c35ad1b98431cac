//! Whole exchanges behind an application, which is held by none of them between two turns, nor is
//! what hooks are shown: each turn borrows them.
use super::app::{Changes, Does, app};
use super::scripts::{Gives, has_taken, link};
use bytes::Bytes;
use http::Method;
use http_header::{CONTENT_LENGTH, HeaderValue};
use relay_core::Step;
use relay_h1::{Connection, Framing};
use relay_hooked::{HookedExchange, Unbegun, begin};
use relay_hooks::{App, Counted, NoModules, ProxyHttp, Session};
use relay_links::{ListSchedule, ScriptLink};
use relay_session::HttpSession;
use relay_tasks::{Pause, RequestHeader, Result};
use std::alloc::Global;

type Client = Connection<ScriptLink, ()>;

/// The session that hooks are shown.
type Shown = Session<NoModules>;

/// An exchange, and the session and the context that its hooks are shown.
#[derive(Drop)]
struct Held {
    exchange: HookedExchange<ScriptLink>,
    session: Shown,
    ctx: Counted<Bytes>,
}

/// The head of an upload of four bytes.
fn upload(alloc: Global) -> Result<RequestHeader> {
    let mut head = RequestHeader::build(alloc, &Method::PUT, b"/")?;
    head.insert_header(CONTENT_LENGTH, HeaderValue::from_static("4"))?;
    Ok(head)
}

/// The session of an application, with its modules.
fn shown(app: &App<Changes>, alloc: Global) -> Result<Shown> {
    let modules = app.init_downstream_modules(alloc)?;
    Ok(Session::new_h1_with_modules(alloc, HttpSession::new_http1(alloc), modules))
}

/// A peer that answers two bytes.
fn peer(alloc: Global) -> Result<ScriptLink> {
    let head = Gives::Text("HTTP/1.1 200 OK\r\ncontent-length: 2\r\n\r\n");
    link(alloc, &[head, Gives::Text("hi")])
}

/// An exchange of that head at that peer behind that application; none where it is refused.
fn begun_with(
    app: &App<Changes>,
    alloc: Global,
    mut session: Shown,
    client: HttpSession,
    peer: ScriptLink,
    head: RequestHeader,
) -> Option<Held> {
    let mut ctx = app.new_ctx();
    match begin::<App<Changes>, ScriptLink, Client>(
        app,
        alloc,
        &mut session,
        &mut ctx,
        client,
        peer,
        head,
    ) {
        Ok(exchange) => {
            Some(Held {
                exchange,
                session,
                ctx,
            })
        }
        Err(
            Unbegun {
                client: _,
                link: _,
                why: _,
            },
        ) => None,
    }
}

/// The same of the upload.
fn begun(app: &App<Changes>, alloc: Global) -> Result<Option<Held>> {
    let head = upload(alloc)?;
    let client = HttpSession::begun_http1(alloc, upload(alloc)?, Framing::Length(4));
    let peer = peer(alloc)?;
    let session = shown(app, alloc)?;
    Ok(begun_with(app, alloc, session, client, peer, head))
}

/// Takes turns until the exchange ends, both links are silent, or 100 were taken. The last answer.
fn run(held: &mut Held, app: &App<Changes>, alloc: Global, client: &mut Client) -> Step {
    let mut schedule = ListSchedule::new(Vec::new(alloc));
    for _ in 0..100 {
        let turn = held.exchange.turn(app, &mut held.session, &mut held.ctx, client, &mut schedule);
        match turn.step {
            Step::Moved | Step::Waited(Pause::NotReady) => {}
            Step::Waited(Pause::Silent) | Step::Finished | Step::Failed(_) => return turn.step,
        }
    }
    Step::Moved
}

/// What an exchange leaves: whether its link may be kept, whether its modules stood, how many calls
/// were entered, and whether the peer was sent that text.
fn left(held: &Held, sent: &str) -> (bool, bool, usize, bool) {
    (
        held.exchange.may_keep(),
        held.exchange.modules_stood(),
        held.session.phase_log().len(),
        has_taken(held.exchange.link(), sent),
    )
}

/// Whether the exchange finishes with these texts and ten calls, and its link may be kept.
fn finishes(
    held: &mut Held,
    app: &App<Changes>,
    alloc: Global,
    client: &mut Client,
    sent: &str,
    written: &str,
) -> bool {
    let last = run(held, app, alloc, client);
    left(held, sent) == (true, true, 10, true)
        && last == Step::Finished
        && has_taken(client.link(), written)
}

/// The same of an upload behind the application that does that.
fn comes_to(does: Does, alloc: Global, sent: &str, written: &str) -> Result<bool> {
    let app = app(does);
    let script = &[Gives::Text("ab"), Gives::Text("cd")];
    let mut client: Client = Connection::new(alloc, link(alloc, script)?);
    match begun(&app, alloc)? {
        Some(mut held) => Ok(finishes(&mut held, &app, alloc, &mut client, sent, written)),
        None => Ok(false),
    }
}

#[test]
fn an_application_that_changes_nothing_passes_both_bodies(rt: HostRuntime) {
    let sent = "PUT / HTTP/1.1\r\ncontent-length: 4\r\n\r\nabcd";
    let written = "HTTP/1.1 200 OK\r\ncontent-length: 2\r\n\r\nhi";
    assert!(rt; comes_to(Does::Leaves, rt.alloc(), sent, written) == Ok(true));
}

#[test]
fn an_application_that_writes_pieces_is_sent_and_written(rt: HostRuntime) {
    let sent = "PUT / HTTP/1.1\r\ncontent-length: 4\r\n\r\nnono";
    let written = "HTTP/1.1 200 OK\r\ncontent-length: 2\r\nvia: relay\r\n\r\nho";
    assert!(rt; comes_to(Does::Writes, rt.alloc(), sent, written) == Ok(true));
}
