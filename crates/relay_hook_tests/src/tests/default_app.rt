//! The application that decides nothing: each hook does what the table of defaults says.
use crate::tests::calls::{self, NOTHING, Told};
use crate::tests::rows::{self, Came, Deciding, OfBody, OfHead};
use crate::tests::support::{defaults, expect};
use relay_hooks::FailToProxy;
use relay_tasks::{Error, ErrorType, Result};
use std::alloc::Global;

fn decided(alloc: Global, hook: Deciding) -> Result<Came> {
    rows::decided(defaults(), alloc, hook)
}

#[test]
fn lets_each_request_go_on(rt: HostRuntime) {
    let alloc = rt.alloc();
    expect(
        &rt,
        decided(alloc, Deciding::EarlyRequestFilter),
        Ok(Came::Went),
    );
    let asked = decided(alloc, Deciding::RequestFilter);
    expect(&rt, asked, Ok(Came::Queued(false, 0)));
    let asked = decided(alloc, Deciding::ProxyUpstreamFilter);
    expect(&rt, asked, Ok(Came::Queued(true, 0)));
    expect(
        &rt,
        decided(alloc, Deciding::UpstreamPeer),
        Ok(Came::Says(true)),
    );
    expect(
        &rt,
        decided(alloc, Deciding::ConnectedToUpstream),
        Ok(Came::Went),
    );
    let asked = decided(alloc, Deciding::CustomForwarding);
    expect(&rt, asked, Ok(Came::Injected(0, 0)));
}

#[test]
fn takes_a_client_again(rt: HostRuntime) {
    expect(
        &rt,
        calls::on_connection_reuse(defaults(), rt.alloc(), ()),
        Ok(0),
    );
}

#[test]
fn hides_nothing(rt: HostRuntime) {
    let error = Error::new_up(ErrorType::ReadError);
    expect(
        &rt,
        calls::answers_of(defaults(), rt.alloc(), &error),
        Ok(NOTHING),
    );
}

#[test]
fn logs_and_summarizes(rt: HostRuntime) {
    let alloc = rt.alloc();
    let error = Error::new_up(ErrorType::ReadError);
    expect(&rt, calls::logging(defaults(), alloc, &error), Ok(0));
    let is_line = calls::request_summary(defaults(), alloc, b"POST /a, Host: ");
    expect(&rt, is_line, Ok(true));
}

fn head_left(alloc: Global, filter: OfHead) -> Result<Came> {
    rows::head_left(defaults(), alloc, filter)
}

/// The head with that status, without Via.
fn same(status: u16) -> Result<Came> {
    let via = false;
    Ok(Came::Head(Told { status, via }))
}

#[test]
fn leaves_heads(rt: HostRuntime) {
    let alloc = rt.alloc();
    expect(
        &rt,
        head_left(alloc, OfHead::UpstreamRequest),
        Ok(Came::Says(false)),
    );
    expect(&rt, head_left(alloc, OfHead::UpstreamResponse), same(204));
    expect(&rt, head_left(alloc, OfHead::Response), same(204));
    expect(&rt, head_left(alloc, OfHead::PurgeResponse), same(200));
}

fn body_left(alloc: Global, filter: OfBody) -> Result<Came> {
    rows::body_left(defaults(), alloc, filter)
}

#[test]
fn leaves_pieces_trailers_and_messages(rt: HostRuntime) {
    let alloc = rt.alloc();
    let piece = Some(b'h');
    expect(
        &rt,
        body_left(alloc, OfBody::Request),
        Ok(Came::Left(piece)),
    );
    let same = Came::Delayed(None, piece);
    expect(&rt, body_left(alloc, OfBody::UpstreamResponse), Ok(same));
    expect(&rt, body_left(alloc, OfBody::Response), Ok(same));
    expect(
        &rt,
        body_left(alloc, OfBody::UpstreamTrailer),
        Ok(Came::Count(0)),
    );
    expect(
        &rt,
        body_left(alloc, OfBody::ResponseTrailer),
        Ok(Came::Says(false)),
    );
    let message = Came::Left(Some(b'm'));
    expect(
        &rt,
        body_left(alloc, OfBody::DownstreamMessage),
        Ok(message),
    );
    expect(&rt, body_left(alloc, OfBody::UpstreamMessage), Ok(message));
}

#[test]
fn answers_and_marks_errors(rt: HostRuntime) {
    let alloc = rt.alloc();
    let mut error = Error::new_up(ErrorType::ReadError);
    let told = FailToProxy {
        error_code: 502,
        can_reuse_downstream: false,
    };
    expect(
        &rt,
        calls::fail_to_proxy(defaults(), alloc, &error),
        Ok((told, 1)),
    );
    error.set_retry(true);
    expect(
        &rt,
        calls::fail_to_connect(defaults(), alloc, error),
        Ok(error),
    );
}
