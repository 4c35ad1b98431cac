//! The application of a script, with one rule each.
use crate::tests::calls::{self, Answers, NOTHING, Told};
use crate::tests::rows::{self, Came, Deciding, OfBody, OfHead};
use crate::tests::support::{expect, peer};
use bytes::Bytes;
use http_header::{HeaderValue, VIA};
use relay_script::{Action, CheckedRules, Rule};
use relay_scripted::ScriptProxy;
use relay_tasks::{Error, ErrorType, Fail, Hook, MessageList, Result, RetryType};
use std::alloc::{AllocError, Global};
use std::process::Abort;

/// The application with that rule alone; out of memory where the rule is refused.
pub(crate) fn app_of(alloc: Global, hook: Hook, action: Action) -> Result<ScriptProxy> {
    let mut rules = Vec::new(alloc);
    rules.push(Rule { hook, action }).map_err(AllocError::from)?;
    match CheckedRules::new(rules) {
        Ok(rules) => Ok(ScriptProxy::new(rules, peer())),
        Err(_) => Err(Fail::OutOfMemory),
    }
}

/// The application whose hook fails.
pub(crate) fn failing(alloc: Global, hook: Hook) -> Result<ScriptProxy> {
    app_of(alloc, hook, Action::Error(ErrorType::Custom(7)))
}

/// The application whose hook says yes.
fn saying(alloc: Global, hook: Hook) -> Result<ScriptProxy> {
    app_of(alloc, hook, Action::Say(true))
}

/// The application whose hook sets the field Via.
pub(crate) fn setting(alloc: Global, hook: Hook) -> Result<ScriptProxy> {
    let set = Action::Set {
        name: VIA,
        value: HeaderValue::from_static("relay"),
    };
    app_of(alloc, hook, set)
}

fn refused() -> Fail {
    Fail::Error(Error::new(ErrorType::Custom(7)))
}

fn decided(app: Result<ScriptProxy>, alloc: Global, hook: Deciding) -> Result<Came> {
    rows::decided(app, alloc, hook)
}

fn head_left(app: Result<ScriptProxy>, alloc: Global, filter: OfHead) -> Result<Came> {
    rows::head_left(app, alloc, filter)
}

fn body_left(app: Result<ScriptProxy>, alloc: Global, filter: OfBody) -> Result<Came> {
    rows::body_left(app, alloc, filter)
}

/// Asserts that the call fails where that hook fails.
fn expect_failed(rt: &impl Abort, alloc: Global, fails: Hook, hook: Deciding) {
    expect(
        rt,
        decided(failing(alloc, fails), alloc, hook),
        Err(refused()),
    );
}

#[test]
fn fails_before_the_request_goes_on(rt: HostRuntime) {
    let alloc = rt.alloc();
    let early = Deciding::EarlyRequestFilter;
    expect_failed(&rt, alloc, Hook::InitDownstreamModules, early);
    expect_failed(&rt, alloc, Hook::EarlyRequestFilter, early);
    expect_failed(&rt, alloc, Hook::UpstreamPeer, Deciding::UpstreamPeer);
    expect_failed(
        &rt,
        alloc,
        Hook::ConnectedToUpstream,
        Deciding::ConnectedToUpstream,
    );
}

/// The same of a filter.
fn expect_stopped(rt: &impl Abort, alloc: Global, fails: Hook, filter: OfBody) {
    expect(
        rt,
        body_left(failing(alloc, fails), alloc, filter),
        Err(refused()),
    );
}

#[test]
fn fails_behind_it(rt: HostRuntime) {
    let alloc = rt.alloc();
    let hook = Hook::UpstreamResponseTrailerFilter;
    expect_stopped(&rt, alloc, hook, OfBody::UpstreamTrailer);
    expect_stopped(
        &rt,
        alloc,
        Hook::ResponseTrailerFilter,
        OfBody::ResponseTrailer,
    );
    let hook = Hook::DownstreamCustomMessageProxyFilter;
    expect_stopped(&rt, alloc, hook, OfBody::DownstreamMessage);
    let hook = Hook::UpstreamCustomMessageProxyFilter;
    expect_stopped(&rt, alloc, hook, OfBody::UpstreamMessage);
}

/// What the application says whose hook has that rule.
fn answers(alloc: Global, hook: Hook, action: Action) -> Result<Answers> {
    let error = Error::new_up(ErrorType::ReadError);
    calls::answers_of(app_of(alloc, hook, action), alloc, &error)
}

/// What the application says whose hook says yes.
fn says(alloc: Global, hook: Hook) -> Result<Answers> {
    answers(alloc, hook, Action::Say(true))
}

#[test]
fn says_what_the_rule_says(rt: HostRuntime) {
    let alloc = rt.alloc();
    let mut spawns = NOTHING;
    spawns.spawns = true;
    expect(&rt, says(alloc, Hook::AllowSpawningSubrequest), Ok(spawns));
    let mut hides = NOTHING;
    hides.hides_error = true;
    expect(&rt, says(alloc, Hook::SuppressErrorLog), Ok(hides));
    let mut hides = NOTHING;
    hides.hides_warning = true;
    expect(&rt, says(alloc, Hook::SuppressProxyWarnLog), Ok(hides));
    let mut purges = NOTHING;
    purges.purges = true;
    expect(&rt, says(alloc, Hook::IsPurge), Ok(purges));
    let mut keeps = NOTHING;
    keeps.keeps = true;
    let came = answers(alloc, Hook::PersistConnectionContext, Action::Keep(5));
    expect(&rt, came, Ok(keeps));
}

#[test]
fn answers_the_client(rt: HostRuntime) {
    let alloc = rt.alloc();
    let yes = Action::Answer {
        code: 403,
        say: true,
    };
    let app = app_of(alloc, Hook::RequestFilter, yes);
    let asked = decided(app, alloc, Deciding::RequestFilter);
    expect(&rt, asked, Ok(Came::Queued(true, 1)));
    let no = Action::Answer {
        code: 503,
        say: false,
    };
    let app = app_of(alloc, Hook::ProxyUpstreamFilter, no);
    let asked = decided(app, alloc, Deciding::ProxyUpstreamFilter);
    expect(&rt, asked, Ok(Came::Queued(false, 1)));
}

/// A head with that status, to which Via was set where that is so.
fn told(status: u16, via: bool) -> Result<Came> {
    Ok(Came::Head(Told { status, via }))
}

#[test]
fn changes_heads(rt: HostRuntime) {
    let alloc = rt.alloc();
    let app = setting(alloc, Hook::UpstreamRequestFilter);
    let left = head_left(app, alloc, OfHead::UpstreamRequest);
    expect(&rt, left, Ok(Came::Says(true)));
    let app = setting(alloc, Hook::ResponseFilter);
    expect(
        &rt,
        head_left(app, alloc, OfHead::Response),
        told(204, true),
    );
    let app = app_of(alloc, Hook::UpstreamResponseFilter, Action::Status(206));
    let left = head_left(app, alloc, OfHead::UpstreamResponse);
    expect(&rt, left, told(206, false));
    let app = setting(alloc, Hook::PurgeResponseFilter);
    let left = head_left(app, alloc, OfHead::PurgeResponse);
    expect(&rt, left, told(200, true));
}

#[test]
fn changes_pieces(rt: HostRuntime) {
    let alloc = rt.alloc();
    let text = Action::Text(Bytes::from_static(b"no"));
    let app = app_of(alloc, Hook::UpstreamResponseBodyFilter, text);
    let left = body_left(app, alloc, OfBody::UpstreamResponse);
    expect(&rt, left, Ok(Came::Delayed(None, Some(b'n'))));
    let app = app_of(alloc, Hook::ResponseBodyFilter, Action::Drop);
    let left = body_left(app, alloc, OfBody::Response);
    expect(&rt, left, Ok(Came::Delayed(None, None)));
    let app = app_of(alloc, Hook::RequestBodyFilter, Action::Drop);
    expect(
        &rt,
        body_left(app, alloc, OfBody::Request),
        Ok(Came::Left(None)),
    );
}

/// The application that puts one message in front of those to the upstream.
fn injecting(alloc: Global) -> Result<ScriptProxy> {
    let mut up = MessageList::new(alloc);
    up.push(Bytes::from_static(b"m"))?;
    let down = MessageList::new(alloc);
    app_of(alloc, Hook::CustomForwarding, Action::Inject { up, down })
}

/// The application that marks errors for another attempt.
fn marking(alloc: Global, hook: Hook) -> Result<ScriptProxy> {
    app_of(alloc, hook, Action::Retry(RetryType::Decided(true)))
}

#[test]
fn injects_messages_and_marks_errors(rt: HostRuntime) {
    let alloc = rt.alloc();
    expect(
        &rt,
        calls::custom_forwarding(injecting(alloc), alloc),
        Ok((1, 0)),
    );
    let error = Error::new_up(ErrorType::ReadError);
    let mut again = error;
    again.set_retry(true);
    let app = marking(alloc, Hook::ErrorWhileProxy);
    let marked = calls::error_while_proxy(app, alloc, false, error, false);
    expect(&rt, marked, Ok(again));
    let app = marking(alloc, Hook::FailToConnect);
    expect(&rt, calls::fail_to_connect(app, alloc, error), Ok(again));
}

/// How many tasks are queued for an error.
fn queued(alloc: Global, error: &Error) -> Result<usize> {
    let (_, count) = calls::fail_to_proxy(saying(alloc, Hook::IsPurge), alloc, error)?;
    Ok(count)
}

#[test]
fn counts_calls_without_rules(rt: HostRuntime) {
    let alloc = rt.alloc();
    let error = Error::new_up(ErrorType::ReadError);
    let app = saying(alloc, Hook::IsPurge);
    expect(&rt, calls::logging(app, alloc, &error), Ok(1));
    let app = saying(alloc, Hook::IsPurge);
    expect(&rt, calls::on_connection_reuse(app, alloc, 5), Ok(1));
    expect(&rt, queued(alloc, &error), Ok(1));
}
