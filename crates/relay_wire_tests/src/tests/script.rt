//! Each condition and each action once, with ample memory.

use bytes::Bytes;
use http::Method;
use http_header::{CONTENT_LENGTH, HOST, HeaderValue, VIA};
use relay_script::*;
use relay_tasks::{
    Error, ErrorType, Fail, Hook, Injected, MessageList, RequestHeader, ResponseHeader, Result,
    RetryType,
};
use std::alloc::{AllocError, Global};
use std::test::Fail as Failed;

type Checked = std::result::Result<(), Failed>;

/// What is wrong with that rule.
fn fault_of(hook: Hook, action: Action) -> Option<RuleFault> {
    let rules = [Rule { hook, action }];
    match check_rules(&rules) {
        Ok(()) => None,
        Err(error) => Some(error.fault),
    }
}

#[test]
fn refuses_each_fault(rt: HostRuntime) {
    let remove = Action::Remove {
        name: CONTENT_LENGTH,
    };
    let fault = fault_of(Hook::PurgeResponseFilter, remove);
    assert!(rt; fault == Some(RuleFault::Framing));
    let fault = fault_of(Hook::RequestSummary, Action::Error(ErrorType::ReadError));
    assert!(rt; fault == Some(RuleFault::Misplaced));
    let fault = fault_of(Hook::ResponseFilter, Action::Status(103));
    assert!(rt; fault == Some(RuleFault::Code));
    let answer = Action::Answer {
        code: 403,
        say: false,
    };
    assert!(rt; fault_of(Hook::RequestFilter, answer) == Some(RuleFault::Say));
}

fn crowded() -> Option<RuleError> {
    let answer = Action::Answer {
        code: 403,
        say: true,
    };
    let rules = [
        Rule {
            hook: Hook::RequestFilter,
            action: Action::Error(ErrorType::InternalError),
        },
        Rule {
            hook: Hook::RequestFilter,
            action: answer,
        },
    ];
    check_rules(&rules).err()
}

#[test]
fn names_the_first_rule_beside_an_answer(rt: HostRuntime) {
    let error = RuleError {
        at: 0,
        fault: RuleFault::Crowded,
    };
    assert!(rt; crowded() == Some(error));
}

fn is_checked(alloc: Global, hook: Hook, action: Action) -> std::result::Result<bool, AllocError> {
    let rules = vec![in alloc; Rule { hook, action }]?;
    Ok(CheckedRules::new(rules).is_ok())
}

#[test]
fn takes_a_lawful_rule(rt: HostRuntime) {
    assert!(rt;
        matches!(
            is_checked(rt.alloc(), Hook::IsPurge, Action::Say(true)),
            Ok(true)
        )
    );
}

/// Runs that rule on the value.
fn run<T: Filtered>(hook: Hook, action: Action, value: &mut T) -> Result<()> {
    let rules = [Rule { hook, action }];
    run_rules(&rules, hook, value)
}

fn changes_fields(alloc: Global) -> Result<bool> {
    let mut head = RequestHeader::build(alloc, &Method::GET, b"/")?;
    let hook = Hook::UpstreamRequestFilter;
    let put = head.append_header(HOST, HeaderValue::from_static("one"));
    let value = HeaderValue::from_static("relay");
    let set = run(hook, Action::Set { name: VIA, value }, &mut head);
    let removed = run(hook, Action::Remove { name: HOST }, &mut head);
    let fields = head.headers();
    let changed = !fields.contains_key("host") && fields.contains_key("via");
    Ok(put.is_ok() && set.is_ok() && removed.is_ok() && changed)
}

#[test]
fn changes_a_request(rt: HostRuntime) {
    assert!(rt; matches!(changes_fields(rt.alloc()), Ok(true)));
}

fn changes_status(alloc: Global) -> Result<bool> {
    let mut head = ResponseHeader::build(alloc, 200)?;
    let set = run(Hook::ResponseFilter, Action::Status(418), &mut head);
    Ok(set.is_ok() && head.status() == 418)
}

fn failure(alloc: Global) -> Result<Option<Fail>> {
    let mut head = ResponseHeader::build(alloc, 103)?;
    let error = Action::Error(ErrorType::HTTPStatus(403));
    Ok(run(Hook::ResponseFilter, error, &mut head).err())
}

#[test]
fn sets_a_status_and_fails(rt: HostRuntime) -> Checked {
    assert!(rt; changes_status(rt.alloc())?);
    let fail = Fail::Error(Error::new(ErrorType::HTTPStatus(403)));
    assert!(rt; failure(rt.alloc())? == Some(fail));
    Ok(())
}

fn puts_a_text() -> bool {
    let mut piece = Some(Bytes::from_static(b"hi"));
    let text = Action::Text(Bytes::from_static(b"h"));
    let put = run(Hook::ResponseBodyFilter, text, &mut piece).is_ok();
    put && piece == Some(Bytes::from_static(b"h"))
}

fn drops_a_piece() -> bool {
    let mut piece = Some(Bytes::from_static(b"hi"));
    run(Hook::RequestBodyFilter, Action::Drop, &mut piece).is_ok() && piece.is_none()
}

#[test]
fn puts_a_text_in_the_place_of_a_piece(rt: HostRuntime) {
    assert!(rt; puts_a_text());
    assert!(rt; drops_a_piece());
}

fn injects(alloc: Global) -> Result<bool> {
    let mut up = MessageList::new(alloc);
    up.push(Bytes::from_static(b"u"))?;
    let down = MessageList::new(alloc);
    let mut sent = Injected::new(alloc);
    let inject = Action::Inject { up, down };
    let done = run(Hook::CustomForwarding, inject, &mut sent);
    Ok(done.is_ok() && sent.to_upstream.len() == 1 && sent.to_downstream.is_empty())
}

#[test]
fn injects_messages(rt: HostRuntime) {
    assert!(rt; matches!(injects(rt.alloc()), Ok(true)));
}

/// Tells the value by that rule.
fn told<T: Answered>(hook: Hook, action: Action, mut value: T) -> T {
    let rules = [Rule { hook, action }];
    apply_rules(&rules, hook, &mut value);
    value
}

#[test]
fn says_keeps_and_marks(rt: HostRuntime) {
    assert!(rt; told(Hook::IsPurge, Action::Say(true), false));
    let kept: Option<u64> = None;
    let kept = told(Hook::PersistConnectionContext, Action::Keep(7), kept);
    assert!(rt; kept == Some(7));
    let retry = Action::Retry(RetryType::Decided(true));
    let error = Error::new(ErrorType::ConnectError);
    assert!(rt; told(Hook::FailToConnect, retry, error).retry());
}
