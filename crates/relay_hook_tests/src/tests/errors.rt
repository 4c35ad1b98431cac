//! Errors of every kind and source: how the application that decides nothing marks and answers
//! them, against values written by hand.
use crate::tests::calls;
use crate::tests::support::{defaults, expect};
use http::Method;
use relay_hooks::defaults::{answer_code, is_idempotent};
use relay_tasks::{Error, ErrorSource, ErrorType, Result, RetryType};
use std::alloc::Global;

/// Each kind, with the status for the upstream's, the client's and the relay's own errors; those of
/// no side are answered as the relay's own.
const ANSWERS: [(ErrorType, u16, u16, u16); 20] = [
    (ErrorType::InvalidHTTPHeader, 502, 400, 500),
    (ErrorType::ReadError, 502, 0, 500),
    (ErrorType::ReadTimedout, 502, 400, 500),
    (ErrorType::WriteError, 502, 0, 500),
    (ErrorType::WriteTimedout, 502, 400, 500),
    (ErrorType::ConnectionClosed, 502, 0, 500),
    (ErrorType::ConnectError, 502, 400, 500),
    (ErrorType::PrematureBodyEnd, 502, 400, 500),
    (ErrorType::H2Error, 502, 400, 500),
    (ErrorType::H2Downgrade, 502, 400, 500),
    (ErrorType::InvalidH2, 502, 400, 500),
    (ErrorType::InternalError, 502, 400, 500),
    (ErrorType::FileReadError, 502, 400, 500),
    (ErrorType::Custom(7), 502, 400, 500),
    (ErrorType::HTTPStatus(403), 403, 403, 403),
    (ErrorType::HTTPStatus(100), 100, 100, 100),
    (ErrorType::HTTPStatus(999), 999, 999, 999),
    (ErrorType::HTTPStatus(99), 500, 500, 500),
    (ErrorType::HTTPStatus(1000), 500, 500, 500),
    (ErrorType::HTTPStatus(0), 500, 500, 500),
];

/// The status for an error of that kind and side.
fn code_of(etype: ErrorType, esource: ErrorSource) -> u16 {
    let mut error = Error::new(etype);
    error.esource = esource;
    answer_code(&error)
}

/// The statuses for the upstream's, the client's, the relay's own errors, and those of no side.
fn codes_of(etype: ErrorType) -> [u16; 4] {
    [
        code_of(etype, ErrorSource::Upstream),
        code_of(etype, ErrorSource::Downstream),
        code_of(etype, ErrorSource::Internal),
        code_of(etype, ErrorSource::Unset),
    ]
}

#[test]
fn tells_the_status_of_each_kind_by_its_side(rt: HostRuntime) {
    for (etype, up, down, own) in ANSWERS {
        assert_eq!(rt; codes_of(etype), [up, down, own, own], "{etype:?}");
    }
}

/// Whether the method may be repeated and the link had been used before, the mark before, and
/// whether another attempt may follow.
const MARKS: [(bool, bool, RetryType, bool); 12] = [
    (true, true, RetryType::ReusedOnly, true),
    (true, false, RetryType::ReusedOnly, false),
    (true, true, RetryType::Decided(true), true),
    (true, false, RetryType::Decided(true), true),
    (true, true, RetryType::Decided(false), false),
    (true, false, RetryType::Decided(false), false),
    (false, true, RetryType::ReusedOnly, false),
    (false, false, RetryType::ReusedOnly, false),
    (false, true, RetryType::Decided(true), false),
    (false, false, RetryType::Decided(true), false),
    (false, true, RetryType::Decided(false), false),
    (false, false, RetryType::Decided(false), false),
];

/// Whether another attempt may follow an error with that mark, of a GET or of a POST.
fn is_repeated(alloc: Global, repeats: bool, reused: bool, mark: RetryType) -> Result<bool> {
    let mut error = Error::new_up(ErrorType::ReadError);
    error.retry = mark;
    let treated = calls::error_while_proxy(defaults(), alloc, repeats, error, reused)?;
    Ok(treated.retry())
}

#[test]
fn marks_by_method_and_reuse(rt: HostRuntime) {
    let alloc = rt.alloc();
    for (repeats, reused, mark, again) in MARKS {
        expect(&rt, is_repeated(alloc, repeats, reused, mark), Ok(again));
    }
}

fn repeats(method: Method) -> bool {
    is_idempotent(&method)
}

#[test]
fn repeats_the_methods_that_are_idempotent(rt: HostRuntime) {
    let of_six = [
        repeats(Method::GET),
        repeats(Method::HEAD),
        repeats(Method::OPTIONS),
        repeats(Method::TRACE),
        repeats(Method::PUT),
        repeats(Method::DELETE),
    ];
    assert_eq!(rt; of_six, [true; 6]);
    let of_four = [
        repeats(Method::POST),
        repeats(Method::PATCH),
        repeats(Method::CONNECT),
        repeats(Method::QUERY),
    ];
    assert_eq!(rt; of_four, [false; 4]);
}
