//! Reports: what the requests of a run came to, as text. A printer for each kind of thing; each
//! writes its text at the end of a buffer.
ghost use Rattle.std.specs.Prelude.{◌≡◌, ℕ, List, ◌+◌, ◌<◌, ◌^◌, ◌++◌, length, decimal, map, OnOk, IfOk};
ghost use Rattle.relay_json.specs.Names.{type_text};
ghost use Rattle.relay_command.specs.Report.{request_spec, hex_digit, shown_byte, shown, yes_no, source_name, retry_name, error_text, outcome_name, outcome_error, outcome_reuse, attempt_text, attempts_text, outcome_text, client_text, answer_text, line_text, log_text, unlisted_text, request_text, request_specs, report_of, IsShownAlone};

use bytes::Bytes;
use itoa::Buffer;
use relay_json::{hook_name, type_name, type_number};
use relay_proxy::Outcome;
use relay_tasks::{Error, ErrorSource, ErrorType, HookAnswer, LogLine, RetryType};
use std::alloc::{AllocError, Global};

/// What an attempt came to: the name of its peer, whether its link had been used before, whether
/// the link was kept, the error that ended the attempt, and the bytes that the link took.
#[derive(Drop)]
pub struct AttemptReport {
    pub name: Bytes,
    pub reused: bool,
    pub kept: bool,
    pub error: Option<Error>,
    pub sent: Bytes,
}

/// What a request came to: its outcome, the bytes that the client's link took, its attempts, the
/// first calls of its hooks, and how many followed these.
#[derive(Drop)]
pub struct RequestReport {
    pub outcome: Outcome,
    pub written: Bytes,
    pub attempts: Vec<AttemptReport>,
    pub log: Vec<LogLine>,
    pub unlisted: usize,
}

/// The report of requests, counted from 1.
pub fn report_text(alloc: Global, requests: &[RequestReport]) -> Result<Vec<u8>, AllocError>
    ensures { IfOk result (λ text. text.items ≡ report_of (request_specs requests.now)) }
{
    let mut out = Vec::new(alloc);
    for (index, request) in requests.iter().enumerate() {
        push_request(&mut out, index as u64 + 1, request)?;
    }
    Ok(out)
}

/// Writes the text of request k.
fn push_request(out: &mut Vec<u8>, k: u64, request: &RequestReport) -> Result<(), AllocError>
    ensures { OnOk result (out.new.items
        ≡ out.old.items ++ request_text k (request_spec request.now)) }
{
    push_outcome(out, k, request.outcome)?;
    push_client(out, request)?;
    push_attempts(out, &request.attempts)?;
    push_log(out, &request.log)?;
    push_unlisted(out, request.unlisted as u64)?;
    Ok(())
}

/// Writes how request k ended.
fn push_outcome(out: &mut Vec<u8>, k: u64, outcome: Outcome) -> Result<(), AllocError>
    ensures { OnOk result (out.new.items ≡ out.old.items ++ outcome_text k outcome) }
{
    push(out, b"request ")?;
    push_number(out, k)?;
    push(out, b"\noutcome ")?;
    push(out, outcome_name(outcome))?;
    push(out, b"\nerror ")?;
    push_error(out, outcome_error(outcome))?;
    push(out, b"\n")?;
    Ok(())
}

/// Writes whether the client goes back, and what its link took.
fn push_client(out: &mut Vec<u8>, request: &RequestReport) -> Result<(), AllocError>
    ensures { OnOk result (out.new.items
        ≡ out.old.items ++ client_text (request_spec request.now)) }
{
    push(out, b"reuse ")?;
    push(out, yes_no(outcome_reuse(request.outcome)))?;
    push(out, b"\nwritten ")?;
    push_bytes(out, &request.written)?;
    push(out, b"\n")?;
    Ok(())
}

/// Writes the attempts, counted from 1.
fn push_attempts(out: &mut Vec<u8>, attempts: &[AttemptReport]) -> Result<(), AllocError>
    ensures { OnOk result (out.new.items ≡ out.old.items ++ attempts_text 1 attempts.now) }
{
    for (index, attempt) in attempts.iter().enumerate() {
        push_attempt(out, index as u64 + 1, attempt)?;
    }
    Ok(())
}

/// Writes attempt j: a line on it, and one on what its link took.
fn push_attempt(out: &mut Vec<u8>, j: u64, attempt: &AttemptReport) -> Result<(), AllocError>
    ensures { OnOk result (out.new.items ≡ out.old.items ++ attempt_text j attempt.now) }
{
    push(out, b"attempt ")?;
    push_number(out, j)?;
    push(out, b" ")?;
    push_bytes(out, &attempt.name)?;
    push(out, b" reused ")?;
    push(out, yes_no(attempt.reused))?;
    push(out, b" kept ")?;
    push(out, yes_no(attempt.kept))?;
    push(out, b" error ")?;
    push_error(out, attempt.error)?;
    push(out, b"\nsent ")?;
    push_bytes(out, &attempt.sent)?;
    push(out, b"\n")?;
    Ok(())
}

/// Writes type, source and mark of an error, or a dash.
fn push_error(out: &mut Vec<u8>, error: Option<Error>) -> Result<(), AllocError>
    ensures { OnOk result (out.new.items ≡ out.old.items ++ error_text error) }
{
    let Some(error) = error else {
        push(out, b"-")?;
        return Ok(());
    };
    push_type(out, error.etype)?;
    push(out, b" ")?;
    push(out, source_name(error.esource))?;
    push(out, b" ")?;
    push(out, retry_name(error.retry))?;
    Ok(())
}

/// Writes the calls of hooks, each on a line.
fn push_log(out: &mut Vec<u8>, log: &[LogLine]) -> Result<(), AllocError>
    ensures { OnOk result (out.new.items ≡ out.old.items ++ log_text log.now) }
{
    for line in log {
        push_line(out, *line)?;
    }
    Ok(())
}

/// Writes how many calls of hooks are not told, where there are any.
fn push_unlisted(out: &mut Vec<u8>, calls: u64) -> Result<(), AllocError>
    ensures { OnOk result (out.new.items ≡ out.old.items ++ unlisted_text calls) }
{
    if calls != 0 {
        push(out, b"unlisted ")?;
        push_number(out, calls)?;
        push(out, b"\n")?;
    }
    Ok(())
}

/// Writes a call of a hook: which, and what it answered.
fn push_line(out: &mut Vec<u8>, line: LogLine) -> Result<(), AllocError>
    ensures { OnOk result (out.new.items ≡ out.old.items ++ line_text line) }
{
    push(out, b"log ")?;
    push(out, hook_name(line.hook))?;
    push(out, b" ")?;
    push_answer(out, line.answer)?;
    push(out, b"\n")?;
    Ok(())
}

/// Writes what a hook answered.
fn push_answer(out: &mut Vec<u8>, answer: HookAnswer) -> Result<(), AllocError>
    ensures { OnOk result (out.new.items ≡ out.old.items ++ answer_text answer) }
{
    match answer {
        HookAnswer::Failed(etype) => {
            push(out, b"err ")?;
            push_type(out, etype)?;
        }
        HookAnswer::Said(true) => push(out, b"true")?,
        HookAnswer::Said(false) => push(out, b"false")?,
        HookAnswer::Done => push(out, b"ok")?,
    }
    Ok(())
}

/// Writes the type of an error, with its number where it has one.
fn push_type(out: &mut Vec<u8>, etype: ErrorType) -> Result<(), AllocError>
    ensures { OnOk result (out.new.items ≡ out.old.items ++ type_text etype) }
{
    push(out, type_name(etype))?;
    if let Some(number) = type_number(etype) {
        push(out, b"(")?;
        push_number(out, u64::from(number))?;
        push(out, b")")?;
    }
    Ok(())
}

/// No two lists of bytes are shown alike.
#[tactic(auto, using(crate::proofs::ReportLemmas::shown_alone))]
pub fn shown_alone()
    ensures { (bytes : List ℕ) → IsShownAlone bytes }
{}

/// Writes bytes so that each can be read.
fn push_bytes(out: &mut Vec<u8>, bytes: &[u8]) -> Result<(), AllocError>
    ensures { OnOk result (out.new.items ≡ out.old.items ++ shown bytes.now) }
{
    for byte in bytes {
        push_byte(out, *byte)?;
    }
    Ok(())
}

/// Writes a byte so that it can be read.
fn push_byte(out: &mut Vec<u8>, byte: u8) -> Result<(), AllocError>
    ensures { OnOk result (out.new.items ≡ out.old.items ++ shown_byte byte) }
{
    match byte {
        b'\\' => push(out, b"\\\\")?,
        b'\r' => push(out, b"\\r")?,
        b'\n' => push(out, b"\\n")?,
        b' '..=b'~' => push(out, &[byte])?,
        _ => push(
            out,
            &[b'\\', b'x', hex_digit(byte / 16), hex_digit(byte % 16)],
        )?,
    }
    Ok(())
}

/// A number below 16 as a lower-case digit.
fn hex_digit(n: u8) -> u8
    requires { n < 16 }
    ensures { result ≡ hex_digit n }
{
    if n < 10 { b'0' + n } else { b'a' - 10 + n }
}

/// Writes a number in decimal digits.
fn push_number(out: &mut Vec<u8>, n: u64) -> Result<(), AllocError>
    ensures { OnOk result (out.new.items ≡ out.old.items ++ decimal n) }
{
    let mut buffer = Buffer::new();
    push(out, buffer.format(n).as_bytes())?;
    Ok(())
}

/// Writes a text as it is.
fn push(out: &mut Vec<u8>, text: &[u8]) -> Result<(), AllocError>
    ensures { OnOk result (out.new.items ≡ out.old.items ++ text.now) }
{
    out.extend_from_slice(text)?;
    Ok(())
}

fn yes_no(answer: bool) -> &'static [u8]
    ensures { result.now ≡ yes_no answer }
{
    if answer { b"yes" } else { b"no" }
}

fn outcome_name(outcome: Outcome) -> &'static [u8]
    ensures { result.now ≡ outcome_name outcome }
{
    match outcome {
        Outcome::NoRequest => b"NoRequest",
        Outcome::Refused { .. } => b"Refused",
        Outcome::Served { .. } => b"Served",
        Outcome::TurnLimit => b"TurnLimit",
        Outcome::OutOfMemory => b"OutOfMemory",
    }
}

/// The error that an outcome carries.
fn outcome_error(outcome: Outcome) -> Option<Error>
    ensures { result ≡ outcome_error outcome }
{
    match outcome {
        Outcome::Refused { error } | Outcome::Served { error, .. } => error,
        Outcome::NoRequest | Outcome::TurnLimit | Outcome::OutOfMemory => None,
    }
}

/// Whether the client's connection goes back for another request.
pub(crate) fn outcome_reuse(outcome: Outcome) -> bool
    ensures { result ≡ outcome_reuse outcome }
{
    match outcome {
        Outcome::Served { reuse, .. } => reuse,
        Outcome::NoRequest | Outcome::Refused { .. } | Outcome::TurnLimit | Outcome::OutOfMemory =>
            false,
    }
}

fn source_name(side: ErrorSource) -> &'static [u8]
    ensures { result.now ≡ source_name side }
{
    match side {
        ErrorSource::Upstream => b"Upstream",
        ErrorSource::Downstream => b"Downstream",
        ErrorSource::Internal => b"Internal",
        ErrorSource::Unset => b"Unset",
    }
}

fn retry_name(mark: RetryType) -> &'static [u8]
    ensures { result.now ≡ retry_name mark }
{
    match mark {
        RetryType::Decided(true) => b"true",
        RetryType::Decided(false) => b"false",
        RetryType::ReusedOnly => b"reused",
    }
}
