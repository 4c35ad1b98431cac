//! The heads of the answers that the relay makes itself (RFC 9110, section 15).
ghost use Rattle.std.specs.Prelude.{◌≡◌, ◌<◌, ◌^◌, length, IfOk, OnOk, IsOkUnless};
ghost use Rattle.relay_tasks.specs.Head.{IsStatus};
ghost use Rattle.relay_session.specs.Generated.{generated_head, head_and_body};

use bytes::Bytes;
use http_header::{CACHE_CONTROL, CONTENT_LENGTH, HeaderValue, SERVER};
use relay_tasks::{Fail, HttpTask, ResponseHeader, Result, TaskList};
use std::alloc::Global;

/// The head of an answer with that status, from 100 to 999, before a body of so many bytes.
#[tactic(auto, unfolding(crate::specs::Generated::generated_head))]
pub fn generated_head(alloc: Global, code: u16, size: u64) -> Result<ResponseHeader>
    requires { IsStatus code }
    ensures ok { IfOk result (λ head. head ≡ generated_head code size) }
    ensures memory { IsOkUnless result Fail.OutOfMemory }
{
    let mut head = ResponseHeader::build(alloc, code)?;
    let size = HeaderValue::from_u64(alloc, size)?;
    head.insert_header(SERVER, HeaderValue::from_static("Pingora"))?;
    head.insert_header(CONTENT_LENGTH, size)?;
    head.insert_header(CACHE_CONTROL, HeaderValue::from_static("private, no-store"))?;
    Ok(head)
}

/// The tasks of an answer with that status, from 100 to 999, and that body.
pub fn answer_with_body(alloc: Global, code: u16, body: Bytes) -> Result<TaskList>
    requires { IsStatus code }
    ensures ok { IfOk result (λ tasks. tasks ≡ head_and_body code body) }
    ensures fits { OnOk result (length body < 2 ^ 64) }
    ensures memory { IsOkUnless result Fail.OutOfMemory }
{
    let head = generated_head(alloc, code, body.len() as u64)?;
    let mut tasks = TaskList::new(alloc);
    tasks.push(HttpTask::Header(head, false))?;
    tasks.push(HttpTask::Body(Some(body), true))?;
    Ok(tasks)
}
