//! Answers of a peer's side in words.
use http_header::TRANSFER_ENCODING;
use relay_core::Up;
use relay_tasks::{Context, ErrorType, Fail, HttpTask, ResponseHeader, Result, Took};
use std::alloc::Global;

/// A head in a word.
fn head_word(head: &ResponseHeader, end: bool) -> &'static str {
    if head.is_informational() {
        " informs"
    } else if end {
        " head and end"
    } else if head.headers().get(&TRANSFER_ENCODING).is_some() {
        " chunked head"
    } else {
        " head"
    }
}

/// A task in a word.
fn task_word(task: &HttpTask) -> &'static str {
    match task {
        HttpTask::Header(head, end) => head_word(head, *end),
        HttpTask::Body(_, false) => " piece",
        HttpTask::Body(_, true) => " piece and end",
        HttpTask::Done => " done",
        HttpTask::UpgradedBody(_, _) | HttpTask::Trailer(_) | HttpTask::Failed(_) => " other",
    }
}

/// A failure in a word.
fn fail_word(fail: Fail) -> &'static str {
    match fail {
        Fail::OutOfMemory => " no memory",
        Fail::Error(error) => {
            if error.context == Context::Mismatch101 {
                " switches"
            } else if error.etype == ErrorType::ConnectionClosed {
                " cut off"
            } else {
                " refused"
            }
        }
    }
}

/// What a read of a response gives, in a word; none for `More`.
pub(super) fn word(took: &Took<HttpTask>) -> &'static str {
    match took {
        Took::Item(task) => task_word(task),
        Took::More => "",
        Took::Waited(_) => " waited",
        Took::End => " end",
        Took::Failed(fail) => fail_word(*fail),
    }
}

/// Whether so many reads of that side give these words.
pub(super) fn tells<U: Up>(alloc: Global, side: &mut U, reads: u8, want: &str) -> Result<bool> {
    let mut told = String::new(alloc);
    for _ in 0..reads {
        told.push_str(word(&side.read_task()))?;
    }
    Ok(told.as_str() == want)
}
