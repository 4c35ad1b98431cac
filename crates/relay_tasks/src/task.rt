//! The pieces in which a response moves: a head, pieces of its body, trailer fields, and its end.
ghost use Rattle.std.specs.Prelude.{◌≡◌, IfOk, IsOkUnless};

use crate::copies::{copy_piece, copy_trailers};
use crate::error::{Error, Fail, Result};
use crate::response::ResponseHeader;
use bytes::Bytes;
use http_header::HeaderMap;

/// A piece of a response. The flag of the first three says whether the response ends with it.
#[derive(Drop)]
pub enum HttpTask {
    Header(ResponseHeader, bool),
    Body(Option<Bytes>, bool),
    UpgradedBody(Option<Bytes>, bool),
    Trailer(Option<HeaderMap>),
    Done,
    Failed(Error),
}

impl HttpTask {
    ghost use Rattle.relay_tasks.specs.Task.{is_end, type_name};

    /// Whether the task is the last of its response: the flag, and true for trailers, `Done` and
    /// `Failed`.
    pub fn is_end(&self) -> bool
        ensures { result ≡ is_end self.now }
    {
        match self {
            HttpTask::Header(_, end) => *end,
            HttpTask::Body(_, end) => *end,
            HttpTask::UpgradedBody(_, end) => *end,
            HttpTask::Trailer(_) => true,
            HttpTask::Done => true,
            HttpTask::Failed(_) => true,
        }
    }

    /// The name of the task's kind.
    pub fn type_str(&self) -> &'static str
        ensures { result.now ≡ type_name self.now }
    {
        match self {
            HttpTask::Header(_, _) => "Header",
            HttpTask::Body(_, _) => "Body",
            HttpTask::UpgradedBody(_, _) => "UpgradedBody",
            HttpTask::Trailer(_) => "Trailer",
            HttpTask::Done => "Done",
            HttpTask::Failed(_) => "Failed",
        }
    }

    /// An equal task.
    pub fn copy(&self) -> Result<HttpTask>
        ensures ok { IfOk result (λ copy. copy ≡ self.now) }
        ensures memory { IsOkUnless result Fail.OutOfMemory }
    {
        match self {
            HttpTask::Header(head, end) => Ok(HttpTask::Header(head.copy()?, *end)),
            HttpTask::Body(piece, end) => Ok(HttpTask::Body(copy_piece(piece)?, *end)),
            HttpTask::UpgradedBody(piece, end) => {
                Ok(HttpTask::UpgradedBody(copy_piece(piece)?, *end))
            }
            HttpTask::Trailer(fields) => Ok(HttpTask::Trailer(copy_trailers(fields)?)),
            HttpTask::Done => Ok(HttpTask::Done),
            HttpTask::Failed(error) => Ok(HttpTask::Failed(*error)),
        }
    }
}
