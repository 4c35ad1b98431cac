//! Pieces of a request body, and the tasks in which they pass the request pipe.
ghost use Rattle.std.specs.Prelude.{◌≡◌};
ghost use Rattle.relay_core.specs.Piece.{task_put_of, is_empty};

use bytes::Bytes;
use relay_tasks::HttpTask;

/// A piece of the client's request as the filters left it. `upstream_end` says that the request to
/// the upstream ends with it, `client_end` that the client's own request does.
#[derive(Drop)]
pub struct Piece {
    pub bytes: Option<Bytes>,
    pub upstream_end: bool,
    pub client_end: bool,
}

impl Piece {
    /// The task in which the piece is put, as raw bytes of a tunnel where the client was upgraded.
    /// None exactly where it is empty and not the end: such a piece is never put.
    pub fn into_task(self, upgraded: bool) -> Option<HttpTask>
        ensures { result ≡ task_put_of upgraded self }
    {
        if self.is_empty() && !self.upstream_end {
            return None;
        }
        if upgraded {
            Some(HttpTask::UpgradedBody(self.bytes, self.upstream_end))
        } else {
            Some(HttpTask::Body(self.bytes, self.upstream_end))
        }
    }

    /// Whether the piece has no bytes.
    pub fn is_empty(&self) -> bool
        ensures { result ≡ is_empty self.now.bytes }
    {
        match &self.bytes {
            Some(bytes) => bytes.is_empty(),
            None => true,
        }
    }
}
